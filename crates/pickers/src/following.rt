ghost use Rattle.std.specs.Prelude.{◌≡◌};
ghost use Rattle.pickers.specs.Turns.{following};

// The place after `at` where n places are gone round: the first again after the last.
pub(crate) fn following(n: u8, at: u8) -> u8
    ensures { result ≡ following n at }
{
    at.checked_add(1).filter(|up| *up < n).unwrap_or(0)
}
