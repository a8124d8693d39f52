ghost use Rattle.std.specs.Prelude.{◌≡◌, ◌≤◌, length};
ghost use Rattle.texts.specs.Cuts.{before};

// How many bytes come before the first `separator`; all, if it does not occur.
pub(crate) fn length_before(bytes: &[u8], separator: u8) -> usize
    ensures value { result ≡ length (before separator bytes.now) }
    ensures bound { result ≤ length bytes.now }
{
    bytes
        .iter()
        .position(|b| *b == separator)
        .unwrap_or(bytes.len())
}
