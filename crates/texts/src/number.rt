ghost use Rattle.std.specs.Prelude.{◌≡◌, false};
ghost use Rattle.texts.specs.Numbers.{number_of, signed_by, coordinate_of};

// The largest number that ten digits write.
pub(crate) const LARGEST: u64 = 9_999_999_999;

// The number that 1 to 10 decimal digits write; none of any other bytes. Tried: with the library's `parse`, before
// which the bytes are seen as text and a plus is told apart, reading lines of numbers takes 1.8 times as long.
pub(crate) fn number(digits: &[u8]) -> Option<u64>
    ensures { result ≡ number_of digits.now }
{
    if !(1..=10).contains(&digits.len()) {
        return None;
    }
    let mut value = 0;
    for b in digits {
        if !b.is_ascii_digit() {
            return None;
        }
        value = value * 10 + u64::from(*b - b'0');
    }
    Some(value)
}

// The nanometres that a number writes; none of any other bytes, and none beyond a hit's bounds.
fn nanometres(digits: &[u8]) -> Option<i32>
    ensures { result ≡ signed_by false (number_of digits.now) }
{
    let n = number(digits).filter(|n| *n <= 2_000_000)?;
    Some(n as i32)
}

// The coordinate, in nanometres, that a number with or without a minus before it writes; none of any other bytes, and
// none where it is out of a hit's bounds.
pub(crate) fn coordinate(bytes: &[u8]) -> Option<i32>
    ensures { result ≡ coordinate_of bytes.now }
{
    match bytes {
        [b'-', digits @ ..] => Some(-nanometres(digits)?),
        _ => nanometres(bytes),
    }
}
