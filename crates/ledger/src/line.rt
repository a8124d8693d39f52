ghost use Rattle.std.specs.Prelude.{◌≡◌, ◌≤◌, length};

// The most bytes that a line has.
const LONGEST: usize = 160;

// A line as it is made: the first `len` of the bytes. It has no ArrayString and no model: with either, what holds a line
// is not copied in use, and with the first, callers do not know how long a line is at most. How much room is left differs
// from call to call, so each asks for what it needs.
#[derive(Clone, Copy)]
pub struct Line {
    bytes: [u8; LONGEST],
    len: usize,
    ghost few: { len ≤ 160 },
    ghost sized: { length bytes ≡ 160 },
}

mod made;
