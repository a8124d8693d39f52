// Where a ray ended, as a plain record: lost at a surface, or on the image plane at x and y, in nanometres. Any two
// coordinates make such a record; `Hit` is the one whose coordinates are within bounds.
#[derive(Clone, Copy, PartialEq, Eq, Debug)]
pub enum Landing {
    Lost { surface: u8 },
    Hit { x: i32, y: i32 },
}
