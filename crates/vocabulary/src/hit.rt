ghost use Rattle.std.specs.Prelude.{ℤ, pos, negsuc, ◌≤ℤ◌};

// A place on the image plane: x and y, in nanometres, each from -2,000,000 to 2,000,000.
#[derive(Clone, Copy)]
pub struct Hit {
    x: i32,
    y: i32,
    ghost x_low: { negsuc 1999999 ≤ℤ x },
    ghost x_high: { x ≤ℤ pos 2000000 },
    ghost y_low: { negsuc 1999999 ≤ℤ y },
    ghost y_high: { y ≤ℤ pos 2000000 },
}

mod made;
