ghost use Rattle.std.specs.Prelude.{◌≤◌};

// The number of workers of a run, 1 to 16. They are named 0 to n - 1.
#[derive(Clone, Copy)]
pub struct Crew {
    n: u8,
    ghost some: { 1 ≤ n },
    ghost few: { n ≤ 16 },
}

mod made;
