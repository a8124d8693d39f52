ghost use Rattle.std.specs.Prelude.{◌≡◌, ℕ};
ghost use Rattle.pickers.specs.Meaning.{Lawful, Naming, Fairness};

// What a picker tells of itself: how many workers it picks from, and within how many asks it names each of them.
#[derive(Clone, Copy)]
pub struct Told {
    pub crew: u8,
    pub window: u16,
}

// A picker names, at each ask, the worker that goes next.
pub trait Picker {
    // how many workers it picks from: they are 0 to crew - 1
    ghost crew: { Self → ℕ };

    // how many asks in a row name each worker at least once
    ghost window: { Self → ℕ };

    // within how many asks, the coming one included, a worker is named
    ghost due: { Self → ℕ → ℕ };

    // which worker an ask names and which picker it leaves, for a picker that says so exactly
    ghost asks: { Self → ℕ → Self → Type 0 } = { λ _ _ _. Unit {0} };

    // The worker that goes next.
    fn ask(&mut self) -> u8
        ensures naming { Naming (crew self.old) (window self.old) result (crew self.new) (window self.new) }
        ensures fairness { Fairness (crew self.old) (window self.old) (due self.old) result (due self.new) }
        ensures exact { asks self.old result self.new };

    // Its crew and its window.
    fn tell(&self) -> Told
        ensures { (result.crew ≡ crew self.now) × (result.window ≡ window self.now) };

    // what holds of it at any time
    ghost lawful: { (p : Self) → Lawful (crew p) (window p) (due p) };
}
