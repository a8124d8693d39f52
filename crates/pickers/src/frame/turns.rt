ghost use Rattle.std.specs.Prelude.{◌≡◌, take, slice_index};
ghost use Rattle.pickers.specs.Turns.{following};
ghost use Rattle.pickers.specs.Waits.{wait_from};
ghost use Rattle.pickers.specs.FrameLaw.{frame-lawful};

use crate::following::following;
use crate::frame::Frame;
use crate::picker::{Picker, Told};

impl Picker for Frame {
    ghost crew = { λ p. p.crew.n };

    ghost window = { λ p. p.len };

    ghost due = { λ p b. wait_from p.at (take p.len p.places) b };

    ghost asks = { λ p r q. (r ≡ slice_index p.places p.at) × (q.crew ≡ p.crew) × (q.len ≡ p.len) × (q.places ≡ p.places) × (q.at ≡ following p.len p.at) };

    ghost lawful = { frame-lawful };

    fn ask(&mut self) -> u8 {
        let named = self.places[usize::from(self.at)];
        self.at = following(self.len, self.at);
        named
    }

    fn tell(&self) -> Told {
        Told {
            crew: self.crew.size(),
            window: u16::from(self.len),
        }
    }
}
