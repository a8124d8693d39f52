ghost use Rattle.std.specs.Prelude.{◌≡◌, ℕ, ◌≤◌, List, length};
ghost use Rattle.ledger.specs.Elements.{bundle_fields, landing_fields};
ghost use Rattle.ledger.specs.Lines.{text_of, parted};
ghost use Rattle.std.proofs.Common.{rules};

use crate::line::Line;
use itoa::Buffer;
use vocabulary::bundle::Bundle;
use vocabulary::landing::Landing;

// What is written as some fields of a line.
pub trait Written {
    // its fields
    ghost fields_of: { Self → List (List ℕ) };

    // Its fields, parted by tabs, of at most 32 bytes.
    fn fields(&self) -> Line
        ensures text { text_of result ≡ parted (fields_of self.now) }
        ensures short { length (text_of result) ≤ 32 };

    // it has at least one
    ghost some: { (x : Self) → 1 ≤ length (fields_of x) };
}

impl Written for Bundle {
    ghost fields_of = { bundle_fields };

    ghost some = { Prim.search rules };

    fn fields(&self) -> Line {
        let mut line = Line::of(Buffer::new().format(self.field));
        line.number(self.wavelength);
        line.number(self.rays);
        line
    }
}

impl Written for Landing {
    ghost fields_of = { landing_fields };

    ghost some = { Prim.search rules };

    fn fields(&self) -> Line {
        match *self {
            Landing::Lost { surface } => {
                let mut line = Line::of("lost");
                line.number(surface);
                line
            }
            Landing::Hit { x, y } => {
                let mut line = Line::of("hit");
                line.number(x);
                line.number(y);
                line
            }
        }
    }
}
