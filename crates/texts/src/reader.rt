ghost use Rattle.std.specs.Prelude.{◌<◌, ◌≤◌, ◌^◌, length};

use crate::fault::TextName;
use std::marker::Model;

// A text that is read line by line, and how far it was read.
#[derive(Drop)]
pub struct Reader<'t> {
    name: TextName,
    // all of it and not its rest: size and address are of the whole text
    text: &'t [u8],
    // where the next line begins
    at: usize,
    // how many lines were handed out
    lines: usize,
    ghost within: { at ≤ length text.now },
    ghost counted: { lines ≤ at },
    ghost bounded: { length text.now < 2 ^ 63 },
}

// A contract sees where the reader stands, how much of the text is left, and what is so of every reader's place.
impl<'t> Model for Reader<'t> {
    ghost use Rattle.std.specs.Prelude.{length, drop};
    ghost use Rattle.texts.specs.Places.{Standing, left-of};

    ghost Value = { Standing };

    ghost view = { λ r. record {
      place = record {
        name = r.name;
        origin = r.text.ref_ptr;
        total = length r.text.now;
        lines = r.lines;
        start = r.at;
        rest = drop r.at r.text.now;
      };
      within = r.within;
      left = left-of r.text.now r.at r.within;
      counted = r.counted;
      bounded = r.bounded;
    } };
}

// A line without its byte 10: which text's, its number, and its bytes where they stand in that text.
#[derive(Clone, Copy)]
pub struct Line<'t> {
    pub text: TextName,
    pub number: usize,
    pub bytes: &'t [u8],
}

mod lines;
