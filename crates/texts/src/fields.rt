ghost use Rattle.std.specs.Prelude.{◌+◌, ◌^◌, ◌≤◌, length};
ghost use Rattle.std.specs.Option.{option_map_or};

// The fields of a line that are still to be handed out. It has no model: it is Copy, as an element of
// another crate may try two elements' readings of the same fields, and a model with a lifetime cannot be.
#[derive(Clone, Copy)]
pub struct Fields<'t> {
    // the bytes from the next field on; none, if no field is left
    rest: Option<&'t [u8]>,
    // how many were handed out
    taken: usize,
    ghost few: { taken + option_map_or (λ r. length r.now + 1) rest 0 ≤ 2 ^ 63 },
}

mod taken;
