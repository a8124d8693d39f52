ghost use Rattle.promise.specs.AbstractLine.{LineKeepsOrder};

// Every sequence of moves of the abstract line, for every type of element, is well told and in order, and the line then
// holds what is left. It is a theorem: what it ensures is all.
pub fn line_keeps_order<T>()
    ensures { LineKeepsOrder T }
{}
