//! What the fault of an input means.
ghost use Rattle.hostile_lines.specs.First.{FindsFirstWrong, RefusesNothing, AcceptsRight};

/// The fault that an input has is its first wrong line, with the first reason against it, or its length; bytes are an input of this kind exactly where they are no more than a
/// mebibyte and have no wrong line. It does nothing: its contract is the law.
pub fn first_wrong_line()
    ensures finds { FindsFirstWrong }
    ensures refuses { RefusesNothing }
    ensures accepts { AcceptsRight }
{}
