//! What a script's fault means.
ghost use Rattle.script_lines.specs.First.{FindsFirstWrong, RefusesNothing, AcceptsRight};

/// The fault that a script has is its first wrong line, with the first reason against it; bytes
/// are a script exactly where they have no wrong line. It does nothing: its contract is the law.
pub fn first_wrong_line()
    ensures finds { FindsFirstWrong }
    ensures refuses { RefusesNothing }
    ensures accepts { AcceptsRight }
{}
