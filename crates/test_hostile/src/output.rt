//! The output of an input, held against a text.
use crate::check::check;
use hostile_run::run_hostile;
use script_text::{ParseFault, Why6};
use std::alloc::AllocGlobal;
use std::process::Abort;

/// Stops the test unless these lines print this.
pub fn prints(rt: &(impl Abort + AllocGlobal), lines: &[u8], wanted: &[u8]) {
    match run_hostile(rt.alloc(), lines) {
        Ok(text) => check(rt, text.as_slice() == wanted),
        Err(_) => check(rt, false),
    }
}

/// Stops the test unless these lines are refused at this one, for this reason.
pub fn refused(rt: &(impl Abort + AllocGlobal), lines: &[u8], wanted: u32, reason: Why6) {
    match run_hostile(rt.alloc(), lines) {
        Err(ParseFault::Script(fault)) => check(rt, fault.line == wanted && fault.why == reason),
        _ => check(rt, false),
    }
}
