//! The script of a bus: its bytes read into lines, and the report of its run written as bytes.
#![tactic(auto)]

mod outcome;
mod writing;

pub use outcome::{LineResult, Reply};
pub use script_lines::{Ask, DeviceSpec, Line, Script, What, first_wrong_line, parse};
pub use script_text::{Name, ParseFault, ScriptFault, Why6};
pub use writing::report;
