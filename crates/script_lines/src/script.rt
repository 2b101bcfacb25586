//! A script: its lines with words.
ghost use Rattle.std.specs.Prelude.{◌≡◌, List};
ghost use Rattle.script_lines.specs.WellFormed.{IsScript};

use crate::Line;
use std::marker::Model;

/// The lines with words of a script, in order. Contracts see the list of them.
#[derive(Drop)]
pub struct Script {
    lines: Vec<Line>,
}

impl Model for Script {
    ghost use Rattle.std.specs.Prelude.{List};
    ghost use Rattle.script_lines.specs.declared.line.Line.{Line};
    ghost use Rattle.script_lines.specs.WellFormed.{IsScript};

    ghost Value = { List Line };

    ghost view = { λ s. s.lines.items };

    ghost invariant = { λ s. IsScript s.lines.items };
}

impl Script {
    /// The script of these lines, which are one.
    pub fn of(lines: Vec<Line>) -> Script
        requires { IsScript lines.items }
        ensures { result ≡ lines.items }
    {
        Script { lines }
    }

    /// The lines with words, in order. Each is right among the devices that the script offers, at
    /// most 16 of them; settings stand first, a phase has at most 4,096 requests, and a device is
    /// rescinded at most once, closed at most once, and moved at most once in a phase.
    pub fn lines(&self) -> &[Line]
        ensures lines { result.now ≡ self.now }
        ensures script { IsScript self.now }
    {
        &self.lines
    }
}
