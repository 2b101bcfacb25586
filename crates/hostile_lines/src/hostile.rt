//! What an input says.
ghost use Rattle.std.specs.Prelude.{◌≡◌, ◌≤◌, [], true, Some, None, Option, unwrap_or, OnOk, IfErr, length};
ghost use Rattle.std.specs.List.{All};
ghost use Rattle.hostile_lines.specs.Inputs.{no_input, starts, size_of, with_said, with_line, fault_at};
ghost use Rattle.hostile_lines.specs.Faults.{row_fault};
ghost use Rattle.hostile_lines.specs.Ranges.{IsPages, IsSaidIn, IsPutIn, IsChangeIn, IsLineIn};
ghost use Rattle.hostile_lines.specs.Reads.{IsWrongAt};

use crate::command::{CommandLine, Put};
use crate::fault::{Before, read_line};
use crate::said::Said;
use ring_core::Change;
use script_text::ParseFault;
use std::alloc::{AllocError, Global};
use std::marker::Model;

/// What a peer writes beside an end, and what is asked of that. Contracts see the pages of each ring, where a line says them; the words that are set before all
/// steps, and those that change just before one, each in the order of the lines; and what is asked, line by line. Each word is one of the channel, and what is asked
/// is in range.
#[derive(Drop)]
pub struct Hostile {
    ring: Option<u32>,
    puts: Vec<Put>,
    changes: Vec<Change>,
    asked: Vec<CommandLine>,
}

impl Model for Hostile {
    ghost use Rattle.hostile_lines.specs.Inputs.{Input};
    ghost use Rattle.hostile_lines.specs.Reads.{IsRanged};

    ghost Value = { Input };

    ghost view = { λ h. record { ring = h.ring; puts = h.puts.items; changes = h.changes.items; asked = h.asked.items } };

    ghost invariant = { λ h. IsRanged (record { ring = h.ring; puts = h.puts.items; changes = h.changes.items; asked = h.asked.items }) };
}

impl Hostile {
    // What no line says, or one that says how many pages each ring has.
    pub(crate) fn with_pages(alloc: Global, ring: Option<u32>) -> Hostile
        requires { IsPages ring }
        ensures { result ≡ record no_input { ring = ring } }
    {
        Hostile {
            ring,
            puts: Vec::new(alloc),
            changes: Vec::new(alloc),
            asked: Vec::new(alloc),
        }
    }

    /// How many data pages each ring has.
    pub fn pages(&self) -> u32
        ensures value { result ≡ unwrap_or self.now.ring 1 }
        ensures range { (1 ≤ result) × (result ≤ 16) }
    {
        self.ring.unwrap_or(1)
    }

    /// The words that are set before all steps, in the order of the lines.
    pub fn puts(&self) -> &[Put]
        ensures value { result.now ≡ self.now.puts }
        ensures range { All (IsPutIn (size_of self.now)) self.now.puts }
    {
        &self.puts
    }

    /// What is asked, in the order of the lines.
    pub fn asked(&self) -> &[CommandLine]
        ensures value { result.now ≡ self.now.asked }
        ensures range { All (IsLineIn (size_of self.now)) self.now.asked }
        ensures few { length self.now.asked ≤ 256 }
    {
        &self.asked
    }

    /// The words that change just before a step, in the order of the lines, and without them all else.
    pub fn take_changes(&mut self, alloc: Global) -> Vec<Change>
        ensures value { result.items ≡ self.old.changes }
        ensures range { All (IsChangeIn (size_of self.old)) self.old.changes }
        ensures rest { self.new ≡ record self.old { changes = [] } }
    {
        std::mem::replace(&mut self.changes, Vec::new(alloc))
    }

    // Whether no line with words came.
    fn is_bare(&self) -> bool
        ensures { result ≡ starts self.now }
    {
        self.ring.is_none()
            && self.puts.is_empty()
            && self.changes.is_empty()
            && self.asked.is_empty()
    }

    // Goes on by what a line says, against which nothing stands.
    fn add(&mut self, alloc: Global, number: u32, said: Said) -> Result<(), AllocError>
        requires range { IsSaidIn (size_of self.old) said }
        requires right { row_fault number (starts self.old) (length self.old.asked) said ≡ None }
        ensures { OnOk result (self.new ≡ with_said number self.old (Some said)) }
    {
        match said {
            Said::Nothing | Said::Long => {}
            Said::Ring(pages) => *self = Hostile::with_pages(alloc, pages),
            Said::Set(put) => {
                if let Some(put) = put {
                    self.puts.push(put)?;
                }
            }
            Said::Before(change) => {
                if let Some(change) = change {
                    self.changes.push(change)?;
                }
            }
            Said::Asks(command) => {
                if let Some(command) = command {
                    self.asked.push(CommandLine { number, command })?;
                }
            }
        }
        Ok(())
    }

    /// Goes on by a line, or finds what stands against it.
    pub(crate) fn line(&mut self, alloc: Global, number: u32, line: &[u8]) -> Result<(), ParseFault>
        ensures ok { OnOk result ((fault_at number self.old line.now ≡ None) × (self.new ≡ with_line number self.old line.now)) }
        ensures within { OnOk result (number ≤ 20000) }
        ensures err { IfErr result (λ fault. IsWrongAt number self.old line.now fault) }
    {
        let before = Before {
            ring: self.ring,
            first: self.is_bare(),
            asked: self.asked.len(),
        };
        let said = read_line(alloc, number, before, line)?;
        self.add(alloc, number, said)?;
        Ok(())
    }
}
