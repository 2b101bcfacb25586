//! An end under test, and the parts beside it.
ghost use Rattle.std.specs.Prelude.{◌≡◌, ◌≤◌, ◌+◌, ◌*◌, ◌/◌, ◌++◌, ◌∷◌, [], ℕ, List, None, IfOk, OnOk, vec_len, codes};
ghost use Rattle.std.specs.Fmt.{decimal};
ghost use Rattle.ring_machine.specs.Places.{IsRingSize};
ghost use Rattle.ring_core.specs.Told.{pair};
ghost use Rattle.hostile_lines.specs.Ranges.{IsCommandIn};
ghost use Rattle.hostile_honest_end.specs.Calls.{new_guest};
ghost use Rattle.hostile_run.specs.Run.{SaysCommand, line_text};

use hostile_decoders::Parts;
use hostile_honest_end::TestedEnd;
use hostile_lines::{Command, CommandLine};
use line_words::hex_16;
use ring_core::ToldMem;
use script_text::push_decimal;
use std::alloc::{AllocError, Global};
use std::marker::Model;

/// An end under test, and the parts beside it. Contracts see where both stand.
#[derive(Drop)]
pub(crate) struct Bench {
    pub(crate) end: TestedEnd,
    pub(crate) parts: Parts,
}

impl Model for Bench {
    ghost use Rattle.hostile_run.specs.Run.{Stand};

    ghost Value = { Stand };

    ghost view = { λ b. record { at = b.end; parts = b.parts } };
}

impl Bench {
    /// A guest's new end over the words of a channel whose rings have `d` bytes of data, a table of one id, and no page list.
    pub(crate) fn make(alloc: Global, d: u32, mem: ToldMem) -> Result<Bench, AllocError>
        requires size { IsRingSize d × (d ≤ 65536) }
        requires mem { (mem.cells ≡ d / 8) × (mem.pages ≡ 0) }
        ensures { IfOk result (λ b. b ≡ record { at = pair (new_guest (d / 8)) mem.memory; parts = record { table = None ∷ []; lists = record { building = None; live = [] } } }) }
    {
        let end = TestedEnd::make(alloc, d, mem)?;
        let Ok(parts) = Parts::make(alloc) else {
            drop(end);
            return Err(AllocError);
        };
        Ok(Bench { end, parts })
    }

    // Does what a command asks, and puts behind the text what that came to.
    fn command(
        &mut self,
        alloc: Global,
        number: u32,
        command: &Command,
        text: &mut Vec<u8>,
    ) -> Result<(), AllocError>
        requires { IsCommandIn (8 * self.old.at.state.machine.cells) command.now }
        ensures says { OnOk result ((said : List ℕ) × SaysCommand number command.now self.old self.new said × (text.new.items ≡ text.old.items ++ said)) }
        ensures short { OnOk result (vec_len text.new ≤ vec_len text.old + 140000) }
        ensures cells { self.new.at.state.machine.cells ≡ self.old.at.state.machine.cells }
    {
        match command {
            Command::Call(call) => self.end.call(alloc, *call, text),
            Command::Show(ring, at) => {
                text.extend_from_slice(b"word ")?;
                text.extend_from_slice(&hex_16(self.end.cell(*ring, *at)))?;
                Ok(())
            }
            _ => self.parts.say(alloc, number, command, text),
        }
    }

    /// Does what a line asks, and puts behind the text its number and what that came to.
    pub(crate) fn line(
        &mut self,
        alloc: Global,
        line: &CommandLine,
        text: &mut Vec<u8>,
    ) -> Result<(), AllocError>
        requires { IsCommandIn (8 * self.old.at.state.machine.cells) line.now.command }
        ensures says { OnOk result ((said : List ℕ) × SaysCommand line.now.number line.now.command self.old self.new said × (text.new.items ≡ text.old.items ++ line_text line.now.number said)) }
        ensures short { OnOk result (vec_len text.new ≤ vec_len text.old + 140022) }
        ensures cells { self.new.at.state.machine.cells ≡ self.old.at.state.machine.cells }
    {
        push_decimal(text, u64::from(line.number))?;
        text.extend_from_slice(b" ")?;
        self.command(alloc, line.number, &line.command, text)?;
        text.extend_from_slice(b"\n")?;
        Ok(())
    }
}
