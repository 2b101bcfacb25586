//! A table of ids, and an assembler of page lists.
ghost use Rattle.std.specs.Prelude.{◌≡◌, ◌≤◌, ◌+◌, ◌++◌, ◌∷◌, [], ℕ, List, None, OnOk, IfOk, vec_len};
ghost use Rattle.hostile_decoders.specs.Parts.{IsPartIn, Says, SaysAccept, SaysComplete};

use crate::packet::push_packet;
use crate::pages::push_pages;
use crate::text::{push, push_named};
use crate::vstor::push_vstor;
use gpadl::Assembler;
use hostile_lines::Command;
use std::alloc::{AllocError, Global};
use std::marker::Model;
use txn_table::TxnTable;

/// A table of ids, each with the line that opened its request, and one assembler of page lists. Contracts see both.
#[derive(Drop)]
pub struct Parts {
    table: TxnTable<u32>,
    lists: Assembler,
}

impl Model for Parts {
    ghost use Rattle.hostile_decoders.specs.Parts.{Held};

    ghost Value = { Held };

    ghost view = { λ p. record { table = p.table; lists = p.lists } };
}

impl Parts {
    /// A table of one id, and no page list.
    pub fn make(alloc: Global) -> Result<Parts, AllocError>
        ensures { IfOk result (λ p. p ≡ record { table = None ∷ []; lists = record { building = None; live = [] } }) }
    {
        Ok(Parts {
            table: TxnTable::make(alloc, 1)?,
            lists: Assembler::make(alloc),
        })
    }

    fn accept(&mut self, number: u32, text: &mut Vec<u8>) -> Result<(), AllocError>
        ensures says { OnOk result ((said : List ℕ) × SaysAccept number self.old self.new said × (text.new.items ≡ text.old.items ++ said)) }
        ensures short { OnOk result (vec_len text.new ≤ vec_len text.old + 60) }
    {
        match self.table.accept(number) {
            Ok(id) => push_named(text, b"id ", id),
            Err(full) => push_named(text, b"table full ", u64::from(full.size)),
        }
    }

    fn complete(&mut self, id: u64, text: &mut Vec<u8>) -> Result<(), AllocError>
        ensures says { OnOk result ((said : List ℕ) × SaysComplete id self.old self.new said × (text.new.items ≡ text.old.items ++ said)) }
        ensures short { OnOk result (vec_len text.new ≤ vec_len text.old + 60) }
    {
        match self.table.complete(id) {
            Ok(_) => push(text, b"completed"),
            Err(_) => push_named(text, b"unknown ", id),
        }
    }

    /// Does what a line asks of a part, and puts behind the text what that came to. A call of an end and a cell of its ring are none: of these nothing is said.
    ///
    /// Errors: there was want of memory.
    pub fn say(
        &mut self,
        alloc: Global,
        number: u32,
        command: &Command,
        text: &mut Vec<u8>,
    ) -> Result<(), AllocError>
        requires { IsPartIn command.now }
        ensures says { OnOk result ((said : List ℕ) × Says number command.now self.old self.new said × (text.new.items ≡ text.old.items ++ said)) }
        ensures short { OnOk result (vec_len text.new ≤ vec_len text.old + 3300) }
    {
        match command {
            Command::Call(_) | Command::Show(_, _) => Ok(()),
            Command::Table(size) => {
                self.table = TxnTable::make(alloc, *size)?;
                push_named(text, b"table ", u64::from(*size))
            }
            Command::Accept => self.accept(number, text),
            Command::Complete(id) => self.complete(*id, text),
            Command::Gpadl(bytes) => push_pages(&mut self.lists, bytes.as_slice(), text),
            Command::Packet(bytes) => push_packet(alloc, text, bytes.as_slice()),
            Command::Vstor(bytes) => push_vstor(text, bytes.as_slice()),
        }
    }
}
