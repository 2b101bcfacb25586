//! The commands of the program.
ghost use Rattle.std.specs.Prelude.{◌≡◌, ◌≤◌, IfSome};
ghost use Rattle.script_text.specs.Forms.{is_decimal, number_of, in_u64, within};
ghost use Rattle.vmbus_main.specs.Words.{command_of, named, sock_row, sock_of, load_row, load_of, HasCount};

use script_text::{is_decimal, number_of, within};

/// A command that answers an input.
#[derive(Clone, Copy, Debug, PartialEq, Eq)]
pub enum InputCommand {
    /// Reads a script, runs it, and writes the report of the run.
    Run,
    /// Reads one control message in hexadecimal a line, and writes it field by field.
    Decode,
    /// Reads calls and word steps of the two ends of a channel, and writes whether they are a run, or which line is the first that is wrong.
    Trace,
    /// Reads what a peer writes and what is asked of an end and of other parts beside it, and writes what each came to.
    Hostile,
    /// Sends its input to the service at a port, and writes what that sends back.
    Sock {
        /// The port at which the service listens.
        port: u32,
    },
}

/// What the program does.
#[derive(Clone, Copy, Debug, PartialEq, Eq)]
pub enum Command {
    /// Answers its input.
    Input(InputCommand),
    /// Makes a script of so many requests, runs it, and writes one line. It reads nothing.
    Load {
        /// Where the bytes that fill the blocks begin.
        seed: u32,
        /// How many requests the script has: an even number from 2 to 8,192.
        count: u32,
    },
}

/// The command that the program's words name, its own name left out.
pub fn command_of(words: &[Vec<u8>]) -> Option<Command>
    ensures command { result ≡ command_of words.now }
    ensures count { IfSome result HasCount }
{
    match words {
        [word] => named(word),
        [word, port] if word.as_slice() == b"sock".as_slice() => sock_row(port),
        [word, seed, count] if word.as_slice() == b"load".as_slice() => load_row(seed, count),
        _ => None,
    }
}

fn named(word: &[u8]) -> Option<Command>
    ensures command { result ≡ named word.now }
    ensures count { IfSome result HasCount }
{
    if word == b"run".as_slice() {
        return Some(Command::Input(InputCommand::Run));
    }
    if word == b"decode".as_slice() {
        return Some(Command::Input(InputCommand::Decode));
    }
    if word == b"trace".as_slice() {
        return Some(Command::Input(InputCommand::Trace));
    }
    if word == b"hostile".as_slice() {
        return Some(Command::Input(InputCommand::Hostile));
    }
    None
}

/// A socket's port, a number of 32 bits.
fn sock_row(port: &[u8]) -> Option<Command>
    ensures command { result ≡ sock_row port.now }
    ensures count { IfSome result HasCount }
{
    if !is_decimal(port) {
        return None;
    }
    sock_of(within(0, u32::MAX, number_of(port)))
}

fn sock_of(port: Option<u32>) -> Option<Command>
    ensures command { result ≡ sock_of port }
    ensures count { IfSome result HasCount }
{
    match port {
        Some(port) => Some(Command::Input(InputCommand::Sock { port })),
        None => None,
    }
}

/// A load's seed, a number of 32 bits, and its count, an even number from 2 to 8,192.
fn load_row(seed: &[u8], count: &[u8]) -> Option<Command>
    ensures command { result ≡ load_row seed.now count.now }
    ensures count { IfSome result HasCount }
{
    if !is_decimal(seed) || !is_decimal(count) {
        return None;
    }
    load_of(
        within(0, u32::MAX, number_of(seed)),
        within(2, 8192, number_of(count)),
    )
}

fn load_of(seed: Option<u32>, count: Option<u32>) -> Option<Command>
    requires { IfSome count (λ n. (2 ≤ n) × (n ≤ 8192)) }
    ensures command { result ≡ load_of seed count }
    ensures count { IfSome result HasCount }
{
    match (seed, count) {
        (Some(seed), Some(count)) if count % 2 == 0 => Some(Command::Load { seed, count }),
        _ => None,
    }
}
