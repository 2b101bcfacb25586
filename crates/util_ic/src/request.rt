//! The requests of the host.

ghost use Rattle.std.specs.Prelude.{◌≡◌, ℕ, ◌+◌, ◌<◌, ◌≤◌, ◌++◌, [], length, take, drop, List, Some};
ghost use Rattle.wire_table.specs.Rows.{spelled_after};
ghost use Rattle.util_ic.specs.Messages.{beat_content, down_content, offer_content, beat_bytes, down_bytes, ask_bytes, negotiate_bytes, request_rows, zeros};
ghost use Rattle.pkt_desc.specs.Packets.{Carries};
ghost use Rattle.util_ic.specs.Packets.{ask_packet, negotiate_packet};
ghost use Rattle.util_ic.specs.Asks.{ask_of, kind_for};

use crate::IcAsk;
use crate::tables::{CONTENT, header_table, heartbeat_table, negotiate_table, shutdown_table};
use crate::version::{NEW, OLD, put_version};
use contact::DeviceKind;
use wire_table::fields;

/// Clears bytes.
pub fn clear(part: &mut [u8])
    ensures { part.new ≡ zeros (length part.old) }
{
    part.fill(0);
}

// Writes zeros from a place on to the end.
fn put_zeros(message: &mut [u8], at: usize, len: usize)
    requires { at + len ≡ length message.old }
    ensures { message.new ≡ take at message.old ++ zeros len }
{
    clear(&mut message[at..]);
}

// Writes the headers of a request: of this version and type, and with so many bytes of content.
fn write_headers(message: &mut [u8], major: u16, kind: u16, len: u16)
    requires { 28 ≤ length message.old }
    ensures { take 28 message.new ≡ spelled_after [] (request_rows major kind len []) }
{
    let table = header_table();
    fields!(put table in message: num 0 = 0u32, num 1 = 20 + u32::from(len), num 2 = major, num 3 = 0u16, num 4 = kind, num 5 = major, num 6 = 0u16, num 7 = len, num 8 = 0u32, num 9 = 0u8, num 10 = 3u8, num 11 = 0u16);
}

// Writes the content of a heartbeat.
fn put_beat(content: &mut [u8], seq: u64)
    requires { length content.old ≡ 40 }
    ensures { content.new ≡ spelled_after [] (beat_content seq) }
{
    let table = heartbeat_table();
    fields!(put table in content: num 0 = seq);
    put_zeros(content, 8, 32);
}

// Writes a heartbeat.
fn write_beat(message: &mut [u8], seq: u64)
    requires { length message.old ≡ 68 }
    ensures { message.new ≡ beat_bytes seq }
{
    write_headers(message, 3, 1, 40);
    put_beat(&mut message[CONTENT..], seq);
}

// Writes the content of a shutdown.
fn put_down(content: &mut [u8], reason: u32, timeout: u32, flags: u32)
    requires { length content.old ≡ 2060 }
    ensures { content.new ≡ spelled_after [] (down_content reason timeout flags) }
{
    let table = shutdown_table();
    fields!(put table in content: num 0 = reason, num 1 = timeout, num 2 = flags);
    put_zeros(content, 12, 2048);
}

// Writes a shutdown.
fn write_down(message: &mut [u8], reason: u32, timeout: u32, flags: u32)
    requires { length message.old ≡ 2088 }
    ensures { message.new ≡ down_bytes reason timeout flags }
{
    write_headers(message, 3, 3, 2060);
    put_down(&mut message[CONTENT..], reason, timeout, flags);
}

// Writes the content of the negotiate message: two frame versions and two message versions.
fn put_offer(content: &mut [u8])
    requires { length content.old ≡ 24 }
    ensures { content.new ≡ spelled_after [] offer_content }
{
    let table = negotiate_table();
    fields!(put table in content: num 0 = 2u16, num 1 = 2u16, num 2 = 0u32);
    put_version(content, 8, NEW);
    put_version(content, 12, OLD);
    put_version(content, 16, NEW);
    put_version(content, 20, OLD);
}

// Writes the negotiate message.
fn write_negotiate(message: &mut [u8])
    requires { length message.old ≡ 52 }
    ensures { message.new ≡ negotiate_bytes }
{
    write_headers(message, 0, 0, 24);
    put_offer(&mut message[CONTENT..]);
}

/// Writes a request at the front of `out`, and answers its length: 68 bytes for a heartbeat, 2,088 for a shutdown. The rest of
/// `out` stays.
///
/// The request carries frame and message version 3.0, flags 3, and zeros for its text and reserved bytes.
pub fn ask(kind: &IcAsk, out: &mut [u8]) -> usize
    requires { 2112 ≤ length out.old }
    ensures count { result ≡ length (ask_bytes kind.now) }
    ensures most { result ≤ 2112 }
    ensures message { take result out.new ≡ ask_bytes kind.now }
    ensures rest { drop result out.new ≡ drop result out.old }
    ensures packet { (id : ℕ) → Carries (ask_packet id kind.now) 6 id 0 (ask_bytes kind.now) }
    ensures read_back { (more : List ℕ) → ask_of (kind_for kind.now) (ask_bytes kind.now ++ more) ≡ Some kind.now }
{
    match *kind {
        IcAsk::Beat { seq } => {
            write_beat(&mut out[..68], seq);
            68
        }
        IcAsk::Down {
            reason,
            timeout,
            flags,
        } => {
            write_down(&mut out[..2088], reason, timeout, flags);
            2088
        }
    }
}

/// Writes the negotiate message at the front of `out`, and answers its length, 52 bytes. The rest of `out` stays.
///
/// It offers frame versions 3.0 and 1.0 and, on every kind of channel, message versions 3.0 and 1.0.
pub fn negotiate(_kind: DeviceKind, out: &mut [u8]) -> usize
    requires room { 2112 ≤ length out.old }
    ensures count { result ≡ length negotiate_bytes }
    ensures most { result ≤ 2112 }
    ensures message { take result out.new ≡ negotiate_bytes }
    ensures rest { drop result out.new ≡ drop result out.old }
    ensures packet { (id : ℕ) → Carries (negotiate_packet id) 6 id 0 negotiate_bytes }
{
    write_negotiate(&mut out[..52]);
    52
}
