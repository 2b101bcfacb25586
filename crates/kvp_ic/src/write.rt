//! The requests of the host.

ghost use Rattle.std.specs.Prelude.{◌≡◌, ℕ, ◌+◌, ◌*◌, ◌≤◌, [], ◌++◌, length, take, drop, List};
ghost use Rattle.wire_table.specs.Rows.{spelled_after};
ghost use Rattle.kvp_ic.specs.Texts.{text_size as size_for};
ghost use Rattle.kvp_ic.specs.Machine.{pool_of};
ghost use Rattle.kvp_ic.specs.Messages.{keyed_rows, placed_rows, field_rows, kvp_bytes, Asks};

use crate::Kvp;
use crate::text::{put_text, text_size};
use wire_table::{Checked, Field, Layout, fields};

/// A request about a key up to its texts: the headers of every utility message, then the operation, the pool and reserved bytes, then the
/// value's type and the sizes of key and value (Linux 6.12, `include/linux/hyperv.h`, structs vmbuspipe_hdr and icmsg_hdr;
/// `include/uapi/linux/hyperv.h`, structs hv_kvp_hdr and hv_kvp_exchg_msg_value).
const KEYED: Layout<18> = Layout {
    size: 44,
    fields: [
        Field { at: 0, width: 4 },
        Field { at: 4, width: 4 },
        Field { at: 8, width: 2 },
        Field { at: 10, width: 2 },
        Field { at: 12, width: 2 },
        Field { at: 14, width: 2 },
        Field { at: 16, width: 2 },
        Field { at: 18, width: 2 },
        Field { at: 20, width: 4 },
        Field { at: 24, width: 1 },
        Field { at: 25, width: 1 },
        Field { at: 26, width: 2 },
        Field { at: 28, width: 1 },
        Field { at: 29, width: 1 },
        Field { at: 30, width: 2 },
        Field { at: 32, width: 4 },
        Field { at: 36, width: 4 },
        Field { at: 40, width: 4 },
    ],
};

/// A request about a place up to its texts: its number stands before the value's type (struct hv_kvp_msg_enumerate).
const PLACED: Layout<19> = Layout {
    size: 48,
    fields: [
        Field { at: 0, width: 4 },
        Field { at: 4, width: 4 },
        Field { at: 8, width: 2 },
        Field { at: 10, width: 2 },
        Field { at: 12, width: 2 },
        Field { at: 14, width: 2 },
        Field { at: 16, width: 2 },
        Field { at: 18, width: 2 },
        Field { at: 20, width: 4 },
        Field { at: 24, width: 1 },
        Field { at: 25, width: 1 },
        Field { at: 26, width: 2 },
        Field { at: 28, width: 1 },
        Field { at: 29, width: 1 },
        Field { at: 30, width: 2 },
        Field { at: 32, width: 4 },
        Field { at: 36, width: 4 },
        Field { at: 40, width: 4 },
        Field { at: 44, width: 4 },
    ],
};

fn keyed_table() -> Checked<18>
    ensures { result.layout ≡ KEYED }
{
    Checked { layout: KEYED }
}

fn placed_table() -> Checked<19>
    ensures { result.layout ≡ PLACED }
{
    Checked { layout: PLACED }
}

// Writes a request about a key up to its texts.
fn put_keyed(message: &mut [u8], operation: u8, pool: u8, key_size: u32, value_size: u32)
    requires { 44 ≤ length message.old }
    ensures { take 44 message.new ≡ spelled_after [] (keyed_rows operation pool key_size value_size []) }
{
    let table = keyed_table();
    fields!(put table in message: num 0 = 0u32, num 1 = 2596u32, num 2 = 3u16, num 3 = 0u16, num 4 = 2u16, num 5 = 3u16, num 6 = 0u16, num 7 = 2576u16, num 8 = 0u32, num 9 = 0u8, num 10 = 3u8, num 11 = 0u16, num 12 = operation, num 13 = pool, num 14 = 0u16, num 15 = 1u32, num 16 = key_size, num 17 = value_size);
}

// Writes a request about a place up to its texts.
fn put_placed(message: &mut [u8], pool: u8, index: u32)
    requires { 48 ≤ length message.old }
    ensures { take 48 message.new ≡ spelled_after [] (placed_rows pool index []) }
{
    let table = placed_table();
    fields!(put table in message: num 0 = 0u32, num 1 = 2600u32, num 2 = 3u16, num 3 = 0u16, num 4 = 2u16, num 5 = 3u16, num 6 = 0u16, num 7 = 2580u16, num 8 = 0u32, num 9 = 0u8, num 10 = 3u8, num 11 = 0u16, num 12 = 3u8, num 13 = pool, num 14 = 0u16, num 15 = index, num 16 = 1u32, num 17 = 0u32, num 18 = 0u32);
}

// Writes the fields of key and value behind what is there.
fn put_fields(message: &mut [u8], at: usize, key: &[u16], value: &[u16])
    requires len { length message.old ≡ at + 2560 }
    requires key { 2 * length key.now ≤ 512 }
    requires value { 2 * length value.now ≤ 2048 }
    ensures { message.new ≡ spelled_after (take at message.old) (field_rows key.now value.now) }
{
    put_text(&mut message[at..at + 512], key);
    put_text(&mut message[at + 512..], value);
}

// Writes a request about a key.
fn write_keyed(
    message: &mut [u8],
    operation: u8,
    pool: u8,
    key: &[u16],
    value_size: u32,
    value: &[u16],
)
    requires len { length message.old ≡ 2604 }
    requires key { length key.now ≤ 255 }
    requires value { length value.now ≤ 1023 }
    ensures { message.new ≡ spelled_after [] (keyed_rows operation pool (size_for (length key.now)) value_size (field_rows key.now value.now)) }
{
    put_keyed(message, operation, pool, text_size(key), value_size);
    put_fields(message, 44, key, value);
}

// Writes a request about a place.
fn write_placed(message: &mut [u8], pool: u8, index: u32)
    requires { length message.old ≡ 2608 }
    ensures { message.new ≡ spelled_after [] (placed_rows pool index (field_rows [] [])) }
{
    put_placed(message, pool, index);
    put_fields(message, 48, &[], &[]);
}

/// Writes a request at the front of `out`, and answers its length: 2,604 bytes, or 2,608 where a place is asked for. The rest of
/// `out` stays.
///
/// A text that isn't asked for has size 0 and no unit, and the value's type is 1, a text.
pub fn encode(m: &Kvp, out: &mut [u8; 2608]) -> usize
    ensures count { result ≡ length (kvp_bytes m.now) }
    ensures message { take result out.new ≡ kvp_bytes m.now }
    ensures rest { drop result out.new ≡ drop result out.old }

    // Whatever follows, the bytes ask this.
    ensures asks { pool_of m.now ≤ 4 → (more : List ℕ) → Asks m.now (kvp_bytes m.now ++ more) }
{
    match m {
        Kvp::Get { pool, key } => {
            write_keyed(&mut out[..2604], 0, *pool, key.units(), 0, &[]);
            2604
        }
        Kvp::Set { pool, key, value } => {
            let units = value.units();
            write_keyed(
                &mut out[..2604],
                1,
                *pool,
                key.units(),
                text_size(units),
                units,
            );
            2604
        }
        Kvp::Delete { pool, key } => {
            write_keyed(&mut out[..2604], 2, *pool, key.units(), 0, &[]);
            2604
        }
        Kvp::Enum { pool, index } => {
            write_placed(&mut out[..], *pool, *index);
            2608
        }
    }
}
