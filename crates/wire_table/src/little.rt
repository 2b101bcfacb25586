//! Numbers and raw bytes at a place of a message, the lowest byte first.

ghost use Rattle.std.specs.Prelude.{◌≡◌, ℕ, ◌+◌, ◌^◌, ◌<◌, ◌≤◌, ◌++◌, length, take, drop, slice_range};
ghost use Rattle.wire_table.specs.Little.{number_of, bytes_of};

/// The number that at most 8 bytes spell, the lowest byte first.
pub fn number(field: &[u8]) -> u64
    requires { length field.now ≤ 8 }
    ensures value { result ≡ number_of field.now }
    ensures fits { result < 256 ^ length field.now }
{
    let mut value: u64 = 0;
    for i in (0..field.len()).rev() {
        value = value * 256 + u64::from(field[i]);
    }
    value
}

/// Spells a number, the lowest byte first, in the whole of a field.
pub fn spell(field: &mut [u8], v: u64)
    ensures { field.new ≡ bytes_of (length field.old) v }
{
    let mut left = v;
    for x in field.iter_mut() {
        *x = (left % 256) as u8;
        left /= 256;
    }
}

/// The number of `width` bytes, at most 8, that stands at byte `at`.
pub fn get_at(bytes: &[u8], at: usize, width: usize) -> u64
    requires width { width ≤ 8 }
    requires within { at + width ≤ length bytes.now }
    ensures value { result ≡ number_of (slice_range bytes.now at (at + width)) }
    ensures fits { result < 256 ^ width }
{
    number(&bytes[at..at + width])
}

/// Writes a number in `width` bytes at byte `at`. All other bytes stay.
pub fn put_at(bytes: &mut [u8], at: usize, width: usize, v: u64)
    requires within { at + width ≤ length bytes.old }
    ensures front { take (at + width) bytes.new ≡ take at bytes.old ++ bytes_of width v }
    ensures rest { drop (at + width) bytes.new ≡ drop (at + width) bytes.old }
{
    spell(&mut bytes[at..at + width], v);
}

/// The `K` raw bytes that stand at byte `at`.
pub fn array_at<const K: usize>(bytes: &[u8], at: usize) -> [u8; K]
    requires { at + K ≤ length bytes.now }
    ensures { result ≡ slice_range bytes.now at (at + K) }
{
    let mut out = [0; K];
    out.copy_from_slice(&bytes[at..at + K]);
    out
}

/// Writes raw bytes at byte `at`. All other bytes stay.
pub fn put_bytes(bytes: &mut [u8], at: usize, raw: &[u8])
    requires { at + length raw.now ≤ length bytes.old }
    ensures front { take (at + length raw.now) bytes.new ≡ take at bytes.old ++ raw.now }
    ensures rest { drop (at + length raw.now) bytes.new ≡ drop (at + length raw.now) bytes.old }
{
    bytes[at..at + raw.len()].copy_from_slice(raw);
}
