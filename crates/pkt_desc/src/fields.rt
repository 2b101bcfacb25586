//! The fields of a word.

ghost use Rattle.std.specs.Prelude.{◌≡◌, ◌*◌, ◌+◌, ◌/◌, ◌%◌, ◌^◌};

/// The lowest 16 bits of a word.
pub(crate) fn low_16(word: u64) -> u16
    ensures { result ≡ word % 2 ^ 16 }
{
    (word % 0x1_0000) as u16
}

/// The low 32 bits of a word.
pub(crate) fn low_32(word: u64) -> u32
    ensures { result ≡ word % 2 ^ 32 }
{
    (word % 0x1_0000_0000) as u32
}

/// The high 32 bits of a word.
pub(crate) fn high_32(word: u64) -> u32
    ensures { result ≡ word / 2 ^ 32 }
{
    (word >> 32) as u32
}

/// The word with these two fields of 32 bits.
pub(crate) fn pair(low: u32, high: u32) -> u64
    ensures { result ≡ low + high * 2 ^ 32 }
{
    u64::from(low) + (u64::from(high) << 32)
}
