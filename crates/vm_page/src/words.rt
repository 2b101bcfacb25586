//! The 64-bit words of bytes, and the bytes of words.

ghost use Rattle.std.specs.Prelude.{◌≡◌, ◌+◌, ◌*◌, ◌<◌, ◌≤◌, ◌-◌, ◌++◌, length, take, replicate};
ghost use Rattle.vm_page.specs.Words.{number_of, word_at, bytes_in};

// At most eight bytes, with zeros after them.
fn padded(part: &[u8]) -> [u8; 8]
    requires { length part.now ≤ 8 }
    ensures { result ≡ part.now ++ replicate (8 - length part.now) 0 }
{
    let mut word = [0; 8];
    word[..part.len()].copy_from_slice(part);
    word
}

// The number that at most eight bytes spell, the lowest byte first.
fn number(part: &[u8]) -> u64
    requires { length part.now ≤ 8 }
    ensures { result ≡ number_of part.now }
{
    u64::from_le_bytes(padded(part))
}

/// Word `i` of bytes: the 8 bytes at `8i`, the lowest first, with zeros past the end.
pub fn word_of(bytes: &[u8], i: usize) -> u64
    ensures { result ≡ word_at bytes.now i }
{
    let whole = bytes.len() / 8;
    if i < whole {
        let (_, rest) = bytes.split_at(8 * i);
        let (word, _) = rest.split_at(8);
        return number(word);
    }
    if i > whole {
        return 0;
    }
    let (_, last) = bytes.split_at(8 * i);
    number(last)
}

/// Writes the first bytes of words, the lowest byte of each first, into the whole of `out`.
pub fn bytes_of(words: &[u64], out: &mut [u8])
    requires { length out.old ≤ 8 * length words.now }
    ensures { out.new ≡ take (length out.old) (bytes_in words.now) }
{
    let whole = out.len() / 8;
    for i in 0..whole {
        out[8 * i..8 * i + 8].copy_from_slice(&words[i].to_le_bytes());
    }
    let left = out.len() % 8;
    if left > 0 {
        let last = words[whole].to_le_bytes();
        out[8 * whole..].copy_from_slice(&last[..left]);
    }
}
