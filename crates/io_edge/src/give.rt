//! The one copy that both sources in memory make.
ghost use Rattle.std.specs.Prelude.{◌≡◌, ◌<◌, length, take, drop, min};
ghost use Rattle.io_edge.specs.Memory.{is_among};

/// Copies the first bytes of `left`, at most `piece`, into the first of `buf`, and answers how many.
pub(crate) fn give(left: &[u8], piece: usize, buf: &mut [u8]) -> usize
    requires piece { 0 < piece }
    requires room { 0 < length buf.old }
    ensures count { result ≡ min (min (length left.now) piece) (length buf.old) }
    ensures gives { take result buf.new ≡ take result left.now }
    ensures rest { drop result buf.new ≡ drop result buf.old }
{
    let count = left.len().min(piece).min(buf.len());
    buf[..count].copy_from_slice(&left[..count]);
    count
}

/// Whether a call of this number is one of those named.
pub(crate) fn is_named(fails: &[u32], call: u64) -> bool
    ensures { result ≡ is_among fails.now call }
{
    fails.iter().any(|f| u64::from(*f) == call)
}
