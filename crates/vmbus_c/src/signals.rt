//! Whether an end raises its peer's signal.
ghost use Rattle.std.specs.Prelude.{◌≡◌, ◌≢◌, ◌↔◌, IsTrue, cond};
ghost use Rattle.ring_machine.specs.Places.{IsRingSize, IsIndex, raises_on_write, raises_on_commit};

/// Whether a sender signals: the peer asks for it, and its ring was empty before this packet. Indices are bytes. Source: Linux
/// `drivers/hv/ring_buffer.c`, `hv_signal_on_write`.
#[unsafe(no_mangle)]
pub extern "C" fn vmbus_raise_on_write(old_write: u32, mask: u32, read: u32) -> bool
    ensures { result ≡ raises_on_write old_write mask read }
{
    ring_machine::raise_on_write(old_write, mask, read)
}

// The most bytes of data of a ring: 128 MB.
const MOST_BYTES: u32 = 134217728;

// Whether these are the bytes of data of a ring.
fn is_ring_size(d: u32) -> bool
    ensures { IsTrue result ↔ IsRingSize d }
{
    d % 4096 == 0 && 4096 <= d && d <= MOST_BYTES
}

// Whether this is an index of such a ring.
fn is_index(d: u32, i: u32) -> bool
    ensures { IsTrue result ↔ IsIndex d i }
{
    i % 8 == 0 && i < d
}

/// Whether a consumer signals as it moves the read index from `start` to `read`: 1 where now there is more room than the producer waits for, and before there
/// was not, and otherwise 0. All numbers are bytes. 2 comes exactly where `d` isn't a multiple of 4,096 from 4,096 to 134,217,728, or one of the indices isn't
/// a multiple of 8 below it. Source: Linux `drivers/hv/ring_buffer.c`, `hv_pkt_iter_close`.
#[unsafe(no_mangle)]
pub extern "C" fn vmbus_raise_on_commit(
    d: u32,
    write: u32,
    start: u32,
    read: u32,
    pending: u32,
) -> u32
    ensures decides { IsRingSize d → IsIndex d write → IsIndex d start → IsIndex d read → result ≡ cond (raises_on_commit d write start read pending) 1 0 }
    ensures other { result ≢ 2 → IsRingSize d × IsIndex d write × IsIndex d start × IsIndex d read }
{
    if !is_ring_size(d) || !is_index(d, write) || !is_index(d, start) || !is_index(d, read) {
        return 2;
    }
    u32::from(ring_machine::raise_on_commit(d, write, start, read, pending))
}
