//! The places of a channel's memory, and the word steps on them.
pub use io_edge::Side;

/// One of a channel's two rings, by the end that empties it.
#[derive(Clone, Copy, Debug, PartialEq, Eq)]
pub enum Ring {
    /// The guest fills it, the host empties it.
    ToHost,
    /// The host fills it, the guest empties it.
    ToGuest,
}

/// A word of a channel's memory. Of the five header words only the low 32 bits count.
/// Source: Linux `include/linux/hyperv.h`, `struct hv_ring_buffer`; signal and mark are this library's own.
#[derive(Clone, Copy, Debug, PartialEq, Eq)]
pub enum Place {
    /// The write index, in bytes.
    Write(Ring),
    /// The read index, in bytes.
    Read(Ring),
    /// `interrupt_mask`: not 0 where the consumer wants no signal.
    Mask(Ring),
    /// `pending_send_sz`: the room in bytes that the producer waits for, or 0.
    Pending(Ring),
    /// `feature_bits`: bit 0 says that `Pending` is used.
    Feature(Ring),
    /// Eight bytes of data at this byte offset, a multiple of 8.
    Cell(Ring, u32),
    /// The signal of this end, up where it isn't 0.
    Signal(Side),
    /// The mark of this end: up where it sends nothing more.
    Mark(Side),
    /// A word of a data page: the page, and which of its 512 words.
    Page(u32, u32),
}

/// One word step: a load, a store or an exchange of one word.
#[derive(Clone, Copy, Debug, PartialEq, Eq)]
pub enum Op {
    Load(Place),
    Store(Place, u64),
    /// Stores 1 to the signal of this end.
    Raise(Side),
    /// Exchanges the signal of this end with 0.
    TakeSignal(Side),
    /// Stores 1 to the mark of this end.
    StoreMark(Side),
}
