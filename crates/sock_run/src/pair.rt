//! Both workers of a new channel.
ghost use Rattle.std.specs.Prelude.{◌≡◌, ◌<◌, ℕ, get_or, IfOk};
ghost use Rattle.sock_run.specs.Pairs.{ArePair};

use ring_seat::ChannelMem;
use sock_workers::{SockGuest, SockHost, packets_for};
use std::alloc::{AllocError, Global};
use std::marker::Model;

// The pages of each ring.
const RING_PAGES: u32 = 16;

/// Both workers of a channel, before they run.
#[derive(Drop)]
pub(crate) struct SockPair {
    guest: SockGuest,
    host: SockHost,
}

impl Model for SockPair {
    ghost use Rattle.sock_run.specs.Pairs.{ArePair, Pairing};

    ghost Value = { Pairing };

    ghost view = { λ p. record { guest = p.guest; host = p.host } };

    ghost invariant = { λ p. ArePair (record { guest = p.guest; host = p.host }) };
}

// The elements of a slice of bytes are bytes. It does nothing: its contract is a law.
fn are_bytes(bytes: &[u8])
    ensures { (i : ℕ) → get_or bytes.now i 0 < 256 }
{
    // For the proof: the numbers of a slice that is read are known to fit their type.
    let _bytes = bytes;
}

impl SockPair {
    /// Opens a channel whose rings have 16 pages, with its two workers. It takes all memory that they need.
    pub(crate) fn open(alloc: Global, input: Vec<u8>) -> Result<SockPair, AllocError>
        ensures { IfOk result (λ p. p.guest.input ≡ input.items) }
    {
        let (guest, host) = ChannelMem::make(alloc, RING_PAGES, 0)?;
        let packets = packets_for(input.len());
        are_bytes(input.as_slice());
        let guest = SockGuest::make(alloc, guest, input)?;
        let host = SockHost::make(host, packets)?;
        Ok(SockPair { guest, host })
    }

    /// Both workers.
    pub(crate) fn into_workers(self) -> (SockGuest, SockHost)
        ensures pair { ArePair self }
        ensures same { (result.0 ≡ self.guest) × (result.1 ≡ self.host) }
    {
        let SockPair { guest, host } = self;
        (guest, host)
    }
}
