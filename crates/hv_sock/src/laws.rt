//! Laws of the streams of a socket: each function does nothing, and its contract is a law.
ghost use Rattle.hv_sock.specs.Streams.{ReadsFront, ReadsAll, SockChannel};

/// Where the packets that were got are the front of those that were sent, what was read is the front of what was written, and all of it once the end was read.
pub fn reads_what_was_written()
    ensures front { ReadsFront }
    ensures all { ReadsAll }
{}

/// So it is in each direction of a channel that is at an end, in whatever order the word steps of its ends fell.
pub fn channels_carry_streams()
    ensures { SockChannel }
{}
