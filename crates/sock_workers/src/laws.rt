//! Laws of the pieces of a stream: each function does nothing, and its contract is a law.
ghost use Rattle.sock_workers.specs.Pieces.{CutsInNoOthers, CutsInPieces};

/// The pieces of bytes are the bytes where they are joined, each but the last one has 2,048 bytes, and none is empty. No other pieces are so.
pub fn cuts_in_pieces()
    ensures pieces { CutsInPieces }
    ensures no_others { CutsInNoOthers }
{}
