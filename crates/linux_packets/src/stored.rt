//! Storage packets.

use crate::came::Came;
use stor_proto::{Operation, Vstor, answer, decode_vstor, encode_vstor};

/// The answer to the request of the start-up in the line before, if that was one.
#[derive(Clone, Copy)]
pub(crate) struct Storage {
    pub(crate) asked: Option<Vstor>,
}

// Whether a packet with this operation is a request of the start-up.
fn is_start(operation: Operation) -> bool {
    !matches!(
        operation,
        Operation::CompleteIo | Operation::ExecuteSrb | Operation::RemoveDevice
    )
}

// The answer to a request of the start-up.
fn answer_to(p: &Vstor) -> Option<Vstor> {
    let operation = Operation::of(p.operation)?;
    if p.operation == 3 || !is_start(operation) {
        return None;
    }
    Some(answer(p))
}

impl Storage {
    // What a packet came to whose bytes are these.
    fn read(&mut self, bytes: &[u8]) -> Came {
        let p = match decode_vstor(bytes) {
            Ok(p) => p,
            Err(fault) => return Came::Refused(fault),
        };
        let asked = self.asked.take();
        self.asked = answer_to(&p);
        let mut out = [0; 64];
        encode_vstor(&p, &mut out);
        if out.as_slice() != bytes {
            return Came::Differs;
        }
        match asked {
            Some(want) if want == p => Came::Answers,
            Some(_) => Came::Differs,
            None => Came::Alike,
        }
    }

    /// What the packet with these digits came to.
    pub(crate) fn found(&mut self, digits: &str) -> Came {
        let mut bytes = [0; 64];
        let len = digits.len() / 2;
        if len > 64 || hex::decode_to_slice(digits, &mut bytes[..len]).is_err() {
            return Came::NoPacket;
        }
        self.read(&bytes[..len])
    }
}
