//! The refusal of a message.

use std::fmt::{Debug, Error as FmtError, Formatter, Write};
use thiserror::Error;
use vmbus_msg::Msg;

/// The box holds as many messages as it may.
#[derive(Clone, Copy, Error)]
#[error("the mail box is full")]
pub struct MailFull {
    /// The message, given back.
    pub m: Msg,
}

// As `std::sync::mpsc::SendError`, it doesn't show the message.
impl Debug for MailFull {
    fn fmt<W: Write>(&self, f: &mut Formatter<W>) -> Result<(), FmtError> {
        f.write_str("MailFull { .. }")
    }
}
