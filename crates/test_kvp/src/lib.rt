//! Tests of key-value exchange: its messages, a delete's apart, against those that Linux's structs make, pools and the device, and each public call once.
#![tactic(auto)]

#[cfg(test)]
mod channel_tests;
#[cfg(test)]
mod check;
#[cfg(test)]
mod device_tests;
#[cfg(test)]
mod hex;
#[cfg(test)]
mod message_tests;
#[cfg(test)]
mod pool_tests;
#[cfg(test)]
mod texts;
