//! Tests of control messages: outside vectors, and each public call once.
#![tactic(auto)]

#[cfg(test)]
mod chan_state_tests;
#[cfg(test)]
mod check;
#[cfg(test)]
mod contact_tests;
#[cfg(test)]
mod gpadl_tests;
#[cfg(test)]
mod mail_box_tests;
#[cfg(test)]
mod vmbus_msg_tests;
#[cfg(test)]
mod vmbus_msg_text_tests;
#[cfg(test)]
mod vmbus_msg_truncated_tests;
