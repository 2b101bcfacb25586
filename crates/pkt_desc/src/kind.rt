//! The types of packets (Linux 6.12, `include/linux/hyperv.h`, enum vmbus_packet_type).

/// Data whose payload follows the descriptor (`VM_PKT_DATA_INBAND`).
pub(crate) const INBAND: u16 = 6;

/// Data that names parts of a buffer of the channel (`VM_PKT_DATA_USING_XFER_PAGES`).
pub(crate) const TRANSFER_PAGES: u16 = 7;

/// Data that names pages (`VM_PKT_DATA_USING_GPA_DIRECT`).
pub(crate) const GPA_DIRECT: u16 = 9;

/// A completion (`VM_PKT_COMP`).
pub(crate) const COMPLETION: u16 = 11;
