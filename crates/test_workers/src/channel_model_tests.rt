//! Which end asks, and that each law can be had.
use crate::check::check;
use channel_model::{laws, side_that_asks};
use contact::DeviceKind;
use io_edge::Side;

#[test]
fn hosts_ask_services_and_guests_ask_devices(rt: HostRuntime) {
    check(&rt, side_that_asks(DeviceKind::Beat) == Side::Host);
    check(&rt, side_that_asks(DeviceKind::Down) == Side::Host);
    check(&rt, side_that_asks(DeviceKind::Disk) == Side::Guest);
    check(&rt, side_that_asks(DeviceKind::Net) == Side::Guest);
    check(&rt, side_that_asks(DeviceKind::Kvp) == Side::Host);
}

#[test]
fn laws_are_called() {
    laws::settles_in_order::<u64, u64, u64, u64>();
    laws::settles_once::<u64, u64, u64, u64>();
    laws::few_open::<u64, u64, u64, u64>();
    laws::joins::<u64, u64, u64, u64>();
    laws::makes_outcomes::<u64, u64, u64, u64>();
    laws::never_over::<u64, u64, u64, u64>();
    laws::has_roles::<u64>();
}
