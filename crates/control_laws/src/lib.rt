//! Laws of the control path: of a guest and of a host by itself, and of both as they exchange messages.
#![tactic(auto)]

mod laws;

pub use laws::{
    both_begin, both_done, both_over, end_tells_each, ends_at_lower, ends_well, few_on_their_way,
    guest_fronts, guest_goes_on, guest_is_cut, guest_starts, guest_takes, host_fronts,
    host_goes_on, host_is_cut, host_starts, host_takes, new_ones_agree, new_ones_stand, plain,
    rescinded_are_released, rescinded_once, say_so, subs_are_released, subs_once,
};
