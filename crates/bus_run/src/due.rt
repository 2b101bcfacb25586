//! What is due at the end of a phase.
ghost use Rattle.std.specs.Prelude.{◌≡◌, map, IfOk};
ghost use Rattle.bus_run.specs.Due.{due_of};

use bus_plan::ChannelOrder;
use phase_plan::Opening;
use std::alloc::{AllocError, Global};

/// A channel that a phase opens, and how many outcomes are due of it: one for each request that the script orders.
#[derive(Drop)]
pub struct Due {
    pub opening: Opening,
    pub count: usize,
}

/// What is due of a channel.
fn due_of(order: &ChannelOrder) -> Due
    ensures { result ≡ due_of order.now }
{
    Due {
        opening: order.opening,
        count: order.asks.len(),
    }
}

/// What is due of each channel of a plan.
pub fn all_due(alloc: Global, plan: &[ChannelOrder]) -> Result<Vec<Due>, AllocError>
    ensures { IfOk result (λ dues. dues.items ≡ map due_of plan.now) }
{
    plan.iter().map(|order| due_of(order)).collect(alloc)
}
