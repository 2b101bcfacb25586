//! The outcomes of a phase's requests, channel by channel.
ghost use Rattle.std.specs.Prelude.{◌≡◌, ◌<◌, ◌++◌, ◌∷◌, [], List, true, is_some, length, map, replicate, slice_set, slice_index_or, IfOk, OnOk};
ghost use Rattle.bus_model.specs.Run.{nth_of};
ghost use Rattle.bus_script.specs.declared.outcome.LineResult.{LineResult as OneResult};
ghost use Rattle.bus_plan.specs.Outcomes.{TakesTurn};

use crate::ChannelOutcomes;
use bus_script::LineResult;
use std::alloc::{AllocError, Global};
use std::collections::VecDeque;
use std::marker::Model;

/// For each device, for each of its channels, the outcomes of its requests that were not taken yet. The channels of a device stand in the order in which
/// their turns come.
#[derive(Drop)]
pub struct Outcomes {
    devices: Vec<VecDeque<ChannelOutcomes>>,
}

impl Model for Outcomes {
    ghost use Rattle.std.specs.Prelude.{List, map};
    ghost use Rattle.bus_script.specs.declared.outcome.LineResult.{LineResult as OneResult};

    ghost Value = { List (List (List OneResult)) };

    ghost view = { λ o. map (λ d. d.items) o.devices.items };
}

/// Takes the next outcome of the channel whose turn it is. The turn of the next channel comes then.
fn take_turn(channels: &mut VecDeque<ChannelOutcomes>) -> LineResult
    requires { is_some (nth_of channels.old.items 0) ≡ true }
    ensures { TakesTurn channels.old.items result channels.new.items }
{
    let Some(mut channel) = channels.pop_front() else {
        unreachable!();
    };
    let Some(outcome) = channel.next() else {
        unreachable!();
    };
    channels.push_back_reserved(channel);
    outcome
}

impl Outcomes {
    /// Of so many devices, each without a channel.
    pub fn make(alloc: Global, count: usize) -> Result<Outcomes, AllocError>
        ensures { IfOk result (λ outcomes. outcomes ≡ replicate count []) }
    {
        let mut devices = Vec::new(alloc);
        for _ in 0..count {
            devices.push(VecDeque::new(alloc))?;
        }
        Ok(Outcomes { devices })
    }

    /// Puts those of a device's next channel behind those of its others.
    pub fn push(&mut self, device: usize, channel: ChannelOutcomes) -> Result<(), AllocError>
        requires { device < length self.old }
        ensures { OnOk result (self.new ≡ slice_set self.old device (slice_index_or self.old device [] ++ channel ∷ [])) }
    {
        self.devices[device].push_back(channel)?;
        Ok(())
    }

    /// Takes the outcome of a device's next request: its channels have its requests in turn, and the first channel has the first one.
    pub fn take_next(&mut self, device: usize) -> LineResult
        requires device { device < length self.old }
        requires some { is_some (nth_of (slice_index_or self.old device []) 0) ≡ true }
        ensures { (after : List (List OneResult)) × (self.new ≡ slice_set self.old device after) × TakesTurn (slice_index_or self.old device []) result after }
    {
        take_turn(&mut self.devices[device])
    }
}
