//! Which channels a phase opens, and what the script orders of each.
ghost use Rattle.std.specs.Prelude.{◌≡◌, ◌+◌, ◌<◌, ◌≤◌, ◌^◌, ◌++◌, ◌∷◌, [], List, All, map, filter, length, IfOk, OnOk};
ghost use Rattle.script_lines.specs.declared.line.DeviceSpec.{DeviceSpec as OneSpec};
ghost use Rattle.script_lines.specs.declared.line.Line.{Line as OneLine};
ghost use Rattle.script_phases.specs.Shares.{share};
ghost use Rattle.script_phases.specs.Openings.{Opening as OneOpening, Phase, subs_of, others, by_relid};
ghost use Rattle.phase_plan.specs.Told.{AreDealt};
ghost use Rattle.phase_plan.specs.Opened.{IsOfDevice, plain, AreEnded as HaveEnded};
ghost use Rattle.bus_plan.specs.Endings.{AreEnded};
ghost use Rattle.bus_plan.specs.Plans.{IsPhaseOf, IsOrdered, EachOrdered, AreOpened, HasSubs, is_of};

use crate::{ChannelOrder, Ending};
use bus_script::{Ask, Line};
use phase_plan::{DeviceLines, Opening, deal_lines, phase_openings};
use std::alloc::{AllocError, Global};

/// Which devices earlier phases ended, in one way or the other.
fn ended_devices(alloc: Global, ended: &[Option<Ending>]) -> Result<Vec<bool>, AllocError>
    ensures count { IfOk result (λ all. length all.items ≡ length ended.now) }
    ensures ended { IfOk result (λ all. (earlier : List OneLine) → AreEnded earlier ended.now → HaveEnded earlier all.items) }
{
    let mut all = Vec::with_capacity(alloc, ended.len())?;
    for ending in ended {
        all.push_reserved(ending.is_some());
    }
    Ok(all)
}

/// Puts a device's request behind others of a channel, if its number is one of the channel's: so many channels take turns.
fn push_own(
    own: &mut Vec<Ask>,
    ask: &Ask,
    number: usize,
    many: usize,
    channel: usize,
) -> Result<(), AllocError>
    requires { 1 ≤ many }
    ensures { OnOk result (own.new.items ≡ own.old.items ++ share many channel number (ask.now ∷ [])) }
{
    if number % many == channel {
        own.push(ask.again())?;
    }
    Ok(())
}

/// Of a device's requests those of one of its channels, of which there are so many.
fn share_of(alloc: Global, asks: &[&Ask], many: u32, channel: u32) -> Result<Vec<Ask>, AllocError>
    requires { 1 ≤ many }
    ensures { IfOk result (λ own. own.items ≡ share many channel 0 (map (λ a. a.now) asks.now)) }
{
    let most = (asks.len() / many as usize).saturating_add(1);
    let mut own = Vec::with_capacity(alloc, most)?;
    for number in 0..asks.len() {
        push_own(
            &mut own,
            asks[number],
            number,
            many as usize,
            channel as usize,
        )?;
    }
    Ok(own)
}

/// What the script orders of a channel: its share of the device's requests, and the device's stop.
fn order_channel(
    alloc: Global,
    opening: Opening,
    subs: &[u32],
    devices: &[DeviceLines<'_>],
) -> Result<ChannelOrder, AllocError>
    requires inside { IsOfDevice (length devices.now) opening }
    requires subs { length subs.now ≡ length devices.now }
    requires most { All (λ n. n ≤ 3) subs.now }
    ensures { IfOk result (λ order. (p : Phase) (o : OneOpening) → plain o ≡ opening → HasSubs subs.now o → AreDealt p.part devices.now → IsOrdered p o order) }
{
    let device = opening.device as usize;
    let lines = &devices[device];
    let asks = share_of(alloc, lines.asks.as_slice(), subs[device] + 1, opening.sub)?;
    Ok(ChannelOrder {
        opening,
        asks,
        stop: lines.stop,
    })
}

/// Whether a channel is the first one of its device, or whether it is none.
fn is_of(firsts: bool, opening: Opening) -> bool
    ensures { result ≡ is_of firsts opening }
{
    if firsts {
        opening.sub == 0
    } else {
        opening.sub != 0
    }
}

/// Puts what is ordered of a channel behind others, if it is one of these.
fn order_if(
    alloc: Global,
    firsts: bool,
    opening: Opening,
    subs: &[u32],
    devices: &[DeviceLines<'_>],
    plan: &mut Vec<ChannelOrder>,
) -> Result<(), AllocError>
    requires inside { IsOfDevice (length devices.now) opening }
    requires subs { length subs.now ≡ length devices.now }
    requires most { All (λ n. n ≤ 3) subs.now }
    ensures { OnOk result ((p : Phase) (o : OneOpening) (before : List OneOpening) → plain o ≡ opening → HasSubs subs.now o → AreDealt p.part devices.now → EachOrdered p before plan.old.items → EachOrdered p (before ++ filter (λ o. is_of firsts (plain o)) (o ∷ [])) plan.new.items) }
{
    if !is_of(firsts, opening) {
        return Ok(());
    }
    let order = order_channel(alloc, opening, subs, devices)?;
    plan.push(order)?;
    Ok(())
}

/// Puts what is ordered of the first channels of devices behind others, or of the channels that are none, in order.
fn order_some(
    alloc: Global,
    firsts: bool,
    openings: &[Opening],
    subs: &[u32],
    devices: &[DeviceLines<'_>],
    plan: &mut Vec<ChannelOrder>,
) -> Result<(), AllocError>
    requires within { All (IsOfDevice (length devices.now)) openings.now }
    requires subs { length subs.now ≡ length devices.now }
    requires most { All (λ n. n ≤ 3) subs.now }
    ensures { OnOk result ((p : Phase) (os before : List OneOpening) → AreOpened p os openings.now subs.now devices.now → EachOrdered p before plan.old.items → EachOrdered p (before ++ filter (λ o. is_of firsts (plain o)) os) plan.new.items) }
{
    for opening in openings {
        order_if(alloc, firsts, *opening, subs, devices, plan)?;
    }
    Ok(())
}

/// Plans a phase: the channels that it opens, in order of their relids, and what the script orders of each. `ended` says how an earlier phase ended each
/// device, `subs` how many channels each has beside the first one, and `next` is the first relid that no channel has had: each sub-channel takes one.
pub fn plan_part(
    alloc: Global,
    ended: &[Option<Ending>],
    subs: &[u32],
    next: &mut u32,
    part: &[Line],
) -> Result<Vec<ChannelOrder>, AllocError>
    requires few { length ended.now ≤ 16 }
    requires devices { length subs.now ≡ length ended.now }
    requires most { All (λ n. n ≤ 3) subs.now }
    requires room { next.old + 48 < 2 ^ 32 }
    ensures plan { IfOk result (λ plan. (specs : List OneSpec) (p : Phase) → map subs_of specs ≡ subs.now → IsPhaseOf part.now ended.now specs next.old p → EachOrdered p (by_relid p.opened) plan.items) }
    ensures next { OnOk result ((specs : List OneSpec) (p : Phase) → map subs_of specs ≡ subs.now → IsPhaseOf part.now ended.now specs next.old p → next.new ≡ next.old + length (others p.opened)) }
    ensures room { OnOk result (next.new ≤ next.old + 48) }
{
    let devices = deal_lines(alloc, ended.len(), part)?;
    let over = ended_devices(alloc, ended)?;
    let openings = phase_openings(alloc, over.as_slice(), devices.as_slice(), subs, next)?;
    let mut plan = Vec::with_capacity(alloc, openings.len())?;
    order_some(
        alloc,
        true,
        openings.as_slice(),
        subs,
        devices.as_slice(),
        &mut plan,
    )?;
    order_some(
        alloc,
        false,
        openings.as_slice(),
        subs,
        devices.as_slice(),
        &mut plan,
    )?;
    Ok(plan)
}
