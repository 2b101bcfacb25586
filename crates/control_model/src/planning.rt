//! The plan of a script.
ghost use Rattle.std.specs.Prelude.{◌≡◌, ◌+◌, ◌*◌, ◌^◌, ◌<◌, ◌≤◌, All, ◌∷◌, [], ◌++◌, ℕ, List, length, map, None, IfOk, OnOk};
ghost use Rattle.std.specs.List.{range_with_len};
ghost use Rattle.contact.specs.Classes.{offered_kind};
ghost use Rattle.script_lines.specs.declared.line.Line.{Line as OneLine};
ghost use Rattle.script_lines.specs.Parts.{offered, kind_of, ring_pages_of};
ghost use Rattle.script_lines.specs.WellFormed.{IsScript};
ghost use Rattle.script_phases.specs.Says.{said_to};
ghost use Rattle.script_phases.specs.Openings.{Opening as OneOpening, subs_of};
ghost use Rattle.script_phases.specs.Agreed.{guest_in, host_in};
ghost use Rattle.phase_plan.specs.Told.{IsTold};
ghost use Rattle.phase_plan.specs.Opened.{IsOfDevice};
ghost use Rattle.control_model.specs.Plan.{lists_with, pages_with};
ghost use Rattle.control_model.specs.Openings.{plan_of, fate_of, vp_at, has_buffers};
ghost use Rattle.control_model.specs.Numbering.{AreChannels, Numbered};

use crate::Opening;
use bus_script::{DeviceSpec, Line, What};
use contact::{Kind, Version, offered_kind};
use phase_plan::{
    DeviceLines, Opening as PhaseOpening, deal_lines, end_devices, part_at, phase_openings,
    ring_pages,
};
use script_lines::shape_of;
use std::alloc::{AllocError, Global};

// The highest version of both ends where a script says none, 5.2.
pub const HIGHEST: Version = Version(0x0005_0002);

// The handle of the first page list.
pub const FIRST_GPADL: u32 = 0xE1E10;

/// The highest versions of the guest and of its host.
pub fn versions(lines: &[Line]) -> (Version, Version)
    ensures guest { result.0 ≡ guest_in lines.now }
    ensures host { result.1 ≡ host_in lines.now }
{
    if let [line, ..] = lines {
        if let What::Contact { guest, host } = &line.what {
            return (*guest, *host);
        }
    }
    (HIGHEST, HIGHEST)
}

/// What the devices are, in order of offer.
pub fn specs(alloc: Global, lines: &[Line]) -> Result<Vec<DeviceSpec>, AllocError>
    ensures { IfOk result (λ specs. specs.items ≡ offered lines.now) }
{
    let mut specs = Vec::new(alloc);
    for line in lines {
        if let What::Offer { device, .. } = &line.what {
            specs.push(*device)?;
        }
    }
    Ok(specs)
}

/// Their kinds.
pub fn kinds(alloc: Global, specs: &[DeviceSpec]) -> Result<Vec<Kind>, AllocError>
    ensures { IfOk result (λ kinds. kinds.items ≡ map (λ spec. offered_kind (kind_of spec)) specs.now) }
{
    let mut kinds = Vec::new(alloc);
    for spec in specs {
        kinds.push(offered_kind(shape_of(*spec).kind))?;
    }
    Ok(kinds)
}

// How many channels each device has beside its first one.
fn all_subs(alloc: Global, specs: &[DeviceSpec]) -> Result<Vec<u32>, AllocError>
    requires { All (λ spec. subs_of spec ≤ 3) specs.now }
    ensures subs { IfOk result (λ subs. subs.items ≡ map subs_of specs.now) }
    ensures most { IfOk result (λ subs. All (λ n. n ≤ 3) subs.items) }
{
    let mut subs = Vec::new(alloc);
    for spec in specs {
        subs.push(shape_of(*spec).subs)?;
    }
    Ok(subs)
}

// The data pages of the rings of so many devices.
fn all_sizes(alloc: Global, lines: &[Line], count: u32) -> Result<Vec<u32>, AllocError>
    ensures { IfOk result (λ sizes. sizes.items ≡ map (λ device. ring_pages_of device lines.now) (range_with_len 0 count)) }
{
    let mut sizes = Vec::with_capacity(alloc, count as usize)?;
    for device in 0..count {
        sizes.push_reserved(ring_pages(lines, device));
    }
    Ok(sizes)
}

/// What the lines of a phase do to a device.
#[derive(Clone, Copy)]
pub struct Fate {
    // Whether the host rescinds it at the end of the phase.
    pub rescinded: bool,
    // The processor that it is moved to, if it is.
    pub vp: Option<u32>,
}

// What they do to this one.
fn fate_of(lines: &DeviceLines<'_>) -> Fate
    ensures { (device : ℕ) (part : List OneLine) → IsTold (said_to device part) lines.now → result ≡ fate_of device part }
{
    Fate {
        rescinded: lines.stop.is_some(),
        vp: lines.vp,
    }
}

/// The next handle and the next page number.
#[derive(Clone, Copy)]
pub struct Next {
    pub gpadl: u32,
    pub page: u64,
}

/// The openings of each phase.
pub fn phases(
    alloc: Global,
    lines: &[Line],
    specs: &[DeviceSpec],
) -> Result<Vec<Vec<Opening>>, AllocError>
    requires script { IsScript lines.now }
    requires specs { specs.now ≡ offered lines.now }
    ensures { IfOk result (λ made. map (λ phase. phase.items) made.items ≡ (plan_of lines.now).phases) }
{
    let subs = all_subs(alloc, specs)?;
    let sizes = all_sizes(alloc, lines, specs.len() as u32)?;
    let mut ended = vec![in alloc; false; specs.len()]?;
    let mut next = Next {
        gpadl: FIRST_GPADL,
        page: 0,
    };
    let mut relid = specs.len() as u32 + 1;
    let mut phases = Vec::new(alloc);
    let mut left = Some(0);
    while let Some(at) = left {
        let (part, behind) = part_at(lines, at);
        let devices = deal_lines(alloc, specs.len(), part)?;
        let opened = phase_openings(
            alloc,
            ended.as_slice(),
            devices.as_slice(),
            subs.as_slice(),
            &mut relid,
        )?;
        let openings = number(
            alloc,
            opened.as_slice(),
            specs,
            sizes.as_slice(),
            devices.as_slice(),
            &mut next,
        )?;
        phases.push(openings)?;
        end_devices(&mut ended, devices.as_slice());
        left = behind;
    }
    Ok(phases)
}

// The openings of a phase's channels, in order: each takes the next handles and the next pages. `sizes` has the data pages of each device's rings, and `devices` what the lines of
// the phase say to it.
fn number(
    alloc: Global,
    opened: &[PhaseOpening],
    specs: &[DeviceSpec],
    sizes: &[u32],
    devices: &[DeviceLines<'_>],
    next: &mut Next,
) -> Result<Vec<Opening>, AllocError>
    requires within { All (IsOfDevice (length devices.now)) opened.now }
    requires specs { length specs.now ≡ length devices.now }
    requires sizes { length sizes.now ≡ length devices.now }
    requires small { All (λ n. n ≤ 16) sizes.now }
    requires few { length opened.now ≤ 64 }
    requires gpadl { next.old.gpadl + 64 * 3 < 2 ^ 32 }
    requires page { next.old.page + 64 * 162 < 2 ^ 64 }
    ensures numbered { IfOk result (λ os. (pages : ℕ → ℕ) (part : List OneLine) (cs : List OneOpening) → AreChannels pages part specs.now sizes.now devices.now cs opened.now → Numbered pages (λ device. fate_of device part) cs [] next.old os.items next.new) }
    ensures few_more { OnOk result ((next.new.gpadl ≤ next.old.gpadl + 64 * 3) × (next.new.page ≤ next.old.page + 64 * 162)) }
{
    let mut openings = Vec::with_capacity(alloc, opened.len())?;
    for o in opened {
        number_one(*o, specs, sizes, devices, &mut openings, next)?;
    }
    Ok(openings)
}

// The opening of one more of them.
fn number_one(
    o: PhaseOpening,
    specs: &[DeviceSpec],
    sizes: &[u32],
    devices: &[DeviceLines<'_>],
    openings: &mut Vec<Opening>,
    next: &mut Next,
) -> Result<(), AllocError>
    requires inside { IsOfDevice (length devices.now) o }
    requires specs { length specs.now ≡ length devices.now }
    requires sizes { length sizes.now ≡ length devices.now }
    requires small { All (λ n. n ≤ 16) sizes.now }
    requires gpadl { next.old.gpadl + 3 < 2 ^ 32 }
    requires page { next.old.page + 162 < 2 ^ 64 }
    ensures numbered { OnOk result ((pages : ℕ → ℕ) (part : List OneLine) (c : OneOpening) → AreChannels pages part specs.now sizes.now devices.now (c ∷ []) (o ∷ []) → Numbered pages (λ device. fate_of device part) (c ∷ []) openings.old.items next.old openings.new.items next.new) }
    ensures few { OnOk result ((next.new.gpadl ≤ next.old.gpadl + 3) × (next.new.page ≤ next.old.page + 162)) }
{
    let device = o.device as usize;
    let fate = fate_of(&devices[device]);
    let buffers = has_buffers(specs[device]);
    open(
        o.relid,
        o.sub as u16,
        sizes[device],
        fate,
        buffers,
        openings,
        next,
    )?;
    Ok(())
}

// Opens a channel: it takes the next handles and the next pages.
fn open(
    relid: u32,
    sub: u16,
    ring_pages: u32,
    fate: Fate,
    buffers: bool,
    openings: &mut Vec<Opening>,
    next: &mut Next,
) -> Result<(), AllocError>
    requires size { ring_pages ≤ 16 }
    requires gpadl { next.old.gpadl + 3 < 2 ^ 32 }
    requires page { next.old.page + 162 < 2 ^ 64 }
    ensures opened { OnOk result (openings.new.items ≡ openings.old.items ++ record { relid = relid; sub = sub; ring_pages = ring_pages; gpadl = next.old.gpadl; first_page = next.old.page; rescinded = fate.rescinded; vp = vp_at fate.vp sub; dialed = None; buffers = buffers } ∷ []) }
    ensures next { OnOk result (next.new ≡ record { gpadl = next.old.gpadl + lists_with buffers; page = next.old.page + pages_with buffers ring_pages }) }
{
    openings.push(Opening {
        relid,
        sub,
        ring_pages,
        gpadl: next.gpadl,
        first_page: next.page,
        rescinded: fate.rescinded,
        vp: vp_at(fate.vp, sub),
        dialed: None,
        buffers,
    })?;
    next.gpadl += lists_with(buffers);
    next.page += pages_with(buffers, ring_pages);
    Ok(())
}

// How many page lists an opening has: that of its rings, and those of its two buffers.
fn lists_with(buffers: bool) -> u32
    ensures { result ≡ lists_with buffers }
{
    if buffers { 3 } else { 1 }
}

// How many pages they have together: for each ring a header page and its data pages, and for each buffer
// 64.
fn pages_with(buffers: bool, ring_pages: u32) -> u64
    requires { ring_pages ≤ 16 }
    ensures { result ≡ pages_with buffers ring_pages }
{
    let rings = 2 * u64::from(ring_pages) + 2;
    if buffers { rings + 128 } else { rings }
}

// Whether a device is a network, which has buffers.
fn has_buffers(spec: DeviceSpec) -> bool
    ensures { result ≡ has_buffers spec }
{
    matches!(spec, DeviceSpec::Net { .. })
}

// A device is moved by its first channel.
fn vp_at(vp: Option<u32>, sub: u16) -> Option<u32>
    ensures { result ≡ vp_at vp sub }
{
    if sub == 0 { vp } else { None }
}
