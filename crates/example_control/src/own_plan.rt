//! A control path that no script stands behind: its plan is made by hand, here of one disk.
ghost use Rattle.std.specs.Prelude.{◌≡◌, ◌≤◌, IfOk};
ghost use Rattle.control_model.specs.Guest.{new_guest};
ghost use Rattle.control_model.specs.Host.{new_host};
ghost use Rattle.example_control.specs.OwnPlan.{disk_plan};

use contact::{Kind, Version};
use control_model::{ControlPlan, Opening};
use guest_end::GuestControl;
use host_end::HostControl;
use std::alloc::{AllocError, Global};

// The highest version of both ends, 5.2.
const HIGHEST: Version = Version(0x0005_0002);

/// The plan of one disk: the host offers it, and in one phase the guest opens its channel, on rings of so many data pages each, and closes it. Its page list has Linux's
/// first handle, and its pages have the numbers from 0 on.
pub fn plan_of_disk(alloc: Global, ring_pages: u32) -> Result<ControlPlan, AllocError>
    requires { (1 ≤ ring_pages) × (ring_pages ≤ 16) }
    ensures { IfOk result (λ plan. plan ≡ disk_plan ring_pages) }
{
    let mut kinds = Vec::with_capacity(alloc, 1)?;
    kinds.push_reserved(Kind::Disk);
    let mut openings = Vec::with_capacity(alloc, 1)?;
    openings.push_reserved(Opening {
        relid: 1,
        sub: 0,
        ring_pages,
        gpadl: 0xE1E10,
        first_page: 0,
        rescinded: false,
        vp: None,
        dialed: None,
        buffers: false,
    });
    let mut phases = Vec::with_capacity(alloc, 1)?;
    phases.push_reserved(openings);
    Ok(ControlPlan::new(HIGHEST, HIGHEST, kinds, phases))
}

/// The controls of both ends of a bus with one disk, before their first part.
pub fn both_ends(alloc: Global, ring_pages: u32) -> Result<(GuestControl, HostControl), AllocError>
    requires { (1 ≤ ring_pages) × (ring_pages ≤ 16) }
    ensures guest { IfOk result (λ ends. ends.0 ≡ new_guest (disk_plan ring_pages)) }
    ensures host { IfOk result (λ ends. ends.1 ≡ new_host (disk_plan ring_pages)) }
{
    let of_guest = plan_of_disk(alloc, ring_pages)?;
    let of_host = plan_of_disk(alloc, ring_pages)?;
    let guest = GuestControl::of_plan(alloc, of_guest);
    let host = HostControl::of_plan(alloc, of_host);
    Ok((guest, host))
}
