//! What the tests here begin with: each is made in one place.
ghost use Rattle.std.specs.Prelude.{◌≡◌, []};
ghost use Rattle.control_path.specs.Path.{Rests};

use bus_script::{Script, parse};
use control_path::ControlPath;
use guest_end::GuestControl;
use host_end::HostControl;
use mail_box::MailBox;
use std::alloc::AllocGlobal;
use std::process::Abort;

// The script of these lines.
fn script_of(rt: &(impl Abort + AllocGlobal), lines: &[u8]) -> Script {
    let Ok(script) = parse(rt.alloc(), lines) else {
        panic!(rt; "no script");
    };
    script
}

/// A guest of a script.
pub fn guest_of(rt: &(impl Abort + AllocGlobal), lines: &[u8]) -> GuestControl {
    let script = script_of(rt, lines);
    let made = GuestControl::make(rt.alloc(), &script);
    drop(script);
    made.expect(rt, "memory")
}

/// A host of a script.
pub fn host_of(rt: &(impl Abort + AllocGlobal), lines: &[u8]) -> HostControl {
    let script = script_of(rt, lines);
    let made = HostControl::make(rt.alloc(), &script);
    drop(script);
    made.expect(rt, "memory")
}

/// A path of a script.
pub fn path_of(rt: &(impl Abort + AllocGlobal), lines: &[u8]) -> ControlPath
    ensures { Rests result }
{
    let script = script_of(rt, lines);
    let made = ControlPath::make(rt.alloc(), &script);
    drop(script);
    made.expect(rt, "memory")
}

/// An empty box.
pub fn empty_box(rt: &(impl Abort + AllocGlobal)) -> MailBox
    ensures { result ≡ record { size = 64; queue = [] } }
{
    let Ok(post) = MailBox::make(rt.alloc(), 64) else {
        panic!(rt; "no box");
    };
    post
}
