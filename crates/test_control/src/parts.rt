//! A path runs its parts, one after the other.
ghost use Rattle.std.specs.Prelude.{◌≡◌, Some};
ghost use Rattle.control_model.specs.Plan.{part_after};
ghost use Rattle.control_path.specs.Path.{Rests};

use contact::Part;
use control_path::{ControlPath, PathOver};
use std::process::Abort;
use std::sync::Wait;
use std::thread::Threads;

// Runs this part, which is the next one.
fn runs<R: Abort + Threads + Wait + Sync>(rt: &R, path: ControlPath, part: Part) -> ControlPath
    requires rests { Rests path }
    requires part { part_after path.guest.plan path.guest.part ≡ Some part }
    ensures rests { Rests result }
    ensures part { result.guest.part ≡ Some part }
{
    match path.run(rt, part) {
        Ok(path) => path,
        Err(want) => {
            drop(want);
            panic!(rt; "a side wanted memory");
        }
    }
}

/// Runs the next part.
pub fn go<R: Abort + Threads + Wait + Sync>(rt: &R, path: ControlPath) -> ControlPath
    requires { Rests path }
    ensures { Rests result }
{
    let Some(part) = path.next_part() else {
        panic!(rt; "no part is left");
    };
    runs(rt, path, part)
}

/// Runs the farewell, which is the last part.
pub fn farewell<R: Abort + Threads + Wait + Sync>(rt: &R, path: ControlPath) -> PathOver
    requires { Rests path }
{
    let Some(Part::Unload) = path.next_part() else {
        panic!(rt; "the farewell isn't next");
    };
    runs(rt, path, Part::Unload).end(rt)
}
