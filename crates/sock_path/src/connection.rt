//! A connection from its first message to its last.
ghost use Rattle.std.specs.Prelude.{IfOk};
ghost use Rattle.sock_path.specs.Done.{AreDone};
ghost use Rattle.sock_run.specs.Runs.{IsSockRun};
ghost use Rattle.control_model.specs.Sock.{sock_plan};

use contact::Part;
use control_path::ControlPath;
use guest_end::GuestControl;
use host_end::HostControl;
use sock_run::{SockRun, run_sock};
use std::alloc::{AllocError, Global};
use std::sync::Wait;
use std::thread::Threads;

/// What a connection left: both controls, and what its channel carried.
#[derive(Drop)]
pub struct Connection {
    pub guest: GuestControl,
    pub host: HostControl,
    pub run: SockRun,
}

/// Connects a guest to the service at a port: the guest asks for the channel, the host offers it, and it is opened; it carries these bytes to the service and back;
/// and the host rescinds it. The want of memory is the one thing that refuses it. As `hvs_connect` and `hvs_release` in Linux's net/vmw_vsock/hyperv_transport.c.
pub fn connect<R: Threads + Wait + Sync>(
    rt: &R,
    alloc: Global,
    port: u32,
    input: Vec<u8>,
) -> Result<Connection, AllocError>
    ensures controls { IfOk result (λ c. AreDone (sock_plan port) c.guest c.host) }
    ensures run { IfOk result (λ c. IsSockRun input.items c.run.output.items c.run.settled) }
{
    let path = ControlPath::make_sock(alloc, port)?;
    let path = path.run(rt, Part::Contact)?;
    let path = path.run(rt, Part::PhaseStart(0))?;
    let run = run_sock(rt, alloc, input)?;
    let path = path.run(rt, Part::PhaseEnd(0))?;
    let path = path.run(rt, Part::Unload)?;
    let over = path.end(rt);
    Ok(Connection {
        guest: over.guest,
        host: over.host,
        run,
    })
}
