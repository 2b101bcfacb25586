//! What a socket's service sends back.
ghost use Rattle.std.specs.Prelude.{◌≤◌, length};
ghost use Rattle.vmbus_main.specs.Answered.{IsAnswered};
ghost use Rattle.vmbus_main.specs.declared.command.InputCommand.TheVariants.{Sock};

use crate::answer::Answer;
use crate::outcome::Controls;
use bus_model::ChannelRun;
use bus_script::ParseFault;
use sock_path::{Connection, connect};
use sock_run::SockRun;
use std::alloc::Global;
use std::sync::Wait;
use std::thread::Threads;

/// Connects a guest to the service at a port, sends the input, and keeps what comes back.
pub(crate) fn sock_input<R: Threads + Wait + Sync>(
    rt: &R,
    alloc: Global,
    port: u32,
    input: Vec<u8>,
) -> Result<Answer, ParseFault>
    requires { length input.items ≤ 1048576 }
    ensures { IsAnswered (Sock port) input.items result }
{
    let mut settled = Vec::with_capacity(alloc, 1)?;
    let Connection { guest, host, run } = connect(rt, alloc, port, input)?;
    let SockRun {
        settled: lists,
        output,
    } = run;
    settled.push_reserved(ChannelRun {
        phase: 0,
        relid: 1,
        device: 0,
        settled: lists,
    });
    Ok(Answer {
        controls: Some(Controls { guest, host }),
        settled,
        histories: Vec::new(alloc),
        text: output,
    })
}
