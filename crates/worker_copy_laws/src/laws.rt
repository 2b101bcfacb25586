//! Laws of a worker beside any peer: each function does nothing, and its contract is a law.
ghost use Rattle.std.specs.Prelude.{List, Bool};
ghost use Rattle.hist_lock.specs.Seat.{Call};
ghost use Rattle.ring_core.specs.Seen.{Seen};
ghost use Rattle.worker_port.specs.Line.{CameNew, IsLine, line_of};
ghost use Rattle.worker_port.specs.declared.ended.Ended.{Ended};
ghost use Rattle.worker_server.specs.Serving.{EndsBy, Serving};
ghost use Rattle.worker_copy_laws.specs.Copies.{KnowsCopies, ServesCopies};

use channel_protocol::{Device, Protocol};
use ring_sleep::Parks;

/// Whatever its peer wrote at any moment: all that a worker's end did to its channel's words are the steps of whole calls, and where its seat tells what it heard,
/// that is just what these steps answered. The packets that it got, as its protocol reads them, are the copies that its takes made, in order, each of one take, which loaded each word once
/// and tested length and offset in that copy. An end that broke did so in its last call, which loaded a value that breaks the rule that it names.
/// `Requester::run` and `Server::run` say what it takes (`stands`, `came`).
pub fn knows_copies<T: Protocol, E: Parks>()
    ensures { (e : Seen E) → IsLine E.told e → CameNew E.tale e → KnowsCopies T.said E.tale e }
{}

/// And a device behind a worker that serves was asked, in order, only what the first of these copies say, whatever else its peer wrote. `Server::run` says what it
/// takes (`ends`, `stands`, `came`). That the device's history has just these calls, and is legal, is said of its lock (`hist_lock`).
pub fn serves_copies<T: Protocol, D: Device<T>, E: Parks>()
    ensures { (t : T) (besides : Bool) (how : Ended) (w : Serving T D E T.Request T.Reply) (e : Seen E) (calls : List (Call T.Request T.Reply)) → IsLine E.told e → CameNew E.tale e → EndsBy (T.format t) besides how w (line_of T.said e) calls → ServesCopies (T.format t).read T.said E.tale e calls }
{}
