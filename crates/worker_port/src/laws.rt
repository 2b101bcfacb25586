//! Laws of the two workers of a channel: each function does nothing, and its contract is a law.
ghost use Rattle.std.specs.Prelude.{◌≡◌, [], map};
ghost use Rattle.channel_trace.specs.Laws.{AreOfOneRun};
ghost use Rattle.channel_trace.specs.Runs.{sent_of, got_of};
ghost use Rattle.page_kept.specs.declared.item.Item.{Item};
ghost use Rattle.page_kept.specs.Items.{item_of, packets};
ghost use Rattle.ring_core.specs.Seen.{Seen};
ghost use Rattle.worker_port.specs.Line.{GotItems, IsLine, past_as, whole};
ghost use Rattle.worker_port.specs.Rooms.{NeverLacks};
ghost use Rattle.channel_model.specs.WireFormat.{WireFormat};

use ring_sleep::Parks;

/// Between two ends of one channel whose plans agree neither worker ends for want of room or of a call: the end that asks sends as many requests as it has
/// asks, and acknowledges each message once; the end that serves made room for as many, serves as many of the device, and sends at most one answer for each
/// request that it got, and one message besides where there are messages. `Requester::run` and `Server::run` say what it takes.
pub fn never_lacks<A, Q, R>()
    ensures { (s : WireFormat Item A Q R) → NeverLacks s }
{}

/// Two ends of one run are of one run in items too, however these are read, where each got the front of the page words that the other sent; so they did where there
/// are no data pages. And in items each sent and got its packets with their page words, as they are read.
pub fn items_are_one_run<S: Parks>()
    ensures run { (f : Item → Item) (guest host : Seen S) → IsLine S.told guest → IsLine S.told host → AreOfOneRun guest.state.past host.state.past → GotItems guest.state host.state → GotItems host.state guest.state → AreOfOneRun (past_as f guest.state) (past_as f host.state) }
    ensures bare { (f : Item → Item) (guest host : Seen S) → IsLine S.told guest → IsLine S.told host → AreOfOneRun guest.state.past host.state.past → guest.state.pages.count ≡ 0 → host.state.pages.count ≡ 0 → AreOfOneRun (past_as f guest.state) (past_as f host.state) }
    ensures sent { (f : Item → Item) (e : Seen S) → IsLine S.told e → sent_of (past_as f e.state) ≡ map f (whole e.state.sent e.state.pages.sent) }
    ensures got { (f : Item → Item) (e : Seen S) → IsLine S.told e → got_of (past_as f e.state) ≡ map f (whole e.state.got e.state.pages.got) }
    ensures packets { (e : Seen S) → IsLine S.told e → (packets (whole e.state.sent e.state.pages.sent) ≡ e.state.sent) × (packets (whole e.state.got e.state.pages.got) ≡ e.state.got) }
    ensures none { (e : Seen S) → IsLine S.told e → e.state.pages.count ≡ 0 → (whole e.state.sent e.state.pages.sent ≡ map (λ p. item_of p []) e.state.sent) × (whole e.state.got e.state.pages.got ≡ map (λ p. item_of p []) e.state.got) }
{}
