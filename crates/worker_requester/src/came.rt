//! What came last, and just before it.
ghost use Rattle.std.specs.Prelude.{◌≡◌, ◌⊎◌, ◌<◌, ◌≤◌, ◌++◌, ◌∷◌, [], ℕ, List, None, length};
ghost use Rattle.page_kept.specs.declared.item.Item.{Item};
ghost use Rattle.channel_protocol.specs.Paged.{item_in};
ghost use Rattle.ring_machine.specs.States.{IsPacket};
ghost use Rattle.channel_model.specs.Asker.{since};

use channel_protocol::Protocol;
use ring_sleep::Parks;
use worker_port::{Port, is_answer_read};

// A packet that came, and its page words; or no words.
#[derive(Clone, Copy)]
pub(crate) struct Came<'a> {
    pub(crate) packet: &'a [u64],
    pub(crate) words: &'a [u64],
}

// No packet.
const NONE: Came<'static> = Came {
    packet: &[],
    words: &[],
};

// The packet that came just before the last one, where it is no answer; else none.
#[tactic(auto, using(crate::proofs::CameLaws::none_before, crate::proofs::CameLaws::answered_before, crate::proofs::CameLaws::other_before))]
pub(crate) fn came_before<'a, T: Protocol, S: Parks + Drop>(
    protocol: &T,
    port: &'a Port<T, S>,
) -> Came<'a>
    requires some { 0 < length port.now.state.got }
    ensures value { (before : List Item) (p : Item) → port.now.state.got ≡ before ++ p ∷ [] → item_in T.said result.packet.now result.words.now ≡ since (T.format protocol.now) None before }
    ensures packet { result.packet.now ≡ [] ⊎ IsPacket result.packet.now }
    ensures words { length result.words.now ≤ 512 }
{
    let count = port.got_len();
    if count < 2 {
        return NONE;
    }
    let packet = port.got(count - 2);
    let words = port.words(count - 2);
    if is_answer_read(protocol, packet, words) {
        return NONE;
    }
    Came { packet, words }
}
