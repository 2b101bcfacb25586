//! One end of a channel with data pages, over whatever seat: a word is stored into a page, and a packet lends it.
ghost use Rattle.std.specs.Prelude.{◌≡◌, ◌⊎◌, OnOk, OnErr, IfSome, IfNone};
ghost use Rattle.page_kept.specs.Kept.{pages_sent};
ghost use Rattle.page_kept.specs.Layouts.{layout};
ghost use Rattle.page_kept.specs.Stepped.{page_stored};
ghost use Rattle.ring_machine.specs.Endings.{send_answer};
ghost use Rattle.example_calls.specs.Calls.{CanStore, CanLend};

use ring_core::{End, Seatlike, SendRefusal, Signalled, may_lend};

/// Stores a word into a page that the end has, or holds, and then sends a packet: where the packet lends or brings back that page, the word goes along. It is
/// none exactly where the end may not store, and nothing is done then, or where it may not send behind the store.
pub fn lend_word<S: Seatlike>(
    end: &mut End<S>,
    page: u32,
    word: u32,
    value: u64,
    p: &[u64],
) -> Option<Result<Signalled, SendRefusal>>
    ensures lent { IfSome result (λ r. OnOk r (end.new.state.pages ≡ pages_sent (layout end.old.state.pages.count) (page_stored end.old.state.pages page word value) p.now)) }
    ensures kept { IfSome result (λ r. OnErr r (end.new.state.pages ≡ page_stored end.old.state.pages page word value)) }
    ensures answer { IfSome result (λ r. r ≡ send_answer end.new.state.machine.ended end.new.state.machine) }
    ensures not { IfNone result (((end.new ≡ end.old) × (CanStore end.old page word → ⊥)) ⊎ ((end.new.state.pages ≡ page_stored end.old.state.pages page word value) × (CanLend end.new p.now → ⊥))) }
{
    if !end.is_ready() || !end.can_store(page, word) {
        return None;
    }
    end.page_store(page, word, value);
    if !may_lend(end, p) {
        return None;
    }
    Some(end.send(p))
}
