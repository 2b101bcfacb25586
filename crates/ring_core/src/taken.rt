//! A take that lends the words of the packet.
ghost use Rattle.std.specs.Prelude.{◌≡◌, ◌<◌, ◌≤◌, ◌∷◌, [], ◌++◌, IfOk, false, ⊤, length};
ghost use Rattle.ring_machine.specs.States.{IsPacket};
ghost use Rattle.ring_core.specs.Pages.{IsClear};
ghost use Rattle.ring_core.specs.Loading.{Loads, LendsKept};
ghost use Rattle.ring_core.specs.Taking.{Takes, TakesPages};
ghost use Rattle.ring_machine.specs.declared.machine.Stage.TheVariants.{Idle};
ghost use Rattle.ring_machine.specs.Endings.{refused};

use crate::end::End;
use crate::seat::Seatlike;
use ring_machine::TakeRefusal;

/// The words of a packet that was taken.
#[derive(Drop)]
pub struct Taken<'a> {
    words: &'a [u64],
}

impl Taken<'_> {
    /// The words as they were copied, each loaded once.
    pub fn words(&self) -> &[u64]
        ensures { result.now ≡ self.now.words.now }
    {
        self.words
    }
}

impl<S: Seatlike> End<S> {
    ghost use Rattle.ring_core.specs.contracts.end.End.{the_row};
    ghost use mathlib.Core.Option.{none};
    ghost use denote.Follow.{follows_so};
    ghost use Rattle.std.specs.Borrow.{sem};

    /// Takes the first waiting packet, and lends its words. Empty comes exactly where the loaded write index equals the private read index, and
    /// changes nothing. Malformed comes exactly where that index, the length or the offset of the packet is in no form, and stops the end. Stopped
    /// comes exactly where the end was stopped, and changes nothing. At most n + 1 steps for n words. Source: Linux
    /// `drivers/hv/ring_buffer.c`, `hv_pkt_iter_first`.
    pub fn take(&mut self) -> Result<Taken<'_>, TakeRefusal>
        requires awake { self.old.state.machine.asleep ≡ false }
        requires unmarked { self.old.state.machine.marked ≡ false }
        requires room { (0 < self.old.spare_got.packets) × (self.old.state.machine.cells ≤ self.old.spare_got.words) }
        requires clear { IsClear self.old.state.pages }
        ensures* after { sem 𝓛 (follows_so (the_row S.row S.Seatlike) (the_row S.row S.Seatlike) self.entry.ghost_name none (λ _ _. ⊤)
            (λ n. Takes S S.told S.tale S.same self.old n (refused result) × TakesPages self.old.state n.state
            × IfOk result (λ t. IsPacket t.words.now × (length t.words.now ≡ n.state.machine.len) × (n.state.got ≡ self.old.state.got ++ t.words.now ∷ [])))) }
    {
        match self.take_in() {
            Ok(()) => Ok(Taken {
                words: self.last_got(),
            }),
            Err(refusal) => Err(refusal),
        }
    }

    /// Loads the page words that came with the packet that was taken last, keeps them with it, and lends them: one step a word, at most 512. Where none are
    /// due there is no step, and no word.
    pub fn lent_load(&mut self) -> &[u64]
        requires idle { self.old.state.machine.stage ≡ Idle }
        requires room { 512 ≤ self.old.spare_got.words }
        ensures* after { sem 𝓛 (follows_so (the_row S.row S.Seatlike) (the_row S.row S.Seatlike) self.entry.ghost_name none (λ _ _. ⊤)
            (λ n. Loads S S.told S.tale S.same self.old n × LendsKept self.old n result.now)) }
    {
        let due = self.is_due();
        self.load_in();
        if due {
            return self.last_lent();
        }
        &[]
    }
}
