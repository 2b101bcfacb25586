//! Laws of ends: each function does nothing, and its contract is a law.
ghost use Rattle.std.specs.Prelude.{◌≡◌, ℕ, ◌*◌, ◌<◌, true, List};
ghost use Rattle.ring_machine.specs.Inside.{IsInside, ChangesOnly, call_in};
ghost use Rattle.ring_machine.specs.PageCalls.{next_in};
ghost use Rattle.ring_machine.specs.Places.{free, used, ahead};
ghost use Rattle.ring_machine.specs.Steps.{fed, is_busy_at};
ghost use Rattle.ring_machine.specs.States.{Begins};
ghost use Rattle.ring_machine.specs.Endings.{last_of, why_of};
ghost use Rattle.ring_machine.specs.Causes.{Breaks};
ghost use Rattle.ring_machine.specs.declared.last.Why.{Why};
ghost use Rattle.ring_machine.specs.declared.machine.EndMachine.{EndMachine};
ghost use Rattle.ring_machine.specs.declared.machine.Stage.TheVariants.{Stopped};
ghost use Rattle.ring_machine.specs.declared.state.EndState.{EndState};

use crate::end_core::EndCore;

/// No step of an end names a place outside its channel.
pub fn stays_inside(_core: &EndCore, _packet: &[u64])
    ensures { IsInside _core.now.machine.cells _core.now.pages.count (next_in _core.now.machine _core.now.pages.call _packet.now) }
{}

/// A send stores only to the cells and the write word of the ring that its end fills, a commit to the read word of the ring that it empties, an arm and
/// a poll to the mask of the latter and the pending word of the former, and a mark to the end's own mark. A send, a commit and a mark raise the
/// peer, and a poll takes the end's own signal. A store of a page word stores to page words alone. A take, a look for the peer's mark, and a load of
/// lent words, change no word.
pub fn stores_by_call(_core: &EndCore, _packet: &[u64])
    ensures { ChangesOnly (call_in _core.now.machine.stage _core.now.pages.call) _core.now.machine.side (next_in _core.now.machine _core.now.pages.call _packet.now) }
{}

/// Room, use and steps round a ring count bytes as they count cells.
pub fn counts_bytes()
    ensures free { (n r w : ℕ) → r < n → w < n → 8 * free n r w ≡ free (8 * n) (8 * r) (8 * w) }
    ensures used { (n r w : ℕ) → r < n → w < n → 8 * used n r w ≡ used (8 * n) (8 * r) (8 * w) }
    ensures ahead { (n i k : ℕ) → i < n → k < n → 8 * ahead n i k ≡ ahead (8 * n) (8 * i) (8 * k) }
{}

/// How the last call ended stands as it is where a later one begins, and after each of its steps but the last.
pub fn last_stays(_core: &EndCore)
    ensures begins { (s : EndState) (m : EndMachine) (p : List ℕ) → Begins s m p → last_of m ≡ last_of s.machine }
    ensures feeds { (v : ℕ) → is_busy_at (fed _core.now.machine v).stage ≡ true → last_of (fed _core.now.machine v) ≡ last_of _core.now.machine }
{}

/// An end refuses a value that its step gave exactly where the value breaks a rule, and names the first rule that it breaks.
pub fn refuses_by_cause(_core: &EndCore)
    ensures cause { (v : ℕ) → is_busy_at _core.now.machine.stage ≡ true → (fed _core.now.machine v).stage ≡ Stopped → Breaks (why_of (fed _core.now.machine v)) _core.now.machine v }
    ensures refusal { (v : ℕ) (why : Why) → Breaks why _core.now.machine v → ((fed _core.now.machine v).stage ≡ Stopped) × (why_of (fed _core.now.machine v) ≡ why) }
{}
