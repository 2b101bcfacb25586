//! Laws of runs: each function does nothing, and its contract is a law.
ghost use Rattle.std.specs.Prelude.{◌≡◌, true, List, [], ◌∷◌, ◌++◌};
ghost use Rattle.channel_trace.specs.declared.event.Event.{Event};
ghost use Rattle.channel_trace.specs.Runs.{Turn, Guest, Host, IsFront, sent_of, got_of, has_marked};
ghost use Rattle.channel_trace.specs.Runs.{has_seen, is_drained, guest_of, host_of, May, IsRun};
ghost use Rattle.channel_trace.specs.Laws.{AreOfOneRun, BothWays, GetsInOrder, DrainsAll, SeesMarks};
ghost use Rattle.channel_trace.specs.Laws.{EndsAtMark, HasFirstMark, StaysUnmarked, exchanged};
ghost use Rattle.channel_trace.specs.Filled.{filled, IsFilledBy};

/// What an end got is the front of what its peer sent: in order, unchanged, none twice and none left out.
pub fn gets_in_order<P>()
    ensures { (run : List (Turn P)) → IsRun run → BothWays GetsInOrder run }
{}

/// A drained end got all that its peer sent.
pub fn drains_all<P>()
    ensures { (run : List (Turn P)) → IsRun run → BothWays DrainsAll run }
{}

/// A mark that an end saw is there.
pub fn sees_marks<P>()
    ensures { (run : List (Turn P)) → IsRun run → BothWays SeesMarks run }
{}

/// An end's mark is the last thing that it did: past it the end sends nothing, takes nothing, sees no mark and doesn't mark itself again.
pub fn ends_at_mark<P>()
    ensures { (run : List (Turn P)) → IsRun run → BothWays EndsAtMark run }
{}

/// Where there is a mark, one of the ends marked itself before it saw the other one's.
pub fn has_first_mark<P>()
    ensures { (run : List (Turn P)) → IsRun run → BothWays HasFirstMark run }
{}

/// Where each end waits for the other one's mark, there is none.
pub fn stays_unmarked<P>()
    ensures { (run : List (Turn P)) → IsRun run → BothWays StaysUnmarked run }
{}

/// A run was a run at each moment before, and each end then did what it might do, so each law holds at each moment.
pub fn each_moment<P>()
    ensures run { (later before : List (Turn P)) → IsRun (later ++ before) → IsRun before }
    ensures guest { (later before : List (Turn P)) (e : Event P) →
        IsRun (later ++ Guest e ∷ before) → May e (guest_of before) (host_of before) }
    ensures host { (later before : List (Turn P)) (e : Event P) →
        IsRun (later ++ Host e ∷ before) → May e (host_of before) (guest_of before) }
{}

/// What an end sent, got, marked, saw and drained stays so.
pub fn stays<P>()
    ensures sent { (later past : List (Event P)) → IsFront (sent_of past) (sent_of (later ++ past)) }
    ensures got { (later past : List (Event P)) → IsFront (got_of past) (got_of (later ++ past)) }
    ensures marked { (later past : List (Event P)) →
        has_marked past ≡ true → has_marked (later ++ past) ≡ true }
    ensures seen { (later past : List (Event P)) →
        has_seen past ≡ true → has_seen (later ++ past) ≡ true }
    ensures drained { (later past : List (Event P)) →
        is_drained past ≡ true → is_drained (later ++ past) ≡ true }
{}

/// Two ends that did nothing are of one run, and stay so with each event that one of them may do next.
pub fn goes_on<P>()
    ensures none { AreOfOneRun {P = P} [] [] }
    ensures guest { (e : Event P) (guest host : List (Event P)) →
        AreOfOneRun guest host → May e guest host → AreOfOneRun (e ∷ guest) host }
    ensures host { (e : Event P) (guest host : List (Event P)) →
        AreOfOneRun guest host → May e host guest → AreOfOneRun guest (e ∷ host) }
{}

/// Guest and host are alike: a run with the ends exchanged is a run.
pub fn is_run_exchanged<P>()
    ensures run { (run : List (Turn P)) → IsRun run → IsRun (exchanged run) }
    ensures guest { (run : List (Turn P)) → guest_of (exchanged run) ≡ host_of run }
    ensures host { (run : List (Turn P)) → host_of (exchanged run) ≡ guest_of run }
    ensures ends { (guest host : List (Event P)) → AreOfOneRun guest host → AreOfOneRun host guest }
{}

/// A run stays one with other things in place of the packets, where the things that an end got are the front of those that its peer sent. What an end did
/// is the same but for them.
pub fn fills_runs<P, Q>()
    ensures run { (plain : P → Q) (guest host : List (Event P)) (guest_sent guest_got host_sent host_got : List Q) →
        AreOfOneRun guest host → IsFilledBy guest guest_sent guest_got → IsFilledBy host host_sent host_got →
        IsFront guest_got host_sent → IsFront host_got guest_sent →
        AreOfOneRun (filled plain guest_sent guest_got guest) (filled plain host_sent host_got host) }
    ensures sent { (plain : P → Q) (past : List (Event P)) (sent got : List Q) →
        IsFilledBy past sent got → sent_of (filled plain sent got past) ≡ sent }
    ensures got { (plain : P → Q) (past : List (Event P)) (sent got : List Q) →
        IsFilledBy past sent got → got_of (filled plain sent got past) ≡ got }
    ensures marked { (plain : P → Q) (past : List (Event P)) (sent got : List Q) →
        has_marked (filled plain sent got past) ≡ has_marked past }
    ensures seen { (plain : P → Q) (past : List (Event P)) (sent got : List Q) →
        has_seen (filled plain sent got past) ≡ has_seen past }
    ensures drained { (plain : P → Q) (past : List (Event P)) (sent got : List Q) →
        is_drained (filled plain sent got past) ≡ is_drained past }
{}
