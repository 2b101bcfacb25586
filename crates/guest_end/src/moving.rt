//! Channels are moved to other processors, once all channels of a phase are open.
ghost use Rattle.std.specs.Prelude.{◌≡◌, ◌≤◌, length, IfOk};
ghost use Rattle.std.specs.List.{position_from};
ghost use Rattle.control_model.specs.Plan.{movers};
ghost use Rattle.control_model.specs.Channels.{by_relid};
ghost use Rattle.control_model.specs.Guest.{IsFit, can_modify, is_answered, is_opened, is_modifying, channel_then, then_in, movers_of, moves_of, moves_all, waits_moved, waits_answer, waits_on, on_modified};

use crate::GuestControl;
use crate::turns::lived;
use chan_state::{Event, State};
use contact::{Part, Version, answers_modify, has_modify};
use control_model::{
    Burst, Change, Channel, ControlFault, GuestTurn, GuestWait, Move, Moves, Opening,
};

impl GuestControl {
    // All channels of a phase are open: those that the phase moves are moved, from 4.1 on, but for
    // any that isn't open any more. From 5.3 on the guest waits for the answers.
    pub(crate) fn move_all(&self, turn: GuestTurn, part: Option<Part>) -> GuestTurn
        requires { IsFit self.now turn }
        ensures turn { result ≡ moves_all self.now part turn }
        ensures fits { IsFit self.now result }
    {
        let moves = self.moves(&turn.heard, self.movers(part));
        let answered = is_answered(self.version);
        GuestTurn {
            awaits: waits_moved(answered, &moves),
            wished: Change::Moved { moves, answered },
            burst: Burst::Moves(moves),
            ..turn
        }
    }

    // The openings of the phase that starts in a part, of which those with a processor are moved: none
    // below 4.1.
    fn movers(&self, part: Option<Part>) -> &[Opening]
        ensures movers { movers result.now ≡ movers_of self.now part }
        ensures few { length result.now ≤ 16 }
    {
        self.plan.with_movers(part, can_modify(self.version))
    }

    // Those of them that are open are moved, each to its processor.
    fn moves(&self, heard: &Change, openings: &[Opening]) -> Moves
        requires { length openings.now ≤ 16 }
        ensures { result ≡ moves_of self.now heard.now (movers openings.now) }
    {
        let mut moves = Moves::new();
        for o in openings {
            if let Some(vp) = o.vp {
                if self.is_opened(heard, *o) {
                    moves.push(Move { relid: o.relid, vp });
                }
            }
        }
        moves
    }

    // The number, among the openings that are moved, of the first one whose channel is still to be
    // answered.
    fn first_unanswered(&self, heard: &Change, openings: &[Opening]) -> Option<usize>
        requires { length openings.now ≤ 16 }
        ensures { result ≡ position_from (then_in self.now heard.now is_modifying) 0 (movers openings.now) }
    {
        let mut number = 0;
        for o in openings {
            if o.vp.is_some() {
                if self.is_modifying(heard, *o) {
                    return Some(number);
                }
                number += 1;
            }
        }
        None
    }

    // Whether the channel of an opening is open, as the message that came leaves it.
    fn is_opened(&self, heard: &Change, o: Opening) -> bool
        ensures { result ≡ then_in self.now heard.now is_opened o }
    {
        match self.channel_then(heard, o.relid) {
            Some(channel) => is_opened(channel.life.state()),
            None => false,
        }
    }

    // Whether it was moved, and the host hasn't answered.
    fn is_modifying(&self, heard: &Change, o: Opening) -> bool
        ensures { result ≡ then_in self.now heard.now is_modifying o }
    {
        match self.channel_then(heard, o.relid) {
            Some(channel) => is_modifying(channel.life.state()),
            None => false,
        }
    }

    // The channel with a relid, as the message that came leaves it.
    fn channel_then(&self, heard: &Change, relid: u32) -> Option<Channel>
        ensures { result ≡ channel_then self.now heard.now relid }
    {
        match heard {
            Change::Now {
                relid: named,
                channel,
            } if *named == relid => Some(*channel),
            _ => self.channel(relid),
        }
    }

    // MODIFYCHANNEL_RESPONSE: the channel is open again.
    pub(crate) fn on_modified(&self, relid: u32) -> Result<GuestTurn, ControlFault>
        ensures turn { result ≡ on_modified self.now relid (by_relid self.now.channels relid) }
        ensures fits { IfOk result (λ turn. IsFit self.now turn) }
    {
        let Some(channel) = self.channel(relid) else {
            return Err(ControlFault::Relid { value: relid });
        };
        let channel = lived(channel, Event::ModifiedSeen)?;
        let turn = GuestTurn {
            heard: Change::Now { relid, channel },
            ..self.idle()
        };
        match self.awaits {
            GuestWait::Modified(_) => Ok(self.wait_on(turn)),
            _ => Ok(turn),
        }
    }

    // The guest waits for the answers that are still to come.
    pub(crate) fn wait_on(&self, turn: GuestTurn) -> GuestTurn
        requires { IsFit self.now turn }
        ensures turn { result ≡ waits_on self.now turn }
        ensures fits { IsFit self.now result }
    {
        GuestTurn {
            awaits: waits_answer(self.first_unanswered(&turn.heard, self.movers(self.part))),
            ..turn
        }
    }
}

// Waits for the answers from the first one on, where there are some.
fn waits_moved(answered: bool, moves: &Moves) -> GuestWait
    ensures { result ≡ waits_moved answered moves.now }
{
    match moves.as_slice() {
        [_, ..] if answered => GuestWait::Modified(0),
        _ => GuestWait::Nothing,
    }
}

// Waits for the answers from that of this number on, if one is to come.
fn waits_answer(first: Option<usize>) -> GuestWait
    ensures { result ≡ waits_answer first }
{
    match first {
        Some(number) => GuestWait::Modified(number),
        None => GuestWait::Nothing,
    }
}

// Whether the version has MODIFYCHANNEL.
fn can_modify(version: Option<Version>) -> bool
    ensures { result ≡ can_modify version }
{
    match version {
        Some(v) => has_modify(v),
        None => false,
    }
}

// Whether the host answers it.
fn is_answered(version: Option<Version>) -> bool
    ensures { result ≡ is_answered version }
{
    match version {
        Some(v) => answers_modify(v),
        None => false,
    }
}

// Whether a channel is open.
fn is_opened(state: State) -> bool
    ensures { result ≡ is_opened state }
{
    matches!(state, State::Opened)
}

// Whether it was moved, and the host hasn't answered.
fn is_modifying(state: State) -> bool
    ensures { result ≡ is_modifying state }
{
    matches!(state, State::Modifying)
}
