//! Laws of a guest's control and of its host's, of each by itself and of both as they exchange messages. The
//! functions do nothing: each one's contract is the law.
ghost use Rattle.control_laws.specs.Sides.{NewOnesStand, GuestStarts, HostStarts, GuestHears, HostHears, GuestFronts, HostFronts, GuestIsCut, HostIsCut, BothOver};
ghost use Rattle.control_laws.specs.Laws.{NewOnesAgree, BothBegin, HostGoesOn, GuestGoesOn, BothDone, FewOnTheirWay, EndsWell, EndTellsEach, RescindedAreReleased, RescindedOnce, SubsAreReleased, SubsOnce, ServicesOnce, EndsAtLower};
ghost use Rattle.control_laws.specs.Plain.{PlainGuest, PlainHost, PlainCount};
ghost use Rattle.control_laws.specs.Rows.{GuestSays, HostSays, GuestSaysNone, HostSaysNone, GuestGivesFirst, HostTakesFirst, GuestGivesSecond, HostTakesSecond, GuestClosesSubs, HostClosesSubs, GuestGivesSubs, HostTakesSubs, EndStates, SubStates, GuestMoves, HostAnswers, EndVps, GuestFills, HostFills, GuestDials, HostOffersService, SockState};

/// A side that was made from a plan stands at the start.
pub fn new_ones_stand()
    ensures { NewOnesStand }
{}

/// A guest that begins the part that comes next stands where that part begins.
pub fn guest_starts()
    ensures { GuestStarts }
{}

/// A host that begins the part that comes next stands where that part begins.
pub fn host_starts()
    ensures { HostStarts }
{}

/// A guest that waits doesn't refuse the next message of all that its host says, and goes on.
pub fn guest_takes()
    ensures { GuestHears }
{}

/// A host that waits doesn't refuse the next message of all that its guest says, and goes on.
pub fn host_takes()
    ensures { HostHears }
{}

/// A guest posted the front of all that it says, and was fed the front of all that its host says.
pub fn guest_fronts()
    ensures { GuestFronts }
{}

/// A host posted the front of all that it says, and was fed the front of all that its guest says.
pub fn host_fronts()
    ensures { HostFronts }
{}

/// A host never says UNLOAD, and a guest never takes it.
pub fn guest_is_cut()
    ensures { GuestIsCut }
{}

/// A guest never says UNLOAD_RESPONSE, and a host never takes it.
pub fn host_is_cut()
    ensures { HostIsCut }
{}

/// What holds of both where each is done with the farewell.
pub fn both_over()
    ensures { BothOver }
{}

/// A guest and a host that were made from one plan agree.
pub fn new_ones_agree()
    ensures { NewOnesAgree }
{}

/// Both begin the part that comes next, and agree.
pub fn both_begin()
    ensures { BothBegin }
{}

/// The host doesn't refuse the first message on its way to it, and both agree once it was taken.
pub fn host_goes_on()
    ensures { HostGoesOn }
{}

/// The guest doesn't refuse the first message on its way to it, and both agree once it was taken.
pub fn guest_goes_on()
    ensures { GuestGoesOn }
{}

/// Where no message is on its way, both are done.
pub fn both_done()
    ensures { BothDone }
{}

/// At most 32 messages are on their way to each side.
pub fn few_on_their_way()
    ensures { FewOnTheirWay }
{}

/// What holds of both once they are done with the farewell.
pub fn ends_well()
    ensures { EndsWell }
{}

/// At the end there is a channel for each device and for each sub-channel that a phase opened, and it
/// stands alike at both sides: one that was rescinded is given back, and so is each sub-channel; each
/// other one that was ever opened is closed, and each one that wasn't is offered. Its processor is the
/// last one that a phase moved it to, and 0 where none did.
pub fn end_tells_each()
    ensures { EndTellsEach }
{}

/// A channel that a phase rescinds is given back at both sides at the end.
pub fn rescinded_are_released()
    ensures { RescindedAreReleased }
{}

/// The host takes a channel that a phase rescinds back once, and the guest gives it back once.
pub fn rescinded_once()
    ensures { RescindedOnce }
{}

/// A sub-channel that a phase opens is given back at both sides at the end.
pub fn subs_are_released()
    ensures { SubsAreReleased }
{}

/// The host offers a sub-channel that a phase opens once and takes it back once, and the guest gives it
/// back once.
pub fn subs_once()
    ensures { SubsOnce }
{}

/// The host offers the channel of a service that the guest asks for once.
pub fn services_once()
    ensures { ServicesOnce }
{}

/// Where no sub-channel is opened, each side opens and closes the channels of a phase in order of
/// offer; and where no channel is offered but at the contact there is one for each device.
pub fn plain()
    ensures guest { PlainGuest }
    ensures host { PlainHost }
    ensures count { PlainCount }
{}

/// The version at the end is the lower one of both ends' highest.
pub fn ends_at_lower()
    ensures { EndsAtLower }
{}

/// What both say over small plans: versions, the offers, a channel that is opened and closed, and a
/// farewell, which isn't said below 3.0; and of two channels, one that is rescinded and one that is
/// closed at the end of a phase, in both orders, and how they stand then; and of a disk with two
/// sub-channels that is closed at the end of a phase, or rescinded; and of two channels that are moved to
/// other processors, which isn't said below 4.1 and isn't answered below 5.3; and of two networks with
/// the page lists of their buffers, one that is closed and one that is rescinded; and over the plan of a
/// socket, whose channel the guest asks for and gives back.
pub fn say_so()
    ensures guest { GuestSays }
    ensures host { HostSays }
    ensures guest_old { GuestSaysNone }
    ensures host_old { HostSaysNone }
    ensures guest_first { GuestGivesFirst }
    ensures host_first { HostTakesFirst }
    ensures guest_second { GuestGivesSecond }
    ensures host_second { HostTakesSecond }
    ensures guest_closes_subs { GuestClosesSubs }
    ensures host_closes_subs { HostClosesSubs }
    ensures guest_gives_subs { GuestGivesSubs }
    ensures host_takes_subs { HostTakesSubs }
    ensures states { EndStates }
    ensures sub_states { SubStates }
    ensures guest_moves { GuestMoves }
    ensures host_answers { HostAnswers }
    ensures vps { EndVps }
    ensures guest_fills { GuestFills }
    ensures host_fills { HostFills }
    ensures guest_dials { GuestDials }
    ensures host_offers { HostOffersService }
    ensures sock_state { SockState }
{}
