//! Laws of runs. The functions do nothing: each one's contract is the law.
ghost use Rattle.bus_model.specs.Laws.{Arrives, OpensOne, LendsOne, LendsOwnPages, MessagesLendOne, ServesEach, ServesFirst, AsksAsScripted, CompletesEach, OneEach, CarriesOpened, TableOfOutcomes, RowsOfEnded, ListsTell, Rescinds, UnservedNowhere, OrdersRun};
ghost use Rattle.bus_model.specs.Worked.{Shares, SharesOtherwise, Closes, Rescinded, Held};

/// What each end of a channel got is what the other one sent, as it was sent: all of it, unless
/// the service stopped.
pub fn arrives()
    ensures { Arrives }
{}

/// No id is used by two requests at once: at each moment at most one under it is without its answer, and one whose answer never came was the last one under it.
pub fn opens_one()
    ensures { OpensOne }
{}

/// A page that requests lend has one of them at a time: the next one goes once the completion of the one before was taken.
pub fn lends_one()
    ensures { LendsOne }
{}

/// A page that messages of the end that serves lend has one of them at a time: the next one goes once the acknowledgement of the one before was taken. It is the page of the message's own
/// id, and no request lends it.
pub fn messages_lend_one()
    ensures pages { LendsOwnPages }
    ensures turns { MessagesLendOne }
{}

/// Each request of the script on a channel was served once, up to where the service stopped.
pub fn serves_each()
    ensures { ServesEach }
{}

/// What a channel served are the first requests that it was asked: those of the script, but that a message for an adapter has the id of its packet.
pub fn serves_first()
    ensures first { ServesFirst }
    ensures others { AsksAsScripted }
{}

/// Each message that came back besides the answers was completed, in order.
pub fn completes_each()
    ensures { CompletesEach }
{}

/// Each line that prints has one outcome.
pub fn one_each()
    ensures { OneEach }
{}

/// The channels that carried packets are those that the phases open.
pub fn carries_opened()
    ensures { CarriesOpened }
{}

/// The table of outcomes, row by row.
pub fn table()
    ensures rows { TableOfOutcomes }
    ensures ended { RowsOfEnded }
{}

/// The lists of both ends tell the outcomes of a channel's requests.
pub fn lists_tell()
    ensures { ListsTell }
{}

/// What a rescind leaves of a channel's requests: each has one outcome, and the first ones were served. What the report calls unserved is in no history.
pub fn rescinds()
    ensures requests { Rescinds }
    ensures unserved { UnservedNowhere }
{}

/// Each order that can be asked has a run, wherever its service stops: no field of a run excludes
/// another one.
pub fn orders_run()
    ensures { OrdersRun }
{}

/// The worked examples have runs.
pub fn worked()
    ensures shares { Shares }
    ensures otherwise { SharesOtherwise }
    ensures closes { Closes }
    ensures rescinded { Rescinded }
    ensures held { Held }
{}
