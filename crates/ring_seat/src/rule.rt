//! The rule of a channel's table, and what each step tells. These types are for the proofs alone.
use crate::view::View;
use atomic_table::{Join, Play, Shared, Split, TableRule};
use std::marker::{Brand, PhantomData};

/// What a channel is made for: the cells of each ring, and its data pages.
#[derive(Clone, Copy)]
pub struct Extent {
    pub cells: u32,
    pub pages: u32,
}

/// The words of a channel and the states of its two ends belong together. The key is the channel's extent.
pub struct ChannelRule;

impl TableRule<(), View, Extent> for ChannelRule {
    ghost use Rattle.io_edge.specs.declared.side.Side.TheVariants.{Guest, Host};
    ghost use Rattle.ring_seat.specs.Seats.{Holds, new_told};
    ghost use Rattle.ring_seat.specs.declared.view.View.TheVariants.{Both};

    ghost holds = { λ k. Holds k.cells k.pages };

    ghost first = { λ k. Both (new_told k.cells k.pages Guest) (new_told k.cells k.pages Host) };
}

pub(crate) type Board = Shared<(), View, Extent, ChannelRule>;

/// The end that makes a step, and the step. A call at `Brand` picks it.
pub trait Intent {
    ghost use Rattle.ring_seat.specs.Seats.{Making};

    ghost base: { Making };
}

impl Intent for Brand {
    ghost use Rattle.ring_seat.specs.Seats.{nobody};

    ghost base = { nobody };
}

/// A step that loads or exchanges a word.
pub(crate) struct Loads<J> {
    intent: PhantomData<J>,
}

impl<J: Intent> Play<(), View> for Loads<J> {
    ghost use Rattle.ring_seat.specs.Seats.{IsNamed, Tells};

    ghost then = { λ s before v now. IsNamed J.base s × Tells J.base v now };
}

/// A step that stores a word.
pub(crate) struct Stores<J> {
    intent: PhantomData<J>,
}

impl<J: Intent> Play<(), View> for Stores<J> {
    ghost use Rattle.ring_seat.specs.Seats.{IsNamed, Tells};

    ghost then = { λ s before v now. IsNamed J.base s × Tells J.base 0 now };
}

/// The guest's end and the host's end go apart, and come together again.
pub(crate) struct Ends;

impl Split<View> for Ends {
    ghost use Rattle.ring_seat.specs.Seats.{guest_in, host_in};

    ghost left = { guest_in };

    ghost right = { host_in };
}

impl Join<View> for Ends {
    ghost use Rattle.ring_seat.specs.Seats.{joined};
    ghost use Rattle.ring_seat.specs.declared.view.View.TheVariants.{Spent};

    ghost both = { joined };

    ghost spent = { Spent };
}

/// A look at both ends. Of one end it counts as a step.
pub(crate) struct Settles;

impl Play<(), View> for Settles {
    ghost use Rattle.std.specs.Prelude.{◌≡◌};
    ghost use Rattle.ring_seat.specs.Seats.{looked};
    ghost use Rattle.ring_seat.specs.Settling.{IsSettled};

    ghost then = { λ s before v now. (now ≡ (looked before.0, before.1)) × IsSettled before.0 };
}
