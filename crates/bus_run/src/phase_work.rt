//! The workers of a phase's channels, as contracts see them.
use bus_threads::{Pair, PairDone};
use std::marker::Model;
use std::snapshot::Snapshot;

/// The two workers of each channel of a phase, in order of relid: as they were opened, and what they left. It takes no memory.
#[derive(Drop)]
pub struct PhaseWork {
    pub opened: Snapshot<Vec<Pair>>,
    pub left: Snapshot<Vec<PairDone>>,
}

impl Model for PhaseWork {
    ghost use Rattle.bus_run.specs.Opened.{Worked};

    ghost Value = { Worked };

    ghost view = { λ w. record { opened = w.opened.value.items; left = w.left.value.items } };
}
