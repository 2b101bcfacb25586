//! Laws of phases and their channels. The functions do nothing: each one's contract is the law.
ghost use Rattle.script_lines.specs.declared.line.Ask.{Ask};
ghost use Rattle.script_phases.specs.Laws.{AllSeats, Deals, NextRelids, OfferedRelids};

/// The requests of a device with several channels are dealt out to them in turn: number n goes to
/// channel n % many, and stands at place n / many there.
pub fn deals()
    ensures { Deals Ask }
{}

/// A device that a phase opens has all its channels there.
pub fn seats()
    ensures { AllSeats }
{}

/// A device's first channel has its relid by the offer, and each sub-channel that is opened has a
/// new one.
pub fn relids()
    ensures firsts { OfferedRelids }
    ensures others { NextRelids }
{}
