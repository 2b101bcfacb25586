//! Texts of UTF-16 units.
ghost use Rattle.std.specs.Prelude.{◌≡◌, ◌==◌, ◌<◌, ◌≤◌, ◌^◌, MatchOption, length, take};
ghost use Rattle.std.specs.Bool.{MatchBool};
ghost use Rattle.std.specs.List.{AllByRecursion, list_any};
ghost use Rattle.kvp_pool.specs.Pools.{IsText};

use std::marker::Model;

/// From `MIN` to `MAX` UTF-16 units, none of which is 0, held in place. Contracts see the list of them.
#[derive(Drop)]
pub struct Units<const MIN: usize, const MAX: usize> {
    len: usize,
    units: [u16; MAX],
}

/// A pair's key: from 1 to 255 units.
pub type Key = Units<1, 255>;

/// A pair's value: at most 1,023 units.
pub type Val = Units<0, 1023>;

impl<const MIN: usize, const MAX: usize> Model for Units<MIN, MAX> {
    ghost use Rattle.std.specs.Prelude.{List, ℕ, ◌≡◌, ◌<◌, ◌≤◌, length, take};
    ghost use Rattle.std.specs.List.{AllByRecursion};

    ghost Value = { List ℕ };

    ghost view = { λ t. take t.len t.units };

    ghost invariant = { λ t. (MIN ≤ t.len) × (t.len ≤ MAX) × (length t.units ≡ MAX) × AllByRecursion (λ u. 0 < u) (take t.len t.units) };
}

impl<const MIN: usize, const MAX: usize> Units<MIN, MAX> {
    /// These units.
    pub fn of(units: &[u16]) -> Units<MIN, MAX>
        requires least { MIN ≤ length units.now }
        requires most { length units.now ≤ MAX }
        requires text { AllByRecursion (λ u. 0 < u) units.now }
        ensures { result ≡ units.now }
    {
        let mut held = [0; MAX];
        let len = units.len();
        held[..len].copy_from_slice(units);
        Units { len, units: held }
    }

    /// The first so many of these units.
    pub fn first(len: usize, units: [u16; MAX]) -> Units<MIN, MAX>
        requires least { MIN ≤ len }
        requires most { len ≤ MAX }
        requires text { AllByRecursion (λ u. 0 < u) (take len units) }
        ensures value { result ≡ take len units.entry }
        ensures text { IsText MIN MAX result }
    {
        let held = Units { len, units };
        // For the proof: the law is known where it is called.
        let _units = held.units();
        held
    }

    /// These units, where they are a text of so many.
    pub fn try_of(units: &[u16]) -> Option<Units<MIN, MAX>>
        ensures { MatchOption result (¬ IsText MIN MAX units.now) (λ t. (t ≡ units.now) × IsText MIN MAX t) }
    {
        are_units(units);
        if units.len() < MIN || units.len() > MAX || !is_whole(units) {
            return None;
        }
        Some(Units::of(units))
    }

    /// The units.
    pub fn units(&self) -> &[u16]
        ensures value { result.now ≡ self.now }
        ensures text { IsText MIN MAX self.now }
    {
        let units = &self.units[..self.len];
        are_units(units);
        units
    }

    /// The same units once more. It takes no memory.
    pub fn again(&self) -> Units<MIN, MAX>
        ensures value { result ≡ self.now }
        ensures text { IsText MIN MAX result }
    {
        // For the proof: the law is known where it is called.
        let _units = self.units();
        Units {
            len: self.len,
            units: self.units,
        }
    }
}

/// Units are below 65,536. It does nothing.
fn are_units(units: &[u16])
    ensures { AllByRecursion (λ u. u < 2 ^ 16) units.now }
{
    // For the proof: the numbers of a slice that is read are known to fit their type.
    let _len = units.len();
}

/// Whether a unit is 0.
fn has_zero(units: &[u16]) -> bool
    ensures { result ≡ list_any (λ u. u == 0) units.now }
{
    units.iter().any(|u| *u == 0)
}

/// Whether no unit is 0.
fn is_whole(units: &[u16]) -> bool
    ensures { MatchBool result (AllByRecursion (λ u. 0 < u) units.now) (¬ AllByRecursion (λ u. 0 < u) units.now) }
{
    !has_zero(units)
}
