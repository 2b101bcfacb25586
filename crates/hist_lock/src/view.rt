//! What a seat at the lock's table knows. Of these types but `Kept` and `Charter` no value is made.
use crate::{Entry, Machine};
use std::collections::LinkedList;
use std::snapshot::Snapshot;

/// A call that a seat made, with its place in the history. Contracts speak of it.
pub struct Call<Q, A> {
    /// The place of the call's entry in the history.
    pub serial: u32,
    /// What was asked.
    pub request: Q,
    /// What the machine answered.
    pub reply: A,
}

/// What a lock opens with: the quotas, the first state of the setup, and the past history.
pub struct Terms<M: Machine> {
    pub quotas: LinkedList<u32>,
    pub start: M,
    pub past: LinkedList<Entry<M>>,
}

/// A seat's number, the calls that it may still begin, and those that it made.
pub struct Line<M: Machine> {
    pub number: u32,
    pub left: u32,
    pub calls: LinkedList<Call<M::Request, M::Reply>>,
}

/// How far the call has come. Numbers are tickets, and the lists are histories.
pub enum Stage<M: Machine> {
    /// Between calls.
    Idle,
    /// A ticket is drawn.
    Waits(u64),
    /// The ticket is the one that is served.
    Turn(u64),
    /// The slot is taken, with this history in it.
    Holds(u64, LinkedList<Entry<M>>),
    /// The slot is given back, with one entry more.
    Gave(u64, Entry<M>),
    /// The slot is taken for good, with this history in it.
    Ended(LinkedList<Entry<M>>),
}

/// The seats that stand in it, and how far their call has come. A view that is spent has no terms.
pub struct View<M: Machine> {
    pub terms: Option<Terms<M>>,
    pub lines: LinkedList<Line<M>>,
    pub stage: Stage<M>,
}

/// What lies in the slot.
#[derive(Drop)]
pub struct Kept<M: Machine> {
    pub state: M,
    pub entries: Vec<Entry<M>>,
}

/// What the table is told once: the quotas, the state and the history with which it opens.
#[derive(Drop)]
pub struct Charter<M: Machine> {
    pub quotas: Snapshot<Vec<u32>>,
    pub state: Snapshot<M>,
    pub past: Snapshot<Vec<Entry<M>>>,
}
