//! Laws of a kind of device: each function does nothing, and its contract is a law. `S` are the kind's steps, `Q` its requests and `R` its replies; `T`, `U` and `V`
//! are those of all kinds. A request can be asked where `can` says so.
ghost use Rattle.std.specs.Prelude.{ℕ, ◌≡◌, Bool, true, List, map};
ghost use Rattle.std.specs.List.{AllByRecursion};
ghost use Rattle.channel_model.specs.Channel.{AllFixed, AllAsk};
ghost use Rattle.device_wire.specs.declared.buffer_lists.BufferLists.{BufferLists as Lists};
ghost use Rattle.device_wire.specs.declared.want.Want.TheVariants.{Request as RequestWant};
ghost use Rattle.device_wire.specs.WireModels.{WireModel, KeepsWire, startup_in};
ghost use Rattle.device_wire.specs.Lifted.{Case, IsCase, CanAmong, lift_model};

/// A kind of device keeps in the steps, requests and replies of all kinds to what it keeps to in its own.
pub fn kept_lifted<S, Q, R, T, U, V>()
    ensures { (m : WireModel S Q R) (c : Case S Q R T U V) (can : Q → Bool) → IsCase c → KeepsWire m (λ q. can q ≡ true) → KeepsWire (lift_model m c) (CanAmong c (λ q. can q ≡ true)) }
{}

/// A start-up asks no device, and each request that can be asked does.
pub fn requests_ask<S, Q, R>()
    ensures start { (m : WireModel S Q R) (can : Q → Bool) → KeepsWire m (λ q. can q ≡ true) → (sub subs : ℕ) (lists : Lists) → AllFixed m.format (startup_in m sub subs lists) }
    ensures script { (m : WireModel S Q R) (can : Q → Bool) → KeepsWire m (λ q. can q ≡ true) → (asks : List Q) → AllByRecursion (λ q. can q ≡ true) asks → AllAsk m.format (map RequestWant asks) }
{}
