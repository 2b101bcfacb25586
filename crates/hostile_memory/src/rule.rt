//! The rule of open memory, and what each step tells. These types are for the proofs alone.
use atomic_table::{Play, Shared, Split, TableRule};
use std::collections::LinkedList;
use std::marker::{Brand, PhantomData};

/// What a seat at open memory knows. No value of it is made.
pub enum OpenView {
    /// An end's seat: what its steps answered, the last one first.
    Hears(LinkedList<u64>),
    /// A hand that writes. It knows nothing.
    Scribbles,
}

/// Each word may have any value at each moment.
pub struct OpenRule;

impl TableRule<(), OpenView, ()> for OpenRule {
    ghost use Rattle.std.specs.Prelude.{[]};
    ghost use Rattle.hostile_memory.specs.declared.rule.OpenView.TheVariants.{Hears};

    ghost holds = { λ _ _. Unit {0} };

    ghost first = { λ _. Hears [] };
}

pub(crate) type Board = Shared<(), OpenView, (), OpenRule>;

/// The step that an end makes. A call at `Brand` picks it.
pub trait Intent {
    ghost use Rattle.hostile_memory.specs.Open.{Making};

    ghost base: { Making };
}

impl Intent for Brand {
    ghost use Rattle.hostile_memory.specs.Open.{nobody};

    ghost base = { nobody };
}

/// An end's step that loads or exchanges a word.
pub(crate) struct Loads<J> {
    intent: PhantomData<J>,
}

impl<J: Intent> Play<(), OpenView> for Loads<J> {
    ghost use Rattle.hostile_memory.specs.Open.{IsNamed, IsHeard};

    ghost then = { λ s before v now. IsNamed J.base s × IsHeard v before now };
}

/// An end's step that stores a word. Its answer is 0.
pub(crate) struct Stores<J> {
    intent: PhantomData<J>,
}

impl<J: Intent> Play<(), OpenView> for Stores<J> {
    ghost use Rattle.hostile_memory.specs.Open.{IsNamed, IsHeard};

    ghost then = { λ s before v now. IsNamed J.base s × IsHeard 0 before now };
}

/// A store, or a load, of the hand that writes.
pub(crate) struct Scribbling;

impl Play<(), OpenView> for Scribbling {
    ghost use Rattle.std.specs.Prelude.{◌≡◌};

    ghost then = { λ s before v now. now ≡ before };
}

/// The hand goes away from the end.
pub(crate) struct Hands;

impl Split<OpenView> for Hands {
    ghost use Rattle.hostile_memory.specs.declared.rule.OpenView.TheVariants.{Scribbles};

    ghost left = { λ v. v };

    ghost right = { λ _. Scribbles };
}
