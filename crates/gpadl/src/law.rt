//! What cutting and assembling come to.
ghost use Rattle.std.specs.Prelude.{◌≡◌, ℕ, ◌≤◌, List, length, false, None};
ghost use Rattle.vmbus_msg.specs.declared.msg.Msg.{Msg};
ghost use Rattle.gpadl.specs.Cut.{AreMessagesOf, CutsSo, CutsWell};
ghost use Rattle.gpadl.specs.Assembly.{is_live};
ghost use Rattle.gpadl.specs.Whole.{Assemble};

/// The assembled pages are those that were cut: where no list is being built and the handle isn't
/// live, the messages of a list are all taken, and make that list.
pub fn assembled()
    ensures { (relid handle : ℕ) (pages live : List ℕ) (messages : List Msg) → 1 ≤ length pages → AreMessagesOf relid handle pages messages → is_live live handle ≡ false → Assemble (record { building = None; live = live }) messages (record { relid = relid; handle = handle; want = length pages; pages = pages }) }
{}

/// A page list has one cut: its messages are those of `cut`, and these are its messages.
pub fn one_cut()
    ensures so { CutsSo }
    ensures well { CutsWell }
{}
