//! What a side's control does for the one that serves it.

use contact::Part;
use control_model::ControlFault;
use mail_box::MailBox;
use std::alloc::AllocError;
use vmbus_msg::Msg;

/// One side's control: it begins a part, takes messages and answers them.
///
/// Contracts see all that it says and hears by its script, and how far it has come.
pub trait Control: Drop {
    ghost use Rattle.std.specs.Prelude.{◌≡◌, true, false, [], ◌∷◌, ◌++◌, Some, is_some, OnOk, OnErr, IfErr};
    ghost use Rattle.contact.specs.declared.part.Part.{Part};
    ghost use Rattle.mail_box.specs.Letters.{MaySay};
    ghost use Rattle.control_side.specs.Sides.{Side, Goes, Refuses};

    /// What it says and hears, and how far it has come.
    ghost seen: { Self → Side };

    /// It was fed a front of all that the other side says, and stands where that brings it.
    ghost follows: { Self → Type 0 };

    /// The part is the next one, and can begin.
    ghost can_begin: { Self → Part → Type 0 };

    /// Begins a part, and puts what this side sends unasked at its start into `post`. The refusal is
    /// want of memory, and changes nothing.
    fn begin(&mut self, part: Part, post: &mut MailBox) -> Result<(), AllocError>
        requires follows { follows self.old }
        requires part { can_begin self.old part }
        requires post { post.old ≡ record { size = 64; queue = [] } }
        ensures follows { follows self.new }
        ensures begun { OnOk result (Goes (seen self.old) post.new.queue [] (seen self.new) × ((seen self.new).part ≡ Some part)) }
        ensures refused { OnErr result ((seen self.new ≡ seen self.old) × (post.new ≡ post.old)) }
        ensures size { post.new.size ≡ 64 };

    /// Takes a message, and puts what comes of it into `post`. It refuses the message that ends the
    /// other side's early, and any for which there is no memory; a refusal changes nothing.
    fn feed(&mut self, m: &Msg, post: &mut MailBox) -> Result<(), ControlFault>
        requires follows { follows self.old }
        requires begun { is_some (seen self.old).part ≡ true }
        requires open { (seen self.old).done ≡ false }
        requires next { MaySay (seen self.old).hears (seen self.old).cut ((seen self.old).fed ++ m.now ∷ []) }
        requires post { post.old ≡ record { size = 64; queue = [] } }
        ensures follows { follows self.new }
        ensures taken { OnOk result (Goes (seen self.old) post.new.queue (m.now ∷ []) (seen self.new) × ((seen self.new).part ≡ (seen self.old).part)) }
        ensures refused { IfErr result (λ fault. Refuses (seen self.old) m.now fault × (seen self.new ≡ seen self.old) × (post.new ≡ post.old)) }
        ensures size { post.new.size ≡ 64 };

    /// Whether nothing more of the part is to be sent or taken.
    fn done(&self) -> bool
        ensures { result ≡ (seen self.now).done };

    /// The message that ends this side's early.
    fn parting(&self) -> Msg
        ensures { result ≡ (seen self.now).parting };
}
