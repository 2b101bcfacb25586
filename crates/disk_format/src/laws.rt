//! Laws of what the packets of a disk's channel say: each function does nothing, and its contract is a law.
ghost use Rattle.std.specs.Prelude.{◌≡◌, ◌≢◌, ℕ, ◌≤◌, ◌<◌, ◌*◌, true, [], Some, None, Ok, length, take};
ghost use Rattle.vm_page.specs.Words.{bytes_in};
ghost use Rattle.pkt_desc.specs.Packets.{id_of};
ghost use Rattle.page_kept.specs.declared.item.Item.{Item};
ghost use Rattle.page_kept.specs.Items.{item_of};
ghost use Rattle.scsi_disk.specs.Commands.{command_of};
ghost use Rattle.scsi_disk.specs.DiskModel.{most_back};
ghost use Rattle.scsi_disk.specs.declared.request.DiskRequest.{DiskRequest};
ghost use Rattle.scsi_disk.specs.declared.reply.DiskReply.{DiskReply};
ghost use Rattle.stor_proto.specs.Opening.{answer_of};
ghost use Rattle.stor_proto.specs.Srbs.{request_of, data_in, stop_of};
ghost use Rattle.device_wire.specs.declared.want.Want.{Want};
ghost use Rattle.device_wire.specs.declared.want.Want.TheVariants.{Step, Request as RequestWant};
ghost use Rattle.device_wire.specs.Codecs.{alone};
ghost use Rattle.device_wire.specs.WireModels.{KeepsWire};
ghost use Rattle.device_packets.specs.Said.{vstor_of, came_with, said_item};
ghost use Rattle.disk_format.specs.declared.disk_step.DiskStep.{DiskStep as OneStep};
ghost use Rattle.disk_format.specs.Disks.{done_packet, disk_fits, start_vstor, AsksForSubs};
ghost use Rattle.disk_format.specs.PageDisks.{page_waits, lacks_page as lacks, page_read, refused_vstor, page_fixed, page_answer, page_encode, disk_model, IsPageAsk};

/// The packets of a disk's channel keep to what a kind of device keeps to: each request is answered once, under its id, and the reply is read in the answer. A request lends the page of its id
/// or none, and a completion brings back no more words than came. The start-up asks nothing of the disk, and a request that can be asked asks it that.
pub fn keeps_to_its_laws()
    ensures { KeepsWire disk_model IsPageAsk }
{}

/// The start-up of a disk's first channel asks in the end for as many sub-channels as there are, and that many are granted.
pub fn asks_for_sub_channels()
    ensures { (subs : ℕ) → 1 ≤ subs → subs ≤ 3 → AsksForSubs subs }
{}

/// An srb that came without the page that it names asks nothing of the disk, and is stopped with status 4.
pub fn an_srb_without_its_page_is_stopped()
    ensures { (i : Item) → page_waits i ≡ true → lacks i ≡ true → (vstor_of i.packet).operation ≡ 3 → (page_read i ≡ None) × (page_fixed i ≡ item_of (done_packet (id_of i.packet) (stop_of (vstor_of i.packet) 4) []) []) }
{}

/// And so is one whose reply has no room in its page, if it is for the disk.
pub fn an_srb_without_room_is_stopped()
    ensures { (i : Item) (request : DiskRequest) → page_waits i ≡ true → (vstor_of i.packet).operation ≡ 3 → request_of (vstor_of i.packet) (bytes_in i.words) ≡ Ok request → 8 * length i.words < most_back (command_of request.cdb) → (page_read i ≡ None) × (page_fixed i ≡ item_of (done_packet (id_of i.packet) (stop_of (vstor_of i.packet) 4) []) []) }
{}

/// Whatever stood in a page before, and stands behind what came, what an item says is read of it: what was asked, what is answered, and nothing where the answer is
/// fixed.
pub fn pages_are_read_as_meant()
    ensures asked { (id : ℕ) (ask : Want OneStep DiskRequest) → said_item (page_encode id ask) ≡ page_encode id ask }
    ensures reads { (id : ℕ) (request : DiskRequest) (came : Item) → data_in (command_of request.cdb) ≡ 1 → came.packet ≡ (page_encode id (RequestWant request)).packet → length came.words ≡ length (page_encode id (RequestWant request)).words → said_item came ≡ page_encode id (RequestWant request) }
    ensures answered { (i : Item) (request : DiskRequest) (reply : DiskReply) (came : Item) → page_read i ≡ Some request → disk_fits request reply ≡ true → came.packet ≡ (page_answer i reply).packet → take (length (page_answer i reply).words) came.words ≡ (page_answer i reply).words → said_item came ≡ page_answer i reply }
    ensures fixed { (i came : Item) → page_waits i ≡ true → came.packet ≡ (page_fixed i).packet → said_item came ≡ page_fixed i }
{}

/// A request of a disk's start-up asks nothing of the disk. It is answered as it is, unless the bytes of its answer are those of an srb that gave bytes back: then it is
/// refused, with status 1 and 0 in all else. None that this program sends is refused so.
pub fn start_up_is_answered_as_it_is()
    ensures exact { (i : Item) → (vstor_of i.packet).operation ≢ 3 → came_with (answer_of (vstor_of i.packet)) ≡ 0 → (page_read i ≡ None) × (page_fixed i ≡ item_of (done_packet (id_of i.packet) (answer_of (vstor_of i.packet)) []) []) }
    ensures refused { (i : Item) → (vstor_of i.packet).operation ≢ 3 → came_with (answer_of (vstor_of i.packet)) ≢ 0 → (page_read i ≡ None) × (page_fixed i ≡ item_of (done_packet (id_of i.packet) refused_vstor []) []) }
    ensures own { (id : ℕ) (step : OneStep) → disk_model.format.fixed (disk_model.format.encode id (Step step)) ≡ Some (alone (item_of (done_packet id (answer_of (start_vstor step)) []) [])) }
{}
