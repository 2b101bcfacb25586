//! A storage packet with an SRB is answered by a disk.
ghost use Rattle.std.specs.Prelude.{◌≡◌, ◌≤◌, ℕ, length, Ok, Err};
ghost use Rattle.scsi_disk.specs.DiskModel.{disk_reply};
ghost use Rattle.scsi_disk.specs.FiniteMap.{stands_for, kept_after};
ghost use Rattle.scsi_disk.specs.declared.request.DiskRequest.{DiskRequest};
ghost use Rattle.stor_proto.specs.Srbs.{request_of, reply_of, stop_of};
ghost use Rattle.stor_proto.specs.declared.stop.SrbStop.{SrbStop};

use hist_lock::Machine;
use scsi_disk::{Chunk, Disk};
use stor_proto::{Vstor, srb_reply, srb_request, srb_stop};

/// The answer to an srb that came with these bytes of data: the disk's reply to the request in it, which the disk has then done. An srb that holds
/// no request for the disk is stopped, and the disk is as it was.
pub fn serve_srb(disk: &mut Disk, packet: &Vstor, bytes: &[u8]) -> Vstor
    requires srb { packet.now.operation ≡ 3 }
    requires most { length bytes.now ≤ 4096 }
    ensures served { (q : DiskRequest) → request_of packet.now bytes.now ≡ Ok q → (result ≡ reply_of packet.now (disk_reply (stands_for disk.old) q)) × (disk.new ≡ kept_after disk.old q) }
    ensures stopped { (stop : SrbStop) → request_of packet.now bytes.now ≡ Err stop → (result ≡ stop_of packet.now stop.status) × (disk.new ≡ disk.old) }
{
    match srb_request(packet, Chunk::of(bytes)) {
        Ok(request) => srb_reply(packet, &disk.apply(&request)),
        Err(stop) => srb_stop(packet, stop.status),
    }
}
