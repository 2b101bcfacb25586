//! What can be asked of a disk.
ghost use Rattle.std.specs.Prelude.{◌≡◌, ◌≤◌, ◌<◌, true, Some};
ghost use Rattle.std.specs.List.{AllByRecursion};
ghost use Rattle.stor_proto.specs.Srbs.{bytes_moved};
ghost use Rattle.disk_format.specs.PageDisks.{IsPageAsk};

use scsi_disk::Command;

/// Whether this command with this data can be asked of a disk, and exactly that: a built command that moves at most 4,096 bytes, with data exactly where it is a write.
pub fn is_disk_ask(cdb: &[u8; 16], out: &[u8]) -> bool
    ensures can { result ≡ true → IsPageAsk (record { cdb = cdb.now; out = out.now }) }
    ensures only { IsPageAsk (record { cdb = cdb.now; out = out.now }) → result ≡ true }
{
    are_bytes(cdb);
    match Command::of(cdb) {
        Some(Command::Write { .. }) => out.len() <= 4_096,
        Some(command) => out.is_empty() && gives_few(command),
        None => false,
    }
}

/// Bytes are below 256. It does nothing.
fn are_bytes(bytes: &[u8])
    ensures { AllByRecursion (λ b. b < 256) bytes.now }
{
    // For the proof: the numbers of a slice that is read are known to fit their type.
    let _len = bytes.len();
}

/// Whether at most 4,096 bytes come back for a command that takes none.
fn gives_few(command: Command) -> bool
    ensures can { result ≡ true → bytes_moved (Some command) 0 ≤ 4096 }
    ensures only { bytes_moved (Some command) 0 ≤ 4096 → result ≡ true }
{
    match command {
        Command::Read { count, .. } => count <= 8,
        _ => true,
    }
}
