//! The serving end's own messages.
ghost use Rattle.std.specs.Prelude.{◌≡◌, ◌<◌, ◌≤◌, ◌^◌, ◌==◌, ℕ, true, false, length, count_by, is_some, if◌then◌else◌};
ghost use Rattle.worker_server.specs.Serving.{own_in};

use txn_table::TxnTable;

// The id under which a message goes back, which was free. Where none goes back the table is as before.
pub(crate) fn open_own(table: &mut TxnTable<u32>, besides: bool) -> u64
    requires room { count_by is_some table.old < length table.old }
    ensures free { besides ≡ true → own_in table.old result ≡ false }
    ensures set { besides ≡ true → (j : ℕ) → own_in table.new j ≡ (if j == result then true else own_in table.old j) }
    ensures same { besides ≡ false → table.new ≡ table.old }
    ensures size { length table.new ≡ length table.old }
    ensures fits { result < 2 ^ 64 }
    ensures most { result ≤ length table.old }
{
    if !besides {
        return 0;
    }
    match table.accept(0) {
        Ok(id) => id,
        Err(_) => unreachable!(),
    }
}

// Closes the id of an acknowledgement, if a message is open there.
pub(crate) fn close_own(table: &mut TxnTable<u32>, id: u64)
    ensures set { (j : ℕ) → own_in table.new j ≡ (if j == id then false else own_in table.old j) }
    ensures size { length table.new ≡ length table.old }
{
    let _closed = table.complete(id);
}
