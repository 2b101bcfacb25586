//! An answer, and the request that it closes.
ghost use Rattle.std.specs.Prelude.{◌≡◌, ◌⊎◌, [], ◌+◌, ◌≤◌, ◌<◌, ◌++◌, ◌==◌, ℕ, length, count_by, is_some, vec_len, vec_capacity, Some, None, if◌then◌else◌};
ghost use Rattle.page_kept.specs.Items.{item_of};
ghost use Rattle.channel_protocol.specs.Paged.{item_in};
ghost use Rattle.ring_machine.specs.States.{IsPacket};
ghost use Rattle.txn_table.specs.Open.{request_of};
ghost use Rattle.worker_requester.specs.Asking.{answer_of, asked_in};

use crate::came::Came;
use channel_protocol::Protocol;
use txn_table::TxnTable;
use worker_port::id_read;

// Closes the request that an answer names, if one is open there, and keeps the reply that it and what came just before it say. An answer to no request is
// dropped.
pub(crate) fn settle<T: Protocol>(
    protocol: &T,
    table: &mut TxnTable<u32>,
    replies: &mut Vec<T::Reply>,
    before: Came<'_>,
    came: Came<'_>,
)
    requires before { before.packet.now ≡ [] ⊎ IsPacket before.packet.now }
    requires before_words { length before.words.now ≤ 512 }
    requires packet { IsPacket came.packet.now }
    requires words { length came.words.now ≤ 512 }
    requires places { (id k : ℕ) → request_of table.old id ≡ Some k → k < length (T.asks protocol.now) }
    requires room { vec_len replies.old + count_by is_some table.old ≤ vec_capacity replies.old }
    ensures closed { (j : ℕ) → request_of table.new j ≡ (if j == (T.format protocol.now).id_of (T.said (item_of came.entry.packet.now came.entry.words.now)) then None else request_of table.old j) }
    ensures told { replies.new.items ≡ replies.old.items ++ answer_of (T.format protocol.now) (asked_in (T.asks protocol.now) table.old ((T.format protocol.now).id_of (T.said (item_of came.entry.packet.now came.entry.words.now)))) (item_in T.said before.entry.packet.now before.entry.words.now) (T.said (item_of came.entry.packet.now came.entry.words.now)) }
    ensures room { vec_len replies.new + count_by is_some table.new ≤ vec_len replies.old + count_by is_some table.old }
    ensures capacity { vec_capacity replies.new ≡ vec_capacity replies.old }
    ensures size { length table.new ≡ length table.old }
{
    let id = id_read(protocol, came.packet, came.words);
    let Ok(k) = table.complete(id) else {
        return;
    };
    protocol.keep_result(
        k,
        before.packet,
        before.words,
        came.packet,
        came.words,
        replies,
    );
}
