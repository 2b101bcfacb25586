//! Laws of what the packets of a network's channel say: each function does nothing, and its contract is a law.
ghost use Rattle.std.specs.Prelude.{◌≡◌, ℕ, ◌<◌, ◌^◌, true, [], Some, None};
ghost use Rattle.pkt_desc.specs.Packets.{id_of};
ghost use Rattle.page_kept.specs.declared.item.Item.{Item};
ghost use Rattle.page_kept.specs.Items.{item_of};
ghost use Rattle.rndis_msg.specs.declared.rndis.Rndis.{Rndis as Message};
ghost use Rattle.net_dev.specs.declared.reply.NetReply.{NetReply};
ghost use Rattle.channel_model.specs.WireFormat.{Back};
ghost use Rattle.device_wire.specs.declared.buffer_lists.BufferLists.{BufferLists};
ghost use Rattle.device_wire.specs.declared.want.Want.{Want};
ghost use Rattle.device_wire.specs.WireModels.{KeepsWire};
ghost use Rattle.device_packets.specs.Said.{said_item};
ghost use Rattle.net_format.specs.declared.net_step.NetStep.{NetStep as OneStep};
ghost use Rattle.net_format.specs.Nets.{net_done, carries_rndis, IsNetAsk};
ghost use Rattle.net_format.specs.PageNets.{net_encode, net_read, net_fixed, net_ack, net_gives, net_model, TellsLists};

/// The packets of a network's channel keep to what a kind of device keeps to: each request that has an answer is answered once, under its id, and the reply is read in the answer. A request lends the section
/// of its id or none, and so does a message of the host, whose pages stand behind those of the guest. The start-up asks nothing of the adapter, and a message that can be asked asks it that, under the id of its packet.
pub fn keeps_to_its_laws()
    ensures { KeepsWire net_model IsNetAsk }
{}

/// The start-up of a network's channel tells the page lists of its buffers between the NDIS version and the initialize, the receive buffer's first.
pub fn start_up_tells_the_page_lists()
    ensures { (lists : BufferLists) → lists.receive < 2 ^ 32 → lists.send < 2 ^ 32 → TellsLists lists }
{}

/// A network's packets are read as they are, but that nothing is read of the page words that a completion brings back: what was asked, what comes back, and what completes a message.
pub fn network_pages_are_read_as_meant()
    ensures asked { (id : ℕ) (ask : Want OneStep Message) → said_item (net_encode id ask) ≡ net_encode id ask }
    ensures given { (i came : Item) (reply : NetReply) → reply.status < 2 ^ 32 → came.packet ≡ (net_gives i reply).answer.packet → said_item came ≡ (net_gives i reply).answer }
    ensures fixed { (i came : Item) (back : Back Item) → net_fixed i ≡ Some back → came.packet ≡ back.answer.packet → said_item came ≡ back.answer }
    ensures acked { (i came : Item) → came.packet ≡ (net_ack i).packet → said_item came ≡ net_ack i }
{}

/// A message of the guest that came without its page isn't served: it is completed with status 2, and asks nothing of the adapter.
pub fn a_message_without_its_page_isnt_served()
    ensures { (i : Item) → carries_rndis i.packet ≡ true → i.words ≡ [] → (net_read i ≡ None) × (net_fixed i ≡ Some (record { message = None; answer = item_of (net_done (id_of i.packet) 2) [] })) }
{}
