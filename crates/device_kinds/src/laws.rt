//! Laws of what the packets of each kind of channel say: each function does nothing, and its contract is a law.
ghost use Rattle.std.specs.Prelude.{◌≡◌, ℕ, true, List, Some, map};
ghost use Rattle.std.specs.List.{AllByRecursion};
ghost use Rattle.contact.specs.declared.kind.DeviceKind.{DeviceKind};
ghost use Rattle.contact.specs.declared.kind.DeviceKind.TheVariants.{Net};
ghost use Rattle.rndis_msg.specs.declared.rndis.Rndis.{Rndis as Message};
ghost use Rattle.script_lines.specs.Requests.{IsSent};
ghost use Rattle.script_lines.specs.declared.line.Ask.{Ask};
ghost use Rattle.script_lines.specs.declared.line.Ask.TheVariants.{Net as AskNet};
ghost use Rattle.channel_model.specs.WireFormat.{Keeps};
ghost use Rattle.channel_model.specs.Amounts.{MayHaveMessages};
ghost use Rattle.channel_model.specs.Channel.{AllFixed, AllAsk};
ghost use Rattle.channel_protocol.specs.Paged.{KeepsPages};
ghost use Rattle.device_wire.specs.declared.buffer_lists.BufferLists.{BufferLists};
ghost use Rattle.device_wire.specs.declared.want.Want.TheVariants.{Request as RequestWant};
ghost use Rattle.device_kinds.specs.Kinds.{known, IsAskable};
ghost use Rattle.device_kinds.specs.Formats.{asked_as, besides_on, encode_on, read_on, fits_on, format_of, lends_on, startup};

/// The packets of each kind of channel, in the requests and replies of all kinds, keep to the laws of a wire format: each request that has an answer is answered once, under its id, and the reply is
/// read in the answer. A disk and the services give no message besides the answer. And those of a disk's and of a network's channel keep to what data pages ask: a request lends the page of its id or none, so does a message
/// of the host, whose pages stand behind those of the guest, and a completion brings back no more words than came.
pub fn keeps_to_its_laws()
    ensures keeps { (kind : DeviceKind) → Keeps (format_of kind) }
    ensures may { (kind : DeviceKind) → MayHaveMessages (format_of kind) (besides_on kind) }
    ensures pages { (kind : DeviceKind) → lends_on kind ≡ true → KeepsPages (format_of kind) }
{}

/// What goes back for a start-up is fixed: no device is asked.
pub fn start_up_is_fixed()
    ensures { (kind : DeviceKind) (sub subs : ℕ) (lists : BufferLists) → AllFixed (format_of kind) (startup kind sub subs lists) }
{}

/// Each request of a script that can be asked asks the device.
pub fn scripts_ask()
    ensures { (kind : DeviceKind) (asks : List Ask) → AllByRecursion (IsAskable kind) asks → AllAsk (format_of kind) (map RequestWant asks) }
{}

/// Each message that a line of a script sends can be asked.
pub fn sent_messages_can_be_asked()
    ensures { (message : Message) → IsSent message → IsAskable Net (AskNet message) }
{}

/// Each request that can be asked of the device of a kind can be asked on its channel.
pub fn requests_can_be_asked()
    ensures { (kind : DeviceKind) (request : (known kind).Q) → (known kind).CanBe request → IsAskable kind ((known kind).request request) }
{}

/// Each reply that the device of a kind may give fits its request: it can be sent back, and is read there.
pub fn replies_fit()
    ensures { (kind : DeviceKind) (request : (known kind).Q) (reply : (known kind).R) → (known kind).MayReply request reply → fits_on kind ((known kind).request request) ((known kind).reply reply) ≡ true }
{}

/// The device is asked exactly what the script asked; a message for an adapter that has a request id has that of its packet.
pub fn asks_what_was_asked()
    ensures { (kind : DeviceKind) (id : ℕ) (ask : Ask) → IsAskable kind ask → read_on kind (encode_on kind id (RequestWant ask)) ≡ Some (asked_as id ask) }
{}
