//! The packets of the channels of a run.
ghost use Rattle.std.specs.Prelude.{◌≡◌, ◌++◌, IfOk, OnOk};
ghost use Rattle.page_kept.specs.Items.{item_of};
ghost use Rattle.ring_core.specs.Pages.{items_of as kept_items};
ghost use Rattle.bus_model.specs.Channel.{items_of};
ghost use Rattle.packet_text.specs.Lines.{channel_text, line_of, lines_of, packets_text};

use crate::Form;
use crate::packet::{Origin, push_dump, push_in_words};
use bus_model::ChannelRun;
use io_edge::Side;
use ring_core::Packets;
use std::alloc::{AllocError, Global};

fn push_packet(
    text: &mut Vec<u8>,
    form: Form,
    from: Origin,
    packet: &[u64],
    words: &[u64],
) -> Result<(), AllocError>
    ensures { OnOk result (text.new.items ≡ text.old.items ++ line_of form from (item_of packet.now words.now)) }
{
    match form {
        Form::Words => push_in_words(text, from, packet, words),
        Form::Dump => push_dump(text, packet),
    }
}

fn push_list(
    text: &mut Vec<u8>,
    form: Form,
    from: Origin,
    packets: &Packets,
) -> Result<(), AllocError>
    ensures { OnOk result (text.new.items ≡ text.old.items ++ lines_of form from (items_of packets.now.list (kept_items packets.now.list packets.now.lent))) }
{
    for i in 0..packets.len() {
        let (Some(packet), Some(words)) = (packets.get(i), packets.lent(i)) else {
            unreachable!()
        };
        push_packet(text, form, from, packet, words)?;
    }
    Ok(())
}

fn push_channel(text: &mut Vec<u8>, form: Form, channel: &ChannelRun) -> Result<(), AllocError>
    ensures { OnOk result (text.new.items ≡ text.old.items ++ channel_text form channel.now) }
{
    let guest = Origin {
        phase: channel.phase,
        relid: channel.relid,
        side: Side::Guest,
    };
    let host = Origin {
        side: Side::Host,
        ..guest
    };
    push_list(text, form, guest, channel.settled.guest_sent())?;
    push_list(text, form, host, channel.settled.host_sent())?;
    Ok(())
}

/// The packets of channels as text: channel by channel, those that the guest sent and then those that the host sent, each in order, a line for each. In words it has the page words that went along too. The refusal is want of memory.
pub fn packets_text(
    alloc: Global,
    form: Form,
    channels: &[ChannelRun],
) -> Result<Vec<u8>, AllocError>
    ensures { IfOk result (λ text. text.items ≡ packets_text form channels.now) }
{
    let mut text = Vec::new(alloc);
    for channel in channels {
        push_channel(&mut text, form, channel)?;
    }
    Ok(text)
}
