//! A disk on its channel.

use crate::DiskAnswer;
use crate::disks::{front, write_sent, write_start};
use crate::page_disks::{
    PAGE, asks_disk, bytes_asked, came, came_with, ended, first, is_giving, is_page_request,
    lacks_page, put_came, write_direct, write_page_answer, write_page_fixed,
};
use channel_protocol::Written;
use device_packets::{COMPLETION, is_type, put_words};
use device_wire::{BufferLists, Wire};
use disk_format::DiskStep;
use scsi_disk::{DiskReply, DiskRequest};
use stor_proto::{SrbEnd, Vstor, srb_ask, srb_asks, srb_command, srb_end};

/// How the packets of a disk's channel are written and read.
#[derive(Clone, Copy, Drop)]
pub struct DiskWire;

impl Wire for DiskWire {
    ghost use Rattle.std.specs.Prelude.{◌≡◌, refl};
    ghost use Rattle.device_packets.specs.Said.{vstor_of, said_item};
    ghost use Rattle.device_packets.proofs.SaidLaws.{said_few as few_said, said_bare as bare_said};
    ghost use Rattle.disk_format.specs.PageDisks.{disk_model, IsPageAsk};
    ghost use Rattle.device_disk.specs.Answered.{IsAnswered};
    ghost use Rattle.disk_format.proofs.PageFormatLaws.{page_kept};

    type Step = DiskStep;

    type Request = DiskRequest;

    type Reply = DiskReply;

    type Head = Vstor;

    type AnswerHead = DiskAnswer;

    ghost said = { said_item };

    ghost said_packet = { λ i. refl };

    ghost said_few = { λ i. few_said i };

    ghost said_bare = { λ p. bare_said p };

    ghost model = { λ w. disk_model };

    ghost can = { λ w. IsPageAsk };

    ghost kept = { λ w. page_kept };

    ghost is_head = { λ w i v. v ≡ vstor_of i.packet };

    ghost is_answer_head = { λ w before i h. IsAnswered i h };

    fn besides(&self) -> bool {
        false
    }

    fn count_steps(&self, subs: u32) -> u32 {
        if subs == 0 { 4 } else { 5 }
    }

    fn step(&self, subs: u32, _lists: BufferLists, k: u32) -> DiskStep {
        match k {
            0 => DiskStep::Begin,
            1 => DiskStep::Version,
            2 => DiskStep::Properties,
            3 => DiskStep::End,
            _ => DiskStep::SubChannels(subs as u16),
        }
    }

    fn is_answered(&self, _step: &DiskStep) -> bool {
        true
    }

    fn write_step(&self, step: &DiskStep, id: u64, out: &mut [u64], _page: &mut [u64]) -> Written {
        Written::bare(write_start(*step, id, out))
    }

    /// A write's data are its page words. A request that reads lends the words that may come, and stores none.
    fn write_request(
        &self,
        request: &DiskRequest,
        id: u64,
        out: &mut [u64],
        page: &mut [u64],
    ) -> Written {
        let bytes = bytes_asked(request);
        let v = srb_ask(request);
        if bytes == 0 {
            return Written::bare(write_sent(id, &v, out));
        }
        let packet = write_direct(id, bytes as u32, &v, out);
        let words = put_words(request.out.bytes(), page);
        Written {
            packet,
            words,
            lent: (bytes as usize).div_ceil(8),
        }
    }

    fn is_waiting(&self, packet: &[u64]) -> bool {
        is_page_request(packet)
    }

    fn is_ack(&self, _packet: &[u64]) -> bool {
        false
    }

    fn is_answer(&self, packet: &[u64]) -> bool {
        is_type(packet, COMPLETION)
    }

    fn is_message(&self, _packet: &[u64]) -> bool {
        false
    }

    fn write_ack(&self, _packet: &[u64], _out: &mut [u64]) -> usize {
        0
    }

    /// No page word is looked at.
    fn head(&self, packet: &[u64], words: &[u64]) -> Option<Vstor> {
        if !is_page_request(packet) {
            return None;
        }
        let Some(v) = front(packet) else { return None };
        let room = 8 * words.len() as u64;
        if asks_disk(&v, lacks_page(packet, words), room) {
            Some(v)
        } else {
            None
        }
    }

    /// The page words of a write are its data; no others are looked at.
    fn read(&self, _packet: &[u64], words: &[u64], v: &Vstor) -> DiskRequest {
        if is_giving(srb_command(v)) {
            return srb_asks(v, &[]);
        }
        let mut bytes = [0; PAGE];
        let len = put_came(words, PAGE as u64, &mut bytes);
        srb_asks(v, &bytes[..len])
    }

    fn has_fixed_message(&self, _packet: &[u64], _words: &[u64]) -> bool {
        false
    }

    fn write_fixed_message(
        &self,
        _packet: &[u64],
        _words: &[u64],
        _own: u64,
        _out: &mut [u64],
        _page: &mut [u64],
    ) -> Written {
        Written::bare(0)
    }

    fn write_fixed(&self, packet: &[u64], words: &[u64], out: &mut [u64]) -> usize {
        write_page_fixed(packet, words, out)
    }

    fn has_message(&self, _packet: &[u64], _words: &[u64], _reply: &DiskReply) -> bool {
        false
    }

    fn write_message(
        &self,
        _packet: &[u64],
        _words: &[u64],
        _reply: &DiskReply,
        _own: u64,
        _out: &mut [u64],
        _page: &mut [u64],
    ) -> Written {
        Written::bare(0)
    }

    /// The bytes of the reply are the page words.
    fn write_answer(
        &self,
        packet: &[u64],
        words: &[u64],
        v: &Vstor,
        reply: &DiskReply,
        out: &mut [u64],
        page: &mut [u64],
    ) -> Written {
        write_page_answer(packet, words, v, reply, out, page)
    }

    fn answer_head(
        &self,
        _before: &[u64],
        _before_words: &[u64],
        packet: &[u64],
        _words: &[u64],
    ) -> Option<DiskAnswer> {
        let Some(v) = ended(packet) else { return None };
        let Some(end) = srb_end(&v) else { return None };
        Some(DiskAnswer {
            end,
            came: came_with(&v),
        })
    }

    /// Of the page words that came back with it those are read that came.
    fn reply(
        &self,
        _before: &[u64],
        _before_words: &[u64],
        _packet: &[u64],
        words: &[u64],
        answer: &DiskAnswer,
    ) -> DiskReply {
        match answer.end {
            SrbEnd::Done { moved } => came(first(words, answer.came), moved),
            SrbEnd::Refused { key, asc, ascq } => DiskReply::Check { key, asc, ascq },
        }
    }
}
