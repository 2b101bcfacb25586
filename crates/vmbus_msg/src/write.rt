//! Messages written as bytes.

ghost use Rattle.std.specs.Prelude.{◌≡◌, ◌+◌, ◌*◌, ◌^◌, ◌<◌, ◌≤◌, ◌++◌, [], length, take, drop};
ghost use Rattle.std.specs.List.{flat_map, AllByRecursion};
ghost use Rattle.wire_table.specs.Little.{bytes_of};
ghost use Rattle.wire_table.specs.Rows.{bytes_in, size_of, spelled_after, total};
ghost use Rattle.vmbus_msg.specs.Pieces.{kind_in, kinds_in, row_in, rows_in, word_kinds, word_rows};
ghost use Rattle.vmbus_msg.specs.declared.msg.Msg.{Msg};
ghost use Rattle.vmbus_msg.specs.Grammar.{Fits, AllFit, bytes_of_message, length_of, type_of, kinds_of, fields_of, frames_of, IsMessage};

use crate::gpadl_body::GpadlBody;
use crate::gpadl_header::GpadlHeader;
use crate::msg::Msg;
use crate::piece::Piece;
use wire_table::{put_at, put_bytes};

// Writes frames from a place on, with nothing changed before it.
fn put_frames(out: &mut [u8], at: usize, frames: &[u64])
    requires { at + 8 * length frames.now ≤ length out.old }
    ensures front { take (at + 8 * length frames.now) out.new ≡ take at out.old ++ flat_map (bytes_of 8) frames.now }
    ensures fit { AllByRecursion (λ f. f < 256 ^ 8) frames.now }
{
    for (i, frame) in frames.iter().enumerate() {
        put_at(out, at + 8 * i, 8, *frame);
    }
}

// Writes a field at a place, with nothing changed before it, and answers where it ends.
fn put_piece(out: &mut [u8], at: usize, piece: Piece<'_>) -> usize
    requires { at + size_of (kind_in piece) ≤ length out.old }
    ensures end { result ≡ at + size_of (kind_in piece.entry) }
    ensures front { take result out.new ≡ take at out.old ++ bytes_in (row_in piece.entry) }
    ensures fit { Fits (kind_in piece.entry) (row_in piece.entry) }
{
    match piece {
        Piece::U8(number) => put_number(out, at, 1, u64::from(number)),
        Piece::U16(number) => put_number(out, at, 2, u64::from(number)),
        Piece::U32(number) => put_number(out, at, 4, u64::from(number)),
        Piece::U64(number) => put_number(out, at, 8, number),
        Piece::Raw(bytes) => {
            put_bytes(out, at, bytes);
            at + bytes.len()
        }
    }
}

// Writes a number at a place, with nothing changed before it, and answers where it ends.
fn put_number(out: &mut [u8], at: usize, width: usize, number: u64) -> usize
    requires { at + width ≤ length out.old }
    ensures end { result ≡ at + width }
    ensures front { take result out.new ≡ take at out.old ++ bytes_of width number }
{
    put_at(out, at, width, number);
    at + width
}

// Writes fields in order, from the front on.
fn put_pieces(out: &mut [u8], pieces: &[Piece<'_>])
    requires { total (kinds_in pieces.now) ≤ length out.old }
    ensures front { take (total (kinds_in pieces.now)) out.new ≡ spelled_after [] (rows_in pieces.now) }
    ensures fit { AllFit (kinds_in pieces.now) (rows_in pieces.now) }
{
    let mut at = 0;
    for piece in pieces {
        at = put_piece(out, at, *piece);
    }
}

// Writes fields of 32 bits in order, from the front on.
fn put_words(out: &mut [u8], words: &[u32])
    requires { total (word_kinds words.now) ≤ length out.old }
    ensures front { take (total (word_kinds words.now)) out.new ≡ spelled_after [] (word_rows words.now) }
    ensures fit { AllFit (word_kinds words.now) (word_rows words.now) }
{
    let mut at = 0;
    for word in words {
        at = put_piece(out, at, Piece::U32(*word));
    }
}

// How many bytes a message has.
fn length(m: &Msg) -> usize
    ensures value { result ≡ length_of m.now }
    ensures most { result ≤ 240 }
{
    match m {
        Msg::OfferChannel { .. } => 196,
        Msg::OpenChannel { .. } => 148,
        Msg::GpadlHeader(h) => 28 + 8 * h.frames.len(),
        Msg::GpadlBody(h) => 16 + 8 * h.frames.len(),
        Msg::InitiateContact { .. } | Msg::TlConnectRequest { .. } => 40,
        Msg::OpenChannelResult { .. } | Msg::GpadlCreated { .. } => 20,
        Msg::GpadlTeardown { .. }
        | Msg::VersionResponse { .. }
        | Msg::ModifyChannel { .. }
        | Msg::ModifyChannelResponse { .. } => 16,
        Msg::RescindChannelOffer { .. }
        | Msg::CloseChannel { .. }
        | Msg::GpadlTorndown { .. }
        | Msg::RelidReleased { .. } => 12,
        Msg::RequestOffers { .. }
        | Msg::AllOffersDelivered { .. }
        | Msg::Unload { .. }
        | Msg::UnloadResponse { .. } => 8,
    }
}

// Writes the header of a page list into as many bytes as it has.
#[tactic(auto, unfolding(crate::specs::Grammar::bytes_of_message))]
fn write_header(h: &GpadlHeader, out: &mut [u8])
    requires { length out.old ≡ length_of (Msg.GpadlHeader h.now) }
    ensures bytes { take (length_of (Msg.GpadlHeader h.now)) out.new ≡ bytes_of_message (Msg.GpadlHeader h.now) }
    ensures fields { AllFit (kinds_of (type_of (Msg.GpadlHeader h.now))) (fields_of (Msg.GpadlHeader h.now)) }
    ensures frames { AllByRecursion (λ f. f < 256 ^ 8) (frames_of (Msg.GpadlHeader h.now)) }
{
    put_pieces(
        out,
        &[
            Piece::U32(8),
            Piece::U32(h.padding),
            Piece::U32(h.relid),
            Piece::U32(h.gpadl),
            Piece::U16(h.range_buflen),
            Piece::U16(h.rangecount),
            Piece::U32(h.byte_count),
            Piece::U32(h.byte_offset),
        ],
    );
    put_frames(out, 28, h.frames.as_slice());
}

// Writes a body of a page list into as many bytes as it has.
#[tactic(auto, unfolding(crate::specs::Grammar::bytes_of_message))]
fn write_body(h: &GpadlBody, out: &mut [u8])
    requires { length out.old ≡ length_of (Msg.GpadlBody h.now) }
    ensures bytes { take (length_of (Msg.GpadlBody h.now)) out.new ≡ bytes_of_message (Msg.GpadlBody h.now) }
    ensures fields { AllFit (kinds_of (type_of (Msg.GpadlBody h.now))) (fields_of (Msg.GpadlBody h.now)) }
    ensures frames { AllByRecursion (λ f. f < 256 ^ 8) (frames_of (Msg.GpadlBody h.now)) }
{
    put_pieces(
        out,
        &[
            Piece::U32(9),
            Piece::U32(h.padding),
            Piece::U32(h.msgnumber),
            Piece::U32(h.gpadl),
        ],
    );
    put_frames(out, 16, h.frames.as_slice());
}

// Writes a message into as many bytes as it has.
#[tactic(auto, unfolding(crate::specs::Grammar::bytes_of_message))]
fn write(m: &Msg, out: &mut [u8])
    requires { length out.old ≡ length_of m.now }
    ensures bytes { take (length_of m.now) out.new ≡ bytes_of_message m.now }
    ensures fields { AllFit (kinds_of (type_of m.now)) (fields_of m.now) }
    ensures frames { AllByRecursion (λ f. f < 256 ^ 8) (frames_of m.now) }
{
    match m {
        Msg::OfferChannel {
            padding,
            if_type,
            if_instance,
            reserved1,
            reserved2,
            chn_flags,
            mmio,
            user,
            sub,
            reserved3,
            relid,
            monitorid,
            monitor,
            interrupt,
            connection,
        } => {
            put_pieces(
                out,
                &[
                    Piece::U32(1),
                    Piece::U32(*padding),
                    Piece::Raw(if_type),
                    Piece::Raw(if_instance),
                    Piece::U64(*reserved1),
                    Piece::U64(*reserved2),
                    Piece::U16(*chn_flags),
                    Piece::U16(*mmio),
                    Piece::Raw(user),
                    Piece::U16(*sub),
                    Piece::U16(*reserved3),
                    Piece::U32(*relid),
                    Piece::U8(*monitorid),
                    Piece::U8(*monitor),
                    Piece::U16(*interrupt),
                    Piece::U32(*connection),
                ],
            );
        }
        Msg::RescindChannelOffer { padding, relid } => {
            put_words(out, &[2, *padding, *relid]);
        }
        Msg::RequestOffers { padding } => {
            put_words(out, &[3, *padding]);
        }
        Msg::AllOffersDelivered { padding } => {
            put_words(out, &[4, *padding]);
        }
        Msg::OpenChannel {
            padding,
            relid,
            openid,
            gpadl,
            target_vp,
            downstream,
            user,
        } => {
            put_pieces(
                out,
                &[
                    Piece::U32(5),
                    Piece::U32(*padding),
                    Piece::U32(*relid),
                    Piece::U32(*openid),
                    Piece::U32(*gpadl),
                    Piece::U32(*target_vp),
                    Piece::U32(*downstream),
                    Piece::Raw(user),
                ],
            );
        }
        Msg::OpenChannelResult {
            padding,
            relid,
            openid,
            status,
        } => {
            put_words(out, &[6, *padding, *relid, *openid, *status]);
        }
        Msg::CloseChannel { padding, relid } => {
            put_words(out, &[7, *padding, *relid]);
        }
        Msg::GpadlHeader(h) => write_header(h, out),
        Msg::GpadlBody(h) => write_body(h, out),
        Msg::GpadlCreated {
            padding,
            relid,
            gpadl,
            status,
        } => {
            put_words(out, &[10, *padding, *relid, *gpadl, *status]);
        }
        Msg::GpadlTeardown {
            padding,
            relid,
            gpadl,
        } => {
            put_words(out, &[11, *padding, *relid, *gpadl]);
        }
        Msg::GpadlTorndown { padding, gpadl } => {
            put_words(out, &[12, *padding, *gpadl]);
        }
        Msg::RelidReleased { padding, relid } => {
            put_words(out, &[13, *padding, *relid]);
        }
        Msg::InitiateContact {
            padding,
            version,
            target_vcpu,
            page,
            monitor1,
            monitor2,
        } => {
            put_pieces(
                out,
                &[
                    Piece::U32(14),
                    Piece::U32(*padding),
                    Piece::U32(*version),
                    Piece::U32(*target_vcpu),
                    Piece::U64(*page),
                    Piece::U64(*monitor1),
                    Piece::U64(*monitor2),
                ],
            );
        }
        Msg::VersionResponse {
            padding,
            supported,
            state,
            padding2,
            conn,
        } => {
            put_pieces(
                out,
                &[
                    Piece::U32(15),
                    Piece::U32(*padding),
                    Piece::U8(*supported),
                    Piece::U8(*state),
                    Piece::U16(*padding2),
                    Piece::U32(*conn),
                ],
            );
        }
        Msg::Unload { padding } => {
            put_words(out, &[16, *padding]);
        }
        Msg::UnloadResponse { padding } => {
            put_words(out, &[17, *padding]);
        }
        Msg::TlConnectRequest {
            padding,
            guest_endpoint,
            host_service,
        } => {
            put_pieces(
                out,
                &[
                    Piece::U32(21),
                    Piece::U32(*padding),
                    Piece::Raw(guest_endpoint),
                    Piece::Raw(host_service),
                ],
            );
        }
        Msg::ModifyChannel {
            padding,
            relid,
            target_vp,
        } => {
            put_words(out, &[22, *padding, *relid, *target_vp]);
        }
        Msg::ModifyChannelResponse {
            padding,
            relid,
            status,
        } => {
            put_words(out, &[24, *padding, *relid, *status]);
        }
    }
}

/// Writes a message at the front of a buffer, and answers how many bytes it has.
pub fn encode(m: &Msg, out: &mut [u8; 240]) -> usize
    ensures most { result ≤ 240 }

    // What was written are the message's bytes.
    ensures message { IsMessage m.now (take result out.new) }

    // The bytes behind them are as before.
    ensures rest { drop result out.new ≡ drop result out.old }
{
    let len = length(m);
    write(m, &mut out[..len]);
    len
}
