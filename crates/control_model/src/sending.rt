//! The messages that the two sides send.
ghost use Rattle.std.specs.List.{range_with_len};
ghost use Rattle.std.specs.Prelude.{◌≡◌, ◌+◌, ◌^◌, ◌<◌, ◌≤◌, [], ◌∷◌, ◌++◌, length, map, IfOk};
ghost use Rattle.contact.specs.Classes.{offers_from};
ghost use Rattle.gpadl.specs.Cut.{AreMessagesOf};
ghost use Rattle.vmbus_msg.specs.Grammar.{type_of};
ghost use Rattle.control_model.specs.Plan.{IsOpening, buffer_list, buffer_begins, buffer_size, subs_behind};
ghost use Rattle.control_model.specs.Messages.{connect, offer_service, open_on, teardown, teardown_buffer, release, delivered, offer_sub, pages_from, buffer_pages, modify_one, Sends, Fits};

use crate::{Buffer, Burst, ControlPlan, Move, Moves, Opening};
use contact::{Kind, Part, offer, offers, service_id};
use gpadl::to_messages;
use std::alloc::{AllocError, Global};
use vmbus_msg::Msg;

// The pages of a buffer.
const BUFFER_SIZE: u32 = 64;

/// TL_CONNECT_REQUEST, for the channel of the service at a port.
pub fn connect(port: u32) -> Msg
    ensures { result ≡ connect port }
{
    Msg::TlConnectRequest {
        padding: 0,
        guest_endpoint: service_id(1),
        host_service: service_id(port),
    }
}

/// OFFERCHANNEL, for that channel.
pub fn offer_service(port: u32, relid: u32) -> Msg
    ensures { result ≡ offer_service port relid }
{
    offer(Kind::Sock { port }, relid, 0)
}

/// OPENCHANNEL, for a channel whose page list the host knows.
pub fn open_on(o: &Opening) -> Msg
    requires { IsOpening o.now }
    ensures { result ≡ open_on o.now }
{
    Msg::OpenChannel {
        padding: 0,
        relid: o.relid,
        openid: o.relid,
        gpadl: o.gpadl,
        target_vp: 0,
        downstream: o.ring_pages + 1,
        user: [0; 120],
    }
}

/// GPADL_TEARDOWN, for the page list of a channel that was closed.
pub fn teardown(o: &Opening) -> Msg
    ensures { result ≡ teardown o.now }
{
    Msg::GpadlTeardown {
        padding: 0,
        relid: o.relid,
        gpadl: o.gpadl,
    }
}

/// The handle of the page list of a buffer.
pub fn buffer_list(o: &Opening, buffer: Buffer) -> u32
    requires { IsOpening o.now }
    ensures { result ≡ buffer_list o.now buffer }
{
    match buffer {
        Buffer::Receive => o.gpadl + 1,
        Buffer::Send => o.gpadl + 2,
    }
}

/// GPADL_TEARDOWN, for the page list of a buffer.
pub fn teardown_buffer(o: &Opening, buffer: Buffer) -> Msg
    requires { IsOpening o.now }
    ensures { result ≡ teardown_buffer o.now buffer }
{
    Msg::GpadlTeardown {
        padding: 0,
        relid: o.relid,
        gpadl: buffer_list(o, buffer),
    }
}

/// RELID_RELEASED: a channel is given back.
pub fn release(relid: u32) -> Msg
    ensures { result ≡ release relid }
{
    Msg::RelidReleased { padding: 0, relid }
}

/// A message's type.
pub fn type_of(m: &Msg) -> u32
    ensures { result ≡ type_of m.now }
{
    match m {
        Msg::OfferChannel { .. } => 1,
        Msg::RescindChannelOffer { .. } => 2,
        Msg::RequestOffers { .. } => 3,
        Msg::AllOffersDelivered { .. } => 4,
        Msg::OpenChannel { .. } => 5,
        Msg::OpenChannelResult { .. } => 6,
        Msg::CloseChannel { .. } => 7,
        Msg::GpadlHeader(_) => 8,
        Msg::GpadlBody(_) => 9,
        Msg::GpadlCreated { .. } => 10,
        Msg::GpadlTeardown { .. } => 11,
        Msg::GpadlTorndown { .. } => 12,
        Msg::RelidReleased { .. } => 13,
        Msg::InitiateContact { .. } => 14,
        Msg::VersionResponse { .. } => 15,
        Msg::Unload { .. } => 16,
        Msg::UnloadResponse { .. } => 17,
        Msg::TlConnectRequest { .. } => 21,
        Msg::ModifyChannel { .. } => 22,
        Msg::ModifyChannelResponse { .. } => 24,
    }
}

/// The messages of a burst, in order: at most 17.
pub fn messages(alloc: Global, plan: &ControlPlan, burst: &Burst) -> Result<Vec<Msg>, AllocError>
    requires { Fits burst.now }
    ensures sends { IfOk result (λ sent. Sends plan.now burst.now sent.items) }
    ensures few { IfOk result (λ sent. length sent.items ≤ 17) }
{
    match burst {
        Burst::Empty => Ok(Vec::new(alloc)),
        Burst::One(m) => one(alloc, m),
        Burst::Two(m, n) => two(alloc, m, n),
        Burst::Three(m, n, o) => three(alloc, m, n, o),
        Burst::PageList(o) => page_list(alloc, o),
        Burst::BufferList(o, buffer) => buffer_pages(alloc, o, *buffer),
        Burst::Offers => all_offers(alloc, plan),
        Burst::Opens(m, part, place) => with_offers(alloc, plan, m, *part, *place),
        Burst::Moves(moves) => modifies(alloc, moves),
    }
}

// One message.
fn one(alloc: Global, m: &Msg) -> Result<Vec<Msg>, AllocError>
    ensures { IfOk result (λ sent. sent.items ≡ m.now ∷ []) }
{
    let mut sent = Vec::with_capacity(alloc, 1)?;
    sent.push_reserved(*m);
    Ok(sent)
}

// Two messages.
fn two(alloc: Global, m: &Msg, n: &Msg) -> Result<Vec<Msg>, AllocError>
    ensures { IfOk result (λ sent. sent.items ≡ m.now ∷ n.now ∷ []) }
{
    let mut sent = Vec::with_capacity(alloc, 2)?;
    sent.push_reserved(*m);
    sent.push_reserved(*n);
    Ok(sent)
}

// Three messages.
fn three(alloc: Global, m: &Msg, n: &Msg, o: &Msg) -> Result<Vec<Msg>, AllocError>
    ensures { IfOk result (λ sent. sent.items ≡ m.now ∷ n.now ∷ o.now ∷ []) }
{
    let mut sent = Vec::with_capacity(alloc, 3)?;
    sent.push_reserved(*m);
    sent.push_reserved(*n);
    sent.push_reserved(*o);
    Ok(sent)
}

// The page list of an opening.
fn page_list(alloc: Global, o: &Opening) -> Result<Vec<Msg>, AllocError>
    requires { IsOpening o.now }
    ensures sends { IfOk result (λ sent. AreMessagesOf o.now.relid o.now.gpadl (pages_from o.now) sent.items) }
    ensures few { IfOk result (λ sent. length sent.items ≤ 2) }
{
    let count = 2 * o.ring_pages + 2;
    let pages = numbers(alloc, o.first_page, count)?;
    to_messages(alloc, o.relid, o.gpadl, pages.as_slice())
}

// The page list of a buffer.
fn buffer_pages(alloc: Global, o: &Opening, buffer: Buffer) -> Result<Vec<Msg>, AllocError>
    requires { IsOpening o.now }
    ensures sends { IfOk result (λ sent. AreMessagesOf o.now.relid (buffer_list o.now buffer) (buffer_pages o.now buffer) sent.items) }
    ensures few { IfOk result (λ sent. length sent.items ≤ 3) }
{
    let pages = numbers(alloc, buffer_begins(o, buffer), BUFFER_SIZE)?;
    to_messages(alloc, o.relid, buffer_list(o, buffer), pages.as_slice())
}

// The first page of a buffer.
fn buffer_begins(o: &Opening, buffer: Buffer) -> u64
    requires { IsOpening o.now }
    ensures begins { result ≡ buffer_begins o.now buffer }
    ensures room { result + buffer_size < 2 ^ 64 }
{
    let rings = o.first_page + u64::from(2 * o.ring_pages + 2);
    match buffer {
        Buffer::Receive => rings,
        Buffer::Send => rings + u64::from(BUFFER_SIZE),
    }
}

// So many page numbers, from this one on.
fn numbers(alloc: Global, first: u64, count: u32) -> Result<Vec<u64>, AllocError>
    requires { first + count < 2 ^ 64 }
    ensures { IfOk result (λ pages. pages.items ≡ range_with_len first count) }
{
    let mut pages = Vec::with_capacity(alloc, count as usize)?;
    for i in 0..count {
        pages.push_reserved(first + u64::from(i));
    }
    Ok(pages)
}

// All offers, and that they were all.
fn all_offers(alloc: Global, plan: &ControlPlan) -> Result<Vec<Msg>, AllocError>
    ensures sends { IfOk result (λ sent. sent.items ≡ offers_from 1 plan.now.kinds ++ delivered ∷ []) }
    ensures few { IfOk result (λ sent. length sent.items ≤ 17) }
{
    let mut sent = offers(alloc, plan.kinds())?;
    sent.push(Msg::AllOffersDelivered { padding: 0 })?;
    Ok(sent)
}

// A message, and an offer for each sub-channel of the device whose first channel is opened at a place.
fn with_offers(
    alloc: Global,
    plan: &ControlPlan,
    first: &Msg,
    part: Option<Part>,
    place: usize,
) -> Result<Vec<Msg>, AllocError>
    ensures sends { IfOk result (λ sent. sent.items ≡ first.now ∷ map offer_sub (subs_behind plan.now part place)) }
    ensures few { IfOk result (λ sent. length sent.items ≤ 17) }
{
    let subs = plan.subs_behind(part, place);
    let mut sent = Vec::with_capacity(alloc, subs.len() + 1)?;
    sent.push_reserved(*first);
    for o in subs {
        sent.push_reserved(offer(Kind::Disk, o.relid, o.sub));
    }
    Ok(sent)
}

// A MODIFYCHANNEL for each of these channels.
fn modifies(alloc: Global, moves: &Moves) -> Result<Vec<Msg>, AllocError>
    ensures sends { IfOk result (λ sent. sent.items ≡ map modify_one moves.now) }
    ensures few { IfOk result (λ sent. length sent.items ≤ 17) }
{
    let moves = moves.as_slice();
    let mut sent = Vec::with_capacity(alloc, moves.len())?;
    for m in moves {
        sent.push_reserved(modify(*m));
    }
    Ok(sent)
}

// MODIFYCHANNEL: a channel is moved to another processor.
fn modify(m: Move) -> Msg
    ensures { result ≡ modify_one m }
{
    Msg::ModifyChannel {
        padding: 0,
        relid: m.relid,
        target_vp: m.vp,
    }
}
