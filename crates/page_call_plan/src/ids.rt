//! How many requests of each id are open.
ghost use Rattle.std.specs.Prelude.{◌≡◌, is_some};
ghost use Rattle.std.specs.List.{position};
ghost use Rattle.page_call_plan.specs.Ids.{adds, counts, has_free, has_id, has_room, is_free, room_for, with_id, without_id};

/// So many requests with this id; where there is none, the slot is free. Where an id has more than one slot, its requests are those of all of them.
#[repr(C)]
#[derive(Clone, Copy)]
pub struct IdSlot {
    /// The id.
    pub tid: u64,
    /// How many requests.
    pub count: u64,
}

impl IdSlot {
    pub(crate) const FREE: IdSlot = IdSlot { tid: 0, count: 0 };
}

// Whether a slot has requests of this id.
#[inline(always)]
fn counts(slot: IdSlot, tid: u64) -> bool
    ensures { result ≡ counts tid slot }
{
    slot.tid == tid && slot.count != 0
}

// Whether a slot has requests of this id, and room for one more.
#[inline(always)]
fn adds(slot: IdSlot, tid: u64) -> bool
    ensures { result ≡ adds tid slot }
{
    slot.tid == tid && (slot.count != 0 && slot.count < u64::MAX)
}

// The first slot that has requests of this id.
#[inline(always)]
fn first_of(slots: &[IdSlot], tid: u64) -> Option<usize>
    ensures { result ≡ position (λ s. counts tid s) slots.now }
{
    slots.iter().position(|s| counts(*s, tid))
}

// The first slot that has requests of this id, and room for one more.
#[inline(always)]
fn first_adding(slots: &[IdSlot], tid: u64) -> Option<usize>
    ensures { result ≡ position (λ s. adds tid s) slots.now }
{
    slots.iter().position(|s| adds(*s, tid))
}

#[inline(always)]
fn is_free(slot: IdSlot) -> bool
    ensures { result ≡ is_free slot }
{
    slot.count == 0
}

// The first slot that is free.
#[inline(always)]
fn first_free(slots: &[IdSlot]) -> Option<usize>
    ensures { result ≡ position (λ s. is_free s) slots.now }
{
    slots.iter().position(|s| is_free(*s))
}

// The slot that one more request of this id comes to.
#[inline(always)]
fn room_for(slots: &[IdSlot], tid: u64) -> Option<usize>
    ensures { result ≡ room_for tid slots.now }
{
    match first_adding(slots, tid) {
        Some(i) => Some(i),
        None => first_free(slots),
    }
}

// Whether there is a request of this id.
#[inline(always)]
pub(crate) fn has_id(slots: &[IdSlot], tid: u64) -> bool
    ensures { result ≡ has_id tid slots.now }
{
    first_of(slots, tid).is_some()
}

// Whether there is room for one more request of this id.
#[inline(always)]
pub(crate) fn has_room(slots: &[IdSlot], tid: u64) -> bool
    ensures { result ≡ has_room tid slots.now }
{
    room_for(slots, tid).is_some()
}

// Whether there is room for one more request, whatever its id.
#[inline(always)]
pub(crate) fn has_free(slots: &[IdSlot]) -> bool
    ensures { result ≡ has_free slots.now }
{
    first_free(slots).is_some()
}

// One more request of this id, where there is room.
#[inline(always)]
pub(crate) fn add_id(slots: &mut [IdSlot], tid: u64)
    ensures { slots.new ≡ with_id tid slots.old }
{
    let Some(i) = room_for(slots, tid) else {
        return;
    };
    let count = slots[i].count;
    slots[i] = IdSlot {
        tid,
        count: count + 1,
    };
}

// One request of this id less, where there is one.
#[inline(always)]
pub(crate) fn remove_id(slots: &mut [IdSlot], tid: u64)
    ensures { slots.new ≡ without_id tid slots.old }
{
    let Some(i) = first_of(slots, tid) else {
        return;
    };
    let count = slots[i].count;
    slots[i] = IdSlot {
        tid,
        count: count.saturating_sub(1),
    };
}
