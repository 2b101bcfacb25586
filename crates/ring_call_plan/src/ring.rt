//! The arithmetic round a ring.
ghost use Rattle.std.specs.Prelude.{◌≡◌, ℕ, ◌<◌, ◌≤◌, ◌^◌};
ghost use Rattle.ring_machine.specs.Places.{ahead, used, free, is_index, cell_of, len8_of, offset8_of};
ghost use Rattle.ring_call_plan.specs.Numbers.{before_wrap};

// `k` further round a ring of `n`.
#[inline(always)]
pub(crate) fn step_ahead(n: u32, i: u32, k: u32) -> u32
    requires { (i < n) × (k < n) × (n < 2 ^ 31) }
    ensures value { result ≡ ahead n i k }
    ensures below { result < n }
{
    if i + k < n { i + k } else { i + k - n }
}

// What a ring of `n` holds from `r` to `w`.
#[inline(always)]
pub(crate) fn used_in(n: u32, r: u32, w: u32) -> u32
    requires { (r < n) × (w < n) × (n < 2 ^ 31) }
    ensures value { result ≡ used n r w }
    ensures below { result < n }
{
    if r <= w { w - r } else { w + n - r }
}

// The room that it has.
#[inline(always)]
pub(crate) fn free_in(n: u32, r: u32, w: u32) -> u32
    requires { (r < n) × (w < n) × (n < 2 ^ 31) }
    ensures value { result ≡ free n r w }
    ensures most { result ≤ n }
{
    if r <= w { n - (w - r) } else { r - w }
}

// Whether an index in bytes names a cell of a ring of `n`.
#[inline(always)]
pub(crate) fn names_cell(n: u32, v: u32) -> bool
    ensures { result ≡ is_index n v }
{
    v % 8 == 0 && v / 8 < n
}

// The cell that it names.
#[inline(always)]
pub(crate) fn named_cell(v: u32) -> u32
    ensures value { result ≡ cell_of v }
    ensures most { result < 2 ^ 29 }
{
    v / 8
}

// Of `k` cells from cell `i` on, those before the ring's end.
#[inline(always)]
pub(crate) fn cells_before_wrap(n: u32, i: u32, k: u32) -> u32
    requires { i < n }
    ensures value { result ≡ before_wrap n i k }
    ensures most { result ≤ k }
{
    if k <= n - i { k } else { n - i }
}

// The length in words that a packet's first word names.
#[inline(always)]
pub(crate) fn packet_len(head: u64) -> u32
    ensures value { result ≡ len8_of head }
    ensures most { result < 65536 }
{
    (head / 4294967296 % 65536) as u32
}

// The offset of the payload in words that it names.
#[inline(always)]
pub(crate) fn payload_offset(head: u64) -> u32
    ensures value { result ≡ offset8_of head }
    ensures most { result < 65536 }
{
    (head / 65536 % 65536) as u32
}
