//! The protocol's versions, and which of them a guest and its host use.
ghost use Rattle.std.specs.Prelude.{◌≡◌, ℕ, ◌<◌, ◌≤◌, ◌↔◌, length, cond, All, IfSome, IfNone, IsTrue, IsNone};
ghost use Rattle.contact.specs.Versions.{versions, oldest, versions_tried, is_tried, has_modify, answers_modify, IsVersion};

/// A version of the VMBus protocol, `major * 65536 + minor`, as Linux's `VERSION_WIN10` and the
/// others (include/linux/hyperv.h).
#[derive(Clone, Copy, Debug, PartialEq, Eq)]
pub struct Version(pub u32);

// All versions, greatest first.
const VERSIONS: [u32; 8] = [
    0x0005_0003,
    0x0005_0002,
    0x0005_0001,
    0x0005_0000,
    0x0004_0001,
    0x0004_0000,
    0x0003_0000,
    0x0002_0004,
];

// The first version that has MODIFYCHANNEL, and the first one whose host answers it.
const FIRST_WITH_MODIFY: u32 = 0x0004_0001;

const FIRST_WITH_ANSWER: u32 = 0x0005_0003;

/// The version to try after this one was refused: the next lower one. None is left after 2.4.
pub fn next_version(v: Version) -> Option<Version>
    requires { IsVersion v.0 }
    ensures last { IsNone result ↔ (v.0 ≡ oldest) }
    ensures lower { IfSome result (λ next. IsVersion next.0 × (next.0 < v.0)) }
    ensures next { IfSome result (λ next. All (λ u. u < v.0 → u ≤ next.0) versions) }
{
    for u in VERSIONS {
        if u < v.0 {
            return Some(Version(u));
        }
    }
    None
}

/// Whether a host whose highest version is `highest` accepts one that a guest asks for.
pub fn host_accepts(highest: Version, asked: Version) -> bool
    ensures { IsTrue result ↔ (IsVersion asked.0 × (asked.0 ≤ highest.0)) }
{
    asked.0 <= highest.0 && VERSIONS.contains(&asked.0)
}

/// The version that a guest and a host use whose highest ones these are: the greatest that is not
/// above both.
pub fn agree(guest: Version, host: Version) -> Version
    requires guest { IsVersion guest.0 }
    requires host { IsVersion host.0 }
    ensures version { IsVersion result.0 }
    ensures within { (result.0 ≤ guest.0) × (result.0 ≤ host.0) }
    ensures greatest { All (λ u. u ≤ guest.0 → u ≤ host.0 → u ≤ result.0) versions }
{
    if guest.0 <= host.0 { guest } else { host }
}

/// Whether a guest tries a version: it is not above its own highest one, nor below the agreed one.
fn tries(guest: Version, host: Version, v: u32) -> u32
    ensures { result ≡ cond (is_tried guest.0 host.0 v) 1 0 }
{
    if v <= guest.0 && guest.0.min(host.0) <= v {
        1
    } else {
        0
    }
}

/// How many versions a guest tries until its host accepts one: all from its own highest down to
/// the agreed one. `guest` and `host` are the highest ones of both ends.
pub fn tried(guest: Version, host: Version) -> u32
    ensures { result ≡ length (versions_tried guest.0 host.0) }
{
    let mut count = 0;
    for v in VERSIONS {
        count += tries(guest, host, v);
    }
    count
}

/// Whether a version has MODIFYCHANNEL, by which a guest moves a channel's interrupts to another
/// virtual processor: 4.1 and the later ones have it (`vmbus_send_modifychannel` in Linux's
/// drivers/hv/channel.c).
pub fn has_modify(v: Version) -> bool
    ensures { result ≡ has_modify v.0 }
{
    v.0 >= FIRST_WITH_MODIFY
}

/// Whether a host answers MODIFYCHANNEL at a version: from 5.3 on it does.
pub fn answers_modify(v: Version) -> bool
    ensures { result ≡ answers_modify v.0 }
{
    v.0 >= FIRST_WITH_ANSWER
}
