//! The protocol's versions.
ghost use Rattle.std.specs.Prelude.{◌≡◌, ◌≢◌, ◌<◌, ◌≤◌, ◌↔◌, All, IsTrue};
ghost use Rattle.contact.specs.Versions.{versions, oldest, has_modify, answers_modify, IsVersion};

use contact::{Version, agree, answers_modify, has_modify, host_accepts, next_version};

// Whether this is a version of the protocol.
fn is_version(v: u32) -> bool
    ensures { IsTrue result ↔ IsVersion v }
{
    host_accepts(Version(v), Version(v))
}

/// The version that a guest tries after its host refused this one: the next lower one. 0 where none is left, after 2.4, or `refused` is no version. Source: Linux
/// `drivers/hv/connection.c`, `vmbus_connect`.
#[unsafe(no_mangle)]
pub extern "C" fn vmbus_version_next(refused: u32) -> u32
    ensures lower { result ≢ 0 → IsVersion refused × IsVersion result × (result < refused) }
    ensures next { result ≢ 0 → All (λ u. u < refused → u ≤ result) versions }
    ensures last { result ≡ 0 → IsVersion refused → refused ≡ oldest }
{
    if !is_version(refused) {
        return 0;
    }
    match next_version(Version(refused)) {
        Some(next) => next.0,
        None => 0,
    }
}

/// Whether a host whose highest version is `highest` accepts one that a guest asks for.
#[unsafe(no_mangle)]
pub extern "C" fn vmbus_version_accepts(highest: u32, asked: u32) -> bool
    ensures { IsTrue result ↔ (IsVersion asked × (asked ≤ highest)) }
{
    host_accepts(Version(highest), Version(asked))
}

/// The version that a guest and a host use whose highest ones these are: the greatest that is not above both. 0 where one of them is no version.
#[unsafe(no_mangle)]
pub extern "C" fn vmbus_version_agree(guest: u32, host: u32) -> u32
    ensures version { IsVersion guest → IsVersion host → IsVersion result × (result ≤ guest) × (result ≤ host) }
    ensures greatest { IsVersion guest → IsVersion host → All (λ u. u ≤ guest → u ≤ host → u ≤ result) versions }
    ensures only { result ≢ 0 → IsVersion guest × IsVersion host }
{
    if !is_version(guest) || !is_version(host) {
        return 0;
    }
    agree(Version(guest), Version(host)).0
}

/// Whether a version has MODIFYCHANNEL: 4.1 and the later ones have it. Source: Linux `drivers/hv/channel.c`, `vmbus_send_modifychannel`.
#[unsafe(no_mangle)]
pub extern "C" fn vmbus_version_has_modify(version: u32) -> bool
    ensures { result ≡ has_modify version }
{
    has_modify(Version(version))
}

/// Whether a host answers MODIFYCHANNEL at a version: from 5.3 on it does.
#[unsafe(no_mangle)]
pub extern "C" fn vmbus_version_answers_modify(version: u32) -> bool
    ensures { result ≡ answers_modify version }
{
    answers_modify(Version(version))
}
