//! Words that write versions.
ghost use Rattle.std.specs.Prelude.{◌≡◌, ◌==◌, List, [], ◌∷◌, Option, Some, None, MatchOption, IfSome, true};
ghost use Rattle.contact.specs.Versions.{IsVersion};
ghost use Rattle.std.specs.List.{slice_split};
ghost use Rattle.script_text.specs.Forms.{dotted, is_version, listed, version_of, in_u64};

use crate::cut::cut;
use crate::number::{is_decimal, number_of};
use contact::{Version, host_accepts};

/// What stands before the one dot of a word, and what stands behind it.
fn dotted(word: &[u8]) -> Option<(&[u8], &[u8])>
    ensures { MatchOption result (dotted word.now ≡ None) (λ p. dotted word.now ≡ Some (p.0.now, p.1.now)) }
{
    let (major, rest) = cut(word, b'.')?;
    match cut(rest, b'.') {
        None => Some((major, rest)),
        Some(_) => None,
    }
}

/// Whether a word is a decimal number, a dot and a decimal number.
pub fn is_version(word: &[u8]) -> bool
    ensures { result ≡ is_version word.now }
{
    match dotted(word) {
        Some((major, minor)) => is_decimal(major) && is_decimal(minor),
        None => false,
    }
}

/// The version of the list that a word writes. Linux's list is one of pairs: no other pair with
/// the same `major * 65536 + minor` is in it.
pub fn version_of(word: &[u8]) -> Option<Version>
    requires { is_version word.now ≡ true }
    ensures version { result ≡ version_of word.now }
    ensures known { IfSome result (λ v. IsVersion v.0) }
{
    let (major, minor) = dotted(word)?;
    let major = number_of(major)?;
    let minor = number_of(minor)?;
    listed(major, minor)
}

fn listed(major: u64, minor: u64) -> Option<Version>
    ensures version { result ≡ listed major minor }
    ensures known { IfSome result (λ v. IsVersion v.0) }
{
    if major >= 0x1_0000 || minor >= 0x1_0000 {
        return None;
    }
    let version = Version((major * 0x1_0000 + minor) as u32);
    if host_accepts(version, version) {
        Some(version)
    } else {
        None
    }
}
