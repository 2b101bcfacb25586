//! Versions of frames and messages.

ghost use Rattle.std.specs.Prelude.{◌≡◌, ◌+◌, ◌*◌, ◌/◌, ◌<◌, ◌≤◌, ◌++◌, length, take, drop, Some, None, Option, IsTrue, IfSome};
ghost use Rattle.std.specs.List.{list_any};
ghost use Rattle.wire_table.specs.Little.{bytes_of};
ghost use Rattle.util_ic.specs.Answers.{with_version};
ghost use Rattle.util_ic.specs.Versions.{versions_in, version_at, same as is_same, greatest_known, is_offered};

use crate::tables::{set, version_table};

/// A version of frames or messages.
#[derive(Clone, Copy, Debug, PartialEq, Eq)]
pub struct Version {
    /// The number before the point.
    pub major: u16,
    /// The number after it.
    pub minor: u16,
}

/// The newer of the versions that both ends know, of frames and of both services' messages.
pub const NEW: Version = Version { major: 3, minor: 0 };

/// The older one.
pub const OLD: Version = Version { major: 1, minor: 0 };

// Two versions are the same where both their numbers are.
fn same(a: Version, b: Version) -> bool
    ensures { result ≡ is_same a b }
{
    a.major == b.major && a.minor == b.minor
}

// The version in the first four bytes.
fn first_version(bytes: &[u8]) -> Version
    requires { 4 ≤ length bytes.now }
    ensures { result ≡ version_at bytes.now }
{
    let table = version_table();
    Version {
        major: table.get(bytes, 0) as u16,
        minor: table.get(bytes, 1) as u16,
    }
}

/// Writes a version at a place of a message. Everything else stays.
pub fn put_version(message: &mut [u8], at: usize, version: Version)
    requires { at + 4 ≤ length message.old }
    ensures value { message.new ≡ with_version at version message.old }
    ensures front { take (at + 4) message.new ≡ (take at message.old ++ bytes_of 2 version.major) ++ bytes_of 2 version.minor }
{
    let table = version_table();
    set(&table, message, at, 0, u64::from(version.major));
    set(&table, message, at, 1, u64::from(version.minor));
}

// A version is one of these.
fn offers(versions: &[u8], count: usize, version: Version) -> bool
    requires { 4 * count ≤ length versions.now }
    ensures value { result ≡ is_offered (versions_in count versions.now) version }
    ensures some { IsTrue result → 0 < count }
{
    for i in 0..count {
        let (_, rest) = versions.split_at(4 * i);
        if same(version, first_version(rest)) {
            return true;
        }
    }
    false
}

/// The greatest known version among these.
pub fn greatest(versions: &[u8], count: usize) -> Option<Version>
    requires { 4 * count ≤ length versions.now }
    ensures value { result ≡ greatest_known (versions_in count versions.now) }
    ensures some { IfSome result (λ _. 0 < count) }
{
    if offers(versions, count, NEW) {
        return Some(NEW);
    }
    if offers(versions, count, OLD) {
        return Some(OLD);
    }
    None
}
