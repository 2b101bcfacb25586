//! The next version that a guest proposes.
ghost use Rattle.std.specs.Prelude.{◌≡◌, IfSome};
ghost use Rattle.contact.specs.Versions.{IsVersion};
ghost use Rattle.control_model.specs.Channels.{version_below};

use contact::{Version, next_version};

/// The greatest version below this one; none is below 2.4.
pub fn version_below(v: Version) -> Option<Version>
    requires { IsVersion v.0 }
    ensures below { result ≡ version_below v }
    ensures listed { IfSome result (λ u. IsVersion u.0) }
{
    next_version(v)
}
