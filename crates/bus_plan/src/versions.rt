//! The version that both ends of a script agree on.
ghost use Rattle.std.specs.Prelude.{◌≡◌};
ghost use Rattle.script_lines.specs.Parts.{offered};
ghost use Rattle.script_lines.specs.WellFormed.{AllRight};
ghost use Rattle.script_phases.specs.Agreed.{agreed_in};

use bus_script::{Line, What};
use contact::{Version, agree};

// The highest version of both ends where a script says none, 5.2.
const HIGHEST: Version = Version(0x0005_0002);

/// The version that both ends agree on, by the first line: 5.2 where it says none.
pub fn agreed(lines: &[Line]) -> Version
    requires { AllRight (offered lines.now) lines.now }
    ensures { result.0 ≡ agreed_in lines.now }
{
    if let [line, ..] = lines {
        if let What::Contact { guest, host } = &line.what {
            return agree(*guest, *host);
        }
    }
    HIGHEST
}
