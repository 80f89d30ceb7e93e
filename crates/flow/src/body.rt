//! The action of a version's body.
ghost use Rattle.std.specs.Prelude.{◌≡◌};
ghost use Rattle.layout.specs.Records.{records};
ghost use Rattle.program.specs.Program.{program};
ghost use Rattle.program.specs.Places.{version_at};
ghost use Rattle.rules.specs.Actions.{body_action};
ghost use Rattle.flow.specs.Masks.{flowed};

use crate::{Action, walk};
use program::lookup;
use program::lookup::Tabled;

/// The action of the body of the version whose record stands at `v`.
pub fn action(image: &[u8], v: usize) -> Option<Action>
    ensures { flowed result ≡ body_action (program (records image.now)) (version_at image.now v) }
{
    let table = lookup::versions(image);
    let tabled = Tabled {
        image,
        table: &table,
    };
    walk::body_action(tabled, v)
}
