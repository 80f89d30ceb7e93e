//! Question 10: does flow hold?
ghost use Rattle.std.specs.Prelude.{◌≡◌};
ghost use Rattle.layout.specs.Records.{records};
ghost use Rattle.program.specs.Program.{program};
ghost use Rattle.program.specs.Search.{first};
ghost use Rattle.program.specs.Places.{version_at, asked};
ghost use Rattle.rules.specs.Flows.{flows, question10};

use crate::walk;
use layout::kinds;
use program::lookup::Tabled;
use program::{Here, lookup, pass};

/// Does flow hold in the version at `p`, with its body's R within the parameters?
fn version_flows(tabled: Tabled, p: usize) -> bool
    ensures { result ≡ flows (program (records tabled.entry.image.now)) (version_at tabled.entry.image.now p) }
{
    let image = tabled.image;
    let Some(body) = walk::body_action(tabled, p) else {
        return false;
    };
    sets::below(body.reads, lookup::parameters(image, p))
}

/// Does flow hold at the record at `p`, where the pass stands at `here`? Only a VERSION is asked. Part of the loop along the
/// records, whose table is made once.
pub fn flows_at(tabled: Tabled, here: Here, p: usize) -> bool
    ensures { result ≡ asked (question10 (program (records tabled.entry.image.now))) tabled.entry.image.now here p }
{
    let image = tabled.image;
    if layout::kind_at(image, p) == kinds::VERSION {
        version_flows(tabled, p)
    } else {
        true
    }
}

/// Question 10: does flow hold in each version, with its body's R within the parameters?
pub fn question_10(image: &[u8]) -> Option<usize>
    ensures { result ≡ first (question10 (program (records image.now))) (program (records image.now)) }
{
    let table = lookup::versions(image);
    let tabled = Tabled {
        image,
        table: &table,
    };
    pass::first_failing(image, |here, p| flows_at(tabled, here, p))
}
