//! Question 18: does a version CALL only versions of its level or lower?
ghost use Rattle.std.specs.Prelude.{◌≡◌};
ghost use Rattle.layout.specs.Records.{records, body_at};
ghost use Rattle.layout.specs.Kinds as kind;
ghost use Rattle.program.specs.Program.{program, instr_of};
ghost use Rattle.program.specs.Search.{first};
ghost use Rattle.program.specs.Places.{version_at, asked};
ghost use Rattle.rules.specs.Questions.{stays_down, question18};

use layout::kinds;
use program::lookup::Tabled;
use program::{Here, lookup, pass};

/// Is the version that the CALL at `p` names not above the level of the version at `v`?
fn call_stays_down(tabled: Tabled, v: usize, p: usize) -> bool
    ensures { result ≡ stays_down (program (records tabled.entry.image.now)) (version_at tabled.entry.image.now v) (instr_of kind.CALL (body_at tabled.entry.image.now p)) }
{
    let image = tabled.image;
    let f = layout::field(image, p, 1);
    let w = layout::field(image, p, 2);
    let Some(q) = tabled.version(f, w) else {
        return false;
    };
    lookup::not_above(image, q, v)
}

/// Does the record at `p`, if it is a CALL, not go up, where the pass stands at `here`?
fn stays_down_at(tabled: Tabled, here: Here, p: usize) -> bool
    ensures { result ≡ asked (question18 (program (records tabled.entry.image.now))) tabled.entry.image.now here p }
{
    let image = tabled.image;
    let version = here.version;
    let blocks = here.blocks;
    if layout::kind_at(image, p) != kinds::CALL {
        return true;
    }
    if image.len() <= version {
        return true;
    }
    if blocks == 0 {
        return true;
    }
    call_stays_down(tabled, version, p)
}

/// Question 18: does a version CALL only versions of its level or lower?
pub fn question_18(image: &[u8]) -> Option<usize>
    ensures { result ≡ first (question18 (program (records image.now))) (program (records image.now)) }
{
    let table = lookup::versions(image);
    let tabled = Tabled {
        image,
        table: &table,
    };
    pass::first_failing(image, |here, p| stays_down_at(tabled, here, p))
}
