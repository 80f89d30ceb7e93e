//! Question 9: does each block's mark cover its effect?
ghost use Rattle.std.specs.Prelude.{◌≡◌};
ghost use Rattle.layout.specs.Tests.{any};
ghost use Rattle.layout.specs.Records.{records, body_at};
ghost use Rattle.layout.specs.Kinds as kind;
ghost use Rattle.program.specs.Program.{Line, program, instr_of};
ghost use Rattle.program.specs.Search.{first};
ghost use Rattle.program.specs.Places.{version_at, block_at, instr_at, asked};
ghost use Rattle.rules.specs.Effects.{reflective};
ghost use Rattle.rules.specs.Questions.{question9};

use crate::{registers, types};
use layout::kinds;
use layout::records::Records;
use program::lookup::Tabled;
use program::{Here, lookup, pass};

/// CALL: has the version that it names the mark 1?
fn call_reflects(tabled: Tabled, v: usize, p: usize) -> bool
    ensures { result ≡ reflective (program (records tabled.entry.image.now)) (version_at tabled.entry.image.now v) (instr_of kind.CALL (body_at tabled.entry.image.now p)) }
{
    let image = tabled.image;
    let f = layout::field(image, p, 1);
    let w = layout::field(image, p, 2);
    let Some(q) = tabled.version(f, w) else {
        return false;
    };
    lookup::mark(image, q) == 1
}

/// Is the effect of the instruction at `p` in the version at `v` reflective?
fn reflects(tabled: Tabled, v: usize, p: usize) -> bool
    ensures { result ≡ reflective (program (records tabled.entry.image.now)) (version_at tabled.entry.image.now v) (instr_at tabled.entry.image.now p) }
{
    let image = tabled.image;
    match layout::kind_at(image, p) {
        kinds::FORCE => registers::kind_in(image, v, p, 1) == types::REFLECTIVE,
        kinds::PEEK => true,
        kinds::POKE => true,
        kinds::CALL => call_reflects(tabled, v, p),
        kinds::DISPATCH => layout::field(image, p, 2) == 1,
        _ => false,
    }
}

/// Is the effect of the block at `b` of the version at `v` reflective?
fn block_reflects(tabled: Tabled, v: usize, b: usize) -> bool
    ensures { result ≡ any (λ (l : Line). reflective (program (records tabled.entry.image.now)) (version_at tabled.entry.image.now v) l.does) (block_at tabled.entry.image.now b).code }
{
    let image = tabled.image;
    if image.len() <= b {
        return false;
    }
    for record in Records::behind(image, b) {
        if record.size == 0 {
            return false;
        }
        let k = layout::kind_at(image, record.at);
        if k == kinds::VERSION {
            return false;
        }
        if k == kinds::BLOCK {
            return false;
        }
        if reflects(tabled, v, record.at) {
            return true;
        }
    }
    false
}

/// Does the mark of the record at `p`, if it is a BLOCK, cover its effect, where the pass stands at `here`? Part of the loop along the
/// records, whose table is made once.
pub fn covers_at(tabled: Tabled, here: Here, p: usize) -> bool
    ensures { result ≡ asked (question9 (program (records tabled.entry.image.now))) tabled.entry.image.now here p }
{
    let image = tabled.image;
    let version = here.version;
    let blocks = here.blocks;
    if layout::kind_at(image, p) != kinds::BLOCK {
        return true;
    }
    if image.len() <= version {
        return true;
    }
    if blocks == 0 {
        return true;
    }
    if layout::field(image, p, 0) == 1 {
        return true;
    }
    if block_reflects(tabled, version, p) {
        false
    } else {
        true
    }
}

/// Question 9: does each block's mark cover its effect?
pub fn question_9(image: &[u8]) -> Option<usize>
    ensures { result ≡ first (question9 (program (records image.now))) (program (records image.now)) }
{
    let table = lookup::versions(image);
    let tabled = Tabled {
        image,
        table: &table,
    };
    pass::first_failing(image, |here, p| covers_at(tabled, here, p))
}
