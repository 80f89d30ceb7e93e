//! Question 6: is each type byte allowed at its place?
ghost use Rattle.std.specs.Prelude.{◌≡◌, ◌<◌};
ghost use Rattle.layout.specs.Tests.{all_from};
ghost use Rattle.layout.specs.Records.{records, body_at, every};
ghost use Rattle.layout.specs.Kinds as kind;
ghost use Rattle.program.specs.Program.{program, instr_of};
ghost use Rattle.program.specs.Search.{first};
ghost use Rattle.program.specs.Places.{version_at, asked};
ghost use Rattle.rules.specs.Questions.{type_allowed, version_types, types_allowed, question6};

use crate::types;
use layout::kinds;
use layout::records::Fields;
use program::{Here, pass};

/// May the register `r` of a version with so many parameters have the type byte `t`?
fn allowed(parameters: usize, r: usize, t: usize) -> bool
    ensures { result ≡ type_allowed parameters r t }
{
    if r < parameters {
        types::parameter_type(t)
    } else {
        types::register_type(t)
    }
}

/// Are `n` type bytes of the record at `p` allowed, from the field `from` on, each `step` behind the one before?
fn all_allowed(
    image: &[u8],
    p: usize,
    from: usize,
    step: usize,
    n: usize,
    parameters: usize,
) -> bool
    requires { (from < 256) × (step < 256) × (n < 256) }
    ensures { result ≡ all_from (type_allowed parameters) 0 (every (body_at image.now p) from step n) }
{
    Fields::of(image, p, from, step, n)
        .enumerate()
        .all(|(i, t)| allowed(parameters, i, t))
}

/// Are the type bytes of the VERSION at `p` allowed?
fn version_types(image: &[u8], p: usize) -> bool
    ensures { result ≡ version_types (version_at image.now p) }
{
    let parameters = layout::field(image, p, 2);
    let registers = layout::field(image, p, 3);
    all_allowed(image, p, 6, 1, registers, parameters)
        && types::return_type(layout::field(image, p, 4))
}

/// Are the type bytes of the DISPATCH at `p` allowed?
fn dispatch_types(image: &[u8], p: usize) -> bool
    ensures { result ≡ types_allowed (instr_of kind.DISPATCH (body_at image.now p)) }
{
    let n = layout::field(image, p, 4);
    types::return_type(layout::field(image, p, 3)) && all_allowed(image, p, 5, 2, n, n)
}

/// Are the type bytes of the record at `p` allowed, where the pass stands at `here`?
pub fn types_at(image: &[u8], here: Here, p: usize) -> bool
    ensures { result ≡ asked question6 image.now here p }
{
    let version = here.version;
    let blocks = here.blocks;
    match layout::kind_at(image, p) {
        kinds::VERSION => version_types(image, p),
        kinds::DISPATCH => {
            if image.len() <= version {
                true
            } else if blocks == 0 {
                true
            } else {
                dispatch_types(image, p)
            }
        }
        _ => true,
    }
}

/// Question 6: is each type byte allowed at its place?
pub fn question_6(image: &[u8]) -> Option<usize>
    ensures { result ≡ first question6 (program (records image.now)) }
{
    pass::first_failing(image, |here, p| types_at(image, here, p))
}
