//! What the signature of a DISPATCH allows.
ghost use Rattle.std.specs.Prelude.{◌≡◌, length};
ghost use Rattle.layout.specs.Records.{◌!◌, body_at};
ghost use Rattle.program.specs.Places.{version_at};
ghost use Rattle.program.specs.Program.{arguments, parameter_types};
ghost use Rattle.machine.specs.Calls.{same_ownerships};
ghost use Rattle.bounds.specs.Bounds.{allows};

use program::lookup;
use typing::types;

/// How many parameters the version at `v` has registers for.
fn parameters_of(image: &[u8], v: usize) -> usize
    ensures { result ≡ length (parameter_types (version_at image.now v)) }
{
    lookup::parameters(image, v).min(lookup::registers(image, v))
}

/// Has the version at `v` as many parameters as the DISPATCH at `at` has pairs, with the same ownerships?
fn same_ownerships(image: &[u8], at: usize, v: usize) -> bool
    ensures { result ≡ same_ownerships (arguments (body_at image.now at) 5 (body_at image.now at ! 4)) (parameter_types (version_at image.now v)) }
{
    let n = layout::field(image, at, 4);
    if n != parameters_of(image, v) {
        return false;
    }
    for i in 0..n {
        if layout::field(image, at, 5 + 2 * i) / 16 != lookup::type_of(image, v, i) / 16 {
            return false;
        }
    }
    true
}

/// Does the signature of the DISPATCH at `at`, in the version at `own`, allow the version at `v`, argument kinds left aside?
pub fn allows(image: &[u8], own: usize, at: usize, v: usize) -> bool
    ensures { result ≡ allows (version_at image.now own).level (body_at image.now at ! 2) (body_at image.now at ! 3)
        (arguments (body_at image.now at) 5 (body_at image.now at ! 4)) (version_at image.now v) }
{
    if !lookup::not_above(image, v, own) {
        return false;
    }
    if !same_ownerships(image, at, v) {
        return false;
    }
    let t = layout::field(image, v, 4);
    let u = layout::field(image, at, 3);
    if t / 16 != u / 16 {
        return false;
    }
    if !types::is_within(t % 16, u % 16) {
        return false;
    }
    lookup::mark(image, v) <= layout::field(image, at, 2)
}
