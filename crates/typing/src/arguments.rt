//! The arguments of a call: where they stand, and whether they fit.
ghost use Rattle.std.specs.Prelude.{◌≡◌, ◌≤◌, eqb};
ghost use Rattle.layout.specs.Tests.{all, count};
ghost use Rattle.layout.specs.Records.{body_at, ◌!◌};
ghost use Rattle.program.specs.Program.{Argument};
ghost use Rattle.program.specs.Places.{version_at};
ghost use Rattle.rules.specs.Fits.{fits_argument, empties, fits_return, fits_call};
ghost use Rattle.typing.specs.Calls.{arguments_at, least, Small, call_of, dispatch_of};

use crate::{Call, registers, types};
use layout::ownerships;
use layout::records::Fields;

/// The smaller of two numbers.
fn lesser(a: usize, b: usize) -> usize
    ensures { (result ≡ least a b) × (result ≤ a) }
{
    if a < b { a } else { b }
}

/// Where the arguments of the CALL at `p` of the version at `q` stand.
pub fn of_call(image: &[u8], p: usize, q: usize) -> Call
    ensures { (result ≡ call_of image.now p q) × Small result }
{
    let parameters = layout::field(image, q, 2);
    let registers = layout::field(image, q, 3);
    Call {
        place: q,
        types: 6,
        registers: 4,
        step: 1,
        n: lesser(parameters, lesser(registers, layout::field(image, p, 3))),
    }
}

/// Where the arguments of the DISPATCH at `p` stand.
pub fn of_dispatch(image: &[u8], p: usize) -> Call
    ensures { (result ≡ dispatch_of image.now p) × Small result }
{
    Call {
        place: p,
        types: 5,
        registers: 6,
        step: 2,
        n: layout::field(image, p, 4),
    }
}

/// How often the register `r` stands among the arguments of the call at `p`.
fn occurrences(image: &[u8], p: usize, call: Call, r: usize) -> usize
    requires { Small call }
    ensures { result ≡ count (λ (a : Argument). eqb a.register r) (arguments_at image.now p call) }
{
    Fields::of(image, p, call.registers, call.step, call.n)
        .filter(|register| *register == r)
        .count()
}

/// Does the argument of the call at `p` with its type in the field `k` and its register in the field `l` fit?
fn argument_fits(image: &[u8], v: usize, p: usize, call: Call, k: usize, l: usize) -> bool
    requires { Small call }
    ensures { result ≡ fits_argument (version_at image.now v) (arguments_at image.now p call)
        (record { type = body_at image.now call.place ! k; register = body_at image.now p ! l }) }
{
    let place = call.place;
    let t = layout::field(image, place, k);
    match t / 16 {
        ownerships::OWNED => {
            registers::is_owned(image, v, p, l)
                && occurrences(image, p, call, layout::field(image, p, l)) == 1
        }
        ownerships::BORROWED => registers::is_vector(image, v, p, l),
        _ => {
            registers::is_shared(image, v, p, l)
                && types::is_within(registers::kind_in(image, v, p, l), t % 16)
        }
    }
}

/// Do all arguments of the call at `p` fit?
fn all_fit(image: &[u8], v: usize, p: usize, call: Call) -> bool
    requires { Small call }
    ensures { result ≡ all (fits_argument (version_at image.now v) (arguments_at image.now p call)) (arguments_at image.now p call) }
{
    let n = call.n;
    let step = call.step;
    let mut k = call.types;
    let mut l = call.registers;
    for i in 0..n {
        if !argument_fits(image, v, p, call, k, l) {
            return false;
        }
        k += step;
        l += step;
    }
    true
}

/// Does the call at `p` empty a register: has it an owned parameter?
fn does_empty(image: &[u8], p: usize, call: Call) -> bool
    requires { Small call }
    ensures { result ≡ empties (arguments_at image.now p call) }
{
    Fields::of(image, call.place, call.types, call.step, call.n).any(|t| t / 16
        == ownerships::OWNED)
}

/// Does what a call at `p` returns go into its d?
fn return_fits(image: &[u8], v: usize, p: usize, t: usize) -> bool
    ensures { result ≡ fits_return (version_at image.now v) (body_at image.now p ! 0) t }
{
    if t / 16 == ownerships::OWNED {
        registers::takes_fresh(image, v, p, 0)
    } else {
        registers::takes_plain(image, v, p, 0, t % 16)
    }
}

/// Do the types of the call at `p` in the block `b` fit, where it returns the type `t`?
pub(crate) fn call_fits(image: &[u8], v: usize, b: usize, p: usize, call: Call, t: usize) -> bool
    requires { Small call }
    ensures { result ≡ fits_call (version_at image.now v) b (body_at image.now p ! 0) (arguments_at image.now p call) t }
{
    if all_fit(image, v, p, call) {
        if b == 0 {
            return return_fits(image, v, p, t);
        }
        if does_empty(image, p, call) {
            false
        } else {
            return_fits(image, v, p, t)
        }
    } else {
        false
    }
}
