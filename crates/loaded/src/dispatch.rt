//! DISPATCH: the part of its test that looks at no value, for any image and any table.
ghost use Rattle.std.specs.Prelude.{◌≡◌, min};
ghost use Rattle.program.specs.Program.{parameter_types};
ghost use Rattle.machine.specs.Calls.{same_ownerships};
ghost use Rattle.loaded.specs.Loaded.{version_in};
ghost use Rattle.loaded.specs.Dispatching.{admits_at, pairs_at};

use crate::lookup;
use typing::types;

/// The pairs of a DISPATCH that count.
const OPERANDS: u8 = 8;

/// The lesser of two numbers.
fn lesser(a: u8, b: u8) -> u8
    ensures { result ≡ min a b }
{
    if a < b { a } else { b }
}

/// Has the version under the number `k` as many parameters as the DISPATCH at the place `p` has pairs, each of the same ownership?
fn same_ownerships(image: &[u8], table: &[u8], p: u16, k: u8) -> bool
    ensures { result ≡ same_ownerships (pairs_at image.now p) (parameter_types (version_in image.now table.now k)) }
{
    let e = p as usize;
    let n = lesser(crate::byte(image, e + 6), OPERANDS);
    let most = lookup::registers(image, table, k);
    if n != lesser(lookup::parameters(image, table, k), most) {
        return false;
    }
    for i in 0..n {
        let asked = crate::byte(image, e + 7 + 2 * (i as usize));
        let has = lookup::type_of(image, table, k, i);
        if asked / 16 != has / 16 {
            return false;
        }
    }
    true
}

/// May the DISPATCH at the place `p`, in the version under the number `own`, pick the version under the number `k`, by all but the kinds of its arguments?
pub fn admits(image: &[u8], table: &[u8], own: u8, p: u16, k: u8) -> bool
    ensures { result ≡ admits_at image.now table.now own p (version_in image.now table.now k) }
{
    let e = p as usize;
    if lookup::level(image, table, own) < lookup::level(image, table, k) {
        return false;
    }
    if !same_ownerships(image, table, p, k) {
        return false;
    }
    let gives = lookup::returns(image, table, k);
    let asked = crate::byte(image, e + 5);
    if gives / 16 != asked / 16 {
        return false;
    }
    if !types::is_within((gives % 16) as usize, (asked % 16) as usize) {
        return false;
    }
    lookup::mark(image, table, k) <= crate::byte(image, e + 4)
}
