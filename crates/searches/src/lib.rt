//! How many versions the DISPATCH looks at that a state stands at, over a loaded image, for all images, tables and states.
#![tactic(auto)]

ghost use Rattle.std.specs.Prelude.{◌≡◌, ◌<◌, ◌≤◌};
ghost use Rattle.loaded.specs.Loaded.{few};
ghost use Rattle.searches.specs.Observing.{Looks, LooksAt, LooksIn, Observes};

use layout::kinds;
use loaded::{Next, lookup};
use machine::{Activation, Search};
use store::stack;

/// The registers of a DISPATCH that count.
const OPERANDS: u8 = 8;

/// A number above all codes of kinds: a register has none.
const KINDLESS: u32 = 65536;

/// How many activations a state has.
const ACTIVATIONS: usize = 32;

/// How many of so many registers count.
fn most(n: u8) -> usize
    ensures { (result ≡ few n) × (result ≤ 8) }
{
    if n < OPERANDS { n as usize } else { 8 }
}

/// What the DISPATCH at the place `p` looks at, in the frame `k` of the version `own`.
fn looks(image: &[u8], table: &[u8], bytes: &[u8; 2632], k: usize, own: u8, p: u16) -> Search
    requires { k < 32 }
    ensures { Looks result image.now table.now bytes.now k own p }
{
    let at = p as usize;
    let n = most(loaded::byte(image, at + 6));
    let mut rs = [0u8; 8];
    matching::listed(image, at + 8, 2, n, &mut rs);
    let code = matching::code_of(image, table, bytes, k, &rs, n);
    if KINDLESS <= code {
        return Search::Elsewhere;
    }
    let found = matching::kinds_in(code as u16, n);
    let looked = matching::searched(image, table, own, p, &found, n);
    Search::Looked(
        looked,
        matching::versions(image, table, loaded::byte(image, at + 3)),
    )
}

/// What the instruction of the record `i` looks at, in the frame `k` of the version `own`.
fn looks_at(image: &[u8], table: &[u8], bytes: &[u8; 2632], k: usize, own: u8, i: u32) -> Search
    requires { k < 32 }
    ensures { LooksAt result image.now table.now bytes.now k own i }
{
    let kind = loaded::byte(table, loaded::RECORDS + 8 * (i as usize));
    if layout::wide(kind) != kinds::DISPATCH {
        return Search::Elsewhere;
    }
    looks(image, table, bytes, k, own, lookup::place_at(table, i))
}

/// What the state looks at whose activation on top is `a`, in the live frame `k`.
fn looks_in(image: &[u8], table: &[u8], bytes: &[u8; 2632], k: usize, a: Activation) -> Search
    requires { k < 32 }
    ensures { LooksIn result image.now table.now bytes.now k a }
{
    let Some(own) = lookup::version(table, bytes[32 * k + 24], bytes[32 * k + 25]) else {
        return Search::Elsewhere;
    };
    let Some(e) = lookup::block(image, table, own, a.block) else {
        return Search::Elsewhere;
    };
    let Some(next) = lookup::next(table, e, a.next) else {
        return Search::Elsewhere;
    };
    match next {
        Next::Line(i) => looks_at(image, table, bytes, k, own, i),
        Next::End => Search::Elsewhere,
    }
}

/// What the state of these bytes looks at, ended or not.
pub fn search(image: &[u8], table: &[u8], bytes: &[u8; 2632]) -> Search
    ensures { Observes result image.now table.now bytes.now }
{
    let depth = layout::wide(bytes[2625]);
    if depth == 0 {
        return Search::Elsewhere;
    }
    if ACTIVATIONS < depth {
        return Search::Elsewhere;
    }
    let top = stack::activation(bytes, depth - 1);
    let k = layout::wide(top.frame);
    if frames::is_live(bytes, k) {
        looks_in(image, table, bytes, k, top)
    } else {
        Search::Elsewhere
    }
}
