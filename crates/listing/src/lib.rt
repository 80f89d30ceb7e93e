//! Instructions that list registers, over the two arrays of a state: VEC, and how a CALL or DISPATCH opens its frame. `rs` are the registers that are listed.
//! Its functions serve the loop of `running`; what they require, the loop keeps.
#![tactic(auto)]

ghost use Rattle.std.specs.Prelude.{◌≡◌, ◌<◌, length};
ghost use Rattle.program.specs.Program.{VEC};
ghost use Rattle.store.specs.Store.{Live};
ghost use Rattle.store.specs.Counts.{Ready};
ghost use Rattle.store.specs.Acts.{ExecutesWith, Leaves};
ghost use Rattle.listing.specs.Listing.{Gathers, Small, pick_in, vector_made};
ghost use Rattle.listing.specs.Entering.{AllFull, Empties, Enters, passed_on};

use machine::{Activation, Opener};
use store::{Did, Halt, cells, heap, stack};

// ---- VEC

/// Do the registers of the frame `k` hold integers?
fn all_integers(bytes: &[u8; 2632], numbers: &[i64; 2129], k: usize, rs: &[u8]) -> bool
    requires { k < 32 }
    ensures { Gathers result bytes.now numbers.now k rs.now }
{
    for r in rs {
        if cells::integer(bytes, numbers, k, *r).is_none() {
            return false;
        }
    }
    true
}

/// The integer of the register `j` that is listed, 0 where there is none.
fn pick(numbers: &[i64; 2129], k: usize, rs: &[u8], j: usize) -> i64
    requires { k < 32 }
    ensures { result ≡ pick_in numbers.now k rs.now j }
{
    if rs.len() <= j {
        return 0;
    }
    numbers[32 * k + layout::wide(rs[j])]
}

/// Makes a vector of the integers of the registers at the place `v`.
fn fill(
    bytes: &mut [u8; 2632],
    numbers: &mut [i64; 2129],
    counts: &[u16; 800],
    k: usize,
    v: usize,
    rs: &[u8],
)
    requires { (k < 32) × (v < 64) × Small rs.now × (length rs.now < 256) × Ready bytes.old numbers.old counts.now }
    ensures { Leaves bytes.new numbers.new counts.now (vector_made bytes.old numbers.old k v rs.now) }
{
    for j in 0..16 {
        numbers[1024 + 16 * v + j] = pick(numbers, k, rs, j);
    }
    bytes[2560 + v] = rs.len() as u8;
}

/// VEC d rs, of a run that may have `most` vectors.
/// Requires `Ready` counts and a live frame: the loop keeps both, and to count again would cost each step.
pub fn vec(
    bytes: &mut [u8; 2632],
    numbers: &mut [i64; 2129],
    counts: &mut [u16; 800],
    k: usize,
    d: u8,
    rs: &[u8],
    most: u8,
) -> Did
    requires { Ready bytes.old numbers.old counts.old × Live bytes.old k × (length rs.now < 256) }
    ensures { ExecutesWith most result bytes.old numbers.old bytes.new numbers.new counts.new k (VEC d rs.now) }
{
    if all_integers(bytes, numbers, k, rs) {
        let Some(w) = heap::free_vector(counts, most) else {
            return Did::Stop(Halt::Vectors);
        };
        if 16 <= d {
            return Did::Stuck;
        }
        fill(bytes, numbers, counts, k, w, rs);
        cells::assign_vector(bytes, numbers, counts, k, d, w as u8)
    } else {
        Did::Stuck
    }
}

// ---- calls

/// What is called, and the register of the caller that its value goes to.
#[derive(Clone, Copy)]
pub struct Callee {
    pub d: u8,
    pub function: u8,
    pub version: u8,
}

/// Copies the registers of the frame `k` to those of the frame `to`, from 0 on.
fn pass(
    bytes: &mut [u8; 2632],
    numbers: &mut [i64; 2129],
    counts: &mut [u16; 800],
    k: usize,
    to: usize,
    rs: &[u8],
)
    requires { Ready bytes.old numbers.old counts.old × (k < to) × Live bytes.old to × Small rs.now }
    ensures { Leaves bytes.new numbers.new counts.new (passed_on bytes.old numbers.old k to rs.now) }
{
    for i in 0..16 {
        if rs.len() <= i {
            return;
        }
        let e = layout::wide(rs[i]);
        cells::assign_cell(bytes, numbers, counts, to, i as u8, k, e);
    }
}

/// Empties the registers of the frame `k` whose bits are set in the mask.
fn empty(
    bytes: &mut [u8; 2632],
    numbers: &[i64; 2129],
    counts: &mut [u16; 800],
    k: usize,
    owned: u8,
    rs: &[u8],
)
    requires { Ready bytes.old numbers.now counts.old × Live bytes.old k × Small rs.now }
    ensures { Empties bytes.old numbers.now bytes.new counts.new k owned rs.now }
{
    let mut m = owned;
    let mut i: usize = 0;
    while m != 0 {
        if rs.len() <= i {
            return;
        }
        if m % 2 == 1 {
            cells::assign_empty(bytes, numbers, counts, k, rs[i]);
            m = m / 2;
            i += 1;
        } else {
            m = m / 2;
            i += 1;
        }
    }
}

/// Opens the frame of a call, whose arguments are the registers `rs` of the frame `k`; bit i of `owned` is set where argument i goes to an
/// owned parameter. DEEP: there are 32 activations.
/// Requires `Ready` counts, a live frame and arguments that are there: the loop and `choose` keep them, and a test would cost each call.
pub fn enter(
    bytes: &mut [u8; 2632],
    numbers: &mut [i64; 2129],
    counts: &mut [u16; 800],
    k: usize,
    callee: Callee,
    owned: u8,
    rs: &[u8],
) -> Did
    requires { Ready bytes.old numbers.old counts.old × Live bytes.old k × AllFull bytes.old numbers.old k rs.now }
    ensures { Enters result bytes.old numbers.old bytes.new numbers.new counts.new k callee owned rs.now }
{
    if 32 <= bytes[2625] {
        return Did::Stop(Halt::Deep);
    }
    let calls = bytes[2624];
    if 32 <= calls {
        return Did::Stuck;
    }
    stack::push(
        bytes,
        numbers,
        counts,
        Activation {
            opener: Opener::Call,
            d: callee.d,
            frame: calls,
            block: 0,
            next: 0,
        },
    );
    frames::open(bytes, numbers, counts, callee.function, callee.version);
    pass(bytes, numbers, counts, k, layout::wide(calls), rs);
    empty(bytes, numbers, counts, k, owned, rs);
    Did::On
}
