//! 02, request 10: what each of eight runs reserves of 64 vectors and how many each has, and what a start, a step or a budget of one of them leaves there.
//! `bytes` and `numbers` are the state of a run.
#![tactic(auto)]

ghost use Rattle.std.specs.Prelude.{◌||◌, ◌≡◌, ◌-◌, ◌≤◌, leb, get_or, set};
ghost use Rattle.machine.specs.Allowed.{vectors_in};
ghost use Rattle.machine.specs.Pools.{RUNS, allowed, larger, over_reserved};
ghost use Rattle.store.specs.Store.{state_in};
ghost use Rattle.pools.specs.Shares.{Caps, Makes, Settles, has_now, pool_of, share_of};

use machine::Denial;
use store::heap;

/// How many runs a pool has.
const RUNS: usize = 8;

/// How many vectors there are for all of them.
const VECTORS: u16 = 64;

/// The question to a pool and the number of a run.
pub const POOL: u8 = 21;

// ---- 21, and what a run may have

/// A byte as a number of 16 bits.
fn wide(x: u8) -> u16
    ensures { (result ≡ x) × (result ≤ 255) }
{
    x as u16
}

/// Do the reserves sum above 64?
fn over_reserved(reserves: &[u8; 8]) -> bool
    ensures { result ≡ over_reserved reserves.now }
{
    let mut total: u16 = 0;
    for reserve in reserves {
        total += wide(*reserve);
    }
    total > VECTORS
}

/// 21: do the reserves sum above 64, or is the number above 7?
pub fn refuses(reserves: &[u8; 8], i: usize) -> bool
    ensures { result ≡ (over_reserved reserves.now || leb RUNS i) }
{
    if over_reserved(reserves) {
        return true;
    }
    i >= RUNS
}

/// What the run `j` keeps from the run `i`: what it has, and its unused reserve; nothing from itself.
fn share(j: usize, i: usize, reserve: u8, has: u8) -> u16
    ensures { (result ≡ share_of j i reserve has) × (result ≤ 255) }
{
    if j == i {
        return 0;
    }
    if has < reserve {
        return reserve as u16;
    }
    has as u16
}

/// The reserve of the run `i`; none above 7.
fn reserve(reserves: [u8; 8], i: usize) -> u8
    ensures { result ≡ get_or reserves i 0 }
{
    if i < RUNS { reserves[i] } else { 0 }
}

/// What is left of 64.
fn left(against: u16) -> u8
    ensures { result ≡ 64 - against }
{
    if against < VECTORS {
        return (VECTORS - against) as u8;
    }
    0
}

/// The larger of two.
fn greater(m: u8, n: u8) -> u8
    ensures { result ≡ larger m n }
{
    if m <= n { n } else { m }
}

/// How many vectors the run `i` may have, by the parts of its pool: its reserve, or what the others leave of 64, whichever is larger.
fn most(reserves: [u8; 8], has: [u8; 8], i: usize) -> u8
    ensures { result ≡ allowed (pool_of reserves has) i }
{
    let mut against: u16 = 0;
    for j in 0..RUNS {
        against += share(j, i, reserves[j], has[j]);
    }
    greater(reserve(reserves, i), left(against))
}

/// How many vectors the run `i` may have.
pub fn may_have(reserves: &[u8; 8], has: &[u8; 8], i: usize) -> u8
    ensures { result ≡ allowed (pool_of reserves.now has.now) i }
{
    most(*reserves, *has, i)
}

/// Makes a pool of the given reserves, in which no number has a run; 21 leaves it as it was.
pub fn make(given: &[u8; 8], reserves: &mut [u8; 8], has: &mut [u8; 8]) -> Result<(), Denial>
    ensures { Makes result given.now reserves.old has.old reserves.new has.new }
{
    if over_reserved(given) {
        return Err(Denial {
            question: POOL,
            at: 0,
        });
    }
    *reserves = *given;
    *has = [0u8; 8];
    Ok(())
}

// ---- what a run has

/// How many vectors count in the state.
fn vectors(bytes: &[u8; 2632], numbers: &[i64; 2129]) -> u8
    ensures { result ≡ vectors_in (state_in bytes.now numbers.now) }
{
    store::byte_count(bytes);
    store::number_count(numbers);
    let mut counts = [0u16; 800];
    frames::tally(bytes, numbers, &mut counts);
    heap::in_use(&counts)
}

/// How many vectors the run of the state has: those of an ended run count for nobody.
fn held(bytes: &[u8; 2632], numbers: &[i64; 2129]) -> u8
    ensures { result ≡ has_now bytes.now numbers.now }
{
    if bytes[2626] != 0 {
        return 0;
    }
    vectors(bytes, numbers)
}

/// Notes what the run `i` has, now that it has come to the state.
pub fn note(bytes: &[u8; 2632], numbers: &[i64; 2129], has: &mut [u8; 8], i: usize)
    ensures { has.new ≡ set has.old i (has_now bytes.now numbers.now) }
{
    store::byte_count(has);
    let n = held(bytes, numbers);
    if i < RUNS {
        has[i] = n;
    }
}

/// Stops a run that has just begun with VECTORS where it needs more than `most` vectors.
fn cap(bytes: &mut [u8; 2632], numbers: &[i64; 2129], most: u8)
    ensures { Caps most bytes.old numbers.now bytes.new }
{
    store::byte_count(bytes);
    store::number_count(numbers);
    let n = vectors(bytes, numbers);
    if n <= most {
        return;
    }
    ending::stop_start(bytes, numbers);
}

/// Settles the run `i`, which has just begun in the state: one that needs more than it may have is stopped with VECTORS. What it has is noted.
pub fn settle(
    bytes: &mut [u8; 2632],
    numbers: &[i64; 2129],
    reserves: &[u8; 8],
    has: &mut [u8; 8],
    i: usize,
)
    ensures { Settles bytes.old numbers.now reserves.now has.old i bytes.new has.new }
{
    let most = may_have(reserves, has, i);
    cap(bytes, numbers, most);
    note(bytes, numbers, has, i);
}
