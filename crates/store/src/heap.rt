//! Vectors and promises.
//! What is required: see the crate.
ghost use Rattle.std.specs.Prelude.{◌≡◌, ◌<◌, ◌≤◌, pos, length, get_or};
ghost use Rattle.machine.specs.States.{items_of};
ghost use Rattle.store.specs.Store.{cache_of, promise_in, state_in, vector_in};
ghost use Rattle.store.specs.Counts.{Frees, FreesVector, Ready, in_use, taken};
ghost use Rattle.store.specs.Acts.{Leaves, cache_put, item_put, vector_copied, with_delay};

use machine::{Cache, Promise};

/// How many items the vector `v` has.
pub fn items(bytes: &[u8; 2632], numbers: &[i64; 2129], v: usize) -> u8
    requires { v < 64 }
    ensures { (result ≡ length (items_of (vector_in bytes.now numbers.now v))) × (result ≤ 16) }
{
    bytes[2560 + v].min(16)
}

/// The item `j` of the vector `v`.
pub fn item(bytes: &[u8; 2632], numbers: &[i64; 2129], v: usize, j: usize) -> i64
    requires { (v < 64) × (j < length (items_of (vector_in bytes.now numbers.now v))) }
    ensures { result ≡ get_or (items_of (vector_in bytes.now numbers.now v)) j (pos 0) }
{
    numbers[1024 + 16 * v + j]
}

/// Puts the item `j` of the vector `v` to `x`.
pub fn set_item(
    bytes: &[u8; 2632],
    numbers: &mut [i64; 2129],
    counts: &[u16; 800],
    v: usize,
    j: usize,
    x: i64,
)
    requires { (v < 64) × (j < 16) × Ready bytes.now numbers.old counts.now }
    ensures { Leaves bytes.now numbers.new counts.now (item_put bytes.now numbers.old v j x) }
{
    numbers[1024 + 16 * v + j] = x;
}

/// Is one of the two counts not 0?
fn is_taken(counts: &[u16; 800], i: usize, j: usize) -> bool
    requires { (i < 800) × (j < 800) }
    ensures { result ≡ taken counts.now i j }
{
    counts[i] != 0 || counts[j] != 0
}

/// The lowest of 64 places whose counts, from `a` and from `b` on, are 0.
fn free(counts: &[u16; 800], a: usize, b: usize) -> Option<usize>
    requires { (a ≤ 512) × (b ≤ 512) }
    ensures { Frees result counts.now a b }
{
    for i in 0..64 {
        if !is_taken(counts, a + i, b + i) {
            return Some(i);
        }
    }
    None
}

/// The greatest number of vectors.
const VECTORS: u8 = 64;

/// How many of the 64 counts of vectors are not 0.
pub fn in_use(counts: &[u16; 800]) -> u8
    ensures { result ≡ in_use counts.now }
{
    let mut n: u16 = 0;
    for v in 0..64 {
        n += u16::from(counts[v] != 0);
    }
    n as u8
}

/// A free place for a vector, where fewer than `most` are in use.
fn free_below(counts: &[u16; 800], most: u8) -> Option<usize>
    ensures { FreesVector result counts.now most }
{
    if most <= in_use(counts) {
        return None;
    }
    free(counts, 0, 0)
}

/// A free place for a vector of a run that may have `most`; with 64 of 64 places none need be counted.
pub fn free_vector(counts: &[u16; 800], most: u8) -> Option<usize>
    ensures { FreesVector result counts.now most }
{
    if most < VECTORS {
        return free_below(counts, most);
    }
    free(counts, 0, 0)
}

/// A free place for a promise.
pub fn free_promise(counts: &[u16; 800]) -> Option<usize>
    ensures { Frees result counts.now 256 512 }
{
    free(counts, 256, 512)
}

/// Copies the vector `v` to the place `w`.
pub fn copy_vector(
    bytes: &mut [u8; 2632],
    numbers: &mut [i64; 2129],
    counts: &[u16; 800],
    v: usize,
    w: usize,
)
    requires { (v < 64) × (w < 64) × Ready bytes.old numbers.old counts.now }
    ensures { Leaves bytes.new numbers.new counts.now (vector_copied bytes.old numbers.old v w) }
{
    for j in 0..16 {
        numbers[1024 + 16 * w + j] = numbers[1024 + 16 * v + j];
    }
    bytes[2560 + w] = bytes[2560 + v];
}

/// The promise `p`.
pub fn promise_at(bytes: &[u8; 2632], numbers: &[i64; 2129], p: usize) -> Promise
    requires { p < 64 }
    ensures { result ≡ promise_in bytes.now numbers.now p }
{
    let z = numbers[2048 + p];
    Promise {
        frame: bytes[2304 + 4 * p],
        block: bytes[2304 + 4 * p + 1],
        cache: cache(bytes[2304 + 4 * p + 2], z),
    }
}

/// What the force of a promise has left, by its byte and its number.
fn cache(c: u8, z: i64) -> Cache
    ensures { result ≡ cache_of c z }
{
    if c == 0 {
        Cache::Unforced
    } else {
        Cache::Forced(z)
    }
}

/// Makes a promise of the block in the frame at the place `p`.
pub fn make_promise(
    bytes: &mut [u8; 2632],
    numbers: &[i64; 2129],
    counts: &[u16; 800],
    p: usize,
    frame: u8,
    block: u8,
)
    requires { (p < 64) × Ready bytes.old numbers.now counts.now }
    ensures { Leaves bytes.new numbers.now counts.now (with_delay (state_in bytes.old numbers.now) p frame block) }
{
    bytes[2304 + 4 * p] = frame;
    bytes[2304 + 4 * p + 1] = block;
    bytes[2304 + 4 * p + 2] = 0;
}

/// The promise `p` has the integer.
pub fn set_cache(
    bytes: &mut [u8; 2632],
    numbers: &mut [i64; 2129],
    counts: &[u16; 800],
    p: usize,
    z: i64,
)
    requires { (p < 64) × Ready bytes.old numbers.old counts.now }
    ensures { Leaves bytes.new numbers.new counts.now (cache_put bytes.old numbers.old p z) }
{
    bytes[2304 + 4 * p + 2] = 1;
    numbers[2048 + p] = z;
}
