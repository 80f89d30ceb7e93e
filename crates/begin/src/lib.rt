//! Beginning a run of a loaded image: 11, 19, 12 and 13 of the program that image and table stand for, and the state before its first step.
//! Any image and any table have an answer. All is asked before anything is written.
#![tactic(auto)]

ghost use Rattle.std.specs.Prelude.{List, ◌≡◌, ℕ, ◌+◌, ◌<◌, ◌≤◌, ◌/◌, ◌%◌, leb, drop, length, take};
ghost use Rattle.std.proofs.Math.Option.{bind, some};
ghost use Rattle.program.specs.Program.{parameter_types};
ghost use Rattle.rules.specs.Types.{kind_of, within};
ghost use Rattle.machine.specs.States.{ITEMS};
ghost use Rattle.machine.specs.Begin.{Given, arguments, entered_of, first, matched, run_level};
ghost use Rattle.loaded.specs.Loaded.{program_in, version_in};
ghost use Rattle.begin.specs.Arguments.{argument_of, is_given, kind};
ghost use Rattle.begin.specs.Arrays.{bytes_with, first_bytes, first_numbers, integer_bytes, integer_numbers, item_numbers, length_bytes, numbers_with, vector_bytes};
ghost use Rattle.begin.specs.Asking.{Allows, Asks, Begins};

use layout::bounds;
use loaded::lookup;
use machine::{Denial, Vector};
use typing::types;

/// What a run enters, and at which level.
#[derive(Clone, Copy)]
pub struct Entrance {
    pub level: usize,
    pub function: usize,
    pub version: usize,
}

/// An argument: an integer, or a vector with its number of items.
#[derive(Clone, Copy)]
enum Argument {
    Integer(i64),
    Vector(usize),
}

/// How many registers a frame has, and how many vectors a state.
const REGISTERS: usize = 16;

const VECTORS: usize = 64;

/// The tags of an integer and of a vector.
const INTEGER: u8 = 1;

const VECTOR: u8 = 2;

/// Where the function and the version of the first frame stand, the places of its cells, the lengths of vectors, the numbers of live calls and activations.
const FUNCTION: usize = 24;

const VERSION: usize = 25;

const PLACES: usize = 1024;

const LENGTHS: usize = 2560;

const CALLS: usize = 2624;

const DEPTH: usize = 2625;

/// Where the items of vectors stand among the numbers.
const ITEM: usize = 1024;

// ---- the arguments

/// The argument that begins at the word `p`, if there is one.
fn given(words: &[i64], p: usize) -> Option<Argument>
    ensures { result ≡ argument_of (first (drop p words.now)) }
{
    if words.len() <= p {
        return None;
    }
    let left = words.len() - p - 1;
    let w = words[p];
    if w == -1 {
        if left == 0 {
            return None;
        }
        return Some(Argument::Integer(words[p + 1]));
    }
    if w < 0 {
        return None;
    }
    let n = w as usize;
    if Vector::ITEMS < n {
        return None;
    }
    if left < n {
        return None;
    }
    Some(Argument::Vector(n))
}

/// Does the argument match a parameter of type `t`?
fn is_of(argument: Argument, t: usize) -> bool
    ensures { result ≡ within (kind argument) (kind_of t) }
{
    match argument {
        Argument::Integer(_) => types::is_within(types::INTEGER, t % 16),
        Argument::Vector(_) => types::is_within(types::VECTOR, t % 16),
    }
}

/// The argument that begins at the word `p` for a parameter of type `t`, if there is one that matches.
fn matching(words: &[i64], p: usize, t: usize) -> Option<Argument>
    ensures { result ≡ argument_of (bind (first (drop p words.now)) (matched t)) }
{
    let argument = given(words, p)?;
    if is_of(argument, t) {
        Some(argument)
    } else {
        None
    }
}

/// How many parameters the version under the number `k` has that are registers too.
fn parameters(image: &[u8], table: &[u8], k: u8) -> usize
    ensures { (result ≡ length (parameter_types (version_in image.now table.now k))) × (result < 256) }
{
    let stated = lookup::parameters(image, table, k);
    let declared = lookup::registers(image, table, k);
    if stated < declared {
        stated as usize
    } else {
        declared as usize
    }
}

/// Do the words make an argument for each parameter of the version under the number `k`, with no word left over?
fn fits(image: &[u8], table: &[u8], k: u8, words: &[i64]) -> bool
    ensures { result ≡ is_given (arguments (parameter_types (version_in image.now table.now k)) words.now) }
{
    let n = parameters(image, table, k);
    let mut p: usize = 0;
    for i in 0..n {
        let t = lookup::type_of(image, table, k, i as u8);
        let Some(argument) = matching(words, p, t as usize) else {
            return false;
        };
        match argument {
            Argument::Integer(_) => p += 2,
            Argument::Vector(m) => p += m + 1,
        }
    }
    words.len() <= p
}

// ---- the questions

/// The level of a run that states this one: above 2 it counts as 2.
fn run_level(level: usize) -> usize
    ensures { result ≡ run_level level }
{
    if level < bounds::LEVELS {
        level
    } else {
        bounds::LEVELS - 1
    }
}

/// Question 19: is the version under the number `k` not above the level of a run that states this one?
fn may_enter(image: &[u8], table: &[u8], level: usize, k: u8) -> bool
    ensures { result ≡ leb (version_in image.now table.now k).level (run_level level) }
{
    (lookup::level(image, table, k) as usize) <= run_level(level)
}

/// Questions 19, 12 and 13 to a run, at a level, of the version under the number `k`: that number, or the question that refuses it.
fn allowed(
    image: &[u8],
    table: &[u8],
    level: usize,
    k: u8,
    words: &[i64],
    buffer: &[i64],
) -> Result<u8, u8>
    ensures { Allows result k level (version_in image.now table.now k) words.now buffer.now }
{
    if !may_enter(image, table, level, k) {
        return Err(19);
    }
    if !fits(image, table, k, words) {
        return Err(12);
    }
    if buffer.len() < Vector::ITEMS {
        return Err(13);
    }
    Ok(k)
}

/// Question 11 to an entrance, then 19, 12 and 13: the number of the version that is entered, or the question that refuses it.
#[inline(never)] // its stack is given back before the state is written
fn questions(
    image: &[u8],
    table: &[u8],
    at: Entrance,
    words: &[i64],
    buffer: &[i64],
) -> Result<u8, u8>
    ensures { Asks result image.now table.now at words.now buffer.now }
{
    if bounds::FUNCTIONS <= at.function {
        return Err(11);
    }
    if bounds::VERSIONS <= at.version {
        return Err(11);
    }
    let Some(k) = lookup::version(table, at.function as u8, at.version as u8) else {
        return Err(11);
    };
    allowed(image, table, at.level, k, words, buffer)
}

// ---- the first state

/// Puts an integer into the register `i` of the first frame, where it has one.
fn put_integer(bytes: &mut [u8; 2632], numbers: &mut [i64; 2129], i: usize, z: i64)
    ensures { (bytes.new ≡ integer_bytes i bytes.old) × (numbers.new ≡ integer_numbers i z numbers.old) }
{
    if i < REGISTERS {
        bytes[i] = INTEGER;
        numbers[i] = z;
    }
}

/// Puts the vector `c` into the register `i` of the first frame, where it has one.
/// Part of `fill`: no vector stands before its register.
fn put_vector(bytes: &mut [u8; 2632], i: usize, c: usize)
    requires { c ≤ i }
    ensures { bytes.new ≡ vector_bytes i c bytes.old }
{
    if i < REGISTERS {
        bytes[i] = VECTOR;
        bytes[PLACES + i] = c as u8;
    }
}

/// Writes the `m` words from the word `p` on as the items of the vector `c`, where the state has one.
/// Part of `fill`, which found them.
fn put_items(
    bytes: &mut [u8; 2632],
    numbers: &mut [i64; 2129],
    c: usize,
    words: &[i64],
    p: usize,
    m: usize,
)
    requires { (m ≤ ITEMS) × (p + m ≤ length words.now) }
    ensures { (bytes.new ≡ length_bytes c m bytes.old)
        × (numbers.new ≡ item_numbers c (take m (drop p words.now)) numbers.old) }
{
    if VECTORS <= c {
        return;
    }
    bytes[LENGTHS + c] = m as u8;
    for j in 0..m {
        numbers[ITEM + 16 * c + j] = words[p + j];
    }
}

/// Puts the arguments that the words make into the first registers and vectors.
fn fill(words: &[i64], bytes: &mut [u8; 2632], numbers: &mut [i64; 2129])
    ensures { (ts : List ℕ) (xs : List Given) → arguments ts words.now ≡ some xs
        → (bytes.new ≡ bytes_with xs 0 0 bytes.old) × (numbers.new ≡ numbers_with xs 0 0 numbers.old) }
{
    let mut c: usize = 0;
    let mut p: usize = 0;
    let mut i: usize = 0;
    while p < words.len() {
        let Some(argument) = given(words, p) else {
            return;
        };
        match argument {
            Argument::Integer(z) => {
                put_integer(bytes, numbers, i, z);
                p += 2;
                i += 1;
            }
            Argument::Vector(m) => {
                put_vector(bytes, i, c);
                put_items(bytes, numbers, c, words, p + 1, m);
                c += 1;
                p += m + 1;
                i += 1;
            }
        }
    }
}

/// Writes the state of a run of the version under the number `k` before its first step, over whatever was there.
#[inline(never)] // its stack is given back once the state is written
fn start(k: u8, words: &[i64], bytes: &mut [u8; 2632], numbers: &mut [i64; 2129])
    ensures { (ts : List ℕ) (xs : List Given) → arguments ts words.now ≡ some xs
        → (bytes.new ≡ first_bytes (k / 4) (k % 4) xs) × (numbers.new ≡ first_numbers xs) }
{
    *bytes = [0; 2632];
    *numbers = [0; 2129];
    bytes[FUNCTION] = k / 4;
    bytes[VERSION] = k % 4;
    bytes[CALLS] = 1;
    bytes[DEPTH] = 1;
    fill(words, bytes, numbers);
}

/// Begins a run: its state before the first step, or a refusal, which writes nothing.
pub fn begin(
    image: &[u8],
    table: &[u8],
    at: Entrance,
    words: &[i64],
    buffer: &[i64],
    bytes: &mut [u8; 2632],
    numbers: &mut [i64; 2129],
) -> Result<(), Denial>
    ensures { (result ≡ (entered_of (program_in image.now table.now) at.level at.function at.version words.now buffer.now).entry)
        × Begins result (program_in image.now table.now) at words.now buffer.now
        bytes.old numbers.old bytes.new numbers.new }
{
    match questions(image, table, at, words, buffer) {
        Err(question) => Err(Denial { question, at: 0 }),
        Ok(k) => {
            start(k, words, bytes, numbers);
            Ok(())
        }
    }
}
