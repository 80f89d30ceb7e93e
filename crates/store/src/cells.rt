//! Cells of frames: registers and names.
//! What is required: see the crate.
ghost use Rattle.std.specs.Prelude.{◌≡◌, ◌<◌, ◌+◌, ◌*◌, length};
ghost use Rattle.machine.specs.States.{register, integer, vector, promise, value, plain, name, an_integer, a_vector, a_promise, assign, store};
ghost use Rattle.machine.specs.Frames.{read_of};
ghost use Rattle.machine.specs.declared.Value.{Value};
ghost use Rattle.store.specs.Answers.{whole_of, found_of};
ghost use Rattle.store.specs.Store.{◌#◌, value_of, cell_in, frame_in, Live};
ghost use Rattle.store.specs.Counts.{Byte, Covers, Few, Ready, Recounts, fewer, more};
ghost use Rattle.store.specs.Acts.{Acts, AssignsCell, AssignsFrom, Narrow, Sets, StoresCell, StoresFrom};

use crate::{Did, Halt};
use machine::Value;

// ---- reading

/// The byte, which is below 256.
fn small(x: u8) -> u8
    ensures { (result ≡ x) × (result < 256) }
{
    x
}

/// What the cell `c` of the frame `k` holds.
pub fn cell(bytes: &[u8; 2632], numbers: &[i64; 2129], k: usize, c: usize) -> Value
    requires { (k < 32) × (c < 24) }
    ensures { (result ≡ cell_in bytes.now numbers.now k c) × Byte result }
{
    match bytes[32 * k + c] {
        1 => Value::Integer(numbers[32 * k + c]),
        2 => Value::Vector(small(bytes[1024 + 32 * k + c])),
        3 => Value::Promise(small(bytes[1024 + 32 * k + c])),
        _ => Value::Empty,
    }
}

/// What the register `r` of the frame `k` holds.
fn register(bytes: &[u8; 2632], numbers: &[i64; 2129], k: usize, r: u8) -> Option<Value>
    requires { k < 32 }
    ensures { result ≡ read_of (register (frame_in bytes.now numbers.now k) r) }
{
    let c = r as usize;
    if c < 16 {
        let v = cell(bytes, numbers, k, c);
        Some(v)
    } else {
        None
    }
}

/// The integer in the register `r` of the frame `k`.
pub fn integer(bytes: &[u8; 2632], numbers: &[i64; 2129], k: usize, r: u8) -> Option<i64>
    requires { k < 32 }
    ensures { whole_of result ≡ integer (frame_in bytes.now numbers.now k) r }
{
    whole(register(bytes, numbers, k, r)?)
}

/// The integer that a value is.
fn whole(v: Value) -> Option<i64>
    ensures { whole_of result ≡ an_integer v }
{
    match v {
        Value::Empty => None,
        Value::Integer(z) => Some(z),
        Value::Vector(_) => None,
        Value::Promise(_) => None,
    }
}

/// The vector in the register `r` of the frame `k`.
pub fn vector(bytes: &[u8; 2632], numbers: &[i64; 2129], k: usize, r: u8) -> Option<usize>
    requires { k < 32 }
    ensures { (found_of result ≡ vector (frame_in bytes.now numbers.now k) r) × Narrow result }
{
    vector_of(register(bytes, numbers, k, r)?)
}

/// The place of the vector that a value is.
fn vector_of(v: Value) -> Option<usize>
    ensures { (found_of result ≡ a_vector v) × Narrow result }
{
    match v {
        Value::Empty => None,
        Value::Integer(_) => None,
        Value::Vector(p) => Some(p as usize),
        Value::Promise(_) => None,
    }
}

/// The promise in the register `r` of the frame `k`.
pub fn promise(bytes: &[u8; 2632], numbers: &[i64; 2129], k: usize, r: u8) -> Option<usize>
    requires { k < 32 }
    ensures { (found_of result ≡ promise (frame_in bytes.now numbers.now k) r) × Narrow result }
{
    promise_of(register(bytes, numbers, k, r)?)
}

/// The place of the promise that a value is.
fn promise_of(v: Value) -> Option<usize>
    ensures { (found_of result ≡ a_promise v) × Narrow result }
{
    match v {
        Value::Empty => None,
        Value::Integer(_) => None,
        Value::Vector(_) => None,
        Value::Promise(p) => Some(p as usize),
    }
}

// ---- counting

/// Takes what the cell holds out of the counts.
pub fn release(
    bytes: &[u8; 2632],
    numbers: &[i64; 2129],
    counts: &mut [u16; 800],
    k: usize,
    c: usize,
)
    requires { (k < 32) × (c < 24) × Covers counts.old k (cell_in bytes.now numbers.now k c) × (length counts.old ≡ 800) }
    ensures { Recounts fewer bytes.now numbers.now counts.old counts.new k c }
{
    match cell(bytes, numbers, k, c) {
        Value::Empty => {}
        Value::Integer(_) => {}
        Value::Vector(p) => {
            counts[p as usize] -= 1;
            counts[768 + k] -= 1;
        }
        Value::Promise(p) => {
            counts[256 + p as usize] -= 1;
            counts[768 + k] -= 1;
        }
    }
}

/// Adds what the cell holds to the counts.
pub fn retain(
    bytes: &[u8; 2632],
    numbers: &[i64; 2129],
    counts: &mut [u16; 800],
    k: usize,
    c: usize,
)
    requires { (k < 32) × (c < 24) × Few counts.old × (length counts.old ≡ 800) }
    ensures { Recounts more bytes.now numbers.now counts.old counts.new k c }
{
    match cell(bytes, numbers, k, c) {
        Value::Empty => {}
        Value::Integer(_) => {}
        Value::Vector(p) => {
            counts[p as usize] += 1;
            counts[768 + k] += 1;
        }
        Value::Promise(p) => {
            counts[256 + p as usize] += 1;
            counts[768 + k] += 1;
        }
    }
}

// ---- writing a cell

/// Puts the cell to the integer.
fn put_integer(
    bytes: &mut [u8; 2632],
    numbers: &mut [i64; 2129],
    counts: &mut [u16; 800],
    k: usize,
    c: usize,
    z: i64,
)
    requires { Ready bytes.old numbers.old counts.old × Live bytes.old k × (c < 24) }
    ensures { Sets bytes.old numbers.old bytes.new numbers.new counts.new k c (Value.Integer z) }
{
    if bytes[32 * k + c] == 1 {
        numbers[32 * k + c] = z;
        return;
    }
    release(bytes, numbers, counts, k, c);
    bytes[32 * k + c] = 1;
    numbers[32 * k + c] = z;
}

/// Puts the cell to what the tag `t`, which is not that of an integer, and the place `p` stand for.
fn put_place(
    bytes: &mut [u8; 2632],
    numbers: &[i64; 2129],
    counts: &mut [u16; 800],
    k: usize,
    c: usize,
    t: u8,
    p: u8,
)
    requires { Ready bytes.old numbers.now counts.old × Live bytes.old k × (c < 24) }
    ensures { Sets bytes.old numbers.now bytes.new numbers.now counts.new k c
        (value_of t p (numbers.now # (32 * k + c))) }
{
    release(bytes, numbers, counts, k, c);
    bytes[32 * k + c] = t;
    bytes[1024 + 32 * k + c] = p;
    retain(bytes, numbers, counts, k, c);
}

/// Puts the cell `c` of the frame `k` to what the cell `e` of the frame `j` holds.
fn put_copy(
    bytes: &mut [u8; 2632],
    numbers: &mut [i64; 2129],
    counts: &mut [u16; 800],
    k: usize,
    c: usize,
    j: usize,
    e: usize,
)
    requires { Ready bytes.old numbers.old counts.old × Live bytes.old k × (c < 24) × (j < 32) × (e < 24) }
    ensures { Sets bytes.old numbers.old bytes.new numbers.new counts.new k c
        (cell_in bytes.old numbers.old j e) }
{
    let t = bytes[32 * j + e];
    if t == 1 {
        let z = numbers[32 * j + e];
        put_integer(bytes, numbers, counts, k, c, z);
        return;
    }
    let p = bytes[1024 + 32 * j + e];
    put_place(bytes, numbers, counts, k, c, t, p);
}

// ---- registers

/// Gives the register `d` of the frame `k` the integer.
pub fn assign_integer(
    bytes: &mut [u8; 2632],
    numbers: &mut [i64; 2129],
    counts: &mut [u16; 800],
    k: usize,
    d: u8,
    z: i64,
) -> Did
    requires { Ready bytes.old numbers.old counts.old × Live bytes.old k }
    ensures { Acts result bytes.old numbers.old bytes.new numbers.new counts.new (λ s. assign s k d (Value.Integer z)) }
{
    let c = d as usize;
    if c < 16 {
        put_integer(bytes, numbers, counts, k, c, z);
        Did::On
    } else {
        Did::Stuck
    }
}

/// Empties the register `d` of the frame `k`.
pub fn assign_empty(
    bytes: &mut [u8; 2632],
    numbers: &[i64; 2129],
    counts: &mut [u16; 800],
    k: usize,
    d: u8,
) -> Did
    requires { Ready bytes.old numbers.now counts.old × Live bytes.old k }
    ensures { Acts result bytes.old numbers.now bytes.new numbers.now counts.new (λ s. assign s k d Value.Empty) }
{
    let c = d as usize;
    if c < 16 {
        put_place(bytes, numbers, counts, k, c, 0, 0);
        Did::On
    } else {
        Did::Stuck
    }
}

/// Gives the register `d` of the frame `k` the vector `v`.
pub fn assign_vector(
    bytes: &mut [u8; 2632],
    numbers: &[i64; 2129],
    counts: &mut [u16; 800],
    k: usize,
    d: u8,
    v: u8,
) -> Did
    requires { Ready bytes.old numbers.now counts.old × Live bytes.old k }
    ensures { Acts result bytes.old numbers.now bytes.new numbers.now counts.new (λ s. assign s k d (Value.Vector v)) }
{
    let c = d as usize;
    if c < 16 {
        put_place(bytes, numbers, counts, k, c, 2, v);
        Did::On
    } else {
        Did::Stuck
    }
}

/// Gives the register `d` of the frame `k` the promise `p`.
pub fn assign_promise(
    bytes: &mut [u8; 2632],
    numbers: &[i64; 2129],
    counts: &mut [u16; 800],
    k: usize,
    d: u8,
    p: u8,
) -> Did
    requires { Ready bytes.old numbers.now counts.old × Live bytes.old k }
    ensures { Acts result bytes.old numbers.now bytes.new numbers.now counts.new (λ s. assign s k d (Value.Promise p)) }
{
    let c = d as usize;
    if c < 16 {
        put_place(bytes, numbers, counts, k, c, 3, p);
        Did::On
    } else {
        Did::Stuck
    }
}

/// Gives the register `d` of the frame `k` what the cell `e` of the frame `j` holds.
pub fn assign_cell(
    bytes: &mut [u8; 2632],
    numbers: &mut [i64; 2129],
    counts: &mut [u16; 800],
    k: usize,
    d: u8,
    j: usize,
    e: usize,
) -> Did
    requires { Ready bytes.old numbers.old counts.old × Live bytes.old k × (j < 32) × (e < 24) }
    ensures { AssignsCell result bytes.old numbers.old bytes.new numbers.new counts.new k d j e }
{
    let c = d as usize;
    if c < 16 {
        put_copy(bytes, numbers, counts, k, c, j, e);
        Did::On
    } else {
        Did::Stuck
    }
}

/// Gives the register `d` of the frame `k` what its register `a` holds, which is not empty.
pub fn assign_register(
    bytes: &mut [u8; 2632],
    numbers: &mut [i64; 2129],
    counts: &mut [u16; 800],
    k: usize,
    d: u8,
    a: u8,
) -> Did
    requires { Ready bytes.old numbers.old counts.old × Live bytes.old k }
    ensures { AssignsFrom result bytes.old numbers.old bytes.new numbers.new counts.new k d k (λ f. value f a) }
{
    let e = a as usize;
    if 16 <= e {
        return Did::Stuck;
    }
    match cell(bytes, numbers, k, e) {
        Value::Empty => Did::Stuck,
        Value::Integer(z) => assign_integer(bytes, numbers, counts, k, d, z),
        Value::Vector(_) => assign_cell(bytes, numbers, counts, k, d, k, e),
        Value::Promise(_) => assign_cell(bytes, numbers, counts, k, d, k, e),
    }
}

/// Gives the register `d` of the frame `k` what the name `x` of the frame `j` holds. UNDEF: it is not set.
pub fn assign_name(
    bytes: &mut [u8; 2632],
    numbers: &mut [i64; 2129],
    counts: &mut [u16; 800],
    k: usize,
    d: u8,
    j: usize,
    x: u8,
) -> Did
    requires { Ready bytes.old numbers.old counts.old × Live bytes.old k × (j < 32) }
    ensures { AssignsFrom result bytes.old numbers.old bytes.new numbers.new counts.new k d j (λ f. name f x) }
{
    let e = x as usize;
    if 8 <= e {
        return Did::Stuck;
    }
    match cell(bytes, numbers, j, 16 + e) {
        Value::Empty => Did::Stop(Halt::Undef),
        Value::Integer(z) => assign_integer(bytes, numbers, counts, k, d, z),
        Value::Vector(_) => assign_cell(bytes, numbers, counts, k, d, j, 16 + e),
        Value::Promise(_) => Did::Stuck,
    }
}

// ---- names

/// Gives the name `x` of the frame `j` the integer.
fn store_integer(
    bytes: &mut [u8; 2632],
    numbers: &mut [i64; 2129],
    counts: &mut [u16; 800],
    j: usize,
    x: u8,
    z: i64,
) -> Did
    requires { Ready bytes.old numbers.old counts.old × Live bytes.old j }
    ensures { Acts result bytes.old numbers.old bytes.new numbers.new counts.new (λ s. store s j x (Value.Integer z)) }
{
    let c = x as usize;
    if c < 8 {
        put_integer(bytes, numbers, counts, j, 16 + c, z);
        Did::On
    } else {
        Did::Stuck
    }
}

/// Gives the name `x` of the frame `j` what the cell `e` of the frame `k` holds.
fn store_cell(
    bytes: &mut [u8; 2632],
    numbers: &mut [i64; 2129],
    counts: &mut [u16; 800],
    j: usize,
    x: u8,
    k: usize,
    e: usize,
) -> Did
    requires { Ready bytes.old numbers.old counts.old × Live bytes.old j × (k < 32) × (e < 24) }
    ensures { StoresCell result bytes.old numbers.old bytes.new numbers.new counts.new j x k e }
{
    let c = x as usize;
    if c < 8 {
        put_copy(bytes, numbers, counts, j, 16 + c, k, e);
        Did::On
    } else {
        Did::Stuck
    }
}

/// Gives the name `x` of the frame `j` what the register `a` of the frame `k` holds, which is not empty and no promise.
pub fn store_register(
    bytes: &mut [u8; 2632],
    numbers: &mut [i64; 2129],
    counts: &mut [u16; 800],
    j: usize,
    x: u8,
    k: usize,
    a: u8,
) -> Did
    requires { Ready bytes.old numbers.old counts.old × Live bytes.old j × (k < 32) }
    ensures { StoresFrom result bytes.old numbers.old bytes.new numbers.new counts.new j x k (λ f. plain f a) }
{
    let e = a as usize;
    if 16 <= e {
        return Did::Stuck;
    }
    match cell(bytes, numbers, k, e) {
        Value::Empty => Did::Stuck,
        Value::Integer(z) => store_integer(bytes, numbers, counts, j, x, z),
        Value::Vector(_) => store_cell(bytes, numbers, counts, j, x, k, e),
        Value::Promise(_) => Did::Stuck,
    }
}
