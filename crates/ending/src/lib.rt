//! Block ends over the two arrays of a state.
//! Its functions serve the loop of `running`; what they require, the loop keeps, and a test would cost each step.
#![tactic(auto)]

ghost use Rattle.std.specs.Prelude.{◌<◌, ◌≡◌, length};
ghost use Rattle.store.specs.Store.{Sized, state_in};
ghost use Rattle.store.specs.Counts.{Ready};
ghost use Rattle.frames.specs.Frames.{Forcing};
ghost use Rattle.machine.specs.Pools.{overfull};
ghost use Rattle.machine.specs.declared.Opener.{Opener};
ghost use Rattle.ending.specs.Ends.{BlockEnds, CallEnds, CellEnds, ForceEnds, GoesBack, Returning, Working, closed_bytes, done_integer, done_vector, stop_byte, stopped_by, top_opener};

use machine::{Opener, Value};
use store::{Halt, cells, heap, stack};

/// What the end of a block has done: its value went back, the run is done, or nothing, where it is stuck.
#[derive(Clone, Copy)]
pub enum Ended {
    Back,
    Done,
    Stuck,
}

// ---- a force

/// The force of the promise `p` ends, with the register `r` of its frame `k` as its result: the integer is cached and goes back.
fn end_force(
    bytes: &mut [u8; 2632],
    numbers: &mut [i64; 2129],
    counts: &mut [u16; 800],
    k: usize,
    r: u8,
    p: u8,
) -> Ended
    requires { Ready bytes.old numbers.old counts.old × (k < 32) × Forcing bytes.old p }
    ensures { ForceEnds result bytes.old numbers.old bytes.new numbers.new counts.new k r p }
{
    let Some(z) = cells::integer(bytes, numbers, k, r) else {
        return Ended::Stuck;
    };
    let q = layout::wide(p);
    if 64 <= q {
        return Ended::Stuck;
    }
    let depth = layout::wide(bytes[2625]);
    if depth < 2 {
        return Ended::Stuck;
    }
    let top = stack::activation(bytes, depth - 1);
    let below = stack::activation(bytes, depth - 2);
    let j = layout::wide(below.frame);
    if frames::is_live(bytes, j) {
        let d = top.d;
        if 16 <= d {
            return Ended::Stuck;
        }
        heap::set_cache(bytes, numbers, counts, q, z);
        frames::close_force(bytes, numbers, counts, p);
        cells::assign_integer(bytes, numbers, counts, j, d, z);
        Ended::Back
    } else {
        Ended::Stuck
    }
}

// ---- the end of a run

/// No call and no activation is left; the status and the length of the result are set.
fn close_run(bytes: &mut [u8; 2632], status: u8, length: u8)
    ensures { bytes.new ≡ closed_bytes bytes.old status length }
{
    bytes[2624] = 0;
    bytes[2625] = 0;
    bytes[2626] = status;
    bytes[2627] = length;
}

/// The run ends with the integer.
fn end_integer(bytes: &mut [u8; 2632], numbers: &mut [i64; 2129], z: i64)
    requires { Sized bytes.old numbers.old }
    ensures { (state_in bytes.new numbers.new ≡ done_integer bytes.old numbers.old z) × Sized bytes.new numbers.new }
{
    close_run(bytes, 1, 0);
    numbers[2128] = z;
}

/// The run ends with the vector `v`.
fn end_vector(bytes: &mut [u8; 2632], numbers: &mut [i64; 2129], v: usize)
    requires { (v < 64) × Sized bytes.old numbers.old }
    ensures { (state_in bytes.new numbers.new ≡ done_vector bytes.old numbers.old v) × Sized bytes.new numbers.new }
{
    let n = heap::items(bytes, numbers, v);
    for j in 0..16 {
        numbers[2112 + j] = numbers[1024 + 16 * v + j];
    }
    close_run(bytes, 2, n);
}

/// The run ends with what the cell `e` of the frame `k` holds.
fn end_run(bytes: &mut [u8; 2632], numbers: &mut [i64; 2129], k: usize, e: usize) -> Ended
    requires { (k < 32) × (e < 24) × Sized bytes.old numbers.old }
    ensures { CellEnds result bytes.old numbers.old bytes.new numbers.new k e }
{
    match cells::cell(bytes, numbers, k, e) {
        Value::Empty => Ended::Stuck,
        Value::Integer(z) => {
            end_integer(bytes, numbers, z);
            Ended::Done
        }
        Value::Vector(p) => {
            let v = layout::wide(p);
            if 64 <= v {
                return Ended::Stuck;
            }
            end_vector(bytes, numbers, v);
            Ended::Done
        }
        Value::Promise(_) => Ended::Stuck,
    }
}

/// The status of a run that was stopped.
fn status(halt: Halt) -> u8
    ensures { result ≡ stop_byte halt }
{
    match halt {
        Halt::Undef => 3,
        Halt::Deep => 4,
        Halt::Vectors => 5,
        Halt::Promises => 6,
    }
}

/// The run is stopped: nothing changes but that it has ended.
pub fn stop_run(bytes: &mut [u8; 2632], numbers: &[i64; 2129], halt: Halt)
    requires { Sized bytes.old numbers.now }
    ensures { (state_in bytes.new numbers.now ≡ stopped_by bytes.old numbers.now halt) × Sized bytes.new numbers.now }
{
    bytes[2626] = status(halt);
}

/// A start that needs more vectors than it may have: no call is left, and the run has ended with VECTORS.
/// Requires arrays of their lengths, which the caller has at hand.
pub fn stop_start(bytes: &mut [u8; 2632], numbers: &[i64; 2129])
    requires { Sized bytes.old numbers.now }
    ensures { (state_in bytes.new numbers.now ≡ overfull (state_in bytes.old numbers.now))
        × (bytes.new ≡ closed_bytes bytes.old 5 0) }
{
    close_run(bytes, 5, 0);
}

// ---- a call

/// What the cell `e` of the newest call's frame `k` holds goes back to the register `d` of its caller.
fn go_back(
    bytes: &mut [u8; 2632],
    numbers: &mut [i64; 2129],
    counts: &mut [u16; 800],
    k: usize,
    e: usize,
    d: u8,
) -> Ended
    requires { Ready bytes.old numbers.old counts.old × Returning bytes.old k × (e < 16) }
    ensures { GoesBack result bytes.old numbers.old bytes.new numbers.new counts.new k e d }
{
    let depth = layout::wide(bytes[2625]);
    let below = stack::activation(bytes, depth - 2);
    let j = layout::wide(below.frame);
    if k <= j {
        return Ended::Stuck;
    }
    if 16 <= d {
        return Ended::Stuck;
    }
    frames::close_call(bytes, numbers, counts);
    if bytes[32 * k + e] == 1 {
        let z = numbers[32 * k + e];
        cells::assign_integer(bytes, numbers, counts, j, d, z);
        return Ended::Back;
    }
    cells::assign_cell(bytes, numbers, counts, j, d, k, e);
    Ended::Back
}

/// The call on top ends, with the register `r` of its frame `k` as its result. `typed` tells whether that is of the type that the version returns.
fn end_call(
    bytes: &mut [u8; 2632],
    numbers: &mut [i64; 2129],
    counts: &mut [u16; 800],
    k: usize,
    r: u8,
    typed: Option<bool>,
) -> Ended
    requires { Ready bytes.old numbers.old counts.old × Working bytes.old k × (top_opener bytes.old ≡ Opener.Call) }
    ensures { CallEnds typed result bytes.old numbers.old bytes.new numbers.new counts.new k r }
{
    let Some(fits) = typed else {
        return Ended::Stuck;
    };
    if !fits {
        return Ended::Stuck;
    }
    let e = r as usize;
    if 16 <= e {
        return Ended::Stuck;
    }
    let depth = layout::wide(bytes[2625]);
    let top = stack::activation(bytes, depth - 1);
    if top.block != 0 {
        return Ended::Stuck;
    }
    if k + 1 != layout::wide(bytes[2624]) {
        return Ended::Stuck;
    }
    if depth == 1 {
        return end_run(bytes, numbers, k, e);
    }
    go_back(bytes, numbers, counts, k, e, top.d)
}

// ---- a block

/// The block of the activation on top ends, with the register `r` of its frame `k` as its result. `typed` tells of a call whether that is
/// of the type that the version returns.
pub fn end_block(
    bytes: &mut [u8; 2632],
    numbers: &mut [i64; 2129],
    counts: &mut [u16; 800],
    k: usize,
    r: u8,
    typed: Option<bool>,
) -> Ended
    requires { Ready bytes.old numbers.old counts.old × Working bytes.old k }
    ensures { BlockEnds typed result bytes.old numbers.old bytes.new numbers.new counts.new k r }
{
    let depth = layout::wide(bytes[2625]);
    let top = stack::activation(bytes, depth - 1);
    let opener = top.opener;
    match opener {
        Opener::Call => end_call(bytes, numbers, counts, k, r, typed),
        Opener::Force(p) => end_force(bytes, numbers, counts, k, r, p),
    }
}
