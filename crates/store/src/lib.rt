//! The state of a run in two lent arrays: `bytes` (tags and places of cells, the versions of frames, activations, promises, lengths of vectors, the numbers
//! of live calls and activations, the status) and `numbers` (integers of cells, items, caches, the result). `counts` says how many refer to
//! each vector and promise, how many force each promise, and how many cells of each live frame refer to one.
//! Each function says by the machine's own definitions what it does to the state that the arrays stand for.
//! What they require, the loop of `running` keeps, and a test would cost each step; `whereabouts` and `searches` ask first.
#![tactic(auto)]

ghost use Rattle.std.specs.Prelude.{◌≡◌, length};

pub mod cells;
pub mod heap;
pub mod stack;

/// What stops a step.
#[derive(Clone, Copy)]
pub enum Halt {
    Undef,
    Deep,
    Vectors,
    Promises,
}

/// What a part of a step has done: its work, or nothing, where it is stuck or stopped.
#[derive(Clone, Copy)]
pub enum Did {
    On,
    Stuck,
    Stop(Halt),
}

/// The length of a slice of bytes, which a proof learns so.
pub fn byte_count(bytes: &[u8]) -> usize
    ensures { result ≡ length bytes.now }
{
    bytes.len()
}

/// The length of a slice of numbers.
pub fn number_count(numbers: &[i64]) -> usize
    ensures { result ≡ length numbers.now }
{
    numbers.len()
}
