//! Type bytes, and questions 6, 8, 18 and 9.
#![tactic(auto)]

mod arguments;
mod fits;
pub mod question18;
pub mod question6;
pub mod question8;
pub mod question9;
mod registers;
pub mod types;

/// Where the arguments of a call stand: `n` types in the record at `place` from the field `types` on, and as many registers
/// in the call's own record from the field `registers` on, each `step` behind the one before.
#[derive(Clone, Copy)]
pub struct Call {
    pub place: usize,
    pub types: usize,
    pub registers: usize,
    pub step: usize,
    pub n: usize,
}
