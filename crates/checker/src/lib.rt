//! The verdict on an image, and the text that `check` prints of it.
#![tactic(auto)]

pub mod questions;
pub mod report;

/// A refusal: the number of the question that says no, and the offset.
#[derive(Clone, Copy, Debug, PartialEq, Eq)]
pub struct Refusal {
    pub question: u8,
    pub at: usize,
}

/// The counts of registers in each set of a body.
#[derive(Clone, Copy)]
pub struct Counts {
    pub reads: u32,
    pub assigns: u32,
    pub empties: u32,
    pub captures: u32,
}

/// What a line of the text says of a version; no counts where its flow is not allowed.
#[derive(Clone, Copy)]
pub struct Line {
    pub function: usize,
    pub version: usize,
    pub counts: Option<Counts>,
}
