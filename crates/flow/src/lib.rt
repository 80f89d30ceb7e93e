//! Flow: actions of instructions, blocks and versions, and question 10.
#![tactic(auto)]

mod actions;
pub mod body;
mod instructions;
pub mod question10;
mod walk;
mod ways;

/// An action: the registers read before they are assigned, assigned, emptied and captured, a mask for each.
#[derive(Clone, Copy)]
pub struct Action {
    pub reads: u16,
    pub assigns: u16,
    pub empties: u16,
    pub captures: u16,
}
