//! 02, request 8: steps, budgets, changes and steps back of a state whose start is kept. The arrays of both and what lies behind are lent.
ghost use Rattle.std.specs.Prelude.{List, ℕ, ℤ};
ghost use Rattle.loaded.specs.Loaded.{program_in};
ghost use Rattle.abi.specs.Held.{stored};
ghost use Rattle.abi.specs.Trails.{AnswersOn, BacksOn, ChangesOn, StepsOn, kept};

use crate::answers::{FirAnswer, FirEntry, FirSaid};
use crate::{answers, parts};
use machine::Vector;

/// The question to the lent buffer.
const BUFFER: u8 = 13;

/// A single step, whatever the start is.
pub fn step<'s>(
    image: &[u8],
    table: &[u8],
    bytes: &'s mut [u8; 2632],
    numbers: &'s mut [i64; 2129],
    steps: &'s mut u32,
    past: &'s mut u8,
) -> FirSaid
    ensures { (b₀ : List ℕ) (n₀ : List ℤ) → StepsOn result (program_in image.now table.now)
        (stored bytes.old numbers.old) (kept b₀ n₀ steps.old past.old)
        (stored bytes.new numbers.new) (kept b₀ n₀ steps.new past.new) }
{
    let pause = trails::step(image, table, bytes, numbers, steps, past);
    parts::said(pause, bytes, numbers)
}

/// At most `budget` steps, after question 13 to the lent buffer, whatever the start is.
pub fn budget<'s>(
    image: &[u8],
    table: &[u8],
    budget: u32,
    buffer: &mut [i64],
    bytes: &'s mut [u8; 2632],
    numbers: &'s mut [i64; 2129],
    steps: &'s mut u32,
    past: &'s mut u8,
) -> FirAnswer
    ensures { (b₀ : List ℕ) (n₀ : List ℤ) → AnswersOn result (program_in image.now table.now) budget
        (stored bytes.old numbers.old) (kept b₀ n₀ steps.old past.old)
        (stored bytes.new numbers.new) (kept b₀ n₀ steps.new past.new)
        buffer.old buffer.new }
{
    if buffer.len() < Vector::ITEMS {
        return answers::refused(BUFFER, 0);
    }
    let counted = trails::resume(image, table, bytes, numbers, steps, past, budget);
    parts::answered(counted, bytes, numbers, buffer)
}

/// Whether the state goes on under the new image: then it is a new start.
pub fn change<'s, 't>(
    old: &[u8],
    new: &[u8],
    bytes: &'s [u8; 2632],
    numbers: &'s [i64; 2129],
    bytes0: &'t mut [u8; 2632],
    numbers0: &'t mut [i64; 2129],
    steps: &'t mut u32,
    past: &'t mut u8,
) -> FirEntry
    ensures { ChangesOn result old.now new.now (stored bytes.now numbers.now)
        (kept bytes0.old numbers0.old steps.old past.old)
        (kept bytes0.new numbers0.new steps.new past.new) }
{
    answers::grant(trails::change(old, new, bytes, numbers, bytes0, numbers0, steps, past))
}

/// A step back, or 20 where none lies behind.
pub fn back<'s>(
    image: &[u8],
    table: &[u8],
    bytes: &'s mut [u8; 2632],
    numbers: &'s mut [i64; 2129],
    bytes0: &'s [u8; 2632],
    numbers0: &'s [i64; 2129],
    steps: &'s mut u32,
    past: &'s u8,
) -> FirEntry
    ensures { BacksOn result (program_in image.now table.now)
        (stored bytes.old numbers.old) (kept bytes0.now numbers0.now steps.old past.now)
        (stored bytes.new numbers.new) (kept bytes0.now numbers0.now steps.new past.now) }
{
    answers::grant(trails::back(image, table, bytes, numbers, bytes0, numbers0, steps, past))
}
