//! 02, request 8: a state with its start kept. `bytes` and `numbers` are the state, `bytes0` and `numbers0` the start; `steps` lie behind,
//! or none any more where `past` is not 0. A step back goes to the start and takes one step less.
#![tactic(auto)]

ghost use Rattle.std.specs.Prelude.{◌≡◌, ◌+◌};
ghost use Rattle.loaded.specs.Loaded.{program_in};
ghost use Rattle.running.specs.Budgets.{Resumes, Steps};
ghost use Rattle.trails.specs.Arrays.{Adds, Renews, Returns, Starts, steps_from};

use machine::Denial;
use running::{Counted, Pause};

/// The most steps that may lie behind.
const REACH: u64 = 4294967295;

/// The question to a step back.
const BEHIND: u8 = 20;

/// Both numbers together.
fn total(n: u32, m: u32) -> u64
    ensures { result ≡ n + m }
{
    n as u64 + m as u64
}

/// Counts `more` steps; past `REACH` none is counted any more.
fn count(steps: &mut u32, past: &mut u8, more: u32)
    ensures { Adds steps.old past.old more steps.new past.new }
{
    if *past != 0 {
        return;
    }
    let n = total(*steps, more);
    if n <= REACH {
        *steps = n as u32;
    } else {
        *past = 1;
    }
}

/// Keeps the state as a start.
pub fn start<'s, 't>(
    bytes: &'s [u8; 2632],
    numbers: &'s [i64; 2129],
    bytes0: &'t mut [u8; 2632],
    numbers0: &'t mut [i64; 2129],
    steps: &'t mut u32,
    past: &'t mut u8,
)
    ensures { Starts bytes.now numbers.now bytes0.new numbers0.new steps.new past.new }
{
    *bytes0 = *bytes;
    *numbers0 = *numbers;
    *steps = 0;
    *past = 0;
}

/// Goes on with the run of the state, at most `budget` steps, and counts them.
pub fn resume<'s>(
    image: &[u8],
    table: &[u8],
    bytes: &'s mut [u8; 2632],
    numbers: &'s mut [i64; 2129],
    steps: &'s mut u32,
    past: &'s mut u8,
    budget: u32,
) -> Counted
    ensures { Resumes result (program_in image.now table.now) bytes.old numbers.old bytes.new numbers.new budget
        × Adds steps.old past.old result.steps steps.new past.new }
{
    let counted = running::resume(image, table, bytes, numbers, budget);
    count(steps, past, counted.steps);
    counted
}

/// A single step of the run of the state, counted.
pub fn step<'s>(
    image: &[u8],
    table: &[u8],
    bytes: &'s mut [u8; 2632],
    numbers: &'s mut [i64; 2129],
    steps: &'s mut u32,
    past: &'s mut u8,
) -> Pause
    ensures { Steps result (program_in image.now table.now) bytes.old numbers.old bytes.new numbers.new
        × Adds steps.old past.old (steps_from (program_in image.now table.now) bytes.old numbers.old) steps.new
        past.new }
{
    let counted = resume(image, table, bytes, numbers, steps, past, 1);
    counted.pause
}

/// Whether the state goes on under the new image: then it is a new start.
pub fn change<'s, 't>(
    old: &[u8],
    new: &[u8],
    bytes: &'s [u8; 2632],
    numbers: &'s [i64; 2129],
    bytes0: &'t mut [u8; 2632],
    numbers0: &'t mut [i64; 2129],
    steps: &'t mut u32,
    past: &'t mut u8,
) -> Result<(), Denial>
    ensures { Renews result old.now new.now bytes.now numbers.now
        bytes0.old numbers0.old steps.old past.old
        bytes0.new numbers0.new steps.new past.new }
{
    match changes::change(old, new, bytes) {
        Ok(()) => {
            start(bytes, numbers, bytes0, numbers0, steps, past);
            Ok(())
        }
        Err(why) => Err(why),
    }
}

/// A step back: the state that one step less gives from the start, or 20 where none lies behind.
pub fn back<'s>(
    image: &[u8],
    table: &[u8],
    bytes: &'s mut [u8; 2632],
    numbers: &'s mut [i64; 2129],
    bytes0: &'s [u8; 2632],
    numbers0: &'s [i64; 2129],
    steps: &'s mut u32,
    past: &'s u8,
) -> Result<(), Denial>
    ensures { Returns result (program_in image.now table.now)
        bytes0.now numbers0.now steps.old past.now bytes.old numbers.old
        steps.new bytes.new numbers.new }
{
    if *past != 0 {
        return Err(Denial {
            question: BEHIND,
            at: 0,
        });
    }
    if *steps == 0 {
        return Err(Denial {
            question: BEHIND,
            at: 0,
        });
    }
    let n = *steps - 1;
    *steps = n;
    *bytes = *bytes0;
    *numbers = *numbers0;
    running::resume(image, table, bytes, numbers, n);
    Ok(())
}
