//! Steps of a run under a budget, over a loaded image and the two arrays of a state.
//! `bytes` and `numbers` are the state; `counts` says what refers to its vectors and promises.
#![tactic(auto)]

ghost use Rattle.std.specs.Prelude.{◌≡◌, ◌<◌, ◌≤◌};
ghost use Rattle.layout.specs.Records.{◌!◌};
ghost use Rattle.loaded.specs.Loaded.{program_in};
ghost use Rattle.matching.specs.Choosing.{Cached};
ghost use Rattle.machine.specs.Runs.{last_step};
ghost use Rattle.store.specs.Answers.{end_of};
ghost use Rattle.store.specs.Counts.{Ready};
ghost use Rattle.store.specs.Store.{STATUS, Sized};
ghost use Rattle.running.specs.Budgets.{Keeps, Ran, Resumes, ResumesWith, Standing, Steps, StepsWith};

use store::Halt;
use turning::{Spot, Turn};

/// The greatest number of vectors.
const VECTORS: u8 = 64;

/// How many steps a run may take, and how many vectors it may have meanwhile.
#[derive(Clone, Copy)]
pub struct Budget {
    pub steps: u32,
    pub vectors: u8,
}

/// How a budget pauses: it is used up, the run has ended, or it is stuck.
#[derive(Clone, Copy)]
pub enum Pause {
    Steps,
    Ended,
    Stuck,
}

/// How a budget pauses, and the steps that were taken under it.
#[derive(Clone, Copy)]
pub struct Counted {
    pub pause: Pause,
    pub steps: u32,
}

/// The steps that a halt adds: UNDEF one, DEEP, VECTORS and PROMISES none.
fn last_step(halt: Halt) -> u32
    ensures { (result ≡ last_step (end_of halt)) × (result ≤ 1) }
{
    match halt {
        Halt::Undef => 1,
        Halt::Deep => 0,
        Halt::Vectors => 0,
        Halt::Promises => 0,
    }
}

/// Puts the activation on top where the spot says, unless the run stands nowhere.
fn keep(bytes: &mut [u8; 2632], spot: Spot)
    requires { 0 < spot.last → Standing bytes.old spot }
    ensures { Keeps bytes.old bytes.new spot }
{
    if spot.last != 0 {
        turning::store_next(bytes, spot, 0);
    }
}

/// Steps of the run of the state, at most `budget`.
fn go(
    image: &[u8],
    table: &[u8],
    bytes: &mut [u8; 2632],
    numbers: &mut [i64; 2129],
    counts: &mut [u16; 800],
    cache: &mut [u16; 256],
    budget: Budget,
) -> Counted
    requires { Ready bytes.old numbers.old counts.old × Cached image.now table.now cache.old × (bytes.old ! STATUS ≡ 0) }
    ensures { Ran result image.now table.now bytes.old numbers.old bytes.new numbers.new budget.vectors
        budget.steps }
{
    let most = budget.vectors;
    let steps = budget.steps;
    let start = turning::locate(image, table, bytes, most);
    let mut frame = start.frame;
    let mut block = start.block;
    let mut next = start.next;
    let mut last = start.last;
    for taken in 0..steps {
        let spot = Spot {
            frame: frame,
            block: block,
            next: next,
            last: last,
            most: most,
        };
        match turning::advance(image, table, bytes, numbers, counts, cache, spot) {
            Turn::On => next += 1,
            Turn::Over(m) => next = next + 1 + m,
            Turn::Moved => {
                let to = turning::locate(image, table, bytes, most);
                frame = to.frame;
                block = to.block;
                next = to.next;
                last = to.last;
            }
            Turn::Done => {
                return Counted {
                    pause: Pause::Ended,
                    steps: taken + 1,
                };
            }
            Turn::Stuck => {
                keep(bytes, spot);
                return Counted {
                    pause: Pause::Stuck,
                    steps: taken,
                };
            }
            Turn::Stop(h) => {
                keep(bytes, spot);
                ending::stop_run(bytes, numbers, h);
                return Counted {
                    pause: Pause::Ended,
                    steps: taken + last_step(h),
                };
            }
            Turn::Rest => {
                return Counted {
                    pause: Pause::Stuck,
                    steps: taken,
                };
            }
        }
    }
    let end = Spot {
        frame: frame,
        block: block,
        next: next,
        last: last,
        most: most,
    };
    keep(bytes, end);
    Counted {
        pause: Pause::Steps,
        steps: steps,
    }
}

/// Goes on with a run that has not ended, at most `budget` steps.
fn runs(
    image: &[u8],
    table: &[u8],
    bytes: &mut [u8; 2632],
    numbers: &mut [i64; 2129],
    budget: Budget,
) -> Counted
    requires { (bytes.old ! STATUS ≡ 0) × Sized bytes.old numbers.old }
    ensures { Ran result image.now table.now bytes.old numbers.old bytes.new numbers.new budget.vectors
        budget.steps }
{
    let mut counts = [0u16; 800];
    let mut cache = [0u16; 256];
    frames::tally(bytes, numbers, &mut counts);
    go(
        image,
        table,
        bytes,
        numbers,
        &mut counts,
        &mut cache,
        budget,
    )
}

/// Goes on with the run of the state, at most as many steps and with at most as many vectors as the budget says.
pub fn resume_within(
    image: &[u8],
    table: &[u8],
    bytes: &mut [u8; 2632],
    numbers: &mut [i64; 2129],
    budget: Budget,
) -> Counted
    ensures { ResumesWith budget.vectors result (program_in image.now table.now) bytes.old numbers.old bytes.new
        numbers.new
        budget.steps }
{
    store::byte_count(bytes);
    store::number_count(numbers);
    if bytes[2626] != 0 {
        return Counted {
            pause: Pause::Ended,
            steps: 0,
        };
    }
    runs(image, table, bytes, numbers, budget)
}

/// Goes on with the run of the state, at most `budget` steps.
pub fn resume(
    image: &[u8],
    table: &[u8],
    bytes: &mut [u8; 2632],
    numbers: &mut [i64; 2129],
    budget: u32,
) -> Counted
    ensures { Resumes result (program_in image.now table.now) bytes.old numbers.old bytes.new numbers.new budget }
{
    let all = Budget {
        steps: budget,
        vectors: VECTORS,
    };
    resume_within(image, table, bytes, numbers, all)
}

/// A single step of the run of the state, which may have `most` vectors.
pub fn step_within(
    image: &[u8],
    table: &[u8],
    bytes: &mut [u8; 2632],
    numbers: &mut [i64; 2129],
    most: u8,
) -> Pause
    ensures { StepsWith most result (program_in image.now table.now) bytes.old numbers.old bytes.new numbers.new }
{
    let one = Budget {
        steps: 1,
        vectors: most,
    };
    let r = resume_within(image, table, bytes, numbers, one);
    r.pause
}

/// A single step of the run of the state.
pub fn step(image: &[u8], table: &[u8], bytes: &mut [u8; 2632], numbers: &mut [i64; 2129]) -> Pause
    ensures { Steps result (program_in image.now table.now) bytes.old numbers.old bytes.new numbers.new }
{
    step_within(image, table, bytes, numbers, VECTORS)
}
