//! 02, 12, how long at most: which versions a version depends on, how many steps a run of it can take, and in which order they are listed.
#![tactic(auto)]

ghost use Rattle.std.specs.Prelude.{◌≡◌};
ghost use Rattle.machine.specs.Begin.{program_of};
ghost use Rattle.bounds.specs.Bounds.{report};
ghost use Rattle.bounds.specs.Rows.{bounds_of, numbers_after, steps_after, unless};

use checker::{Refusal, questions};

mod counts;
mod order;
mod signatures;

/// The least number of steps that reads "large": sums stop there.
pub const LIMIT: u64 = 4294967296;

/// What stands in place of a bound where none is given.
pub const NONE: u64 = 4294967297;

/// How far the steps of a version are counted: the offset of the record that comes next, the steps before it, and whether none lie ahead.
#[derive(Clone, Copy)]
pub struct Count {
    pub at: usize,
    pub steps: u64,
    pub whole: bool,
}

/// Puts the questions to an image and lists its versions, and gives how many rows are filled, one for each version: the row `i` has the function and the version at 2 × `i` and 2 × `i` + 1 of
/// `numbers`, and the most steps that a run of it takes at `i` of `steps`; `LIMIT` for "large", `NONE` where no bound is given. Rows past
/// the last stay as they were, and so does all where the image is refused.
pub fn bounds_of(
    image: &[u8],
    numbers: &mut [u8; 128],
    steps: &mut [u64; 64],
) -> Result<usize, Refusal>
    ensures { (result ≡ bounds_of image.now) × (numbers.new ≡ unless result numbers.old (numbers_after numbers.old 0 (report (program_of image.now))))
        × (steps.new ≡ unless result steps.old (steps_after steps.old 0 (report (program_of image.now)))) }
{
    questions::verdict(image)?;
    Ok(order::list(image, numbers, steps))
}
