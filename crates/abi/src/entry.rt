//! The beginning of a run, and a run from its start, in the arrays of the caller's state.
ghost use Rattle.std.specs.Prelude.{◌≡◌};
ghost use Rattle.machine.specs.Values.{RANGE};
ghost use Rattle.loaded.specs.Loaded.{program_in};
ghost use Rattle.loaded.specs.Running.{run_in_to};
ghost use Rattle.begin.specs.Asking.{Begins, entered_at};
ghost use Rattle.abi.specs.Answers.{grant_numbers};
ghost use Rattle.abi.specs.Exits.{Answers};
ghost use Rattle.abi.specs.Held.{stored};

use crate::answers::{FirAnswer, FirEntry};
use crate::{answers, parts};
use begin::Entrance;

/// What a run enters, at which level, and its first budget.
#[derive(Clone, Copy)]
pub struct Start {
    pub level: usize,
    pub function: usize,
    pub version: usize,
    pub budget: u32,
}

/// Begins a run of a loaded image: its first state, or a refusal, which writes nothing.
pub fn begun<'s>(
    image: &[u8],
    table: &[u8],
    at: Entrance,
    words: &[i64],
    buffer: &[i64],
    bytes: &'s mut [u8; 2632],
    numbers: &'s mut [i64; 2129],
) -> FirEntry
    ensures { (result ≡ grant_numbers (entered_at (program_in image.now table.now) at words.now buffer.now).entry)
        × Begins (entered_at (program_in image.now table.now) at words.now buffer.now).entry
        (program_in image.now table.now) at words.now buffer.now
        bytes.old numbers.old bytes.new numbers.new }
{
    answers::grant(begin::begin(image, table, at, words, buffer, bytes, numbers))
}

/// Begins a run of a loaded image, and goes on with it under its first budget.
pub fn run<'s>(
    image: &[u8],
    table: &[u8],
    at: Start,
    words: &[i64],
    buffer: &mut [i64],
    bytes: &'s mut [u8; 2632],
    numbers: &'s mut [i64; 2129],
) -> FirAnswer
    ensures { Answers result (run_in_to RANGE image.now table.now at.level at.function at.version words.now at.budget buffer.old)
        (stored bytes.old numbers.old) (stored bytes.new numbers.new) buffer.old buffer.new }
{
    let entrance = Entrance {
        level: at.level,
        function: at.function,
        version: at.version,
    };
    match begin::begin(image, table, entrance, words, buffer, bytes, numbers) {
        Err(why) => answers::refused(why.question, why.at),
        Ok(()) => parts::budget(image, table, at.budget, buffer, bytes, numbers),
    }
}
