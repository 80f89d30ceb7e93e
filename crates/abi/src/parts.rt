//! Steps of a run, and what is asked of a state: its arrays are lent, and nothing is copied.
ghost use Rattle.std.specs.Prelude.{List, ◌≡◌, ℤ, take};
ghost use Rattle.loaded.specs.Loaded.{program_in};
ghost use Rattle.machine.specs.Changes.{change_of};
ghost use Rattle.machine.specs.Frames.{read_of};
ghost use Rattle.machine.specs.Runs.{budget_of, step_of, written};
ghost use Rattle.machine.specs.Searches.{search_of};
ghost use Rattle.machine.specs.States.{over};
ghost use Rattle.machine.specs.Watches.{watched_of};
ghost use Rattle.store.specs.Store.{state_in};
ghost use Rattle.running.specs.Budgets.{answer_of, said_of};
ghost use Rattle.whereabouts.specs.Looks.{look_of};
ghost use Rattle.whereabouts.specs.Where.{where_of};
ghost use Rattle.abi.specs.Answers.{answer_numbers, grant_numbers, said_numbers, search_numbers, watched_numbers, where_numbers};
ghost use Rattle.abi.specs.Exits.{Answers, Rests, Steps, items_in, result_in};
ghost use Rattle.abi.specs.Held.{stored};
ghost use Rattle.abi.specs.Looks.{read_numbers};

use crate::answers;
use crate::answers::{FirAnswer, FirEntry, FirSaid, FirSearched, FirValue, FirWatched, FirWhere};
use machine::{Value, Vector};
use running::{Counted, Pause};

/// Where the status of a state stands among its bytes, and the length of its result; where the result stands among its numbers.
const STATUS: usize = 2626;

const LENGTH: usize = 2627;

const RESULT: usize = 2112;

/// The status of a run that is DONE with a vector.
const VECTOR: u8 = 2;

/// What is said of a run that goes on, and of one that is stuck.
const STEPS: u8 = 0;

const STUCK: u8 = 7;

/// The question to the lent buffer.
const BUFFER: u8 = 13;

/// Whether a state of these bytes goes on under the new image, whatever its numbers are.
pub fn change(old: &[u8], new: &[u8], bytes: &[u8; 2632]) -> FirEntry
    ensures { (n : List ℤ) → result ≡ grant_numbers (change_of old.now new.now (state_in bytes.now n)) }
{
    answers::grant(changes::change(old, new, bytes))
}

/// What the place `place` of the live call `call` holds.
pub fn look<'s>(
    bytes: &'s [u8; 2632],
    numbers: &'s [i64; 2129],
    call: usize,
    place: usize,
) -> FirValue
    ensures { result ≡ read_numbers (read_of (look_of (state_in bytes.now numbers.now) call place)) }
{
    match whereabouts::look(bytes, numbers, call, place) {
        None => answers::outside(),
        Some(v) => answers::value(v),
    }
}

/// Where a state of these bytes stands, whatever its numbers are.
pub fn stand(image: &[u8], table: &[u8], bytes: &[u8; 2632]) -> FirWhere
    ensures { (n : List ℤ) → result ≡ where_numbers (where_of (program_in image.now table.now) (state_in bytes.now n)) }
{
    answers::place(whereabouts::stand(image, table, bytes))
}

/// What the DISPATCH looks at that a state of these bytes stands at, whatever its numbers are.
pub fn search(image: &[u8], table: &[u8], bytes: &[u8; 2632]) -> FirSearched
    ensures { (n : List ℤ) → result ≡ search_numbers (search_of (program_in image.now table.now) (state_in bytes.now n)) }
{
    answers::searched(searches::search(image, table, bytes))
}

/// How many records of a list of `n` are filled, or that it is too short, whatever the state's numbers are.
pub fn watched(image: &[u8], table: &[u8], bytes: &[u8; 2632], n: usize) -> FirWatched
    ensures { (m : List ℤ) → result ≡ watched_numbers (watched_of (program_in image.now table.now) (state_in bytes.now m) n) }
{
    answers::watched(watches::watched(image, table, bytes, n))
}

/// Writes the first `n` items of the result, as many as there are and have a place, from the place 0 on; all else stays.
fn put_items(numbers: &[i64; 2129], n: usize, buffer: &mut [i64])
    ensures { buffer.new ≡ over (take n (result_in numbers.now)) buffer.old }
{
    for j in 0..Vector::ITEMS {
        if n <= j {
            return;
        }
        if buffer.len() <= j {
            return;
        }
        buffer[j] = numbers[RESULT + j];
    }
}

/// Writes the items of the vector that the run is DONE with to the lent buffer, from the place 0 on; all else stays.
pub fn deliver(bytes: &[u8; 2632], numbers: &[i64; 2129], buffer: &mut [i64])
    ensures { buffer.new ≡ over (items_in (state_in bytes.now numbers.now)) buffer.old }
{
    if bytes[STATUS] == VECTOR {
        put_items(numbers, layout::wide(bytes[LENGTH]), buffer);
    }
}

/// What is said of a run that pauses.
pub fn said(pause: Pause, bytes: &[u8; 2632], numbers: &[i64; 2129]) -> FirSaid
    ensures { result ≡ said_numbers (said_of pause (state_in bytes.now numbers.now).status) }
{
    match pause {
        Pause::Steps => answers::plain(STEPS),
        Pause::Ended => answers::ended(bytes, numbers),
        Pause::Stuck => answers::plain(STUCK),
    }
}

/// Writes what a run that pauses leaves for the lent buffer, from the place 0 on; all else stays.
fn leave(pause: Pause, bytes: &[u8; 2632], numbers: &[i64; 2129], buffer: &mut [i64])
    ensures { buffer.new ≡ over (written (state_in bytes.now numbers.now).result
        (answer_of pause (state_in bytes.now numbers.now).status)) buffer.old }
{
    match pause {
        Pause::Steps => {}
        Pause::Ended => deliver(bytes, numbers, buffer),
        Pause::Stuck => {}
    }
}

/// The answer to a budget that pauses, and what it leaves for the lent buffer.
pub fn answered(
    counted: Counted,
    bytes: &[u8; 2632],
    numbers: &[i64; 2129],
    buffer: &mut [i64],
) -> FirAnswer
    ensures { (result ≡ answer_numbers (answer_of counted.pause (state_in bytes.now numbers.now).status) counted.steps)
        × (buffer.new ≡ over (written (state_in bytes.now numbers.now).result
        (answer_of counted.pause (state_in bytes.now numbers.now).status)) buffer.old) }
{
    let pause = counted.pause;
    leave(pause, bytes, numbers, buffer);
    let said = said(pause, bytes, numbers);
    answers::taken(said, counted.steps)
}

/// A single step.
pub fn step<'s>(
    image: &[u8],
    table: &[u8],
    bytes: &'s mut [u8; 2632],
    numbers: &'s mut [i64; 2129],
) -> FirSaid
    ensures { Steps result (step_of (program_in image.now table.now) (state_in bytes.old numbers.old))
        (stored bytes.old numbers.old) (stored bytes.new numbers.new) }
{
    let pause = running::step(image, table, bytes, numbers);
    said(pause, bytes, numbers)
}

/// At most `budget` steps, after question 13 to the lent buffer.
pub fn budget<'s>(
    image: &[u8],
    table: &[u8],
    budget: u32,
    buffer: &mut [i64],
    bytes: &'s mut [u8; 2632],
    numbers: &'s mut [i64; 2129],
) -> FirAnswer
    ensures { Answers result (budget_of (program_in image.now table.now) (state_in bytes.old numbers.old) budget buffer.old)
        (stored bytes.old numbers.old) (stored bytes.new numbers.new) buffer.old buffer.new
        × Rests budget (budget_of (program_in image.now table.now) (state_in bytes.old numbers.old) budget buffer.old)
        (stored bytes.old numbers.old) (stored bytes.new numbers.new) }
{
    if buffer.len() < Vector::ITEMS {
        return answers::refused(BUFFER, 0);
    }
    let counted = running::resume(image, table, bytes, numbers, budget);
    answered(counted, bytes, numbers, buffer)
}
