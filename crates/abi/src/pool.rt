//! 02, request 10: starts, steps, budgets and changes of a run that has a number of a pool. The arrays of the state and of the pool are lent,
//! each as a parameter of its own.
ghost use Rattle.std.specs.Prelude.{List, ◌≡◌, ℕ, ℤ};
ghost use Rattle.machine.specs.Pools.{pool_back, pool_change};
ghost use Rattle.loaded.specs.Loaded.{program_in};
ghost use Rattle.pools.specs.Shares.{pool_of};
ghost use Rattle.store.specs.Store.{state_in};
ghost use Rattle.abi.specs.Answers.{grant_numbers};
ghost use Rattle.abi.specs.Exits.{entrance};
ghost use Rattle.abi.specs.Held.{stored};
ghost use Rattle.abi.specs.Pools.{AnswersIn, BeginsIn, EntersIn, MakesIn, RunsIn, StepsIn};

use crate::answers::{FirAnswer, FirEntry, FirTurn};
use crate::{answers, parts};
use begin::Entrance;
use machine::{Denial, Vector};
use running::Budget;

/// The question to the lent buffer, and the one to a step back.
const BUFFER: u8 = 13;

const BEHIND: u8 = 20;

/// What a run enters, at which level, and its number.
#[derive(Clone, Copy)]
pub struct Room {
    pub level: usize,
    pub function: usize,
    pub version: usize,
    pub number: usize,
}

/// The number of a run, and its budget.
#[derive(Clone, Copy)]
pub struct Ask {
    pub number: usize,
    pub budget: u32,
}

/// Makes a pool of the given reserves.
pub fn make<'p>(given: &[u8; 8], reserves: &'p mut [u8; 8], has: &'p mut [u8; 8]) -> FirEntry
    ensures { MakesIn result given.now (pool_of reserves.old has.old) (pool_of reserves.new has.new) }
{
    answers::grant(pools::make(given, reserves, has))
}

/// Begins a run of a loaded image under a number; a refusal writes nothing.
fn enter(
    image: &[u8],
    table: &[u8],
    at: Room,
    words: &[i64],
    buffer: &[i64],
    bytes: &mut [u8; 2632],
    numbers: &mut [i64; 2129],
    reserves: &[u8; 8],
    has: &mut [u8; 8],
) -> Result<(), Denial>
    ensures { EntersIn result (program_in image.now table.now) (entrance at.level at.function at.version) words.now buffer.now
        (pool_of reserves.now has.old) at.number (stored bytes.old numbers.old)
        (stored bytes.new numbers.new) (pool_of reserves.now has.new) }
{
    if pools::refuses(reserves, at.number) {
        return Err(Denial {
            question: pools::POOL,
            at: 0,
        });
    }
    let entrance = Entrance {
        level: at.level,
        function: at.function,
        version: at.version,
    };
    begin::begin(image, table, entrance, words, buffer, bytes, numbers)?;
    pools::settle(bytes, numbers, reserves, has, at.number);
    Ok(())
}

/// Begins a run of a loaded image under a number.
pub fn begun<'s>(
    image: &[u8],
    table: &[u8],
    at: Room,
    words: &[i64],
    buffer: &[i64],
    bytes: &'s mut [u8; 2632],
    numbers: &'s mut [i64; 2129],
    reserves: &'s [u8; 8],
    has: &'s mut [u8; 8],
) -> FirEntry
    ensures { BeginsIn result (program_in image.now table.now) (entrance at.level at.function at.version) words.now buffer.now
        (pool_of reserves.now has.old) at.number (stored bytes.old numbers.old)
        (stored bytes.new numbers.new) (pool_of reserves.now has.new) }
{
    answers::grant(enter(
        image, table, at, words, buffer, bytes, numbers, reserves, has,
    ))
}

/// A single step.
pub fn step<'s>(
    image: &[u8],
    table: &[u8],
    bytes: &'s mut [u8; 2632],
    numbers: &'s mut [i64; 2129],
    reserves: &'s [u8; 8],
    has: &'s mut [u8; 8],
    number: usize,
) -> FirTurn
    ensures { StepsIn result (program_in image.now table.now) (pool_of reserves.now has.old) number
        (stored bytes.old numbers.old) (stored bytes.new numbers.new) (pool_of reserves.now has.new) }
{
    if pools::refuses(reserves, number) {
        return answers::turned_down(pools::POOL);
    }
    let most = pools::may_have(reserves, has, number);
    let pause = running::step_within(image, table, bytes, numbers, most);
    pools::note(bytes, numbers, has, number);
    answers::turn(parts::said(pause, bytes, numbers))
}

/// At most so many steps, after question 13 to the lent buffer.
pub fn budget<'s>(
    image: &[u8],
    table: &[u8],
    ask: Ask,
    buffer: &mut [i64],
    bytes: &'s mut [u8; 2632],
    numbers: &'s mut [i64; 2129],
    reserves: &'s [u8; 8],
    has: &'s mut [u8; 8],
) -> FirAnswer
    ensures { AnswersIn result (program_in image.now table.now) ask.budget (pool_of reserves.now has.old) ask.number
        (stored bytes.old numbers.old) (stored bytes.new numbers.new) (pool_of reserves.now has.new)
        buffer.old buffer.new }
{
    if pools::refuses(reserves, ask.number) {
        return answers::refused(pools::POOL, 0);
    }
    if buffer.len() < Vector::ITEMS {
        return answers::refused(BUFFER, 0);
    }
    let allowance = Budget {
        steps: ask.budget,
        vectors: pools::may_have(reserves, has, ask.number),
    };
    let counted = running::resume_within(image, table, bytes, numbers, allowance);
    pools::note(bytes, numbers, has, ask.number);
    parts::answered(counted, bytes, numbers, buffer)
}

/// Begins a run of a loaded image under a number, and goes on with it under its first budget.
pub fn run<'s>(
    image: &[u8],
    table: &[u8],
    at: Room,
    steps: u32,
    words: &[i64],
    buffer: &mut [i64],
    bytes: &'s mut [u8; 2632],
    numbers: &'s mut [i64; 2129],
    reserves: &'s [u8; 8],
    has: &'s mut [u8; 8],
) -> FirAnswer
    ensures { RunsIn result (program_in image.now table.now) (entrance at.level at.function at.version) words.now steps
        (pool_of reserves.now has.old) at.number (stored bytes.old numbers.old)
        (stored bytes.new numbers.new) (pool_of reserves.now has.new) buffer.old buffer.new }
{
    let ask = Ask {
        number: at.number,
        budget: steps,
    };
    match enter(
        image, table, at, words, buffer, bytes, numbers, reserves, has,
    ) {
        Err(why) => answers::refused(why.question, why.at),
        Ok(()) => budget(image, table, ask, buffer, bytes, numbers, reserves, has),
    }
}

/// Whether a state of these bytes goes on under the new image, whatever its numbers are and the pool's runs have.
pub fn change(
    old: &[u8],
    new: &[u8],
    bytes: &[u8; 2632],
    reserves: &[u8; 8],
    number: usize,
) -> FirEntry
    ensures { (n : List ℤ) (hs : List ℕ)
        → result ≡ grant_numbers (pool_change (pool_of reserves.now hs) number old.now new.now (state_in bytes.now n)) }
{
    if pools::refuses(reserves, number) {
        return answers::grant(Err(Denial {
            question: pools::POOL,
            at: 0,
        }));
    }
    parts::change(old, new, bytes)
}

/// 21, or 20: a state of a pool has no step behind it.
pub fn back(reserves: &[u8; 8], number: usize) -> FirEntry
    ensures { (hs : List ℕ) → result ≡ grant_numbers (pool_back (pool_of reserves.now hs) number) }
{
    if pools::refuses(reserves, number) {
        return answers::grant(Err(Denial {
            question: pools::POOL,
            at: 0,
        }));
    }
    answers::grant(Err(Denial {
        question: BEHIND,
        at: 0,
    }))
}
