//! Answers as numbers, in the layout of C.
ghost use Rattle.std.specs.Prelude.{◌≡◌};
ghost use Rattle.machine.specs.declared.Answer.{Answer};
ghost use Rattle.machine.specs.declared.PoolSaid.{PoolSaid};
ghost use Rattle.abi.specs.Answers.{answer_numbers, answer_with, grant_numbers, end_in, form_of};
ghost use Rattle.abi.specs.Answers.{joined_numbers, loaded_numbers, mended_numbers, plain_numbers};
ghost use Rattle.abi.specs.Answers.{search_numbers, turn_numbers, turn_with, verdict_numbers, version_numbers, watched_numbers, where_numbers};
ghost use Rattle.abi.specs.Looks.{no_place, value_numbers};

use checker::Refusal;
use joins::JoinError;
use layout::Form;
use loaded::LoadError;
use machine::{Denial, Search, Value};
use mends::Mended;
use whereabouts::Where;

/// Where the status of a state stands among its bytes, and the length of its result; where its value stands among its numbers.
const STATUS: usize = 2626;

const LENGTH: usize = 2627;

const ENDING: usize = 2128;

/// The status of a run that is DONE with an integer, of one that is DONE with a vector, and of the last stop, for which each higher one stands too.
const INTEGER: u8 = 1;

const VECTOR: u8 = 2;

const PROMISES: u8 = 6;

/// A verdict: 0 and the number of versions, or the question that refuses and the offset.
#[repr(C)]
#[derive(Clone, Copy)]
pub struct FirVerdict {
    pub detail: usize,
    pub question: u8,
}

/// What becomes of a load: 0 and the number of versions, 8 with the question that refuses and the offset, or 9 and the bytes that the table needs.
#[repr(C)]
#[derive(Clone, Copy)]
pub struct FirLoaded {
    pub detail: usize,
    pub code: u8,
    pub question: u8,
}

/// What becomes of a join: 0 and the length of the joined image, or the question that refuses, the offset, and the image that it refuses: 1 the first, 2 the second, 0 neither.
#[repr(C)]
#[derive(Clone, Copy)]
pub struct FirJoined {
    pub detail: usize,
    pub question: u8,
    pub image: u8,
}

/// What can be done for an image: 0 and its number of versions, or the question that refuses it and the offset; and beside a refusal
/// whether a register type byte mends it (1), which one and its new value, or that none does (2).
#[repr(C)]
#[derive(Clone, Copy)]
pub struct FirMended {
    pub detail: usize,
    pub place: usize,
    pub question: u8,
    pub mend: u8,
    pub value: u8,
}

/// Whether a run has begun, goes on under a new image, or has gone a step back: 0, or the question that refuses it and the offset.
#[repr(C)]
#[derive(Clone, Copy)]
pub struct FirEntry {
    pub offset: u16,
    pub question: u8,
}

/// What a single step says.
#[repr(C)]
#[derive(Clone, Copy)]
pub struct FirSaid {
    pub value: i64,
    pub code: u8,
    pub length: u8,
}

/// What a single step in a pool says, or the question that refuses it and the offset.
#[repr(C)]
#[derive(Clone, Copy)]
pub struct FirTurn {
    pub value: i64,
    pub offset: u16,
    pub code: u8,
    pub length: u8,
    pub question: u8,
}

/// The answer to a budget, and the steps taken under it.
#[repr(C)]
#[derive(Clone, Copy)]
pub struct FirAnswer {
    pub steps: u32,
    pub value: i64,
    pub offset: u16,
    pub code: u8,
    pub length: u8,
    pub question: u8,
}

/// What a register or a name holds.
#[repr(C)]
#[derive(Clone, Copy)]
pub struct FirValue {
    pub number: i64,
    pub kind: u8,
    pub place: u8,
}

/// What a state at a DISPATCH looks at.
#[repr(C)]
#[derive(Clone, Copy)]
pub struct FirSearched {
    pub dispatch: u8,
    pub looked: u8,
    pub versions: u8,
}

/// Where a state stands.
#[repr(C)]
#[derive(Clone, Copy)]
pub struct FirWhere {
    pub offset: usize,
    pub kind: u8,
    pub function: u8,
    pub version: u8,
    pub block: u8,
    pub instruction: u8,
}

/// How many records of the topmost call were filled, or the question that refuses the list.
#[repr(C)]
#[derive(Clone, Copy)]
pub struct FirWatched {
    pub filled: u8,
    pub question: u8,
}

/// The number of the interface, and that of the layout of a stored state.
#[repr(C)]
#[derive(Clone, Copy)]
pub struct FirVersion {
    pub interface: u32,
    pub state: u32,
}

/// The numbers of a verdict, of a move or of bounds.
pub fn verdict(verdict: Result<usize, Refusal>) -> FirVerdict
    ensures { result ≡ verdict_numbers verdict }
{
    match verdict {
        Ok(n) => FirVerdict {
            detail: n,
            question: 0,
        },
        Err(why) => FirVerdict {
            detail: why.at,
            question: why.question,
        },
    }
}

/// What becomes of a join, in numbers.
#[tactic(auto, unfolding(crate::specs::Answers::joined_numbers))]
pub fn joined(joined: Result<usize, JoinError>) -> FirJoined
    ensures { result ≡ joined_numbers joined }
{
    match joined {
        Ok(n) => FirJoined {
            detail: n,
            question: 0,
            image: 0,
        },
        Err(JoinError::First(why)) => FirJoined {
            detail: why.at,
            question: why.question,
            image: 1,
        },
        Err(JoinError::Second(why)) => FirJoined {
            detail: why.at,
            question: why.question,
            image: 2,
        },
        Err(JoinError::Together(why)) => FirJoined {
            detail: why.at,
            question: why.question,
            image: 0,
        },
    }
}

/// What can be done for an image, in numbers.
pub fn mended(mended: Mended) -> FirMended
    ensures { result ≡ mended_numbers mended }
{
    match mended {
        Mended::Accepted(n) => FirMended {
            detail: n,
            place: 0,
            question: 0,
            mend: 0,
            value: 0,
        },
        Mended::Refused(why) => FirMended {
            detail: why.at,
            place: 0,
            question: why.question,
            mend: 0,
            value: 0,
        },
        Mended::Byte(why, hit) => FirMended {
            detail: why.at,
            place: hit.at,
            question: why.question,
            mend: 1,
            value: hit.value,
        },
        Mended::Unmended(why) => FirMended {
            detail: why.at,
            place: 0,
            question: why.question,
            mend: 2,
            value: 0,
        },
    }
}

/// What becomes of a load, in numbers.
#[tactic(auto, unfolding(crate::specs::Answers::loaded_numbers))]
pub fn loaded(loaded: Result<usize, LoadError>) -> FirLoaded
    ensures { result ≡ loaded_numbers loaded }
{
    match loaded {
        Ok(n) => FirLoaded {
            detail: n,
            code: 0,
            question: 0,
        },
        Err(LoadError::Refused(why)) => FirLoaded {
            detail: why.at,
            code: 8,
            question: why.question,
        },
        Err(LoadError::Short(n)) => FirLoaded {
            detail: n,
            code: 9,
            question: 0,
        },
    }
}

/// The form that a number names: 1 that of 32 bits, any other that of 64.
pub fn form(number: u8) -> Form
    ensures { result ≡ form_of number }
{
    if number == 1 {
        Form::Narrow
    } else {
        Form::Wide
    }
}

/// The numbers of what is granted or denied: an entry, a change, a step back, a pool that is made.
pub fn grant(grant: Result<(), Denial>) -> FirEntry
    ensures { result ≡ grant_numbers grant }
{
    match grant {
        Ok(()) => FirEntry {
            offset: 0,
            question: 0,
        },
        Err(why) => FirEntry {
            offset: why.at,
            question: why.question,
        },
    }
}

/// A code without value and length: 0 goes on, 3 to 6 UNDEF and the stops, 7 stuck.
pub fn plain(code: u8) -> FirSaid
    ensures { result ≡ plain_numbers code }
{
    FirSaid {
        value: 0,
        code: code,
        length: 0,
    }
}

/// What the status of a state says: that it goes on, or its end.
pub fn ended(bytes: &[u8; 2632], numbers: &[i64; 2129]) -> FirSaid
    ensures { result ≡ end_in bytes.now numbers.now }
{
    let status = bytes[STATUS];
    if status == INTEGER {
        return FirSaid {
            value: numbers[ENDING],
            code: INTEGER,
            length: 0,
        };
    }
    if status == VECTOR {
        return FirSaid {
            value: 0,
            code: VECTOR,
            length: bytes[LENGTH],
        };
    }
    if status < PROMISES {
        return plain(status);
    }
    plain(PROMISES)
}

/// The answer that says so much, after so many steps.
pub fn taken(said: FirSaid, steps: u32) -> FirAnswer
    ensures { result ≡ answer_with said steps }
{
    FirAnswer {
        steps: steps,
        value: said.value,
        offset: 0,
        code: said.code,
        length: said.length,
        question: 0,
    }
}

/// The answer of a refusal.
pub fn refused(question: u8, offset: u16) -> FirAnswer
    ensures { result ≡ answer_numbers (Answer.Refused question offset) 0 }
{
    FirAnswer {
        steps: 0,
        value: 0,
        offset: offset,
        code: 8,
        length: 0,
        question: question,
    }
}

/// The turn that says so much.
pub fn turn(said: FirSaid) -> FirTurn
    ensures { result ≡ turn_with said }
{
    FirTurn {
        value: said.value,
        offset: 0,
        code: said.code,
        length: said.length,
        question: 0,
    }
}

/// A single step that is refused.
pub fn turned_down(question: u8) -> FirTurn
    ensures { result ≡ turn_numbers (PoolSaid.Refused question 0) }
{
    FirTurn {
        value: 0,
        offset: 0,
        code: 8,
        length: 0,
        question: question,
    }
}

/// The numbers of a value.
pub fn value(value: Value) -> FirValue
    ensures { result ≡ value_numbers value }
{
    match value {
        Value::Empty => FirValue {
            number: 0,
            kind: 0,
            place: 0,
        },
        Value::Integer(z) => FirValue {
            number: z,
            kind: 1,
            place: 0,
        },
        Value::Vector(v) => FirValue {
            number: 0,
            kind: 2,
            place: v,
        },
        Value::Promise(p) => FirValue {
            number: 0,
            kind: 3,
            place: p,
        },
    }
}

/// No such place.
pub fn outside() -> FirValue
    ensures { result ≡ no_place }
{
    FirValue {
        number: 0,
        kind: 4,
        place: 0,
    }
}

/// The numbers of a search.
pub fn searched(search: Search) -> FirSearched
    ensures { result ≡ search_numbers search }
{
    match search {
        Search::Elsewhere => FirSearched {
            dispatch: 0,
            looked: 0,
            versions: 0,
        },
        Search::Looked(looked, versions) => FirSearched {
            dispatch: 1,
            looked: looked,
            versions: versions,
        },
    }
}

/// The numbers of a place in an image.
pub fn place(place: Option<Where>) -> FirWhere
    ensures { result ≡ where_numbers place }
{
    let Some(spot) = place else {
        return FirWhere {
            offset: 0,
            kind: 0,
            function: 0,
            version: 0,
            block: 0,
            instruction: 0,
        };
    };
    match spot {
        Where::Instruction(f, v, b, n, p) => FirWhere {
            offset: p,
            kind: 1,
            function: f,
            version: v,
            block: b,
            instruction: n,
        },
        Where::BlockEnd(f, v, b, n, p) => FirWhere {
            offset: p,
            kind: 2,
            function: f,
            version: v,
            block: b,
            instruction: n,
        },
    }
}

/// The numbers of watching.
pub fn watched(watch: Result<u8, Denial>) -> FirWatched
    ensures { result ≡ watched_numbers watch }
{
    match watch {
        Ok(n) => FirWatched {
            filled: n,
            question: 0,
        },
        Err(why) => FirWatched {
            filled: 0,
            question: why.question,
        },
    }
}

/// The numbers in force.
pub fn version() -> FirVersion
    ensures { result ≡ version_numbers }
{
    FirVersion {
        interface: 2,
        state: 2,
    }
}
