//! Type bytes: where each may stand.
ghost use Rattle.std.specs.Prelude.{◌≡◌};
ghost use Rattle.rules.specs.Types.{parameter_type, register_type, return_type, within};
ghost use Rattle.typing.specs.Calls.{owned_kind};

use layout::ownerships;

/// How many kinds there are: 0 any, 1 value, 2 integer, 3 vector, 4 quiet promise, 5 reflective promise.
pub const KINDS: usize = 6;

/// The kind that all others are within.
pub const ANY: usize = 0;

/// The kind of a value, no promise.
pub const VALUE: usize = 1;

/// The kind of an integer.
pub const INTEGER: usize = 2;

/// The kind of a vector.
pub const VECTOR: usize = 3;

/// The kind of a quiet promise; with the mark of a promise's block added, the kind of that promise.
pub const PROMISE: usize = 4;

/// The kind of a reflective promise.
pub const REFLECTIVE: usize = 5;

/// How many ownerships there are.
pub const OWNERSHIPS: usize = 3;

/// May the type byte `t` stand at a parameter or in a call signature?
pub fn parameter_type(t: usize) -> bool
    ensures { result ≡ parameter_type t }
{
    let kind = t % 16;
    let ownership = t / 16;
    if KINDS <= kind {
        return false;
    }
    if ownership == ownerships::SHARED {
        return true;
    }
    ownership < OWNERSHIPS && kind == VECTOR
}

/// May the type byte `t` stand at a register that is no parameter?
pub fn register_type(t: usize) -> bool
    ensures { result ≡ register_type t }
{
    parameter_type(t) && t / 16 != ownerships::BORROWED
}

/// May the type byte `t` stand at a return?
pub fn return_type(t: usize) -> bool
    ensures { result ≡ return_type t }
{
    let kind = t % 16;
    if register_type(t) {
        if kind == ANY { false } else { kind < PROMISE }
    } else {
        false
    }
}

/// The kind of the type byte `t`, if it is owned.
pub fn owned_kind(t: usize) -> Option<usize>
    ensures { result ≡ owned_kind t }
{
    if t / 16 == ownerships::OWNED {
        Some(t % 16)
    } else {
        None
    }
}

/// Is the kind `a` within the kind `b`?
pub fn is_within(a: usize, b: usize) -> bool
    ensures { result ≡ within a b }
{
    match b {
        ANY => true,
        VALUE => {
            if a == VALUE {
                true
            } else if a == INTEGER {
                true
            } else {
                a == VECTOR
            }
        }
        REFLECTIVE => { if a == REFLECTIVE { true } else { a == PROMISE } }
        _ => a == b,
    }
}
