//! Actions, one then another.
ghost use Rattle.std.specs.Prelude.{◌≡◌};
ghost use Rattle.std.proofs.Math.Option.{some};
ghost use Rattle.rules.specs.Actions.{◌then◌, either, join};
ghost use Rattle.flow.specs.Masks.{masked, act, flowed};

use crate::Action;

/// `a` then the single instruction `b`: what `a` empties `b` may assign but not read, empty or capture, and what `a` captures `b` may
/// not empty.
pub fn follow(a: Action, b: Action) -> Option<Action>
    ensures { flowed result ≡ (some (act a) then some (act b)) }
{
    if sets::meets(a.empties, b.reads) {
        return None;
    }
    if sets::meets(a.empties, b.empties) {
        return None;
    }
    if sets::meets(a.empties, b.captures) {
        return None;
    }
    if sets::meets(a.captures, b.empties) {
        return None;
    }
    Some(Action {
        reads: sets::union(a.reads, sets::difference(b.reads, a.assigns)),
        assigns: sets::union(a.assigns, b.assigns),
        empties: sets::difference(sets::union(a.empties, b.empties), b.assigns),
        captures: sets::union(a.captures, b.captures),
    })
}

/// `done` then `next`, where both are allowed.
pub fn chain(done: Option<Action>, next: Option<Action>) -> Option<Action>
    ensures { flowed result ≡ (flowed done then flowed next) }
{
    match done {
        Some(a) => match next {
            Some(b) => follow(a, b),
            None => None,
        },
        None => None,
    }
}

/// Two ways joined.
fn either(a: Action, b: Action) -> Action
    ensures { act result ≡ either (act a) (act b) }
{
    Action {
        reads: sets::union(a.reads, b.reads),
        assigns: sets::intersection(a.assigns, b.assigns),
        empties: sets::union(a.empties, b.empties),
        captures: sets::union(a.captures, b.captures),
    }
}

/// A way, joined by one that a skip took, if there is one.
pub fn join(done: Option<Action>, way: Option<Action>) -> Option<Action>
    ensures { flowed result ≡ join (flowed done) (flowed way) }
{
    match done {
        Some(a) => match way {
            Some(b) => Some(either(a, b)),
            None => Some(a),
        },
        None => None,
    }
}

/// What only reads registers.
pub fn reading(registers: u16) -> Option<Action>
    ensures { flowed result ≡ some (masked registers 0 0 0) }
{
    Some(Action {
        reads: registers,
        assigns: 0,
        empties: 0,
        captures: 0,
    })
}

/// What reads, empties and assigns registers.
pub fn touching(reads: u16, empties: u16, assigns: u16) -> Option<Action>
    ensures { flowed result ≡ some (masked reads assigns empties 0) }
{
    Some(Action {
        reads: reads,
        assigns: assigns,
        empties: empties,
        captures: 0,
    })
}
