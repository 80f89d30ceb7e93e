//! What each instruction does to registers.
ghost use Rattle.std.specs.Prelude.{◌≡◌, [], ◌∷◌, ◌<◌};
ghost use Rattle.std.proofs.Math.Option.{Option-elim};
ghost use Rattle.layout.specs.Bounds.{REGISTERS};
ghost use Rattle.layout.specs.Records.{records, body_at, every, fields, ◌!◌};
ghost use Rattle.layout.specs.Kinds as kind;
ghost use Rattle.sets.specs.Sets.{set_of, those};
ghost use Rattle.program.specs.Program.{program, instr_of, arguments, given, find_version};
ghost use Rattle.program.specs.Places.{version_at, instr_at};
ghost use Rattle.rules.specs.Actions.{reading, touching, emptied, promised, touch, action_of};
ghost use Rattle.flow.specs.Masks.{flowed, alone};

use crate::{Action, actions};
use layout::records::Fields;
use layout::{kinds, ownerships};
use program::lookup;
use program::lookup::Tabled;

/// The registers that `n` fields of the record at `p` name, from the field `from` on, each `step` behind the one before.
fn named(image: &[u8], p: usize, from: usize, step: usize, n: usize) -> u16
    requires { (from < 256) × (step < 256) × (n < 256) }
    ensures { set_of REGISTERS result ≡ those REGISTERS (every (body_at image.now p) from step n) }
{
    let mut registers: u16 = 0;
    for r in Fields::of(image, p, from, step, n) {
        registers = sets::union(registers, sets::only(r));
    }
    registers
}

/// The registers that the CALL at `p` gives to the owned parameters of the version at `c`.
fn given_owned(image: &[u8], c: usize, p: usize) -> u16
    ensures { set_of REGISTERS result ≡ those REGISTERS (emptied (given (version_at image.now c) (fields (body_at image.now p) 4 (body_at image.now p ! 3)))) }
{
    let n = layout::field(image, p, 3);
    let parameters = lookup::parameters(image, c);
    let types = lookup::registers(image, c);
    let mut registers: u16 = 0;
    for i in 0..n {
        if parameters <= i {
            return registers;
        }
        if types <= i {
            return registers;
        }
        if lookup::type_of(image, c, i) / 16 != ownerships::OWNED {
            continue;
        }
        registers = sets::union(registers, sets::only(layout::field(image, p, 4 + i)));
    }
    registers
}

/// The registers that the DISPATCH at `p` gives as owned.
fn paired_owned(image: &[u8], p: usize) -> u16
    ensures { set_of REGISTERS result ≡ those REGISTERS (emptied (arguments (body_at image.now p) 5 (body_at image.now p ! 4))) }
{
    let n = layout::field(image, p, 4);
    let mut registers: u16 = 0;
    for i in 0..n {
        if layout::field(image, p, 5 + i * 2) / 16 != ownerships::OWNED {
            continue;
        }
        registers = sets::union(registers, sets::only(layout::field(image, p, 6 + i * 2)));
    }
    registers
}

/// What reads `n` registers from the field `from` on, and then assigns that of the first field.
fn plain(image: &[u8], p: usize, from: usize, n: usize) -> Option<Action>
    requires { (from < 256) × (n < 256) }
    ensures { flowed result ≡ touching (fields (body_at image.now p) from n) [] (body_at image.now p ! 0 ∷ []) }
{
    actions::touching(named(image, p, from, 1, n), 0, named(image, p, 0, 1, 1))
}

/// What only reads `n` registers from the field `from` on, each `step` fields behind the one before.
fn reads_only(image: &[u8], p: usize, from: usize, step: usize, n: usize) -> Option<Action>
    requires { (from < 256) × (step < 256) × (n < 256) }
    ensures { flowed result ≡ touching (every (body_at image.now p) from step n) [] [] }
{
    actions::touching(named(image, p, from, step, n), 0, 0)
}

/// USE: what it reads it empties.
fn used(image: &[u8], p: usize) -> Option<Action>
    ensures { flowed result ≡ touching (body_at image.now p ! 1 ∷ []) (body_at image.now p ! 1 ∷ []) (body_at image.now p ! 0 ∷ []) }
{
    let a = named(image, p, 1, 1, 1);
    actions::touching(a, a, named(image, p, 0, 1, 1))
}

/// What PROM yields, by what its block does: it captures all that the block touches, and assigns `register`.
fn promised(block: Option<Action>, register: u16) -> Option<Action>
    ensures { flowed result ≡ promised (set_of REGISTERS register) (flowed block) }
{
    match block {
        Some(a) => Some(Action {
            reads: a.reads,
            assigns: register,
            empties: a.empties,
            captures: sets::union(
                sets::union(sets::union(a.reads, a.assigns), a.empties),
                a.captures,
            ),
        }),
        None => None,
    }
}

/// PROM: what its block does, promised; it assigns its register.
fn promising(image: &[u8], p: usize, entered: Option<Action>) -> Option<Action>
    ensures { flowed result ≡ action_of (λ block. flowed entered) (touch (program (records image.now)) (instr_of kind.PROM (body_at image.now p))) }
{
    promised(entered, named(image, p, 0, 1, 1))
}

/// The registers that the CALL at `p` empties: none where its version is not there.
fn call_empties(tabled: &Tabled, p: usize) -> u16
    ensures { set_of REGISTERS result
        ≡ those REGISTERS (Option-elim (find_version (program (records tabled.now.image.now)) (body_at tabled.now.image.now p ! 1) (body_at tabled.now.image.now p ! 2)) []
        (λ c. emptied (given c (fields (body_at tabled.now.image.now p) 4 (body_at tabled.now.image.now p ! 3))))) }
{
    let image = tabled.image;
    let f = layout::field(image, p, 1);
    let w = layout::field(image, p, 2);
    let Some(c) = tabled.version(f, w) else {
        return 0;
    };
    given_owned(image, c, p)
}

/// CALL: it reads its operands, and empties those of owned parameters.
fn calling(tabled: &Tabled, p: usize) -> Option<Action>
    ensures { flowed result ≡ alone (program (records tabled.now.image.now)) (instr_of kind.CALL (body_at tabled.now.image.now p)) }
{
    let image = tabled.image;
    let reads = named(image, p, 4, 1, layout::field(image, p, 3));
    actions::touching(reads, call_empties(tabled, p), named(image, p, 0, 1, 1))
}

/// DISPATCH: it reads its operands, and empties those of owned types.
fn dispatching(image: &[u8], p: usize) -> Option<Action>
    ensures { flowed result ≡ alone (program (records image.now)) (instr_of kind.DISPATCH (body_at image.now p)) }
{
    let reads = named(image, p, 6, 2, layout::field(image, p, 4));
    actions::touching(reads, paired_owned(image, p), named(image, p, 0, 1, 1))
}

/// SKIP: it reads its register.
fn skipping(image: &[u8], p: usize) -> Option<Action>
    ensures { flowed result ≡ reading (body_at image.now p ! 0 ∷ []) }
{
    actions::reading(named(image, p, 0, 1, 1))
}

/// What the instruction at `p` does, where `entered` is what the block does that a PROM names. The table is the image's.
pub(crate) fn instruction(tabled: &Tabled, p: usize, entered: Option<Action>) -> Option<Action>
    ensures { flowed result ≡ action_of (λ block. flowed entered) (touch (program (records tabled.now.image.now)) (instr_at tabled.now.image.now p)) }
{
    let image = tabled.image;
    match layout::kind_at(image, p) {
        kinds::MOVE => plain(image, p, 1, 1),
        kinds::USE => used(image, p),
        kinds::DUP => plain(image, p, 1, 1),
        kinds::VEC => plain(image, p, 2, layout::field(image, p, 1)),
        kinds::LEN => plain(image, p, 1, 1),
        kinds::GET => plain(image, p, 1, 2),
        kinds::SET => plain(image, p, 0, 3),
        kinds::ARITH => plain(image, p, 2, 2),
        kinds::SELECT => plain(image, p, 1, 3),
        kinds::CAST => plain(image, p, 1, 1),
        kinds::NAMED => plain(image, p, 1, 0),
        kinds::STORE => reads_only(image, p, 1, 1, 1),
        kinds::PROM => promising(image, p, entered),
        kinds::FORCE => plain(image, p, 1, 1),
        kinds::PEEK => plain(image, p, 1, 1),
        kinds::POKE => reads_only(image, p, 0, 2, 2),
        kinds::CALL => calling(tabled, p),
        kinds::DISPATCH => dispatching(image, p),
        kinds::SKIP => skipping(image, p),
        _ => plain(image, p, 1, 0),
    }
}
