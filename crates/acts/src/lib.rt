//! Instructions over the state of a run in its two arrays: each is the clause of `execute` that it is named after.
//! They serve the loop of `running`; what they require, the loop keeps, and a test would cost each step.
#![tactic(auto)]

ghost use Rattle.std.specs.Prelude.{◌≡◌, length};
ghost use Rattle.program.specs.Program.{LIT, MOVE, USE, DUP, LEN, GET, SET, ARITH, SELECT, CAST, NAMED, STORE, PROM, FORCE, PEEK, POKE};
ghost use Rattle.store.specs.Store.{Live};
ghost use Rattle.store.specs.Counts.{Ready};
ghost use Rattle.store.specs.Acts.{Executes, ExecutesWith};
ghost use Rattle.acts.specs.Typed.{ExecutesIf, ExecutesTyped};

use integers::Fault;
use machine::{Activation, Cache, Opener};
use store::{Did, Halt, cells, heap, stack};

/// The last two operands of an ARITH or a SELECT.
#[derive(Clone, Copy)]
pub struct Pair {
    pub a: u8,
    pub b: u8,
}

/// LIT d i.
pub fn lit(
    bytes: &mut [u8; 2632],
    numbers: &mut [i64; 2129],
    counts: &mut [u16; 800],
    k: usize,
    d: u8,
    i: i64,
) -> Did
    requires { Ready bytes.old numbers.old counts.old × Live bytes.old k }
    ensures { Executes result bytes.old numbers.old bytes.new numbers.new counts.new k (LIT d i) }
{
    cells::assign_integer(bytes, numbers, counts, k, d, i)
}

/// USE d a.
pub fn use_up(
    bytes: &mut [u8; 2632],
    numbers: &[i64; 2129],
    counts: &mut [u16; 800],
    k: usize,
    d: u8,
    a: u8,
) -> Did
    requires { Ready bytes.old numbers.now counts.old × Live bytes.old k }
    ensures { Executes result bytes.old numbers.now bytes.new numbers.now counts.new k (USE d a) }
{
    let Some(v) = cells::vector(bytes, numbers, k, a) else {
        return Did::Stuck;
    };
    if 16 <= d {
        return Did::Stuck;
    }
    cells::assign_empty(bytes, numbers, counts, k, a);
    cells::assign_vector(bytes, numbers, counts, k, d, v as u8)
}

/// DUP d a, of a run that may have `most` vectors.
pub fn dup(
    bytes: &mut [u8; 2632],
    numbers: &mut [i64; 2129],
    counts: &mut [u16; 800],
    k: usize,
    d: u8,
    a: u8,
    most: u8,
) -> Did
    requires { Ready bytes.old numbers.old counts.old × Live bytes.old k }
    ensures { ExecutesWith most result bytes.old numbers.old bytes.new numbers.new counts.new k (DUP d a) }
{
    let Some(v) = cells::vector(bytes, numbers, k, a) else {
        return Did::Stuck;
    };
    if 64 <= v {
        return Did::Stuck;
    }
    let Some(w) = heap::free_vector(counts, most) else {
        return Did::Stop(Halt::Vectors);
    };
    if 16 <= d {
        return Did::Stuck;
    }
    heap::copy_vector(bytes, numbers, counts, v, w);
    cells::assign_vector(bytes, numbers, counts, k, d, w as u8)
}

/// LEN d a.
pub fn len(
    bytes: &mut [u8; 2632],
    numbers: &mut [i64; 2129],
    counts: &mut [u16; 800],
    k: usize,
    d: u8,
    a: u8,
) -> Did
    requires { Ready bytes.old numbers.old counts.old × Live bytes.old k }
    ensures { Executes result bytes.old numbers.old bytes.new numbers.new counts.new k (LEN d a) }
{
    let Some(v) = cells::vector(bytes, numbers, k, a) else {
        return Did::Stuck;
    };
    if 64 <= v {
        return Did::Stuck;
    }
    let n = heap::items(bytes, numbers, v) as i64;
    cells::assign_integer(bytes, numbers, counts, k, d, n)
}

/// GET d a i.
pub fn get(
    bytes: &mut [u8; 2632],
    numbers: &mut [i64; 2129],
    counts: &mut [u16; 800],
    k: usize,
    d: u8,
    a: u8,
    i: u8,
) -> Did
    requires { Ready bytes.old numbers.old counts.old × Live bytes.old k }
    ensures { Executes result bytes.old numbers.old bytes.new numbers.new counts.new k (GET d a i) }
{
    let Some(v) = cells::vector(bytes, numbers, k, a) else {
        return Did::Stuck;
    };
    if 64 <= v {
        return Did::Stuck;
    }
    let Some(z) = cells::integer(bytes, numbers, k, i) else {
        return Did::Stuck;
    };
    match integers::index(z, heap::items(bytes, numbers, v)) {
        Some(j) => {
            let x = heap::item(bytes, numbers, v, j as usize);
            cells::assign_integer(bytes, numbers, counts, k, d, x)
        }
        None => Did::Stop(Halt::Undef),
    }
}

/// SET a i e.
pub fn set(
    bytes: &mut [u8; 2632],
    numbers: &mut [i64; 2129],
    counts: &mut [u16; 800],
    k: usize,
    a: u8,
    i: u8,
    e: u8,
) -> Did
    requires { Ready bytes.old numbers.old counts.old × Live bytes.old k }
    ensures { Executes result bytes.old numbers.old bytes.new numbers.new counts.new k (SET a i e) }
{
    let Some(v) = cells::vector(bytes, numbers, k, a) else {
        return Did::Stuck;
    };
    if 64 <= v {
        return Did::Stuck;
    }
    let Some(z) = cells::integer(bytes, numbers, k, i) else {
        return Did::Stuck;
    };
    let Some(x) = cells::integer(bytes, numbers, k, e) else {
        return Did::Stuck;
    };
    if counts[v] != 1 {
        return Did::Stuck;
    }
    match integers::index(z, heap::items(bytes, numbers, v)) {
        Some(j) => {
            heap::set_item(bytes, numbers, counts, v, j as usize, x);
            Did::On
        }
        None => Did::Stop(Halt::Undef),
    }
}

/// ARITH d op a b.
pub fn arith(
    bytes: &mut [u8; 2632],
    numbers: &mut [i64; 2129],
    counts: &mut [u16; 800],
    k: usize,
    d: u8,
    op: u8,
    of: Pair,
) -> Did
    requires { Ready bytes.old numbers.old counts.old × Live bytes.old k }
    ensures { Executes result bytes.old numbers.old bytes.new numbers.new counts.new k (ARITH d op of.a of.b) }
{
    let Some(x) = cells::integer(bytes, numbers, k, of.a) else {
        return Did::Stuck;
    };
    let Some(y) = cells::integer(bytes, numbers, k, of.b) else {
        return Did::Stuck;
    };
    match integers::arith(op, x, y) {
        Ok(z) => cells::assign_integer(bytes, numbers, counts, k, d, z),
        Err(Fault::Undef) => Did::Stop(Halt::Undef),
        Err(Fault::Stuck) => Did::Stuck,
    }
}

/// SELECT d c a b.
pub fn select(
    bytes: &mut [u8; 2632],
    numbers: &mut [i64; 2129],
    counts: &mut [u16; 800],
    k: usize,
    d: u8,
    c: u8,
    of: Pair,
) -> Did
    requires { Ready bytes.old numbers.old counts.old × Live bytes.old k }
    ensures { Executes result bytes.old numbers.old bytes.new numbers.new counts.new k (SELECT d c of.a of.b) }
{
    let Some(z) = cells::integer(bytes, numbers, k, c) else {
        return Did::Stuck;
    };
    let Some(x) = cells::integer(bytes, numbers, k, of.a) else {
        return Did::Stuck;
    };
    let Some(y) = cells::integer(bytes, numbers, k, of.b) else {
        return Did::Stuck;
    };
    cells::assign_integer(bytes, numbers, counts, k, d, integers::select(z, x, y))
}

/// NAMED d x.
pub fn named(
    bytes: &mut [u8; 2632],
    numbers: &mut [i64; 2129],
    counts: &mut [u16; 800],
    k: usize,
    d: u8,
    x: u8,
) -> Did
    requires { Ready bytes.old numbers.old counts.old × Live bytes.old k }
    ensures { Executes result bytes.old numbers.old bytes.new numbers.new counts.new k (NAMED d x) }
{
    cells::assign_name(bytes, numbers, counts, k, d, k, x)
}

/// STORE x a.
pub fn store_name(
    bytes: &mut [u8; 2632],
    numbers: &mut [i64; 2129],
    counts: &mut [u16; 800],
    k: usize,
    x: u8,
    a: u8,
) -> Did
    requires { Ready bytes.old numbers.old counts.old × Live bytes.old k }
    ensures { Executes result bytes.old numbers.old bytes.new numbers.new counts.new k (STORE x a) }
{
    cells::store_register(bytes, numbers, counts, k, x, k, a)
}

/// FORCE d a.
pub fn force(
    bytes: &mut [u8; 2632],
    numbers: &mut [i64; 2129],
    counts: &mut [u16; 800],
    k: usize,
    d: u8,
    a: u8,
) -> Did
    requires { Ready bytes.old numbers.old counts.old × Live bytes.old k }
    ensures { Executes result bytes.old numbers.old bytes.new numbers.new counts.new k (FORCE d a) }
{
    let Some(p) = cells::promise(bytes, numbers, k, a) else {
        return Did::Stuck;
    };
    if 64 <= p {
        return Did::Stuck;
    }
    let q = heap::promise_at(bytes, numbers, p);
    let cache = q.cache;
    match cache {
        Cache::Forced(z) => cells::assign_integer(bytes, numbers, counts, k, d, z),
        Cache::Unforced => {
            if counts[512 + p] != 0 {
                return Did::Stop(Halt::Undef);
            }
            let top = Activation {
                opener: Opener::Force(p as u8),
                d: d,
                frame: q.frame,
                block: q.block,
                next: 0,
            };
            stack::push(bytes, numbers, counts, top)
        }
    }
}

/// MOVE d a, where `typed` tells whether what the register holds is of a kind within that of the other; nothing where it is stuck.
pub fn move_typed(
    bytes: &mut [u8; 2632],
    numbers: &mut [i64; 2129],
    counts: &mut [u16; 800],
    k: usize,
    d: u8,
    a: u8,
    typed: Option<bool>,
) -> Did
    requires { Ready bytes.old numbers.old counts.old × Live bytes.old k }
    ensures { ExecutesTyped typed result bytes.old numbers.old bytes.new numbers.new counts.new k d a (MOVE d a) }
{
    let Some(fits) = typed else {
        return Did::Stuck;
    };
    if fits {
        cells::assign_register(bytes, numbers, counts, k, d, a)
    } else {
        Did::Stuck
    }
}

/// CAST d a, where `typed` tells as of a MOVE.
pub fn cast_typed(
    bytes: &mut [u8; 2632],
    numbers: &mut [i64; 2129],
    counts: &mut [u16; 800],
    k: usize,
    d: u8,
    a: u8,
    typed: Option<bool>,
) -> Did
    requires { Ready bytes.old numbers.old counts.old × Live bytes.old k }
    ensures { ExecutesTyped typed result bytes.old numbers.old bytes.new numbers.new counts.new k d a (CAST d a) }
{
    let Some(fits) = typed else {
        return Did::Stuck;
    };
    if fits {
        cells::assign_register(bytes, numbers, counts, k, d, a)
    } else {
        Did::Stop(Halt::Undef)
    }
}

/// PROM d block, in a version of `blocks` blocks.
pub fn prom(
    bytes: &mut [u8; 2632],
    numbers: &[i64; 2129],
    counts: &mut [u16; 800],
    k: usize,
    d: u8,
    block: u8,
    blocks: u8,
) -> Did
    requires { Ready bytes.old numbers.now counts.old × Live bytes.old k }
    ensures { ExecutesIf (λ P W. length W.blocks ≡ blocks) result bytes.old numbers.now bytes.new numbers.now counts.new k
        (PROM d block) }
{
    if blocks <= block {
        return Did::Stuck;
    }
    let Some(p) = heap::free_promise(counts) else {
        return Did::Stop(Halt::Promises);
    };
    if 16 <= d {
        return Did::Stuck;
    }
    heap::make_promise(bytes, numbers, counts, p, k as u8, block);
    cells::assign_promise(bytes, numbers, counts, k, d, p as u8)
}

/// PEEK d a x.
pub fn peek(
    bytes: &mut [u8; 2632],
    numbers: &mut [i64; 2129],
    counts: &mut [u16; 800],
    k: usize,
    d: u8,
    a: u8,
    x: u8,
) -> Did
    requires { Ready bytes.old numbers.old counts.old × Live bytes.old k }
    ensures { Executes result bytes.old numbers.old bytes.new numbers.new counts.new k (PEEK d a x) }
{
    let Some(p) = cells::promise(bytes, numbers, k, a) else {
        return Did::Stuck;
    };
    if 64 <= p {
        return Did::Stuck;
    }
    let q = heap::promise_at(bytes, numbers, p);
    let j = layout::wide(q.frame);
    if frames::is_live(bytes, j) {
        cells::assign_name(bytes, numbers, counts, k, d, j, x)
    } else {
        Did::Stuck
    }
}

/// POKE a x e.
pub fn poke(
    bytes: &mut [u8; 2632],
    numbers: &mut [i64; 2129],
    counts: &mut [u16; 800],
    k: usize,
    a: u8,
    x: u8,
    e: u8,
) -> Did
    requires { Ready bytes.old numbers.old counts.old × Live bytes.old k }
    ensures { Executes result bytes.old numbers.old bytes.new numbers.new counts.new k (POKE a x e) }
{
    let Some(p) = cells::promise(bytes, numbers, k, a) else {
        return Did::Stuck;
    };
    if 64 <= p {
        return Did::Stuck;
    }
    let q = heap::promise_at(bytes, numbers, p);
    let j = layout::wide(q.frame);
    if frames::is_live(bytes, j) {
        cells::store_register(bytes, numbers, counts, j, x, k, e)
    } else {
        Did::Stuck
    }
}
