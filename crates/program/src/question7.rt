//! Question 7: do registers, names, functions, called versions and blocks exist?
ghost use Rattle.std.specs.Prelude.{◌≡◌, ◌<◌, ltb};
ghost use Rattle.layout.specs.Tests.{all};
ghost use Rattle.layout.specs.Records.{records, body_at, every};
ghost use Rattle.layout.specs.Kinds as kind;
ghost use Rattle.program.specs.Program.{program, instr_of};
ghost use Rattle.program.specs.Search.{first};
ghost use Rattle.program.specs.Places.{version_at, block_at, instr_at, asked};
ghost use Rattle.program.specs.Questions.{exists, names_block, namings, block_named, question7};

use crate::lookup::Tabled;
use crate::{Here, lookup, pass};
use layout::records::{Fields, Records};
use layout::{bounds, kinds};

/// Are `n` fields of the record at `p` below `registers`, from the field `from` on, each `step` behind the one before?
fn all_exist(image: &[u8], p: usize, from: usize, step: usize, n: usize, registers: usize) -> bool
    requires { (from < 256) × (step < 256) × (n < 256) }
    ensures { result ≡ all (λ x. ltb x registers) (every (body_at image.now p) from step n) }
{
    Fields::of(image, p, from, step, n).all(|field| field < registers)
}

/// VEC: do its registers exist?
fn vec_exists(image: &[u8], v: usize, b: usize, p: usize) -> bool
    ensures { result ≡ exists (program (records image.now)) (version_at image.now v) b (instr_of kind.VEC (body_at image.now p)) }
{
    let registers = lookup::registers(image, v);
    layout::field(image, p, 0) < registers
        && all_exist(image, p, 2, 1, layout::field(image, p, 1), registers)
}

/// ARITH: do its registers exist?
fn arith_exists(image: &[u8], v: usize, b: usize, p: usize) -> bool
    ensures { result ≡ exists (program (records image.now)) (version_at image.now v) b (instr_of kind.ARITH (body_at image.now p)) }
{
    let registers = lookup::registers(image, v);
    layout::field(image, p, 0) < registers && all_exist(image, p, 2, 1, 2, registers)
}

/// NAMED: do its register and name exist?
fn named_exists(image: &[u8], v: usize, b: usize, p: usize) -> bool
    ensures { result ≡ exists (program (records image.now)) (version_at image.now v) b (instr_of kind.NAMED (body_at image.now p)) }
{
    layout::field(image, p, 0) < lookup::registers(image, v)
        && layout::field(image, p, 1) < bounds::NAMES
}

/// STORE: do its name and register exist?
fn store_exists(image: &[u8], v: usize, b: usize, p: usize) -> bool
    ensures { result ≡ exists (program (records image.now)) (version_at image.now v) b (instr_of kind.STORE (body_at image.now p)) }
{
    layout::field(image, p, 0) < bounds::NAMES
        && layout::field(image, p, 1) < lookup::registers(image, v)
}

/// PROM: does its register exist, and its block above the block `b`?
fn prom_exists(image: &[u8], v: usize, b: usize, p: usize) -> bool
    ensures { result ≡ exists (program (records image.now)) (version_at image.now v) b (instr_of kind.PROM (body_at image.now p)) }
{
    if lookup::registers(image, v) <= layout::field(image, p, 0) {
        return false;
    }
    let block = layout::field(image, p, 1);
    if block <= b {
        return false;
    }
    let Some(_) = lookup::block(image, v, block) else {
        return false;
    };
    true
}

/// PEEK: do its registers and its name exist?
fn peek_exists(image: &[u8], v: usize, b: usize, p: usize) -> bool
    ensures { result ≡ exists (program (records image.now)) (version_at image.now v) b (instr_of kind.PEEK (body_at image.now p)) }
{
    let registers = lookup::registers(image, v);
    if registers <= layout::field(image, p, 0) {
        return false;
    }
    layout::field(image, p, 1) < registers && layout::field(image, p, 2) < bounds::NAMES
}

/// POKE: do its registers and its name exist?
fn poke_exists(image: &[u8], v: usize, b: usize, p: usize) -> bool
    ensures { result ≡ exists (program (records image.now)) (version_at image.now v) b (instr_of kind.POKE (body_at image.now p)) }
{
    let registers = lookup::registers(image, v);
    if registers <= layout::field(image, p, 0) {
        return false;
    }
    layout::field(image, p, 1) < bounds::NAMES && layout::field(image, p, 2) < registers
}

/// CALL: do its registers and its version exist, and is n the version's parameter count?
fn call_exists(tabled: Tabled, v: usize, b: usize, p: usize) -> bool
    ensures { result ≡ exists (program (records tabled.entry.image.now)) (version_at tabled.entry.image.now v) b (instr_of kind.CALL (body_at tabled.entry.image.now p)) }
{
    let image = tabled.image;
    let registers = lookup::registers(image, v);
    let n = layout::field(image, p, 3);
    if registers <= layout::field(image, p, 0) {
        return false;
    }
    if all_exist(image, p, 4, 1, n, registers) {
        let f = layout::field(image, p, 1);
        let w = layout::field(image, p, 2);
        let Some(q) = tabled.version(f, w) else {
            return false;
        };
        n == layout::field(image, q, 2)
    } else {
        false
    }
}

/// DISPATCH: do its registers and its function exist?
fn dispatch_exists(tabled: Tabled, v: usize, b: usize, p: usize) -> bool
    ensures { result ≡ exists (program (records tabled.entry.image.now)) (version_at tabled.entry.image.now v) b (instr_of kind.DISPATCH (body_at tabled.entry.image.now p)) }
{
    let image = tabled.image;
    let registers = lookup::registers(image, v);
    if registers <= layout::field(image, p, 0) {
        return false;
    }
    all_exist(image, p, 6, 2, layout::field(image, p, 4), registers)
        && tabled.has_function(layout::field(image, p, 1))
}

/// Does all exist that the instruction at `p`, in the block `b` of the version at `v`, names?
fn instruction_exists(tabled: Tabled, v: usize, b: usize, p: usize) -> bool
    ensures { result ≡ exists (program (records tabled.entry.image.now)) (version_at tabled.entry.image.now v) b (instr_at tabled.entry.image.now p) }
{
    let image = tabled.image;
    let registers = lookup::registers(image, v);
    match layout::kind_at(image, p) {
        kinds::MOVE => all_exist(image, p, 0, 1, 2, registers),
        kinds::USE => all_exist(image, p, 0, 1, 2, registers),
        kinds::DUP => all_exist(image, p, 0, 1, 2, registers),
        kinds::VEC => vec_exists(image, v, b, p),
        kinds::LEN => all_exist(image, p, 0, 1, 2, registers),
        kinds::GET => all_exist(image, p, 0, 1, 3, registers),
        kinds::SET => all_exist(image, p, 0, 1, 3, registers),
        kinds::ARITH => arith_exists(image, v, b, p),
        kinds::SELECT => all_exist(image, p, 0, 1, 4, registers),
        kinds::CAST => all_exist(image, p, 0, 1, 2, registers),
        kinds::NAMED => named_exists(image, v, b, p),
        kinds::STORE => store_exists(image, v, b, p),
        kinds::PROM => prom_exists(image, v, b, p),
        kinds::FORCE => all_exist(image, p, 0, 1, 2, registers),
        kinds::PEEK => peek_exists(image, v, b, p),
        kinds::POKE => poke_exists(image, v, b, p),
        kinds::CALL => call_exists(tabled, v, b, p),
        kinds::DISPATCH => dispatch_exists(tabled, v, b, p),
        kinds::SKIP => all_exist(image, p, 0, 1, 1, registers),
        _ => all_exist(image, p, 0, 1, 1, registers),
    }
}

/// Is the record at `p` a PROM that names the block `b`?
fn names_block(image: &[u8], p: usize, b: usize) -> bool
    ensures { result ≡ names_block b (instr_at image.now p) }
{
    layout::kind_at(image, p) == kinds::PROM && layout::field(image, p, 1) == b
}

/// How many PROMs of the version at `v` name the block `b`.
fn count_namings(image: &[u8], v: usize, b: usize) -> usize
    ensures { result ≡ namings b (version_at image.now v).blocks }
{
    if image.len() <= v {
        return 0;
    }
    let mut count: usize = 0;
    let mut begun = false;
    for record in Records::behind(image, v) {
        if record.size == 0 {
            return count;
        }
        let k = layout::kind_at(image, record.at);
        if k == kinds::VERSION {
            return count;
        }
        if k == kinds::BLOCK {
            begun = true;
        } else if begun {
            if names_block(image, record.at, b) {
                count += 1;
            }
        }
    }
    count
}

/// Does the result register of the BLOCK at `p` exist, and is it, the block `b` of the version at `v`, named by one PROM if it is not block 0?
fn block_named(image: &[u8], v: usize, b: usize, p: usize) -> bool
    ensures { result ≡ block_named (version_at image.now v) b (block_at image.now p) }
{
    if lookup::registers(image, v) <= layout::field(image, p, 1) {
        return false;
    }
    if b == 0 {
        true
    } else {
        count_namings(image, v, b) == 1
    }
}

/// Does all exist that the record at `p` names, where the pass stands at `here`?
fn exists_at(tabled: Tabled, here: Here, p: usize) -> bool
    ensures { result ≡ asked (question7 (program (records tabled.entry.image.now))) tabled.entry.image.now here p }
{
    let image = tabled.image;
    let version = here.version;
    let blocks = here.blocks;
    let kind = layout::kind_at(image, p);
    if kind == kinds::VERSION {
        return true;
    }
    if image.len() <= version {
        return true;
    }
    if blocks == 0 {
        return true;
    }
    if kind == kinds::BLOCK {
        block_named(image, version, blocks - 1, p)
    } else {
        instruction_exists(tabled, version, blocks - 1, p)
    }
}

/// Question 7: does all exist that the records name, and is every block but 0 named by exactly one PROM in its version?
pub fn question_7(image: &[u8]) -> Option<usize>
    ensures { result ≡ first (question7 (program (records image.now))) (program (records image.now)) }
{
    let table = lookup::versions(image);
    let tabled = Tabled {
        image,
        table: &table,
    };
    pass::first_failing(image, |here, p| exists_at(tabled, here, p))
}
