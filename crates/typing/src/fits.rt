//! Types fit when: one function for each kind of instruction, for the instruction at `p` in the block `b` of the version at `v`.
ghost use Rattle.std.specs.Prelude.{◌≡◌, ◌<◌};
ghost use Rattle.layout.specs.Tests.{all};
ghost use Rattle.layout.specs.Records.{records, body_at, every};
ghost use Rattle.layout.specs.Kinds as kind;
ghost use Rattle.program.specs.Program.{program, instr_of};
ghost use Rattle.program.specs.Places.{version_at, block_at, instr_at};
ghost use Rattle.rules.specs.Fits.{integer, fits, fits_result};

use crate::{arguments, registers, types};
use layout::records::Fields;
use layout::{kinds, ownerships};
use program::lookup;
use program::lookup::Tabled;

/// Are the `n` registers from the field 2 on integers?
fn all_integers(image: &[u8], v: usize, p: usize, n: usize) -> bool
    requires { n < 256 }
    ensures { result ≡ all (integer (version_at image.now v)) (every (body_at image.now p) 2 1 n) }
{
    Fields::of(image, p, 2, 1, n).all(|r| lookup::type_of(image, v, r) % 16 == types::INTEGER)
}

/// MOVE: a shared source within d.
fn move_fits(image: &[u8], v: usize, b: usize, p: usize) -> bool
    ensures { result ≡ fits (program (records image.now)) (version_at image.now v) b (instr_of kind.MOVE (body_at image.now p)) }
{
    registers::is_shared(image, v, p, 1)
        && registers::takes_plain(image, v, p, 0, registers::kind_in(image, v, p, 1))
}

/// USE: an owned vector, not in a promise block, into a d for a fresh vector.
fn use_fits(image: &[u8], v: usize, b: usize, p: usize) -> bool
    ensures { result ≡ fits (program (records image.now)) (version_at image.now v) b (instr_of kind.USE (body_at image.now p)) }
{
    if b == 0 {
        registers::is_owned(image, v, p, 1) && registers::takes_fresh(image, v, p, 0)
    } else {
        false
    }
}

/// DUP: any vector, into a d for a fresh vector.
fn dup_fits(image: &[u8], v: usize, b: usize, p: usize) -> bool
    ensures { result ≡ fits (program (records image.now)) (version_at image.now v) b (instr_of kind.DUP (body_at image.now p)) }
{
    registers::is_vector(image, v, p, 1) && registers::takes_fresh(image, v, p, 0)
}

/// VEC: integers, into a d for a fresh vector.
fn vec_fits(image: &[u8], v: usize, b: usize, p: usize) -> bool
    ensures { result ≡ fits (program (records image.now)) (version_at image.now v) b (instr_of kind.VEC (body_at image.now p)) }
{
    all_integers(image, v, p, layout::field(image, p, 1)) && registers::takes_fresh(image, v, p, 0)
}

/// LEN: any vector, into a d for an integer.
fn len_fits(image: &[u8], v: usize, b: usize, p: usize) -> bool
    ensures { result ≡ fits (program (records image.now)) (version_at image.now v) b (instr_of kind.LEN (body_at image.now p)) }
{
    registers::is_vector(image, v, p, 1) && registers::takes_plain(image, v, p, 0, types::INTEGER)
}

/// GET: any vector and an index, into a d for an integer.
fn get_fits(image: &[u8], v: usize, b: usize, p: usize) -> bool
    ensures { result ≡ fits (program (records image.now)) (version_at image.now v) b (instr_of kind.GET (body_at image.now p)) }
{
    if registers::is_vector(image, v, p, 1) {
        registers::is_integer(image, v, p, 2)
            && registers::takes_plain(image, v, p, 0, types::INTEGER)
    } else {
        false
    }
}

/// SET: an owned vector, an index and an item, not in a promise block.
fn set_fits(image: &[u8], v: usize, b: usize, p: usize) -> bool
    ensures { result ≡ fits (program (records image.now)) (version_at image.now v) b (instr_of kind.SET (body_at image.now p)) }
{
    if b == 0 {
        if registers::is_owned(image, v, p, 0) {
            registers::is_integer(image, v, p, 1) && registers::is_integer(image, v, p, 2)
        } else {
            false
        }
    } else {
        false
    }
}

/// ARITH: integers, into a d for one.
fn arith_fits(image: &[u8], v: usize, b: usize, p: usize) -> bool
    ensures { result ≡ fits (program (records image.now)) (version_at image.now v) b (instr_of kind.ARITH (body_at image.now p)) }
{
    if registers::is_integer(image, v, p, 2) {
        registers::is_integer(image, v, p, 3)
            && registers::takes_plain(image, v, p, 0, types::INTEGER)
    } else {
        false
    }
}

/// SELECT: integers, into a d for one.
fn select_fits(image: &[u8], v: usize, b: usize, p: usize) -> bool
    ensures { result ≡ fits (program (records image.now)) (version_at image.now v) b (instr_of kind.SELECT (body_at image.now p)) }
{
    if registers::is_integer(image, v, p, 1) {
        if registers::is_integer(image, v, p, 2) {
            registers::is_integer(image, v, p, 3)
                && registers::takes_plain(image, v, p, 0, types::INTEGER)
        } else {
            false
        }
    } else {
        false
    }
}

/// CAST: a shared source, into a shared d.
fn cast_fits(image: &[u8], v: usize, b: usize, p: usize) -> bool
    ensures { result ≡ fits (program (records image.now)) (version_at image.now v) b (instr_of kind.CAST (body_at image.now p)) }
{
    registers::is_shared(image, v, p, 1) && registers::is_shared(image, v, p, 0)
}

/// FORCE: a promise, into a d for an integer.
fn force_fits(image: &[u8], v: usize, b: usize, p: usize) -> bool
    ensures { result ≡ fits (program (records image.now)) (version_at image.now v) b (instr_of kind.FORCE (body_at image.now p)) }
{
    registers::is_promise(image, v, p, 1) && registers::takes_plain(image, v, p, 0, types::INTEGER)
}

/// PEEK: a promise, into a d for a value.
fn peek_fits(image: &[u8], v: usize, b: usize, p: usize) -> bool
    ensures { result ≡ fits (program (records image.now)) (version_at image.now v) b (instr_of kind.PEEK (body_at image.now p)) }
{
    registers::is_promise(image, v, p, 1) && registers::takes_plain(image, v, p, 0, types::VALUE)
}

/// POKE: a promise and a value.
fn poke_fits(image: &[u8], v: usize, b: usize, p: usize) -> bool
    ensures { result ≡ fits (program (records image.now)) (version_at image.now v) b (instr_of kind.POKE (body_at image.now p)) }
{
    registers::is_promise(image, v, p, 0) && registers::is_value(image, v, p, 2)
}

/// PROM: a d for a promise of its block's mark.
fn prom_fits(image: &[u8], v: usize, b: usize, p: usize) -> bool
    ensures { result ≡ fits (program (records image.now)) (version_at image.now v) b (instr_of kind.PROM (body_at image.now p)) }
{
    let Some(q) = lookup::block(image, v, layout::field(image, p, 1)) else {
        return false;
    };
    registers::takes_plain(image, v, p, 0, types::PROMISE + layout::field(image, q, 0))
}

/// CALL: the arguments and the return of the version that it names.
fn call_fits(tabled: Tabled, v: usize, b: usize, p: usize) -> bool
    ensures { result ≡ fits (program (records tabled.entry.image.now)) (version_at tabled.entry.image.now v) b (instr_of kind.CALL (body_at tabled.entry.image.now p)) }
{
    let image = tabled.image;
    let f = layout::field(image, p, 1);
    let w = layout::field(image, p, 2);
    let Some(q) = tabled.version(f, w) else {
        return false;
    };
    arguments::call_fits(
        image,
        v,
        b,
        p,
        arguments::of_call(image, p, q),
        layout::field(image, q, 4),
    )
}

/// DISPATCH: the arguments and the return of its own signature.
fn dispatch_fits(image: &[u8], v: usize, b: usize, p: usize) -> bool
    ensures { result ≡ fits (program (records image.now)) (version_at image.now v) b (instr_of kind.DISPATCH (body_at image.now p)) }
{
    arguments::call_fits(
        image,
        v,
        b,
        p,
        arguments::of_dispatch(image, p),
        layout::field(image, p, 3),
    )
}

/// Do the types of the instruction fit?
pub(crate) fn instruction_fits(tabled: Tabled, v: usize, b: usize, p: usize) -> bool
    ensures { result ≡ fits (program (records tabled.entry.image.now)) (version_at tabled.entry.image.now v) b (instr_at tabled.entry.image.now p) }
{
    let image = tabled.image;
    match layout::kind_at(image, p) {
        kinds::MOVE => move_fits(image, v, b, p),
        kinds::USE => use_fits(image, v, b, p),
        kinds::DUP => dup_fits(image, v, b, p),
        kinds::VEC => vec_fits(image, v, b, p),
        kinds::LEN => len_fits(image, v, b, p),
        kinds::GET => get_fits(image, v, b, p),
        kinds::SET => set_fits(image, v, b, p),
        kinds::ARITH => arith_fits(image, v, b, p),
        kinds::SELECT => select_fits(image, v, b, p),
        kinds::CAST => cast_fits(image, v, b, p),
        kinds::NAMED => registers::takes_plain(image, v, p, 0, types::VALUE),
        kinds::STORE => registers::is_value(image, v, p, 1),
        kinds::PROM => prom_fits(image, v, b, p),
        kinds::FORCE => force_fits(image, v, b, p),
        kinds::PEEK => peek_fits(image, v, b, p),
        kinds::POKE => poke_fits(image, v, b, p),
        kinds::CALL => call_fits(tabled, v, b, p),
        kinds::DISPATCH => dispatch_fits(image, v, b, p),
        kinds::SKIP => registers::is_integer(image, v, p, 0),
        _ => registers::takes_plain(image, v, p, 0, types::INTEGER),
    }
}

/// Does the result register of the body at `p` fit the return of the version at `v`?
fn body_result_fits(image: &[u8], v: usize, p: usize) -> bool
    ensures { result ≡ fits_result (version_at image.now v) 0 (block_at image.now p) }
{
    let t = layout::field(image, v, 4);
    if types::is_within(registers::kind_in(image, v, p, 1), t % 16) {
        if t / 16 == ownerships::OWNED {
            registers::is_owned(image, v, p, 1)
        } else {
            registers::type_in(image, v, p, 1) / 16 != ownerships::BORROWED
        }
    } else {
        false
    }
}

/// Does the result register of the BLOCK at `p`, the block `b` of the version at `v`, fit?
pub fn result_fits(image: &[u8], v: usize, b: usize, p: usize) -> bool
    ensures { result ≡ fits_result (version_at image.now v) b (block_at image.now p) }
{
    if b == 0 {
        body_result_fits(image, v, p)
    } else {
        registers::is_integer(image, v, p, 1)
    }
}
