//! The smallest mend of a refused image: one register type byte, tried in a copy.
#![tactic(auto)]

ghost use Rattle.std.specs.Prelude.{◌≡◌, not, true, ◌+◌, ◌<◌, length};
ghost use Rattle.layout.specs.Records.{◌!◌, records};
ghost use Rattle.program.specs.Program.{program};
ghost use Rattle.program.specs.Places.{asked, numbers, table_of};
ghost use Rattle.rules.specs.Types.{is_owned};
ghost use Rattle.checker.specs.Verdicts.{verdict_of};
ghost use Rattle.mends.specs.Mends.{VALUES, beside, first_place, first_value, is_accepted, mend_of, mendable, mends_by, places};
ghost use Rattle.mends.specs.Parts.{Among, Failing, Helps, Owned, Passing, RefusedBy, TYPES, Told, question_by};

use checker::{Refusal, questions};
use flow::question10;
use layout::kinds;
use layout::records::Records;
use program::lookup::Tabled;
use program::{Here, lookup, pass};
use typing::{question6, question8, question9};

/// A register type byte, by its offset, and its new value.
#[derive(Clone, Copy, Debug, PartialEq, Eq)]
pub struct Change {
    pub at: usize,
    pub value: u8,
}

/// What can be done for an image: nothing need be, it is accepted, with its number of versions; nothing can, it is refused by another
/// question than 6, 8, 9 and 10; beside such a refusal the byte and its new value, or that no such byte exists.
#[derive(Clone, Copy)]
pub enum Mended {
    Accepted(usize),
    Refused(Refusal),
    Byte(Refusal, Change),
    Unmended(Refusal),
}

/// The question of flow.
const FLOW: u8 = 10;

/// Where the register types of a VERSION begin.
const TYPES_AT: usize = 10;

/// May a change of a register type byte mend a refusal by this question?
fn may_mend(q: u8) -> bool
    ensures { result ≡ mendable q }
{
    match q {
        6 => true,
        8 => true,
        9 => true,
        10 => true,
        _ => false,
    }
}

/// The type bytes, lowest first.
fn type_byte(i: usize) -> u8
    requires { i < 8 }
    ensures { result ≡ TYPES ! i }
{
    if i < 6 {
        return i as u8;
    }
    if i == 6 {
        return 19;
    }
    35
}

/// Where a pass along the records stands at the record at which a question refused the image.
fn standing(image: &[u8], why: Refusal) -> Here
    requires { RefusedBy image.now why.question why.at }
    ensures { Told why.question result why.at image.now }
{
    let mut here = Here {
        version: image.len(),
        blocks: 0,
    };
    for record in Records::of(image) {
        here = pass::moved(image, here, record.at);
        if record.at == why.at {
            return here;
        }
    }
    here
}

/// What the question that refused asks of the record that failed, where a pass stands at `here`.
fn passes(tabled: Tabled, why: Refusal, here: Here) -> bool
    ensures { result ≡ asked (question_by why.question (program (records tabled.entry.image.now))) tabled.entry.image.now here why.at }
{
    match why.question {
        6 => question6::types_at(tabled.image, here, why.at),
        8 => question8::fits_at(tabled, here, why.at),
        9 => question9::covers_at(tabled, here, why.at),
        _ => question10::flows_at(tabled, here, why.at),
    }
}

/// Is the image accepted? The record that failed is asked first.
fn accepts(tabled: Tabled, why: Refusal, here: Here) -> bool
    requires { Passing why.question here why.at tabled.image.now }
    ensures { result ≡ is_accepted (verdict_of tabled.entry.image.now) }
{
    passes(tabled, why, here) && questions::verdict(tabled.image).is_ok()
}

/// Does the byte at `p`, changed to `x`, make the image accepted? It is changed back.
fn mends(image: &mut [u8], table: &[usize; 128], why: Refusal, here: Here, p: usize, x: u8) -> bool
    requires failing { Failing image.old table.now why.question why.at here }
    requires among { Among p (places (program (records image.old))) }
    ensures { (result ≡ mends_by image.old p x) × (image.new ≡ image.old) }
{
    let old = image[p];
    if old == x {
        return false;
    }
    image[p] = x;
    let m = accepts(Tabled { image, table }, why, here);
    image[p] = old;
    m
}

/// A type byte that is owned where `t` is not, and the other way round.
fn other_ownership(t: u8) -> u8
    ensures { is_owned result ≡ not (is_owned t) }
{
    if t / 16 == 1 {
        return 0;
    }
    19
}

/// Can a change of the byte at `p` help? Flow looks at a type by whether it is owned alone, so that one value tells of all that 10 may let pass.
fn may_help(image: &mut [u8], table: &[usize; 128], why: Refusal, here: Here, p: usize) -> bool
    requires failing { Failing image.old table.now why.question why.at here }
    requires among { Among p (places (program (records image.old))) }
    ensures { (Helps result image.old p) × (image.new ≡ image.old) }
{
    if why.question != FLOW {
        return true;
    }
    let was = image[p];
    let x = other_ownership(was);
    image[p] = x;
    let m = passes(Tabled { image, table }, why, here);
    image[p] = was;
    m
}

/// The lowest value of the byte at `p` that mends.
fn value_at(
    image: &mut [u8],
    table: &[usize; 128],
    why: Refusal,
    here: Here,
    p: usize,
) -> Option<Change>
    requires failing { Failing image.old table.now why.question why.at here }
    requires among { Among p (places (program (records image.old))) }
    ensures { (result ≡ first_value (mends_by image.old p) p TYPES) × (image.new ≡ image.old) }
{
    if !may_help(image, table, why, here, p) {
        return None;
    }
    for i in 0..8 {
        let x = type_byte(i);
        if mends(image, table, why, here, p, x) {
            return Some(Change { at: p, value: x });
        }
    }
    None
}

/// The lowest of `n` register type bytes from `from` on that mends.
fn place_in(
    image: &mut [u8],
    table: &[usize; 128],
    why: Refusal,
    here: Here,
    from: usize,
    n: usize,
) -> Option<Change>
    requires failing { Failing image.old table.now why.question why.at here }
    requires owned { Owned image.old from n }
    ensures { (result ≡ first_place (mends_by image.old) TYPES (numbers from n)) × (image.new ≡ image.old) }
{
    for i in 0..n {
        if let Some(hit) = value_at(image, table, why, here, from + i) {
            return Some(hit);
        }
    }
    None
}

/// The lowest register type byte that mends.
fn search(image: &mut [u8], table: &[usize; 128], why: Refusal, here: Here) -> Option<Change>
    requires { Failing image.old table.now why.question why.at here }
    ensures { (result ≡ first_place (mends_by image.old) TYPES (places (program (records image.old)))) × (image.new ≡ image.old) }
{
    let mut p: usize = 0;
    while p < image.len() {
        let n = layout::size_at(image, p);
        if n == 0 {
            return None;
        }
        if layout::kind_at(image, p) == kinds::VERSION {
            let many = lookup::registers(image, p);
            if let Some(hit) = place_in(image, table, why, here, p + TYPES_AT, many) {
                return Some(hit);
            }
            p += n;
        } else {
            p += n;
        }
    }
    None
}

/// The mend of an image that is refused, tried in a copy of its length.
fn mend_in(image: &[u8], copy: &mut [u8], why: Refusal) -> Option<Change>
    requires refusal { RefusedBy image.now why.question why.at }
    requires copy_len { length copy.old ≡ length image.now }
    ensures { result ≡ first_place (mends_by image.now) VALUES (places (program (records image.now))) }
{
    writer::put_bytes(copy, 0, image);
    let table = lookup::versions(image);
    let here = standing(image, why);
    search(copy, &table, why, here)
}

/// The mend of an image that is refused.
fn mend_refused(image: &[u8], why: Refusal) -> Mended
    requires { RefusedBy image.now why.question why.at }
    ensures { result ≡ beside why (first_place (mends_by image.now) VALUES (places (program (records image.now)))) }
{
    let n = image.len();
    let mut copy = [0u8; 32768];
    match mend_in(image, &mut copy[0..n], why) {
        Some(hit) => Mended::Byte(why, hit),
        None => Mended::Unmended(why),
    }
}

/// The one register type byte whose change makes a refused image accepted, lowest offset first, then lowest value. The image stays as it is.
pub fn mend(image: &[u8]) -> Mended
    ensures { result ≡ mend_of image.now }
{
    match questions::verdict(image) {
        Ok(n) => Mended::Accepted(n),
        Err(why) => {
            if may_mend(why.question) {
                mend_refused(image, why)
            } else {
                Mended::Refused(why)
            }
        }
    }
}
