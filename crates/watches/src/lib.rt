//! 02, request 11, watching a call: the registers of the topmost call as records, written into a lent list.
//! Image and table stand for a program, bytes and numbers for a state, whatever they hold: no public function requires anything of them.
#![tactic(auto)]

ghost use Rattle.std.specs.Prelude.{List, ◌≡◌, ◌≤◌, ◌<◌, min, ℤ, length};
ghost use Rattle.std.proofs.Math.ListN.{get_elem?};
ghost use Rattle.layout.specs.Bounds.{REGISTERS};
ghost use Rattle.loaded.specs.Loaded.{program_in};
ghost use Rattle.machine.specs.States.{items_of, over};
ghost use Rattle.machine.specs.Watches.{items_at, mark_in, or_zero, row_of, rows_after, vector_row, watch_of, watched_of, zeros};
ghost use Rattle.store.specs.Store.{state_in, vector_in};
ghost use Rattle.watches.specs.Rows.{Tops, filled_by, plain_row, row_at};

use loaded::lookup;
use machine::{Denial, Row, Value};
use store::{cells, heap};

/// How many frames, vectors and promises a state has.
const FRAMES: usize = 32;

const VECTORS: usize = 64;

const PROMISES: usize = 64;

/// How many registers a frame has.
const REGISTERS: u8 = 16;

/// Where the function and the version of a frame stand in its 32 bytes.
const FUNCTION: usize = 24;

const VERSION: usize = 25;

/// Where the promises stand, 4 bytes each, and the number of live calls.
const DELAYS: usize = 2304;

const CALLS: usize = 2624;

/// What a record says of its register: it holds nothing, an integer, a vector, a promise.
const NOTHING: u8 = 0;

const INTEGER: u8 = 1;

const VECTOR: u8 = 2;

const PROMISE: u8 = 3;

/// The question to the lent list.
const LIST: u8 = 22;

/// The topmost call: its frame and the number of its version.
#[derive(Clone, Copy)]
struct Top {
    frame: usize,
    own: u8,
}

/// The topmost call, which is the newest frame, whatever block is at work; none with no live call.
fn topmost(table: &[u8], bytes: &[u8; 2632]) -> Option<Top>
    ensures { Tops result table.now bytes.now }
{
    let calls = layout::wide(bytes[CALLS]);
    if calls == 0 {
        return None;
    }
    if FRAMES < calls {
        return None;
    }
    let k = calls - 1;
    let function = bytes[32 * k + FUNCTION];
    let version = bytes[32 * k + VERSION];
    let own = lookup::version(table, function, version)?;
    Some(Top { frame: k, own: own })
}

/// Of so many registers those that a frame has.
fn most(n: u8) -> u8
    ensures { (result ≡ min REGISTERS n) × (result ≤ 16) }
{
    if n < REGISTERS { n } else { REGISTERS }
}

/// How many registers the topmost call has, 0 with no live call, whatever the state's numbers are.
pub fn count(image: &[u8], table: &[u8], bytes: &[u8; 2632]) -> u8
    ensures { ((n : List ℤ) → result ≡ length (watch_of (program_in image.now table.now) (state_in bytes.now n))) × (result ≤ 16) }
{
    let Some(top) = topmost(table, bytes) else {
        return 0;
    };
    let registers = lookup::registers(image, table, top.own);
    most(registers)
}

/// How many records of a list of `n` are filled, or 22 where it is too short, whatever the state's numbers are.
pub fn watched(image: &[u8], table: &[u8], bytes: &[u8; 2632], n: usize) -> Result<u8, Denial>
    ensures { (m : List ℤ) → result ≡ watched_of (program_in image.now table.now) (state_in bytes.now m) n }
{
    let k = count(image, table, bytes);
    if layout::wide(k) <= n {
        Ok(k)
    } else {
        Err(Denial {
            question: LIST,
            at: 0,
        })
    }
}

/// How many records of a list of `n` are written: none where it is too short.
fn fills(image: &[u8], table: &[u8], bytes: &[u8; 2632], n: usize) -> usize
    ensures { ((m : List ℤ) → result ≡ filled_by (watched_of (program_in image.now table.now) (state_in bytes.now m) n)) × (result ≤ n) }
{
    match watched(image, table, bytes, n) {
        Ok(k) => layout::wide(k),
        Err(_) => 0,
    }
}

/// A record without items.
fn plain(declared: u8, holds: u8, integer: i64, mark: u8) -> Row
    ensures { result ≡ plain_row declared holds integer mark }
{
    Row {
        integer: integer,
        items: [0i64; 16],
        declared: declared,
        holds: holds,
        length: 0,
        mark: mark,
    }
}

/// The items of the vector `v`, 0 behind them.
fn items(bytes: &[u8; 2632], numbers: &[i64; 2129], v: usize) -> [i64; 16]
    requires { v < 64 }
    ensures { result ≡ over (items_of (vector_in bytes.now numbers.now v)) zeros }
{
    let n = layout::wide(heap::items(bytes, numbers, v));
    let mut items = [0i64; 16];
    for j in 0..n {
        items[j] = heap::item(bytes, numbers, v, j);
    }
    items
}

/// The record of a register that holds the vector `v`.
fn vector(bytes: &[u8; 2632], numbers: &[i64; 2129], declared: u8, v: u8) -> Row
    ensures { result ≡ vector_row declared (items_at (get_elem? (state_in bytes.now numbers.now).vectors v)) }
{
    let place = v as usize;
    if VECTORS <= place {
        return plain(declared, VECTOR, 0, 0);
    }
    let length = heap::items(bytes, numbers, place);
    let items = items(bytes, numbers, place);
    Row {
        integer: 0,
        items: items,
        declared: declared,
        holds: VECTOR,
        length: length,
        mark: 0,
    }
}

/// The mark of the promise `p`: that of its block, in the version of its frame; 0 where there is no such promise.
fn mark(image: &[u8], table: &[u8], bytes: &[u8; 2632], p: u8) -> u8
    ensures { (n : List ℤ) → result ≡ or_zero (mark_in (program_in image.now table.now) (state_in bytes.now n) p) }
{
    let i = p as usize;
    if PROMISES <= i {
        return 0;
    }
    let j = layout::wide(bytes[DELAYS + 4 * i]);
    let block = bytes[DELAYS + 4 * i + 1];
    if frames::is_live(bytes, j) {
        let Some(k) = lookup::version(table, bytes[32 * j + FUNCTION], bytes[32 * j + VERSION])
        else {
            return 0;
        };
        let Some(e) = lookup::block(image, table, k, block) else {
            return 0;
        };
        lookup::mark_at(table, e)
    } else {
        0
    }
}

/// The record of a register that holds the value.
fn shown(
    image: &[u8],
    table: &[u8],
    bytes: &[u8; 2632],
    numbers: &[i64; 2129],
    declared: u8,
    value: Value,
) -> Row
    ensures { result ≡ row_of (program_in image.now table.now) (state_in bytes.now numbers.now) declared value }
{
    match value {
        Value::Empty => plain(declared, NOTHING, 0, 0),
        Value::Integer(z) => plain(declared, INTEGER, z, 0),
        Value::Vector(v) => vector(bytes, numbers, declared, v),
        Value::Promise(p) => plain(declared, PROMISE, 0, mark(image, table, bytes, p)),
    }
}

/// The record of the register `r` of the topmost call; all zero where it has no such register.
pub fn row<'s>(
    image: &[u8],
    table: &[u8],
    bytes: &'s [u8; 2632],
    numbers: &'s [i64; 2129],
    r: usize,
) -> Row
    ensures { result ≡ row_at (watch_of (program_in image.now table.now) (state_in bytes.now numbers.now)) r }
{
    let Some(top) = topmost(table, bytes) else {
        return plain(0, NOTHING, 0, 0);
    };
    let n = layout::wide(most(lookup::registers(image, table, top.own)));
    if n <= r {
        return plain(0, NOTHING, 0, 0);
    }
    let declared = lookup::type_of(image, table, top.own, r as u8);
    let value = cells::cell(bytes, numbers, top.frame, r);
    shown(image, table, bytes, numbers, declared, value)
}

/// Writes the records of the topmost call from the place 0 on, where the list has a place for each, and gives how many; all others stay.
pub fn fill<'s>(
    image: &[u8],
    table: &[u8],
    bytes: &'s [u8; 2632],
    numbers: &'s [i64; 2129],
    rows: &mut [Row],
) -> usize
    ensures { (result ≡ filled_by (watched_of (program_in image.now table.now) (state_in bytes.now numbers.now) (length rows.old)))
        × (rows.new ≡ rows_after (program_in image.now table.now) (state_in bytes.now numbers.now) rows.old) }
{
    let k = fills(image, table, bytes, rows.len());
    for i in 0..k {
        rows[i] = row(image, table, bytes, numbers, i);
    }
    k
}
