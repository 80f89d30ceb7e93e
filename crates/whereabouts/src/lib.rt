//! What is asked of a state: where it stands in its image, by the numbers of its version, its block and what is next there, and by an offset;
//! and what a place of a live call holds.
#![tactic(auto)]

ghost use Rattle.std.specs.Prelude.{List, ◌≡◌, ◌-◌, ℤ};
ghost use Rattle.loaded.specs.Loaded.{place_in, program_in};
ghost use Rattle.machine.specs.Frames.{read_of};
ghost use Rattle.store.specs.Store.{state_in};
ghost use Rattle.whereabouts.specs.Looks.{look_of};
ghost use Rattle.whereabouts.specs.Where.{where_by, where_of};

use loaded::{Next, lookup};
use machine::Value;
use store::{cells, stack};

/// How many frames and activations a state has.
const ACTIVATIONS: usize = 32;

/// How many registers and names a frame has.
const CELLS: usize = 24;

/// Where the function and the version of a frame stand in its 32 bytes.
const FUNCTION: usize = 24;

const VERSION: usize = 25;

/// Where the numbers of live calls and activations stand.
const CALLS: usize = 2624;

const DEPTH: usize = 2625;

/// Where a state stands: at an instruction or at the end of a block, with the function, the version, the block, the number of
/// what is next in the block, and the offset of the instruction's record, or at the end of the block's own.
#[derive(Clone, Copy)]
pub enum Where {
    Instruction(u8, u8, u8, u8, usize),
    BlockEnd(u8, u8, u8, u8, usize),
}

/// The offset of the block or instruction of the table's record `i`.
fn offset(table: &[u8], i: u32) -> usize
    ensures { result ≡ place_in table.now i - 2 }
{
    let place = lookup::place_at(table, i) as usize;
    if place < 2 { 0 } else { place - 2 }
}

/// Where what is next in a block of a version stands, by their numbers; nothing where there is none.
fn spot(image: &[u8], table: &[u8], function: u8, version: u8, block: u8, next: u8) -> Option<Where>
    ensures { result ≡ where_by (program_in image.now table.now) function version block next }
{
    let k = lookup::version(table, function, version)?;
    let i = lookup::block(image, table, k, block)?;
    let own = i as u32;
    match lookup::next(table, i, next)? {
        Next::End => {
            let at = offset(table, own);
            Some(Where::BlockEnd(function, version, block, next, at))
        }
        Next::Line(_) => {
            let at = offset(table, own + 1 + (next as u32));
            Some(Where::Instruction(function, version, block, next, at))
        }
    }
}

/// Where the state of these bytes stands, ended or not, whatever its numbers are; nothing where it stands nowhere.
pub fn stand(image: &[u8], table: &[u8], bytes: &[u8; 2632]) -> Option<Where>
    ensures { (n : List ℤ) → result ≡ where_of (program_in image.now table.now) (state_in bytes.now n) }
{
    let depth = layout::wide(bytes[DEPTH]);
    if depth == 0 {
        return None;
    }
    if ACTIVATIONS < depth {
        return None;
    }
    let top = stack::activation(bytes, depth - 1);
    let k = layout::wide(top.frame);
    if ACTIVATIONS <= k {
        return None;
    }
    if layout::wide(bytes[CALLS]) <= k {
        return None;
    }
    let function = bytes[32 * k + FUNCTION];
    let version = bytes[32 * k + VERSION];
    spot(image, table, function, version, top.block, top.next)
}

/// What the place `place` of the live call `call` holds, the oldest being 0: its registers are 0 to 15, its names behind them.
pub fn look(bytes: &[u8; 2632], numbers: &[i64; 2129], call: usize, place: usize) -> Option<Value>
    ensures { result ≡ read_of (look_of (state_in bytes.now numbers.now) call place) }
{
    if ACTIVATIONS <= call {
        return None;
    }
    if layout::wide(bytes[CALLS]) <= call {
        return None;
    }
    if CELLS <= place {
        return None;
    }
    let value = cells::cell(bytes, numbers, call, place);
    Some(value)
}
