//! One step of a run at its spot, over a loaded image and the two arrays of a state.
//! `bytes` and `numbers` are the state; `counts` says what refers to its vectors and promises.
//! It serves the loop of `running`; what a function requires, the loop keeps, and a test would cost each step.
#![tactic(auto)]

ghost use Rattle.std.specs.Prelude.{List, ◌≡◌, ℕ, ◌+◌, ◌<◌, ◌≤◌, drop, length, take};
ghost use Rattle.layout.specs.declared.Form.{Form};
ghost use Rattle.layout.specs.Records.{◌!◌, fields};
ghost use Rattle.loaded.specs.Loaded.{few, record_at};
ghost use Rattle.matching.specs.Choosing.{Cached, Calling, count_at, registers_at};
ghost use Rattle.program.specs.Program.{CAST, FORCE, LIT, MOVE, PROM, SKIP, VEC, number_in};
ghost use Rattle.store.specs.Acts.{Executes, ExecutesWith};
ghost use Rattle.store.specs.Counts.{Ready};
ghost use Rattle.store.specs.Store.{DEPTH, Live};
ghost use Rattle.turning.specs.Standing.{Framed, Here, Located, length_in};
ghost use Rattle.turning.specs.declared.Turn.{Turn};
ghost use Rattle.turning.specs.Turning.{Answers, Chosen, Fit, Kept, Left, Looks, Opens, Quick, Stands, Stored, Turned, Turns, opened_of, own_in, turn_of};

use acts::Pair;
use ending::Ended;
use integers::Fault;
use listing::Callee;
use loaded::{RECORDS, decode, lookup};
use machine::Activation;
use matching::{Choice, Site};
use store::{Did, Halt, cells, stack};

/// Where a run stands: its frame, the record of its block, the record that comes next and the one behind its last instruction;
/// `last` is 0 where it stands nowhere. The run may have `most` vectors.
#[derive(Clone, Copy)]
pub struct Spot {
    pub frame: usize,
    pub block: usize,
    pub next: usize,
    pub last: usize,
    pub most: u8,
}

/// What a turn has done: gone on to the next instruction, or over some; gone to another activation, whose place stands in the state;
/// ended the run; nothing but to the number of the next instruction, where it is stuck or stopped; or it is left to the rest of the loop.
#[derive(Clone, Copy)]
pub enum Turn {
    On,
    Over(usize),
    Moved,
    Done,
    Stuck,
    Stop(Halt),
    Rest,
}

/// The spot of a run that stands nowhere.
fn nowhere(most: u8) -> Spot
    ensures { result ≡ record { frame = 0; block = 0; next = 1; last = 0; most = most } }
{
    Spot {
        frame: 0,
        block: 0,
        next: 1,
        last: 0,
        most: most,
    }
}

/// How many instructions of the block of the record `e` count.
fn lines(table: &[u8], e: u16) -> usize
    ensures { (result ≡ length_in table.now e) × (result ≤ 48) }
{
    let count = layout::wide(lookup::count_at(table, e));
    if count < layout::bounds::INSTRUCTIONS {
        count
    } else {
        layout::bounds::INSTRUCTIONS
    }
}

/// Where the activation on top, which works in the live frame `k`, stands.
fn framed(image: &[u8], table: &[u8], bytes: &[u8; 2632], k: usize, a: Activation, most: u8) -> Spot
    requires { Framed bytes.now k a }
    ensures { Located image.now table.now bytes.now result × (result.most ≡ most) }
{
    let Some(own) = lookup::version(table, bytes[32 * k + 24], bytes[32 * k + 25]) else {
        return nowhere(most);
    };
    let Some(i) = lookup::block(image, table, own, a.block) else {
        return nowhere(most);
    };
    let n = lines(table, i);
    let e = i as usize;
    Spot {
        frame: k,
        block: e,
        next: e + 1 + layout::wide(a.next),
        last: e + 1 + n,
        most: most,
    }
}

/// Where the run of the state stands.
pub fn locate(image: &[u8], table: &[u8], bytes: &[u8; 2632], most: u8) -> Spot
    ensures { Located image.now table.now bytes.now result × (result.most ≡ most) }
{
    let depth = layout::wide(bytes[2625]);
    if depth == 0 {
        return nowhere(most);
    }
    if 32 < depth {
        return nowhere(most);
    }
    let a = stack::activation(bytes, depth - 1);
    let k = layout::wide(a.frame);
    if frames::is_live(bytes, k) {
        framed(image, table, bytes, k, a, most)
    } else {
        nowhere(most)
    }
}

// ---- instructions that need their record alone

/// The turn of a plain instruction.
fn turned(did: Did) -> Turn
    ensures { result ≡ turn_of did }
{
    match did {
        Did::On => Turn::On,
        Did::Stuck => Turn::Stuck,
        Did::Stop(h) => Turn::Stop(h),
    }
}

/// Puts the activation on top at the spot's instruction, or at the one behind it.
/// Requires a live activation and a spot near its block: the loop keeps both, and a test would cost each call and each end.
pub fn store_next(bytes: &mut [u8; 2632], spot: Spot, behind: usize)
    requires { (0 < bytes.old ! DEPTH) × (bytes.old ! DEPTH ≤ 32) × (spot.block < spot.next) × (spot.next + behind ≤ spot.block + 256) × (spot.block < 65536) × (behind ≤ 1) }
    ensures { Stored bytes.old bytes.new spot behind }
{
    let depth = layout::wide(bytes[2625]);
    let x = spot.next + behind - (spot.block + 1);
    bytes[2048 + 8 * (depth - 1) + 5] = x as u8;
}

/// SKIP a n.
fn skip(bytes: &[u8; 2632], numbers: &[i64; 2129], spot: Spot, a: u8, n: u8) -> Turn
    requires { (spot.frame < 32) × (spot.block < spot.next) × (spot.next ≤ spot.block + 48) }
    ensures { (t c : List ℕ) → Ready bytes.now numbers.now c
        → Turns result t bytes.now numbers.now bytes.now numbers.now c spot (SKIP a n) }
{
    let Some(z) = cells::integer(bytes, numbers, spot.frame, a) else {
        return Turn::Stuck;
    };
    if integers::is_zero(z) {
        let over = layout::wide(n);
        if layout::bounds::INSTRUCTIONS < spot.next - spot.block + over {
            return Turn::Stuck;
        }
        Turn::Over(over)
    } else {
        Turn::On
    }
}

/// FORCE d a.
fn force(
    bytes: &mut [u8; 2632],
    numbers: &mut [i64; 2129],
    counts: &mut [u16; 800],
    spot: Spot,
    d: u8,
    a: u8,
) -> Turn
    requires { Ready bytes.old numbers.old counts.old × ((t : List ℕ) × Fit t bytes.old spot) }
    ensures { (t : List ℕ) → Turns result t bytes.old numbers.old bytes.new numbers.new counts.new spot (FORCE d a) }
{
    let depth = bytes[2625];
    store_next(bytes, spot, 1);
    match acts::force(bytes, numbers, counts, spot.frame, d, a) {
        Did::On => {
            if bytes[2625] == depth {
                return Turn::On;
            }
            Turn::Moved
        }
        Did::Stuck => Turn::Stuck,
        Did::Stop(h) => Turn::Stop(h),
    }
}

/// The instruction at the spot, where it needs its record alone.
fn line(
    table: &[u8],
    bytes: &mut [u8; 2632],
    numbers: &mut [i64; 2129],
    counts: &mut [u16; 800],
    spot: Spot,
) -> Turn
    requires { Ready bytes.old numbers.old counts.old × Fit table.now bytes.old spot × (spot.next < spot.last) }
    ensures { Quick result table.now bytes.old numbers.old bytes.new numbers.new counts.new spot }
{
    let k = spot.frame;
    let p = RECORDS + 8 * spot.next;
    match table[p] {
        18 => turned(acts::use_up(bytes, numbers, counts, k, table[p + 1], table[p + 2])),
        19 => turned(acts::dup(
            bytes,
            numbers,
            counts,
            k,
            table[p + 1],
            table[p + 2],
            spot.most,
        )),
        21 => turned(acts::len(bytes, numbers, counts, k, table[p + 1], table[p + 2])),
        22 => turned(acts::get(
            bytes,
            numbers,
            counts,
            k,
            table[p + 1],
            table[p + 2],
            table[p + 3],
        )),
        23 => turned(acts::set(
            bytes,
            numbers,
            counts,
            k,
            table[p + 1],
            table[p + 2],
            table[p + 3],
        )),
        24 => turned(acts::arith(
            bytes,
            numbers,
            counts,
            k,
            table[p + 1],
            table[p + 2],
            Pair {
                a: table[p + 3],
                b: table[p + 4],
            },
        )),
        25 => turned(acts::select(
            bytes,
            numbers,
            counts,
            k,
            table[p + 1],
            table[p + 2],
            Pair {
                a: table[p + 3],
                b: table[p + 4],
            },
        )),
        27 => turned(acts::named(bytes, numbers, counts, k, table[p + 1], table[p + 2])),
        28 => turned(acts::store_name(bytes, numbers, counts, k, table[p + 1], table[p + 2])),
        30 => force(bytes, numbers, counts, spot, table[p + 1], table[p + 2]),
        31 => turned(acts::peek(
            bytes,
            numbers,
            counts,
            k,
            table[p + 1],
            table[p + 2],
            table[p + 3],
        )),
        32 => turned(acts::poke(
            bytes,
            numbers,
            counts,
            k,
            table[p + 1],
            table[p + 2],
            table[p + 3],
        )),
        35 => skip(bytes, numbers, spot, table[p + 1], table[p + 2]),
        _ => Turn::Rest,
    }
}

/// The step of a run that stands at the spot, where its instruction needs its record alone; else it is left to the rest.
fn quick(
    table: &[u8],
    bytes: &mut [u8; 2632],
    numbers: &mut [i64; 2129],
    counts: &mut [u16; 800],
    spot: Spot,
) -> Turn
    requires { Ready bytes.old numbers.old counts.old × (spot.next < spot.last → Fit table.now bytes.old spot) }
    ensures { Quick result table.now bytes.old numbers.old bytes.new numbers.new counts.new spot
        × ((spot.next < spot.last → ⊥) → result ≡ Turn.Rest) }
{
    if spot.next < spot.last {
        return line(table, bytes, numbers, counts, spot);
    }
    Turn::Rest
}

// ---- instructions that look at the image

/// The number of the version of the frame `k`.
fn own(bytes: &[u8; 2632], k: usize) -> u8
    requires { (k < 32) × (own_in bytes.now k < 128) }
    ensures { result ≡ own_in bytes.now k }
{
    4 * bytes[32 * k + 24] + bytes[32 * k + 25]
}

/// MOVE, whose record is at `p` of the table.
fn moves(
    image: &[u8],
    table: &[u8],
    bytes: &mut [u8; 2632],
    numbers: &mut [i64; 2129],
    counts: &mut [u16; 800],
    k: usize,
    p: usize,
) -> Did
    requires { Ready bytes.old numbers.old counts.old × Live bytes.old k × (own_in bytes.old k < 128) × (p + 8 ≤ length table.now) }
    ensures { Looks result image.now table.now bytes.old numbers.old bytes.new numbers.new counts.new k
        (MOVE (table.now ! (p + 1)) (table.now ! (p + 2))) }
{
    let d = table[p + 1];
    let a = table[p + 2];
    let v = own(bytes, k);
    let typed = matching::typed(image, table, bytes, k, v, d, a);
    acts::move_typed(bytes, numbers, counts, k, d, a, typed)
}

/// CAST, whose record is at `p` of the table.
fn casts(
    image: &[u8],
    table: &[u8],
    bytes: &mut [u8; 2632],
    numbers: &mut [i64; 2129],
    counts: &mut [u16; 800],
    k: usize,
    p: usize,
) -> Did
    requires { Ready bytes.old numbers.old counts.old × Live bytes.old k × (own_in bytes.old k < 128) × (p + 8 ≤ length table.now) }
    ensures { Looks result image.now table.now bytes.old numbers.old bytes.new numbers.new counts.new k
        (CAST (table.now ! (p + 1)) (table.now ! (p + 2))) }
{
    let d = table[p + 1];
    let a = table[p + 2];
    let v = own(bytes, k);
    let typed = matching::typed(image, table, bytes, k, v, d, a);
    acts::cast_typed(bytes, numbers, counts, k, d, a, typed)
}

/// PROM, whose record is at `p` of the table.
fn delays(
    image: &[u8],
    table: &[u8],
    bytes: &mut [u8; 2632],
    numbers: &[i64; 2129],
    counts: &mut [u16; 800],
    k: usize,
    p: usize,
) -> Did
    requires { Ready bytes.old numbers.now counts.old × Live bytes.old k × (own_in bytes.old k < 128) × (p + 8 ≤ length table.now) }
    ensures { Looks result image.now table.now bytes.old numbers.now bytes.new numbers.now counts.new k
        (PROM (table.now ! (p + 1)) (table.now ! (p + 2))) }
{
    let d = table[p + 1];
    let block = table[p + 2];
    let v = own(bytes, k);
    let blocks = lookup::blocks(image, table, v);
    acts::prom(bytes, numbers, counts, k, d, block, blocks)
}

/// LIT at the place `e` of the image.
fn lits(
    image: &[u8],
    bytes: &mut [u8; 2632],
    numbers: &mut [i64; 2129],
    counts: &mut [u16; 800],
    k: usize,
    e: u16,
) -> Did
    requires { Ready bytes.old numbers.old counts.old × Live bytes.old k }
    ensures { Executes result bytes.old numbers.old bytes.new numbers.new counts.new k
        (LIT (image.now ! (e + 2)) (number_in Form.Wide (drop (e + 2) image.now))) }
{
    let d = loaded::byte(image, e as usize + 2);
    let i = decode::literal(image, e);
    acts::lit(bytes, numbers, counts, k, d, i)
}

/// How many registers are looked at of a list of `n`.
fn few(n: u8) -> usize
    ensures { (result ≡ few n) × (result ≤ 8) }
{
    if n < 8 {
        return layout::wide(n);
    }
    8
}

/// VEC at the place `e` of the image, of a run that may have `most` vectors.
fn vectors(
    image: &[u8],
    bytes: &mut [u8; 2632],
    numbers: &mut [i64; 2129],
    counts: &mut [u16; 800],
    k: usize,
    e: u16,
    most: u8,
) -> Did
    requires { Ready bytes.old numbers.old counts.old × Live bytes.old k }
    ensures { ExecutesWith most result bytes.old numbers.old bytes.new numbers.new counts.new k
        (VEC (image.now ! (e + 2)) (fields image.now (e + 4) (few (image.now ! (e + 3))))) }
{
    let at = e as usize;
    let d = loaded::byte(image, at + 2);
    let n = few(loaded::byte(image, at + 3));
    let mut rs = [0u8; 8];
    matching::listed(image, at + 4, 1, n, &mut rs);
    listing::vec(bytes, numbers, counts, k, d, &rs[0..n], most)
}

// ---- calls

/// The turn of an instruction that opens an activation.
fn opened(did: Did) -> Turn
    ensures { result ≡ opened_of did }
{
    match did {
        Did::On => Turn::Moved,
        Did::Stuck => Turn::Stuck,
        Did::Stop(h) => Turn::Stop(h),
    }
}

/// The registers that the CALL or DISPATCH at the place `e` of the image lists, and how many.
fn registers(image: &[u8], kind: u8, e: u16, rs: &mut [u8; 8]) -> usize
    requires { Calling kind × (length rs.old ≡ 8) }
    ensures { (result ≡ count_at image.now kind e) × (result ≤ 8) × (take result rs.new ≡ registers_at image.now kind e) × (length rs.new ≡ 8) }
{
    let at = e as usize;
    if kind == 33 {
        let n = few(loaded::byte(image, at + 5));
        matching::listed(image, at + 6, 1, n, rs);
        return n;
    }
    let n = few(loaded::byte(image, at + 6));
    matching::listed(image, at + 8, 2, n, rs);
    n
}

/// Enters what was chosen: the registers `rs` of the frame `k` go to a call for its register `d`.
fn enters(
    bytes: &mut [u8; 2632],
    numbers: &mut [i64; 2129],
    counts: &mut [u16; 800],
    k: usize,
    d: u8,
    choice: Result<Choice, Fault>,
    rs: &[u8],
) -> Turn
    requires { Ready bytes.old numbers.old counts.old × Live bytes.old k × Chosen choice bytes.old numbers.old k rs.now }
    ensures { Opens result choice bytes.old numbers.old bytes.new numbers.new counts.new k d rs.now }
{
    match choice {
        Ok(chosen) => {
            let callee = Callee {
                d: d,
                function: chosen.version / 4,
                version: chosen.version % 4,
            };
            opened(listing::enter(bytes, numbers, counts, k, callee, chosen.owned, rs))
        }
        Err(Fault::Undef) => Turn::Stop(Halt::Undef),
        Err(Fault::Stuck) => Turn::Stuck,
    }
}

/// CALL or DISPATCH.
fn calls(
    image: &[u8],
    table: &[u8],
    bytes: &mut [u8; 2632],
    numbers: &mut [i64; 2129],
    counts: &mut [u16; 800],
    cache: &mut [u16; 256],
    spot: Spot,
) -> Turn
    requires { Ready bytes.old numbers.old counts.old × Stands image.now table.now bytes.old numbers.old spot × Calling (table.now ! record_at spot.next)
        × Cached image.now table.now cache.old }
    ensures { Answers result image.now table.now bytes.old numbers.old bytes.new numbers.new counts.new spot
        × Cached image.now table.now cache.new }
{
    let kind = table[RECORDS + 8 * spot.next];
    let e = lookup::place_at(table, spot.next as u32);
    let k = spot.frame;
    let mut rs = [0u8; 8];
    let n = registers(image, kind, e, &mut rs);
    store_next(bytes, spot, 1);
    let site = Site {
        frame: k,
        own: own(bytes, k),
        place: e,
        kind: kind,
        n: n,
    };
    let choice = matching::choose(image, table, bytes, cache, site, &rs);
    let d = loaded::byte(image, e as usize + 2);
    enters(bytes, numbers, counts, k, d, choice, &rs[0..n])
}

// ---- the end of a block

/// The end of the block that the run stands at.
fn ends(
    image: &[u8],
    table: &[u8],
    bytes: &mut [u8; 2632],
    numbers: &mut [i64; 2129],
    counts: &mut [u16; 800],
    spot: Spot,
) -> Turn
    requires { Ready bytes.old numbers.old counts.old × Here image.now table.now bytes.old numbers.old spot × (spot.next ≡ spot.last) }
    ensures { Answers result image.now table.now bytes.old numbers.old bytes.new numbers.new counts.new spot }
{
    store_next(bytes, spot, 0);
    let k = spot.frame;
    let r = lookup::result_at(table, spot.block as u16);
    let v = own(bytes, k);
    let typed = matching::returned(image, table, bytes, k, v, r);
    match ending::end_block(bytes, numbers, counts, k, r, typed) {
        Ended::Back => {
            if bytes[2626] == 0 {
                return Turn::Moved;
            }
            Turn::Done
        }
        Ended::Done => Turn::Done,
        Ended::Stuck => Turn::Stuck,
    }
}

// ---- a turn

/// The instruction at the spot, where it looks at the image.
fn looks(
    image: &[u8],
    table: &[u8],
    bytes: &mut [u8; 2632],
    numbers: &mut [i64; 2129],
    counts: &mut [u16; 800],
    cache: &mut [u16; 256],
    spot: Spot,
) -> Turn
    requires { Ready bytes.old numbers.old counts.old × Stands image.now table.now bytes.old numbers.old spot × Left table.now spot.next
        × Cached image.now table.now cache.old }
    ensures { Answers result image.now table.now bytes.old numbers.old bytes.new numbers.new counts.new spot
        × Cached image.now table.now cache.new }
{
    let k = spot.frame;
    let p = RECORDS + 8 * spot.next;
    let e = lookup::place_at(table, spot.next as u32);
    match table[p] {
        17 => turned(moves(image, table, bytes, numbers, counts, k, p)),
        20 => turned(vectors(image, bytes, numbers, counts, k, e, spot.most)),
        26 => turned(casts(image, table, bytes, numbers, counts, k, p)),
        29 => turned(delays(image, table, bytes, numbers, counts, k, p)),
        33 => calls(image, table, bytes, numbers, counts, cache, spot),
        34 => calls(image, table, bytes, numbers, counts, cache, spot),
        _ => turned(lits(image, bytes, numbers, counts, k, e)),
    }
}

/// The step of a run at the spot, where its record alone does not do.
fn rest(
    image: &[u8],
    table: &[u8],
    bytes: &mut [u8; 2632],
    numbers: &mut [i64; 2129],
    counts: &mut [u16; 800],
    cache: &mut [u16; 256],
    spot: Spot,
) -> Turn
    requires { Ready bytes.old numbers.old counts.old × Kept image.now table.now bytes.old numbers.old spot × Cached image.now table.now cache.old
        × (spot.next < spot.last → Left table.now spot.next) }
    ensures { Turned result image.now table.now bytes.old numbers.old bytes.new numbers.new counts.new spot
        × Cached image.now table.now cache.new }
{
    if spot.next < spot.last {
        return looks(image, table, bytes, numbers, counts, cache, spot);
    }
    if spot.next == spot.last {
        return ends(image, table, bytes, numbers, counts, spot);
    }
    Turn::Stuck
}

/// The step of a run at the spot.
/// Requires `Ready` counts, a spot where the run stands and a cache that says what is so: the loop keeps them, and a test would cost each step.
pub fn advance(
    image: &[u8],
    table: &[u8],
    bytes: &mut [u8; 2632],
    numbers: &mut [i64; 2129],
    counts: &mut [u16; 800],
    cache: &mut [u16; 256],
    spot: Spot,
) -> Turn
    requires { Ready bytes.old numbers.old counts.old × Kept image.now table.now bytes.old numbers.old spot × Cached image.now table.now cache.old }
    ensures { Turned result image.now table.now bytes.old numbers.old bytes.new numbers.new counts.new spot
        × Cached image.now table.now cache.new }
{
    match quick(table, bytes, numbers, counts, spot) {
        Turn::On => Turn::On,
        Turn::Over(m) => Turn::Over(m),
        Turn::Moved => Turn::Moved,
        Turn::Done => Turn::Done,
        Turn::Stuck => Turn::Stuck,
        Turn::Stop(h) => Turn::Stop(h),
        Turn::Rest => rest(image, table, bytes, numbers, counts, cache, spot),
    }
}
