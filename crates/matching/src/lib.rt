//! Kinds of values under a loaded program, and what fits which types: MOVE, CAST, the ends of calls, and what CALL and DISPATCH call.
//! `image` and `table` are the loaded program, `bytes` the state's bytes; no answer depends on the state's numbers.
//! Versions are told by their numbers in the table. Kinds are numbers, 0 where there is none.
//! What a function requires, its callers keep: the loop of `running`, and `searches`, which asks first.
#![tactic(auto)]

ghost use Rattle.std.specs.Prelude.{◌≡◌, ◌*◌, ◌/◌, ◌%◌, ◌<◌, ◌≤◌, min, length, take};
ghost use Rattle.layout.specs.Records.{◌!◌, every};
ghost use Rattle.machine.specs.Calls.{versions_of};
ghost use Rattle.machine.specs.declared.Value.{Value};
ghost use Rattle.loaded.specs.Loaded.{program_in, version_in};
ghost use Rattle.matching.specs.Kinds.{Kinded, KindedCell, KindedRegister, OfValue, Returned, TypedBy};
ghost use Rattle.matching.specs.Codes.{Coded, KINDLESS, kinds_in};
ghost use Rattle.matching.specs.Arguments.{Matches, Passes, bit_of, picked_at, searched_at};
ghost use Rattle.matching.specs.Choosing.{choice, Cached, Chooses, Decides, DecidesBy, Holds, Keeps, Sited, called_at};

use integers::Fault;
use layout::kinds;
use loaded::{dispatch, lookup};
use typing::types;

/// A number above all codes of kinds: a register has none.
const KINDLESS: u32 = 65536;

/// The rows of a cache of choices.
const ROWS: usize = 64;

/// What a CALL or DISPATCH calls: the number of the version, and a bit in `owned` for each argument that goes to an owned parameter.
/// Where it calls none, UNDEF says that none fits.
#[derive(Clone, Copy)]
pub struct Choice {
    pub version: u8,
    pub owned: u8,
}

/// Where a CALL or DISPATCH stands: its frame, the number of its version, its place, its kind, how many registers it lists.
#[derive(Clone, Copy)]
pub struct Site {
    pub frame: usize,
    pub own: u8,
    pub place: u16,
    pub kind: u8,
    pub n: usize,
}

// ---- kinds

/// The kind of the promise `p`: 4 or 5, by the mark of its block in the version of its frame.
fn promise_kind(image: &[u8], table: &[u8], bytes: &[u8; 2632], p: u8) -> u8
    ensures { Kinded result image.now table.now bytes.now (Value.Promise p) × OfValue result }
{
    let i = p as usize;
    if 64 <= i {
        return 0;
    }
    let j = layout::wide(bytes[2304 + 4 * i]);
    if frames::is_live(bytes, j) {
        let Some(k) = lookup::version(table, bytes[32 * j + 24], bytes[32 * j + 25]) else {
            return 0;
        };
        let Some(e) = lookup::block(image, table, k, bytes[2304 + 4 * i + 1]) else {
            return 0;
        };
        (types::PROMISE + layout::wide(lookup::mark_at(table, e))) as u8
    } else {
        0
    }
}

/// The kind of the value that the tag and the place of a cell stand for.
pub fn kind(image: &[u8], table: &[u8], bytes: &[u8; 2632], tag: u8, place: u8) -> u8
    ensures { KindedCell result image.now table.now bytes.now tag place × OfValue result }
{
    if tag == 1 {
        return types::INTEGER as u8;
    }
    if tag == 2 {
        if place < 64 {
            return types::VECTOR as u8;
        }
        return 0;
    }
    if tag == 3 {
        return promise_kind(image, table, bytes, place);
    }
    0
}

/// The kind of what the register `r` of the frame `k` holds.
fn register_kind(image: &[u8], table: &[u8], bytes: &[u8; 2632], k: usize, r: u8) -> u8
    requires { k < 32 }
    ensures { KindedRegister result image.now table.now bytes.now k r × OfValue result }
{
    let c = r as usize;
    if 16 <= c {
        return 0;
    }
    let tag = bytes[32 * k + c];
    if tag == 1 {
        return types::INTEGER as u8;
    }
    kind(image, table, bytes, tag, bytes[1024 + 32 * k + c])
}

// ---- types

/// Is what the register `a` of the frame `k` holds of a kind within that of the register `d` of the version `own`? For MOVE and CAST; none where it is stuck.
/// Requires a frame below 32: the loop has asked it of the frame that is worked on, and a test would cost each step.
pub fn typed(
    image: &[u8],
    table: &[u8],
    bytes: &[u8; 2632],
    k: usize,
    own: u8,
    d: u8,
    a: u8,
) -> Option<bool>
    requires { k < 32 }
    ensures { TypedBy result image.now table.now bytes.now k own d a }
{
    let m = register_kind(image, table, bytes, k, a);
    if m == 0 {
        return None;
    }
    if lookup::registers(image, table, own) <= d {
        return None;
    }
    Some(types::is_within(
        m as usize,
        (lookup::type_of(image, table, own, d) % 16) as usize,
    ))
}

/// Is what the register `r` of the frame `k` holds of the kind that the version `own` returns? For the ends of calls; none where it is stuck.
/// Requires a frame below 32: the loop has asked it of the frame that is worked on, and a test would cost each end of a call.
pub fn returned(
    image: &[u8],
    table: &[u8],
    bytes: &[u8; 2632],
    k: usize,
    own: u8,
    r: u8,
) -> Option<bool>
    requires { k < 32 }
    ensures { Returned result image.now table.now bytes.now k own r }
{
    let m = register_kind(image, table, bytes, k, r);
    if m == 0 {
        return None;
    }
    Some(types::is_within(
        m as usize,
        (lookup::returns(image, table, own) % 16) as usize,
    ))
}

// ---- arguments

/// The `n` registers that a CALL or a DISPATCH lists, into `rs`: the byte of the image at `at` and each that stands `step` behind.
/// Requires a place of the table and at most 8 registers: the caller has read both by then, and a test would cost each call.
pub fn listed(image: &[u8], at: usize, step: usize, n: usize, rs: &mut [u8; 8])
    requires { (at < 131072) × (step < 3) × (n ≤ 8) × (length rs.old ≡ 8) }
    ensures { (take n rs.new ≡ every image.now at step n) × (length rs.new ≡ 8) }
{
    let mut p = at;
    for i in 0..n {
        rs[i] = loaded::byte(image, p);
        p += step;
    }
}

/// The code of the kinds of what the first `n` of the registers `rs` of the frame `k` hold: two bits for each; 65536 where one has none.
/// Requires a frame below 32 and at most 8 registers: the caller has asked both, and a test would cost each call.
pub fn code_of(
    image: &[u8],
    table: &[u8],
    bytes: &[u8; 2632],
    k: usize,
    rs: &[u8; 8],
    n: usize,
) -> u32
    requires { (k < 32) × (n ≤ 8) × (n ≤ length rs.now) }
    ensures { Coded result image.now table.now bytes.now k (take n rs.now) × (result ≤ KINDLESS) }
{
    let mut code: u32 = 0;
    for i in (0..n).rev() {
        let m = register_kind(image, table, bytes, k, rs[i]);
        if m == 0 {
            return KINDLESS;
        }
        code = 4 * code + ((m - 2) as u32);
    }
    code
}

/// The kinds of `n` arguments by their code.
/// Requires at most 8 arguments: the caller has asked it, and a test would cost each call.
pub fn kinds_in(code: u16, n: usize) -> [u8; 8]
    requires { n ≤ 8 }
    ensures { take n result ≡ kinds_in code n }
{
    let mut kinds = [0u8; 8];
    let mut c = code;
    for i in 0..n {
        kinds[i] = 2 + ((c % 4) as u8);
        c = c / 4;
    }
    kinds
}

/// The lesser of two numbers.
fn lesser(a: u8, b: u8) -> u8
    ensures { result ≡ min a b }
{
    if a < b { a } else { b }
}

/// 1 for an owned type, else 0.
fn bit(t: u8) -> u8
    ensures { result ≡ bit_of t }
{
    if t / 16 == 1 { 1 } else { 0 }
}

/// Are the first `n` of these the kinds of arguments for the version `j`, and which of them go to owned parameters?
fn matches(image: &[u8], table: &[u8], j: u8, kinds: &[u8; 8], n: usize) -> Option<u8>
    requires { (n ≤ 8) × (n ≤ length kinds.now) }
    ensures { Matches result (take n kinds.now) (version_in image.now table.now j) }
{
    let registers = lookup::registers(image, table, j);
    let most = lesser(lookup::parameters(image, table, j), registers);
    if n != most as usize {
        return None;
    }
    let mut owned: u8 = 0;
    for i in (0..n).rev() {
        let t = lookup::type_of(image, table, j, i as u8);
        if types::is_within(layout::wide(kinds[i]), (t % 16) as usize) {
            owned = 2 * owned + bit(t);
        } else {
            return None;
        }
    }
    Some(owned)
}

/// Does the DISPATCH at the place `p`, in the version `own`, with arguments of these kinds, pass the version `j`?
fn passes(
    image: &[u8],
    table: &[u8],
    own: u8,
    p: u16,
    j: u8,
    kinds: &[u8; 8],
    n: usize,
) -> Option<u8>
    requires { (n ≤ 8) × (n ≤ length kinds.now) }
    ensures { Passes result image.now table.now own p (take n kinds.now) (version_in image.now table.now j) }
{
    if dispatch::admits(image, table, own, p, j) {
        matches(image, table, j, kinds, n)
    } else {
        None
    }
}

/// What the DISPATCH at the place `p`, in the version `own`, calls with arguments of these kinds: the lowest version that it passes.
fn pick(
    image: &[u8],
    table: &[u8],
    own: u8,
    p: u16,
    kinds: &[u8; 8],
    n: usize,
) -> Result<Choice, Fault>
    requires { (n ≤ 8) × (n ≤ length kinds.now) }
    ensures { Decides result image.now table.now n (picked_at image.now table.now own p (take n kinds.now)) }
{
    let f = loaded::byte(image, p as usize + 3);
    for w in 0..4 {
        let Some(j) = lookup::version(table, f, w) else {
            continue;
        };
        if let Some(owned) = passes(image, table, own, p, j, kinds, n) {
            return Ok(Choice {
                version: j,
                owned: owned,
            });
        }
    }
    Err(Fault::Undef)
}

/// What the CALL at the place `p` calls with arguments of these kinds: the version that it names, where they match.
fn called(image: &[u8], table: &[u8], p: u16, kinds: &[u8; 8], n: usize) -> Result<Choice, Fault>
    requires { (n ≤ 8) × (n ≤ length kinds.now) }
    ensures { Decides result image.now table.now n (called_at image.now table.now p (take n kinds.now)) }
{
    let at = p as usize;
    let f = loaded::byte(image, at + 3);
    let w = loaded::byte(image, at + 4);
    let Some(j) = lookup::version(table, f, w) else {
        return Err(Fault::Stuck);
    };
    let Some(owned) = matches(image, table, j, kinds, n) else {
        return Err(Fault::Stuck);
    };
    Ok(Choice {
        version: j,
        owned: owned,
    })
}

/// What the CALL or DISPATCH calls, by the code of the kinds of its arguments.
fn decided(image: &[u8], table: &[u8], site: Site, code: u16) -> Result<Choice, Fault>
    requires { site.n ≤ 8 }
    ensures { DecidesBy result image.now table.now site code }
{
    let n = site.n;
    let place = site.place;
    let kinds = kinds_in(code, n);
    if layout::wide(site.kind) == kinds::CALL {
        called(image, table, place, &kinds, n)
    } else {
        pick(image, table, site.own, place, &kinds, n)
    }
}

// ---- the choices of a budget

/// Does the row whose four numbers begin at `i` of the cache say what is called at the place, for the key and the code?
fn holds(cache: &[u16; 256], i: usize, place: u16, key: u16, code: u16) -> bool
    requires { i < 253 }
    ensures { Holds result cache.now i place key code }
{
    if cache[i] != place {
        return false;
    }
    if cache[i + 1] != key {
        return false;
    }
    cache[i + 2] == code
}

/// The choice that the last number of a row says.
fn kept(to: u16) -> Choice
    ensures { result ≡ choice (to / 256) (to % 256) }
{
    Choice {
        version: (to / 256) as u8,
        owned: (to % 256) as u8,
    }
}

/// Keeps the choice in the row whose four numbers begin at `i` of the cache.
fn keep(cache: &mut [u16; 256], i: usize, place: u16, key: u16, code: u16, to: u16)
    requires { (i < 253) × (length cache.old ≡ 256) }
    ensures { Keeps cache.old cache.new i place key code to }
{
    cache[i] = place;
    cache[i + 1] = key;
    cache[i + 2] = code;
    cache[i + 3] = to;
}

/// What the CALL or DISPATCH calls whose registers are the first ones of `rs`. The cache says of codes of kinds what they led to before;
/// it is empty, 0 everywhere, at the start of a budget.
/// Requires a cache that says what is so: the loop keeps it from its start, and to ask what it says would be to search again.
pub fn choose(
    image: &[u8],
    table: &[u8],
    bytes: &[u8; 2632],
    cache: &mut [u16; 256],
    site: Site,
    rs: &[u8; 8],
) -> Result<Choice, Fault>
    requires { Sited image.now site rs.now × Cached image.now table.now cache.old }
    ensures { Chooses result image.now table.now bytes.now site rs.now × Cached image.now table.now
        cache.new }
{
    let kinds = code_of(image, table, bytes, site.frame, rs, site.n);
    if KINDLESS <= kinds {
        return Err(Fault::Stuck);
    }
    let code = kinds as u16;
    let place = site.place;
    let key = 256 * (site.kind as u16) + (site.own as u16);
    let i = 4 * ((place as usize / 8 + (code as usize)) % ROWS);
    if holds(cache, i, place, key, code) {
        return Ok(kept(cache[i + 3]));
    }
    let chosen = decided(image, table, site, code)?;
    keep(
        cache,
        i,
        place,
        key,
        code,
        256 * (chosen.version as u16) + (chosen.owned as u16),
    );
    Ok(chosen)
}

// ---- 02, request 4

/// How many versions the DISPATCH at the place `p`, in the version `own`, looks at with arguments of these kinds.
/// Requires at most 8 arguments: `searches` has asked it, and `kinds` has room for no more.
pub fn searched(image: &[u8], table: &[u8], own: u8, p: u16, kinds: &[u8; 8], n: usize) -> u8
    requires { (n ≤ 8) × (n ≤ length kinds.now) }
    ensures { result ≡ searched_at image.now table.now own p (take n kinds.now) }
{
    let f = loaded::byte(image, p as usize + 3);
    let mut c: u8 = 0;
    for w in 0..4 {
        let Some(j) = lookup::version(table, f, w) else {
            continue;
        };
        if passes(image, table, own, p, j, kinds, n).is_some() {
            return c + 1;
        }
        c += 1;
    }
    c
}

/// How many versions the function `f` has.
pub fn versions(image: &[u8], table: &[u8], f: u8) -> u8
    ensures { result ≡ versions_of (program_in image.now table.now) f }
{
    let mut c: u8 = 0;
    for w in 0..4 {
        if lookup::version(table, f, w).is_some() {
            c += 1;
        }
    }
    c
}
