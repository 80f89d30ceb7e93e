//! Look-ups in the program that an image and a table stand for, for any image and any table. What the table alone says, it says for every image `s`.
ghost use Rattle.std.specs.Prelude.{List, ◌≡◌, ℕ, ◌<◌, length, take};
ghost use Rattle.std.proofs.Math.ListN.{get_elem?};
ghost use Rattle.layout.specs.Bounds.{INSTRUCTIONS};
ghost use Rattle.layout.specs.Records.{◌!◌};
ghost use Rattle.program.specs.Program.{find_version, mark_of};
ghost use Rattle.machine.specs.Steps.{position};
ghost use Rattle.loaded.specs.Loaded.{block_in, entry_in, place_in, program_in, version_in};
ghost use Rattle.loaded.specs.Answers.{block_of, next_of, version_of};

use crate::Next;

/// The first entry of blocks.
const BLOCK_ENTRIES: u16 = 128;

/// The instructions of a block that count.
const INSTRUCTIONS: u8 = 48;

/// The version `w` of the function `f`.
pub fn version(table: &[u8], f: u8, w: u8) -> Option<u8>
    ensures { (s : List ℕ) → version_of s table.now result ≡ find_version (program_in s table.now) f w }
{
    if 32 <= f {
        return None;
    }
    if 4 <= w {
        return None;
    }
    let k = 4 * f + w;
    if crate::entry(table, k as u16) == 0 {
        return None;
    }
    Some(k)
}

/// Where the record of the version under the number `k` stands in the image.
fn head(table: &[u8], k: u8) -> usize
    ensures { (result ≡ entry_in table.now k) × (result < 65536) }
{
    crate::entry(table, k as u16) as usize
}

/// How many parameters the version under the number `k` has.
pub fn parameters(image: &[u8], table: &[u8], k: u8) -> u8
    ensures { result ≡ (version_in image.now table.now k).parameters }
{
    crate::byte(image, head(table, k) + 4)
}

/// How many registers it has.
pub fn registers(image: &[u8], table: &[u8], k: u8) -> u8
    ensures { result ≡ length (version_in image.now table.now k).types }
{
    crate::byte(image, head(table, k) + 5)
}

/// The type of its register `r`, or 0 where it has no such register.
pub fn type_of(image: &[u8], table: &[u8], k: u8, r: u8) -> u8
    ensures { result ≡ (version_in image.now table.now k).types ! r }
{
    let e = head(table, k);
    if r < crate::byte(image, e + 5) {
        crate::byte(image, e + 8 + (r as usize))
    } else {
        0
    }
}

/// Its return type.
pub fn returns(image: &[u8], table: &[u8], k: u8) -> u8
    ensures { result ≡ (version_in image.now table.now k).return }
{
    crate::byte(image, head(table, k) + 6)
}

/// Its level.
pub fn level(image: &[u8], table: &[u8], k: u8) -> u8
    ensures { result ≡ (version_in image.now table.now k).level }
{
    let e = head(table, k);
    crate::byte(image, e + 12 + (crate::byte(image, e + 5) as usize))
}

/// How many blocks it has.
pub fn blocks(image: &[u8], table: &[u8], k: u8) -> u8
    ensures { result ≡ length (version_in image.now table.now k).blocks }
{
    crate::byte(image, head(table, k) + 7)
}

/// The record of its block `b`.
pub fn block(image: &[u8], table: &[u8], k: u8, b: u8) -> Option<u16>
    ensures { block_of image.now table.now result ≡ get_elem? (version_in image.now table.now k).blocks b }
{
    if b < blocks(image, table, k) {
        Some(crate::entry(table, BLOCK_ENTRIES + 8 * (k as u16) + (b as u16)))
    } else {
        None
    }
}

/// The mark of the block of the record `i`: 0 is quiet, all else reflective.
pub fn mark_at(table: &[u8], i: u16) -> u8
    ensures { ((s : List ℕ) → result ≡ (block_in s table.now i).mark) × (result < 2) }
{
    if crate::byte(table, crate::RECORDS + 8 * (i as usize) + 1) == 0 {
        0
    } else {
        1
    }
}

/// Its result register.
pub fn result_at(table: &[u8], i: u16) -> u8
    ensures { (s : List ℕ) → result ≡ (block_in s table.now i).result }
{
    crate::byte(table, crate::RECORDS + 8 * (i as usize) + 2)
}

/// How many instructions it has: none where the table ends before their records do.
pub fn count_at(table: &[u8], i: u16) -> u8
    ensures { (s : List ℕ) → result ≡ length (block_in s table.now i).code }
{
    let e = i as usize;
    let count = crate::byte(table, crate::RECORDS + 8 * e + 3);
    if crate::RECORDS + 8 * (e + 1 + (count as usize)) <= table.len() {
        count
    } else {
        0
    }
}

/// The place of the block or instruction of the record `i`.
pub fn place_at(table: &[u8], i: u32) -> u16
    ensures { result ≡ place_in table.now i }
{
    crate::pair(table, crate::RECORDS + 8 * (i as usize) + 6)
}

/// The mark of the version under the number `k`: that of its block 0, or 0 where it has no block.
pub fn mark(image: &[u8], table: &[u8], k: u8) -> u8
    ensures { result ≡ mark_of (version_in image.now table.now k) }
{
    let Some(i) = block(image, table, k, 0) else {
        return 0;
    };
    mark_at(table, i)
}

/// What stands at the number `n` in the block of the record `i`; nothing behind its end.
pub fn next(table: &[u8], i: u16, n: u8) -> Option<Next>
    ensures { (s : List ℕ) → next_of s table.now result ≡ position (take INSTRUCTIONS (block_in s table.now i).code) n }
{
    let count = count_at(table, i);
    if n < INSTRUCTIONS {
        if n < count {
            return Some(Next::Line((i as u32) + 1 + (n as u32)));
        }
        if n == count {
            return Some(Next::End);
        }
        return None;
    }
    if n == INSTRUCTIONS {
        if INSTRUCTIONS <= count {
            return Some(Next::End);
        }
        return None;
    }
    None
}
