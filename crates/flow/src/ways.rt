//! The ways of a block's walk, by the place where they join.
ghost use Rattle.std.specs.Prelude.{◌≡◌, ◌≤◌, ◌<◌, length, take};
ghost use Rattle.layout.specs.Records.{records};
ghost use Rattle.program.specs.Program.{program};
ghost use Rattle.program.specs.Places.{instr_at, view_at};
ghost use Rattle.rules.specs.Walks.{skips_of};
ghost use Rattle.flow.specs.Masks.{flowed};
ghost use Rattle.flow.specs.Ways.{place_in, target_of, goes_on, skip_in};

use crate::Action;
use layout::kinds;
use program::lookup;

/// Where an array of ways has those that lead to the place `i` of a block of `count` instructions: its last entry, which is
/// never written, where the block has no such place.
pub fn place(count: usize, i: usize) -> usize
    ensures { (result ≡ place_in count i) × (result < 51) }
{
    if count < i {
        return 50;
    }
    if 48 < i {
        return 50;
    }
    i
}

/// What is done behind the instruction `i`, where a SKIP past the end of the block is not allowed.
pub fn goes_on(now: Option<Action>, skip: usize, count: usize, i: usize) -> Option<Action>
    ensures { flowed result ≡ goes_on (skip_in skip) count i (flowed now) }
{
    if skip == 0 {
        return now;
    }
    if count < skip {
        return None;
    }
    if count - skip < i {
        return None;
    }
    now
}

/// Where an array of ways has those to the place to which a SKIP as the instruction `i` leads: the entry 49, which is never read,
/// for no SKIP and for one past the end.
pub fn target(skip: usize, count: usize, i: usize) -> usize
    ensures { (result ≡ target_of (skip_in skip) count i) × (result < 51) }
{
    if skip == 0 {
        return 49;
    }
    if count < skip {
        return 49;
    }
    if count - skip < i {
        return 49;
    }
    if 48 < i + skip {
        return 49;
    }
    i + skip
}

/// What the instruction at `p` may pass over: 0 for nothing, n + 1 for n.
pub fn skip_at(image: &[u8], p: usize) -> usize
    ensures { skip_in result ≡ skips_of (program (records image.now)) (instr_at image.now p) }
{
    if layout::kind_at(image, p) != kinds::SKIP {
        return 0;
    }
    layout::field(image, p, 1) + 1
}

/// How many instructions follow from `from` on, at most 48.
pub fn lines(image: &[u8], from: usize) -> usize
    ensures { (result ≡ length (take 48 (view_at image.now from).code)) × (result ≤ 48) }
{
    let mut p = from;
    for n in 0..48 {
        if !lookup::is_line(image, p) {
            return n;
        }
        p += layout::size_at(image, p);
    }
    48
}
