//! A new image for a run: its own questions, then 15, whether each version with a live frame is the same in both images.
#![tactic(auto)]

ghost use Rattle.std.specs.Prelude.{List, ◌≡◌, ◌≤◌, eqb, ℤ, length};
ghost use Rattle.layout.specs.Tests.{◌and◌};
ghost use Rattle.program.specs.Places.{asked};
ghost use Rattle.program.specs.Search.{first};
ghost use Rattle.machine.specs.Begin.{program_of};
ghost use Rattle.machine.specs.Changes.{same_bytes, is_live, same_in, question15, all_there, answer15, change_of};
ghost use Rattle.store.specs.Store.{state_in};
ghost use Rattle.changes.specs.Owners.{live_calls, owned_by};
ghost use Rattle.changes.specs.Parts.{end_at, part_at};

use checker::questions;
use layout::kinds;
use layout::records::Records;
use machine::Denial;
use program::lookup::Tabled;
use program::{Here, lookup, pass};

/// How many frames a state has.
const FRAMES: usize = 32;

/// Where the function and the version of a frame stand in its 32 bytes.
const FUNCTION: usize = 24;

const VERSION: usize = 25;

/// Where the number of live calls stands.
const CALLS: usize = 2624;

/// Where the version at `v` ends: at the next VERSION, or at the image's end.
fn version_end(image: &[u8], v: usize) -> usize
    requires { v ≤ length image.now }
    ensures { (result ≡ end_at image.now v) × (v ≤ result) × (result ≤ length image.now) }
{
    for record in Records::behind(image, v) {
        if record.size == 0 {
            return image.len();
        }
        if layout::kind_at(image, record.at) == kinds::VERSION {
            return record.at;
        }
    }
    image.len()
}

/// Are these the same bytes?
fn same(a: &[u8], b: &[u8]) -> bool
    ensures { result ≡ same_bytes a.now b.now }
{
    a == b
}

/// Has the version at `p` of the old image the same bytes as the one at `q` of the new image?
fn same_version(old: &[u8], p: usize, new: &[u8], q: usize) -> bool
    requires { (p ≤ length old.now) × (q ≤ length new.now) }
    ensures { result ≡ same_bytes (part_at old.now p) (part_at new.now q) }
{
    let e = version_end(old, p);
    let g = version_end(new, q);
    same(&old[p..e], &new[q..g])
}

/// Has the version `w` of the function `f` the same bytes in both images?
fn same_in(old: Tabled, new: Tabled, f: usize, w: usize) -> bool
    ensures { result ≡ same_in old.entry.image.now new.entry.image.now f w }
{
    let Some(p) = old.version(f, w) else {
        return false;
    };
    let Some(q) = new.version(f, w) else {
        return false;
    };
    same_version(old.image, p, new.image, q)
}

/// How many frames are those of live calls.
fn live_calls(bytes: &[u8; 2632]) -> usize
    ensures { (result ≡ live_calls bytes.now) × (result ≤ 32) }
{
    let n = layout::byte(bytes, CALLS);
    n.min(FRAMES)
}

/// Are these two the numbers `f` and `w`?
fn are(function: usize, version: usize, f: usize, w: usize) -> bool
    ensures { result ≡ (eqb function f and eqb version w) }
{
    function == f && version == w
}

/// Has the version `w` of the function `f` a live frame?
fn is_live(bytes: &[u8; 2632], f: usize, w: usize) -> bool
    ensures { result ≡ is_live (owned_by bytes.now) f w }
{
    let live = live_calls(bytes);
    for k in 0..live {
        let function = layout::byte(bytes, 32 * k + FUNCTION);
        let version = layout::byte(bytes, 32 * k + VERSION);
        if are(function, version, f, w) {
            return true;
        }
    }
    false
}

/// Is the record at `p` of the new image none that 15 refuses, where the pass stands at `here`? Only a VERSION is asked.
fn kept_at(old: Tabled, new: Tabled, bytes: &[u8; 2632], here: Here, p: usize) -> bool
    ensures { result ≡ asked (question15 old.entry.image.now new.entry.image.now (owned_by bytes.now)) new.entry.image.now here p }
{
    let image = new.image;
    if layout::kind_at(image, p) != kinds::VERSION {
        return true;
    }
    let f = layout::field(image, p, 0);
    let w = layout::field(image, p, 1);
    if is_live(bytes, f, w) {
        same_in(old, new, f, w)
    } else {
        true
    }
}

/// The new image's first version with a live frame that differs.
fn question_15(old: Tabled, new: Tabled, bytes: &[u8; 2632]) -> Option<usize>
    ensures { result ≡ first (question15 old.entry.image.now new.entry.image.now (owned_by bytes.now)) (program_of new.entry.image.now) }
{
    pass::first_failing(new.image, |here, p| kept_at(old, new, bytes, here, p))
}

/// Is the version of each live call one of the new image?
fn all_there(new: Tabled, bytes: &[u8; 2632]) -> bool
    ensures { result ≡ all_there (program_of new.entry.image.now) (owned_by bytes.now) }
{
    let live = live_calls(bytes);
    for k in 0..live {
        let function = layout::byte(bytes, 32 * k + FUNCTION);
        let version = layout::byte(bytes, 32 * k + VERSION);
        let Some(_) = new.version(function, version) else {
            return false;
        };
    }
    true
}

/// 15: the new image's first version with a live frame that differs, or the image's length where none does and one is missing.
fn answer_15(old: &[u8], new: &[u8], bytes: &[u8; 2632]) -> Option<usize>
    ensures { result ≡ answer15 old.now new.now (owned_by bytes.now) }
{
    let before = lookup::versions(old);
    let after = lookup::versions(new);
    let held = Tabled {
        image: old,
        table: &before,
    };
    let offered = Tabled {
        image: new,
        table: &after,
    };
    if let Some(p) = question_15(held, offered, bytes) {
        return Some(p);
    }
    if all_there(offered, bytes) {
        None
    } else {
        Some(new.len())
    }
}

/// Whether a state with these bytes goes on under the new image, whatever its numbers are. Nothing is written: the
/// state is carried over whole, and stays under the old image where the new one is refused.
pub fn change(old: &[u8], new: &[u8], bytes: &[u8; 2632]) -> Result<(), Denial>
    ensures { (n : List ℤ) → result ≡ change_of old.now new.now (state_in bytes.now n) }
{
    match questions::verdict(new) {
        Err(why) => Err(Denial {
            question: why.question,
            at: why.at as u16,
        }),
        Ok(_) => match answer_15(old, new, bytes) {
            None => Ok(()),
            Some(p) => Err(Denial {
                question: 15,
                at: p as u16,
            }),
        },
    }
}
