//! The steps of a version, counted by the bounds of those that it may enter.
ghost use Rattle.std.specs.Prelude.{◌≡◌, ◌+◌, ◌≤◌, true};
ghost use Rattle.layout.specs.Records.{◌!◌, body_at};
ghost use Rattle.program.specs.Places.{instr_at, version_at};
ghost use Rattle.program.specs.Program.{arguments, find_version};
ghost use Rattle.machine.specs.Begin.{program_of};
ghost use Rattle.bounds.specs.Bounds.{allows, fitting, passing, reaches};
ghost use Rattle.bounds.specs.Counts.{Goes, kept, kept_at, most};
ghost use Rattle.bounds.specs.Sums.{cap};

use crate::{Count, LIMIT, signatures};
use layout::{bounds, kinds};
use program::lookup;
use program::lookup::Tabled;

/// The sum of two numbers of steps, or `LIMIT` where it is more.
pub fn add(a: u64, b: u64) -> u64
    ensures { (result ≡ cap (a + b)) × (result ≤ 4294967296) }
{
    a.saturating_add(b).min(LIMIT)
}

/// The number that is kept of the version `w` of the function `f`: 0 where it is not listed, else one more than its bound.
fn kept(known: &[u64; 128], f: usize, w: usize) -> u64
    ensures { result ≡ kept_at known.now f w }
{
    if bounds::FUNCTIONS <= f {
        return 0;
    }
    if bounds::VERSIONS <= w {
        return 0;
    }
    known[bounds::VERSIONS * f + w]
}

/// What is kept of the version that the CALL at `at` names, at least 1.
fn called(tabled: Tabled, known: &[u64; 128], at: usize) -> u64
    ensures { result ≡ most (kept known.now) 1
        (passing (λ c. true) (find_version (program_of tabled.entry.image.now) (body_at tabled.entry.image.now at ! 1) (body_at tabled.entry.image.now at ! 2))) }
{
    let image = tabled.image;
    let f = layout::field(image, at, 1);
    let w = layout::field(image, at, 2);
    let Some(_) = tabled.version(f, w) else {
        return 1;
    };
    let n = kept(known, f, w);
    if n == 0 { 0 } else { n.max(1) }
}

/// The greatest number that is kept of the versions that the DISPATCH at `at`, in the version at `own`, allows, at least 1; 0 where one of them is not listed.
fn dispatched(tabled: Tabled, known: &[u64; 128], own: usize, at: usize) -> u64
    ensures { result ≡ most (kept known.now) 1
        (fitting (program_of tabled.entry.image.now) (body_at tabled.entry.image.now at ! 1)
        (allows (version_at tabled.entry.image.now own).level (body_at tabled.entry.image.now at ! 2) (body_at tabled.entry.image.now at ! 3)
        (arguments (body_at tabled.entry.image.now at) 5 (body_at tabled.entry.image.now at ! 4))) 4 0) }
{
    let image = tabled.image;
    let f = layout::field(image, at, 1);
    let mut greatest: u64 = 1;
    for w in 0..bounds::VERSIONS {
        let Some(v) = tabled.version(f, w) else {
            continue;
        };
        if !signatures::allows(image, own, at, v) {
            continue;
        }
        let n = kept(known, f, w);
        if n == 0 {
            return 0;
        }
        greatest = greatest.max(n);
    }
    greatest
}

/// The steps of the instruction at `at`, in the version at `own`, with the largest bound that it may reach; 0 where it may enter a version that is not listed.
fn reach(tabled: Tabled, known: &[u64; 128], own: usize, at: usize) -> u64
    ensures { result ≡ most (kept known.now) 1 (reaches (program_of tabled.entry.image.now) (version_at tabled.entry.image.now own) (instr_at tabled.entry.image.now at)) }
{
    let image = tabled.image;
    match layout::kind_at(image, at) {
        kinds::CALL => called(tabled, known, at),
        kinds::DISPATCH => dispatched(tabled, known, own, at),
        _ => 1,
    }
}

/// Counts the steps of the version at `own` from the record at `from` on, behind `steps` of them, as far as all that is entered is listed.
/// Part of the loop that lists versions, whose table is made once.
pub fn count(tabled: Tabled, known: &[u64; 128], own: usize, from: usize, steps: u64) -> Count
    ensures { Goes tabled.entry.image.now known.now own from steps result }
{
    let image = tabled.image;
    let mut p = from;
    let mut sum = steps;
    while p < image.len() {
        let n = layout::size_at(image, p);
        if n == 0 {
            return Count {
                at: p,
                steps: sum,
                whole: true,
            };
        }
        let k = layout::kind_at(image, p);
        if k == kinds::VERSION {
            return Count {
                at: p,
                steps: sum,
                whole: true,
            };
        }
        if k == kinds::BLOCK {
            sum = add(sum, 1);
            p += n;
        } else {
            let r = reach(tabled, known, own, p);
            if r == 0 {
                return Count {
                    at: p,
                    steps: sum,
                    whole: false,
                };
            }
            sum = add(sum, r);
            p += n;
        }
    }
    Count {
        at: p,
        steps: sum,
        whole: true,
    }
}
