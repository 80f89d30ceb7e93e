//! The order of the list, and the rows as they are written.
ghost use Rattle.std.specs.Prelude.{◌≡◌, ◌+◌, ◌*◌, ◌/◌, ◌%◌, ◌<◌, ◌≤◌, length, set, [], map};
ghost use Rattle.machine.specs.Begin.{program_of};
ghost use Rattle.bounds.specs.Bounds.{bounded, by_number, entry_of, report};
ghost use Rattle.bounds.specs.Counts.{Begin, Begins, Ready, Stands, Worth, first_place, free_at, open_at};
ghost use Rattle.bounds.specs.Rows.{numbers_after, rest_from, steps_after};

use crate::{NONE, counts};
use program::lookup;
use program::lookup::Tabled;

/// Where the blocks of the version at `v` begin: behind its record and its level.
fn start(image: &[u8], v: usize) -> usize
    ensures { Begin image.now v result }
{
    if image.len() <= v {
        return v;
    }
    let mut p = v + layout::size_at(image, v);
    while lookup::is_line(image, p) {
        p += layout::size_at(image, p);
    }
    p
}

/// Where the blocks of each version of the table begin.
fn starts(tabled: Tabled) -> [usize; 128]
    ensures { Begins tabled.entry.image.now result 128 }
{
    let image = tabled.image;
    let table = tabled.table;
    let mut places = [0usize; 128];
    for k in 0..lookup::TABLE {
        places[k] = start(image, table[k]);
    }
    places
}

/// Is a version at the place `k` of the table, and not listed?
fn is_open(tabled: Tabled, known: &[u64; 128], k: usize) -> bool
    requires { k < 128 }
    ensures { result ≡ open_at tabled.entry.image.now known.now k }
{
    let image = tabled.image;
    let table = tabled.table;
    table[k] < image.len() && known[k] == 0
}

/// The place of the first version in order of number that is free to be listed. The counts go on from where they stand.
fn next_free(
    tabled: Tabled,
    known: &[u64; 128],
    places: &mut [usize; 128],
    sums: &mut [u64; 128],
) -> Option<usize>
    requires { Ready tabled.image.now known.now places.old sums.old }
    ensures { (result ≡ first_place (free_at tabled.entry.image.now known.now) 128 0) × Ready tabled.entry.image.now known.now places.new sums.new
        × Worth tabled.entry.image.now known.now sums.new result }
{
    let table = tabled.table;
    for k in 0..lookup::TABLE {
        if !is_open(tabled, known, k) {
            continue;
        }
        let c = counts::count(tabled, known, table[k], places[k], sums[k]);
        places[k] = c.at;
        sums[k] = c.steps;
        if c.whole {
            return Some(k);
        }
    }
    None
}

/// Writes the row `row`: the version at the place `k` of the table, with its steps.
fn put_row(numbers: &mut [u8; 128], steps: &mut [u64; 64], row: usize, k: usize, n: u64)
    requires { (row < 64) × (k < 128) }
    ensures { (numbers.new ≡ set (set numbers.old (2 * row) (k / 4)) (2 * row + 1) (k % 4)) × (steps.new ≡ set steps.old row n) }
{
    numbers[2 * row] = (k / 4) as u8;
    numbers[2 * row + 1] = (k % 4) as u8;
    steps[row] = n;
}

/// Lists the versions with a bound, each as soon as it is the first that is free, and keeps their numbers.
fn list_bounded(
    tabled: Tabled,
    known: &mut [u64; 128],
    numbers: &mut [u8; 128],
    steps: &mut [u64; 64],
) -> usize
    requires { Stands known.old [] × (length (by_number (program_of tabled.image.now)) ≤ 64) }
    ensures { (result ≡ length (bounded (program_of tabled.entry.image.now))) × Stands known.new (bounded (program_of tabled.entry.image.now))
        × (numbers.new ≡ numbers_after numbers.old 0 (map entry_of (bounded (program_of tabled.entry.image.now))))
        × (steps.new ≡ steps_after steps.old 0 (map entry_of (bounded (program_of tabled.entry.image.now)))) }
{
    let mut places = starts(tabled);
    let mut sums = [0u64; 128];
    for row in 0..layout::bounds::ALL_VERSIONS {
        let Some(k) = next_free(tabled, known, &mut places, &mut sums) else {
            return row;
        };
        let n = sums[k];
        put_row(numbers, steps, row, k, n);
        known[k] = n + 1;
    }
    layout::bounds::ALL_VERSIONS
}

/// Lists the versions that are not listed from the row `from` on, in order of number, with no bound.
fn list_rest(
    tabled: Tabled,
    known: &[u64; 128],
    numbers: &mut [u8; 128],
    steps: &mut [u64; 64],
    from: usize,
) -> usize
    requires { (from + length (rest_from tabled.image.now known.now 128 0) ≤ 64) }
    ensures { (result ≡ from + length (rest_from tabled.entry.image.now known.now 128 0))
        × (numbers.new ≡ numbers_after numbers.old from (rest_from tabled.entry.image.now known.now 128 0))
        × (steps.new ≡ steps_after steps.old from (rest_from tabled.entry.image.now known.now 128 0)) }
{
    let mut row = from;
    for k in 0..lookup::TABLE {
        if !is_open(tabled, known, k) {
            continue;
        }
        put_row(numbers, steps, row, k, NONE);
        row += 1;
    }
    row
}

/// Lists all versions of an image that has no more of them than there are rows, as an accepted one has.
pub fn list(image: &[u8], numbers: &mut [u8; 128], steps: &mut [u64; 64]) -> usize
    requires { length (by_number (program_of image.now)) ≤ 64 }
    ensures { (result ≡ length (report (program_of image.now))) × (numbers.new ≡ numbers_after numbers.old 0 (report (program_of image.now)))
        × (steps.new ≡ steps_after steps.old 0 (report (program_of image.now))) }
{
    let table = lookup::versions(image);
    let tabled = Tabled {
        image,
        table: &table,
    };
    let mut known = [0u64; 128];
    let row = list_bounded(tabled, &mut known, numbers, steps);
    list_rest(tabled, &known, numbers, steps, row)
}
