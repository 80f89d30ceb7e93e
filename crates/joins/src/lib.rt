//! Two images into one, the first before the second.
#![tactic(auto)]

ghost use Rattle.std.specs.Prelude.{◌≡◌, cond, map, ◌+◌, ◌≤◌, length};
ghost use Rattle.layout.specs.Forms.{printed};
ghost use Rattle.layout.specs.Records.{size_at, records};
ghost use Rattle.writer.specs.Text.{placed};
ghost use Rattle.checker.specs.Verdicts.{refused, verdict_of};
ghost use Rattle.joins.specs.declared.JoinError.TheVariants.{Together};
ghost use Rattle.joins.specs.Joins.{joined_buffer, functions_in, in_bounds, joined, join_of, leaves, raise_rec};
ghost use Rattle.joins.specs.Parts.{Ready, Stands, function_place, raised_at};

use checker::{Refusal, questions};
use layout::kinds;
use layout::records::Records;

/// Why nothing is joined: a refusal of the first image or of the second, or one of both together.
#[derive(Clone, Copy, Debug, PartialEq, Eq)]
pub enum JoinError {
    First(Refusal),
    Second(Refusal),
    Together(Refusal),
}

/// How many functions an image has: one more than its last version's number.
pub fn functions(image: &[u8]) -> usize
    ensures { (result ≡ functions_in image.now) × (result ≤ 256) }
{
    let mut count: usize = 0;
    for record in Records::of(image) {
        if record.size == 0 {
            return count;
        }
        if layout::kind_at(image, record.at) == kinds::VERSION {
            count = layout::field(image, record.at, 0) + 1;
        }
    }
    count
}

/// Where the function of a record of this kind stands, from the record's begin on; 0 where it has none.
fn function_place(kind: usize) -> usize
    ensures { result ≡ function_place kind }
{
    match kind {
        kinds::VERSION => 4,
        kinds::CALL => 5,
        kinds::DISPATCH => 5,
        _ => 0,
    }
}

/// Puts the record at `p` at `at`, its function raised by `k`, and gives the place behind it.
fn put_record(image: &[u8], p: usize, k: u8, out: &mut [u8], at: usize) -> usize
    requires stands { Stands k image.now p }
    requires p_in_bounds { at + size_at image.now p ≤ length out.old }
    ensures { (result ≡ at + length (raised_at k image.now p)) × (out.new ≡ placed out.old at (raised_at k image.now p)) }
{
    let n = layout::size_at(image, p);
    writer::put_bytes(out, at, &image[p..p + n]);
    let i = function_place(layout::kind_at(image, p));
    if i == 0 {
        return at + n;
    }
    out[at + i] = out[at + i] + k;
    at + n
}

/// Puts all records from the place `from` on, each with its function raised by `k`.
fn put_records(image: &[u8], k: u8, out: &mut [u8], from: usize)
    requires ready { Ready k image.now }
    requires image_in_bounds { from + length image.now ≤ length out.old }
    ensures { out.new ≡ placed out.old from (printed (map (raise_rec k) (records image.now))) }
{
    let mut at = from;
    for record in Records::of(image) {
        at = put_record(image, record.at, k, out, at);
    }
}

/// Joins two images that passed their questions, with so many versions.
fn join_accepted(
    first: &[u8],
    second: &[u8],
    out: &mut [u8],
    n: usize,
    m: usize,
) -> Result<usize, JoinError>
    requires first_value { verdict_of first.now ≡ Ok n }
    requires second_value { verdict_of second.now ≡ Ok m }
    ensures { (result ≡ cond (in_bounds first.now second.now (length out.old)) (Ok (length first.now + length second.now))
        (Err (Together (refused 23 0)))) × (out.new ≡ leaves result out.old (joined first.now second.now)) }
{
    let size = first.len() + second.len();
    let no = Err(JoinError::Together(Refusal {
        question: 23,
        at: 0,
    }));
    if layout::bounds::IMAGE < size {
        return no;
    }
    let k = functions(first);
    if layout::bounds::FUNCTIONS < k + functions(second) {
        return no;
    }
    if layout::bounds::ALL_VERSIONS < n + m {
        return no;
    }
    if out.len() < size {
        return no;
    }
    writer::put_bytes(out, 0, first);
    put_records(second, k as u8, out, first.len());
    Ok(size)
}

/// Joins two images, the first before the second, whose functions follow the first's, into the buffer from place 0 on, and gives its length there. A refusal leaves the buffer as it was.
pub fn join(first: &[u8], second: &[u8], out: &mut [u8]) -> Result<usize, JoinError>
    ensures { (result ≡ join_of first.now second.now (length out.old))
        × (out.new ≡ joined_buffer first.now second.now out.old) }
{
    let n = questions::verdict(first).map_err(JoinError::First)?;
    let m = questions::verdict(second).map_err(JoinError::Second)?;
    join_accepted(first, second, out, n, m)
}
