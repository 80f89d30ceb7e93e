//! Question 14: does no SKIP go past the end of the block or of a skipped part that it stands in?
ghost use Rattle.std.specs.Prelude.{◌≡◌, true, not, ◌<◌, ◌^◌, take, set};
ghost use Rattle.layout.specs.Tests.{all};
ghost use Rattle.layout.specs.Records.{records, rec_at};
ghost use Rattle.program.specs.Skips.{PLACES, ends_of, ends_after, ends_within, no_ends, onward, question14};

use layout::records::Records;
use layout::{bounds, kinds};

/// The places ahead that are kept: those of a block's instructions, and the one behind them.
const PLACES: usize = bounds::INSTRUCTIONS + 1;

/// Where the block and the skipped parts that a record stands in end: the binary digit n stands for the nth place ahead.
#[derive(Clone, Copy)]
struct Ends {
    digits: u64,
    ghost kept: { digits < 2 ^ PLACES },
}

impl Ends {
    /// Nothing ends ahead.
    fn none() -> Self
        ensures { ends_of PLACES result.digits ≡ no_ends }
    {
        Ends { digits: 0 }
    }

    /// The same ends, from the next record on.
    fn onward(self) -> Self
        ensures { ends_of PLACES result.digits ≡ onward (ends_of PLACES self.digits) }
    {
        Ends {
            digits: self.digits >> 1,
        }
    }

    /// Does nothing end at the first `n` places?
    fn none_before(self, n: usize) -> bool
        ensures { result ≡ all not (take n (ends_of PLACES self.digits)) }
    {
        if n < PLACES {
            self.digits % (1u64 << n) == 0
        } else {
            self.digits == 0
        }
    }

    /// With an end at the place `n`; where that place is not kept, as they are.
    fn with_end(self, n: usize) -> Self
        ensures { ends_of PLACES result.digits ≡ set (ends_of PLACES self.digits) n true }
    {
        if PLACES <= n {
            return self;
        }
        Ends {
            digits: self.digits | 1u64 << n,
        }
    }
}

/// Does the record at `p`, if it is a SKIP, go past none of the ends ahead?
fn ends_within(image: &[u8], p: usize, ends: Ends) -> bool
    ensures { result ≡ ends_within (ends_of PLACES ends.digits) (rec_at image.now p) }
{
    if layout::kind_at(image, p) == kinds::SKIP {
        let ahead = ends.onward();
        ahead.none_before(layout::field(image, p, 1))
    } else {
        true
    }
}

/// The ends, seen from the record behind that at `p`.
fn ends_after(image: &[u8], p: usize, ends: Ends) -> Ends
    ensures { ends_of PLACES result.digits ≡ ends_after (ends_of PLACES ends.digits) (rec_at image.now p) }
{
    match layout::kind_at(image, p) {
        kinds::BLOCK => Ends::none().with_end(layout::field(image, p, 2)),
        kinds::SKIP => ends.onward().with_end(layout::field(image, p, 1)),
        _ => ends.onward(),
    }
}

/// Question 14: does n of no SKIP go past the end of the block or of a skipped part that the SKIP stands in?
pub fn question_14(image: &[u8]) -> Option<usize>
    ensures { result ≡ question14 (records image.now) }
{
    let mut ends = Ends::none();
    for record in Records::of(image) {
        if record.size == 0 {
            return Some(record.at);
        }
        if !ends_within(image, record.at, ends) {
            return Some(record.at);
        }
        ends = ends_after(image, record.at, ends);
    }
    None
}
