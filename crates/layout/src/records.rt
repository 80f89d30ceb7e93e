//! The records of an image, and the fields of one, one after the other.
ghost use Rattle.std.specs.Prelude.{◌≡◌, ◌+◌, ◌*◌, ◌<◌, Option};
ghost use Rattle.std.specs.Iterator.{YieldsFirst, item_count};
ghost use Rattle.layout.specs.Left.{left, spots};
ghost use Rattle.layout.specs.Records.{Rec, body_at, every, records, size_at};
ghost use Rattle.layout.specs.Scan.{Turns, along};

use crate::{field, size_at};

/// Where a record stands, and its whole length; 0 for what is no whole record.
#[derive(Clone, Copy)]
pub struct Spot {
    pub at: usize,
    pub size: usize,
}

/// The records from a place of an image on. What is no whole record is the last.
#[derive(Clone, Copy)]
pub struct Records<'a> {
    pub image: &'a [u8],
    pub at: usize,
}

impl<'a> Records<'a> {
    /// The records of an image.
    pub fn of(image: &'a [u8]) -> Self
        ensures { left result ≡ spots image.now 0 }
    {
        Records { image, at: 0 }
    }

    /// The records behind that at the place `p`.
    pub fn behind(image: &'a [u8], p: usize) -> Self
        ensures { left result ≡ spots image.now (p + size_at image.now p) }
    {
        if image.len() <= p {
            return Records { image, at: p };
        }
        let size = size_at(image, p);
        Records {
            image,
            at: p + size,
        }
    }
}

impl<'a> Iterator for Records<'a> {
    type Item = Spot;

    ghost next_gives = { YieldsFirst left };

    ghost remaining = { item_count left };

    fn next(&mut self) -> Option<Spot> {
        let at = self.at;
        if self.image.len() <= at {
            return None;
        }
        let size = size_at(self.image, at);
        if size == 0 {
            self.at = self.image.len();
        } else {
            self.at += size;
        }
        Some(Spot { at, size })
    }
}

/// Goes along the records of an image: each turn makes what follows of what the records before it left. It ends where a turn
/// gives nothing, or a record is not whole, and gives that place.
/// Requires a closure that may be called with any arguments, which no code can test.
pub fn along<S: Copy, F: Fn(S, Spot) -> Option<S>>(
    image: &[u8],
    start: S,
    turn: F,
) -> Result<S, usize>
    requires { F.IsAlwaysCallable turn }
    ensures { (t : S → Rec → Option S) → Turns (F.post turn) t image.now → result ≡ along t start (records image.now) }
{
    let mut state = start;
    for record in Records::of(image) {
        if record.size == 0 {
            return Err(record.at);
        }
        let Some(next) = turn(state, record) else {
            return Err(record.at);
        };
        state = next;
    }
    Ok(state)
}

/// So many fields of the record at a place, from the field `next` on, each `step` behind the one before.
#[derive(Clone, Copy)]
pub struct Fields<'a> {
    pub image: &'a [u8],
    pub place: usize,
    pub next: usize,
    pub step: usize,
    pub many: usize,
    ghost near: { next + many * step < 65536 },
}

impl<'a> Fields<'a> {
    /// `n` fields of the record at `p`, from the field `from` on, each `step` behind the one before.
    /// Requires numbers below 256: callers have bytes or constants at hand, and a test would cost each record.
    pub fn of(image: &'a [u8], p: usize, from: usize, step: usize, n: usize) -> Self
        requires { (from < 256) × (step < 256) × (n < 256) }
        ensures { every (body_at result.image.now result.place) result.next result.step result.many ≡ every (body_at image.now p) from step n }
    {
        Fields {
            image,
            place: p,
            next: from,
            step,
            many: n,
        }
    }
}

impl<'a> Iterator for Fields<'a> {
    type Item = usize;

    ghost next_gives = { YieldsFirst (λ f. every (body_at f.image.now f.place) f.next f.step f.many) };

    ghost remaining = { item_count (λ f. every (body_at f.image.now f.place) f.next f.step f.many) };

    fn next(&mut self) -> Option<usize> {
        if self.many == 0 {
            return None;
        }
        let here = self.next;
        self.next += self.step;
        self.many -= 1;
        Some(field(self.image, self.place, here))
    }
}
