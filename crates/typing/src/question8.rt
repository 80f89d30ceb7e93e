//! Question 8: do types fit?
ghost use Rattle.std.specs.Prelude.{◌≡◌};
ghost use Rattle.layout.specs.Records.{records};
ghost use Rattle.program.specs.Program.{program};
ghost use Rattle.program.specs.Search.{first};
ghost use Rattle.program.specs.Places.{asked};
ghost use Rattle.rules.specs.Questions.{question8};

use crate::fits;
use layout::kinds;
use program::lookup::Tabled;
use program::{Here, lookup, pass};

/// Do the types of the record at `p` fit, where the pass stands at `here`? Part of the loop along the records, whose table is made once.
pub fn fits_at(tabled: Tabled, here: Here, p: usize) -> bool
    ensures { result ≡ asked (question8 (program (records tabled.entry.image.now))) tabled.entry.image.now here p }
{
    let image = tabled.image;
    let version = here.version;
    let blocks = here.blocks;
    let kind = layout::kind_at(image, p);
    if kind == kinds::VERSION {
        return true;
    }
    if image.len() <= version {
        return true;
    }
    if blocks == 0 {
        return true;
    }
    if kind == kinds::BLOCK {
        fits::result_fits(image, version, blocks - 1, p)
    } else {
        fits::instruction_fits(tabled, version, blocks - 1, p)
    }
}

/// Question 8: do types fit?
pub fn question_8(image: &[u8]) -> Option<usize>
    ensures { result ≡ first (question8 (program (records image.now))) (program (records image.now)) }
{
    let table = lookup::versions(image);
    let tabled = Tabled {
        image,
        table: &table,
    };
    pass::first_failing(image, |here, p| fits_at(tabled, here, p))
}
