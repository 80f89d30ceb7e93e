//! A pass along the records of a program.
ghost use Rattle.std.specs.Prelude.{◌≡◌};
ghost use Rattle.layout.specs.Records.{records};
ghost use Rattle.program.specs.Program.{program};
ghost use Rattle.program.specs.Search.{Question, first};
ghost use Rattle.program.specs.Places.{Asks, moved_to};

use crate::Here;
use layout::records::Records;

/// Where the pass stands behind the record at `p`. It counts no more blocks than there are bytes.
pub fn moved(image: &[u8], here: Here, p: usize) -> Here
    ensures { result ≡ moved_to image.now here p }
{
    match layout::kind_at(image, p) {
        layout::kinds::VERSION => Here {
            version: p,
            blocks: 0,
        },
        layout::kinds::BLOCK => {
            let blocks = here.blocks;
            if blocks < image.len() {
                Here {
                    version: here.version,
                    blocks: blocks + 1,
                }
            } else {
                here
            }
        }
        _ => here,
    }
}

/// Puts a question to a program: the offset of the first record to which `asks` says no, told where the pass stands behind it.
/// What is no whole record ends the pass.
/// Requires a closure that may be called with any arguments, which no code can test.
pub fn first_failing<F: Fn(Here, usize) -> bool>(image: &[u8], asks: F) -> Option<usize>
    requires { F.IsAlwaysCallable asks }
    ensures { (q : Question) → Asks (F.post asks) q image.now → result ≡ first q (program (records image.now)) }
{
    let mut here = Here {
        version: image.len(),
        blocks: 0,
    };
    for record in Records::of(image) {
        if record.size == 0 {
            return None;
        }
        here = moved(image, here, record.at);
        if !asks(here, record.at) {
            return Some(record.at);
        }
    }
    None
}
