//! Activations.
//! What is required: see the crate.
ghost use Rattle.std.specs.Prelude.{◌≡◌, ◌<◌};
ghost use Rattle.machine.specs.Calls.{opened};
ghost use Rattle.store.specs.Store.{activation_in, opener_of, tag_of, forced_by};
ghost use Rattle.store.specs.Counts.{Calm, Pends, Ready};
ghost use Rattle.store.specs.Acts.{Acts};

use crate::{Did, Halt};
use machine::{Activation, Opener};

/// The activation `i`.
pub fn activation(bytes: &[u8; 2632], i: usize) -> Activation
    requires { i < 32 }
    ensures { result ≡ activation_in bytes.now i }
{
    Activation {
        opener: opener(bytes[2048 + 8 * i], bytes[2048 + 8 * i + 1]),
        d: bytes[2048 + 8 * i + 2],
        frame: bytes[2048 + 8 * i + 3],
        block: bytes[2048 + 8 * i + 4],
        next: bytes[2048 + 8 * i + 5],
    }
}

/// What opened an activation, by its first two bytes.
fn opener(o: u8, p: u8) -> Opener
    ensures { result ≡ opener_of o p }
{
    if o == 0 {
        Opener::Call
    } else {
        Opener::Force(p)
    }
}

/// 0 for a call, 1 for a force.
fn tag(opener: Opener) -> u8
    ensures { result ≡ tag_of opener }
{
    match opener {
        Opener::Call => 0,
        Opener::Force(_) => 1,
    }
}

/// The promise that is forced, 0 for a call.
fn forced(opener: Opener) -> u8
    ensures { result ≡ forced_by opener }
{
    match opener {
        Opener::Call => 0,
        Opener::Force(p) => p,
    }
}

/// Counts one more force of the promise that the opener forces; a call forces none.
pub fn pend(counts: &mut [u16; 800], opener: Opener)
    requires { Calm counts.old }
    ensures { Pends counts.old counts.new opener }
{
    match opener {
        Opener::Call => {}
        Opener::Force(p) => {
            counts[512 + p as usize] += 1;
        }
    }
}

/// Puts one more activation on top. DEEP: there are 32.
pub fn push(
    bytes: &mut [u8; 2632],
    numbers: &[i64; 2129],
    counts: &mut [u16; 800],
    a: Activation,
) -> Did
    requires { Ready bytes.old numbers.now counts.old }
    ensures { Acts result bytes.old numbers.now bytes.new numbers.now counts.new (λ s. opened s a) }
{
    let depth = bytes[2625];
    if 32 <= depth {
        return Did::Stop(Halt::Deep);
    }
    let opener = a.opener;
    let i = depth as usize;
    bytes[2048 + 8 * i] = tag(opener);
    bytes[2048 + 8 * i + 1] = forced(opener);
    bytes[2048 + 8 * i + 2] = a.d;
    bytes[2048 + 8 * i + 3] = a.frame;
    bytes[2048 + 8 * i + 4] = a.block;
    bytes[2048 + 8 * i + 5] = a.next;
    bytes[2625] = depth + 1;
    pend(counts, opener);
    Did::On
}
