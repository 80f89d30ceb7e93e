//! Frames and activations that open and end, over the two arrays of a state, and the counts at the start of a budget.
//! Its functions serve the loop of `running`; what they require, the loop keeps.
#![tactic(auto)]

ghost use Rattle.std.specs.Prelude.{◌≡◌, ◌<◌, ◌≤◌, ◌-◌, length};
ghost use Rattle.layout.specs.Records.{◌!◌};
ghost use Rattle.machine.specs.States.{new_frame};
ghost use Rattle.store.specs.Store.{CALLS, state_in, Cleared, Sized};
ghost use Rattle.store.specs.Counts.{Ready};
ghost use Rattle.store.specs.Acts.{Leaves, with_open};
ghost use Rattle.frames.specs.Frames.{Added, Dropped, Ending, Forcing, Held, Lives, Nothing, Room, Tallied, at_most, with_less};

use store::{cells, stack};

/// Is the frame `k` that of a live call?
pub fn is_live(bytes: &[u8; 2632], k: usize) -> bool
    ensures { Lives result bytes.now k }
{
    k < 32 && k < layout::wide(bytes[2624])
}

/// Takes the cells of the frame `k` out of the counts, up to the last that refers to a vector or a promise.
fn drop_frame(bytes: &[u8; 2632], numbers: &[i64; 2129], counts: &mut [u16; 800], k: usize)
    requires { (k < 32) × Held bytes.now numbers.now counts.old k }
    ensures { Dropped bytes.now numbers.now counts.old counts.new k }
{
    let mut e: usize = 0;
    while counts[768 + k] != 0 {
        cells::release(bytes, numbers, counts, k, e);
        e += 1;
    }
}

/// The newest call ends, whose activation is on top.
/// Requires `Ready` counts and that activation: the loop keeps both, and to count again would cost each end of a call.
pub fn close_call(bytes: &mut [u8; 2632], numbers: &[i64; 2129], counts: &mut [u16; 800])
    requires { Ready bytes.old numbers.now counts.old × Ending bytes.old }
    ensures { Leaves bytes.new numbers.now counts.new
        (with_less (state_in bytes.old numbers.now) (bytes.old ! CALLS - 1)) }
{
    let calls = bytes[2624];
    let depth = bytes[2625];
    drop_frame(bytes, numbers, counts, layout::wide(calls) - 1);
    bytes[2624] = calls - 1;
    bytes[2625] = depth - 1;
}

/// The force of the promise `p` ends, which is on top.
/// Requires `Ready` counts and that force: the loop keeps both, and to count again would cost each end of a force.
pub fn close_force(bytes: &mut [u8; 2632], numbers: &[i64; 2129], counts: &mut [u16; 800], p: u8)
    requires { Ready bytes.old numbers.now counts.old × Forcing bytes.old p }
    ensures { Leaves bytes.new numbers.now counts.new (with_less (state_in bytes.old numbers.now) (bytes.old ! CALLS)) }
{
    let depth = bytes[2625];
    bytes[2625] = depth - 1;
    counts[512 + layout::wide(p)] -= 1;
}

/// Empties the cells of the frame `k`.
fn clear(bytes: &mut [u8; 2632], k: usize)
    requires { (k < 32) × (length bytes.old ≡ 2632) }
    ensures { Cleared bytes.old bytes.new k 24 }
{
    bytes[32 * k..32 * k + 24].fill(0);
}

/// Opens a frame of the version, as `Frame::new` makes it, behind those of the live calls.
/// Requires `Ready` counts and fewer than 32 calls: `enter` has asked for DEEP, and to count again would cost each call.
pub fn open(
    bytes: &mut [u8; 2632],
    numbers: &[i64; 2129],
    counts: &[u16; 800],
    function: u8,
    version: u8,
)
    requires { (bytes.old ! CALLS < 32) × Ready bytes.old numbers.now counts.now }
    ensures { Leaves bytes.new numbers.now counts.now (with_open (state_in bytes.old numbers.now) (new_frame function version)) }
{
    let calls = bytes[2624];
    let k = layout::wide(calls);
    clear(bytes, k);
    bytes[32 * k + 24] = function;
    bytes[32 * k + 25] = version;
    bytes[2624] = calls + 1;
}

/// How many of a count there are in an array of 32.
fn few(n: u8) -> usize
    ensures { (result ≡ at_most n) × (result ≤ 32) }
{
    layout::wide(n).min(32)
}

/// Adds the cells of the frame `k` to the counts.
fn add_frame(bytes: &[u8; 2632], numbers: &[i64; 2129], counts: &mut [u16; 800], k: usize)
    requires { (k < 32) × Room counts.old × (length counts.old ≡ 800) }
    ensures { Added bytes.now numbers.now counts.old counts.new k 24 }
{
    for e in 0..24 {
        cells::retain(bytes, numbers, counts, k, e);
    }
}

/// Adds the cells of the live calls to counts of nothing.
fn add_frames(bytes: &[u8; 2632], numbers: &[i64; 2129], counts: &mut [u16; 800])
    requires { Nothing counts.old }
    ensures { Tallied bytes.now numbers.now counts.new (at_most (bytes.now ! CALLS)) 0 }
{
    let calls = few(bytes[2624]);
    for k in 0..calls {
        add_frame(bytes, numbers, counts, k);
    }
}

/// Makes counts of nothing those of the state.
/// Requires counts of nothing: the loop makes them so once in a budget, and to clear them here would do it twice.
pub fn tally(bytes: &[u8; 2632], numbers: &[i64; 2129], counts: &mut [u16; 800])
    requires { Nothing counts.old × Sized bytes.now numbers.now }
    ensures { Ready bytes.now numbers.now counts.new }
{
    add_frames(bytes, numbers, counts);
    let depth = few(bytes[2625]);
    for i in 0..depth {
        let a = stack::activation(bytes, i);
        stack::pend(counts, a.opener);
    }
}
