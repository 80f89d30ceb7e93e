//! Decimal numbers and byte strings, written into a lent buffer. What does not fit is not written.
#![tactic(auto)]

ghost use Rattle.std.specs.Prelude.{◌≡◌, [], ◌∷◌, ◌+◌, ◌%◌, ◌≤◌, leb, length};
ghost use Rattle.writer.specs.Text.{decimal, placed};

/// Do `size` bytes from the place `at` on fit into `room`?
fn fits(room: usize, at: usize, size: usize) -> bool
    ensures { result ≡ leb (at + size) room }
{
    if room < at {
        return false;
    }
    size <= room - at
}

/// The last decimal digit of `n`, in ASCII.
fn last_digit(n: usize) -> u8
    ensures { result ≡ 48 + n % 10 }
{
    b'0' + (n % 10) as u8
}

/// How many decimal digits `n` has: 1 for 0.
pub fn digits_of(n: usize) -> usize
    ensures { (result ≡ length (decimal n)) × (result ≤ 20) }
{
    n.checked_ilog10().map_or(1, |tens| tens as usize + 1)
}

/// Puts the byte `b` at the place `at`, where the buffer has that place.
pub fn put_byte(out: &mut [u8], at: usize, b: u8)
    ensures { out.new ≡ placed out.old at (b ∷ []) }
{
    if at < out.len() {
        out[at] = b;
    }
}

/// Puts the `size` digits of `n` from the place `at` on, the last one first.
fn put_digits(out: &mut [u8], at: usize, size: usize, n: usize)
    requires size_value { size ≡ length (decimal n) }
    requires size_in_bounds { at + size ≤ length out.old }
    ensures { out.new ≡ placed out.old at (decimal n) }
{
    let mut front = n;
    for place in (at + 1..at + size).rev() {
        out[place] = last_digit(front);
        front /= 10;
    }
    out[at] = last_digit(front);
}

/// Puts the decimal digits of `n` from the place `at` on, where they fit.
pub fn put_number(out: &mut [u8], at: usize, n: usize)
    ensures { out.new ≡ placed out.old at (decimal n) }
{
    let size = digits_of(n);
    if fits(out.len(), at, size) {
        put_digits(out, at, size, n);
    }
}

/// Puts the bytes `t` from the place `at` on, where they fit.
pub fn put_bytes(out: &mut [u8], at: usize, t: &[u8])
    ensures { out.new ≡ placed out.old at t.now }
{
    if fits(out.len(), at, t.len()) {
        out[at..at + t.len()].copy_from_slice(t);
    }
}
