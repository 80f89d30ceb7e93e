//! The number of a literal at its place in the image, for any image and any place.
ghost use Rattle.std.specs.Prelude.{◌≡◌, ◌+◌, ◌<◌, ◌≤◌, drop, length};
ghost use Rattle.std.proofs.Common.{to_z};
ghost use Rattle.std.specs.Int.{w64};
ghost use Rattle.layout.specs.declared.Form.{Form};
ghost use Rattle.program.specs.Program.{number_in, word};

/// A byte as a number of 64 bits.
fn wide(x: u8) -> u64
    ensures { (result ≡ x) × (result < 256) }
{
    x as u64
}

/// The 64 bits `u` read as a signed number.
fn signed_of(u: u64) -> i64
    ensures { result ≡ to_z w64 u }
{
    if u < 9223372036854775808 {
        u as i64
    } else {
        -1 - ((18446744073709551615 - u) as i64)
    }
}

/// The number of four bytes from the byte `e` on, which stand in the image.
/// Part of `literal`, which asks for all eight at once.
fn four_inside(image: &[u8], e: usize) -> u64
    requires { (e < 65600) × (e + 4 ≤ length image.now) }
    ensures { (result ≡ word image.now e) × (result < 4294967296) }
{
    wide(image[e])
        + 256 * (wide(image[e + 1]) + 256 * (wide(image[e + 2]) + 256 * wide(image[e + 3])))
}

/// The number of four bytes from the byte `e` on; those that are not there are 0.
/// Part of `literal`, whose places end below the bound.
fn four(image: &[u8], e: usize) -> u64
    requires { e < 65600 }
    ensures { (result ≡ word image.now e) × (result < 4294967296) }
{
    wide(crate::byte(image, e))
        + 256
            * (wide(crate::byte(image, e + 1))
                + 256 * (wide(crate::byte(image, e + 2)) + 256 * wide(crate::byte(image, e + 3))))
}

/// The number of the LIT at the place `p`, from its eight bytes.
pub fn literal(image: &[u8], p: u16) -> i64
    ensures { result ≡ number_in Form.Wide (drop (p + 2) image.now) }
{
    let e = p as usize;
    if e + 11 <= image.len() {
        return signed_of(four_inside(image, e + 3) + 4294967296 * four_inside(image, e + 7));
    }
    signed_of(four(image, e + 3) + 4294967296 * four(image, e + 7))
}
