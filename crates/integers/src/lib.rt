//! The integer arithmetic of the machine's steps: results in range, UNDEF or stuck.
#![tactic(auto)]

ghost use Rattle.std.specs.Prelude.{◌≡◌, false, cond, pos, ◌+ℤ◌, ◌-ℤ◌, ◌*ℤ◌, ◌*◌, ltb, leb};
ghost use Rattle.std.specs.Int.Signed.{mag, lt_z};
ghost use Rattle.machine.specs.Try.{got};
ghost use Rattle.machine.specs.Values.{RANGE, NARROW-RANGE, ranged, is_zero, floored, divided, arith, index};
ghost use Rattle.integers.specs.Computed.{computed_of, indexed_of, is_minus_one, limit_of};

/// Why something gives no value: UNDEF, or stuck.
#[derive(Clone, Copy)]
pub enum Fault {
    Undef,
    Stuck,
}

/// The greatest integer of 32 bits.
const NARROW_GREATEST: i64 = 2147483647;

/// The least integer of 32 bits.
const NARROW_LEAST: i64 = -2147483648;

/// The distance of the greatest integer from 0.
const ABOVE: u64 = 9223372036854775807;

/// The distance of the least integer from 0.
const BELOW: u64 = 9223372036854775808;

/// Is the product of `a` and `b` at most `n`?
fn product_at_most(a: u64, b: u64, n: u64) -> bool
    ensures { result ≡ leb (a * b) n }
{
    if a == 0 {
        return true;
    }
    b <= n / a
}

/// The greatest distance from 0 of a product of `x` and `y` that is in range.
fn product_limit(x: i64, y: i64) -> u64
    ensures { result ≡ limit_of x y }
{
    if (x < 0) == (y < 0) { ABOVE } else { BELOW }
}

/// Is `z` an integer of 32 bits?
fn is_narrow(z: i64) -> bool
    ensures { result ≡ ltb (mag z) NARROW-RANGE }
{
    NARROW_LEAST <= z && z <= NARROW_GREATEST
}

/// Is the product in range? Of two integers of 32 bits it always is; that test costs no division.
fn product_in_range(x: i64, y: i64) -> bool
    ensures { result ≡ ltb (mag (x *ℤ y)) RANGE }
{
    if is_narrow(x) && is_narrow(y) {
        return true;
    }
    product_at_most(x.unsigned_abs(), y.unsigned_abs(), product_limit(x, y))
}

/// The sum, or UNDEF where it is out of range.
fn add(x: i64, y: i64) -> Result<i64, Fault>
    ensures { result ≡ computed_of (ranged (x +ℤ y)) }
{
    x.checked_add(y).ok_or(Fault::Undef)
}

/// The difference, or UNDEF where it is out of range.
fn subtract(x: i64, y: i64) -> Result<i64, Fault>
    ensures { result ≡ computed_of (ranged (x -ℤ y)) }
{
    x.checked_sub(y).ok_or(Fault::Undef)
}

/// The product, or UNDEF where it is out of range.
fn multiply(x: i64, y: i64) -> Result<i64, Fault>
    ensures { result ≡ computed_of (ranged (x *ℤ y)) }
{
    if product_in_range(x, y) {
        return Ok(x * y);
    }
    Err(Fault::Undef)
}

/// The quotient by a divisor that is neither 0 nor −1, rounded toward minus infinity: where the signs differ, one below that of
/// the number next to `x` toward zero.
fn floor(x: i64, y: i64) -> i64
    requires { (is_zero y ≡ false) × (is_minus_one y ≡ false) }
    ensures { result ≡ floored x y }
{
    if x < 0 {
        if 0 < y {
            return (x + 1) / y - 1;
        }
        return x / y;
    }
    if 0 < x {
        if y < 0 {
            return (x - 1) / y - 1;
        }
        return x / y;
    }
    0
}

/// The quotient, or UNDEF where `y` is 0, or is −1 and `x` the least integer.
fn divide(x: i64, y: i64) -> Result<i64, Fault>
    ensures { result ≡ computed_of (divided x y) }
{
    if is_zero(y) {
        return Err(Fault::Undef);
    }
    if is_minus_one(y) {
        return subtract(0, x);
    }
    Ok(floor(x, y))
}

/// 1 where `x` is less than `y`, else 0.
fn less(x: i64, y: i64) -> Result<i64, Fault>
    ensures { result ≡ computed_of (got (cond (lt_z x y) (pos 1) (pos 0))) }
{
    Ok(i64::from(x < y))
}

/// The operation `op` on `x` and `y`: 0 add, 1 subtract, 2 multiply, 3 divide, 4 less; stuck where there is no such operation.
pub fn arith(op: u8, x: i64, y: i64) -> Result<i64, Fault>
    ensures { result ≡ computed_of (arith op x y) }
{
    match op {
        0 => add(x, y),
        1 => subtract(x, y),
        2 => multiply(x, y),
        3 => divide(x, y),
        4 => less(x, y),
        _ => Err(Fault::Stuck),
    }
}

/// The place `z` in a vector of `n` items, or UNDEF where it has no such place.
pub fn index(z: i64, n: u8) -> Option<u8>
    ensures { result ≡ indexed_of (index z n) }
{
    if z < 0 {
        return None;
    }
    let i = z as u64;
    if i < n as u64 { Some(i as u8) } else { None }
}

/// Is `z` 0?
pub fn is_zero(z: i64) -> bool
    ensures { result ≡ is_zero z }
{
    z == 0
}

/// Is `z` −1?
fn is_minus_one(z: i64) -> bool
    ensures { result ≡ is_minus_one z }
{
    z == -1
}

/// What SELECT chooses: `b` where `c` is 0, else `a`.
pub fn select(c: i64, a: i64, b: i64) -> i64
    ensures { result ≡ cond (is_zero c) b a }
{
    if is_zero(c) {
        return b;
    }
    a
}
