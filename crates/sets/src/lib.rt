//! Register sets as 16-bit masks: register r is in the set when digit r of the mask is 1.
#![tactic(auto)]

ghost use Rattle.std.specs.Prelude.{◌≡◌};
ghost use Rattle.sets.specs.Sets.{set_of, ◌∪◌, ◌∩◌, ◌∖◌, meets, below, only, has, size};

/// The binary digits of a mask: one for each register.
pub const WIDTH: usize = 16;

/// The registers in `a`, in `b` or in both.
pub fn union(a: u16, b: u16) -> u16
    ensures { set_of 16 result ≡ set_of 16 a ∪ set_of 16 b }
{
    a | b
}

/// The registers in `a` and in `b`.
pub fn intersection(a: u16, b: u16) -> u16
    ensures { set_of 16 result ≡ set_of 16 a ∩ set_of 16 b }
{
    a & b
}

/// The registers in `a` that are not in `b`.
pub fn difference(a: u16, b: u16) -> u16
    ensures { set_of 16 result ≡ set_of 16 a ∖ set_of 16 b }
{
    a & !b
}

/// Is a register in both?
pub fn meets(a: u16, b: u16) -> bool
    ensures { result ≡ meets (set_of 16 a) (set_of 16 b) }
{
    a & b != 0
}

/// Are all in `a` among the first `n` registers? From 16 on every set is.
pub fn below(a: u16, n: usize) -> bool
    ensures { result ≡ below n (set_of 16 a) }
{
    WIDTH <= n || a >> n == 0
}

/// The register `r` alone; the empty set where `r` is 16 or more.
pub fn only(r: usize) -> u16
    ensures { set_of 16 result ≡ only 16 r }
{
    if r < WIDTH { 1u16 << r } else { 0 }
}

/// Is `r` in `a`? A number of 16 or more is in no set.
pub fn has(a: u16, r: usize) -> bool
    ensures { result ≡ has (set_of 16 a) r }
{
    r < WIDTH && (a >> r) % 2 == 1
}

/// How many registers are in `a`.
pub fn size(a: u16) -> u32
    ensures { result ≡ size (set_of 16 a) }
{
    a.count_ones()
}
