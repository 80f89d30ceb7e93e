//! The declared types of registers: what the register in the field `k` of the record at `p` is in the version at `v`.
ghost use Rattle.std.specs.Prelude.{◌≡◌, ◌<◌};
ghost use Rattle.layout.specs.Records.{body_at, ◌!◌};
ghost use Rattle.program.specs.Places.{version_at};
ghost use Rattle.rules.specs.Fits.{type_of, declared_kind, shared, integer, vector, owned, promise, value, plain, fresh};

use crate::types;
use layout::ownerships;
use program::lookup;

/// Its declared type.
pub fn type_in(image: &[u8], v: usize, p: usize, k: usize) -> usize
    ensures { (result ≡ type_of (version_at image.now v) (body_at image.now p ! k)) × (result < 256) }
{
    lookup::type_of(image, v, layout::field(image, p, k))
}

/// The kind of its type.
pub fn kind_in(image: &[u8], v: usize, p: usize, k: usize) -> usize
    ensures { result ≡ declared_kind (version_at image.now v) (body_at image.now p ! k) }
{
    type_in(image, v, p, k) % 16
}

/// Is it shared?
pub fn is_shared(image: &[u8], v: usize, p: usize, k: usize) -> bool
    ensures { result ≡ shared (version_at image.now v) (body_at image.now p ! k) }
{
    type_in(image, v, p, k) / 16 == ownerships::SHARED
}

/// Is it an integer?
pub fn is_integer(image: &[u8], v: usize, p: usize, k: usize) -> bool
    ensures { result ≡ integer (version_at image.now v) (body_at image.now p ! k) }
{
    kind_in(image, v, p, k) == types::INTEGER
}

/// Is it a vector?
pub fn is_vector(image: &[u8], v: usize, p: usize, k: usize) -> bool
    ensures { result ≡ vector (version_at image.now v) (body_at image.now p ! k) }
{
    kind_in(image, v, p, k) == types::VECTOR
}

/// Is it an owned vector?
pub fn is_owned(image: &[u8], v: usize, p: usize, k: usize) -> bool
    ensures { result ≡ owned (version_at image.now v) (body_at image.now p ! k) }
{
    let Some(kind) = types::owned_kind(type_in(image, v, p, k)) else {
        return false;
    };
    kind == types::VECTOR
}

/// Is it a promise?
pub fn is_promise(image: &[u8], v: usize, p: usize, k: usize) -> bool
    ensures { result ≡ promise (version_at image.now v) (body_at image.now p ! k) }
{
    let kind = kind_in(image, v, p, k);
    if kind == types::PROMISE {
        true
    } else {
        kind == types::REFLECTIVE
    }
}

/// May a name take it: is it shared, within kind 1?
pub fn is_value(image: &[u8], v: usize, p: usize, k: usize) -> bool
    ensures { result ≡ value (version_at image.now v) (body_at image.now p ! k) }
{
    is_shared(image, v, p, k) && types::is_within(kind_in(image, v, p, k), types::VALUE)
}

/// Does a plain result of this kind go into it?
pub fn takes_plain(image: &[u8], v: usize, p: usize, k: usize, kind: usize) -> bool
    ensures { result ≡ plain (version_at image.now v) (body_at image.now p ! k) kind }
{
    is_shared(image, v, p, k) && types::is_within(kind, kind_in(image, v, p, k))
}

/// Does a fresh vector go into it?
pub fn takes_fresh(image: &[u8], v: usize, p: usize, k: usize) -> bool
    ensures { result ≡ fresh (version_at image.now v) (body_at image.now p ! k) }
{
    if is_owned(image, v, p, k) {
        true
    } else {
        takes_plain(image, v, p, k, types::VECTOR)
    }
}
