//! Ownerships: a type byte is a kind and 16 times one of these.

/// Neither owned nor borrowed.
pub const SHARED: usize = 0;

/// A vector that nothing else holds but borrowed registers of calls above.
pub const OWNED: usize = 1;

/// A vector that a call lends.
pub const BORROWED: usize = 2;
