//! Image: the kinds of records, each named once.

pub const VERSION: usize = 1;

pub const BLOCK: usize = 2;

pub const LEVEL: usize = 3;

pub const NARROW_LIT: usize = 16;

pub const MOVE: usize = 17;

pub const USE: usize = 18;

pub const DUP: usize = 19;

pub const VEC: usize = 20;

pub const LEN: usize = 21;

pub const GET: usize = 22;

pub const SET: usize = 23;

pub const ARITH: usize = 24;

pub const SELECT: usize = 25;

pub const CAST: usize = 26;

pub const NAMED: usize = 27;

pub const STORE: usize = 28;

pub const PROM: usize = 29;

pub const FORCE: usize = 30;

pub const PEEK: usize = 31;

pub const POKE: usize = 32;

pub const CALL: usize = 33;

pub const DISPATCH: usize = 34;

pub const SKIP: usize = 35;

pub const LIT: usize = 36;
