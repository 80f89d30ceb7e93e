//! Image: the bounds, each named once.

/// The bytes of an image.
pub const IMAGE: usize = 32768;

/// The functions: 0..31.
pub const FUNCTIONS: usize = 32;

/// The versions of a function: 0..3.
pub const VERSIONS: usize = 4;

/// The versions in all.
pub const ALL_VERSIONS: usize = 64;

/// Levels of a version: 0..2.
pub const LEVELS: usize = 3;

/// The registers of a version: 1..16.
pub const REGISTERS: usize = 16;

/// The parameters of a version, which are at most its registers too.
pub const PARAMETERS: usize = 8;

/// The blocks of a version: 1..8.
pub const BLOCKS: usize = 8;

/// The instructions of a block: 0..48.
pub const INSTRUCTIONS: usize = 48;

/// The n of VEC, CALL and DISPATCH.
pub const OPERANDS: usize = 8;

/// The names of a frame.
pub const NAMES: usize = 8;

/// The marks, quiet and reflective.
pub const MARKS: usize = 2;

/// The operations of ARITH.
pub const OPERATIONS: usize = 5;
