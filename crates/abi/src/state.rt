//! The state of a run, and a trail, in the layout of C.

/// The arrays of a state: the numbers of registers, vectors, promises and the result, and the bytes that say what they stand for.
#[repr(C)]
#[derive(Drop)]
pub struct FirState {
    pub numbers: [i64; 2129],
    pub bytes: [u8; 2632],
}

/// 02, request 8: the arrays of the state that a trail starts at, how many steps lie behind, and, where it is not 0, that none does any more.
#[repr(C)]
#[derive(Drop)]
pub struct FirTrail {
    pub numbers: [i64; 2129],
    pub bytes: [u8; 2632],
    pub steps: u32,
    pub past: u8,
}
