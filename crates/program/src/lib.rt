//! The program of an image: look-up and decoding of its versions, blocks and instructions, and questions 7 and 14.
#![tactic(auto)]

pub mod decode;
pub mod lookup;
pub mod pass;
pub mod question14;
pub mod question7;

/// An instruction's fields; of a list of operands the length, while the operands stay in the image.
#[derive(Clone, Copy)]
pub enum Instruction {
    Lit {
        d: u8,
        i: i64,
    },
    Move {
        d: u8,
        a: u8,
    },
    Use {
        d: u8,
        a: u8,
    },
    Dup {
        d: u8,
        a: u8,
    },
    Vec {
        d: u8,
        n: u8,
    },
    Len {
        d: u8,
        a: u8,
    },
    Get {
        d: u8,
        a: u8,
        i: u8,
    },
    Set {
        a: u8,
        i: u8,
        e: u8,
    },
    Arith {
        d: u8,
        op: u8,
        a: u8,
        b: u8,
    },
    Select {
        d: u8,
        c: u8,
        a: u8,
        b: u8,
    },
    Cast {
        d: u8,
        a: u8,
    },
    Named {
        d: u8,
        x: u8,
    },
    Store {
        x: u8,
        a: u8,
    },
    Prom {
        d: u8,
        block: u8,
    },
    Force {
        d: u8,
        a: u8,
    },
    Peek {
        d: u8,
        a: u8,
        x: u8,
    },
    Poke {
        a: u8,
        x: u8,
        e: u8,
    },
    Call {
        d: u8,
        function: u8,
        version: u8,
        n: u8,
    },
    Dispatch {
        d: u8,
        function: u8,
        mark: u8,
        returns: u8,
        n: u8,
    },
    Skip {
        a: u8,
        n: u8,
    },
}

/// Where a pass along the records stands: in the version whose record is at `version`, with so many of its blocks begun.
/// Where no record is at `version`, it stands outside of all versions.
#[derive(Clone, Copy)]
pub struct Here {
    pub version: usize,
    pub blocks: usize,
}
