//! Instructions: their decoded forms and operands.
ghost use Rattle.std.specs.Prelude.{◌≡◌, ◌<◌};
ghost use Rattle.std.proofs.Common.{to_z};
ghost use Rattle.std.specs.Int.{w64};
ghost use Rattle.layout.specs.Records.{body_at, ◌!◌};
ghost use Rattle.layout.specs.declared.Form.{Form};
ghost use Rattle.program.specs.Program.{number_in, word};
ghost use Rattle.program.specs.Places.{instr_at};
ghost use Rattle.program.specs.Shapes.{shape_of, listed_registers, listed_types};

use crate::Instruction;
use layout::kinds;

/// The field `k` of the record at `p` as a byte.
fn small(image: &[u8], p: usize, k: usize) -> u8
    ensures { result ≡ body_at image.now p ! k }
{
    layout::field(image, p, k) as u8
}

/// The 64 bits `u` read as a signed number.
fn signed_of(u: u64) -> i64
    ensures { result ≡ to_z w64 u }
{
    if u < 9223372036854775808 {
        u as i64
    } else {
        -1 - ((18446744073709551615 - u) as i64)
    }
}

/// The four bytes from the field `k` on of the record at `p`, as a number.
fn word(image: &[u8], p: usize, k: usize) -> u64
    requires { k < 256 }
    ensures { (result ≡ word (body_at image.now p) k) × (result < 4294967296) }
{
    let low = layout::field(image, p, k) + 256 * layout::field(image, p, k + 1);
    let high = layout::field(image, p, k + 2) + 256 * layout::field(image, p, k + 3);
    (low + 65536 * high) as u64
}

/// The number of the LIT at `p`, from its eight bytes.
fn literal(image: &[u8], p: usize) -> i64
    ensures { result ≡ number_in Form.Wide (body_at image.now p) }
{
    signed_of(word(image, p, 1) + 4294967296 * word(image, p, 5))
}

/// The form of the instruction whose record stands at `p`; a record of another kind has that of a LIT.
pub fn decode(image: &[u8], p: usize) -> Instruction
    ensures { result ≡ shape_of (instr_at image.now p) }
{
    match layout::kind_at(image, p) {
        kinds::MOVE => Instruction::Move {
            d: small(image, p, 0),
            a: small(image, p, 1),
        },
        kinds::USE => Instruction::Use {
            d: small(image, p, 0),
            a: small(image, p, 1),
        },
        kinds::DUP => Instruction::Dup {
            d: small(image, p, 0),
            a: small(image, p, 1),
        },
        kinds::VEC => Instruction::Vec {
            d: small(image, p, 0),
            n: small(image, p, 1),
        },
        kinds::LEN => Instruction::Len {
            d: small(image, p, 0),
            a: small(image, p, 1),
        },
        kinds::GET => Instruction::Get {
            d: small(image, p, 0),
            a: small(image, p, 1),
            i: small(image, p, 2),
        },
        kinds::SET => Instruction::Set {
            a: small(image, p, 0),
            i: small(image, p, 1),
            e: small(image, p, 2),
        },
        kinds::ARITH => Instruction::Arith {
            d: small(image, p, 0),
            op: small(image, p, 1),
            a: small(image, p, 2),
            b: small(image, p, 3),
        },
        kinds::SELECT => Instruction::Select {
            d: small(image, p, 0),
            c: small(image, p, 1),
            a: small(image, p, 2),
            b: small(image, p, 3),
        },
        kinds::CAST => Instruction::Cast {
            d: small(image, p, 0),
            a: small(image, p, 1),
        },
        kinds::NAMED => Instruction::Named {
            d: small(image, p, 0),
            x: small(image, p, 1),
        },
        kinds::STORE => Instruction::Store {
            x: small(image, p, 0),
            a: small(image, p, 1),
        },
        kinds::PROM => Instruction::Prom {
            d: small(image, p, 0),
            block: small(image, p, 1),
        },
        kinds::FORCE => Instruction::Force {
            d: small(image, p, 0),
            a: small(image, p, 1),
        },
        kinds::PEEK => Instruction::Peek {
            d: small(image, p, 0),
            a: small(image, p, 1),
            x: small(image, p, 2),
        },
        kinds::POKE => Instruction::Poke {
            a: small(image, p, 0),
            x: small(image, p, 1),
            e: small(image, p, 2),
        },
        kinds::CALL => Instruction::Call {
            d: small(image, p, 0),
            function: small(image, p, 1),
            version: small(image, p, 2),
            n: small(image, p, 3),
        },
        kinds::DISPATCH => Instruction::Dispatch {
            d: small(image, p, 0),
            function: small(image, p, 1),
            mark: small(image, p, 2),
            returns: small(image, p, 3),
            n: small(image, p, 4),
        },
        kinds::SKIP => Instruction::Skip {
            a: small(image, p, 0),
            n: small(image, p, 1),
        },
        _ => Instruction::Lit {
            d: small(image, p, 0),
            i: literal(image, p),
        },
    }
}

/// The register `i` that the VEC, CALL or DISPATCH at `p` lists, or 0 where it lists no such register.
pub fn listed_register(image: &[u8], p: usize, i: usize) -> usize
    ensures { (result ≡ listed_registers (instr_at image.now p) ! i) × (result < 256) }
{
    match layout::kind_at(image, p) {
        kinds::VEC => {
            if i < layout::field(image, p, 1) {
                layout::field(image, p, 2 + i)
            } else {
                0
            }
        }
        kinds::CALL => {
            if i < layout::field(image, p, 3) {
                layout::field(image, p, 4 + i)
            } else {
                0
            }
        }
        kinds::DISPATCH => {
            if i < layout::field(image, p, 4) {
                layout::field(image, p, 6 + i * 2)
            } else {
                0
            }
        }
        _ => 0,
    }
}

/// The type `i` that the DISPATCH at `p` lists, or 0 where it lists no such type.
pub fn listed_type(image: &[u8], p: usize, i: usize) -> usize
    ensures { (result ≡ listed_types (instr_at image.now p) ! i) × (result < 256) }
{
    if layout::kind_at(image, p) != kinds::DISPATCH {
        return 0;
    }
    if i < layout::field(image, p, 4) {
        layout::field(image, p, 5 + i * 2)
    } else {
        0
    }
}
