//! The records of an image, and questions 1 to 5.
#![tactic(auto)]

ghost use Rattle.std.specs.Prelude.{◌≡◌, ◌<◌, eqb, length};
ghost use Rattle.layout.specs.Tests.{◌and◌};
ghost use Rattle.layout.specs.Records.{◌!◌, size_at, kind_at, body_at, rec_at, records};
ghost use Rattle.layout.specs.Questions.{question1, question2, question3, question4, question5, plain_length, length_of, version_in_bounds, in_bounds, after_block, after_level};
ghost use Rattle.layout.specs.Questions.{after_line, after_version, block_next, idle, in_order, level_next, line_next, version_next, due_after, follows};
ghost use Rattle.layout.specs.Forms.{literal_kind, literal_length};
ghost use Rattle.layout.specs.Turns.{last_at, turn_of};

pub mod bounds;
pub mod kinds;
pub mod ownerships;
pub mod records;

use records::along;

/// A byte as a number.
pub fn wide(x: u8) -> usize
    ensures { (result ≡ x) × (result < 256) }
{
    x as usize
}

/// The byte at `p`, or 0 where the bytes end before it.
pub fn byte(image: &[u8], p: usize) -> usize
    ensures { (result ≡ image.now ! p) × (result < 256) }
{
    if p < image.len() { wide(image[p]) } else { 0 }
}

/// The whole length of the record at `p`, or 0 where no whole record begins there.
pub fn size_at(image: &[u8], p: usize) -> usize
    ensures { result ≡ size_at image.now p }
{
    if image.len() < p {
        return 0;
    }
    let room = image.len() - p;
    if room < 4 {
        return 0;
    }
    let n = wide(image[p]) + 256 * wide(image[p + 1]);
    if n < 4 {
        return 0;
    }
    let last_byte = p + n - 1;
    if image.len() <= last_byte {
        return 0;
    }
    n
}

/// The kind of the record at `p`; bytes that are not there read 0.
pub fn kind_at(image: &[u8], p: usize) -> usize
    ensures { result ≡ kind_at image.now p }
{
    if image.len() <= p {
        return 0;
    }
    byte(image, p + 2) + 256 * byte(image, p + 3)
}

/// The field `k` of the record at `p`, or 0 where its body ends before it.
pub fn field(image: &[u8], p: usize, k: usize) -> usize
    ensures { (result ≡ body_at image.now p ! k) × (result < 256) }
{
    let n = size_at(image, p);
    if n < 4 {
        return 0;
    }
    if n - 4 <= k {
        return 0;
    }
    wide(image[p + 4 + k])
}

/// Question 1: has the image 1 to 32,768 bytes?
pub fn question_1(image: &[u8]) -> Option<usize>
    ensures { result ≡ question1 image.now }
{
    if image.len() == 0 {
        return Some(0);
    }
    if bounds::IMAGE < image.len() {
        return Some(0);
    }
    None
}

/// Question 2: is each record whole?
pub fn question_2(image: &[u8]) -> Option<usize>
    ensures { result ≡ question2 (records image.now) }
{
    along(image, (), |_, _| Some(())).err()
}

/// The form of an image, by its literals: numbers of 32 bits, or of 64.
#[derive(Clone, Copy)]
pub enum Form {
    Narrow,
    Wide,
}

/// The kind of a form's literal.
pub fn literal_kind(form: Form) -> usize
    ensures { result ≡ literal_kind form }
{
    match form {
        Form::Narrow => kinds::NARROW_LIT,
        Form::Wide => kinds::LIT,
    }
}

/// The whole length of a form's literal.
pub fn literal_length(form: Form) -> usize
    ensures { result ≡ literal_length form }
{
    match form {
        Form::Narrow => 9,
        Form::Wide => 13,
    }
}

/// The length that the kind and the fields of the record at `p` make, or 0 where its kind is not one of both forms.
fn plain_length_at(image: &[u8], p: usize) -> usize
    ensures { result ≡ plain_length (kind_at image.now p) (body_at image.now p) }
{
    match kind_at(image, p) {
        kinds::VERSION => 10 + field(image, p, 3),
        kinds::BLOCK => 7,
        kinds::LEVEL => 5,
        kinds::MOVE => 6,
        kinds::USE => 6,
        kinds::DUP => 6,
        kinds::VEC => 6 + field(image, p, 1),
        kinds::LEN => 6,
        kinds::GET => 7,
        kinds::SET => 7,
        kinds::ARITH => 8,
        kinds::SELECT => 8,
        kinds::CAST => 6,
        kinds::NAMED => 6,
        kinds::STORE => 6,
        kinds::PROM => 6,
        kinds::FORCE => 6,
        kinds::PEEK => 7,
        kinds::POKE => 7,
        kinds::CALL => 8 + field(image, p, 3),
        kinds::DISPATCH => 9 + 2 * field(image, p, 4),
        kinds::SKIP => 6,
        _ => 0,
    }
}

/// The length that the kind and the fields of the record at `p` make in a form, or 0 where its kind is not known.
fn length_at(image: &[u8], p: usize, form: Form) -> usize
    ensures { result ≡ length_of form (kind_at image.now p) (body_at image.now p) }
{
    if kind_at(image, p) == literal_kind(form) {
        return literal_length(form);
    }
    plain_length_at(image, p)
}

/// Question 3: is each kind known in the form, its length the one its fields make?
pub fn question_3(image: &[u8], form: Form) -> Option<usize>
    ensures { result ≡ question3 form (records image.now) }
{
    along(
        image,
        (),
        |_, record| (record.size == length_at(image, record.at, form)).then_some(()),
    )
    .err()
}

/// What question 4 keeps: the versions so far, and the levels (one at most), blocks and instructions that are due.
#[derive(Clone, Copy)]
pub struct Due {
    pub versions: usize,
    pub levels: usize,
    pub blocks: usize,
    pub instructions: usize,
}

/// Are the function, version, parameters, registers and blocks of the VERSION at `p` in bounds?
fn version_in_bounds(image: &[u8], p: usize) -> bool
    ensures { result ≡ version_in_bounds (body_at image.now p) }
{
    if bounds::FUNCTIONS <= field(image, p, 0) {
        return false;
    }
    if bounds::VERSIONS <= field(image, p, 1) {
        return false;
    }
    let parameters = field(image, p, 2);
    let registers = field(image, p, 3);
    if bounds::PARAMETERS < parameters {
        return false;
    }
    if registers < parameters {
        return false;
    }
    if registers == 0 {
        return false;
    }
    if bounds::REGISTERS < registers {
        return false;
    }
    let blocks = field(image, p, 5);
    if blocks == 0 {
        return false;
    }
    blocks <= bounds::BLOCKS
}

/// Are the numbers, counts, level, marks, op and n of the record at `p` in bounds?
fn in_bounds(image: &[u8], p: usize) -> bool
    ensures { result ≡ in_bounds (kind_at image.now p) (body_at image.now p) }
{
    match kind_at(image, p) {
        kinds::VERSION => version_in_bounds(image, p),
        kinds::BLOCK => {
            if field(image, p, 0) < bounds::MARKS {
                field(image, p, 2) <= bounds::INSTRUCTIONS
            } else {
                false
            }
        }
        kinds::LEVEL => field(image, p, 0) < bounds::LEVELS,
        kinds::VEC => field(image, p, 1) <= bounds::OPERANDS,
        kinds::ARITH => field(image, p, 1) < bounds::OPERATIONS,
        kinds::CALL => field(image, p, 3) <= bounds::OPERANDS,
        kinds::DISPATCH => {
            if field(image, p, 2) < bounds::MARKS {
                field(image, p, 4) <= bounds::OPERANDS
            } else {
                false
            }
        }
        _ => true,
    }
}

/// Is no level, no block and no instruction due?
fn is_idle(due: Due) -> bool
    ensures { result ≡ idle due }
{
    if due.levels != 0 {
        return false;
    }
    if due.blocks != 0 {
        return false;
    }
    due.instructions == 0
}

/// The VERSION at `p`.
fn after_version(image: &[u8], p: usize, due: Due) -> Option<Due>
    ensures { result ≡ turn_of (version_next due) (after_version due (body_at image.now p)) }
{
    if bounds::ALL_VERSIONS <= due.versions {
        return None;
    }
    if !is_idle(due) {
        return None;
    }
    Some(Due {
        versions: due.versions + 1,
        levels: 1,
        blocks: field(image, p, 5),
        instructions: 0,
    })
}

/// A LEVEL.
fn after_level(due: Due) -> Option<Due>
    ensures { result ≡ turn_of (level_next due) (after_level due) }
{
    if due.levels == 0 {
        return None;
    }
    Some(Due {
        versions: due.versions,
        levels: due.levels - 1,
        blocks: due.blocks,
        instructions: due.instructions,
    })
}

/// The BLOCK at `p`.
fn after_block(image: &[u8], p: usize, due: Due) -> Option<Due>
    ensures { result ≡ turn_of (block_next due) (after_block due (body_at image.now p)) }
{
    let levels = due.levels;
    if levels != 0 {
        return None;
    }
    if due.blocks == 0 {
        return None;
    }
    if due.instructions != 0 {
        return None;
    }
    Some(Due {
        versions: due.versions,
        levels: levels,
        blocks: due.blocks - 1,
        instructions: field(image, p, 2),
    })
}

/// An instruction.
fn after_line(due: Due) -> Option<Due>
    ensures { result ≡ turn_of (line_next due) (after_line due) }
{
    if due.instructions == 0 {
        return None;
    }
    Some(Due {
        versions: due.versions,
        levels: due.levels,
        blocks: due.blocks,
        instructions: due.instructions - 1,
    })
}

/// May the record at `p` stand where `due` is due, and what is due after it?
fn due_after(image: &[u8], p: usize, due: Due) -> Option<Due>
    ensures { result ≡ turn_of (in_order due (kind_at image.now p)) (due_after due (rec_at image.now p)) }
{
    match kind_at(image, p) {
        kinds::VERSION => after_version(image, p, due),
        kinds::LEVEL => after_level(due),
        kinds::BLOCK => after_block(image, p, due),
        _ => after_line(due),
    }
}

/// Question 4: are numbers and counts in bounds and records in order? Where records are missing, the offset is the image length.
pub fn question_4(image: &[u8]) -> Option<usize>
    ensures { result ≡ question4 (length image.now) (records image.now) }
{
    let start = Due {
        versions: 0,
        levels: 0,
        blocks: 0,
        instructions: 0,
    };
    let left = along(image, start, |due, record| {
        if in_bounds(image, record.at) {
            due_after(image, record.at, due)
        } else {
            None
        }
    });
    match left {
        Ok(due) if is_idle(due) => None,
        Ok(_) => Some(image.len()),
        Err(p) => Some(p),
    }
}

/// Is it the version 0 of the function 0?
fn comes_first(function: usize, version: usize) -> bool
    ensures { result ≡ (eqb function 0 and eqb version 0) }
{
    if function == 0 { version == 0 } else { false }
}

/// Does the VERSION at `p` follow on the one at `last`, or come first where there is none before it?
fn in_sequence(image: &[u8], last: Option<usize>, p: usize) -> bool
    ensures { result ≡ follows (last_at image.now last) (body_at image.now p ! 0) (body_at image.now p ! 1) }
{
    let function = field(image, p, 0);
    let version = field(image, p, 1);
    let Some(last) = last else {
        return comes_first(function, version);
    };
    let before = field(image, last, 0);
    if function == before {
        return version == field(image, last, 1) + 1;
    }
    if function == before + 1 {
        return version == 0;
    }
    false
}

/// Question 5: is the first version 0.0, and each next one the same function with version + 1, or function + 1 with version 0?
pub fn question_5(image: &[u8]) -> Option<usize>
    ensures { result ≡ question5 (records image.now) }
{
    along(image, None, |last, record| {
        if kind_at(image, record.at) != kinds::VERSION {
            Some(last)
        } else if in_sequence(image, last, record.at) {
            Some(Some(record.at))
        } else {
            None
        }
    })
    .err()
}
