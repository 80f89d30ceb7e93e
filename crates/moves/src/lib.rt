//! An image moved to the other form, into a lent buffer.
#![tactic(auto)]

ghost use Rattle.std.specs.Prelude.{◌≡◌, ◌+◌, ◌≤◌, length};
ghost use Rattle.layout.specs.Forms.{literal_kind, moved, other, sign_byte};
ghost use Rattle.layout.specs.Records.{◌!◌, size_at, kind_at, body_at, rec_at, records};
ghost use Rattle.program.specs.Program.{number_in};
ghost use Rattle.writer.specs.Text.{placed};
ghost use Rattle.checker.specs.Verdicts.{ask};
ghost use Rattle.moves.specs.Moves.{buffer_after, fits32, fitting32, from16, leaves, move_of, question16, question17};
ghost use Rattle.moves.specs.Parts.{Ready, Stands, head_of, moved_at, sign_of};

use checker::{Refusal, questions};
use layout::Form;
use layout::records::Records;

/// Where the body of a record begins.
const BODY: usize = 4;

/// Where the four bytes of a literal's number end that both forms have.
const LOW_END: usize = 9;

/// The other form.
fn other_form(form: Form) -> Form
    ensures { result ≡ other form }
{
    match form {
        Form::Narrow => Form::Wide,
        Form::Wide => Form::Narrow,
    }
}

/// Each further byte of a number, by its highest byte.
fn sign_byte(high: usize) -> u8
    ensures { result ≡ sign_byte high }
{
    if high < 128 { 0 } else { 255 }
}

/// Does the number of the 64-bit literal at `p` fit 32 bits? Its four highest bytes are then the sign of the one below them.
fn fits(image: &[u8], p: usize) -> bool
    ensures { result ≡ fits32 (number_in Form.Wide (body_at image.now p)) }
{
    let sign = layout::wide(sign_byte(layout::field(image, p, 4)));
    if layout::field(image, p, 5) != sign {
        return false;
    }
    if layout::field(image, p, 6) != sign {
        return false;
    }
    if layout::field(image, p, 7) != sign {
        return false;
    }
    layout::field(image, p, 8) == sign
}

/// Question 16 put to the record at `p`.
fn passes(image: &[u8], p: usize, form: Form) -> bool
    ensures { result ≡ fitting32 form tt (rec_at image.now p) }
{
    if layout::kind_at(image, p) != layout::literal_kind(form) {
        return true;
    }
    match form {
        Form::Narrow => true,
        Form::Wide => fits(image, p),
    }
}

/// How long the record at `p` is in the other form.
fn moved_length(image: &[u8], p: usize, form: Form) -> usize
    requires { Stands form image.now p }
    ensures { (result ≡ length (moved_at form image.now p)) × (result ≤ size_at image.now p + 4) }
{
    if layout::kind_at(image, p) == layout::literal_kind(form) {
        return layout::literal_length(other_form(form));
    }
    layout::size_at(image, p)
}

/// How long the image is in the other form, where question 16 finds no literal that does not fit.
fn measure(image: &[u8], form: Form) -> Result<usize, Refusal>
    requires { Ready form image.now }
    ensures { result ≡ ask 16 (question16 form (records image.now)) (Ok (length (moved form (records image.now)))) }
{
    let mut total: usize = 0;
    for record in Records::of(image) {
        if !passes(image, record.at, form) {
            return Err(Refusal {
                question: 16,
                at: record.at,
            });
        }
        total += moved_length(image, record.at, form);
    }
    Ok(total)
}

/// Puts the head of a form's literal at `at`, where it fits: its length and its kind.
fn put_head(out: &mut [u8], at: usize, form: Form)
    ensures { out.new ≡ placed out.old at (head_of form) }
{
    match form {
        Form::Narrow => {
            let head: [u8; 4] = [9, 0, 16, 0];
            writer::put_bytes(out, at, &head);
        }
        Form::Wide => {
            let head: [u8; 4] = [13, 0, 36, 0];
            writer::put_bytes(out, at, &head);
        }
    }
}

/// Puts the sign of the 32-bit literal at `p` at `at`, where it fits: the four bytes that its number gets.
fn put_sign(image: &[u8], p: usize, out: &mut [u8], at: usize)
    ensures { out.new ≡ placed out.old at (sign_of image.now p) }
{
    let s = sign_byte(layout::field(image, p, 4));
    let sign: [u8; 4] = [s, s, s, s];
    writer::put_bytes(out, at, &sign);
}

/// Puts the literal at `p` at `at` in the other form, and gives the place behind it.
fn put_literal(image: &[u8], p: usize, form: Form, out: &mut [u8], at: usize) -> usize
    requires stands { Stands form image.now p }
    requires p_value { kind_at image.now p ≡ literal_kind form }
    requires p_in_bounds { at + length (moved_at form image.now p) ≤ length out.old }
    ensures { (result ≡ at + length (moved_at form image.now p)) × (out.new ≡ placed out.old at (moved_at form image.now p)) }
{
    put_head(out, at, other_form(form));
    writer::put_bytes(out, at + BODY, &image[p + BODY..p + LOW_END]);
    match form {
        Form::Narrow => {
            put_sign(image, p, out, at + LOW_END);
            at + LOW_END + 4
        }
        Form::Wide => at + LOW_END,
    }
}

/// Puts the record at `p` at `at` in the other form, and gives the place behind it.
fn put_record(image: &[u8], p: usize, form: Form, out: &mut [u8], at: usize) -> usize
    requires stands { Stands form image.now p }
    requires p_in_bounds { at + length (moved_at form image.now p) ≤ length out.old }
    ensures { (result ≡ at + length (moved_at form image.now p)) × (out.new ≡ placed out.old at (moved_at form image.now p)) }
{
    if layout::kind_at(image, p) == layout::literal_kind(form) {
        return put_literal(image, p, form, out, at);
    }
    let n = layout::size_at(image, p);
    writer::put_bytes(out, at, &image[p..p + n]);
    at + n
}

/// Puts all records from place 0 on, each in the other form.
fn put_records(image: &[u8], form: Form, out: &mut [u8])
    requires ready { Ready form image.now }
    requires image_in_bounds { length (moved form (records image.now)) ≤ length out.old }
    ensures { out.new ≡ placed out.old 0 (moved form (records image.now)) }
{
    let mut at: usize = 0;
    for record in Records::of(image) {
        at = put_record(image, record.at, form, out, at);
    }
}

/// Writes the image, which has `n` bytes in the other form, where neither an image's bound nor the buffer is too short.
fn write_moved(image: &[u8], form: Form, out: &mut [u8], n: usize) -> Result<usize, Refusal>
    requires ready { Ready form image.now }
    requires n_value { n ≡ length (moved form (records image.now)) }
    ensures { (result ≡ ask 17 (question17 n (length out.old)) (Ok n)) × (out.new ≡ leaves result out.old (moved form (records image.now))) }
{
    if layout::bounds::IMAGE < n {
        return Err(Refusal {
            question: 17,
            at: 0,
        });
    }
    if out.len() < n {
        return Err(Refusal {
            question: 17,
            at: 0,
        });
    }
    put_records(image, form, out);
    Ok(n)
}

/// Moves an image that passed its own questions.
fn move_accepted(image: &[u8], form: Form, out: &mut [u8]) -> Result<usize, Refusal>
    requires { Ready form image.now }
    ensures { (result ≡ from16 form image.now (length out.old)) × (out.new ≡ leaves result out.old (moved form (records image.now))) }
{
    let n = measure(image, form)?;
    write_moved(image, form, out, n)
}

/// Moves an image in a form to the other one, into the buffer from place 0 on, and gives its length there. A refusal leaves the buffer as it was.
pub fn move_from(image: &[u8], form: Form, out: &mut [u8]) -> Result<usize, Refusal>
    ensures { (result ≡ move_of form image.now (length out.old)) × (out.new ≡ buffer_after form image.now out.old) }
{
    questions::verdict_in(image, form)?;
    move_accepted(image, form, out)
}

/// Moves an image of the 32-bit form to the 64-bit form.
pub fn widen(image: &[u8], out: &mut [u8]) -> Result<usize, Refusal>
    ensures { (result ≡ move_of Form.Narrow image.now (length out.old)) × (out.new ≡ buffer_after Form.Narrow image.now out.old) }
{
    move_from(image, Form::Narrow, out)
}

/// Moves an image of the 64-bit form to the 32-bit form.
pub fn narrow(image: &[u8], out: &mut [u8]) -> Result<usize, Refusal>
    ensures { (result ≡ move_of Form.Wide image.now (length out.old)) × (out.new ≡ buffer_after Form.Wide image.now out.old) }
{
    move_from(image, Form::Wide, out)
}
