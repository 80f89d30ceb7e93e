//! Words for the number of a question that refuses, and for the code of an answer.
#![tactic(auto)]

ghost use Rattle.std.specs.Prelude.{◌≡◌, length};
ghost use Rattle.writer.specs.Text.{placed};
ghost use Rattle.words.specs.Words.{answer_text, question_text, written_of};

/// Writes a text from the place 0 on, and gives its length; a buffer that is too short is left as it was, and the answer is 0.
fn say(out: &mut [u8], t: &[u8]) -> usize
    ensures { (result ≡ written_of t.now (length out.old)) × (out.new ≡ placed out.old 0 t.now) }
{
    let size = t.len();
    if out.len() < size {
        return 0;
    }
    writer::put_bytes(out, 0, t);
    size
}

/// What a refusal by a question says; nothing for a number that is none.
#[tactic(auto, unfolding(crate::specs::Words::question_text, layout::specs::Records::choose, writer::specs::Text::text))]
fn question_words(question: u8) -> &'static [u8]
    ensures { result.now ≡ question_text question }
{
    match question {
        0 => b"accepted",
        1 => b"the image is empty or has more than 32768 bytes",
        2 => b"a record has no full head, a length below 4, or an end behind the image",
        3 => b"a kind is not known, or a length is not the one that its fields make",
        4 =>
            b"a number, count, level, mark, op or n is out of bounds, or a record is missing or out of order",
        5 => b"the first version is not 0.0, or a version does not follow on the one before it",
        6 => b"a type byte is not allowed at its place",
        7 => b"something named does not exist, or a block is not named by exactly one PROM",
        8 => b"types do not fit",
        9 => b"a block's mark does not cover its effect",
        10 =>
            b"a register may be empty where it is read, emptied or captured, or is emptied after a capture",
        11 => b"the entry does not exist",
        12 => b"the argument words do not match the parameters, or some are left over",
        13 => b"the result buffer has fewer than 16 places",
        14 => b"a SKIP goes past the end of its block, or of a skipped part that it stands in",
        15 => b"a version with a live call differs in the new image, or is missing there",
        16 => b"a literal does not fit 32 bits",
        17 => b"the moved image has more than 32768 bytes or does not fit the buffer",
        18 => b"a CALL goes to a version of a higher level",
        19 => b"the entry is above the level of the run",
        20 => b"no step lies behind",
        21 => b"the reserves of a pool sum above 64, or the number of a run is above 7",
        22 => b"the list of records is too short",
        23 => b"the joined image would break a bound of the layout, or does not fit the buffer",
        _ => b"",
    }
}

/// Writes what a refusal by a question says, as `say`; 0 and nothing for a number that is none.
pub fn question_text(question: u8, out: &mut [u8]) -> usize
    ensures { (result ≡ written_of (question_text question) (length out.old)) × (out.new ≡ placed out.old 0 (question_text question)) }
{
    say(out, question_words(question))
}

/// What the code of an answer to a step or a budget says; nothing for a number that is none.
#[tactic(auto, unfolding(crate::specs::Words::answer_text, layout::specs::Records::choose, writer::specs::Text::text))]
fn answer_words(code: u8) -> &'static [u8]
    ensures { result.now ≡ answer_text code }
{
    match code {
        0 => b"the run goes on",
        1 => b"DONE with an integer",
        2 => b"DONE with a vector",
        3 => b"UNDEF: an operation has no result",
        4 => b"DEEP: a 33rd activation is needed",
        5 => b"VECTORS: a 65th vector is needed, or one more than a pool gives",
        6 => b"PROMISES: a 65th promise is needed",
        7 => b"stuck: the state is none of a run of this image",
        8 => b"refused",
        _ => b"",
    }
}

/// Writes what the code of an answer to a step or a budget says, as `say`; 0 and nothing for a number that is none.
pub fn answer_text(code: u8, out: &mut [u8]) -> usize
    ensures { (result ≡ written_of (answer_text code) (length out.old)) × (out.new ≡ placed out.old 0 (answer_text code)) }
{
    say(out, answer_words(code))
}
