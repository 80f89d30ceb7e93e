//! The interface in C, as include/fir.h declares it: the caller owns the state of a run and lends it to each call. The crate abi_c exports
//! each function to C under the same contract.
#![tactic(auto)]

ghost use Rattle.std.specs.Prelude.{◌≡◌, min, length};
ghost use Rattle.layout.specs.Bounds.{IMAGE};
ghost use Rattle.layout.specs.declared.Form.{Form};
ghost use Rattle.checker.specs.Verdicts.{verdict_in, verdict_of};
ghost use Rattle.checker.specs.Reports.{report_in, report_text};
ghost use Rattle.writer.specs.Text.{placed};
ghost use Rattle.machine.specs.Begin.{program_of};
ghost use Rattle.machine.specs.Changes.{change_of};
ghost use Rattle.machine.specs.Frames.{read_of};
ghost use Rattle.machine.specs.Pools.{pool_back, pool_change};
ghost use Rattle.machine.specs.Runs.{budget_of, step_of};
ghost use Rattle.machine.specs.Searches.{search_of};
ghost use Rattle.machine.specs.Values.{RANGE};
ghost use Rattle.machine.specs.Watches.{rows_after, watched_of};
ghost use Rattle.loaded.specs.Loaded.{program_in};
ghost use Rattle.loaded.specs.Loading.{Stands, bytes_for, load_of};
ghost use Rattle.loaded.specs.Running.{run_in_to};
ghost use Rattle.begin.specs.Asking.{entered_at};
ghost use Rattle.joins.specs.Joins.{join_of, joined_buffer};
ghost use Rattle.mends.specs.Mends.{mend_of};
ghost use Rattle.moves.specs.Moves.{buffer_after, move_of};
ghost use Rattle.bounds.specs.Bounds.{report};
ghost use Rattle.bounds.specs.Rows.{bounds_of, numbers_after, steps_after, unless};
ghost use Rattle.whereabouts.specs.Looks.{look_of};
ghost use Rattle.whereabouts.specs.Where.{where_of};
ghost use Rattle.words.specs.Words.{answer_text, question_text, written_of};
ghost use Rattle.abi.specs.Answers.{grant_numbers, form_of, joined_numbers, loaded_numbers, mended_numbers};
ghost use Rattle.abi.specs.Answers.{search_numbers, state_alignment, state_size, verdict_numbers, version_numbers, watched_numbers, where_numbers};
ghost use Rattle.abi.specs.Exits.{Answers, Began, Rests, Steps, entrance};
ghost use Rattle.abi.specs.Held.{held};
ghost use Rattle.abi.specs.Looks.{read_numbers};
ghost use Rattle.abi.specs.Pools.{AnswersIn, BeginsIn, MakesIn, RunsIn, StepsIn};
ghost use Rattle.abi.specs.Trails.{AnswersOn, BacksOn, ChangesOn, Started, StepsOn};

use answers::{
    FirAnswer, FirEntry, FirJoined, FirLoaded, FirMended, FirSaid, FirSearched, FirTurn, FirValue,
    FirVerdict, FirVersion, FirWatched, FirWhere,
};
use begin::Entrance;
use checker::{questions, report};
use entry::Start;
use machine::{Pool, Row};
use pool::{Ask, Room};
use state::{FirState, FirTrail};

pub mod answers;
pub mod entry;
pub mod parts;
pub mod pool;
pub mod state;
pub mod trail;

/// The number of the interface, and that of the layout of a stored state.
pub fn fir_version() -> FirVersion
    ensures { result ≡ version_numbers }
{
    answers::version()
}

/// Writes what a refusal by a question says from the place 0 on, and gives its length; a buffer that is too short is left as it
/// was, and the answer is 0. So it is for a number that is no question's.
pub fn fir_question_text(question: u8, text: &mut [u8]) -> usize
    ensures { (result ≡ written_of (question_text question) (length text.old))
        × (text.new ≡ placed text.old 0 (question_text question)) }
{
    words::question_text(question, text)
}

/// Writes what the code of an answer to a step or a budget says, as `fir_question_text` does; 0 for a number that is no code.
pub fn fir_answer_text(code: u8, text: &mut [u8]) -> usize
    ensures { (result ≡ written_of (answer_text code) (length text.old))
        × (text.new ≡ placed text.old 0 (answer_text code)) }
{
    words::answer_text(code, text)
}

/// The size of a state in bytes.
pub fn fir_state_size() -> usize
    ensures { result ≡ state_size }
{
    19664
}

/// The alignment of a state in bytes.
pub fn fir_state_alignment() -> usize
    ensures { result ≡ state_alignment }
{
    8
}

/// Checks an image.
pub fn fir_check(image: &[u8]) -> FirVerdict
    ensures { result ≡ verdict_numbers (verdict_of image.now) }
{
    answers::verdict(questions::verdict(image))
}

/// Writes the text that `check` prints from the place 0 on, and gives its length; a buffer that is too short is left as it
/// was, and the answer is 0.
pub fn fir_report(image: &[u8], text: &mut [u8]) -> usize
    ensures { (result ≡ written_of (report_text image.now) (length text.old))
        × (text.new ≡ placed text.old 0 (report_text image.now)) }
{
    match report::report(image, text) {
        Some(n) => n,
        None => 0,
    }
}

/// Checks an image in a form: 1 names that of 32 bits, any other number that of 64.
pub fn fir_check_in(image: &[u8], form: u8) -> FirVerdict
    ensures { result ≡ verdict_numbers (verdict_in (form_of form) image.now) }
{
    answers::verdict(questions::verdict_in(image, answers::form(form)))
}

/// As `fir_report`, of an image in a form.
pub fn fir_report_in(image: &[u8], form: u8, text: &mut [u8]) -> usize
    ensures { (result ≡ written_of (report_in (form_of form) image.now) (length text.old))
        × (text.new ≡ placed text.old 0 (report_in (form_of form) image.now)) }
{
    match report::report_in(image, answers::form(form), text) {
        Some(n) => n,
        None => 0,
    }
}

/// Moves an image of the 32-bit form to the 64-bit form: 0 and its length there, from the place 0 of the buffer on, or the
/// question that refuses and the offset. A refusal writes nothing.
pub fn fir_widen(image: &[u8], out: &mut [u8]) -> FirVerdict
    ensures { (result ≡ verdict_numbers (move_of Form.Narrow image.now (length out.old)))
        × (out.new ≡ buffer_after Form.Narrow image.now out.old) }
{
    answers::verdict(moves::widen(image, out))
}

/// Moves an image of the 64-bit form to the 32-bit form, as `fir_widen`.
pub fn fir_narrow(image: &[u8], out: &mut [u8]) -> FirVerdict
    ensures { (result ≡ verdict_numbers (move_of Form.Wide image.now (length out.old)))
        × (out.new ≡ buffer_after Form.Wide image.now out.old) }
{
    answers::verdict(moves::narrow(image, out))
}

/// Lists the versions of an image with the most steps that a run of each takes: 0 and the number of rows, or the question that
/// refuses the image and the offset. The row `i` has the function and the version at 2 × `i` and 2 × `i` + 1 of `numbers`, and its bound at
/// `i` of `steps`. Rows past the last stay, and a refusal writes nothing.
pub fn fir_bounds(image: &[u8], numbers: &mut [u8; 128], steps: &mut [u64; 64]) -> FirVerdict
    ensures { (result ≡ verdict_numbers (bounds_of image.now))
        × (numbers.new ≡ unless (bounds_of image.now) numbers.old (numbers_after numbers.old 0 (report (program_of image.now))))
        × (steps.new ≡ unless (bounds_of image.now) steps.old (steps_after steps.old 0 (report (program_of image.now)))) }
{
    answers::verdict(bounds::bounds_of(image, numbers, steps))
}

/// Joins two images, the first before the second, whose functions follow the first's: 0 and the length of the joined image, which the
/// buffer has from the place 0 on, or the question that refuses, the offset and the image that it refuses. A refusal writes nothing.
pub fn fir_join(first: &[u8], second: &[u8], out: &mut [u8]) -> FirJoined
    ensures { (result ≡ joined_numbers (join_of first.now second.now (length out.old)))
        × (out.new ≡ joined_buffer first.now second.now out.old) }
{
    answers::joined(joins::join(first, second, out))
}

/// The one register type byte whose change makes a refused image accepted, beside the refusal; the image is not written.
pub fn fir_mend(image: &[u8]) -> FirMended
    ensures { result ≡ mended_numbers (mend_of image.now) }
{
    answers::mended(mends::mend(image))
}

/// How many bytes the table of an image of so many bytes needs.
pub fn fir_table_size(bytes: usize) -> usize
    ensures { result ≡ bytes_for (min bytes IMAGE) }
{
    loaded::bytes_for(bytes)
}

/// Checks an image and fills its table: image and table stand for the image's program then. On a refusal, and where the table is
/// too short, they stand for the program without versions.
pub fn fir_load(image: &[u8], table: &mut [u8]) -> FirLoaded
    ensures { (result ≡ loaded_numbers (load_of image.now (length table.old)))
        × Stands image.now table.new (load_of image.now (length table.old))
        × (length table.new ≡ length table.old) }
{
    answers::loaded(loaded::load(image, table))
}

/// Begins a run, at a level, of a version of a function of a loaded image: its first state is written, every byte of it. A refusal
/// writes nothing. The buffer is asked for its length only.
pub fn fir_begin(
    image: &[u8],
    table: &[u8],
    level: usize,
    function: usize,
    version: usize,
    words: &[i64],
    buffer: &[i64],
    state: &mut FirState,
) -> FirEntry
    ensures { (result ≡ grant_numbers (entered_at (program_in image.now table.now) (entrance level function version) words.now buffer.now).entry)
        × Began (entered_at (program_in image.now table.now) (entrance level function version) words.now buffer.now).entry
        (program_in image.now table.now) (entrance level function version) words.now buffer.now
        state.old state.new }
{
    let at = Entrance {
        level: level,
        function: function,
        version: version,
    };
    entry::begun(
        image,
        table,
        at,
        words,
        buffer,
        &mut state.bytes,
        &mut state.numbers,
    )
}

/// Takes a single step. A stuck step, and one of a run that has ended, write nothing.
pub fn fir_step(image: &[u8], table: &[u8], state: &mut FirState) -> FirSaid
    ensures { Steps result (step_of (program_in image.now table.now) (held state.old)) state.old state.new }
{
    parts::step(image, table, &mut state.bytes, &mut state.numbers)
}

/// Takes at most `budget` steps. A vector that the run is DONE with is written to the buffer from the place 0 on; all else in
/// the buffer stays. A refusal writes nothing, nor do a budget whose first step is stuck and one of a run that has ended to the state.
pub fn fir_budget(
    image: &[u8],
    table: &[u8],
    state: &mut FirState,
    budget: u32,
    buffer: &mut [i64],
) -> FirAnswer
    ensures { Answers result (budget_of (program_in image.now table.now) (held state.old) budget buffer.old)
        state.old state.new buffer.old buffer.new
        × Rests budget (budget_of (program_in image.now table.now) (held state.old) budget buffer.old)
        state.old state.new }
{
    parts::budget(
        image,
        table,
        budget,
        buffer,
        &mut state.bytes,
        &mut state.numbers,
    )
}

/// Begins a run of a loaded image at a level, and takes at most `budget` steps. A refusal writes nothing.
pub fn fir_run(
    image: &[u8],
    table: &[u8],
    level: usize,
    function: usize,
    version: usize,
    words: &[i64],
    budget: u32,
    buffer: &mut [i64],
    state: &mut FirState,
) -> FirAnswer
    ensures { Answers result (run_in_to RANGE image.now table.now level function version words.now budget buffer.old)
        state.old state.new buffer.old buffer.new }
{
    let at = Start {
        level: level,
        function: function,
        version: version,
        budget: budget,
    };
    entry::run(
        image,
        table,
        at,
        words,
        buffer,
        &mut state.bytes,
        &mut state.numbers,
    )
}

/// Whether the state goes on under the new image: its questions are asked, and then 15. Nothing is written: where the answer
/// is 0 the caller goes on with the new image, else with the old one.
pub fn fir_change(old: &[u8], new: &[u8], state: &FirState) -> FirEntry
    ensures { result ≡ grant_numbers (change_of old.now new.now (held state.now)) }
{
    parts::change(old, new, &state.bytes)
}

/// 02, request 8: keeps the state as the start of a trail. No step lies behind.
pub fn fir_trail_start(state: &FirState, trail: &mut FirTrail)
    ensures { Started state.now trail.new }
{
    trails::start(
        &state.bytes,
        &state.numbers,
        &mut trail.bytes,
        &mut trail.numbers,
        &mut trail.steps,
        &mut trail.past,
    )
}

/// Takes a single step, as `fir_step`, and counts it in the trail. One that does not count leaves the trail as it was.
pub fn fir_trail_step(
    image: &[u8],
    table: &[u8],
    state: &mut FirState,
    trail: &mut FirTrail,
) -> FirSaid
    ensures { StepsOn result (program_in image.now table.now) state.old trail.old state.new trail.new }
{
    trail::step(
        image,
        table,
        &mut state.bytes,
        &mut state.numbers,
        &mut trail.steps,
        &mut trail.past,
    )
}

/// Takes at most `budget` steps, as `fir_budget`, and counts them in the trail. Where none counts the trail is left as it was.
pub fn fir_trail_budget(
    image: &[u8],
    table: &[u8],
    state: &mut FirState,
    trail: &mut FirTrail,
    budget: u32,
    buffer: &mut [i64],
) -> FirAnswer
    ensures { AnswersOn result (program_in image.now table.now) budget state.old trail.old state.new trail.new
        buffer.old buffer.new }
{
    trail::budget(
        image,
        table,
        budget,
        buffer,
        &mut state.bytes,
        &mut state.numbers,
        &mut trail.steps,
        &mut trail.past,
    )
}

/// Asks whether the state goes on under the new image, as `fir_change`. Where it does, the state is a new start; a refusal writes nothing.
pub fn fir_trail_change(old: &[u8], new: &[u8], state: &FirState, trail: &mut FirTrail) -> FirEntry
    ensures { ChangesOn result old.now new.now state.now trail.old trail.new }
{
    trail::change(
        old,
        new,
        &state.bytes,
        &state.numbers,
        &mut trail.bytes,
        &mut trail.numbers,
        &mut trail.steps,
        &mut trail.past,
    )
}

/// Takes a step back: 0, and the state is the one that one step less gives from the start; or 20 where no step lies behind, and nothing is written.
pub fn fir_trail_back(
    image: &[u8],
    table: &[u8],
    state: &mut FirState,
    trail: &mut FirTrail,
) -> FirEntry
    ensures { BacksOn result (program_in image.now table.now) state.old trail.old state.new trail.new }
{
    trail::back(
        image,
        table,
        &mut state.bytes,
        &mut state.numbers,
        &trail.bytes,
        &trail.numbers,
        &mut trail.steps,
        &trail.past,
    )
}

/// 02, request 10: makes a pool of these reserves, in which no number has a run; or 21, where they sum above 64, and the pool is left as it was.
pub fn fir_pool_make(reserves: &[u8; 8], pool: &mut Pool) -> FirEntry
    ensures { MakesIn result reserves.now pool.old pool.new }
{
    pool::make(reserves, &mut pool.reserves, &mut pool.has)
}

/// Begins a run under a number of the pool, as `fir_begin`. One that needs more vectors than it may have has begun and ended with VECTORS.
/// A refusal writes nothing: the run that had the number stays.
pub fn fir_pool_begin(
    image: &[u8],
    table: &[u8],
    level: usize,
    function: usize,
    version: usize,
    words: &[i64],
    buffer: &[i64],
    state: &mut FirState,
    pool: &mut Pool,
    number: usize,
) -> FirEntry
    ensures { BeginsIn result (program_in image.now table.now) (entrance level function version) words.now buffer.now
        pool.old number state.old state.new pool.new }
{
    let at = Room {
        level: level,
        function: function,
        version: version,
        number: number,
    };
    pool::begun(
        image,
        table,
        at,
        words,
        buffer,
        &mut state.bytes,
        &mut state.numbers,
        &pool.reserves,
        &mut pool.has,
    )
}

/// Takes a single step of the run that has the number, as `fir_step`, with at most as many vectors as it may have.
pub fn fir_pool_step(
    image: &[u8],
    table: &[u8],
    state: &mut FirState,
    pool: &mut Pool,
    number: usize,
) -> FirTurn
    ensures { StepsIn result (program_in image.now table.now) pool.old number state.old state.new pool.new }
{
    pool::step(
        image,
        table,
        &mut state.bytes,
        &mut state.numbers,
        &pool.reserves,
        &mut pool.has,
        number,
    )
}

/// Takes at most `budget` steps of the run that has the number, as `fir_budget`, with at most as many vectors as it may have.
pub fn fir_pool_budget(
    image: &[u8],
    table: &[u8],
    state: &mut FirState,
    pool: &mut Pool,
    number: usize,
    budget: u32,
    buffer: &mut [i64],
) -> FirAnswer
    ensures { AnswersIn result (program_in image.now table.now) budget pool.old number state.old state.new pool.new
        buffer.old buffer.new }
{
    let ask = Ask {
        number: number,
        budget: budget,
    };
    pool::budget(
        image,
        table,
        ask,
        buffer,
        &mut state.bytes,
        &mut state.numbers,
        &pool.reserves,
        &mut pool.has,
    )
}

/// Begins a run under a number of the pool, and takes at most `budget` steps: `fir_pool_begin`, then `fir_pool_budget`.
pub fn fir_pool_run(
    image: &[u8],
    table: &[u8],
    level: usize,
    function: usize,
    version: usize,
    words: &[i64],
    budget: u32,
    buffer: &mut [i64],
    state: &mut FirState,
    pool: &mut Pool,
    number: usize,
) -> FirAnswer
    ensures { RunsIn result (program_in image.now table.now) (entrance level function version) words.now budget
        pool.old number state.old state.new pool.new buffer.old buffer.new }
{
    let at = Room {
        level: level,
        function: function,
        version: version,
        number: number,
    };
    pool::run(
        image,
        table,
        at,
        budget,
        words,
        buffer,
        &mut state.bytes,
        &mut state.numbers,
        &pool.reserves,
        &mut pool.has,
    )
}

/// Whether the run that has the number goes on under the new image, as `fir_change`; nothing is written, the pool neither.
pub fn fir_pool_change(
    old: &[u8],
    new: &[u8],
    state: &FirState,
    pool: &Pool,
    number: usize,
) -> FirEntry
    ensures { result ≡ grant_numbers (pool_change pool.now number old.now new.now (held state.now)) }
{
    pool::change(old, new, &state.bytes, &pool.reserves, number)
}

/// A step back of the run that has the number: 21, or 20, since a state of a pool has no step behind it.
pub fn fir_pool_back(pool: &Pool, number: usize) -> FirEntry
    ensures { result ≡ grant_numbers (pool_back pool.now number) }
{
    pool::back(&pool.reserves, number)
}

/// What the place of a live call holds: registers are the places 0 to 15, names the places 16 to 23.
pub fn fir_look(state: &FirState, call: usize, place: usize) -> FirValue
    ensures { result ≡ read_numbers (read_of (look_of (held state.now) call place)) }
{
    parts::look(&state.bytes, &state.numbers, call, place)
}

/// How many versions the DISPATCH looks at that the state stands at, ended or not, and how many its function has; all 0 where it
/// stands elsewhere.
pub fn fir_search(image: &[u8], table: &[u8], state: &FirState) -> FirSearched
    ensures { result ≡ search_numbers (search_of (program_in image.now table.now) (held state.now)) }
{
    parts::search(image, table, &state.bytes)
}

/// Where the state stands in its image, ended or not: at an instruction, at a block end, or nowhere.
pub fn fir_where(image: &[u8], table: &[u8], state: &FirState) -> FirWhere
    ensures { result ≡ where_numbers (where_of (program_in image.now table.now) (held state.now)) }
{
    parts::stand(image, table, &state.bytes)
}

/// Fills the list with a record for each register of the topmost call, which is the newest frame, in order: how many were filled, 0
/// with no live call; or 22, where the list is too short. All other records stay.
pub fn fir_watch(image: &[u8], table: &[u8], state: &FirState, rows: &mut [Row]) -> FirWatched
    ensures { (result ≡ watched_numbers (watched_of (program_in image.now table.now) (held state.now) (length rows.old)))
        × (rows.new ≡ rows_after (program_in image.now table.now) (held state.now) rows.old) }
{
    let watched = parts::watched(image, table, &state.bytes, rows.len());
    watches::fill(image, table, &state.bytes, &state.numbers, rows);
    watched
}
