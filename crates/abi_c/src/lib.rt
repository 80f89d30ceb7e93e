//! The interface in C, as include/fir.h declares it, for callers in C: each function is that of the crate abi, with the same contract.
//! Where a contract has two clauses, `call` says the same as `says`, by the name by which statements on lists of calls speak of it.
#![tactic(auto)]

ghost use Rattle.std.specs.Prelude.{◌≡◌, min, length};
ghost use Rattle.layout.specs.Bounds.{IMAGE};
ghost use Rattle.layout.specs.declared.Form.{Form};
ghost use Rattle.checker.specs.Verdicts.{verdict_in, verdict_of};
ghost use Rattle.checker.specs.Reports.{report_in, report_text};
ghost use Rattle.writer.specs.Text.{placed};
ghost use Rattle.machine.specs.Begin.{program_of};
ghost use Rattle.machine.specs.Changes.{change_of};
ghost use Rattle.machine.specs.Frames.{read_of};
ghost use Rattle.machine.specs.Pools.{pool_back, pool_change};
ghost use Rattle.machine.specs.Runs.{budget_of, step_of};
ghost use Rattle.machine.specs.Searches.{search_of};
ghost use Rattle.machine.specs.Values.{RANGE};
ghost use Rattle.machine.specs.Watches.{rows_after, watched_of};
ghost use Rattle.loaded.specs.Loaded.{program_in};
ghost use Rattle.loaded.specs.Loading.{Stands, bytes_for, load_of};
ghost use Rattle.loaded.specs.Running.{run_in_to};
ghost use Rattle.begin.specs.Asking.{entered_at};
ghost use Rattle.joins.specs.Joins.{join_of, joined_buffer};
ghost use Rattle.mends.specs.Mends.{mend_of};
ghost use Rattle.moves.specs.Moves.{buffer_after, move_of};
ghost use Rattle.bounds.specs.Bounds.{report};
ghost use Rattle.bounds.specs.Rows.{bounds_of, numbers_after, steps_after, unless};
ghost use Rattle.whereabouts.specs.Looks.{look_of};
ghost use Rattle.whereabouts.specs.Where.{where_of};
ghost use Rattle.words.specs.Words.{answer_text, question_text, written_of};
ghost use Rattle.abi.specs.Answers.{grant_numbers, form_of, joined_numbers, loaded_numbers, mended_numbers};
ghost use Rattle.abi.specs.Answers.{search_numbers, state_alignment, state_size, verdict_numbers, version_numbers, watched_numbers, where_numbers};
ghost use Rattle.abi.specs.Calls.{BeginCall, BudgetCall, ChangeCall, Loads, PoolBeginCall, PoolBudgetCall, PoolChangeCall, PoolRunCall, PoolStepCall};
ghost use Rattle.abi.specs.Calls.{RunCall, StepCall, TrailBackCall, TrailBudgetCall, TrailStepCall, WatchCall};
ghost use Rattle.abi.specs.Exits.{Answers, Began, Rests, Steps, entrance};
ghost use Rattle.abi.specs.Held.{held};
ghost use Rattle.abi.specs.Looks.{read_numbers};
ghost use Rattle.abi.specs.Pools.{AnswersIn, BeginsIn, MakesIn, RunsIn, StepsIn};
ghost use Rattle.abi.specs.Trails.{AnswersOn, BacksOn, ChangesOn, Started, StepsOn};

use abi::answers::{
    FirAnswer, FirEntry, FirJoined, FirLoaded, FirMended, FirSaid, FirSearched, FirTurn, FirValue,
    FirVerdict, FirVersion, FirWatched, FirWhere,
};
use abi::state::{FirState, FirTrail};
use machine::{Pool, Row};

/// The number of the interface, and that of the layout of a stored state.
#[unsafe(no_mangle)]
pub extern "C" fn fir_version() -> FirVersion
    ensures { result ≡ version_numbers }
{
    abi::fir_version()
}

/// Writes what a refusal by a question says from the place 0 on, and gives its length; a buffer that is too short is left as it
/// was, and the answer is 0. So it is for a number that is no question's.
#[unsafe(no_mangle)]
pub extern "C" fn fir_question_text(question: u8, text: &mut [u8]) -> usize
    ensures { (result ≡ written_of (question_text question) (length text.old))
        × (text.new ≡ placed text.old 0 (question_text question)) }
{
    abi::fir_question_text(question, text)
}

/// Writes what the code of an answer to a step or a budget says, as `fir_question_text` does; 0 for a number that is no code.
#[unsafe(no_mangle)]
pub extern "C" fn fir_answer_text(code: u8, text: &mut [u8]) -> usize
    ensures { (result ≡ written_of (answer_text code) (length text.old))
        × (text.new ≡ placed text.old 0 (answer_text code)) }
{
    abi::fir_answer_text(code, text)
}

/// The size of a state in bytes.
#[unsafe(no_mangle)]
pub extern "C" fn fir_state_size() -> usize
    ensures { result ≡ state_size }
{
    abi::fir_state_size()
}

/// The alignment of a state in bytes.
#[unsafe(no_mangle)]
pub extern "C" fn fir_state_alignment() -> usize
    ensures { result ≡ state_alignment }
{
    abi::fir_state_alignment()
}

/// Checks an image.
#[unsafe(no_mangle)]
pub extern "C" fn fir_check(image: &[u8]) -> FirVerdict
    ensures { result ≡ verdict_numbers (verdict_of image.now) }
{
    abi::fir_check(image)
}

/// Writes the text that `check` prints from the place 0 on, and gives its length; a buffer that is too short is left as it
/// was, and the answer is 0.
#[unsafe(no_mangle)]
pub extern "C" fn fir_report(image: &[u8], text: &mut [u8]) -> usize
    ensures { (result ≡ written_of (report_text image.now) (length text.old))
        × (text.new ≡ placed text.old 0 (report_text image.now)) }
{
    abi::fir_report(image, text)
}

/// Checks an image in a form: 1 names that of 32 bits, any other number that of 64.
#[unsafe(no_mangle)]
pub extern "C" fn fir_check_in(image: &[u8], form: u8) -> FirVerdict
    ensures { result ≡ verdict_numbers (verdict_in (form_of form) image.now) }
{
    abi::fir_check_in(image, form)
}

/// As `fir_report`, of an image in a form.
#[unsafe(no_mangle)]
pub extern "C" fn fir_report_in(image: &[u8], form: u8, text: &mut [u8]) -> usize
    ensures { (result ≡ written_of (report_in (form_of form) image.now) (length text.old))
        × (text.new ≡ placed text.old 0 (report_in (form_of form) image.now)) }
{
    abi::fir_report_in(image, form, text)
}

/// Moves an image of the 32-bit form to the 64-bit form: 0 and its length there, from the place 0 of the buffer on, or the
/// question that refuses and the offset. A refusal writes nothing.
#[unsafe(no_mangle)]
pub extern "C" fn fir_widen(image: &[u8], out: &mut [u8]) -> FirVerdict
    ensures { (result ≡ verdict_numbers (move_of Form.Narrow image.now (length out.old)))
        × (out.new ≡ buffer_after Form.Narrow image.now out.old) }
{
    abi::fir_widen(image, out)
}

/// Moves an image of the 64-bit form to the 32-bit form, as `fir_widen`.
#[unsafe(no_mangle)]
pub extern "C" fn fir_narrow(image: &[u8], out: &mut [u8]) -> FirVerdict
    ensures { (result ≡ verdict_numbers (move_of Form.Wide image.now (length out.old)))
        × (out.new ≡ buffer_after Form.Wide image.now out.old) }
{
    abi::fir_narrow(image, out)
}

/// Lists the versions of an image with the most steps that a run of each takes: 0 and the number of rows, or the question that
/// refuses the image and the offset. The row `i` has the function and the version at 2 × `i` and 2 × `i` + 1 of `numbers`, and its bound at
/// `i` of `steps`. Rows past the last stay, and a refusal writes nothing.
#[unsafe(no_mangle)]
pub extern "C" fn fir_bounds(
    image: &[u8],
    numbers: &mut [u8; 128],
    steps: &mut [u64; 64],
) -> FirVerdict
    ensures { (result ≡ verdict_numbers (bounds_of image.now))
        × (numbers.new ≡ unless (bounds_of image.now) numbers.old (numbers_after numbers.old 0 (report (program_of image.now))))
        × (steps.new ≡ unless (bounds_of image.now) steps.old (steps_after steps.old 0 (report (program_of image.now)))) }
{
    abi::fir_bounds(image, numbers, steps)
}

/// Joins two images, the first before the second, whose functions follow the first's: 0 and the length of the joined image, which the
/// buffer has from the place 0 on, or the question that refuses, the offset and the image that it refuses. A refusal writes nothing.
#[unsafe(no_mangle)]
pub extern "C" fn fir_join(first: &[u8], second: &[u8], out: &mut [u8]) -> FirJoined
    ensures { (result ≡ joined_numbers (join_of first.now second.now (length out.old)))
        × (out.new ≡ joined_buffer first.now second.now out.old) }
{
    abi::fir_join(first, second, out)
}

/// The one register type byte whose change makes a refused image accepted, beside the refusal; the image is not written.
#[unsafe(no_mangle)]
pub extern "C" fn fir_mend(image: &[u8]) -> FirMended
    ensures { result ≡ mended_numbers (mend_of image.now) }
{
    abi::fir_mend(image)
}

/// How many bytes the table of an image of so many bytes needs.
#[unsafe(no_mangle)]
pub extern "C" fn fir_table_size(bytes: usize) -> usize
    ensures { result ≡ bytes_for (min bytes IMAGE) }
{
    abi::fir_table_size(bytes)
}

/// Checks an image and fills its table: image and table stand for the image's program then. On a refusal, and where the table is
/// too short, they stand for the program without versions.
#[unsafe(no_mangle)]
pub extern "C" fn fir_load(image: &[u8], table: &mut [u8]) -> FirLoaded
    ensures says { (result ≡ loaded_numbers (load_of image.now (length table.old)))
        × Stands image.now table.new (load_of image.now (length table.old))
        × (length table.new ≡ length table.old) }
    ensures call { Loads image.now result table.old table.new }
{
    abi::fir_load(image, table)
}

/// Begins a run, at a level, of a version of a function of a loaded image: its first state is written, every byte of it. A refusal
/// writes nothing. The buffer is asked for its length only.
#[unsafe(no_mangle)]
pub extern "C" fn fir_begin(
    image: &[u8],
    table: &[u8],
    level: usize,
    function: usize,
    version: usize,
    words: &[i64],
    buffer: &[i64],
    state: &mut FirState,
) -> FirEntry
    ensures says { (result ≡ grant_numbers (entered_at (program_in image.now table.now) (entrance level function version) words.now buffer.now).entry)
        × Began (entered_at (program_in image.now table.now) (entrance level function version) words.now buffer.now).entry
        (program_in image.now table.now) (entrance level function version) words.now buffer.now
        state.old state.new }
    ensures call { BeginCall image.now table.now level function version words.now buffer.now result
        state.old state.new }
{
    abi::fir_begin(image, table, level, function, version, words, buffer, state)
}

/// Takes a single step. A stuck step, and one of a run that has ended, write nothing.
#[unsafe(no_mangle)]
pub extern "C" fn fir_step(image: &[u8], table: &[u8], state: &mut FirState) -> FirSaid
    ensures says { Steps result (step_of (program_in image.now table.now) (held state.old)) state.old state.new }
    ensures call { StepCall image.now table.now result state.old state.new }
{
    abi::fir_step(image, table, state)
}

/// Takes at most `budget` steps. A vector that the run is DONE with is written to the buffer from the place 0 on; all else in
/// the buffer stays. A refusal writes nothing, nor do a budget whose first step is stuck and one of a run that has ended to the state.
#[unsafe(no_mangle)]
pub extern "C" fn fir_budget(
    image: &[u8],
    table: &[u8],
    state: &mut FirState,
    budget: u32,
    buffer: &mut [i64],
) -> FirAnswer
    ensures says { Answers result (budget_of (program_in image.now table.now) (held state.old) budget buffer.old)
        state.old state.new buffer.old buffer.new
        × Rests budget (budget_of (program_in image.now table.now) (held state.old) budget buffer.old)
        state.old state.new }
    ensures call { BudgetCall image.now table.now budget result state.old state.new
        buffer.old buffer.new }
{
    abi::fir_budget(image, table, state, budget, buffer)
}

/// Begins a run of a loaded image at a level, and takes at most `budget` steps. A refusal writes nothing.
#[unsafe(no_mangle)]
pub extern "C" fn fir_run(
    image: &[u8],
    table: &[u8],
    level: usize,
    function: usize,
    version: usize,
    words: &[i64],
    budget: u32,
    buffer: &mut [i64],
    state: &mut FirState,
) -> FirAnswer
    ensures says { Answers result (run_in_to RANGE image.now table.now level function version words.now budget buffer.old)
        state.old state.new buffer.old buffer.new }
    ensures call { RunCall image.now table.now level function version words.now budget result
        state.old state.new buffer.old buffer.new }
{
    abi::fir_run(
        image, table, level, function, version, words, budget, buffer, state,
    )
}

/// Whether the state goes on under the new image: its questions are asked, and then 15. Nothing is written: where the answer
/// is 0 the caller goes on with the new image, else with the old one.
#[unsafe(no_mangle)]
pub extern "C" fn fir_change(old: &[u8], new: &[u8], state: &FirState) -> FirEntry
    ensures says { result ≡ grant_numbers (change_of old.now new.now (held state.now)) }
    ensures call { ChangeCall old.now new.now result state.now }
{
    abi::fir_change(old, new, state)
}

/// 02, request 8: keeps the state as the start of a trail. No step lies behind.
#[unsafe(no_mangle)]
pub extern "C" fn fir_trail_start(state: &FirState, trail: &mut FirTrail)
    ensures { Started state.now trail.new }
{
    abi::fir_trail_start(state, trail)
}

/// Takes a single step, as `fir_step`, and counts it in the trail. One that does not count leaves the trail as it was.
#[unsafe(no_mangle)]
pub extern "C" fn fir_trail_step(
    image: &[u8],
    table: &[u8],
    state: &mut FirState,
    trail: &mut FirTrail,
) -> FirSaid
    ensures says { StepsOn result (program_in image.now table.now) state.old trail.old state.new trail.new }
    ensures call { TrailStepCall image.now table.now result state.old trail.old state.new trail.new }
{
    abi::fir_trail_step(image, table, state, trail)
}

/// Takes at most `budget` steps, as `fir_budget`, and counts them in the trail. Where none counts the trail is left as it was.
#[unsafe(no_mangle)]
pub extern "C" fn fir_trail_budget(
    image: &[u8],
    table: &[u8],
    state: &mut FirState,
    trail: &mut FirTrail,
    budget: u32,
    buffer: &mut [i64],
) -> FirAnswer
    ensures says { AnswersOn result (program_in image.now table.now) budget state.old trail.old state.new trail.new
        buffer.old buffer.new }
    ensures call { TrailBudgetCall image.now table.now budget result state.old trail.old state.new trail.new
        buffer.old buffer.new }
{
    abi::fir_trail_budget(image, table, state, trail, budget, buffer)
}

/// Asks whether the state goes on under the new image, as `fir_change`. Where it does, the state is a new start; a refusal writes nothing.
#[unsafe(no_mangle)]
pub extern "C" fn fir_trail_change(
    old: &[u8],
    new: &[u8],
    state: &FirState,
    trail: &mut FirTrail,
) -> FirEntry
    ensures { ChangesOn result old.now new.now state.now trail.old trail.new }
{
    abi::fir_trail_change(old, new, state, trail)
}

/// Takes a step back: 0, and the state is the one that one step less gives from the start; or 20 where no step lies behind, and nothing is written.
#[unsafe(no_mangle)]
pub extern "C" fn fir_trail_back(
    image: &[u8],
    table: &[u8],
    state: &mut FirState,
    trail: &mut FirTrail,
) -> FirEntry
    ensures says { BacksOn result (program_in image.now table.now) state.old trail.old state.new trail.new }
    ensures call { TrailBackCall image.now table.now result state.old trail.old state.new trail.new }
{
    abi::fir_trail_back(image, table, state, trail)
}

/// 02, request 10: makes a pool of these reserves, in which no number has a run; or 21, where they sum above 64, and the pool is left as it was.
#[unsafe(no_mangle)]
pub extern "C" fn fir_pool_make(reserves: &[u8; 8], pool: &mut Pool) -> FirEntry
    ensures { MakesIn result reserves.now pool.old pool.new }
{
    abi::fir_pool_make(reserves, pool)
}

/// Begins a run under a number of the pool, as `fir_begin`. One that needs more vectors than it may have has begun and ended with VECTORS.
/// A refusal writes nothing: the run that had the number stays.
#[unsafe(no_mangle)]
pub extern "C" fn fir_pool_begin(
    image: &[u8],
    table: &[u8],
    level: usize,
    function: usize,
    version: usize,
    words: &[i64],
    buffer: &[i64],
    state: &mut FirState,
    pool: &mut Pool,
    number: usize,
) -> FirEntry
    ensures says { BeginsIn result (program_in image.now table.now) (entrance level function version) words.now buffer.now
        pool.old number state.old state.new pool.new }
    ensures call { PoolBeginCall image.now table.now level function version words.now buffer.now
        pool.old number result state.old state.new pool.new }
{
    abi::fir_pool_begin(
        image, table, level, function, version, words, buffer, state, pool, number,
    )
}

/// Takes a single step of the run that has the number, as `fir_step`, with at most as many vectors as it may have.
#[unsafe(no_mangle)]
pub extern "C" fn fir_pool_step(
    image: &[u8],
    table: &[u8],
    state: &mut FirState,
    pool: &mut Pool,
    number: usize,
) -> FirTurn
    ensures says { StepsIn result (program_in image.now table.now) pool.old number state.old state.new pool.new }
    ensures call { PoolStepCall image.now table.now pool.old number result state.old state.new pool.new }
{
    abi::fir_pool_step(image, table, state, pool, number)
}

/// Takes at most `budget` steps of the run that has the number, as `fir_budget`, with at most as many vectors as it may have.
#[unsafe(no_mangle)]
pub extern "C" fn fir_pool_budget(
    image: &[u8],
    table: &[u8],
    state: &mut FirState,
    pool: &mut Pool,
    number: usize,
    budget: u32,
    buffer: &mut [i64],
) -> FirAnswer
    ensures says { AnswersIn result (program_in image.now table.now) budget pool.old number state.old state.new pool.new
        buffer.old buffer.new }
    ensures call { PoolBudgetCall image.now table.now budget pool.old number result state.old state.new pool.new
        buffer.old buffer.new }
{
    abi::fir_pool_budget(image, table, state, pool, number, budget, buffer)
}

/// Begins a run under a number of the pool, and takes at most `budget` steps: `fir_pool_begin`, then `fir_pool_budget`.
#[unsafe(no_mangle)]
pub extern "C" fn fir_pool_run(
    image: &[u8],
    table: &[u8],
    level: usize,
    function: usize,
    version: usize,
    words: &[i64],
    budget: u32,
    buffer: &mut [i64],
    state: &mut FirState,
    pool: &mut Pool,
    number: usize,
) -> FirAnswer
    ensures says { RunsIn result (program_in image.now table.now) (entrance level function version) words.now budget
        pool.old number state.old state.new pool.new buffer.old buffer.new }
    ensures call { PoolRunCall image.now table.now level function version words.now budget
        pool.old number result state.old state.new pool.new buffer.old buffer.new }
{
    abi::fir_pool_run(
        image, table, level, function, version, words, budget, buffer, state, pool, number,
    )
}

/// Whether the run that has the number goes on under the new image, as `fir_change`; nothing is written, the pool neither.
#[unsafe(no_mangle)]
pub extern "C" fn fir_pool_change(
    old: &[u8],
    new: &[u8],
    state: &FirState,
    pool: &Pool,
    number: usize,
) -> FirEntry
    ensures says { result ≡ grant_numbers (pool_change pool.now number old.now new.now (held state.now)) }
    ensures call { PoolChangeCall old.now new.now pool.now number result state.now }
{
    abi::fir_pool_change(old, new, state, pool, number)
}

/// A step back of the run that has the number: 21, or 20, since a state of a pool has no step behind it.
#[unsafe(no_mangle)]
pub extern "C" fn fir_pool_back(pool: &Pool, number: usize) -> FirEntry
    ensures { result ≡ grant_numbers (pool_back pool.now number) }
{
    abi::fir_pool_back(pool, number)
}

/// What the place of a live call holds: registers are the places 0 to 15, names the places 16 to 23.
#[unsafe(no_mangle)]
pub extern "C" fn fir_look(state: &FirState, call: usize, place: usize) -> FirValue
    ensures { result ≡ read_numbers (read_of (look_of (held state.now) call place)) }
{
    abi::fir_look(state, call, place)
}

/// How many versions the DISPATCH looks at that the state stands at, ended or not, and how many its function has; all 0 where it
/// stands elsewhere.
#[unsafe(no_mangle)]
pub extern "C" fn fir_search(image: &[u8], table: &[u8], state: &FirState) -> FirSearched
    ensures { result ≡ search_numbers (search_of (program_in image.now table.now) (held state.now)) }
{
    abi::fir_search(image, table, state)
}

/// Where the state stands in its image, ended or not: at an instruction, at a block end, or nowhere.
#[unsafe(no_mangle)]
pub extern "C" fn fir_where(image: &[u8], table: &[u8], state: &FirState) -> FirWhere
    ensures { result ≡ where_numbers (where_of (program_in image.now table.now) (held state.now)) }
{
    abi::fir_where(image, table, state)
}

/// Fills the list with a record for each register of the topmost call, which is the newest frame, in order: how many were filled, 0
/// with no live call; or 22, where the list is too short. All other records stay.
#[unsafe(no_mangle)]
pub extern "C" fn fir_watch(
    image: &[u8],
    table: &[u8],
    state: &FirState,
    rows: &mut [Row],
) -> FirWatched
    ensures says { (result ≡ watched_numbers (watched_of (program_in image.now table.now) (held state.now) (length rows.old)))
        × (rows.new ≡ rows_after (program_in image.now table.now) (held state.now) rows.old) }
    ensures call { WatchCall image.now table.now result state.now rows.old rows.new }
{
    abi::fir_watch(image, table, state, rows)
}
