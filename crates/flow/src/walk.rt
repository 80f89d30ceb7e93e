//! What blocks do: the walk of a block meets instructions, and the walk of an instruction enters a higher block.
ghost use Rattle.std.specs.Prelude.{◌≡◌};
ghost use Rattle.layout.specs.Records.{records};
ghost use Rattle.program.specs.Program.{program};
ghost use Rattle.program.specs.Places.{version_at, instr_at};
ghost use Rattle.rules.specs.Actions.{body_action};
ghost use Rattle.flow.specs.Masks.{flowed};
ghost use Rattle.rules.specs.Walks.{block_action, acts};

use crate::{Action, actions, instructions, ways};
use layout::kinds;
use program::lookup;
use program::lookup::Tabled;

/// What the block `b` of the version at `v` does: its instructions one after the other, then it reads its result register.
#[cycle(walk_block_walk_instruction)]
fn walk_block(tabled: &Tabled, v: usize, b: usize) -> Option<Action>
    ensures { flowed result ≡ block_action (program (records tabled.now.image.now)) (version_at tabled.now.image.now v) b }
{
    let image = tabled.image;
    let Some(q) = lookup::block(image, v, b) else {
        return None;
    };
    let mut done = Some(Action {
        reads: 0,
        assigns: 0,
        empties: 0,
        captures: 0,
    });
    let mut p = q + layout::size_at(image, q);
    let count = ways::lines(image, p);
    let mut taken = [None; 51];
    let mut i: usize = 0;
    while lookup::is_line(image, p) {
        let at = ways::place(count, i);
        let came = taken[at];
        let now = actions::chain(actions::join(done, came), walk_instruction(tabled, v, b, p));
        let skip = ways::skip_at(image, p);
        done = ways::goes_on(now, skip, count, i);
        let t = ways::target(skip, count, i);
        let old = taken[t];
        let new = actions::join(now, old);
        taken[t] = new;
        p += layout::size_at(image, p);
        i += 1;
    }
    let last = ways::place(count, i);
    let came = taken[last];
    actions::chain(
        actions::join(done, came),
        actions::reading(sets::only(layout::field(image, q, 1))),
    )
}

/// What the instruction at `p` does, in the block `b` of the version at `v`: a PROM enters a block above its own.
#[cycle(walk_block_walk_instruction)]
fn walk_instruction(tabled: &Tabled, v: usize, b: usize, p: usize) -> Option<Action>
    ensures { flowed result ≡ acts (program (records tabled.now.image.now)) (version_at tabled.now.image.now v) b (instr_at tabled.now.image.now p) }
{
    let image = tabled.image;
    if layout::kind_at(image, p) != kinds::PROM {
        return instructions::instruction(tabled, p, None);
    }
    let block = layout::field(image, p, 1);
    if block <= b {
        return instructions::instruction(tabled, p, None);
    }
    instructions::instruction(tabled, p, walk_block(tabled, v, block))
}

/// What the body of the version at `v` does. The table is the image's: its callers make it once for many versions.
/// A block is walked as often as it is named: once, where question 7 holds.
pub(crate) fn body_action(tabled: Tabled, v: usize) -> Option<Action>
    ensures { flowed result ≡ body_action (program (records tabled.entry.image.now)) (version_at tabled.entry.image.now v) }
{
    walk_block(&tabled, v, 0)
}
