// The sets and the heads of a sheet's actions. What is read stands in the sheet, so that no refusal is ever met.
ghost use Rattle.std.specs.Prelude.{◌+◌, ◌≤◌, ◌<◌};
ghost use Rattle.routine.specs.Memory.{head_most, set_most};
ghost use Rattle.routine.specs.Filling.{TheoryEnds, RowIs, RowsFill, Replies, RepliesFill, ActionRoom, ActionFills, ActionsRoom, ActionsFill};

use crate::limits::{HEAD_CELLS, SET_WORDS};
use crate::memory::{put_head, put_set};
use reader::{ActionKind, Packed, View};
use states::States;

// Where the sets of actions end: in the sheet, and among the sets.
#[derive(Clone, Copy)]
pub(crate) struct Laid {
    pub at: usize,
    pub set: usize,
}

// Where the theory at a position ends.
fn theory_end(packed: &Packed, at: usize, n: usize) -> usize
    ensures { TheoryEnds packed.now n at result }
{
    match packed.objective(at, n, View::Next(0)) {
        Ok((set, end)) => end,
        Err(refusal) => at,
    }
}

// The states of a space that may follow a state of it by the theory at a position.
fn row(packed: &Packed, at: usize, n: usize, space: States, state: u8) -> States
    ensures { RowIs packed.now n at space state result }
{
    if !space.has(state) {
        return States::empty();
    }
    match packed.objective(at, n, View::Next(state)) {
        Ok((set, end)) => space.intersect(set),
        Err(refusal) => States::empty(),
    }
}

// Writes the rows of the theory at a position, from set k on.
fn fill_rows(
    packed: &Packed,
    at: usize,
    n: usize,
    space: States,
    k: usize,
    sets: &mut [u64; SET_WORDS],
)
    requires { k + 256 ≤ set_most }
    ensures { RowsFill packed.now n at space k sets.old sets.new }
{
    for state in 0..=255u8 {
        let next = row(packed, at, n, space, state);
        put_set(sets, k + state as usize, next);
    }
}

// Writes the tables of the m replies at a position, from set k on, and tells where they end.
fn fill_replies(
    packed: &Packed,
    at: usize,
    n: usize,
    m: usize,
    k: usize,
    sets: &mut [u64; SET_WORDS],
) -> usize
    requires { Replies packed.now n at m k }
    ensures { RepliesFill packed.now n at m k sets.old sets.new result }
{
    let mut p = at;
    for i in 0..m {
        let Ok((set, end)) = packed.objective(p, n, View::States) else {
            return p;
        };
        put_set(sets, k + i, set);
        p = end;
    }
    p
}

// Writes the sets of the action at a position, from set k on, and its head as that of action a.
fn fill_action(
    packed: &Packed,
    at: usize,
    n: usize,
    space: States,
    a: usize,
    k: usize,
    heads: &mut [u16; HEAD_CELLS],
    sets: &mut [u64; SET_WORDS],
) -> Laid
    requires { (a < head_most) × ActionRoom packed.now n space at k }
    ensures { ActionFills packed.now n space at a k heads.old heads.new sets.old sets.new result }
{
    let nothing = Laid { at, set: k };
    let Ok((kind, behind)) = packed.kind(at) else {
        return nothing;
    };
    match kind {
        ActionKind::Change => {
            let end = theory_end(packed, behind, n);
            fill_rows(packed, behind, n, space, k, sets);
            put_set(sets, k + 256, States::uniform(true));
            put_head(heads, a, k, k + 256, 1);
            Laid {
                at: end,
                set: k + 257,
            }
        }
        ActionKind::Probe => {
            let Ok((m, first)) = packed.reply_total(behind) else {
                return nothing;
            };
            let end = fill_replies(packed, first, n, m, k, sets);
            put_head(heads, a, k, k, m);
            Laid {
                at: end,
                set: k + m,
            }
        }
    }
}

// Writes the sets and the heads of the actions at a position.
pub(crate) fn fill_actions(
    packed: &Packed,
    at: usize,
    n: usize,
    space: States,
    count: usize,
    heads: &mut [u16; HEAD_CELLS],
    sets: &mut [u64; SET_WORDS],
) -> Laid
    requires { ActionsRoom packed.now n space at count }
    ensures { ActionsFill packed.now n space at count heads.old heads.new sets.old sets.new result }
{
    let mut p = at;
    let mut k = 0;
    for a in 0..count {
        let laid = fill_action(packed, p, n, space, a, k, heads, sets);
        p = laid.at;
        k = laid.set;
    }
    Laid { at: p, set: k }
}
