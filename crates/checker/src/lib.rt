// The checker of failing traces.
#![tactic(auto)]

ghost use Rattle.std.specs.Prelude.{◌≡◌, ◌&&◌, length};
ghost use Rattle.format.specs.Format.{reading};
ghost use Rattle.semantics.specs.Checker.{is_trace_length, checked};
ghost use Rattle.routine.specs.Tables.{TablesAfter};
ghost use Rattle.checker.specs.Answers.{answer_of};
ghost use Rattle.checker.specs.Shown.{shows_by};

use progression::{Place, settle, step};
use reader::Refusal;
use routine::{HEAD_CELLS, NODE_CELLS, SET_WORDS, TRACE, prepare};
use states::States;

// Whether a trace's length is odd and at most that of the longest, and the trace is that of a full run whose history
// fails the goal, by a routine's tables and its start set.
fn shows(
    heads: &[u16; HEAD_CELLS],
    nodes: &[u16; NODE_CELLS],
    sets: &[u64; SET_WORDS],
    start: States,
    trace: &[u8],
) -> bool
    ensures { result ≡ (is_trace_length (length trace.now) && shows_by heads.now nodes.now sets.now start trace.now) }
{
    // (First, so that a trace of even length takes no steps.)
    if trace.len() % 2 == 0 {
        return false;
    }
    let [first, behind @ ..] = trace else {
        return false;
    };
    if TRACE < trace.len() {
        return false;
    }
    if !start.has(*first) {
        return false;
    }
    let mut own = States::one(*first);
    let mut set = start;
    let mut at = 0;
    let mut rest = behind;
    while let [b, next, tail @ ..] = rest {
        match settle(nodes, sets, set, at) {
            Place::End(holds) => {
                return false;
            }
            Place::Act(node, action) => {
                if action != (*b / 8) as usize {
                    return false;
                }
                let reply = (*b % 8) as usize;
                if !step(heads, sets, own, action, reply).has(*next) {
                    return false;
                }
                set = step(heads, sets, set, action, reply);
                own = States::one(*next);
                at = node + 1;
                rest = tail;
            }
        }
    }
    let [] = rest else {
        return false;
    };
    let last = settle(nodes, sets, set, at);
    match last {
        Place::Act(node, action) => false,
        Place::End(holds) => !holds,
    }
}

// Whether a trace is a full run following the routine of a sheet whose history fails the goal, least or not; in lent
// tables, whatever they hold. They are then those of the sheet; a refusal leaves them as they were.
pub fn check_in(
    bytes: &[u8],
    trace: &[u8],
    heads: &mut [u16; HEAD_CELLS],
    nodes: &mut [u16; NODE_CELLS],
    sets: &mut [u64; SET_WORDS],
) -> Result<bool, Refusal>
    ensures { (answer_of result ≡ checked bytes.now trace.now) × TablesAfter (reading bytes.now) heads.old nodes.old sets.old heads.new nodes.new sets.new }
{
    match prepare(bytes, heads, nodes, sets) {
        Ok(start) => Ok(shows(heads, nodes, sets, start, trace)),
        Err(refusal) => Err(refusal),
    }
}

// The same in tables of its own.
pub fn check(bytes: &[u8], trace: &[u8]) -> Result<bool, Refusal>
    ensures { answer_of result ≡ checked bytes.now trace.now }
{
    let mut heads = [0u16; HEAD_CELLS];
    let mut nodes = [0u16; NODE_CELLS];
    let mut sets = [0u64; SET_WORDS];
    check_in(bytes, trace, &mut heads, &mut nodes, &mut sets)
}
