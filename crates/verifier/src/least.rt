// The least run with a history, over the routine's tables: backward the states from which the rest of the history can be
// gone, then forward the least of them. (The least next state alone may be one from which it can't.)
ghost use Rattle.std.specs.Prelude.{◌≡◌, ◌+◌, ◌*◌, ◌/◌, ◌%◌, ◌<◌, ◌≤◌, ◌&&◌, length};
ghost use Rattle.lists.specs.Lists.{exists, below, write};
ghost use Rattle.states.specs.Sets.{words, member, set_of};
ghost use Rattle.semantics.specs.Runs.{entry};
ghost use Rattle.format.specs.Format.{most_acts};
ghost use Rattle.semantics.specs.Verdict.{trace, written};
ghost use Rattle.routine.specs.Memory.{set_at};
ghost use Rattle.verifier.specs.Least.{preimage as preimage_of, path_from, least_states, FeasibleFrom};

use crate::limits::FEASIBLE_WORDS;
use progression::step;
use routine::{HEAD_CELLS, SET_WORDS, head_at, set_at};
use states::States;

// The states s for which set `first` + s has a state of a set.
fn meeting(sets: &[u64; SET_WORDS], first: usize, set: States) -> States
    requires { first < 65536 }
    ensures { result ≡ set_of (λ s. exists (λ t. member (set_at sets.now (first + s)) t && member set t) (below 256)) }
{
    let mut all = States::empty();
    for s in 0..=255u8 {
        let row = set_at(sets, first + s as usize);
        if !row.intersect(set).is_empty() {
            all = all.with(s);
        }
    }
    all
}

// The states from which an action with a reply leads into a set.
fn preimage(
    heads: &[u16; HEAD_CELLS],
    sets: &[u64; SET_WORDS],
    action: usize,
    reply: usize,
    later: States,
) -> States
    ensures { result ≡ preimage_of heads.now sets.now (entry action reply) later }
{
    let head = head_at(heads, action);
    if head.count <= reply {
        return States::empty();
    }
    let answered = later.intersect(set_at(sets, head.replies + reply));
    if head.rows < head.replies {
        return meeting(sets, head.rows, answered);
    }
    answered
}

// Writes the feasible sets of a path of actions and replies, a byte each: for each of its places the states from which
// the rest can be gone.
fn fill_feasible(
    heads: &[u16; HEAD_CELLS],
    sets: &[u64; SET_WORDS],
    path: &[u8],
    feasible: &mut [u64; FEASIBLE_WORDS],
)
    requires { length path.now ≤ most_acts }
    ensures { FeasibleFrom heads.now sets.now path.now (length path.now) 0 feasible.new }
{
    let mut set = States::uniform(true);
    set.put(feasible, States::WORDS * path.len());
    let mut rest = path;
    while let [before @ .., last] = rest {
        set = preimage(heads, sets, (*last / 8) as usize, (*last % 8) as usize, set);
        set.put(feasible, States::WORDS * before.len());
        rest = before;
    }
}

// Writes the trace of the least run along a path whose feasible sets are known.
fn least_along(
    heads: &[u16; HEAD_CELLS],
    sets: &[u64; SET_WORDS],
    path: &[u8],
    feasible: &[u64; FEASIBLE_WORDS],
    start: States,
    shown: &mut [u8],
)
    requires { (length path.now ≤ most_acts) × (1 + 2 * length path.now ≤ length shown.old) × FeasibleFrom heads.now sets.now path.now (length path.now) 0 feasible.now }
    ensures { shown.new ≡ written (trace (path_from path.now 0 (length path.now)) (least_states heads.now sets.now start (path_from path.now 0 (length path.now)))) shown.old }
{
    let mut s = start.intersect(States::at(feasible, 0)).least();
    shown[0] = s;
    // (By index: place k of the path stands for the feasible set k + 1 and for two bytes from 2k + 1 on.)
    for k in 0..path.len() {
        let b = path[k];
        let action = (b / 8) as usize;
        let reply = (b % 8) as usize;
        let after = step(heads, sets, States::one(s), action, reply);
        let later = States::at(feasible, States::WORDS * (k + 1));
        s = after.intersect(later).least();
        shown[2 * k + 1] = b;
        shown[2 * k + 2] = s;
    }
}

// Writes the trace of the least run along a path.
pub(crate) fn show(
    heads: &[u16; HEAD_CELLS],
    sets: &[u64; SET_WORDS],
    path: &[u8],
    start: States,
    shown: &mut [u8],
)
    requires { (length path.now ≤ most_acts) × (1 + 2 * length path.now ≤ length shown.old) }
    ensures { shown.new ≡ written (trace (path_from path.now 0 (length path.now)) (least_states heads.now sets.now start (path_from path.now 0 (length path.now)))) shown.old }
{
    let mut feasible = [0u64; FEASIBLE_WORDS];
    fill_feasible(heads, sets, path, &mut feasible);
    least_along(heads, sets, path, &feasible, start, shown);
}
