// The states possible after an action and its reply.
ghost use Rattle.std.specs.Prelude.{◌≡◌, ◌&&◌, ◌+◌, ◌<◌};
ghost use Rattle.lists.specs.Lists.{exists, below};
ghost use Rattle.states.specs.Sets.{bit, member, set_of};
ghost use Rattle.routine.specs.Memory.{set_at, head_at};
ghost use Rattle.progression.specs.Machine.{gathered, effect as effect_of, reply_states, stepped};

use routine::{HEAD_CELLS, SET_WORDS, head_at, set_at};
use states::States;

// The states that are in set `first` + b for some bit b of a word. (The bound keeps the sum from overflowing.)
fn gather_word(sets: &[u64; SET_WORDS], first: usize, word: u64) -> States
    requires { first < 131072 }
    ensures { result ≡ set_of (λ t. exists (λ b. bit word b && member (set_at sets.now (first + b)) t) (below 64)) }
{
    let mut left = word;
    let mut all = States::empty();
    while left != 0 {
        let b = u64::trailing_zeros(left) as usize;
        all = all.union(set_at(sets, first + b));
        left &= left - 1;
    }
    all
}

// The states that are in set `first` + s for some state s of a set.
fn gather(sets: &[u64; SET_WORDS], first: usize, set: States) -> States
    requires { first < 65536 }
    ensures { result ≡ gathered sets.now first set }
{
    let a = gather_word(sets, first, set.w0);
    let b = gather_word(sets, first + 64, set.w1);
    let c = gather_word(sets, first + 128, set.w2);
    let d = gather_word(sets, first + 192, set.w3);
    a.union(b).union(c.union(d))
}

// The states possible after the effect of an action, from those possible before.
pub fn effect(
    heads: &[u16; HEAD_CELLS],
    sets: &[u64; SET_WORDS],
    set: States,
    action: usize,
) -> States
    ensures { result ≡ effect_of sets.now (head_at heads.now action) set }
{
    let head = head_at(heads, action);
    if head.rows < head.replies {
        return gather(sets, head.rows, set);
    }
    set
}

// The states in which a reply of an action is true; of a reply that the action hasn't, none.
pub(crate) fn reply_states(
    heads: &[u16; HEAD_CELLS],
    sets: &[u64; SET_WORDS],
    action: usize,
    reply: usize,
) -> States
    ensures { result ≡ reply_states sets.now (head_at heads.now action) reply }
{
    let head = head_at(heads, action);
    if head.count <= reply {
        return States::empty();
    }
    set_at(sets, head.replies + reply)
}

// The states possible after an action and its reply, from those possible before: first the effect, then the reply.
pub fn step(
    heads: &[u16; HEAD_CELLS],
    sets: &[u64; SET_WORDS],
    set: States,
    action: usize,
    reply: usize,
) -> States
    ensures { result ≡ stepped heads.now sets.now set action reply }
{
    let after = effect(heads, sets, set, action);
    after.intersect(reply_states(heads, sets, action, reply))
}
