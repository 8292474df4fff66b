// One pass over the possible states when a reply comes in.
ghost use Rattle.std.specs.Prelude.{◌≡◌, ◌+◌, ◌≤◌, ◌<◌};
ghost use Rattle.std.specs.Int.Bits.{bit_and};
ghost use Rattle.std.specs.Int.Count.{ones};
ghost use Rattle.states.specs.Sets.{bit};
ghost use Rattle.progression.specs.Machine.{passed_over, passed_by};

use crate::steps::reply_states;
use routine::{HEAD_CELLS, SET_WORDS};
use states::States;

// The states that are kept; whether there is one; and how often the reply was evaluated. (`possible` follows from the states
// that are kept, but the contract of `recovery_pass` names it.)
#[derive(Clone, Copy)]
pub struct Passed {
    pub kept: States,
    pub possible: bool,
    pub evaluations: u64,
}

// One evaluation: whether the reply is true in one state, that of bit b of a word. It is counted here, beside the look, and
// nowhere else. (The bound keeps the count from overflowing.)
fn evaluate(reply: u64, b: u32, evaluations: &mut u64) -> bool
    requires { (b < 64) × (evaluations.old < 256) }
    ensures { (result ≡ bit reply b) × (evaluations.new ≡ evaluations.old + 1) }
{
    *evaluations += 1;
    (reply >> b) % 2 == 1
}

// The states of one word of a set, one after the other: the reply is evaluated in each, and those are kept in which it is
// true.
fn pass_word(states: u64, reply: u64, evaluations: &mut u64) -> u64
    requires { evaluations.old ≤ 192 }
    ensures { (result ≡ bit_and states reply) × (evaluations.new ≡ evaluations.old + ones states) }
{
    let mut left = states;
    let mut kept = 0u64;
    while left != 0 {
        let b = u64::trailing_zeros(left);
        let holds = evaluate(reply, b, evaluations);
        if holds {
            kept |= 1u64 << b;
        }
        left &= left - 1;
    }
    kept
}

// The states of a set, for a reply that is true in the states of another.
fn pass_over(set: States, reply: States) -> Passed
    ensures { result ≡ passed_over set reply }
{
    let mut evaluations = 0u64;
    let kept = States {
        w0: pass_word(set.w0, reply.w0, &mut evaluations),
        w1: pass_word(set.w1, reply.w1, &mut evaluations),
        w2: pass_word(set.w2, reply.w2, &mut evaluations),
        w3: pass_word(set.w3, reply.w3, &mut evaluations),
    };
    Passed {
        kept,
        possible: !kept.is_empty(),
        evaluations,
    }
}

// The states of a set, for a reply to an action. (The reply is looked at after the action's effect, so the set is that of
// the states possible then.)
pub fn pass(
    heads: &[u16; HEAD_CELLS],
    sets: &[u64; SET_WORDS],
    set: States,
    action: usize,
    reply: usize,
) -> Passed
    ensures { result ≡ passed_by heads.now sets.now set action reply }
{
    pass_over(set, reply_states(heads, sets, action, reply))
}
