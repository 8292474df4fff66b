// Actions: reading them, and the tests that refuse with 14 and 15.
ghost use Rattle.std.specs.Prelude.{◌≡◌, ℕ};
ghost use mathlib.Core.List.{List, flat_map};
ghost use Rattle.states.specs.Sets.{members};
ghost use Rattle.format.specs.Syntax.{Objective, Action, probe};
ghost use Rattle.format.specs.Truth.{truth};
ghost use Rattle.format.specs.Format.{got, mapped, objectives, theory_over, replies_over, action, action_list, leads_on, has_reply, unless, action_faults, decided};
ghost use Rattle.reader.specs.Answers.{answer_of, found, states_in};
ghost use Rattle.reader.specs.Method.{end_read, tested, ending, some_holds};
ghost use Rattle.reader.specs.declared.formula.View.{View};

use crate::bits::Packed;
use crate::formula::{View, evaluate, read_objective};
use crate::limits::DEPTH;
use crate::nodes::ActionKind;
use crate::refusal::{Parsed, Refusal};
use states::States;

// m objective formulas: the states in which one of them holds, and where they end.
fn evaluate_some(packed: &Packed, at: usize, m: usize, n: usize) -> Parsed<States>
    ensures { found result ≡ mapped some_holds (objectives n m packed.now at) }
{
    let mut set = States::empty();
    let mut p = at;
    for i in 0..m {
        let (reply, next) = attempt!(evaluate(packed, p, DEPTH, n, View::States));
        set = set.union(reply);
        p = next;
    }
    Ok((set, p))
}

// A probe behind its kind: the states in which a reply is true, and where it ends.
fn evaluate_replies(packed: &Packed, at: usize, n: usize) -> Parsed<States>
    ensures { found result ≡ mapped some_holds (replies_over n packed.now at) }
{
    let (m, next) = attempt!(packed.reply_total(at));
    evaluate_some(packed, next, m, n)
}

// An action over n facts, only where it ends. (A theory's end is the same whatever the state.)
fn read_action(packed: &Packed, at: usize, n: usize) -> Result<usize, Refusal>
    ensures { end_read result ≡ mapped ending (action n packed.now at) }
{
    let (kind, next) = attempt!(packed.kind(at));
    match kind {
        ActionKind::Change => read_objective(packed, next, DEPTH, n, View::Next(0)),
        ActionKind::Probe => {
            let (set, end) = attempt!(evaluate_replies(packed, next, n));
            Ok(end)
        }
    }
}

// k actions over n facts, only where they end.
pub(crate) fn read_actions(packed: &Packed, at: usize, n: usize, k: usize) -> Result<usize, Refusal>
    ensures { end_read result ≡ mapped ending (action_list n k packed.now at) }
{
    let mut p = at;
    for i in 0..k {
        p = attempt!(read_action(packed, p, n));
    }
    Ok(p)
}

// The next states that the theory at a position allows from a state.
fn states_after(packed: &Packed, at: usize, n: usize, state: u8) -> States
    ensures { (f : Objective) (end : ℕ) → theory_over n packed.now at ≡ got f end → result ≡ states_in (View.Next state) f }
{
    match evaluate(packed, at, DEPTH, n, View::Next(state)) {
        Ok((set, end)) => set,
        Err(refusal) => States::empty(),
    }
}

// Whether the theory at a position allows from each state of the space a next state in the space. One evaluation gives all
// next states of a state.
fn leads_on(packed: &Packed, at: usize, n: usize, space: States) -> bool
    ensures { (f : Objective) (end : ℕ) → theory_over n packed.now at ≡ got f end → result ≡ leads_on (members space) (truth f) }
{
    'states: for state in 0..=255u8 {
        if !space.has(state) {
            continue 'states;
        }
        let row = states_after(packed, at, n, state).intersect(space);
        for next in 0..=255u8 {
            if row.has(next) {
                continue 'states;
            }
        }
        return false;
    }
    true
}

// Reads and tests the theory at a position: where it ends, or the refusal, 14 if some state has no next state.
fn test_theory(packed: &Packed, at: usize, n: usize, space: States) -> Result<usize, Refusal>
    ensures { answer_of result ≡ tested (λ f. unless (leads_on (members space) (truth f)) 14) (theory_over n packed.now at) }
{
    let end = attempt!(read_objective(packed, at, DEPTH, n, View::Next(0)));
    if leads_on(packed, at, n, space) {
        return Ok(end);
    }
    Err(Refusal::NoNext)
}

// Reads and tests the replies at a position: where they end, or the refusal, 15 if some state has no reply.
fn test_replies(packed: &Packed, at: usize, n: usize, space: States) -> Result<usize, Refusal>
    ensures { answer_of result ≡ tested (λ fs. unless (has_reply (members space) (probe fs)) 15) (replies_over n packed.now at) }
{
    let (set, end) = attempt!(evaluate_replies(packed, at, n));
    if space.difference(set).is_empty() {
        return Ok(end);
    }
    Err(Refusal::NoReply)
}

// The tests of the action at a position: where it ends, or the refusal.
fn test_action(packed: &Packed, at: usize, n: usize, space: States) -> Result<usize, Refusal>
    ensures { answer_of result ≡ tested (action_faults (members space)) (action n packed.now at) }
{
    let (kind, next) = attempt!(packed.kind(at));
    match kind {
        ActionKind::Change => test_theory(packed, next, n, space),
        ActionKind::Probe => test_replies(packed, next, n, space),
    }
}

// The tests of the k actions at a position, which are read, by action number: where they end, or the first refusal.
pub(crate) fn test_actions(
    packed: &Packed,
    at: usize,
    n: usize,
    k: usize,
    space: States,
) -> Result<usize, Refusal>
    ensures { (actions : List Action) (end : ℕ) → action_list n k packed.now at ≡ got actions end → answer_of result ≡ decided (flat_map (action_faults (members space)) actions) end }
{
    let mut p = at;
    for i in 0..k {
        p = attempt!(test_action(packed, p, n, space));
    }
    Ok(p)
}
