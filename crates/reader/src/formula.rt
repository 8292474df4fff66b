// Objective and epistemic formulas: reading them, and the states in which one holds.
ghost use Rattle.std.specs.Prelude.{◌≡◌, true, false, ◌<◌};
ghost use Rattle.states.specs.Sets.{member, set_of};
ghost use Rattle.format.specs.Truth.{fact_in};
ghost use Rattle.format.specs.Format.{mapped, most_facts, deepest, fact_number, objective, epistemic, of_sheet};
ghost use Rattle.reader.specs.Answers.{found, in_theory, states_in};
ghost use Rattle.reader.specs.Method.{end_read, ending, fact_of, joins};

use crate::bits::Packed;
use crate::limits::DEPTH;
use crate::nodes::{Connective, EpistemicNode, ObjectiveNode};
use crate::refusal::{Parsed, Refusal};
use states::States;

// The states that a formula is evaluated in, all at once.
#[derive(Clone, Copy)]
pub enum View {
    // Outside a theory: each state.
    States,
    // In a theory: each next state of one state.
    Next(u8),
}

// The states in which fact i is true.
fn holding_fact(i: usize) -> States
    requires { i < most_facts }
    ensures { result ≡ set_of (λ t. fact_in t i) }
{
    match i {
        0 => repeated(0xAAAA_AAAA_AAAA_AAAA),
        1 => repeated(0xCCCC_CCCC_CCCC_CCCC),
        2 => repeated(0xF0F0_F0F0_F0F0_F0F0),
        3 => repeated(0xFF00_FF00_FF00_FF00),
        4 => repeated(0xFFFF_0000_FFFF_0000),
        5 => repeated(0xFFFF_FFFF_0000_0000),
        6 => States {
            w0: 0,
            w1: u64::MAX,
            w2: 0,
            w3: u64::MAX,
        },
        _ => States {
            w0: 0,
            w1: 0,
            w2: u64::MAX,
            w3: u64::MAX,
        },
    }
}

// The set of which each word is w.
fn repeated(w: u64) -> States
    ensures { result ≡ record { w0 = w; w1 = w; w2 = w; w3 = w } }
{
    States {
        w0: w,
        w1: w,
        w2: w,
        w3: w,
    }
}

// The states of a view in which fact i is true, as a fact or, where `fresh`, as a new fact.
fn seen(i: usize, fresh: bool, view: View) -> States
    requires { i < most_facts }
    ensures { result ≡ states_in view (fact_of fresh i) }
{
    match view {
        View::States => holding_fact(i),
        View::Next(state) => {
            if fresh {
                return holding_fact(i);
            }
            States::uniform((state as usize >> i) % 2 == 1)
        }
    }
}

// A fact number below n, and the states of a view in which the fact is true.
fn evaluate_fact(packed: &Packed, at: usize, n: usize, fresh: bool, view: View) -> Parsed<States>
    ensures { found result ≡ mapped (λ i. states_in view (fact_of fresh i)) (fact_number n packed.now at) }
{
    let (i, next) = attempt!(packed.field(at, 3));
    if n <= i {
        return Err(Refusal::FactNumber);
    }
    Ok((seen(i, fresh, view), next))
}

// Whether a view is one of a theory, in which new facts may stand.
fn is_theory(view: View) -> bool
    ensures { result ≡ in_theory view }
{
    match view {
        View::States => false,
        View::Next(state) => true,
    }
}

// The states in which a formula of two parts holds, by those of its parts.
#[inline(always)]
fn joined(connective: Connective, a: States, b: States) -> States
    ensures { result ≡ set_of (λ s. joins connective (member a s) (member b s)) }
{
    match connective {
        Connective::And => a.intersect(b),
        Connective::Or => a.union(b),
        Connective::Same => a.agreement(b),
    }
}

// An objective formula over n facts with `left` levels of depth left, evaluated in all states of a view at once.
pub(crate) fn evaluate(
    packed: &Packed,
    at: usize,
    left: usize,
    n: usize,
    view: View,
) -> Parsed<States>
    ensures { found result ≡ mapped (states_in view) (objective n (in_theory view) left packed.now at) }
{
    if left == 0 {
        return Err(Refusal::Depth);
    }
    let (node, next) = attempt!(packed.objective_node(at));
    let joins = match node {
        ObjectiveNode::Constant(value) => {
            return Ok((States::uniform(value), next));
        }
        ObjectiveNode::Fact => {
            return evaluate_fact(packed, next, n, false, view);
        }
        ObjectiveNode::NewFact => {
            if is_theory(view) {
                return evaluate_fact(packed, next, n, true, view);
            }
            return Err(Refusal::NewFact);
        }
        ObjectiveNode::Not => None,
        ObjectiveNode::Two(connective) => Some(connective),
    };
    let (a, second) = attempt!(evaluate(packed, next, left - 1, n, view));
    let Some(connective) = joins else {
        return Ok((a.complement(), second));
    };
    let (b, end) = attempt!(evaluate(packed, second, left - 1, n, view));
    Ok((joined(connective, a, b), end))
}

// An epistemic formula over n facts with `left` levels of depth left: where it ends.
pub(crate) fn read_epistemic(
    packed: &Packed,
    at: usize,
    left: usize,
    n: usize,
) -> Result<usize, Refusal>
    ensures { end_read result ≡ mapped ending (epistemic n left packed.now at) }
{
    if left == 0 {
        return Err(Refusal::Depth);
    }
    let (node, next) = attempt!(packed.epistemic_node(at));
    match node {
        EpistemicNode::Known | EpistemicNode::NotKnown => {
            read_objective(packed, next, left - 1, n, View::States)
        }
        EpistemicNode::AllOf | EpistemicNode::AnyOf => {
            let second = attempt!(read_epistemic(packed, next, left - 1, n));
            read_epistemic(packed, second, left - 1, n)
        }
    }
}

// An objective formula in a view, only where it ends.
pub(crate) fn read_objective(
    packed: &Packed,
    at: usize,
    left: usize,
    n: usize,
    view: View,
) -> Result<usize, Refusal>
    ensures { end_read result ≡ mapped ending (objective n (in_theory view) left packed.now at) }
{
    let (set, end) = attempt!(evaluate(packed, at, left, n, view));
    Ok(end)
}

// The objective formula over n facts at a position: its set in a view, and the position after it.
pub fn objective_states(bytes: &[u8], at: usize, n: usize, view: View) -> Parsed<States>
    ensures { found result ≡ mapped (states_in view) (of_sheet (objective n (in_theory view) deepest) bytes.now at) }
{
    let packed = attempt!(Packed::new(bytes));
    evaluate(&packed, at, DEPTH, n, view)
}

// The same of packed bytes, by a call, so that what is linked goes through both.
impl<'a> Packed<'a> {
    pub fn objective(&self, at: usize, n: usize, view: View) -> Parsed<States>
        ensures { found result ≡ mapped (states_in view) (objective n (in_theory view) deepest self.now at) }
    {
        objective_states(self.bytes(), at, n, view)
    }
}
