// A whole sheet: whether it is accepted, or why it is refused.
ghost use Rattle.std.specs.Prelude.{◌≡◌, ◌≤◌};
ghost use Rattle.format.specs.Syntax.{Objective, Sheet};
ghost use Rattle.format.specs.Format.{got, mapped, most_facts, body, is_padding, action_faults, faults, decided, reading};
ghost use Rattle.reader.specs.Answers.{answer_of, without_value, found, space_set};
ghost use Rattle.reader.specs.Method.{header_of, start_states};

use crate::actions::{read_actions, test_actions};
use crate::bits::Packed;
use crate::formula::{View, evaluate, read_epistemic};
use crate::layout::Header;
use crate::limits::{DEPTH, LEVELS};
use crate::program::{Cursor, read_program};
use crate::refusal::{Parsed, Refusal};
use states::States;

// Whether fewer than eight bits are left, all of them 0.
fn is_padding(packed: &Packed, at: usize) -> bool
    ensures { result ≡ is_padding packed.now at }
{
    let end = packed.end();
    if end <= at {
        return true;
    }
    if 8 <= end - at {
        return false;
    }
    packed.bits(at, end - at) == 0
}

// The fields behind the header: the states in which the start formula holds, and where the fields end.
fn read_body(packed: &Packed, h: Header) -> Parsed<States>
    ensures { (constraint : Objective) → found result ≡ mapped start_states (body (header_of h constraint) packed.now h.at) }
{
    let n = h.facts;
    let k = h.actions;
    let start_at = attempt!(read_actions(packed, h.at, n, k));
    let (start, goal_at) = attempt!(evaluate(packed, start_at, DEPTH, n, View::States));
    let program_at = attempt!(read_epistemic(packed, goal_at, DEPTH, n));
    let first = Cursor {
        at: program_at,
        acts: 0,
        branches: 0,
    };
    let behind = attempt!(read_program(packed, first, n, k, LEVELS));
    Ok((start, behind.at))
}

// The tests after the fields: the padding, a state, a start state, and the tests of the actions.
fn test_body(packed: &Packed, h: Header, start: States, end: usize) -> Result<(), Refusal>
    requires { h.facts ≤ most_facts }
    ensures { (constraint : Objective) (sheet : Sheet) → h.space ≡ space_set h.facts constraint → body (header_of h constraint) packed.now h.at ≡ got sheet end → start ≡ start_states sheet → answer_of result ≡ without_value (decided (faults action_faults packed.now end sheet) sheet) }
{
    if !is_padding(packed, end) {
        return Err(Refusal::Padding);
    }
    let space = h.space;
    if space.is_empty() {
        return Err(Refusal::NoState);
    }
    if start.intersect(space).is_empty() {
        return Err(Refusal::NoStart);
    }
    let next = attempt!(test_actions(packed, h.at, h.facts, h.actions, space));
    Ok(())
}

// Whether the bytes are a sheet, or why they are refused.
pub fn read(bytes: &[u8]) -> Result<(), Refusal>
    ensures { answer_of result ≡ without_value (reading bytes.now) }
{
    let packed = attempt!(Packed::new(bytes));
    let h = attempt!(packed.header());
    let (start, end) = attempt!(read_body(&packed, h));
    test_body(&packed, h, start, end)
}
