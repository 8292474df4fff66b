// The verdict on a sheet.
ghost use Rattle.std.specs.Prelude.{◌≡◌};
ghost use Rattle.format.specs.Format.{most_acts};
ghost use Rattle.reader.specs.Answers.{number_for};
ghost use Rattle.semantics.specs.Verdict.{LongEnough, admitted, verified};
ghost use Rattle.routine.specs.Tables.{TablesAfter};
ghost use Rattle.verifier.specs.Search.{searched};
ghost use Rattle.verifier.specs.Answers.{answer_of, verified_by, empty_memo, cleared};
ghost use Rattle.verifier.specs.Concluding.{verdict_for, memory_for};

use crate::least::show;
use crate::limits::MEMO_WORDS;
use crate::search::{Searched, search};
use reader::{ACTION_NODES, Refusal};
use routine::{HEAD_CELLS, NODE_CELLS, SET_WORDS, TRACE, prepare};
use states::States;

// Valid with the count, invalid with the count and the history's length, or stopped with the budget.
#[derive(Clone, Copy)]
pub enum Verdict {
    Valid(u32),
    Invalid(u32, usize),
    Stopped(u32),
}

// Why there is no verdict: the trace memory is too short, or the sheet is refused.
#[derive(Clone, Copy)]
pub enum VerifyError {
    ShortMemory,
    Refused(Refusal),
}

impl From<Refusal> for VerifyError {
    ghost use Rattle.std.specs.Prelude.{◌≡◌};
    ghost use Rattle.verifier.specs.declared.verdict.VerifyError.TheVariants.{Refused as refused};

    ghost from_gives = { λ refusal error. error ≡ refused refusal };

    fn from(refusal: Refusal) -> VerifyError {
        VerifyError::Refused(refusal)
    }
}

// Document 01's number of a refusal; 0 for a verdict.
pub fn number(answer: Result<Verdict, VerifyError>) -> u8
    ensures { result ≡ number_for (answer_of answer) }
{
    match answer {
        Ok(verdict) => 0,
        Err(VerifyError::ShortMemory) => 30,
        Err(VerifyError::Refused(refusal)) => u8::from(refusal),
    }
}

// The verdict by a routine's tables and its start set, and the least failing trace in the lent memory. What another search
// left in the memo would be wrong here, and what this one remembered is cleared behind it.
fn decide(
    heads: &[u16; HEAD_CELLS],
    nodes: &[u16; NODE_CELLS],
    sets: &[u64; SET_WORDS],
    start: States,
    budget: u32,
    trace: &mut [u8],
    memo: &mut [u64; MEMO_WORDS],
) -> Verdict
    requires { LongEnough trace.old }
    ensures { (result ≡ verdict_for budget (searched heads.now nodes.now sets.now budget most_acts 0 start 0)) × (trace.new ≡ memory_for heads.now sets.now start (searched heads.now nodes.now sets.now budget most_acts 0 start 0) trace.old) × (memo.new ≡ empty_memo) }
{
    let mut path = [0u8; ACTION_NODES];
    *memo = [0u64; MEMO_WORDS];
    let found = search(heads, nodes, sets, &mut path, memo, start, 0, 0, 0, budget);
    *memo = [0u64; MEMO_WORDS];
    match found {
        Searched::Passed(count) => Verdict::Valid(count),
        Searched::Over => Verdict::Stopped(budget),
        Searched::Failed(count, len) => {
            show(heads, sets, &path[..len], start, trace);
            Verdict::Invalid(count, len)
        }
    }
}

// The verdict on a sheet with a budget, in lent tables and a lent memo, whatever they hold. Where it is invalid the trace
// memory begins with the least failing trace; all other bytes of it stay. The tables are then those of the sheet, and the
// memo is cleared; a refusal leaves both as they were.
pub fn verify_in(
    bytes: &[u8],
    budget: u32,
    trace: &mut [u8],
    heads: &mut [u16; HEAD_CELLS],
    nodes: &mut [u16; NODE_CELLS],
    sets: &mut [u64; SET_WORDS],
    memo: &mut [u64; MEMO_WORDS],
) -> Result<Verdict, VerifyError>
    ensures { (verified_by result trace.new ≡ verified bytes.now budget trace.old) × (memo.new ≡ cleared (admitted bytes.now trace.old) memo.old) × TablesAfter (admitted bytes.now trace.old) heads.old nodes.old sets.old heads.new nodes.new sets.new }
{
    if trace.len() < TRACE {
        return Err(VerifyError::ShortMemory);
    }
    match prepare(bytes, heads, nodes, sets) {
        Ok(start) => Ok(decide(heads, nodes, sets, start, budget, trace, memo)),
        Err(refusal) => Err(VerifyError::from(refusal)),
    }
}

// The same in tables of its own.
pub fn verify(bytes: &[u8], budget: u32, trace: &mut [u8]) -> Result<Verdict, VerifyError>
    ensures { verified_by result trace.new ≡ verified bytes.now budget trace.old }
{
    let mut heads = [0u16; HEAD_CELLS];
    let mut nodes = [0u16; NODE_CELLS];
    let mut sets = [0u64; SET_WORDS];
    let mut memo = [0u64; MEMO_WORDS];
    verify_in(
        bytes, budget, trace, &mut heads, &mut nodes, &mut sets, &mut memo,
    )
}
