// Where the replies of a record lead, by the tables of its sheet, which are written into lent memory.
ghost use Rattle.std.specs.Prelude.{◌≡◌, length};
ghost use Rattle.format.specs.Format.{most_acts, reading};
ghost use Rattle.routine.specs.Tables.{TablesAfter};
ghost use Rattle.runner.specs.Records.{are_zero, is_padded};
ghost use Rattle.runner.specs.Walks.{walked_of, stands_from, walked as walked_by, judged, judged_at, told_at, accepted_at};

use crate::answer::{Rejection, Told};
use progression::{Place, effect, pass, settle, step};
use reader::{ACTION_NODES, Refusal};
use routine::{HEAD_CELLS, NODE_CELLS, SET_WORDS, head_at, prepare};
use states::States;

// Where replies lead by a sheet, with the states possible there; nowhere, if they are not those of a run; or the sheet is refused.
pub(crate) type Walked = Result<Option<(Place, States)>, Refusal>;

// Whether every byte is 0. (`all` of an iterator is a function of std, whose code is shut.)
fn all_zero(bytes: &[u8]) -> bool
    ensures { result ≡ are_zero bytes.now }
{
    for byte in bytes {
        if *byte != 0 {
            return false;
        }
    }
    true
}

// Whether n bytes are within an array and only zeros stand past them.
pub(crate) fn is_padded(bytes: &[u8], n: usize) -> bool
    ensures { result ≡ is_padded (length bytes.now) bytes.now n }
{
    if bytes.len() < n {
        return false;
    }
    all_zero(&bytes[n..])
}

// Where replies lead from the first node, the states of a set being possible at the start, and the states possible there;
// nowhere, if they are not those of a run.
fn follow(
    heads: &[u16; HEAD_CELLS],
    nodes: &[u16; NODE_CELLS],
    sets: &[u64; SET_WORDS],
    start: States,
    replies: &[u8],
) -> Option<(Place, States)>
    ensures { result ≡ stands_from heads.now nodes.now sets.now start 0 replies.now }
{
    let mut set = start;
    let mut at = 0;
    for reply in replies {
        let Place::Act(node, action) = settle(nodes, sets, set, at) else {
            return None;
        };
        set = step(heads, sets, set, action, *reply as usize);
        if set.is_empty() {
            return None;
        }
        at = node + 1;
    }
    let place = settle(nodes, sets, set, at);
    Some((place, set))
}

// Where the first replies of a memory lead by a sheet, or the sheet's refusal; and the tables of the sheet.
pub(crate) fn walk(
    bytes: &[u8],
    replies: &[u8; ACTION_NODES],
    count: usize,
    heads: &mut [u16; HEAD_CELLS],
    nodes: &mut [u16; NODE_CELLS],
    sets: &mut [u64; SET_WORDS],
) -> Walked
    ensures { (walked_of result ≡ walked_by heads.new nodes.new sets.new bytes.now replies.now count) × TablesAfter (reading bytes.now) heads.old nodes.old sets.old heads.new nodes.new sets.new }
{
    match prepare(bytes, heads, nodes, sets) {
        Err(refusal) => Err(refusal),
        Ok(start) => {
            if !is_padded(replies, count) {
                return Ok(None);
            }
            Ok(follow(heads, nodes, sets, start, &replies[..count]))
        }
    }
}

// What loading answers.
pub(crate) fn acceptance(walked: Walked) -> Result<(), Refusal>
    ensures { result ≡ accepted_at walked }
{
    match walked {
        Ok(_) => Ok(()),
        Err(refusal) => Err(refusal),
    }
}

// What "Next" tells.
pub(crate) fn tell(walked: Walked) -> Result<Told, Rejection>
    ensures { result ≡ told_at walked }
{
    match walked {
        Ok(Some((Place::Act(_, action), _))) => Ok(Told::Act(action)),
        Ok(Some((Place::End(holds), _))) => Ok(Told::End(holds)),
        Ok(None) => Err(Rejection::BadRecord),
        Err(_) => Err(Rejection::BadRecord),
    }
}

// Whether an action has a reply, and the states that it keeps of those possible after the effect.
fn judge(
    heads: &[u16; HEAD_CELLS],
    sets: &[u64; SET_WORDS],
    set: States,
    action: usize,
    reply: usize,
) -> Result<States, Rejection>
    ensures { result ≡ judged heads.now sets.now set action reply }
{
    let head = head_at(heads, action);
    if head.count <= reply {
        return Err(Rejection::NoSuchReply);
    }
    let passed = pass(heads, sets, set, action, reply);
    if passed.possible {
        return Ok(passed.kept);
    }
    Err(Rejection::NotPossible)
}

// The states that one reply more keeps.
pub(crate) fn add(
    heads: &[u16; HEAD_CELLS],
    sets: &[u64; SET_WORDS],
    walked: Walked,
    reply: usize,
) -> Result<States, Rejection>
    ensures { result ≡ judged_at heads.now sets.now walked reply }
{
    match walked {
        Ok(Some((Place::Act(_, action), set))) => {
            let after = effect(heads, sets, set, action);
            judge(heads, sets, after, action, reply)
        }
        Ok(Some((Place::End(_), _))) => Err(Rejection::AtEnd),
        Ok(None) => Err(Rejection::BadRecord),
        Err(_) => Err(Rejection::BadRecord),
    }
}
