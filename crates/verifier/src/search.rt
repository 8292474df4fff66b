// The search through the histories of runs that follow the routine, over its tables.
ghost use Rattle.std.specs.Prelude.{◌≡◌, ◌+◌, ◌-◌, ◌≤◌, length};
ghost use Rattle.format.specs.Format.{most_acts};
ghost use Rattle.verifier.specs.Search.{path_byte, searched, searched_of, SearchedBy};
ghost use Rattle.verifier.specs.Memo.{reaching, Sound};

use crate::limits::MEMO_WORDS;
use crate::memo::{Slot, recall, remember, slot_number};
use progression::{Place, settle, step};
use reader::ACTION_NODES;
use routine::{HEAD_CELLS, NODE_CELLS, SET_WORDS, head_at};
use states::States;

// All histories passed, with the count of those searched so far; one failed, with the count up to it and its length; or
// the count exceeds the budget. (Three outcomes, each told apart by who asks, so
// neither an Option nor a Result.)
#[derive(Clone, Copy)]
pub(crate) enum Searched {
    Passed(u32),
    Failed(u32, usize),
    Over,
}

// The byte of an action and its reply, as a trace shows it.
fn path_byte(action: usize, reply: usize) -> u8
    ensures { result ≡ path_byte action reply }
{
    (action % 32 * 8 + reply % 8) as u8
}

// So many histories more, all of which pass: the count with them, or it exceeds the budget.
fn count_passed(count: u32, more: u64, budget: u32) -> Searched
    requires { count ≤ budget }
    ensures { result ≡ searched_of 0 (reaching budget (count + more)) }
{
    let left = budget - count;
    if (left as u64) < more {
        return Searched::Over;
    }
    Searched::Passed(count + more as u32)
}

// Searches the histories that go on from node `at`, after one of `depth` actions whose bytes the path holds and after
// which the states of a set are possible; `count` have been counted so far, that one among them. Where what follows was
// searched before, with the same states possible, and passed, its number is recalled and counted. From the start of an
// accepted sheet the count is the definition's, `history_count` (`search_found` of proofs/SearchLaws.antt): a history is
// counted where a reply is possible, `counted + 1` below, and many at once where they are recalled.
pub(crate) fn search(
    heads: &[u16; HEAD_CELLS],
    nodes: &[u16; NODE_CELLS],
    sets: &[u64; SET_WORDS],
    path: &mut [u8; ACTION_NODES],
    memo: &mut [u64; MEMO_WORDS],
    set: States,
    at: usize,
    depth: usize,
    count: u32,
    budget: u32,
) -> Searched
    requires { (depth ≤ most_acts) × (count ≤ budget) × Sound heads.now nodes.now sets.now budget memo.old }
    ensures { SearchedBy depth path.old path.new result (searched heads.now nodes.now sets.now budget (most_acts - depth) at set count) × Sound heads.now nodes.now sets.now budget memo.new }
{
    match settle(nodes, sets, set, at) {
        Place::End(holds) => {
            if holds {
                return Searched::Passed(count);
            }
            Searched::Failed(count, depth)
        }
        Place::Act(node, action) => {
            if ACTION_NODES <= depth {
                return Searched::Over;
            }
            let onward = node + 1;
            let j = slot_number(set, onward);
            if let Some(behind) = recall(memo, j, set, onward, action, depth) {
                return count_passed(count, behind, budget);
            }
            let head = head_at(heads, action);
            let replies = head.count;
            let mut counted = count;
            for reply in 0..replies {
                let next = step(heads, sets, set, action, reply);
                if !next.is_empty() {
                    if counted == budget {
                        return Searched::Over;
                    }
                    path[depth] = path_byte(action, reply);
                    match search(
                        heads,
                        nodes,
                        sets,
                        path,
                        memo,
                        next,
                        onward,
                        depth + 1,
                        counted + 1,
                        budget,
                    ) {
                        Searched::Passed(c) => {
                            counted = c;
                        }
                        Searched::Failed(c, length) => {
                            return Searched::Failed(c, length);
                        }
                        Searched::Over => {
                            return Searched::Over;
                        }
                    }
                }
            }
            let slot = Slot {
                onward: onward as u64,
                action: action as u64,
                depth: depth as u64,
                behind: (counted - count) as u64,
                set,
            };
            remember(memo, j, slot);
            Searched::Passed(counted)
        }
    }
}
