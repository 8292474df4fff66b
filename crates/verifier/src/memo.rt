// What the search remembers of places from which everything passed, in a memory that is lent to it. It makes the search
// quicker and changes nothing that it finds.
ghost use Rattle.std.specs.Prelude.{◌≡◌, ◌*◌, ◌<◌};
ghost use Rattle.lists.specs.Lists.{write};
ghost use Rattle.verifier.specs.Answers.{slot_most, slot_size};
ghost use Rattle.verifier.specs.Memo.{slot_at, slot_words, recalled};

use crate::limits::{MEMO_WORDS, SLOT_WORDS, SLOTS};
use states::States;

// After `depth` actions, the states of a set being possible, an action comes whose replies lead on to node `onward`:
// `behind` histories follow, and none of them fails. (`onward` is 0 in an empty slot alone.)
#[derive(Clone, Copy)]
pub(crate) struct Slot {
    pub(crate) onward: u64,
    pub(crate) action: u64,
    pub(crate) depth: u64,
    pub(crate) behind: u64,
    pub(crate) set: States,
}

// Numbers below this are half as long as a word: the product of two of them fits one.
const HALF: u64 = 0x1_0000_0000;

// Two words in one. The second counts twice, so that two words exchanged, or both the same, make another.
fn joined(a: u64, b: u64) -> u64 {
    a.wrapping_add(b.wrapping_add(b))
}

// The slot for a set and a node. Any number would do; this one spreads places over the slots: of each half's product it
// takes the bits on which most bits of the half bear, also where the half is a small number. (`slot_number` of
// rust/linked/src/plain.rs is the same; they change together.)
pub(crate) fn slot_number(set: States, onward: usize) -> usize
    ensures { result < slot_most }
{
    let x = joined(set.w0, set.w1);
    let y = joined(set.w2, set.w3).wrapping_add(onward as u64);
    let a = (x % HALF * 0x9e37_79b1) ^ (x / HALF * 0x85eb_ca6b);
    let b = (y % HALF * 0xc2b2_ae35) ^ (y / HALF * 0x27d4_eb2f);
    (a ^ b) as usize / 0x100_0000 % SLOTS
}

// Slot j.
fn slot_at(memo: &[u64; MEMO_WORDS], j: usize) -> Slot
    requires { j < slot_most }
    ensures { result ≡ slot_at memo.now j }
{
    let i = SLOT_WORDS * j;
    Slot {
        onward: memo[i],
        action: memo[i + 1],
        depth: memo[i + 2],
        behind: memo[i + 3],
        set: States::at(memo, i + 4),
    }
}

// What slot j tells of a place: after `depth` actions, the states of a set being possible, an action comes whose
// replies lead on to node `onward`. It is the number of histories, all of which passed, or nothing. What was found with
// less room for actions holds with more.
pub(crate) fn recall(
    memo: &[u64; MEMO_WORDS],
    j: usize,
    set: States,
    onward: usize,
    action: usize,
    depth: usize,
) -> Option<u64>
    requires { j < slot_most }
    ensures { result ≡ recalled (slot_at memo.now j) set onward action depth }
{
    let slot = slot_at(memo, j);
    let kept = slot.set;
    let same_node = (slot.onward == onward as u64) & (slot.action == action as u64);
    if same_node & kept.equals(set) & (depth as u64 <= slot.depth) {
        return Some(slot.behind);
    }
    None
}

// Writes slot j.
pub(crate) fn remember(memo: &mut [u64; MEMO_WORDS], j: usize, slot: Slot)
    requires { j < slot_most }
    ensures { memo.new ≡ write memo.old (slot_size * j) (slot_words slot) }
{
    let set = slot.set;
    let i = SLOT_WORDS * j;
    memo[i] = slot.onward;
    memo[i + 1] = slot.action;
    memo[i + 2] = slot.depth;
    memo[i + 3] = slot.behind;
    set.put(memo, i + 4);
}
