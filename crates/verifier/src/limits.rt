// The sizes of the verifier's memory.

// The words of the feasible sets: one set before the first action and one after each.
pub(crate) const FEASIBLE_WORDS: usize = states::States::WORDS * (reader::ACTION_NODES + 1);

// What the search remembers: its slots, the words of each, and all of them.
pub(crate) const SLOTS: usize = 256;

pub(crate) const SLOT_WORDS: usize = 8;

pub const MEMO_WORDS: usize = SLOT_WORDS * SLOTS;
