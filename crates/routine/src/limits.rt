// The sizes of the memory that a routine's tables take.

// The most actions of a sheet, and the numbers of their heads.
pub(crate) const ACTIONS: usize = 31;

pub const HEAD_CELLS: usize = 3 * ACTIONS;

// The nodes of a program and of its formulas, and their numbers.
pub const NODES: usize = 4096;

pub const NODE_CELLS: usize = 3 * NODES;

// The node from which on the goal stands, behind a jump over it.
pub const GOAL: usize = 1;

// The sets of states, and their words.
pub(crate) const SETS: usize = 10240;

pub const SET_WORDS: usize = states::States::WORDS * SETS;

// The bytes of the longest trace: a start state, and two bytes for each action.
pub const TRACE: usize = 1 + 2 * reader::ACTION_NODES;
