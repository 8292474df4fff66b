// A routine as tables, in memory that the caller lends: what the verifier, the trace checker and the runner work on.
#![tactic(auto)]

mod actions;
mod conditions;
mod limits;
mod memory;
mod program;
mod sheet;

pub use limits::{GOAL, HEAD_CELLS, NODE_CELLS, NODES, SET_WORDS, TRACE};
pub use memory::{Head, Node, head_at, node_at, set_at};
pub use sheet::prepare;
