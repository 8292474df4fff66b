// The packed sheet: reading it, and walking through an accepted one.
#![tactic(auto)]

// What is in an `Ok`; an `Err` is handed on. (`?` does the same by functions of std, whose code the closed theorem of the
// demands can't have: claims/specs/Theorem.)
macro_rules! attempt {
    ($answer:expr) => {
        match $answer {
            Ok(value) => value,
            Err(refusal) => {
                return Err(refusal);
            }
        }
    };
}

mod actions;
mod bits;
mod formula;
mod headers;
mod layout;
mod limits;
mod nodes;
mod program;
mod refusal;
mod sheet;

pub use bits::Packed;
pub use formula::{View, objective_states};
pub use headers::header;
pub use layout::{Edition, Header};
pub use limits::{ACTION_NODES, BRANCH_NODES, BYTES, DEPTH, FACTS, REPLIES};
pub use nodes::{
    ActionKind, EpistemicNode, ProgramNode, action_kind, epistemic_node, program_node, reply_total,
};
pub use refusal::{Parsed, Refusal};
pub use sheet::read;
