// One step of a routine on the set of possible states, over its tables, and one pass over it when a reply comes in.
#![tactic(auto)]

mod place;
mod reply;
mod steps;

pub use place::{Place, known, lesser, position, settle};
pub use reply::{Passed, pass};
pub use steps::{effect, step};
