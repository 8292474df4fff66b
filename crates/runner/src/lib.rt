// The runner: it steps a routine by the replies that are reported to it, and keeps nothing but a record.
#![tactic(auto)]

mod answer;
mod calls;
mod walk;

pub use answer::{Rejection, Told};
pub use calls::{After, Record};
