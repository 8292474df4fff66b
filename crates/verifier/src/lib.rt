// The verifier: the verdict on a sheet, and the least failing trace.
#![tactic(auto)]

mod least;
mod limits;
mod memo;
mod search;
mod verdict;

pub use limits::MEMO_WORDS;
pub use verdict::{Verdict, VerifyError, number, verify, verify_in};
