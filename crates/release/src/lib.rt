// The release figures of a stream of sheets, which is fed in pieces.
#![tactic(auto)]

mod feeding;
mod figures;
mod framing;

pub use feeding::Release;
pub use figures::Figures;
pub use framing::Begun;
