//! Drafts and networks: lines, then streams in memory that the caller lends, admitted only where every check passes.
#![tactic(auto)]

mod calls;
mod drafts;
mod networks;

pub use calls::{Answer, Call, Told};
pub use drafts::Draft;
pub use networks::{Network, carry_all, carry_out};
pub use records::LineFigures;
