//! The records of a network: the rack, and the table in the memory that the caller lends, with what each call does to them.
#![tactic(auto)]

mod lent;
mod lines;
mod records;

pub use admission::{LAST_LINE, MOST_PLACES};
pub use lines::LineFigures;
pub use records::Records;
