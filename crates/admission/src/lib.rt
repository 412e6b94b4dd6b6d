//! The checks that a table of streams has to pass, and the faults of the table's layer.
#![tactic(auto)]

mod checks;
mod faults;
mod limits;
mod unique;

pub use checks::check;
pub use faults::{Layer, TableFault};
pub use limits::{LAST_LINE, LAST_STREAM, LATEST_DEADLINE, MOST_PLACES, has_fields_within};
pub use unique::verdict_is_unique;
