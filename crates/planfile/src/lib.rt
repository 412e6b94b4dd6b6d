//! Plan files: their records carried out one after the other, and the listing of what came of it.
#![tactic(auto)]

mod admitted;
mod journals;
mod phases;
mod plans;
mod readers;
mod stages;
mod told;
mod unique;

pub use plans::{LONGEST_LISTING, NO_STREAM, list_plan};
pub use unique::listing_is_unique;
