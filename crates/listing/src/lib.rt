//! The lines of a plan's listing, written as text into a buffer of the caller's.
#![tactic(auto)]

mod entries;
mod lines;
mod listings;

pub use entries::Entry;
pub use listings::{NoRoom, room, write_listing};
