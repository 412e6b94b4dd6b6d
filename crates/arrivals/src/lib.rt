//! Arrival kinds: how many cells of a stream may be queued at its probe port in any window of ticks.
#![tactic(auto)]

mod arrivals;
mod buckets;
mod choices;
mod delays;
mod faults;
mod messages;
mod worked;

pub use arrivals::{Arrival, LONGEST_WINDOW};
pub use buckets::Bucket;
pub use choices::Choice;
pub use delays::{Delayed, delayed_count};
pub use faults::KindFault;
pub use messages::Message;
pub use worked::worked_message;
