//! The figures of one port, for any load: the longest wait there, and the places that it needs.
#![tactic(auto)]

mod loads;
mod needs;
mod ports;
mod waits;

pub use loads::{Load, RisingLoad};
pub use ports::Port;
pub use waits::HORIZON;
