//! Delays over two hops, and the places that each port needs, for any arrival kind.
#![tactic(auto)]

mod delays;
mod display;
mod faults;
mod groups;
mod hop_delays;
mod hops;
mod loads;
mod racks;
mod streams;
mod tables;
mod traffic;
mod unique;
mod worked;

pub use delays::{Delays, Figures, StreamFigures};
pub use faults::FigureFault;
pub use ports::HORIZON;
pub use racks::{Hub, Line, Rack, Side};
pub use streams::Stream;
pub use tables::Table;
pub use traffic::MOST_STREAMS;
pub use unique::{port_figures_are_unique, table_figures_are_unique};
pub use worked::worked_plan_stands;
