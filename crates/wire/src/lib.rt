//! The records of a plan file: from bytes to values.
#![tactic(auto)]

mod bytes;
mod faults;
mod filed;
mod opening;
mod records;
mod streams;
mod walkers;

pub use bytes::{BigEndian, number_at};
pub use faults::{FileFault, placed};
pub use filed::Filed;
pub use opening::open;
pub use records::{Kind, Record, Shape, UnknownCode};
pub use streams::read_stream;
pub use walkers::{Placed, Walker, walks_join};
