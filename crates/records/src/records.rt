//! The records of a network: the rack, and the table in the memory that the caller lends.
use crate::lent::LentTable;
use figures::Rack;

mod operations;

/// `new` takes any rack, so its calls ask for what a sound state keeps, and keep it. A network is made of a kept rack
/// only, and has it in its type.
#[derive(Drop)]
pub struct Records<'a, K> {
    rack: Rack,
    table: LentTable<'a, K>,
}
