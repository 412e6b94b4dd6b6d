//! The records of a table.

/// A stream takes the line `inbound` to the hub, and the line `outbound` to its host.
/// The larger priority is the more urgent.
#[derive(Clone, Copy, PartialEq, Eq, Debug)]
pub struct Stream<K> {
    pub number: u16,
    pub priority: u8,
    pub inbound: u8,
    pub outbound: u8,
    pub deadline: u32,
    pub kind: K,
}
