//! A port and what comes to it.
ghost use Rattle.std.specs.Prelude.{◌≤◌};
ghost use Rattle.ports.specs.Limits.{longest_cell};
ghost use Rattle.ports.specs.Loads.{Rising};

use crate::loads::Load;

/// A port that sends a cell in `cell_time` ticks, and what comes to it.
#[derive(Drop)]
pub struct Port<L: Load> {
    /// For `need` it is what all streams of the port queue there. For `delay` it is what those streams queue that go before
    /// the one in question.
    pub load: L,
    pub cell_time: u32,
    ghost cell: { (1 ≤ cell_time) × (cell_time ≤ longest_cell) },
    ghost rising: { Rising (L.Load.load load) },
}
