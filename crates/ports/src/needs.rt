//! How many places a port needs: U and the need, for any load.
ghost use Rattle.std.specs.Prelude.{◌≡◌, ℕ, ◌+◌, ◌-◌, ◌≤◌};
ghost use Rattle.arrivals.specs.Least.{Found, Largest};
ghost use Rattle.ports.specs.Limits.{horizon};
ghost use Rattle.ports.specs.Port.{Clears, holding, PortNeed};

use crate::loads::Load;
use crate::ports::Port;
use crate::waits::HORIZON;

impl<L: Load> Port<L> {
    /// The least number of ticks after which the port is clear again. A loop, since it leaps and doesn't count. In u64, since
    /// the sums may be above u32; up to the horizon the casts fit. With u32 and sums that saturate, which proved too,
    /// `full_table` took 38.3 ms, where docs/COST.md has 38 with this kit; so it takes 30.
    fn clears(&self) -> Option<u32>
        ensures { Found (Clears self.now.cell_time (L.Load.load self.now.load)) horizon result }
    {
        let cell = u64::from(self.cell_time);
        let mut u: u64 = 1;
        while u <= u64::from(HORIZON) {
            let cells = u64::from(self.load.at(u as u32));
            if cells <= (u + 1).saturating_sub(cell) / cell {
                return Some(u as u32);
            }
            // no port with so many cells is clear before they and a dump are sent
            u = cells * cell + (cell - 1);
        }
        None
    }

    /// The cells that may hold a place `u` ticks after a busy period begins.
    fn held(&self, u: u32) -> u32
        requires { u ≤ horizon }
        ensures { result ≡ holding self.now.cell_time (L.Load.load self.now.load) u }
    {
        self.load
            .at(u)
            .saturating_sub(u.saturating_sub(self.cell_time) / self.cell_time)
    }

    /// The most cells that hold a place up to `until`. During one sending the load only grows, so that it is
    /// enough to look at the last tick of each. A `while`: with a `for` over a `step_by`, which proved too, `full_table` took
    /// 39.2 ms, where docs/COST.md has 38 with this kit; so it takes 30.
    fn most_held(&self, until: u32) -> u32
        requires { (1 ≤ until) × (until ≤ horizon) }
        ensures { Largest (holding self.now.cell_time (L.Load.load self.now.load)) 1 until result }
    {
        let mut u = until.min(2 * self.cell_time - 1);
        let mut most: u32 = self.held(u);
        while u < until {
            u = until.min(u + self.cell_time);
            most = most.max(self.held(u));
        }
        most
    }

    /// The need of the port, where its load is what all its streams queue.
    pub fn need(&self) -> Option<u32>
        ensures { PortNeed self.now.cell_time (L.Load.load self.now.load) result }
    {
        let until = self.clears()?;
        Some(self.most_held(until))
    }
}
