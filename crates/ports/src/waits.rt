//! How long a cell waits at a port: w_k, e_k and the port delay, for any load.
ghost use Rattle.std.specs.Prelude.{◌≡◌, ℕ, ◌+◌, ◌-◌, ◌*◌, ◌≤◌};
ghost use Rattle.arrivals.specs.Least.{Least};
ghost use Rattle.ports.specs.Limits.{horizon};
ghost use Rattle.ports.specs.Loads.{Rising, Below};
ghost use Rattle.ports.specs.Port.{ahead, Wait, Queued, PortDelay};

use crate::loads::Load;
use crate::ports::Port;

/// No wait and no busy period is looked for beyond it. Four functions ask for a number up to it, a tick, an index or an
/// end: a type for each would be no plainer.
pub const HORIZON: u32 = 200_000;

/// The earliest tick that the cell `index` can be queued at, where it is from `low` to `high`. A loop, since the
/// library's binary searches go over slices and not over ranges of numbers.
fn earliest<L: Load>(own: &L, index: u32, low: u32, high: u32) -> u32
    requires near { high ≤ horizon }
    requires rising { Rising (L.Load.load own.now) }
    requires queued { Queued (L.Load.load own.now) index high }
    requires after { (d : ℕ) → Queued (L.Load.load own.now) index d → low ≤ d }
    ensures { Least (Queued (L.Load.load own.now) index) result }
{
    let mut low = low;
    let mut high = high;
    while low < high {
        let mid = low + (high - low) / 2;
        if own.at(mid + 1) > index {
            high = mid;
        } else {
            low = mid + 1;
        }
    }
    low
}

impl<L: Load> Port<L> {
    /// The wait of the cell `index` of a busy period, from `from` on. A loop, since it leaps and doesn't count.
    fn wait(&self, index: u32, from: u32) -> Option<u32>
        requires near { index ≤ horizon }
        requires below { Below (ahead self.now.cell_time (L.Load.load self.now.load) index) horizon from }
        ensures { Wait self.now.cell_time (L.Load.load self.now.load) index result }
    {
        let own = self.cell_time - 1 + index * self.cell_time;
        let mut w = from;
        while w <= HORIZON {
            // what saturates is beyond the horizon
            let higher = self.load.at(w + 1).saturating_mul(self.cell_time);
            let next = own.saturating_add(higher);
            if next == w {
                return Some(w);
            }
            w = next;
        }
        None
    }

    /// The port delay of a stream that queues `own`, where the load is what goes before it.
    pub fn delay<A: Load>(&self, own: &A) -> Option<u32>
        requires some { 1 ≤ A.Load.load own.now 1 }
        requires rising { Rising (A.Load.load own.now) }
        ensures { PortDelay self.now.cell_time (A.Load.load own.now) (L.Load.load self.now.load) result }
    {
        let mut worst: u32 = 0;
        let mut from = self.cell_time - 1;
        let mut early = 0;
        // the cell k waits for k ticks at least, so that none beyond the horizon has a wait
        for index in 0..=HORIZON {
            let w = self.wait(index, from)?;
            early = earliest(own, index, early, w);
            worst = worst.max(w - early);
            if own.at(w + 1) <= index + 1 {
                return Some(worst);
            }
            from = w + self.cell_time;
        }
        None
    }
}
