//! The delays of a table's streams at their ports of one hop.
ghost use Rattle.std.specs.Prelude.{◌≡◌, ℕ, ◌<◌, ◌≤◌, length};
ghost use Rattle.figures.specs.Told.{StreamToldFor, HopToldFor, Near, AllNear};

use crate::faults::FigureFault;
use crate::hops::Hop;
use crate::loads::{GroupLoad, Source};
use crate::traffic::{MOST_STREAMS, Traffic};
use arrivals::Arrival;

impl<'a, K: Arrival> Traffic<'a, K> {
    /// The delay of the stream at `place` of the table, at its port of this hop.
    fn delay(&self, hop: Hop, place: usize) -> Option<u32>
        requires { place < length self.now.streams.now }
        ensures told { StreamToldFor K.Arrival.alpha self.now.rack.now self.now.streams.now hop self.now.late place result }
        ensures near { Near result }
    {
        let stream = &self.streams[place];
        let own = Source {
            kind: &stream.kind,
            late: self.late[place],
        };
        let higher = GroupLoad {
            traffic: self,
            group: hop.above(stream),
        };
        self.port(hop.line(stream), higher).delay(&own)
    }

    /// The delays of all streams at their ports of this hop, in table order. The array is filled place by place: of `try_map`
    /// and `try_from_fn` the library doesn't say that the fault is that of the first stream that has one, which the
    /// definitions ask for.
    pub fn delays(&self, hop: Hop) -> Result<[u32; MOST_STREAMS], FigureFault>
        ensures told { HopToldFor K.Arrival.alpha self.now.rack.now self.now.streams.now hop self.now.late result }
        ensures near { AllNear result }
    {
        let mut delays: [u32; MOST_STREAMS] = [0; MOST_STREAMS];
        for (place, stream) in self.streams.iter().enumerate() {
            let delay = self.delay(hop, place);
            delays[place] = delay.ok_or(FigureFault::NoDelay(stream.number))?;
        }
        Ok(delays)
    }
}
