//! What a table's streams queue at the ports of one hop.
ghost use Rattle.std.specs.Prelude.{◌≡◌, ℕ, ◌≤◌, min, true, length};
ghost use Rattle.arrivals.specs.Limits.{longest, most};
ghost use Rattle.figures.specs.Limits.{most_streams};
ghost use Rattle.figures.specs.Racks.{rack_kept, line_at, cell_time};
ghost use Rattle.figures.specs.Sums.{seen, group_load, line_load, lines_load};

use crate::groups::Group;
use crate::racks::Rack;
use crate::streams::Stream;
use arrivals::{Arrival, LONGEST_WINDOW, delayed_count};
use ports::{Port, RisingLoad};

/// The most streams of a table.
pub const MOST_STREAMS: usize = 64;

/// The streams of a table in their rack. The cells of the stream at each place come late by what `late` has there;
/// by None where they come as its kind says. That is a list beside the streams, since their memory is the caller's, and the
/// definitions name the two lists.
#[derive(Drop)]
pub struct Traffic<'a, K> {
    pub rack: &'a Rack,
    pub streams: &'a [Stream<K>],
    pub late: [Option<u32>; MOST_STREAMS],
    ghost kept: { rack_kept rack.now ≡ true },
    ghost few: { length streams.now ≤ most_streams },
}

/// What a kind queues in `window` ticks, where its cells come late.
pub fn seen_count<K: Arrival>(kind: &K, late: Option<u32>, window: u32) -> u32
    ensures value { result ≡ seen K.Arrival.alpha late kind.now (min window longest) }
    ensures small { result ≤ most }
{
    match late {
        Some(by) => delayed_count(kind, by, window),
        None => kind.count(window),
    }
}

impl<'a, K> Traffic<'a, K> {
    /// The port of the line `number`, to which `load` comes.
    pub fn port<L: RisingLoad>(&self, number: u8, load: L) -> Port<L>
        ensures load { result.load ≡ load }
        ensures cell_time { result.cell_time ≡ cell_time self.now.rack.now number }
    {
        Port {
            load,
            cell_time: self.rack.cell_time(number),
        }
    }
}

impl<'a, K: Arrival> Traffic<'a, K> {
    /// What the streams of `group` queue in `window` ticks. A loop: with chains here and in `of_lines`, which proved too,
    /// `full_table` took 54 ms, where docs/COST.md has 38 with this kit; with the loops it takes 29.
    pub fn of_group(&self, group: &Group, window: u32) -> u32
        ensures { result ≡ group_load K.Arrival.alpha self.now.late self.now.streams.now group.now (min window longest) }
    {
        let mut sum: u32 = 0;
        for (place, stream) in self.streams.iter().enumerate() {
            if group.has(stream) {
                sum += seen_count(&stream.kind, self.late[place], window);
            }
        }
        sum
    }

    /// What the in-bound line `inbound` brings to the hub port of `outbound` in `window` ticks: no more than
    /// it can carry, and no more than its streams queue.
    pub fn of_line(&self, inbound: u8, outbound: u8, window: u32) -> u32
        ensures value { result ≡ line_load K.Arrival.alpha self.now.late self.now.rack.now self.now.streams.now outbound (min window longest) (line_at self.now.rack.now inbound) inbound }
        ensures small { result ≤ 2000000 }
    {
        match self.rack.line(inbound) {
            Some(line) => {
                let spread = self.rack.hub.most - self.rack.hub.least;
                let carried = (window.min(LONGEST_WINDOW).saturating_sub(1) + spread)
                    / line.cell_time
                    + 1;
                carried.min(self.of_group(&Group::Between(inbound, outbound), window))
            }
            None => 0,
        }
    }

    /// The same for several in-bound lines. A loop: a chain of map and sum proved too, but with it alone `full_table` took
    /// 41 ms, where docs/COST.md has 38 with this kit; with the loop it takes 29.
    pub fn of_lines(&self, inbound: &[u8], outbound: u8, window: u32) -> u32
        requires { length inbound.now ≤ 16 }
        ensures { result ≡ lines_load K.Arrival.alpha self.now.late self.now.rack.now self.now.streams.now outbound (min window longest) inbound.now }
    {
        let mut sum: u32 = 0;
        for line in inbound {
            sum += self.of_line(*line, outbound, window);
        }
        sum
    }
}
