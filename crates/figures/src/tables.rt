//! A table of streams in a rack, and its figures.
ghost use Rattle.std.specs.Prelude.{◌≡◌, ℕ, ◌+◌, ◌<◌, ◌≤◌, true, false, length, replicate, Some, None, MatchOption, slice_index, slice_index_or};
ghost use Rattle.ports.specs.Limits.{horizon};
ghost use Rattle.figures.specs.Limits.{most_streams};
ghost use Rattle.figures.specs.Racks.{line_at, spread};
ghost use Rattle.figures.specs.Tables.{falls_under, placed, all_placed, table_kept, ProbeNeed};
ghost use Rattle.figures.specs.Told.{DelaysTold, StreamTold, HubNeedFor, NeedToldFor, NeedsToldFor, FiguresTold};

use crate::delays::{Delays, Figures, StreamFigures};
use crate::faults::FigureFault;
use crate::groups::Group;
use crate::hops::Hop;
use crate::loads::{GroupLoad, HubLoad};
use crate::racks::{Line, Rack, Side};
use crate::streams::Stream;
use crate::traffic::{MOST_STREAMS, Traffic};
use arrivals::Arrival;

/// At most 64 streams in falling order of priority, on lines that are there, each on its side.
#[derive(Drop)]
pub struct Table<'a, K> {
    rack: &'a Rack,
    streams: &'a [Stream<K>],
    ghost kept: { table_kept rack.now streams.now ≡ true },
}

/// Whether the priorities fall from one stream to the next.
fn priorities_fall<K>(streams: &[Stream<K>]) -> bool
    ensures { result ≡ falls_under 256 streams.now }
{
    streams
        .iter()
        .try_fold(256, |high, stream| {
            let priority = u16::from(stream.priority);
            (priority < high).then_some(priority)
        })
        .is_some()
}

/// Whether the stream's lines are there, each on its side.
fn is_placed<K>(rack: &Rack, stream: &Stream<K>) -> bool
    ensures { result ≡ placed rack.now stream.now }
{
    rack.is_on(stream.inbound, Side::Inbound) && rack.is_on(stream.outbound, Side::Outbound)
}

fn are_placed<K>(rack: &Rack, streams: &[Stream<K>]) -> bool
    ensures { result ≡ all_placed rack.now streams.now }
{
    streams.iter().all(|stream| is_placed(rack, stream))
}

impl<'a, K> Table<'a, K> {
    /// The streams, in falling order of priority.
    pub fn streams(&self) -> &'a [Stream<K>]
        ensures { result.now ≡ self.now.streams.now }
    {
        self.streams
    }

    /// The record of the line `number`, if there is one.
    pub fn line(&self, number: u8) -> Option<Line>
        ensures { result ≡ line_at self.now.rack.now number }
    {
        self.rack.line(number)
    }
}

impl<'a, K: Arrival> Table<'a, K> {
    /// The table of these streams, where they make one.
    pub fn new(rack: &'a Rack, streams: &'a [Stream<K>]) -> Option<Table<'a, K>>
        ensures { MatchOption result (table_kept rack.now streams.now ≡ false) (λ t. (t.rack.now ≡ rack.now) × (t.streams.now ≡ streams.now) × (table_kept rack.now streams.now ≡ true)) }
    {
        if rack.is_kept()
            && streams.len() <= MOST_STREAMS
            && priorities_fall(streams)
            && are_placed(rack, streams)
        {
            Some(Table { rack, streams })
        } else {
            None
        }
    }

    /// The streams as they come to the probe ports.
    fn punctual(&self) -> Traffic<'a, K>
        ensures ours { (result.rack.now ≡ self.now.rack.now) × (result.streams.now ≡ self.now.streams.now) }
        ensures punctual { result.late ≡ replicate 64 None }
    {
        Traffic {
            rack: self.rack,
            streams: self.streams,
            late: [None; MOST_STREAMS],
        }
    }

    /// The streams as they come to the hub ports, where they had these delays at the probe ports. A loop: an array's `map` proved
    /// too, and with it a figure call on a network of two streams took up to half as long again.
    fn late(&self, q1: &[u32; MOST_STREAMS]) -> Traffic<'a, K>
        requires { (i : ℕ) → slice_index q1.now i ≤ horizon }
        ensures ours { (result.rack.now ≡ self.now.rack.now) × (result.streams.now ≡ self.now.streams.now) }
        ensures late { (i : ℕ) → i < 64 → slice_index_or result.late i None ≡ Some (slice_index q1.now i + spread self.now.rack.now) }
    {
        let spread = self.rack.hub.most - self.rack.hub.least;
        let mut late = [None; MOST_STREAMS];
        for (place, delay) in q1.iter().enumerate() {
            late[place] = Some(*delay + spread);
        }
        Traffic {
            rack: self.rack,
            streams: self.streams,
            late,
        }
    }

    /// q1 and q2 of all streams: all q1 in table order, then all q2.
    pub fn delays(&self) -> Result<Delays, FigureFault>
        ensures { DelaysTold K.Arrival.alpha self.now.rack.now self.now.streams.now result }
    {
        let punctual = self.punctual();
        let q1 = punctual.delays(Hop::Probe)?;
        let late = self.late(&q1);
        let q2 = late.delays(Hop::Hub)?;
        Ok(Delays { q1, q2 })
    }

    /// The figures of the stream at `place`, by the delays of all streams; None beyond the table's end.
    pub fn of_stream(&self, delays: &Delays, place: usize) -> Option<StreamFigures>
        ensures { MatchOption result (length self.now.streams.now ≤ place) (λ f. StreamTold self.now.rack.now self.now.streams.now delays.now place f) }
    {
        if place >= self.streams.len() {
            return None;
        }
        let stream = &self.streams[place];
        let q1 = delays.q1[place];
        let q2 = delays.q2[place];
        let first = q1 + self.rack.sending(stream.inbound);
        let second = q2 + self.rack.sending(stream.outbound);
        Some(StreamFigures {
            q1,
            q2,
            total: first + self.rack.hub.most + second,
        })
    }

    fn probe_need(&self, number: u8) -> Option<u32>
        ensures { ProbeNeed K.Arrival.alpha self.now.rack.now self.now.streams.now number result }
    {
        let traffic = self.punctual();
        let load = GroupLoad {
            traffic: &traffic,
            group: Group::From(number),
        };
        traffic.port(number, load).need()
    }

    fn hub_need(&self, delays: &Delays, number: u8) -> Option<u32>
        ensures { HubNeedFor K.Arrival.alpha self.now.rack.now self.now.streams.now delays.now.q1 number result }
    {
        let traffic = self.late(&delays.q1);
        let load = HubLoad {
            traffic: &traffic,
            outbound: number,
        };
        traffic.port(number, load).need()
    }

    /// The need of the line `number`, by the delays of all streams; None where there is no such line.
    pub fn need(&self, delays: &Delays, number: u8) -> Result<Option<u32>, FigureFault>
        ensures { NeedToldFor K.Arrival.alpha self.now.rack.now self.now.streams.now delays.now.q1 number result }
    {
        let Some(line) = self.line(number) else {
            return Ok(None);
        };
        let need = match line.side {
            Side::Inbound => self.probe_need(number),
            Side::Outbound => self.hub_need(delays, number),
        };
        need.map(Some).ok_or(FigureFault::NoNeed(number))
    }

    /// The needs of all lines, by rising number. The array is filled place by place: of `try_map` and `try_from_fn` the library
    /// doesn't say that the fault is that of the first line that has one, which the definitions ask for.
    pub fn needs(&self, delays: &Delays) -> Result<[Option<u32>; 16], FigureFault>
        ensures { NeedsToldFor K.Arrival.alpha self.now.rack.now self.now.streams.now delays.now.q1 result }
    {
        let mut needs: [Option<u32>; 16] = [None; 16];
        for number in 1..=16u8 {
            needs[usize::from(number) - 1] = self.need(delays, number)?;
        }
        Ok(needs)
    }

    /// All figures of the table, in one pass.
    pub fn figures(&self) -> Result<Figures, FigureFault>
        ensures { FiguresTold K.Arrival.alpha self.now.rack.now self.now.streams.now result }
    {
        let delays = self.delays()?;
        let needs = self.needs(&delays)?;
        Ok(Figures { delays, needs })
    }
}
