//! What comes to the ports of a table in a window of ticks.
ghost use Rattle.std.specs.Prelude.{◌≡◌, ◌≤◌};
ghost use Rattle.figures.specs.Sums.{seen, group_load, hub_sum};
ghost use Rattle.figures.specs.GroupSums.{lawful, seen_rises, group_rises};
ghost use Rattle.figures.specs.LineSums.{hub_sum_rises};

use crate::groups::Group;
use crate::racks::LINE_NUMBERS;
use crate::traffic::{Traffic, seen_count};
use arrivals::Arrival;
use ports::{Load, RisingLoad};

/// What one kind brings.
#[derive(Drop)]
pub struct Source<'a, K> {
    pub kind: &'a K,
    pub late: Option<u32>,
}

impl<'a, K: Arrival> Load for Source<'a, K> {
    ghost load = { λ l. seen K.Arrival.alpha l.late l.kind.now };

    fn at(&self, window: u32) -> u32 {
        seen_count(self.kind, self.late, window)
    }
}

impl<'a, K: Arrival> RisingLoad for Source<'a, K> {
    ghost rises = { λ l. seen_rises K.Arrival.alpha (lawful K.Arrival) l.late l.kind.now };
}

/// What a group of streams brings.
#[derive(Drop)]
pub struct GroupLoad<'a, 'b, K> {
    pub traffic: &'a Traffic<'b, K>,
    pub group: Group,
}

impl<'a, 'b, K: Arrival> Load for GroupLoad<'a, 'b, K> {
    ghost load = { λ l. group_load K.Arrival.alpha l.traffic.now.late l.traffic.now.streams.now l.group };

    fn at(&self, window: u32) -> u32 {
        self.traffic.of_group(&self.group, window)
    }
}

impl<'a, 'b, K: Arrival> RisingLoad for GroupLoad<'a, 'b, K> {
    ghost rises = { λ l. group_rises K.Arrival.alpha (lawful K.Arrival) l.traffic.now.late l.traffic.now.streams.now l.group };
}

/// What all in-bound lines bring to the hub port of an out-bound line.
#[derive(Drop)]
pub struct HubLoad<'a, 'b, K> {
    pub traffic: &'a Traffic<'b, K>,
    pub outbound: u8,
}

impl<'a, 'b, K: Arrival> Load for HubLoad<'a, 'b, K> {
    ghost load = { λ l. hub_sum K.Arrival.alpha l.traffic.now.late l.traffic.now.rack.now l.traffic.now.streams.now l.outbound };

    fn at(&self, window: u32) -> u32 {
        self.traffic.of_lines(&LINE_NUMBERS, self.outbound, window)
    }
}

impl<'a, 'b, K: Arrival> RisingLoad for HubLoad<'a, 'b, K> {
    ghost rises = { λ l. hub_sum_rises K.Arrival.alpha (lawful K.Arrival) l.traffic.now.late l.traffic.now.rack.now l.traffic.now.kept l.traffic.now.streams.now l.outbound };
}
