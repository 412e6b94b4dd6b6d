//! The rack without its streams: the hub and its lines.
ghost use Rattle.std.specs.Prelude.{◌≡◌, ℕ, ◌+◌, ◌≤◌, true, length, Some};
ghost use Rattle.ports.specs.Limits.{longest_cell};
ghost use Rattle.figures.specs.Limits.{longest_switch, longest_propagation};
ghost use Rattle.figures.specs.Racks.{line_at, is_on, cell_time, sending, spread, hub_kept, line_kept, lines_kept, rack_kept};

/// The hub passes a cell on after `least` to `most` ticks.
#[derive(Clone, Copy, PartialEq, Eq, Debug)]
pub struct Hub {
    pub least: u32,
    pub most: u32,
}

#[derive(Clone, Copy, PartialEq, Eq, Debug)]
pub enum Side {
    /// From a probe to the hub.
    Inbound,
    /// From the hub to a host.
    Outbound,
}

/// A line sends a cell in `cell_time` ticks, and it takes `propagation` ticks more to the line's end.
/// The port that it begins at has `places` for cells of streams.
#[derive(Clone, Copy, PartialEq, Eq, Debug)]
pub struct Line {
    pub side: Side,
    pub cell_time: u32,
    pub propagation: u32,
    pub places: u32,
}

pub const LINE_NUMBERS: [u8; 16] = [1, 2, 3, 4, 5, 6, 7, 8, 9, 10, 11, 12, 13, 14, 15, 16];

/// The line with the number n stands at the place n - 1.
#[derive(Clone, Copy)]
pub struct Rack {
    pub hub: Hub,
    pub lines: [Option<Line>; 16],
}

impl Hub {
    pub const LONGEST_SWITCH: u32 = 1_000;

    /// Whether the switch times keep their limits.
    pub fn is_kept(&self) -> bool
        ensures { result ≡ hub_kept self.now }
    {
        (self.least..=Hub::LONGEST_SWITCH).contains(&self.most)
    }
}

impl Line {
    pub const LONGEST_CELL_TIME: u32 = 1_000;

    pub const LONGEST_PROPAGATION: u32 = 10_000;

    /// Whether the line's times keep their limits.
    pub fn is_kept(&self) -> bool
        ensures { result ≡ line_kept (Some self.now) }
    {
        (1..=Line::LONGEST_CELL_TIME).contains(&self.cell_time)
            && self.propagation <= Line::LONGEST_PROPAGATION
    }
}

/// Whether each line that there is keeps its limits.
fn are_lines_kept(lines: &[Option<Line>]) -> bool
    ensures { result ≡ lines_kept lines.now }
{
    lines
        .iter()
        .all(|line| line.is_none_or(|line| line.is_kept()))
}

impl Rack {
    /// The record of the line `number`, if there is one.
    pub fn line(&self, number: u8) -> Option<Line>
        ensures { result ≡ line_at self.now number }
    {
        let place = usize::from(number).checked_sub(1)?;
        self.lines.get(place).copied().flatten()
    }

    /// Whether there is a line with the number on this side.
    pub fn is_on(&self, number: u8, side: Side) -> bool
        ensures { result ≡ is_on side (line_at self.now number) }
    {
        self.line(number).is_some_and(|line| line.side == side)
    }

    /// The cell time of the line `number`; 1 stands in where there is none.
    pub(crate) fn cell_time(&self, number: u8) -> u32
        requires { rack_kept self.now ≡ true }
        ensures value { result ≡ cell_time self.now number }
        ensures limits { (1 ≤ result) × (result ≤ longest_cell) }
    {
        self.line(number).map_or(1, |line| line.cell_time)
    }

    /// The ticks from the start of a sending on the line `number` to the cell's arrival at its end.
    pub(crate) fn sending(&self, number: u8) -> u32
        requires { rack_kept self.now ≡ true }
        ensures value { result ≡ sending self.now number }
        ensures small { result ≤ longest_cell + longest_propagation }
    {
        let propagation = self.line(number).map_or(0, |line| line.propagation);
        self.cell_time(number) + propagation
    }

    /// Whether the numbers that the figures rest on keep their limits.
    pub(crate) fn is_kept(&self) -> bool
        ensures { result ≡ rack_kept self.now }
    {
        self.hub.is_kept() && are_lines_kept(&self.lines)
    }
}
