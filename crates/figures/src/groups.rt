//! Groups of a table's streams.
ghost use Rattle.std.specs.Prelude.{◌≡◌};
ghost use Rattle.figures.specs.Sums.{in_group};

use crate::streams::Stream;

/// Some streams of a table: by in-bound line, by a line and higher priority, or by both lines.
#[derive(Clone, Copy)]
pub enum Group {
    From(u8),
    FromAbove(u8, u8),
    ToAbove(u8, u8),
    Between(u8, u8),
}

impl Group {
    pub fn has<K>(&self, stream: &Stream<K>) -> bool
        ensures { result ≡ in_group self.now stream.now }
    {
        match *self {
            Group::From(line) => stream.inbound == line,
            Group::FromAbove(line, priority) => stream.inbound == line
                && stream.priority > priority,
            Group::ToAbove(line, priority) => stream.outbound == line && stream.priority > priority,
            Group::Between(inbound, outbound) => stream.inbound == inbound
                && stream.outbound == outbound,
        }
    }
}
