//! The two hops of a cell: from the probe port to the hub, and from the hub port to the host.
ghost use Rattle.std.specs.Prelude.{◌≡◌};
ghost use Rattle.figures.specs.Hops.{line_used, above};

use crate::groups::Group;
use crate::streams::Stream;

#[derive(Clone, Copy)]
pub enum Hop {
    Probe,
    Hub,
}

impl Hop {
    /// The line that a stream takes on this hop.
    pub fn line<K>(&self, stream: &Stream<K>) -> u8
        ensures { result ≡ line_used self.now stream.now }
    {
        match self {
            Hop::Probe => stream.inbound,
            Hop::Hub => stream.outbound,
        }
    }

    /// The streams that go before a stream at its port.
    pub fn above<K>(&self, stream: &Stream<K>) -> Group
        ensures { result ≡ above self.now stream.now }
    {
        match self {
            Hop::Probe => Group::FromAbove(stream.inbound, stream.priority),
            Hop::Hub => Group::ToAbove(stream.outbound, stream.priority),
        }
    }
}
