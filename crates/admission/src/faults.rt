//! Why a call on a draft or a network is refused.
ghost use Rattle.std.specs.Prelude.{◌≡◌, Some};
ghost use Rattle.admission.specs.Faults.{refusal, party, layer, of_kind};
ghost use Rattle.admission.specs.declared.faults.TableFault.TheVariants.{Figure};
ghost use Rattle.admission.specs.Words.{fault_text};

use arrivals::KindFault;
use figures::FigureFault;
use std::error::Error;
use std::fmt;

/// The layer that a fault comes from.
#[derive(Clone, Copy, PartialEq, Eq, Debug)]
pub enum Layer {
    Figure,
    Table,
    File,
}

#[derive(Clone, Copy, PartialEq, Eq, Debug)]
pub enum TableFault {
    /// A field is outside its limits.
    OutsideLimits,
    /// The cells of a message, a gap apart, do not fit into its period.
    Overfull,
    /// The line's number is taken.
    LineTaken(u8),
    /// The line is missing or on the wrong side.
    NoLine(u8),
    /// The stream's number is taken.
    StreamTaken(u16),
    /// The priority is taken, by this stream.
    PriorityTaken(u16),
    /// The table has no place for this newcomer.
    TableFull(u16),
    /// There is no stream with this number.
    NoStream(u16),
    /// A stream has no delay, or a line no need.
    Figure(FigureFault),
    /// The stream's total is above its deadline.
    Late(u16),
    /// The line's need is above its places.
    Cramped(u8),
}

impl TableFault {
    /// The number by which the refusal is known.
    pub fn number(&self) -> u8
        ensures { result ≡ refusal self.now }
    {
        match self {
            TableFault::OutsideLimits => 6,
            TableFault::Overfull => 7,
            TableFault::LineTaken(_) => 21,
            TableFault::NoLine(_) => 22,
            TableFault::StreamTaken(_) => 23,
            TableFault::PriorityTaken(_) => 24,
            TableFault::TableFull(_) => 25,
            TableFault::NoStream(_) => 26,
            TableFault::Figure(fault) => fault.number(),
            TableFault::Late(_) => 28,
            TableFault::Cramped(_) => 30,
        }
    }

    /// The stream or line that it names, or 0.
    pub fn party(&self) -> u16
        ensures { result ≡ party self.now }
    {
        match *self {
            TableFault::OutsideLimits | TableFault::Overfull => 0,
            TableFault::LineTaken(line) | TableFault::NoLine(line) | TableFault::Cramped(line) => {
                u16::from(line)
            }
            TableFault::StreamTaken(stream)
            | TableFault::PriorityTaken(stream)
            | TableFault::TableFull(stream)
            | TableFault::NoStream(stream)
            | TableFault::Late(stream) => stream,
            TableFault::Figure(fault) => fault.party(),
        }
    }

    pub fn layer(&self) -> Layer
        ensures { result ≡ layer self.now }
    {
        match self {
            TableFault::Figure(_) => Layer::Figure,
            _ => Layer::Table,
        }
    }
}

/// The line of a `FigureFault`, which lies in another crate: a function for the one line would be no plainer.
impl fmt::Display for TableFault {
    ghost output = { λ fault. Some (fault_text fault) };

    fn fmt<W: fmt::Write>(&self, f: &mut fmt::Formatter<W>) -> fmt::Result {
        let number = self.number();
        let party = self.party();
        write!(f, "no {number} {party}")
    }
}

impl Error for TableFault {}

impl From<FigureFault> for TableFault {
    ghost from_gives = { λ f r. r ≡ Figure f };

    fn from(fault: FigureFault) -> TableFault {
        TableFault::Figure(fault)
    }
}

impl From<KindFault> for TableFault {
    ghost from_gives = { λ f r. r ≡ of_kind f };

    fn from(fault: KindFault) -> TableFault {
        match fault {
            KindFault::OutsideLimits => TableFault::OutsideLimits,
            KindFault::Overfull => TableFault::Overfull,
        }
    }
}
