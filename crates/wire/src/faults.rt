//! Why a plan file is refused.
ghost use Rattle.std.specs.Prelude.{◌≡◌};
ghost use Rattle.wire.specs.Faults.{refusal, party, place, layer, with_place};
ghost use Rattle.wire.specs.declared.faults.FileFault.TheVariants.{Table};

use admission::{Layer, TableFault};

/// A place is that of the record's first length byte, counted from 0 at the file's first byte.
#[derive(Clone, Copy, PartialEq, Eq, Debug)]
pub enum FileFault {
    /// The file has more than 8,000 bytes.
    TooLong,
    /// The version byte is missing, or is not 1.
    Version,
    /// The file ends within the record at this place.
    CutShort(usize),
    /// The record at this place has an unknown kind, or a length that is not its kind's.
    Malformed(usize),
    /// The record at this place may not stand there.
    Misplaced(usize),
    /// The record at this place is refused by the table.
    Table { at: usize, fault: TableFault },
    /// The listing is longer than the buffer.
    NoRoom,
}

impl FileFault {
    /// The number by which the refusal is known.
    pub fn number(&self) -> u8
        ensures { result ≡ refusal self.now }
    {
        match self {
            FileFault::TooLong => 1,
            FileFault::Version => 2,
            FileFault::CutShort(_) => 3,
            FileFault::Malformed(_) => 4,
            FileFault::Misplaced(_) => 5,
            FileFault::Table { fault, .. } => fault.number(),
            FileFault::NoRoom => 31,
        }
    }

    /// The stream or line that it names, or 0.
    pub fn party(&self) -> u16
        ensures { result ≡ party self.now }
    {
        match self {
            FileFault::Table { fault, .. } => fault.party(),
            _ => 0,
        }
    }

    /// The byte place of the record that is refused, or 0.
    pub fn place(&self) -> usize
        ensures { result ≡ place self.now }
    {
        match *self {
            FileFault::CutShort(at) | FileFault::Malformed(at) | FileFault::Misplaced(at) => at,
            FileFault::Table { at, .. } => at,
            FileFault::TooLong | FileFault::Version | FileFault::NoRoom => 0,
        }
    }

    pub fn layer(&self) -> Layer
        ensures { result ≡ layer self.now }
    {
        match self {
            FileFault::Table { fault, .. } => fault.layer(),
            _ => Layer::File,
        }
    }
}

impl From<(usize, TableFault)> for FileFault {
    ghost from_gives = { λ p r. r ≡ Table p.0 p.1 };

    fn from(placed: (usize, TableFault)) -> FileFault {
        let (at, fault) = placed;
        FileFault::Table { at, fault }
    }
}

/// What the table answers to the record at this place, as an answer to the file.
pub fn placed<T>(at: usize, res: Result<T, TableFault>) -> Result<T, FileFault>
    ensures { result ≡ with_place at res }
{
    res.map_err(|fault| FileFault::Table { at, fault })
}
