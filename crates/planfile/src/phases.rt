//! The phases of a plan file, and the records that may stand in each.
ghost use Rattle.std.specs.Prelude.{◌≡◌};
ghost use Rattle.planfile.specs.Stages.{admits, read_in};

use wire::{FileFault, Kind, Placed, Record, Shape};

#[derive(Clone, Copy)]
pub enum Phase {
    /// No record yet.
    Opening,
    /// The draft takes lines.
    Drafting,
    /// The draft is closed.
    Running,
}

impl Phase {
    /// Whether a record of this shape may stand here.
    fn admits(&self, shape: Shape) -> bool
        ensures { result ≡ admits self.now shape }
    {
        match shape {
            Shape::Hub => matches!(self, Phase::Opening),
            Shape::Line => matches!(self, Phase::Drafting),
            Shape::Message | Shape::Bucket | Shape::Withdrawal | Shape::Places => {
                !matches!(self, Phase::Opening)
            }
        }
    }

    /// What the record says, if it may stand here.
    pub fn read(&self, piece: Placed) -> Result<Record<Kind>, FileFault>
        ensures { result ≡ read_in self.now piece.entry.at piece.entry.bytes.now }
    {
        let shape = piece.shape()?;
        if !self.admits(shape) {
            return Err(FileFault::Misplaced(piece.at));
        }
        piece.read()
    }
}
