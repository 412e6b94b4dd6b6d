//! Why a table has no figures.
ghost use Rattle.std.specs.Prelude.{◌≡◌};
ghost use Rattle.figures.specs.Faults.{refusal, party};

#[derive(Clone, Copy, PartialEq, Eq, Debug)]
pub enum FigureFault {
    /// The stream with this number has no delay at one of its ports.
    NoDelay(u16),
    /// The port of the line with this number is never clear.
    NoNeed(u8),
}

impl FigureFault {
    /// The number by which the refusal is known.
    pub fn number(&self) -> u8
        ensures { result ≡ refusal self.now }
    {
        match self {
            FigureFault::NoDelay(_) => 27,
            FigureFault::NoNeed(_) => 29,
        }
    }

    /// The stream or line that it names.
    pub fn party(&self) -> u16
        ensures { result ≡ party self.now }
    {
        match *self {
            FigureFault::NoDelay(stream) => stream,
            FigureFault::NoNeed(line) => u16::from(line),
        }
    }
}
