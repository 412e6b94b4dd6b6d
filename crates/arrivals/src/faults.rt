//! Why the numbers of a kind are refused.
ghost use Rattle.std.specs.Prelude.{◌≡◌};
ghost use Rattle.arrivals.specs.Faults.{refusal};

#[derive(Clone, Copy, PartialEq, Eq, Debug)]
pub enum KindFault {
    /// A field is outside its limits.
    OutsideLimits,
    /// The cells of a message, a gap apart, do not fit into its period.
    Overfull,
}

impl KindFault {
    /// The number by which the refusal is known.
    pub fn number(&self) -> u8
        ensures { result ≡ refusal self.now }
    {
        match self {
            KindFault::OutsideLimits => 6,
            KindFault::Overfull => 7,
        }
    }
}
