//! What is printed of a stream's figures, and of the refusal of a table.
ghost use Rattle.std.specs.Prelude.{Some};
ghost use Rattle.figures.specs.Words.{figures_text, fault_text};

use crate::delays::StreamFigures;
use crate::faults::FigureFault;
use std::error::Error;
use std::fmt;

impl fmt::Display for StreamFigures {
    ghost output = { λ figures. Some (figures_text figures) };

    fn fmt<W: fmt::Write>(&self, f: &mut fmt::Formatter<W>) -> fmt::Result {
        let StreamFigures { q1, q2, total } = *self;
        write!(f, "q1 {q1} q2 {q2} total {total}")
    }
}

/// The line of a `TableFault` too, which lies in another crate: a function for the one line would be no plainer.
impl fmt::Display for FigureFault {
    ghost output = { λ fault. Some (fault_text fault) };

    fn fmt<W: fmt::Write>(&self, f: &mut fmt::Formatter<W>) -> fmt::Result {
        let number = self.number();
        let party = self.party();
        write!(f, "no {number} {party}")
    }
}

impl Error for FigureFault {}
