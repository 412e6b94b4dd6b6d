//! The figures of one line.
ghost use Rattle.std.specs.Prelude.{Some};
ghost use Rattle.records.specs.Words.{line_text};

use std::fmt;

#[derive(Clone, Copy)]
pub struct LineFigures {
    pub need: u32,
    pub places: u32,
}

impl fmt::Display for LineFigures {
    ghost output = { λ figures. Some (line_text figures) };

    fn fmt<W: fmt::Write>(&self, f: &mut fmt::Formatter<W>) -> fmt::Result {
        let need = self.need;
        let places = self.places;
        write!(f, "need {need} of {places}")
    }
}
