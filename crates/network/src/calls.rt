//! The calls on a network, and their answers.
ghost use Rattle.std.specs.Prelude.{Some};
ghost use Rattle.network.specs.Words.{call_text, told_text};

use admission::TableFault;
use figures::{Stream, StreamFigures};
use records::LineFigures;
use std::fmt;

#[derive(Clone, Copy)]
pub enum Call<K> {
    /// File this stream.
    Request(Stream<K>),
    /// Take the stream with this number out.
    Withdraw(u16),
    /// Set the places of the line with this number.
    SetPlaces(u8, u32),
    /// Tell the figures of the stream with this number.
    OfStream(u16),
    /// Tell the figures of the line with this number.
    OfLine(u8),
}

/// What a call that is not refused tells.
#[derive(Clone, Copy)]
pub enum Told {
    Done,
    Stream(StreamFigures),
    Line(LineFigures),
}

pub type Answer = Result<Told, TableFault>;

impl<K> fmt::Display for Call<K> {
    ghost output = { λ call. Some (call_text call) };

    fn fmt<W: fmt::Write>(&self, f: &mut fmt::Formatter<W>) -> fmt::Result {
        match self {
            Call::Request(stream) => {
                let number = stream.number;
                let deadline = stream.deadline;
                write!(f, "request stream {number} deadline {deadline}")
            }
            Call::Withdraw(number) => write!(f, "withdraw stream {number}"),
            Call::SetPlaces(line, places) => write!(f, "places of line {line} to {places}"),
            Call::OfStream(number) => write!(f, "stream {number}"),
            Call::OfLine(number) => write!(f, "line {number}"),
        }
    }
}

impl fmt::Display for Told {
    ghost output = { λ told. Some (told_text told) };

    fn fmt<W: fmt::Write>(&self, f: &mut fmt::Formatter<W>) -> fmt::Result {
        match self {
            Told::Done => write!(f, "done"),
            Told::Stream(figures) => write!(f, "{figures}"),
            Told::Line(figures) => write!(f, "{figures}"),
        }
    }
}
