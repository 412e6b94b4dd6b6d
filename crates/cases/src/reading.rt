//! Cases as text: a plan file in hexadecimal digits, what it is listed with, and the listing that is expected.
//!
//!     case NAME            begins a case
//!     file 00 05 01 ..     the next bytes of its plan file; one line for each record
//!     memory N             the streams that the lent memory has room for, 64 where no line says so
//!     room N               the length of the buffer, 151110 where no line says so
//!     text LINE            the next line of the expected listing
//!     refused              no listing, since it is longer than the buffer
//!     end                  ends the case
//!
//! A line that begins with '#', and one with nothing on it, is for the reader alone.
use anyhow::anyhow;
use figures::MOST_STREAMS;
use planfile::LONGEST_LISTING;
use std::alloc::Global;

#[derive(Drop)]
pub struct Case {
    pub name: String,
    pub file: Vec<u8>,
    pub memory: usize,
    pub room: usize,
    /// None where a refusal is expected.
    pub listing: Option<Vec<u8>>,
}

/// What a line says.
enum Line<'a> {
    Case(&'a str),
    File(&'a str),
    Memory(usize),
    Room(usize),
    Text(&'a str),
    Refused,
    End,
    Remark,
}

fn read_line(line: &str) -> anyhow::Result<Line<'_>> {
    let (word, rest) = line.split_once(' ').unwrap_or((line, ""));
    match word {
        "case" => Ok(Line::Case(rest)),
        "file" => Ok(Line::File(rest)),
        "memory" => Ok(Line::Memory(rest.parse::<usize>()?)),
        "room" => Ok(Line::Room(rest.parse::<usize>()?)),
        "text" => Ok(Line::Text(rest)),
        "refused" => Ok(Line::Refused),
        "end" => Ok(Line::End),
        "" | "#" => Ok(Line::Remark),
        _ => Err(anyhow!("a line of a case is not understood")),
    }
}

fn push_hex(bytes: &mut Vec<u8>, digits: &str) -> anyhow::Result<()> {
    for pair in digits.split_whitespace() {
        bytes.push(u8::from_str_radix(pair, 16)?)?;
    }
    Ok(())
}

impl Case {
    pub fn new(heap: Global) -> Case {
        Case {
            name: String::new(heap),
            file: Vec::new(heap),
            memory: MOST_STREAMS,
            room: LONGEST_LISTING,
            listing: Some(Vec::new(heap)),
        }
    }

    pub fn is_begun(&self) -> bool {
        !self.name.is_empty()
    }

    fn begin(&mut self, name: &str) -> anyhow::Result<()> {
        if self.is_begun() {
            return Err(anyhow!("a case begins within another"));
        }
        self.name.push_str(name)?;
        Ok(())
    }

    /// Takes the next line, and tells whether the case is whole.
    pub fn take(&mut self, line: &str) -> anyhow::Result<bool> {
        match read_line(line)? {
            Line::Case(name) => self.begin(name)?,
            Line::File(digits) => push_hex(&mut self.file, digits)?,
            Line::Memory(streams) => self.memory = streams,
            Line::Room(bytes) => self.room = bytes,
            Line::Text(text) => {
                if let Some(listing) = &mut self.listing {
                    listing.extend_from_slice(text.as_bytes())?;
                    listing.push(b'\n')?;
                }
            }
            Line::Refused => self.listing = None,
            Line::End => return Ok(true),
            Line::Remark => {}
        }
        Ok(false)
    }
}
