//! The entries of a listing, each of them one line.
ghost use Rattle.std.specs.Prelude.{◌≡◌, ◌≤◌, length};
ghost use Rattle.listing.specs.Laid.{laid};
ghost use Rattle.listing.specs.Text.{line_text};
ghost use Rattle.listing.specs.declared.entries.Entry.TheVariants.{Done};

use crate::lines::Line;

/// The byte place stands last, so that an entry takes 16 bytes; standing first, it would take 24.
#[derive(Clone, Copy)]
pub enum Entry {
    /// The record at this byte was carried out.
    Done {
        at: usize,
    },
    /// It was refused, by this number, and the refusal names this stream or line. A number, since no fault is known down
    /// here, and a line tells no more of one.
    Refused {
        number: u8,
        party: u16,
        at: usize,
    },
    /// Reading stopped at this byte, by the refusal of this number.
    Stopped {
        number: u8,
        at: usize,
    },
    /// The delays of a stream at its two ports, and its total.
    Stream {
        number: u16,
        q1: u32,
        q2: u32,
        total: u32,
    },
    /// The places that a line's port needs, of those it has.
    Line {
        number: u8,
        need: u32,
        places: u32,
    },
}

const _: () = prove!(size_of::<Entry>() == 16);

/// What a fixed vector of entries holds at places that are not in use.
impl Default for Entry {
    ghost is_default = { λ e. e ≡ Done 0 };

    fn default() -> Entry {
        Entry::Done { at: 0 }
    }
}

impl Entry {
    /// How many bytes its line takes.
    pub fn room(&self) -> usize
        ensures value { result ≡ length (line_text self.now) }
        ensures bound { result ≤ 90 }
    {
        self.line().text.len()
    }

    /// Writes its line at the start of the slice, and says how many bytes that were.
    pub fn write(&self, out: &mut [u8]) -> usize
        requires { length (line_text self.now) ≤ length out.old }
        ensures count { result ≡ length (line_text self.now) }
        ensures after { out.new ≡ laid (line_text self.now) out.old }
    {
        let line = self.line().text;
        out[..line.len()].copy_from_slice(line.as_bytes());
        line.len()
    }

    fn line(&self) -> Line
        ensures { result.text.bytes ≡ line_text self.now }
    {
        match *self {
            Entry::Done { at } => done_line(at),
            Entry::Refused { number, party, at } => refused_line(number, party, at),
            Entry::Stopped { number, at } => stopped_line(number, at),
            Entry::Stream {
                number,
                q1,
                q2,
                total,
            } => stream_line(number, q1, q2, total),
            Entry::Line {
                number,
                need,
                places,
            } => need_line(number, need, places),
        }
    }
}

fn done_line(at: usize) -> Line
    ensures { result.text.bytes ≡ line_text (Entry.Done at) }
{
    let mut line = Line::new();
    line.text("at ");
    line.number(at);
    line.text(" ok\n");
    line
}

fn refused_line(number: u8, party: u16, at: usize) -> Line
    ensures { result.text.bytes ≡ line_text (Entry.Refused number party at) }
{
    let mut line = Line::new();
    line.text("at ");
    line.number(at);
    line.text(" no ");
    line.number(number);
    line.text(" ");
    line.number(party);
    line.text("\n");
    line
}

fn stopped_line(number: u8, at: usize) -> Line
    ensures { result.text.bytes ≡ line_text (Entry.Stopped number at) }
{
    let mut line = Line::new();
    line.text("stop ");
    line.number(at);
    line.text(" ");
    line.number(number);
    line.text("\n");
    line
}

fn stream_line(number: u16, q1: u32, q2: u32, total: u32) -> Line
    ensures { result.text.bytes ≡ line_text (Entry.Stream number q1 q2 total) }
{
    let mut line = Line::new();
    line.text("stream ");
    line.number(number);
    line.text(" q1 ");
    line.number(q1);
    line.text(" q2 ");
    line.number(q2);
    line.text(" total ");
    line.number(total);
    line.text("\n");
    line
}

fn need_line(number: u8, need: u32, places: u32) -> Line
    ensures { result.text.bytes ≡ line_text (Entry.Line number need places) }
{
    let mut line = Line::new();
    line.text("line ");
    line.number(number);
    line.text(" need ");
    line.number(need);
    line.text(" of ");
    line.number(places);
    line.text("\n");
    line
}
