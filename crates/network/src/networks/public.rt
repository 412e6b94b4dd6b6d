//! What a caller may do with a draft that is closed, and with its network.
ghost use Rattle.std.specs.Prelude.{◌≡◌, ℕ, ◌+◌, min, [], ◌++◌, length, take, drop};
ghost use Rattle.figures.specs.Limits.{most_streams};
ghost use Rattle.figures.specs.Racks.{line_at};
ghost use Rattle.figures.specs.Tables.{Passing};
ghost use Rattle.records.specs.Lists.{filed};
ghost use Rattle.records.specs.Records.{table, state_of};
ghost use Rattle.records.specs.States.{if_passed, Requested, Withdrawn, PlacesSet, StreamAnswer, LineAnswer, MemoryLeft};
ghost use Rattle.network.specs.Promise.{Promised};
ghost use Rattle.network.specs.States.{Answered, Carried};

use super::Network;
use crate::calls::{Answer, Call, Told};
use crate::drafts::Draft;
use admission::TableFault;
use arrivals::Arrival;
use figures::{Line, Stream, StreamFigures, Table};
use records::{LineFigures, Records};

impl Draft {
    /// The network of the draft, with an empty table in this memory.
    pub fn close<'a, K: Arrival + Copy>(self, memory: &'a mut [Stream<K>]) -> Network<'a, K>
        ensures state { state_of result.records ≡ record { rack = self.rack; streams = []; room = min most_streams (length memory.old) } }
        ensures memory { result.records.table.memory.now ≡ memory.old }
        ensures passing { Passing K.Arrival.alpha result.records.rack (table result.records) }
    {
        let Draft { rack } = self;
        let records = Records::new(rack, memory);
        Network { records }
    }
}

impl<'a, K: Arrival + Copy> Network<'a, K> {
    /// The streams of the table, in falling order of priority.
    pub fn streams(&self) -> &[Stream<K>]
        ensures { result.now ≡ table self.now.records }
    {
        self.records.streams()
    }

    /// The record of the line with the number, if there is one.
    pub fn line(&self, number: u8) -> Option<Line>
        ensures { result ≡ line_at self.now.records.rack number }
    {
        self.records.line(number)
    }

    /// Files the stream where the table with it passes every check, else says why not and changes nothing.
    pub fn request(&mut self, stream: Stream<K>) -> Result<(), TableFault>
        ensures told { Requested K.Arrival.alpha (state_of self.old.records) stream result (state_of self.new.records) }
        ensures left { self.new.records.table.memory.now ≡ if_passed result (filed stream (table self.old.records) ++ drop (self.old.records.table.len + 1) self.old.records.table.memory.now) self.old.records.table.memory.now }
        ensures passing { Passing K.Arrival.alpha self.old.records.rack (table self.old.records) → Passing K.Arrival.alpha self.new.records.rack (table self.new.records) }
    {
        self.records.request(stream)
    }

    /// Takes the stream out, or says that there is none and changes nothing.
    pub fn withdraw(&mut self, number: u16) -> Result<(), TableFault>
        ensures told { Withdrawn K.Arrival.alpha (state_of self.old.records) number result (state_of self.new.records) }
        ensures left { MemoryLeft self.old.records.table.len self.old.records.table.memory.now number result self.new.records.table.memory.now }
        ensures passing { Passing K.Arrival.alpha self.old.records.rack (table self.old.records) → Passing K.Arrival.alpha self.new.records.rack (table self.new.records) }
    {
        self.records.withdraw(number)
    }

    /// Sets the places of the line where the table passes with them, else says why not and changes nothing.
    pub fn set_places(&mut self, number: u8, places: u32) -> Result<(), TableFault>
        ensures told { PlacesSet K.Arrival.alpha (state_of self.old.records) number places result (state_of self.new.records) }
        ensures left { self.new.records.table.memory.now ≡ self.old.records.table.memory.now }
        ensures passing { Passing K.Arrival.alpha self.old.records.rack (table self.old.records) → Passing K.Arrival.alpha self.new.records.rack (table self.new.records) }
    {
        self.records.set_places(number, places)
    }

    /// The table, for all of its figures at once.
    pub fn as_table(&self) -> Table<'_, K>
        ensures rack { result.rack.now ≡ self.now.records.rack }
        ensures streams { result.streams.now ≡ table self.now.records }
    {
        self.records.as_table()
    }

    /// q1, q2 and total of the stream.
    pub fn stream_figures(&self, number: u16) -> Result<StreamFigures, TableFault>
        ensures { StreamAnswer K.Arrival.alpha (state_of self.now.records) number result }
    {
        self.records.stream_figures(number)
    }

    /// The need and the places of the line.
    pub fn line_figures(&self, number: u8) -> Result<LineFigures, TableFault>
        ensures { LineAnswer K.Arrival.alpha (state_of self.now.records) number result }
    {
        self.records.line_figures(number)
    }

    /// Carries out one call.
    pub fn carry(&mut self, call: &Call<K>) -> Answer
        ensures { Answered K.Arrival.alpha (state_of self.old.records) call.now result (state_of self.new.records) }
    {
        match *call {
            Call::Request(stream) => self.request(stream).map(|_| Told::Done),
            Call::Withdraw(number) => self.withdraw(number).map(|_| Told::Done),
            Call::SetPlaces(number, places) => self.set_places(number, places).map(|_| Told::Done),
            Call::OfStream(number) => self.stream_figures(number).map(Told::Stream),
            Call::OfLine(number) => self.line_figures(number).map(Told::Line),
        }
    }
}

/// Carries the calls out in their order, past every refusal, and writes each one's answer, as far as there
/// is room for the answers.
pub fn carry_all<K: Arrival + Copy>(
    network: &mut Network<K>,
    calls: &[Call<K>],
    answers: &mut [Answer],
)
    ensures carried { Carried K.Arrival.alpha (state_of network.old.records) (take (length answers.old) calls.now) (take (length calls.now) answers.new) (state_of network.new.records) }
    ensures rest { drop (length calls.now) answers.new ≡ drop (length calls.now) answers.old }
{
    // By index, since of what a zip with `answers.iter_mut()` writes a proof knows nothing once the loop is over.
    let count = calls.len().min(answers.len());
    for (i, call) in calls[..count].iter().enumerate() {
        answers[i] = network.carry(call);
    }
}

/// Closes the draft, and carries out any list of calls on its network, past every refusal.
///
/// Each call is answered as defined, step by step from the empty table; and of the network as it then
/// stands the promise holds: the figure calls tell a figure for every stream and every line, in every run
/// of cells none is longer on its way than the told delay of its stream, which is at most its deadline,
/// and no port ever holds more cells than its told need, which is at most its places.
pub fn carry_out<'a, K: Arrival + Copy>(
    draft: Draft,
    memory: &'a mut [Stream<K>],
    calls: &[Call<K>],
    answers: &mut [Answer],
) -> Network<'a, K>
    ensures carried { Carried K.Arrival.alpha (record { rack = draft.rack; streams = []; room = min most_streams (length memory.old) }) (take (length answers.old) calls.now) (take (length calls.now) answers.new) (state_of result.records) }
    ensures rest { drop (length calls.now) answers.new ≡ drop (length calls.now) answers.old }
    ensures promised { Promised K.Arrival.alpha (state_of result.records) }
{
    let mut network = draft.close(memory);
    carry_all(&mut network, calls, answers);
    network
}
