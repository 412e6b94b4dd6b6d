//! What the calls do with the records.
ghost use Rattle.std.specs.Prelude.{◌≡◌, ℕ, ◌+◌, ◌<◌, ◌≤◌, Bool, true, ◌++◌, length, take, drop, None, Some, MatchResult};
ghost use Rattle.std.specs.List.{insert};
ghost use Rattle.figures.specs.Racks.{line_at};
ghost use Rattle.figures.specs.Tables.{table_kept, Distinct};
ghost use Rattle.admission.specs.Checks.{CheckTold};
ghost use Rattle.admission.specs.Limits.{last_line};
ghost use Rattle.records.specs.Lists.{place, filed};
ghost use Rattle.records.specs.Records.{table, state_of};
ghost use Rattle.records.specs.Sound.{Sound};
ghost use Rattle.records.specs.States.{unfiled, if_passed, Requested, Withdrawn, Found, LineFound, MemoryLeft, unknown_line, places_set, PlacesSet, StreamAnswer, LineAnswer};

use super::Records;
use crate::lent::{LentTable, find_number, find_priority, place_of};
use crate::lines::LineFigures;
use admission::{LAST_LINE, LAST_STREAM, MOST_PLACES, TableFault, check, has_fields_within};
use arrivals::Arrival;
use figures::{Line, MOST_STREAMS, Rack, Side, Stream, StreamFigures, Table};

impl<'a, K: Arrival + Copy> Records<'a, K> {
    pub fn new(rack: Rack, memory: &'a mut [Stream<K>]) -> Records<'a, K>
        ensures { (result.rack ≡ rack) × (result.table.len ≡ 0) × (result.table.memory.now ≡ memory.old) }
    {
        Records {
            rack,
            table: LentTable::new(memory),
        }
    }

    /// The streams of the table.
    pub fn streams(&self) -> &[Stream<K>]
        ensures { result.now ≡ table self.now }
    {
        self.table.streams()
    }

    /// The record of the line with the number, if there is one.
    pub fn line(&self, number: u8) -> Option<Line>
        ensures { result ≡ line_at self.now.rack number }
    {
        self.rack.line(number)
    }

    /// Whether the stream can be filed, as far as can be told without the checks of its table.
    fn check_newcomer(&self, stream: &Stream<K>) -> Result<(), TableFault>
        ensures { MatchResult result (λ _. unfiled (state_of self.now) stream.now ≡ None) (λ fault. unfiled (state_of self.now) stream.now ≡ Some fault) }
    {
        if !has_fields_within(stream) {
            return Err(TableFault::OutsideLimits);
        }
        if !self.rack.is_on(stream.inbound, Side::Inbound) {
            return Err(TableFault::NoLine(stream.inbound));
        }
        if !self.rack.is_on(stream.outbound, Side::Outbound) {
            return Err(TableFault::NoLine(stream.outbound));
        }
        let streams = self.streams();
        if find_number(streams, stream.number).is_some() {
            return Err(TableFault::StreamTaken(stream.number));
        }
        if let Some(holder) = find_priority(streams, stream.priority) {
            return Err(TableFault::PriorityTaken(streams[holder].number));
        }
        if self.table.is_full() {
            return Err(TableFault::TableFull(stream.number));
        }
        Ok(())
    }

    /// Files the stream where the table with it passes, else says why not and changes nothing.
    pub fn request(&mut self, stream: Stream<K>) -> Result<(), TableFault>
        requires { Sound (state_of self.old) }
        ensures sound { Sound (state_of self.new) }
        ensures told { Requested K.Arrival.alpha (state_of self.old) stream result (state_of self.new) }
        ensures left { self.new.table.memory.now ≡ if_passed result (filed stream (table self.old) ++ drop (self.old.table.len + 1) self.old.table.memory.now) self.old.table.memory.now }
    {
        self.check_newcomer(&stream)?;
        let at = place_of(self.streams(), stream.priority);
        self.table.try_file(&self.rack, at, stream)
    }

    /// The place of the stream with the number.
    fn find(&self, number: u16) -> Result<usize, TableFault>
        ensures { Found (state_of self.now) number result }
    {
        if !(1..=LAST_STREAM).contains(&number) {
            return Err(TableFault::OutsideLimits);
        }
        find_number(self.streams(), number).ok_or(TableFault::NoStream(number))
    }

    /// Takes the stream out, or says that there is none.
    pub fn withdraw(&mut self, number: u16) -> Result<(), TableFault>
        requires { Sound (state_of self.old) }
        ensures sound { Sound (state_of self.new) }
        ensures told { Withdrawn K.Arrival.alpha (state_of self.old) number result (state_of self.new) }
        ensures left { MemoryLeft self.old.table.len self.old.table.memory.now number result self.new.table.memory.now }
    {
        let at = self.find(number)?;
        self.table.remove(at);
        Ok(())
    }

    /// The check of the table as it stands.
    fn check(&self) -> Result<(), TableFault>
        requires { Sound (state_of self.now) }
        ensures { CheckTold K.Arrival.alpha self.now.rack (table self.now) result }
    {
        check(&self.rack, self.streams())
    }

    /// The line that a call names, or why there is none.
    fn known_line(&self, number: u8) -> Result<Line, TableFault>
        ensures { LineFound (state_of self.now) number result }
    {
        if !(1..=LAST_LINE).contains(&number) {
            return Err(TableFault::OutsideLimits);
        }
        self.line(number).ok_or(TableFault::NoLine(number))
    }

    fn write_places(&mut self, number: u8, places: u32)
        requires { (1 ≤ number) × (number ≤ last_line) }
        ensures rack { self.new.rack ≡ places_set self.old.rack number places }
        ensures memory { (self.new.table.memory.now ≡ self.old.table.memory.now) × (self.new.table.len ≡ self.old.table.len) }
    {
        if let Some(line) = &mut self.rack.lines[usize::from(number) - 1] {
            line.places = places;
        }
    }

    /// Sets the places of a line where the table passes with them, else says why not and changes nothing.
    pub fn set_places(&mut self, number: u8, places: u32) -> Result<(), TableFault>
        requires { Sound (state_of self.old) }
        ensures sound { Sound (state_of self.new) }
        ensures told { PlacesSet K.Arrival.alpha (state_of self.old) number places result (state_of self.new) }
        ensures left { self.new.table.memory.now ≡ self.old.table.memory.now }
    {
        if !(1..=MOST_PLACES).contains(&places) {
            return Err(TableFault::OutsideLimits);
        }
        self.known_line(number)?;
        let before = self.rack;
        self.write_places(number, places);
        let verdict = self.check();
        if verdict.is_err() {
            self.rack = before;
        }
        verdict
    }

    /// The table, for its figures.
    pub fn as_table(&self) -> Table<'_, K>
        requires { Sound (state_of self.now) }
        ensures rack { result.rack.now ≡ self.now.rack }
        ensures streams { result.streams.now ≡ table self.now }
    {
        let Some(table) = Table::new(&self.rack, self.streams()) else {
            unreachable!()
        };
        table
    }

    /// The figures of the stream with the number.
    pub fn stream_figures(&self, number: u16) -> Result<StreamFigures, TableFault>
        requires { Sound (state_of self.now) }
        ensures { StreamAnswer K.Arrival.alpha (state_of self.now) number result }
    {
        let place = self.find(number)?;
        let table = self.as_table();
        let delays = table.delays()?;
        let Some(figures) = table.of_stream(&delays, place) else {
            unreachable!()
        };
        Ok(figures)
    }

    /// The need and the places of the line with the number.
    pub fn line_figures(&self, number: u8) -> Result<LineFigures, TableFault>
        requires { Sound (state_of self.now) }
        ensures { LineAnswer K.Arrival.alpha (state_of self.now) number result }
    {
        let line = self.known_line(number)?;
        let table = self.as_table();
        let delays = table.delays()?;
        let Some(need) = table.need(&delays, number)? else {
            unreachable!()
        };
        Ok(LineFigures {
            need,
            places: line.places,
        })
    }
}
