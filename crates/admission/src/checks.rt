//! The checks of a table: delays, deadlines, needs and places.
ghost use Rattle.std.specs.Prelude.{◌≡◌, ℕ, ◌≤◌, true, length};
ghost use Rattle.figures.specs.Tables.{table_kept, Distinct};
ghost use Rattle.admission.specs.Checks.{DeadlinesTold, LineTold, LinesTold, CheckTold};

use crate::faults::TableFault;
use crate::limits::LAST_LINE;
use arrivals::Arrival;
use figures::{Delays, Rack, Stream, Table};

/// A table with the delays of its streams.
#[derive(Drop)]
struct Timed<'a, K> {
    table: Table<'a, K>,
    delays: Delays,
}

impl<'a, K: Arrival> Timed<'a, K> {
    /// Whether each stream's total is at most its deadline, or the first whose is not.
    fn check_deadlines(&self) -> Result<(), TableFault>
        ensures { DeadlinesTold self.now.table.rack.now self.now.table.streams.now self.now.delays result }
    {
        for (place, stream) in self.table.streams().iter().enumerate() {
            if let Some(figures) = self.table.of_stream(&self.delays, place) {
                if figures.total > stream.deadline {
                    return Err(TableFault::Late(stream.number));
                }
            }
        }
        Ok(())
    }

    /// Whether the line's port has a need, and places enough for it.
    fn check_line(&self, number: u8) -> Result<(), TableFault>
        ensures { LineTold K.Arrival.alpha self.now.table.rack.now self.now.table.streams.now self.now.delays number result }
    {
        if let Some(line) = self.table.line(number) {
            if let Some(need) = self.table.need(&self.delays, number)? {
                if need > line.places {
                    return Err(TableFault::Cramped(number));
                }
            }
        }
        Ok(())
    }

    /// The same for all lines, by rising number.
    fn check_lines(&self) -> Result<(), TableFault>
        ensures { LinesTold K.Arrival.alpha self.now.table.rack.now self.now.table.streams.now self.now.delays result }
    {
        for number in 1..=LAST_LINE {
            self.check_line(number)?;
        }
        Ok(())
    }
}

/// Whether the table passes every check, or the first that it fails: all q1 and all q2 in table order, the
/// deadlines in table order, then the need and the places of each line.
pub fn check<'a, K: Arrival>(rack: &'a Rack, streams: &'a [Stream<K>]) -> Result<(), TableFault>
    requires kept { table_kept rack.now streams.now ≡ true }
    requires distinct { Distinct streams.now }
    requires sixteen { length rack.now.lines ≡ 16 }
    ensures { CheckTold K.Arrival.alpha rack.now streams.now result }
{
    let Some(table) = Table::new(rack, streams) else {
        unreachable!()
    };
    let delays = table.delays()?;
    let timed = Timed { table, delays };
    timed.check_deadlines()?;
    timed.check_lines()
}
