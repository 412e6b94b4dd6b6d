//! How entries come into a journal.
ghost use Rattle.std.specs.Prelude.{◌≡◌, ◌<◌, ◌≤◌, [], ◌∷◌, ◌++◌, length};
ghost use Rattle.wire.specs.Faults.{with_place};
ghost use Rattle.wire.specs.declared.faults.FileFault.TheVariants.{Table};
ghost use Rattle.planfile.specs.Lines.{of_input};
ghost use Rattle.planfile.specs.Points.{noted, onward, with_answer};

use super::Journal;
use admission::TableFault;
use arrayvec::ArrayVec;
use listing::Entry;
use wire::FileFault;

/// Whether it is a fault of the input, at which reading stops; the others are faults of the state.
fn is_of_input(fault: &TableFault) -> bool
    ensures { result ≡ of_input (Table 0 fault.now) }
{
    matches!(fault, TableFault::OutsideLimits | TableFault::Overfull)
}

impl Journal {
    pub fn new() -> Journal
        ensures { noted result ≡ [] }
    {
        Journal {
            entries: ArrayVec::new(),
        }
    }

    pub fn entries(&self) -> &[Entry]
        ensures value { result.now ≡ noted self.now }
        ensures few { length result.now ≤ 1679 }
    {
        self.entries.as_slice()
    }

    /// That there is room is asked and not answered by a `Result`, here and in what calls it: no type holds a length that
    /// grows below a bound, and a listing has no fault for it.
    pub fn push(&mut self, entry: Entry)
        requires { length (noted self.old) < 1679 }
        ensures { noted self.new ≡ noted self.old ++ entry ∷ [] }
    {
        self.entries.push(entry);
    }

    /// Notes what the table answers to the record at this place. A fault of the input is handed back instead.
    pub fn note(&mut self, at: usize, answer: Result<(), TableFault>) -> Result<(), FileFault>
        requires { length (noted self.old) < 1679 }
        ensures told { result ≡ onward (with_place at answer) }
        ensures lines { noted self.new ≡ with_answer (noted self.old) at (with_place at answer) }
    {
        match answer {
            Ok(()) => self.push(Entry::Done { at }),
            Err(fault) if is_of_input(&fault) => return Err(FileFault::from((at, fault))),
            Err(fault) => self.push(Entry::Refused {
                at,
                number: fault.number(),
                party: fault.party(),
            }),
        }
        Ok(())
    }
}
