//! One record at each stage of a plan: the hub, a line of the draft, a call on the network.
ghost use Rattle.std.specs.Prelude.{◌≡◌, ℕ, ◌<◌, true, length, Ok, Err, MatchResult};
ghost use Rattle.records.specs.Records.{state_of};
ghost use Rattle.planfile.specs.Points.{Took, Opens, noted};
ghost use Rattle.planfile.specs.declared.phases.Phase.TheVariants.{Drafting};
ghost use Rattle.planfile.specs.Stages.{Called, is_call, lined, networked, read_in};

use crate::admitted::Admitted;
use crate::journals::Journal;
use crate::phases::Phase;
use admission::TableFault;
use figures::Line;
use network::Draft;
use wire::{FileFault, Kind, Placed, Record, placed};

/// The draft of the first record.
pub fn open_draft(piece: Placed) -> Result<Draft, FileFault>
    ensures { MatchResult result (λ draft. Opens piece.entry.at piece.entry.bytes.now (Ok draft.rack)) (λ fault. Opens piece.entry.at piece.entry.bytes.now (Err fault)) }
{
    let Record::Hub { least, most } = Phase::Opening.read(piece)? else {
        unreachable!()
    };
    placed(piece.at, Draft::new(least, most))
}

/// The line that a record of the draft says, with its number; none where the record is a call, which closes the draft.
pub fn read_line(piece: Placed) -> Result<Option<(u8, Line)>, FileFault>
    ensures { result ≡ lined (read_in Drafting piece.entry.at piece.entry.bytes.now) }
{
    match Phase::Drafting.read(piece)? {
        Record::Line { number, line } => Ok(Some((number, line))),
        _ => Ok(None),
    }
}

/// Carries out what the record asks of the network.
fn call(admitted: &mut Admitted, what: Record<Kind>) -> Result<(), TableFault>
    requires { is_call what ≡ true }
    ensures { Called (state_of admitted.old.network.records) what result (state_of admitted.new.network.records) }
{
    let network = &mut admitted.network;
    match what {
        Record::Stream(stream) => network.request(stream),
        Record::Withdrawal(number) => network.withdraw(number),
        Record::Places { number, places } => network.set_places(number, places),
        Record::Hub { .. } | Record::Line { .. } => unreachable!(),
    }
}

/// Takes the record as a call on the network.
pub fn take_call(
    admitted: &mut Admitted,
    journal: &mut Journal,
    piece: Placed,
) -> Result<(), FileFault>
    requires { length (noted journal.old) < 1679 }
    ensures { Took (networked (state_of admitted.old.network.records)) (noted journal.old) piece.entry.at piece.entry.bytes.now result (networked (state_of admitted.new.network.records)) (noted journal.new) }
{
    let what = Phase::Running.read(piece)?;
    journal.note(piece.at, call(admitted, what))
}
