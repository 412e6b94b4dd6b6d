//! The records of a file, one after the other: first the lines of a draft, then the calls on its network.
ghost use Rattle.std.specs.Prelude.{◌≡◌, ℕ, ◌+◌, ◌*◌, ◌≤◌, length, MatchResult};
ghost use Rattle.records.specs.Records.{state_of};
ghost use Rattle.planfile.specs.Points.{Ends, Fitting, Leads, Stops, noted};
ghost use Rattle.planfile.specs.Stages.{closed, drafted, networked};

use crate::admitted::Admitted;
use crate::journals::Journal;
use crate::stages::{read_line, take_call};
use network::Draft;
use wire::{FileFault, Walker};

/// Takes the lines, and leaves the walker at the record that closes the draft, or at the end of the file. No `for`: the
/// walker stays at a record that is cut short, so that its records have no end.
pub fn read_lines(
    walker: &mut Walker,
    draft: &mut Draft,
    journal: &mut Journal,
) -> Result<(), FileFault>
    requires { Fitting (noted journal.old) walker.old.at walker.old.rest.now }
    ensures { MatchResult result (λ _. ((room : ℕ) → Leads (noted journal.old) (drafted draft.old.rack) walker.old.at walker.old.rest.now room (noted journal.new) (networked (closed room draft.new.rack)) walker.new.at walker.new.rest.now) × Fitting (noted journal.new) walker.new.at walker.new.rest.now) (λ fault. (room : ℕ) → Stops (noted journal.old) (drafted draft.old.rack) walker.old.at walker.old.rest.now room (noted journal.new) fault) }
{
    let mut ahead = *walker;
    while let Some(record) = ahead.next()? {
        let Some((number, line)) = read_line(record)? else {
            return Ok(());
        };
        journal.note(record.at, draft.add_line(number, line))?;
        *walker = ahead;
    }
    Ok(())
}

/// Takes the calls, up to the end of the file, by a `while let` as above. Network and journal stay two parameters here and in what is called: the
/// journal outlives a fault and the network does not, so a struct of both would be two references, and no plainer.
pub fn run(walker: Walker, admitted: &mut Admitted, journal: &mut Journal) -> Result<(), FileFault>
    requires { Fitting (noted journal.old) walker.at walker.rest.now }
    ensures { MatchResult result (λ _. (room : ℕ) → Ends (noted journal.old) (networked (state_of admitted.old.network.records)) walker.entry.at walker.entry.rest.now room (noted journal.new) (networked (state_of admitted.new.network.records))) (λ fault. (room : ℕ) → Stops (noted journal.old) (networked (state_of admitted.old.network.records)) walker.entry.at walker.entry.rest.now room (noted journal.new) fault) }
{
    let mut ahead = walker;
    while let Some(record) = ahead.next()? {
        take_call(admitted, journal, record)?;
    }
    Ok(())
}
