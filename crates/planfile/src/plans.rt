//! A plan file, read and carried out whole, and its listing.
ghost use Rattle.std.specs.Prelude.{◌≡◌, ℕ, ◌≤◌, min, true, [], length, is_ok, MatchResult};
ghost use Rattle.figures.specs.Limits.{most_streams};
ghost use Rattle.planfile.specs.Plans.{PlanTold, longest_listing};
ghost use Rattle.planfile.specs.Points.{Entered, Finishes, Fitting, PlanRead, Stops, noted};
ghost use Rattle.planfile.specs.Stages.{closed, networked};

use crate::admitted::Admitted;
use crate::journals::Journal;
use crate::readers::{read_lines, run};
use crate::stages::open_draft;
use crate::told::list_figures;
use arrivals::{Bucket, Choice};
use figures::Stream;
use listing::{Entry, write_listing};
use network::Draft;
use wire::{FileFault, Kind, Walker, open};

/// No listing has more bytes: it has at most 1,679 lines (`MOST_ENTRIES`), of at most 90 bytes each.
pub const LONGEST_LISTING: usize = 151_110;

/// What lent memory may hold before there is any stream.
pub const NO_STREAM: Stream<Kind> = Stream {
    number: 0,
    priority: 0,
    inbound: 0,
    outbound: 0,
    deadline: 0,
    kind: Choice::Second(Bucket {
        burst: 1,
        interval: 1,
    }),
};

/// Closes the draft, carries out the calls up to the end of the file, and notes the figures of the network that they leave.
fn finish(
    walker: Walker,
    draft: Draft,
    memory: &mut [Stream<Kind>],
    journal: &mut Journal,
) -> Result<(), FileFault>
    requires { Fitting (noted journal.old) walker.at walker.rest.now }
    ensures { MatchResult result (λ _. Finishes (noted journal.old) (networked (closed (min most_streams (length memory.old)) draft.rack)) walker.entry.at walker.entry.rest.now (min most_streams (length memory.old)) (noted journal.new)) (λ fault. Stops (noted journal.old) (networked (closed (min most_streams (length memory.old)) draft.rack)) walker.entry.at walker.entry.rest.now (min most_streams (length memory.old)) (noted journal.new) fault) }
{
    let network = draft.close(memory);
    let mut admitted = Admitted { network };
    run(walker, &mut admitted, journal)?;
    list_figures(&admitted, journal);
    Ok(())
}

/// Reads the file to its end, or to a fault of the input. File and memory are what the caller lends, handed on as they
/// came, so a struct of the two would be no plainer.
fn read_plan(
    bytes: &[u8],
    memory: &mut [Stream<Kind>],
    journal: &mut Journal,
) -> Result<(), FileFault>
    requires { noted journal.old ≡ [] }
    ensures { PlanRead (min most_streams (length memory.old)) bytes.now result (noted journal.new) }
{
    let mut walker = Walker::new(open(bytes)?);
    let Some(first) = walker.next()? else {
        return Ok(());
    };
    let mut draft = open_draft(first)?;
    journal.push(Entry::Done { at: first.at });
    read_lines(&mut walker, &mut draft, journal)?;
    finish(walker, draft, memory, journal)
}

/// The entries of the file's listing.
fn list_entries(bytes: &[u8], memory: &mut [Stream<Kind>]) -> Journal
    ensures { Entered (min most_streams (length memory.old)) bytes.now (noted result) }
{
    let mut journal = Journal::new();
    if let Err(fault) = read_plan(bytes, memory, &mut journal) {
        journal.push(Entry::Stopped {
            at: fault.place(),
            number: fault.number(),
        });
    }
    journal
}

/// Carries out the plan file on a network with its table in this memory, and writes the listing of what came of it at
/// the start of the buffer. It says how long the listing is, or that it does not fit; then nothing is written. With room for
/// `LONGEST_LISTING` bytes it fits. What the memory holds afterwards is left open.
pub fn list_plan(
    bytes: &[u8],
    memory: &mut [Stream<Kind>],
    out: &mut [u8],
) -> Result<usize, FileFault>
    ensures told { PlanTold (min most_streams (length memory.old)) bytes.now out.old result out.new }
    ensures within { MatchResult result (λ n. n ≤ length out.old) (λ fault. fault ≡ FileFault.NoRoom) }
    ensures roomy { longest_listing ≤ length out.old → is_ok result ≡ true }
{
    let journal = list_entries(bytes, memory);
    write_listing(journal.entries(), out).map_err(|_| FileFault::NoRoom)
}
