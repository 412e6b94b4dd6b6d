//! A draft: a hub that takes its lines, until it is closed.
ghost use Rattle.std.specs.Prelude.{◌≡◌, ℕ, min, true, false, [], length, MatchResult};
ghost use Rattle.figures.specs.Limits.{most_streams};
ghost use Rattle.figures.specs.Racks.{hub_kept, rack_kept};
ghost use Rattle.admission.specs.declared.faults.TableFault.TheVariants.{OutsideLimits};
ghost use Rattle.records.specs.States.{line_within, unlined, line_set, bare_rack, verdict, unless};

use admission::TableFault;
use figures::{Hub, Line, Rack};
use records::{LAST_LINE, MOST_PLACES};

#[derive(Drop)]
pub struct Draft {
    pub(crate) rack: Rack,
    ghost kept: { rack_kept rack ≡ true },
    ghost sixteen: { length rack.lines ≡ 16 },
}

/// Whether the line's fields keep their limits.
fn has_fields_within(line: &Line) -> bool
    ensures { result ≡ line_within line.now }
{
    line.is_kept() && (1..=MOST_PLACES).contains(&line.places)
}

impl Draft {
    /// A draft without lines, around a hub with these switch times.
    pub fn new(least: u32, most: u32) -> Result<Draft, TableFault>
        ensures { MatchResult result (λ d. (d.rack ≡ bare_rack least most) × (hub_kept (record { least = least; most = most }) ≡ true)) (λ e. (e ≡ OutsideLimits) × (hub_kept (record { least = least; most = most }) ≡ false)) }
    {
        let hub = Hub { least, most };
        if !hub.is_kept() {
            return Err(TableFault::OutsideLimits);
        }
        let lines = [None; 16];
        Ok(Draft {
            rack: Rack { hub, lines },
        })
    }

    /// Takes the line under the number, or says why not and changes nothing.
    pub fn add_line(&mut self, number: u8, line: Line) -> Result<(), TableFault>
        ensures told { result ≡ verdict (unlined self.old.rack number line) }
        ensures rack { self.new.rack ≡ unless (unlined self.old.rack number line) (line_set self.old.rack number line) self.old.rack }
    {
        if !(1..=LAST_LINE).contains(&number) || !has_fields_within(&line) {
            return Err(TableFault::OutsideLimits);
        }
        if self.rack.line(number).is_some() {
            return Err(TableFault::LineTaken(number));
        }
        self.rack.lines[usize::from(number) - 1] = Some(line);
        Ok(())
    }
}
