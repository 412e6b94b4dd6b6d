//! The figures of a network, as the last entries of a listing. Network and journal stay two parameters: the one is only
//! read, the other grows, and a struct of both would be two references, and no plainer.
ghost use Rattle.std.specs.Prelude.{◌≡◌, ◌+◌, ◌≤◌, length};
ghost use Rattle.figures.specs.Told.{DelaysAre, FiguresAre};
ghost use Rattle.records.specs.Records.{table, state_of};
ghost use Rattle.planfile.specs.Figures.{LinesListed, NetworkListed, StreamsListed};
ghost use Rattle.planfile.specs.Kinds.{plan_alpha};
ghost use Rattle.planfile.specs.Points.{Added, noted};

use crate::admitted::Admitted;
use crate::journals::Journal;
use figures::{Delays, Figures, Table};
use listing::Entry;
use network::Network;
use wire::Kind;

/// Notes the figures of the streams, in table order.
fn list_streams(network: &Network<Kind>, view: &Table<Kind>, delays: &Delays, journal: &mut Journal)
    requires rack { view.now.rack.now ≡ network.now.records.rack }
    requires streams { view.now.streams.now ≡ table network.now.records }
    requires delays { DelaysAre plan_alpha network.now.records.rack (table network.now.records) delays.now }
    requires few { length (noted journal.old) + length (table network.now.records) ≤ 1679 }
    ensures { Added (StreamsListed (state_of network.now.records) (table network.now.records)) (noted journal.old) (noted journal.new) }
{
    for (place, stream) in network.streams().iter().enumerate() {
        let Some(told) = view.of_stream(delays, place) else {
            unreachable!()
        };
        journal.push(Entry::Stream {
            number: stream.number,
            q1: told.q1,
            q2: told.q2,
            total: told.total,
        });
    }
}

/// Notes the needs of the lines, by rising number.
fn list_lines(network: &Network<Kind>, figures: &Figures, journal: &mut Journal)
    requires figures { FiguresAre plan_alpha network.now.records.rack (table network.now.records) figures.now }
    requires few { length (noted journal.old) + 16 ≤ 1679 }
    ensures { Added (LinesListed (state_of network.now.records) 1 network.now.records.rack.lines) (noted journal.old) (noted journal.new) }
{
    for (number, need) in (1..).zip(&figures.needs) {
        if let Some(line) = network.line(number) {
            let Some(need) = *need else { unreachable!() };
            journal.push(Entry::Line {
                number,
                need,
                places: line.places,
            });
        }
    }
}

/// Notes the figures of the network: of its streams, then of its lines.
pub fn list_figures(admitted: &Admitted, journal: &mut Journal)
    requires { length (noted journal.old) + length (table admitted.now.network.records) + 16 ≤ 1679 }
    ensures { Added (NetworkListed (state_of admitted.now.network.records)) (noted journal.old) (noted journal.new) }
{
    let network = &admitted.network;
    let view = network.as_table();
    let Ok(figures) = view.figures() else {
        unreachable!()
    };
    list_streams(network, &view, &figures.delays, journal);
    list_lines(network, &figures, journal);
}
