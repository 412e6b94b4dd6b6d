//! Prints the figures of a small plan: two streams over one in-bound and one out-bound line.
//!
//! Kind, rack and streams are its own, since it is to be read alone: a crate for them would be no plainer.
#![tactic(auto)]

use arrivals::{Arrival, Bucket, Choice, Message};
use figures::{Figures, Hub, Line, Rack, Side, Stream, Table};
use std::io;

type Kind = Choice<Message, Bucket>;

fn rack() -> Rack {
    let mut lines = [None; 16];
    lines[0] = Some(Line {
        side: Side::Inbound,
        cell_time: 2,
        propagation: 5,
        places: 8,
    });
    lines[1] = Some(Line {
        side: Side::Outbound,
        cell_time: 1,
        propagation: 5,
        places: 8,
    });
    Rack {
        hub: Hub { least: 1, most: 3 },
        lines,
    }
}

fn streams() -> [Stream<Kind>; 2] {
    [
        Stream {
            number: 10,
            priority: 2,
            inbound: 1,
            outbound: 2,
            deadline: 18,
            kind: Choice::First(Message {
                period: 20,
                jitter: 0,
                cells: 3,
                gap: 2,
            }),
        },
        Stream {
            number: 11,
            priority: 1,
            inbound: 1,
            outbound: 2,
            deadline: 30,
            kind: Choice::Second(Bucket {
                burst: 2,
                interval: 10,
            }),
        },
    ]
}

/// In two programs, since each is to be read alone, and a crate for it would be no plainer.
fn print_streams(
    rt: &impl Print,
    table: &Table<Kind>,
    streams: &[Stream<Kind>],
    figures: &Figures,
) -> io::Result<()> {
    for (place, stream) in streams.iter().enumerate() {
        if let Some(told) = table.of_stream(&figures.delays, place) {
            let number = stream.number;
            println!(rt; "stream {number} {told}")?;
        }
    }
    Ok(())
}

/// Much as in `full_table`, which is to be read alone; a crate for it would be no plainer.
fn print_lines(rt: &impl Print, rack: &Rack, figures: &Figures) -> io::Result<()> {
    for (place, need) in figures.needs.iter().enumerate() {
        if let (Some(line), Some(need)) = (rack.lines[place], need) {
            let number = place + 1;
            let places = line.places;
            println!(rt; "line {number} need {need} of {places}")?;
        }
    }
    Ok(())
}

fn main(rt: HostRuntime) -> io::Result<()> {
    let rack = rack();
    let streams = streams();
    let Some(table) = Table::new(&rack, &streams) else {
        return println!(rt; "no table");
    };
    match table.figures() {
        Ok(figures) => {
            print_streams(&rt, &table, &streams, &figures)?;
            print_lines(&rt, &rack, &figures)
        }
        Err(fault) => println!(rt; "{fault}"),
    }
}
