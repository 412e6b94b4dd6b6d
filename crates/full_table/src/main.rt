//! Prints the figures of a full table: 64 streams over 8 in-bound and 8 out-bound lines, each of which is
//! busy about nine ticks of ten.
//!
//! Kind, rack and streams are its own, since it is to be read alone: a crate for them would be no plainer.
#![tactic(auto)]

use arrivals::{Arrival, Bucket, Choice, Message};
use figures::{Figures, Hub, Line, MOST_STREAMS, Rack, Side, Stream, Table};
use std::{array, io};

type Kind = Choice<Message, Bucket>;

fn line(side: Side, propagation: u32) -> Option<Line> {
    Some(Line {
        side,
        cell_time: 2,
        propagation,
        places: 1000,
    })
}

fn rack() -> Rack {
    Rack {
        hub: Hub { least: 2, most: 6 },
        lines: array::from_fn(|place| {
            if place < 8 {
                line(Side::Inbound, 5)
            } else {
                line(Side::Outbound, 20)
            }
        }),
    }
}

fn message(period: u32, jitter: u32, cells: u32, gap: u32) -> Kind {
    Choice::First(Message {
        period,
        jitter,
        cells,
        gap,
    })
}

fn bucket(burst: u32, interval: u32) -> Kind {
    Choice::Second(Bucket { burst, interval })
}

/// Eight kinds, from short bursts to long ones; each line carries one stream of each.
fn kind(row: u8, column: u8) -> Kind {
    let longer = 3 * u32::from(column);
    match row {
        0 => message(160 + longer, 20, 8, 2),
        1 => bucket(2, 20),
        2 => message(400 + longer, 50, 24, 4),
        3 => bucket(6, 18),
        4 => message(1000 + longer, 100, 56, 3),
        5 => bucket(16, 16),
        6 => message(4000 + longer, 400, 230, 5),
        _ => bucket(40, 18),
    }
}

fn stream(place: u8) -> Stream<Kind> {
    let row = place / 8;
    let column = place % 8;
    Stream {
        number: 1001 + u16::from(place),
        priority: 255 - place,
        inbound: 1 + column,
        outbound: 9 + (row + column) % 8,
        deadline: 100_000,
        kind: kind((row + 2 * column) % 8, column),
    }
}

fn streams() -> [Stream<Kind>; MOST_STREAMS] {
    // a place is below 64, so that the cast fits, which the check shows; a `try_from` would want an `unwrap`
    array::from_fn(|place| stream(place as u8))
}

/// In two programs, since each is to be read alone, and a crate for it would be no plainer.
fn print_streams(
    rt: &impl Print,
    table: &Table<Kind>,
    streams: &[Stream<Kind>],
    figures: &Figures,
) -> io::Result<()> {
    for (place, stream) in streams.iter().enumerate() {
        if let Some(told) = table.of_stream(&figures.delays, place) {
            let number = stream.number;
            println!(rt; "stream {number} {told}")?;
        }
    }
    Ok(())
}

/// Much as in `worked`, which is to be read alone; a crate for it would be no plainer.
fn print_needs(rt: &impl Print, figures: &Figures) -> io::Result<()> {
    for (place, need) in figures.needs.iter().enumerate() {
        let number = place + 1;
        if let Some(need) = need {
            println!(rt; "line {number} need {need} of 1000")?;
        }
    }
    Ok(())
}

fn main(rt: HostRuntime) -> io::Result<()> {
    let rack = rack();
    let streams = streams();
    let Some(table) = Table::new(&rack, &streams) else {
        return println!(rt; "no table");
    };
    match table.figures() {
        Ok(figures) => {
            print_streams(&rt, &table, &streams, &figures)?;
            print_needs(&rt, &figures)
        }
        Err(fault) => println!(rt; "{fault}"),
    }
}
