//! Lines come first: a draft takes them until it is closed, and its network takes none.
#![tactic(auto)]

use admission::TableFault;
use arrivals::{Arrival, Bucket};
use figures::{Line, Side, Stream};
use network::{Draft, LineFigures};
use std::io;

/// What a network of one line tells of this line.
fn one_line(memory: &mut [Stream<Bucket>]) -> Result<LineFigures, TableFault> {
    let line = Line {
        side: Side::Inbound,
        cell_time: 2,
        propagation: 5,
        places: 8,
    };
    let mut draft = Draft::new(1, 3)?;
    draft.add_line(1, line)?;
    let mut network = draft.close(memory);
    network.set_places(1, 9)?;
    network.line_figures(1)
}

fn main(rt: HostRuntime) -> io::Result<()> {
    let mut memory: [Stream<Bucket>; 0] = [];
    match one_line(&mut memory) {
        Ok(told) => println!(rt; "line 1 {told}"),
        Err(fault) => {
            // the number alone, as this program always printed it
            let number = fault.number();
            println!(rt; "no {number}")
        }
    }
}
