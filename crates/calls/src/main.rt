//! Carries out calls on a network of two lines, and prints each answer and the figures after it.
//!
//! Kind, lines and streams are its own, since it is to be read alone: a crate for them would be no plainer.
#![tactic(auto)]

use admission::TableFault;
use arrivals::{Arrival, Bucket, Choice, Message};
use figures::{Line, MOST_STREAMS, Side, Stream};
use network::{Answer, Call, Draft, Network, Told, carry_out};
use std::io;

type Kind = Choice<Message, Bucket>;

fn line(side: Side, cell_time: u32) -> Line {
    Line {
        side,
        cell_time,
        propagation: 5,
        places: 8,
    }
}

fn draft() -> Result<Draft, TableFault> {
    let mut draft = Draft::new(1, 3)?;
    draft.add_line(1, line(Side::Inbound, 2))?;
    draft.add_line(2, line(Side::Outbound, 1))?;
    Ok(draft)
}

fn stream_10(deadline: u32) -> Stream<Kind> {
    Stream {
        number: 10,
        priority: 2,
        inbound: 1,
        outbound: 2,
        deadline,
        kind: Choice::First(Message {
            period: 20,
            jitter: 0,
            cells: 3,
            gap: 2,
        }),
    }
}

fn stream_11(deadline: u32) -> Stream<Kind> {
    Stream {
        number: 11,
        priority: 1,
        inbound: 1,
        outbound: 2,
        deadline,
        kind: Choice::Second(Bucket {
            burst: 2,
            interval: 10,
        }),
    }
}

fn print_answer(rt: &impl Print, answer: &Answer) -> io::Result<()> {
    match answer {
        Ok(told) => println!(rt; "{told}"),
        Err(fault) => println!(rt; "{fault}"),
    }
}

/// The figures of the streams that are in, and of both lines.
fn print_figures(rt: &impl Print, network: &Network<Kind>) -> io::Result<()> {
    for number in 10..=11u16 {
        if let Ok(told) = network.stream_figures(number) {
            println!(rt; "    stream {number} {told}")?;
        }
    }
    for number in 1..=2u8 {
        if let Ok(told) = network.line_figures(number) {
            println!(rt; "    line {number} {told}")?;
        }
    }
    Ok(())
}

/// One call after the other, each with its answer and the figures after it.
fn one_by_one(rt: &impl Print, draft: Draft) -> io::Result<()> {
    let calls = [
        Call::Request(stream_10(18)),
        Call::Request(stream_11(30)),
        Call::Withdraw(10),
        Call::Request(stream_10(17)),
        Call::Request(stream_10(18)),
        Call::Withdraw(11),
        Call::Request(stream_11(29)),
        Call::SetPlaces(1, 3),
        Call::Request(stream_11(30)),
        Call::Withdraw(10),
        Call::SetPlaces(2, 1),
        Call::Request(stream_10(18)),
    ];
    let mut memory = [stream_10(18); MOST_STREAMS];
    let mut network = draft.close(&mut memory);
    for call in &calls {
        print!(rt; "{call}: ")?;
        let answer = network.carry(call);
        print_answer(rt, &answer)?;
        print_figures(rt, &network)?;
    }
    Ok(())
}

/// A list of calls at once, then the answers and the figures of the network that is left.
fn at_once(rt: &impl Print, draft: Draft) -> io::Result<()> {
    let calls = [
        Call::Request(stream_11(30)),
        Call::OfStream(11),
        Call::Request(stream_10(18)),
        Call::OfStream(11),
        Call::SetPlaces(1, 3),
        Call::OfLine(1),
        Call::Withdraw(12),
    ];
    let mut answers = [Ok(Told::Done); 7];
    let mut memory = [stream_10(18); MOST_STREAMS];
    let network = carry_out(draft, &mut memory, &calls, &mut answers);
    for (call, answer) in calls.iter().zip(&answers) {
        print!(rt; "{call}: ")?;
        print_answer(rt, answer)?;
    }
    print_figures(rt, &network)
}

fn main(rt: HostRuntime) -> io::Result<()> {
    if let Ok(draft) = draft() {
        one_by_one(&rt, draft)?;
    }
    if let Ok(draft) = draft() {
        at_once(&rt, draft)?;
    }
    Ok(())
}
