//! Tests of drafts and networks, by tables of cases worked out by hand.
//!
//! Kind, lines and streams are its own, since it is to be read alone: a crate for them would be no plainer.
#![tactic(auto)]

#[cfg(test)]
mod tests {
    use admission::TableFault;
    use arrivals::{Arrival, Bucket, Choice, KindFault, Message};
    use figures::{Line, Side, Stream};
    use network::{Draft, Network};
    use std::array;
    use std::test::Fail;

    type Kind = Choice<Message, Bucket>;

    fn line(side: Side, cell_time: u32, places: u32) -> Line {
        Line {
            side,
            cell_time,
            propagation: 5,
            places,
        }
    }

    /// The lines 1, 5 and 7 are in-bound, 2, 3 and 4 are out-bound, and the line 3 has one place only.
    fn draft() -> Option<Draft> {
        let mut draft = Draft::new(1, 3).ok()?;
        let lines = [
            (1, line(Side::Inbound, 2, 8)),
            (2, line(Side::Outbound, 1, 8)),
            (3, line(Side::Outbound, 1, 1)),
            (4, line(Side::Outbound, 1, 64)),
            (5, line(Side::Inbound, 2, 8)),
            (7, line(Side::Inbound, 1, 64)),
        ];
        for (number, line) in lines {
            draft.add_line(number, line).ok()?;
        }
        Some(draft)
    }

    /// So many cells, a gap apart, in each period.
    fn message(period: u32, cells: u32, gap: u32) -> Kind {
        Choice::First(Message {
            period,
            jitter: 0,
            cells,
            gap,
        })
    }

    fn stream(
        number: u16,
        priority: u8,
        inbound: u8,
        outbound: u8,
        deadline: u32,
        kind: Kind,
    ) -> Stream<Kind> {
        Stream {
            number,
            priority,
            inbound,
            outbound,
            deadline,
            kind,
        }
    }

    fn stream_10() -> Stream<Kind> {
        stream(10, 2, 1, 2, 18, message(20, 3, 2))
    }

    fn stream_11() -> Stream<Kind> {
        let kind = Choice::Second(Bucket {
            burst: 2,
            interval: 10,
        });
        stream(11, 1, 1, 2, 30, kind)
    }

    /// The refusal's number and whom it names.
    type Refusal = (u8, u16);

    fn refusal(fault: TableFault) -> Refusal {
        (fault.number(), fault.party())
    }

    fn told(res: Result<(), TableFault>) -> Result<(), Refusal> {
        res.map_err(refusal)
    }

    /// q1, q2 and total.
    fn of_stream(network: &Network<Kind>, number: u16) -> Result<(u32, u32, u32), Refusal> {
        match network.stream_figures(number) {
            Ok(figures) => Ok((figures.q1, figures.q2, figures.total)),
            Err(fault) => Err(refusal(fault)),
        }
    }

    /// The need and the places.
    fn of_line(network: &Network<Kind>, number: u8) -> Result<(u32, u32), Refusal> {
        match network.line_figures(number) {
            Ok(figures) => Ok((figures.need, figures.places)),
            Err(fault) => Err(refusal(fault)),
        }
    }

    /// The figures of the streams 10 and 11 and of the lines 1 and 2.
    fn is_full_plan(network: &Network<Kind>) -> bool {
        of_stream(network, 10) == Ok((1, 1, 18))
            && of_stream(network, 11) == Ok((9, 5, 30))
            && of_line(network, 1) == Ok((4, 8))
            && of_line(network, 2) == Ok((2, 8))
    }

    /// A network with the streams 10 and 11, filed in this order.
    fn full_plan(memory: &mut [Stream<Kind>]) -> Option<Network<'_, Kind>> {
        let mut network = draft()?.close(memory);
        network.request(stream_10()).ok()?;
        network.request(stream_11()).ok()?;
        Some(network)
    }

    /// How many of the streams are filed, and why the next is not.
    fn filed(
        memory: &mut [Stream<Kind>],
        streams: &[Stream<Kind>],
    ) -> Option<(usize, Result<(), Refusal>)> {
        let mut network = draft()?.close(memory);
        for (count, stream) in streams.iter().enumerate() {
            if let Err(fault) = network.request(*stream) {
                return Some((count, Err(refusal(fault))));
            }
        }
        Some((streams.len(), Ok(())))
    }

    /// The switch times of the hub.
    #[test]
    fn hubs(rt: HostRuntime) {
        let cases = [
            (0, 0, None),
            (1_000, 1_000, None),
            (0, 1_001, Some(6)),
            (2, 1, Some(6)),
            (1_001, 1_001, Some(6)),
        ];
        for (least, most, refusal) in cases {
            let answer = Draft::new(least, most).err().map(|fault| fault.number());
            assert_eq!(rt; answer, refusal);
        }
    }

    /// Line, cell time, propagation, places; the answer. The line 1 is taken.
    #[test]
    fn lines(rt: HostRuntime) -> Result<(), Fail> {
        let cases = [
            (0, 1, 0, 1, Err((6, 0))),
            (17, 1, 0, 1, Err((6, 0))),
            (9, 0, 0, 1, Err((6, 0))),
            (9, 1_001, 0, 1, Err((6, 0))),
            (9, 1, 10_001, 1, Err((6, 0))),
            (9, 1, 0, 0, Err((6, 0))),
            (9, 1, 0, 4_001, Err((6, 0))),
            (1, 0, 0, 1, Err((6, 0))),
            (1, 1, 0, 1, Err((21, 1))),
            (16, 1_000, 10_000, 4_000, Ok(())),
            (16, 1, 0, 1, Err((21, 16))),
        ];
        let Some(mut draft) = draft() else {
            return Err(Fail::new("no draft"));
        };
        for (number, cell_time, propagation, places, answer) in cases {
            let line = Line {
                side: Side::Inbound,
                cell_time,
                propagation,
                places,
            };
            assert_eq!(rt; told(draft.add_line(number, line)), answer);
        }
        Ok(())
    }

    /// Number, priority, in-bound line, out-bound line, deadline; the refusal and whom it names. The streams 10
    /// and 11 are filed with the priorities 2 and 1, and their figures stay.
    #[test]
    fn requests(rt: HostRuntime) -> Result<(), Fail> {
        let cases = [
            (0, 3, 1, 2, 99, 6, 0),
            (60_001, 3, 1, 2, 99, 6, 0),
            (12, 0, 1, 2, 99, 6, 0),
            (12, 3, 0, 2, 99, 6, 0),
            (12, 3, 17, 2, 99, 6, 0),
            (12, 3, 1, 0, 99, 6, 0),
            (12, 3, 1, 17, 99, 6, 0),
            (12, 3, 1, 2, 0, 6, 0),
            (12, 3, 1, 2, 500_001, 6, 0),
            (12, 0, 6, 2, 99, 6, 0),
            (12, 3, 6, 2, 99, 22, 6),
            (12, 3, 2, 2, 99, 22, 2),
            (12, 3, 1, 6, 99, 22, 6),
            (12, 3, 1, 1, 99, 22, 1),
            (12, 3, 16, 9, 99, 22, 16),
            (12, 3, 2, 1, 99, 22, 2),
            (10, 3, 1, 16, 99, 22, 16),
            (10, 3, 1, 2, 99, 23, 10),
            (11, 3, 1, 2, 99, 23, 11),
            (10, 1, 1, 2, 99, 23, 10),
            (12, 1, 1, 2, 99, 24, 11),
            (12, 2, 1, 2, 99, 24, 10),
            (60_000, 255, 1, 2, 500_000, 28, 10),
            (1, 3, 1, 2, 1, 28, 1),
        ];
        let mut memory = [stream_10(); 4];
        let Some(draft) = draft() else {
            return Err(Fail::new("no draft"));
        };
        let mut network = draft.close(&mut memory);
        assert_eq!(rt; told(network.request(stream_11())), Ok(()));
        assert_eq!(rt; told(network.request(stream_10())), Ok(()));
        for (number, priority, inbound, outbound, deadline, refusal, party) in cases {
            let newcomer = stream(
                number,
                priority,
                inbound,
                outbound,
                deadline,
                message(20, 3, 2),
            );
            assert_eq!(rt; told(network.request(newcomer)), Err((refusal, party)));
            assert!(rt; is_full_plan(&network));
        }
        Ok(())
    }

    /// A full table of two: 24 before 25, 25 before 27.
    #[test]
    fn full_table(rt: HostRuntime) {
        let mut memory = [stream_10(); 2];
        let taken = [
            stream_10(),
            stream_11(),
            stream(12, 1, 1, 2, 99, message(1, 1, 1)),
        ];
        assert_eq!(rt; filed(&mut memory, &taken), Some((2, Err((24, 11)))));
        let free = [
            stream_10(),
            stream_11(),
            stream(12, 3, 1, 2, 99, message(1, 1, 1)),
        ];
        assert_eq!(rt; filed(&mut memory, &free), Some((2, Err((25, 12)))));
        let mut larger = [stream_10(); 3];
        assert_eq!(rt; filed(&mut larger, &free), Some((2, Err((27, 12)))));
    }

    /// The newcomer, why it is refused, and whom the refusal names.
    #[test]
    fn alone(rt: HostRuntime) {
        let cases = [
            // more cells than line 1 carries, of itself and then at line 4
            (stream(12, 3, 1, 2, 99, message(1, 1, 1)), 27, 12),
            (stream(21, 9, 7, 4, 99, message(1, 1, 1)), 27, 21),
            // total 16
            (stream(21, 9, 7, 4, 15, message(2, 1, 1)), 28, 21),
            // line 1 is never clear, total 18: 28 before 29
            (stream(5, 9, 1, 2, 17, message(2, 1, 1)), 28, 5),
            (stream(5, 9, 1, 2, 18, message(2, 1, 1)), 29, 1),
            // line 3 needs 2, total 18: 28 before 30
            (stream(10, 2, 1, 3, 17, message(20, 3, 2)), 28, 10),
            (stream(10, 2, 1, 3, 18, message(20, 3, 2)), 30, 3),
            // line 3 needs 2, and the lines 1 and 5 are never clear: the lower line first
            (stream(5, 9, 5, 3, 18, message(2, 1, 1)), 30, 3),
            (stream(5, 9, 5, 4, 18, message(2, 1, 1)), 29, 5),
            (stream(5, 9, 1, 3, 18, message(2, 1, 1)), 29, 1),
        ];
        for (newcomer, refusal, party) in cases {
            let mut memory = [stream_10(); 4];
            let answer = filed(&mut memory, &[newcomer]);
            assert_eq!(rt; answer, Some((0, Err((refusal, party)))));
        }
    }

    /// The stream that is filed, the newcomer above it, why this one is refused, and whom the refusal names.
    #[test]
    fn together(rt: HostRuntime) {
        let cases = [
            // the newcomer stands first and has no q2, the other no q1: q1 before q2
            (
                stream(20, 5, 7, 4, 99, message(3, 1, 1)),
                stream(21, 9, 7, 4, 99, message(1, 1, 1)),
                27,
                20,
            ),
            // the newcomer stands first and has the total 16, the other has no delay: 27 before 28
            (
                stream(20, 5, 7, 4, 99, message(3, 2, 1)),
                stream(21, 9, 7, 4, 15, message(2, 1, 1)),
                27,
                20,
            ),
        ];
        for (first, newcomer, refusal, party) in cases {
            let mut memory = [stream_10(); 4];
            let answer = filed(&mut memory, &[first, newcomer]);
            assert_eq!(rt; answer, Some((1, Err((refusal, party)))));
        }
    }

    /// Newcomers beside the streams 10 and 11, refused by a figure: those keep theirs.
    #[test]
    fn newcomers(rt: HostRuntime) -> Result<(), Fail> {
        let cases = [
            (stream(12, 3, 1, 2, 99, message(1, 1, 1)), 27, 12),
            (stream(12, 3, 5, 4, 99, message(2, 1, 1)), 29, 5),
            (stream(12, 3, 5, 3, 99, message(2, 1, 1)), 30, 3),
        ];
        let mut memory = [stream_10(); 4];
        let Some(mut network) = full_plan(&mut memory) else {
            return Err(Fail::new("no full plan"));
        };
        for (newcomer, refusal, party) in cases {
            assert_eq!(rt; told(network.request(newcomer)), Err((refusal, party)));
            assert!(rt; is_full_plan(&network));
        }
        Ok(())
    }

    /// A stream's number, and the refusals of its withdrawal and of its figures.
    #[test]
    fn unknown_streams(rt: HostRuntime) -> Result<(), Fail> {
        let mut memory = [stream_10(); 4];
        let Some(mut network) = full_plan(&mut memory) else {
            return Err(Fail::new("no full plan"));
        };
        for (number, refusal, party) in [
            (0, 6, 0),
            (60_001, 6, 0),
            (1, 26, 1),
            (60_000, 26, 60_000),
        ] {
            assert_eq!(rt; told(network.withdraw(number)), Err((refusal, party)));
            assert_eq!(rt; of_stream(&network, number), Err((refusal, party)));
            assert!(rt; is_full_plan(&network));
        }
        Ok(())
    }

    /// A line, the places that it is to have, and the refusal.
    #[test]
    fn places(rt: HostRuntime) -> Result<(), Fail> {
        let cases = [
            (0, 8, 6, 0),
            (17, 8, 6, 0),
            (1, 0, 6, 0),
            (1, 4_001, 6, 0),
            (6, 0, 6, 0),
            (6, 8, 22, 6),
            (16, 8, 22, 16),
            (1, 3, 30, 1),
            (2, 1, 30, 2),
        ];
        let mut memory = [stream_10(); 4];
        let Some(mut network) = full_plan(&mut memory) else {
            return Err(Fail::new("no full plan"));
        };
        for (number, places, refusal, party) in cases {
            assert_eq!(rt;
                told(network.set_places(number, places)),
                Err((refusal, party))
            );
            assert!(rt; is_full_plan(&network));
        }
        for (number, places) in [(1, 4), (2, 2), (1, 4_000), (2, 4_000)] {
            assert_eq!(rt; told(network.set_places(number, places)), Ok(()));
            assert_eq!(rt;
                of_line(&network, number).map(|figures| figures.1),
                Ok(places)
            );
        }
        assert_eq!(rt; of_line(&network, 0), Err((6, 0)));
        assert_eq!(rt; of_line(&network, 17), Err((6, 0)));
        assert_eq!(rt; of_line(&network, 6), Err((22, 6)));
        Ok(())
    }

    /// One cell of each in a long time.
    fn many() -> [Stream<Kind>; 66] {
        // a place is below 66, so that both casts fit, which the check shows; a `try_from` would want an `unwrap`
        array::from_fn(|place| {
            let number = 1 + place as u16;
            let priority = 255 - place as u8;
            stream(number, priority, 7, 4, 500_000, message(200_000, 1, 1))
        })
    }

    /// The records of the lent memory, how many of 66 streams are filed there, and the first that is not.
    #[test]
    fn rooms(rt: HostRuntime) {
        let streams = many();
        let cases = [
            (0, 0, 1),
            (1, 1, 2),
            (63, 63, 64),
            (64, 64, 65),
            (65, 64, 65),
        ];
        for (room, fit, newcomer) in cases {
            let mut memory = [stream_10(); 65];
            assert!(rt; room <= 65);
            let answer = filed(&mut memory[0..room], &streams);
            assert_eq!(rt; answer, Some((fit, Err((25, newcomer)))));
        }
    }

    /// A stream that is withdrawn leaves its place, number and priority to another; filed again, it has its figures.
    #[test]
    fn withdrawals(rt: HostRuntime) -> Result<(), Fail> {
        let mut memory = [stream_10(); 2];
        let Some(mut network) = full_plan(&mut memory) else {
            return Err(Fail::new("no full plan"));
        };
        assert_eq!(rt; told(network.withdraw(10)), Ok(()));
        assert_eq!(rt; of_stream(&network, 10), Err((26, 10)));
        assert_eq!(rt; of_stream(&network, 11), Ok((3, 1, 20)));
        assert_eq!(rt; told(network.withdraw(10)), Err((26, 10)));
        assert_eq!(rt; told(network.request(stream_10())), Ok(()));
        assert!(rt; is_full_plan(&network));
        assert_eq!(rt; told(network.withdraw(11)), Ok(()));
        assert_eq!(rt; of_stream(&network, 10), Ok((1, 1, 18)));
        assert_eq!(rt; of_line(&network, 1), Ok((2, 8)));
        assert_eq!(rt; told(network.request(stream_11())), Ok(()));
        assert!(rt; is_full_plan(&network));
        Ok(())
    }

    /// A type that says nothing of the kind can hold a network.
    #[derive(Drop)]
    struct Held<'a, K> {
        network: Network<'a, K>,
    }

    fn handed_on<'a, K>(held: Held<'a, K>) -> Network<'a, K> {
        let Held { network } = held;
        network
    }

    #[test]
    fn networks_are_held(rt: HostRuntime) -> Result<(), Fail> {
        let mut memory = [stream_10(); 2];
        let Some(network) = full_plan(&mut memory) else {
            return Err(Fail::new("no full plan"));
        };
        assert!(rt; is_full_plan(&handed_on(Held { network })));
        Ok(())
    }

    /// The faults of a kind, as faults of the call that makes it.
    #[test]
    fn kinds(rt: HostRuntime) {
        let cases = [
            (5, 3, Some((7, 0))),
            (6, 3, None),
            (0, 3, Some((6, 0))),
            (600, 257, Some((6, 0))),
        ];
        for (period, cells, answer) in cases {
            let fault = Message::new(period, 0, cells, 2)
                .err()
                .map(TableFault::from);
            assert_eq!(rt; fault.map(refusal), answer);
        }
    }
}
