//! Tests of the figures, by tables of cases worked out by hand.
//!
//! Rack and streams are its own, since it is to be read alone: a crate for them would be no plainer.
#![tactic(auto)]

#[cfg(test)]
mod tests {
    use arrivals::{Arrival, Message};
    use figures::{FigureFault, Hub, Line, Rack, Side, Stream, Table};

    fn rack() -> Rack {
        let mut lines = [None; 16];
        lines[0] = Some(Line {
            side: Side::Inbound,
            cell_time: 2,
            propagation: 5,
            places: 8,
        });
        lines[1] = Some(Line {
            side: Side::Outbound,
            cell_time: 1,
            propagation: 5,
            places: 8,
        });
        Rack {
            hub: Hub { least: 1, most: 3 },
            lines,
        }
    }

    /// A stream on line 1 to line 2 that brings one cell in each period.
    fn stream(number: u16, priority: u8, period: u32) -> Stream<Message> {
        let kind = Message {
            period,
            jitter: 0,
            cells: 1,
            gap: 1,
        };
        Stream {
            number,
            priority,
            inbound: 1,
            outbound: 2,
            deadline: 100,
            kind,
        }
    }

    /// The need of line 1, or the refusal's number and whom it names; None where there is no table.
    fn answer<'a>(
        rack: &'a Rack,
        streams: &'a [Stream<Message>],
    ) -> Option<Result<Option<u32>, (u8, u16)>> {
        let table = Table::new(rack, streams)?;
        Some(match table.figures() {
            Ok(figures) => Ok(figures.needs[0]),
            Err(fault) => Err((fault.number(), fault.party())),
        })
    }

    /// With one cell in 2 ticks line 1 is never clear; with one in 3 it is, and holds one waiting behind a dump.
    #[test]
    fn overload(rt: HostRuntime) {
        let rack = rack();
        assert_eq!(rt; answer(&rack, &[stream(5, 9, 2)]), Some(Err((29, 1))));
        assert_eq!(rt; answer(&rack, &[stream(5, 9, 3)]), Some(Ok(Some(1))));
        assert_eq!(rt;
            answer(&rack, &[stream(5, 9, 3), stream(6, 8, 3)]),
            Some(Err((27, 6)))
        );
    }

    /// What makes no table: priorities that do not fall, lines that are not there or on the wrong side.
    #[test]
    fn no_table(rt: HostRuntime) {
        let rack = rack();
        let mut turned = stream(6, 8, 30);
        turned.inbound = 2;
        turned.outbound = 1;
        let mut absent = stream(6, 8, 30);
        absent.outbound = 0;
        let mut beyond = stream(6, 8, 30);
        beyond.outbound = 17;
        assert_eq!(rt; answer(&rack, &[stream(5, 9, 30), stream(6, 9, 30)]), None);
        assert_eq!(rt; answer(&rack, &[stream(5, 8, 30), stream(6, 9, 30)]), None);
        assert_eq!(rt; answer(&rack, &[turned]), None);
        assert_eq!(rt; answer(&rack, &[absent]), None);
        assert_eq!(rt; answer(&rack, &[beyond]), None);
    }
}
