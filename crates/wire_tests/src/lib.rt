//! Tests of the plan file's records, by bytes written out by hand.
#![tactic(auto)]

#[cfg(test)]
mod tests {
    use arrivals::{Choice, Message};
    use figures::{Line, Side, Stream};
    use std::test::Fail;
    use wire::{FileFault, Placed, Record, Shape, Walker, open};

    /// A record at the place 1.
    fn record(bytes: &[u8]) -> Placed<'_> {
        Placed { at: 1, bytes }
    }

    /// The number of the refusal, if it is refused.
    fn refusal(bytes: &[u8]) -> Option<u8> {
        record(bytes).read().err().map(|fault| fault.number())
    }

    #[test]
    fn lengths_and_codes(rt: HostRuntime) -> Result<(), Fail> {
        assert_eq!(rt; refusal(&[]), Some(4));
        assert_eq!(rt; refusal(&[0, 0, 1]), Some(4));
        assert_eq!(rt; refusal(&[7, 0, 1]), Some(4));
        assert_eq!(rt; refusal(&[5, 0]), Some(4));
        assert_eq!(rt; refusal(&[5, 0, 1]), None);
        assert_eq!(rt; refusal(&[5, 0, 1, 0]), Some(4));
        assert_eq!(rt; record(&[6, 1, 0, 9]).shape()?, Shape::Places);
        Ok(())
    }

    #[test]
    fn hub_and_lines(rt: HostRuntime) -> Result<(), Fail> {
        assert_eq!(rt;
            record(&[1, 0, 1, 1, 3]).read()?,
            Record::Hub {
                least: 1,
                most: 259
            }
        );
        let line = Line {
            side: Side::Outbound,
            cell_time: 770,
            propagation: 260,
            places: 517,
        };
        assert_eq!(rt;
            record(&[2, 9, 1, 3, 2, 1, 4, 2, 5]).read()?,
            Record::Line { number: 9, line }
        );
        assert_eq!(rt; refusal(&[2, 9, 2, 3, 2, 1, 4, 2, 5]), Some(6));
        Ok(())
    }

    #[test]
    fn streams(rt: HostRuntime) -> Result<(), Fail> {
        let message = [
            3, 1, 2, 5, 1, 2, 0, 0, 1, 4, 0, 0, 0, 20, 0, 0, 1, 0, 0, 3, 0, 0, 0, 2,
        ];
        let stream = Stream {
            number: 258,
            priority: 5,
            inbound: 1,
            outbound: 2,
            deadline: 260,
            kind: Choice::First(Message {
                period: 20,
                jitter: 256,
                cells: 3,
                gap: 2,
            }),
        };
        assert_eq!(rt; record(&message).read()?, Record::Stream(stream));
        Ok(())
    }

    #[test]
    fn limits_come_before_the_period(rt: HostRuntime) {
        let mut message = [
            3, 1, 2, 5, 1, 2, 0, 0, 1, 4, 0, 0, 0, 20, 0, 0, 1, 0, 0, 3, 0, 0, 0, 7,
        ];
        assert_eq!(rt; refusal(&message), Some(7));
        message[4] = 17;
        assert_eq!(rt; refusal(&message), Some(6));
    }

    #[test]
    fn walks(rt: HostRuntime) -> Result<(), Fail> {
        let file = [1, 0, 5, 1, 0, 1, 0, 3, 0, 3, 5, 0, 10, 0];
        let mut walker = Walker::new(open(&file)?);
        let hub = Placed {
            at: 1,
            bytes: &[1, 0, 1, 0, 3],
        };
        assert_eq!(rt; walker.next()?, Some(hub));
        let withdrawal = Placed {
            at: 8,
            bytes: &[5, 0, 10],
        };
        assert_eq!(rt; walker.next()?, Some(withdrawal));
        assert_eq!(rt; walker.next(), Err(FileFault::CutShort(13)));
        Ok(())
    }
}
