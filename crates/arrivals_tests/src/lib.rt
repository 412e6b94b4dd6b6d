//! Tests of the arrival kinds, by tables of hand-made cases.
#![tactic(auto)]

#[cfg(test)]
mod tests {
    use arrivals::{Arrival, Bucket, Choice, Delayed, KindFault, Message};

    /// The number of the refusal; None where the kind is accepted.
    fn refusal<K: Drop>(made: Result<K, KindFault>) -> Option<u8> {
        made.err().map(|fault| fault.number())
    }

    /// Period, jitter, cells, gap, and the refusal: each limit at its edge and one past it.
    #[test]
    fn messages_at_their_limits(rt: HostRuntime) {
        let cases = [
            (6, 0, 3, 2, None),
            (5, 0, 3, 2, Some(7)),
            (0, 0, 1, 1, Some(6)),
            (1, 0, 1, 1, None),
            (200_000, 0, 1, 1, None),
            (200_001, 0, 1, 1, Some(6)),
            (1, 100_000, 1, 1, None),
            (1, 100_001, 1, 1, Some(6)),
            (256, 0, 0, 1, Some(6)),
            (256, 0, 256, 1, None),
            (257, 0, 257, 1, Some(6)),
            (200_000, 0, 1, 0, Some(6)),
            (200_000, 0, 1, 200_000, None),
            (200_000, 0, 1, 200_001, Some(6)),
            (
                4_294_967_295,
                4_294_967_295,
                4_294_967_295,
                4_294_967_295,
                Some(6),
            ),
            (2, 0, 3, 0, Some(6)),
        ];
        for (period, jitter, cells, gap, expected) in cases {
            assert_eq!(rt; refusal(Message::new(period, jitter, cells, gap)), expected);
        }
    }

    /// Burst, interval, and the refusal.
    #[test]
    fn buckets_at_their_limits(rt: HostRuntime) {
        let cases = [
            (0, 1, Some(6)),
            (1, 1, None),
            (4_096, 1, None),
            (4_097, 1, Some(6)),
            (1, 0, Some(6)),
            (1, 200_000, None),
            (1, 200_001, Some(6)),
        ];
        for (burst, interval, expected) in cases {
            assert_eq!(rt; refusal(Bucket::new(burst, interval)), expected);
        }
    }

    /// A window, and the counts of a message, a bucket, and the bucket delayed by 15.
    #[test]
    fn counts_by_hand(rt: HostRuntime) {
        let message = Message {
            period: 20,
            jitter: 7,
            cells: 3,
            gap: 4,
        };
        let bucket = Bucket {
            burst: 2,
            interval: 10,
        };
        let late = Delayed {
            kind: bucket,
            by: 15,
        };
        let cases = [
            (0, 0, 0, 0),
            (1, 2, 2, 3),
            (5, 3, 2, 3),
            (12, 3, 3, 4),
            (13, 3, 3, 4),
            (14, 4, 3, 4),
            (1_000_000, 150_002, 100_001, 100_001),
            (4_294_967_295, 150_002, 100_001, 100_001),
        ];
        for (window, of_message, of_bucket, of_late) in cases {
            assert_eq!(rt; message.count(window), of_message);
            assert_eq!(rt; bucket.count(window), of_bucket);
            assert_eq!(rt; late.count(window), of_late);
        }
    }

    /// Numbers that break their limits mean one cell in each tick.
    #[test]
    fn broken_numbers_have_a_meaning(rt: HostRuntime) {
        let message = Message {
            period: 5,
            jitter: 0,
            cells: 3,
            gap: 2,
        };
        let bucket = Bucket {
            burst: 0,
            interval: 0,
        };
        let either: [Choice<Message, Bucket>; 2] = [Choice::First(message), Choice::Second(bucket)];
        for window in [0, 1, 9, 1_000_000] {
            assert_eq!(rt; message.count(window), window);
            assert_eq!(rt; bucket.count(window), window);
            for kind in &either {
                assert_eq!(rt; kind.count(window), window);
            }
        }
    }
}
