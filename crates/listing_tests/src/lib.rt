//! Tests of the listing: the lines of a worked plan, and buffers that are just long enough and a byte too short.
#![tactic(auto)]

#[cfg(test)]
mod tests {
    use listing::{Entry, NoRoom, room, write_listing};

    const LONG: usize = 139;

    const SHORT: usize = 138;

    static PLAN: [Entry; 9] = [
        Entry::Done { at: 1 },
        Entry::Done { at: 8 },
        Entry::Done { at: 19 },
        Entry::Done { at: 30 },
        Entry::Done { at: 56 },
        Entry::Stream {
            number: 10,
            q1: 1,
            q2: 1,
            total: 18,
        },
        Entry::Stream {
            number: 11,
            q1: 9,
            q2: 5,
            total: 30,
        },
        Entry::Line {
            number: 1,
            need: 4,
            places: 8,
        },
        Entry::Line {
            number: 2,
            need: 2,
            places: 8,
        },
    ];

    static TEXT: &[u8] = b"at 1 ok\n\
        at 8 ok\n\
        at 19 ok\n\
        at 30 ok\n\
        at 56 ok\n\
        stream 10 q1 1 q2 1 total 18\n\
        stream 11 q1 9 q2 5 total 30\n\
        line 1 need 4 of 8\n\
        line 2 need 2 of 8\n";

    #[test]
    fn just_long_enough(rt: HostRuntime) {
        let mut out = [b'-'; LONG];
        assert_eq!(rt; room(&PLAN), LONG);
        assert_eq!(rt; write_listing(&PLAN, &mut out), Ok(LONG));
        assert_eq!(rt; &out[0..], TEXT);
    }

    #[test]
    fn one_byte_short(rt: HostRuntime) {
        let mut out = [b'-'; SHORT];
        assert_eq!(rt; write_listing(&PLAN, &mut out), Err(NoRoom));
        assert_eq!(rt; out, [b'-'; SHORT]);
    }

    /// The lines of refusals, with large numbers too; what lies behind the text stays.
    #[test]
    fn refusals(rt: HostRuntime) {
        let entries = [
            Entry::Refused {
                at: 19,
                number: 28,
                party: 10,
            },
            Entry::Refused {
                at: 4_294_967_295,
                number: 255,
                party: 65_535,
            },
            Entry::Stopped { at: 100, number: 3 },
        ];
        let mut out = [b'-'; 60];
        assert_eq!(rt; write_listing(&entries, &mut out), Ok(53));
        assert_eq!(rt;
            &out[0..],
            b"at 19 no 28 10\nat 4294967295 no 255 65535\nstop 100 3\n-------".as_slice()
        );
    }
}
