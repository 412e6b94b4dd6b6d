//! Arrival kinds that a plan file can hold.
ghost use Rattle.std.specs.Prelude.{◌≡◌, ℕ, List, length, Result};
ghost use Rattle.arrivals.specs.declared.faults.KindFault.{KindFault};
ghost use Rattle.wire.specs.Kinds.{message_of, bucket_of};

use crate::bytes::number_at;
use arrivals::{Arrival, Bucket, KindFault, Message};

pub trait Filed: Arrival + Sized {
    /// The first byte of a record of this kind.
    const CODE: u8;

    ghost CODE: { ℕ };

    /// How many bytes the kind's own fields take; the fields that every stream has stand before them and do
    /// not count.
    const LENGTH: usize;

    ghost LENGTH: { ℕ };

    /// What the kind's own bytes say.
    ghost filed: { List ℕ → Result Self KindFault };

    fn read(own: &[u8]) -> Result<Self, KindFault>
        requires { length own.now ≡ LENGTH }
        ensures { result ≡ filed own.now };
}

impl Filed for Message {
    const CODE: u8 = 3;

    ghost CODE = { 3 };

    const LENGTH: usize = 14;

    ghost LENGTH = { 14 };

    ghost filed = { message_of };

    fn read(own: &[u8]) -> Result<Message, KindFault> {
        let period = number_at(own, 0);
        let jitter = number_at(own, 4);
        let cells = u32::from(number_at::<u16, _>(own, 8));
        let gap = number_at(own, 10);
        Message::new(period, jitter, cells, gap)
    }
}

impl Filed for Bucket {
    const CODE: u8 = 4;

    ghost CODE = { 4 };

    const LENGTH: usize = 6;

    ghost LENGTH = { 6 };

    ghost filed = { bucket_of };

    fn read(own: &[u8]) -> Result<Bucket, KindFault> {
        let burst = u32::from(number_at::<u16, _>(own, 0));
        let interval = number_at(own, 2);
        Bucket::new(burst, interval)
    }
}
