//! A message: so many cells, a gap apart, again in each period, each period's late by at most the jitter.
ghost use Rattle.std.specs.Prelude.{◌≡◌, ℕ, ◌≤◌, min};
ghost use Rattle.arrivals.specs.Limits.{longest, most};
ghost use Rattle.arrivals.specs.Messages.{Kept, made, meaning, message_alpha};
ghost use Rattle.arrivals.specs.MessageLaws;
ghost use Rattle.std.proofs.Common.{rules};

use crate::arrivals::{Arrival, LONGEST_WINDOW};
use crate::faults::KindFault;

/// Plain numbers: any that break the limits mean the message of one cell in each tick.
#[derive(Clone, Copy, PartialEq, Eq, Debug)]
pub struct Message {
    pub period: u32,
    pub jitter: u32,
    pub cells: u32,
    pub gap: u32,
}

impl Message {
    pub const LONGEST_PERIOD: u32 = 200_000;

    pub const LARGEST_JITTER: u32 = 100_000;

    pub const MOST_CELLS: u32 = 256;

    pub const LONGEST_GAP: u32 = 200_000;

    pub fn new(period: u32, jitter: u32, cells: u32, gap: u32) -> Result<Message, KindFault>
        ensures { result ≡ made period jitter cells gap }
    {
        if !(1..=Message::LONGEST_PERIOD).contains(&period)
            || jitter > Message::LARGEST_JITTER
            || !(1..=Message::MOST_CELLS).contains(&cells)
            || !(1..=Message::LONGEST_GAP).contains(&gap)
        {
            return Err(KindFault::OutsideLimits);
        }
        if cells * gap > period {
            return Err(KindFault::Overfull);
        }
        Ok(Message {
            period,
            jitter,
            cells,
            gap,
        })
    }

    /// The message that these numbers mean: themselves where they keep the limits.
    fn meant(&self) -> Message
        ensures value { result ≡ meaning self.now }
        ensures kept { Kept result }
    {
        Message::new(self.period, self.jitter, self.cells, self.gap).unwrap_or(Message {
            period: 1,
            jitter: 0,
            cells: 1,
            gap: 1,
        })
    }
}

impl Arrival for Message {
    ghost alpha = { message_alpha };

    ghost none = { Prim.search rules };

    ghost some = { λ k. MessageLaws.some k };

    ghost rises = { λ k v w h _. MessageLaws.rises k v w h };

    ghost small = { λ k w h. MessageLaws.small k w h };

    fn count(&self, window: u32) -> u32 {
        let w = window.min(LONGEST_WINDOW);
        if w == 0 {
            return 0;
        }
        let m = self.meant();
        let x = w + m.jitter;
        let begun = (x % m.period).div_ceil(m.gap);
        x / m.period * m.cells + m.cells.min(begun)
    }
}
