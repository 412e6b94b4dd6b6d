//! A leaky bucket: a burst at once, and one cell more after each interval.
ghost use Rattle.std.specs.Prelude.{◌≡◌, ℕ, ◌≤◌, min};
ghost use Rattle.arrivals.specs.Limits.{longest, most};
ghost use Rattle.arrivals.specs.Buckets.{Kept, made, meaning, bucket_alpha};
ghost use Rattle.arrivals.specs.BucketLaws;
ghost use Rattle.std.proofs.Common.{rules};

use crate::arrivals::{Arrival, LONGEST_WINDOW};
use crate::faults::KindFault;

/// Plain numbers: any that break the limits mean the bucket of one cell in each tick.
#[derive(Clone, Copy, PartialEq, Eq, Debug)]
pub struct Bucket {
    pub burst: u32,
    pub interval: u32,
}

impl Bucket {
    pub const LARGEST_BURST: u32 = 4_096;

    pub const LONGEST_INTERVAL: u32 = 200_000;

    pub fn new(burst: u32, interval: u32) -> Result<Bucket, KindFault>
        ensures { result ≡ made burst interval }
    {
        if (1..=Bucket::LARGEST_BURST).contains(&burst)
            && (1..=Bucket::LONGEST_INTERVAL).contains(&interval)
        {
            Ok(Bucket { burst, interval })
        } else {
            Err(KindFault::OutsideLimits)
        }
    }

    /// The bucket that these numbers mean: themselves where they keep the limits.
    fn meant(&self) -> Bucket
        ensures value { result ≡ meaning self.now }
        ensures kept { Kept result }
    {
        Bucket::new(self.burst, self.interval).unwrap_or(Bucket {
            burst: 1,
            interval: 1,
        })
    }
}

impl Arrival for Bucket {
    ghost alpha = { bucket_alpha };

    ghost none = { Prim.search rules };

    ghost some = { Prim.search rules };

    ghost rises = { λ k v w h _. BucketLaws.rises k v w h };

    ghost small = { Prim.search rules };

    fn count(&self, window: u32) -> u32 {
        let w = window.min(LONGEST_WINDOW);
        if w == 0 {
            return 0;
        }
        let b = self.meant();
        b.burst + (w - 1) / b.interval
    }
}
