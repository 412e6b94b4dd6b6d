//! A kind as it is seen further on, where its cells come late by different times.
ghost use Rattle.std.specs.Prelude.{◌≡◌, ℕ, ◌+◌, ◌≤◌, min};
ghost use Rattle.arrivals.specs.Limits.{longest, most};
ghost use Rattle.arrivals.specs.Delays.{delayed};
ghost use Rattle.std.proofs.Common.{arith, rules};
ghost use Rattle.arrivals.specs.Quotients.{windowed_rises};

use crate::arrivals::Arrival;

/// What arrives by `kind`, each cell late by at most `by` ticks.
#[derive(Clone, Copy, PartialEq, Eq, Debug)]
pub struct Delayed<K> {
    pub kind: K,
    pub by: u32,
}

/// The bound at `window` of a kind that is late by at most `by` ticks.
pub fn delayed_count<K: Arrival>(kind: &K, by: u32, window: u32) -> u32
    ensures { result ≡ delayed (K.Arrival.alpha kind.now) by (min window longest) }
{
    if window == 0 {
        return 0;
    }
    // the kind itself answers for its longest window beyond that
    kind.count(window.saturating_add(by))
}

impl<K: Arrival> Arrival for Delayed<K> {
    ghost alpha = { λ d. delayed (K.Arrival.alpha d.kind) d.by };

    ghost none = { Prim.search rules };

    ghost some = { λ k.
        let m = K.Arrival in
        omega (arith, m.some k.kind, m.rises k.kind 1 (min (1 + k.by) longest) (omega arith) (omega arith)) };

    ghost rises = { λ k v w h long.
        windowed_rises _ _ v w h
        (K.Arrival.rises k.kind (min (v + k.by) longest) (min (w + k.by) longest) (omega arith) (omega arith)) };

    ghost small = { Prim.search rules };

    fn count(&self, window: u32) -> u32 {
        delayed_count(&self.kind, self.by, window)
    }
}
