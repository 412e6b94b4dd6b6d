//! The trait of an arrival kind.
ghost use Rattle.std.specs.Prelude.{◌≡◌, ℕ, ◌≤◌, min};
ghost use Rattle.arrivals.specs.Limits.{longest, most};

/// The longest window, in ticks, that a kind tells its own bound for.
pub const LONGEST_WINDOW: u32 = 1_000_000;

pub trait Arrival {
    /// The arrival bound: the most cells that may be queued in any `w` successive ticks.
    ghost alpha: { Self → ℕ → ℕ };

    /// The bound at `window`, or at the longest window where that is shorter.
    fn count(&self, window: u32) -> u32
        ensures { result ≡ alpha self.now (min window longest) };

    ghost none: { (k : Self) → alpha k 0 ≡ 0 };

    ghost some: { (k : Self) → 1 ≤ alpha k 1 };

    ghost rises: { (k : Self) (v w : ℕ) → v ≤ w → w ≤ longest → alpha k v ≤ alpha k w };

    ghost small: { (k : Self) (w : ℕ) → w ≤ longest → alpha k w ≤ most };
}
