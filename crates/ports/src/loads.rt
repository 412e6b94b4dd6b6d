//! What comes to a port in a window of ticks.
ghost use Rattle.std.specs.Prelude.{◌≡◌, ℕ, min};
ghost use Rattle.arrivals.specs.Limits.{longest};
ghost use Rattle.ports.specs.Loads.{Rising};

pub trait Load {
    /// The most cells that come in any `w` successive ticks.
    ghost load: { Self → ℕ → ℕ };

    /// The load at `window`, or at the longest window where that is shorter.
    fn at(&self, window: u32) -> u32
        ensures { result ≡ load self.now (min window longest) };
}

/// A load that never falls as the window grows, whatever its value.
pub trait RisingLoad: Load {
    ghost rises: { (l : Self) → Rising (Self.load l) };
}

impl<L: Load> Load for &L {
    ghost load = { λ l. L.Load.load l.now };

    fn at(&self, window: u32) -> u32 {
        (**self).at(window)
    }
}

impl<L: RisingLoad> RisingLoad for &L {
    ghost rises = { λ l. L.RisingLoad.rises l.now };
}
