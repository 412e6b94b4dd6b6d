//! One of two kinds, so that one table carries both.
ghost use Rattle.std.specs.Prelude.{ℕ, ◌≤◌, min};
ghost use Rattle.arrivals.specs.Limits.{longest, most};
ghost use Rattle.arrivals.specs.Choices.{chosen};
ghost use Rattle.arrivals.specs.declared.choices.Choice.TheVariants.{First, Second};
ghost use Rattle.std.proofs.Common.{rules};

use crate::arrivals::Arrival;

#[derive(Clone, Copy, PartialEq, Eq, Debug)]
pub enum Choice<A, B> {
    First(A),
    Second(B),
}

impl<A: Arrival, B: Arrival> Arrival for Choice<A, B> {
    ghost alpha = { chosen A.Arrival.alpha B.Arrival.alpha };

    ghost none = { Prim.search rules };

    ghost some = { Prim.search rules };

    ghost rises = { elim [
      | First a ↦ λ v w h long. A.Arrival.rises a v w h long
      | Second b ↦ λ v w h long. B.Arrival.rises b v w h long
    ] };

    ghost small = { Prim.search rules };

    fn count(&self, window: u32) -> u32 {
        match self {
            Choice::First(kind) => kind.count(window),
            Choice::Second(kind) => kind.count(window),
        }
    }
}
