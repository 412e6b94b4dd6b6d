//! The delays of a table's streams at their two ports.
ghost use Rattle.std.specs.Prelude.{ℕ, ◌≤◌, slice_index};
ghost use Rattle.ports.specs.Limits.{horizon};

use crate::traffic::MOST_STREAMS;

/// q1 and q2 of the stream at each place of the table. They are lists by place and not fields of the streams, since the
/// streams' memory is the caller's, and two lists, since the definitions name the two.
#[derive(Clone, Copy)]
pub struct Delays {
    pub q1: [u32; MOST_STREAMS],
    pub q2: [u32; MOST_STREAMS],
    ghost near: { (i : ℕ) → slice_index q1 i ≤ horizon },
    ghost near_too: { (i : ℕ) → slice_index q2 i ≤ horizon },
}

/// The figures of one stream.
#[derive(Clone, Copy, PartialEq, Eq, Debug)]
pub struct StreamFigures {
    pub q1: u32,
    pub q2: u32,
    pub total: u32,
}

/// All figures of a table; the need of the line n stands at the place n - 1.
#[derive(Clone, Copy)]
pub struct Figures {
    pub delays: Delays,
    pub needs: [Option<u32>; 16],
}
