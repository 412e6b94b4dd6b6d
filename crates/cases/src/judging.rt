//! Whether the planner answers a case as expected.
ghost use Rattle.std.specs.Prelude.{◌≡◌, ◌≤◌, [], length, vec_len, None, IsOk, IsSomeAnd, MatchResult};
ghost use Rattle.wire.specs.declared.faults.FileFault.TheVariants.{NoRoom};
ghost use Rattle.cases.specs.Shown.{Shown};

use crate::reading::Case;
use planfile::{NO_STREAM, list_plan};
use std::alloc::{AllocError, Global};
use std::fmt;
use wire::FileFault;

/// What the buffer holds before the call. No listing has such a byte.
const UNTOUCHED: u8 = 0xa5;

/// As much memory as can be lent: for more streams than a table may have.
const MOST_MEMORY: usize = 80;

/// How an answer differs from the expected one.
#[derive(Clone, Copy)]
pub enum Difference {
    /// Another length is told than expected.
    Length(usize),
    /// The buffer differs at this place: from the text or, behind it, from what it held before.
    Byte(usize),
    /// A listing of this length came in place of the refusal.
    NotRefused(usize),
    /// This refusal came in place of the listing, or of another one.
    Refused(u8),
}

impl fmt::Display for Difference {
    fn fmt<W: fmt::Write>(&self, f: &mut fmt::Formatter<W>) -> fmt::Result {
        match *self {
            Difference::Length(n) => write!(f, "the length {n} is told"),
            Difference::Byte(place) => write!(f, "the buffer differs at {place}"),
            Difference::NotRefused(n) => write!(f, "not refused, the length {n} is told"),
            Difference::Refused(number) => write!(f, "refused by {number}"),
        }
    }
}

/// Compares the buffer with the text and untouched bytes behind it.
fn compare(out: &[u8], text: &[u8]) -> Result<(), Difference>
    ensures { IsOk result → Shown out.now text.now }
{
    for (place, byte) in out.iter().enumerate() {
        let expected = text.get(place).copied().unwrap_or(UNTOUCHED);
        if *byte != expected {
            return Err(Difference::Byte(place));
        }
    }
    Ok(())
}

/// Weighs what the call told and left in the buffer.
fn weigh(
    told: Result<usize, FileFault>,
    out: &[u8],
    listing: &Option<Vec<u8>>,
) -> Result<(), Difference>
    ensures { IsOk result → MatchResult told (λ n. IsSomeAnd listing.now (λ text. (n ≡ vec_len text) × (n ≤ length out.now) × Shown out.now text.items)) (λ e. (listing.now ≡ None) × (e ≡ NoRoom) × Shown out.now []) }
{
    match (told, listing) {
        (Ok(n), Some(text)) if n != text.len() || n > out.len() => Err(Difference::Length(n)),
        (Ok(_), Some(text)) => compare(out, text),
        (Ok(n), None) => Err(Difference::NotRefused(n)),
        (Err(FileFault::NoRoom), None) => compare(out, &[]),
        (Err(fault), _) => Err(Difference::Refused(fault.number())),
    }
}

pub fn judge(heap: Global, case: &Case) -> Result<Result<(), Difference>, AllocError> {
    let mut memory = [NO_STREAM; MOST_MEMORY];
    let lent = case.memory.min(MOST_MEMORY);
    let mut out = vec![in heap; UNTOUCHED; case.room]?;
    let told = list_plan(&case.file, &mut memory[0..lent], &mut out);
    Ok(weigh(told, &out, &case.listing))
}
