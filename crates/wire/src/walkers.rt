//! A plan file's records, one after the other, each with its byte place.
ghost use Rattle.std.specs.Prelude.{◌≡◌, ℕ, ◌+◌, ◌^◌, ◌<◌, ◌≤◌, length, MatchOption, MatchResult};
ghost use Rattle.wire.specs.Walks.{Ended, Met, CutOff, WalkJoins};

use crate::bytes::BigEndian;
use crate::faults::FileFault;

/// The bytes of a record, and the place of its first length byte.
#[derive(Clone, Copy, PartialEq, Eq, Debug)]
pub struct Placed<'a> {
    pub at: usize,
    pub bytes: &'a [u8],
}

/// What is left of the file, and its place.
#[derive(Clone, Copy)]
pub struct Walker<'a> {
    rest: &'a [u8],
    at: usize,
    ghost fits: { at + length rest.now < 2 ^ 64 },
}

impl<'a> Walker<'a> {
    /// At the first record of a file, with what follows its version byte.
    pub fn new(rest: &'a [u8]) -> Walker<'a>
        ensures at { result.at ≡ 1 }
        ensures rest { result.rest.now ≡ rest.now }
    {
        Walker { rest, at: 1 }
    }

    /// The next record, or none at the file's end. No `Iterator`: at a record that is cut short it stays, so its items
    /// would have no end, no `for` could take it, and each `while let` over it would need a `transpose()` more.
    pub fn next(&mut self) -> Result<Option<Placed<'a>>, FileFault>
        ensures { MatchResult result (λ o. MatchOption o (Ended self.old.at self.old.rest.now self.new.at self.new.rest.now) (λ p. Met self.old.at self.old.rest.now p.at p.bytes.now self.new.at self.new.rest.now)) (λ e. CutOff self.old.at self.old.rest.now e self.new.at self.new.rest.now) }
    {
        let at = self.at;
        match self.rest {
            [] => Ok(None),
            [_] => Err(FileFault::CutShort(at)),
            [high, low, rest @ ..] => {
                let n = usize::from(u16::from_bytes(&[*high, *low]));
                let (bytes, rest) = rest.split_at_checked(n).ok_or(FileFault::CutShort(at))?;
                self.rest = rest;
                self.at = at + 2 + n;
                Ok(Some(Placed { at, bytes }))
            }
        }
    }
}

/// The records of a file, joined again, are the file, and no two lists of records are one file.
pub fn walks_join()
    ensures { WalkJoins }
{}
