//! The entries of a listing while it grows.
use arrayvec::ArrayVec;
use listing::Entry;

mod notes;

/// A file has at most 8,000 bytes, and a record that is carried out or refused takes at least five of them, so
/// there are at most 1,599; the figures of 64 streams and 16 lines may follow.
const MOST_ENTRIES: usize = 1_679;

#[derive(Drop)]
pub struct Journal {
    entries: ArrayVec<Entry, MOST_ENTRIES>,
}
