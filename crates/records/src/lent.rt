//! The table of a network in lent memory, its searches, and the moves of one record into it and out of it.
ghost use Rattle.std.specs.Prelude.{◌≡◌, ◌==◌, ◌+◌, ◌-◌, ◌<◌, ◌≤◌, ◌∷◌, ◌++◌, true, length, min, take, MatchBool, drop, slice_index_or};
ghost use Rattle.std.specs.List.{insert, position, remove};
ghost use Rattle.figures.specs.Limits.{most_streams};
ghost use Rattle.figures.specs.Tables.{table_kept, Distinct};
ghost use Rattle.admission.specs.Checks.{CheckTold};
ghost use Rattle.records.specs.Lists.{place};
ghost use Rattle.records.specs.States.{if_passed};

use admission::{TableFault, check};
use arrivals::Arrival;
use figures::{MOST_STREAMS, Rack, Stream};

/// The first `len` records of the memory are the table. The caller lends the memory, since no library crate
/// here has a heap; so the length stands beside it.
#[derive(Drop)]
pub struct LentTable<'a, K> {
    memory: &'a mut [Stream<K>],
    len: usize,
    ghost inside: { len ≤ length memory.now },
}

/// The index of the stream with the number. This search and the next are functions of their own: with the chains in place
/// at their callers, which was tried, the goals there stayed open.
pub fn find_number<K>(streams: &[Stream<K>], number: u16) -> Option<usize>
    ensures { result ≡ position (λ s. s.number == number) streams.now }
{
    streams.iter().position(|stream| stream.number == number)
}

/// The index of the stream with the priority.
pub fn find_priority<K>(streams: &[Stream<K>], priority: u8) -> Option<usize>
    ensures { result ≡ position (λ s. s.priority == priority) streams.now }
{
    streams
        .iter()
        .position(|stream| stream.priority == priority)
}

/// Where a stream of the priority goes: after those that are more urgent.
pub fn place_of<K>(streams: &[Stream<K>], priority: u8) -> usize
    ensures { result ≡ place priority streams.now }
{
    streams
        .iter()
        .take_while(|stream| stream.priority > priority)
        .count()
}

impl<'a, K> LentTable<'a, K> {
    /// An empty table in this memory.
    pub fn new(memory: &'a mut [Stream<K>]) -> LentTable<'a, K>
        ensures { (result.len ≡ 0) × (result.memory.now ≡ memory.old) }
    {
        LentTable { memory, len: 0 }
    }

    pub fn streams(&self) -> &[Stream<K>]
        ensures { result.now ≡ take self.now.len self.now.memory.now }
    {
        &self.memory[..self.len]
    }

    /// Whether there is no room for one more.
    pub fn is_full(&self) -> bool
        ensures { MatchBool result (min most_streams (length self.now.memory.now) ≤ self.now.len) (self.now.len < min most_streams (length self.now.memory.now)) }
    {
        self.len >= MOST_STREAMS || self.len >= self.memory.len()
    }
}

impl<'a, K: Copy> LentTable<'a, K> {
    /// Puts the stream in at `at`: the records from there on move down by one place, over the first that is free.
    fn insert(&mut self, at: usize, stream: Stream<K>)
        requires { (at ≤ self.old.len) × (self.old.len < length self.old.memory.now) }
        ensures memory { self.new.memory.now ≡ insert (take self.old.len self.old.memory.now) at stream ++ drop (self.old.len + 1) self.old.memory.now }
        ensures len { self.new.len ≡ self.old.len + 1 }
    {
        let len = self.len;
        self.memory[len] = stream;
        self.memory[at..len + 1].rotate_right(1);
        self.len = len + 1;
    }

    /// Takes the record at `at` out: those after it move up by one place, and it comes to lie behind them.
    pub fn remove(&mut self, at: usize)
        requires { at < self.old.len }
        ensures memory { (d : Stream K) → self.new.memory.now ≡ remove (take self.old.len self.old.memory.now) at ++ slice_index_or self.old.memory.now at d ∷ drop self.old.len self.old.memory.now }
        ensures len { self.new.len ≡ self.old.len - 1 }
    {
        let len = self.len;
        self.memory[at..len].rotate_left(1);
        self.len = len - 1;
    }
}

impl<'a, K: Arrival + Copy> LentTable<'a, K> {
    /// Files the stream at `at`, and takes it out again where the table with it does not pass.
    pub fn try_file(&mut self, rack: &Rack, at: usize, stream: Stream<K>) -> Result<(), TableFault>
        requires inside { (at ≤ self.old.len) × (self.old.len < length self.old.memory.now) }
        requires kept { table_kept rack.now (insert (take self.old.len self.old.memory.now) at stream) ≡ true }
        requires distinct { Distinct (insert (take self.old.len self.old.memory.now) at stream) }
        requires sixteen { length rack.now.lines ≡ 16 }
        ensures told { CheckTold K.Arrival.alpha rack.now (insert (take self.old.len self.old.memory.now) at stream) result }
        ensures memory { self.new.memory.now ≡ if_passed result (insert (take self.old.len self.old.memory.now) at stream ++ drop (self.old.len + 1) self.old.memory.now) self.old.memory.now }
        ensures len { self.new.len ≡ if_passed result (self.old.len + 1) self.old.len }
    {
        let len = self.len;
        let spare = self.memory[len];
        self.insert(at, stream);
        let verdict = check(rack, self.streams());
        if verdict.is_err() {
            self.remove(at);
            self.memory[len] = spare;
        }
        verdict
    }
}
