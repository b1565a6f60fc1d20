//! The data for tables that a builder keeps besides its patterns, so that it makes the tables without visiting all
//! patterns.
ghost use Rattle.std.specs.Prelude.{◌≡◌, ◌<◌, ◌≤◌, ◌++◌, ◌∷◌, [], ℕ, Bool, List, length, slice_index};
ghost use Rattle.literal_base.specs.Occurs.{NoneIsEmpty};
ghost use Rattle.literal_prefilters.specs.Inside.Running.{AreSame, IsRunning, IsRunningRare, IsRunningStart};
ghost use Rattle.literal_prefilters.specs.Tables.{start_table, rare_table};

use super::ByteTable;
use super::counted_set::CountedSet;
use super::tables::{LONGEST, add_rarest, add_start, bytes_of, raise_all};
use literal_packed::pattern::Patterns;

/// The data for the tables of the patterns so far.
#[derive(Drop)]
pub(super) struct Running {
    start: RunningStart,
    rare: RunningRare,
}

impl Running {
    /// The data for no pattern.
    pub(super) fn new() -> Running
        ensures { (ignore_case : Bool) → IsRunning ignore_case [] result }
    {
        Running {
            start: RunningStart::new(),
            rare: RunningRare::new(),
        }
    }

    /// The data for all patterns of a list.
    pub(super) fn of(patterns: &Patterns, ignore_case: bool) -> Running
        ensures running { IsRunning ignore_case patterns.now.patterns result }
        ensures not_empty { NoneIsEmpty patterns.now.patterns }
    {
        let mut running = Running::new();
        for id in 0..patterns.len() {
            running.push(bytes_of(patterns, id), ignore_case);
        }
        running
    }

    /// Includes one more pattern.
    pub(super) fn push(&mut self, pattern: &[u8], ignore_case: bool)
        requires { 0 < length pattern.now }
        ensures { (patterns : List (List ℕ)) → IsRunning ignore_case patterns self.old
            → IsRunning ignore_case (patterns ++ pattern.now ∷ []) self.new }
    {
        self.start.add(pattern, ignore_case);
        self.rare.add(pattern, ignore_case);
    }

    /// The start table of the patterns.
    pub(super) fn start_table(&self) -> Option<ByteTable>
        ensures { (ignore_case : Bool) (patterns : List (List ℕ)) → IsRunning ignore_case patterns self.now
            → result ≡ start_table ignore_case patterns }
    {
        ByteTable::of_start_bytes(&self.start.set)
    }

    /// The rare table of the patterns.
    pub(super) fn rare_table(&self) -> Option<ByteTable>
        requires { (b : ℕ) → slice_index self.now.rare.offsets b ≤ 254 }
        ensures { (ignore_case : Bool) (patterns : List (List ℕ)) → IsRunning ignore_case patterns self.now
            → result ≡ rare_table ignore_case patterns }
    {
        self.rare.table()
    }
}

/// The patterns determine these data. So if a builder is refused memory and keeps the patterns that it had, its data
/// are as before too.
pub(super) fn patterns_determine_what_is_kept()
    ensures { (ignore_case : Bool) (patterns : List (List ℕ)) (a b : Running)
        → IsRunning ignore_case patterns a
        → IsRunning ignore_case patterns b
        → AreSame a b }
{}

/// The first bytes of patterns. Once there are too many for a table, no more are added.
#[derive(Drop)]
struct RunningStart {
    set: CountedSet,
}

impl RunningStart {
    fn new() -> RunningStart
        ensures { (ignore_case : Bool) → IsRunningStart ignore_case [] result }
    {
        RunningStart {
            set: CountedSet::empty(),
        }
    }

    fn add(&mut self, pattern: &[u8], ignore_case: bool)
        requires { 0 < length pattern.now }
        ensures { (patterns : List (List ℕ)) → IsRunningStart ignore_case patterns self.old
            → IsRunningStart ignore_case (patterns ++ pattern.now ∷ []) self.new }
    {
        if !self.set.is_past_a_table() {
            add_start(&mut self.set, pattern, ignore_case);
        }
    }
}

/// A rare byte of each pattern, and the largest offset of each byte in a pattern. Once these bytes are too many for a
/// table, or a pattern is too long for one, this is no longer updated.
#[derive(Drop)]
struct RunningRare {
    set: CountedSet,
    offsets: [u8; 256],
    has_long: bool,
}

impl RunningRare {
    fn new() -> RunningRare
        ensures { (ignore_case : Bool) → IsRunningRare ignore_case [] result }
    {
        RunningRare {
            set: CountedSet::empty(),
            offsets: [0; 256],
            has_long: false,
        }
    }

    fn add(&mut self, pattern: &[u8], ignore_case: bool)
        requires { 0 < length pattern.now }
        ensures { (patterns : List (List ℕ)) → IsRunningRare ignore_case patterns self.old
            → IsRunningRare ignore_case (patterns ++ pattern.now ∷ []) self.new }
    {
        if pattern.len() > LONGEST {
            self.has_long = true;
        } else if !self.has_long && !self.set.is_past_a_table() {
            add_rarest(&mut self.set, pattern, ignore_case);
            raise_all(&mut self.offsets, pattern, ignore_case);
        }
    }

    fn table(&self) -> Option<ByteTable>
        requires { (b : ℕ) → slice_index self.now.offsets b ≤ 254 }
        ensures { (ignore_case : Bool) (patterns : List (List ℕ)) → IsRunningRare ignore_case patterns self.now
            → result ≡ rare_table ignore_case patterns }
    {
        if self.has_long {
            return None;
        }
        ByteTable::if_small(&self.set, &self.offsets)
    }
}
