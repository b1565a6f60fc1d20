//! Prefilters: they pass over parts of a haystack where no pattern occurs, and propose offsets at which one may begin.
//! All offsets are in bytes of the whole haystack.
ghost use Rattle.std.specs.List.{All};
ghost use Rattle.std.specs.Prelude.{◌≡◌, ◌==◌, ◌≤◌, ◌<◌, ◌∷◌, ℕ, List, [], length, Some, false};
ghost use Rattle.std.specs.Prelude.{OnOk, OnErr, IfOk, IfSome};
ghost use Rattle.std.specs.Prelude.{IsSomeAnd, IsTrue, ◌||◌, if◌then◌else◌};
ghost use Rattle.std.specs.Option.{option_copied};
ghost use Rattle.literal_base.specs.Occurs.{IsValidSpan};
ghost use Rattle.literal_prefilters.specs.Answers.{start_of};
ghost use Rattle.literal_prefilters.specs.Choice.{IsBuiltFor, has_fewer_start_bytes, is_last_resort, is_one_pattern};
ghost use Rattle.literal_prefilters.specs.Choice.{is_short_list, is_start_nearly_as_rare, packed_search};
ghost use Rattle.literal_prefilters.specs.Choice.{pick, suits_packed};
ghost use Rattle.literal_prefilters.specs.PrefilterValue.{CoveredBy, IsAnswer, IsCountedAnswer, TakesMemory};
ghost use Rattle.literal_prefilters.specs.PrefilterValue.{by_table, prefilter_reach};
ghost use Rattle.literal_prefilters.specs.PrefilterBuilderValue.{PrefilterBuilderValue, prefilter_limit, with_added};
ghost use Rattle.literal_packed.specs.PatternsValue.{IsInOrder};
ghost use Rattle.literal_packed.specs.State.{WouldKeep, kept_of};
ghost use Rattle.literal_prefilters.specs.Table.{Covers, reach_of};
ghost use Rattle.literal_prefilters.specs.Tables.{rare_table, start_table};
ghost use Rattle.literal_prefilters.specs.Inside.Prefilter.{value_of_finder};
ghost use Rattle.literal_prefilters.specs.Sound.{Coverage, PassesOverNone, KeepsReach};

mod byte_table;
mod confirming;
mod counted_set;
mod exact;
mod kinds;
mod running;
mod tables;

pub use byte_table::ByteTable;
use byte_table::MOST_BYTES;
pub use confirming::{ConfirmingSearch, confirm};
pub use exact::{Memmem, Packed};
pub use kinds::{
    RareBytes, RareBytesOne, RareBytesThree, RareBytesTwo, StartBytes, StartBytesOne,
    StartBytesThree, StartBytesTwo,
};
use literal_base::count::Tally;
use literal_base::packed;
use literal_base::search::{Match, MatchKind, Span};
use literal_ids::PatternID;
use literal_packed::pattern::Patterns;
use running::Running;
use std::alloc::{AllocError, Global};
use std::fmt;
use std::marker::Model;

/// Finds where an occurrence of some patterns may begin in a span, and passes over the rest. A [`Builder`] makes it.
/// Contracts see whether it searches by a table of bytes, by one pattern or by a packed search, and what it searches
/// for.
#[derive(Drop)]
pub struct Prefilter {
    finder: Finder,
}

/// How much larger the sum of a start table's ranks may be than that of a rare table. This number and the next are the
/// original's, so that the choice is the same. A start table is preferred, since it never proposes too early.
const NEARLY_AS_RARE: u16 = 50;

/// The largest number of patterns for which a packed search is better than full tables.
const SHORT_LIST: usize = 16;

/// The largest number of patterns for which a packed search is built, in the default configuration.
const PACKED_LIMIT: usize = 128;

/// The kinds of prefilter.
#[derive(Drop)]
enum Finder {
    Memmem(Memmem),
    Packed(Packed),
    StartBytesOne(StartBytesOne),
    StartBytesTwo(StartBytesTwo),
    StartBytesThree(StartBytesThree),
    RareBytesOne(RareBytesOne),
    RareBytesTwo(RareBytesTwo),
    RareBytesThree(RareBytesThree),
}

impl Model for Prefilter {
    ghost use Rattle.std.specs.Prelude.{◌≤◌};
    ghost use Rattle.literal_prefilters.specs.PrefilterValue.{PrefilterValue, prefilter_reach};

    ghost Value = { PrefilterValue };

    ghost use Rattle.literal_prefilters.specs.Inside.Prefilter.{value_of_finder};

    ghost view = { λ pre. value_of_finder pre.finder };

    ghost invariant = { λ pre. prefilter_reach (value_of_finder pre.finder) ≤ 254 };
}

impl Prefilter {
    /// The candidate in the span, which has to be a valid span of the haystack: the leftmost match, an offset at which
    /// an occurrence of the builder's patterns may begin, or `None` if none occurs. A possible start lies in the span,
    /// and no occurrence in the span begins before it.
    ///
    /// [`PrefilterI::find_in`], which generic code calls, has the same name and takes a tally.
    pub fn find_in(&self, haystack: &[u8], span: Span) -> Candidate
        requires { IsValidSpan haystack.now span }
        ensures answer { IsAnswer self.now haystack.now span result }
        ensures sound { PassesOverNone (CoveredBy self.now) haystack.now span result }
    {
        self.find_in_counted(haystack, span, &mut Tally::new())
    }

    /// Like [`Prefilter::find_in`], and adds its steps to a tally. By a table it scans the bytes of the span up to the
    /// first table byte, or all. An exact search counts as one of a [`Searcher`](literal_packed::Searcher).
    pub fn find_in_counted(&self, haystack: &[u8], span: Span, tally: &mut Tally) -> Candidate
        requires { IsValidSpan haystack.now span }
        ensures sound { PassesOverNone (CoveredBy self.now) haystack.now span result }
        ensures reach { KeepsReach (prefilter_reach self.now) span result tally.old tally.new }
        ensures near { prefilter_reach self.now ≤ 254 }
        ensures answer { IsCountedAnswer self.now haystack.now span result tally.old tally.new }
    {
        match &self.finder {
            Finder::Memmem(pre) => pre.find_in(haystack, span, tally),
            Finder::Packed(pre) => pre.find_in(haystack, span, tally),
            Finder::StartBytesOne(pre) => pre.find_in(haystack, span, tally),
            Finder::StartBytesTwo(pre) => pre.find_in(haystack, span, tally),
            Finder::StartBytesThree(pre) => pre.find_in(haystack, span, tally),
            Finder::RareBytesOne(pre) => pre.find_in(haystack, span, tally),
            Finder::RareBytesTwo(pre) => pre.find_in(haystack, span, tally),
            Finder::RareBytesThree(pre) => pre.find_in(haystack, span, tally),
        }
    }

    /// A copy for the same patterns. It allocates only if patterns are kept.
    pub fn try_clone(&self) -> Result<Prefilter, AllocError>
        ensures ok { IfOk result (λ copy. copy ≡ self.now) }
        ensures no_memory { OnErr result (TakesMemory self.now) }
    {
        let finder = match &self.finder {
            Finder::Memmem(pre) => Finder::Memmem(pre.try_clone()?),
            Finder::Packed(pre) => Finder::Packed(pre.try_clone()?),
            Finder::StartBytesOne(pre) => Finder::StartBytesOne(pre.copy()),
            Finder::StartBytesTwo(pre) => Finder::StartBytesTwo(pre.copy()),
            Finder::StartBytesThree(pre) => Finder::StartBytesThree(pre.copy()),
            Finder::RareBytesOne(pre) => Finder::RareBytesOne(pre.copy()),
            Finder::RareBytesTwo(pre) => Finder::RareBytesTwo(pre.copy()),
            Finder::RareBytesThree(pre) => Finder::RareBytesThree(pre.copy()),
        };
        Ok(Prefilter { finder })
    }

    /// The invariant of every value, for the law that states it.
    pub(crate) fn keeps_its_reach(&self)
        ensures { prefilter_reach self.now ≤ 254 }
    {
        let _ = &self.finder; // (a read, which gives the proof the invariant of the fields)
    }
}

impl PrefilterI for Prefilter {
    ghost covers = { CoveredBy };

    ghost reach = { prefilter_reach };

    ghost answers = { IsCountedAnswer };

    fn find_in(&self, haystack: &[u8], span: Span, tally: &mut Tally) -> Candidate {
        self.find_in_counted(haystack, span, tally)
    }
}

/// Shows the kind.
impl fmt::Debug for Prefilter {
    fn fmt<W: fmt::Write>(&self, f: &mut fmt::Formatter<W>) -> fmt::Result {
        f.write_str(match &self.finder {
            Finder::Memmem(_) => "Prefilter(Memmem)",
            Finder::Packed(_) => "Prefilter(Packed)",
            Finder::StartBytesOne(_) => "Prefilter(StartBytesOne)",
            Finder::StartBytesTwo(_) => "Prefilter(StartBytesTwo)",
            Finder::StartBytesThree(_) => "Prefilter(StartBytesThree)",
            Finder::RareBytesOne(_) => "Prefilter(RareBytesOne)",
            Finder::RareBytesTwo(_) => "Prefilter(RareBytesTwo)",
            Finder::RareBytesThree(_) => "Prefilter(RareBytesThree)",
        })
    }
}

/// The answer of a prefilter for a span.
#[derive(Clone, Debug, Drop)]
pub enum Candidate {
    /// No pattern occurs in the span.
    None,
    /// The leftmost match of the span.
    Match(Match),
    /// An offset of the span before which no occurrence in the span begins. One may begin there.
    PossibleStartOfMatch(usize),
}

impl Candidate {
    /// The start of the match or of the possible match, if there is one.
    pub fn into_option(self) -> Option<usize>
        ensures { result ≡ start_of self }
    {
        match self {
            Candidate::None => None,
            Candidate::Match(found) => Some(found.start()),
            Candidate::PossibleStartOfMatch(start) => Some(start),
        }
    }
}

/// A search that passes over parts of a haystack.
///
/// A prefilter *covers* some patterns, for a match kind and with ASCII case kept or ignored: its answer then passes
/// over no occurrence of these patterns. Its *reach* is the number of bytes that it may read after an offset that it
/// proposes.
pub trait PrefilterI {
    ghost use Rattle.literal_base.specs.Counts.{Counts};
    ghost use Rattle.literal_base.specs.declared.search.Span.{Span};
    ghost use Rattle.literal_prefilters.specs.declared.prefilter.Candidate.{Candidate};

    /// Whether the prefilter covers these patterns, for this match kind, and with case ignored or kept.
    ghost covers: { Self → Coverage };

    /// How many bytes after a proposed offset the prefilter may read.
    ghost reach: { Self → ℕ };

    /// The answer of the prefilter for a span, and its counts.
    ghost answers: { Self → List ℕ → Span → Candidate → Counts → Counts → Type 0 };

    /// The candidate in the span, which has to be a valid span of the haystack: `None` only if no covered pattern
    /// occurs in it, a match only if it is the leftmost one, and a possible start only inside the span and with no
    /// occurrence before it.
    fn find_in(&self, haystack: &[u8], span: Span, tally: &mut Tally) -> Candidate
        requires { IsValidSpan haystack.now span }
        ensures sound { PassesOverNone (covers self.now) haystack.now span result }
        ensures reach { KeepsReach (reach self.now) span result tally.old tally.new }
        ensures answer { answers self.now haystack.now span result tally.old tally.new };
}

/// Collects patterns, and builds the prefilter that suits them, if there is one. An empty pattern, or more than
/// [`PatternID::LIMIT`] patterns, *disable* the builder for good: it then keeps no pattern, and builds no prefilter,
/// whatever is added later.
///
/// Besides the patterns it keeps the data for their tables, so that no pattern is read twice for these.
///
/// ```rust
/// let mut builder = prefilter::Builder::new(alloc, MatchKind::LeftmostFirst);
/// builder.add(b"Sherlock")?;
/// builder.add(b"lockjaw")?;
/// let pre = builder.build()?.ok_or("no prefilter for these patterns")?;
/// let candidate = pre.find_in(b"I am lockjaw", Span { start: 0, end: 12 });
/// assert!(rt; candidate.into_option() == Some(1));
/// ```
#[derive(Drop)]
pub struct Builder {
    alloc: Global,
    kind: MatchKind,
    ascii_case_insensitive: bool,
    enabled: bool,
    patterns: Patterns,
    running: Running,
}

impl Model for Builder {
    ghost use Rattle.literal_prefilters.specs.PrefilterBuilderValue.{PrefilterBuilderValue};

    ghost Value = { PrefilterBuilderValue };

    ghost use Rattle.literal_prefilters.specs.Inside.Prefilter.{builder_value, IsSound};

    ghost view = { builder_value };

    ghost invariant = { IsSound };
}

impl Builder {
    /// A builder without patterns, for searches with this match kind, and with ASCII case kept. A prefilter built for
    /// [`MatchKind::Standard`] serves both leftmost kinds.
    pub fn new(alloc: Global, kind: MatchKind) -> Builder
        ensures { result ≡ record { kind = kind; ignore_case = false; state = Some [] } }
    {
        Builder {
            alloc,
            kind,
            ascii_case_insensitive: false,
            enabled: true,
            patterns: Patterns::new(alloc),
            running: Running::new(),
        }
    }

    /// Sets whether both cases of an ASCII letter are equal. The builder must have no pattern yet, and not be disabled.
    pub fn ascii_case_insensitive(self, yes: bool) -> Builder
        requires { self.state ≡ Some [] }
        ensures { result ≡ record self { ignore_case = yes } }
    {
        Builder {
            ascii_case_insensitive: yes,
            running: Running::new(),
            ..self
        }
    }

    /// The prefilter that suits the patterns, or `None` if there is none. The builder is unchanged.
    ///
    /// The first of these cases decides. There is no pattern, or the builder is disabled: none. Case is kept and there
    /// is one pattern: a search for it. Case is kept, the kind is a leftmost one, there are at most 16 patterns of two
    /// bytes or more, at least one of [`ByteTable::start`] and [`ByteTable::rare`] exists, and each that exists has
    /// three bytes: a packed search. Both tables exist: the start table if it has fewer bytes, or if its ranks add up
    /// to at most 50 more than those of the rare one, and otherwise the rare table. One table exists: this one. Case is
    /// kept, the kind is a leftmost one, and there are at most 128 patterns: a packed search. Otherwise there is none.
    ///
    /// Memory is requested only for a prefilter that searches for patterns, not for one by a table.
    pub fn build(&self) -> Result<Option<Prefilter>, AllocError>
        ensures pick { IfOk result (λ built. built ≡ pick self.now) }
        ensures no_memory { OnErr result (IsSomeAnd (pick self.now) TakesMemory) }
        ensures covers { IfOk result (λ built. IfSome built (IsBuiltFor self.now)) }
    {
        if self.is_empty() {
            return Ok(None);
        }
        if self.is_one_pattern() {
            let Some(memmem) = Memmem::new(self.alloc, &self.patterns)? else {
                return Ok(None);
            };
            return Ok(Some(Prefilter {
                finder: Finder::Memmem(memmem),
            }));
        }
        let start = self.start_table();
        let rare = self.rare_table();
        if self.is_short_list(start.as_ref(), rare.as_ref()) {
            return self.packed();
        }
        match (start, rare) {
            (Some(start), Some(rare)) => Ok(Some(Prefilter::of_both(start, rare))),
            (Some(start), None) => Ok(Some(Prefilter::start(start))),
            (None, Some(rare)) => Ok(Some(Prefilter::rare(rare))),
            (None, None) if self.is_last_resort() => self.packed(),
            (None, None) => Ok(None),
        }
    }

    /// The patterns, in match order.
    fn into_patterns(self, kind: packed::MatchKind) -> Result<Patterns, AllocError>
        ensures patterns { IfOk result (λ patterns. patterns.patterns ≡ kept_of self.state) }
        ensures kind { IfOk result (λ patterns. patterns.kind ≡ kind) }
        ensures in_order { IfOk result IsInOrder }
    {
        let mut patterns = self.patterns;
        patterns.set_match_kind(kind)?;
        Ok(patterns)
    }

    /// Whether there is no pattern, or the builder is disabled.
    fn is_empty(&self) -> bool
        ensures { result ≡ (length (kept_of self.now.state) == 0) }
    {
        self.patterns.len() == 0
    }

    fn is_one_pattern(&self) -> bool
        ensures { result ≡ is_one_pattern self.now }
    {
        !self.ascii_case_insensitive && self.patterns.len() == 1
    }

    /// The table of [`ByteTable::start`] for the patterns.
    fn start_table(&self) -> Option<ByteTable>
        ensures table { result ≡ start_table self.now.ignore_case (kept_of self.now.state) }
        ensures none_back { IfSome result (λ t. reach_of t ≡ 0) }
        ensures covers { IfSome result (λ t. All (Covers t self.now.ignore_case) (kept_of self.now.state)) }
    {
        self.running.start_table()
    }

    /// The table of [`ByteTable::rare`] for the patterns.
    fn rare_table(&self) -> Option<ByteTable>
        ensures table { result ≡ rare_table self.now.ignore_case (kept_of self.now.state) }
        ensures covers { IfSome result (λ t. All (Covers t self.now.ignore_case) (kept_of self.now.state)) }
    {
        self.running.rare_table()
    }

    /// Whether a packed search finds just the wanted matches.
    fn suits_packed(&self) -> bool
        ensures { result ≡ suits_packed self.now }
    {
        !self.ascii_case_insensitive && self.kind.as_packed().is_some()
    }

    /// Whether a packed search is better than each of these tables.
    fn is_short_list(&self, start: Option<&ByteTable>, rare: Option<&ByteTable>) -> bool
        ensures { result ≡ is_short_list self.now (option_copied start.entry) (option_copied rare.entry) }
    {
        let is_full = |table: &ByteTable| table.count() == MOST_BYTES;
        self.suits_packed()
            && self.patterns.len() <= SHORT_LIST
            && self.patterns.minimum_len() >= 2
            && (start.is_some() || rare.is_some())
            && start.is_none_or(is_full)
            && rare.is_none_or(is_full)
    }

    /// Whether a packed search is better than nothing.
    fn is_last_resort(&self) -> bool
        ensures { result ≡ is_last_resort self.now }
    {
        self.suits_packed() && self.patterns.len() <= PACKED_LIMIT
    }

    /// The packed search for the patterns.
    fn packed(&self) -> Result<Option<Prefilter>, AllocError>
        requires picked { pick self.now ≡ packed_search self.now }
        requires suits { IsTrue (suits_packed self.now) }
        requires few { length (kept_of self.now.state) ≤ PACKED_LIMIT }
        requires some { 0 < length (kept_of self.now.state) }
        ensures pick { IfOk result (λ built. built ≡ pick self.now) }
        ensures no_memory { OnErr result (IsSomeAnd (pick self.now) TakesMemory) }
        ensures covers { IfOk result (λ built. IfSome built (IsBuiltFor self.now)) }
    {
        let Some(kind) = self.kind.as_packed() else {
            return Ok(None);
        };
        let Some(packed) = Packed::new(self.alloc, &self.patterns, kind)? else {
            return Ok(None);
        };
        Ok(Some(Prefilter {
            finder: Finder::Packed(packed),
        }))
    }

    /// Adds a copy of a pattern, unless the builder is disabled. An empty pattern, or more than [`PatternID::LIMIT`]
    /// patterns, disable it. If memory is refused, the builder is unchanged. Memory is requested only for a pattern
    /// that is kept.
    pub fn add(&mut self, bytes: &[u8]) -> Result<(), AllocError>
        ensures ok { OnOk result (self.new ≡ with_added self.old (bytes.now ∷ [])) }
        ensures no_memory { OnErr result (WouldKeep prefilter_limit self.old.state bytes.now) }
        ensures err { OnErr result (self.new ≡ self.old) }
    {
        if !self.enabled {
            return Ok(());
        }
        if bytes.is_empty() || self.patterns.len() >= PatternID::LIMIT {
            self.enabled = false;
            self.patterns.reset();
            self.running = Running::new();
            return Ok(());
        }
        self.patterns.add(bytes)?;
        self.running.push(bytes, self.ascii_case_insensitive);
        Ok(())
    }
}

/// Shows the match kind, whether case is ignored, and the number of patterns.
impl fmt::Debug for Builder {
    fn fmt<W: fmt::Write>(&self, f: &mut fmt::Formatter<W>) -> fmt::Result {
        let kind = self.kind;
        let ignore_case = self.ascii_case_insensitive;
        let enabled = self.enabled;
        let len = self.patterns.len();
        write!(
            f,
            "Builder {{ kind: {kind:?}, ascii_case_insensitive: {ignore_case}, enabled: {enabled}, len: {len} }}"
        )
    }
}

impl Prefilter {
    /// The prefilter by the start table if it has fewer bytes or its bytes are nearly as rare, otherwise by the rare
    /// table.
    fn of_both(start: ByteTable, rare: ByteTable) -> Prefilter
        requires { reach_of start ≡ 0 }
        ensures { result ≡ by_table (if (has_fewer_start_bytes (Some start) (Some rare)
            || is_start_nearly_as_rare (Some start) (Some rare)) then start else rare) }
    {
        if start.count() < rare.count() || start.rank_sum() <= rare.rank_sum() + NEARLY_AS_RARE {
            Prefilter::start(start)
        } else {
            Prefilter::rare(rare)
        }
    }

    /// The prefilter by a start table.
    fn start(table: ByteTable) -> Prefilter
        requires { reach_of table ≡ 0 }
        ensures { result ≡ by_table table }
    {
        let finder = match table.count() {
            1 => Finder::StartBytesOne(StartBytes(table)),
            2 => Finder::StartBytesTwo(StartBytes(table)),
            _ => Finder::StartBytesThree(StartBytes(table)),
        };
        Prefilter { finder }
    }

    /// The prefilter by a rare table.
    fn rare(table: ByteTable) -> Prefilter
        ensures { result ≡ by_table table }
    {
        let finder = match table.count() {
            1 => Finder::RareBytesOne(RareBytes(table)),
            2 => Finder::RareBytesTwo(RareBytes(table)),
            _ => Finder::RareBytesThree(RareBytes(table)),
        };
        Prefilter { finder }
    }
}
