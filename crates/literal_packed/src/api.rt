//! The configuration, the builder, and the searcher.
ghost use Rattle.std.specs.Prelude.{◌≡◌, ◌<◌, ◌≤◌, ◌⊎◌, ◌∷◌, [], length, Ok, Err, false, IsOk, IfOk, OnOk, OnErr};
ghost use Rattle.std.specs.Prelude.{IfSome, MatchResult};
ghost use Rattle.std.specs.Borrow.{sem};
ghost use Rattle.literal_base.specs.Occurs.{IsValidSpan, whole_of};
ghost use Rattle.literal_base.specs.Leftmost.{IsLeftmost};
ghost use Rattle.literal_base.specs.Greedy.{IsGreedy, RefusesList};
ghost use Rattle.literal_base.specs.Counts.{none_yet};
ghost use Rattle.literal_packed.specs.PatternsValue.{minimum_len_of};
ghost use Rattle.literal_packed.specs.BuilderValue.{IsBuildableQuery, BuildsSearcher, IsBuildable, builder_of};
ghost use Rattle.literal_packed.specs.BuilderValue.{searcher_of, with_added};
ghost use Rattle.literal_packed.specs.ConfigValue.{IsPatternLimit, default_config};
ghost use Rattle.literal_packed.specs.State.{IsState, WouldKeep, kept_of};
ghost use Rattle.literal_packed.specs.Pairs.{counts_after};
ghost use Rattle.literal_packed.specs.FindIterValue.{FindsNext, bytes_left};
ghost use Rattle.literal_packed.specs.Spending.{SpendsWithin, counts_after_all, counts_after_matches};
ghost use Rattle.literal_base.specs.Given.{CanBeTaken};
ghost use Rattle.literal_packed.specs.Lending.{HoldsAfterErr, LentHoldsAfterErr, HoldsTaken, HoldsAll, RefusesSearcher};

use crate::pattern::Patterns;
use crate::rabinkarp::RabinKarp;
use literal_base::count::Tally;
use literal_base::packed::MatchKind;
use literal_base::{Match, Span};
use std::alloc::{AllocError, Global};
use std::fmt;
use std::marker::Model;

/// The settings of a [`Builder`]: which occurrence is the match, and the largest number of patterns.
///
/// ```rust
/// let mut builder = Config::new().pattern_limit(1).builder(alloc);
/// builder.add(b"foo")?;
/// assert!(rt; builder.build()?.is_some());
/// builder.add(b"bar")?;
/// assert!(rt; builder.build()?.is_none());
/// ```
#[derive(Clone, Debug, Drop)]
pub struct Config {
    kind: MatchKind,
    pattern_limit: usize,
}

impl Model for Config {
    ghost use Rattle.literal_packed.specs.ConfigValue.{ConfigValue, IsPatternLimit};

    ghost Value = { ConfigValue };

    ghost view = { λ config. record { kind = config.kind; pattern_limit = config.pattern_limit } };

    ghost invariant = { λ config. IsPatternLimit config.pattern_limit };
}

impl Config {
    /// The default limit of patterns, 128. With more patterns, this kind of search is no longer useful.
    pub const DEFAULT_PATTERN_LIMIT: usize = 128;

    /// The largest limit of patterns, 65535.
    pub const MAX_PATTERN_LIMIT: usize = 65535;

    /// The default configuration: [`MatchKind::LeftmostFirst`], and at most [`Config::DEFAULT_PATTERN_LIMIT`] patterns.
    pub fn new() -> Config
        ensures { result ≡ default_config }
    {
        Config {
            kind: MatchKind::LeftmostFirst,
            pattern_limit: Config::DEFAULT_PATTERN_LIMIT,
        }
    }

    /// A builder without patterns, with the present state of this configuration. Later changes of the configuration do
    /// not affect the builder.
    pub fn builder(&self, alloc: Global) -> Builder
        ensures builder { result ≡ builder_of self.now [] }
        ensures limit { IsPatternLimit self.now.pattern_limit }
    {
        Builder {
            config: self.copy(),
            inert: false,
            patterns: Patterns::new(alloc),
        }
    }

    /// Sets which occurrence is the match.
    pub fn match_kind(&mut self, kind: MatchKind) -> &mut Config
        ensures same { result.ghost_name ≡ self.entry.ghost_name }
        ensures now { result.now ≡ record self.old { kind = kind } }
    {
        self.kind = kind;
        self
    }

    /// Sets the largest number of patterns that a builder keeps, from 1 to [`Config::MAX_PATTERN_LIMIT`]. Builders that
    /// exist already keep their limit.
    pub fn pattern_limit(&mut self, n: usize) -> &mut Config
        requires some { 1 ≤ n }
        requires few { n ≤ Config.MAX_PATTERN_LIMIT }
        ensures same { result.ghost_name ≡ self.entry.ghost_name }
        ensures now { result.now ≡ record self.old { pattern_limit = n } }
    {
        self.pattern_limit = n;
        self
    }

    /// Changes nothing: the search by Rabin and Karp is the only algorithm here.
    pub fn only_rabin_karp(&mut self, yes: bool) -> &mut Config
        ensures same { result.ghost_name ≡ self.entry.ghost_name }
        ensures now { result.now ≡ self.old }
    {
        let _ = yes; // (as in the original)
        self
    }

    fn copy(&self) -> Config
        ensures { result ≡ self.now }
    {
        Config {
            kind: self.kind,
            pattern_limit: self.pattern_limit,
        }
    }
}

/// The default configuration, like [`Config::new`].
impl Default for Config {
    ghost is_default = { λ config. config ≡ default_config };

    fn default() -> Config {
        Config::new()
    }
}

/// Collects patterns, and builds a searcher for them. It keeps non-empty patterns, up to the limit of its configuration
/// ([`Config::pattern_limit`]). An empty pattern, or one above the limit, makes the builder *inert* for good: it then
/// keeps no pattern, and builds no searcher, whatever is added later.
///
/// ```rust
/// let mut builder = Builder::new(alloc);
/// builder.extend([b"foo".as_slice(), b"quux"])?;
/// assert!(rt; builder.len() == 2 && builder.minimum_len() == 3);
/// builder.add(b"")?;
/// assert!(rt; builder.len() == 0 && builder.build()?.is_none());
/// ```
#[derive(Drop)]
pub struct Builder {
    config: Config,
    inert: bool,
    patterns: Patterns,
}

impl Model for Builder {
    ghost use Rattle.literal_packed.specs.BuilderValue.{BuilderValue};

    ghost Value = { BuilderValue };

    ghost use Rattle.literal_packed.specs.Inside.Builder.{builder_value, IsSound};

    ghost view = { builder_value };

    ghost invariant = { IsSound };
}

impl Builder {
    /// A builder without patterns, with the default configuration.
    pub fn new(alloc: Global) -> Builder
        ensures { result ≡ builder_of default_config [] }
    {
        Config::new().builder(alloc)
    }

    /// A searcher for the patterns, or `None` if there are none or the builder is inert. The builder is unchanged.
    /// Memory is requested only if a searcher can be built; if it is refused, none is built.
    pub fn build(&self) -> Result<Option<Searcher>, AllocError>
        ensures ok { IfOk result (λ built. built ≡ searcher_of self.now) }
        ensures no_memory { IsOk result ⊎ IsBuildable self.now }
    {
        // An inert builder has dropped its patterns.
        if self.patterns.is_empty() {
            return Ok(None);
        }
        let mut patterns = self.patterns.try_clone()?;
        patterns.set_match_kind(self.config.kind)?;
        // Hashing the patterns themselves is no step of a search.
        let rabin_karp = RabinKarp::new(&patterns, &mut Tally::new())?;
        Ok(Some(Searcher {
            patterns,
            rabin_karp,
        }))
    }

    /// Adds a copy of a pattern, unless the builder is inert. An empty pattern, or one above the limit of the
    /// configuration, makes it inert. If memory is refused, the builder is unchanged. Memory is requested only for a
    /// pattern that is kept.
    pub fn add(&mut self, bytes: &[u8]) -> Result<&mut Builder, AllocError>
        // After an error the builder is unchanged.
        ensures* as_before { sem 𝓛 (HoldsAfterErr (λ b. b ≡ self.old) self.entry result) }
        ensures same { IfOk result (λ b. b.ghost_name ≡ self.entry.ghost_name) }
        ensures ok { IfOk result (λ b. b.now ≡ with_added self.old (bytes.now ∷ [])) }
        ensures no_memory { OnErr result (WouldKeep self.old.config.pattern_limit self.old.state bytes.now) }
    {
        // Two steps, since there are generated proofs of what holds after an error only if the builder is lent in a
        // struct.
        unwrapped(self.try_add(bytes))
    }

    fn try_add(&mut self, bytes: &[u8]) -> Result<LentBuilder<'_>, AllocError>
        ensures* as_before { sem 𝓛 (LentHoldsAfterErr (λ b. b ≡ self.old) self.entry result) }
        ensures same { IfOk result (λ l. l.builder.ghost_name ≡ self.entry.ghost_name) }
        ensures ok { IfOk result (λ l. l.builder.now ≡ with_added self.old (bytes.now ∷ [])) }
        ensures no_memory { OnErr result (WouldKeep self.old.config.pattern_limit self.old.state bytes.now) }
    {
        self.put(bytes)?;
        Ok(LentBuilder { builder: self })
    }

    fn put(&mut self, bytes: &[u8]) -> Result<(), AllocError>
        ensures ok { OnOk result (self.new ≡ with_added self.old (bytes.now ∷ [])) }
        ensures no_memory { OnErr result (WouldKeep self.old.config.pattern_limit self.old.state bytes.now) }
        ensures err { OnErr result (self.new ≡ self.old) }
    {
        if self.inert {
            return Ok(());
        }
        if bytes.is_empty() || self.patterns.len() >= self.config.pattern_limit {
            self.inert = true;
            self.patterns.reset();
            return Ok(());
        }
        self.patterns.add(bytes)?;
        Ok(())
    }

    /// Adds the patterns that an iterator gives, each like [`Builder::add`]. The iterator has to end. If memory is
    /// refused, the patterns before the refused one stay added. Memory is requested only for patterns that are kept.
    pub fn extend<'a, I: IntoIterator<Item = &'a [u8]>>(
        &mut self,
        patterns: I,
    ) -> Result<&mut Builder, AllocError>
        requires { CanBeTaken I.into_iter_gives I.IntoIter.can_next I.IntoIter.remaining patterns }
        // After an error the builder has the patterns before the refused one, and would have kept that one.
        ensures* taken { sem 𝓛 (HoldsAfterErr (HoldsTaken I.into_iter_gives I.IntoIter.next_gives patterns self.old)
            self.entry result) }
        ensures same { IfOk result (λ b. b.ghost_name ≡ self.entry.ghost_name) }
        ensures ok { IfOk result (λ b. HoldsAll I.into_iter_gives I.IntoIter.next_gives patterns self.old b.now) }
    {
        // Two steps, as in `add`.
        unwrapped(self.try_extend(patterns))
    }

    fn try_extend<'a, I: IntoIterator<Item = &'a [u8]>>(
        &mut self,
        patterns: I,
    ) -> Result<LentBuilder<'_>, AllocError>
        requires { CanBeTaken I.into_iter_gives I.IntoIter.can_next I.IntoIter.remaining patterns }
        ensures* taken { sem 𝓛 (LentHoldsAfterErr
            (HoldsTaken I.into_iter_gives I.IntoIter.next_gives patterns self.old) self.entry result) }
        ensures same { IfOk result (λ l. l.builder.ghost_name ≡ self.entry.ghost_name) }
        ensures ok { IfOk result (λ l.
            HoldsAll I.into_iter_gives I.IntoIter.next_gives patterns self.old l.builder.now) }
    {
        self.put_all(patterns)?;
        Ok(LentBuilder { builder: self })
    }

    fn put_all<'a, I: IntoIterator<Item = &'a [u8]>>(
        &mut self,
        patterns: I,
    ) -> Result<(), AllocError>
        requires { CanBeTaken I.into_iter_gives I.IntoIter.can_next I.IntoIter.remaining patterns }
        ensures ok { OnOk result (HoldsAll I.into_iter_gives I.IntoIter.next_gives patterns self.old self.new) }
        ensures err { OnErr result (HoldsTaken I.into_iter_gives I.IntoIter.next_gives patterns self.old self.new) }
    {
        for bytes in patterns {
            self.put(bytes)?;
        }
        Ok(())
    }

    /// The number of patterns: at most the limit of the configuration, and 0 if the builder is inert.
    pub fn len(&self) -> usize
        ensures len { result ≡ length (kept_of self.now.state) }
        ensures kept { IsState self.now.config.pattern_limit self.now.state }
    {
        self.patterns.len()
    }

    /// The length in bytes of the shortest pattern, or `usize::MAX` if there is none.
    pub fn minimum_len(&self) -> usize
        ensures { result ≡ minimum_len_of (kept_of self.now.state) }
    {
        self.patterns.minimum_len()
    }

    /// A copy with the same configuration and patterns, and inert if this builder is. Memory is requested only if there
    /// is a pattern. The builder is unchanged.
    pub fn try_clone(&self) -> Result<Builder, AllocError>
        ensures copy { IfOk result (λ copy. copy ≡ self.now) }
        ensures no_memory { OnErr result (IsBuildable self.now) }
    {
        Ok(Builder {
            config: self.config.copy(),
            inert: self.inert,
            patterns: self.patterns.try_clone()?,
        })
    }
}

/// Shows the configuration and the number of patterns.
impl fmt::Debug for Builder {
    fn fmt<W: fmt::Write>(&self, f: &mut fmt::Formatter<W>) -> fmt::Result {
        let kind = self.config.kind;
        let limit = self.config.pattern_limit;
        let inert = self.inert;
        let len = self.patterns.len();
        write!(
            f,
            "Builder {{ kind: {kind:?}, pattern_limit: {limit:?}, inert: {inert:?}, len: {len} }}"
        )
    }
}

/// The builder after an addition.
#[derive(Drop)]
struct LentBuilder<'b> {
    builder: &'b mut Builder,
}

fn unwrapped(lent: Result<LentBuilder<'_>, AllocError>) -> Result<&mut Builder, AllocError>
    ensures { MatchResult lent.entry (λ l. result ≡ Ok l.builder) (λ e. result ≡ Err e) }
{
    match lent {
        Ok(LentBuilder { builder }) => Ok(builder),
        Err(error) => Err(error),
    }
}

/// Searches for the patterns for which it was built: at least one, at most the limit of the builder's configuration,
/// and none of them empty.
#[derive(Drop)]
pub struct Searcher {
    patterns: Patterns,
    rabin_karp: RabinKarp,
}

impl Model for Searcher {
    ghost use Rattle.literal_base.specs.Query.{Query};
    ghost use Rattle.std.specs.Prelude.{◌≤◌, length};
    ghost use Rattle.literal_packed.specs.ConfigValue.{max_pattern_limit};
    ghost use Rattle.literal_packed.specs.RabinKarpValue.{IsMadeFor};

    ghost Value = { Query };

    ghost view = { λ a. record { kind = a.patterns.kind; patterns = a.patterns.patterns } };

    ghost invariant = { λ a. IsMadeFor a.patterns a.rabin_karp × (length a.patterns.patterns ≤ max_pattern_limit) };
}

impl Searcher {
    /// A searcher for the patterns that an iterator gives, with the default configuration, as [`Builder::extend`] and
    /// [`Builder::build`] of a new builder make it. The iterator has to end. Memory is requested only for a pattern
    /// that is kept, and if a searcher can be built.
    pub fn new<'a, I: IntoIterator<Item = &'a [u8]>>(
        alloc: Global,
        patterns: I,
    ) -> Result<Option<Searcher>, AllocError>
        requires { CanBeTaken I.into_iter_gives I.IntoIter.can_next I.IntoIter.remaining patterns }
        ensures ok { IfOk result (BuildsSearcher I.into_iter_gives I.IntoIter.next_gives patterns) }
        ensures no_memory { OnErr result (RefusesSearcher I.into_iter_gives I.IntoIter.next_gives patterns) }
    {
        let mut builder = Builder::new(alloc);
        builder.put_all(patterns)?;
        builder.build()
    }

    /// The default configuration.
    pub fn config() -> Config
        ensures { result ≡ default_config }
    {
        Config::default()
    }

    /// A builder without patterns, with the default configuration.
    pub fn builder(alloc: Global) -> Builder
        ensures { result ≡ builder_of default_config [] }
    {
        Builder::new(alloc)
    }

    /// The leftmost match in the whole haystack, as [`Searcher::find_in`] finds it in a span.
    ///
    /// ```rust
    /// let built = Searcher::new(alloc, [b"foobar".as_slice(), b"foo"])?;
    /// let searcher = built.ok_or("no searcher for these patterns")?;
    /// let haystack = b"a foobar, a foo";
    /// let found = searcher.find(haystack).ok_or("nothing is found")?;
    /// assert!(rt; found.pattern().as_usize() == 0 && found.range() == (2..8));
    /// ```
    pub fn find(&self, haystack: &[u8]) -> Option<Match>
        ensures leftmost { IsLeftmost self.now false haystack.now (whole_of haystack.now) result }
        ensures not_empty { IfSome result (λ found. found.start < found.end) }
    {
        self.find_in(
            haystack,
            Span {
                start: 0,
                end: haystack.len(),
            },
        )
    }

    /// The leftmost match in a span of the haystack. Only occurrences that lie whole in the span count. The one that
    /// begins first wins; if several begin there, the match kind decides. All offsets are in bytes of the whole
    /// haystack. The span has to be valid: `start` is at most `end`, and `end` at most the haystack's length.
    ///
    /// ```rust
    /// // Only what lies whole in the span is a match, and its offsets are in the whole haystack.
    /// let found = searcher.find_in(haystack, Span { start: 2, end: 7 });
    /// assert!(rt; found.map(|it| it.range()) == Some(2..5));
    /// ```
    pub fn find_in(&self, haystack: &[u8], span: Span) -> Option<Match>
        requires { IsValidSpan haystack.now span }
        ensures leftmost { IsLeftmost self.now false haystack.now span result }
        ensures not_empty { IfSome result (λ found. found.start < found.end) }
    {
        let mut tally = Tally::new();
        self.find_in_counted(haystack, span, &mut tally)
    }

    /// Like [`Searcher::find_in`], and adds its steps to a tally. No byte is scanned and no offset tried.
    pub fn find_in_counted(&self, haystack: &[u8], span: Span, tally: &mut Tally) -> Option<Match>
        requires { IsValidSpan haystack.now span }
        ensures leftmost { IsLeftmost self.now false haystack.now span result }
        ensures not_empty { IfSome result (λ found. found.start < found.end) }
        ensures exact { tally.new ≡ counts_after tally.old self.now haystack.now span result }
    {
        // `find_at` searches to the end of its haystack, which is the end of the span.
        let haystack = &haystack[..span.end];
        self.rabin_karp
            .find_at(&self.patterns, haystack, span.start, tally)
    }

    /// An iterator over all matches in the haystack that do not overlap: first the leftmost match, then each time the
    /// leftmost match after the end of the previous one. The iterator borrows the haystack, and ends with its first
    /// `None`.
    ///
    /// ```rust
    /// let mut starts = Vec::new(alloc);
    /// for found in searcher.find_iter(haystack) {
    ///     starts.push(found.start())?;
    /// }
    /// assert!(rt; starts.as_slice() == [2, 12].as_slice());
    /// ```
    pub fn find_iter<'s, 'h>(&'s self, haystack: &'h [u8]) -> FindIter<'s, 'h>
        ensures { result ≡ record { query = self.now; haystack = haystack.now; at = 0; counts = none_yet } }
    {
        FindIter {
            searcher: self,
            haystack,
            at: 0,
            tally: Tally::new(),
        }
    }

    /// The list of all matches that [`Searcher::find_iter`] gives. Its steps are added to the tally, also those before
    /// memory was refused. Memory is requested only if there is a match.
    pub fn find_all(&self, haystack: &[u8], tally: &mut Tally) -> Result<Vec<Match>, AllocError>
        ensures greedy { IfOk result (λ all. IsGreedy self.now false haystack.now 0 all.items) }
        ensures exact { IfOk result (λ all. tally.new ≡ counts_after_all tally.old self.now haystack.now 0 all.items) }
        ensures bounded { SpendsWithin self.now haystack.now tally.old tally.new }
        ensures no_memory { OnErr result (RefusesList self.now false haystack.now (λ found.
            tally.new ≡ counts_after_matches tally.old self.now haystack.now 0 found)) }
    {
        // A confirming search has the same loop over its own search, whose contract counts other steps.
        let _ = self.match_kind(); // (its contract says that no pattern is empty)
        let mut all = Vec::new(self.patterns.allocator());
        let mut rest = Span {
            start: 0,
            end: haystack.len(),
        };
        while let Some(found) = self.find_in_counted(haystack, rest, tally) {
            all.push(found)?;
            rest.start = found.end();
        }
        Ok(all)
    }

    /// Which occurrence is the match. A searcher has 1 to [`Config::MAX_PATTERN_LIMIT`] patterns, none of them empty.
    pub fn match_kind(&self) -> &MatchKind
        ensures kind { result.now ≡ self.now.kind }
        ensures patterns { IsBuildableQuery self.now }
    {
        let _ = self.patterns.len(); // (its contract says that no pattern is empty)
        self.patterns.match_kind()
    }

    /// The length in bytes below which a haystack is too short for a search: always 0.
    pub fn minimum_len(&self) -> usize
        ensures { result ≡ 0 }
    {
        0
    }

    /// A copy with the same patterns and match kind. Memory may be refused. The searcher is unchanged.
    pub fn try_clone(&self) -> Result<Searcher, AllocError>
        ensures { IfOk result (λ copy. copy ≡ self.now) }
    {
        let patterns = self.patterns.try_clone()?;
        let rabin_karp = self.rabin_karp.try_clone()?;
        Ok(Searcher {
            patterns,
            rabin_karp,
        })
    }
}

/// Shows which occurrence is the match, and the number of patterns.
impl fmt::Debug for Searcher {
    fn fmt<W: fmt::Write>(&self, f: &mut fmt::Formatter<W>) -> fmt::Result {
        let kind = *self.patterns.match_kind();
        let len = self.patterns.len();
        write!(f, "Searcher {{ kind: {kind:?}, len: {len} }}")
    }
}

/// The iterator of [`Searcher::find_iter`]. Contracts see the query, the haystack, the offset from which the search
/// continues, and the steps so far. After its first `None` it always answers `None`.
#[derive(Drop)]
pub struct FindIter<'s, 'h> {
    searcher: &'s Searcher,
    haystack: &'h [u8],
    at: usize,
    tally: Tally,
}

impl<'s, 'h> Model for FindIter<'s, 'h> {
    ghost use Rattle.std.specs.Prelude.{◌≤◌, length};
    ghost use Rattle.literal_packed.specs.FindIterValue.{FindIterValue};

    ghost Value = { FindIterValue };

    ghost view = { λ a. record { query = a.searcher.now; haystack = a.haystack.now; at = a.at; counts = a.tally } };

    ghost invariant = { λ a. a.at ≤ length a.haystack.now };
}

impl<'s, 'h> FindIter<'s, 'h> {
    /// The tally of the steps of the iteration.
    pub fn into_tally(self) -> Tally
        ensures { result ≡ self.entry.counts }
    {
        self.tally
    }
}

impl<'s, 'h> Iterator for FindIter<'s, 'h> {
    type Item = Match;

    ghost next_gives = { FindsNext };

    ghost remaining = { bytes_left };

    fn next(&mut self) -> Option<Match> {
        let rest = Span {
            start: self.at,
            end: self.haystack.len(),
        };
        let Some(found) = self
            .searcher
            .find_in_counted(self.haystack, rest, &mut self.tally)
        else {
            self.at = self.haystack.len();
            return None;
        };
        self.at = found.end();
        Some(found)
    }
}
