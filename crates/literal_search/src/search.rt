//! The search for leftmost matches of any number of patterns.
ghost use Rattle.std.specs.Prelude.{◌≡◌, ◌+◌, ◌-◌, ◌*◌, ◌<◌, ◌≤◌, ◌^◌, ◌↔◌, ◌++◌, ◌∷◌, [], ℕ, length, map, reverse};
ghost use Rattle.std.specs.Prelude.{IfErr, IfOk, IfSome, IsTrue, MatchOption, OnErr};
ghost use Rattle.std.specs.List.{repeat};
ghost use Rattle.literal_base.specs.Given.{CanBeTaken};
ghost use Rattle.literal_base.specs.Leftmost.{IsLeftmost};
ghost use Rattle.literal_base.specs.Occurs.{IsValidSpan, Occurs, between, one_occurs, pattern_at};
ghost use Rattle.literal_base.specs.Occurs.{rest_from, whole_of};
ghost use Rattle.literal_base.specs.declared.packed.MatchKind.TheVariants.{LeftmostLongest};
ghost use Rattle.literal_search.specs.At.{IsMatchAt, IsMatchIn, IsNextInList, ScansAt};
ghost use Rattle.literal_search.specs.SearchValue.{BuildsSearch, CanBeKept, NeedFewReversed};
ghost use Rattle.literal_search.specs.SearchValue.{NeedTooManyReversed, RefusesSearch, ScansWithin};
ghost use Rattle.literal_search.specs.SearchValue.{longest_of, reversed, search_by, shortest_of};
ghost use Rattle.literal_search.specs.Memory.{TakesBytes};
ghost use Rattle.literal_search.specs.Prepared.{AreShort, RefusesToPrepare, TakesPlaces, WritesPrepared, longest_in};
ghost use Rattle.literal_leftmost.specs.Inside.Backward.{AreBackFor, IsSafe, back_tables_by};
ghost use Rattle.literal_search.specs.Inside.Search.{AreKept, AreParts, search_value, tables_of};

use crate::patterns::Patterns;
use crate::{BuildError, copies, push_copy, shortest_len};
use literal_base::count::Tally;
use literal_base::packed::MatchKind;
use literal_base::{Match, Span};
use literal_ids::PatternID;
use literal_leftmost::backward::Backward;
use literal_leftmost::prepared_search::backward_in;
use literal_rows::array::ArrayTooShort;
use literal_rows::classes::classes_for;
use literal_rows::grow::GrowError;
use literal_rows::numbers::{Numbers, prints_for};
use literal_rows::shadowed::{backward_rows, links_for};
use literal_rows::total_bytes;
use literal_words::word_search::earlier;
use std::alloc::{AllocError, Global};
use std::fmt;
use std::marker::Model;

/// Searches for leftmost matches of any number of patterns at once. Contracts see the match kind, the patterns, and
/// whether ASCII case is ignored.
///
/// A search looks up at most three times the bytes of the haystack. So does a list of all matches or an iteration, for
/// any number of matches, if no pattern has 262,000 bytes; for each whole 262,000 bytes of the longest pattern it may
/// look up each byte once more.
///
/// A search walks backward through blocks of the haystack, with an automaton of the reversed patterns. Its state at an
/// offset says which patterns begin there. The automaton has a state for each distinct suffix of a pattern, and a row
/// of numbers for each state: one for each distinct byte of the patterns, and two more (one, if all 256 bytes occur).
/// With [`MatchKind::LeftmostFirst`], a pattern never matches if an earlier one is its prefix; it adds no states.
///
/// ```rust
/// let words = [b"password".as_slice(), b"secret"];
/// let search = Search::new(alloc, MatchKind::LeftmostFirst, true, words)?;
/// let found = search.find(b"My Secret.").ok_or("nothing is found")?;
/// assert!(rt; found.pattern().as_usize() == 1 && found.range() == (3..9));
/// ```
#[derive(Drop)]
pub struct Search {
    pub(crate) parts: Parts,
}

/// The data of a search.
#[derive(Drop)]
pub struct Parts {
    kind: MatchKind,
    ignore_case: bool,
    patterns: Vec<Vec<u8>>,
    numbers: Numbers,
}

impl Model for Search {
    ghost use Rattle.literal_search.specs.SearchValue.{SearchValue};
    ghost use Rattle.literal_search.specs.Inside.Search.{AreParts, search_value};

    ghost Value = { SearchValue };

    ghost view = { λ l. search_value l.parts };

    ghost invariant = { λ l. AreParts l.parts };
}

impl Search {
    /// Builds a search for the patterns that an iterator gives, with this match kind, and with ASCII case ignored or
    /// kept. The iterator has to end. The list may be empty: such a search finds nothing and allocates nothing.
    /// Otherwise it allocates only for a pattern that is kept, and after the last one. [`BuildError`] lists the errors.
    pub fn new<'a, I: IntoIterator<Item = &'a [u8]>>(
        alloc: Global,
        kind: MatchKind,
        ignore_case: bool,
        patterns: I,
    ) -> Result<Search, BuildError>
        requires { CanBeTaken I.into_iter_gives I.IntoIter.can_next I.IntoIter.remaining patterns }
        ensures ok { IfOk result
            (BuildsSearch I.into_iter_gives I.IntoIter.next_gives patterns kind ignore_case) }
        ensures few { IfOk result (λ search. NeedFewReversed ignore_case search.query.patterns) }
        ensures error { IfErr result (RefusesSearch I.into_iter_gives I.IntoIter.next_gives patterns
            (NeedTooManyReversed ignore_case)) }
    {
        let patterns = copies(alloc, patterns)?;
        let numbers = numbers_of(alloc, kind, ignore_case, &patterns)?;
        let parts = Parts {
            kind,
            ignore_case,
            patterns,
            numbers,
        };
        Ok(Search { parts })
    }

    /// Returns the leftmost match in the whole haystack, as [`Search::find_in`] does for a span.
    pub fn find(&self, haystack: &[u8]) -> Option<Match>
        ensures leftmost { IsLeftmost self.now.query self.now.ignore_case haystack.now (whole_of haystack.now) result }
        ensures not_empty { IfSome result (λ found. found.start < found.end) }
    {
        let end = haystack.len();
        self.find_in(haystack, Span { start: 0, end })
    }

    /// Returns the leftmost match in a span of the haystack. Only occurrences that lie whole in the span count. The one
    /// that begins first wins; if several begin there, the match kind decides. All offsets are in bytes of the whole
    /// haystack. The span has to be valid: `start` is at most `end`, and `end` at most the haystack's length. Allocates
    /// nothing.
    pub fn find_in(&self, haystack: &[u8], span: Span) -> Option<Match>
        requires { IsValidSpan haystack.now span }
        ensures leftmost { IsLeftmost self.now.query self.now.ignore_case haystack.now span result }
        ensures not_empty { IfSome result (λ found. found.start < found.end) }
    {
        self.find_in_counted(haystack, span, &mut Tally::new())
    }

    /// Like [`Search::find_in`], and counts each looked-up byte in the tally, as scanned. These are at most three times
    /// the bytes of the span. They are at least the bytes of the span, or those up to the end of the match. With a
    /// match, they are also at most eleven times the bytes before it plus 36 times the first part, which has 16 bytes,
    /// or half the longest pattern's length plus 3 if that is more.
    pub fn find_in_counted(&self, haystack: &[u8], span: Span, tally: &mut Tally) -> Option<Match>
        requires { IsValidSpan haystack.now span }
        ensures leftmost { IsLeftmost self.now.query self.now.ignore_case haystack.now span result }
        ensures not_empty { IfSome result (λ found. found.start < found.end) }
        ensures bounded { ScansWithin self.now.query.patterns span result tally.old tally.new }
    {
        match self.parts.backward().find_in(haystack, span, tally) {
            Ok(answer) => answer,
            Err(_) => unreachable!(),
        }
    }

    /// Returns whether a pattern occurs in the haystack.
    pub fn is_match(&self, haystack: &[u8]) -> bool
        ensures occurs { IsTrue result ↔ ((i : ℕ) × (at : ℕ)
            × Occurs self.now.query.patterns self.now.ignore_case haystack.now (whole_of haystack.now) i at) }
        ensures told { result ≡ one_occurs self.now.query.patterns self.now.ignore_case haystack.now }
    {
        self.find(haystack).is_some()
    }

    /// Returns the match that begins at an offset: of the patterns that occur there, the one that the match kind
    /// prefers, or `None`. A lexer can call it for each token. The offset has to be at most the haystack's length.
    pub fn match_at(&self, haystack: &[u8], at: usize) -> Option<Match>
        requires { at ≤ length haystack.now }
        ensures at { IsMatchAt self.now.query self.now.ignore_case haystack.now at result }
        ensures not_empty { IfSome result (λ found. found.start < found.end) }
    {
        let end = haystack.len();
        self.match_in(haystack, Span { start: at, end })
    }

    /// Returns the match that begins at the start of a span: of the patterns that occur there, whole in the span, the
    /// one that the match kind prefers, or `None`. With `MatchKind::LeftmostLongest`, the next shorter match is the one
    /// in the span that ends one byte before this match. The span has to be valid.
    pub fn match_in(&self, haystack: &[u8], span: Span) -> Option<Match>
        requires { IsValidSpan haystack.now span }
        ensures at { IsMatchIn self.now.query self.now.ignore_case haystack.now span result }
        ensures not_empty { IfSome result (λ found. found.start < found.end) }
    {
        self.match_in_counted(haystack, span, &mut Tally::new())
    }

    /// Returns the first pattern in the list, from number `from` on, that occurs at the start of a span, whole in it,
    /// or `None`. An engine that prefers earlier patterns can try them in turn with it. Of equal patterns only the
    /// first counts. The span has to be valid. The match kind has to be [`MatchKind::LeftmostLongest`]: with the other
    /// kind, a pattern never matches if an earlier one is its prefix.
    pub fn next_in_list(&self, haystack: &[u8], span: Span, from: usize) -> Option<Match>
        requires valid { IsValidSpan haystack.now span }
        requires longest { self.now.query.kind ≡ LeftmostLongest }
        ensures next { IsNextInList self.now.query.patterns self.now.ignore_case haystack.now span from result }
        ensures not_empty { IfSome result (λ found. found.start < found.end) }
    {
        let mut next = None;
        let mut rest = span;
        while let Some(found) = self.match_in(haystack, rest) {
            if found.pattern().as_usize() >= from {
                next = Some(earlier(next, found));
            }
            rest.end = found.end() - 1;
        }
        next
    }

    /// Like [`Search::match_in`], and counts each looked-up byte in the tally, as scanned: at most the length of the
    /// longest pattern and of the span, and at least the length of the match.
    pub fn match_in_counted(&self, haystack: &[u8], span: Span, tally: &mut Tally) -> Option<Match>
        requires { IsValidSpan haystack.now span }
        ensures at { IsMatchIn self.now.query self.now.ignore_case haystack.now span result }
        ensures not_empty { IfSome result (λ found. found.start < found.end) }
        ensures bounded { ScansAt self.now.query.patterns span result tally.old tally.new }
    {
        match self.parts.backward().find_at(haystack, span, tally) {
            Ok(answer) => answer,
            Err(_) => unreachable!(),
        }
    }

    /// Like [`Search::match_at`], and counts each looked-up byte in the tally, as scanned: at most the length of the
    /// longest pattern, and at least the length of the match.
    pub fn match_at_counted(&self, haystack: &[u8], at: usize, tally: &mut Tally) -> Option<Match>
        requires { at ≤ length haystack.now }
        ensures at { IsMatchAt self.now.query self.now.ignore_case haystack.now at result }
        ensures not_empty { IfSome result (λ found. found.start < found.end) }
        ensures bounded { ScansAt self.now.query.patterns (rest_from haystack.now at) result tally.old tally.new }
    {
        let end = haystack.len();
        self.match_in_counted(haystack, Span { start: at, end }, tally)
    }

    /// Writes the search into the first entries of an array, for [`Prepared`](crate::Prepared), and returns their
    /// number. If the array is too short, it is unchanged.
    pub fn prepare(&self, array: &mut [u32]) -> Result<usize, ArrayTooShort>
        ensures ok { IfOk result (WritesPrepared self.now array.old array.new) }
        ensures error { IfErr result (RefusesToPrepare self.now array.old) }
        ensures as_before { OnErr result (array.new ≡ array.old) }
    {
        self.parts.numbers.put(array)
    }

    /// Like [`Search::prepare`], and frees the search while it writes, so that the two are not in memory at once.
    pub fn into_prepared(self, array: &mut [u32]) -> Result<usize, ArrayTooShort>
        ensures ok { IfOk result (WritesPrepared self array.old array.new) }
        ensures error { IfErr result (RefusesToPrepare self array.old) }
        ensures as_before { OnErr result (array.new ≡ array.old) }
    {
        self.parts.numbers.put_all(array)
    }

    /// The parts that a backward walk reads.
    pub(crate) fn backward(&self) -> Backward<'_>
        ensures safe { IsSafe result }
        ensures is_for { AreBackFor self.now result }
    {
        self.parts.backward()
    }

    /// The allocator of the search.
    pub(crate) fn allocator(&self) -> Global {
        *self.parts.patterns.allocator()
    }

    /// Returns how many entries [`Search::prepare`] writes. An array of this length or longer is long enough.
    #[tactic(auto, using(crate::proofs::lemmas::BackTables::takes_kept))]
    pub fn prepared_len(&self) -> usize
        ensures { TakesPlaces self.now result }
    {
        self.parts.numbers.as_slice().len()
    }

    /// Returns how many bytes the search takes: 4 for each entry that [`Search::prepare`] writes, and one for each byte
    /// of a pattern. Rounding by the allocator, and the list of where each pattern is, are not counted.
    pub fn memory_usage(&self) -> u128
        ensures { TakesBytes self.now result }
    {
        let numbers = self.parts.numbers.as_slice();
        numbers.len() as u128 * 4 + total_bytes(&self.parts.patterns)
    }

    /// Returns the match kind, which decides between patterns that match at the same offset.
    pub fn match_kind(&self) -> MatchKind
        ensures { result ≡ self.now.query.kind }
    {
        self.parts.kind
    }

    /// Returns whether ASCII case is ignored.
    pub fn ignores_case(&self) -> bool
        ensures { result ≡ self.now.ignore_case }
    {
        self.parts.ignore_case
    }

    /// Returns the number of patterns. None of them is empty.
    pub fn patterns_len(&self) -> usize
        ensures len { result ≡ length self.now.query.patterns }
        ensures patterns { CanBeKept self.now.query.patterns }
    {
        self.parts.patterns.len()
    }

    /// Returns the length in bytes of the longest pattern, or 0 if there is none.
    pub fn max_pattern_len(&self) -> usize
        ensures { result ≡ longest_of self.now.query.patterns }
    {
        self.parts.longest()
    }

    /// Returns the length in bytes of the shortest pattern, or 0 if there is none. It visits all patterns.
    pub fn min_pattern_len(&self) -> usize
        ensures { result ≡ shortest_of self.now.query.patterns }
    {
        if self.parts.patterns.is_empty() {
            return 0;
        }
        shortest_len(&self.parts.patterns)
    }

    /// Returns an iterator over the patterns, as they were given, in the order of their numbers.
    pub fn patterns(&self) -> Patterns<'_>
        ensures { result ≡ self.now.query.patterns }
    {
        Patterns::of(&self.parts.patterns)
    }

    /// Returns the bytes of the pattern with this number, as they were given, or `None` if there is no such pattern.
    pub fn pattern(&self, id: PatternID) -> Option<&[u8]>
        ensures { MatchOption result (length self.now.query.patterns ≤ id)
            (λ bytes. (id < length self.now.query.patterns) × (bytes.now ≡ pattern_at self.now.query.patterns id)) }
    {
        let pattern = self.parts.patterns.get(id.as_usize())?;
        Some(pattern.as_slice())
    }

    /// Returns a copy with the same match kind, patterns and case. It takes as much memory as the original, and none if
    /// there is no pattern, but no time to build the automaton.
    pub fn try_clone(&self) -> Result<Search, AllocError>
        ensures copy { IfOk result (λ copy. copy ≡ self.now) }
        ensures no_memory { OnErr result (0 < length self.now.query.patterns) }
    {
        let Parts {
            kind,
            ignore_case,
            patterns,
            numbers,
        } = &self.parts;
        let alloc = *patterns.allocator();
        let copied = copy_of_lists(alloc, patterns)?;
        let numbers = numbers.copy(alloc, *kind, patterns)?;
        let parts = Parts {
            kind: *kind,
            ignore_case: *ignore_case,
            patterns: copied,
            numbers,
        };
        Ok(Search { parts })
    }
}

/// Shows the match kind, whether ASCII case is ignored, and the number of patterns.
impl fmt::Debug for Search {
    fn fmt<W: fmt::Write>(&self, f: &mut fmt::Formatter<W>) -> fmt::Result {
        let (kind, ignore_case) = (self.match_kind(), self.ignores_case());
        let patterns = self.patterns_len();
        write!(
            f,
            "Search {{ kind: {kind:?}, ignore_case: {ignore_case}, patterns: {patterns} }}"
        )
    }
}

impl Parts {
    /// The length of the longest pattern.
    fn longest(&self) -> usize
        requires { AreParts self.now }
        ensures { result ≡ longest_in self.now.numbers }
    {
        self.backward().table.longest
    }

    /// The parts that a backward walk reads.
    pub(crate) fn backward(&self) -> Backward<'_>
        requires { AreParts self.now }
        ensures safe { IsSafe result }
        ensures is_for { AreBackFor (search_value self.now) result }
        ensures tables { back_tables_by (search_value self.now) result ≡ tables_of self.now }
        ensures longest { result.table.longest ≡ longest_in self.now.numbers }
    {
        match backward_in(self.numbers.as_slice()) {
            Ok(backward) => backward,
            Err(_) => unreachable!(),
        }
    }
}

/// Builds the numbers of a search for some patterns. Allocates only if there is a pattern.
fn numbers_of(
    alloc: Global,
    kind: MatchKind,
    ignore_case: bool,
    patterns: &[Vec<u8>],
) -> Result<Numbers, GrowError>
    requires { CanBeKept (map (λ pattern. pattern.items) patterns.now) }
    ensures kept { IfOk result
        (AreKept (search_by kind ignore_case (map (λ pattern. pattern.items) patterns.now))) }
    ensures few { IfOk result (λ _. NeedFewReversed ignore_case (map (λ pattern. pattern.items) patterns.now)) }
    ensures too_many { IfErr result (λ error. error ≡ GrowError.TooManyStates
        → NeedTooManyReversed ignore_case (map (λ pattern. pattern.items) patterns.now)) }
    ensures some { OnErr result (0 < length patterns.now) }
{
    if patterns.is_empty() {
        return Ok(Numbers::for_none(alloc, Some(kind)));
    }
    let classes = classes_for(ignore_case, patterns);
    let rows = backward_rows(alloc, kind, &classes, patterns)?;
    let links = links_for(alloc, kind, &classes, patterns, &rows)?;
    let prints = prints_for(ignore_case, patterns);
    let numbers = Numbers::assembled(
        alloc,
        Some(kind),
        &classes,
        patterns,
        rows,
        &[],
        &links,
        &prints,
    )?;
    Ok(numbers)
}

/// Copies a list of patterns.
fn copy_of_lists(alloc: Global, lists: &[Vec<u8>]) -> Result<Vec<Vec<u8>>, AllocError>
    ensures copy { IfOk result (λ copy. map (λ pattern. pattern.items) copy.items
        ≡ map (λ pattern. pattern.items) lists.now) }
    ensures no_memory { OnErr result (0 < length lists.now) }
{
    let mut copy = Vec::new(alloc);
    for bytes in lists {
        push_copy(alloc, &mut copy, bytes)?;
    }
    Ok(copy)
}
