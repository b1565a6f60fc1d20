//! The search for every occurrence.
ghost use Rattle.std.specs.Prelude.{◌≡◌, ◌+◌, ◌-◌, ◌<◌, ◌≤◌, ◌^◌, ◌++◌, ◌∷◌, [], ℕ, length, map, slice_index};
ghost use Rattle.std.specs.Prelude.{◌↔◌, IfErr, IfOk, IsTrue, MatchOption, None, OnErr};
ghost use Rattle.std.specs.List.{repeat};
ghost use Rattle.std.specs.Option.{option_map};
ghost use Rattle.literal_base.specs.Occurs.{IsValidSpan, Occurs, between, one_occurs, pattern_at, whole_of};
ghost use Rattle.literal_base.specs.Given.{CanBeTaken};
ghost use Rattle.literal_search.specs.SearchValue.{CanBeKept, NeedFewStates, NeedTooManyStates, RefusesSearch};
ghost use Rattle.literal_search.specs.SearchValue.{longest_of};
ghost use Rattle.literal_search.specs.Earliest.{IsEarliestEnd, ScansToEndWithin};
ghost use Rattle.literal_search.specs.Memory.{TakesListedBytes};
ghost use Rattle.literal_search.specs.Overlapping.{BuildsOverlapping, IsOverlappingCount};
ghost use Rattle.literal_search.specs.OverlappingMatchesValue.{GivesOverlapping, most_overlapping, occurrences_in};
ghost use Rattle.literal_search.specs.Prepared.{AreShort};
ghost use Rattle.literal_search.specs.PreparedOverlapping.{RefusesOverlapping, TakesListedPlaces, WritesOverlapping};
ghost use Rattle.literal_search.specs.PreparedOverlapping.{overlapping_value};
ghost use Rattle.literal_occurrences.specs.Inside.LentTables.{AreFor, AreLent};
ghost use Rattle.literal_occurrences.specs.Inside.LentTables.{AreListed};
ghost use Rattle.literal_search.specs.Inside.Overlapping.{AreParts, overlapping_of};

use crate::patterns::Patterns;
use crate::{BuildError, copies, shortest_len};
use literal_base::count::Tally;
use literal_base::{Match, Span};
use literal_ids::PatternID;
use literal_occurrences::automaton::Automaton;
use literal_occurrences::position::Position;
use literal_occurrences::prepared_overlapping::{LentTables, lent_in};
use literal_rows::array::ArrayTooShort;
use literal_rows::classes::classes_for;
use literal_rows::grow::{GrowError, grow};
use literal_rows::numbers::{Numbers, prints_for};
use literal_rows::suffixes::Recognised;
use literal_rows::total_bytes;
use std::alloc::{AllocError, Global};
use std::fmt;
use std::marker::Model;

/// Searches for every occurrence of any number of patterns, also of those that overlap or lie within others. Contracts
/// see the patterns, and whether ASCII case is ignored.
///
/// An iteration looks up at most three times the bytes of the haystack ([`OverlappingMatches::next_counted`]). The
/// search has the states of an automaton, and for each pattern the list of the patterns that are suffixes of it.
///
/// ```rust
/// let search = Overlapping::new(alloc, false, [b"append".as_slice(), b"app", b"end"])?;
/// let mut matches = search.find_overlapping_iter(b"append");
/// let first = matches.next().ok_or("nothing is found")?;
/// assert!(rt; first.pattern().as_usize() == 1 && first.range() == (0..3));
/// ```
#[derive(Drop)]
pub struct Overlapping {
    parts: Parts,
}

/// The data of a search.
#[derive(Drop)]
pub struct Parts {
    ignore_case: bool,
    patterns: Vec<Vec<u8>>,
    numbers: Numbers,
}

impl Model for Overlapping {
    ghost use Rattle.literal_search.specs.Overlapping.{OverlappingValue};
    ghost use Rattle.literal_search.specs.Inside.Overlapping.{AreParts, overlapping_of};

    ghost Value = { OverlappingValue };

    ghost view = { λ o. overlapping_of o.parts };

    ghost invariant = { λ o. AreParts o.parts };
}

impl Overlapping {
    /// Builds a search for the patterns that an iterator gives, with ASCII case ignored or kept. The iterator has to
    /// end. The list may be empty: such a search finds nothing and allocates nothing. Otherwise it allocates only for a
    /// pattern that is kept, and after the last one. [`BuildError`] lists the errors. If the lists of suffixes would
    /// have 2^32 numbers or more, it is [`BuildError::OutOfMemory`].
    pub fn new<'a, I: IntoIterator<Item = &'a [u8]>>(
        alloc: Global,
        ignore_case: bool,
        patterns: I,
    ) -> Result<Overlapping, BuildError>
        requires { CanBeTaken I.into_iter_gives I.IntoIter.can_next I.IntoIter.remaining patterns }
        ensures ok { IfOk result
            (BuildsOverlapping I.into_iter_gives I.IntoIter.next_gives patterns ignore_case) }
        ensures few { IfOk result (λ search. NeedFewStates ignore_case search.patterns) }
        ensures error { IfErr result (RefusesSearch I.into_iter_gives I.IntoIter.next_gives patterns
            (NeedTooManyStates ignore_case)) }
    {
        let patterns = copies(alloc, patterns)?;
        let numbers = numbers_of(alloc, ignore_case, &patterns)?;
        let parts = Parts {
            ignore_case,
            patterns,
            numbers,
        };
        Ok(Overlapping { parts })
    }

    /// Returns an iterator over every occurrence in the whole haystack ([`Overlapping::find_overlapping_in`]).
    pub fn find_overlapping_iter<'s, 'h>(&'s self, haystack: &'h [u8]) -> OverlappingMatches<'s, 'h>
        ensures { result ≡ occurrences_in self.now haystack.now (whole_of haystack.now) }
    {
        let end = haystack.len();
        self.find_overlapping_in(haystack, Span { start: 0, end })
    }

    /// Returns an iterator over every occurrence that lies whole in a span of the haystack, in the order of their ends
    /// and, at one end, of the pattern numbers. All offsets are in bytes of the whole haystack. The span has to be
    /// valid: `start` is at most `end`, and `end` at most the haystack's length. The iterator borrows the haystack. It
    /// ends with its first `None`.
    pub fn find_overlapping_in<'s, 'h>(
        &'s self,
        haystack: &'h [u8],
        span: Span,
    ) -> OverlappingMatches<'s, 'h>
        requires { IsValidSpan haystack.now span }
        ensures { result ≡ occurrences_in self.now haystack.now span }
    {
        let lent = self.parts.lent();
        let position = lent.before_all(haystack, span);
        OverlappingMatches {
            parts: &self.parts,
            lent,
            haystack,
            span,
            position,
        }
    }

    /// Returns the earliest end of an occurrence that lies whole in a span, as an offset in the whole haystack, or
    /// `None` if nothing occurs in the span. It is known sooner than the leftmost match, and may be the end of another
    /// match. The span has to be valid.
    pub fn earliest_end(&self, haystack: &[u8], span: Span) -> Option<usize>
        requires { IsValidSpan haystack.now span }
        ensures { IsEarliestEnd self.now.patterns self.now.ignore_case haystack.now span result }
    {
        self.earliest_end_counted(haystack, span, &mut Tally::new())
    }

    /// Like [`Overlapping::earliest_end`], and counts each looked-up byte in the tally, as scanned: at least the bytes
    /// up to that end, or those of the span if nothing occurs, and at most three times as many.
    pub fn earliest_end_counted(
        &self,
        haystack: &[u8],
        span: Span,
        tally: &mut Tally,
    ) -> Option<usize>
        requires { IsValidSpan haystack.now span }
        ensures end { IsEarliestEnd self.now.patterns self.now.ignore_case haystack.now span result }
        ensures bounded { ScansToEndWithin span result tally.old tally.new }
    {
        match self.parts.lent().earliest_end(haystack, span, tally) {
            Ok(end) => end,
            Err(_) => unreachable!(),
        }
    }

    /// Returns the number of all occurrences that lie whole in a span, that is of the matches that
    /// [`Overlapping::find_overlapping_in`] gives. It is faster than they are. The span has to be valid.
    ///
    /// ```rust
    /// let search = Overlapping::new(alloc, false, [b"append".as_slice(), b"app", b"end"])?;
    /// assert!(rt; search.count_overlapping_in(b"append", Span { start: 0, end: 6 }) == 3);
    /// ```
    pub fn count_overlapping_in(&self, haystack: &[u8], span: Span) -> u128
        requires { IsValidSpan haystack.now span }
        ensures { IsOverlappingCount self.now.patterns self.now.ignore_case haystack.now span result }
    {
        self.count_overlapping_counted(haystack, span, &mut Tally::new())
    }

    /// Like [`Overlapping::count_overlapping_in`], and counts each looked-up byte in the tally, as scanned: at least
    /// the bytes of the span, and at most three times as many.
    pub fn count_overlapping_counted(&self, haystack: &[u8], span: Span, tally: &mut Tally) -> u128
        requires { IsValidSpan haystack.now span }
        ensures count { IsOverlappingCount self.now.patterns self.now.ignore_case haystack.now span result }
        ensures bounded { ScansToEndWithin span None tally.old tally.new }
    {
        match self.parts.lent().count_in(haystack, span, tally) {
            Ok(count) => count,
            Err(_) => unreachable!(),
        }
    }

    /// Returns whether a pattern occurs in the haystack.
    pub fn is_match(&self, haystack: &[u8]) -> bool
        ensures occurs { IsTrue result ↔ ((i : ℕ) × (at : ℕ)
            × Occurs self.now.patterns self.now.ignore_case haystack.now (whole_of haystack.now) i at) }
        ensures told { result ≡ one_occurs self.now.patterns self.now.ignore_case haystack.now }
    {
        let end = haystack.len();
        self.earliest_end(haystack, Span { start: 0, end })
            .is_some()
    }

    /// Writes the search into the first entries of an array, for [`PreparedOverlapping`](crate::PreparedOverlapping),
    /// and returns their number. If the array is too short, it is unchanged.
    pub fn prepare(&self, array: &mut [u32]) -> Result<usize, ArrayTooShort>
        ensures ok { IfOk result (WritesOverlapping self.now array.old array.new) }
        ensures error { IfErr result (RefusesOverlapping self.now array.old) }
        ensures as_before { OnErr result (array.new ≡ array.old) }
    {
        self.parts.numbers.put(array)
    }

    /// Like [`Overlapping::prepare`], and frees the search while it writes, so that the two are not in memory at once.
    pub fn into_prepared(self, array: &mut [u32]) -> Result<usize, ArrayTooShort>
        ensures ok { IfOk result (WritesOverlapping self array.old array.new) }
        ensures error { IfErr result (RefusesOverlapping self array.old) }
        ensures as_before { OnErr result (array.new ≡ array.old) }
    {
        self.parts.numbers.put_all(array)
    }

    /// Returns how many entries [`Overlapping::prepare`] writes. An array of this length or longer is long enough.
    #[tactic(auto, using(literal_occurrences::proofs::lemmas::LentTables::takes_listed))]
    pub fn prepared_len(&self) -> usize
        ensures { TakesListedPlaces self.now result }
    {
        self.parts.numbers.as_slice().len()
    }

    /// Returns how many bytes the search takes: 4 for each entry that [`Overlapping::prepare`] writes, and one for each
    /// byte of a pattern. Rounding by the allocator, and the list of where each pattern is, are not counted.
    pub fn memory_usage(&self) -> u128
        ensures { TakesListedBytes self.now result }
    {
        let numbers = self.parts.numbers.as_slice();
        numbers.len() as u128 * 4 + total_bytes(&self.parts.patterns)
    }

    /// Returns the automaton of the patterns, for a caller's own loops.
    pub fn automaton(&self) -> Automaton<'_>
        ensures { overlapping_value result ≡ self.now }
    {
        Automaton::of(
            self.parts.ignore_case,
            &self.parts.patterns,
            self.parts.lent(),
        )
    }

    /// Returns the number of patterns. None of them is empty.
    pub fn patterns_len(&self) -> usize
        ensures len { result ≡ length self.now.patterns }
        ensures patterns { CanBeKept self.now.patterns }
    {
        self.parts.patterns.len()
    }

    /// Returns an iterator over the patterns, as they were given, in the order of their numbers.
    pub fn patterns(&self) -> Patterns<'_>
        ensures { result ≡ self.now.patterns }
    {
        Patterns::of(&self.parts.patterns)
    }

    /// Returns the bytes of the pattern with this number, as they were given, or `None` if there is no such pattern.
    pub fn pattern(&self, id: PatternID) -> Option<&[u8]>
        ensures { MatchOption result (length self.now.patterns ≤ id)
            (λ bytes. (id < length self.now.patterns) × (bytes.now ≡ pattern_at self.now.patterns id)) }
    {
        let pattern = self.parts.patterns.get(id.as_usize())?;
        Some(pattern.as_slice())
    }

    /// Returns the length in bytes of the longest pattern, or 0 if there is none.
    pub fn max_pattern_len(&self) -> usize
        ensures { result ≡ longest_of self.now.patterns }
    {
        self.parts.lent().table().longest
    }

    /// Returns whether ASCII case is ignored.
    pub fn ignores_case(&self) -> bool
        ensures { result ≡ self.now.ignore_case }
    {
        self.parts.ignore_case
    }
}

/// Shows whether ASCII case is ignored, and the number of patterns.
impl fmt::Debug for Overlapping {
    fn fmt<W: fmt::Write>(&self, f: &mut fmt::Formatter<W>) -> fmt::Result {
        let (ignore_case, patterns) = (self.ignores_case(), self.patterns_len());
        write!(
            f,
            "Overlapping {{ ignore_case: {ignore_case}, patterns: {patterns} }}"
        )
    }
}

impl Parts {
    /// The parts of the numbers, which a search reads.
    pub fn lent(&self) -> LentTables<'_>
        requires { AreParts self.now }
        ensures lent { AreLent result }
        ensures is_for { AreFor (overlapping_of self.now) result }
    {
        match lent_in(self.numbers.as_slice()) {
            Ok(lent) => lent,
            Err(_) => unreachable!(),
        }
    }
}

/// Builds the numbers of a search for some patterns. Allocates only if there is a pattern. Lists of 2^32 numbers or
/// more are refused too.
fn numbers_of(alloc: Global, ignore_case: bool, patterns: &[Vec<u8>]) -> Result<Numbers, GrowError>
    requires { CanBeKept (map (λ pattern. pattern.items) patterns.now) }
    ensures kept { IfOk result (AreListed
        (record { patterns = map (λ pattern. pattern.items) patterns.now; ignore_case = ignore_case })) }
    ensures few { IfOk result (λ _. NeedFewStates ignore_case (map (λ pattern. pattern.items) patterns.now)) }
    ensures too_many { IfErr result (λ error. error ≡ GrowError.TooManyStates
        → NeedTooManyStates ignore_case (map (λ pattern. pattern.items) patterns.now)) }
    ensures some { OnErr result (0 < length patterns.now) }
{
    if patterns.is_empty() {
        return Ok(Numbers::for_none(alloc, None));
    }
    let classes = classes_for(ignore_case, patterns);
    let rows = grow(alloc, &classes.table, classes.width, patterns)?;
    let recognised = Recognised {
        classes: &classes.table,
        width: classes.width,
        rows: &rows,
        patterns,
    };
    let lists = recognised.lists(alloc)?;
    let (starts, ends) = (lists.starts.as_slice(), lists.ends.as_slice());
    if ends.len() > u32::MAX as usize {
        return Err(GrowError::OutOfMemory);
    }
    let prints = prints_for(ignore_case, patterns);
    let numbers = Numbers::assembled(alloc, None, &classes, patterns, rows, starts, ends, &prints)?;
    Ok(numbers)
}

/// The iterator of [`Overlapping::find_overlapping_in`]. Contracts see the search, the haystack, the span, and the end
/// and pattern number from which occurrences are still to come. After its first `None` it always answers `None`.
#[derive(Drop)]
pub struct OverlappingMatches<'s, 'h> {
    parts: &'s Parts,
    lent: LentTables<'s>,
    haystack: &'h [u8],
    span: Span,
    position: Position,
}

impl<'s, 'h> Model for OverlappingMatches<'s, 'h> {
    ghost use Rattle.literal_search.specs.OverlappingMatchesValue.{OverlappingMatchesValue};
    ghost use Rattle.literal_occurrences.specs.Inside.LentTables.{AreFor, AreLent, LiesAt, tables_by};
    ghost use Rattle.literal_search.specs.Inside.Overlapping.{overlapping_of};
    ghost use Rattle.literal_occurrences.specs.Inside.Position.{IsPosition};
    ghost use Rattle.literal_base.specs.Occurs.{IsValidSpan};

    ghost Value = { OverlappingMatchesValue };

    ghost view = { λ m. record {
      search = overlapping_of m.parts.now;
      haystack = m.haystack.now;
      span = m.span;
      end = m.position.at;
      pattern = m.position.pattern;
    } };

    ghost invariant = { λ m. AreLent m.lent × AreFor (overlapping_of m.parts.now) m.lent
        × IsValidSpan m.haystack.now m.span × LiesAt m.span m.position
        × IsPosition (tables_by (overlapping_of m.parts.now) m.lent) m.haystack.now m.span m.position };
}

impl<'s, 'h> OverlappingMatches<'s, 'h> {
    /// Like `next`, and counts each looked-up byte in the tally, as scanned: at least the bytes from the previous end
    /// up to the end of the match, or of the span, and at most three times as many. So an iteration looks up at most
    /// three times the bytes of the span.
    pub fn next_counted(&mut self, tally: &mut Tally) -> Option<Match>
        ensures gives { GivesOverlapping self.old result self.new }
        ensures bounded { ScansToEndWithin (between self.old.end self.old.span.end)
            (option_map (λ found. found.end) result) tally.old tally.new }
    {
        let next = self
            .lent
            .next_from(self.haystack, self.span, self.position, tally);
        let Ok(next) = next else {
            unreachable!();
        };
        let Some(next) = next else {
            self.position = self.lent.after_all(self.haystack, self.span);
            return None;
        };
        self.position = next.1;
        Some(next.0)
    }
}

impl<'s, 'h> Iterator for OverlappingMatches<'s, 'h> {
    type Item = Match;

    ghost next_gives = { GivesOverlapping };

    ghost remaining = { most_overlapping };

    fn next(&mut self) -> Option<Match> {
        self.next_counted(&mut Tally::new())
    }
}
