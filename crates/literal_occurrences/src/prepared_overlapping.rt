//! The search for every occurrence by an array that its caller lends. The array is not trusted.
ghost use Rattle.std.specs.Prelude.{◌≡◌, ◌+◌, ◌-◌, ◌*◌, ◌<◌, ◌≤◌, ◌↔◌, length, slice_index, slice_range, List, ℕ};
ghost use Rattle.std.specs.Prelude.{IfOk, IfSome, IsTrue, MatchOption, MatchResult};
ghost use Rattle.std.specs.Option.{option_map};
ghost use Rattle.std.specs.Result.{IsOkAnd};
ghost use Rattle.literal_base.specs.MatchValue.{MatchValue};
ghost use Rattle.literal_base.specs.Occurs.{IsValidSpan, between};
ghost use Rattle.literal_occurrences.specs.Earliest.{IsEarliestEnd, ScansToEndWithin};
ghost use Rattle.literal_occurrences.specs.Overlapping.{IsOverlappingCount, OverlappingValue};
ghost use Rattle.literal_occurrences.specs.OverlappingMatchesValue.{IsToCome};
ghost use Rattle.literal_occurrences.specs.PreparedOverlapping.{ForOverlapping, HasLists, IsNotBefore};
ghost use Rattle.literal_occurrences.specs.PreparedOverlapping.{IsWholeOverlapping};
ghost use Rattle.literal_occurrences.specs.Inside.LentTables.{AreFor, AreLent, EndsAt, IsNextBy, IsNextEnd, LiesAt};
ghost use Rattle.literal_occurrences.specs.Inside.LentTables.{IsPositionBy, tables_by};
ghost use Rattle.literal_rows.specs.Inside.Packed.{unpacked};
ghost use Rattle.literal_rows.specs.Inside.Rows.{rows_of};
ghost use Rattle.literal_occurrences.specs.Inside.Scan.{IsTableFor};
ghost use Rattle.literal_occurrences.specs.Inside.Position.{IsPosition, longest_at, position_at, position_value};
ghost use Rattle.literal_rows.specs.Inside.Walk.{classes_by, rows_by};
ghost use Rattle.literal_occurrences.specs.declared.position.Position.{Position};

use crate::ends;
use crate::position::Position;
use literal_base::count::Tally;
use literal_base::{Match, Span};
use literal_rows::array::{
    Header, LENGTHS_AT, OVERLAPPING_VERSION, SCAN_LEN, is_checked, scan_in, split,
};
use literal_rows::damaged::Damaged;
use literal_rows::walk::{Table, WalkEnd};
use std::marker::Model;

/// Searches for every occurrence by an array that `Overlapping::prepare` wrote. The array may be longer. Contracts see
/// the array.
#[derive(Drop)]
pub struct PreparedOverlapping<'p> {
    lent: LentTables<'p>,
}

/// The parts of an array. An `Overlapping` reads the same.
#[derive(Clone, Copy)]
pub struct LentTables<'p> {
    pub header: Header<'p>,
    /// The index at which the list of each pattern begins in `ends`, and the one at which the last list ends.
    pub starts: &'p [u32],
    pub ends: &'p [u32],
    /// The numbers of the scan for candidates, if there is one.
    pub prints: &'p [u32],
}

impl<'p> Model for PreparedOverlapping<'p> {
    ghost use Rattle.std.specs.Prelude.{List, ℕ};
    ghost use Rattle.literal_occurrences.specs.Inside.LentTables.{AreLent};

    ghost Value = { List ℕ };

    ghost view = { λ p. p.lent.header.numbers.now };

    ghost invariant = { λ p. AreLent p.lent };
}

impl<'p> PreparedOverlapping<'p> {
    /// Returns the search in an array, or [`Damaged`] if its first numbers are not those of such a search, or if it is
    /// shorter than they and the lists say. It reads only these; [`PreparedOverlapping::is_whole`] reads all of it.
    pub fn new(numbers: &'p [u32]) -> Result<PreparedOverlapping<'p>, Damaged>
        ensures { MatchResult result (λ prepared. (prepared ≡ numbers.now) × HasLists numbers.now)
            (λ _. ¬ HasLists numbers.now) }
    {
        let Ok(lent) = lent_in(numbers) else {
            return Err(Damaged);
        };
        Ok(PreparedOverlapping { lent })
    }

    /// The parts of the array.
    #[inline(always)]
    pub fn lent(&self) -> &LentTables<'p>
        ensures lent { AreLent result.now }
        ensures numbers { result.now.header.numbers.now ≡ self.now }
    {
        &self.lent
    }

    /// Returns whether the checksum over all numbers of the search is right.
    /// [`Prepared::is_whole`](crate::Prepared::is_whole) says which changes it finds.
    pub fn is_whole(&self) -> bool
        ensures { IsTrue result ↔ IsWholeOverlapping self.now }
    {
        let LentTables {
            header,
            starts,
            ends,
            ..
        } = &self.lent;
        let lists_at = LENGTHS_AT + header.lengths.len() + header.rows.len();
        let end = lists_at + starts.len() + ends.len() + SCAN_LEN;
        is_checked(header.numbers, end)
    }

    /// Returns the earliest end of an occurrence in a span of the haystack, as `Overlapping::earliest_end` does. With a
    /// changed array the answer may be another offset in the span, or [`Damaged`].
    pub fn earliest_end(&self, haystack: &[u8], span: Span) -> Result<Option<usize>, Damaged>
        requires { IsValidSpan haystack.now span }
        ensures prepared { ForOverlapping self.now (λ search. IsOkAnd result
            (IsEarliestEnd search.patterns search.ignore_case haystack.now span)) }
        ensures inside { IfOk result (λ answer. IfSome answer (λ end. (span.start < end) × (end ≤ span.end))) }
    {
        self.earliest_end_counted(haystack, span, &mut Tally::new())
    }

    /// Like [`PreparedOverlapping::earliest_end`], and counts each looked-up byte in the tally, as scanned. With any
    /// array, these are at least the bytes up to the returned end, or those of the span for `None`, and at most three
    /// times as many. With [`Damaged`] they are at most three times the bytes of the span.
    #[tactic(auto, using(crate::proofs::lemmas::LentTables::are_for))]
    pub fn earliest_end_counted(
        &self,
        haystack: &[u8],
        span: Span,
        tally: &mut Tally,
    ) -> Result<Option<usize>, Damaged>
        requires { IsValidSpan haystack.now span }
        ensures prepared { ForOverlapping self.now (λ search. IsOkAnd result
            (IsEarliestEnd search.patterns search.ignore_case haystack.now span)) }
        ensures inside { IfOk result (λ answer. IfSome answer (λ end. (span.start < end) × (end ≤ span.end))) }
        ensures bounded { IfOk result (λ answer. ScansToEndWithin span answer tally.old tally.new) }
        ensures others { tally.new ≡ record tally.old { scanned = tally.new.scanned } }
        ensures most { tally.new.scanned ≤ tally.old.scanned + 3 * (span.end - span.start) }
    {
        self.lent.earliest_end(haystack, span, tally)
    }

    /// Returns the number of all occurrences in a span of the haystack, as `Overlapping::count_overlapping_in` does.
    /// With a changed array the answer may be another number, or [`Damaged`].
    pub fn count_overlapping_in(&self, haystack: &[u8], span: Span) -> Result<u128, Damaged>
        requires { IsValidSpan haystack.now span }
        ensures { ForOverlapping self.now (λ search. IsOkAnd result
            (IsOverlappingCount search.patterns search.ignore_case haystack.now span)) }
    {
        self.count_overlapping_counted(haystack, span, &mut Tally::new())
    }

    /// Like [`PreparedOverlapping::count_overlapping_in`], and counts each looked-up byte in the tally, as scanned.
    /// With any array, these are at most three times the bytes of the span, and, unless the answer is [`Damaged`], at
    /// least these bytes.
    #[tactic(auto, using(crate::proofs::lemmas::LentTables::are_for))]
    pub fn count_overlapping_counted(
        &self,
        haystack: &[u8],
        span: Span,
        tally: &mut Tally,
    ) -> Result<u128, Damaged>
        requires { IsValidSpan haystack.now span }
        ensures count { ForOverlapping self.now (λ search. IsOkAnd result
            (IsOverlappingCount search.patterns search.ignore_case haystack.now span)) }
        ensures others { tally.new ≡ record tally.old { scanned = tally.new.scanned } }
        ensures most { tally.new.scanned ≤ tally.old.scanned + 3 * (span.end - span.start) }
        ensures least { IfOk result (λ _. tally.old.scanned + (span.end - span.start) ≤ tally.new.scanned) }
    {
        self.lent.count_in(haystack, span, tally)
    }
}

/// The parts of an array, or [`Damaged`] if its first numbers are not those of such a search, or if it is shorter than
/// they and the lists say.
pub fn lent_in(numbers: &[u32]) -> Result<LentTables<'_>, Damaged>
    ensures { MatchResult result (λ lent. (lent.header.numbers.now ≡ numbers.now) × AreLent lent)
        (λ _. ¬ HasLists numbers.now) }
{
    let header = split(numbers, OVERLAPPING_VERSION)?;
    let starts_at = LENGTHS_AT + header.lengths.len() + header.rows.len();
    let last = starts_at + header.lengths.len();
    if numbers.len() <= last {
        return Err(Damaged);
    }
    let (ends_at, listed) = (last + 1, numbers[last] as usize);
    if numbers.len() - ends_at < listed + SCAN_LEN {
        return Err(Damaged);
    }
    let prints_at = ends_at + listed;
    Ok(LentTables {
        header,
        starts: &numbers[starts_at..ends_at],
        ends: &numbers[ends_at..prints_at],
        prints: &numbers[prints_at..prints_at + SCAN_LEN],
    })
}

impl<'p> LentTables<'p> {
    /// The table that a walk reads.
    #[inline(always)]
    #[tactic(auto, using(crate::proofs::lemmas::LentTables::lent_table, crate::proofs::lemmas::Scan::classes_long))]
    pub fn table(&self) -> Table<'_>
        requires { AreLent self.now }
        ensures each { length result.classes.now ≡ 64 }
        ensures table { (search : OverlappingValue) → AreFor search self.now
            → IsTableFor result search.patterns search.ignore_case }
        ensures classes { classes_by result ≡ unpacked self.now.header.classes.now }
        ensures width { result.width ≡ self.now.header.width }
        ensures rows { rows_by result ≡ rows_of self.now.header.rows.now }
    {
        self.header.table()
    }

    /// The numbers of all patterns that are suffixes of a pattern.
    pub fn list_of(&self, pattern: usize) -> Result<&'p [u32], Damaged>
        ensures { pattern + 1 < length self.now.starts.now
            → slice_index self.now.starts.now pattern ≤ slice_index self.now.starts.now (pattern + 1)
            → slice_index self.now.starts.now (pattern + 1) ≤ length self.now.ends.now
            → IsOkAnd result (λ list. list.now ≡ slice_range self.now.ends.now
            (slice_index self.now.starts.now pattern) (slice_index self.now.starts.now (pattern + 1))) }
    {
        let start = *self.starts.get(pattern).ok_or(Damaged)? as usize;
        let end = *self.starts.get(pattern.saturating_add(1)).ok_or(Damaged)? as usize;
        if start > end || end > self.ends.len() {
            return Err(Damaged);
        }
        Ok(&self.ends[start..end])
    }

    /// The earliest end of an occurrence in a span.
    pub fn earliest_end(
        &self,
        haystack: &[u8],
        span: Span,
        tally: &mut Tally,
    ) -> Result<Option<usize>, Damaged>
        requires lent { AreLent self.now }
        requires valid { IsValidSpan haystack.now span }
        ensures prepared { (search : OverlappingValue) → AreFor search self.now
            → IsOkAnd result (IsEarliestEnd search.patterns search.ignore_case haystack.now span) }
        ensures inside { IfOk result (λ answer. IfSome answer (λ end. (span.start < end) × (end ≤ span.end))) }
        ensures bounded { IfOk result (λ answer. ScansToEndWithin span answer tally.old tally.new) }
        ensures others { tally.new ≡ record tally.old { scanned = tally.new.scanned } }
        ensures most { tally.new.scanned ≤ tally.old.scanned + 3 * (span.end - span.start) }
    {
        let found = ends::next_end(&self.table(), self.prints, haystack, 0, span, tally)?;
        match found {
            Some(stop) => Ok(Some(stop.end)),
            None => Ok(None),
        }
    }

    /// The position of a search before all occurrences in the span.
    pub fn before_all(&self, haystack: &[u8], span: Span) -> Position
        requires { IsValidSpan haystack.now span }
        ensures at { (result.at ≡ span.start) × (result.pattern ≡ 0) }
        ensures lies { LiesAt span result }
        ensures stands { IsPositionBy self.now haystack.now span result }
    {
        prove!(span.end <= haystack.len());
        Position {
            at: span.start,
            row: 0,
            pattern: 0,
            next: 0,
            end: 0,
        }
    }

    /// The position of a search after all occurrences in the span.
    pub fn after_all(&self, haystack: &[u8], span: Span) -> Position
        requires lent { AreLent self.now }
        requires valid { IsValidSpan haystack.now span }
        ensures at { result.at ≡ span.end }
        ensures last { result.pattern ≡ slice_index self.now.header.numbers.now 3 }
        ensures pattern { (search : OverlappingValue) → AreFor search self.now
            → result.pattern ≡ length search.patterns }
        ensures lies { LiesAt span result }
        ensures stands { IsPositionBy self.now haystack.now span result }
    {
        prove!(span.end <= haystack.len());
        Position {
            at: span.end,
            row: 0,
            pattern: self.header.lengths.len(),
            next: 0,
            end: 0,
        }
    }

    /// The position after a walk that stopped at an offset where a pattern ends: before all patterns that end there.
    fn position_at(&self, stop: WalkEnd) -> Result<Position, Damaged>
        ensures prepared { (search : OverlappingValue)
            → stop.row + self.now.header.width < length (rows_of self.now.header.rows.now)
            → longest_at (tables_by search self.now) stop + 1 < length self.now.starts.now
            → IsOkAnd result (λ s. s ≡ position_at (tables_by search self.now) stop) }
        ensures at { IfOk result (λ s. (s.at ≡ stop.end) × (s.row ≡ stop.row)) }
    {
        let table = self.header.table();
        let longest = table.ending_at(stop.row)? as usize;
        let next = *self.starts.get(longest).ok_or(Damaged)? as usize;
        let end = *self.starts.get(longest + 1).ok_or(Damaged)? as usize;
        Ok(Position {
            at: stop.end,
            row: stop.row,
            pattern: 0,
            next,
            end,
        })
    }

    /// The position at which the next occurrence ends: this one while its list has more, otherwise the next such end.
    pub fn next_end(
        &self,
        haystack: &[u8],
        span: Span,
        position: Position,
        tally: &mut Tally,
    ) -> Result<Option<Position>, Damaged>
        requires lent { AreLent self.now }
        requires valid { IsValidSpan haystack.now span }
        requires lies { LiesAt span position }
        ensures prepared { (search : OverlappingValue) → AreFor search self.now
            → IsPosition (tables_by search self.now) haystack.now span position
            → IsOkAnd result (IsNextEnd (tables_by search self.now) haystack.now span position) }
        ensures inside { IfOk result (λ next. IfSome next (LiesAt span)) }
        ensures ordered { IfOk result (λ next. IfSome next (λ here.
            IsNotBefore here.at here.pattern position.at position.pattern)) }
        ensures further { position.end ≤ position.next → IfOk result (λ next. IfSome next
            (λ here. position.at < here.at)) }
        ensures others { tally.new ≡ record tally.old { scanned = tally.new.scanned } }
        ensures most { tally.new.scanned + 3 * position.at ≤ tally.old.scanned + 3 * span.end }
        ensures bounded { IfOk result (λ next. ScansToEndWithin (between position.at span.end)
            (option_map (λ here. here.at) next) tally.old tally.new) }
    {
        if position.next < position.end {
            return Ok(Some(position));
        }
        if position.at == span.end {
            return Ok(None);
        }
        let rest = Span {
            start: position.at,
            end: span.end,
        };
        let row = position.row;
        let found = ends::next_end(&self.table(), self.prints, haystack, row, rest, tally)?;
        let Some(stop) = found else {
            return Ok(None);
        };
        Ok(Some(self.position_at(stop)?))
    }

    /// The next of the occurrences that end at a position, and the position after it.
    fn first_of(
        &self,
        haystack: &[u8],
        span: Span,
        here: Position,
    ) -> Result<(Match, Position), Damaged>
        requires lent { AreLent self.now }
        requires valid { IsValidSpan haystack.now span }
        requires lies { LiesAt span here }
        ensures prepared { (search : OverlappingValue) → AreFor search self.now
            → IsPosition (tables_by search self.now) haystack.now span here → here.next < here.end
            → IsOkAnd result (λ r. IsNextBy (tables_by search self.now) haystack.now span here r.0 r.1) }
        ensures inside { IfOk result (λ r. EndsAt span r.0 r.1 × (r.0.end ≡ here.at)) }
        ensures pattern { IfOk result (λ r. r.0.pattern < length self.now.header.lengths.now) }
        ensures ordered { IfOk result (λ r. (here.pattern ≤ r.0.pattern) × (r.1.pattern ≡ r.0.pattern + 1)) }
    {
        prove!(span.end <= haystack.len());
        let pattern = *self.ends.get(here.next).ok_or(Damaged)? as usize;
        if pattern < here.pattern {
            return Err(Damaged);
        }
        let len = *self.header.lengths.get(pattern).ok_or(Damaged)? as usize;
        if len == 0 || len > here.at - span.start {
            return Err(Damaged);
        }
        let (start, end) = (here.at - len, here.at);
        let position = Position {
            at: here.at,
            row: here.row,
            pattern: pattern + 1,
            next: here.next + 1,
            end: here.end,
        };
        Ok((Match::must(pattern, Span { start, end }), position))
    }

    /// The next occurrence after a position, and the position after it.
    #[tactic(auto, using(crate::proofs::lemmas::Position::next_moved))]
    pub fn next_from(
        &self,
        haystack: &[u8],
        span: Span,
        position: Position,
        tally: &mut Tally,
    ) -> Result<Option<(Match, Position)>, Damaged>
        requires lent { AreLent self.now }
        requires valid { IsValidSpan haystack.now span }
        requires lies { LiesAt span position }
        ensures prepared { (search : OverlappingValue) → AreFor search self.now
            → IsPosition (tables_by search self.now) haystack.now span position
            → IsOkAnd result (λ answer. MatchOption answer ((found : MatchValue)
            → ¬ IsToCome (position_value (tables_by search self.now) haystack.now span position) found)
            (λ r. IsNextBy (tables_by search self.now) haystack.now span position r.0 r.1)) }
        ensures inside { IfOk result (λ answer. IfSome answer (λ r. EndsAt span r.0 r.1)) }
        ensures pattern { IfOk result (λ answer. IfSome answer
            (λ r. r.0.pattern < length self.now.header.lengths.now)) }
        ensures ordered { IfOk result (λ answer. IfSome answer
            (λ r. IsNotBefore r.0.end r.0.pattern position.at position.pattern
            × (r.1.pattern ≡ r.0.pattern + 1))) }
        ensures others { tally.new ≡ record tally.old { scanned = tally.new.scanned } }
        ensures most { tally.new.scanned + 3 * position.at ≤ tally.old.scanned + 3 * span.end }
        ensures bounded { IfOk result (λ answer. ScansToEndWithin (between position.at span.end)
            (option_map (λ r. r.0.end) answer) tally.old tally.new) }
    {
        let Some(here) = self.next_end(haystack, span, position, tally)? else {
            return Ok(None);
        };
        Ok(Some(self.first_of(haystack, span, here)?))
    }
}
