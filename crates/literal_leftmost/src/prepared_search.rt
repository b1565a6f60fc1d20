//! The search for leftmost matches by an array that its caller lends, without memory of its own. The array is not
//! trusted: if a number leads out of it, the search answers [`Damaged`].
ghost use Rattle.std.specs.Prelude.{◌≡◌, ℕ, ◌+◌, ◌-◌, ◌*◌, ◌<◌, ◌≤◌, ◌↔◌, slice_index};
ghost use Rattle.std.specs.Prelude.{IfOk, IfSome, IsTrue, MatchOption, MatchResult};
ghost use Rattle.std.specs.Result.{IsOkAnd};
ghost use Rattle.literal_base.specs.Occurs.{IsValidSpan, Occurs};
ghost use Rattle.literal_leftmost.specs.Counted.{IsGreedyCount};
ghost use Rattle.literal_leftmost.specs.LookUps.{LooksOn, ScansNext, ScansRest};
ghost use Rattle.literal_leftmost.specs.SearchValue.{LooksFor};
ghost use Rattle.literal_base.specs.Leftmost.{IsLeftmost};
ghost use Rattle.literal_leftmost.specs.Prepared.{ForPrepared, GivesLentMatch, HasAllParts, IsWhole, LiesIn, kind_in};
ghost use Rattle.literal_leftmost.specs.Prepared.{lent_matches_in, longest_in};
ghost use Rattle.literal_leftmost.specs.Inside.Prepared.{IsBackIn};

use crate::backward::{Backward, Continuation};
use crate::cursor::Cursor;
use literal_base::count::Tally;
use literal_base::packed::MatchKind;
use literal_base::{Match, Span};
use literal_rows::array::{
    KIND_AT, LENGTHS_AT, PREPARED_VERSION, SCAN_LEN, is_checked, scan_in, split,
};
use literal_rows::classes::CLASSES_LEN;
use literal_rows::damaged::Damaged;
use literal_rows::walk::Table;
use std::marker::Model;

/// Searches for leftmost matches by an array that `Search::prepare` wrote. The array may be longer. Contracts see the
/// array.
#[derive(Drop)]
pub struct Prepared<'p> {
    numbers: &'p [u32],
    backward: Backward<'p>,
}

impl<'p> Model for Prepared<'p> {
    ghost use Rattle.std.specs.Prelude.{List, ℕ};
    ghost use Rattle.literal_leftmost.specs.Inside.Prepared.{IsBackIn};

    ghost Value = { List ℕ };

    ghost view = { λ p. p.numbers.now };

    ghost invariant = { λ p. IsBackIn p.numbers.now p.backward };
}

impl<'p> Prepared<'p> {
    /// Returns the search in an array, or [`Damaged`] if its first numbers are not those of such a search, or if it is
    /// shorter than they say. It reads only these; [`Prepared::is_whole`] reads all of it.
    pub fn new(numbers: &'p [u32]) -> Result<Prepared<'p>, Damaged>
        ensures { MatchResult result (λ prepared. (prepared ≡ numbers.now) × HasAllParts numbers.now)
            (λ _. ¬ HasAllParts numbers.now) }
    {
        let backward = backward_in(numbers)?;
        Ok(Prepared { numbers, backward })
    }

    /// Returns whether the checksum over all numbers of the search is right. It finds each change of one number, unless
    /// that is a number that says how many there are (law `changed_number_is_found` of `literal_search`), an array of
    /// zeros (`zeros_are_refused`), and most other changes. It does not find a change that is made on purpose to pass.
    pub fn is_whole(&self) -> bool
        ensures { IsTrue result ↔ IsWhole self.now }
    {
        let Backward {
            table,
            lens,
            links,
            prints,
        } = &self.backward;
        let end = LENGTHS_AT + lens.len() + table.rows.len() + links.len() + prints.len();
        is_checked(self.numbers, end)
    }

    /// Returns the match kind, as the array says.
    pub fn match_kind(&self) -> MatchKind
        ensures { result ≡ kind_in self.now }
    {
        if self.numbers[KIND_AT] == 0 {
            return MatchKind::LeftmostFirst;
        }
        MatchKind::LeftmostLongest
    }

    /// Returns the length in bytes of the longest pattern, as the array says.
    pub fn max_pattern_len(&self) -> usize
        ensures { result ≡ longest_in self.now }
    {
        self.backward().table.longest
    }

    /// Returns an iterator over all matches in a span of the haystack, as `Search::find_iter_in` does. With a changed
    /// array it may give other matches, or [`Damaged`]. But each lies in the span, is not empty, begins after the
    /// previous one, and names a pattern.
    pub fn find_iter_in<'s, 'h>(
        &'s self,
        haystack: &'h [u8],
        span: Span,
    ) -> PreparedMatches<'s, 'p, 'h>
        requires { IsValidSpan haystack.now span }
        ensures { result ≡ lent_matches_in self.now haystack.now span }
    {
        prove!(span.end <= haystack.len());
        let mut matches = PreparedMatches {
            prepared: self,
            haystack,
            span,
            cursor: Cursor::new(span.start),
        };
        let longest = self.backward().table.longest;
        matches.cursor.make_room(longest, span);
        matches
    }

    /// Returns an offset in a span of the haystack before which no match begins. The scan for candidates finds it: it
    /// is the first candidate, or the end of the span if there is none. If the array has no scan, it is the start of
    /// the span. A list that begins there has the same matches. An iterator takes longer to clear than a line takes to
    /// scan, so this call shows whether one is needed. Which candidates there are is not claimed: they only make a list
    /// faster or slower.
    #[inline(always)]
    pub fn first_candidate_in(&self, haystack: &[u8], span: Span) -> usize
        requires { IsValidSpan haystack.now span }
        ensures none { ForPrepared self.now (λ search. (i offset : ℕ)
            → Occurs search.query.patterns search.ignore_case haystack.now span i offset
            → (result ≤ offset) × (offset < span.end)) }
        ensures inside { (span.start ≤ result) × (result ≤ span.end) }
    {
        self.first_candidate_in_counted(haystack, span, &mut Tally::new())
    }

    /// Like [`Prepared::first_candidate_in`], and counts each looked-up byte in the tally, as scanned: at most three
    /// times the bytes before the candidate, and 19 more.
    #[inline(always)]
    pub fn first_candidate_in_counted(
        &self,
        haystack: &[u8],
        span: Span,
        tally: &mut Tally,
    ) -> usize
        requires { IsValidSpan haystack.now span }
        ensures none { ForPrepared self.now (λ search. (i offset : ℕ)
            → Occurs search.query.patterns search.ignore_case haystack.now span i offset
            → (result ≤ offset) × (offset < span.end)) }
        ensures inside { (span.start ≤ result) × (result ≤ span.end) }
        ensures others { tally.new ≡ record tally.old { scanned = tally.new.scanned } }
        ensures most { tally.new.scanned ≤ tally.old.scanned + 3 * (result - span.start) + 19 }
        ensures least { tally.old.scanned + (result - span.start) ≤ tally.new.scanned }
    {
        let backward = self.backward();
        backward.pass_over(&scan_in(backward.prints), haystack, span, tally)
    }

    /// Returns the number of matches that [`Prepared::find_iter_in`] gives, or `None` if the array does not say that
    /// its only pattern is one byte and that case is kept. Such a count compares 32 bytes at a time, and takes no
    /// iteration. For which arrays the answer is `None` is not claimed. With a changed array it may be another number,
    /// but no more than the bytes of the span.
    pub fn count_of_byte_in(&self, haystack: &[u8], span: Span) -> Option<usize>
        requires { IsValidSpan haystack.now span }
        ensures count { IfSome result (λ count. ForPrepared self.now
            (λ search. IsGreedyCount search.query search.ignore_case haystack.now span count)) }
        ensures most { IfSome result (λ count. count ≤ span.end - span.start) }
    {
        self.count_of_byte_in_counted(haystack, span, &mut Tally::new())
    }

    /// Like [`Prepared::count_of_byte_in`], and counts each looked-up byte in the tally, as scanned: each byte of the
    /// span once, or none if the answer is `None`.
    pub fn count_of_byte_in_counted(
        &self,
        haystack: &[u8],
        span: Span,
        tally: &mut Tally,
    ) -> Option<usize>
        requires { IsValidSpan haystack.now span }
        ensures count { IfSome result (λ count. ForPrepared self.now
            (λ search. IsGreedyCount search.query search.ignore_case haystack.now span count)) }
        ensures most { IfSome result (λ count. count ≤ span.end - span.start) }
        ensures ticks { MatchOption result (tally.new ≡ tally.old) (λ _. tally.new
            ≡ record tally.old { scanned = tally.old.scanned + (span.end - span.start) }) }
    {
        self.backward().count_of_byte(haystack, span, tally)
    }

    /// Returns the leftmost match in a span of the haystack, as `Search::find_in` does. With a changed array the answer
    /// may be another match, or [`Damaged`]. But a match lies in the span, is not empty, and names one of the patterns.
    pub fn find_in(&self, haystack: &[u8], span: Span) -> Result<Option<Match>, Damaged>
        requires { IsValidSpan haystack.now span }
        ensures prepared { ForPrepared self.now (λ search. IsOkAnd result
            (IsLeftmost search.query search.ignore_case haystack.now span)) }
        ensures inside { IfOk result (λ answer. IfSome answer (LiesIn span)) }
        ensures pattern { IfOk result (λ answer. IfSome answer
            (λ found. found.pattern < slice_index self.now 3)) }
    {
        self.find_in_counted(haystack, span, &mut Tally::new())
    }

    /// Like [`Prepared::find_in`], and counts each looked-up byte in the tally, as scanned: with any array, at most
    /// three times the bytes of the span. The other bounds of `Search::find_in_counted` hold too.
    pub fn find_in_counted(
        &self,
        haystack: &[u8],
        span: Span,
        tally: &mut Tally,
    ) -> Result<Option<Match>, Damaged>
        requires { IsValidSpan haystack.now span }
        ensures prepared { ForPrepared self.now (λ search. IsOkAnd result
            (IsLeftmost search.query search.ignore_case haystack.now span)) }
        ensures inside { IfOk result (λ answer. IfSome answer (LiesIn span)) }
        ensures pattern { IfOk result (λ answer. IfSome answer
            (λ found. found.pattern < slice_index self.now 3)) }
        ensures others { tally.new ≡ record tally.old { scanned = tally.new.scanned } }
        ensures most { tally.new.scanned ≤ tally.old.scanned + 3 * (span.end - span.start) }
        ensures counted { IfOk result
            (λ answer. LooksFor (longest_in self.now) span answer tally.old.scanned tally.new.scanned) }
    {
        self.backward().find_in(haystack, span, tally)
    }

    /// The parts that a backward walk reads.
    #[inline(always)]
    pub fn backward(&self) -> &Backward<'p>
        ensures { IsBackIn self.now result.now }
    {
        &self.backward
    }
}

/// The parts of an array that a backward walk reads, or [`Damaged`] if its first numbers are not those of such a
/// search, or if it is shorter than they say.
pub fn backward_in(numbers: &[u32]) -> Result<Backward<'_>, Damaged>
    ensures { MatchResult result (IsBackIn numbers.now) (λ _. ¬ HasAllParts numbers.now) }
{
    let header = split(numbers, PREPARED_VERSION)?;
    let links_at = LENGTHS_AT + header.lengths.len() + header.rows.len();
    let prints_at = links_at + header.lengths.len();
    let is_short = numbers.len() < prints_at + SCAN_LEN;
    if is_short || header.rows.len() == CLASSES_LEN {
        return Err(Damaged);
    }
    let table = Table {
        classes: header.classes,
        width: header.width,
        rows: header.rows,
        longest: header.longest,
    };
    Ok(Backward {
        table,
        lens: header.lengths,
        links: &numbers[links_at..prints_at],
        prints: &numbers[prints_at..prints_at + SCAN_LEN],
    })
}

/// The iterator of [`Prepared::find_iter_in`]. Contracts see the array, the haystack, the span, the offset from which
/// it continues, and bounds on the bytes that it has looked up so far. After [`Damaged`] or its first `None` it has
/// ended, at the end of the span.
#[derive(Drop)]
pub struct PreparedMatches<'s, 'p, 'h> {
    prepared: &'s Prepared<'p>,
    haystack: &'h [u8],
    span: Span,
    cursor: Cursor,
}

impl<'s, 'p, 'h> Model for PreparedMatches<'s, 'p, 'h> {
    ghost use Rattle.literal_base.specs.Occurs.{IsValidSpan};
    ghost use Rattle.literal_leftmost.specs.Prepared.{PreparedMatchesValue};
    ghost use Rattle.literal_leftmost.specs.Inside.Prepared.{GoesOnBy, lent_at};

    ghost Value = { PreparedMatchesValue };

    ghost view = { λ m. lent_at m.prepared.now m.haystack.now m.span m.cursor };

    ghost invariant = { λ m. IsValidSpan m.haystack.now m.span
        × GoesOnBy m.prepared.now m.haystack.now m.span m.cursor };
}

impl<'s, 'p, 'h> PreparedMatches<'s, 'p, 'h> {
    /// Returns the next match, as `Matches` does, or `None` after the last. With a changed array, each match still
    /// begins after the previous one. After `None` or [`Damaged`] it always answers `None`.
    pub fn next_match(&mut self) -> Result<Option<Match>, Damaged>
        ensures { GivesLentMatch self.old result self.new }
    {
        self.next_counted(&mut Tally::new())
    }

    /// Like `next_match`, and counts in the tally as `Matches::next_counted` does, with the longest pattern length that
    /// the array gives, whatever its other numbers are.
    pub fn next_counted(&mut self, tally: &mut Tally) -> Result<Option<Match>, Damaged>
        ensures gives { GivesLentMatch self.old result self.new }
        ensures looks { IfOk result (λ _. LooksOn (longest_in self.old.numbers) self.old.span self.new.at
            self.old.look_ups self.new.look_ups) }
        ensures scans { IfOk result (λ _. ScansNext self.old.look_ups self.new.look_ups tally.old tally.new) }
        ensures rest { ScansRest (longest_in self.old.numbers) self.old.span self.old.look_ups tally.old tally.new }
    {
        let (backward, on) = (self.prepared.backward(), Continuation::AtEnd);
        match backward.next_in(self.haystack, self.span, on, &mut self.cursor, tally) {
            Ok(answer) => Ok(answer),
            Err(_) => {
                self.cursor.end(self.span);
                Err(Damaged)
            }
        }
    }
}
