//! The search for whole words by an array that its caller lends, without memory of its own. The array is not trusted:
//! if a number leads out of it, the search answers [`Damaged`].
ghost use Rattle.std.specs.Prelude.{◌≡◌, ℕ, ◌<◌, ◌≤◌, IfOk, MatchResult, length};
ghost use Rattle.literal_base.specs.Occurs.{IsValidSpan, Occurs};
ghost use Rattle.literal_base.specs.declared.packed.MatchKind.TheVariants.{LeftmostFirst, LeftmostLongest};
ghost use Rattle.literal_leftmost.specs.LookUps.{no_look_ups};
ghost use Rattle.literal_leftmost.specs.Prepared.{kind_in, longest_in};
ghost use Rattle.literal_words.specs.PreparedWords.{FindsLentWord, ForWholeWords, GivesLentWord, ScansLentWords};
ghost use Rattle.literal_words.specs.PreparedWords.{lent_word_matches_in};
ghost use Rattle.literal_words.specs.WholeWords.{ScansFirstWordBy, ScansWordsRest};

use crate::word_search::Words;
use literal_base::alphabet::ByteSet;
use literal_base::count::Tally;
use literal_base::packed::MatchKind;
use literal_base::{Match, Span};
use literal_leftmost::backward::{Continuation, offset_after};
use literal_leftmost::cursor::Cursor;
use literal_leftmost::prepared_search::Prepared;
use literal_rows::damaged::Damaged;
use std::marker::Model;

/// Searches for whole words by an array that `Search::prepare` wrote. It answers as `WholeWords` does. The search that
/// wrote the array has to have [`MatchKind::LeftmostLongest`], whatever the match kind of the words is. With a changed
/// array the answer may be another match, none, or [`Damaged`]; but each match lies in the span, is not empty, and
/// names one of the patterns. Contracts see the match kind, the array, and which bytes are word bytes.
///
/// ```rust
/// let patterns = [b"york".as_slice()];
/// let search = Search::new(alloc, MatchKind::LeftmostLongest, true, patterns)?;
/// let mut array = vec![in alloc; 0; search.prepared_len()]?;
/// search.prepare(&mut array)?;
/// let set = WholeWords::ascii_word_bytes();
/// let words = PreparedWords::new(Prepared::new(&array)?, MatchKind::LeftmostFirst, set)?;
/// let found = words.find_in(b"Yorkers, York", Span { start: 0, end: 13 })?;
/// assert!(rt; found == Some(Match::must(0, Span { start: 9, end: 13 })));
/// ```
#[derive(Drop)]
pub struct PreparedWords<'p> {
    kind: MatchKind,
    prepared: Prepared<'p>,
    word_bytes: ByteSet,
}

impl<'p> Model for PreparedWords<'p> {
    ghost use Rattle.literal_words.specs.PreparedWords.{PreparedWordsValue};

    ghost Value = { PreparedWordsValue };

    ghost view = { λ w. record { kind = w.kind; numbers = w.prepared; word_bytes = w.word_bytes } };
}

impl<'p> PreparedWords<'p> {
    /// Returns the search for whole words by a prepared search, with this match kind and these word bytes; or
    /// [`Damaged`] if the array says that it was written by a search of the other kind than the longest.
    pub fn new(
        prepared: Prepared<'p>,
        kind: MatchKind,
        word_bytes: ByteSet,
    ) -> Result<PreparedWords<'p>, Damaged>
        ensures { MatchResult result
            (λ words. (words ≡ record { kind = kind; numbers = prepared.entry; word_bytes = word_bytes })
            × (kind_in prepared.entry ≡ LeftmostLongest)) (λ _. kind_in prepared.entry ≡ LeftmostFirst) }
    {
        if prepared.match_kind() == MatchKind::LeftmostFirst {
            return Err(Damaged);
        }
        Ok(PreparedWords {
            kind,
            prepared,
            word_bytes,
        })
    }

    /// Returns the leftmost whole word in a span of the haystack, as `WholeWords::find_in` does.
    pub fn find_in(&self, haystack: &[u8], span: Span) -> Result<Option<Match>, Damaged>
        requires { IsValidSpan haystack.now span }
        ensures { FindsLentWord self.now haystack.now haystack.now span result }
    {
        self.find_in_counted(haystack, span, &mut Tally::new())
    }

    /// Like [`PreparedWords::find_in`], and counts each looked-up byte in the tally, as scanned. With any array, the
    /// bounds are those of `WholeWords::find_in_counted`, with the longest pattern length that the array gives.
    pub fn find_in_counted(
        &self,
        haystack: &[u8],
        span: Span,
        tally: &mut Tally,
    ) -> Result<Option<Match>, Damaged>
        requires { IsValidSpan haystack.now span }
        ensures finds { FindsLentWord self.now haystack.now haystack.now span result }
        ensures bounded { IfOk result (λ answer. ScansFirstWordBy (longest_in self.now.numbers) span answer
            tally.old tally.new) }
        ensures rest { ScansWordsRest (longest_in self.now.numbers) span span.start no_look_ups tally.old tally.new }
    {
        self.find_in_by_sides_counted(haystack, haystack, span, tally)
    }

    /// Returns an offset in a span before which no pattern begins, as [`Prepared::first_candidate_in`] does.
    #[inline(always)]
    pub fn first_candidate_in(&self, haystack: &[u8], span: Span) -> usize
        requires { IsValidSpan haystack.now span }
        ensures none { ForWholeWords self.now (λ words. (i offset : ℕ)
            → Occurs words.search.query.patterns words.search.ignore_case haystack.now span i offset
            → (result ≤ offset) × (offset < span.end)) }
        ensures inside { (span.start ≤ result) × (result ≤ span.end) }
    {
        self.prepared.first_candidate_in(haystack, span)
    }

    /// Returns an iterator over all whole words in a span of the haystack, as `WholeWords::find_iter_in` does.
    pub fn find_iter_in<'s, 'h>(
        &'s self,
        haystack: &'h [u8],
        span: Span,
    ) -> PreparedWordMatches<'s, 'p, 'h>
        requires { IsValidSpan haystack.now span }
        ensures { result ≡ lent_word_matches_in self.now haystack.now span }
    {
        PreparedWordMatches {
            matches: self.find_iter_in_by_sides(haystack, haystack, span),
        }
    }

    /// Like [`PreparedWords::find_in`], except that next to an occurrence it looks up the sides of the haystack. These
    /// are as many bytes as the haystack has, as those of `WordText::sides`.
    pub fn find_in_by_sides(
        &self,
        haystack: &[u8],
        sides: &[u8],
        span: Span,
    ) -> Result<Option<Match>, Damaged>
        requires valid { IsValidSpan haystack.now span }
        requires sides { length sides.now ≡ length haystack.now }
        ensures { FindsLentWord self.now haystack.now sides.now span result }
    {
        self.find_in_by_sides_counted(haystack, sides, span, &mut Tally::new())
    }

    /// The same, and counts in the tally as [`PreparedWords::find_in_counted`] does. A byte of the sides counts as a
    /// byte of the haystack.
    pub fn find_in_by_sides_counted(
        &self,
        haystack: &[u8],
        sides: &[u8],
        span: Span,
        tally: &mut Tally,
    ) -> Result<Option<Match>, Damaged>
        requires valid { IsValidSpan haystack.now span }
        requires sides { length sides.now ≡ length haystack.now }
        ensures finds { FindsLentWord self.now haystack.now sides.now span result }
        ensures bounded { IfOk result (λ answer. ScansFirstWordBy (longest_in self.now.numbers) span answer
            tally.old tally.new) }
        ensures rest { ScansWordsRest (longest_in self.now.numbers) span span.start no_look_ups tally.old tally.new }
    {
        let words = Words::new(self.kind, *self.prepared.backward(), self.word_bytes);
        words.find_in(haystack, sides, span, tally)
    }

    /// Returns an iterator over all whole words in a span of the haystack, like [`PreparedWords::find_iter_in`], by the
    /// sides of the haystack, as in [`PreparedWords::find_in_by_sides`].
    pub fn find_iter_in_by_sides<'s, 'h>(
        &'s self,
        haystack: &'h [u8],
        sides: &'h [u8],
        span: Span,
    ) -> PreparedWordMatchesBySides<'s, 'p, 'h>
        requires valid { IsValidSpan haystack.now span }
        requires sides { length sides.now ≡ length haystack.now }
        ensures { result ≡ record { matches = lent_word_matches_in self.now haystack.now span; sides = sides.now } }
    {
        let words = Words::new(self.kind, *self.prepared.backward(), self.word_bytes);
        let longest = words.backward.table.longest;
        let mut matches = PreparedWordMatchesBySides {
            prepared: self,
            words,
            haystack,
            sides,
            span,
            at: span.start,
            starts: Cursor::new(span.start),
        };
        matches.starts.make_room(longest, span);
        matches
    }
}

/// The iterator of [`PreparedWords::find_iter_in`]. Contracts see the search, the haystack, the span, the offset from
/// which it continues, the offset from which it looks for the next pattern, and bounds on the bytes that it has looked
/// up. After [`Damaged`] or its first `None`, the first two of these offsets are the end of the span, and it has ended.
#[derive(Drop)]
pub struct PreparedWordMatches<'s, 'p, 'h> {
    matches: PreparedWordMatchesBySides<'s, 'p, 'h>,
}

impl<'s, 'p, 'h> Model for PreparedWordMatches<'s, 'p, 'h> {
    ghost use Rattle.std.specs.Prelude.{◌≡◌};
    ghost use Rattle.literal_words.specs.PreparedWords.{PreparedWordMatchesValue};

    ghost Value = { PreparedWordMatchesValue };

    ghost view = { λ m. m.matches.matches };

    ghost invariant = { λ m. m.matches.sides ≡ m.matches.matches.haystack };
}

impl<'s, 'p, 'h> PreparedWordMatches<'s, 'p, 'h> {
    /// Returns the next whole word, as `WholeWordMatches` does, or `None` after the last. With a changed array, each
    /// match still begins after the previous one. After `None` or [`Damaged`] it always answers `None`.
    pub fn next_match(&mut self) -> Result<Option<Match>, Damaged>
        ensures { GivesLentWord self.old.haystack self.old result self.new }
    {
        self.next_counted(&mut Tally::new())
    }

    /// Like `next_match`, and counts in the tally as `WholeWordMatches::next_counted` does.
    pub fn next_counted(&mut self, tally: &mut Tally) -> Result<Option<Match>, Damaged>
        ensures gives { GivesLentWord self.old.haystack self.old result self.new }
        ensures scans { ScansLentWords self.old result self.new tally.old tally.new }
    {
        self.matches.next_counted(tally)
    }
}

/// The iterator of [`PreparedWords::find_iter_in_by_sides`]. Contracts see what they see of a [`PreparedWordMatches`],
/// and the sides of the haystack.
#[derive(Drop)]
pub struct PreparedWordMatchesBySides<'s, 'p, 'h> {
    prepared: &'s PreparedWords<'p>,
    words: Words<'p>,
    haystack: &'h [u8],
    sides: &'h [u8],
    span: Span,
    at: usize,
    starts: Cursor,
}

impl<'s, 'p, 'h> Model for PreparedWordMatchesBySides<'s, 'p, 'h> {
    ghost use Rattle.std.specs.Prelude.{◌≡◌, ◌≤◌, length};
    ghost use Rattle.literal_words.specs.PreparedWords.{PreparedWordMatchesBySidesValue};
    ghost use Rattle.literal_words.specs.Inside.WholeWords.{AreKnownStarts, AreWordsIn, starts_looked_up};

    ghost Value = { PreparedWordMatchesBySidesValue };

    ghost view = { λ m. record {
      matches = record {
        words = m.prepared.now;
        haystack = m.haystack.now;
        span = m.span;
        at = m.at;
        from = m.starts.at;
        look_ups = starts_looked_up m.words m.span m.starts;
      };
      sides = m.sides.now;
    } };

    ghost invariant = { λ m. AreWordsIn m.prepared.now m.words
        × AreKnownStarts m.words m.haystack.now m.span m.starts × (m.starts.at ≤ m.at) × (m.at ≤ m.span.end)
        × (length m.sides.now ≡ length m.haystack.now) };
}

impl<'s, 'p, 'h> PreparedWordMatchesBySides<'s, 'p, 'h> {
    /// Returns the next whole word, as [`PreparedWordMatches::next_match`] does.
    pub fn next_match(&mut self) -> Result<Option<Match>, Damaged>
        ensures gives { GivesLentWord self.old.sides self.old.matches result self.new.matches }
        ensures sides { self.new.sides ≡ self.old.sides }
    {
        self.next_counted(&mut Tally::new())
    }

    /// Like `next_match`, and counts in the tally as [`PreparedWordMatches::next_counted`] does. A byte of the sides
    /// counts as a byte of the haystack.
    pub fn next_counted(&mut self, tally: &mut Tally) -> Result<Option<Match>, Damaged>
        ensures gives { GivesLentWord self.old.sides self.old.matches result self.new.matches }
        ensures sides { self.new.sides ≡ self.old.sides }
        ensures scans { ScansLentWords self.old.matches result self.new.matches tally.old tally.new }
    {
        let (span, at) = (self.span, self.at);
        let haystack = self.haystack;
        let sides = self.sides;
        match self
            .words
            .next_word(haystack, sides, span, at, &mut self.starts, tally)
        {
            Ok(answer) => {
                self.at = offset_after(Continuation::AtEnd, span, &answer);
                Ok(answer)
            }
            Err(_) => {
                self.at = span.end;
                self.starts.end(span);
                Err(Damaged)
            }
        }
    }
}
