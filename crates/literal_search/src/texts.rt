//! Whole words in texts.
ghost use Rattle.std.specs.Prelude.{◌≡◌, ◌-◌, ◌<◌, IfOk, IfSome, OnErr, length};
ghost use Rattle.literal_base.specs.Occurs.{IsValidSpan, whole_of};
ghost use Rattle.literal_search.specs.WholeWords.{AreWholeWordsBy, IsFirstAloneBy, NothingAloneBy};
ghost use Rattle.literal_search.specs.WholeWords.{ScansFirstWord, word_matches_in};
ghost use Rattle.literal_search.specs.WordText.{sides_of};

use crate::whole_words::WholeWords;
use crate::word_matches::WordMatchesBySides;
use literal_base::count::Tally;
use literal_base::{Match, Span};
use literal_leftmost::cursor::Cursor;
use literal_words::word_search::Words;
use literal_words::word_text::WordText;
use std::alloc::{AllocError, Global};

impl WholeWords {
    /// Returns the leftmost whole word in the whole text, as [`WholeWords::find_text_in`] does for a span.
    pub fn find_text(&self, text: &WordText<'_>) -> Option<Match>
        ensures leftmost { IsFirstAloneBy self.now text.now (sides_of text.now) (whole_of text.now) result }
        ensures not_empty { IfSome result (λ found. found.start < found.end) }
    {
        let end = text.as_bytes().len();
        self.find_text_in(text, Span { start: 0, end })
    }

    /// Returns the leftmost whole word in a span of the text: like [`WholeWords::find_in`], except that word characters
    /// count in place of word bytes. All offsets are in bytes. The span has to be valid; it may begin or end within a
    /// character. Allocates nothing.
    pub fn find_text_in(&self, text: &WordText<'_>, span: Span) -> Option<Match>
        requires { IsValidSpan text.now span }
        ensures leftmost { IsFirstAloneBy self.now text.now (sides_of text.now) span result }
        ensures not_empty { IfSome result (λ found. found.start < found.end) }
    {
        self.find_text_in_counted(text, span, &mut Tally::new())
    }

    /// Like [`WholeWords::find_text_in`], and counts in the tally as [`WholeWords::find_in_counted`] does. A byte of
    /// the sides counts as a byte of the text.
    pub fn find_text_in_counted(
        &self,
        text: &WordText<'_>,
        span: Span,
        tally: &mut Tally,
    ) -> Option<Match>
        requires { IsValidSpan text.now span }
        ensures leftmost { IsFirstAloneBy self.now text.now (sides_of text.now) span result }
        ensures not_empty { IfSome result (λ found. found.start < found.end) }
        ensures bounded { ScansFirstWord self.now.search.query.patterns span result tally.old tally.new }
    {
        self.find_by_sides(text.as_bytes(), text.sides(), span, tally)
    }

    /// Returns an iterator over all whole words in the text that do not overlap, from the left, as
    /// [`WholeWords::find_iter`] does. The iterator borrows the text.
    pub fn find_text_iter<'s, 'h>(&'s self, text: &'h WordText<'h>) -> WordMatchesBySides<'s, 'h>
        ensures { result ≡ record {
          matches = word_matches_in self.now text.now (whole_of text.now);
          sides = sides_of text.now;
        } }
    {
        let end = text.as_bytes().len();
        self.find_text_iter_in(text, Span { start: 0, end })
    }

    /// The same in a span of the text, which has to be valid. Allocates nothing.
    pub fn find_text_iter_in<'s, 'h>(
        &'s self,
        text: &'h WordText<'h>,
        span: Span,
    ) -> WordMatchesBySides<'s, 'h>
        requires { IsValidSpan text.now span }
        ensures { result ≡ record { matches = word_matches_in self.now text.now span; sides = sides_of text.now } }
    {
        self.matches_by_sides(text.as_bytes(), text.sides(), span)
    }

    /// Returns the list of all matches that [`WholeWords::find_text_iter`] gives. Allocates only if there is one.
    pub fn find_text_all(&self, text: &WordText<'_>) -> Result<Vec<Match>, AllocError>
        ensures all { IfOk result
            (λ all. AreWholeWordsBy self.now text.now (sides_of text.now) (whole_of text.now) all.items) }
        ensures no_memory { OnErr result
            (¬ NothingAloneBy self.now text.now (sides_of text.now) (whole_of text.now)) }
    {
        let mut all = Vec::new(self.parts.search.allocator());
        for found in self.find_text_iter(text) {
            all.push(found)?;
        }
        Ok(all)
    }

    /// The leftmost whole word in a span of a haystack, by its sides.
    pub(crate) fn find_by_sides(
        &self,
        haystack: &[u8],
        sides: &[u8],
        span: Span,
        tally: &mut Tally,
    ) -> Option<Match>
        requires valid { IsValidSpan haystack.now span }
        requires sides { length sides.now ≡ length haystack.now }
        ensures leftmost { IsFirstAloneBy self.now haystack.now sides.now span result }
        ensures not_empty { IfSome result (λ found. found.start < found.end) }
        ensures bounded { ScansFirstWord self.now.search.query.patterns span result tally.old tally.new }
    {
        let (kind, word_bytes) = (self.parts.kind, self.parts.word_bytes);
        let words = Words::new(kind, self.parts.search.backward(), word_bytes);
        let Ok(answer) = words.find_in(haystack, sides, span, tally) else {
            unreachable!();
        };
        answer
    }

    /// The iteration over the whole words of a span of a haystack, by its sides.
    pub(crate) fn matches_by_sides<'s, 'h>(
        &'s self,
        haystack: &'h [u8],
        sides: &'h [u8],
        span: Span,
    ) -> WordMatchesBySides<'s, 'h>
        requires valid { IsValidSpan haystack.now span }
        requires sides { length sides.now ≡ length haystack.now }
        ensures { result ≡ record { matches = word_matches_in self.now haystack.now span; sides = sides.now } }
    {
        let (kind, word_bytes) = (self.parts.kind, self.parts.word_bytes);
        let words = Words::new(kind, self.parts.search.backward(), word_bytes);
        let longest = words.backward.table.longest;
        let mut matches = WordMatchesBySides {
            parts: &self.parts,
            words,
            haystack,
            sides,
            span,
            at: span.start,
            starts: Cursor::new(span.start),
        };
        matches.starts.make_room(longest, span);
        matches
    }
}
