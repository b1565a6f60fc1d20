//! The iteration over the whole words of a haystack by its sides.
ghost use Rattle.std.specs.Prelude.{◌≡◌, ◌≤◌, length};
ghost use Rattle.literal_search.specs.WholeWords.{GivesWordBySides, ScansWords, most_words_by_sides};

use crate::search::Search;
use literal_base::alphabet::ByteSet;
use literal_base::count::Tally;
use literal_base::packed::MatchKind;
use literal_base::{Match, Span};
use literal_leftmost::backward::{Continuation, offset_after};
use literal_leftmost::cursor::Cursor;
use literal_words::word_search::Words;
use std::marker::Model;

/// The data of a search for whole words. Its search prefers the longest match for either match kind, since with the
/// other rule a pattern never matches if an earlier one is its prefix.
#[derive(Drop)]
pub struct Parts {
    pub kind: MatchKind,
    pub search: Search,
    pub word_bytes: ByteSet,
}

/// The iterator of [`WholeWords::find_text_iter_in`](crate::WholeWords::find_text_iter_in). Contracts see what they see
/// of a [`WholeWordMatches`](crate::WholeWordMatches), and the sides of the text. After its first `None` it always
/// answers `None`.
#[derive(Drop)]
pub struct WordMatchesBySides<'s, 'h> {
    pub(crate) parts: &'s Parts,
    pub(crate) words: Words<'s>,
    pub(crate) haystack: &'h [u8],
    pub(crate) sides: &'h [u8],
    pub(crate) span: Span,
    pub(crate) at: usize,
    pub(crate) starts: Cursor,
}

impl<'s, 'h> Model for WordMatchesBySides<'s, 'h> {
    ghost use Rattle.std.specs.Prelude.{◌≡◌, ◌≤◌, length};
    ghost use Rattle.literal_search.specs.WholeWords.{WordMatchesBySidesValue};
    ghost use Rattle.literal_words.specs.Inside.WholeWords.{AreKnownStarts, AreWordParts, AreWordsFor};
    ghost use Rattle.literal_search.specs.Inside.OwnedWords.{owned_parts};
    ghost use Rattle.literal_words.specs.Inside.WholeWords.{starts_looked_up, whole_words_value};

    ghost Value = { WordMatchesBySidesValue };

    ghost view = { λ m. record {
      matches = record {
        words = whole_words_value (owned_parts m.parts.now);
        haystack = m.haystack.now;
        span = m.span;
        at = m.at;
        from = m.starts.at;
        look_ups = starts_looked_up m.words m.span m.starts;
      };
      sides = m.sides.now;
    } };

    ghost invariant = { λ m. AreWordParts (owned_parts m.parts.now) × AreWordsFor (owned_parts m.parts.now) m.words
        × AreKnownStarts m.words m.haystack.now m.span m.starts × (m.starts.at ≤ m.at) × (m.at ≤ m.span.end)
        × (length m.sides.now ≡ length m.haystack.now) };
}

impl<'s, 'h> WordMatchesBySides<'s, 'h> {
    /// Like `next`, and counts in the tally as
    /// [`WholeWordMatches::next_counted`](crate::WholeWordMatches::next_counted) does. A byte of the sides counts as a
    /// byte of the text.
    pub fn next_counted(&mut self, tally: &mut Tally) -> Option<Match>
        ensures gives { GivesWordBySides self.old result self.new }
        ensures scans { ScansWords self.old.matches.words.search.query.patterns self.old.matches.from
            self.new.matches.from self.old.matches.look_ups self.new.matches.look_ups tally.old tally.new }
    {
        let (span, at) = (self.span, self.at);
        let haystack = self.haystack;
        let sides = self.sides;
        let next = self
            .words
            .next_word(haystack, sides, span, at, &mut self.starts, tally);
        let Ok(answer) = next else {
            unreachable!();
        };
        self.at = offset_after(Continuation::AtEnd, span, &answer);
        answer
    }
}

impl<'s, 'h> Iterator for WordMatchesBySides<'s, 'h> {
    type Item = Match;

    ghost next_gives = { GivesWordBySides };

    ghost remaining = { most_words_by_sides };

    fn next(&mut self) -> Option<Match> {
        self.next_counted(&mut Tally::new())
    }
}
