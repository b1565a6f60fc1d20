//! The search for whole words.
ghost use Rattle.std.specs.Prelude.{◌≡◌, ◌+◌, ◌-◌, ◌*◌, ◌<◌, ◌≤◌, ◌↔◌, ℕ, IfErr, IfOk, IfSome, IsTrue, MatchOption};
ghost use Rattle.std.specs.Prelude.{OnErr, length};
ghost use Rattle.literal_base.specs.Bytes.{contains};
ghost use Rattle.literal_base.specs.Given.{CanBeTaken};
ghost use Rattle.literal_base.specs.Occurs.{IsValidSpan, pattern_at, whole_of};
ghost use Rattle.literal_search.specs.SearchValue.{BuildsSearch, CanBeKept, NeedFewReversed, NeedTooManyReversed};
ghost use Rattle.literal_search.specs.SearchValue.{RefusesSearch};
ghost use Rattle.literal_search.specs.WholeWords.{AreWholeWords, GivesWholeWord, IsFirstAlone};
ghost use Rattle.literal_search.specs.WholeWords.{NothingAlone, OccursAlone, ScansFirstWord, ScansWords};
ghost use Rattle.literal_search.specs.WholeWords.{is_ascii_word_byte, most_words_to_come, word_matches_in};
ghost use Rattle.literal_words.specs.Inside.WholeWords.{AreTablesFor};

use crate::BuildError;
use crate::search::Search;
use crate::word_matches::{Parts, WordMatchesBySides};
use literal_base::alphabet::ByteSet;
use literal_base::count::Tally;
use literal_base::packed::MatchKind;
use literal_base::{Match, Span};
use literal_ids::PatternID;
use literal_words::word_search::Words;
use std::alloc::{AllocError, Global};
use std::marker::Model;

/// Searches for whole words: occurrences of patterns with no word byte right before and none right after them. The
/// bytes of the haystack next to a span count too. Contracts see the match kind, the patterns, whether ASCII case is
/// ignored, and which bytes are word bytes.
///
/// The leftmost whole word is the one that begins first; if several begin there, the match kind decides. A pattern that
/// is no whole word hides no other. So with [`MatchKind::LeftmostFirst`], a whole word is found even if an earlier
/// pattern is its prefix, unless that one is a whole word too.
///
/// ```rust
/// let words = [b"new york".as_slice(), b"york"];
/// let set = WholeWords::ascii_word_bytes();
/// let search = WholeWords::new(alloc, MatchKind::LeftmostFirst, true, set, words)?;
/// let found = search.find(b"Yorkers, York").ok_or("nothing is found")?;
/// assert!(rt; found.pattern().as_usize() == 1 && found.range() == (9..13));
/// ```
#[derive(Drop)]
pub struct WholeWords {
    pub(crate) parts: Parts,
}

impl Model for WholeWords {
    ghost use Rattle.literal_search.specs.WholeWords.{WholeWordsValue};
    ghost use Rattle.literal_words.specs.Inside.WholeWords.{AreWordParts, whole_words_value};
    ghost use Rattle.literal_search.specs.Inside.OwnedWords.{owned_parts};

    ghost Value = { WholeWordsValue };

    ghost view = { λ w. whole_words_value (owned_parts w.parts) };

    ghost invariant = { λ w. AreWordParts (owned_parts w.parts) };
}

impl WholeWords {
    /// Builds a search for the patterns that an iterator gives, as whole words, with this match kind, with ASCII case
    /// ignored or kept, and with these word bytes. The iterator has to end. The errors are those of [`Search::new`].
    pub fn new<'a, I: IntoIterator<Item = &'a [u8]>>(
        alloc: Global,
        kind: MatchKind,
        ignore_case: bool,
        word_bytes: ByteSet,
        patterns: I,
    ) -> Result<WholeWords, BuildError>
        requires { CanBeTaken I.into_iter_gives I.IntoIter.can_next I.IntoIter.remaining patterns }
        ensures ok { IfOk result
            (λ words. BuildsSearch I.into_iter_gives I.IntoIter.next_gives patterns kind ignore_case words.search) }
        ensures word_bytes { IfOk result (λ words. words.word_bytes ≡ word_bytes) }
        ensures few { IfOk result (λ words. NeedFewReversed ignore_case words.search.query.patterns) }
        ensures error { IfErr result (RefusesSearch I.into_iter_gives I.IntoIter.next_gives patterns
            (NeedTooManyReversed ignore_case)) }
    {
        let search = Search::new(alloc, MatchKind::LeftmostLongest, ignore_case, patterns)?;
        let parts = Parts {
            kind,
            search,
            word_bytes,
        };
        Ok(WholeWords { parts })
    }

    /// Returns the set of the ASCII letters, the digits and the underscore.
    pub fn ascii_word_bytes() -> ByteSet
        ensures { (b : ℕ) → contains result b ≡ is_ascii_word_byte b }
    {
        let mut set = ByteSet::empty();
        for byte in 0..=255u8 {
            if byte.is_ascii_alphanumeric() || byte == b'_' {
                set.add(byte);
            }
        }
        set
    }

    /// Returns the leftmost whole word in the whole haystack, as [`WholeWords::find_in`] does for a span.
    pub fn find(&self, haystack: &[u8]) -> Option<Match>
        ensures leftmost { IsFirstAlone self.now haystack.now (whole_of haystack.now) result }
        ensures not_empty { IfSome result (λ found. found.start < found.end) }
    {
        let end = haystack.len();
        self.find_in(haystack, Span { start: 0, end })
    }

    /// Returns the leftmost whole word in a span of the haystack. Only words that lie whole in the span count. The one
    /// that begins first wins; if several begin there, the match kind decides. All offsets are in bytes of the whole
    /// haystack. The span has to be valid. Allocates nothing.
    pub fn find_in(&self, haystack: &[u8], span: Span) -> Option<Match>
        requires { IsValidSpan haystack.now span }
        ensures leftmost { IsFirstAlone self.now haystack.now span result }
        ensures not_empty { IfSome result (λ found. found.start < found.end) }
    {
        self.find_in_counted(haystack, span, &mut Tally::new())
    }

    /// Like [`WholeWords::find_in`], and counts each looked-up byte in the tally, as scanned. These are at most three
    /// times the bytes of the span, and once more for each whole 262,000 bytes of the longest pattern; plus n + 1 for
    /// each byte up to and including the match's first, where n is the longest pattern's length; without a match, for
    /// each byte of the span.
    pub fn find_in_counted(&self, haystack: &[u8], span: Span, tally: &mut Tally) -> Option<Match>
        requires { IsValidSpan haystack.now span }
        ensures leftmost { IsFirstAlone self.now haystack.now span result }
        ensures not_empty { IfSome result (λ found. found.start < found.end) }
        ensures bounded { ScansFirstWord self.now.search.query.patterns span result tally.old tally.new }
    {
        self.find_by_sides(haystack, haystack, span, tally)
    }

    /// Returns whether a pattern occurs in the haystack as a whole word.
    pub fn is_match(&self, haystack: &[u8]) -> bool
        ensures { IsTrue result ↔ ((i : ℕ) × (at : ℕ) × OccursAlone self.now.search.query.patterns
            self.now.search.ignore_case self.now.word_bytes haystack.now (whole_of haystack.now) i at) }
    {
        self.find(haystack).is_some()
    }

    /// Returns an iterator over all whole words in the haystack that do not overlap: first the leftmost one, then each
    /// time the leftmost one after the end of the previous one. The iterator borrows the haystack. It ends with its
    /// first `None`.
    pub fn find_iter<'s, 'h>(&'s self, haystack: &'h [u8]) -> WholeWordMatches<'s, 'h>
        ensures { result ≡ word_matches_in self.now haystack.now (whole_of haystack.now) }
    {
        let end = haystack.len();
        self.find_iter_in(haystack, Span { start: 0, end })
    }

    /// The same in a span of the haystack. Each match lies whole in the span, which has to be valid. Allocates nothing.
    pub fn find_iter_in<'s, 'h>(
        &'s self,
        haystack: &'h [u8],
        span: Span,
    ) -> WholeWordMatches<'s, 'h>
        requires { IsValidSpan haystack.now span }
        ensures { result ≡ word_matches_in self.now haystack.now span }
    {
        WholeWordMatches {
            matches: self.matches_by_sides(haystack, haystack, span),
        }
    }

    /// Returns the list of all matches that [`WholeWords::find_iter`] gives. Allocates only if there is one.
    pub fn find_all(&self, haystack: &[u8]) -> Result<Vec<Match>, AllocError>
        ensures all { IfOk result
            (λ all. AreWholeWords self.now haystack.now (whole_of haystack.now) all.items) }
        ensures no_memory { OnErr result (¬ NothingAlone self.now haystack.now (whole_of haystack.now)) }
    {
        let end = haystack.len();
        self.find_all_in(haystack, Span { start: 0, end })
    }

    /// Returns the list of all matches that [`WholeWords::find_iter_in`] gives. The span has to be valid. Allocates
    /// only if there is one.
    pub fn find_all_in(&self, haystack: &[u8], span: Span) -> Result<Vec<Match>, AllocError>
        requires { IsValidSpan haystack.now span }
        ensures all { IfOk result (λ all. AreWholeWords self.now haystack.now span all.items) }
        ensures no_memory { OnErr result (¬ NothingAlone self.now haystack.now span) }
    {
        let mut all = Vec::new(self.parts.search.allocator());
        for found in self.find_iter_in(haystack, span) {
            all.push(found)?;
        }
        Ok(all)
    }

    /// The tables to search by.
    pub(crate) fn tables(&self) -> Words<'_>
        ensures { AreTablesFor self.now result }
    {
        let Parts {
            kind,
            search,
            word_bytes,
        } = &self.parts;
        Words::new(*kind, search.backward(), *word_bytes)
    }

    /// Returns the match kind, which decides between whole words that begin at the same offset.
    pub fn match_kind(&self) -> MatchKind
        ensures { result ≡ self.now.search.query.kind }
    {
        self.parts.kind
    }

    /// Returns whether ASCII case is ignored.
    pub fn ignores_case(&self) -> bool
        ensures { result ≡ self.now.search.ignore_case }
    {
        self.parts.search.ignores_case()
    }

    /// Returns the set of word bytes.
    pub fn word_bytes(&self) -> ByteSet
        ensures { result ≡ self.now.word_bytes }
    {
        self.parts.word_bytes
    }

    /// Returns the number of patterns. None of them is empty.
    pub fn patterns_len(&self) -> usize
        ensures len { result ≡ length self.now.search.query.patterns }
        ensures patterns { CanBeKept self.now.search.query.patterns }
    {
        self.parts.search.patterns_len()
    }

    /// Returns the bytes of the pattern with this number, as they were given, or `None` if there is no such pattern.
    pub fn pattern(&self, id: PatternID) -> Option<&[u8]>
        ensures { MatchOption result (length self.now.search.query.patterns ≤ id)
            (λ bytes. (id < length self.now.search.query.patterns)
            × (bytes.now ≡ pattern_at self.now.search.query.patterns id)) }
    {
        self.parts.search.pattern(id)
    }
}

/// The iterator of [`WholeWords::find_iter_in`]. Contracts see the words, the haystack, the span, the offset from which
/// it continues, the offset from which it looks for the next pattern, and bounds on the bytes that it has looked up.
/// After its first `None` it always answers `None`.
#[derive(Drop)]
pub struct WholeWordMatches<'s, 'h> {
    matches: WordMatchesBySides<'s, 'h>,
}

impl<'s, 'h> Model for WholeWordMatches<'s, 'h> {
    ghost use Rattle.std.specs.Prelude.{◌≡◌};
    ghost use Rattle.literal_search.specs.WholeWords.{WholeWordMatchesValue};

    ghost Value = { WholeWordMatchesValue };

    ghost view = { λ m. m.matches.matches };

    ghost invariant = { λ m. m.matches.sides ≡ m.matches.matches.haystack };
}

impl<'s, 'h> WholeWordMatches<'s, 'h> {
    /// Like `next`, and counts each looked-up byte in the tally, as scanned. An iteration looks up at most as many
    /// bytes as [`Matches::next_counted`](crate::Matches::next_counted) says, plus n + 1 for each byte of the span,
    /// where n is the longest pattern's length.
    pub fn next_counted(&mut self, tally: &mut Tally) -> Option<Match>
        ensures gives { GivesWholeWord self.old result self.new }
        ensures scans { ScansWords self.old.words.search.query.patterns self.old.from self.new.from
            self.old.look_ups self.new.look_ups tally.old tally.new }
    {
        self.matches.next_counted(tally)
    }
}

impl<'s, 'h> Iterator for WholeWordMatches<'s, 'h> {
    type Item = Match;

    ghost next_gives = { GivesWholeWord };

    ghost remaining = { most_words_to_come };

    fn next(&mut self) -> Option<Match> {
        self.next_counted(&mut Tally::new())
    }
}
