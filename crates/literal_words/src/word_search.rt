//! The search for whole words, by tables that are owned or lent. Lent tables may be wrong: if a number points outside
//! the rows, the answer is `Damaged`. Next to an occurrence it looks up the sides of the haystack: as many bytes, the
//! haystack itself or others.
ghost use Rattle.std.specs.Prelude.{◌≡◌, ◌+◌, ◌-◌, ◌*◌, ◌<◌, ◌≤◌, ℕ, IfOk, IfSome, MatchOption, None, OnErr};
ghost use Rattle.std.specs.Prelude.{false, length, min};
ghost use Rattle.std.specs.Result.{IsOkAnd};
ghost use Rattle.literal_base.specs.Occurs.{IsValidSpan, between};
ghost use Rattle.literal_base.specs.declared.packed.MatchKind.TheVariants.{LeftmostFirst, LeftmostLongest};
ghost use Rattle.literal_leftmost.specs.MatchesValue.{offset_after_start};
ghost use Rattle.literal_leftmost.specs.LookUps.{LooksOn, no_look_ups};
ghost use Rattle.literal_words.specs.WholeWords.{IsFirstAloneBy, ScansFirstWordBy, ScansWordsBy, ScansWordsRest};
ghost use Rattle.literal_words.specs.WholeWords.{is_word_at, is_word_before};
ghost use Rattle.literal_leftmost.specs.Inside.Backward.{IsMatchBy, IsSafe};
ghost use Rattle.literal_leftmost.specs.Inside.Cursor.{FitsIn};
ghost use Rattle.literal_leftmost.specs.At.{IsMatchIn};
ghost use Rattle.literal_words.specs.Inside.WholeWords.{AreKnownStarts, AreShorter, ForWords, IsBestHere, IsBestWord};
ghost use Rattle.literal_words.specs.Inside.WholeWords.{IsEarlier, IsMatchAtStart, IsMatchWithin, IsWordAt, ScansEnds};
ghost use Rattle.literal_words.specs.Inside.WholeWords.{starts_looked_up, whole_words_value};

use literal_base::alphabet::ByteSet;
use literal_base::count::Tally;
use literal_base::packed::MatchKind;
use literal_base::{Match, Span};
use literal_leftmost::backward::{Backward, Continuation};
use literal_leftmost::cursor::Cursor;
use literal_rows::damaged::Damaged;
use literal_rows::walk::NOTHING;

/// The data of a search for whole words. The tables are those of a search that prefers the longest match, for either
/// match kind, since with the other rule a pattern never matches if an earlier one is its prefix.
#[derive(Clone, Copy)]
pub struct Words<'t> {
    pub kind: MatchKind,
    pub backward: Backward<'t>,
    pub word_bytes: ByteSet,
}

impl<'t> Words<'t> {
    /// The data of a search for whole words, from the tables of a search.
    pub fn new(kind: MatchKind, backward: Backward<'t>, word_bytes: ByteSet) -> Words<'t>
        ensures { result ≡ record { kind = kind; backward = backward.entry; word_bytes = word_bytes } }
    {
        Words {
            kind,
            backward,
            word_bytes,
        }
    }

    /// The leftmost whole word in a span.
    pub fn find_in(
        &self,
        haystack: &[u8],
        sides: &[u8],
        span: Span,
        tally: &mut Tally,
    ) -> Result<Option<Match>, Damaged>
        requires safe { IsSafe self.now.backward }
        requires valid { IsValidSpan haystack.now span }
        requires sides { length sides.now ≡ length haystack.now }
        ensures leftmost { ForWords self.now (λ parts. IsOkAnd result
            (IsFirstAloneBy (whole_words_value parts) haystack.now sides.now span)) }
        ensures lies { IfOk result (λ answer. IfSome answer (IsMatchBy self.now.backward span span.start)) }
        ensures scans { IfOk result (λ answer. ScansFirstWordBy self.now.backward.table.longest span answer
            tally.old tally.new) }
        ensures rest { ScansWordsRest self.now.backward.table.longest span span.start no_look_ups tally.old tally.new }
    {
        let mut starts = Cursor::new(span.start);
        starts.make_room(self.backward.table.longest, span);
        self.next_word(haystack, sides, span, span.start, &mut starts, tally)
    }

    /// The next whole word from an offset on. The starts are looked for from an offset before it on.
    pub fn next_word(
        &self,
        haystack: &[u8],
        sides: &[u8],
        span: Span,
        at: usize,
        starts: &mut Cursor,
        tally: &mut Tally,
    ) -> Result<Option<Match>, Damaged>
        requires starts { AreKnownStarts self.now haystack.now span starts.old }
        requires before { starts.old.at ≤ at }
        requires inside { at ≤ span.end }
        requires sides { length sides.now ≡ length haystack.now }
        ensures leftmost { ForWords self.now (λ parts. IsOkAnd result
            (IsFirstAloneBy (whole_words_value parts) haystack.now sides.now (between at span.end))) }
        ensures lies { IfOk result (λ answer. IfSome answer (IsMatchBy self.now.backward span at)) }
        ensures starts { IfOk result (λ _. AreKnownStarts self.now haystack.now span starts.new) }
        ensures at { IfOk result (λ answer. starts.new.at ≡ offset_after_start span answer) }
        ensures looks { IfOk result (λ _. LooksOn self.now.backward.table.longest span starts.new.at
            (starts_looked_up self.now span starts.old) (starts_looked_up self.now span starts.new)) }
        ensures scans { IfOk result (λ _. ScansWordsBy self.now.backward.table.longest starts.old.at starts.new.at
            (starts_looked_up self.now span starts.old) (starts_looked_up self.now span starts.new) tally.old
            tally.new) }
        ensures rest { ScansWordsRest self.now.backward.table.longest span starts.old.at
            (starts_looked_up self.now span starts.old) tally.old tally.new }
        ensures fits { OnErr result (FitsIn self.now.backward.table.longest span starts.new.room) }
        ensures ended { starts.old.at ≡ span.end → IsOkAnd result (λ answer. answer ≡ None) }
    {
        let (backward, on) = (&self.backward, Continuation::AfterStart);
        while let Some(found) = backward.next_in(haystack, span, on, starts, tally)? {
            if let Some(word) = self.best_word(haystack, sides, found, at, tally)? {
                return Ok(Some(word));
            }
        }
        Ok(None)
    }

    /// The whole word that the match kind prefers, of those that begin where a match does and lie whole in it. If that
    /// is before the offset `from`, there is none.
    fn best_word(
        &self,
        haystack: &[u8],
        sides: &[u8],
        found: Match,
        from: usize,
        tally: &mut Tally,
    ) -> Result<Option<Match>, Damaged>
        requires safe { IsSafe self.now.backward }
        requires lies { IsMatchWithin self.now haystack.now found }
        requires sides { length sides.now ≡ length haystack.now }
        ensures best { ForWords self.now (λ parts. IsBestHere parts.search haystack.now found
            → IsOkAnd result (λ answer. MatchOption answer (from ≤ found.start
            → (i : ℕ) → ¬ IsWordAt parts haystack.now sides.now (between found.start found.end) i)
            (IsBestWord parts.kind parts haystack.now sides.now (between found.start found.end)))) }
        ensures after { IfOk result (λ answer. IfSome answer (λ _. from ≤ found.start)) }
        ensures lies { IfOk result (λ answer. IfSome answer
            (IsMatchAtStart self.now (between found.start found.end))) }
        ensures scans { ScansEnds found.start (found.end + 1) tally.old tally.new }
        ensures least { IfOk result (λ _. tally.old.scanned ≤ tally.new.scanned) }
    {
        if found.start() < from {
            return Ok(None);
        }
        if self.is_word_before(sides, found.start(), tally) {
            return Ok(None);
        }
        match self.kind {
            MatchKind::LeftmostLongest => self.longest_word(haystack, sides, found, tally),
            MatchKind::LeftmostFirst => self.first_word(haystack, sides, found, tally),
        }
    }

    /// The whole word whose pattern is the first in the list, of those that begin where a match does and lie whole in
    /// it. No word byte is before the match.
    fn first_word(
        &self,
        haystack: &[u8],
        sides: &[u8],
        found: Match,
        tally: &mut Tally,
    ) -> Result<Option<Match>, Damaged>
        requires safe { IsSafe self.now.backward }
        requires lies { IsMatchWithin self.now haystack.now found }
        requires sides { length sides.now ≡ length haystack.now }
        requires before { is_word_before self.now.word_bytes sides.now found.start ≡ false }
        ensures best { ForWords self.now (λ parts. IsBestHere parts.search haystack.now found
            → IsOkAnd result (λ answer. MatchOption answer
            ((i : ℕ) → ¬ IsWordAt parts haystack.now sides.now (between found.start found.end) i)
            (IsBestWord LeftmostFirst parts haystack.now sides.now (between found.start found.end)))) }
        ensures lies { IfOk result (λ answer. IfSome answer
            (IsMatchAtStart self.now (between found.start found.end))) }
        ensures scans { ScansEnds found.start found.end tally.old tally.new }
        ensures least { IfOk result (λ _. tally.old.scanned ≤ tally.new.scanned) }
    {
        let mut first = None;
        let mut next = Some(found);
        while let Some(here) = next {
            if !self.is_word_at(sides, here.end(), tally) {
                first = Some(earlier(first, here));
            }
            next = self.shorter(haystack, here)?;
        }
        Ok(first)
    }

    /// The longest whole word of those that begin where a match does and lie whole in it. No word byte is before the
    /// match.
    fn longest_word(
        &self,
        haystack: &[u8],
        sides: &[u8],
        found: Match,
        tally: &mut Tally,
    ) -> Result<Option<Match>, Damaged>
        requires safe { IsSafe self.now.backward }
        requires lies { IsMatchWithin self.now haystack.now found }
        requires sides { length sides.now ≡ length haystack.now }
        requires before { is_word_before self.now.word_bytes sides.now found.start ≡ false }
        ensures best { ForWords self.now (λ parts. IsBestHere parts.search haystack.now found
            → IsOkAnd result (λ answer. MatchOption answer
            ((i : ℕ) → ¬ IsWordAt parts haystack.now sides.now (between found.start found.end) i)
            (IsBestWord LeftmostLongest parts haystack.now sides.now (between found.start found.end)))) }
        ensures lies { IfOk result (λ answer. IfSome answer
            (IsMatchAtStart self.now (between found.start found.end))) }
        ensures scans { ScansEnds found.start found.end tally.old tally.new }
        ensures least { IfOk result (λ _. tally.old.scanned ≤ tally.new.scanned) }
    {
        let mut next = Some(found);
        while let Some(here) = next {
            if !self.is_word_at(sides, here.end(), tally) {
                return Ok(Some(here));
            }
            next = self.shorter(haystack, here)?;
        }
        Ok(None)
    }

    /// The longest pattern that begins where a match does and ends before its end. It is a link; no byte is looked up.
    fn shorter(&self, haystack: &[u8], found: Match) -> Result<Option<Match>, Damaged>
        requires safe { IsSafe self.now.backward }
        requires lies { IsMatchWithin self.now haystack.now found }
        ensures next { ForWords self.now (λ parts. IsBestHere parts.search haystack.now found
            → IsOkAnd result (IsMatchIn parts.search.query parts.search.ignore_case haystack.now
            (between found.start (found.end - 1)))) }
        ensures lies { IfOk result (AreShorter self.now haystack.now found.start (found.end - 1)) }
    {
        prove!(found.end() <= haystack.len());
        let backward = &self.backward;
        let link = *backward
            .links
            .get(found.pattern().as_usize())
            .ok_or(Damaged)?;
        if link == NOTHING {
            return Ok(None);
        }
        let len = *backward.lens.get(link as usize).ok_or(Damaged)? as usize;
        let start = found.start();
        if len == 0 || len >= found.end() - start {
            return Err(Damaged);
        }
        let end = start + len;
        Ok(Some(Match::must(link as usize, Span { start, end })))
    }

    /// Whether a word byte is right before an offset of the sides.
    fn is_word_before(&self, sides: &[u8], at: usize, tally: &mut Tally) -> bool
        requires { at ≤ length sides.now }
        ensures told { result ≡ is_word_before self.now.word_bytes sides.now at }
        ensures others { tally.new ≡ record tally.old { scanned = tally.new.scanned } }
        ensures counted { tally.new.scanned ≡ tally.old.scanned + min 1 at }
    {
        at > 0 && self.is_word_at(sides, at - 1, tally)
    }

    /// Whether a word byte is at an offset of the sides. It looks up one byte, or none at their end.
    fn is_word_at(&self, sides: &[u8], at: usize, tally: &mut Tally) -> bool
        requires { at ≤ length sides.now }
        ensures told { result ≡ is_word_at self.now.word_bytes sides.now at }
        ensures others { tally.new ≡ record tally.old { scanned = tally.new.scanned } }
        ensures counted { tally.new.scanned ≡ tally.old.scanned + min 1 (length sides.now - at) }
    {
        if at == sides.len() {
            return false;
        }
        tally.tick_scanned();
        self.word_bytes.contains(sides[at])
    }
}

/// The match whose pattern is earlier in the list, of two.
pub fn earlier(first: Option<Match>, found: Match) -> Match
    ensures { IsEarlier first found result }
{
    match first {
        Some(other) if other.pattern().as_usize() <= found.pattern().as_usize() => other,
        _ => found,
    }
}
