//! The matches that do not overlap, and the match at each offset: iterations over them, and lists.
ghost use Rattle.std.specs.Prelude.{◌≡◌, ◌+◌, ◌-◌, ◌≤◌, IfOk, OnErr};
ghost use Rattle.literal_base.specs.Greedy.{IsGreedy, IsGreedyIn};
ghost use Rattle.literal_base.specs.Occurs.{IsValidSpan, whole_of};
ghost use Rattle.literal_leftmost.specs.Inside.Backward.{offset_by};
ghost use Rattle.literal_search.specs.LookUps.{ScansNext, no_look_ups};
ghost use Rattle.literal_search.specs.MatchesValue.{GivesMatch, GivesStart, GivesThen, matches_in, matches_of};
ghost use Rattle.literal_search.specs.MatchesValue.{most_to_come};
ghost use Rattle.literal_search.specs.SearchValue.{MayRefuseList, ScansListAtMost};

use crate::search::{Parts, Search};
use literal_base::count::Tally;
use literal_base::{Match, Span};
use literal_leftmost::backward::{Backward, Continuation};
use literal_leftmost::cursor::Cursor;
use literal_leftmost::short_span::{SHORT_SPAN, ShortCursor};
use std::alloc::{AllocError, Global};
use std::marker::Model;

impl Search {
    /// Returns an iterator over all matches in the haystack that do not overlap: first the leftmost match, then each
    /// time the leftmost match after the end of the previous one. The iterator borrows the haystack. It ends with its
    /// first `None`.
    pub fn find_iter<'s, 'h>(&'s self, haystack: &'h [u8]) -> Matches<'s, 'h>
        ensures { result ≡ matches_of self.now haystack.now }
    {
        let end = haystack.len();
        self.find_iter_in(haystack, Span { start: 0, end })
    }

    /// The same in a span of the haystack. Each match lies whole in the span. All offsets are in bytes of the whole
    /// haystack. The span has to be valid: `start` is at most `end`, and `end` at most the haystack's length. It
    /// allocates nothing: the iterator itself takes a little more than 4 KiB.
    pub fn find_iter_in<'s, 'h>(&'s self, haystack: &'h [u8], span: Span) -> Matches<'s, 'h>
        requires { IsValidSpan haystack.now span }
        ensures { result ≡ matches_in self.now haystack.now span }
    {
        prove!(span.end <= haystack.len());
        let backward = self.parts.backward();
        let mut matches = Matches {
            parts: &self.parts,
            backward,
            haystack,
            span,
            cursor: Cursor::new(span.start),
        };
        matches.cursor.make_room(backward.table.longest, span);
        matches
    }

    /// Returns an iterator over the match at each offset where a pattern begins, from left to right: of the patterns
    /// that occur there, the one that the match kind prefers. These matches may overlap.
    pub fn starts<'s, 'h>(&'s self, haystack: &'h [u8]) -> Starts<'s, 'h>
        ensures { result ≡ matches_of self.now haystack.now }
    {
        let end = haystack.len();
        self.starts_in(haystack, Span { start: 0, end })
    }

    /// The same in a span of the haystack. Each match lies whole in the span, which has to be valid. Allocates nothing.
    pub fn starts_in<'s, 'h>(&'s self, haystack: &'h [u8], span: Span) -> Starts<'s, 'h>
        requires { IsValidSpan haystack.now span }
        ensures { result ≡ matches_in self.now haystack.now span }
    {
        Starts {
            matches: self.find_iter_in(haystack, span),
        }
    }

    /// Returns the list of all matches that [`Search::find_iter`] gives. Allocates only if there is a match.
    #[tactic(auto, using(literal_leftmost::proofs::lemmas::GreedyIn::greedy_whole))]
    pub fn find_all(&self, haystack: &[u8]) -> Result<Vec<Match>, AllocError>
        ensures greedy { IfOk result
            (λ all. IsGreedy self.now.query self.now.ignore_case haystack.now 0 all.items) }
        ensures no_memory { OnErr result (MayRefuseList self.now haystack.now (whole_of haystack.now)) }
    {
        let end = haystack.len();
        self.find_all_in(haystack, Span { start: 0, end })
    }

    /// Returns the list of all matches that [`Search::find_iter_in`] gives. The span has to be valid. Allocates only if
    /// there is a match.
    pub fn find_all_in(&self, haystack: &[u8], span: Span) -> Result<Vec<Match>, AllocError>
        requires { IsValidSpan haystack.now span }
        ensures greedy { IfOk result
            (λ all. IsGreedyIn self.now.query self.now.ignore_case haystack.now span all.items) }
        ensures no_memory { OnErr result (MayRefuseList self.now haystack.now span) }
    {
        self.find_all_in_counted(haystack, span, &mut Tally::new())
    }

    /// Like [`Search::find_all_in`], and counts each looked-up byte in the tally, as scanned: at most three times the
    /// bytes of the span, and once more for each whole 262,000 bytes of the longest pattern; and, unless memory is
    /// refused, at least these bytes.
    pub fn find_all_in_counted(
        &self,
        haystack: &[u8],
        span: Span,
        tally: &mut Tally,
    ) -> Result<Vec<Match>, AllocError>
        requires { IsValidSpan haystack.now span }
        ensures greedy { IfOk result
            (λ all. IsGreedyIn self.now.query self.now.ignore_case haystack.now span all.items) }
        ensures bounded { ScansListAtMost self.now.query.patterns (span.end - span.start) tally.old tally.new }
        ensures least { IfOk result (λ _. tally.old.scanned + (span.end - span.start) ≤ tally.new.scanned) }
        ensures no_memory { OnErr result (MayRefuseList self.now haystack.now span) }
    {
        if span.end - span.start <= SHORT_SPAN {
            let matches = self.find_iter_in_short(haystack, span);
            return list_of(self.allocator(), matches, tally);
        }
        list_of(self.allocator(), self.find_iter_in(haystack, span), tally)
    }

    /// The same as [`Search::find_iter_in`] for a short span, with marks for such a span alone.
    #[inline(always)]
    fn find_iter_in_short<'s, 'h>(&'s self, haystack: &'h [u8], span: Span) -> ShortMatches<'s, 'h>
        requires valid { IsValidSpan haystack.now span }
        requires short { span.end - span.start ≤ SHORT_SPAN }
        ensures { result ≡ matches_in self.now haystack.now span }
    {
        prove!(span.end <= haystack.len());
        ShortMatches {
            parts: &self.parts,
            backward: self.parts.backward(),
            haystack,
            span,
            cursor: ShortCursor::new(span),
        }
    }
}

/// The iterator of [`Search::find_iter_in`]. Contracts see the search, the haystack, the span, the offset from which it
/// continues (`at`), and bounds on the bytes that it has looked up so far (`look_ups`). After its first `None` it
/// always answers `None`.
#[derive(Drop)]
pub struct Matches<'s, 'h> {
    parts: &'s Parts,
    /// The search, taken from its numbers once.
    backward: Backward<'s>,
    haystack: &'h [u8],
    span: Span,
    cursor: Cursor,
}

impl<'s, 'h> Model for Matches<'s, 'h> {
    ghost use Rattle.literal_search.specs.MatchesValue.{MatchesValue};
    ghost use Rattle.literal_leftmost.specs.Inside.Cursor.{matches_at};
    ghost use Rattle.literal_search.specs.Inside.Search.{GoesOn, search_value};

    ghost Value = { MatchesValue };

    ghost view = { λ m.
        matches_at (search_value m.parts.now) m.haystack.now m.span m.backward.table.longest m.cursor };

    ghost invariant = { λ m. GoesOn m.parts.now m.backward m.haystack.now m.span m.cursor };
}

impl<'s, 'h> Matches<'s, 'h> {
    /// Like `next`, and counts each looked-up byte in the tally, as scanned. An iteration looks up at least the bytes
    /// of the span, and at most three times as many, and once more for each whole 262,000 bytes of the longest pattern.
    pub fn next_counted(&mut self, tally: &mut Tally) -> Option<Match>
        ensures gives { GivesMatch self.old result self.new }
        ensures scans { ScansNext self.old.look_ups self.new.look_ups tally.old tally.new }
    {
        self.next_then(Continuation::AtEnd, tally)
    }

    /// The next match. The iteration continues at its end, or one byte after its start.
    fn next_then(&mut self, on: Continuation, tally: &mut Tally) -> Option<Match>
        ensures gives { GivesThen (offset_by on) self.old result self.new }
        ensures scans { ScansNext self.old.look_ups self.new.look_ups tally.old tally.new }
    {
        let next = self
            .backward
            .next_in(self.haystack, self.span, on, &mut self.cursor, tally);
        let Ok(answer) = next else {
            unreachable!();
        };
        answer
    }
}

impl<'s, 'h> Iterator for Matches<'s, 'h> {
    type Item = Match;

    ghost next_gives = { GivesMatch };

    ghost remaining = { most_to_come };

    fn next(&mut self) -> Option<Match> {
        self.next_counted(&mut Tally::new())
    }
}

/// The iteration of a list over a short span. Contracts see the same as of [`Matches`].
#[derive(Drop)]
struct ShortMatches<'s, 'h> {
    parts: &'s Parts,
    backward: Backward<'s>,
    haystack: &'h [u8],
    span: Span,
    cursor: ShortCursor,
}

impl<'s, 'h> Model for ShortMatches<'s, 'h> {
    ghost use Rattle.literal_search.specs.MatchesValue.{MatchesValue};
    ghost use Rattle.std.specs.Prelude.{◌-◌, ◌≤◌};
    ghost use Rattle.literal_leftmost.specs.Inside.Cursor.{cursor_by, matches_at};
    ghost use Rattle.literal_search.specs.Inside.Search.{GoesOn, search_value};
    ghost use Rattle.literal_leftmost.specs.declared.short_span.TheConstants.{SHORT_SPAN};

    ghost Value = { MatchesValue };

    ghost view = { λ m.
        matches_at (search_value m.parts.now) m.haystack.now m.span m.backward.table.longest (cursor_by m.cursor) };

    ghost invariant = { λ m. (m.span.end - m.span.start ≤ SHORT_SPAN)
        × GoesOn m.parts.now m.backward m.haystack.now m.span (cursor_by m.cursor) };
}

/// An iteration over matches that counts what it looks up.
trait CountedMatches {
    ghost use Rattle.literal_search.specs.LookUps.{ScansNext};
    ghost use Rattle.literal_search.specs.MatchesValue.{GivesMatch, MatchesValue};

    /// The iteration as contracts see it.
    ghost seen: { Self → MatchesValue };

    /// The next match.
    fn next_match(&mut self, tally: &mut Tally) -> Option<Match>
        ensures gives { GivesMatch (seen self.old) result (seen self.new) }
        ensures scans { ScansNext (seen self.old).look_ups (seen self.new).look_ups tally.old tally.new };
}

impl CountedMatches for Matches<'_, '_> {
    ghost seen = { λ matches. matches };

    #[inline(always)]
    fn next_match(&mut self, tally: &mut Tally) -> Option<Match> {
        self.next_counted(tally)
    }
}

impl CountedMatches for ShortMatches<'_, '_> {
    ghost seen = { λ matches. matches };

    #[inline(always)]
    fn next_match(&mut self, tally: &mut Tally) -> Option<Match> {
        let next = self
            .backward
            .next_in_short(self.haystack, self.span, &mut self.cursor, tally);
        let Ok(answer) = next else {
            unreachable!();
        };
        answer
    }
}

/// The list of the matches that an iteration gives, which has not begun.
#[inline(always)]
fn list_of<M: CountedMatches + Drop>(
    alloc: Global,
    mut matches: M,
    tally: &mut Tally,
) -> Result<Vec<Match>, AllocError>
    requires begins { (M.seen matches).at ≡ (M.seen matches).span.start }
    requires ordered { (M.seen matches).span.start ≤ (M.seen matches).span.end }
    requires none { (M.seen matches).look_ups ≡ no_look_ups }
    ensures greedy { IfOk result (λ all. IsGreedyIn (M.seen matches).search.query (M.seen matches).search.ignore_case
        (M.seen matches).haystack (M.seen matches).span all.items) }
    ensures bounded { ScansListAtMost (M.seen matches).search.query.patterns
        ((M.seen matches).span.end - (M.seen matches).span.start) tally.old tally.new }
    ensures least { IfOk result (λ _. tally.old.scanned
        + ((M.seen matches).span.end - (M.seen matches).span.start) ≤ tally.new.scanned) }
    ensures no_memory { OnErr result
        (MayRefuseList (M.seen matches).search (M.seen matches).haystack (M.seen matches).span) }
{
    let mut all = Vec::new(alloc);
    while let Some(found) = matches.next_match(tally) {
        all.push(found)?;
    }
    Ok(all)
}

/// The iterator of [`Search::starts_in`]. Contracts see the same as of [`Matches`], but after a match it continues one
/// byte after the start. After its first `None` it always answers `None`.
#[derive(Drop)]
pub struct Starts<'s, 'h> {
    matches: Matches<'s, 'h>,
}

impl<'s, 'h> Model for Starts<'s, 'h> {
    ghost use Rattle.literal_search.specs.MatchesValue.{MatchesValue};

    ghost Value = { MatchesValue };

    ghost view = { λ s. s.matches };
}

impl<'s, 'h> Starts<'s, 'h> {
    /// Like `next`, and counts each looked-up byte in the tally, as scanned. The bounds are those of
    /// [`Matches::next_counted`].
    pub fn next_counted(&mut self, tally: &mut Tally) -> Option<Match>
        ensures gives { GivesStart self.old result self.new }
        ensures scans { ScansNext self.old.look_ups self.new.look_ups tally.old tally.new }
    {
        self.matches.next_then(Continuation::AfterStart, tally)
    }
}

impl<'s, 'h> Iterator for Starts<'s, 'h> {
    type Item = Match;

    ghost next_gives = { GivesStart };

    ghost remaining = { most_to_come };

    fn next(&mut self) -> Option<Match> {
        self.next_counted(&mut Tally::new())
    }
}
