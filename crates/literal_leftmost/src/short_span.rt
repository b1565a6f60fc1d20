//! Iterations over short spans. They clear only as much memory as the marks of such a span take. A cursor for any span
//! has room for those of a block, and all of it is cleared.
ghost use Rattle.std.specs.Prelude.{◌≡◌, ◌-◌, ◌≤◌, ℕ, List, IfOk};
ghost use Rattle.literal_base.specs.Occurs.{IsValidSpan};
ghost use Rattle.literal_leftmost.specs.LookUps.{LooksOn, ScansNext, ScansRest, no_look_ups};
ghost use Rattle.literal_leftmost.specs.Prepared.{BackTables, GivesLentMatch, lent_matches_in, longest_in};
ghost use Rattle.literal_leftmost.specs.Inside.Backward.{IsSafe};
ghost use Rattle.literal_leftmost.specs.Inside.Cursor.{IsCursor, KnowsAhead, StepsOn, cursor_by, look_ups_of};
ghost use Rattle.literal_leftmost.specs.declared.backward.Continuation.TheVariants.{AtEnd};

use crate::backward::{Backward, Continuation, Marks, no_marks, offset_after};
use crate::prepared_search::Prepared;
use literal_base::count::Tally;
use literal_base::{Match, Span};
use literal_rows::damaged::Damaged;
use std::marker::Model;

/// The length in bytes of the longest span that [`Prepared::find_iter_in_short`] takes.
pub const SHORT_SPAN: usize = 128;

/// Where an iteration over a short span continues, and what it knows of the offsets from there on.
#[derive(Clone, Copy)]
pub struct ShortCursor {
    pub at: usize,
    pub marks: Marks,
    pub numbers: [u32; SHORT_SPAN],
}

impl ShortCursor {
    /// The state of an iteration that has not begun.
    #[inline(always)]
    pub fn new(span: Span) -> ShortCursor
        requires ordered { span.start ≤ span.end }
        requires short { span.end - span.start ≤ SHORT_SPAN }
        ensures cursor { (longest : ℕ) → IsCursor longest span (cursor_by result) }
        ensures knows { (p : BackTables) (haystack : List ℕ) → KnowsAhead p haystack span (cursor_by result) }
        ensures at { result.at ≡ span.start }
        ensures none { (longest : ℕ) → look_ups_of longest span (cursor_by result) ≡ no_look_ups }
    {
        ShortCursor {
            at: span.start,
            marks: no_marks(span.start),
            numbers: [0; SHORT_SPAN],
        }
    }

    /// Ends an iteration over a span.
    fn end(&mut self, span: Span)
        requires ordered { span.start ≤ span.end }
        requires short { span.end - span.start ≤ SHORT_SPAN }
        ensures cursor { (longest : ℕ) → IsCursor longest span (cursor_by self.new) }
        ensures knows { (p : BackTables) (haystack : List ℕ) → KnowsAhead p haystack span (cursor_by self.new) }
        ensures at { self.new.at ≡ span.end }
    {
        self.at = span.end;
        self.marks = no_marks(span.end);
    }
}

impl<'t> Backward<'t> {
    /// The next match of an iteration over a short span, as [`Backward::next_in`] does for any span.
    #[inline(always)]
    pub fn next_in_short(
        &self,
        haystack: &[u8],
        span: Span,
        cursor: &mut ShortCursor,
        tally: &mut Tally,
    ) -> Result<Option<Match>, Damaged>
        requires safe { IsSafe self.now }
        requires valid { IsValidSpan haystack.now span }
        requires short { span.end - span.start ≤ SHORT_SPAN }
        requires cursor { IsCursor self.now.table.longest span (cursor_by cursor.old) }
        ensures steps { StepsOn self.now haystack.now span AtEnd (cursor_by cursor.old) result (cursor_by cursor.new)
            tally.old tally.new }
        ensures rest { ScansRest self.now.table.longest span
            (look_ups_of self.now.table.longest span (cursor_by cursor.old)) tally.old tally.new }
    {
        let ShortCursor { at, marks, numbers } = cursor;
        let answer = self.next_match(haystack, span, *at, numbers, marks, tally)?;
        *at = offset_after(Continuation::AtEnd, span, &answer);
        Ok(answer)
    }
}

impl<'p> Prepared<'p> {
    /// The same as [`Prepared::find_iter_in`] for a span of at most [`SHORT_SPAN`] bytes. The iterator takes some 600
    /// bytes, and not 4 KiB, which would take longer to clear than a short span takes to search.
    #[inline(always)]
    pub fn find_iter_in_short<'s, 'h>(
        &'s self,
        haystack: &'h [u8],
        span: Span,
    ) -> PreparedShortMatches<'s, 'p, 'h>
        requires valid { IsValidSpan haystack.now span }
        requires short { span.end - span.start ≤ SHORT_SPAN }
        ensures { result ≡ lent_matches_in self.now haystack.now span }
    {
        prove!(span.end <= haystack.len());
        PreparedShortMatches {
            prepared: self,
            haystack,
            span,
            cursor: ShortCursor::new(span),
        }
    }
}

/// The iterator of [`Prepared::find_iter_in_short`]. Contracts see the same as of
/// [`PreparedMatches`](crate::prepared_search::PreparedMatches).
#[derive(Drop)]
pub struct PreparedShortMatches<'s, 'p, 'h> {
    prepared: &'s Prepared<'p>,
    haystack: &'h [u8],
    span: Span,
    cursor: ShortCursor,
}

impl<'s, 'p, 'h> Model for PreparedShortMatches<'s, 'p, 'h> {
    ghost use Rattle.std.specs.Prelude.{◌-◌, ◌≤◌};
    ghost use Rattle.literal_base.specs.Occurs.{IsValidSpan};
    ghost use Rattle.literal_leftmost.specs.Prepared.{PreparedMatchesValue};
    ghost use Rattle.literal_leftmost.specs.Inside.Cursor.{cursor_by};
    ghost use Rattle.literal_leftmost.specs.Inside.Prepared.{GoesOnBy, lent_at};
    ghost use Rattle.literal_leftmost.specs.declared.short_span.TheConstants.{SHORT_SPAN};

    ghost Value = { PreparedMatchesValue };

    ghost view = { λ m. lent_at m.prepared.now m.haystack.now m.span (cursor_by m.cursor) };

    ghost invariant = { λ m. IsValidSpan m.haystack.now m.span
        × (m.span.end - m.span.start ≤ SHORT_SPAN)
        × GoesOnBy m.prepared.now m.haystack.now m.span (cursor_by m.cursor) };
}

impl<'s, 'p, 'h> PreparedShortMatches<'s, 'p, 'h> {
    /// Returns the next match, as [`PreparedMatches::next_match`](crate::prepared_search::PreparedMatches::next_match)
    /// does.
    #[inline(always)]
    pub fn next_match(&mut self) -> Result<Option<Match>, Damaged>
        ensures { GivesLentMatch self.old result self.new }
    {
        self.next_counted(&mut Tally::new())
    }

    /// Like `next_match`, and counts in the tally as
    /// [`PreparedMatches::next_counted`](crate::prepared_search::PreparedMatches::next_counted) does.
    #[inline(always)]
    pub fn next_counted(&mut self, tally: &mut Tally) -> Result<Option<Match>, Damaged>
        ensures gives { GivesLentMatch self.old result self.new }
        ensures looks { IfOk result (λ _. LooksOn (longest_in self.old.numbers) self.old.span self.new.at
            self.old.look_ups self.new.look_ups) }
        ensures scans { IfOk result (λ _. ScansNext self.old.look_ups self.new.look_ups tally.old tally.new) }
        ensures rest { ScansRest (longest_in self.old.numbers) self.old.span self.old.look_ups tally.old tally.new }
    {
        let backward = self.prepared.backward();
        match backward.next_in_short(self.haystack, self.span, &mut self.cursor, tally) {
            Ok(answer) => Ok(answer),
            Err(_) => {
                self.cursor.end(self.span);
                Err(Damaged)
            }
        }
    }
}
