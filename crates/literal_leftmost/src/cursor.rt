//! The state of an iteration between two matches. Lists of short spans have a smaller one (`short_span`).
ghost use Rattle.std.specs.Prelude.{◌≡◌, ◌≤◌, ℕ, List, IfOk, IfSome, None, OnErr};
ghost use Rattle.std.specs.Result.{IsOkAnd};
ghost use Rattle.literal_base.specs.Leftmost.{IsLeftmost};
ghost use Rattle.literal_base.specs.Occurs.{IsValidSpan, between};
ghost use Rattle.literal_leftmost.specs.LookUps.{LooksOn, ScansNext, ScansRest, no_look_ups};
ghost use Rattle.literal_leftmost.specs.Inside.Backward.{ForBackward, IsMatchBy, IsSafe, offset_by};
ghost use Rattle.literal_leftmost.specs.Inside.Cursor.{AreKnown, FitsIn, HasNotBegun, IsCursor, IsIn, KnowsAhead};
ghost use Rattle.literal_leftmost.specs.Inside.Cursor.{StepsOn, look_ups_of, looked_in};
ghost use Rattle.literal_leftmost.specs.Prepared.{BackTables};
ghost use Rattle.literal_leftmost.specs.declared.backward.Continuation.{Continuation};

use crate::backward::{Backward, Continuation, LEAST, MARKED, Marks, no_marks, offset_after};
use crate::trail::Trail;
use literal_base::count::Tally;
use literal_base::{Match, Span};
use literal_rows::damaged::Damaged;

/// The largest length of the longest pattern with which four walks mark a block at once: a part is at least four bytes
/// longer.
const LONGEST_MARKED: usize = MARKED - 4;

/// In a span of at most this length, marks of blocks are faster than trails, if they fit.
const LONG_SPAN: usize = 64 * LEAST;

/// Where an iteration continues, and what it knows of the offsets from there on.
#[derive(Clone, Copy)]
pub struct Cursor {
    /// The offset from which the next match is looked for.
    pub at: usize,
    pub marks: Marks,
    pub room: Room,
}

/// Room for marks.
#[derive(Clone, Copy)]
pub enum Room {
    /// For those of a block. No pattern is longer, unless the span is not.
    Block([u32; LEAST]),
    /// For those of a step, and the trail of a block.
    Trailed(Trail),
}

impl Cursor {
    /// The state of an iteration that has not begun, with room for a block. It is completed in place by
    /// [`Cursor::make_room`]: moving the room would cost more than a search of a line.
    #[inline(always)]
    pub fn new(at: usize) -> Cursor
        ensures { HasNotBegun at result }
    {
        Cursor {
            at,
            marks: no_marks(at),
            room: Room::Block([0; LEAST]),
        }
    }

    /// Makes room for the marks of a span.
    #[inline(never)]
    pub fn make_room(&mut self, longest: usize, span: Span)
        requires ordered { span.start ≤ span.end }
        requires begins { HasNotBegun span.start self.old }
        ensures cursor { IsCursor longest span self.new }
        ensures knows { (p : BackTables) (haystack : List ℕ) → KnowsAhead p haystack span self.new }
        ensures at { self.new.at ≡ span.start }
        ensures none { look_ups_of longest span self.new ≡ no_look_ups }
    {
        let short = if longest > LEAST { LEAST } else { LONG_SPAN };
        if longest > LONGEST_MARKED && span.end - span.start > short {
            self.room = Room::Trailed(Trail::new(span.start));
        }
    }

    /// Ends an iteration over a span.
    pub fn end(&mut self, span: Span)
        requires { span.start ≤ span.end }
        ensures cursor { (longest : ℕ) → FitsIn longest span self.old.room → IsCursor longest span self.new }
        ensures knows { (p : BackTables) (haystack : List ℕ) → KnowsAhead p haystack span self.new }
        ensures at { self.new.at ≡ span.end }
    {
        let end = span.end;
        self.at = end;
        self.marks = no_marks(end);
        match &mut self.room {
            Room::Block(_) => {}
            Room::Trailed(trail) => trail.block = Span { start: end, end },
        }
    }
}

impl<'t> Backward<'t> {
    /// The next match of an iteration over a span.
    pub fn next_in(
        &self,
        haystack: &[u8],
        span: Span,
        on: Continuation,
        cursor: &mut Cursor,
        tally: &mut Tally,
    ) -> Result<Option<Match>, Damaged>
        requires safe { IsSafe self.now }
        requires valid { IsValidSpan haystack.now span }
        requires cursor { IsCursor self.now.table.longest span cursor.old }
        ensures steps { StepsOn self.now haystack.now span on cursor.old result cursor.new tally.old tally.new }
        ensures rest { ScansRest self.now.table.longest span (look_ups_of self.now.table.longest span cursor.old)
            tally.old tally.new }
        ensures fits { OnErr result (FitsIn self.now.table.longest span cursor.new.room) }
    {
        let Cursor { at, marks, room } = cursor;
        let answer = self.next_by(haystack, span, *at, marks, room, tally)?;
        *at = offset_after(on, span, &answer);
        Ok(answer)
    }

    /// The same, by the marks in a room.
    #[inline(always)]
    fn next_by(
        &self,
        haystack: &[u8],
        span: Span,
        at: usize,
        marks: &mut Marks,
        room: &mut Room,
        tally: &mut Tally,
    ) -> Result<Option<Match>, Damaged>
        requires safe { IsSafe self.now }
        requires valid { IsValidSpan haystack.now span }
        requires placed { IsIn self.now.table.longest span at marks.old room.old }
        ensures leftmost { ForBackward self.now (λ tables. AreKnown tables haystack.now span at marks.old room.old
            → IsOkAnd result (IsLeftmost tables.search.query tables.search.ignore_case haystack.now
            (between at span.end))) }
        ensures knows { ForBackward self.now (λ tables. AreKnown tables haystack.now span at marks.old room.old
            → (on : Continuation) → IfOk result (λ answer. AreKnown tables haystack.now span (offset_by on span answer)
            marks.new room.new)) }
        ensures lies { IfOk result (λ answer. IfSome answer (IsMatchBy self.now span at)) }
        ensures placed { (on : Continuation) → IfOk result (λ answer. IsIn self.now.table.longest span
            (offset_by on span answer) marks.new room.new) }
        ensures looks { (on : Continuation) → IfOk result (λ answer. LooksOn self.now.table.longest span
            (offset_by on span answer) (looked_in self.now.table.longest span marks.old room.old)
            (looked_in self.now.table.longest span marks.new room.new)) }
        ensures scans { IfOk result (λ _. ScansNext (looked_in self.now.table.longest span marks.old room.old)
            (looked_in self.now.table.longest span marks.new room.new) tally.old tally.new) }
        ensures rest { ScansRest self.now.table.longest span
            (looked_in self.now.table.longest span marks.old room.old) tally.old tally.new }
        ensures fits { FitsIn self.now.table.longest span room.new }
        ensures ended { at ≡ span.end → IsOkAnd result (λ answer. answer ≡ None) }
    {
        match room {
            Room::Block(numbers) => self.next_match(haystack, span, at, numbers, marks, tally),
            Room::Trailed(trail) => self.next_far(haystack, span, at, trail, marks, tally),
        }
    }
}
