//! Marks for patterns that are longer than a block, in little memory. A backward walk through a long block leaves a
//! trail: its row at the end of each step. From there a step can be walked through again.
ghost use Rattle.std.specs.Prelude.{◌≡◌, ◌+◌, ◌-◌, ◌*◌, ◌<◌, ◌≤◌, ◌^◌, ◌%◌, ◌⊎◌, ℕ, length, min};
ghost use Rattle.std.specs.Prelude.{IfOk, IfSome, None, false, max};
ghost use Rattle.std.specs.Result.{IsOkAnd};
ghost use Rattle.literal_base.specs.Leftmost.{IsLeftmost};
ghost use Rattle.literal_base.specs.Occurs.{IsValidSpan, between};
ghost use Rattle.literal_leftmost.specs.Inside.Backward.{AreMarked, AreMarks, ForBackward, IsMatchBy, IsSafe, NoneFrom};
ghost use Rattle.literal_leftmost.specs.Inside.Backward.{offset_by};
ghost use Rattle.literal_leftmost.specs.Inside.Leftmost.{HasBytes, IsLane, IsLimit, IsPart};
ghost use Rattle.literal_leftmost.specs.Inside.Trail.{AreCells, AreTrailed, HasCells, IsFar, IsStepMarked, IsTrail};
ghost use Rattle.literal_leftmost.specs.Inside.Trail.{led_to, paid_by, step_at};
ghost use Rattle.literal_leftmost.specs.declared.backward.Continuation.{Continuation};

use crate::backward::{Backward, FAR, LEAST, Marks, no_marks};
use crate::lanes::OVERLAP;
use literal_base::count::Tally;
use literal_base::{Match, Span};
use literal_rows::array::scan_in;
use literal_rows::damaged::Damaged;
use literal_rows::walk::ENDS;

/// The length of a step of a trail. The last step of a block may be shorter.
pub const STEP: usize = 512;

/// The largest length of a block that leaves a trail.
pub const MOST: usize = STEP * STEP;

/// The trail of a block: for each step the index of the row of the walk at the step's end, with the highest bit set if
/// a pattern begins in the step. The numbers are marks of a step, or of four short ones.
#[derive(Clone, Copy)]
pub struct Trail {
    pub block: Span,
    /// Whether four walks left it, in short steps.
    pub in_four: bool,
    pub cells: [u32; STEP],
    pub numbers: [u32; STEP],
}

impl Trail {
    /// No trail before an offset.
    pub fn new(at: usize) -> Trail
        ensures { result.block ≡ record { start = at; end = at } }
    {
        Trail {
            block: Span { start: at, end: at },
            in_four: false,
            cells: [0; STEP],
            numbers: [0; STEP],
        }
    }
}

/// The result of a walk through a part of a span.
#[derive(Clone, Copy)]
pub struct Crossed {
    /// Its row at the part's start.
    pub row: usize,
    /// The largest number that it read there. From 2^31 on, a pattern begins in the part.
    pub most: u32,
}

impl<'t> Backward<'t> {
    /// Walks through a part of a span. The walk is in the row at index `from` at the part's end.
    #[inline(always)]
    fn cross(
        &self,
        classes: &[u8; 256],
        haystack: &[u8],
        span: Span,
        part: Span,
        from: usize,
        limit: usize,
        tally: &mut Tally,
    ) -> Result<Crossed, Damaged>
        requires safe { IsSafe self.now }
        requires same { HasBytes self.now classes.now }
        requires limit { IsLimit self.now limit }
        requires valid { IsValidSpan haystack.now span }
        requires part { IsPart span part }
        requires row { from < limit }
        ensures lane { ForBackward self.now (λ tables. (end : ℕ) → IsLane tables haystack.now span end part.end from
            → IsOkAnd result (λ crossed. IsLane tables haystack.now span end part.start crossed.row)) }
        ensures none { ForBackward self.now (λ tables. (end : ℕ) → part.end ≤ end
            → IsLane tables haystack.now span end part.end from
            → IfOk result (λ crossed. crossed.most < 2 ^ 31
            → NoneFrom tables haystack.now span.end part.start part.end)) }
        ensures row { IfOk result (λ crossed. crossed.row < limit) }
        ensures others { tally.new ≡ record tally.old { scanned = tally.new.scanned } }
        ensures most { tally.new.scanned + part.start ≤ tally.old.scanned + part.end }
        ensures all { IfOk result (λ _. tally.new.scanned + part.start ≡ tally.old.scanned + part.end) }
    {
        let (mut row, mut most) = (from, 0u32);
        for at in (part.start..part.end).rev() {
            let code = self.step(classes, row, haystack, at, limit, tally)?;
            most = code.max(most);
            row = (code % ENDS) as usize;
        }
        Ok(Crossed { row, most })
    }

    /// Leaves the trail of a walk through a block. It begins far enough after the block for the longest pattern.
    pub(crate) fn leave_trail(
        &self,
        classes: &[u8; 256],
        haystack: &[u8],
        span: Span,
        block: Span,
        limit: usize,
        cells: &mut [u32],
        tally: &mut Tally,
    ) -> Result<(), Damaged>
        requires safe { IsSafe self.now }
        requires same { HasBytes self.now classes.now }
        requires limit { IsLimit self.now limit }
        requires valid { IsValidSpan haystack.now span }
        requires block { IsPart span block }
        requires room { block.end ≤ block.start + STEP * length cells.old }
        ensures cells { ForBackward self.now (λ tables. IsOkAnd result
            (λ _. AreCells tables haystack.now span block cells.new block.start)) }
        ensures long { length cells.new ≡ length cells.old }
        ensures others { tally.new ≡ record tally.old { scanned = tally.new.scanned } }
        ensures most { tally.new.scanned + block.start
            ≤ tally.old.scanned + min (block.end + (self.now.table.longest - 1)) span.end }
        ensures all { IfOk result (λ _. tally.new.scanned + block.start
            ≡ tally.old.scanned + min (block.end + (self.now.table.longest - 1)) span.end) }
    {
        let mut row = self.walk_back(classes, haystack, span, block.end, limit, tally)?;
        let (len, mut end) = (block.end - block.start, block.end);
        for i in (0..len / STEP + (len % STEP).min(1)).rev() {
            let start = block.start + STEP * i;
            let part = Span { start, end };
            let crossed = self.cross(classes, haystack, span, part, row, limit, tally)?;
            cells[i] = cell_of(row, crossed.most >= ENDS);
            row = crossed.row;
            end = start;
        }
        Ok(())
    }

    /// Marks each offset of a part of a span, by a walk in the row at index `from` at the part's end.
    pub(crate) fn mark_part(
        &self,
        classes: &[u8; 256],
        haystack: &[u8],
        span: Span,
        part: Span,
        from: usize,
        limit: usize,
        numbers: &mut [u32],
        tally: &mut Tally,
    ) -> Result<(), Damaged>
        requires safe { IsSafe self.now }
        requires same { HasBytes self.now classes.now }
        requires limit { IsLimit self.now limit }
        requires valid { IsValidSpan haystack.now span }
        requires part { IsPart span part }
        requires row { from < limit }
        requires room { part.end - part.start ≤ length numbers.old }
        ensures marks { ForBackward self.now (λ tables. (end : ℕ) → part.end ≤ end
            → IsLane tables haystack.now span end part.end from → IsOkAnd result
            (λ _. AreMarks tables haystack.now span.end numbers.new part.start part.start part.end)) }
        ensures long { length numbers.new ≡ length numbers.old }
        ensures others { tally.new ≡ record tally.old { scanned = tally.new.scanned } }
        ensures most { tally.new.scanned + part.start ≤ tally.old.scanned + part.end }
        ensures all { IfOk result (λ _. tally.new.scanned + part.start ≡ tally.old.scanned + part.end) }
    {
        let mut row = from;
        for at in (part.start..part.end).rev() {
            let code = self.step(classes, row, haystack, at, limit, tally)?;
            numbers[at - part.start] = code;
            row = (code % ENDS) as usize; // (without the bit that says that a pattern begins)
        }
        Ok(())
    }

    /// Marks a block's next step, from an offset on, in which a pattern begins, by the trail of the block. It walks
    /// through each offset at most once more.
    pub(crate) fn mark_step(
        &self,
        haystack: &[u8],
        span: Span,
        block: Span,
        from: usize,
        cells: &[u32],
        numbers: &mut [u32],
        tally: &mut Tally,
    ) -> Result<Marks, Damaged>
        requires safe { IsSafe self.now }
        requires valid { IsValidSpan haystack.now span }
        requires block { IsPart span block }
        requires after { block.start ≤ from }
        requires inside { from < block.end }
        requires trail { block.end ≤ block.start + STEP * length cells.now }
        requires room { STEP ≤ length numbers.old }
        ensures marked { ForBackward self.now (λ tables. AreCells tables haystack.now span block cells.now block.start
            → IsOkAnd result (λ m. NoneFrom tables haystack.now span.end from (max from m.first)
            × AreMarked tables haystack.now span (max from m.first) numbers.new m)) }
        ensures placed { IfOk result (IsStepMarked block from) }
        ensures long { length numbers.new ≡ length numbers.old }
        ensures others { tally.new ≡ record tally.old { scanned = tally.new.scanned } }
        ensures most { IfOk result (λ m. tally.new.scanned + step_at block from ≤ tally.old.scanned + m.known) }
        ensures far { tally.new.scanned + step_at block from ≤ tally.old.scanned + block.end }
        ensures grows { IfOk result (λ _. tally.old.scanned ≤ tally.new.scanned) }
    {
        let (limit, bytes) = (self.table.limit()?, self.table.class_bytes());
        let mut i = (from - block.start) / STEP;
        let mut at = from;
        while at < block.end {
            let start = block.start + STEP * i;
            let end = start + STEP.min(block.end - start);
            let cell = cells[i];
            if cell >= ENDS {
                let row = (cell - ENDS) as usize;
                if row >= limit {
                    return Err(Damaged);
                }
                let part = Span { start: at, end };
                self.mark_part(&bytes, haystack, span, part, row, limit, numbers, tally)?;
                return Ok(Marks {
                    first: at,
                    upto: end,
                    known: end,
                    part: 0,
                });
            }
            at = end;
            i += 1;
        }
        Ok(no_marks(at))
    }

    /// Marks further offsets from one on, unless it is known what begins there. No pattern begins before the returned
    /// offset.
    pub(crate) fn look_far(
        &self,
        haystack: &[u8],
        span: Span,
        from: usize,
        trail: &mut Trail,
        marks: &mut Marks,
        tally: &mut Tally,
    ) -> Result<usize, Damaged>
        requires safe { IsSafe self.now }
        requires valid { IsValidSpan haystack.now span }
        requires more { from < span.end }
        requires far { IsFar self.now.table.longest span from trail.old marks.old }
        ensures none { ForBackward self.now (λ tables. IsTrail tables haystack.now span trail.old
            → IsOkAnd result (NoneFrom tables haystack.now span.end from)) }
        ensures trailed { ForBackward self.now (λ tables. AreTrailed tables haystack.now span from trail.old marks.old
            → IsOkAnd result (λ ahead. AreTrailed tables haystack.now span ahead trail.new marks.new)) }
        ensures far { IfOk result (λ ahead. IsFar self.now.table.longest span ahead trail.new marks.new) }
        ensures later { IfOk result (λ ahead. (from ≤ ahead) × (ahead ≤ marks.new.known)) }
        ensures known { IfOk result (λ _. from < marks.new.known) }
        ensures further { IfOk result (λ _. (trail.old.block.end ≤ trail.new.block.end)
            × (marks.old.known ≤ marks.new.known)) }
        ensures others { tally.new ≡ record tally.old { scanned = tally.new.scanned } }
        ensures most { IfOk result (λ _. tally.new.scanned
            + paid_by self.now.table.longest trail.old.block.end + marks.old.known
            ≤ tally.old.scanned + paid_by self.now.table.longest trail.new.block.end + marks.new.known) }
        ensures all { tally.new.scanned + paid_by self.now.table.longest trail.old.block.end + marks.old.known
            ≤ tally.old.scanned + paid_by self.now.table.longest span.end + span.end }
        ensures least { IfOk result (λ _. tally.old.scanned + led_to self.now.table.longest span trail.new.block.end
            ≤ tally.new.scanned + led_to self.now.table.longest span trail.old.block.end) }
    {
        if from < marks.known {
            return Ok(from);
        }
        if from >= trail.block.end {
            return self.begin_block(haystack, span, from, trail, marks, tally);
        }
        *marks = self.mark_on(haystack, span, from, trail, tally)?;
        Ok(marks.first.max(from))
    }

    /// The same after the last block. A scan passes over bytes up to a candidate. If it passed over enough, this offset
    /// is marked alone. If not, a walk leaves the trail of a new block. It is at least as long as the longest pattern,
    /// if cells suffice, and twice as long as the block before it if it follows it closely.
    #[inline(never)]
    fn begin_block(
        &self,
        haystack: &[u8],
        span: Span,
        from: usize,
        trail: &mut Trail,
        marks: &mut Marks,
        tally: &mut Tally,
    ) -> Result<usize, Damaged>
        requires safe { IsSafe self.now }
        requires valid { IsValidSpan haystack.now span }
        requires more { from < span.end }
        requires unknown { marks.old.known ≤ from }
        requires after { trail.old.block.end ≤ from }
        requires far { IsFar self.now.table.longest span from trail.old marks.old }
        ensures none { ForBackward self.now (λ tables. IsOkAnd result (NoneFrom tables haystack.now span.end from)) }
        ensures trailed { ForBackward self.now (λ tables. IsOkAnd result
            (λ ahead. AreTrailed tables haystack.now span ahead trail.new marks.new)) }
        ensures far { IfOk result (λ ahead. IsFar self.now.table.longest span ahead trail.new marks.new) }
        ensures later { IfOk result (λ ahead. (from ≤ ahead) × (ahead ≤ marks.new.known)) }
        ensures known { IfOk result (λ _. from < marks.new.known) }
        ensures further { IfOk result (λ _. from ≤ trail.new.block.end) }
        ensures others { tally.new ≡ record tally.old { scanned = tally.new.scanned } }
        ensures most { IfOk result (λ _. tally.new.scanned + paid_by self.now.table.longest from + from
            ≤ tally.old.scanned + paid_by self.now.table.longest trail.new.block.end + marks.new.known) }
        ensures all { tally.new.scanned + paid_by self.now.table.longest from + from
            ≤ tally.old.scanned + paid_by self.now.table.longest span.end + span.end }
        ensures least { IfOk result (λ _. tally.old.scanned + led_to self.now.table.longest span trail.new.block.end
            ≤ tally.new.scanned + from) }
    {
        let rest = Span {
            start: from,
            end: span.end,
        };
        let at = self.pass_over(&scan_in(self.prints), haystack, rest, tally);
        if at == span.end {
            trail.block = Span { start: at, end: at };
            *marks = no_marks(at);
            return Ok(at);
        }
        let longest = self.table.longest;
        if at - from >= longest.max(longest / 2 + FAR) {
            trail.block = Span {
                start: at + 1,
                end: at + 1,
            };
            *marks = self.mark_offset(haystack, span, at, &mut trail.numbers, tally)?;
            return Ok(at);
        }
        self.leave_block(haystack, span, from, at, trail, tally)?;
        *marks = self.mark_on(haystack, span, at, trail, tally)?;
        Ok(marks.first.max(at))
    }

    /// Leaves the trail of the block from an offset on, after a scan from another one. The block is twice as long as
    /// the one before it if it follows it closely. If its parts are then long enough, four walks leave the trail.
    fn leave_block(
        &self,
        haystack: &[u8],
        span: Span,
        from: usize,
        at: usize,
        trail: &mut Trail,
        tally: &mut Tally,
    ) -> Result<(), Damaged>
        requires safe { IsSafe self.now }
        requires valid { IsValidSpan haystack.now span }
        requires ordered { trail.old.block.start ≤ trail.old.block.end }
        requires begun { span.start ≤ from }
        requires passed { from ≤ at }
        requires inside { at < span.end }
        ensures trail { ForBackward self.now (λ tables. IsOkAnd result
            (λ _. IsTrail tables haystack.now span trail.new)) }
        ensures start { trail.new.block.start ≡ at }
        ensures some { at < trail.new.block.end }
        ensures inside { trail.new.block.end ≤ span.end }
        ensures cells { HasCells trail.new }
        ensures others { tally.new ≡ record tally.old { scanned = tally.new.scanned } }
        ensures most { tally.new.scanned + min OVERLAP (span.end - at) + paid_by self.now.table.longest at
            ≤ tally.old.scanned + paid_by self.now.table.longest trail.new.block.end }
        ensures least { IfOk result (λ _. tally.old.scanned
            + min (trail.new.block.end + (self.now.table.longest - 1)) span.end ≤ tally.new.scanned + at) }
    {
        let before = trail.block.end - trail.block.start;
        let double = if at - from < before {
            before.saturating_mul(2)
        } else {
            0
        };
        if let Some(steps) = self.short_steps(double, span.end - at) {
            let end = at + STEP * steps;
            trail.block = Span { start: at, end };
            trail.in_four = true;
            return self.leave_in_four(haystack, span, at, steps, &mut trail.cells, tally);
        }
        let block = self.block_at_least(double, span, at);
        trail.block = block;
        trail.in_four = false;
        let (limit, bytes) = (self.table.limit()?, self.table.class_bytes());
        let cells = &mut trail.cells;
        self.leave_trail(&bytes, haystack, span, block, limit, cells, tally)
    }

    /// The block from an offset on through which one walk goes. It is at least as long as the longest pattern, and as
    /// `least`, if cells suffice.
    fn block_at_least(&self, least: usize, span: Span, at: usize) -> Span
        requires inside { at < span.end }
        ensures start { result.start ≡ at }
        ensures some { at < result.end }
        ensures inside { result.end ≤ span.end }
        ensures few { result.end ≤ at + MOST }
        ensures long { (result.end ≡ span.end) ⊎ ((at + self.now.table.longest + OVERLAP ≤ result.end)
            ⊎ (at + MOST ≤ result.end)) }
    {
        let long = self.table.longest.saturating_add(OVERLAP).max(LEAST);
        let len = long.max(least).min(MOST).min(span.end - at);
        Span {
            start: at,
            end: at + len,
        }
    }

    /// Marks the next step of a trail's block, or its next four short steps, from an offset on, in which a pattern
    /// begins. It walks through each step at most once more.
    fn mark_on(
        &self,
        haystack: &[u8],
        span: Span,
        from: usize,
        trail: &mut Trail,
        tally: &mut Tally,
    ) -> Result<Marks, Damaged>
        requires safe { IsSafe self.now }
        requires valid { IsValidSpan haystack.now span }
        requires block { IsPart span trail.old.block }
        requires after { trail.old.block.start ≤ from }
        requires inside { from < trail.old.block.end }
        requires cells { HasCells trail.old }
        ensures block { trail.new ≡ record trail.old { numbers = trail.new.numbers } }
        ensures marked { ForBackward self.now (λ tables. IsTrail tables haystack.now span trail.old
            → IsOkAnd result (λ m. NoneFrom tables haystack.now span.end from (max from m.first)
            × AreTrailed tables haystack.now span (max from m.first) trail.new m)) }
        ensures placed { IfOk result (IsStepMarked trail.old.block from) }
        ensures others { tally.new ≡ record tally.old { scanned = tally.new.scanned } }
        ensures most { IfOk result (λ m. tally.new.scanned + step_at trail.old.block from
            ≤ tally.old.scanned + m.known) }
        ensures far { tally.new.scanned + step_at trail.old.block from ≤ tally.old.scanned + trail.old.block.end }
        ensures grows { IfOk result (λ _. tally.old.scanned ≤ tally.new.scanned) }
    {
        let (block, numbers) = (trail.block, &mut trail.numbers);
        if trail.in_four {
            return self.mark_four_steps(haystack, span, block, from, &trail.cells, numbers, tally);
        }
        self.mark_step(haystack, span, block, from, &trail.cells, numbers, tally)
    }

    /// The leftmost match of the rest of a span, from an offset on, by marks in one step of a block after another.
    pub(crate) fn next_far(
        &self,
        haystack: &[u8],
        span: Span,
        at: usize,
        trail: &mut Trail,
        marks: &mut Marks,
        tally: &mut Tally,
    ) -> Result<Option<Match>, Damaged>
        requires safe { IsSafe self.now }
        requires valid { IsValidSpan haystack.now span }
        requires far { IsFar self.now.table.longest span at trail.old marks.old }
        ensures leftmost { ForBackward self.now (λ tables. AreTrailed tables haystack.now span at trail.old marks.old
            → IsOkAnd result (IsLeftmost tables.search.query tables.search.ignore_case haystack.now
            (between at span.end))) }
        ensures trailed { ForBackward self.now (λ tables. AreTrailed tables haystack.now span at trail.old marks.old
            → (on : Continuation)
            → IfOk result (λ answer. AreTrailed tables haystack.now span (offset_by on span answer) trail.new
            marks.new)) }
        ensures lies { IfOk result (λ answer. IfSome answer (IsMatchBy self.now span at)) }
        ensures far { (on : Continuation) → IfOk result
            (λ answer. IsFar self.now.table.longest span (offset_by on span answer) trail.new marks.new) }
        ensures further { IfOk result (λ _. (trail.old.block.end ≤ trail.new.block.end)
            × (marks.old.known ≤ marks.new.known)) }
        ensures others { tally.new ≡ record tally.old { scanned = tally.new.scanned } }
        ensures most { IfOk result (λ _. tally.new.scanned
            + paid_by self.now.table.longest trail.old.block.end + marks.old.known
            ≤ tally.old.scanned + paid_by self.now.table.longest trail.new.block.end + marks.new.known) }
        ensures all { tally.new.scanned + paid_by self.now.table.longest trail.old.block.end + marks.old.known
            ≤ tally.old.scanned + paid_by self.now.table.longest span.end + span.end }
        ensures least { IfOk result (λ _. tally.old.scanned + led_to self.now.table.longest span trail.new.block.end
            ≤ tally.new.scanned + led_to self.now.table.longest span trail.old.block.end) }
        ensures ended { at ≡ span.end → IsOkAnd result (λ answer. answer ≡ None) }
    {
        let mut from = at;
        while from < span.end {
            let ahead = self.look_far(haystack, span, from, trail, marks, tally)?;
            let found = self.next_marked(haystack, span, ahead, &trail.numbers, *marks)?;
            if found.is_some() {
                return Ok(found);
            }
            from = marks.known;
        }
        Ok(None)
    }
}

/// The number of a trail for the row of a walk at the end of a step, and whether a pattern begins in the step.
#[inline(always)]
pub(crate) fn cell_of(row: usize, begun: bool) -> u32
    requires small { row < 2 ^ 31 }
    ensures row { result % 2 ^ 31 ≡ row }
    ensures none { result < 2 ^ 31 → begun ≡ false }
    ensures some { begun ≡ false → result < 2 ^ 31 }
{
    if begun { row as u32 + ENDS } else { row as u32 }
}
