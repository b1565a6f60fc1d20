//! Four walks at once mark the four parts of a block.
ghost use Rattle.literal_base.specs.Occurs.{IsValidSpan};
ghost use Rattle.literal_base.specs.declared.search.Span.{Span};
ghost use Rattle.literal_leftmost.specs.Inside.Backward.{AreMarked, AreMarks, ForBackward, IsSafe};
ghost use Rattle.literal_leftmost.specs.declared.lanes.TheConstants.{OVERLAP};
ghost use Rattle.literal_leftmost.specs.Inside.Leftmost.{AreLanes, AreMarksAfter, AreSteps, HasBytes, HaveRows};
ghost use Rattle.literal_leftmost.specs.Inside.Leftmost.{IsLimit};
ghost use Rattle.std.specs.Prelude.{◌*◌, ◌+◌, ◌-◌, ◌<◌, ◌^◌, ◌≡◌, ◌≤◌, IfOk, List, length, slice_index, ℕ};
ghost use Rattle.std.specs.Result.{IsOkAnd};

use crate::backward::{Backward, MARKED, Marks};
use crate::lanes::{Block, Lanes, Passed};
use literal_base::Span;
use literal_base::count::Tally;
use literal_rows::damaged::Damaged;
use literal_rows::walk::ENDS;

impl<'t> Backward<'t> {
    /// Marks the offsets that four walks read last, one in each of four adjacent parts. Returns the rows of the walks.
    #[inline(always)]
    fn mark_last(
        &self,
        part: usize,
        passed: Passed,
        limit: usize,
        marks: &mut [u32],
    ) -> Result<Lanes, Damaged>
        requires limit { IsLimit self.now limit }
        requires some { 0 < passed.left }
        requires left { passed.left ≤ part }
        requires fits { HaveRows (2 ^ 32) passed.codes }
        requires room { 4 * part ≤ length marks.old }
        ensures rows { IfOk result (HaveRows limit) }
        ensures lanes { ForBackward self.now (λ tables. (haystack : List ℕ) (span : Span) (at : ℕ)
            → AreSteps tables haystack span at part (passed.left - 1) passed.codes
            → IsOkAnd result (AreLanes tables haystack span at part (passed.left - 1))) }
        ensures marks { ForBackward self.now (λ tables. (haystack : List ℕ) (span : Span) (at : ℕ)
            → AreSteps tables haystack span at part (passed.left - 1) passed.codes
            → AreMarksAfter tables haystack span.end marks.old at part passed.left
            → AreMarksAfter tables haystack span.end marks.new at part (passed.left - 1)) }
        ensures long { length marks.new ≡ length marks.old }
    {
        let last = passed.left - 1;
        let (first, second) = (passed.codes.first as u32, passed.codes.second as u32);
        let (third, fourth) = (passed.codes.third as u32, passed.codes.fourth as u32);
        marks[last] = first;
        marks[last + part] = second;
        marks[last + 2 * part] = third;
        marks[last + 3 * part] = fourth;
        let lanes = Lanes {
            first: (first % ENDS) as usize,
            second: (second % ENDS) as usize,
            third: (third % ENDS) as usize,
            fourth: (fourth % ENDS) as usize,
        };
        if !lanes.are_rows(limit) {
            return Err(Damaged);
        }
        Ok(lanes)
    }

    /// Marks the remaining offsets of four adjacent parts, by four walks at once. The most frequent part length has a
    /// loop of its own.
    #[inline(never)]
    fn mark_in_four(
        &self,
        classes: &[u8; 256],
        haystack: &[u8],
        span: Span,
        at: usize,
        part: usize,
        left: usize,
        lanes: Lanes,
        limit: usize,
        marks: &mut [u32],
        tally: &mut Tally,
    ) -> Result<(), Damaged>
        requires safe { IsSafe self.now }
        requires same { HasBytes self.now classes.now }
        requires limit { IsLimit self.now limit }
        requires rows { HaveRows limit lanes }
        requires valid { IsValidSpan haystack.now span }
        requires inside { at + 4 * part ≤ span.end }
        requires left { left ≤ part }
        requires room { 4 * part ≤ length marks.old }
        ensures marks { ForBackward self.now (λ tables. AreLanes tables haystack.now span at part left lanes
            → AreMarksAfter tables haystack.now span.end marks.old at part left
            → IsOkAnd result (λ _. AreMarks tables haystack.now span.end marks.new at at (at + 4 * part))) }
        ensures others { tally.new ≡ record tally.old { scanned = tally.new.scanned } }
        ensures most { tally.new.scanned ≤ tally.old.scanned + 4 * left }
        ensures all { IfOk result (λ _. tally.new.scanned ≡ tally.old.scanned + 4 * left) }
    {
        if part == MARKED {
            return self.mark_parts(
                classes, haystack, span, at, MARKED, left, lanes, limit, marks, tally,
            );
        }
        self.mark_parts(
            classes, haystack, span, at, part, left, lanes, limit, marks, tally,
        )
    }

    /// Does the work of [`Backward::mark_in_four`] in one loop.
    #[inline(always)]
    pub(crate) fn mark_parts(
        &self,
        classes: &[u8; 256],
        haystack: &[u8],
        span: Span,
        at: usize,
        part: usize,
        left: usize,
        lanes: Lanes,
        limit: usize,
        marks: &mut [u32],
        tally: &mut Tally,
    ) -> Result<(), Damaged>
        requires safe { IsSafe self.now }
        requires same { HasBytes self.now classes.now }
        requires limit { IsLimit self.now limit }
        requires rows { HaveRows limit lanes }
        requires valid { IsValidSpan haystack.now span }
        requires inside { at + 4 * part ≤ span.end }
        requires left { left ≤ part }
        requires room { 4 * part ≤ length marks.old }
        ensures marks { ForBackward self.now (λ tables. AreLanes tables haystack.now span at part left lanes
            → AreMarksAfter tables haystack.now span.end marks.old at part left
            → IsOkAnd result (λ _. AreMarks tables haystack.now span.end marks.new at at (at + 4 * part))) }
        ensures others { tally.new ≡ record tally.old { scanned = tally.new.scanned } }
        ensures most { tally.new.scanned ≤ tally.old.scanned + 4 * left }
        ensures all { IfOk result (λ _. tally.new.scanned ≡ tally.old.scanned + 4 * left) }
    {
        let mut now = lanes;
        let table = self.table; // (a copy, which writes to the marks do not change)
        for step in (0..left).rev() {
            let here = at + step;
            let (two, three, four) = (here + part, here + 2 * part, here + 3 * part);
            let first = table.code_by(classes, now.first, haystack, here, tally);
            marks[step] = first;
            let second = table.code_by(classes, now.second, haystack, two, tally);
            marks[step + part] = second;
            let third = table.code_by(classes, now.third, haystack, three, tally);
            marks[step + 2 * part] = third;
            let fourth = table.code_by(classes, now.fourth, haystack, four, tally);
            marks[step + 3 * part] = fourth;
            now = Lanes {
                first: (first % ENDS) as usize,
                second: (second % ENDS) as usize,
                third: (third % ENDS) as usize,
                fourth: (fourth % ENDS) as usize,
            };
            if !now.are_rows(limit) {
                return Err(Damaged);
            }
        }
        Ok(())
    }

    /// Marks the block of four parts that begins at an offset, unless no pattern begins in it.
    pub(crate) fn mark_four_parts(
        &self,
        haystack: &[u8],
        span: Span,
        from: usize,
        part: usize,
        numbers: &mut [u32],
        tally: &mut Tally,
    ) -> Result<Marks, Damaged>
        requires safe { IsSafe self.now }
        requires valid { IsValidSpan haystack.now span }
        requires after { span.start ≤ from }
        requires inside { from + 4 * part + self.now.table.longest ≤ span.end }
        requires long { self.now.table.longest + 4 ≤ part }
        requires some { OVERLAP ≤ 4 * part }
        requires room { 4 * part ≤ length numbers.old }
        ensures marked { ForBackward self.now (λ tables. IsOkAnd result
            (AreMarked tables haystack.now span from numbers.new)) }
        ensures placed { IfOk result (λ m. (m.first ≡ from) × (m.upto ≤ m.known) × (m.known ≡ from + 4 * part)) }
        ensures others { tally.new ≡ record tally.old { scanned = tally.new.scanned } }
        ensures most { tally.new.scanned + OVERLAP ≤ tally.old.scanned + 12 * part }
        ensures least { IfOk result (λ _. tally.old.scanned + 4 * part + (self.now.table.longest - 1)
            ≤ tally.new.scanned) }
    {
        let known = from + 4 * part;
        let block = Block {
            part,
            lead: self.table.longest.saturating_sub(1),
            end: known,
        };
        let (limit, bytes) = (self.table.limit()?, self.table.class_bytes());
        let classes = &bytes;
        let led = self.lead_in_four(classes, haystack, span, from, block, limit, tally)?;
        let passed = self.pass_in_four(
            classes, haystack, span, from, part, led.lanes, limit, tally,
        );
        let mut upto = from;
        if passed.left > 0 {
            clear(numbers, 4 * part);
            let lanes = self.mark_last(part, passed, limit, numbers)?;
            let left = passed.left - 1;
            self.mark_in_four(
                classes, haystack, span, from, part, left, lanes, limit, numbers, tally,
            )?;
            upto = known;
        }
        Ok(Marks {
            first: from,
            upto,
            known,
            part,
        })
    }
}

/// Sets the first marks to say that no pattern begins.
fn clear(marks: &mut [u32], upto: usize)
    requires inside { upto ≤ length marks.old }
    ensures long { length marks.new ≡ length marks.old }
    ensures clear { (at : ℕ) → at < upto → slice_index marks.new at ≡ 0 }
{
    marks[..upto].fill(0);
}
