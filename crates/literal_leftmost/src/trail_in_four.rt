//! Trails that four walks leave at once, each in one of four adjacent parts of a block, in short steps.
ghost use Rattle.std.specs.Prelude.{◌≡◌, ◌+◌, ◌-◌, ◌*◌, ◌/◌, ◌<◌, ◌≤◌, ◌^◌, ◌%◌, bit_or, length, max};
ghost use Rattle.std.specs.Prelude.{IfOk, IfSome, slice_index};
ghost use Rattle.std.specs.Result.{IsOkAnd};
ghost use Rattle.literal_base.specs.Occurs.{IsValidSpan};
ghost use Rattle.literal_leftmost.specs.Inside.Backward.{AreMarked, ForBackward, IsSafe, NoneFrom};
ghost use Rattle.literal_leftmost.specs.Inside.Leftmost.{AreLanes, HasBytes, HaveRows, IsLimit, IsPart};
ghost use Rattle.literal_leftmost.specs.Inside.Trail.{AreShortCells, HaveCrossed, IsStepMarked, step_at};

use crate::backward::{Backward, Marks, no_marks};
use crate::lanes::{Block, Lanes};
use crate::trail::{STEP, cell_of};
use literal_base::Span;
use literal_base::count::Tally;
use literal_rows::damaged::Damaged;
use literal_rows::walk::ENDS;

/// The length of a short step. Four of them are as long as a step.
pub const SHORT_STEP: usize = STEP / 4;

/// The result of four walks through a step of each of four adjacent parts.
#[derive(Clone, Copy)]
pub struct CrossedInFour {
    /// Their rows at the starts of the steps.
    pub lanes: Lanes,
    /// The numbers that each of them read there, joined bit by bit. From 2^31 on, a pattern begins in the step.
    pub read: Lanes,
}

impl Lanes {
    /// The rows to which four numbers lead.
    #[inline(always)]
    fn rows(&self) -> Lanes
        ensures { result ≡ record {
          first = self.now.first % 2 ^ 31;
          second = self.now.second % 2 ^ 31;
          third = self.now.third % 2 ^ 31;
          fourth = self.now.fourth % 2 ^ 31;
        } }
    {
        let ends = ENDS as usize;
        Lanes {
            first: self.first % ends,
            second: self.second % ends,
            third: self.third % ends,
            fourth: self.fourth % ends,
        }
    }

    /// Each number joined with one of four others, bit by bit.
    #[inline(always)]
    fn joined(&self, others: Lanes) -> Lanes
        ensures { result ≡ record {
          first = bit_or self.now.first others.first;
          second = bit_or self.now.second others.second;
          third = bit_or self.now.third others.third;
          fourth = bit_or self.now.fourth others.fourth;
        } }
    {
        Lanes {
            first: self.first | others.first,
            second: self.second | others.second,
            third: self.third | others.third,
            fourth: self.fourth | others.fourth,
        }
    }
}

impl<'t> Backward<'t> {
    /// Walks through a short step of each of four adjacent parts, at once. `left` bytes of each part are left.
    #[inline(never)]
    fn cross_in_four(
        &self,
        classes: &[u8; 256],
        haystack: &[u8],
        span: Span,
        at: usize,
        part: usize,
        left: usize,
        lanes: Lanes,
        limit: usize,
        tally: &mut Tally,
    ) -> Result<CrossedInFour, Damaged>
        requires safe { IsSafe self.now }
        requires same { HasBytes self.now classes.now }
        requires limit { IsLimit self.now limit }
        requires rows { HaveRows limit lanes }
        requires valid { IsValidSpan haystack.now span }
        requires inside { at + 4 * part ≤ span.end }
        requires left { left ≤ part }
        requires some { SHORT_STEP ≤ left }
        ensures lanes { ForBackward self.now (λ tables. AreLanes tables haystack.now span at part left lanes
            → IsOkAnd result (λ crossed. AreLanes tables haystack.now span at part (left - SHORT_STEP)
            crossed.lanes)) }
        ensures none { ForBackward self.now (λ tables. AreLanes tables haystack.now span at part left lanes
            → IfOk result (λ crossed. HaveCrossed tables haystack.now span.end at part (left - SHORT_STEP) left
            crossed.read)) }
        ensures rows { IfOk result (λ crossed. HaveRows limit crossed.lanes) }
        ensures others { tally.new ≡ record tally.old { scanned = tally.new.scanned } }
        ensures most { tally.new.scanned ≤ tally.old.scanned + 4 * SHORT_STEP }
        ensures all { IfOk result (λ _. tally.new.scanned ≡ tally.old.scanned + 4 * SHORT_STEP) }
    {
        let (mut now, mut read) = (lanes, NOTHING_READ);
        let table = &self.table;
        for step in (left - SHORT_STEP..left).rev() {
            let here = at + step;
            let (two, three, four) = (here + part, here + 2 * part, here + 3 * part);
            let first = table.next_at(classes, now.first, haystack, here, tally);
            let second = table.next_at(classes, now.second, haystack, two, tally);
            let third = table.next_at(classes, now.third, haystack, three, tally);
            let fourth = table.next_at(classes, now.fourth, haystack, four, tally);
            let codes = Lanes {
                first,
                second,
                third,
                fourth,
            };
            read = read.joined(codes);
            now = codes.rows();
            if !now.are_rows(limit) {
                return Err(Damaged);
            }
        }
        Ok(CrossedInFour { lanes: now, read })
    }

    /// Leaves the trail of four walks through four adjacent parts of so many short steps. Each begins far enough after
    /// its part for the longest pattern.
    pub(crate) fn leave_in_four(
        &self,
        haystack: &[u8],
        span: Span,
        at: usize,
        steps: usize,
        cells: &mut [u32],
        tally: &mut Tally,
    ) -> Result<(), Damaged>
        requires safe { IsSafe self.now }
        requires valid { IsValidSpan haystack.now span }
        requires inside { at + STEP * steps + self.now.table.longest ≤ span.end }
        requires long { self.now.table.longest + 4 ≤ SHORT_STEP * steps }
        requires room { 4 * steps ≤ length cells.old }
        ensures cells { ForBackward self.now (λ tables. IsOkAnd result
            (λ _. AreShortCells tables haystack.now span at cells.new (4 * steps))) }
        ensures long { length cells.new ≡ length cells.old }
        ensures others { tally.new ≡ record tally.old { scanned = tally.new.scanned } }
        ensures most { tally.new.scanned ≤ tally.old.scanned + STEP * steps + 4 * (self.now.table.longest - 1) }
        ensures all { IfOk result (λ _. tally.new.scanned
            ≡ tally.old.scanned + STEP * steps + 4 * (self.now.table.longest - 1)) }
    {
        let part = SHORT_STEP * steps;
        let block = Block {
            part,
            lead: self.table.longest.saturating_sub(1),
            end: at + 4 * part,
        };
        let (limit, bytes) = (self.table.limit()?, self.table.class_bytes());
        let classes = &bytes;
        let led = self.lead_in_four(classes, haystack, span, at, block, limit, tally)?;
        let mut lanes = led.lanes;
        for i in (0..steps).rev() {
            let left = SHORT_STEP * i + SHORT_STEP;
            let crossed = self.cross_in_four(
                classes, haystack, span, at, part, left, lanes, limit, tally,
            )?;
            let begun = ENDS as usize;
            cells[i] = cell_of(lanes.first, crossed.read.first >= begun);
            cells[i + steps] = cell_of(lanes.second, crossed.read.second >= begun);
            cells[i + 2 * steps] = cell_of(lanes.third, crossed.read.third >= begun);
            cells[i + 3 * steps] = cell_of(lanes.fourth, crossed.read.fourth >= begun);
            lanes = crossed.lanes;
        }
        Ok(())
    }

    /// Marks a block's next four short steps, from an offset on, if a pattern begins in one, by the trail of the block.
    /// Four walks go through them at once.
    #[inline(never)]
    pub(crate) fn mark_four_steps(
        &self,
        haystack: &[u8],
        span: Span,
        block: Span,
        from: usize,
        cells: &[u32],
        numbers: &mut [u32],
        tally: &mut Tally,
    ) -> Result<Marks, Damaged>
        requires safe { IsSafe self.now }
        requires valid { IsValidSpan haystack.now span }
        requires block { IsPart span block }
        requires after { block.start ≤ from }
        requires inside { from < block.end }
        requires whole { (block.end - block.start) % STEP ≡ 0 }
        requires trail { block.end ≤ block.start + SHORT_STEP * length cells.now }
        requires room { STEP ≤ length numbers.old }
        ensures marked { ForBackward self.now (λ tables. AreShortCells tables haystack.now span block.start cells.now
            ((block.end - block.start) / SHORT_STEP)
            → IsOkAnd result (λ m. NoneFrom tables haystack.now span.end from (max from m.first)
            × AreMarked tables haystack.now span (max from m.first) numbers.new m)) }
        ensures placed { IfOk result (IsStepMarked block from) }
        ensures long { length numbers.new ≡ length numbers.old }
        ensures others { tally.new ≡ record tally.old { scanned = tally.new.scanned } }
        ensures most { IfOk result (λ m. tally.new.scanned + step_at block from ≤ tally.old.scanned + m.known) }
        ensures far { tally.new.scanned + step_at block from ≤ tally.old.scanned + block.end }
        ensures grows { IfOk result (λ _. tally.old.scanned ≤ tally.new.scanned) }
    {
        let (limit, bytes) = (self.table.limit()?, self.table.class_bytes());
        let mut i = (from - block.start) / STEP;
        let mut at = from;
        while at < block.end {
            let start = block.start + STEP * i;
            let codes = four_cells(cells, 4 * i);
            at = start + STEP;
            if !codes.are_rows(ENDS as usize) {
                let lanes = codes.rows();
                if !lanes.are_rows(limit) {
                    return Err(Damaged);
                }
                self.mark_parts(
                    &bytes, haystack, span, start, SHORT_STEP, SHORT_STEP, lanes, limit, numbers,
                    tally,
                )?;
                return Ok(Marks {
                    first: start,
                    upto: at,
                    known: at,
                    part: 0,
                });
            }
            i += 1;
        }
        Ok(no_marks(at))
    }

    /// How many short steps each of the four parts of a block has that is at least `least` bytes long, if there are so
    /// many cells and so much of the span is left. There is no such block if its parts would be too short for the
    /// longest pattern.
    pub(crate) fn short_steps(&self, least: usize, left: usize) -> Option<usize>
        ensures inside { IfSome result (λ steps. STEP * steps + self.now.table.longest ≤ left) }
        ensures long { IfSome result (λ steps. self.now.table.longest + 4 ≤ SHORT_STEP * steps) }
        ensures few { IfSome result (λ steps. 4 * steps ≤ STEP) }
    {
        let longest = self.table.longest;
        let fit = left.saturating_sub(longest) / STEP;
        let steps = least.div_ceil(STEP).min(fit).min(STEP / 4);
        if longest.saturating_add(4) > SHORT_STEP * steps {
            return None;
        }
        Some(steps)
    }
}

/// The numbers of four walks that have read nothing.
const NOTHING_READ: Lanes = Lanes {
    first: 0,
    second: 0,
    third: 0,
    fourth: 0,
};

/// Four numbers of a trail, from an index on.
#[inline(always)]
fn four_cells(cells: &[u32], i: usize) -> Lanes
    requires { i + 4 ≤ length cells.now }
    ensures { result ≡ record {
      first = slice_index cells.now i;
      second = slice_index cells.now (i + 1);
      third = slice_index cells.now (i + 2);
      fourth = slice_index cells.now (i + 3);
    } }
{
    Lanes {
        first: cells[i] as usize,
        second: cells[i + 1] as usize,
        third: cells[i + 2] as usize,
        fourth: cells[i + 3] as usize,
    }
}
