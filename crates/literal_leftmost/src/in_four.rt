//! Four walks at once, through four adjacent parts of a span. No look-up waits for another walk's.
ghost use Rattle.literal_base.specs.Occurs.{IsValidSpan, between};
ghost use Rattle.literal_leftmost.specs.Inside.Backward.{ForBackward, IsSafe, NoneFrom};
ghost use Rattle.literal_leftmost.specs.Inside.Leftmost.{AreLaneStates, AreSteps, HasBytes, HavePassed, HaveRows};
ghost use Rattle.literal_leftmost.specs.Inside.Leftmost.{IsFirstStart, IsFourParts, IsLimit, IsPaid, IsPart, IsStep};
ghost use Rattle.literal_leftmost.specs.Inside.Leftmost.{LiesInPart, NoneAfter};
ghost use Rattle.literal_leftmost.specs.declared.lanes.TheConstants.{OVERLAP};
ghost use Rattle.literal_leftmost.specs.declared.leftmost.TheConstants.{FIRST};
ghost use Rattle.std.specs.Prelude.{◌*◌, ◌+◌, ◌-◌, ◌<◌, ◌^◌, ◌≡◌, ◌≤◌, ◌⊎◌, IfOk, IfSome, IsNone, MatchOption, min, ℕ};
ghost use Rattle.std.specs.Result.{IsOkAnd};

use crate::backward::{Backward, PatternStart};
use crate::lanes::{Block, Lanes, Passed};
use literal_base::Span;
use literal_base::count::Tally;
use literal_rows::damaged::Damaged;
use literal_rows::walk::ENDS;

/// The least length of the parts of the last block for four walks. In less than that one walk is faster, since each of
/// the four first reads a lead.
const LEAST_PART: usize = 11;

/// Four walks at the ends of four parts.
#[derive(Clone, Copy)]
pub struct LaneStates {
    pub lanes: Lanes,
    /// The first offset after the parts at which a pattern begins, if the fourth walk found one.
    pub behind: Option<PatternStart>,
}

impl<'t> Backward<'t> {
    /// Runs four walks at once through the leads after four adjacent parts, so that no look-up waits for another.
    #[inline(never)]
    pub(crate) fn lead_in_four(
        &self,
        classes: &[u8; 256],
        haystack: &[u8],
        span: Span,
        at: usize,
        block: Block,
        limit: usize,
        tally: &mut Tally,
    ) -> Result<LaneStates, Damaged>
        requires safe { IsSafe self.now }
        requires same { HasBytes self.now classes.now }
        requires limit { IsLimit self.now limit }
        requires valid { IsValidSpan haystack.now span }
        requires parts { IsFourParts self.now.table.longest span at block }
        ensures led { ForBackward self.now (λ tables. IsOkAnd result
            (AreLaneStates tables haystack.now span at block)) }
        ensures lies { IfOk result (λ led. LiesInPart (at + 4 * block.part) (at + 4 * block.part + block.lead)
            led.behind) }
        ensures rows { IfOk result (λ led. HaveRows limit led.lanes) }
        ensures others { tally.new ≡ record tally.old { scanned = tally.new.scanned } }
        ensures most { tally.new.scanned ≤ tally.old.scanned + 4 * block.lead }
        ensures all { IfOk result (λ _. tally.new.scanned ≡ tally.old.scanned + 4 * block.lead) }
    {
        let part = block.part;
        let (mut first, mut second, mut third, mut fourth) = (0, 0, 0, 0);
        let mut behind = None; // (the walk of the next part finds what begins there)
        for step in (0..block.lead).rev() {
            let here = at + part + step;
            let one = self.step(classes, first, haystack, here, limit, tally)?;
            first = (one % ENDS) as usize;
            let here = here + part;
            let two = self.step(classes, second, haystack, here, limit, tally)?;
            second = (two % ENDS) as usize;
            let here = here + part;
            let three = self.step(classes, third, haystack, here, limit, tally)?;
            third = (three % ENDS) as usize;
            let here = here + part;
            fourth = self.follow(classes, fourth, haystack, here, limit, &mut behind, tally)?;
        }
        let lanes = Lanes {
            first,
            second,
            third,
            fourth,
        };
        Ok(LaneStates { lanes, behind })
    }

    /// Continues these walks through the parts, up to the first step at which a number does not lead on: a pattern
    /// begins there, or the number is damaged. All four stop with that step.
    #[inline(never)]
    pub(crate) fn pass_in_four(
        &self,
        classes: &[u8; 256],
        haystack: &[u8],
        span: Span,
        at: usize,
        part: usize,
        lanes: Lanes,
        limit: usize,
        tally: &mut Tally,
    ) -> Passed
        requires safe { IsSafe self.now }
        requires same { HasBytes self.now classes.now }
        requires limit { IsLimit self.now limit }
        requires rows { HaveRows limit lanes }
        requires valid { IsValidSpan haystack.now span }
        requires inside { at + 4 * part ≤ span.end }
        ensures { HavePassed self.now haystack.now span at part lanes tally.old tally.new result }
    {
        let mut now = lanes;
        let table = &self.table;
        for step in 0..part {
            let left = part - step;
            let here = at + (left - 1);
            let (two, three, four) = (here + part, here + 2 * part, here + 3 * part);
            let first = table.next_at(classes, now.first, haystack, here, tally);
            let second = table.next_at(classes, now.second, haystack, two, tally);
            let third = table.next_at(classes, now.third, haystack, three, tally);
            let fourth = table.next_at(classes, now.fourth, haystack, four, tally);
            now = Lanes {
                first,
                second,
                third,
                fourth,
            };
            if !now.are_rows(limit) {
                return Passed { left, codes: now };
            }
        }
        Passed {
            left: 0,
            codes: now,
        }
    }

    /// The first offset in four adjacent parts at which a pattern begins, by four walks that have stopped. Each walk is
    /// continued alone, from the left, up to the one that finds a pattern.
    #[inline(never)]
    fn first_of_lanes(
        &self,
        classes: &[u8; 256],
        haystack: &[u8],
        span: Span,
        at: usize,
        part: usize,
        passed: Passed,
        limit: usize,
        tally: &mut Tally,
    ) -> Result<Option<PatternStart>, Damaged>
        requires safe { IsSafe self.now }
        requires same { HasBytes self.now classes.now }
        requires limit { IsLimit self.now limit }
        requires valid { IsValidSpan haystack.now span }
        requires after { span.start ≤ at }
        requires inside { at + 4 * part ≤ span.end }
        requires some { 0 < passed.left }
        requires left { passed.left ≤ part }
        requires fits { HaveRows (2 ^ 32) passed.codes }
        ensures first { ForBackward self.now (λ tables.
            AreSteps tables haystack.now span at part (passed.left - 1) passed.codes
            → NoneAfter tables haystack.now span.end at part passed.left
            → IsOkAnd result (IsFirstStart tables haystack.now span.end (between at (at + 4 * part)))) }
        ensures inside { IfOk result (LiesInPart at (at + 4 * part)) }
        ensures others { tally.new ≡ record tally.old { scanned = tally.new.scanned } }
        ensures most { tally.new.scanned ≤ tally.old.scanned + 4 * (passed.left - 1) }
        ensures least { IfOk result (λ first. IfSome first
            (λ begun. tally.old.scanned + begun.at ≤ tally.new.scanned + at + 3 * (part - (passed.left - 1)))) }
    {
        let (codes, last) = (passed.codes, passed.left - 1);
        let (two, three, four) = (at + part, at + 2 * part, at + 3 * part);
        let (start, end) = (at, at + last);
        let part = Span { start, end };
        let first = self.first_before(classes, haystack, span, part, codes.first, limit, tally)?;
        if first.is_some() {
            return Ok(first);
        }
        let (start, end) = (two, two + last);
        let part = Span { start, end };
        let first = self.first_before(classes, haystack, span, part, codes.second, limit, tally)?;
        if first.is_some() {
            return Ok(first);
        }
        let (start, end) = (three, three + last);
        let part = Span { start, end };
        let first = self.first_before(classes, haystack, span, part, codes.third, limit, tally)?;
        if first.is_some() {
            return Ok(first);
        }
        let (start, end) = (four, four + last);
        let part = Span { start, end };
        self.first_before(classes, haystack, span, part, codes.fourth, limit, tally)
    }

    /// The first offset in a part of a span at which a pattern begins, or the offset after it if one begins there. The
    /// walk has read the number for that offset.
    #[inline(always)]
    fn first_before(
        &self,
        classes: &[u8; 256],
        haystack: &[u8],
        span: Span,
        part: Span,
        code: usize,
        limit: usize,
        tally: &mut Tally,
    ) -> Result<Option<PatternStart>, Damaged>
        requires safe { IsSafe self.now }
        requires same { HasBytes self.now classes.now }
        requires limit { IsLimit self.now limit }
        requires valid { IsValidSpan haystack.now span }
        requires part { IsPart span part }
        requires fits { code < 2 ^ 32 }
        ensures first { ForBackward self.now (λ tables. (end upto : ℕ) → part.end < end
            → IsStep tables haystack.now span end part.end code
            → NoneFrom tables haystack.now span.end (part.end + 1) upto
            → IsOkAnd result (IsFirstStart tables haystack.now span.end (between part.start upto))) }
        ensures inside { IfOk result (LiesInPart part.start (part.end + 1)) }
        ensures others { tally.new ≡ record tally.old { scanned = tally.new.scanned } }
        ensures most { tally.new.scanned + part.start ≤ tally.old.scanned + part.end }
        ensures all { IfOk result (λ _. tally.new.scanned + part.start ≡ tally.old.scanned + part.end) }
    {
        let mut behind = None;
        let row = self.go_on(code as u32, part.end, limit, &mut behind)?;
        self.first_in(classes, haystack, span, part, row, behind, limit, tally)
    }

    /// The first offset in a block at which a pattern begins, by four walks at once. If these find one, each is
    /// continued alone.
    pub(crate) fn first_in_four(
        &self,
        classes: &[u8; 256],
        haystack: &[u8],
        span: Span,
        at: usize,
        block: Block,
        limit: usize,
        tally: &mut Tally,
    ) -> Result<Option<PatternStart>, Damaged>
        requires safe { IsSafe self.now }
        requires same { HasBytes self.now classes.now }
        requires limit { IsLimit self.now limit }
        requires valid { IsValidSpan haystack.now span }
        requires after { span.start ≤ at }
        requires parts { IsFourParts self.now.table.longest span at block }
        ensures first { ForBackward self.now (λ tables. IsOkAnd result
            (IsFirstStart tables haystack.now span.end (between at block.end))) }
        ensures inside { IfOk result (LiesInPart at block.end) }
        ensures others { tally.new ≡ record tally.old { scanned = tally.new.scanned } }
        ensures most { tally.new.scanned ≤ tally.old.scanned + 8 * block.part + 4 * block.lead }
        ensures counted { IfOk result (λ first. MatchOption first
            (tally.new.scanned ≡ tally.old.scanned + 4 * block.part + 4 * block.lead)
            (λ begun. tally.old.scanned + min (begun.at + self.now.table.longest) span.end
            ≤ tally.new.scanned + at)) }
    {
        let part = block.part;
        let led = self.lead_in_four(classes, haystack, span, at, block, limit, tally)?;
        let passed = self.pass_in_four(classes, haystack, span, at, part, led.lanes, limit, tally);
        if passed.left > 0 {
            return match self.first_of_lanes(
                classes, haystack, span, at, part, passed, limit, tally,
            )? {
                Some(begun) => Ok(Some(begun)),
                None => Err(Damaged),
            };
        }
        if block.end > at + 4 * part {
            Ok(led.behind)
        } else {
            Ok(None)
        }
    }

    /// A block of the rest of a span from an offset on. Its parts have the given length, or it is the whole rest if
    /// that is not much longer. There is none if the rest is short. The block is long enough to pay for the owed bytes.
    pub(crate) fn four_parts_at(
        &self,
        span: Span,
        at: usize,
        part: usize,
        owed: usize,
    ) -> Option<Block>
        requires inside { at ≤ span.end }
        requires some { FIRST ≤ part }
        requires long { self.now.table.longest + 5 ≤ 2 * part }
        requires few { owed ≤ OVERLAP }
        ensures parts { IfSome result (λ block. IsFourParts self.now.table.longest span at block) }
        ensures paid { IfSome result (IsPaid owed at) }
        ensures short { IfSome result (λ block. block.part ≤ 2 * part) }
        ensures next { IfSome result (λ block. (block.end ≡ span.end) ⊎ (block.end ≡ at + 4 * part)) }
        ensures rest { IsNone result → span.end ≤ at + 10 * part + 32 }
    {
        let lead = self.table.longest.saturating_sub(1);
        let rest = (span.end - at).saturating_sub(lead);
        // (if less than two blocks are left, one block goes to the end of the span)
        if rest / 8 >= part {
            let end = at + 4 * part;
            return Some(Block { part, lead, end });
        }
        let part = rest / 4;
        if part < LEAST_PART || lead / 2 > part {
            return None;
        }
        let end = span.end;
        let lead = end - at - 4 * part;
        if lead + owed > 4 * part {
            return None;
        }
        Some(Block { part, lead, end })
    }
}
