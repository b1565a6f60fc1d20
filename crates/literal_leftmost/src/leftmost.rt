//! The leftmost match of a span, by backward walks with an automaton of the reversed patterns. They allocate nothing.
//! Lent numbers may be wrong: if one points outside the rows, the answer is `Damaged`.
ghost use Rattle.literal_base.specs.Occurs.{IsValidSpan, between};
ghost use Rattle.literal_base.specs.declared.search.Span.{Span};
ghost use Rattle.literal_leftmost.specs.Inside.Backward.{ForBackward, IsSafe, NoneFrom};
ghost use Rattle.literal_leftmost.specs.Inside.Leftmost.{AreFor, HasBytes, HasProgress, IsFirstStart, IsFourParts};
ghost use Rattle.literal_leftmost.specs.Inside.Leftmost.{IsLane, IsLimit, IsPaid, IsPart, IsProgress, IsStep};
ghost use Rattle.literal_leftmost.specs.Inside.Leftmost.{LiesInPart, ReadsFor, ahead_by, owed_by, owed_in};
ghost use Rattle.std.specs.Prelude.{◌%◌, ◌*◌, ◌/◌, ◌+◌, ◌-◌, ◌<◌, ◌^◌, ◌≡◌, ◌≤◌, ◌⊎◌, IfOk, IfSome, IsNone, List, Some};
ghost use Rattle.std.specs.Prelude.{length, max, min, ℕ};
ghost use Rattle.std.specs.Result.{IsOkAnd};

use crate::backward::{Backward, PatternStart};
use crate::lanes::{Block, OVERLAP};
use literal_base::Span;
use literal_base::count::Tally;
use literal_fingerprints::CandidateScan;
use literal_rows::array::{pair_scan_in, scan_in};
use literal_rows::damaged::Damaged;
use literal_rows::walk::ENDS;

/// The least length of the parts of the first block.
pub const FIRST: usize = 16;

/// Parts double from block to block until they have at least this length.
const LAST: usize = 1024;

/// One walk looks at a candidate after a scan has passed over this many bytes, or the length of the longest pattern if
/// that is more.
pub const PRICE: usize = 48;

/// The largest number of bytes that are credited as passed over.
const MOST_CREDIT: usize = 2048;

/// The progress of a search.
#[derive(Clone, Copy)]
pub struct Progress {
    /// No pattern begins before this offset.
    pub at: usize,
    /// The number of bytes that a scan passed over, minus those that walks at candidates used up.
    pub credit: usize,
    /// The length of each of the four parts of the next block.
    pub part: usize,
}

/// The result of a search's next step: what it found, and its progress.
#[derive(Clone, Copy)]
pub struct StepResult {
    pub first: Option<PatternStart>,
    pub progress: Progress,
}

impl<'t> Backward<'t> {
    /// The number for a byte of the haystack in the row at an index. It leads to a row below the limit.
    #[inline(always)]
    pub fn step(
        &self,
        classes: &[u8; 256],
        row: usize,
        haystack: &[u8],
        at: usize,
        limit: usize,
        tally: &mut Tally,
    ) -> Result<u32, Damaged>
        requires safe { IsSafe self.now }
        requires same { HasBytes self.now classes.now }
        requires limit { IsLimit self.now limit }
        requires row { row < limit }
        requires inside { at < length haystack.now }
        ensures step { ForBackward self.now (λ tables. (span : Span) (end next to : ℕ) → span.end ≤ length haystack.now
            → next ≡ at + 1 → to ≡ at → IsLane tables haystack.now span end next row
            → IsOkAnd result (IsStep tables haystack.now span end to)) }
        ensures leads { IfOk result (λ code. code % 2 ^ 31 < limit) }
        ensures ticks { tally.new ≡ record tally.old { scanned = tally.old.scanned + 1 } }
    {
        let code = self.table.code_by(classes, row, haystack, at, tally);
        // (without the bit that says that a pattern begins)
        if (code % ENDS) as usize >= limit {
            return Err(Damaged);
        }
        Ok(code)
    }

    /// The next row of a walk after a byte of the haystack. If a pattern begins at the byte, `begun` gets it.
    #[inline(always)]
    pub(crate) fn follow(
        &self,
        classes: &[u8; 256],
        row: usize,
        haystack: &[u8],
        at: usize,
        limit: usize,
        begun: &mut Option<PatternStart>,
        tally: &mut Tally,
    ) -> Result<usize, Damaged>
        requires safe { IsSafe self.now }
        requires same { HasBytes self.now classes.now }
        requires limit { IsLimit self.now limit }
        requires row { row < limit }
        requires inside { at < length haystack.now }
        ensures lane { ForBackward self.now (λ tables. (span : Span) (end next to : ℕ) → span.end ≤ length haystack.now
            → next ≡ at + 1 → to ≡ at → IsLane tables haystack.now span end next row
            → IsOkAnd result (IsLane tables haystack.now span end to)) }
        ensures first { ForBackward self.now (λ tables. (span : Span) (end next to upto : ℕ)
            → span.end ≤ length haystack.now → next ≡ at + 1 → to ≡ at → at < end
            → IsLane tables haystack.now span end next row
            → IsFirstStart tables haystack.now span.end (between next upto) begun.old
            → IsFirstStart tables haystack.now span.end (between to upto) begun.new) }
        ensures lies { (next to upto : ℕ) → next ≡ at + 1 → to ≡ at → at < upto → LiesInPart next upto begun.old
            → LiesInPart to upto begun.new }
        ensures leads { IfOk result (λ on. on < limit) }
        ensures ticks { tally.new ≡ record tally.old { scanned = tally.old.scanned + 1 } }
    {
        let code = self.table.code_by(classes, row, haystack, at, tally);
        self.go_on(code, at, limit, begun)
    }

    /// The next row of a walk that read a number for the byte at an offset. If a pattern begins there, `begun` gets it.
    #[inline(always)]
    pub(crate) fn go_on(
        &self,
        code: u32,
        at: usize,
        limit: usize,
        begun: &mut Option<PatternStart>,
    ) -> Result<usize, Damaged>
        requires limit { IsLimit self.now limit }
        ensures lane { ForBackward self.now (λ tables. (haystack : List ℕ) (span : Span) (end to : ℕ) → to ≡ at
            → IsStep tables haystack span end to code → IsOkAnd result (IsLane tables haystack span end to)) }
        ensures first { ForBackward self.now (λ tables. (haystack : List ℕ) (span : Span) (end next to upto : ℕ)
            → next ≡ at + 1 → to ≡ at → at < end → IsStep tables haystack span end to code
            → IsFirstStart tables haystack span.end (between next upto) begun.old
            → IsFirstStart tables haystack span.end (between to upto) begun.new) }
        ensures lies { (next to upto : ℕ) → next ≡ at + 1 → to ≡ at → at < upto → LiesInPart next upto begun.old
            → LiesInPart to upto begun.new }
        ensures leads { IfOk result (λ on. on < limit) }
    {
        // (one comparison for most bytes: below the limit, a number is a row, and no pattern begins)
        if (code as usize) < limit {
            return Ok(code as usize);
        }
        let on = (code % ENDS) as usize;
        if on >= limit {
            return Err(Damaged);
        }
        *begun = Some(PatternStart { at, code });
        Ok(on)
    }

    /// The row of a walk at an offset. It begins far enough after the offset to find all that begins before it.
    pub(crate) fn walk_back(
        &self,
        classes: &[u8; 256],
        haystack: &[u8],
        span: Span,
        end: usize,
        limit: usize,
        tally: &mut Tally,
    ) -> Result<usize, Damaged>
        requires safe { IsSafe self.now }
        requires same { HasBytes self.now classes.now }
        requires limit { IsLimit self.now limit }
        requires valid { IsValidSpan haystack.now span }
        requires inside { end ≤ span.end }
        ensures lane { ForBackward self.now (λ tables. IsOkAnd result (IsLane tables haystack.now span end end)) }
        ensures row { IfOk result (λ row. row < limit) }
        ensures others { tally.new ≡ record tally.old { scanned = tally.new.scanned } }
        ensures most { tally.new.scanned + end
            ≤ tally.old.scanned + min (end + (self.now.table.longest - 1)) span.end }
        ensures all { IfOk result (λ _. tally.new.scanned + end
            ≡ tally.old.scanned + min (end + (self.now.table.longest - 1)) span.end) }
    {
        let ahead = self.table.longest.saturating_sub(1).min(span.end - end);
        let from = end + ahead;
        let mut row = 0;
        for at in (end..from).rev() {
            let code = self.step(classes, row, haystack, at, limit, tally)?;
            row = (code % ENDS) as usize;
        }
        Ok(row)
    }

    /// The first offset in a part of a span at which a pattern begins, or the one that is known after the part. The
    /// walk is in the row at index `from` at the part's end.
    #[inline(always)]
    pub(crate) fn first_in(
        &self,
        classes: &[u8; 256],
        haystack: &[u8],
        span: Span,
        part: Span,
        from: usize,
        behind: Option<PatternStart>,
        limit: usize,
        tally: &mut Tally,
    ) -> Result<Option<PatternStart>, Damaged>
        requires safe { IsSafe self.now }
        requires same { HasBytes self.now classes.now }
        requires limit { IsLimit self.now limit }
        requires valid { IsValidSpan haystack.now span }
        requires part { IsPart span part }
        requires row { from < limit }
        ensures first { ForBackward self.now (λ tables. (end upto : ℕ) → part.end ≤ end
            → IsLane tables haystack.now span end part.end from
            → IsFirstStart tables haystack.now span.end (between part.end upto) behind
            → IsOkAnd result (IsFirstStart tables haystack.now span.end (between part.start upto))) }
        ensures inside { (upto : ℕ) → part.end ≤ upto → LiesInPart part.end upto behind
            → IfOk result (LiesInPart part.start upto) }
        ensures others { tally.new ≡ record tally.old { scanned = tally.new.scanned } }
        ensures most { tally.new.scanned + part.start ≤ tally.old.scanned + part.end }
        ensures all { IfOk result (λ _. tally.new.scanned + part.start ≡ tally.old.scanned + part.end) }
    {
        let mut row = from;
        let mut first = behind;
        for at in (part.start..part.end).rev() {
            row = self.follow(classes, row, haystack, at, limit, &mut first, tally)?;
        }
        Ok(first)
    }

    /// The first offset in a part of a span at which a pattern begins, by one walk. It begins far enough after the part
    /// for the longest pattern.
    #[inline(always)]
    pub(crate) fn begun_in(
        &self,
        classes: &[u8; 256],
        haystack: &[u8],
        span: Span,
        part: Span,
        limit: usize,
        tally: &mut Tally,
    ) -> Result<Option<PatternStart>, Damaged>
        requires safe { IsSafe self.now }
        requires same { HasBytes self.now classes.now }
        requires limit { IsLimit self.now limit }
        requires valid { IsValidSpan haystack.now span }
        requires part { IsPart span part }
        ensures first { ForBackward self.now (λ tables. IsOkAnd result
            (IsFirstStart tables haystack.now span.end part)) }
        ensures inside { IfOk result (LiesInPart part.start part.end) }
        ensures others { tally.new ≡ record tally.old { scanned = tally.new.scanned } }
        ensures most { tally.new.scanned + part.start
            ≤ tally.old.scanned + min (part.end + (self.now.table.longest - 1)) span.end }
        ensures all { IfOk result (λ _. tally.new.scanned + part.start
            ≡ tally.old.scanned + min (part.end + (self.now.table.longest - 1)) span.end) }
    {
        let row = self.walk_back(classes, haystack, span, part.end, limit, tally)?;
        self.first_in(classes, haystack, span, part, row, None, limit, tally)
    }

    /// The pattern that begins at an offset of a span, by one walk.
    pub(crate) fn begun_at(
        &self,
        classes: &[u8; 256],
        haystack: &[u8],
        span: Span,
        at: usize,
        limit: usize,
        tally: &mut Tally,
    ) -> Result<Option<PatternStart>, Damaged>
        requires safe { IsSafe self.now }
        requires same { HasBytes self.now classes.now }
        requires limit { IsLimit self.now limit }
        requires valid { IsValidSpan haystack.now span }
        requires after { span.start ≤ at }
        requires inside { at < span.end }
        ensures first { ForBackward self.now (λ tables. IsOkAnd result
            (IsFirstStart tables haystack.now span.end (between at (at + 1)))) }
        ensures inside { IfOk result (LiesInPart at (at + 1)) }
        ensures others { tally.new ≡ record tally.old { scanned = tally.new.scanned } }
        ensures most { tally.new.scanned + at
            ≤ tally.old.scanned + min (at + max self.now.table.longest 1) span.end }
        ensures all { IfOk result (λ _. tally.new.scanned + at
            ≡ tally.old.scanned + min (at + max self.now.table.longest 1) span.end) }
    {
        let part = Span {
            start: at,
            end: at + 1,
        };
        self.begun_in(classes, haystack, span, part, limit, tally)
    }

    /// Passes over bytes by the scan for candidates, if any. No pattern begins before the returned offset.
    #[inline(always)]
    pub(crate) fn pass_over(
        &self,
        scan: &Option<CandidateScan>,
        haystack: &[u8],
        span: Span,
        tally: &mut Tally,
    ) -> usize
        requires valid { IsValidSpan haystack.now span }
        requires for_patterns { AreFor self.now scan.now }
        ensures none { ForBackward self.now (λ tables.
            NoneFrom tables haystack.now span.end span.start result) }
        ensures inside { (span.start ≤ result) × (result ≤ span.end) }
        ensures others { tally.new ≡ record tally.old { scanned = tally.new.scanned } }
        ensures most { tally.new.scanned + 3 * span.start
            ≤ tally.old.scanned + 3 * result + min (owed_by scan.now) (span.end - result) }
        ensures ahead { tally.new.scanned + span.start
            ≤ tally.old.scanned + result + min (ahead_by scan.now) (span.end - result) }
        ensures least { tally.old.scanned + result ≤ tally.new.scanned + span.start }
    {
        match scan {
            Some(scan) => scan.next(haystack, span, tally),
            None => span.start,
        }
    }

    /// The progress of a search of a span that has not begun.
    #[inline(always)]
    pub(crate) fn begin_at(&self, span: Span) -> Progress
        requires { span.start ≤ span.end }
        ensures begins { (base : ℕ) → IsProgress self.now span 0 base base result }
        ensures start { result.at ≡ span.start }
    {
        Progress {
            at: span.start,
            credit: 0,
            part: FIRST.max(self.table.longest / 2 + 3), // (so a lead is shorter than two parts)
        }
    }

    /// The progress of a search after a pass by the scan for candidates.
    #[inline(always)]
    pub(crate) fn pass_on(
        &self,
        scan: &Option<CandidateScan>,
        haystack: &[u8],
        span: Span,
        progress: Progress,
        tally: &mut Tally,
    ) -> Progress
        requires valid { IsValidSpan haystack.now span }
        requires for_patterns { AreFor self.now scan.now }
        requires after { span.start ≤ progress.at }
        requires inside { progress.at ≤ span.end }
        ensures none { ForBackward self.now (λ tables. NoneFrom tables haystack.now span.end progress.at result.at) }
        ensures later { (progress.at ≤ result.at) × (result.at ≤ span.end) }
        ensures progress { (base : ℕ) → IsProgress self.now span 0 base tally.old.scanned progress
            → IsProgress self.now span (owed_by scan.now) base tally.new.scanned result }
        ensures others { tally.new ≡ record tally.old { scanned = tally.new.scanned } }
    {
        let rest = Span {
            start: progress.at,
            end: span.end,
        };
        let at = self.pass_over(scan, haystack, rest, tally);
        let passed = credited(scan, at - progress.at);
        let credit = MOST_CREDIT.min(progress.credit.saturating_add(passed));
        Progress {
            at,
            credit,
            part: progress.part,
        }
    }

    /// The progress of a search of a span after the first pass by its scan. If it goes by a rare pair, no fingerprints
    /// are loaded.
    #[inline(always)]
    pub(crate) fn pass_first(&self, haystack: &[u8], span: Span, tally: &mut Tally) -> Progress
        requires safe { IsSafe self.now }
        requires valid { IsValidSpan haystack.now span }
        ensures none { ForBackward self.now (λ tables.
            NoneFrom tables haystack.now span.end span.start result.at) }
        ensures inside { (span.start ≤ result.at) × (result.at ≤ span.end) }
        ensures progress { IsProgress self.now span (owed_in self.now.prints.now) tally.old.scanned
            tally.new.scanned result }
        ensures others { tally.new ≡ record tally.old { scanned = tally.new.scanned } }
    {
        let begin = self.begin_at(span);
        let by_pair = &pair_scan_in(self.prints);
        if by_pair.is_some() {
            return self.pass_on(by_pair, haystack, span, begin, tally);
        }
        self.pass_on(&scan_in(self.prints), haystack, span, begin, tally)
    }

    /// Looks for a pattern where a search is: at that offset alone, by one walk, if enough was passed over before it;
    /// otherwise in the block, by four walks. If it finds none, the search continues after it.
    #[inline(always)]
    fn look_on(
        &self,
        classes: &[u8; 256],
        haystack: &[u8],
        span: Span,
        progress: Progress,
        block: Block,
        owed: usize,
        limit: usize,
        tally: &mut Tally,
    ) -> Result<StepResult, Damaged>
        requires safe { IsSafe self.now }
        requires same { HasBytes self.now classes.now }
        requires limit { IsLimit self.now limit }
        requires valid { IsValidSpan haystack.now span }
        requires after { span.start ≤ progress.at }
        requires parts { IsFourParts self.now.table.longest span progress.at block }
        requires paid { IsPaid owed progress.at block }
        requires few { owed ≤ OVERLAP }
        requires short { block.part ≤ 2 * progress.part }
        requires next { (block.end ≡ span.end) ⊎ (block.end ≡ progress.at + 4 * progress.part) }
        ensures first { ForBackward self.now (λ tables. IsOkAnd result (λ looked.
            IsFirstStart tables haystack.now span.end (between progress.at looked.progress.at) looked.first)) }
        ensures inside { IfOk result (λ looked. LiesInPart progress.at span.end looked.first) }
        ensures later { IfOk result (λ looked. (progress.at < looked.progress.at) × (looked.progress.at ≤ span.end)) }
        ensures progress { (base : ℕ) → IsProgress self.now span owed base tally.old.scanned progress
            → IfOk result (λ looked. IsNone looked.first
            → IsProgress self.now span 0 base tally.new.scanned looked.progress) }
        ensures found { (base : ℕ) → IsProgress self.now span owed base tally.old.scanned progress
            → IfOk result (λ looked. IfSome looked.first
            (λ begun. ReadsFor self.now.table.longest span base tally.new.scanned (Some begun))) }
        ensures most { (base : ℕ) → IsProgress self.now span owed base tally.old.scanned progress
            → tally.new.scanned + 3 * span.start ≤ base + 3 * span.end }
        ensures others { tally.new ≡ record tally.old { scanned = tally.new.scanned } }
    {
        let price = PRICE.max(self.table.longest);
        if price <= progress.credit {
            let first = self.begun_at(classes, haystack, span, progress.at, limit, tally)?;
            let progress = Progress {
                at: progress.at + 1,
                credit: progress.credit - price,
                part: progress.part,
            };
            return Ok(StepResult { first, progress });
        }
        let first = self.first_in_four(classes, haystack, span, progress.at, block, limit, tally)?;
        let part = if progress.part < LAST {
            2 * progress.part
        } else {
            progress.part
        };
        let progress = Progress {
            at: block.end,
            credit: progress.credit,
            part,
        };
        Ok(StepResult { first, progress })
    }

    /// The first offset in a span at which a pattern begins, after a first scan has passed over bytes. It is not
    /// inlined, so that the first scan has registers for its tables.
    #[inline(never)]
    pub(crate) fn first_after(
        &self,
        haystack: &[u8],
        span: Span,
        from: Progress,
        tally: &mut Tally,
    ) -> Result<Option<PatternStart>, Damaged>
        requires safe { IsSafe self.now }
        requires valid { IsValidSpan haystack.now span }
        requires inside { from.at < span.end }
        requires progress { HasProgress self.now span (owed_in self.now.prints.now) tally.old.scanned from }
        ensures first { ForBackward self.now (λ tables. NoneFrom tables haystack.now span.end span.start from.at
            → IsOkAnd result (IsFirstStart tables haystack.now span.end span)) }
        ensures lies { IfOk result (LiesInPart span.start span.end) }
        ensures others { tally.new ≡ record tally.old { scanned = tally.new.scanned } }
        ensures most { (base : ℕ)
            → IsProgress self.now span (owed_in self.now.prints.now) base tally.old.scanned from
            → tally.new.scanned + 3 * span.start ≤ base + 3 * span.end }
        ensures counted { (base : ℕ)
            → IsProgress self.now span (owed_in self.now.prints.now) base tally.old.scanned from
            → IfOk result (ReadsFor self.now.table.longest span base tally.new.scanned) }
    {
        let scan = &scan_in(self.prints);
        let owed = owed_by(scan);
        let (limit, bytes) = (self.table.limit()?, self.table.class_bytes());
        let classes = &bytes;
        let near = self.look_first(scan, classes, haystack, span, from, limit, tally)?;
        if let Some(begun) = near.first {
            return Ok(Some(begun));
        }
        let mut progress = near.progress;
        while let Some(block) = self.four_parts_at(span, progress.at, progress.part, owed) {
            let looked = self.look_on(
                classes, haystack, span, progress, block, owed, limit, tally,
            )?;
            if looked.first.is_some() {
                return Ok(looked.first);
            }
            progress = self.pass_on(scan, haystack, span, looked.progress, tally);
        }
        let rest = Span {
            start: progress.at,
            end: span.end,
        };
        self.first_in(classes, haystack, span, rest, 0, None, limit, tally)
    }
}

/// The most bytes that a pass by a scan looks up in addition to three times those that it passes over.
pub fn owed_by(scan: &Option<CandidateScan>) -> usize
    ensures { result ≡ owed_by scan.now }
{
    match scan {
        Some(_) => OVERLAP,
        None => 0,
    }
}

/// How many of the bytes that a scan passed over are credited: fewer if it reads far ahead.
pub fn credited(scan: &Option<CandidateScan>, passed: usize) -> usize
    ensures { result ≡ passed - (ahead_by scan.now - OVERLAP) / 2 }
{
    match scan {
        Some(scan) => passed.saturating_sub((scan.ahead() - OVERLAP) / 2),
        None => passed,
    }
}
