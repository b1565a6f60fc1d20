//! Counts every occurrence: by one walk that passes over bytes, or, where occurrences are frequent, by four walks at
//! once.
ghost use Rattle.std.specs.Prelude.{◌≡◌, ◌+◌, ◌-◌, ◌*◌, ◌<◌, ◌≤◌, ◌^◌, IfOk, ℕ, length};
ghost use Rattle.std.specs.Result.{IsOkAnd};
ghost use Rattle.literal_base.specs.Occurs.{IsValidSpan};
ghost use Rattle.literal_base.specs.declared.search.Span.{Span};
ghost use Rattle.literal_occurrences.specs.Overlapping.{IsOverlappingCount, OverlappingValue};
ghost use Rattle.literal_occurrences.specs.Inside.Count.{AreAfter, CountsBetween, HasCounted, IsAfter, IsFour, IsWalk};
ghost use Rattle.literal_occurrences.specs.Inside.Count.{IsRowLimit, IsListedAt, IsWalking};
ghost use Rattle.literal_occurrences.specs.Inside.LentTables.{AreFor, AreLent, tables_by};
ghost use Rattle.literal_leftmost.specs.Inside.Leftmost.{HaveRows};
ghost use Rattle.literal_rows.specs.Inside.Packed.{unpacked};

use crate::position::Position;
use crate::prepared_overlapping::LentTables;
use literal_base::Span;
use literal_base::count::Tally;
use literal_leftmost::lanes::Lanes;
use literal_rows::damaged::Damaged;
use literal_rows::walk::{ENDS, row_at_end};

/// The length of each of the four parts of a block, if no pattern is longer.
const PART: usize = 1024;

/// How many ends one walk looks for before it is decided how the count goes on.
const FEW_ENDS: usize = 32;

/// Occurrences are frequent if one ends on average within this many bytes: then four walks that count are faster than
/// one that passes over the bytes between them.
const FREQUENT: u128 = 4096;

/// The same if bytes are passed over by a scan for candidates.
const FREQUENT_BY_SCAN: u128 = 96;

/// The progress of a count: the walk has read up to the offset, and counted the occurrences that end at it or before.
#[derive(Clone, Copy)]
pub struct Counted {
    pub at: usize,
    /// The index of the row of the walk's state.
    pub row: usize,
    pub count: u128,
}

impl Counted {
    /// Whether on average at least one occurrence in so many bytes ended since `earlier`.
    fn has_one_within(&self, bytes: u128, earlier: &Counted) -> bool {
        let passed = self.at.saturating_sub(earlier.at) as u128;
        let count = self.count.saturating_sub(earlier.count);
        count.saturating_mul(bytes) >= passed
    }
}

impl<'p> LentTables<'p> {
    /// The number of all occurrences in a span, or [`Damaged`] if a number of the array points outside its parts.
    pub fn count_in(&self, haystack: &[u8], span: Span, tally: &mut Tally) -> Result<u128, Damaged>
        requires lent { AreLent self.now }
        requires valid { IsValidSpan haystack.now span }
        ensures prepared { (search : OverlappingValue) → AreFor search self.now → IsOkAnd result
            (IsOverlappingCount search.patterns search.ignore_case haystack.now span) }
        ensures others { tally.new ≡ record tally.old { scanned = tally.new.scanned } }
        ensures most { tally.new.scanned ≤ tally.old.scanned + 3 * (span.end - span.start) }
        ensures least { IfOk result (λ _. tally.old.scanned + (span.end - span.start) ≤ tally.new.scanned) }
    {
        let classes = self.table().class_bytes();
        let frequent = if self.prints[0] > 0 {
            FREQUENT_BY_SCAN
        } else {
            FREQUENT
        };
        let mut in_four = false;
        let mut counted = Counted {
            at: span.start,
            row: 0,
            count: 0,
        };
        while counted.at < span.end {
            let next = self.count_on(&classes, haystack, span, counted, in_four, tally)?;
            in_four = next.has_one_within(frequent, &counted);
            counted = next;
        }
        Ok(counted.count)
    }

    /// Goes on by four walks, if they are wanted and the span has room for them, otherwise by one.
    fn count_on(
        &self,
        classes: &[u8; 256],
        haystack: &[u8],
        span: Span,
        from: Counted,
        in_four: bool,
        tally: &mut Tally,
    ) -> Result<Counted, Damaged>
        requires lent { AreLent self.now }
        requires same { classes.now ≡ unpacked self.now.header.classes.now }
        requires valid { IsValidSpan haystack.now span }
        requires walking { IsWalking span from }
        requires before { from.at < span.end }
        ensures prepared { (search : OverlappingValue) → AreFor search self.now
            → HasCounted (tables_by search self.now) haystack.now span from
            → IsOkAnd result (HasCounted (tables_by search self.now) haystack.now span) }
        ensures on { IfOk result (λ to. IsWalking span to × (from.at < to.at)) }
        ensures others { tally.new ≡ record tally.old { scanned = tally.new.scanned } }
        ensures most { tally.new.scanned + 3 * from.at ≤ tally.old.scanned + 3 * span.end }
        ensures counted { IfOk result (λ to. (tally.old.scanned + to.at ≤ tally.new.scanned + from.at)
            × (tally.new.scanned + 3 * from.at ≤ tally.old.scanned + 3 * to.at)) }
    {
        let part = self.header.longest.max(PART);
        if in_four && part <= (span.end - from.at) / 4 {
            return self.count_in_four(classes, haystack, span, from, part, tally);
        }
        self.count_in_one(haystack, span, from, tally)
    }

    /// Goes on by one walk, up to some ends of occurrences, or to the end of the span.
    fn count_in_one(
        &self,
        haystack: &[u8],
        span: Span,
        from: Counted,
        tally: &mut Tally,
    ) -> Result<Counted, Damaged>
        requires lent { AreLent self.now }
        requires valid { IsValidSpan haystack.now span }
        requires walking { IsWalking span from }
        requires before { from.at < span.end }
        ensures prepared { (search : OverlappingValue) → AreFor search self.now
            → HasCounted (tables_by search self.now) haystack.now span from
            → IsOkAnd result (HasCounted (tables_by search self.now) haystack.now span) }
        ensures on { IfOk result (λ to. IsWalking span to × (from.at < to.at)) }
        ensures others { tally.new ≡ record tally.old { scanned = tally.new.scanned } }
        ensures most { tally.new.scanned + 3 * from.at ≤ tally.old.scanned + 3 * span.end }
        ensures counted { IfOk result (λ to. (tally.old.scanned + to.at ≤ tally.new.scanned + from.at)
            × (tally.new.scanned + 3 * from.at ≤ tally.old.scanned + 3 * to.at)) }
    {
        let mut counted = from;
        for _end in 0..FEW_ENDS {
            let position = self.after_end(span, counted);
            let Some(here) = self.next_end(haystack, span, position, tally)? else {
                counted.at = span.end;
                return Ok(counted);
            };
            let listed = here.end.saturating_sub(here.next);
            counted = Counted {
                at: here.at,
                row: here.row,
                count: counted.count + listed as u128,
            };
        }
        Ok(counted)
    }

    /// The position after all occurrences that end where a count is.
    fn after_end(&self, span: Span, counted: Counted) -> Position
        requires walking { IsWalking span counted }
        ensures { result ≡ record {
          at = counted.at;
          row = counted.row;
          pattern = length self.now.header.lengths.now;
          next = 0;
          end = 0;
        } }
    {
        prove!(span.start <= counted.at);
        Position {
            at: counted.at,
            row: counted.row,
            pattern: self.header.lengths.len(),
            next: 0,
            end: 0,
        }
    }

    /// Goes on by four walks, each through one of four adjacent parts.
    fn count_in_four(
        &self,
        classes: &[u8; 256],
        haystack: &[u8],
        span: Span,
        from: Counted,
        part: usize,
        tally: &mut Tally,
    ) -> Result<Counted, Damaged>
        requires lent { AreLent self.now }
        requires same { classes.now ≡ unpacked self.now.header.classes.now }
        requires valid { IsValidSpan haystack.now span }
        requires walking { IsWalking span from }
        requires four { IsFour self.now.header.longest span from.at part }
        ensures prepared { (search : OverlappingValue) → AreFor search self.now
            → HasCounted (tables_by search self.now) haystack.now span from
            → IsOkAnd result (HasCounted (tables_by search self.now) haystack.now span) }
        ensures on { IfOk result (λ to. IsWalking span to × (to.at ≡ from.at + 4 * part)) }
        ensures others { tally.new ≡ record tally.old { scanned = tally.new.scanned } }
        ensures most { tally.new.scanned ≤ tally.old.scanned + 12 * part }
        ensures least { IfOk result (λ _. tally.old.scanned + 4 * part ≤ tally.new.scanned) }
    {
        let limit = self.header.table().limit()?;
        if from.row >= limit {
            return Err(Damaged);
        }
        let lanes = self.lead_in_three(classes, haystack, span, from, part, limit, tally)?;
        self.count_parts(classes, haystack, span, from, part, lanes, limit, tally)
    }

    /// The rows of three walks at the starts of the second, third and fourth part. Each begins far enough before its
    /// part for the longest pattern.
    #[inline(never)]
    fn lead_in_three(
        &self,
        classes: &[u8; 256],
        haystack: &[u8],
        span: Span,
        from: Counted,
        part: usize,
        limit: usize,
        tally: &mut Tally,
    ) -> Result<Lanes, Damaged>
        requires same { classes.now ≡ unpacked self.now.header.classes.now }
        requires valid { IsValidSpan haystack.now span }
        requires walking { IsWalking span from }
        requires four { IsFour self.now.header.longest span from.at part }
        requires limit { IsRowLimit self.now limit }
        requires row { from.row < limit }
        ensures prepared { (search : OverlappingValue) → AreFor search self.now
            → IsAfter (tables_by search self.now) haystack.now span from.at from.row
            → IsOkAnd result (AreAfter (tables_by search self.now) haystack.now span from.at part 0) }
        ensures rows { IfOk result (HaveRows limit) }
        ensures others { tally.new ≡ record tally.old { scanned = tally.new.scanned } }
        ensures grows { tally.old.scanned ≤ tally.new.scanned }
        ensures most { tally.new.scanned ≤ tally.old.scanned + 3 * part }
    {
        let lead = self.header.longest.saturating_sub(1);
        let (mut second, mut third, mut fourth) = (0, 0, 0);
        for step in 0..lead {
            let here = from.at + part - lead + step;
            second = self.step(classes, second, haystack, here, limit, tally)?;
            third = self.step(classes, third, haystack, here + part, limit, tally)?;
            fourth = self.step(classes, fourth, haystack, here + 2 * part, limit, tally)?;
        }
        Ok(Lanes {
            first: from.row,
            second,
            third,
            fourth,
        })
    }

    /// The count after four adjacent parts. The walks are at the starts of the parts.
    #[inline(never)]
    fn count_parts(
        &self,
        classes: &[u8; 256],
        haystack: &[u8],
        span: Span,
        from: Counted,
        part: usize,
        lanes: Lanes,
        limit: usize,
        tally: &mut Tally,
    ) -> Result<Counted, Damaged>
        requires same { classes.now ≡ unpacked self.now.header.classes.now }
        requires valid { IsValidSpan haystack.now span }
        requires walking { IsWalking span from }
        requires four { IsFour self.now.header.longest span from.at part }
        requires limit { IsRowLimit self.now limit }
        requires rows { HaveRows limit lanes }
        ensures prepared { (search : OverlappingValue) → AreFor search self.now
            → HasCounted (tables_by search self.now) haystack.now span from
            → AreAfter (tables_by search self.now) haystack.now span from.at part 0 lanes
            → IsOkAnd result (HasCounted (tables_by search self.now) haystack.now span) }
        ensures on { IfOk result (λ to. IsWalking span to × (to.at ≡ from.at + 4 * part)) }
        ensures others { tally.new ≡ record tally.old { scanned = tally.new.scanned } }
        ensures most { tally.new.scanned ≤ tally.old.scanned + 4 * part }
        ensures least { IfOk result (λ _. tally.new.scanned ≡ tally.old.scanned + 4 * part) }
    {
        let (mut first, mut second, mut third, mut fourth) = (
            lanes.first,
            lanes.second,
            lanes.third,
            lanes.fourth,
        );
        let mut count = from.count;
        for step in 0..part {
            let here = from.at + step;
            first = self.count_at(classes, first, haystack, here, limit, &mut count, tally)?;
            let here = here + part;
            second = self.count_at(classes, second, haystack, here, limit, &mut count, tally)?;
            let here = here + part;
            third = self.count_at(classes, third, haystack, here, limit, &mut count, tally)?;
            let here = here + part;
            fourth = self.count_at(classes, fourth, haystack, here, limit, &mut count, tally)?;
        }
        Ok(Counted {
            at: from.at + 4 * part,
            row: fourth,
            count,
        })
    }

    /// The row of a walk after one more byte.
    #[inline(always)]
    fn step(
        &self,
        classes: &[u8; 256],
        row: usize,
        haystack: &[u8],
        at: usize,
        limit: usize,
        tally: &mut Tally,
    ) -> Result<usize, Damaged>
        requires same { classes.now ≡ unpacked self.now.header.classes.now }
        requires limit { IsRowLimit self.now limit }
        requires row { row < limit }
        requires inside { at < length haystack.now }
        ensures prepared { (search : OverlappingValue) → AreFor search self.now → (span : Span) (start here to : ℕ)
            → IsValidSpan haystack.now span → at < span.end → here ≡ at → to ≡ at + 1
            → IsWalk (tables_by search self.now) haystack.now span start here row
            → IsOkAnd result (IsWalk (tables_by search self.now) haystack.now span start to) }
        ensures row { IfOk result (λ next. next < limit) }
        ensures ticks { tally.new ≡ record tally.old { scanned = tally.old.scanned + 1 } }
    {
        let table = self.header.table();
        let code = table.code_by(classes, row, haystack, at, tally);
        let next = (code % ENDS) as usize;
        if next >= limit {
            return Err(Damaged);
        }
        Ok(next)
    }

    /// The row of a walk after one more byte; what ends after the byte is counted.
    #[inline(always)]
    fn count_at(
        &self,
        classes: &[u8; 256],
        row: usize,
        haystack: &[u8],
        at: usize,
        limit: usize,
        count: &mut u128,
        tally: &mut Tally,
    ) -> Result<usize, Damaged>
        requires same { classes.now ≡ unpacked self.now.header.classes.now }
        requires limit { IsRowLimit self.now limit }
        requires row { row < limit }
        requires inside { at < length haystack.now }
        requires room { count.old + 2 ^ 64 ≤ 2 ^ 128 }
        ensures prepared { (search : OverlappingValue) → AreFor search self.now → (span : Span) (here to : ℕ)
            → IsValidSpan haystack.now span → span.start ≤ at → at < span.end → here ≡ at → to ≡ at + 1
            → IsAfter (tables_by search self.now) haystack.now span here row
            → IsOkAnd result (λ next. IsAfter (tables_by search self.now) haystack.now span to next
            × CountsBetween search haystack.now span here to (count.new - count.old)) }
        ensures grows { (count.old ≤ count.new) × (count.new + 1 ≤ count.old + 2 ^ 64) }
        ensures row { IfOk result (λ next. next < limit) }
        ensures ticks { tally.new ≡ record tally.old { scanned = tally.old.scanned + 1 } }
    {
        let table = self.header.table();
        let code = table.code_by(classes, row, haystack, at, tally);
        if (code as usize) < limit {
            return Ok(code as usize);
        }
        let next = row_at_end(code, limit)?;
        *count += self.listed_at(next)? as u128;
        Ok(next)
    }

    /// The number of patterns in the list of the state whose row is at an index.
    #[inline(always)]
    fn listed_at(&self, row: usize) -> Result<usize, Damaged>
        ensures { (search : OverlappingValue) → IsListedAt (tables_by search self.now) row result }
    {
        let longest = self.header.table().ending_at(row)? as usize;
        let start = *self.starts.get(longest).ok_or(Damaged)? as usize;
        let end = *self.starts.get(longest + 1).ok_or(Damaged)? as usize;
        Ok(end.saturating_sub(start))
    }
}
