//! Walks through the rows of an automaton. Lent numbers may be wrong: if one points outside the rows, the answer is
//! `Damaged`.
ghost use Rattle.std.specs.Prelude.{◌≡◌, ◌⊎◌, ◌+◌, ◌-◌, ◌*◌, ◌<◌, ◌≤◌, ◌^◌};
ghost use Rattle.std.specs.Prelude.{IfOk, MatchResult, length, min, slice_index, true};
ghost use Rattle.std.specs.Result.{IsOkAnd};
ghost use Rattle.literal_base.specs.Occurs.{IsValidSpan};
ghost use Rattle.literal_rows.specs.Inside.Classes.{AreClasses};
ghost use Rattle.literal_rows.specs.Inside.Walk.{NoneInFour, Reaches, ReachesWithin};
ghost use Rattle.literal_rows.specs.Inside.Walk.{ReadsTo, classes_by, rows_by};

use crate::classes::{CLASSES_LEN, PACKED_LEN};
use crate::damaged::Damaged;
use crate::packed::unpack;
use literal_base::Span;
use literal_base::count::Tally;

/// The last number of a row if no pattern ends with the state's word.
pub const NOTHING: u32 = u32::MAX;

/// The bit that is set in a number for a state if a pattern ends with the state's word.
pub const ENDS: u32 = 1 << 31;

/// The position of a walk: the index of its row, and the offset up to which it has read.
#[derive(Clone, Copy)]
pub struct WalkEnd {
    pub row: usize,
    pub end: usize,
}

/// The result of a walk that looks for the end of a pattern.
#[derive(Clone, Copy)]
pub enum Reached {
    /// The first position at which a pattern ends.
    Ends(WalkEnd),
    /// The offset at which the walk is back in the start state.
    Back(usize),
    /// The end of the span.
    Nowhere,
}

/// The numbers of an automaton.
#[derive(Clone, Copy)]
pub struct Table<'t> {
    /// The class of each byte: [`PACKED_LEN`] numbers.
    pub classes: &'t [u32],
    /// The number of classes.
    pub width: usize,
    /// A row for each state, and [`CLASSES_LEN`] more numbers, so that any class can be looked up in any row.
    pub rows: &'t [u32],
    /// The length of the longest pattern.
    pub longest: usize,
}

impl<'t> Table<'t> {
    /// The bound for the indices of rows. After every index below it there is a number for any class. It is at most
    /// [`ENDS`]. So one comparison of a number with it tests for both: that a pattern ends, and that the number is
    /// damaged.
    #[inline(always)]
    pub fn limit(&self) -> Result<usize, Damaged>
        ensures { MatchResult result
            (λ limit. (0 < limit) × (limit ≤ 2 ^ 31) × (limit ≡ min (length (rows_by self.now)) (2 ^ 31))
            × (limit + CLASSES_LEN ≤ length self.now.rows.now))
            (λ _. length (rows_by self.now) ≡ 0) }
    {
        if self.rows.len() <= CLASSES_LEN {
            return Err(Damaged);
        }
        Ok((self.rows.len() - CLASSES_LEN).min(ENDS as usize))
    }

    /// The number for a byte of the haystack in the row at an index; this counts as scanned. The slice from the class
    /// on is made before the index is known. So a walk waits for one look-up for each byte, and for no sum.
    #[inline(always)]
    pub fn code_at(&self, row: usize, haystack: &[u8], at: usize, tally: &mut Tally) -> u32
        requires classes { length self.now.classes.now ≡ 64 }
        requires inside { at < length haystack.now }
        requires within { row + CLASSES_LEN ≤ length self.now.rows.now }
        ensures number { AreClasses (classes_by self.now) self.now.width
            → row + self.now.width < length (rows_by self.now) → result ≡ slice_index (rows_by self.now)
            (row + slice_index (classes_by self.now) (slice_index haystack.now at)) }
        ensures ticks { tally.new ≡ record tally.old { scanned = tally.old.scanned + 1 } }
    {
        tally.tick_scanned();
        self.code_for(row, haystack[at])
    }

    /// The number for a byte in the row at an index.
    #[inline(always)]
    pub fn code_for(&self, row: usize, byte: u8) -> u32
        requires classes { length self.now.classes.now ≡ 64 }
        requires within { row + CLASSES_LEN ≤ length self.now.rows.now }
        ensures { AreClasses (classes_by self.now) self.now.width
            → row + self.now.width < length (rows_by self.now) → result ≡ slice_index (rows_by self.now)
            (row + slice_index (classes_by self.now) byte) }
    {
        let byte = byte as usize;
        let class = (self.classes[byte / 4] >> (8 * (byte % 4))) % 256;
        self.rows[class as usize..][row]
    }

    /// The pattern that ends with the state whose row is at an index. A lent width may point outside the rows.
    #[inline(always)]
    pub fn ending_at(&self, row: usize) -> Result<u32, Damaged>
        ensures { row + self.now.width < length (rows_by self.now)
            → IsOkAnd result (λ pattern. pattern ≡ slice_index (rows_by self.now) (row + self.now.width)) }
    {
        let at = row.saturating_add(self.width);
        let pattern = self.rows.get(at).ok_or(Damaged)?;
        Ok(*pattern)
    }

    /// Walks from a row through a span until a pattern ends, or until the walk is back in the start state, past the
    /// offset `least`.
    #[inline(never)]
    pub fn reach(
        &self,
        haystack: &[u8],
        from: usize,
        span: Span,
        least: usize,
        tally: &mut Tally,
    ) -> Result<Reached, Damaged>
        requires classes { length self.now.classes.now ≡ 64 }
        requires valid { IsValidSpan haystack.now span }
        ensures reaches { AreClasses (classes_by self.now) self.now.width
            → Reaches self.now.width (rows_by self.now) from (classes_by self.now) haystack.now span result }
        ensures inside { IfOk result (ReachesWithin span least) }
        ensures others { tally.new ≡ record tally.old { scanned = tally.new.scanned } }
        ensures grows { tally.old.scanned ≤ tally.new.scanned }
        ensures once { tally.new.scanned ≤ tally.old.scanned + (span.end - span.start) }
        ensures counted { IfOk result (ReadsTo span (tally.new.scanned - tally.old.scanned)) }
    {
        let limit = self.limit()?;
        if from >= limit {
            return Err(Damaged);
        }
        let mut row = from;
        for at in span.start..span.end {
            let code = self.code_at(row, haystack, at, tally);
            // (0 is the number for the start state: no pattern that ends later has begun yet)
            if at >= least && code == 0 {
                return Ok(Reached::Back(at + 1));
            }
            if code as usize >= limit {
                let row = row_at_end(code, limit)?;
                return Ok(Reached::Ends(WalkEnd { row, end: at + 1 }));
            }
            row = code as usize;
        }
        Ok(Reached::Nowhere)
    }

    /// Whether nothing occurs in any of four spans, one block apart, each as long as a block plus the longest pattern.
    /// Four walks run at once, so that no look-up waits for another. If a number points outside the rows, it is
    /// `false`.
    #[inline(never)]
    pub fn none_in_four(
        &self,
        classes: &[u8; 256],
        haystack: &[u8],
        at: usize,
        block: usize,
        limit: usize,
        tally: &mut Tally,
    ) -> bool
        requires same { classes.now ≡ classes_by self.now }
        requires some { 0 < limit }
        requires limit { limit ≤ 2 ^ 31 }
        requires within { limit + CLASSES_LEN ≤ length self.now.rows.now }
        requires inside { at + 4 * block + self.now.longest ≤ length haystack.now }
        ensures none { result ≡ true → AreClasses (classes_by self.now) self.now.width
            → NoneInFour self.now haystack.now at block (block + self.now.longest) }
        ensures others { tally.new ≡ record tally.old { scanned = tally.new.scanned } }
        ensures grows { tally.old.scanned ≤ tally.new.scanned }
        ensures most { tally.new.scanned ≤ tally.old.scanned + 4 * (block + self.now.longest) }
        ensures all { result ≡ true → tally.new.scanned ≡ tally.old.scanned + 4 * (block + self.now.longest) }
    {
        let (mut first, mut second, mut third, mut fourth) = (0, 0, 0, 0);
        for step in 0..block + self.longest {
            let here = at + step;
            first = self.next_at(classes, first, haystack, here, tally);
            if first >= limit {
                return false;
            }
            second = self.next_at(classes, second, haystack, here + block, tally);
            if second >= limit {
                return false;
            }
            third = self.next_at(classes, third, haystack, here + 2 * block, tally);
            if third >= limit {
                return false;
            }
            fourth = self.next_at(classes, fourth, haystack, here + 3 * block, tally);
            if fourth >= limit {
                return false;
            }
        }
        true
    }

    /// The class of each byte, as bytes. Any further step per look-up would slow down four walks at once.
    #[inline(always)]
    pub fn class_bytes(&self) -> [u8; 256]
        requires { length self.now.classes.now ≡ 64 }
        ensures { result ≡ classes_by self.now }
    {
        let mut bytes = [0; 256];
        unpack(&self.classes[..PACKED_LEN], &mut bytes);
        bytes
    }

    /// Like [`Table::code_by`], to be compared with an index.
    #[inline(always)]
    pub fn next_at(
        &self,
        classes: &[u8; 256],
        row: usize,
        haystack: &[u8],
        at: usize,
        tally: &mut Tally,
    ) -> usize
        requires same { classes.now ≡ classes_by self.now }
        requires inside { at < length haystack.now }
        requires within { row + CLASSES_LEN ≤ length self.now.rows.now }
        ensures number { AreClasses (classes_by self.now) self.now.width
            → row + self.now.width < length (rows_by self.now) → result ≡ slice_index (rows_by self.now)
            (row + slice_index (classes_by self.now) (slice_index haystack.now at)) }
        ensures fits { result < 2 ^ 32 }
        ensures ticks { tally.new ≡ record tally.old { scanned = tally.old.scanned + 1 } }
    {
        self.code_by(classes, row, haystack, at, tally) as usize
    }

    /// Like [`Table::code_at`], with the classes as bytes.
    #[inline(always)]
    pub fn code_by(
        &self,
        classes: &[u8; 256],
        row: usize,
        haystack: &[u8],
        at: usize,
        tally: &mut Tally,
    ) -> u32
        requires same { classes.now ≡ classes_by self.now }
        requires inside { at < length haystack.now }
        requires within { row + CLASSES_LEN ≤ length self.now.rows.now }
        ensures number { AreClasses (classes_by self.now) self.now.width
            → row + self.now.width < length (rows_by self.now) → result ≡ slice_index (rows_by self.now)
            (row + slice_index (classes_by self.now) (slice_index haystack.now at)) }
        ensures ticks { tally.new ≡ record tally.old { scanned = tally.old.scanned + 1 } }
    {
        let class = class_by(classes, haystack, at, tally);
        self.rows[class..][row]
    }
}

/// The class of a byte of the haystack; this counts as scanned.
#[inline(always)]
pub fn class_by(classes: &[u8; 256], haystack: &[u8], at: usize, tally: &mut Tally) -> usize
    requires { at < length haystack.now }
    ensures class { result ≡ slice_index classes.now (slice_index haystack.now at) }
    ensures small { result < 256 }
    ensures ticks { tally.new ≡ record tally.old { scanned = tally.old.scanned + 1 } }
{
    tally.tick_scanned();
    classes[haystack[at] as usize] as usize
}

/// The index of the row to which a number leads that says that a match ends.
#[inline(always)]
pub fn row_at_end(code: u32, limit: usize) -> Result<usize, Damaged>
    ensures { MatchResult result (λ row. (2 ^ 31 ≤ code) × (row ≡ code - 2 ^ 31) × (row < limit))
        (λ _. (code < 2 ^ 31) ⊎ (2 ^ 31 + limit ≤ code)) }
{
    if code < ENDS || (code - ENDS) as usize >= limit {
        return Err(Damaged);
    }
    Ok((code - ENDS) as usize)
}
