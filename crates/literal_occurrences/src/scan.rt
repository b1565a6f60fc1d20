//! Passes over bytes where no pattern begins, by a scan for candidates or by four walks at once. [`pass_over`] and
//! [`can_pass`] decide which.
ghost use Rattle.std.specs.Prelude.{◌≡◌, ◌+◌, ◌-◌, ◌*◌, ◌<◌, ◌≤◌, ◌^◌};
ghost use Rattle.std.specs.Prelude.{IfOk, false, length, true};
ghost use Rattle.std.specs.Result.{IsOkAnd};
ghost use Rattle.literal_base.specs.Occurs.{IsValidSpan, between};
ghost use Rattle.literal_leftmost.specs.Prepared.{ArePrints, past_skipped};
ghost use Rattle.literal_occurrences.specs.Inside.Scan.{ForPatterns, IsNear, NoneBefore};
ghost use Rattle.literal_rows.specs.Inside.Walk.{classes_by};

use literal_base::Span;
use literal_base::count::Tally;
use literal_rows::array::{SCAN_LEN, scan_in};
use literal_rows::classes::CLASSES_LEN;
use literal_rows::damaged::Damaged;
use literal_rows::walk::Table;

// No answer depends on these constants, only the time.

/// The length of the first blocks of four walks, if no pattern is longer than half of it. Blocks double up to
/// `LAST_BLOCK`.
const FIRST_BLOCK: usize = 128;

/// A block of at least this length is not followed by a longer one.
const LAST_BLOCK: usize = 1024;

/// The least distance of one walk before a scan for candidates: half of what a scan reads in vain.
const NEAR: usize = 8;

/// How many blocks one walk covers before four walks begin, so that a near match costs no more than by one walk.
const BLOCKS_NEAR: usize = 3;

/// The largest pattern length with which four walks are used.
const LONGEST: usize = 1 << 16;

/// If a pass covers fewer bytes than this, the next walk before a pass is twice as long, at most `FARTHEST`.
const FEW: usize = 8;

/// The largest distance of one walk before bytes are passed over.
const FARTHEST: usize = 4096;

/// Whether bytes can be passed over: by a scan, or by four walks over enough bytes if no pattern is too long.
pub fn can_pass(table: &Table, by_scan: bool, bytes: usize) -> bool
    ensures { result ≡ true → by_scan ≡ false → table.now.longest ≤ LONGEST }
{
    by_scan || (table.longest <= LONGEST && bytes >= 3 * BLOCKS_NEAR * FIRST_BLOCK)
}

/// The least distance of one walk before bytes are passed over, with or without a scan.
pub fn nearest(table: &Table, by_scan: bool) -> usize
    ensures { IsNear table.now by_scan result }
{
    if by_scan {
        return NEAR;
    }
    let longest = if table.longest <= LONGEST {
        table.longest
    } else {
        0
    };
    BLOCKS_NEAR * FIRST_BLOCK.max(2 * longest)
}

/// Returns an offset in a span before which no pattern begins, by the scan for candidates that the numbers describe, if
/// there is one. It is not inlined, so its caller keeps values in registers.
#[inline(never)]
pub fn pass_over(
    table: &Table,
    prints: &[u32],
    haystack: &[u8],
    span: Span,
    near: usize,
    tally: &mut Tally,
) -> Result<usize, Damaged>
    requires classes { length table.now.classes.now ≡ 64 }
    requires prints { length prints.now ≡ SCAN_LEN }
    requires valid { IsValidSpan haystack.now span }
    requires some { 8 ≤ near }
    requires long { past_skipped prints.now ≡ 0 → 6 * table.now.longest ≤ near }
    requires short { near ≤ 6 * LONGEST }
    ensures none { ForPatterns table.now (λ patterns ignore_case. ArePrints patterns ignore_case prints.now
        → IsOkAnd result (NoneBefore patterns ignore_case haystack.now span)) }
    ensures inside { IfOk result (λ at. (span.start ≤ at) × (at ≤ span.end)) }
    ensures others { tally.new ≡ record tally.old { scanned = tally.new.scanned } }
    ensures most { tally.new.scanned ≤ tally.old.scanned + 2 * near + 3 * (span.end - span.start) }
    ensures counted { IfOk result (λ at. tally.new.scanned ≤ tally.old.scanned + 2 * near
        + 3 * (at - span.start)) }
    ensures grows { tally.old.scanned ≤ tally.new.scanned }
    ensures least { IfOk result (λ at. tally.old.scanned + at ≤ tally.new.scanned + span.start) }
{
    match scan_in(prints) {
        Some(scan) => Ok(scan.next(haystack, span, tally)),
        None => pass_blocks(table, haystack, span, near, tally),
    }
}

/// The same by four walks at once, through blocks that grow.
#[inline(always)]
fn pass_blocks(
    table: &Table,
    haystack: &[u8],
    span: Span,
    near: usize,
    tally: &mut Tally,
) -> Result<usize, Damaged>
    requires classes { length table.now.classes.now ≡ 64 }
    requires valid { IsValidSpan haystack.now span }
    requires some { BLOCKS_NEAR ≤ near }
    requires long { 6 * table.now.longest ≤ near }
    requires short { near ≤ 6 * LONGEST }
    ensures none { ForPatterns table.now (λ patterns ignore_case. IsOkAnd result
        (NoneBefore patterns ignore_case haystack.now span)) }
    ensures inside { IfOk result (λ at. (span.start ≤ at) × (at ≤ span.end)) }
    ensures others { tally.new ≡ record tally.old { scanned = tally.new.scanned } }
    ensures most { tally.new.scanned ≤ tally.old.scanned + 2 * near + 3 * (span.end - span.start) }
    ensures counted { IfOk result (λ at. tally.new.scanned ≤ tally.old.scanned + 2 * near
        + 3 * (at - span.start)) }
    ensures grows { tally.old.scanned ≤ tally.new.scanned }
    ensures least { IfOk result (λ at. tally.old.scanned + at ≤ tally.new.scanned + span.start) }
{
    let (limit, classes) = (table.limit()?, table.class_bytes());
    let (mut at, mut block) = (span.start, near / BLOCKS_NEAR);
    // (the last walk goes on after the four blocks, by less than a block)
    while 5 * block <= span.end - at
        && none_begins(table, &classes, haystack, at, block, limit, tally)
    {
        at += 4 * block;
        block = if block < LAST_BLOCK { 2 * block } else { block };
    }
    Ok(at)
}

/// Whether no pattern begins in the four blocks from an offset on.
#[inline(always)]
fn none_begins(
    table: &Table,
    classes: &[u8; 256],
    haystack: &[u8],
    at: usize,
    block: usize,
    limit: usize,
    tally: &mut Tally,
) -> bool
    requires same { classes.now ≡ classes_by table.now }
    requires some { 0 < limit }
    requires limit { limit ≤ 2 ^ 31 }
    requires within { limit + CLASSES_LEN ≤ length table.now.rows.now }
    requires inside { at + 4 * block + table.now.longest ≤ length haystack.now }
    ensures none { result ≡ true → ForPatterns table.now (λ patterns ignore_case.
        NoneBefore patterns ignore_case haystack.now (between at (length haystack.now)) (at + 4 * block)) }
    ensures others { tally.new ≡ record tally.old { scanned = tally.new.scanned } }
    ensures grows { tally.old.scanned ≤ tally.new.scanned }
    ensures most { tally.new.scanned ≤ tally.old.scanned + 4 * (block + table.now.longest) }
    ensures all { result ≡ true → tally.new.scanned ≡ tally.old.scanned + 4 * (block + table.now.longest) }
{
    table.none_in_four(classes, haystack, at, block, limit, tally)
}

/// The distance of the next walk before bytes are passed over, from the distance of the last one and the number of
/// bytes passed over since.
pub fn farther(nearest: usize, near: usize, passed: usize) -> usize
    ensures least { nearest ≤ result }
    ensures short { near ≤ 6 * LONGEST → nearest ≤ 6 * LONGEST → result ≤ 6 * LONGEST }
{
    let farther = if passed < FEW {
        FARTHEST.min(near.saturating_mul(2))
    } else {
        near / 2
    };
    nearest.max(farther)
}
