//! One byte in a span: where it is first, and how often it occurs.
ghost use Rattle.std.specs.Prelude.{◌≡◌, ◌≢◌, ◌+◌, ◌-◌, ◌<◌, ◌≤◌, ℕ, length, min, slice_index, slice_range, take};
ghost use Rattle.std.specs.List.{count_by};
ghost use Rattle.literal_base.specs.Occurs.{IsValidSpan};
ghost use Rattle.literal_fingerprints.specs.ShortPatterns.{is_byte};

use crate::lanes::{LANES, byte_at, load, load_rest, wanted, zeros_before};
use crate::wide::{WIDE, load_wide, wanted_wide, zeros_before_wide};
use literal_base::Span;
use literal_base::count::Tally;
use std::simd::prelude::*;

/// Returns the first offset of a span at which the haystack has this byte, or the span's end if there is none. The span
/// has to be valid. Each byte is read once, 32 at a time, so at most 31 bytes after the one that is found are read.
pub fn find_byte(haystack: &[u8], span: Span, byte: u8, tally: &mut Tally) -> usize
    requires { IsValidSpan haystack.now span }
    ensures inside { (span.start ≤ result) × (result ≤ span.end) }
    ensures none { (at : ℕ) → span.start ≤ at → at < result → slice_index haystack.now at ≢ byte }
    ensures found { result < span.end → slice_index haystack.now result ≡ byte }
    ensures others { tally.new ≡ record tally.old { scanned = tally.new.scanned } }
    ensures most { tally.new.scanned + span.start ≤ tally.old.scanned + min (result + 32) span.end }
    ensures least { tally.old.scanned + min (result + 1) span.end ≤ tally.new.scanned + span.start }
{
    let mut at = span.start;
    while span.end - at >= WIDE {
        let passed = zeros_before_wide(wanted_wide(load_wide(haystack, at, tally), byte, 0));
        if passed < WIDE {
            return at + passed;
        }
        at += WIDE;
    }
    find_in_last(haystack, at, span.end, byte, tally)
}

/// The same in the last bytes of a span, fewer than 32, from an offset on.
#[inline(always)]
fn find_in_last(haystack: &[u8], from: usize, end: usize, byte: u8, tally: &mut Tally) -> usize
    requires ordered { from ≤ end }
    requires few { end < from + 32 }
    requires inside { end ≤ length haystack.now }
    ensures inside { (from ≤ result) × (result ≤ end) }
    ensures none { (at : ℕ) → from ≤ at → at < result → slice_index haystack.now at ≢ byte }
    ensures found { result < end → slice_index haystack.now result ≡ byte }
    ensures others { tally.new ≡ record tally.old { scanned = tally.new.scanned } }
    ensures most { tally.new.scanned + from ≤ tally.old.scanned + min (result + 16) end }
    ensures least { tally.old.scanned + min (result + 1) end ≤ tally.new.scanned + from }
{
    if end - from < LANES {
        return find_in_rest(haystack, from, end, byte, tally);
    }
    let passed = zeros_before(wanted(load(haystack, from, tally), byte, 0));
    if passed < LANES {
        return from + passed;
    }
    find_in_rest(haystack, from + LANES, end, byte, tally)
}

/// The same in the last bytes of a span, fewer than 16.
#[inline(always)]
fn find_in_rest(haystack: &[u8], from: usize, end: usize, byte: u8, tally: &mut Tally) -> usize
    requires ordered { from ≤ end }
    requires few { end < from + 16 }
    requires inside { end ≤ length haystack.now }
    ensures inside { (from ≤ result) × (result ≤ end) }
    ensures none { (at : ℕ) → from ≤ at → at < result → slice_index haystack.now at ≢ byte }
    ensures found { result < end → slice_index haystack.now result ≡ byte }
    ensures ticks { tally.new ≡ record tally.old { scanned = tally.old.scanned + (end - from) } }
{
    let rest = load_rest(haystack, from, end, tally);
    (from + zeros_before(wanted(rest, byte, 0))).min(end)
}

/// Returns how many bytes of a span are this byte. The span has to be valid. Each byte is read once, 32 at a time.
pub fn count_byte(haystack: &[u8], span: Span, byte: u8, tally: &mut Tally) -> usize
    requires { IsValidSpan haystack.now span }
    ensures count { result ≡ count_by (is_byte byte) (slice_range haystack.now span.start span.end) }
    ensures ticks { tally.new
        ≡ record tally.old { scanned = tally.old.scanned + (span.end - span.start) } }
{
    let mut at = span.start;
    let mut count = 0;
    while span.end - at >= WIDE {
        count += count_in_wide(haystack, at, byte, tally);
        at += WIDE;
    }
    while at < span.end {
        count += (byte_at(haystack, at, tally) == byte) as usize;
        at += 1;
    }
    count
}

/// How many of 32 bytes, from an offset on, are this byte.
#[inline(always)]
fn count_in_wide(haystack: &[u8], at: usize, byte: u8, tally: &mut Tally) -> usize
    requires { at + 32 ≤ length haystack.now }
    ensures few { result ≤ 32 }
    ensures counted { result + count_by (is_byte byte) (take at haystack.now)
        ≡ count_by (is_byte byte) (take (at + 32) haystack.now) }
    ensures ticks { tally.new ≡ record tally.old { scanned = tally.old.scanned + 32 } }
{
    let here = load_wide(haystack, at, tally);
    let same = here.simd_eq(u8x32::splat(byte)).to_bitmask();
    same.count_ones() as usize
}
