//! The scan by 32 bytes at a time.
ghost use Rattle.std.specs.Prelude.{◌≡◌, ◌≢◌, ℕ, ◌+◌, ◌-◌, ◌<◌, ◌≤◌, slice_index, take};
ghost use Rattle.literal_base.specs.Occurs.{IsValidSpan};
ghost use Rattle.literal_fingerprints.specs.FingerprintsValue.{FingerprintsMayStop, NoneBegins, shared_buckets};
ghost use Rattle.literal_fingerprints.specs.Inside.Lanes.{HasBack, HasLanes, HasWide};
ghost use Rattle.literal_fingerprints.specs.Inside.Scan.{HasPassed, IsLookedUp, NoneShared};
ghost use Rattle.literal_fingerprints.specs.Inside.Scan.{shared_highs, shared_lows};

use super::{Fingerprints, Passed};
use crate::buckets::LOOKED_AT;
use crate::looked_up::LookedUp;
use crate::wide::{
    WIDE, back_half, both_wide, by_high_wide, by_low_wide, load_wide, one_back_wide,
    three_back_wide, twice, two_back_wide, zeros_before_wide,
};
use literal_base::Span;
use literal_base::count::Tally;
use std::simd::prelude::*;

/// If the low halves of the tables have at most this many bits, few offsets pass by these halves alone.
const FEW_BITS: u32 = 60;

impl Fingerprints {
    /// Continues a scan from an offset. All bytes of the span before it are looked up, and `bytes` are the last of
    /// them.
    #[inline(never)]
    pub(super) fn next_far(
        self,
        bytes: u8x16,
        haystack: &[u8],
        from: usize,
        span: Span,
        tally: &mut Tally,
    ) -> usize
        requires valid { IsValidSpan haystack.now span }
        requires after { span.start + 16 ≤ from }
        requires inside { from ≤ span.end }
        requires bytes { HasLanes bytes (λ k. slice_index (take span.end haystack.now) (from - 16 + k)) }
        requires none { NoneShared self (take span.end haystack.now) span.start from }
        ensures inside { result ≤ span.end }
        ensures far { from ≤ result + 3 }
        ensures after { span.start ≤ result }
        ensures passed { NoneBegins self haystack.now span result }
        ensures stops { FingerprintsMayStop self haystack.now span result }
        ensures others { tally.new ≡ record tally.old { scanned = tally.new.scanned } }
        ensures once { tally.new.scanned ≤ tally.old.scanned + (span.end - from) }
        ensures read { tally.old.scanned + result ≤ tally.new.scanned + from }
        ensures counted { tally.new.scanned + from ≤ tally.old.scanned + result + 35 }
    {
        let far = self.pass_wide(bytes, haystack, from, span, tally);
        if far.stop < far.at {
            return far.stop - (LOOKED_AT - 1);
        }
        let tables = self.tables();
        let last = self.pass(tables, far.before, haystack, far.at, span.end, span, tally);
        if last.stop < last.at {
            return last.stop - (LOOKED_AT - 1);
        }
        self.rest(tables, last.before, haystack, last.at, span, tally)
    }

    /// Whether few offsets pass by the low halves alone.
    #[inline(always)]
    pub(super) fn has_few_bits(&self) -> bool {
        let front = self.first.low_bits().wrapping_add(self.second.low_bits());
        let back = self.third.low_bits().wrapping_add(self.fourth.low_bits());
        front.wrapping_add(back) <= FEW_BITS
    }

    /// Looks up 32 bytes at a time, while there are as many, or until a pattern may begin by its fingerprint. If the
    /// low halves of the tables let few offsets pass, the high halves are looked up only where four bytes share a
    /// bucket by the low ones. Each of both cases has its own loop.
    #[inline(always)]
    fn pass_wide(
        &self,
        bytes: u8x16,
        haystack: &[u8],
        from: usize,
        span: Span,
        tally: &mut Tally,
    ) -> Passed
        requires valid { IsValidSpan haystack.now span }
        requires after { span.start + 16 ≤ from }
        requires inside { from ≤ span.end }
        requires bytes { HasLanes bytes (λ k. slice_index (take span.end haystack.now) (from - 16 + k)) }
        requires none { NoneShared self.now (take span.end haystack.now) span.start from }
        ensures passed { HasPassed result self.now (take span.end haystack.now) span.start }
        ensures least { from ≤ result.stop }
        ensures most { result.at ≤ span.end }
        ensures near { result.at ≤ result.stop + 32 }
        ensures ticks { tally.new ≡ record tally.old { scanned = tally.old.scanned + (result.at - from) } }
    {
        if self.has_few_bits() {
            return self.pass_by(true, bytes, haystack, from, span, tally);
        }
        self.pass_by(false, bytes, haystack, from, span, tally)
    }

    /// The same by the low halves first, or by both at once.
    #[inline(always)]
    fn pass_by(
        &self,
        lows_first: bool,
        bytes: u8x16,
        haystack: &[u8],
        from: usize,
        span: Span,
        tally: &mut Tally,
    ) -> Passed
        requires valid { IsValidSpan haystack.now span }
        requires after { span.start + 16 ≤ from }
        requires inside { from ≤ span.end }
        requires bytes { HasLanes bytes (λ k. slice_index (take span.end haystack.now) (from - 16 + k)) }
        requires none { NoneShared self.now (take span.end haystack.now) span.start from }
        ensures passed { HasPassed result self.now (take span.end haystack.now) span.start }
        ensures least { from ≤ result.stop }
        ensures most { result.at ≤ span.end }
        ensures near { result.at ≤ result.stop + 32 }
        ensures ticks { tally.new ≡ record tally.old { scanned = tally.old.scanned + (result.at - from) } }
    {
        let mut before = twice(bytes);
        let mut at = from;
        let last = span.end.saturating_sub(WIDE);
        while at <= last {
            let here = load_wide(haystack, at, tally);
            let passed = self.zeros_before(lows_first, before, here);
            if passed < WIDE {
                return Passed {
                    at: at + WIDE,
                    stop: at + passed,
                    bytes,
                    before: LookedUp::before_span(),
                };
            }
            before = here;
            at += WIDE;
        }
        let bytes = back_half(before);
        Passed {
            at,
            stop: at,
            bytes,
            before: self.tables().look_up(bytes),
        }
    }

    /// How many of 32 bytes come before the first that ends four bytes with a shared bucket. The first three of the
    /// four may be in the 16 bytes before.
    #[inline(always)]
    fn zeros_before(&self, lows_first: bool, before: u8x32, here: u8x32) -> usize
        ensures few { result ≤ 32 }
        ensures zero { (text : ℕ → ℕ) → HasBack before text → HasWide here (λ k. text (16 + k))
            → (k : ℕ) → k < result → shared_buckets self.now (λ j. text (13 + k + j)) ≡ 0 }
        ensures stops { (text : ℕ → ℕ) → HasBack before text → HasWide here (λ k. text (16 + k))
            → result < 32 → shared_buckets self.now (λ j. text (13 + result + j)) ≢ 0 }
    {
        let lows = self.lows(before, here);
        if lows_first && zeros_before_wide(lows) == WIDE {
            return WIDE;
        }
        zeros_before_wide(both_wide(lows, self.highs(before, here)))
    }

    /// For each of 32 bytes, the buckets that it shares with the three bytes before, by the low halves.
    #[inline(always)]
    fn lows(&self, before: u8x32, here: u8x32) -> u8x32
        ensures { (text : ℕ → ℕ) → HasBack before text → HasWide here (λ k. text (16 + k))
            → HasWide result (λ k. shared_lows self.now (λ j. text (13 + k + j))) }
    {
        let first = by_low_wide(&self.first.low, three_back_wide(before, here));
        let second = by_low_wide(&self.second.low, two_back_wide(before, here));
        let third = by_low_wide(&self.third.low, one_back_wide(before, here));
        let fourth = by_low_wide(&self.fourth.low, here);
        both_wide(both_wide(first, second), both_wide(third, fourth))
    }

    /// The same by the high halves.
    #[inline(always)]
    fn highs(&self, before: u8x32, here: u8x32) -> u8x32
        ensures { (text : ℕ → ℕ) → HasBack before text → HasWide here (λ k. text (16 + k))
            → HasWide result (λ k. shared_highs self.now (λ j. text (13 + k + j))) }
    {
        let first = by_high_wide(&self.first.high, three_back_wide(before, here));
        let second = by_high_wide(&self.second.high, two_back_wide(before, here));
        let third = by_high_wide(&self.third.high, one_back_wide(before, here));
        let fourth = by_high_wide(&self.fourth.high, here);
        both_wide(both_wide(first, second), both_wide(third, fourth))
    }
}
