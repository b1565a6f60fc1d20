//! Tables of the first bytes of patterns, and the scan by them.
ghost use Rattle.std.specs.Prelude.{◌≡◌, ℕ, ◌+◌, ◌-◌, ◌*◌, ◌%◌, ◌<◌, ◌≤◌, List, IfSome, IsTrue};
ghost use Rattle.std.specs.Prelude.{[], length, map, slice_index, slice_index_or, take};
ghost use Rattle.literal_base.specs.Occurs.{IsValidSpan};
ghost use Rattle.literal_fingerprints.specs.CandidateScans.{without_first};
ghost use Rattle.literal_fingerprints.specs.FingerprintsValue.{AllPass, FingerprintsMayStop, LetsPass};
ghost use Rattle.literal_fingerprints.specs.FingerprintsValue.{NoneBegins, fingerprints_in};
ghost use Rattle.literal_fingerprints.specs.Inside.Lanes.{HasLanes};
ghost use Rattle.literal_fingerprints.specs.Inside.Nibbles.{halves_of};
ghost use Rattle.literal_fingerprints.specs.Inside.Scan.{AreTables, HasPassed, IsLookedUp, NoneShared};

mod far;

use crate::both_nibbles::joined_halves;
use crate::buckets::{Buckets, LOOKED_AT, after_skipped};
use crate::lanes::{LANES, first_set, load, load_rest, zeros_before};
use crate::looked_up::{LookedUp, Tables};
use crate::nibbles::{HALVES, Nibbles};
use crate::wide::WIDE;
use literal_base::Span;
use literal_base::count::Tally;
use std::marker::Model;
use std::simd::prelude::*;

/// The largest number of patterns with fingerprints.
const MOST_PATTERNS: usize = 64;

/// The first bytes of a span are looked up 16 at a time. 32 at a time would take longer there.
const NEAR: usize = 128;

/// The size of fingerprints in bytes.
pub const BYTES: usize = 8 * HALVES;

/// The fingerprints of a list of patterns. By the first four bytes of each, or all of a shorter one, a scan finds the
/// offsets of a haystack at which one of them may begin. Contracts see the tables.
#[derive(Clone, Copy)]
pub struct Fingerprints {
    first: Nibbles,
    second: Nibbles,
    third: Nibbles,
    fourth: Nibbles,
}

/// The progress of a scan.
#[derive(Clone, Copy)]
struct Passed {
    /// All bytes before this offset are looked up.
    at: usize,
    /// The offset of the last of the first four bytes that share a bucket, or `at` if there are none.
    stop: usize,
    /// The last 16 bytes that were looked up, unless the scan stops.
    bytes: u8x16,
    /// The buckets of the last 16 bytes, unless the scan stops.
    before: LookedUp,
}

impl Model for Fingerprints {
    ghost use Rattle.literal_fingerprints.specs.FingerprintsValue.{FingerprintsValue};
    ghost use Rattle.literal_fingerprints.specs.Inside.Nibbles.{half_table};

    ghost Value = { FingerprintsValue };

    ghost view = { λ f. record {
      first = half_table f.first;
      second = half_table f.second;
      third = half_table f.third;
      fourth = half_table f.fourth;
    } };

    ghost inverse = { λ f. record {
      first = record { low = f.first.low; high = f.first.high };
      second = record { low = f.second.low; high = f.second.high };
      third = record { low = f.third.low; high = f.third.high };
      fourth = record { low = f.fourth.low; high = f.fourth.high };
    } };
}

impl Fingerprints {
    /// Returns the fingerprints of some patterns without their first bytes, of which so many are skipped. There are
    /// none if there is no pattern, one that has no more bytes, or more than 64, or if so many offsets would pass that
    /// a scan does not help.
    pub fn new(ignore_case: bool, skipped: usize, patterns: &[Vec<u8>]) -> Option<Fingerprints>
        ensures pass { IfSome result (λ f. AllPass f ignore_case
            (without_first skipped (map (λ pattern. pattern.items) patterns.now))) }
        ensures some { IfSome result (λ _. (0 < length patterns.now) × (length patterns.now ≤ 64)) }
    {
        if patterns.is_empty() || patterns.len() > MOST_PATTERNS {
            return None;
        }
        let buckets = Buckets::of(ignore_case, skipped, patterns);
        if buckets.are_too_full() {
            return None;
        }
        let made = Fingerprints {
            first: buckets.table(0),
            second: buckets.table(1),
            third: buckets.table(2),
            fourth: buckets.table(3),
        };
        if made.are_for(ignore_case, skipped, patterns) {
            Some(made)
        } else {
            None
        }
    }

    /// Returns the fingerprints as bytes, for [`Fingerprints::from_bytes`].
    pub fn to_bytes(&self) -> [u8; BYTES]
        ensures { fingerprints_in result ≡ self.now }
    {
        let mut bytes = [0; BYTES];
        for at in 0..BYTES {
            bytes[at] = self.half(at / HALVES)[at % HALVES];
        }
        bytes
    }

    /// Returns the fingerprints in any bytes: the halves of the tables, in order.
    #[inline(always)]
    pub fn from_bytes(bytes: &[u8; BYTES]) -> Fingerprints
        ensures { result ≡ fingerprints_in bytes.now }
    {
        Fingerprints {
            first: Nibbles::from_bytes(bytes, 0),
            second: Nibbles::from_bytes(bytes, 2 * HALVES),
            third: Nibbles::from_bytes(bytes, 4 * HALVES),
            fourth: Nibbles::from_bytes(bytes, 6 * HALVES),
        }
    }

    /// One of the eight halves of the tables.
    fn half(&self, number: usize) -> &[u8; HALVES]
        requires { number < 8 }
        ensures { result.now ≡ slice_index_or (halves_of self.now) number [] }
    {
        match number {
            0 => &self.first.low,
            1 => &self.first.high,
            2 => &self.second.low,
            3 => &self.second.high,
            4 => &self.third.low,
            5 => &self.third.high,
            6 => &self.fourth.low,
            _ => &self.fourth.high,
        }
    }

    /// Whether each pattern without the skipped bytes passes wherever it occurs.
    fn are_for(&self, ignore_case: bool, skipped: usize, patterns: &[Vec<u8>]) -> bool
        ensures { IsTrue result → AllPass self.now ignore_case
            (without_first skipped (map (λ pattern. pattern.items) patterns.now)) }
    {
        for pattern in patterns {
            if !self.lets_pass(ignore_case, after_skipped(pattern, skipped)) {
                return false;
            }
        }
        true
    }

    /// Whether a pattern is not empty, and passes wherever it occurs.
    fn lets_pass(&self, ignore_case: bool, pattern: &[u8]) -> bool
        ensures { IsTrue result → LetsPass self.now ignore_case pattern.now }
    {
        if pattern.is_empty() {
            return false;
        }
        let first = self.first.shared(ignore_case, pattern, 0);
        let second = self.second.shared(ignore_case, pattern, 1);
        let third = self.third.shared(ignore_case, pattern, 2);
        let fourth = self.fourth.shared(ignore_case, pattern, 3);
        (first & second) & (third & fourth) != 0
    }

    /// Returns an offset of the span, or its end, before which no pattern begins that lies whole in the span. The span
    /// has to be valid. The scan stops at the first offset at which a pattern may begin by its fingerprint. Each byte
    /// is read once: 16 at a time, and in a long span 32 at a time after the first. The last bytes, fewer than 16, are
    /// read together; with 14 or 15 of them the scan stops up to two bytes before the end of the span.
    #[inline(always)]
    pub fn next(&self, haystack: &[u8], span: Span, tally: &mut Tally) -> usize
        requires { IsValidSpan haystack.now span }
        ensures inside { (span.start ≤ result) × (result ≤ span.end) }
        ensures passed { NoneBegins self.now haystack.now span result }
        ensures stops { FingerprintsMayStop self.now haystack.now span result }
        ensures others { tally.new ≡ record tally.old { scanned = tally.new.scanned } }
        ensures once { tally.new.scanned ≤ tally.old.scanned + (span.end - span.start) }
        ensures read { tally.old.scanned + result ≤ tally.new.scanned + span.start }
        ensures counted { tally.new.scanned + span.start ≤ tally.old.scanned + result + 35 }
        ensures thrice { tally.new.scanned + 3 * span.start ≤ tally.old.scanned + 3 * result + 16 }
    {
        let is_short = span.end - span.start < NEAR + WIDE;
        let near = if is_short {
            span.end
        } else {
            span.start + NEAR
        };
        let (tables, before) = (self.tables(), LookedUp::before_span());
        let passed = self.pass(tables, before, haystack, span.start, near, span, tally);
        if passed.stop < passed.at {
            return passed.stop - (LOOKED_AT - 1);
        }
        if is_short {
            return self.rest(tables, passed.before, haystack, passed.at, span, tally);
        }
        // The fingerprints are copied: with a reference to them, the compiler keeps them in memory.
        let copy = Fingerprints {
            first: self.first,
            second: self.second,
            third: self.third,
            fourth: self.fourth,
        };
        copy.next_far(passed.bytes, haystack, passed.at, span, tally)
    }

    /// Looks up 16 bytes at a time from an offset on, while there are 16 before another one, or until a pattern may
    /// begin by its fingerprint.
    #[inline(always)]
    fn pass(
        &self,
        tables: Tables,
        before: LookedUp,
        haystack: &[u8],
        from: usize,
        upto: usize,
        span: Span,
        tally: &mut Tally,
    ) -> Passed
        requires valid { IsValidSpan haystack.now span }
        requires after { span.start ≤ from }
        requires ordered { from ≤ upto }
        requires inside { upto ≤ span.end }
        requires tables { AreTables tables self.now }
        requires looked { IsLookedUp before self.now (take span.end haystack.now) span.start from }
        requires none { NoneShared self.now (take span.end haystack.now) span.start from }
        ensures passed { HasPassed result self.now (take span.end haystack.now) span.start }
        ensures bytes { from + 16 ≤ result.at
            → HasLanes result.bytes (λ k. slice_index (take span.end haystack.now) (result.at - 16 + k)) }
        ensures least { from ≤ result.stop }
        ensures most { result.at ≤ upto }
        ensures near { result.at ≤ result.stop + 16 }
        ensures whole { (result.at - from) % 16 ≡ 0 }
        ensures rest { result.at ≤ result.stop → upto < result.at + 16 }
        ensures ticks { tally.new ≡ record tally.old { scanned = tally.old.scanned + (result.at - from) } }
    {
        let (mut before, mut last, mut at) = (before, u8x16::splat(0), from);
        while LANES <= upto - at {
            let bytes = load(haystack, at, tally);
            let here = tables.look_up(bytes);
            if let Some(passed) = first_set(here.shared_after(before)) {
                return Passed {
                    at: at + LANES,
                    stop: at + passed,
                    bytes,
                    before: here,
                };
            }
            (before, last) = (here, bytes);
            at += LANES;
        }
        Passed {
            at,
            stop: at,
            bytes: last,
            before,
        }
    }

    /// The last bytes of a span, fewer than 16.
    #[inline(always)]
    fn rest(
        &self,
        tables: Tables,
        before: LookedUp,
        haystack: &[u8],
        from: usize,
        span: Span,
        tally: &mut Tally,
    ) -> usize
        requires valid { IsValidSpan haystack.now span }
        requires after { span.start ≤ from }
        requires inside { from ≤ span.end }
        requires few { span.end < from + 16 }
        requires tables { AreTables tables self.now }
        requires looked { IsLookedUp before self.now (take span.end haystack.now) span.start from }
        requires none { NoneShared self.now (take span.end haystack.now) span.start from }
        ensures inside { (span.start ≤ result) × (result ≤ span.end) }
        ensures passed { NoneBegins self.now haystack.now span result }
        ensures stops { FingerprintsMayStop self.now haystack.now span result }
        ensures far { from ≤ result + 3 }
        ensures ticks { tally.new ≡ record tally.old { scanned = tally.old.scanned + (span.end - from) } }
    {
        let here = tables.look_up(load_rest(haystack, from, span.end, tally));
        let passed = zeros_before(here.shared_after(before));
        (from + passed)
            .saturating_sub(LOOKED_AT - 1)
            .max(span.start)
            .min(span.end)
    }

    /// The tables, each as one vector.
    #[inline(always)]
    fn tables(&self) -> Tables
        ensures { AreTables result self.now }
    {
        Tables {
            first: joined_halves(self.first),
            second: joined_halves(self.second),
            third: joined_halves(self.third),
            fourth: joined_halves(self.fourth),
        }
    }
}
