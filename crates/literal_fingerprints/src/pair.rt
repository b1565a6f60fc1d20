//! Two or three rare bytes of a pattern, and the scan by them.
ghost use Rattle.std.specs.Prelude.{◌≡◌, ℕ, ◌+◌, ◌-◌, ◌*◌, ◌<◌, ◌≤◌, List, MatchOption};
ghost use Rattle.std.specs.Prelude.{◌≢◌, bit_and, if◌then◌else◌, length, max, min, nat_lt, slice_index, true};
ghost use Rattle.literal_base.specs.Occurs.{IsValidSpan, same_byte};
ghost use Rattle.literal_fingerprints.specs.Inside.Hits.{NoneHit, pair_hit};
ghost use Rattle.literal_fingerprints.specs.Inside.Lanes.{HasBack, HasLanes, HasWide};
ghost use Rattle.literal_fingerprints.specs.RarePairs.{IsPairOf, IsRare, NoPairBegins, PairMayStop};
ghost use Rattle.literal_fingerprints.specs.RarePairs.{has_between, pair_in};

use crate::lanes::{LANES, both, load, load_rest, shifted, wanted, zeros_before};
use crate::nibbles::other_case;
use crate::wide::{
    WIDE, back_half, both_wide, load_wide, shifted_wide, twice, wanted_wide, zeros_before_wide,
};
use literal_base::Span;
use literal_base::byte_frequencies::freq_rank;
use literal_base::count::Tally;
use std::simd::prelude::*;

/// The largest offset of the first byte of a pair in its pattern.
const LAST: usize = 2;

/// The size of a pair in bytes.
pub const PAIR_BYTES: usize = 8;

/// Fewer than this many bytes of a pattern are skipped.
const MOST_SKIPPED: usize = 64;

/// If the ranks of three bytes add up to less than this, they are rare enough. A search for one match walks over the
/// skipped bytes at the end of its span, so none are skipped then.
const RARE: usize = 700;

/// Bytes of a pattern are skipped if the ranks of the three behind them add up to less than those of the first three by
/// more than this.
const MUCH: usize = 24;

/// A byte of a pattern. Before a byte of a haystack is compared with it, the bits of a mask are set in that byte. The
/// mask has the bits in which the byte and its other case differ. It has none if case is kept, or if the byte is no
/// letter.
#[derive(Clone, Copy)]
pub struct RareByte {
    pub byte: u8,
    pub mask: u8,
}

impl RareByte {
    /// A byte of a pattern, with case kept or ignored.
    fn new(ignore_case: bool, byte: u8) -> RareByte
        ensures { (other : ℕ) → same_byte ignore_case other byte ≡ true → IsRare result other }
    {
        let other = other_case(ignore_case, byte);
        let mask = byte ^ other;
        RareByte {
            byte: byte | mask,
            mask,
        }
    }
}

/// Two bytes of a pattern, and perhaps one between them. By these a scan finds the offsets of a haystack at which the
/// pattern may begin.
#[derive(Clone, Copy)]
pub struct RarePair {
    pub first: RareByte,
    pub second: RareByte,
    /// The offset of the first byte in the pattern, at most two. A larger number means two.
    pub offset: u8,
    /// The distance from the first byte to the second, at most three bytes. A larger number means three.
    pub apart: u8,
    /// The byte right after the first one, with the same mask, if the distance is at least two. 0 stands for any byte.
    pub between: u8,
}

impl RarePair {
    /// Returns the pair of a pattern, with case kept or ignored, or `None` if the pattern is empty.
    pub fn new(ignore_case: bool, pattern: &[u8]) -> Option<RarePair>
        ensures { MatchOption result (length pattern.now ≡ 0) (λ pair. IsPairOf pair ignore_case pattern.now) }
    {
        if pattern.is_empty() {
            return None;
        }
        let (first, second) = rarest_places(pattern);
        let rare = RareByte::new(ignore_case, pattern[first]);
        Some(RarePair {
            first: rare,
            second: RareByte::new(ignore_case, pattern[second]),
            offset: first as u8,
            apart: (second - first) as u8,
            between: between_byte(ignore_case, pattern, first, second, rare.mask),
        })
    }

    /// Returns the pair as bytes, for [`RarePair::from_bytes`]. The first of them is not 0.
    pub fn to_bytes(&self) -> [u8; PAIR_BYTES]
        ensures pair { pair_in result ≡ self.now }
        ensures some { 0 < slice_index result 0 }
    {
        let (first, second) = (self.first, self.second);
        [
            1,
            first.byte,
            first.mask,
            second.byte,
            second.mask,
            self.offset,
            self.apart,
            self.between,
        ]
    }

    /// Returns the pair in any bytes. The first of them is not used.
    #[inline(always)]
    pub fn from_bytes(bytes: &[u8; PAIR_BYTES]) -> RarePair
        ensures { result ≡ pair_in bytes.now }
    {
        RarePair {
            first: RareByte {
                byte: bytes[1],
                mask: bytes[2],
            },
            second: RareByte {
                byte: bytes[3],
                mask: bytes[4],
            },
            offset: bytes[5],
            apart: bytes[6],
            between: bytes[7],
        }
    }

    /// Returns an offset of the span, or its end, before which no pattern with this pair begins that lies whole in the
    /// span. The span has to be valid. The scan stops at the first offset at which the haystack has the bytes of the
    /// pair, or before. Each byte is read once: 16 at a time, and 32 at a time after the first 16. Each distance has
    /// its own loop, which shifts by a constant.
    pub fn next(&self, haystack: &[u8], span: Span, tally: &mut Tally) -> usize
        requires { IsValidSpan haystack.now span }
        ensures inside { (span.start ≤ result) × (result ≤ span.end) }
        ensures passed { NoPairBegins self.now haystack.now span result }
        ensures stops { PairMayStop self.now haystack.now span result }
        ensures others { tally.new ≡ record tally.old { scanned = tally.new.scanned } }
        ensures once { tally.new.scanned ≤ tally.old.scanned + (span.end - span.start) }
        ensures read { tally.old.scanned + result ≤ tally.new.scanned + span.start }
        ensures counted { tally.new.scanned + span.start ≤ tally.old.scanned + result + 37 }
        ensures thrice { tally.new.scanned + 3 * span.start ≤ tally.old.scanned + 3 * result + 16 }
    {
        let (first, second) = (self.first.mask, self.second.mask);
        if first == 0 && second == 0 {
            return match (self.apart, self.between) {
                (0, _) => self.scan(0, 0, false, 0, haystack, span, tally),
                (1, _) => self.scan(0, 0, false, 1, haystack, span, tally),
                (2, 0) => self.scan(0, 0, false, 2, haystack, span, tally),
                (2, _) => self.scan(0, 0, true, 2, haystack, span, tally),
                (_, 0) => self.scan(0, 0, false, 3, haystack, span, tally),
                (_, _) => self.scan(0, 0, true, 3, haystack, span, tally),
            };
        }
        match (self.apart, self.between) {
            (0, _) => self.scan(first, second, false, 0, haystack, span, tally),
            (1, _) => self.scan(first, second, false, 1, haystack, span, tally),
            (2, 0) => self.scan(first, second, false, 2, haystack, span, tally),
            (2, _) => self.scan(first, second, true, 2, haystack, span, tally),
            (_, 0) => self.scan(first, second, false, 3, haystack, span, tally),
            (_, _) => self.scan(first, second, true, 3, haystack, span, tally),
        }
    }

    /// The same with these masks and this distance, and with or without the byte between the two.
    #[inline(always)]
    fn scan(
        &self,
        first_mask: u8,
        second_mask: u8,
        by_three: bool,
        apart: usize,
        haystack: &[u8],
        span: Span,
        tally: &mut Tally,
    ) -> usize
        requires valid { IsValidSpan haystack.now span }
        requires first { first_mask ≡ self.now.first.mask }
        requires second { second_mask ≡ self.now.second.mask }
        requires three { by_three ≡ has_between self.now }
        requires apart { apart ≡ min self.now.apart 3 }
        ensures inside { (span.start ≤ result) × (result ≤ span.end) }
        ensures passed { NoPairBegins self.now haystack.now span result }
        ensures stops { PairMayStop self.now haystack.now span result }
        ensures others { tally.new ≡ record tally.old { scanned = tally.new.scanned } }
        ensures once { tally.new.scanned ≤ tally.old.scanned + (span.end - span.start) }
        ensures read { tally.old.scanned + result ≤ tally.new.scanned + span.start }
        ensures counted { tally.new.scanned + span.start ≤ tally.old.scanned + result + 37 }
        ensures thrice { tally.new.scanned + 3 * span.start ≤ tally.old.scanned + 3 * result + 16 }
    {
        let behind = (self.offset as usize).min(LAST) + apart;
        if span.end - span.start < LANES {
            return self.scan_short(
                first_mask,
                second_mask,
                by_three,
                apart,
                haystack,
                span,
                tally,
            );
        }
        let here = load(haystack, span.start, tally);
        let hits = self.pairs(first_mask, second_mask, by_three, apart, here, here);
        let passed = zeros_before(without_first(apart, hits));
        if passed < LANES {
            return span.start + passed.saturating_sub(behind);
        }
        let mut before = twice(here);
        let mut at = span.start + LANES;
        let last = span.end.saturating_sub(WIDE);
        while at <= last {
            let here = load_wide(haystack, at, tally);
            let hits = self.pairs_wide(first_mask, second_mask, by_three, apart, before, here);
            let stop = zeros_before_wide(hits);
            if stop < WIDE {
                return at + stop - behind;
            }
            before = here;
            at += WIDE;
        }
        let before = back_half(before);
        if span.end - at < LANES {
            return self.scan_last(
                first_mask,
                second_mask,
                by_three,
                apart,
                before,
                haystack,
                at,
                span,
                tally,
            );
        }
        let here = load(haystack, at, tally);
        let hits = self.pairs(first_mask, second_mask, by_three, apart, before, here);
        let passed = zeros_before(hits);
        if passed < LANES {
            return at + passed - behind;
        }
        self.scan_last(
            first_mask,
            second_mask,
            by_three,
            apart,
            here,
            haystack,
            at + LANES,
            span,
            tally,
        )
    }

    /// The same in a span of fewer than 16 bytes.
    #[inline(always)]
    fn scan_short(
        &self,
        first_mask: u8,
        second_mask: u8,
        by_three: bool,
        apart: usize,
        haystack: &[u8],
        span: Span,
        tally: &mut Tally,
    ) -> usize
        requires valid { IsValidSpan haystack.now span }
        requires first { first_mask ≡ self.now.first.mask }
        requires second { second_mask ≡ self.now.second.mask }
        requires three { by_three ≡ has_between self.now }
        requires apart { apart ≡ min self.now.apart 3 }
        requires few { span.end < span.start + 16 }
        ensures inside { (span.start ≤ result) × (result ≤ span.end) }
        ensures passed { NoPairBegins self.now haystack.now span result }
        ensures stops { PairMayStop self.now haystack.now span result }
        ensures ticks { tally.new
            ≡ record tally.old { scanned = tally.old.scanned + (span.end - span.start) } }
    {
        let here = load_rest(haystack, span.start, span.end, tally);
        let hits = self.pairs(first_mask, second_mask, by_three, apart, here, here);
        let passed = zeros_before(without_first(apart, hits));
        if passed < span.end - span.start {
            let behind = (self.offset as usize).min(LAST) + apart;
            return span.start + passed.saturating_sub(behind);
        }
        span.end
    }

    /// Scans the last bytes of a span, fewer than 16, after the 16 bytes before them. No pair ends before them.
    #[inline(always)]
    fn scan_last(
        &self,
        first_mask: u8,
        second_mask: u8,
        by_three: bool,
        apart: usize,
        before: u8x16,
        haystack: &[u8],
        from: usize,
        span: Span,
        tally: &mut Tally,
    ) -> usize
        requires valid { IsValidSpan haystack.now span }
        requires first { first_mask ≡ self.now.first.mask }
        requires second { second_mask ≡ self.now.second.mask }
        requires three { by_three ≡ has_between self.now }
        requires apart { apart ≡ min self.now.apart 3 }
        requires after { span.start + 16 ≤ from }
        requires inside { from ≤ span.end }
        requires few { span.end < from + 16 }
        requires before { HasLanes before (λ k. slice_index haystack.now (from + k - 16)) }
        requires none { NoneHit self.now first_mask second_mask by_three apart haystack.now span.start from }
        ensures inside { (span.start ≤ result) × (result ≤ span.end) }
        ensures passed { NoPairBegins self.now haystack.now span result }
        ensures stops { PairMayStop self.now haystack.now span result }
        ensures far { from ≤ result + 5 }
        ensures ticks { tally.new ≡ record tally.old { scanned = tally.old.scanned + (span.end - from) } }
    {
        let here = load_rest(haystack, from, span.end, tally);
        let hits = self.pairs(first_mask, second_mask, by_three, apart, before, here);
        let passed = zeros_before(hits);
        if passed < span.end - from {
            let behind = (self.offset as usize).min(LAST) + apart;
            return from + passed - behind;
        }
        span.end
    }

    /// Lanes that are 255 where 16 bytes of a haystack have the bytes of the pair, with these masks: the second in the
    /// lane, and the first `apart` lanes before it, perhaps in the 16 bytes before.
    #[inline(always)]
    fn pairs(
        &self,
        first_mask: u8,
        second_mask: u8,
        by_three: bool,
        apart: usize,
        before: u8x16,
        here: u8x16,
    ) -> u8x16
        requires near { apart ≤ 3 }
        requires far { by_three ≡ true → 2 ≤ apart }
        ensures { (bytes : ℕ → ℕ) → HasLanes before bytes → HasLanes here (λ k. bytes (16 + k))
            → HasLanes result (λ k. pair_hit self.now first_mask second_mask by_three apart
            (λ j. bytes (16 - apart + k + j))) }
    {
        let first = wanted(shifted(apart, before, here), self.first.byte, first_mask);
        let ends = both(first, wanted(here, self.second.byte, second_mask));
        if by_three {
            let between = shifted(apart - 1, before, here);
            both(ends, wanted(between, self.between, first_mask))
        } else {
            ends
        }
    }

    /// The same for 32 bytes.
    #[inline(always)]
    fn pairs_wide(
        &self,
        first_mask: u8,
        second_mask: u8,
        by_three: bool,
        apart: usize,
        before: u8x32,
        here: u8x32,
    ) -> u8x32
        requires near { apart ≤ 3 }
        requires far { by_three ≡ true → 2 ≤ apart }
        ensures { (bytes : ℕ → ℕ) → HasBack before bytes → HasWide here (λ k. bytes (16 + k))
            → HasWide result (λ k. pair_hit self.now first_mask second_mask by_three apart
            (λ j. bytes (16 - apart + k + j))) }
    {
        let first = wanted_wide(
            shifted_wide(apart, before, here),
            self.first.byte,
            first_mask,
        );
        let ends = both_wide(first, wanted_wide(here, self.second.byte, second_mask));
        if by_three {
            let between = shifted_wide(apart - 1, before, here);
            both_wide(ends, wanted_wide(between, self.between, first_mask))
        } else {
            ends
        }
    }
}

/// The lanes after the first `lanes` ones, and 0 in those.
#[inline(always)]
fn without_first(lanes: usize, all: u8x16) -> u8x16
    requires { lanes ≤ 3 }
    ensures { HasLanes result (λ k. if nat_lt k lanes then 0 else bit_and (slice_index all k) 255) }
{
    both(all, shifted(lanes, u8x16::splat(0), u8x16::splat(255)))
}

/// How many first bytes of a pattern are skipped when its pair is chosen: none if three of the first ones are rare,
/// otherwise those before three bytes that are much rarer.
pub fn bytes_before_pair(pattern: &[u8]) -> u8
    ensures { result < max (length pattern.now) 1 }
{
    if pattern.len() < 3 {
        return 0;
    }
    let (mut skipped, mut least) = (0, rank_of_three(pattern, 0));
    if least < RARE {
        return 0;
    }
    for at in 1..(pattern.len() - 2).min(MOST_SKIPPED) {
        let rank = rank_of_three(pattern, at);
        if rank + MUCH < least {
            (skipped, least) = (at as u8, rank);
        }
    }
    skipped
}

/// The sum of the ranks of the rarest three bytes after the skipped ones.
fn rank_of_three(pattern: &[u8], skipped: usize) -> usize
    requires { skipped + 3 ≤ length pattern.now }
    ensures { result ≤ 768 }
{
    let rest = &pattern[skipped..];
    let (first, second) = rarest_three(rest);
    rank_at(rest, first) + rank_at(rest, first + 1) + rank_at(rest, second)
}

/// The offsets of the first and the last of two or three rare bytes of a pattern. They are equal in a pattern of one
/// byte.
fn rarest_places(pattern: &[u8]) -> (usize, usize)
    requires { 0 < length pattern.now }
    ensures first { result.0 ≤ 2 }
    ensures ordered { result.0 ≤ result.1 }
    ensures near { result.1 ≤ result.0 + 3 }
    ensures inside { result.1 < length pattern.now }
{
    match pattern.len() {
        1 => (0, 0),
        2 => (0, 1),
        _ => rarest_three(pattern),
    }
}

/// The offsets of the first and the last of three rare bytes of a pattern: two neighbours, and one of the two bytes
/// after them.
fn rarest_three(pattern: &[u8]) -> (usize, usize)
    requires { 3 ≤ length pattern.now }
    ensures first { result.0 ≤ 2 }
    ensures far { result.0 + 2 ≤ result.1 }
    ensures near { result.1 ≤ result.0 + 3 }
    ensures inside { result.1 < length pattern.now }
{
    let mut rarest = (0, 2);
    let mut least = usize::MAX;
    for first in 0..(pattern.len() - 2).min(LAST + 1) {
        let second = rarer_behind(pattern, first + 2);
        let rank = rank_at(pattern, first) + rank_at(pattern, first + 1) + rank_at(pattern, second);
        if rank < least {
            rarest = (first, second);
            least = rank;
        }
    }
    rarest
}

/// The rarer of the byte at an offset and the next one.
fn rarer_behind(pattern: &[u8], at: usize) -> usize
    requires { at < length pattern.now }
    ensures from { at ≤ result }
    ensures near { result ≤ at + 1 }
    ensures inside { result < length pattern.now }
{
    if at + 1 < pattern.len() && rank_at(pattern, at + 1) < rank_at(pattern, at) {
        at + 1
    } else {
        at
    }
}

/// The byte right after the first of the two, if it is compared too: if it lies between them, and the mask of the first
/// fits it. Otherwise 0.
fn between_byte(ignore_case: bool, pattern: &[u8], first: usize, second: usize, mask: u8) -> u8
    requires ordered { first ≤ second }
    requires inside { second < length pattern.now }
    ensures { result ≢ 0 → first + 2 ≤ second → (byte : ℕ)
        → same_byte ignore_case byte (slice_index pattern.now (first + 1)) ≡ true
        → IsRare (record { byte = result; mask = mask }) byte }
{
    if second < first + 2 {
        return 0;
    }
    let between = RareByte::new(ignore_case, pattern[first + 1]);
    if between.mask == mask {
        between.byte
    } else {
        0
    }
}

/// How common a byte of the pattern is: its rank, or 256 for the byte 0, which is more common than all others where it
/// occurs at all.
fn rank_at(pattern: &[u8], at: usize) -> usize
    requires { at < length pattern.now }
    ensures { result ≤ 256 }
{
    match pattern[at] {
        0 => 256,
        byte => freq_rank(byte) as usize,
    }
}
