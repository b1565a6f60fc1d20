//! Vectors of 16 bytes, lane by lane.
ghost use Rattle.std.specs.Prelude.{◌≡◌, ◌≢◌, ℕ, ◌+◌, ◌-◌, ◌<◌, ◌≤◌, length, slice_index, bit_and};
ghost use Rattle.std.specs.Prelude.{IfSome, IsNone, take};
ghost use Rattle.literal_fingerprints.specs.Inside.Hits.{hit};
ghost use Rattle.literal_fingerprints.specs.Inside.Lanes.{HasLanes};

use literal_base::count::Tally;
use std::simd::prelude::*;

/// The number of lanes of a vector.
pub const LANES: usize = 16;

/// The numbers of the 16 lanes, and after them 16 numbers for which a shuffle gives 0.
const PLACES: [u8; 2 * LANES] = [
    0, 1, 2, 3, 4, 5, 6, 7, 8, 9, 10, 11, 12, 13, 14, 15, 255, 255, 255, 255, 255, 255, 255, 255,
    255, 255, 255, 255, 255, 255, 255, 255,
];

/// The bytes of a haystack from an offset on. Each counts as scanned.
#[inline(always)]
pub fn load(haystack: &[u8], at: usize, tally: &mut Tally) -> u8x16
    requires { at + 16 ≤ length haystack.now }
    ensures lanes { HasLanes result (λ k. slice_index haystack.now (at + k)) }
    ensures ticks { tally.new ≡ record tally.old { scanned = tally.old.scanned + 16 } }
{
    for _ in 0..LANES {
        tally.tick_scanned();
    }
    u8x16::from_slice(&haystack[at..])
}

/// The bytes of a haystack from an offset to an end, fewer than 16, followed by zeros. Each byte counts as scanned. The
/// bytes before the offset that are loaded with them are dropped, and decide nothing.
#[inline(always)]
pub fn load_rest(haystack: &[u8], at: usize, end: usize, tally: &mut Tally) -> u8x16
    requires ordered { at ≤ end }
    requires few { end < at + 16 }
    requires inside { end ≤ length haystack.now }
    ensures lanes { HasLanes result (λ k. slice_index (take end haystack.now) (at + k)) }
    ensures ticks { tally.new ≡ record tally.old { scanned = tally.old.scanned + (end - at) } }
{
    for _ in at..end {
        tally.tick_scanned();
    }
    if end < LANES {
        let mut bytes = [0; LANES];
        bytes[..end - at].copy_from_slice(&haystack[at..end]);
        return u8x16::from_slice(&bytes);
    }
    after_first(
        LANES - (end - at),
        u8x16::from_slice(&haystack[end - LANES..]),
    )
}

/// The lanes after the first `lanes` ones, followed by zeros.
#[inline(always)]
fn after_first(lanes: usize, all: u8x16) -> u8x16
    requires { lanes ≤ 16 }
    ensures { HasLanes result (λ k. slice_index all (lanes + k)) }
{
    all.swizzle_dyn(u8x16::from_slice(&PLACES[lanes..]))
}

/// The byte of a haystack at an offset. It counts as scanned.
#[inline(always)]
pub fn byte_at(haystack: &[u8], at: usize, tally: &mut Tally) -> u8
    requires { at < length haystack.now }
    ensures byte { result ≡ slice_index haystack.now at }
    ensures ticks { tally.new ≡ record tally.old { scanned = tally.old.scanned + 1 } }
{
    tally.tick_scanned();
    haystack[at]
}

/// The bits that both have.
#[inline(always)]
pub fn both(one: u8x16, other: u8x16) -> u8x16
    ensures { HasLanes result (λ k. bit_and (slice_index one k) (slice_index other k)) }
{
    one & other
}

/// 255 for each byte that is the rare one, once the bits of the mask are set, otherwise 0.
#[inline(always)]
pub fn wanted(bytes: u8x16, rare: u8, mask: u8) -> u8x16
    ensures { HasLanes result (λ k. hit rare mask (slice_index bytes k)) }
{
    (bytes | u8x16::splat(mask))
        .simd_eq(u8x16::splat(rare))
        .select(u8x16::splat(255), u8x16::splat(0))
}

/// The last lane of one vector, and all but the last of the next.
#[inline(always)]
pub fn one_back(before: u8x16, here: u8x16) -> u8x16
    ensures { (f : ℕ → ℕ) → HasLanes before f → HasLanes here (λ k. f (16 + k)) → HasLanes result (λ k. f (15 + k)) }
{
    before.shuffle(
        here,
        [
            15, 16, 17, 18, 19, 20, 21, 22, 23, 24, 25, 26, 27, 28, 29, 30,
        ],
    )
}

/// The last two lanes of one vector, and all but the last two of the next.
#[inline(always)]
pub fn two_back(before: u8x16, here: u8x16) -> u8x16
    ensures { (f : ℕ → ℕ) → HasLanes before f → HasLanes here (λ k. f (16 + k)) → HasLanes result (λ k. f (14 + k)) }
{
    before.shuffle(
        here,
        [
            14, 15, 16, 17, 18, 19, 20, 21, 22, 23, 24, 25, 26, 27, 28, 29,
        ],
    )
}

/// The last three lanes of one vector, and all but the last three of the next.
#[inline(always)]
pub fn three_back(before: u8x16, here: u8x16) -> u8x16
    ensures { (f : ℕ → ℕ) → HasLanes before f → HasLanes here (λ k. f (16 + k)) → HasLanes result (λ k. f (13 + k)) }
{
    before.shuffle(
        here,
        [
            13, 14, 15, 16, 17, 18, 19, 20, 21, 22, 23, 24, 25, 26, 27, 28,
        ],
    )
}

/// The last lanes of one vector, at most three, and all but as many of the next.
#[inline(always)]
pub fn shifted(lanes: usize, before: u8x16, here: u8x16) -> u8x16
    requires { lanes ≤ 3 }
    ensures { (f : ℕ → ℕ) → HasLanes before f → HasLanes here (λ k. f (16 + k))
        → HasLanes result (λ k. f (16 - lanes + k)) }
{
    match lanes {
        0 => here,
        1 => one_back(before, here),
        2 => two_back(before, here),
        _ => three_back(before, here),
    }
}

/// How many lanes come before the first that is not 0.
#[inline(always)]
pub fn zeros_before(lanes: u8x16) -> usize
    ensures few { result ≤ 16 }
    ensures zero { (k : ℕ) → k < result → slice_index lanes k ≡ 0 }
    ensures stops { result < 16 → slice_index lanes result ≢ 0 }
{
    let set = lanes.simd_ne(u8x16::splat(0)).to_bitmask();
    if set == 0 {
        LANES
    } else {
        set.trailing_zeros() as usize
    }
}

/// The first lane that is not 0.
#[inline(always)]
pub fn first_set(lanes: u8x16) -> Option<usize>
    ensures none { IsNone result → (k : ℕ) → k < 16 → slice_index lanes k ≡ 0 }
    ensures few { IfSome result (λ n. n < 16) }
    ensures zero { IfSome result (λ n. (k : ℕ) → k < n → slice_index lanes k ≡ 0) }
    ensures stops { IfSome result (λ n. slice_index lanes n ≢ 0) }
{
    let set = lanes.simd_ne(u8x16::splat(0)).to_bitmask();
    if set == 0 {
        return None;
    }
    let first = set.trailing_zeros() as usize;
    if first < LANES { Some(first) } else { None }
}
