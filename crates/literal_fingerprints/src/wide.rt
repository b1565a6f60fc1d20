//! Vectors of 32 bytes, lane by lane.
ghost use Rattle.std.specs.Prelude.{◌≡◌, ◌≢◌, ℕ, ◌+◌, ◌-◌, ◌/◌, ◌%◌, ◌<◌, ◌≤◌, length, slice_index, bit_and};
ghost use Rattle.literal_fingerprints.specs.Inside.Hits.{hit};
ghost use Rattle.literal_fingerprints.specs.Inside.Lanes.{HasBack, HasLanes, HasWide};

use literal_base::count::Tally;
use std::simd::prelude::*;

/// The number of lanes of a wide vector.
pub const WIDE: usize = 32;

/// The bytes of a haystack from an offset on. Each counts as scanned.
#[inline(always)]
pub fn load_wide(haystack: &[u8], at: usize, tally: &mut Tally) -> u8x32
    requires { at + 32 ≤ length haystack.now }
    ensures lanes { HasWide result (λ k. slice_index haystack.now (at + k)) }
    ensures ticks { tally.new ≡ record tally.old { scanned = tally.old.scanned + 32 } }
{
    for _ in 0..WIDE {
        tally.tick_scanned();
    }
    u8x32::from_slice(&haystack[at..])
}

/// The bits that both have.
#[inline(always)]
pub fn both_wide(one: u8x32, other: u8x32) -> u8x32
    ensures { HasWide result (λ k. bit_and (slice_index one k) (slice_index other k)) }
{
    one & other
}

/// The lanes of a vector of 16, twice.
#[inline(always)]
pub fn twice(half: u8x16) -> u8x32
    ensures { HasWide result (λ k. slice_index half (k % 16)) }
{
    half.shuffle(
        half,
        [
            0, 1, 2, 3, 4, 5, 6, 7, 8, 9, 10, 11, 12, 13, 14, 15, 16, 17, 18, 19, 20, 21, 22, 23,
            24, 25, 26, 27, 28, 29, 30, 31,
        ],
    )
}

/// The last 16 lanes.
#[inline(always)]
pub fn back_half(lanes: u8x32) -> u8x16
    ensures { HasLanes result (λ k. slice_index lanes (16 + k)) }
{
    lanes.swizzle([
        16, 17, 18, 19, 20, 21, 22, 23, 24, 25, 26, 27, 28, 29, 30, 31,
    ])
}

/// The entry of a table at the low nibble of each byte.
#[inline(always)]
pub fn by_low_wide(table: &[u8; 16], bytes: u8x32) -> u8x32
    ensures { HasWide result (λ k. slice_index table.now (slice_index bytes k % 16)) }
{
    twice(u8x16::from_slice(table)).swizzle_dyn_within::<16>(bytes & u8x32::splat(15))
}

/// The entry of a table at the high nibble of each byte.
#[inline(always)]
pub fn by_high_wide(table: &[u8; 16], bytes: u8x32) -> u8x32
    ensures { HasWide result (λ k. slice_index table.now (slice_index bytes k / 16 % 16)) }
{
    twice(u8x16::from_slice(table)).swizzle_dyn_within::<16>(bytes >> u8x32::splat(4))
}

/// The last lane of one vector, and all but the last of the next.
#[inline(always)]
pub fn one_back_wide(before: u8x32, here: u8x32) -> u8x32
    ensures { (f : ℕ → ℕ) → HasBack before f → HasWide here (λ k. f (16 + k)) → HasWide result (λ k. f (15 + k)) }
{
    before.shuffle(
        here,
        [
            31, 32, 33, 34, 35, 36, 37, 38, 39, 40, 41, 42, 43, 44, 45, 46, 47, 48, 49, 50, 51, 52,
            53, 54, 55, 56, 57, 58, 59, 60, 61, 62,
        ],
    )
}

/// The last two lanes of one vector, and all but the last two of the next.
#[inline(always)]
pub fn two_back_wide(before: u8x32, here: u8x32) -> u8x32
    ensures { (f : ℕ → ℕ) → HasBack before f → HasWide here (λ k. f (16 + k)) → HasWide result (λ k. f (14 + k)) }
{
    before.shuffle(
        here,
        [
            30, 31, 32, 33, 34, 35, 36, 37, 38, 39, 40, 41, 42, 43, 44, 45, 46, 47, 48, 49, 50, 51,
            52, 53, 54, 55, 56, 57, 58, 59, 60, 61,
        ],
    )
}

/// The last three lanes of one vector, and all but the last three of the next.
#[inline(always)]
pub fn three_back_wide(before: u8x32, here: u8x32) -> u8x32
    ensures { (f : ℕ → ℕ) → HasBack before f → HasWide here (λ k. f (16 + k)) → HasWide result (λ k. f (13 + k)) }
{
    before.shuffle(
        here,
        [
            29, 30, 31, 32, 33, 34, 35, 36, 37, 38, 39, 40, 41, 42, 43, 44, 45, 46, 47, 48, 49, 50,
            51, 52, 53, 54, 55, 56, 57, 58, 59, 60,
        ],
    )
}

/// The last lanes of one vector, at most three, and all but as many of the next.
#[inline(always)]
pub fn shifted_wide(lanes: usize, before: u8x32, here: u8x32) -> u8x32
    requires { lanes ≤ 3 }
    ensures { (f : ℕ → ℕ) → HasBack before f → HasWide here (λ k. f (16 + k))
        → HasWide result (λ k. f (16 - lanes + k)) }
{
    match lanes {
        0 => here,
        1 => one_back_wide(before, here),
        2 => two_back_wide(before, here),
        _ => three_back_wide(before, here),
    }
}

/// 255 for each byte that is the rare one, once the bits of the mask are set, otherwise 0.
#[inline(always)]
pub fn wanted_wide(bytes: u8x32, rare: u8, mask: u8) -> u8x32
    ensures { HasWide result (λ k. hit rare mask (slice_index bytes k)) }
{
    (bytes | u8x32::splat(mask))
        .simd_eq(u8x32::splat(rare))
        .select(u8x32::splat(255), u8x32::splat(0))
}

/// How many lanes come before the first that is not 0.
#[inline(always)]
pub fn zeros_before_wide(lanes: u8x32) -> usize
    ensures few { result ≤ 32 }
    ensures zero { (k : ℕ) → k < result → slice_index lanes k ≡ 0 }
    ensures stops { result < 32 → slice_index lanes result ≢ 0 }
{
    let set = lanes.simd_ne(u8x32::splat(0)).to_bitmask();
    if set == 0 {
        WIDE
    } else {
        set.trailing_zeros() as usize
    }
}
