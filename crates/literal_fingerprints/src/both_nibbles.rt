//! Vectors with two lanes for each of 16 bytes: one of the first 16 lanes for the low nibble, and one of the last 16
//! for the high nibble.
ghost use Rattle.std.specs.Prelude.{◌≡◌, ℕ, ◌+◌, ◌/◌, ◌%◌, slice_index};
ghost use Rattle.literal_fingerprints.specs.Inside.Lanes.{HasHalves, HasLanes};

use crate::nibbles::Nibbles;
use crate::wide::{back_half, twice};
use std::simd::prelude::*;

/// The nibbles of 16 bytes.
#[inline(always)]
fn nibbles_of(bytes: u8x16) -> u8x32
    ensures { HasHalves result (λ k. slice_index bytes k % 16) (λ k. slice_index bytes k / 16 % 16) }
{
    let lows = twice(bytes);
    let highs = lows >> u8x32::splat(4);
    front_and_back(lows, highs) & u8x32::splat(15)
}

/// The first 16 lanes of one vector, and the last 16 of another.
#[inline(always)]
fn front_and_back(front: u8x32, back: u8x32) -> u8x32
    ensures { HasHalves result (λ k. slice_index front k) (λ k. slice_index back (16 + k)) }
{
    front.shuffle(
        back,
        [
            0, 1, 2, 3, 4, 5, 6, 7, 8, 9, 10, 11, 12, 13, 14, 15, 48, 49, 50, 51, 52, 53, 54, 55,
            56, 57, 58, 59, 60, 61, 62, 63,
        ],
    )
}

/// The lanes of one vector of 16, and then those of another.
#[inline(always)]
fn joined(front: u8x16, back: u8x16) -> u8x32
    ensures { HasHalves result (λ k. slice_index front k) (λ k. slice_index back k) }
{
    front.shuffle(
        back,
        [
            0, 1, 2, 3, 4, 5, 6, 7, 8, 9, 10, 11, 12, 13, 14, 15, 16, 17, 18, 19, 20, 21, 22, 23,
            24, 25, 26, 27, 28, 29, 30, 31,
        ],
    )
}

/// A table as one vector: the entries for low nibbles, and then those for high nibbles.
#[inline(always)]
pub fn joined_halves(nibbles: Nibbles) -> u8x32
    ensures { HasHalves result (λ k. slice_index nibbles.low k) (λ k. slice_index nibbles.high k) }
{
    joined(
        u8x16::from_slice(&nibbles.low),
        u8x16::from_slice(&nibbles.high),
    )
}

/// The entries for the nibbles of each byte.
#[inline(always)]
pub fn look_up_both(table: u8x32, bytes: u8x16) -> u8x32
    ensures { (low high : ℕ → ℕ) → HasHalves table low high
        → HasHalves result (λ k. low (slice_index bytes k % 16)) (λ k. high (slice_index bytes k / 16 % 16)) }
{
    table.swizzle_dyn_within::<16>(nibbles_of(bytes))
}

/// In each half of 16 lanes, the last lane of one vector, and all but the last of the next.
#[inline(always)]
pub fn one_back_in_both(before: u8x32, here: u8x32) -> u8x32
    ensures { (low high : ℕ → ℕ) → HasHalves before low high
        → HasHalves here (λ k. low (16 + k)) (λ k. high (16 + k))
        → HasHalves result (λ k. low (15 + k)) (λ k. high (15 + k)) }
{
    before.shuffle(
        here,
        [
            15, 32, 33, 34, 35, 36, 37, 38, 39, 40, 41, 42, 43, 44, 45, 46, 31, 48, 49, 50, 51, 52,
            53, 54, 55, 56, 57, 58, 59, 60, 61, 62,
        ],
    )
}

/// In each half of 16 lanes, the last two lanes of one vector, and all but the last two of the next.
#[inline(always)]
pub fn two_back_in_both(before: u8x32, here: u8x32) -> u8x32
    ensures { (low high : ℕ → ℕ) → HasHalves before low high
        → HasHalves here (λ k. low (16 + k)) (λ k. high (16 + k))
        → HasHalves result (λ k. low (14 + k)) (λ k. high (14 + k)) }
{
    before.shuffle(
        here,
        [
            14, 15, 32, 33, 34, 35, 36, 37, 38, 39, 40, 41, 42, 43, 44, 45, 30, 31, 48, 49, 50, 51,
            52, 53, 54, 55, 56, 57, 58, 59, 60, 61,
        ],
    )
}

/// In each half of 16 lanes, the last three lanes of one vector, and all but the last three of the next.
#[inline(always)]
pub fn three_back_in_both(before: u8x32, here: u8x32) -> u8x32
    ensures { (low high : ℕ → ℕ) → HasHalves before low high
        → HasHalves here (λ k. low (16 + k)) (λ k. high (16 + k))
        → HasHalves result (λ k. low (13 + k)) (λ k. high (13 + k)) }
{
    before.shuffle(
        here,
        [
            13, 14, 15, 32, 33, 34, 35, 36, 37, 38, 39, 40, 41, 42, 43, 44, 29, 30, 31, 48, 49, 50,
            51, 52, 53, 54, 55, 56, 57, 58, 59, 60,
        ],
    )
}

/// The first 16 lanes.
#[inline(always)]
pub fn front_half(lanes: u8x32) -> u8x16
    ensures { HasLanes result (λ k. slice_index lanes k) }
{
    lanes.swizzle([0, 1, 2, 3, 4, 5, 6, 7, 8, 9, 10, 11, 12, 13, 14, 15])
}
