//! The buckets of 16 bytes, and which of these bytes may end the fingerprint of a pattern. Each vector has two lanes
//! for each byte: one for its low nibble, and one for its high nibble.
ghost use Rattle.std.specs.Prelude.{◌+◌, ◌≤◌, ℕ, List, slice_index};
ghost use Rattle.literal_fingerprints.specs.FingerprintsValue.{FingerprintsValue, buckets_of};
ghost use Rattle.literal_fingerprints.specs.Inside.Lanes.{HasLanes};
ghost use Rattle.literal_fingerprints.specs.Inside.Scan.{AreTables, IsLookedUp, shared_from};

use crate::both_nibbles::{
    front_half, look_up_both, one_back_in_both, three_back_in_both, two_back_in_both,
};
use crate::lanes::both;
use crate::wide::{back_half, both_wide};
use std::simd::prelude::*;

/// The tables of fingerprints, each as one vector.
#[derive(Clone, Copy)]
pub struct Tables {
    pub first: u8x32,
    pub second: u8x32,
    pub third: u8x32,
    pub fourth: u8x32,
}

impl Tables {
    /// The buckets of the nibbles of 16 bytes of a haystack.
    #[inline(always)]
    pub fn look_up(&self, bytes: u8x16) -> LookedUp
        ensures { (f : FingerprintsValue) (haystack : List ℕ) (start at : ℕ) → AreTables self.now f → start ≤ at
            → HasLanes bytes (λ k. slice_index haystack (at + k)) → IsLookedUp result f haystack start (at + 16) }
    {
        LookedUp {
            first: look_up_both(self.first, bytes),
            second: look_up_both(self.second, bytes),
            third: look_up_both(self.third, bytes),
            fourth: look_up_both(self.fourth, bytes),
        }
    }
}

/// The buckets of the nibbles of 16 bytes by each table.
#[derive(Clone, Copy)]
pub struct LookedUp {
    pub first: u8x32,
    pub second: u8x32,
    pub third: u8x32,
    pub fourth: u8x32,
}

impl LookedUp {
    /// The buckets before a span: none, since there are no bytes.
    #[inline(always)]
    pub fn before_span() -> LookedUp
        ensures { (f : FingerprintsValue) (haystack : List ℕ) (start : ℕ) → IsLookedUp result f haystack start start }
    {
        let none = u8x32::splat(0);
        LookedUp {
            first: none,
            second: none,
            third: none,
            fourth: none,
        }
    }

    /// For each of 16 bytes, the buckets that it shares with the three bytes before. The first three may be in the 16
    /// bytes before.
    #[inline(always)]
    pub fn shared_after(self, before: LookedUp) -> u8x16
        ensures { (f : FingerprintsValue) (haystack : List ℕ) (start at : ℕ)
            → IsLookedUp before f haystack start at → IsLookedUp self f haystack start (at + 16)
            → HasLanes result (λ k. shared_from buckets_of f haystack start (at + (13 + k))) }
    {
        let start = both_wide(
            three_back_in_both(before.first, self.first),
            two_back_in_both(before.second, self.second),
        );
        let end = both_wide(one_back_in_both(before.third, self.third), self.fourth);
        let shared = both_wide(start, end);
        both(front_half(shared), back_half(shared))
    }
}
