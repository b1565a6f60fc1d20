//! A pattern of at most 16 bytes, compared at once with as many bytes of a haystack.
ghost use Rattle.std.specs.Prelude.{◌≡◌, ℕ, ◌+◌, ◌<◌, ◌≤◌, ◌↔◌, ◌⊎◌, IsTrue, MatchOption};
ghost use Rattle.std.specs.Prelude.{bit_xor, false, length, slice_index, take};
ghost use Rattle.literal_base.specs.Occurs.{StandsAt};
ghost use Rattle.literal_fingerprints.specs.Inside.Lanes.{HasLanes};
ghost use Rattle.literal_fingerprints.specs.ShortPatterns.{IsShort, short_in};

use crate::lanes::{LANES, load, zeros_before};
use literal_base::count::Tally;
use std::simd::prelude::*;

/// The size of a short pattern in bytes.
pub const SHORT_BYTES: usize = 20;

/// Where the pattern is in these bytes.
const PATTERN_AT: usize = 4;

/// A pattern of at most 16 bytes, with case kept.
#[derive(Clone, Copy)]
pub struct ShortPattern {
    /// The pattern, followed by any bytes.
    pub bytes: [u8; LANES],
    /// Its length in bytes.
    pub len: u8,
}

impl ShortPattern {
    /// Returns a pattern, or `None` if it is empty or has more than 16 bytes.
    pub fn new(pattern: &[u8]) -> Option<ShortPattern>
        ensures { MatchOption result ((length pattern.now ≡ 0) ⊎ (16 < length pattern.now))
            (λ short. IsShort short pattern.now) }
    {
        if pattern.is_empty() || pattern.len() > LANES {
            return None;
        }
        let mut bytes = [0; LANES];
        bytes[..pattern.len()].copy_from_slice(pattern);
        Some(ShortPattern {
            bytes,
            len: pattern.len() as u8,
        })
    }

    /// Returns whether the haystack has the pattern at an offset, never if `len` is more than 16. Reads 16 bytes.
    #[inline(always)]
    pub fn is_at(&self, haystack: &[u8], at: usize, tally: &mut Tally) -> bool
        requires { at + 16 ≤ length haystack.now }
        ensures stands { IsTrue result ↔ ((self.now.len ≤ 16)
            × StandsAt false (take self.now.len self.now.bytes) haystack.now at) }
        ensures ticks { tally.new ≡ record tally.old { scanned = tally.old.scanned + 16 } }
    {
        let here = load(haystack, at, tally);
        zeros_before(differing(here, &self.bytes)) >= self.len as usize
    }

    /// Returns the pattern as bytes, for [`ShortPattern::from_bytes`]. The first of them is not 0.
    pub fn to_bytes(&self) -> [u8; SHORT_BYTES]
        ensures pattern { short_in result ≡ self.now }
        ensures some { 0 < slice_index result 0 }
    {
        let mut bytes = [0; SHORT_BYTES];
        bytes[0] = 1;
        bytes[1] = self.len;
        bytes[PATTERN_AT..].copy_from_slice(&self.bytes);
        bytes
    }

    /// Returns the pattern in any bytes. The first of them is not used.
    #[inline(always)]
    pub fn from_bytes(bytes: &[u8; SHORT_BYTES]) -> ShortPattern
        ensures { result ≡ short_in bytes.now }
    {
        let mut pattern = [0; LANES];
        pattern.copy_from_slice(&bytes[PATTERN_AT..]);
        ShortPattern {
            bytes: pattern,
            len: bytes[1],
        }
    }
}

/// The bits in which 16 bytes differ from others.
#[inline(always)]
fn differing(bytes: u8x16, others: &[u8; LANES]) -> u8x16
    ensures { HasLanes result (λ k. bit_xor (slice_index bytes k) (slice_index others.now k)) }
{
    bytes ^ u8x16::from_slice(others)
}
