//! Assigns each pattern to a bucket. The choice of the bucket is not verified: it only makes a scan faster or slower.
ghost use Rattle.std.specs.Prelude.{◌≡◌, ℕ, ◌^◌, ◌<◌, ◌≤◌, ◌↔◌, IsTrue, List, drop, length, map, slice_index, true};
ghost use Rattle.std.specs.List.{All};
ghost use Rattle.literal_base.specs.Occurs.{same_byte};
ghost use Rattle.literal_fingerprints.specs.Inside.Buckets.{AreTooFull, HasByte, Holds, IsHeld, bytes_of, texts_of};

use crate::nibbles::{Nibbles, other_case};

/// The largest number of bytes of each pattern in a fingerprint.
pub const LOOKED_AT: usize = 4;

/// The number of buckets.
const BUCKETS: usize = 8;

/// The byte 0 counts like so many other bytes, since it is by far the most frequent one in binary files.
const ZERO: u64 = 64;

/// At most so many bytes of each pattern are skipped.
const MOST_SKIPPED: usize = 16;

/// A scan is faster than a search if at most one of `PASSING` texts passes, and one of `NEEDLESS` is a false positive.
/// These numbers were measured.
const PASSING: u64 = 8;

const NEEDLESS: u64 = 256;

/// The nibbles of some bytes, as sets.
#[derive(Clone, Copy)]
struct Halves {
    low: u16,
    high: u16,
}

impl Halves {
    /// The same with the nibbles of one more byte.
    fn with(self, byte: u8) -> Halves
        ensures has { HasByte result byte }
        ensures keeps { (other : ℕ) → HasByte self other → HasByte result other }
    {
        Halves {
            low: self.low | 1u16 << (byte % 16),
            high: self.high | 1u16 << (byte / 16),
        }
    }

    /// The same with the nibbles of all bytes.
    fn with_all(self) -> Halves
        ensures { (other : ℕ) → HasByte self other → HasByte result other }
    {
        Halves {
            low: self.low | u16::MAX,
            high: self.high | u16::MAX,
        }
    }

    /// The same with the nibbles of the byte at an offset of a pattern, in both cases if case is ignored. After the
    /// pattern, a text may have any byte.
    fn with_place(self, ignore_case: bool, pattern: &[u8], place: usize) -> Halves
        ensures has { place < length pattern.now → (byte : ℕ)
            → same_byte ignore_case byte (slice_index pattern.now place) ≡ true → HasByte result byte }
        ensures keeps { (other : ℕ) → HasByte self other → HasByte result other }
    {
        if place >= pattern.len() {
            return self.with_all();
        }
        let byte = pattern[place];
        self.with(byte).with(other_case(ignore_case, byte))
    }

    /// The same with the nibbles of the first bytes of a pattern, at most four.
    fn with_first(self, ignore_case: bool, pattern: &[u8]) -> Halves {
        let mut halves = self;
        for place in 0..LOOKED_AT.min(pattern.len()) {
            halves = halves.with_place(ignore_case, pattern, place);
        }
        halves
    }

    /// The number of bytes with such nibbles, where the byte 0 counts like [`ZERO`] bytes.
    fn bytes(self) -> u64
        ensures { result ≡ bytes_of self }
    {
        let zero = self.low & self.high & 1;
        (self.low.count_ones() * self.high.count_ones()) as u64 + zero as u64 * (ZERO - 1)
    }
}

/// The nibbles of the bytes at each position of the patterns of a bucket.
#[derive(Clone, Copy)]
struct Bucket {
    places: [Halves; LOOKED_AT],
}

impl Bucket {
    /// The bucket of no pattern.
    fn empty() -> Bucket {
        Bucket {
            places: [Halves { low: 0, high: 0 }; LOOKED_AT],
        }
    }

    /// The same with one more pattern.
    fn with(self, ignore_case: bool, pattern: &[u8]) -> Bucket
        ensures holds { Holds result ignore_case pattern.now }
        ensures keeps { (other : List ℕ) → Holds self ignore_case other → Holds result ignore_case other }
    {
        let mut places = self.places;
        for place in 0..LOOKED_AT {
            places[place] = places[place].with_place(ignore_case, pattern, place);
        }
        Bucket { places }
    }

    /// The number of texts of four bytes that pass, if bytes have `kinds` values.
    fn texts(&self, kinds: u64) -> u64
        requires { kinds ≤ 319 }
        ensures texts { result ≡ texts_of kinds self.now }
        ensures bound { result ≤ 2 ^ 34 }
    {
        let [first, second, third, fourth] = self.places;
        let start = first.bytes().min(kinds) * second.bytes().min(kinds);
        let end = third.bytes().min(kinds) * fourth.bytes().min(kinds);
        start * end
    }
}

/// Patterns, each in one of eight buckets.
#[derive(Clone, Copy)]
pub struct Buckets {
    buckets: [Bucket; BUCKETS],
    /// The number of values that a byte of a text may have.
    kinds: u64,
    /// The number of texts of four bytes that begin like a pattern.
    wanted: u64,
}

impl Buckets {
    /// Puts each pattern, without the skipped bytes, into the bucket where it lets the fewest more texts pass.
    pub fn of(ignore_case: bool, skipped: usize, patterns: &[Vec<u8>]) -> Buckets
        ensures kinds { result.kinds ≤ 319 }
        ensures held { All (λ (pattern : List ℕ). IsHeld result.buckets ignore_case (drop skipped pattern))
            (map (λ pattern. pattern.items) patterns.now) }
    {
        let none = Bucket::empty();
        let kinds = kinds_of(ignore_case, skipped, patterns);
        let mut buckets = [none; BUCKETS];
        let mut wanted: u64 = 0;
        for pattern in patterns {
            let rest = after_skipped(pattern, skipped);
            let best = best_for(&buckets, kinds, ignore_case, rest);
            buckets[best] = buckets[best].with(ignore_case, rest);
            wanted = wanted.wrapping_add(none.with(ignore_case, rest).texts(kinds));
        }
        Buckets {
            buckets,
            kinds,
            wanted,
        }
    }

    /// Whether so many texts pass, or so many are false positives, that a scan is no faster than a search.
    pub fn are_too_full(&self) -> bool
        requires { self.now.kinds ≤ 319 }
        ensures { IsTrue result ↔ AreTooFull self.now }
    {
        let mut texts: u64 = 0;
        for bucket in &self.buckets {
            texts += bucket.texts(self.kinds);
        }
        let pairs = self.kinds * self.kinds;
        let all = pairs * pairs;
        texts > all / PASSING || texts.saturating_sub(self.wanted) > all / NEEDLESS
    }

    /// The table for one position.
    pub fn table(&self, place: usize) -> Nibbles
        requires { place < LOOKED_AT }
    {
        let (mut low, mut high) = ([0; 16], [0; 16]);
        for bucket in 0..BUCKETS {
            let halves = self.buckets[bucket].places[place];
            let bit = 1u8 << bucket;
            for half in 0usize..16 {
                if (halves.low >> half) & 1 == 1 {
                    low[half] |= bit;
                }
                if (halves.high >> half) & 1 == 1 {
                    high[half] |= bit;
                }
            }
        }
        Nibbles { low, high }
    }
}

/// A pattern without its first bytes, as many as are skipped.
pub fn after_skipped(pattern: &[u8], skipped: usize) -> &[u8]
    ensures { result.now ≡ drop skipped pattern.now }
{
    &pattern[skipped.min(pattern.len())..]
}

/// How many first bytes of each pattern are skipped when fingerprints are made: where the byte 0 is frequent in these,
/// as many as leave the fewest of it in the fingerprints.
pub fn bytes_before_fingerprints(patterns: &[Vec<u8>]) -> u8 {
    let most = least_len(patterns).saturating_sub(LOOKED_AT);
    let (mut skipped, mut least) = (0, zeros_after(patterns, 0));
    for at in 1..=most.min(MOST_SKIPPED) {
        let zeros = zeros_after(patterns, at);
        if zeros < least {
            (skipped, least) = (at as u8, zeros);
        }
    }
    skipped
}

/// The length of the shortest pattern.
fn least_len(patterns: &[Vec<u8>]) -> usize {
    let mut least = usize::MAX;
    for pattern in patterns {
        least = least.min(pattern.len());
    }
    least
}

/// How frequently texts begin like one of the patterns without their skipped bytes, if the byte 0 is as frequent as
/// [`ZERO`] others: 0 if none of them has the byte 0 among its next four.
fn zeros_after(patterns: &[Vec<u8>], skipped: usize) -> u64 {
    let mut all: u64 = 0;
    for pattern in patterns {
        all = all.saturating_add(weight_of(after_skipped(pattern, skipped)) - 1);
    }
    all
}

/// The product of the weights of the first four of some bytes: [`ZERO`] for the byte 0, and 1 for others.
fn weight_of(bytes: &[u8]) -> u64
    ensures { 0 < result }
{
    let mut weight: u64 = 1;
    for byte in bytes.iter().take(LOOKED_AT) {
        if *byte == 0 {
            weight = weight.saturating_mul(ZERO);
        }
    }
    weight
}

/// The number of byte values of a text with such patterns: all with the high nibble of one of their first bytes. The
/// byte 0 counts like [`ZERO`] bytes.
fn kinds_of(ignore_case: bool, skipped: usize, patterns: &[Vec<u8>]) -> u64
    ensures { result ≤ 319 }
{
    let mut halves = Halves { low: 0, high: 0 };
    for pattern in patterns {
        halves = halves.with_first(ignore_case, after_skipped(pattern, skipped));
    }
    halves.high.count_ones() as u64 * 16 + (halves.high & 1) as u64 * (ZERO - 1)
}

/// The bucket where the pattern lets the fewest more texts pass.
fn best_for(buckets: &[Bucket; BUCKETS], kinds: u64, ignore_case: bool, pattern: &[u8]) -> usize
    requires { kinds ≤ 319 }
    ensures { result < BUCKETS }
{
    let mut best = 0;
    let mut least = u64::MAX;
    for bucket in 0..BUCKETS {
        let with = buckets[bucket].with(ignore_case, pattern);
        let more = with.texts(kinds).wrapping_sub(buckets[bucket].texts(kinds));
        if more < least {
            best = bucket;
            least = more;
        }
    }
    best
}
