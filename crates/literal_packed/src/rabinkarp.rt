//! The search by Rabin and Karp: the sum of a window that moves through the haystack byte by byte says which patterns
//! can be at an offset.
ghost use Rattle.std.specs.Prelude.{◌≡◌, ◌↔◌, ℕ, ◌≤◌, ◌<◌, ◌+◌, ◌-◌, ◌*◌, ◌%◌, ◌^◌, List, [], ◌∷◌, ◌++◌, false, length};
ghost use Rattle.std.specs.Prelude.{take, All, count_by, ◌==◌, IfOk, IsTrue, OnOk, MatchOption, Some, slice_get};
ghost use Rattle.literal_base.specs.Occurs.{StandsAt, pattern_at, rest_from};
ghost use Rattle.literal_base.specs.Leftmost.{IsLeftmost};
ghost use Rattle.literal_packed.specs.PatternsValue.{query_of, IsInOrder, minimum_len_of};
ghost use Rattle.literal_packed.specs.Inside.Place.{IsBestAt, NoneStandsAt, pairs_answered};
ghost use Rattle.literal_packed.specs.Inside.Entries.{entry_at};
ghost use Rattle.literal_packed.specs.Sum.{sum_of};
ghost use Rattle.literal_packed.specs.Pairs.{has_equal_sum, has_equal_bucket, window_sum, counts_after};
ghost use Rattle.literal_packed.specs.RabinKarpValue.{IsMadeFor, bucket_at};

mod entries;

use crate::pattern::Patterns;
use entries::{BUCKETS, BucketEntries};
use literal_base::count::Tally;
use literal_base::{Match, Span};
use literal_ids::PatternID;
use std::alloc::{AllocError, Global};
use std::marker::Model;

/// The sum of a window of bytes, modulo 2^64. Each byte counts times 2 to the power of the number of bytes after it in
/// the window. The window is filled by [`Rolling::push`], and then moves by [`Rolling::roll`]. Contracts see the length
/// of the full window, and the sum.
///
/// The sum is kept in two parts: the sum before the last byte came in, and the change by that byte and by the one that
/// left. So the compiler keeps the product of a roll out of the chain of sums, for which a search waits at each offset.
#[derive(Drop)]
pub struct Rolling {
    window: usize,
    before: usize,
    change: usize,
    power: usize,
}

impl Model for Rolling {
    ghost use Rattle.std.specs.Prelude.{◌≡◌, ◌≤◌, ◌+◌, ◌*◌, ◌%◌, ◌^◌};
    ghost use Rattle.literal_packed.specs.Inside.Rolling.{power_of};
    ghost use Rattle.literal_packed.specs.RollingValue.{RollingValue};

    ghost Value = { RollingValue };

    ghost view = { λ r. record { window = r.window; sum = ((r.before * 2) % 2 ^ 64 + r.change) % 2 ^ 64 } };

    ghost invariant = { λ r. (1 ≤ r.window) × (r.power ≡ power_of r.window) };
}

impl Rolling {
    /// An empty window with the sum 0. The full window has this many bytes, at least one.
    pub fn new(window: usize) -> Rolling
        requires { 1 ≤ window }
        ensures { result ≡ record { window = window; sum = 0 } }
    {
        // From 64 bytes on, the factor of a byte that leaves is a multiple of 2^64.
        let power = if window < usize::BITS as usize {
            1 << window
        } else {
            0
        };
        Rolling {
            window,
            before: 0,
            change: 0,
            power,
        }
    }

    /// Adds one byte to the end of the window. It counts as one byte hashed.
    pub fn push(&mut self, byte: u8, tally: &mut Tally)
        ensures value { self.new.sum ≡ (2 * self.old.sum + byte) % 2 ^ 64 }
        ensures sum { (w : List ℕ) → self.old.sum ≡ sum_of w → self.new.sum ≡ sum_of (w ++ byte ∷ []) }
        ensures window { self.new.window ≡ self.old.window }
        ensures exact { tally.new ≡ record tally.old { hashed = tally.old.hashed + 1 } }
    {
        tally.tick_hashed();
        self.before = self.value();
        self.change = byte as usize;
    }

    /// Moves a full window by one byte: its first byte `old` leaves, and `new` comes in at the end. It counts as one
    /// byte hashed. If the window is not full, or does not begin with `old`, the sum changes by the same equation.
    pub fn roll(&mut self, old: u8, new: u8, tally: &mut Tally)
        // This is 2 * (sum - old * 2 ^ (window - 1)) + new, modulo 2 ^ 64.
        ensures value { self.new.sum
            ≡ (2 * self.old.sum + new + (2 ^ 64 - old * 2 ^ self.old.window % 2 ^ 64)) % 2 ^ 64 }
        ensures sum { (w : List ℕ) → length (old ∷ w) ≡ self.old.window → self.old.sum ≡ sum_of (old ∷ w)
            → self.new.sum ≡ sum_of (w ++ new ∷ []) }
        ensures window { self.new.window ≡ self.old.window }
        ensures exact { tally.new ≡ record tally.old { hashed = tally.old.hashed + 1 } }
    {
        tally.tick_hashed();
        self.before = self.value();
        self.change = (new as usize).wrapping_sub((old as usize).wrapping_mul(self.power));
    }

    /// The sum of the bytes in the window.
    pub fn value(&self) -> usize
        ensures { result ≡ self.now.sum }
    {
        self.before.wrapping_shl(1).wrapping_add(self.change)
    }
}

/// The sum of the first bytes of a pattern.
fn sum_of_first(bytes: &[u8], window: usize, tally: &mut Tally) -> usize
    requires some { 1 ≤ window }
    requires room { window ≤ length bytes.now }
    ensures sum { result ≡ sum_of (take window bytes.now) }
    ensures exact { tally.new ≡ record tally.old { hashed = tally.old.hashed + window } }
{
    let mut rolling = Rolling::new(window);
    for byte in &bytes[..window] {
        rolling.push(*byte, tally);
    }
    rolling.value()
}

/// Whether a pattern is at an offset. It is not inlined: it is called seldom, and the loop over the offsets keeps all
/// registers.
#[cold]
#[inline(never)]
fn stands_at(
    patterns: &Patterns,
    id: PatternID,
    haystack: &[u8],
    at: usize,
    tally: &mut Tally,
) -> bool
    requires is_pattern { id < length patterns.now.patterns }
    requires in_haystack { at ≤ length haystack.now }
    ensures stands { IsTrue result ↔ StandsAt false (pattern_at patterns.now.patterns id) haystack.now at }
    ensures exact { tally.new ≡ record tally.old { compared = tally.old.compared + 1 } }
{
    patterns.matches_at(id, haystack, at, false, tally)
}

/// The match of a pattern that is at an offset.
fn found_at(patterns: &Patterns, id: PatternID, at: usize) -> Match
    requires is_pattern { id < length patterns.now.patterns }
    requires room { at + length (pattern_at patterns.now.patterns id) < 2 ^ 64 }
    ensures { result ≡ record { pattern = id; start = at; end = at + length (pattern_at patterns.now.patterns id) } }
{
    let end = at + patterns.get(id).len();
    Match::new(id, Span { start: at, end })
}

/// Patterns in 64 buckets, by the sums of their first bytes, up to the shortest pattern's length. The bucket of a
/// pattern is its sum modulo 64; a bucket is in match order. The patterns themselves are not included: each search has
/// to get the patterns for which this was made. Contracts see the length of the window and the entries of each bucket.
#[derive(Drop)]
pub struct RabinKarp {
    entries: BucketEntries,
    minimum_len: usize,
}

impl Model for RabinKarp {
    ghost use Rattle.literal_packed.specs.RabinKarpValue.{RabinKarpValue};

    ghost Value = { RabinKarpValue };

    ghost view = { λ r. record { minimum_len = r.minimum_len; buckets = r.entries } };
}

impl RabinKarp {
    /// Made for these patterns. There has to be at least one, and they have to be in order. The tally counts the bytes
    /// of the patterns that are hashed; if memory is refused, those that were hashed before.
    pub fn new(patterns: &Patterns, tally: &mut Tally) -> Result<RabinKarp, AllocError>
        requires some { 0 < length patterns.now.patterns }
        requires in_order { IsInOrder patterns.now }
        ensures made { IfOk result (IsMadeFor patterns.now) }
        ensures exact { OnOk result (tally.new ≡ record tally.old {
          hashed = tally.old.hashed + length patterns.now.patterns * minimum_len_of patterns.now.patterns;
        }) }
        ensures others { tally.new ≡ record tally.old { hashed = tally.new.hashed } }
        ensures grows { tally.old.hashed ≤ tally.new.hashed }
    {
        let minimum_len = patterns.minimum_len();
        let mut list = Vec::with_capacity(patterns.allocator(), patterns.len())?;
        for (id, pattern) in patterns.iter() {
            list.push((sum_of_first(pattern.bytes(), minimum_len, tally), id))?;
        }
        Ok(RabinKarp {
            entries: BucketEntries::new(list)?,
            minimum_len,
        })
    }

    /// A copy, made for the same patterns. It takes memory for the entries. If that is refused there is no copy, and
    /// this is unchanged.
    pub fn try_clone(&self) -> Result<RabinKarp, AllocError>
        ensures { IfOk result (λ copy. copy ≡ self.now) }
    {
        Ok(RabinKarp {
            entries: self.entries.try_clone()?,
            minimum_len: self.minimum_len,
        })
    }

    /// Reads one more entry of the bucket of a sum, if there is one. If the sums are equal, it compares the pattern at
    /// the offset. Returns the pattern if it is there.
    #[inline(always)]
    fn try_entry(
        &self,
        k: usize,
        sum: usize,
        patterns: &Patterns,
        haystack: &[u8],
        at: usize,
        tally: &mut Tally,
    ) -> Option<PatternID>
        requires made { IsMadeFor patterns.now self.now }
        requires sum { sum ≡ window_sum patterns.now.patterns haystack.now at }
        requires in_haystack { at ≤ length haystack.now }
        requires within { 2 ≤ k → k < length (bucket_at self.now (sum % BUCKETS)) }
        ensures found { MatchOption result
            (All (λ e. ¬ StandsAt false (pattern_at patterns.now.patterns e.1) haystack.now at)
            (entry_at (bucket_at self.now (sum % BUCKETS)) k))
            (λ id. (slice_get (bucket_at self.now (sum % BUCKETS)) k ≡ Some (sum, id))
            × StandsAt false (pattern_at patterns.now.patterns id) haystack.now at) }
        ensures exact { tally.new ≡ record tally.old {
          entries = tally.old.entries + length (entry_at (bucket_at self.now (sum % BUCKETS)) k);
          compared = tally.old.compared + count_by (λ e. e.0 == sum) (entry_at (bucket_at self.now (sum % BUCKETS)) k);
        } }
    {
        let (entry_sum, id) = self.entries.entry(sum % BUCKETS, k, tally);
        if entry_sum == sum && stands_at(patterns, id, haystack, at, tally) {
            Some(id)
        } else {
            None
        }
    }

    /// The first pattern in match order that is at an offset whose window has the sum. It is called at each offset,
    /// mostly in vain. If `single` says that no bucket has a second entry, it reads none.
    #[inline(always)]
    fn look_up(
        &self,
        single: bool,
        rolling: &Rolling,
        patterns: &Patterns,
        haystack: &[u8],
        at: usize,
        tally: &mut Tally,
    ) -> Option<PatternID>
        requires made { IsMadeFor patterns.now self.now }
        requires sum { rolling.now.sum ≡ window_sum patterns.now.patterns haystack.now at }
        requires in_haystack { at ≤ length haystack.now }
        requires single { IsTrue single → (k : ℕ) → k < BUCKETS → length (bucket_at self.now k) ≤ 1 }
        ensures best { MatchOption result
            (NoneStandsAt patterns.now.patterns false haystack.now at)
            (IsBestAt (query_of patterns.now) false haystack.now at) }
        ensures exact { tally.new ≡ record tally.old {
          entries = tally.old.entries + pairs_answered (has_equal_bucket patterns.now.patterns haystack.now)
              (query_of patterns.now) at result;
          compared = tally.old.compared + pairs_answered (has_equal_sum patterns.now.patterns haystack.now)
              (query_of patterns.now) at result;
        } }
    {
        let sum = rolling.value();
        if let Some(id) = self.try_entry(0, sum, patterns, haystack, at, tally) {
            return Some(id);
        }
        if single {
            return None;
        }
        if let Some(id) = self.try_entry(1, sum, patterns, haystack, at, tally) {
            return Some(id);
        }
        if !self.entries.is_longer(sum % BUCKETS) {
            return None;
        }
        for k in 2..self.entries.len(sum % BUCKETS) {
            if let Some(id) = self.try_entry(k, sum, patterns, haystack, at, tally) {
                return Some(id);
            }
        }
        None
    }

    /// The answer of [`RabinKarp::find_at`]. `SINGLE` may say that no bucket has a second entry: then one test per
    /// offset replaces three.
    // Not inlined, so that each of its two loops has all registers. The address of a loop matters, by up to 40 percent
    // with few patterns (docs/MEASURED.md, "The packed search").
    #[inline(never)]
    fn walk<const SINGLE: bool>(
        &self,
        patterns: &Patterns,
        haystack: &[u8],
        at: usize,
        tally: &mut Tally,
    ) -> Option<Match>
        requires made { IsMadeFor patterns.now self.now }
        requires in_haystack { at ≤ length haystack.now }
        requires single { IsTrue SINGLE → (k : ℕ) → k < BUCKETS → length (bucket_at self.now k) ≤ 1 }
        ensures leftmost { IsLeftmost (query_of patterns.now) false haystack.now (rest_from haystack.now at) result }
        ensures exact { tally.new ≡ counts_after tally.old (query_of patterns.now) haystack.now
            (rest_from haystack.now at) result }
    {
        let end = haystack.len();
        let minimum_len = self.minimum_len;
        if minimum_len > end - at {
            return None;
        }
        let mut rolling = Rolling::new(minimum_len);
        for k in at..at + minimum_len {
            rolling.push(haystack[k], tally);
        }
        let last = end - minimum_len;
        for place in at..last {
            if let Some(id) = self.look_up(SINGLE, &rolling, patterns, haystack, place, tally) {
                return Some(found_at(patterns, id, place));
            }
            rolling.roll(haystack[place], haystack[place + minimum_len], tally);
        }
        let id = self.look_up(SINGLE, &rolling, patterns, haystack, last, tally)?;
        Some(found_at(patterns, id, last))
    }

    /// The leftmost match that begins at the offset `at` or after it. All offsets are in bytes of the whole haystack.
    /// `at` has to be at most the haystack's length, and the patterns have to be those for which this was made. The
    /// steps are added to the tally.
    pub fn find_at(
        &self,
        patterns: &Patterns,
        haystack: &[u8],
        at: usize,
        tally: &mut Tally,
    ) -> Option<Match>
        requires made { IsMadeFor patterns.now self.now }
        requires in_haystack { at ≤ length haystack.now }
        ensures leftmost { IsLeftmost (query_of patterns.now) false haystack.now (rest_from haystack.now at) result }
        ensures exact { tally.new ≡ counts_after tally.old (query_of patterns.now) haystack.now
            (rest_from haystack.now at) result }
    {
        if self.entries.is_single() {
            self.walk::<true>(patterns, haystack, at, tally)
        } else {
            self.walk::<false>(patterns, haystack, at, tally)
        }
    }
}
