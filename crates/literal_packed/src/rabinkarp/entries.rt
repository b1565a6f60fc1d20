//! The entries of all buckets. Its fields are private here, so that entries are read only by `entry`, which counts.
ghost use Rattle.std.specs.Prelude.{◌≡◌, ◌≢◌, ◌↔◌, ◌≤◌, ◌<◌, ◌+◌, ◌%◌, ℕ, List, [], ◌∷◌, ◌++◌, length, map, replicate};
ghost use Rattle.std.specs.Prelude.{nat_lt, if◌then◌else◌};
ghost use Rattle.std.specs.Prelude.{IfOk, IsTrue, Some, slice_get, slice_index_or};
ghost use Rattle.std.specs.List.{range_with_len};
ghost use Rattle.std.specs.List.Sorted.{IsNonDecreasingBy};
ghost use Rattle.literal_packed.specs.Inside.Entries.{bucket_number, AreBucketsOf, AreStarts, AreHeads, AreLonger};
ghost use Rattle.literal_packed.specs.Inside.Entries.{IsSingle, entry_buckets, start_at};

use literal_base::count::Tally;
use literal_ids::PatternID;
use std::alloc::AllocError;
use std::marker::Model;

/// The number of buckets, as in the original. It is a power of two, so that the last bits of a sum are its bucket; and
/// a word has as many bits, so that it has a bit for each bucket.
pub const BUCKETS: usize = 64;

/// The entries of all buckets, a sum and an identifier each. Contracts see the list of the entries of each bucket.
///
/// All entries are in one list, bucket after bucket: those of bucket `k` from index `starts[k]` up to `starts[k + 1]`.
/// The first two of each bucket are also in `firsts` and `seconds`, so that a look-up need not test whether there are
/// any. If bucket `k` has no such entry, there is one with the sum `k + 1`, which is no sum of this bucket. Bit `k` of
/// `longer` says whether the bucket has more than two. `single` says whether no bucket has a second one.
#[derive(Drop)]
pub struct BucketEntries {
    firsts: [(usize, PatternID); BUCKETS],
    seconds: [(usize, PatternID); BUCKETS],
    longer: u64,
    single: bool,
    starts: [usize; BUCKETS + 1],
    list: Vec<(usize, PatternID)>,
}

impl Model for BucketEntries {
    ghost use Rattle.std.specs.Prelude.{ℕ, List};
    ghost use Rattle.literal_packed.specs.Inside.Entries.{entry_buckets, IsLaidOut};

    ghost Value = { List (List (ℕ × ℕ)) };

    ghost view = { λ b. entry_buckets b.starts b.list.items };

    ghost invariant = { λ b. IsLaidOut b.firsts b.seconds b.starts b.longer b.single b.list.items };
}

impl BucketEntries {
    /// Puts the entries of a list into their buckets, in the order of the list. The sort takes memory.
    pub fn new(mut list: Vec<(usize, PatternID)>) -> Result<BucketEntries, AllocError>
        ensures { IfOk result (AreBucketsOf list.items) }
    {
        // (A stable sort: the entries of a bucket keep their order.)
        list.sort_by_key(|entry| entry.0 % BUCKETS)?;
        let starts = starts_of(list.as_slice());
        Ok(BucketEntries {
            firsts: heads_of(&starts, list.as_slice(), 0),
            seconds: heads_of(&starts, list.as_slice(), 1),
            longer: longer_of(&starts),
            single: single_of(&starts),
            starts,
            list,
        })
    }

    /// A copy. It takes memory for the list. If that is refused there is no copy, and this is unchanged.
    pub fn try_clone(&self) -> Result<BucketEntries, AllocError>
        ensures { IfOk result (λ copy. copy ≡ self.now) }
    {
        let list = Vec::from_slice(*self.list.allocator(), self.list.as_slice())?;
        Ok(BucketEntries {
            firsts: heads_of(&self.starts, list.as_slice(), 0),
            seconds: heads_of(&self.starts, list.as_slice(), 1),
            longer: self.longer,
            single: self.single,
            starts: self.starts,
            list,
        })
    }

    /// The number of entries of a bucket.
    pub fn len(&self, bucket: usize) -> usize
        requires { bucket < BUCKETS }
        ensures { result ≡ length (slice_index_or self.now bucket []) }
    {
        self.starts[bucket + 1] - self.starts[bucket]
    }

    /// Whether a bucket has more than two entries.
    pub fn is_longer(&self, bucket: usize) -> bool
        requires { bucket < BUCKETS }
        ensures { IsTrue result ↔ (2 < length (slice_index_or self.now bucket [])) }
    {
        self.longer >> bucket & 1 == 1
    }

    /// Whether no bucket has a second entry.
    pub fn is_single(&self) -> bool
        ensures { IsTrue result ↔ ((k : ℕ) → k < BUCKETS → length (slice_index_or self.now k []) ≤ 1) }
    {
        self.single
    }

    /// Reads one entry of a bucket, and counts it. The first two may be read even if the bucket has fewer: then nothing
    /// is counted, and the sum in the answer is no sum of the bucket.
    pub fn entry(&self, bucket: usize, k: usize, tally: &mut Tally) -> (usize, PatternID)
        requires is_bucket { bucket < BUCKETS }
        requires within { 2 ≤ k → k < length (slice_index_or self.now bucket []) }
        ensures entry { k < length (slice_index_or self.now bucket [])
            → slice_get (slice_index_or self.now bucket []) k ≡ Some result }
        ensures none { length (slice_index_or self.now bucket []) ≤ k → result.0 % BUCKETS ≢ bucket }
        ensures exact { tally.new ≡ record tally.old {
          entries = tally.old.entries + (if nat_lt k (length (slice_index_or self.now bucket [])) then 1 else 0);
        } }
    {
        if k < self.len(bucket) {
            tally.tick_entries();
        }
        match k {
            0 => self.firsts[bucket],
            1 => self.seconds[bucket],
            _ => self.list[self.starts[bucket] + k],
        }
    }
}

/// The index at which each bucket begins in a list that is sorted by bucket, and last the length of the list.
fn starts_of(list: &[(usize, PatternID)]) -> [usize; BUCKETS + 1]
    requires { IsNonDecreasingBy bucket_number list.now }
    ensures { AreStarts result list.now }
{
    let mut starts = [0; BUCKETS + 1];
    for bucket in 0..BUCKETS + 1 {
        starts[bucket] = list.partition_point(|entry| entry.0 % BUCKETS < bucket);
    }
    starts
}

/// Entry `i` of each bucket. If bucket `k` has no such entry, there is one with the sum `k + 1`, which is no sum of
/// this bucket.
fn heads_of(
    starts: &[usize; BUCKETS + 1],
    list: &[(usize, PatternID)],
    i: usize,
) -> [(usize, PatternID); BUCKETS]
    requires { AreStarts starts.now list.now }
    ensures { AreHeads i starts.now list.now result }
{
    let mut heads = [(0, PatternID::ZERO); BUCKETS];
    for bucket in 0..BUCKETS {
        let start = starts[bucket];
        heads[bucket] = if i < starts[bucket + 1] - start {
            list[start + i]
        } else {
            (bucket + 1, PatternID::ZERO)
        };
    }
    heads
}

/// The buckets with more than two entries, as bits.
fn longer_of(starts: &[usize; BUCKETS + 1]) -> u64
    ensures { AreLonger starts.now result }
{
    let mut longer = 0;
    for bucket in 0..BUCKETS {
        if starts[bucket + 1].saturating_sub(starts[bucket]) > 2 {
            longer |= 1 << bucket;
        }
    }
    longer
}

/// Whether no bucket has a second entry.
fn single_of(starts: &[usize; BUCKETS + 1]) -> bool
    ensures { IsSingle starts.now result }
{
    for bucket in 0..BUCKETS {
        if starts[bucket + 1].saturating_sub(starts[bucket]) > 1 {
            return false;
        }
    }
    true
}

/// The layout of the entries of three patterns, computed by hand: `ab`, `ba` and `ab` have the sums 292, 293 and 292,
/// in the buckets 36 and 37.
fn worked_layout()
    ensures { (starts : List ℕ) (entries : List (ℕ × ℕ)) → AreStarts starts entries
        → AreBucketsOf ((292, 0) ∷ (293, 1) ∷ (292, 2) ∷ []) (entry_buckets starts entries)
        → (entries ≡ (292, 0) ∷ (292, 2) ∷ (293, 1) ∷ [])
        × (map (start_at starts) (range_with_len 0 65) ≡ replicate 37 0 ++ 2 ∷ replicate 27 3) }
{}
