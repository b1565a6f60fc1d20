//! A table of a few bytes, and the search for the first of them in a haystack.
ghost use Rattle.std.specs.List.{All};
ghost use Rattle.std.specs.Prelude.{◌≡◌, ◌+◌, ◌≤◌, ℕ, Some, IfSome, option_map, slice_index};
ghost use Rattle.literal_base.specs.Bytes.{contains};
ghost use Rattle.literal_base.specs.Occurs.{IsValidSpan};
ghost use Rattle.literal_prefilters.specs.Kinds.{CoversAll, IsStep};
ghost use Rattle.literal_prefilters.specs.Sound.{PassesOverNone, KeepsReach};
ghost use Rattle.literal_prefilters.specs.Table.{Covers, size, rank_sum_of, distance_of, reach_of, first_place};
ghost use Rattle.literal_prefilters.specs.Table.{bytes_scanned};
ghost use Rattle.literal_prefilters.specs.Tables.{if_low, if_small, of_set, start_table, rare_table, table_of};

use super::counted_set::CountedSet;
use super::running::Running;
use super::tables;
use crate::prefilter::Candidate;
use literal_base::count::Tally;
use literal_base::search::Span;
use literal_packed::pattern::Patterns;
use std::marker::Model;

/// The largest number of bytes in a table.
pub(super) const MOST_BYTES: usize = 3;

/// A table of one to three bytes, each with a *distance*: the largest number of bytes before the byte at which an
/// occurrence with it may begin, at most 254. Contracts see the distance of each of the 256 bytes, if it is in the
/// table.
///
/// ```rust
/// let mut patterns = Patterns::new(alloc);
/// patterns.add(b"Sherlock")?;
/// patterns.add(b"lockjaw")?;
/// let table = ByteTable::rare(&patterns, false).ok_or("no table for these patterns")?;
/// assert!(rt; table.count() == 1 && table.distance(b'k') == Some(7));
/// let span = Span { start: 0, end: 12 };
/// let place = table.scan(b"I am lockjaw", span, tally);
/// assert!(rt; place == Some(8));
/// ```
#[derive(Drop)]
pub struct ByteTable {
    distances: [Option<u8>; 256],
    count: usize,
    rank_sum: u16,
}

impl Model for ByteTable {
    ghost use Rattle.std.specs.Prelude.{ℕ, List, Option};

    ghost Value = { List (Option ℕ) };

    ghost use Rattle.literal_prefilters.specs.Inside.ByteTable.{IsByteTable};

    ghost view = { λ t. t.distances };

    ghost invariant = { IsByteTable };
}

/// A table byte in a haystack.
#[derive(Clone, Copy, Drop)]
pub(super) struct TableByte {
    pub(super) place: usize,
    pub(super) distance: u8,
}

impl ByteTable {
    /// The table of the first bytes of the patterns, each with the distance 0, and in both cases if ASCII case is
    /// ignored. It exists if these are one to three bytes, all at most 0x7F.
    pub fn start(patterns: &Patterns, ignore_case: bool) -> Option<ByteTable>
        ensures table { result ≡ start_table ignore_case patterns.now.patterns }
        ensures none_back { IfSome result (λ t. reach_of t ≡ 0) }
        ensures covers { IfSome result (λ t. All (Covers t ignore_case) patterns.now.patterns) }
    {
        Running::of(patterns, ignore_case).start_table()
    }

    /// The table of a rare byte of each pattern, in both cases if ASCII case is ignored. The patterns are visited by
    /// ascending identifier. A pattern that has a byte of the table adds none; any other adds its byte of least rank,
    /// the first of equal ones. The distance of a byte is the largest offset at which it is in any pattern, in either
    /// case if case is ignored. The table exists if there is a pattern, each pattern has at most 255 bytes, and these
    /// are at most three bytes.
    pub fn rare(patterns: &Patterns, ignore_case: bool) -> Option<ByteTable>
        ensures table { result ≡ rare_table ignore_case patterns.now.patterns }
        ensures covers { IfSome result (λ t. All (Covers t ignore_case) patterns.now.patterns) }
    {
        Running::of(patterns, ignore_case).rare_table()
    }

    /// The table of the first bytes of patterns, if these are one to three bytes, all at most 0x7F.
    pub(super) fn of_start_bytes(set: &CountedSet) -> Option<ByteTable>
        ensures { result ≡ if_low (of_set (contains set.now)) }
    {
        if set.holds_high() {
            return None;
        }
        ByteTable::if_small(set, &[0; 256])
    }

    /// The table of the bytes of the set with these distances, if it has one to three bytes.
    pub(super) fn if_small(set: &CountedSet, offsets: &[u8; 256]) -> Option<ByteTable>
        requires { (b : ℕ) → slice_index offsets.now b ≤ 254 }
        ensures { result ≡ if_small (table_of (contains set.now) (slice_index offsets.now)) }
    {
        if !set.fits_a_table() {
            return None;
        }
        Some(ByteTable {
            distances: tables::distances(set, offsets),
            count: set.count(),
            rank_sum: set.rank_sum(),
        })
    }

    /// A copy with the same distances.
    pub(super) fn copy(&self) -> ByteTable
        ensures { result ≡ self.now }
    {
        ByteTable {
            distances: self.distances,
            count: self.count,
            rank_sum: self.rank_sum,
        }
    }

    /// The number of its bytes, 1 to 3.
    pub fn count(&self) -> usize
        ensures count { result ≡ size self.now }
        ensures some { 1 ≤ result }
        ensures few { result ≤ 3 }
        ensures near { reach_of self.now ≤ 254 }
    {
        self.count
    }

    /// The sum of the ranks of its bytes, at most 765. A higher sum means more common bytes.
    pub fn rank_sum(&self) -> u16
        ensures rank_sum { result ≡ rank_sum_of self.now }
        ensures low { result ≤ 765 }
    {
        self.rank_sum
    }

    /// The distance of a byte, at most 254, or `None` if the byte is not in the table.
    pub fn distance(&self, byte: u8) -> Option<u8>
        ensures value { result ≡ distance_of self.now byte }
        ensures near { IfSome result (λ d. d ≤ 254) }
    {
        self.distances[byte as usize]
    }

    /// The first offset of the span whose byte is in the table. The span has to be a valid span of the haystack. Each
    /// byte from the span's start up to and including this offset is scanned, or the whole span if there is none.
    pub fn scan(&self, haystack: &[u8], span: Span, tally: &mut Tally) -> Option<usize>
        requires { IsValidSpan haystack.now span }
        ensures place { result ≡ first_place self.now haystack.now span }
        ensures exact { tally.new ≡ record tally.old { scanned = tally.old.scanned + bytes_scanned span result } }
    {
        let found = self.find(haystack, span, tally)?;
        Some(found.place)
    }

    /// The first offset of the span whose byte is in the table, with the byte's distance.
    pub(super) fn find(&self, haystack: &[u8], span: Span, tally: &mut Tally) -> Option<TableByte>
        requires { IsValidSpan haystack.now span }
        ensures place { option_map (λ f. f.place) result ≡ first_place self.now haystack.now span }
        ensures distance { IfSome result (λ f. distance_of self.now (slice_index haystack.now f.place)
            ≡ Some f.distance) }
        ensures exact { tally.new ≡ record tally.old
            { scanned = tally.old.scanned + bytes_scanned span (option_map (λ f. f.place) result) } }
    {
        for place in span.start..span.end {
            tally.tick_scanned();
            if let Some(distance) = self.distances[haystack[place] as usize] {
                return Some(TableByte { place, distance });
            }
        }
        None
    }

    /// An offset before which no covered pattern begins in the span: the offset of the first table byte minus the
    /// byte's distance, but at least the span's start.
    pub(crate) fn candidate(&self, haystack: &[u8], span: Span, tally: &mut Tally) -> Candidate
        requires { IsValidSpan haystack.now span }
        ensures sound { PassesOverNone (CoversAll self.now) haystack.now span result }
        ensures step { IsStep self.now haystack.now span result tally.old tally.new }
        ensures reach { KeepsReach (reach_of self.now) span result tally.old tally.new }
    {
        match self.find(haystack, span, tally) {
            None => Candidate::None,
            Some(found) => {
                let start = found.place.saturating_sub(found.distance as usize);
                Candidate::PossibleStartOfMatch(start.max(span.start))
            }
        }
    }
}
