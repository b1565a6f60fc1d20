//! A collection of patterns, and the order in which they are tried at an offset.
ghost use Rattle.std.specs.Prelude.{◌≡◌, ◌≤◌, ◌<◌, ◌+◌, ◌↔◌, [], length, take, IsTrue, OnOk, OnErr, IfOk};
ghost use Rattle.std.specs.Iterator.{YieldsFirst, item_count};
ghost use Rattle.std.specs.List.{AllPairs, range_with_len};
ghost use Rattle.std.specs.List.Sorted.{IsPermutation, IsSorted};
ghost use Rattle.literal_base.specs.declared.packed.MatchKind.TheVariants.{LeftmostFirst};
ghost use Rattle.literal_base.specs.Occurs.{StandsAt, pattern_at};
ghost use Rattle.literal_base.specs.Leftmost.{IsBetter};
ghost use Rattle.literal_packed.specs.Inside.Longest.{bytes_of, longest_cmp};
ghost use Rattle.literal_packed.specs.PatternsValue.{PatternsValue, no_patterns, with_pattern, minimum_len_of};
ghost use Rattle.literal_packed.specs.PatternsValue.{total_len, in_order, IsInOrder, IsWellFormed};

use literal_base::count::Tally;
use literal_base::packed::MatchKind;
use literal_ids::PatternID;
use std::alloc::{AllocError, Global};
use std::fmt;
use std::marker::Model;

/// Non-empty patterns, numbered from 0 in the order in which they were added, and the order in which they are tried at
/// an offset. The patterns are *in order* if each comes before those to which the match kind prefers it: the one added
/// first with [`MatchKind::LeftmostFirst`]; the longest, and of the longest the one added first, with
/// [`MatchKind::LeftmostLongest`].
#[derive(Drop)]
pub struct Patterns {
    kind: MatchKind,
    by_id: Vec<Vec<u8>>,
    order: Vec<PatternID>,
    minimum_len: usize,
    total_pattern_bytes: u128,
}

impl Model for Patterns {
    ghost use Rattle.literal_packed.specs.PatternsValue.{PatternsValue};

    ghost Value = { PatternsValue };

    ghost use Rattle.literal_packed.specs.Inside.Patterns.{patterns_value, IsConsistent};

    ghost view = { patterns_value };

    ghost invariant = { IsConsistent };
}

impl Patterns {
    /// A collection without patterns, with [`MatchKind::LeftmostFirst`]. It is in order.
    pub fn new(alloc: Global) -> Patterns
        ensures { result ≡ no_patterns }
    {
        Patterns {
            kind: MatchKind::default(),
            by_id: Vec::new(alloc),
            order: Vec::new(alloc),
            minimum_len: usize::MAX,
            total_pattern_bytes: 0,
        }
    }

    /// Adds a copy of a pattern, which gets the next identifier and is tried last. With [`MatchKind::LeftmostFirst`],
    /// patterns in order stay in order; with [`MatchKind::LeftmostLongest`], call [`Patterns::set_match_kind`]
    /// afterwards.
    ///
    /// The pattern must not be empty, and there have to be fewer than [`PatternID::LIMIT`] so far. If memory is
    /// refused, the collection is unchanged.
    pub fn add(&mut self, bytes: &[u8]) -> Result<(), AllocError>
        requires some { 0 < length bytes.now }
        requires room { length self.old.patterns < PatternID.LIMIT }
        ensures ok { OnOk result (self.new ≡ with_pattern self.old bytes.now) }
        ensures in_order { OnOk result (self.old.kind ≡ LeftmostFirst → IsInOrder self.old → IsInOrder self.new) }
        ensures err { OnErr result (self.new ≡ self.old) }
    {
        let id = PatternID::must(self.by_id.len());
        let owned = Vec::from_slice(*self.by_id.allocator(), bytes)?;
        self.order.reserve(1)?;
        self.by_id.push(owned)?;
        self.order.push(id).unwrap();
        self.minimum_len = self.minimum_len.min(bytes.len());
        self.total_pattern_bytes += bytes.len() as u128;
        Ok(())
    }

    /// Sets which occurrence is the match, and puts the patterns in this order. If memory is refused, the collection is
    /// unchanged; with up to 20 patterns none is requested.
    pub fn set_match_kind(&mut self, kind: MatchKind) -> Result<(), AllocError>
        ensures kind { OnOk result (self.new.kind ≡ kind) }
        ensures patterns { self.new.patterns ≡ self.old.patterns }
        ensures in_order { OnOk result (IsInOrder self.new) }
        ensures err { OnErr result (self.new ≡ self.old) }
        ensures no_memory { OnErr result (20 < length self.old.patterns) }
    {
        put_in_order(&mut self.order, self.by_id.as_slice(), kind)?;
        self.kind = kind;
        Ok(())
    }

    /// The number of patterns.
    pub fn len(&self) -> usize
        ensures len { result ≡ length self.now.patterns }
        ensures well_formed { IsWellFormed self.now }
    {
        self.by_id.len()
    }

    /// Whether there is no pattern.
    pub fn is_empty(&self) -> bool
        ensures { IsTrue result ↔ (self.now.patterns ≡ []) }
    {
        self.by_id.is_empty()
    }

    /// Removes all patterns. The collection is then as after [`Patterns::new`].
    pub fn reset(&mut self)
        ensures { self.new ≡ no_patterns }
    {
        *self = Patterns::new(self.allocator());
    }

    /// The length in bytes of the shortest pattern, or `usize::MAX` if there is none.
    pub fn minimum_len(&self) -> usize
        ensures { result ≡ minimum_len_of self.now.patterns }
    {
        self.minimum_len
    }

    /// Which occurrence is the match.
    pub fn match_kind(&self) -> &MatchKind
        ensures { result.now ≡ self.now.kind }
    {
        &self.kind
    }

    /// The pattern with this identifier, which has to be below the number of patterns.
    pub fn get(&self, id: PatternID) -> Pattern<'_>
        requires { id < length self.now.patterns }
        ensures bytes { result ≡ pattern_at self.now.patterns id }
        ensures some { 0 < length result }
    {
        Pattern(&self.by_id[id.as_usize()])
    }

    /// An iterator over the patterns with their identifiers, in the order in which they are tried, each once.
    pub fn iter(&self) -> PatternIter<'_>
        ensures items { result ≡ in_order self.now }
        ensures well_formed { IsWellFormed self.now }
    {
        let _ = &self.kind; // (a read, which gives the proof the invariant of the fields)
        PatternIter {
            patterns: self,
            i: 0,
        }
    }

    /// The sum of the lengths of all patterns, in bytes.
    pub fn total_pattern_bytes(&self) -> u128
        ensures { result ≡ total_len self.now.patterns }
    {
        self.total_pattern_bytes
    }

    /// Whether the haystack contains a pattern, whole, at the offset `at`. With `ignore_case`, both cases of an ASCII
    /// letter are equal. The identifier has to be below the number of patterns, and `at` at most the haystack's length.
    /// This counts as one comparison.
    pub fn matches_at(
        &self,
        id: PatternID,
        haystack: &[u8],
        at: usize,
        ignore_case: bool,
        tally: &mut Tally,
    ) -> bool
        requires is_pattern { id < length self.now.patterns }
        requires in_haystack { at ≤ length haystack.now }
        ensures stands { IsTrue result
            ↔ StandsAt ignore_case (pattern_at self.now.patterns id) haystack.now at }
        ensures exact { tally.new ≡ record tally.old { compared = tally.old.compared + 1 } }
    {
        tally.tick_compared();
        let bytes = self.get(id).bytes();
        if bytes.len() > haystack.len() - at {
            return false;
        }
        let haystack = &haystack[at..at + bytes.len()];
        if ignore_case {
            haystack.eq_ignore_ascii_case(bytes)
        } else {
            haystack == bytes
        }
    }

    /// The allocator of the patterns.
    pub(crate) fn allocator(&self) -> Global {
        *self.by_id.allocator()
    }

    /// A copy with the same patterns, order and match kind. Memory is requested only if there is a pattern. The
    /// collection is unchanged.
    pub fn try_clone(&self) -> Result<Patterns, AllocError>
        ensures copy { IfOk result (λ copy. copy ≡ self.now) }
        ensures no_memory { OnErr result (0 < length self.now.patterns) }
    {
        let alloc = *self.by_id.allocator();
        Ok(Patterns {
            kind: self.kind,
            by_id: copy_of(alloc, self.by_id.as_slice())?,
            order: copy_of_order(alloc, self.order.as_slice())?,
            minimum_len: self.minimum_len,
            total_pattern_bytes: self.total_pattern_bytes,
        })
    }
}

fn copy_of(alloc: Global, lists: &[Vec<u8>]) -> Result<Vec<Vec<u8>>, AllocError>
    ensures copy { IfOk result (λ copy. bytes_of copy.items ≡ bytes_of lists.now) }
    ensures no_memory { OnErr result (0 < length lists.now) }
{
    let mut copy = Vec::new(alloc);
    for bytes in lists {
        copy.push(Vec::from_slice(alloc, bytes.as_slice())?)?;
    }
    Ok(copy)
}

/// A copy of the order. No contract says when `Vec::from_slice` requests memory, so room is reserved first.
fn copy_of_order(alloc: Global, order: &[PatternID]) -> Result<Vec<PatternID>, AllocError>
    ensures copy { IfOk result (λ copy. copy.items ≡ order.now) }
    ensures no_memory { OnErr result (0 < length order.now) }
{
    let mut copy = Vec::with_capacity(alloc, order.len())?;
    copy.extend_from_slice(order)?;
    Ok(copy)
}

/// The length of a pattern, or 0 if there is none with this identifier: the comparison in a sort has to answer for any
/// two identifiers.
fn length_of(by_id: &[Vec<u8>], id: PatternID) -> usize
    ensures { result ≡ length (pattern_at (bytes_of by_id.now) id) }
{
    match by_id.get(id.as_usize()) {
        Some(bytes) => bytes.len(),
        None => 0,
    }
}

/// Puts longer patterns first, and patterns of equal length in the order of their identifiers.
fn sort_longest_first(order: &mut Vec<PatternID>, by_id: &[Vec<u8>]) -> Result<(), AllocError>
    ensures permutation { IsPermutation order.old.items order.new.items }
    ensures sorted { OnOk result (IsSorted (longest_cmp (bytes_of by_id.now)) order.new.items) }
    ensures err { OnErr result (order.new.items ≡ order.old.items) }
    ensures no_memory { OnErr result (20 < length order.old.items) }
{
    order.sort_by(|a, b| {
        length_of(by_id, *b)
            .cmp(&length_of(by_id, *a))
            .then(a.cmp(b))
    })
}

/// Puts the identifiers of the patterns in match order.
fn put_in_order(
    order: &mut Vec<PatternID>,
    by_id: &[Vec<u8>],
    kind: MatchKind,
) -> Result<(), AllocError>
    requires { IsPermutation (range_with_len 0 (length by_id.now)) order.old.items }
    ensures permutation { IsPermutation order.old.items order.new.items }
    ensures in_order { OnOk result (AllPairs (IsBetter kind (bytes_of by_id.now)) order.new.items) }
    ensures err { OnErr result (order.new.items ≡ order.old.items) }
    ensures no_memory { OnErr result (20 < length order.old.items) }
{
    match kind {
        MatchKind::LeftmostFirst => order.sort(),
        MatchKind::LeftmostLongest => sort_longest_first(order, by_id),
    }
}

/// The iterator of [`Patterns::iter`]. Contracts see the pairs that are still to come.
#[derive(Drop)]
pub struct PatternIter<'p> {
    patterns: &'p Patterns,
    i: usize,
}

impl<'p> Model for PatternIter<'p> {
    ghost use Rattle.std.specs.Prelude.{List, ℕ, drop};
    ghost use Rattle.literal_packed.specs.PatternsValue.{in_order};

    ghost Value = { List (ℕ × List ℕ) };

    ghost view = { λ a. drop a.i (in_order a.patterns.now) };
}

impl<'p> Iterator for PatternIter<'p> {
    type Item = (PatternID, Pattern<'p>);

    ghost next_gives = { YieldsFirst (λ left. left) };

    ghost remaining = { item_count (λ left. left) };

    fn next(&mut self) -> Option<(PatternID, Pattern<'p>)> {
        let patterns = self.patterns;
        if self.i >= patterns.order.len() {
            return None;
        }
        let id = patterns.order[self.i];
        self.i += 1;
        Some((id, patterns.get(id)))
    }
}

/// A pattern, borrowed from its collection. Contracts see its bytes.
#[derive(Clone, Drop)]
pub struct Pattern<'p>(&'p [u8]);

impl<'p> Model for Pattern<'p> {
    ghost use Rattle.std.specs.Prelude.{List, ℕ};

    ghost Value = { List ℕ };

    ghost view = { λ p. p.0.now };
}

impl<'p> Pattern<'p> {
    /// The number of bytes.
    pub fn len(&self) -> usize
        ensures { result ≡ length self.now }
    {
        self.0.len()
    }

    /// The bytes, borrowed from the collection.
    pub fn bytes(&self) -> &'p [u8]
        ensures { result.now ≡ self.now }
    {
        self.0
    }

    /// Whether the given bytes begin with the pattern.
    pub fn is_prefix(&self, bytes: &[u8]) -> bool
        ensures { IsTrue result ↔ (take (length self.now) bytes.now ≡ self.now) }
    {
        bytes.starts_with(self.0)
    }
}

impl fmt::Debug for Pattern<'_> {
    fn fmt<W: fmt::Write>(&self, f: &mut fmt::Formatter<W>) -> fmt::Result {
        let bytes = self.0;
        write!(f, "Pattern({bytes:?})")
    }
}
