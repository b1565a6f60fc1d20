//! Laws of the definitions in contracts. Each function does nothing; its contract is the law.
ghost use Rattle.std.specs.Prelude.{◌≡◌, ◌≢◌, ◌+◌, ◌-◌, ◌<◌, ◌≤◌, ◌↔◌, ◌⊎◌, [], ◌∷◌, ◌++◌, List, ℕ, Bool, Option};
ghost use Rattle.std.specs.Prelude.{IsTrue, length, slice_index, true};
ghost use Rattle.std.specs.List.{All, Contains};
ghost use Rattle.std.specs.Char.{to_ascii_lowercase};
ghost use Rattle.std.specs.Hash.{u32, usize};
ghost use Rattle.literal_base.specs.Bytes.{by_byte, contains, no_bytes, opposite_case};
ghost use Rattle.literal_base.specs.Classes.{AreRuns, NonePart, alphabet_len_of, class_of, elements_of};
ghost use Rattle.literal_base.specs.Classes.{holds, marks_of, with_range_marked};
ghost use Rattle.literal_base.specs.declared.packed.MatchKind.{MatchKind as PackedMatchKind};
ghost use Rattle.literal_base.specs.declared.packed.MatchKind.TheVariants.{LeftmostFirst, LeftmostLongest};
ghost use Rattle.literal_base.specs.declared.search.Anchored.{Anchored};
ghost use Rattle.literal_base.specs.declared.search.MatchKind.{MatchKind};
ghost use Rattle.literal_base.specs.declared.search.Span.{Span};
ghost use Rattle.literal_base.specs.declared.search.StartKind.{StartKind};
ghost use Rattle.literal_ids.specs.Clones.{ClonesExactly};
ghost use Rattle.literal_ids.specs.Iteration.{GivesEachThenNone};
ghost use Rattle.literal_base.specs.MatchValue.{MatchValue};
ghost use Rattle.literal_base.specs.Leftmost.{IsLeftmost, IsLeftmostMatch};
ghost use Rattle.literal_base.specs.Occurs.{NoneIsEmpty, Occurs, one_occurs, pattern_at, whole_of};
ghost use Rattle.literal_base.specs.Apart.{LieApart};
ghost use Rattle.literal_base.specs.Greedy.{IsGreedy, lies_in_one};
ghost use Rattle.literal_base.specs.Query.{Query};

use crate::alphabet::{
    ByteClassElementRanges, ByteClassElements, ByteClassIter, ByteClassSet, ByteClasses, ByteSet,
};
use crate::packed;
use crate::search::{self, Anchored, Input, Match, Span, StartKind};
use std::hash::Hash;

/// Every search has a leftmost answer.
pub fn leftmost_exists()
    ensures { (query : Query) (ignore_case : Bool) (haystack : List ℕ) (span : Span)
        → (answer : Option MatchValue) × IsLeftmost query ignore_case haystack span answer }
{}

/// No search has two leftmost answers.
pub fn leftmost_is_unique()
    ensures { (query : Query) (ignore_case : Bool) (haystack : List ℕ) (span : Span) (a b : Option MatchValue)
        → IsLeftmost query ignore_case haystack span a
        → IsLeftmost query ignore_case haystack span b
        → a ≡ b }
{}

/// If no pattern is empty, there is a greedy list from every offset on.
pub fn greedy_exists()
    ensures { (query : Query) (ignore_case : Bool) (haystack : List ℕ) (at : ℕ)
        → NoneIsEmpty query.patterns
        → (all : List MatchValue) × IsGreedy query ignore_case haystack at all }
{}

/// There are no two greedy lists from the same offset on.
pub fn greedy_is_unique()
    ensures { (query : Query) (ignore_case : Bool) (haystack : List ℕ) (at : ℕ) (a b : List MatchValue)
        → IsGreedy query ignore_case haystack at a
        → IsGreedy query ignore_case haystack at b
        → a ≡ b }
{}

/// The matches of a greedy list are non-empty, in order, and don't overlap. No pattern occurs whole before the first,
/// between two neighbours, or after the last. This holds with case kept or ignored.
pub fn greedy_lists_lie_apart()
    ensures { (query : Query) (ignore_case : Bool) (haystack : List ℕ) (at : ℕ) (all : List MatchValue)
        → at ≤ length haystack
        → IsGreedy query ignore_case haystack at all
        → LieApart query.patterns ignore_case haystack at all }
{}

/// Each occurrence in a haystack shares an offset with a match of the greedy list, and no match ends after the
/// haystack.
pub fn matches_meet_all_that_occurs()
    ensures meets { (query : Query) (ignore_case : Bool) (haystack : List ℕ) (all : List MatchValue)
        → NoneIsEmpty query.patterns
        → IsGreedy query ignore_case haystack 0 all
        → (i at : ℕ) → Occurs query.patterns ignore_case haystack (whole_of haystack) i at
        → (place : ℕ) × at ≤ place × place < at + length (pattern_at query.patterns i)
        × (lies_in_one all place ≡ true) }
    ensures within { (query : Query) (ignore_case : Bool) (haystack : List ℕ) (from : ℕ) (all : List MatchValue)
        → IsGreedy query ignore_case haystack from all
        → All (λ found. found.end ≤ length haystack) all }
{}

/// The test `one_occurs` says whether a pattern occurs.
pub fn one_occurs_where_a_pattern_does()
    ensures { (patterns : List (List ℕ)) (ignore_case : Bool) (haystack : List ℕ)
        → IsTrue (one_occurs patterns ignore_case haystack)
        ↔ ((i : ℕ) × (at : ℕ) × Occurs patterns ignore_case haystack (whole_of haystack) i at) }
{}

/// With [`MatchKind::LeftmostLongest`](crate::packed::MatchKind::LeftmostLongest), the match has the smallest
/// identifier of equal patterns.
pub fn longest_answers_the_first_of_equal_patterns()
    ensures { (query : Query) (ignore_case : Bool) (haystack : List ℕ) (span : Span) (found : MatchValue) (j : ℕ)
        → query.kind ≡ LeftmostLongest
        → IsLeftmostMatch query ignore_case haystack span found
        → j < length query.patterns
        → pattern_at query.patterns j ≡ pattern_at query.patterns found.pattern
        → found.pattern ≤ j }
{}

/// With [`MatchKind::LeftmostFirst`](crate::packed::MatchKind::LeftmostFirst), the match has the smallest identifier of
/// all patterns that occur at its offset. So only the order in which they were added decides.
pub fn first_answers_the_first_added()
    ensures { (query : Query) (ignore_case : Bool) (haystack : List ℕ) (span : Span) (found : MatchValue) (j : ℕ)
        → query.kind ≡ LeftmostFirst
        → IsLeftmostMatch query ignore_case haystack span found
        → Occurs query.patterns ignore_case haystack span j found.start
        → found.pattern ≤ j }
{}

/// Equal spans write the same to every hasher.
pub fn equal_spans_hash_alike()
    ensures { (a b : Span) → IsTrue (⟦<Span as PartialEq>⟧.eq a b)
        → ⟦<Span as Hash>⟧.hash_input a ≡ ⟦<Span as Hash>⟧.hash_input b }
{}

/// Equal matches write the same to every hasher.
pub fn equal_matches_hash_alike()
    ensures { (a b : MatchValue) → IsTrue (⟦<Match as PartialEq>⟧.eq a b)
        → ⟦<Match as Hash>⟧.hash_input a ≡ ⟦<Match as Hash>⟧.hash_input b }
{}

/// Neighbouring bytes share a class exactly if no marked range contains just one of them.
pub fn neighbours_share_a_class()
    ensures { (ranges : List (ℕ × ℕ)) (b : ℕ)
        → All (λ range. range.0 ≤ range.1) ranges
        → b < 255
        → (class_of (marks_of ranges) b ≡ class_of (marks_of ranges) (b + 1)) ↔ NonePart ranges b }
{}

/// Bytes of one class are in the same marked ranges: no range contains just one of them. So a table with a column for
/// each class can answer like one with a column for each byte.
pub fn a_class_is_in_the_same_ranges()
    ensures { (ranges : List (ℕ × ℕ)) (b c : ℕ)
        → All (λ range. range.0 ≤ range.1) ranges
        → b < 256
        → c < 256
        → class_of (marks_of ranges) b ≡ class_of (marks_of ranges) c
        → All (λ range. holds range b ≡ holds range c) ranges }
{}

/// Marking the ranges of a list one after another gives the marks of the list.
pub fn marks_come_range_by_range()
    ensures none { marks_of [] ≡ no_bytes }
    ensures one_more { (ranges : List (ℕ × ℕ)) (start end : ℕ)
        → marks_of (ranges ++ (start, end) ∷ []) ≡ with_range_marked (marks_of ranges) start end }
{}

/// The same bytes have at most one list of maximal runs.
pub fn runs_are_unique()
    ensures { (bytes : List ℕ) (a b : List (ℕ × ℕ)) → AreRuns bytes a → AreRuns bytes b → a ≡ b }
{}

/// Neither the byte before a maximal run nor the byte after it is in the list of bytes.
pub fn runs_are_maximal()
    ensures { (bytes : List ℕ) (runs : List (ℕ × ℕ))
        → AreRuns bytes runs
        → All (λ run. ¬ Contains bytes (run.1 + 1) × (0 < run.0 → ¬ Contains bytes (run.0 - 1))) runs }
{}

/// The other case of a byte's other case is the byte itself.
pub fn opposite_case_is_its_own_inverse()
    ensures { (b : ℕ) → opposite_case (opposite_case b) ≡ b }
{}

/// The list `by_byte f` has the value of `f` at each byte, and no more values.
pub fn by_byte_gives_each_value()
    ensures number { (f : ℕ → ℕ) (b : ℕ) → b < 256 → slice_index (by_byte f) b ≡ f b }
    ensures truth { (f : ℕ → Bool) (b : ℕ) → b < 256 → contains (by_byte f) b ≡ f b }
    ensures numbers { (f : ℕ → ℕ) → length (by_byte f) ≡ 256 }
    ensures truths { (f : ℕ → Bool) → length (by_byte f) ≡ 256 }
{}

/// If the classes come from marks, the class of each byte is below the alphabet length.
pub fn classes_are_below_the_alphabet_len()
    ensures { (marked : List Bool) (b : ℕ) → b < 256
        → slice_index (by_byte (class_of marked)) b < alphabet_len_of (by_byte (class_of marked)) }
{}

/// If the classes come from marks, each class below the alphabet length has a byte, so the list of its bytes is not
/// empty.
pub fn classes_have_bytes()
    ensures byte { (marked : List Bool) (class : ℕ) → class < alphabet_len_of (by_byte (class_of marked))
        → (b : ℕ) × b < 256 × (slice_index (by_byte (class_of marked)) b ≡ class) }
    ensures elements { (marked : List Bool) (class : ℕ) → class < alphabet_len_of (by_byte (class_of marked))
        → elements_of (by_byte (class_of marked)) class ≢ [] }
{}

/// Every iteration over classes, bytes or runs gives each element that is left in turn, and then always `None`.
pub fn iterations_end()
    ensures classes { GivesEachThenNone (λ class. class) ⟦<ByteClassIter<'static> as Iterator>⟧.next_gives }
    ensures elements { GivesEachThenNone (λ byte. byte) ⟦<ByteClassElements<'static> as Iterator>⟧.next_gives }
    ensures runs { GivesEachThenNone (λ run. run) ⟦<ByteClassElementRanges<'static> as Iterator>⟧.next_gives }
{}

/// Two bytes are the same up to case exactly if they are equal or one is the other case of the other.
pub fn cases_make_the_same_pairs()
    ensures { (a b : ℕ) → a < 256 → b < 256
        → (to_ascii_lowercase a ≡ to_ascii_lowercase b) ↔ ((a ≡ b) ⊎ (opposite_case a ≡ b)) }
{}

/// Spans, matches and byte sets are equal exactly if contracts see the same value.
pub fn values_are_compared_by_all_their_parts()
    ensures span { (a b : Span) → IsTrue (⟦<Span as PartialEq>⟧.eq a b) ↔ (a ≡ b) }
    ensures found { (a b : MatchValue) → IsTrue (⟦<Match as PartialEq>⟧.eq a b) ↔ (a ≡ b) }
    ensures set { (a b : List Bool) → IsTrue (⟦<ByteSet as PartialEq>⟧.eq a b) ↔ (a ≡ b) }
{}

/// Kinds are equal exactly if they are the same variant.
pub fn kinds_are_compared_by_variant()
    ensures anchored { (a b : Anchored) → IsTrue (⟦<Anchored as PartialEq>⟧.eq a b) ↔ (a ≡ b) }
    ensures matches { (a b : MatchKind) → IsTrue (⟦<search::MatchKind as PartialEq>⟧.eq a b) ↔ (a ≡ b) }
    ensures starts { (a b : StartKind) → IsTrue (⟦<StartKind as PartialEq>⟧.eq a b) ↔ (a ≡ b) }
    ensures packed { (a b : PackedMatchKind) → IsTrue (⟦<packed::MatchKind as PartialEq>⟧.eq a b) ↔ (a ≡ b) }
{}

/// Spans and matches write all their parts to a hasher, in order, and nothing else.
pub fn values_hash_all_their_parts()
    ensures span { (span : Span) → ⟦<Span as Hash>⟧.hash_input span ≡ usize span.start ++ usize span.end }
    ensures found { (found : MatchValue)
        → ⟦<Match as Hash>⟧.hash_input found ≡ u32 found.pattern ++ usize found.start ++ usize found.end }
{}

/// A clone of a plain value, a byte set, classes or an input is the same value, and allocates nothing.
pub fn clones_are_equal()
    ensures span { ClonesExactly ⟦<Span as Clone>⟧.is_clone ⟦<Span as Clone>⟧.is_infallible }
    ensures found { ClonesExactly ⟦<Match as Clone>⟧.is_clone ⟦<Match as Clone>⟧.is_infallible }
    ensures input { ClonesExactly ⟦<Input<'static> as Clone>⟧.is_clone ⟦<Input<'static> as Clone>⟧.is_infallible }
    ensures anchored { ClonesExactly ⟦<Anchored as Clone>⟧.is_clone ⟦<Anchored as Clone>⟧.is_infallible }
    ensures matches { ClonesExactly ⟦<search::MatchKind as Clone>⟧.is_clone
        ⟦<search::MatchKind as Clone>⟧.is_infallible }
    ensures starts { ClonesExactly ⟦<StartKind as Clone>⟧.is_clone ⟦<StartKind as Clone>⟧.is_infallible }
    ensures packed { ClonesExactly ⟦<packed::MatchKind as Clone>⟧.is_clone
        ⟦<packed::MatchKind as Clone>⟧.is_infallible }
    ensures set { ClonesExactly ⟦<ByteSet as Clone>⟧.is_clone ⟦<ByteSet as Clone>⟧.is_infallible }
    ensures marks { ClonesExactly ⟦<ByteClassSet as Clone>⟧.is_clone ⟦<ByteClassSet as Clone>⟧.is_infallible }
    ensures classes { ClonesExactly ⟦<ByteClasses as Clone>⟧.is_clone ⟦<ByteClasses as Clone>⟧.is_infallible }
{}
