//! Laws of tables and prefilters. Each law is the contract of a function. If a law is about definitions, its function
//! does nothing; otherwise the function makes the call that the law is about.
ghost use Rattle.std.specs.Prelude.{◌≡◌, ◌↔◌, ◌-◌, ◌≤◌, ◌<◌, ◌++◌, ◌∷◌, [], ℕ, Bool, List, Option, None, Some, IfSome};
ghost use Rattle.std.specs.Prelude.{false, true, codes, is_some, slice_index, length, ◌==◌, ◌||◌, ◌+◌, replicate};
ghost use Rattle.std.specs.List.{All};
ghost use Rattle.literal_ids.specs.Clones.{ClonesExactly};
ghost use Rattle.literal_base.specs.Leftmost.{IsLeftmost, IsLeftmostMatch};
ghost use Rattle.literal_base.specs.MatchValue.{MatchValue};
ghost use Rattle.literal_base.specs.Query.{Query};
ghost use Rattle.literal_base.specs.declared.search.Span.{Span};
ghost use Rattle.literal_base.specs.Occurs.{NoneIsEmpty, NothingOccurs, IsValidSpan, between};
ghost use Rattle.literal_prefilters.specs.Answers.{candidate_of};
ghost use Rattle.literal_base.specs.Bytes.{AreBytes};
ghost use Rattle.literal_packed.specs.State.{kept_of};
ghost use Rattle.literal_prefilters.specs.Choice.{pick, suits_packed};
ghost use Rattle.literal_base.specs.Counts.{none_yet};
ghost use Rattle.literal_base.specs.declared.packed.MatchKind.TheVariants.{LeftmostFirst};
ghost use Rattle.literal_prefilters.specs.Confirming.{answers_of, counts_after_answers, counts_after_confirming};
ghost use Rattle.literal_prefilters.specs.Confirming.{scanned_once, tried_count};
ghost use Rattle.literal_prefilters.specs.ConfirmingValue.{prefilter_builder};
ghost use Rattle.literal_prefilters.specs.PrefilterBuilderValue.{PrefilterBuilderValue};
ghost use Rattle.literal_prefilters.specs.PrefilterValue.{CoveredBy, by_table, exact_query, prefilter_reach};
ghost use Rattle.literal_prefilters.specs.PrefilterValue.{prefilter_table};
ghost use Rattle.literal_prefilters.specs.Sound.{Sound};
ghost use Rattle.literal_prefilters.specs.Rarest.{IsRarest};
ghost use Rattle.literal_prefilters.specs.Table.{Covers, IsFirst, distance_of, first_place, is_in, reach_of};
ghost use Rattle.literal_prefilters.specs.Table.{proposed_place};
ghost use Rattle.literal_prefilters.specs.Tables.{if_small, is_rare_byte, is_start_byte, rarest, start_bytes};
ghost use Rattle.literal_prefilters.specs.Tables.{start_table, table_of, with_rarest};
ghost use Rattle.literal_prefilters.specs.Variants.{StartsVariants, IsLargestOffset};

use crate::prefilter::{Candidate, ConfirmingSearch, Prefilter};
use literal_base::search::Span;

/// The offset that a table proposes passes over no occurrence of patterns that the table covers: in every haystack, in
/// every valid span of it, and for both leftmost kinds.
pub fn covering_tables_are_sound()
    ensures { (table : List (Option ℕ)) (query : Query) (ignore_case : Bool) (haystack : List ℕ) (span : Span)
        → All (Covers table ignore_case) query.patterns
        → AreBytes haystack
        → IsValidSpan haystack span
        → Sound query ignore_case haystack span (candidate_of (proposed_place table haystack span)) }
{}

/// A table proposes nothing exactly if the span has no byte of the table.
pub fn nothing_is_proposed_without_a_byte()
    ensures { (table : List (Option ℕ)) (haystack : List ℕ) (span : Span)
        → IsValidSpan haystack span
        → (proposed_place table haystack span ≡ None)
        ↔ ((place : ℕ) → span.start ≤ place → place < span.end → is_in table (slice_index haystack place) ≡ false) }
{}

/// The bytes of a start table are the first bytes of the case variants of the patterns, none of which is empty.
pub fn start_bytes_begin_variants()
    ensures { (ignore_case : Bool) (patterns : List (List ℕ))
        → NoneIsEmpty patterns
        → StartsVariants ignore_case patterns }
{}

/// If a table covers the patterns, its first byte from a match's start on is in the match. The bytes from the span's
/// start up to it are scanned: at most those up to the match's end, and with or without a match at most those of the
/// span.
pub fn scans_end_with_the_match()
    ensures last { (table : List (Option ℕ)) (query : Query) (ignore_case : Bool) (haystack : List ℕ) (span : Span)
        (found : MatchValue)
        → All (Covers table ignore_case) query.patterns
        → AreBytes haystack
        → IsValidSpan haystack span
        → IsLeftmostMatch query ignore_case haystack span found
        → (place : ℕ) × (first_place table haystack (between found.start span.end) ≡ Some place) × (place < found.end) }
    ensures found { (table : List (Option ℕ)) (query : Query) (ignore_case : Bool) (haystack : List ℕ) (span : Span)
        (found : MatchValue)
        → All (Covers table ignore_case) query.patterns
        → AreBytes haystack
        → IsValidSpan haystack span
        → IsLeftmostMatch query ignore_case haystack span found
        → scanned_once table haystack span (Some found) ≤ found.end - span.start }
    ensures any { (table : List (Option ℕ)) (query : Query) (ignore_case : Bool) (haystack : List ℕ) (span : Span)
        (answer : Option MatchValue)
        → All (Covers table ignore_case) query.patterns
        → AreBytes haystack
        → IsValidSpan haystack span
        → IsLeftmost query ignore_case haystack span answer
        → scanned_once table haystack span answer ≤ span.end - span.start }
{}

/// The distance of a byte in a rare table is the largest offset at which it is in any case variant of any pattern.
pub fn distances_are_the_largest_offsets()
    ensures { (ignore_case : Bool) (patterns : List (List ℕ)) (byte : ℕ)
        → IsLargestOffset ignore_case patterns byte }
{}

/// The first offset of a table in a span is the least one whose byte is in the table.
pub fn first_is_the_least_place()
    ensures { (table : List (Option ℕ)) (haystack : List ℕ) (span : Span) (place : ℕ)
        → IsValidSpan haystack span
        → (first_place table haystack span ≡ Some place) ↔ IsFirst table haystack span place }
{}

/// No distance of a table is larger than its reach. A reach that is not 0 is the distance of a byte.
pub fn reach_is_the_largest_distance()
    ensures bound { (table : List (Option ℕ)) (byte d : ℕ) → distance_of table byte ≡ Some d → d ≤ reach_of table }
    ensures reached { (table : List (Option ℕ)) → 0 < reach_of table
        → (byte : ℕ) × (distance_of table byte ≡ Some (reach_of table)) }
{}

/// There is a start table exactly if the first bytes of the patterns are one to three, all at most 0x7F.
pub fn start_bytes_are_at_most_0x7f()
    ensures none { (ignore_case : Bool) (patterns : List (List ℕ)) (byte : ℕ)
        → 127 < byte → byte < 256 → is_start_byte ignore_case patterns byte ≡ true
        → start_table ignore_case patterns ≡ None }
    ensures otherwise { (ignore_case : Bool) (patterns : List (List ℕ))
        → ((byte : ℕ) → 127 < byte → byte < 256 → is_start_byte ignore_case patterns byte ≡ false)
        → start_table ignore_case patterns ≡ if_small (start_bytes ignore_case patterns) }
{}

/// A start table proposes the offset of its byte: its reach is 0.
pub fn start_tables_reach_nowhere()
    ensures { (ignore_case : Bool) (patterns : List (List ℕ))
        → IfSome (start_table ignore_case patterns) (λ table. reach_of table ≡ 0) }
{}

/// The byte that a pattern adds to the rare set is in the pattern, no byte of the pattern has a lower rank, and each
/// byte before it has a higher one.
pub fn rarest_bytes_are_earliest_of_least_rank()
    ensures { (pattern : List ℕ) → 0 < length pattern → IsRarest pattern (rarest pattern) }
{}

/// The rare set of no pattern is empty. One more pattern changes it as `with_rarest` says.
pub fn rare_sets_come_pattern_by_pattern()
    ensures none { (ignore_case : Bool) (byte : ℕ) → is_rare_byte ignore_case [] byte ≡ false }
    ensures one_more { (ignore_case : Bool) (patterns : List (List ℕ)) (pattern : List ℕ) (byte : ℕ)
        → is_rare_byte ignore_case (patterns ++ pattern ∷ []) byte
        ≡ with_rarest ignore_case (is_rare_byte ignore_case patterns) pattern byte }
{}

/// A prefilter reads at most 254 bytes after an offset that it proposes.
pub fn prefilters_reach_254_bytes(pre: &Prefilter)
    ensures { prefilter_reach pre.now ≤ 254 }
{
    pre.keeps_its_reach();
}

/// A prefilter by a table answers `None` exactly if the span has no byte of the table.
pub fn none_without_a_byte(pre: &Prefilter, haystack: &[u8], span: Span) -> Candidate
    requires { IsValidSpan haystack.now span }
    ensures { IfSome (prefilter_table pre.now) (λ table. (result ≡ Candidate.None)
        ↔ ((place : ℕ) → span.start ≤ place → place < span.end
        → is_in table (slice_index haystack.now place) ≡ false)) }
{
    nothing_is_proposed_without_a_byte();
    pre.find_in(haystack, span)
}

/// An exact prefilter answers `None` exactly if nothing occurs in the span.
pub fn none_without_an_occurrence(pre: &Prefilter, haystack: &[u8], span: Span) -> Candidate
    requires { IsValidSpan haystack.now span }
    ensures { IfSome (exact_query pre.now) (λ query. (result ≡ Candidate.None)
        ↔ NothingOccurs query.patterns false haystack.now span) }
{
    pre.find_in(haystack, span)
}

/// The prefilter of a confirming search covers its patterns, none of which is empty.
pub fn confirming_searches_cover_their_patterns(search: &ConfirmingSearch)
    ensures covered { CoveredBy search.now.prefilter search.now.query search.now.ignore_case }
    ensures not_empty { NoneIsEmpty search.now.query.patterns }
{
    search.covers_its_patterns();
}

/// For a leftmost match kind, with case kept, each list of 1 to 128 non-empty patterns has a prefilter, unless memory
/// is refused.
pub fn up_to_128_patterns_have_a_prefilter()
    ensures { (builder : PrefilterBuilderValue)
        → suits_packed builder ≡ true
        → 0 < length (kept_of builder.state)
        → length (kept_of builder.state) ≤ 128
        → is_some (pick builder) ≡ true }
{}

/// The counts of confirming searches by tables, computed by hand. With the first bytes of `foo` and `bar`, the offsets
/// of both first bytes in `xxbafoo` are tried, and five bytes are scanned. With the byte `k` at the distance 7, which
/// it has in `Sherlock` and `lockjaw`, three offsets are tried in `Shlockjaw`, each proposed by the same `k`; up to its
/// byte 8 nothing is found, after six tries. With the byte `p` at the distance 4, three offsets are tried up to
/// `maple`, and nine until no word is left. With a byte at the distance 254, at the end of 255 bytes, each offset is
/// tried, and each byte scanned once.
pub fn worked_counts()
    ensures start_table { let table : List (Option ℕ) = table_of (λ b. b == 0x66 || b == 0x62) (λ _. 0) in
        let answer : Option MatchValue = Some (record { pattern = 0; start = 4; end = 7 }) in
        (tried_count table (codes "xxbafoo") (between 0 7) answer ≡ 2)
        × (scanned_once table (codes "xxbafoo") (between 0 7) answer ≡ 5) }
    ensures rare_table { let table : List (Option ℕ) = table_of (λ b. b == 0x6B) (λ _. 7) in
        let answer : Option MatchValue = Some (record { pattern = 1; start = 2; end = 9 }) in
        (tried_count table (codes "Shlockjaw") (between 0 9) answer ≡ 3)
        × (scanned_once table (codes "Shlockjaw") (between 0 9) answer ≡ 6) }
    ensures no_match { let table : List (Option ℕ) = table_of (λ b. b == 0x6B) (λ _. 7) in
        (tried_count table (codes "Shlockjaw") (between 0 8) None ≡ 6)
        × (scanned_once table (codes "Shlockjaw") (between 0 8) None ≡ 8) }
    ensures words { let table : List (Option ℕ) = table_of (λ b. b == 0x70) (λ _. 4) in
        let haystack = codes "Nobody likes maple in their apple flavored Snapple." in
        let answer : Option MatchValue = Some (record { pattern = 1; start = 13; end = 18 }) in
        (tried_count table haystack (between 0 51) answer ≡ 3)
        × (scanned_once table haystack (between 0 51) answer ≡ 16) }
    ensures every_place { let table : List (Option ℕ) = table_of (λ b. b == 0x51) (λ _. 254) in
        let haystack = replicate 254 0x7A ++ 0x51 ∷ [] in
        (tried_count table haystack (between 0 255) None ≡ 255)
        × (scanned_once table haystack (between 0 255) None ≡ 255) }
{}

/// The counts of searches that [`ConfirmingSearch::build`] makes for these patterns, computed by hand. The list of
/// `apple`, `maple` and `Snapple` takes nine tries, with 8, 10 and 6 comparisons; 16, 12 and 14 bytes are scanned for a
/// word, and one after the last. With ASCII case ignored it is the same. `lockjaw` is found after three tries and six
/// bytes, with case kept or ignored.
pub fn worked_counts_of_patterns()
    ensures words { let patterns : List (List ℕ) = codes "apple" ∷ codes "maple" ∷ codes "Snapple" ∷ [] in
        let table : List (Option ℕ) = table_of (λ b. b == 0x70) (λ _. 4) in
        let maple : MatchValue = record { pattern = 1; start = 13; end = 18 } in
        let apple : MatchValue = record { pattern = 0; start = 28; end = 33 } in
        let snapple : MatchValue = record { pattern = 2; start = 43; end = 50 } in
        (pick (prefilter_builder LeftmostFirst false patterns) ≡ Some (by_table table))
        × (counts_after_answers none_yet (by_table table) (record { kind = LeftmostFirst; patterns = patterns })
        (codes "Nobody likes maple in their apple flavored Snapple.") 0
        (answers_of (maple ∷ apple ∷ snapple ∷ []) ++ None ∷ [])
        ≡ record none_yet { compared = 24; scanned = 43; tried = 9 }) }
    ensures in_either_case { let patterns : List (List ℕ) = codes "apple" ∷ codes "maple" ∷ codes "snapple" ∷ [] in
        let table : List (Option ℕ) = table_of (λ b. b == 0x70 || b == 0x50) (λ _. 4) in
        let maple : MatchValue = record { pattern = 1; start = 13; end = 18 } in
        let apple : MatchValue = record { pattern = 0; start = 28; end = 33 } in
        let snapple : MatchValue = record { pattern = 2; start = 43; end = 50 } in
        (pick (prefilter_builder LeftmostFirst true patterns) ≡ Some (by_table table))
        × (counts_after_answers none_yet (by_table table) (record { kind = LeftmostFirst; patterns = patterns })
        (codes "Nobody likes maple in their apple flavored Snapple.") 0
        (answers_of (maple ∷ apple ∷ snapple ∷ []) ++ None ∷ [])
        ≡ record none_yet { compared = 24; scanned = 43; tried = 9 }) }
    ensures lockjaw { let patterns : List (List ℕ) = codes "Sherlock" ∷ codes "lockjaw" ∷ [] in
        let table : List (Option ℕ) = table_of (λ b. b == 0x6B) (λ _. 7) in
        (pick (prefilter_builder LeftmostFirst false patterns) ≡ Some (by_table table))
        × (counts_after_confirming none_yet (by_table table) (record { kind = LeftmostFirst; patterns = patterns })
        (codes "Shlockjaw") (between 0 9) (Some (record { pattern = 1; start = 2; end = 9 }))
        ≡ record none_yet { compared = 6; scanned = 6; tried = 3 }) }
    ensures lockjaw_in_either_case { let patterns : List (List ℕ) = codes "Sherlock" ∷ codes "lockjaw" ∷ [] in
        let table : List (Option ℕ) = table_of (λ b. b == 0x6B || b == 0x4B) (λ _. 7) in
        (pick (prefilter_builder LeftmostFirst true patterns) ≡ Some (by_table table))
        × (counts_after_confirming none_yet (by_table table) (record { kind = LeftmostFirst; patterns = patterns })
        (codes "ShLOCKJAW") (between 0 9) (Some (record { pattern = 1; start = 2; end = 9 }))
        ≡ record none_yet { compared = 6; scanned = 6; tried = 3 }) }
{}

/// If a match begins at the first offset that its table proposes, only this offset is tried, and the bytes up to the
/// first table byte are scanned. This is shown for a byte with each distance that a table may have, at the end of a
/// pattern after ten other bytes.
pub fn one_try_where_a_match_is_proposed()
    ensures proposed { (table : List (Option ℕ)) (haystack : List ℕ) (span : Span) (place : ℕ) (found : MatchValue)
        → IsValidSpan haystack span
        → first_place table haystack span ≡ Some place
        → proposed_place table haystack span ≡ Some found.start
        → (tried_count table haystack span (Some found) ≡ 1)
        × (scanned_once table haystack span (Some found) ≡ place + 1 - span.start) }
    ensures each_distance { (d : ℕ) → 1 ≤ d → let table : List (Option ℕ) = table_of (λ b. b == 0x51) (λ _. d) in
        let haystack : List ℕ = (replicate 10 0x7A ++ 0xC0 ∷ replicate (d - 1) 0x65) ++ 0x51 ∷ [] in
        let answer : Option MatchValue = Some (record { pattern = 0; start = 10; end = 11 + d }) in
        (tried_count table haystack (between 0 (11 + d)) answer ≡ 1)
        × (scanned_once table haystack (between 0 (11 + d)) answer ≡ 11 + d) }
{}

/// A search by a table in an empty span counts nothing.
pub fn empty_spans_count_nothing()
    ensures { (table : List (Option ℕ)) (haystack : List ℕ) (at : ℕ)
        → (tried_count table haystack (between at at) None ≡ 0)
        × (scanned_once table haystack (between at at) None ≡ 0) }
{}

/// A clone of a candidate is the same candidate, and allocates nothing.
pub fn clones_are_equal()
    ensures { ClonesExactly ⟦<Candidate as Clone>⟧.is_clone ⟦<Candidate as Clone>⟧.is_infallible }
{}
