//! The searches of the calls for C: a search of their own, or numbers that C lends.
ghost use Rattle.std.specs.Prelude.{◌≡◌};

use literal_search::{
    Damaged, Match, Matches, OverlappingMatches, Prepared, PreparedMatches,
    PreparedOverlappingMatches, PreparedShortMatches, Search, Span,
};

/// A search, by numbers that may be damaged.
pub trait Finder {
    ghost use Rattle.std.specs.Prelude.{Bool, IfOk, IfSome};
    ghost use Rattle.std.specs.Result.{IsOkAnd};
    ghost use Rattle.literal_base.specs.Leftmost.{IsLeftmost};
    ghost use Rattle.literal_base.specs.Occurs.{IsValidSpan};
    ghost use Rattle.literal_base.specs.Query.{Query};
    ghost use Rattle.literal_c.specs.Answers.{MayBeFound};
    ghost use Rattle.std.specs.Prelude.{ℕ};

    /// The query, if the search is whole.
    ghost is_for: { Self → Query → Bool → Type 0 };

    /// The number of patterns, for any numbers.
    ghost patterns: { Self → ℕ };

    /// The leftmost match in a span of the haystack.
    fn find_in(&self, haystack: &[u8], span: Span) -> Result<Option<Match>, Damaged>
        requires { IsValidSpan haystack.now span }
        ensures found { (query : Query) (ignore_case : Bool) → is_for self.now query ignore_case
            → IsOkAnd result (IsLeftmost query ignore_case haystack.now span) }
        ensures inside { IfOk result (λ answer. IfSome answer (MayBeFound span (patterns self.now))) };
}

impl Finder for Search {
    ghost use Rattle.std.specs.Prelude.{length};

    ghost is_for = { λ search query ignore_case. (query ≡ search.query) × (ignore_case ≡ search.ignore_case) };

    ghost patterns = { λ search. length search.query.patterns };

    #[inline(always)]
    fn find_in(&self, haystack: &[u8], span: Span) -> Result<Option<Match>, Damaged> {
        Ok(Search::find_in(self, haystack, span))
    }
}

impl Finder for Prepared<'_> {
    ghost use Rattle.std.specs.Prelude.{slice_index};
    ghost use Rattle.literal_search.specs.Prepared.{IsPrepared};

    ghost is_for = { λ numbers query ignore_case.
        IsPrepared (record { query = query; ignore_case = ignore_case }) numbers };

    ghost patterns = { λ numbers. slice_index numbers 3 };

    #[inline(always)]
    fn find_in(&self, haystack: &[u8], span: Span) -> Result<Option<Match>, Damaged> {
        Prepared::find_in(self, haystack, span)
    }
}

/// An iteration over all leftmost matches in a span, by numbers that may be damaged.
pub trait LeftmostMatches {
    ghost use Rattle.std.specs.Prelude.{◌≡◌, IfOk, IfSome};
    ghost use Rattle.std.specs.Result.{IsOkAnd};
    ghost use Rattle.literal_base.specs.Leftmost.{IsLeftmost};
    ghost use Rattle.literal_search.specs.SearchValue.{SearchValue};
    ghost use Rattle.literal_c.specs.Answers.{MayBeFound};
    ghost use Rattle.literal_c.specs.Inside.Given.{Rest, behind};

    /// The query, if the search is whole.
    ghost is_for: { Self → SearchValue → Type 0 };

    /// The rest of the iteration, for any numbers.
    ghost rest: { Self → Rest };

    /// The leftmost match in the rest of the span.
    fn next_match(&mut self) -> Result<Option<Match>, Damaged>
        ensures found { (search : SearchValue) → is_for self.old search → IsOkAnd result
            (IsLeftmost search.query search.ignore_case (rest self.old).haystack (rest self.old).span) }
        ensures inside { IfOk result (λ answer. IfSome answer
            (MayBeFound (rest self.old).span (rest self.old).patterns)) }
        ensures goes_on { IfOk result (λ answer. IfSome answer
            (λ found. rest self.new ≡ behind (rest self.old) found.end)) }
        ensures same { (search : SearchValue) → is_for self.old search → is_for self.new search };
}

impl LeftmostMatches for Matches<'_, '_> {
    ghost use Rattle.std.specs.Prelude.{length};
    ghost use Rattle.literal_base.specs.Occurs.{between};

    ghost is_for = { λ matches search. search ≡ matches.search };

    ghost rest = { λ matches. record {
      haystack = matches.haystack;
      span = between matches.at matches.span.end;
      patterns = length matches.search.query.patterns;
    } };

    #[inline(always)]
    fn next_match(&mut self) -> Result<Option<Match>, Damaged> {
        Ok(self.next())
    }
}

impl LeftmostMatches for PreparedMatches<'_, '_, '_> {
    ghost use Rattle.std.specs.Prelude.{slice_index};
    ghost use Rattle.literal_base.specs.Occurs.{between};
    ghost use Rattle.literal_search.specs.Prepared.{IsPrepared};

    ghost is_for = { λ matches search. IsPrepared search matches.numbers };

    ghost rest = { λ matches. record {
      haystack = matches.haystack;
      span = between matches.at matches.span.end;
      patterns = slice_index matches.numbers 3;
    } };

    #[inline(always)]
    fn next_match(&mut self) -> Result<Option<Match>, Damaged> {
        PreparedMatches::next_match(self)
    }
}

impl LeftmostMatches for PreparedShortMatches<'_, '_, '_> {
    ghost use Rattle.std.specs.Prelude.{slice_index};
    ghost use Rattle.literal_base.specs.Occurs.{between};
    ghost use Rattle.literal_search.specs.Prepared.{IsPrepared};

    ghost is_for = { λ matches search. IsPrepared search matches.numbers };

    ghost rest = { λ matches. record {
      haystack = matches.haystack;
      span = between matches.at matches.span.end;
      patterns = slice_index matches.numbers 3;
    } };

    #[inline(always)]
    fn next_match(&mut self) -> Result<Option<Match>, Damaged> {
        PreparedShortMatches::next_match(self)
    }
}

/// An iteration over every occurrence, by numbers that may be damaged.
pub trait Occurrences {
    ghost use Rattle.std.specs.Prelude.{IfOk, IfSome};
    ghost use Rattle.std.specs.Result.{IsOkAnd};
    ghost use Rattle.literal_base.specs.MatchValue.{MatchValue};
    ghost use Rattle.literal_search.specs.OverlappingMatchesValue.{GivesOverlapping, OverlappingMatchesValue};
    ghost use Rattle.literal_search.specs.OverlappingMatchesValue.{gone_on};

    /// The position of the iteration, if the search is whole.
    ghost stands_at: { Self → OverlappingMatchesValue → Type 0 };

    /// The matches that it may give, for any numbers.
    ghost may_give: { Self → MatchValue → Type 0 };

    /// The next occurrence.
    fn next_match(&mut self) -> Result<Option<Match>, Damaged>
        ensures found { (m : OverlappingMatchesValue) → stands_at self.old m → IsOkAnd result
            (λ answer. GivesOverlapping m answer (gone_on m answer) × stands_at self.new (gone_on m answer)) }
        ensures inside { IfOk result (λ answer. IfSome answer (may_give self.old)) }
        ensures same { (found : MatchValue) → may_give self.new found → may_give self.old found };
}

impl Occurrences for OverlappingMatches<'_, '_> {
    ghost use Rattle.std.specs.Prelude.{⊤};

    ghost stands_at = { λ matches m. m ≡ matches };

    ghost may_give = { λ _ _. ⊤ };

    fn next_match(&mut self) -> Result<Option<Match>, Damaged> {
        Ok(self.next())
    }
}

impl Occurrences for PreparedOverlappingMatches<'_, '_, '_> {
    ghost use Rattle.std.specs.Prelude.{slice_index};
    ghost use Rattle.literal_c.specs.Answers.{MayBeFound};
    ghost use Rattle.literal_search.specs.PreparedOverlapping.{IsPreparedOverlapping, matches_for};

    ghost stands_at = { λ matches m. IsPreparedOverlapping m.search matches.numbers
        × (m ≡ matches_for m.search matches) };

    ghost may_give = { λ matches found. MayBeFound matches.span (slice_index matches.numbers 3) found };

    fn next_match(&mut self) -> Result<Option<Match>, Damaged> {
        PreparedOverlappingMatches::next_match(self)
    }
}
