//! Laws of the definitions in the contracts of the exports.
ghost use Rattle.std.specs.Prelude.{◌≡◌, ◌+◌, map, take, ℕ, List, Bool, ◌++◌, [], ◌∷◌, length};
ghost use Rattle.std.specs.Prelude.{◌↔◌, ◌≤◌};
ghost use Rattle.literal_base.specs.Greedy.{IsGreedy};
ghost use Rattle.literal_base.specs.MatchValue.{MatchValue};
ghost use Rattle.literal_base.specs.Occurs.{NothingOccurs, rest_from};
ghost use Rattle.literal_base.specs.Query.{Query};
ghost use Rattle.literal_base.specs.declared.search.Span.{Span};
ghost use Rattle.literal_search.specs.Automaton.{EndsText, IsStateAfter};
ghost use Rattle.literal_search.specs.Overlapping.{IsOverlapping, OverlappingValue};
ghost use Rattle.literal_search.specs.OverlappingMatchesValue.{OverlappingMatchesValue};
ghost use Rattle.literal_search.specs.PreparedOverlapping.{ForOverlapping, tables_in};
ghost use Rattle.literal_c.specs.Answers.{AreNext, match_of};
ghost use Rattle.literal_c.specs.Overlapping.{IsOverlappingPage, all_that_occurs};
ghost use Rattle.literal_c.specs.States.{ForState};
ghost use Rattle.literal_c.specs.declared.LiteralMatch.{LiteralMatch};
ghost use Rattle.literal_c.specs.declared.LiteralPage.{LiteralPage};

use crate::{LITERAL_MATCH_STATE, LITERAL_START_STATE};

/// The matches of successive pages, each from the offset that the previous one says, are those of one page. Those of
/// all pages up to the last one are the greedy list.
pub fn pages_are_the_greedy_list()
    ensures joined { (query : Query) (ignore_case : Bool) (haystack : List ℕ) (end from next last : ℕ)
        (first second : List MatchValue) → AreNext query ignore_case haystack end from first next
        → AreNext query ignore_case haystack end next second last
        → AreNext query ignore_case haystack end from (first ++ second) last }
    ensures greedy { (query : Query) (ignore_case : Bool) (haystack : List ℕ) (from next : ℕ)
        (all : List MatchValue) → AreNext query ignore_case haystack (length haystack) from all next
        → NothingOccurs query.patterns ignore_case haystack (rest_from haystack next)
        → IsGreedy query ignore_case haystack from all }
{}

/// A last page of occurrences has every occurrence in the span once, in the order of ends and then of pattern numbers.
pub fn last_pages_have_each_occurrence_once()
    ensures { (search : OverlappingValue) (haystack : List ℕ) (span : Span) (old new : List LiteralMatch)
        (page : LiteralPage) → IsOverlappingPage (all_that_occurs search haystack span) old new page
        → page.is_last ≡ 1
        → IsOverlapping search.patterns search.ignore_case haystack span (map match_of (take page.written new)) }
{}

/// The iteration of a page goes on at the end of the page's last match, with one more than its pattern number. So the
/// page from there on has the occurrences that come next.
pub fn pages_of_occurrences_go_on()
    ensures { (first : OverlappingMatchesValue) (old new : List LiteralMatch) (page : LiteralPage)
        (written : IsOverlappingPage first old new page) (before : List MatchValue) (found : MatchValue)
        → map match_of (take page.written new) ≡ before ++ found ∷ []
        → (page.next ≡ found.end) × (written.last ≡ record first { end = found.end; pattern = found.pattern + 1 }) }
{}

/// By each prepared array the state after the empty text is [`LITERAL_START_STATE`] (`start`). A pattern is a suffix of
/// a text exactly if the state after it is [`LITERAL_MATCH_STATE`] or more (`ends`).
pub fn states_tell_whether_a_pattern_ends()
    ensures start { (array : List ℕ)
        → ForOverlapping array (λ search. IsStateAfter (tables_in search array) [] LITERAL_START_STATE) }
    ensures ends { (array : List ℕ) (state : ℕ) → ForState array state (λ search text.
        (LITERAL_MATCH_STATE ≤ state) ↔ ((i : ℕ) × EndsText (tables_in search array) text i)) }
{}
