//! Candidates that a search finds and the caller confirms: the loop of an engine with literals in front.
ghost use Rattle.std.specs.Prelude.{◌≡◌, ◌==◌, ◌≤◌, ℕ, MatchOption, false, get_or, length};
ghost use Rattle.literal_base.specs.Occurs.{Occurs, rest_from, whole_of};
ghost use Rattle.literal_base.specs.declared.packed.MatchKind.TheVariants.{LeftmostLongest};
ghost use Rattle.literal_search.specs.At.{OccursFirst};
ghost use Rattle.literal_examples.specs.Confirmed.{BeginsLine, IsCalled, IsFirstCall, begins_line};

use literal_search::{Match, Search, Span};

/// Whether a line begins at an offset.
fn begins_line(text: &[u8], at: usize) -> bool
    requires { at ≤ length text.now }
    ensures { result ≡ begins_line text.now at }
{
    at == 0 || text[at - 1] == b'\n'
}

/// The match at the start of the first line that begins with a pattern. If several patterns begin there, the match kind
/// decides. As a regular expression this is `(?m)^(?:...)`, with the patterns in the brackets.
pub fn first_at_line_start(search: &Search, text: &[u8]) -> Option<Match>
    ensures { MatchOption result
        ((i at : ℕ) → Occurs search.now.query.patterns search.now.ignore_case text.now (whole_of text.now) i at
        → begins_line text.now at ≡ false)
        (BeginsLine search.now text.now) }
{
    let mut starts = search.starts(text);
    while let Some(found) = starts.next() {
        if begins_line(text, found.start()) {
            return Some(found);
        }
    }
    None
}

/// Whether an opening bracket is at an offset.
fn is_bracket(text: &[u8], at: usize) -> bool
    ensures { result ≡ (get_or text.now at 0 == 40) }
{
    at < text.len() && text[at] == b'('
}

/// The match of the first pattern in the list that occurs at an offset with an opening bracket after it. So with the
/// names `foo`, `foo1` and `foo(`, the text `foo1(` has a call of `foo1`, and `foo((` one of `foo`. The search has to
/// prefer the longest match.
pub fn call_at(search: &Search, text: &[u8], at: usize) -> Option<Match>
    requires inside { at ≤ length text.now }
    requires longest { search.now.query.kind ≡ LeftmostLongest }
    ensures { MatchOption result
        ((i : ℕ) → OccursFirst search.now.query.patterns search.now.ignore_case text.now (rest_from text.now at) i
        → ¬ IsCalled search.now text.now at i)
        (IsFirstCall search.now text.now at) }
{
    let end = text.len();
    let mut from = 0;
    while let Some(found) = search.next_in_list(text, Span { start: at, end }, from) {
        if is_bracket(text, found.end()) {
            return Some(found);
        }
        from = found.pattern().as_usize() + 1;
    }
    None
}
