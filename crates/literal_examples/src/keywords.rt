//! A filter of lines by keywords, and the first match from an offset on.
ghost use Rattle.std.specs.Prelude.{◌≤◌, ◌↔◌, IsTrue, length};
ghost use Rattle.literal_base.specs.Leftmost.{IsLeftmost};
ghost use Rattle.literal_base.specs.Occurs.{NothingOccurs, rest_from, whole_of};

use literal_search::{Match, Search, Span};

/// Whether none of the keywords occurs in the line.
pub fn is_clean(keywords: &Search, line: &[u8]) -> bool
    ensures { IsTrue result ↔ NothingOccurs keywords.now.query.patterns keywords.now.ignore_case line.now
        (whole_of line.now) }
{
    keywords.find(line).is_none()
}

/// The leftmost match that begins at an offset or after it. The offset has to be at most the haystack's length.
pub fn find_from(search: &Search, haystack: &[u8], at: usize) -> Option<Match>
    requires { at ≤ length haystack.now }
    ensures { IsLeftmost search.now.query search.now.ignore_case haystack.now (rest_from haystack.now at) result }
{
    let end = haystack.len();
    search.find_in(haystack, Span { start: at, end })
}
