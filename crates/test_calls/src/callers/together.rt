//! The guarantees of all layers, together, for worked cases.
use literal_prefilters::count::Tally;
use literal_prefilters::packed::MatchKind::LeftmostFirst;
use literal_prefilters::{Match, MatchKind, Span};
use literal_promise::{Confirmed, SearchOutcome, SearchRequest, together};
use std::alloc::{AllocError, Global};
use std::process::Abort;
use std::test::Fail;

/// The leftmost of three words in a span.
fn searched(alloc: Global) -> Result<(Option<SearchOutcome>, Option<Confirmed>), AllocError> {
    let asked = SearchRequest {
        kind: LeftmostFirst,
        pattern_limit: 3,
        built_for: MatchKind::Standard,
        ignore_case: false,
        patterns: &[b"apple", b"maple", b"Snapple"],
    };
    let haystack = b"Nobody likes maple in their apple flavored Snapple.";
    let span = Span { start: 14, end: 51 };
    together(alloc, &asked, haystack, span, &mut Tally::new())
}

fn assert_confirmed(rt: &impl Abort, confirmed: Confirmed, wanted: Option<Match>) {
    assert!(rt; confirmed.found == wanted);
    assert!(rt; confirmed.candidate.into_option() == Some(14));
}

#[test]
fn searches_and_confirms(rt: HostRuntime) -> Result<(), Fail> {
    let apple = Some(Match::must(0, Span { start: 28, end: 33 }));
    let (searcher, prefilter) = searched(rt.alloc())?;
    let outcome = searcher.ok_or("there is no searcher")?;
    assert!(rt; outcome.found == apple && outcome.all.len() == 3);
    assert_confirmed(&rt, prefilter.ok_or("there is no prefilter")?, apple);
    Ok(())
}
