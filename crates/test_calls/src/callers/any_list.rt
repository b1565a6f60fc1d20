//! The guarantees of the searches for any list, together, for worked cases.
use literal_search::{BuildError, Match, MatchKind, Span, Tally};
use search_promise::{AnyFound, AnySearch, search_any_list, stream_any_list};
use std::alloc::Global;
use std::test::Fail;

const HAYSTACK: &[u8] = b"Nobody likes maple in their apple flavored Snapple.";

const SPAN: Span = Span { start: 14, end: 51 };

fn searched(alloc: Global, asked: &AnySearch<'_>) -> Result<AnyFound, BuildError> {
    let (mut once, mut iterated, mut listed) = (Tally::new(), Tally::new(), Tally::new());
    let mut array = [0; 1000];
    search_any_list(
        alloc,
        asked,
        HAYSTACK,
        SPAN,
        &mut array,
        &mut once,
        &mut iterated,
        &mut listed,
    )
}

#[test]
fn searches_for_any_list(rt: HostRuntime) -> Result<(), Fail> {
    let asked = AnySearch {
        kind: MatchKind::LeftmostLongest,
        ignore_case: true,
        patterns: &[b"APPLE", b"maple", b"snapple", b"app"],
    };
    let any = searched(rt.alloc(), &asked)?;
    let apple = Match::must(0, Span { start: 28, end: 33 });
    assert!(rt; any.searched.found == Some(apple) && any.occurring.earliest == Some(31));
    assert!(rt; any.by_array == Ok(Some(Match::must(0, Span { start: 28, end: 33 }))));
    assert!(rt; any.searched.all.len() == 3 && any.searched.list.len() == 3);
    assert!(rt; any.occurring.all.len() == 5);
    let streamed = stream_any_list(rt.alloc(), &asked, HAYSTACK, &mut Tally::new())??;
    assert!(rt; streamed.len() == 3);
    Ok(())
}
