//! Calls of `Searcher`.
use crate::made::{assert_place, words};
use literal_prefilters::count::Tally;
use literal_prefilters::packed::{MatchKind, Searcher};
use literal_prefilters::{Match, Span};
use std::alloc::{AllocError, Global};
use std::process::Abort;

/// The match in a span, by the call that counts.
fn counted(searcher: &Searcher) -> Option<Match> {
    let span = Span { start: 2, end: 3 };
    searcher.find_in_counted(b"xabcd", span, &mut Tally::new())
}

/// The first match and the next one, by the calls that allocate nothing.
fn found(searcher: &Searcher) -> [Option<Match>; 2] {
    let span = Span { start: 2, end: 5 };
    [searcher.find(b"xabcd"), searcher.find_in(b"xabcd", span)]
}

/// All calls of a searcher for 24 words that allocate nothing give the right answers.
fn assert_searches(rt: &impl Abort, searcher: &Searcher) {
    assert!(rt; *searcher.match_kind() == MatchKind::LeftmostFirst);
    assert!(rt; searcher.minimum_len() == 0);
    let [first, behind] = found(searcher);
    assert_place(rt, first, 1, (1, 3));
    assert_place(rt, behind, 2, (2, 5));
    assert!(rt; counted(searcher).is_none());
    assert!(rt; searcher.find_iter(b"ab c bcd").count() == 3);
}

/// A searcher for 24 words. There has to be one.
fn new(alloc: Global) -> Result<Option<Searcher>, AllocError> {
    Searcher::new(alloc, words())
}

/// The same.
fn made(rt: &impl Abort, alloc: Global) -> Result<Searcher, AllocError> {
    Ok(new(alloc)?.expect(rt, "patterns make nothing"))
}

/// A copy of a searcher.
fn copied(searcher: &Searcher) -> Result<Searcher, AllocError> {
    searcher.try_clone()
}

/// `Searcher::new`, and `try_clone` of its result.
#[test]
fn new_and_try_clone_of_searcher(rt: HostRuntime) {
    let searcher = match made(&rt, rt.alloc()) {
        Ok(made) => made,
        Err(_) => made(&rt, rt.alloc()).expect(&rt, "it was refused again"),
    };
    let copy = match copied(&searcher) {
        Ok(copy) => copy,
        Err(_) => copied(&searcher).expect(&rt, "it was refused again"),
    };
    assert_searches(&rt, &searcher);
    assert_searches(&rt, &copy);
}

/// All matches of a haystack.
fn list(searcher: &Searcher) -> Result<Vec<Match>, AllocError> {
    searcher.find_all(b"ab c bcd", &mut Tally::new())
}

#[test]
fn find_all(rt: HostRuntime) -> Result<(), AllocError> {
    let searcher = made(&rt, rt.alloc())?;
    let all = match list(&searcher) {
        Ok(all) => all,
        Err(_) => {
            assert_searches(&rt, &searcher);
            list(&searcher).expect(&rt, "it was refused again")
        }
    };
    assert!(rt; all.len() == 3);
    Ok(())
}
