//! Calls of `ConfirmingSearch`.
use crate::made::{assert_place, words_with_a_table, words_without_a_table};
use literal_prefilters::count::Tally;
use literal_prefilters::packed::MatchKind;
use literal_prefilters::prefilter::ConfirmingSearch;
use literal_prefilters::{Match, Span};
use std::alloc::{AllocError, Global};
use std::process::Abort;

/// A search for 24 patterns: by a table with case ignored, or by a packed search with case kept.
fn build(alloc: Global, by_table: bool) -> Result<Option<ConfirmingSearch>, AllocError> {
    let words = if by_table {
        words_with_a_table()
    } else {
        words_without_a_table()
    };
    ConfirmingSearch::build(alloc, MatchKind::LeftmostLongest, by_table, words)
}

fn built(rt: &impl Abort, alloc: Global, by_table: bool) -> Result<ConfirmingSearch, AllocError> {
    Ok(build(alloc, by_table)?.expect(rt, "there is no prefilter"))
}

/// It finds the longest of the patterns that begin with `ax`.
fn assert_finds(rt: &impl Abort, search: &ConfirmingSearch, by_table: bool) {
    let found = search.find_in(b"qqaxe", Span { start: 1, end: 5 });
    let (number, end) = if by_table { (1, 5) } else { (0, 4) };
    assert_place(rt, found, number, (2, end));
}

fn builds(rt: &impl Abort, alloc: Global, by_table: bool) {
    let search = match built(rt, alloc, by_table) {
        Ok(search) => search,
        Err(_) => built(rt, alloc, by_table).expect(rt, "it was refused again"),
    };
    assert_finds(rt, &search, by_table);
}

/// All matches of a haystack.
fn list(search: &ConfirmingSearch) -> Result<Vec<Match>, AllocError> {
    search.find_all(b"qqaxeaxe", &mut Tally::new())
}

fn lists(rt: &impl Abort, alloc: Global, by_table: bool) -> Result<(), AllocError> {
    let search = built(rt, alloc, by_table)?;
    let all = match list(&search) {
        Ok(all) => all,
        Err(_) => {
            assert_finds(rt, &search, by_table);
            list(&search).expect(rt, "it was refused again")
        }
    };
    assert!(rt; all.len() == 2);
    Ok(())
}

/// By a table, and by a search.
#[test]
fn build_of_confirming(rt: HostRuntime) {
    builds(&rt, rt.alloc(), true);
    builds(&rt, rt.alloc(), false);
}

#[test]
fn find_all_of_confirming(rt: HostRuntime) -> Result<(), AllocError> {
    lists(&rt, rt.alloc(), true)?;
    lists(&rt, rt.alloc(), false)
}
