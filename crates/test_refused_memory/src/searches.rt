//! Calls of `Search` and `Overlapping`.
use crate::made::{assert_place, words_with_a_table, words_without_a_table};
use literal_base::count::Tally;
use literal_search::{BuildError, Match, MatchKind, Overlapping, Search, Span};
use std::alloc::{AllocError, Global};
use std::process::Abort;

/// A search for 24 patterns, with a prefilter or without one.
fn build(alloc: Global, ignore_case: bool, has_table: bool) -> Result<Search, BuildError> {
    let words = if has_table {
        words_with_a_table()
    } else {
        words_without_a_table()
    };
    Search::new(alloc, MatchKind::LeftmostLongest, ignore_case, words)
}

/// It finds the longest of the patterns that begin with `ax`.
fn assert_finds(rt: &impl Abort, search: &Search, has_table: bool) {
    let found = search.find_in(b"qqaxe", Span { start: 1, end: 5 });
    let (number, end) = if has_table { (1, 5) } else { (0, 4) };
    assert_place(rt, found, number, (2, end));
}

fn builds(rt: &impl Abort, alloc: Global, ignore_case: bool, has_table: bool) {
    let search = match build(alloc, ignore_case, has_table) {
        Ok(search) => search,
        Err(error) => {
            assert!(rt; error == BuildError::OutOfMemory);
            let again = build(alloc, ignore_case, has_table);
            again.expect(rt, "it was refused again")
        }
    };
    assert_finds(rt, &search, has_table);
}

#[test]
fn new_of_a_search(rt: HostRuntime) {
    builds(&rt, rt.alloc(), false, false);
}

#[test]
fn new_of_a_search_with_a_table(rt: HostRuntime) {
    builds(&rt, rt.alloc(), true, true);
}

/// A copy of a search.
fn copied(search: &Search) -> Result<Search, AllocError> {
    search.try_clone()
}

#[test]
fn try_clone_of_a_search(rt: HostRuntime) -> Result<(), AllocError> {
    let built = build(rt.alloc(), false, true).or(Err(AllocError));
    let search = built?;
    let copy = match copied(&search) {
        Ok(copy) => copy,
        Err(_) => {
            assert_finds(&rt, &search, true);
            copied(&search).expect(&rt, "it was refused again")
        }
    };
    assert_finds(&rt, &copy, true);
    Ok(())
}

/// Two matches, by the call of this number that lists them.
fn list(search: &Search, call: usize) -> Result<Vec<Match>, AllocError> {
    let haystack = b"qqaxeax";
    match call {
        0 => search.find_all(haystack),
        1 => search.find_all_in(haystack, Span { start: 1, end: 7 }),
        _ => search.find_all_in_counted(haystack, Span { start: 1, end: 7 }, &mut Tally::new()),
    }
}

#[test]
fn find_all_of_a_search(rt: HostRuntime) -> Result<(), AllocError> {
    let search = build(rt.alloc(), false, true).or(Err(AllocError))?;
    for call in 0..3 {
        let all = match list(&search, call) {
            Ok(all) => all,
            Err(_) => {
                assert_finds(&rt, &search, true);
                list(&search, call).expect(&rt, "it was refused again")
            }
        };
        assert_place(&rt, all.first().copied(), 1, (2, 5));
        assert!(rt; all.len() == 2);
    }
    Ok(())
}

/// One byte more than a block has.
static LONG: [u8; 1_025] = [b'a'; 1_025];

/// The search for these bytes.
fn build_long(alloc: Global) -> Result<Search, BuildError> {
    Search::new(alloc, MatchKind::LeftmostFirst, false, [LONG.as_slice()])
}

/// The empty list. It takes no memory.
fn list_nothing(search: &Search) -> Result<Vec<Match>, AllocError> {
    search.find_all(b"qq")
}

#[test]
fn find_all_of_a_long_pattern(rt: HostRuntime) -> Result<(), AllocError> {
    let built = build_long(rt.alloc()).or(Err(AllocError));
    let search = built?;
    let none = list_nothing(&search).expect(&rt, "it takes no memory");
    assert!(rt; none.is_empty());
    Ok(())
}

#[test]
fn find_all_of_nothing(rt: HostRuntime) -> Result<(), AllocError> {
    let built = build(rt.alloc(), false, true).or(Err(AllocError));
    let search = built?;
    let none = list_nothing(&search).expect(&rt, "it takes no memory");
    assert!(rt; none.is_empty());
    Ok(())
}

/// A search for every occurrence of patterns that are suffixes of others, and of one that is given twice.
fn build_overlapping(alloc: Global) -> Result<Overlapping, BuildError> {
    let words = [b"abc".as_slice(), b"c", b"bc", b"c"];
    let builder = Search::builder().ascii_case_insensitive(true);
    builder.build_overlapping(alloc, words)
}

/// It finds every occurrence that ends with a `c`.
fn assert_overlaps(rt: &impl Abort, search: &Overlapping) {
    let mut matches = search.find_overlapping_iter(b"aBC");
    assert_place(rt, matches.next(), 0, (0, 3));
    assert!(rt; matches.count() == 3 && search.patterns_len() == 4);
}

#[test]
fn new_of_overlapping(rt: HostRuntime) {
    let search = match build_overlapping(rt.alloc()) {
        Ok(search) => search,
        Err(error) => {
            assert!(rt; error == BuildError::OutOfMemory);
            let again = build_overlapping(rt.alloc());
            again.expect(&rt, "it was refused again")
        }
    };
    assert_overlaps(&rt, &search);
}

/// The number of matches in the text of a reader.
fn count_read(rt: &impl Abort, alloc: Global, search: &Search) -> Result<usize, AllocError> {
    let mut count: usize = 0;
    for found in search.find_stream(alloc, b"qaxaxeq".as_slice())? {
        assert!(rt; found.is_ok());
        count = count.saturating_add(1);
    }
    Ok(count)
}

#[test]
fn find_stream_of_a_search(rt: HostRuntime) -> Result<(), AllocError> {
    let built = build(rt.alloc(), false, false).or(Err(AllocError));
    let search = built?;
    let count = match count_read(&rt, rt.alloc(), &search) {
        Ok(count) => count,
        Err(_) => count_read(&rt, rt.alloc(), &search).expect(&rt, "it was refused again"),
    };
    assert!(rt; count == 2);
    Ok(())
}

/// The number of occurrences in the text of a reader.
fn count_occurrences(
    rt: &impl Abort,
    alloc: Global,
    search: &Overlapping,
) -> Result<usize, AllocError> {
    let mut count: usize = 0;
    for found in search.find_overlapping_stream(alloc, b"qabcaBc".as_slice())? {
        assert!(rt; found.is_ok());
        count = count.saturating_add(1);
    }
    Ok(count)
}

#[test]
fn stream_of_overlapping(rt: HostRuntime) -> Result<(), AllocError> {
    let built = build_overlapping(rt.alloc()).or(Err(AllocError));
    let search = built?;
    let count = match count_occurrences(&rt, rt.alloc(), &search) {
        Ok(count) => count,
        Err(_) => {
            assert_overlaps(&rt, &search);
            count_occurrences(&rt, rt.alloc(), &search).expect(&rt, "it was refused again")
        }
    };
    assert!(rt; count == 8);
    Ok(())
}
