//! Tests of the exports that count every occurrence, write pages of them, and tell what an array is for.
use crate::{
    LITERAL_BAD_ARGUMENTS, LITERAL_DAMAGED, LITERAL_LEFTMOST_FIRST, LITERAL_LEFTMOST_LONGEST,
    LITERAL_NO_SEARCHER, LITERAL_OK, LiteralInfo, LiteralMatch, LiteralPage,
    literal_count_overlapping, literal_count_overlapping_in, literal_find_overlapping_from_in,
    literal_prepare, literal_prepare_overlapping, literal_prepared_info,
};
use std::alloc::Global;
use std::process::Abort;
use std::test::Fail;

/// `ab`, `a`, `b` and `bab`.
const WORDS: &[u8] = b"ababbab";

const ENDS: [usize; 4] = [2, 3, 4, 7];

/// A search for every occurrence of the words, with case ignored.
fn search_for_all(alloc: Global) -> Result<Vec<u32>, Fail> {
    let mut prepared = vec![in alloc; 0; 2000]?;
    let mut needed = 0;
    let status = literal_prepare_overlapping(alloc, 1, WORDS, &ENDS, &mut prepared, &mut needed);
    if status != LITERAL_OK {
        return Err(Fail::from("nothing is written"));
    }
    Ok(prepared)
}

#[test]
fn counts_all_that_occurs(rt: HostRuntime) -> Result<(), Fail> {
    let (alloc, mut count) = (rt.alloc(), 7);
    let status = literal_count_overlapping(alloc, 1, WORDS, &ENDS, b"xABab", 0, 5, &mut count);
    assert!(rt; status == LITERAL_OK && count == 7);
    let status = literal_count_overlapping(alloc, 1, WORDS, &ENDS, b"xABab", 2, 4, &mut count);
    assert!(rt; status == LITERAL_OK && count == 2);
    let status = literal_count_overlapping(alloc, 1, WORDS, &ENDS, b"xABab", 2, 6, &mut count);
    assert!(rt; status == LITERAL_BAD_ARGUMENTS && count == 2);
    let status = literal_count_overlapping(alloc, 1, WORDS, &[0], b"xABab", 2, 5, &mut count);
    assert!(rt; status == LITERAL_NO_SEARCHER && count == 2);
    Ok(())
}

#[test]
fn counts_all_that_occurs_by_an_array(rt: HostRuntime) -> Result<(), Fail> {
    let (prepared, mut count) = (search_for_all(rt.alloc())?, 9);
    let status = literal_count_overlapping_in(&prepared, b"xABab", 0, 5, &mut count);
    assert!(rt; status == LITERAL_OK && count == 7);
    let status = literal_count_overlapping_in(&prepared, b"xABab", 3, 2, &mut count);
    assert!(rt; status == LITERAL_BAD_ARGUMENTS && count == 7);
    let status = literal_count_overlapping_in(&[], b"xABab", 0, 5, &mut count);
    assert!(rt; status == LITERAL_DAMAGED && count == 7);
    Ok(())
}

/// Pages with room for one match give `a`, `ab`, `b`, `a`, `ab`, `b` and `bab`, each once.
#[test]
fn goes_on_behind_a_match(rt: HostRuntime) -> Result<(), Fail> {
    let prepared = search_for_all(rt.alloc())?;
    let wanted = [(1, 2), (0, 3), (2, 3), (1, 4), (0, 5), (2, 5), (3, 5)];
    let before = LiteralMatch {
        pattern: 7,
        start: 8,
        end: 9,
    };
    let (mut found, mut next, mut pattern) = ([before], 0, 0);
    let mut page = LiteralPage {
        written: 0,
        next: 0,
        is_last: 7,
    };
    for it in wanted.iter() {
        let status = literal_find_overlapping_from_in(
            &prepared, b"xABab", 0, 5, next, pattern, &mut found, &mut page,
        );
        assert!(rt; status == LITERAL_OK && page.written == 1 && page.next == it.1);
        assert!(rt; found[0].pattern == it.0 && found[0].end == it.1);
        next = found[0].end;
        pattern = it.0 + 1;
    }
    assert!(rt; page.is_last == 1);
    let status = literal_find_overlapping_from_in(
        &prepared, b"xABab", 0, 5, next, pattern, &mut found, &mut page,
    );
    assert!(rt; status == LITERAL_OK && page.written == 0 && page.next == 5 && page.is_last == 1);
    for (start, end, next) in [(0, 6, 0), (2, 1, 2), (2, 5, 1), (2, 4, 5)] {
        let status = literal_find_overlapping_from_in(
            &prepared, b"xABab", start, end, next, 0, &mut found, &mut page,
        );
        assert!(rt; status == LITERAL_BAD_ARGUMENTS && page.next == 5);
    }
    Ok(())
}

#[test]
fn tells_what_an_array_is_for(rt: HostRuntime) -> Result<(), Fail> {
    let alloc = rt.alloc();
    let mut info = LiteralInfo {
        patterns: 9,
        shortest: 9,
        longest: 9,
        is_overlapping: 9,
        kind: 9,
    };
    assert!(rt; literal_prepared_info(&[], &mut info) == LITERAL_DAMAGED && info.patterns == 9);
    let prepared = search_for_all(alloc)?;
    assert!(rt; literal_prepared_info(&prepared, &mut info) == LITERAL_OK);
    assert!(rt; info.patterns == 4 && info.shortest == 1 && info.longest == 3);
    assert!(rt; info.is_overlapping == 1 && info.kind == 0);
    let (mut leftmost, mut needed) = (vec![in alloc; 0; 2000]?, 0);
    let status = literal_prepare(
        alloc,
        LITERAL_LEFTMOST_FIRST,
        0,
        b"applefig",
        &[5, 8],
        &mut leftmost,
        &mut needed,
    );
    assert!(rt; status == LITERAL_OK);
    assert!(rt; literal_prepared_info(&leftmost, &mut info) == LITERAL_OK);
    assert!(rt; info.patterns == 2 && info.shortest == 3 && info.longest == 5);
    assert!(rt; info.is_overlapping == 0 && info.kind == LITERAL_LEFTMOST_FIRST);
    let status = literal_prepare(
        alloc,
        LITERAL_LEFTMOST_LONGEST,
        0,
        &[],
        &[],
        &mut leftmost,
        &mut needed,
    );
    assert!(rt; status == LITERAL_OK);
    assert!(rt; literal_prepared_info(&leftmost, &mut info) == LITERAL_OK);
    assert!(rt; info.patterns == 0 && info.shortest == 0 && info.longest == 0);
    assert!(rt; info.is_overlapping == 0 && info.kind == LITERAL_LEFTMOST_LONGEST);
    Ok(())
}
