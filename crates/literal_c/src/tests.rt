//! Tests that call each export once, and check what it writes.
use crate::{
    LITERAL_BAD_ARGUMENTS, LITERAL_LEFTMOST_FIRST, LITERAL_LEFTMOST_LONGEST, LITERAL_NO_SEARCHER,
    LITERAL_NONE, LITERAL_OK, LiteralAnswer, LiteralMatch, LiteralPage, literal_can_search,
    literal_find, literal_find_all, literal_find_each, literal_find_overlapping, literal_fold,
    literal_version,
};
use std::process::Abort;
use std::test::Fail;

const WORDS: &[u8] = b"applemapleSnapple";

const ENDS: [usize; 3] = [5, 10, 17];

const TEXT: &[u8] = b"Nobody likes maple in their apple flavored Snapple.";

/// A match that no call writes.
const BEFORE: LiteralMatch = LiteralMatch {
    pattern: 7,
    start: 8,
    end: 9,
};

fn assert_match(rt: &impl Abort, found: &LiteralMatch, wanted: (usize, usize, usize)) {
    assert!(rt; found.pattern == wanted.0 && found.start == wanted.1 && found.end == wanted.2);
}

#[test]
fn tells_its_version(rt: HostRuntime) {
    assert!(rt; literal_version() == 1000);
}

#[test]
fn folds_a_text(rt: HostRuntime) {
    let mut text = *b"\xC3\x89T\xC3\x89";
    assert!(rt; literal_fold(&mut text) == LITERAL_OK && text == *b"\xC3\xA9t\xC3\xA9");
}

#[test]
fn finds_in_a_span(rt: HostRuntime) -> Result<(), Fail> {
    assert!(rt; literal_can_search(WORDS, &ENDS) == LITERAL_OK);
    assert!(rt; literal_can_search(WORDS, &[]) == LITERAL_OK);
    assert!(rt; literal_can_search(WORDS, &[5, 5]) == LITERAL_NO_SEARCHER);
    assert!(rt; literal_can_search(WORDS, &[5, 4]) == LITERAL_BAD_ARGUMENTS);
    assert!(rt; literal_can_search(WORDS, &[18]) == LITERAL_BAD_ARGUMENTS);
    let (alloc, kind) = (rt.alloc(), LITERAL_LEFTMOST_FIRST);
    let mut found = BEFORE;
    let status = literal_find(alloc, kind, 0, WORDS, &ENDS, TEXT, 14, 51, &mut found);
    assert!(rt; status == LITERAL_OK);
    assert_match(&rt, &found, (0, 28, 33));
    found = BEFORE;
    let status = literal_find(alloc, kind, 1, WORDS, &ENDS, TEXT, 14, 32, &mut found);
    assert!(rt; status == LITERAL_NONE);
    let status = literal_find(alloc, kind, 1, WORDS, &ENDS, TEXT, 3, 2, &mut found);
    assert!(rt; status == LITERAL_BAD_ARGUMENTS);
    let status = literal_find(alloc, 2, 1, WORDS, &ENDS, TEXT, 0, 51, &mut found);
    assert!(rt; status == LITERAL_BAD_ARGUMENTS);
    let status = literal_find(alloc, kind, 1, WORDS, &[0], TEXT, 0, 51, &mut found);
    assert!(rt; status == LITERAL_NO_SEARCHER);
    assert_match(&rt, &found, (7, 8, 9));
    Ok(())
}

#[test]
fn every_number_but_zero_is_true(rt: HostRuntime) {
    let (alloc, kind) = (rt.alloc(), LITERAL_LEFTMOST_FIRST);
    for flag in [1, 2, 3, 255, 256, 1 << 31] {
        let mut found = BEFORE;
        let status = literal_find(alloc, kind, flag, b"b", &[1], b"aB", 0, 2, &mut found);
        assert!(rt; status == LITERAL_OK);
        assert_match(&rt, &found, (0, 1, 2));
    }
}

#[test]
fn finds_all_in_pages(rt: HostRuntime) -> Result<(), Fail> {
    let (alloc, kind) = (rt.alloc(), LITERAL_LEFTMOST_LONGEST);
    let mut found = [BEFORE, BEFORE];
    let mut page = LiteralPage {
        written: 0,
        next: 0,
        is_last: 7,
    };
    let status = literal_find_all(alloc, kind, 1, WORDS, &ENDS, TEXT, 0, &mut found, &mut page);
    assert!(rt; status == LITERAL_OK && page.written == 2 && page.next == 43 && page.is_last == 0);
    assert_match(&rt, &found[0], (1, 13, 18));
    assert_match(&rt, &found[1], (0, 28, 33));
    let status = literal_find_all(
        alloc, kind, 1, WORDS, &ENDS, TEXT, 43, &mut found, &mut page,
    );
    assert!(rt; status == LITERAL_OK && page.written == 1 && page.next == 50 && page.is_last == 1);
    assert_match(&rt, &found[0], (2, 43, 50));
    assert_match(&rt, &found[1], (0, 28, 33));
    let status = literal_find_all(
        alloc, kind, 1, WORDS, &ENDS, TEXT, 52, &mut found, &mut page,
    );
    assert!(rt; status == LITERAL_BAD_ARGUMENTS && page.written == 1);
    Ok(())
}

#[test]
fn finds_in_each(rt: HostRuntime) -> Result<(), Fail> {
    let (alloc, kind) = (rt.alloc(), LITERAL_LEFTMOST_FIRST);
    let before = LiteralAnswer {
        status: 7,
        found: BEFORE,
    };
    let mut answers = [before, before, before];
    let lines = b"an applesome maple";
    let status = literal_find_each(
        alloc,
        kind,
        0,
        WORDS,
        &ENDS,
        lines,
        &[8, 12, 18],
        &mut answers,
    );
    assert!(rt; status == LITERAL_OK);
    assert!(rt; answers[0].status == LITERAL_OK);
    assert_match(&rt, &answers[0].found, (0, 3, 8));
    assert!(rt; answers[1].status == LITERAL_NONE);
    assert_match(&rt, &answers[1].found, (0, 0, 0));
    assert!(rt; answers[2].status == LITERAL_OK);
    assert_match(&rt, &answers[2].found, (1, 1, 6));
    let status = literal_find_each(alloc, kind, 0, WORDS, &ENDS, lines, &[8, 12], &mut answers);
    assert!(rt; status == LITERAL_BAD_ARGUMENTS && answers[0].status == LITERAL_OK);
    Ok(())
}

#[test]
fn finds_all_that_occurs(rt: HostRuntime) -> Result<(), Fail> {
    let alloc = rt.alloc();
    let mut found = [BEFORE, BEFORE];
    let mut page = LiteralPage {
        written: 0,
        next: 0,
        is_last: 7,
    };
    let (words, ends) = (b"abab", [2, 3, 4]);
    let status = literal_find_overlapping(
        alloc, 1, words, &ends, b"xAB", 0, 3, &mut found, &mut page,
    );
    assert!(rt; status == LITERAL_OK && page.written == 2 && page.next == 3 && page.is_last == 0);
    assert_match(&rt, &found[0], (1, 1, 2));
    assert_match(&rt, &found[1], (0, 1, 3));
    let status = literal_find_overlapping(
        alloc, 1, words, &ends, b"xAB", 2, 3, &mut found, &mut page,
    );
    assert!(rt; status == LITERAL_OK && page.written == 1 && page.next == 3 && page.is_last == 1);
    assert_match(&rt, &found[0], (2, 2, 3));
    let status = literal_find_overlapping(
        alloc, 1, words, &ends, b"xAB", 2, 4, &mut found, &mut page,
    );
    assert!(rt; status == LITERAL_BAD_ARGUMENTS && page.written == 1);
    let status = literal_find_overlapping(alloc, 1, words, &ends, b"xAB", 2, 3, &mut [], &mut page);
    assert!(rt; status == LITERAL_BAD_ARGUMENTS && page.written == 1);
    Ok(())
}
