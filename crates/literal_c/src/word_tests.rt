//! Tests of the exports that search for whole words.
use crate::{
    LITERAL_BAD_ARGUMENTS, LITERAL_DAMAGED, LITERAL_LEFTMOST_FIRST, LITERAL_LEFTMOST_LONGEST,
    LITERAL_NONE, LITERAL_OK, LiteralMatch, LiteralPage, literal_count_words_by_sides_in,
    literal_count_words_in, literal_find_all_words_by_sides_in, literal_find_all_words_in,
    literal_find_word_by_sides_in, literal_find_word_in, literal_prepare,
};
use std::alloc::Global;
use std::process::Abort;
use std::test::Fail;

const FIRST: u32 = LITERAL_LEFTMOST_FIRST;

const WORDS: &[u8] = b"yorknew yorknew york city";

const ENDS: [usize; 3] = [4, 12, 25];

const TEXT: &[u8] = b"New Yorkers like York and New York City.";

/// A match that no call writes.
const BEFORE: LiteralMatch = LiteralMatch {
    pattern: 7,
    start: 8,
    end: 9,
};

fn assert_match(rt: &impl Abort, found: &LiteralMatch, wanted: (usize, usize, usize)) {
    assert!(rt; found.pattern == wanted.0 && found.start == wanted.1 && found.end == wanted.2);
}

/// A search for the longest of the words, with case ignored.
fn prepared(alloc: Global) -> Result<Vec<u32>, Fail> {
    prepared_by(alloc, LITERAL_LEFTMOST_LONGEST)
}

/// The same by a kind.
fn prepared_by(alloc: Global, kind: u32) -> Result<Vec<u32>, Fail> {
    let (mut array, mut needed) = (vec![in alloc; 0; 2_000]?, 0);
    let status = literal_prepare(alloc, kind, 1, WORDS, &ENDS, &mut array, &mut needed);
    if status != LITERAL_OK {
        return Err(Fail::from("nothing is written"));
    }
    Ok(array)
}

#[test]
fn finds_a_word(rt: HostRuntime) -> Result<(), Fail> {
    let array = prepared(rt.alloc())?;
    let mut found = BEFORE;
    assert!(rt; literal_find_word_in(FIRST, &array, TEXT, 0, 40, &mut found) == LITERAL_OK);
    assert_match(&rt, &found, (0, 17, 21));
    let status = literal_find_word_in(FIRST, &array, TEXT, 22, 40, &mut found);
    assert!(rt; status == LITERAL_OK);
    assert_match(&rt, &found, (1, 26, 34));
    let status = literal_find_word_in(LITERAL_LEFTMOST_LONGEST, &array, TEXT, 22, 40, &mut found);
    assert!(rt; status == LITERAL_OK);
    assert_match(&rt, &found, (2, 26, 39));
    found = BEFORE;
    assert!(rt; literal_find_word_in(FIRST, &array, TEXT, 0, 16, &mut found) == LITERAL_NONE);
    assert!(rt; literal_find_word_in(2, &array, TEXT, 0, 40, &mut found) == LITERAL_BAD_ARGUMENTS);
    let status = literal_find_word_in(FIRST, &array, TEXT, 3, 2, &mut found);
    assert!(rt; status == LITERAL_BAD_ARGUMENTS);
    assert!(rt; literal_find_word_in(FIRST, &[], TEXT, 0, 40, &mut found) == LITERAL_DAMAGED);
    assert_match(&rt, &found, (7, 8, 9));
    Ok(())
}

#[test]
fn finds_pages_of_words(rt: HostRuntime) -> Result<(), Fail> {
    let array = prepared(rt.alloc())?;
    let mut found = [BEFORE];
    let mut page = LiteralPage {
        written: 0,
        next: 0,
        is_last: 7,
    };
    let status = literal_find_all_words_in(FIRST, &array, TEXT, 0, 40, &mut found, &mut page);
    assert!(rt; status == LITERAL_OK && page.written == 1 && page.next == 26 && page.is_last == 0);
    assert_match(&rt, &found[0], (0, 17, 21));
    let status = literal_find_all_words_in(FIRST, &array, TEXT, 26, 40, &mut found, &mut page);
    assert!(rt; status == LITERAL_OK && page.written == 1 && page.next == 34 && page.is_last == 1);
    assert_match(&rt, &found[0], (1, 26, 34));
    let status = literal_find_all_words_in(2, &array, TEXT, 0, 40, &mut found, &mut page);
    assert!(rt; status == LITERAL_BAD_ARGUMENTS && page.next == 34);
    let status = literal_find_all_words_in(FIRST, &array, TEXT, 0, 41, &mut found, &mut page);
    assert!(rt; status == LITERAL_BAD_ARGUMENTS && page.next == 34);
    let status = literal_find_all_words_in(FIRST, &[], TEXT, 0, 40, &mut found, &mut page);
    assert!(rt; status == LITERAL_DAMAGED && page.next == 34);
    Ok(())
}

#[test]
fn counts_words(rt: HostRuntime) -> Result<(), Fail> {
    let array = prepared(rt.alloc())?;
    let mut count = 7;
    assert!(rt;
        literal_count_words_in(2, &array, TEXT, 0, 40, &mut count) == LITERAL_BAD_ARGUMENTS
    );
    assert!(rt; literal_count_words_in(FIRST, &[], TEXT, 0, 40, &mut count) == LITERAL_DAMAGED);
    let status = literal_count_words_in(FIRST, &array, TEXT, 0, 41, &mut count);
    assert!(rt; status == LITERAL_BAD_ARGUMENTS && count == 7);
    assert!(rt; literal_count_words_in(FIRST, &array, TEXT, 0, 40, &mut count) == LITERAL_OK);
    assert!(rt; count == 2);
    Ok(())
}

/// No word is found by an array of the other kind, in which links to shorter words may be missing.
#[test]
fn refuses_an_array_of_the_other_kind(rt: HostRuntime) -> Result<(), Fail> {
    let array = prepared_by(rt.alloc(), FIRST)?;
    let (mut found, mut count) = (BEFORE, 7);
    let mut page = LiteralPage {
        written: 5,
        next: 6,
        is_last: 7,
    };
    for kind in [FIRST, LITERAL_LEFTMOST_LONGEST] {
        let status = literal_find_word_in(kind, &array, TEXT, 0, 40, &mut found);
        assert!(rt; status == LITERAL_DAMAGED);
        let status = literal_find_all_words_in(kind, &array, TEXT, 0, 40, &mut [found], &mut page);
        assert!(rt; status == LITERAL_DAMAGED && page.written == 5);
        let status = literal_count_words_in(kind, &array, TEXT, 0, 40, &mut count);
        assert!(rt; status == LITERAL_DAMAGED && count == 7);
    }
    assert_match(&rt, &found, (7, 8, 9));
    Ok(())
}

/// In it the first `york` has another letter right before it, and the second one an arrow.
const ACCENTED: &[u8] = b"\xC3\xA9york \xE2\x86\x92york";

const SIDES: &[u8] = b"aayork    york";

#[test]
fn finds_a_word_by_sides(rt: HostRuntime) -> Result<(), Fail> {
    let array = prepared(rt.alloc())?;
    let (mut found, find) = (BEFORE, literal_find_word_by_sides_in);
    assert!(rt; find(FIRST, &array, ACCENTED, SIDES, 0, 14, &mut found) == LITERAL_OK);
    assert_match(&rt, &found, (0, 10, 14));
    assert!(rt; find(FIRST, &array, ACCENTED, &[], 0, 14, &mut found) == LITERAL_OK);
    assert_match(&rt, &found, (0, 2, 6));
    assert!(rt; find(FIRST, &array, ACCENTED, SIDES, 0, 9, &mut found) == LITERAL_NONE);
    let status = find(FIRST, &array, ACCENTED, &SIDES[1..], 0, 14, &mut found);
    assert!(rt; status == LITERAL_BAD_ARGUMENTS);
    assert_match(&rt, &found, (0, 2, 6));
    Ok(())
}

#[test]
fn lists_and_counts_words_by_sides(rt: HostRuntime) -> Result<(), Fail> {
    let array = prepared(rt.alloc())?;
    let (mut found, mut count) = ([BEFORE], 7);
    let mut page = LiteralPage {
        written: 0,
        next: 0,
        is_last: 7,
    };
    let list = literal_find_all_words_by_sides_in;
    let status = list(FIRST, &array, ACCENTED, SIDES, 0, 14, &mut found, &mut page);
    assert!(rt; status == LITERAL_OK && page.written == 1 && page.next == 14 && page.is_last == 1);
    assert_match(&rt, &found[0], (0, 10, 14));
    let status = list(
        FIRST,
        &array,
        ACCENTED,
        &SIDES[1..],
        0,
        14,
        &mut found,
        &mut page,
    );
    assert!(rt; status == LITERAL_BAD_ARGUMENTS && page.next == 14);
    let count_words = literal_count_words_by_sides_in;
    let status = count_words(FIRST, &array, ACCENTED, SIDES, 0, 14, &mut count);
    assert!(rt; status == LITERAL_OK && count == 1);
    let status = count_words(FIRST, &array, ACCENTED, &SIDES[1..], 0, 14, &mut count);
    assert!(rt; status == LITERAL_BAD_ARGUMENTS && count == 1);
    Ok(())
}
