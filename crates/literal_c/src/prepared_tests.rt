//! Tests of the exports that fill an array or search by one.
use crate::{
    LITERAL_BAD_ARGUMENTS, LITERAL_DAMAGED, LITERAL_LEFTMOST_FIRST, LITERAL_LEFTMOST_LONGEST,
    LITERAL_NO_SEARCHER, LITERAL_NONE, LITERAL_OK, LITERAL_TOO_SHORT, LiteralAnswer, LiteralMatch,
    LiteralPage, literal_check_overlapping, literal_check_prepared, literal_count_in,
    literal_find_all_in, literal_find_all_so_far_in, literal_find_each_in, literal_find_in,
    literal_find_overlapping_in, literal_find_so_far_in, literal_prepare,
    literal_prepare_overlapping,
};
use std::alloc::Global;
use std::process::Abort;
use std::test::Fail;

const WORDS: &[u8] = b"applemapleSnapple";

const ENDS: [usize; 3] = [5, 10, 17];

const TEXT: &[u8] = b"Nobody likes maple in their apple flavored Snapple.";

/// A match that no call writes.
const BEFORE: LiteralMatch = LiteralMatch {
    pattern: 7,
    start: 8,
    end: 9,
};

fn assert_match(rt: &impl Abort, found: &LiteralMatch, wanted: (usize, usize, usize)) {
    assert!(rt; found.pattern == wanted.0 && found.start == wanted.1 && found.end == wanted.2);
}

/// An array of zeros that is as long as a search for the words needs.
fn room(alloc: Global, kind: u32, ignore_case: u32) -> Result<Vec<u32>, Fail> {
    let mut needed = 0;
    let status = literal_prepare(alloc, kind, ignore_case, WORDS, &ENDS, &mut [], &mut needed);
    if status != LITERAL_TOO_SHORT || needed > 10_000 {
        return Err(Fail::from("no room is asked for"));
    }
    Ok(vec![in alloc; 0; needed]?)
}

/// A search for the words, followed by three more entries.
fn search_for_words(alloc: Global, kind: u32, ignore_case: u32) -> Result<Vec<u32>, Fail> {
    let mut prepared = room(alloc, kind, ignore_case)?;
    prepared.extend_from_slice(&[7, 8, 9])?;
    let mut needed = 0;
    let status = literal_prepare(
        alloc,
        kind,
        ignore_case,
        WORDS,
        &ENDS,
        &mut prepared,
        &mut needed,
    );
    if status != LITERAL_OK || needed + 3 != prepared.len() {
        return Err(Fail::from("nothing is written"));
    }
    Ok(prepared)
}

#[test]
fn prepares(rt: HostRuntime) -> Result<(), Fail> {
    let (alloc, kind) = (rt.alloc(), LITERAL_LEFTMOST_FIRST);
    let mut short = room(alloc, kind, 0)?;
    let full = short.len();
    let _ = short.pop();
    let mut needed = 0;
    let status = literal_prepare(alloc, kind, 0, WORDS, &ENDS, &mut short, &mut needed);
    assert!(rt; status == LITERAL_TOO_SHORT && needed == full);
    assert!(rt; short.iter().all(|number| *number == 0));
    needed = 5;
    let status = literal_prepare(alloc, kind, 0, WORDS, &[0], &mut short, &mut needed);
    assert!(rt; status == LITERAL_NO_SEARCHER && needed == 5);
    let status = literal_prepare(alloc, 2, 0, WORDS, &ENDS, &mut short, &mut needed);
    assert!(rt; status == LITERAL_BAD_ARGUMENTS && needed == 5);
    assert!(rt; short.iter().all(|number| *number == 0));
    assert!(rt; literal_check_prepared(&short) == LITERAL_DAMAGED);
    let prepared = search_for_words(alloc, kind, 0)?;
    assert!(rt; literal_check_prepared(&prepared) == LITERAL_OK);
    assert!(rt; prepared.ends_with(&[7, 8, 9]));
    Ok(())
}

#[test]
fn finds_by_an_array(rt: HostRuntime) -> Result<(), Fail> {
    let prepared = search_for_words(rt.alloc(), LITERAL_LEFTMOST_FIRST, 1)?;
    let mut found = BEFORE;
    assert!(rt; literal_find_in(&prepared, TEXT, 14, 51, &mut found) == LITERAL_OK);
    assert_match(&rt, &found, (0, 28, 33));
    found = BEFORE;
    assert!(rt; literal_find_in(&prepared, TEXT, 14, 32, &mut found) == LITERAL_NONE);
    assert!(rt; literal_find_in(&prepared, TEXT, 3, 2, &mut found) == LITERAL_BAD_ARGUMENTS);
    assert!(rt; literal_find_in(&prepared, TEXT, 0, 52, &mut found) == LITERAL_BAD_ARGUMENTS);
    assert!(rt; literal_find_in(&[], TEXT, 0, 51, &mut found) == LITERAL_DAMAGED);
    assert_match(&rt, &found, (7, 8, 9));
    let mut count = 0;
    assert!(rt; literal_count_in(&prepared, TEXT, 0, 51, &mut count) == LITERAL_OK && count == 3);
    assert!(rt; literal_count_in(&prepared, TEXT, 14, 49, &mut count) == LITERAL_OK && count == 1);
    assert!(rt; literal_count_in(&prepared, TEXT, 0, 52, &mut count) == LITERAL_BAD_ARGUMENTS);
    assert!(rt; literal_count_in(&[], TEXT, 0, 51, &mut count) == LITERAL_DAMAGED && count == 1);
    Ok(())
}

/// A count of one byte takes no iteration.
#[test]
fn counts_one_byte_by_an_array(rt: HostRuntime) -> Result<(), Fail> {
    let (alloc, kind) = (rt.alloc(), LITERAL_LEFTMOST_FIRST);
    let (mut needed, mut count) = (0, 0);
    let mut prepared = vec![in alloc; 0; 1000]?;
    let status = literal_prepare(alloc, kind, 0, b"e", &[1], &mut prepared, &mut needed);
    assert!(rt; status == LITERAL_OK);
    assert!(rt; literal_count_in(&prepared, TEXT, 0, 51, &mut count) == LITERAL_OK && count == 6);
    assert!(rt; literal_count_in(&prepared, TEXT, 14, 49, &mut count) == LITERAL_OK && count == 4);
    Ok(())
}

#[test]
fn finds_pages_by_an_array(rt: HostRuntime) -> Result<(), Fail> {
    let prepared = search_for_words(rt.alloc(), LITERAL_LEFTMOST_LONGEST, 1)?;
    let mut found = [BEFORE, BEFORE];
    let mut page = LiteralPage {
        written: 0,
        next: 0,
        is_last: 7,
    };
    let status = literal_find_all_in(&prepared, TEXT, 0, 50, &mut found, &mut page);
    assert!(rt; status == LITERAL_OK && page.written == 2 && page.next == 43 && page.is_last == 0);
    assert_match(&rt, &found[0], (1, 13, 18));
    assert_match(&rt, &found[1], (0, 28, 33));
    let status = literal_find_all_in(&prepared, TEXT, 33, 49, &mut found, &mut page);
    assert!(rt; status == LITERAL_OK && page.written == 0 && page.next == 33 && page.is_last == 1);
    let status = literal_find_all_in(&prepared, TEXT, 43, 50, &mut found, &mut page);
    assert!(rt; status == LITERAL_OK && page.written == 1 && page.next == 50 && page.is_last == 1);
    assert_match(&rt, &found[0], (2, 43, 50));
    assert_match(&rt, &found[1], (0, 28, 33));
    let status = literal_find_all_in(&prepared, TEXT, 52, 51, &mut found, &mut page);
    assert!(rt; status == LITERAL_BAD_ARGUMENTS && page.written == 1);
    let status = literal_find_all_in(&prepared, TEXT, 0, 51, &mut [], &mut page);
    assert!(rt; status == LITERAL_BAD_ARGUMENTS && page.written == 1);
    let status = literal_find_all_in(&[], TEXT, 0, 51, &mut found, &mut page);
    assert!(rt; status == LITERAL_DAMAGED && page.written == 1);
    Ok(())
}

/// Finds the word at the end of a haystack, in a span that begins at an offset.
fn assert_found_at_end(rt: &impl Abort, prepared: &[u32], haystack: &[u8], start: usize) {
    let (mut found, mut count) = ([BEFORE], 0);
    let mut page = LiteralPage {
        written: 0,
        next: 0,
        is_last: 7,
    };
    let status = literal_find_all_in(prepared, haystack, start, 130, &mut found, &mut page);
    assert!(rt; status == LITERAL_OK && page.written == 1 && page.next == 130);
    assert_match(rt, &found[0], (1, 125, 130));
    let status = literal_count_in(prepared, haystack, start, 130, &mut count);
    assert!(rt; status == LITERAL_OK && count == 1);
}

/// The longest short span has 128 bytes.
#[test]
fn finds_at_the_end_of_spans_that_are_just_short(rt: HostRuntime) -> Result<(), Fail> {
    let prepared = search_for_words(rt.alloc(), LITERAL_LEFTMOST_FIRST, 0)?;
    let mut haystack = [b'-'; 130];
    haystack[125..].copy_from_slice(b"maple");
    assert_found_at_end(&rt, &prepared, &haystack, 2);
    assert_found_at_end(&rt, &prepared, &haystack, 1);
    Ok(())
}

#[test]
fn finds_in_each_by_an_array(rt: HostRuntime) -> Result<(), Fail> {
    let prepared = search_for_words(rt.alloc(), LITERAL_LEFTMOST_FIRST, 0)?;
    let before = LiteralAnswer {
        status: 7,
        found: BEFORE,
    };
    let mut answers = [before, before, before];
    let (lines, ends) = (b"an applesome maple", [8, 12, 18]);
    let status = literal_find_each_in(&prepared, lines, &ends, &mut answers);
    assert!(rt; status == LITERAL_OK);
    assert!(rt; answers[0].status == LITERAL_OK);
    assert_match(&rt, &answers[0].found, (0, 3, 8));
    assert!(rt; answers[1].status == LITERAL_NONE);
    assert_match(&rt, &answers[1].found, (0, 0, 0));
    assert!(rt; answers[2].status == LITERAL_OK);
    assert_match(&rt, &answers[2].found, (1, 1, 6));
    let status = literal_find_each_in(&prepared, lines, &[8, 12], &mut answers);
    assert!(rt; status == LITERAL_BAD_ARGUMENTS && answers[0].status == LITERAL_OK);
    let status = literal_find_each_in(&[], lines, &ends, &mut answers);
    assert!(rt; status == LITERAL_DAMAGED);
    Ok(())
}

/// Makes each search by an array, and returns how many of them say that it is damaged.
fn damaged_answers(prepared: &[u32]) -> usize {
    let mut found = [BEFORE, BEFORE, BEFORE, BEFORE];
    let (mut one, mut count) = (BEFORE, 0);
    let mut page = LiteralPage {
        written: 0,
        next: 0,
        is_last: 7,
    };
    let statuses = [
        literal_check_prepared(prepared),
        literal_find_in(prepared, TEXT, 0, 51, &mut one),
        literal_find_all_in(prepared, TEXT, 0, 51, &mut found, &mut page),
        literal_count_in(prepared, TEXT, 0, 51, &mut count),
    ];
    statuses
        .iter()
        .filter(|status| **status == LITERAL_DAMAGED)
        .count()
}

/// Changes each number in turn, in one of its bits, and in all.
#[test]
fn notices_each_change(rt: HostRuntime) -> Result<(), Fail> {
    let mut prepared = search_for_words(rt.alloc(), LITERAL_LEFTMOST_FIRST, 1)?;
    assert!(rt; damaged_answers(&prepared) == 0);
    let mut most = 0;
    for place in 0..prepared.len() - prepared.len().min(3) {
        let before = prepared[place];
        for number in [before ^ (1 << (place % 32)), !before] {
            prepared[place] = number;
            assert!(rt; literal_check_prepared(&prepared) == LITERAL_DAMAGED);
            most = damaged_answers(&prepared).max(most);
        }
        prepared[place] = before;
    }
    assert!(rt; most == 4);
    assert!(rt; damaged_answers(&prepared) == 0);
    Ok(())
}

/// Sets every number to any number, except those that say how many there are.
#[test]
fn searches_by_any_numbers(rt: HostRuntime) -> Result<(), Fail> {
    let mut prepared = search_for_words(rt.alloc(), LITERAL_LEFTMOST_FIRST, 1)?;
    let mut random: u32 = 1;
    for mask in [7, 63, 511, u32::MAX] {
        for place in 5..prepared.len() {
            random = random.wrapping_mul(1_664_525).wrapping_add(1_013_904_223);
            prepared[place] = (random >> 8) & mask;
        }
        assert!(rt; damaged_answers(&prepared) > 0);
    }
    Ok(())
}

/// A search for every occurrence of three words, with case ignored, followed by three more entries.
fn search_for_all_of(alloc: Global) -> Result<Vec<u32>, Fail> {
    let (words, ends) = (b"abab", [2, 3, 4]);
    let mut needed = 0;
    let status = literal_prepare_overlapping(alloc, 1, words, &ends, &mut [], &mut needed);
    if status != LITERAL_TOO_SHORT || needed > 10_000 {
        return Err(Fail::from("no room is asked for"));
    }
    let mut prepared = vec![in alloc; 7; needed + 3]?;
    let full = needed;
    let status = literal_prepare_overlapping(alloc, 1, words, &ends, &mut prepared, &mut needed);
    if status != LITERAL_OK || needed != full || !prepared.ends_with(&[7, 7, 7]) {
        return Err(Fail::from("nothing is written"));
    }
    Ok(prepared)
}

#[test]
fn prepares_for_all_that_occurs(rt: HostRuntime) -> Result<(), Fail> {
    let alloc = rt.alloc();
    let mut prepared = search_for_all_of(alloc)?;
    assert!(rt; literal_check_overlapping(&prepared) == LITERAL_OK);
    assert!(rt; literal_check_prepared(&prepared) == LITERAL_DAMAGED);
    let mut needed = 5;
    let status = literal_prepare_overlapping(alloc, 1, b"a", &[0, 1], &mut prepared, &mut needed);
    assert!(rt; status == LITERAL_NO_SEARCHER && needed == 5);
    let status = literal_prepare_overlapping(alloc, 1, b"a", &[2], &mut prepared, &mut needed);
    assert!(rt; status == LITERAL_BAD_ARGUMENTS && needed == 5);
    let mut found = BEFORE;
    assert!(rt; literal_find_in(&prepared, TEXT, 0, 51, &mut found) == LITERAL_DAMAGED);
    Ok(())
}

#[test]
fn finds_all_that_occurs_by_an_array(rt: HostRuntime) -> Result<(), Fail> {
    let mut prepared = search_for_all_of(rt.alloc())?;
    let mut found = [BEFORE, BEFORE];
    let mut page = LiteralPage {
        written: 0,
        next: 0,
        is_last: 7,
    };
    let status = literal_find_overlapping_in(&prepared, b"xAB", 0, 3, &mut found, &mut page);
    assert!(rt; status == LITERAL_OK && page.written == 2 && page.next == 3 && page.is_last == 0);
    assert_match(&rt, &found[0], (1, 1, 2));
    assert_match(&rt, &found[1], (0, 1, 3));
    let status = literal_find_overlapping_in(&prepared, b"xAB", 2, 3, &mut found, &mut page);
    assert!(rt; status == LITERAL_OK && page.written == 1 && page.next == 3 && page.is_last == 1);
    assert_match(&rt, &found[0], (2, 2, 3));
    let status = literal_find_overlapping_in(&prepared, b"xAB", 2, 4, &mut found, &mut page);
    assert!(rt; status == LITERAL_BAD_ARGUMENTS && page.written == 1);
    let status = literal_find_overlapping_in(&[], b"xAB", 2, 3, &mut found, &mut page);
    assert!(rt; status == LITERAL_DAMAGED && page.written == 1);
    let mut is_noticed = false;
    for place in 0..prepared.len() {
        let before = prepared[place];
        for number in [before ^ (1 << (place % 32)), !before] {
            prepared[place] = number;
            let status = literal_find_overlapping_in(
                &prepared, b"xABab", 0, 5, &mut found, &mut page,
            );
            is_noticed |= status == LITERAL_DAMAGED;
        }
        prepared[place] = before;
    }
    assert!(rt; is_noticed);
    Ok(())
}

#[test]
fn finds_so_far(rt: HostRuntime) -> Result<(), Fail> {
    let array = search_for_words(rt.alloc(), LITERAL_LEFTMOST_FIRST, 0)?;
    let (mut found, mut next) = (BEFORE, 7);
    let status = literal_find_so_far_in(&array, &TEXT[..19], 0, 1, &mut found, &mut next);
    assert!(rt; status == LITERAL_NONE && next == 13);
    let status = literal_find_so_far_in(&array, &TEXT[..20], 21, 1, &mut found, &mut next);
    assert!(rt; status == LITERAL_BAD_ARGUMENTS && next == 13);
    assert_match(&rt, &found, (7, 8, 9));
    let status = literal_find_so_far_in(&array, &TEXT[..20], 13, 1, &mut found, &mut next);
    assert!(rt; status == LITERAL_OK && next == 18);
    assert_match(&rt, &found, (1, 13, 18));
    let status = literal_find_so_far_in(&array, TEXT, 34, 0, &mut found, &mut next);
    assert!(rt; status == LITERAL_OK && next == 50);
    let status = literal_find_so_far_in(&array, TEXT, 50, 0, &mut found, &mut next);
    assert!(rt; status == LITERAL_NONE && next == 51);
    assert_match(&rt, &found, (2, 43, 50));
    let status = literal_find_so_far_in(&[], TEXT, 0, 1, &mut found, &mut next);
    assert!(rt; status == LITERAL_DAMAGED && next == 51);
    Ok(())
}

#[test]
fn finds_all_so_far(rt: HostRuntime) -> Result<(), Fail> {
    let array = search_for_words(rt.alloc(), LITERAL_LEFTMOST_FIRST, 0)?;
    let mut found = [BEFORE, BEFORE];
    let mut page = LiteralPage {
        written: 0,
        next: 0,
        is_last: 7,
    };
    let status = literal_find_all_so_far_in(&array, &TEXT[..34], 0, 1, &mut found, &mut page);
    assert!(rt; status == LITERAL_OK && page.written == 1 && page.next == 28 && page.is_last == 1);
    assert_match(&rt, &found[0], (1, 13, 18));
    assert_match(&rt, &found[1], (7, 8, 9));
    let status = literal_find_all_so_far_in(&array, TEXT, 13, 1, &mut found, &mut page);
    assert!(rt; status == LITERAL_OK && page.written == 2 && page.next == 33 && page.is_last == 0);
    assert_match(&rt, &found[1], (0, 28, 33));
    let status = literal_find_all_so_far_in(&array, TEXT, 33, 1, &mut found, &mut page);
    assert!(rt; status == LITERAL_OK && page.written == 1 && page.next == 50 && page.is_last == 1);
    assert_match(&rt, &found[0], (2, 43, 50));
    let status = literal_find_all_so_far_in(&array, TEXT, 46, 0, &mut found, &mut page);
    assert!(rt; status == LITERAL_OK && page.written == 0 && page.next == 51 && page.is_last == 1);
    let status = literal_find_all_so_far_in(&array, TEXT, 52, 0, &mut found, &mut page);
    assert!(rt; status == LITERAL_BAD_ARGUMENTS && page.next == 51);
    let status = literal_find_all_so_far_in(&array, TEXT, 0, 0, &mut [], &mut page);
    assert!(rt; status == LITERAL_BAD_ARGUMENTS && page.next == 51);
    let status = literal_find_all_so_far_in(&[], TEXT, 0, 1, &mut found, &mut page);
    assert!(rt; status == LITERAL_DAMAGED && page.next == 51);
    Ok(())
}
