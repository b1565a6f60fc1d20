//! Tests of the exports for loops over states.
use crate::{
    LITERAL_BAD_ARGUMENTS, LITERAL_DAMAGED, LITERAL_MATCH_STATE, LITERAL_NONE, LITERAL_OK,
    LITERAL_START_STATE, literal_next_state_in, literal_patterns_at_in,
    literal_prepare_overlapping, literal_walk_in,
};
use std::alloc::Global;
use std::process::Abort;
use std::test::Fail;

/// `ab`, `a`, `b` and `bab`.
const WORDS: &[u8] = b"ababbab";

const ENDS: [usize; 4] = [2, 3, 4, 7];

/// A search for every occurrence of the words, with case ignored.
fn search_for_all(alloc: Global) -> Result<Vec<u32>, Fail> {
    let mut prepared = vec![in alloc; 0; 2000]?;
    let mut needed = 0;
    let status = literal_prepare_overlapping(alloc, 1, WORDS, &ENDS, &mut prepared, &mut needed);
    if status != LITERAL_OK {
        return Err(Fail::from("nothing is written"));
    }
    Ok(prepared)
}

/// The state after some bytes.
fn state_after(prepared: &[u32], text: &[u8]) -> Result<u32, Fail> {
    let mut state = LITERAL_START_STATE;
    for byte in text {
        if literal_next_state_in(prepared, state, *byte, &mut state) != LITERAL_OK {
            return Err(Fail::from("there is no next state"));
        }
    }
    Ok(state)
}

/// The patterns that end after each byte of `xABab`: none, `a`, `ab` and `b`, `a`, and `ab`, `b` and `bab`.
#[test]
fn tells_which_patterns_end_after_a_text(rt: HostRuntime) -> Result<(), Fail> {
    let prepared = search_for_all(rt.alloc())?;
    let (mut found, mut total) = ([7, 7, 7, 7], 9);
    let state = state_after(&prepared, b"xABa")?;
    let status = literal_patterns_at_in(&prepared, state, 0, &mut found, &mut total);
    assert!(rt; state >= LITERAL_MATCH_STATE && status == LITERAL_OK);
    assert!(rt; total == 1 && found == [1, 7, 7, 7]);
    let state = state_after(&prepared, b"xABab")?;
    let status = literal_patterns_at_in(&prepared, state, 0, &mut found, &mut total);
    assert!(rt; status == LITERAL_OK && total == 3 && found == [0, 2, 3, 7]);
    assert!(rt; state_after(&prepared, b"x")? == LITERAL_START_STATE);
    Ok(())
}

#[test]
fn tells_patterns_page_by_page(rt: HostRuntime) -> Result<(), Fail> {
    let prepared = search_for_all(rt.alloc())?;
    let state = state_after(&prepared, b"bab")?;
    let (mut found, mut total) = ([7, 7], 9);
    let status = literal_patterns_at_in(&prepared, state, 1, &mut found, &mut total);
    assert!(rt; status == LITERAL_OK && total == 3 && found == [2, 3]);
    for from in [3, usize::MAX] {
        let status = literal_patterns_at_in(&prepared, state, from, &mut found, &mut total);
        assert!(rt; status == LITERAL_OK && total == 3 && found == [2, 3]);
    }
    let start = LITERAL_START_STATE;
    let status = literal_patterns_at_in(&prepared, start, 0, &mut found, &mut total);
    assert!(rt; status == LITERAL_OK && total == 0 && found == [2, 3]);
    Ok(())
}

#[test]
fn walks_from_end_to_end(rt: HostRuntime) -> Result<(), Fail> {
    let prepared = search_for_all(rt.alloc())?;
    let (text, mut state, mut at) = (b"xABab x", LITERAL_START_STATE, 0);
    for end in [2, 3, 4, 5] {
        let status = literal_walk_in(&prepared, state, text, at, 7, &mut state, &mut at);
        assert!(rt; status == LITERAL_OK && at == end);
    }
    assert!(rt; state == state_after(&prepared, b"xABab")?);
    let status = literal_walk_in(&prepared, state, text, 5, 5, &mut state, &mut at);
    assert!(rt; status == LITERAL_NONE && at == 5 && state >= LITERAL_MATCH_STATE);
    let status = literal_walk_in(&prepared, state, text, 5, 7, &mut state, &mut at);
    assert!(rt; status == LITERAL_NONE && at == 7 && state == LITERAL_START_STATE);
    let status = literal_walk_in(&prepared, state, text, 2, 1, &mut state, &mut at);
    assert!(rt; status == LITERAL_BAD_ARGUMENTS && at == 7);
    let status = literal_walk_in(&prepared, state, text, 2, 8, &mut state, &mut at);
    assert!(rt; status == LITERAL_BAD_ARGUMENTS && at == 7);
    Ok(())
}

#[test]
fn numbers_of_no_state_are_refused(rt: HostRuntime) -> Result<(), Fail> {
    let prepared = search_for_all(rt.alloc())?;
    let (mut state, mut at, mut total) = (5, 5, 5);
    let (rows_len, mut found) = (*prepared.get(4).ok_or("no fifth number")?, [7]);
    for number in [rows_len, LITERAL_MATCH_STATE | rows_len, u32::MAX] {
        let status = literal_next_state_in(&prepared, number, b'a', &mut state);
        assert!(rt; status == LITERAL_DAMAGED && state == 5);
        let status = literal_walk_in(&prepared, number, b"ab", 0, 2, &mut state, &mut at);
        assert!(rt; status == LITERAL_DAMAGED && state == 5 && at == 5);
        let status = literal_patterns_at_in(&prepared, number, 0, &mut found, &mut total);
        assert!(rt; status == LITERAL_DAMAGED && total == 5 && found == [7]);
    }
    let status = literal_next_state_in(&[], LITERAL_START_STATE, b'a', &mut state);
    assert!(rt; status == LITERAL_DAMAGED && state == 5);
    Ok(())
}
