//! Callers that convert integers and number items, each run once.
use literal_ids::{PatternID, StateID, with_state_ids};
use std::hash::{DefaultHasher, Hasher};
use std::test::Fail;
use test_contracts::uses_of_ids::{
    back_and_there_by_i8, back_and_there_by_i32, back_and_there_by_i64, count_of, count_of_pairs,
    halves_of_u16, halves_of_u32, halves_of_u64, hash_alike, index_of, is_before, is_same,
    next_at_end, next_pair_at_end, numbers_in_turn, pattern_of, place_of, short_of, state_of,
    states_collected, there_and_back_by_i8, there_and_back_by_i32, there_and_back_by_i64,
    words_with_states,
};

#[test]
fn converts_integers(rt: HostRuntime) {
    assert!(rt; index_of(255u8) == 255 && short_of(65535usize) == 65535);
    assert!(rt; halves_of_u16(0x1234u16) == (0x12, 0x34));
    assert!(rt; halves_of_u32(0x12345678u32) == (0x1234, 0x5678));
    assert!(rt; halves_of_u64(0x0123456789abcdefu64) == (0x01234567, 0x89abcdef));
    assert!(rt; there_and_back_by_i8(-1i8) == -1 && there_and_back_by_i32(-1i32) == -1);
    assert!(rt; there_and_back_by_i64(-1i64) == -1 && back_and_there_by_i8(255) == 255);
    assert!(rt; back_and_there_by_i32(0xffffffff) == 0xffffffff);
    assert!(rt; back_and_there_by_i64(u64::MAX) == u64::MAX);
}

#[test]
fn compares_identifiers(rt: HostRuntime) -> Result<(), Fail> {
    let state = state_of(2147483646)?;
    assert!(rt; state_of(2147483647).is_err());
    assert!(rt; is_before(StateID::ZERO, state));
    assert!(rt; is_same(pattern_of(state), PatternID::MAX));
    let (mut one, mut two) = (DefaultHasher::new(), DefaultHasher::new());
    hash_alike(PatternID::MAX, pattern_of(state), &mut one, &mut two);
    assert!(rt; one.finish() == two.finish());
    Ok(())
}

#[test]
fn numbers_words(rt: HostRuntime) -> Result<(), Fail> {
    let numbers = numbers_in_turn(rt.alloc(), 3)?;
    assert!(rt; numbers.as_slice() == [0, 1, 2].as_slice());
    let states = [StateID::ZERO, StateID::must(1)];
    assert!(rt; states_collected(rt.alloc(), 2)?.as_slice() == states.as_slice());
    let words = words_with_states(rt.alloc(), &[10, 20])?;
    assert!(rt; words.as_slice() == [(StateID::ZERO, 10), (StateID::must(1), 20)].as_slice());
    Ok(())
}

#[test]
fn counts_identifiers(rt: HostRuntime) {
    assert!(rt; count_of(7) == 7 && count_of_pairs(&[10, 20]) == 2);
    assert!(rt; place_of(&[10, 20], 20) == Some(PatternID::must(1)));
    assert!(rt; place_of(&[10, 20], 30).is_none());
    let mut ids = PatternID::iter(0);
    assert!(rt; next_at_end(&mut ids).is_none() && next_at_end(&mut ids).is_none());
    let nothing: [u16; 0] = [];
    let mut pairs = with_state_ids(&nothing);
    assert!(rt; next_pair_at_end(&mut pairs).is_none());
    assert!(rt; next_pair_at_end(&mut pairs).is_none());
}
