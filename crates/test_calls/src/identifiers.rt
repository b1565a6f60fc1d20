//! Identifiers, and conversions to them.
use literal_ids::{
    PatternID, SmallIndex, SmallIndexIter, StateID, WithPatternIDIter, WithStateIDIter, laws,
    with_pattern_ids, with_state_ids,
};
use std::process::Abort;
use std::test::Fail;

/// The indices of integers, and the integers that are refused.
fn assert_indices_of_integers(rt: &impl Abort) -> Result<(), Fail> {
    assert!(rt; SmallIndex::try_from(2147483646u32) == Ok(SmallIndex::MAX));
    assert!(rt; SmallIndex::try_from(2147483646u64) == Ok(SmallIndex::MAX));
    assert!(rt; SmallIndex::try_from(2147483646usize) == Ok(SmallIndex::MAX));
    assert!(rt; SmallIndex::try_from(65535u16) == Ok(SmallIndex::must(65535)));
    assert!(rt; SmallIndex::from(255u8) == SmallIndex::must(255));
    assert!(rt; SmallIndex::try_from(2147483647u32).is_err());
    assert!(rt; SmallIndex::try_from(2147483647usize).is_err());
    let refused = SmallIndex::try_from(u64::MAX).err().ok_or("it fits")?;
    assert!(rt; refused.attempted() == u64::MAX);
    let index = SmallIndex::must(7);
    assert!(rt; SmallIndex::from(PatternID::from(index)) == index);
    assert!(rt; SmallIndex::from(StateID::from(index)) == index);
    Ok(())
}

#[test]
fn indices_keep_their_number(rt: HostRuntime) -> Result<(), Fail> {
    let index = SmallIndex::new(2147483646)?;
    assert!(rt; index == SmallIndex::MAX && index == SmallIndex::must(2147483646));
    assert!(rt; laws::ends_of_small_indices() == (SmallIndex::ZERO, index));
    assert!(rt; SmallIndex::default() == SmallIndex::ZERO);
    assert!(rt; index.as_usize() == 2147483646 && index.one_more() == SmallIndex::LIMIT);
    assert!(rt; index.as_u64() == 2147483646 && index.as_u32() == 2147483646);
    assert!(rt; index.as_i32() == 2147483646);
    let mut indices = SmallIndexIter::new(1);
    assert!(rt; indices.next() == Some(SmallIndex::ZERO));
    assert!(rt; indices.next().is_none() && indices.next().is_none());
    assert_indices_of_integers(&rt)
}

/// The identifiers of integers, and the integers that are refused.
fn assert_patterns_of_integers(rt: &impl Abort) -> Result<(), Fail> {
    assert!(rt; PatternID::try_from(2147483646u32) == Ok(PatternID::MAX));
    assert!(rt; PatternID::try_from(2147483646u64) == Ok(PatternID::MAX));
    assert!(rt; PatternID::try_from(2147483646usize) == Ok(PatternID::MAX));
    assert!(rt; PatternID::try_from(65535u16) == Ok(PatternID::must(65535)));
    assert!(rt; PatternID::from(255u8) == PatternID::must(255));
    assert!(rt; PatternID::try_from(2147483647u32).is_err());
    assert!(rt; PatternID::try_from(2147483647usize).is_err());
    let refused = PatternID::try_from(2147483647u64).err().ok_or("it fits")?;
    assert!(rt; refused.attempted() == 2147483647);
    Ok(())
}

#[test]
fn patterns_keep_their_number(rt: HostRuntime) -> Result<(), Fail> {
    let id = PatternID::new(2147483646)?;
    assert!(rt; id == PatternID::MAX && id == PatternID::must(2147483646));
    assert!(rt; laws::ends_of_pattern_ids() == (PatternID::ZERO, id));
    assert!(rt; PatternID::default() == PatternID::ZERO);
    assert!(rt; id.as_usize() == 2147483646 && id.one_more() == PatternID::LIMIT);
    assert!(rt; id.as_u64() == 2147483646 && id.as_u32() == 2147483646);
    assert!(rt; id.as_i32() == 2147483646);
    let mut ids = PatternID::iter(3);
    let taken = [ids.next(), ids.next(), ids.next(), ids.next(), ids.next()];
    let [first, second, third] = [PatternID::ZERO, PatternID::must(1), PatternID::must(2)];
    assert!(rt; taken == [Some(first), Some(second), Some(third), None, None]);
    assert_patterns_of_integers(&rt)
}

/// The identifiers of integers, and the integers that are refused.
fn assert_states_of_integers(rt: &impl Abort) -> Result<(), Fail> {
    assert!(rt; StateID::try_from(2147483646u32) == Ok(StateID::MAX));
    assert!(rt; StateID::try_from(2147483646u64) == Ok(StateID::MAX));
    assert!(rt; StateID::try_from(2147483646usize) == Ok(StateID::MAX));
    assert!(rt; StateID::try_from(65535u16) == Ok(StateID::must(65535)));
    assert!(rt; StateID::from(255u8) == StateID::must(255));
    assert!(rt; StateID::try_from(2147483647u32).is_err());
    assert!(rt; StateID::try_from(2147483647usize).is_err());
    let refused = StateID::try_from(2147483648u64).err().ok_or("it fits")?;
    assert!(rt; refused.attempted() == 2147483648);
    Ok(())
}

#[test]
fn states_keep_their_number(rt: HostRuntime) -> Result<(), Fail> {
    let id = StateID::new(2147483646)?;
    assert!(rt; id == StateID::MAX && id == StateID::must(2147483646));
    assert!(rt; laws::ends_of_state_ids() == (StateID::ZERO, id));
    assert!(rt; StateID::default() == StateID::ZERO);
    assert!(rt; id.as_usize() == 2147483646 && id.one_more() == StateID::LIMIT);
    assert!(rt; id.as_u64() == 2147483646 && id.as_u32() == 2147483646);
    assert!(rt; id.as_i32() == 2147483646);
    let mut ids = StateID::iter(1);
    assert!(rt; ids.next() == Some(StateID::ZERO));
    assert!(rt; ids.next().is_none() && ids.next().is_none());
    assert_states_of_integers(&rt)
}

fn next_state(pairs: &mut WithStateIDIter<'_, u8>) -> Option<(StateID, u8)> {
    match pairs.next() {
        Some((id, item)) => Some((id, *item)),
        None => None,
    }
}

fn next_pattern(pairs: &mut WithPatternIDIter<'_, u8>) -> Option<(PatternID, u8)> {
    match pairs.next() {
        Some((id, item)) => Some((id, *item)),
        None => None,
    }
}

#[test]
fn items_are_numbered(rt: HostRuntime) {
    let mut states = with_state_ids(&[10, 20]);
    assert!(rt; next_state(&mut states) == Some((StateID::ZERO, 10)));
    assert!(rt; next_state(&mut states) == Some((StateID::must(1), 20)));
    assert!(rt; next_state(&mut states).is_none() && next_state(&mut states).is_none());
    let mut patterns = with_pattern_ids(&[10]);
    assert!(rt; next_pattern(&mut patterns) == Some((PatternID::ZERO, 10)));
    assert!(rt; next_pattern(&mut patterns).is_none());
}
