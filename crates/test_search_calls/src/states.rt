//! Loops over the states of an array that an `Overlapping` fills.
use literal_base::count::Tally;
use literal_search::{Damaged, Overlapping, PreparedOverlapping, Span, State};
use std::alloc::Global;
use std::test::Fail;

/// The search for `append`, `app` and `end`, in an array that it fills.
fn filled(alloc: Global) -> Result<Vec<u32>, Fail> {
    let search = Overlapping::new(alloc, false, [b"append".as_slice(), b"app", b"end"])?;
    let mut array = vec![in alloc; 0; search.prepared_len()]?;
    search.into_prepared(&mut array)?;
    Ok(array)
}

#[test]
fn states_of_an_array_tell_which_patterns_end(rt: HostRuntime) -> Result<(), Fail> {
    let array = filled(rt.alloc())?;
    let search = PreparedOverlapping::new(&array)?;
    let mut state = search.start_state();
    for byte in b"append" {
        assert!(rt; search.is_match(state) == (*byte == b'e'));
        state = search.next_state(state, *byte)?;
    }
    assert!(rt; search.is_match(state) && search.matches(state)? == [0, 2].as_slice());
    assert!(rt; State::new(state.as_u32()) == state);
    assert!(rt; search.next_state(State::new(u32::MAX), b'a') == Err(Damaged));
    Ok(())
}

#[test]
fn walks_stop_where_a_pattern_ends(rt: HostRuntime) -> Result<(), Fail> {
    let array = filled(rt.alloc())?;
    let (search, tally) = (PreparedOverlapping::new(&array)?, &mut Tally::new());
    let first = search.walk(
        search.start_state(),
        b"an append",
        Span { start: 0, end: 9 },
    )?;
    assert!(rt; first.is_match && first.at == 6);
    let second = search.walk_counted(first.state, b"an append", Span { start: 6, end: 9 }, tally)?;
    assert!(rt; second.is_match && second.at == 9 && search.matches(second.state)?.len() == 2);
    let last = search.walk(second.state, b"an append", Span { start: 9, end: 9 })?;
    assert!(rt; !last.is_match && last.at == 9 && last.state == second.state);
    Ok(())
}
