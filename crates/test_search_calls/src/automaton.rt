//! Loops over the automaton of an `Overlapping`.
use literal_examples::stepping::first_end;
use literal_search::{Automaton, Overlapping, Span, State};
use std::test::Fail;

#[test]
fn example_of_an_automaton(rt: HostRuntime) -> Result<(), Fail> {
    let alloc = rt.alloc();
    let search = Overlapping::new(alloc, false, [b"append".as_slice(), b"app", b"end"])?;
    let automaton = search.automaton();
    let mut state = automaton.start_state();
    for byte in b"append" {
        state = automaton.next_state(state, *byte);
    }
    assert!(rt; automaton.is_match(state) && automaton.matches(state) == [0, 2].as_slice());
    Ok(())
}

/// The state after three bytes.
fn after(automaton: &Automaton, text: [u8; 3]) -> State {
    let mut state = automaton.start_state();
    state = automaton.next_state(state, text[0]);
    state = automaton.next_state(state, text[1]);
    automaton.next_state(state, text[2])
}

#[test]
fn states_tell_which_patterns_end(rt: HostRuntime) -> Result<(), Fail> {
    let words = [b"bc".as_slice(), b"C", b"x", b"abcd", b"c"];
    let search = Overlapping::new(rt.alloc(), true, words)?;
    let automaton = search.automaton();
    let state = after(&automaton, *b"aBc");
    assert!(rt; automaton.is_match(state) && automaton.matches(state) == [0, 1, 4].as_slice());
    assert!(rt; automaton.matches(automaton.next_state(state, b'D')) == [3].as_slice());
    let other = after(&automaton, *b"cab");
    assert!(rt; !automaton.is_match(other) && automaton.matches(other).is_empty());
    assert!(rt; after(&automaton, *b"bab") == other && state != other);
    Ok(())
}

#[test]
fn own_loop_finds_the_earliest_end(rt: HostRuntime) -> Result<(), Fail> {
    let search = Overlapping::new(rt.alloc(), true, [b"password".as_slice(), b"secret"])?;
    for haystack in [
        b"A SECRET, a password".as_slice(),
        b"my PassWord",
        b"secre",
        b"",
    ] {
        let end = haystack.len();
        let whole = Span { start: 0, end };
        assert!(rt; first_end(&search, haystack) == search.earliest_end(haystack, whole));
    }
    let none = Overlapping::new(rt.alloc(), false, [])?;
    assert!(rt; first_end(&search, b"my PassWord") == Some(11) && first_end(&none, b"a").is_none());
    Ok(())
}
