//! Callers that read an input, each run once.
use literal_prefilters::Input;
use std::process::Abort;
use std::test::Fail;
use test_contracts::inputs::{bytes_to_search, from_next_byte, step_on};

#[test]
fn goes_over_an_input(rt: HostRuntime) -> Result<(), Fail> {
    let input = Input::new(b"foobar").range_inclusive(4, 5);
    assert!(rt; bytes_to_search(&input) == b"ar".as_slice());
    let at_last = from_next_byte(&input).ok_or("done at the first byte")?;
    assert!(rt; bytes_to_search(&at_last) == b"r".as_slice());
    let at_end = from_next_byte(&at_last).ok_or("done at the last byte")?;
    assert!(rt; bytes_to_search(&at_end).is_empty() && !at_end.is_done());
    let done = from_next_byte(&at_end).ok_or("done at the end")?;
    assert!(rt; bytes_to_search(&done).is_empty() && done.is_done());
    assert!(rt; from_next_byte(&done).is_none());
    assert_steps_on(&rt);
    Ok(())
}

/// The same in place.
fn assert_steps_on(rt: &impl Abort) {
    let mut input = Input::new(b"ab");
    assert!(rt; step_on(&mut input) && step_on(&mut input));
    assert!(rt; input.start() == 2 && step_on(&mut input) && input.is_done());
    assert!(rt; !step_on(&mut input) && input.start() == 3 && input.end() == 2);
}
