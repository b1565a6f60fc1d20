//! Replaced matches, and searches that a builder builds.
use literal_search::{MatchKind, Search, Tally};
use std::test::Fail;

#[test]
fn example_of_replacing(rt: HostRuntime) -> Result<(), Fail> {
    let alloc = rt.alloc();
    let words = [b"apple".as_slice(), b"maple"];
    let search = Search::new(alloc, MatchKind::LeftmostFirst, true, words)?;
    let text = search.replace_all(alloc, b"Maple or apple?", &[b"pear", b"oak"])?;
    assert!(rt; text.as_slice() == b"oak or pear?".as_slice());
    let (short, tally) = (&[b"p".as_slice(), b""], &mut Tally::new());
    let counted = search.replace_all_counted(alloc, b"Maple or apple?", short, tally)?;
    assert!(rt; counted.as_slice() == b" or p?".as_slice());
    Ok(())
}

#[test]
fn example_of_replacing_with(rt: HostRuntime) -> Result<(), Fail> {
    let alloc = rt.alloc();
    let search = Search::builder().build(alloc, [b"apple".as_slice(), b"maple"])?;
    let text = search.replace_all_with(alloc, b"apple, maple", |_, bytes, text| {
        text.extend_from_slice(b"<")?;
        text.extend_from_slice(bytes)?;
        text.extend_from_slice(b">")
    })?;
    assert!(rt; text.as_slice() == b"<apple>, <maple>".as_slice());
    Ok(())
}

#[test]
fn example_of_a_builder(rt: HostRuntime) -> Result<(), Fail> {
    let alloc = rt.alloc();
    let builder = Search::builder().ascii_case_insensitive(true);
    let search = builder.build(alloc, [b"password".as_slice(), b"secret"])?;
    assert!(rt; search.is_match(b"My Secret.") && search.match_kind() == MatchKind::LeftmostFirst);
    Ok(())
}
