//! Callers that look for words, each run once.
use literal_examples::confirmed::{call_at, first_at_line_start};
use literal_examples::words::{
    all_that_occurs, has_one_of_array, has_one_of_slice, has_one_of_texts, has_one_of_vec,
    occurrences_of_at_least,
};
use literal_search::{MatchKind, Overlapping, Search};
use std::test::Fail;

const WORDS: [&[u8]; 3] = [b"ab", b"cd", b"ef"];

#[test]
fn tells_of_each_list(rt: HostRuntime) -> Result<(), Fail> {
    let alloc = rt.alloc();
    assert!(rt; has_one_of_array(alloc, WORDS, b"xCD")?);
    assert!(rt; !has_one_of_slice(alloc, WORDS.as_slice(), b"xdc")?);
    let words = Vec::from_array(alloc, WORDS)?;
    assert!(rt; has_one_of_vec(alloc, words, b"EF")?);
    let texts = Vec::from_array(alloc, [String::from_str(alloc, "gh")?])?;
    assert!(rt; has_one_of_texts(alloc, texts.as_slice(), b"fgh")?);
    Ok(())
}

#[test]
fn finds_what_overlaps(rt: HostRuntime) -> Result<(), Fail> {
    let words = [b"append".as_slice(), b"app", b"end"];
    let all = all_that_occurs(rt.alloc(), words.as_slice(), b"append")?;
    assert!(rt; all.len() == 3 && all[0].range() == (0..3) && all[1].range() == (0..6));
    assert!(rt; all[2].range() == (3..6));
    Ok(())
}

#[test]
fn finds_what_is_long_enough(rt: HostRuntime) -> Result<(), Fail> {
    let search = Overlapping::new(rt.alloc(), false, [b"append".as_slice(), b"app", b"en"])?;
    let all = occurrences_of_at_least(rt.alloc(), &search, b"append", 3)?;
    assert!(rt; all.len() == 2 && all[0].range() == (0..3) && all[1].range() == (0..6));
    Ok(())
}

#[test]
fn finds_the_first_at_a_line_start(rt: HostRuntime) -> Result<(), Fail> {
    let words = [b"ab".as_slice(), b"abc", b"bc"];
    let search = Search::new(rt.alloc(), MatchKind::LeftmostLongest, false, words)?;
    let found = first_at_line_start(&search, b"xabc abc\nabcd").ok_or("none is found")?;
    assert!(rt; found.pattern().as_usize() == 1 && found.range() == (9..12));
    assert!(rt; first_at_line_start(&search, b"xabc\n ab").is_none());
    Ok(())
}

#[test]
fn call_is_of_the_first_name_before_a_bracket(rt: HostRuntime) -> Result<(), Fail> {
    let names = [b"foo".as_slice(), b"foo1", b"foo(", b"foo1"];
    let search = Search::new(rt.alloc(), MatchKind::LeftmostLongest, true, names)?;
    let found = call_at(&search, b"a Foo1()", 2).ok_or("no call is found")?;
    assert!(rt; found.pattern().as_usize() == 1 && found.range() == (2..6));
    let first = call_at(&search, b"foo((", 0).ok_or("no call is found")?;
    assert!(rt; first.pattern().as_usize() == 0);
    assert!(rt; call_at(&search, b"foo1", 0).is_none() && call_at(&search, b"foo1()", 1).is_none());
    Ok(())
}
