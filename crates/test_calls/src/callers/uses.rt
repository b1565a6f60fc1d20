//! Callers that build, collect and count, each run once.
use literal_prefilters::PatternID;
use literal_prefilters::packed::pattern::Patterns;
use literal_prefilters::packed::{Builder, MatchKind, Searcher};
use std::alloc::{AllocError, Global};
use std::process::Abort;
use std::test::Fail;
use test_contracts::uses::{
    built_by_kind, built_of_items, built_of_two, built_of_words, collected, count_of,
    count_of_matches, extend_and_add, next_at_end, order_of,
};

/// A searcher for `ab` and `a` finds `ab` in `xab`.
fn assert_finds_ab(rt: &impl Abort, built: Option<Searcher>) {
    let found = built.and_then(|it| it.find(b"xab"));
    assert!(rt; found.is_some_and(|it| it.range() == (1..3)));
}

const AB_AND_A: [&[u8]; 2] = [b"ab", b"a"];

/// A searcher for two words that are lent one by one.
fn of_two(alloc: Global) -> Result<Option<Searcher>, AllocError> {
    built_of_two(alloc, b"ab", b"a")
}

/// A searcher for the longest of two words.
fn of_kind(alloc: Global) -> Result<Option<Searcher>, AllocError> {
    built_by_kind(alloc, MatchKind::LeftmostLongest, b"a", b"ab")
}

#[test]
fn builds_as_its_callers_say(rt: HostRuntime) -> Result<(), Fail> {
    assert_finds_ab(&rt, of_two(rt.alloc())?);
    assert_finds_ab(&rt, of_kind(rt.alloc())?);
    assert_finds_ab(&rt, built_of_items(rt.alloc(), AB_AND_A)?);
    Ok(())
}

/// A searcher for words that are lent.
fn of_words(alloc: Global, words: &[String]) -> Result<Option<Searcher>, AllocError> {
    built_of_words(alloc, words)
}

#[test]
fn builds_of_words(rt: HostRuntime) -> Result<(), Fail> {
    let words = Vec::from_array(rt.alloc(), [String::from_str(rt.alloc(), "ab")?])?;
    assert_finds_ab(&rt, of_words(rt.alloc(), &words)?);
    Ok(())
}

#[test]
fn extends_and_adds(rt: HostRuntime) -> Result<(), Fail> {
    let mut builder = Builder::new(rt.alloc());
    extend_and_add(&mut builder, AB_AND_A, b"c")?;
    assert!(rt; builder.len() == 3);
    Ok(())
}

#[test]
fn goes_over_no_patterns(rt: HostRuntime) {
    let patterns = Patterns::new(rt.alloc());
    let mut items = patterns.iter();
    assert!(rt; next_at_end(&mut items).is_none() && next_at_end(&mut items).is_none());
}

#[test]
fn goes_over_patterns(rt: HostRuntime) -> Result<(), Fail> {
    let mut patterns = Patterns::new(rt.alloc());
    patterns.add(b"a")?;
    patterns.add(b"bc")?;
    patterns.set_match_kind(MatchKind::LeftmostLongest)?;
    assert!(rt; count_of(&patterns) == 2);
    let order = order_of(rt.alloc(), &patterns)?;
    assert!(rt; order.as_slice() == [PatternID::must(1), PatternID::ZERO].as_slice());
    Ok(())
}

#[test]
fn collects_and_counts_matches(rt: HostRuntime) -> Result<(), Fail> {
    let searcher = built_of_two(rt.alloc(), b"ab", b"ba")?.ok_or("nothing is built")?;
    let collected = collected(rt.alloc(), &searcher, b"abababa")?;
    let spans = collected.iter().map(|it| it.range());
    assert!(rt; spans.eq([0..2, 2..4, 4..6].into_iter()));
    assert!(rt; count_of_matches(&searcher, b"abababa") == 3);
    Ok(())
}
