//! Copies that callers make, each made once.
use crate::asserted::assert_prints;
use literal_prefilters::packed::pattern::Patterns;
use literal_prefilters::packed::{Config, MatchKind};
use literal_prefilters::prefilter::Candidate;
use literal_prefilters::{Input, Match, PatternID, Span};
use std::test::Fail;
use test_contracts::copies::{copy_of_candidate, copy_of_config, copy_of_input, copy_of_pattern};

#[test]
fn copies_are_equal(rt: HostRuntime) -> Result<(), Fail> {
    let copy = copy_of_candidate(&Candidate::PossibleStartOfMatch(3))?;
    assert!(rt; copy.into_option() == Some(3));
    let found = Candidate::Match(Match::must(1, Span { start: 2, end: 5 }));
    assert!(rt; found.into_option() == Some(2) && Candidate::None.into_option().is_none());
    let copy = copy_of_input(&Input::new(b"foobar").span(Span { start: 1, end: 4 }))?;
    assert!(rt; copy.get_span() == Span { start: 1, end: 4 });
    Ok(())
}

#[test]
fn copies_of_patterns_have_their_bytes(rt: HostRuntime) -> Result<(), Fail> {
    let mut patterns = Patterns::new(rt.alloc());
    patterns.add(b"foo")?;
    let copy = copy_of_pattern(&patterns.get(PatternID::ZERO))?;
    assert!(rt; copy.bytes() == b"foo".as_slice() && copy.len() == 3);
    assert!(rt; copy.is_prefix(b"foobar") && !copy.is_prefix(b"fo"));
    assert_prints(&rt, rt.alloc(), &copy)?;
    Ok(())
}

#[test]
fn copies_of_configurations_build_the_same(rt: HostRuntime) -> Result<(), Fail> {
    let mut config = Config::new();
    config
        .match_kind(MatchKind::LeftmostLongest)
        .pattern_limit(1);
    let mut builder = copy_of_config(&config)?.builder(rt.alloc());
    builder.add(b"foo")?;
    let built = builder.build()?.ok_or("nothing is built")?;
    assert!(rt; *built.match_kind() == MatchKind::LeftmostLongest);
    Ok(())
}
