//! Builders without patterns, and the largest number of patterns of any builder.
use literal_packed::{Builder, Config, Searcher};
use literal_prefilters::{Match, Span};
use literal_search::{Search, SearchBuilder};
use std::alloc::{AllocError, Global};
use std::process::Abort;
use std::test::Fail;

/// The bytes of the numbers from 0 to 65534, high byte first.
fn of_65535_patterns(alloc: Global) -> Result<Builder, AllocError> {
    let mut builder = Config::new()
        .pattern_limit(Config::MAX_PATTERN_LIMIT)
        .builder(alloc);
    for number in 0..65535u16 {
        builder.add(&number.to_be_bytes())?;
    }
    Ok(builder)
}

/// The searcher that a builder builds, if it builds one.
fn built(builder: &Builder) -> Result<Option<Searcher>, AllocError> {
    builder.build()
}

/// The searcher finds the last pattern.
fn assert_finds_last(rt: &impl Abort, builder: &Builder) -> Result<(), Fail> {
    let searcher = built(builder)?.ok_or("nothing is built")?;
    let last = Match::must(65534, Span { start: 0, end: 2 });
    assert!(rt; searcher.find(b"\xff\xfe") == Some(last));
    Ok(())
}

/// Adds one pattern too many.
fn add_another(builder: &mut Builder) -> Result<(), AllocError> {
    builder.add(b"\xff\xff")?;
    Ok(())
}

#[test]
fn searches_for_65535_patterns(rt: HostRuntime) -> Result<(), Fail> {
    let mut builder = of_65535_patterns(rt.alloc())?;
    assert!(rt; builder.len() == 65535);
    assert_finds_last(&rt, &builder)?;
    add_another(&mut builder)?;
    let nothing = built(&builder)?;
    assert!(rt; builder.len() == 0 && nothing.is_none());
    Ok(())
}

/// The number of patterns of a builder, and the length of the shortest.
fn lengths(builder: Builder) -> (usize, usize) {
    (builder.len(), builder.minimum_len())
}

#[test]
fn builders_begin_with_nothing(rt: HostRuntime) {
    assert!(rt; lengths(Searcher::builder(rt.alloc())) == (0, usize::MAX));
    assert!(rt; lengths(Searcher::config().builder(rt.alloc())) == (0, usize::MAX));
    assert!(rt; lengths(Config::default().builder(rt.alloc())) == (0, usize::MAX));
    assert!(rt; Config::DEFAULT_PATTERN_LIMIT == 128);
    assert!(rt; SearchBuilder::default() == Search::builder());
}
