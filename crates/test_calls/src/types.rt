//! The examples in the documentation of the main types, word for word.
use crate::asserted::assert_prints;
use literal_prefilters::alphabet::ByteClassSet;
use literal_prefilters::count::Tally;
use literal_prefilters::packed::pattern::Patterns;
use literal_prefilters::packed::{self, Builder, Config, Searcher};
use literal_prefilters::prefilter::{self, ByteTable, ConfirmingSearch, confirm};
use literal_prefilters::{Input, MatchKind, Span};
use std::alloc::Global;
use std::test::Fail;

#[test]
fn shows_spans(rt: HostRuntime) {
    let span = Span { start: 5, end: 9 };
    assert!(rt; span.of(b"I am here") == b"here".as_slice());
    assert!(rt; span.contains(5) && !span.contains(9));
}

#[test]
fn shows_inputs(rt: HostRuntime) {
    let mut input = Input::new(b"abcabc").range(1..4);
    assert!(rt; input.get_span().of(input.haystack()) == b"bca".as_slice());
    input.set_start(input.end() + 1);
    assert!(rt; input.is_done());
}

#[test]
fn shows_classes(rt: HostRuntime) {
    let mut set = ByteClassSet::empty();
    set.set_range(b'0', b'9');
    let classes = set.byte_classes();
    assert!(rt; classes.alphabet_len() == 3 && classes.stride2() == 2);
    assert!(rt; classes.get(b'/') == 0 && classes.get(b'4') == 1 && classes.get(b'x') == 2);
}

#[test]
fn shows_packed_search(rt: HostRuntime) -> Result<(), Fail> {
    let alloc = rt.alloc();
    let mut builder = Config::new()
        .match_kind(packed::MatchKind::LeftmostLongest)
        .builder(alloc);
    builder.add(b"ab")?.add(b"abc")?;
    let searcher = builder.build()?.ok_or("no searcher for these patterns")?;
    let found = searcher.find(b"xabcd").ok_or("nothing is found")?;
    assert!(rt; found.pattern().as_usize() == 1 && found.range() == (1..4));
    Ok(())
}

#[test]
fn shows_configurations(rt: HostRuntime) -> Result<(), Fail> {
    let alloc = rt.alloc();
    let mut builder = Config::new().pattern_limit(1).builder(alloc);
    builder.add(b"foo")?;
    assert!(rt; builder.build()?.is_some());
    builder.add(b"bar")?;
    assert!(rt; builder.build()?.is_none());
    Ok(())
}

#[test]
fn shows_builders(rt: HostRuntime) -> Result<(), Fail> {
    let alloc = rt.alloc();
    let mut builder = Builder::new(alloc);
    builder.extend([b"foo".as_slice(), b"quux"])?;
    assert!(rt; builder.len() == 2 && builder.minimum_len() == 3);
    builder.add(b"")?;
    assert!(rt; builder.len() == 0 && builder.build()?.is_none());
    Ok(())
}

#[test]
fn shows_searches(rt: HostRuntime) -> Result<(), Fail> {
    let alloc = rt.alloc();
    let built = Searcher::new(alloc, [b"foobar".as_slice(), b"foo"])?;
    let searcher = built.ok_or("no searcher for these patterns")?;
    let haystack = b"a foobar, a foo";
    let found = searcher.find(haystack).ok_or("nothing is found")?;
    assert!(rt; found.pattern().as_usize() == 0 && found.range() == (2..8));
    Ok(())
}

/// The same searcher.
fn searcher(alloc: Global) -> Result<Searcher, Fail> {
    let built = Searcher::new(alloc, [b"foobar".as_slice(), b"foo"])?;
    Ok(built.ok_or("no searcher for these patterns")?)
}

#[test]
fn shows_searches_in_spans(rt: HostRuntime) -> Result<(), Fail> {
    let (searcher, haystack) = (searcher(rt.alloc())?, b"a foobar, a foo");
    // Only what lies whole in the span is a match, and its offsets are in the whole haystack.
    let found = searcher.find_in(haystack, Span { start: 2, end: 7 });
    assert!(rt; found.map(|it| it.range()) == Some(2..5));
    Ok(())
}

#[test]
fn shows_iterations(rt: HostRuntime) -> Result<(), Fail> {
    let (alloc, haystack) = (rt.alloc(), b"a foobar, a foo");
    let searcher = searcher(alloc)?;
    let mut starts = Vec::new(alloc);
    for found in searcher.find_iter(haystack) {
        starts.push(found.start())?;
    }
    assert!(rt; starts.as_slice() == [2, 12].as_slice());
    Ok(())
}

#[test]
fn shows_prefilters(rt: HostRuntime) -> Result<(), Fail> {
    let alloc = rt.alloc();
    let mut builder = prefilter::Builder::new(alloc, MatchKind::LeftmostFirst);
    builder.add(b"Sherlock")?;
    builder.add(b"lockjaw")?;
    let pre = builder.build()?.ok_or("no prefilter for these patterns")?;
    let candidate = pre.find_in(b"I am lockjaw", Span { start: 0, end: 12 });
    assert!(rt; candidate.into_option() == Some(1));
    Ok(())
}

#[test]
fn shows_tables(rt: HostRuntime) -> Result<(), Fail> {
    let (alloc, tally) = (rt.alloc(), &mut Tally::new());
    let mut patterns = Patterns::new(alloc);
    patterns.add(b"Sherlock")?;
    patterns.add(b"lockjaw")?;
    let table = ByteTable::rare(&patterns, false).ok_or("no table for these patterns")?;
    assert!(rt; table.count() == 1 && table.distance(b'k') == Some(7));
    let span = Span { start: 0, end: 12 };
    let place = table.scan(b"I am lockjaw", span, tally);
    assert!(rt; place == Some(8));
    Ok(())
}

#[test]
fn shows_confirming_searches(rt: HostRuntime) -> Result<(), Fail> {
    let alloc = rt.alloc();
    let (kind, words) = (packed::MatchKind::LeftmostFirst, [b"watson".as_slice()]);
    let built = ConfirmingSearch::build(alloc, kind, true, words)?;
    let search = built.ok_or("no prefilter for these patterns")?;
    let found = search.find_in(b"Dr. WATSON", Span { start: 0, end: 10 });
    assert!(rt; found.map(|it| it.range()) == Some(4..10));
    Ok(())
}

#[test]
fn shows_confirming(rt: HostRuntime) -> Result<(), Fail> {
    let (alloc, tally) = (rt.alloc(), &mut Tally::new());
    let mut builder = prefilter::Builder::new(alloc, MatchKind::LeftmostFirst);
    builder.add(b"lockjaw")?;
    let pre = builder.build()?.ok_or("no prefilter for these patterns")?;
    let mut patterns = Patterns::new(alloc);
    patterns.add(b"lockjaw")?;
    let (haystack, span) = (b"I am lockjaw", Span { start: 0, end: 12 });
    let found = confirm(&pre, &patterns, false, haystack, span, tally);
    assert!(rt; found.map(|it| it.range()) == Some(5..12));
    Ok(())
}

#[test]
fn builders_and_searchers_print_something(rt: HostRuntime) -> Result<(), Fail> {
    let alloc = rt.alloc();
    assert_prints(&rt, alloc, &Builder::new(alloc))?;
    assert_prints(
        &rt,
        alloc,
        &prefilter::Builder::new(alloc, MatchKind::Standard),
    )?;
    assert_prints(&rt, alloc, &searcher(alloc)?)?;
    Ok(())
}
