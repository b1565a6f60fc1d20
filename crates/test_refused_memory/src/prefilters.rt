//! Calls of the prefilter's `Builder`.
use literal_prefilters::prefilter::Builder;
use literal_prefilters::{MatchKind, Span};
use std::alloc::{AllocError, Global};
use std::process::Abort;

/// The offsets that are proposed in `xxfoo` and `oxof` for no word, for `foo`, and for `foo` and `of`.
const PROPOSED: [[Option<usize>; 2]; 3] = [[None, None], [Some(2), Some(3)], [Some(1), Some(2)]];

/// The offset that the builder's prefilter proposes, or `None` if it builds none. Nothing here allocates, since the
/// prefilter has a table.
fn proposed(rt: &impl Abort, builder: &Builder, haystack: &[u8]) -> Option<usize> {
    let built = builder.build().expect(rt, "a table of bytes took memory");
    let (start, end) = (0, haystack.len());
    built?.find_in(haystack, Span { start, end }).into_option()
}

/// The result of a builder of this many words.
fn assert_builds(rt: &impl Abort, builder: &Builder, count: usize) {
    assert!(rt; count < 3);
    assert!(rt; proposed(rt, builder, b"xxfoo") == PROPOSED[count][0]);
    assert!(rt; proposed(rt, builder, b"oxof") == PROPOSED[count][1]);
}

/// Adds a word to a builder of this many words.
fn adds(rt: &impl Abort, builder: &mut Builder, count: usize, word: &[u8]) {
    assert!(rt; count < 2);
    if builder.add(word).is_err() {
        assert_builds(rt, builder, count);
        assert!(rt; builder.add(word).is_ok());
    }
    assert_builds(rt, builder, count + 1);
}

/// A builder without words, with case ignored.
fn of_none(alloc: Global) -> Builder {
    Builder::new(alloc, MatchKind::Standard).ascii_case_insensitive(true)
}

/// The first pattern, and the second.
#[test]
fn add_of_prefilter_builder(rt: HostRuntime) {
    let mut builder = of_none(rt.alloc());
    adds(&rt, &mut builder, 0, b"foo");
    adds(&rt, &mut builder, 1, b"of");
}

/// A builder of one word.
fn of_one(alloc: Global) -> Result<Builder, AllocError> {
    let mut builder = of_none(alloc);
    builder.add(b"foo").or(Err(AllocError))?;
    Ok(builder)
}

#[test]
fn prefilter(rt: HostRuntime) -> Result<(), AllocError> {
    assert_builds(&rt, &of_one(rt.alloc())?, 1);
    Ok(())
}

/// It has a table in place of patterns.
#[test]
fn prefilter_and_no_more_to_clone(rt: HostRuntime) -> Result<(), AllocError> {
    let built = of_one(rt.alloc())?.build()?;
    let copy = built.expect(&rt, "no prefilter").try_clone()?;
    let found = copy.find_in(b"xxfoo", Span { start: 0, end: 5 });
    assert!(rt; found.into_option() == Some(2));
    Ok(())
}
