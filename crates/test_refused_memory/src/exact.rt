//! Calls of exact prefilters that allocate.
use crate::made::{assert_place, words_without_a_table};
use literal_prefilters::prefilter::{Builder, Candidate, Prefilter};
use literal_prefilters::{Match, MatchKind, Span};
use std::alloc::{AllocError, Global};
use std::process::Abort;

/// A builder of this many of 24 patterns.
fn builder(alloc: Global, count: usize) -> Result<Builder, AllocError> {
    let mut builder = Builder::new(alloc, MatchKind::LeftmostLongest);
    for bytes in words_without_a_table().iter().take(count) {
        builder.add(bytes)?;
    }
    Ok(builder)
}

/// The match of a candidate.
fn matched(candidate: Candidate) -> Option<Match> {
    match candidate {
        Candidate::Match(found) => Some(found),
        Candidate::None | Candidate::PossibleStartOfMatch(_) => None,
    }
}

/// The prefilter's answer is the only occurrence of the first pattern.
fn assert_finds(rt: &impl Abort, pre: &Prefilter) {
    let candidate = pre.find_in(b"qqaxe", Span { start: 0, end: 5 });
    assert_place(rt, matched(candidate), 0, (2, 4));
}

/// The result of a builder.
fn prefilter_of(builder: &Builder) -> Result<Option<Prefilter>, AllocError> {
    builder.build()
}

/// A copy of a prefilter.
fn copied(pre: &Prefilter) -> Result<Prefilter, AllocError> {
    pre.try_clone()
}

/// Builds a prefilter for this many patterns.
fn builds(rt: &impl Abort, alloc: Global, count: usize) -> Result<(), AllocError> {
    let builder = builder(alloc, count)?;
    let pre = match prefilter_of(&builder) {
        Ok(pre) => pre,
        Err(_) => prefilter_of(&builder).expect(rt, "it was refused again"),
    };
    assert_finds(rt, &pre.expect(rt, "there is no prefilter"));
    Ok(())
}

/// The prefilter for this many patterns.
fn prefilter(alloc: Global, count: usize) -> Result<Option<Prefilter>, AllocError> {
    prefilter_of(&builder(alloc, count)?)
}

/// Copies a prefilter for this many patterns.
fn clones(rt: &impl Abort, alloc: Global, count: usize) -> Result<(), AllocError> {
    let pre = prefilter(alloc, count)?.expect(rt, "there is no prefilter");
    let copy = match copied(&pre) {
        Ok(copy) => copy,
        Err(_) => copied(&pre).expect(rt, "it was refused again"),
    };
    assert_finds(rt, &pre);
    assert_finds(rt, &copy);
    Ok(())
}

/// For one pattern, and for many.
#[test]
fn build_of_exact(rt: HostRuntime) -> Result<(), AllocError> {
    builds(&rt, rt.alloc(), 1)?;
    builds(&rt, rt.alloc(), 24)
}

#[test]
fn try_clone_of_exact(rt: HostRuntime) -> Result<(), AllocError> {
    clones(&rt, rt.alloc(), 1)?;
    clones(&rt, rt.alloc(), 24)
}
