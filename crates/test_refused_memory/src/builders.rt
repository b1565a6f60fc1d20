//! Calls of `Builder`.
use crate::made::{assert_place, word, words};
use literal_prefilters::packed::{Builder, Config, MatchKind, Searcher};
use std::alloc::{AllocError, Global};
use std::process::Abort;

/// The three words, which `extend` adds.
fn three() -> [&'static [u8]; 3] {
    [b"foo", b"bar", b"baz"]
}

/// The result of a builder.
fn searcher_of(builder: &Builder) -> Result<Option<Searcher>, AllocError> {
    builder.build()
}

/// The same if no request is refused.
fn built(rt: &impl Abort, builder: &Builder) -> Option<Searcher> {
    searcher_of(builder).expect(rt, "a second request was refused")
}

/// A copy of a builder. No request is refused.
fn copied(rt: &impl Abort, builder: &Builder) -> Builder {
    builder
        .try_clone()
        .expect(rt, "a second request was refused")
}

/// Whether a word is found in itself.
fn finds(searcher: &Searcher, word: &[u8]) -> bool {
    searcher.find(word).is_some()
}

/// Whether a word is added.
fn is_added(builder: &mut Builder, word: &[u8]) -> bool {
    builder.add(word).is_ok()
}

/// Whether the three words are added.
fn are_added(builder: &mut Builder) -> bool {
    builder.extend(three()).is_ok()
}

/// The searcher finds only the first of three words.
fn assert_finds(rt: &impl Abort, searcher: &Searcher, count: usize) {
    for (number, word) in three().iter().enumerate() {
        assert!(rt; finds(searcher, word) == (number < count));
    }
}

/// The builder keeps only the first of three words, each once.
fn assert_keeps(rt: &impl Abort, builder: &Builder, count: usize) {
    let minimum_len = if count == 0 { usize::MAX } else { 3 };
    assert!(rt; (builder.len(), builder.minimum_len()) == (count, minimum_len));
    let searcher = built(rt, builder);
    assert!(rt; searcher.is_some() == (count > 0));
    if let Some(searcher) = searcher {
        assert_finds(rt, &searcher, count);
    }
}

/// The same for a builder after a refused request, and for a copy.
fn assert_keeps_still(rt: &impl Abort, builder: &Builder, count: usize) {
    assert_keeps(rt, builder, count);
    assert_keeps(rt, &copied(rt, builder), count);
}

/// Adds one of the words to a builder that keeps those before it.
fn adds(rt: &impl Abort, builder: &mut Builder, kept: usize) {
    assert!(rt; kept < 3);
    let word = three()[kept];
    if !is_added(builder, word) {
        assert_keeps_still(rt, builder, kept);
        assert!(rt; is_added(builder, word));
        assert_keeps_still(rt, builder, kept + 1);
    }
    assert!(rt; builder.len() == kept + 1);
}

/// The first pattern, and the second.
#[test]
fn add_of_builder(rt: HostRuntime) {
    let mut builder = Builder::new(rt.alloc());
    adds(&rt, &mut builder, 0);
    adds(&rt, &mut builder, 1);
}

/// Extends a builder that keeps some words by all three, after which it finds the last of these.
fn extends_again(rt: &impl Abort, builder: &mut Builder, kept: usize) {
    assert!(rt; kept < 3 && are_added(builder));
    assert!(rt; builder.len() == kept + 3);
    let searcher = built(rt, builder).expect(rt, "nothing is built");
    assert_place(rt, searcher.find(b"xbaz"), kept + 2, (1, 4));
}

/// If it is refused, the words before the refused one stay, and the next call adds all words.
#[test]
fn extend(rt: HostRuntime) {
    let mut builder = Builder::new(rt.alloc());
    if are_added(&mut builder) {
        assert!(rt; builder.len() == 3);
        return;
    }
    let kept = builder.len();
    assert_keeps_still(&rt, &builder, kept);
    extends_again(&rt, &mut builder, kept);
}

/// It finds the longest of 24 words, and of several longest ones the first.
fn assert_finds_longest(rt: &impl Abort, searcher: &Searcher) {
    assert_place(rt, searcher.find(b"xabcd"), 1, (1, 3));
    assert_place(rt, searcher.find(b"xbcd"), 2, (1, 4));
}

/// A builder of 24 words, for the longest match.
fn of_words(alloc: Global) -> Result<Builder, AllocError> {
    let mut builder = Config::new()
        .match_kind(MatchKind::LeftmostLongest)
        .builder(alloc);
    builder.extend(words())?;
    Ok(builder)
}

#[test]
fn build(rt: HostRuntime) -> Result<(), AllocError> {
    let builder = of_words(rt.alloc())?;
    let searcher = match searcher_of(&builder) {
        Ok(searcher) => searcher,
        Err(_) => built(&rt, &builder),
    };
    assert!(rt; builder.len() == 24 && builder.minimum_len() == word(0).len());
    assert_finds_longest(&rt, &searcher.expect(&rt, "nothing is built"));
    Ok(())
}

/// A builder of the first two words.
fn of_two(alloc: Global) -> Result<Builder, AllocError> {
    let mut builder = Builder::new(alloc);
    builder.extend([three()[0], three()[1]])?;
    Ok(builder)
}

#[test]
fn try_clone_of_builder(rt: HostRuntime) -> Result<(), AllocError> {
    let builder = of_two(rt.alloc())?;
    match builder.try_clone() {
        Ok(copy) => assert!(rt; copy.len() == 2),
        Err(_) => assert_keeps_still(&rt, &builder, 2),
    }
    Ok(())
}
