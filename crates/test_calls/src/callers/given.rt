//! Callers with given words, each run once.
use literal_prefilters::packed::{self, Builder};
use literal_prefilters::{Match, Span};
use std::alloc::{AllocError, Global};
use std::process::Abort;
use std::test::Fail;
use test_contracts::given::{
    Found, add_all, first_confirmed, first_of_array, first_of_slice, first_of_vec, found_in_readme,
};

const WORDS: [&[u8]; 3] = [b"ab", b"a", b"b"];

/// The word `ab` is found in `xab`.
fn assert_is_ab(rt: &impl Abort, first: Option<Match>) {
    assert!(rt; first == Some(Match::must(0, Span { start: 1, end: 3 })));
}

/// The first of the words of each list.
fn first_of_each(alloc: Global) -> Result<[Option<Found>; 3], AllocError> {
    let words = Vec::from_array(alloc, WORDS)?;
    Ok([
        first_of_array(alloc, WORDS, b"xab")?,
        first_of_slice(alloc, WORDS.as_slice(), b"xab")?,
        first_of_vec(alloc, words, b"xab")?,
    ])
}

#[test]
fn finds_words_of_each_list(rt: HostRuntime) -> Result<(), Fail> {
    for answer in &first_of_each(rt.alloc())? {
        assert!(rt; answer.is_some());
        if let Some(answer) = answer {
            assert_is_ab(&rt, answer.first);
        }
    }
    Ok(())
}

/// The first confirmed match of `ab` in `xAB`.
fn confirmed(alloc: Global) -> Result<Option<Match>, AllocError> {
    let (kind, words) = (packed::MatchKind::LeftmostFirst, [b"ab".as_slice()]);
    let span = Span { start: 0, end: 3 };
    match first_confirmed(alloc, kind, true, words.as_slice(), b"xAB", span)? {
        Some(answer) => Ok(answer.first),
        None => Ok(None),
    }
}

#[test]
fn confirms_words(rt: HostRuntime) -> Result<(), Fail> {
    assert_is_ab(&rt, confirmed(rt.alloc())?);
    Ok(())
}

#[test]
fn adds_words(rt: HostRuntime) -> Result<(), Fail> {
    let mut builder = Builder::new(rt.alloc());
    add_all(&mut builder, WORDS.as_slice())?;
    assert!(rt; builder.len() == 3);
    Ok(())
}

#[test]
fn finds_the_example(rt: HostRuntime) -> Result<(), Fail> {
    let all = found_in_readme(rt.alloc())?;
    let spans = all.iter().map(|it| it.range());
    assert!(rt; spans.eq([13..18, 28..33, 43..50].into_iter()));
    Ok(())
}
