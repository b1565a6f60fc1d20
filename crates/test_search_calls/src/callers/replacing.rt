//! Every match replaced by one text, and words replaced by texts.
use crate::made::first_of;
use literal_examples::replacing::{replace_each, replace_words};
use literal_search::{BuildError, ReplaceError, Search};
use std::alloc::{AllocError, Global};
use std::test::Fail;

fn with_fruits(alloc: Global, search: &Search) -> Result<Vec<u8>, AllocError> {
    replace_each(alloc, search, b"apple, maple, pear", b"fruit")
}

#[test]
fn replaces_each_match(rt: HostRuntime) -> Result<(), Fail> {
    let search = first_of(rt.alloc(), &[b"maple", b"apple"])?;
    let text = with_fruits(rt.alloc(), &search)?;
    assert!(rt; text.as_slice() == b"fruit, fruit, pear".as_slice());
    Ok(())
}

/// A text with words replaced.
fn replaced(
    alloc: Global,
    words: &[String],
    text: &str,
    replacements: &[&str],
) -> Result<Result<String, ReplaceError>, BuildError> {
    replace_words(alloc, words, text, replacements)
}

#[test]
fn replaces_words_in_texts(rt: HostRuntime) -> Result<(), Fail> {
    let alloc = rt.alloc();
    let words = [format!(in alloc; "Maß")?, format!(in alloc; "ö")?];
    let done = replaced(alloc, &words, "größer als ein Maß", &["Ziel", "oe"])?;
    assert!(rt; done?.as_str() == "groeßer als ein Ziel");
    let too_few = replaced(alloc, &words, "ö", &["oe"])?;
    assert!(rt; too_few.err() == Some(ReplaceError::NotOneForEach));
    Ok(())
}
