//! Calls for whole words in a `WordText`.
use crate::made::{assert_place, words_with_a_table};
use literal_search::{BuildError, MatchKind, ReplaceError, WholeWords, WordText};
use std::alloc::{AllocError, Global};
use std::process::Abort;

/// A search for 24 patterns as whole words.
fn build(alloc: Global) -> Result<WholeWords, BuildError> {
    let set = WholeWords::ascii_word_bytes();
    WholeWords::new(
        alloc,
        MatchKind::LeftmostFirst,
        false,
        set,
        words_with_a_table(),
    )
}

/// A text in which a letter is right before the first occurrence of the second pattern.
const TEXT: &str = "éaxe axe";

/// It finds the second occurrence.
fn assert_finds(rt: &impl Abort, search: &WholeWords, text: &WordText<'_>) {
    assert_place(rt, search.find_text(text), 1, (6, 9));
}

#[test]
fn new_of_a_word_text(rt: HostRuntime) -> Result<(), AllocError> {
    let search = build(rt.alloc()).or(Err(AllocError))?;
    let text = match WordText::new(rt.alloc(), TEXT) {
        Ok(text) => text,
        Err(_) => WordText::new(rt.alloc(), TEXT).expect(&rt, "it was refused again"),
    };
    assert_finds(&rt, &search, &text);
    Ok(())
}

#[test]
fn find_text_all_of_a_word_text(rt: HostRuntime) -> Result<(), AllocError> {
    let search = build(rt.alloc()).or(Err(AllocError))?;
    let text = WordText::new(rt.alloc(), TEXT)?;
    let all = match search.find_text_all(&text) {
        Ok(all) => all,
        Err(_) => {
            assert_finds(&rt, &search, &text);
            search
                .find_text_all(&text)
                .expect(&rt, "it was refused again")
        }
    };
    assert_place(&rt, all.first().copied(), 1, (6, 9));
    assert!(rt; all.len() == 1);
    Ok(())
}

/// The second occurrence replaced by more bytes than the text has.
fn replaced(
    alloc: Global,
    search: &WholeWords,
    text: &WordText<'_>,
) -> Result<Vec<u8>, ReplaceError> {
    let marks = [b"<what is put in place of a word>".as_slice(); 24];
    search.replace_text_all(alloc, text, &marks)
}

#[test]
fn replace_text_all_of_a_word_text(rt: HostRuntime) -> Result<(), AllocError> {
    let search = build(rt.alloc()).or(Err(AllocError))?;
    let text = WordText::new(rt.alloc(), TEXT)?;
    let bytes = match replaced(rt.alloc(), &search, &text) {
        Ok(bytes) => bytes,
        Err(error) => {
            assert!(rt; error == ReplaceError::OutOfMemory);
            assert_finds(&rt, &search, &text);
            replaced(rt.alloc(), &search, &text).expect(&rt, "it was refused again")
        }
    };
    assert!(rt; bytes.as_slice() == "éaxe <what is put in place of a word>".as_bytes());
    Ok(())
}

/// A text with a word and a longer word.
const LENGTHS: &str = "Maße, ein Maß, ein Fuß und was sonst dahinter steht";

/// Where words are replaced: nowhere, in a text by its bytes, or in one by its characters.
#[derive(Clone, Copy)]
enum Where<'t> {
    Nowhere,
    Bytes(&'t str),
    Text(&'t WordText<'t>),
}

/// The text with its whole words replaced.
fn replaced_in_text(
    alloc: Global,
    words: &[String],
    text: Where<'_>,
) -> Result<Result<String, ReplaceError>, BuildError> {
    let set = WholeWords::ascii_word_bytes();
    let patterns = words.iter().map(|word| word.as_bytes());
    let search = WholeWords::new(alloc, MatchKind::LeftmostFirst, false, set, patterns)?;
    Ok(match text {
        Where::Nowhere => Ok(String::new(alloc)),
        Where::Bytes(text) => search.replace_all_str(alloc, text, &["Meter", ""]),
        Where::Text(text) => search.replace_text_all_str(alloc, text, &["Meter", ""]),
    })
}

/// Replaces the words, once more if memory is refused.
fn replaces_in_text(rt: &impl Abort, alloc: Global, text: Where<'_>) -> Result<(), AllocError> {
    let words = [format!(in alloc; "Maß")?, format!(in alloc; "Fuß")?];
    let answer = match replaced_in_text(alloc, &words, text) {
        Ok(Ok(answer)) => answer,
        Ok(Err(error)) => {
            assert!(rt; error == ReplaceError::OutOfMemory);
            let again = replaced_in_text(alloc, &words, text).or(Err(AllocError));
            again?.expect(rt, "it was refused again")
        }
        Err(error) => {
            assert!(rt; error == BuildError::OutOfMemory);
            return Ok(());
        }
    };
    assert!(rt; answer.as_str().starts_with("Maße, ein Meter, ein  und"));
    Ok(())
}

#[test]
fn replace_all_str_of_whole_words(rt: HostRuntime) -> Result<(), AllocError> {
    replaces_in_text(&rt, rt.alloc(), Where::Bytes(LENGTHS))
}

#[test]
fn replace_text_all_str_of_a_word_text(rt: HostRuntime) -> Result<(), AllocError> {
    let text = WordText::new(rt.alloc(), LENGTHS)?;
    replaces_in_text(&rt, rt.alloc(), Where::Text(&text))
}

/// A text with one of the words, which is left out.
const LEFT_OUT: &str = "Fuß";

/// Nothing is left of the text once its words are replaced. Without a text the search is only built.
fn assert_leaves_nothing(
    rt: &impl Abort,
    alloc: Global,
    text: Where<'_>,
) -> Result<(), AllocError> {
    let words = [format!(in alloc; "Maß")?, format!(in alloc; "Fuß")?];
    let replaced = replaced_in_text(alloc, &words, text).or(Err(AllocError))?;
    assert!(rt; replaced.or(Err(AllocError))?.is_empty());
    Ok(())
}

#[test]
fn text(rt: HostRuntime) -> Result<(), AllocError> {
    assert_leaves_nothing(&rt, rt.alloc(), Where::Nowhere)
}

#[test]
fn text_and_no_more_to_replace(rt: HostRuntime) -> Result<(), AllocError> {
    assert_leaves_nothing(&rt, rt.alloc(), Where::Bytes(LEFT_OUT))
}

#[test]
fn text_and_one_more_to_replace(rt: HostRuntime) -> Result<(), AllocError> {
    let text = WordText::new(rt.alloc(), LEFT_OUT)?;
    assert_leaves_nothing(&rt, rt.alloc(), Where::Text(&text))
}
