//! Replacing matches, and building a search by a builder.
use crate::made::assert_place;
use literal_search::{BuildError, MatchKind, ReplaceError, ReplaceStreamError, Search};
use std::alloc::{AllocError, Global};
use std::io::Write;
use std::process::Abort;

/// A search for two words, one of which is a prefix of the other.
fn build(alloc: Global) -> Result<Search, BuildError> {
    let builder = Search::builder().match_kind(MatchKind::LeftmostLongest);
    let folded = builder.ascii_case_insensitive(true);
    folded.build(alloc, [b"ab".as_slice(), b"abc"])
}

/// It finds the longer one.
fn assert_finds(rt: &impl Abort, search: &Search) {
    assert_place(rt, search.find(b"qABC"), 1, (1, 4));
}

#[test]
fn build_of_a_search(rt: HostRuntime) {
    let search = match build(rt.alloc()) {
        Ok(search) => search,
        Err(error) => {
            assert!(rt; error == BuildError::OutOfMemory);
            build(rt.alloc()).expect(&rt, "it was refused again")
        }
    };
    assert_finds(&rt, &search);
}

/// One match is replaced by more bytes than are before it, and the other by none; most bytes are after both.
fn replace_both(alloc: Global, search: &Search) -> Result<Vec<u8>, ReplaceError> {
    let haystack = b"qab-ABC, behind which stands as much as it takes to ask for memory once more";
    search.replace_all(alloc, haystack, &[b"<the shorter one of both>", b""])
}

#[test]
fn replace_all_of_a_search(rt: HostRuntime) -> Result<(), AllocError> {
    let built = build(rt.alloc()).or(Err(AllocError));
    let search = built?;
    let text = match replace_both(rt.alloc(), &search) {
        Ok(text) => text,
        Err(error) => {
            assert!(rt; error == ReplaceError::OutOfMemory);
            assert_finds(&rt, &search);
            replace_both(rt.alloc(), &search).expect(&rt, "it was refused again")
        }
    };
    assert!(rt; text.starts_with(b"q<the shorter one of both>-, behind"));
    Ok(())
}

/// Each match between two marks.
fn mark_both(alloc: Global, search: &Search) -> Result<Vec<u8>, AllocError> {
    search.replace_all_with(alloc, b"qab-ABC", |_, bytes, text| {
        text.extend_from_slice(b"<the beginning of one of both>")?;
        text.extend_from_slice(bytes)?;
        text.extend_from_slice(b"<the end of the one that has begun before>")
    })
}

#[test]
fn replace_all_with_of_a_search(rt: HostRuntime) -> Result<(), AllocError> {
    let built = build(rt.alloc()).or(Err(AllocError));
    let search = built?;
    let text = match mark_both(rt.alloc(), &search) {
        Ok(text) => text,
        Err(_) => {
            assert_finds(&rt, &search);
            mark_both(rt.alloc(), &search).expect(&rt, "it was refused again")
        }
    };
    assert!(rt; text.starts_with(b"q<the beginning of one of both>ab<the end"));
    Ok(())
}

/// The text that is written, if memory is granted; otherwise nothing is read.
fn rewrite(rt: &impl Abort, alloc: Global, search: &Search) -> Result<bool, ReplaceStreamError> {
    let (mut text, mut room) = (b"qab-ABC".as_slice(), [0; 8]);
    let mut written = room.as_mut_slice();
    let done = search.replace_stream(alloc, &mut text, &mut written, &[b"1", b""]);
    assert!(rt;
        text.is_empty() == done.is_ok() && written.len() == if done.is_ok() { 5 } else { 8 }
    );
    done?;
    Ok(room.starts_with(b"q1-"))
}

#[test]
fn replace_stream_of_a_search(rt: HostRuntime) -> Result<(), AllocError> {
    let built = build(rt.alloc()).or(Err(AllocError));
    let search = built?;
    let is_right = match rewrite(&rt, rt.alloc(), &search) {
        Ok(is_right) => is_right,
        Err(error) => {
            assert!(rt; matches!(error, ReplaceStreamError::OutOfMemory));
            assert_finds(&rt, &search);
            let again = rewrite(&rt, rt.alloc(), &search);
            again
                .or(Err(AllocError))
                .expect(&rt, "it was refused again")
        }
    };
    assert!(rt; is_right);
    Ok(())
}

/// The text that is written with each match between two marks, if memory is granted; otherwise nothing is read.
fn remark(rt: &impl Abort, alloc: Global, search: &Search) -> Result<bool, ReplaceStreamError> {
    let (mut text, mut room) = (b"qab-ABC".as_slice(), [0; 12]);
    let mut written = room.as_mut_slice();
    let done = search.replace_stream_with(alloc, &mut text, &mut written, |_, bytes, writer| {
        writer.write_all(b"<")?;
        writer.write_all(bytes)?;
        writer.write_all(b">")
    });
    assert!(rt; text.is_empty() == done.is_ok());
    done?;
    Ok(room.starts_with(b"q<ab>-<ABC>"))
}

#[test]
fn replace_stream_with_of_a_search(rt: HostRuntime) -> Result<(), AllocError> {
    let built = build(rt.alloc()).or(Err(AllocError));
    let search = built?;
    let is_right = match remark(&rt, rt.alloc(), &search) {
        Ok(is_right) => is_right,
        Err(error) => {
            assert!(rt; matches!(error, ReplaceStreamError::OutOfMemory));
            assert_finds(&rt, &search);
            let again = remark(&rt, rt.alloc(), &search);
            again
                .or(Err(AllocError))
                .expect(&rt, "it was refused again")
        }
    };
    assert!(rt; is_right);
    Ok(())
}

/// A text in which words are replaced.
const LENGTHS: &str = "ein Maß, ein Fuß und was sonst dahinter steht";

/// The text with its words replaced, or an empty one if there is no text.
fn replace_words(
    alloc: Global,
    words: &[String],
    text: Option<&str>,
) -> Result<Result<String, ReplaceError>, BuildError> {
    let patterns = words.iter().map(|word| word.as_bytes());
    let search = Search::new(alloc, MatchKind::LeftmostFirst, false, patterns)?;
    Ok(match text {
        Some(text) => search.replace_all_str(alloc, text, &["Meter", ""]),
        None => Ok(String::new(alloc)),
    })
}

#[test]
fn replace_all_str_of_a_search(rt: HostRuntime) -> Result<(), AllocError> {
    let alloc = rt.alloc();
    let words = [format!(in alloc; "Maß")?, format!(in alloc; "Fuß")?];
    let text = match replace_words(alloc, &words, Some(LENGTHS)) {
        Ok(Ok(text)) => text,
        Ok(Err(error)) => {
            assert!(rt; error == ReplaceError::OutOfMemory);
            let again = replace_words(alloc, &words, Some(LENGTHS)).or(Err(AllocError));
            again?.expect(&rt, "it was refused again")
        }
        Err(error) => {
            assert!(rt; error == BuildError::OutOfMemory);
            return Ok(());
        }
    };
    assert!(rt; text.as_str().starts_with("ein Meter, ein  und"));
    Ok(())
}

/// Nothing is left of the text once its words are replaced. Without a text the search is only built.
fn assert_leaves_nothing(
    rt: &impl Abort,
    alloc: Global,
    text: Option<&str>,
) -> Result<(), AllocError> {
    let words = [format!(in alloc; "Maß")?, format!(in alloc; "Fuß")?];
    let replaced = replace_words(alloc, &words, text).or(Err(AllocError))?;
    assert!(rt; replaced.or(Err(AllocError))?.is_empty());
    Ok(())
}

#[test]
fn text(rt: HostRuntime) -> Result<(), AllocError> {
    assert_leaves_nothing(&rt, rt.alloc(), None)
}

#[test]
fn text_and_no_more_to_replace(rt: HostRuntime) -> Result<(), AllocError> {
    assert_leaves_nothing(&rt, rt.alloc(), Some("Fuß"))
}
