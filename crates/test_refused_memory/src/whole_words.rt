//! Calls of `WholeWords`.
use crate::made::{assert_place, words_with_a_table};
use literal_search::{BuildError, Match, MatchKind, ReplaceStreamError, Span, WholeWords};
use std::alloc::{AllocError, Global};
use std::io::Write;
use std::process::Abort;

/// A search for 24 patterns as whole words.
fn build(alloc: Global) -> Result<WholeWords, BuildError> {
    let set = WholeWords::ascii_word_bytes();
    WholeWords::new(
        alloc,
        MatchKind::LeftmostFirst,
        false,
        set,
        words_with_a_table(),
    )
}

/// It finds the second pattern if the first is no whole word.
fn assert_finds(rt: &impl Abort, search: &WholeWords) {
    let found = search.find_in(b"axes axe", Span { start: 1, end: 8 });
    assert_place(rt, found, 1, (5, 8));
}

#[test]
fn new_of_whole_words(rt: HostRuntime) {
    let search = match build(rt.alloc()) {
        Ok(search) => search,
        Err(error) => {
            assert!(rt; error == BuildError::OutOfMemory);
            build(rt.alloc()).expect(&rt, "it was refused again")
        }
    };
    assert_finds(&rt, &search);
}

/// Two whole words, by the call of this number that lists them.
fn list(search: &WholeWords, call: usize) -> Result<Vec<Match>, AllocError> {
    let haystack = b"axes axe ax";
    match call {
        0 => search.find_all(haystack),
        _ => search.find_all_in(haystack, Span { start: 1, end: 11 }),
    }
}

#[test]
fn find_all_of_whole_words(rt: HostRuntime) -> Result<(), AllocError> {
    let search = build(rt.alloc()).or(Err(AllocError))?;
    for call in 0..2 {
        let all = match list(&search, call) {
            Ok(all) => all,
            Err(_) => {
                assert_finds(&rt, &search);
                list(&search, call).expect(&rt, "it was refused again")
            }
        };
        assert_place(&rt, all.first().copied(), 1, (5, 8));
        assert!(rt; all.len() == 2);
    }
    Ok(())
}

/// Each whole word between two marks, or after a mark: by the call of this number.
fn mark(alloc: Global, search: &WholeWords, call: usize) -> Result<Vec<u8>, AllocError> {
    let haystack = b"axes axe";
    if call == 0 {
        let marks = [b"<what is put in place of a word>".as_slice(); 24];
        return search
            .replace_all(alloc, haystack, &marks)
            .or(Err(AllocError));
    }
    search.replace_all_with(alloc, haystack, |_, bytes, text| {
        text.extend_from_slice(b"<what is put in place of a word>")?;
        text.extend_from_slice(bytes)
    })
}

#[test]
fn replace_all_of_whole_words(rt: HostRuntime) -> Result<(), AllocError> {
    let search = build(rt.alloc()).or(Err(AllocError))?;
    for call in 0..2 {
        let text = match mark(rt.alloc(), &search, call) {
            Ok(text) => text,
            Err(_) => {
                assert_finds(&rt, &search);
                mark(rt.alloc(), &search, call).expect(&rt, "it was refused again")
            }
        };
        assert!(rt; text.starts_with(b"axes <what is put in place of a word>"));
    }
    Ok(())
}

/// The number of whole words in the text of a reader.
fn count_read(rt: &impl Abort, alloc: Global, search: &WholeWords) -> Result<usize, AllocError> {
    let mut count: usize = 0;
    for found in search.find_stream(alloc, b"axes axe ax".as_slice())? {
        assert!(rt; found.is_ok());
        count = count.saturating_add(1);
    }
    Ok(count)
}

#[test]
fn find_stream_of_whole_words(rt: HostRuntime) -> Result<(), AllocError> {
    let search = build(rt.alloc()).or(Err(AllocError))?;
    let count = match count_read(&rt, rt.alloc(), &search) {
        Ok(count) => count,
        Err(_) => {
            assert_finds(&rt, &search);
            count_read(&rt, rt.alloc(), &search).expect(&rt, "it was refused again")
        }
    };
    assert!(rt; count == 2);
    Ok(())
}

/// The text that is written by the call of this number, if memory is granted; otherwise nothing is read.
fn rewrite(
    rt: &impl Abort,
    alloc: Global,
    search: &WholeWords,
    call: usize,
) -> Result<bool, ReplaceStreamError> {
    let (mut text, mut room) = (b"axes axe".as_slice(), [0; 8]);
    let mut written = room.as_mut_slice();
    let done = if call == 0 {
        let marks = [b"-".as_slice(); 24];
        search.replace_stream(alloc, &mut text, &mut written, &marks)
    } else {
        search.replace_stream_with(alloc, &mut text, &mut written, |_, _, writer| {
            writer.write_all(b"-")
        })
    };
    assert!(rt; text.is_empty() == done.is_ok());
    done?;
    Ok(room.starts_with(b"axes -"))
}

#[test]
fn replace_stream_of_whole_words(rt: HostRuntime) -> Result<(), AllocError> {
    let search = build(rt.alloc()).or(Err(AllocError))?;
    for call in 0..2 {
        let is_right = match rewrite(&rt, rt.alloc(), &search, call) {
            Ok(is_right) => is_right,
            Err(error) => {
                assert!(rt; matches!(error, ReplaceStreamError::OutOfMemory));
                assert_finds(&rt, &search);
                let again = rewrite(&rt, rt.alloc(), &search, call);
                again
                    .or(Err(AllocError))
                    .expect(&rt, "it was refused again")
            }
        };
        assert!(rt; is_right);
    }
    Ok(())
}
