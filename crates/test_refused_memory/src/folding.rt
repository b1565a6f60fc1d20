//! Calls of `FoldedSearch`, `FoldedText` and `FoldedReader`, and `fold_into`.
use crate::made::assert_place;
use literal_folding::{
    BuildError, FoldedReader, FoldedSearch, FoldedText, Match, MatchKind, ReplaceError, fold_into,
};
use std::alloc::{AllocError, Global};
use std::io::Read;
use std::process::Abort;

fn build(alloc: Global) -> Result<FoldedSearch, BuildError> {
    let words = ["МИР".as_bytes(), "мираж".as_bytes()];
    FoldedSearch::new(alloc, MatchKind::LeftmostLongest, words)
}

#[test]
fn new_of_a_folded_search(rt: HostRuntime) -> Result<(), AllocError> {
    let text = FoldedText::new(rt.alloc(), "Мираж".as_bytes())?;
    let search = match build(rt.alloc()) {
        Ok(search) => search,
        Err(error) => {
            assert!(rt; error == BuildError::OutOfMemory);
            build(rt.alloc()).expect(&rt, "it was refused again")
        }
    };
    assert_place(&rt, search.find(&text), 1, (0, 10));
    Ok(())
}

/// A folded text.
fn folded(alloc: Global) -> Result<FoldedText, AllocError> {
    FoldedText::new(alloc, "ДЛИННЕЕ".as_bytes())
}

#[test]
fn new_of_a_folded_text(rt: HostRuntime) {
    let text = match folded(rt.alloc()) {
        Ok(text) => text,
        Err(_) => folded(rt.alloc()).expect(&rt, "it was refused again"),
    };
    assert!(rt; text.as_bytes() == "длиннее".as_bytes());
}

#[test]
fn set_of_a_folded_text(rt: HostRuntime) -> Result<(), AllocError> {
    let mut text = FoldedText::new(rt.alloc(), b"A")?;
    if text.set("ДЛИННЕЕ".as_bytes()).is_err() {
        assert!(rt; text.as_bytes() == b"a".as_slice());
        let again = text.set("ДЛИННЕЕ".as_bytes());
        again.expect(&rt, "it was refused again");
    }
    assert!(rt; text.as_bytes() == "длиннее".as_bytes());
    Ok(())
}

#[test]
fn fold_into_a_buffer(rt: HostRuntime) -> Result<(), AllocError> {
    let mut buffer = Vec::from_slice(rt.alloc(), b"A")?;
    if fold_into("ДЛИННЕЕ".as_bytes(), &mut buffer).is_err() {
        assert!(rt; buffer.as_slice() == b"A".as_slice());
        let again = fold_into("ДЛИННЕЕ".as_bytes(), &mut buffer);
        again.expect(&rt, "it was refused again");
    }
    assert!(rt; buffer.as_slice() == "Aдлиннее".as_bytes());
    Ok(())
}

/// All matches in a text.
fn list(search: &FoldedSearch, text: &FoldedText) -> Result<Vec<Match>, AllocError> {
    search.find_all(text)
}

#[test]
fn find_all_of_a_folded_search(rt: HostRuntime) -> Result<(), AllocError> {
    let search = build(rt.alloc()).or(Err(AllocError))?;
    let text = FoldedText::new(rt.alloc(), "Мир, мир".as_bytes())?;
    let all = match list(&search, &text) {
        Ok(all) => all,
        Err(_) => list(&search, &text).expect(&rt, "it was refused again"),
    };
    assert!(rt; all.len() == 2);
    Ok(())
}

/// A text with its matches replaced.
fn replace(alloc: Global, search: &FoldedSearch) -> Result<Vec<u8>, ReplaceError> {
    search.replace_all(alloc, "Мир".as_bytes(), &[b"<peace, or the world>", b""])
}

#[test]
fn replace_all_of_a_folded_search(rt: HostRuntime) -> Result<(), AllocError> {
    let search = build(rt.alloc()).or(Err(AllocError))?;
    let text = match replace(rt.alloc(), &search) {
        Ok(text) => text,
        Err(error) => {
            assert!(rt; error == ReplaceError::OutOfMemory);
            replace(rt.alloc(), &search).expect(&rt, "it was refused again")
        }
    };
    assert!(rt; text.as_slice() == b"<peace, or the world>".as_slice());
    Ok(())
}

/// The number of matches in the text of a reader.
fn count_read(rt: &impl Abort, alloc: Global, search: &FoldedSearch) -> Result<usize, AllocError> {
    let mut count: usize = 0;
    for found in search.find_stream(alloc, "Мир, мир".as_bytes())? {
        assert!(rt; found.is_ok());
        count = count.saturating_add(1);
    }
    Ok(count)
}

#[test]
fn find_stream_of_a_folded_search(rt: HostRuntime) -> Result<(), AllocError> {
    let search = build(rt.alloc()).or(Err(AllocError))?;
    let count = match count_read(&rt, rt.alloc(), &search) {
        Ok(count) => count,
        Err(_) => count_read(&rt, rt.alloc(), &search).expect(&rt, "it was refused again"),
    };
    assert!(rt; count == 2);
    Ok(())
}

/// A reader that folds.
fn reading(alloc: Global) -> Result<FoldedReader<&'static [u8]>, AllocError> {
    FoldedReader::new(alloc, "ПР".as_bytes())
}

#[test]
fn new_of_a_folded_reader(rt: HostRuntime) {
    let mut reader = match reading(rt.alloc()) {
        Ok(reader) => reader,
        Err(_) => reading(rt.alloc()).expect(&rt, "it was refused again"),
    };
    let mut bytes = [0; 5];
    assert!(rt; reader.read(&mut bytes).is_ok_and(|count| count == 4));
    assert!(rt; bytes[..4] == "пр".as_bytes()[..]);
}
