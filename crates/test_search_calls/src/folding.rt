//! Unicode's case folding, and searches by it.
use literal_folding::{
    BuildError, FOLDINGS, FoldedReader, FoldedSearch, FoldedText, Match, MatchKind, ReplaceError,
    fold_char, fold_in_place, laws,
};
use literal_search::Span;
use std::alloc::{AllocError, Global};
use std::io::{self, ErrorKind, Read};
use std::process::Abort;
use std::test::Fail;

#[test]
fn example_of_a_folded_search(rt: HostRuntime) -> Result<(), Fail> {
    let alloc = rt.alloc();
    let words = ["пример".as_bytes(), b"example"];
    let search = FoldedSearch::new(alloc, MatchKind::LeftmostFirst, words)?;
    let text = FoldedText::new(alloc, "Это ПРИМЕР.".as_bytes())?;
    let found = search.find(&text).ok_or("nothing is found")?;
    assert!(rt; found.pattern().as_usize() == 0 && found.range() == (7..19));
    Ok(())
}

#[test]
fn example_of_replacing_by_a_folded_search(rt: HostRuntime) -> Result<(), Fail> {
    let alloc = rt.alloc();
    let search = FoldedSearch::new(alloc, MatchKind::LeftmostFirst, ["пример".as_bytes()])?;
    let text = search.replace_all(alloc, "Это ПРИМЕР.".as_bytes(), &["тест".as_bytes()])?;
    assert!(rt; text.as_slice() == "Это тест.".as_bytes());
    let too_few = search.replace_all(alloc, b"", &[]);
    assert!(rt; too_few.err() == Some(ReplaceError::NotOneForEach));
    Ok(())
}

#[test]
fn folds_characters(rt: HostRuntime) {
    let pairs = [
        ('A', 'a'),
        ('П', 'п'),
        ('É', 'é'),
        ('Σ', 'σ'),
        ('ς', 'σ'),
        ('Ǆ', 'ǆ'),
        ('ǅ', 'ǆ'),
        ('Ꭰ', 'Ꭰ'),
        ('ꭰ', 'Ꭰ'),
        ('𐐀', '𐐨'),
        ('z', 'z'),
        ('ß', 'ß'),
        ('中', '中'),
    ];
    for (c, folding) in &pairs {
        assert!(rt; fold_char(*c) == *folding);
    }
    assert!(rt; FOLDINGS.len() == 170);
}

#[test]
fn leaves_what_has_another_length(rt: HostRuntime) {
    for c in &['ſ', 'ẞ', 'İ', 'ı', '\u{212A}', '\u{212B}', 'Ⱥ'] {
        assert!(rt; fold_char(*c) == *c);
    }
}

/// The bytes, folded in place, are `folded`.
fn assert_folds<const N: usize>(rt: &impl Abort, mut bytes: [u8; N], folded: &[u8; N]) {
    fold_in_place(&mut bytes);
    assert!(rt; bytes[..] == folded[..]);
}

#[test]
fn leaves_bytes_that_are_no_characters(rt: HostRuntime) {
    // a character that is cut, and one after it
    assert_folds(&rt, *b"\xD0\xD0\x9FA", b"\xD0\xD0\xBFa");
    // A in two bytes, which is no UTF-8
    assert_folds(&rt, *b"\xC1\x81B", b"\xC1\x81b");
    // a surrogate, and bytes that begin nothing
    assert_folds(&rt, *b"\xED\xA0\x80\x9F\xFF", b"\xED\xA0\x80\x9F\xFF");
}

/// A reader of bytes in memory, a few per call, that fails once, when this many bytes are left.
#[derive(Drop)]
struct Pieces<'t> {
    rest: &'t [u8],
    step: usize,
    failing: Option<usize>,
}

impl Read for Pieces<'_> {
    fn read(&mut self, buf: &mut [u8]) -> io::Result<usize> {
        if self.failing == Some(self.rest.len()) {
            self.failing = None;
            return Err(io::Error::from(ErrorKind::TimedOut));
        }
        let count = self.rest.len().min(self.step).min(buf.len());
        let (first, behind) = self.rest.split_at(count);
        buf[..count].copy_from_slice(first);
        self.rest = behind;
        Ok(count)
    }
}

/// A search for words with Unicode's case ignored.
fn search_for(alloc: Global, words: &[&[u8]]) -> Result<FoldedSearch, BuildError> {
    FoldedSearch::new(alloc, MatchKind::LeftmostFirst, words.iter().copied())
}

/// All matches in a text that comes in pieces of this many bytes.
fn list_of_pieces(
    alloc: Global,
    search: &FoldedSearch,
    text: &[u8],
    step: usize,
) -> io::Result<Vec<Match>> {
    let pieces = Pieces {
        rest: text,
        step,
        failing: None,
    };
    let mut all = Vec::new(alloc);
    for found in search.find_stream(alloc, pieces)? {
        all.push(found?)?;
    }
    Ok(all)
}

/// All matches in a text.
fn list_of(alloc: Global, search: &FoldedSearch, text: &[u8]) -> Result<Vec<Match>, AllocError> {
    let text = FoldedText::new(alloc, text)?;
    search.find_all(&text)
}

/// In pieces of this many bytes there are as many matches as in the whole text, and the same last one.
fn has_same(alloc: Global, search: &FoldedSearch, text: &[u8], step: usize) -> io::Result<bool> {
    let pieces = list_of_pieces(alloc, search, text, step)?;
    let whole = list_of(alloc, search, text)?;
    Ok(pieces.as_slice() == whole.as_slice() && !whole.is_empty())
}

#[test]
fn finds_the_same_in_pieces(rt: HostRuntime) -> Result<(), Fail> {
    let words = ["пример".as_bytes(), "σ".as_bytes(), "𐐨a".as_bytes()];
    let search = search_for(rt.alloc(), &words)?;
    let text = "ПРИМЕР примеР ΣςΣ 𐐀A \u{212A}".as_bytes();
    for step in 1..9 {
        assert!(rt; has_same(rt.alloc(), &search, text, step)?);
    }
    Ok(())
}

/// A text with a character of four bytes that begins this many bytes before a block's end.
fn cut_text(alloc: Global, before: usize) -> Result<Vec<u8>, AllocError> {
    let mut bytes = vec![in alloc; b'X'; 4096 - before.min(4)]?;
    bytes.extend_from_slice("𐐀ПРИМЕР".as_bytes())?;
    Ok(bytes)
}

#[test]
fn character_is_cut_by_the_end_of_a_block(rt: HostRuntime) -> Result<(), Fail> {
    let search = search_for(rt.alloc(), &["𐐨пример".as_bytes()])?;
    for before in 0..5 {
        let text = cut_text(rt.alloc(), before)?;
        assert!(rt; has_same(rt.alloc(), &search, &text, usize::MAX)?);
    }
    Ok(())
}

#[test]
fn reader_goes_on_after_an_error(rt: HostRuntime) -> Result<(), Fail> {
    let pieces = Pieces {
        rest: "ПРé".as_bytes(),
        step: 1,
        failing: Some(3),
    };
    let mut reader = FoldedReader::new(rt.alloc(), pieces)?;
    let mut bytes = [0; 8];
    assert!(rt; reader.read(&mut bytes)? == 2);
    assert!(rt; reader.read(&mut bytes[2..]).is_err());
    assert!(rt; reader.read(&mut bytes[2..])? == 2);
    assert!(rt; bytes[..4] == "пр".as_bytes()[..]);
    Ok(())
}

#[test]
fn searches_in_a_span(rt: HostRuntime) -> Result<(), Fail> {
    let alloc = rt.alloc();
    let words = [b"ab".as_slice()];
    let search = FoldedSearch::new(alloc, MatchKind::LeftmostFirst, words)?;
    let mut text = FoldedText::empty(alloc);
    assert!(rt; !search.is_match(&text));
    text.set(b"ABaB")?;
    assert!(rt; search.is_match(&text));
    let end = text.as_bytes().len();
    let start = end.min(1);
    let found = search.find_in(&text, Span { start, end });
    assert!(rt; found.is_some_and(|it| it.range() == (2..4)));
    Ok(())
}

#[test]
fn laws_of_the_folding() {
    laws::foldings_are_chars();
    laws::each_char_is_folded();
    laws::utf8_is_folded_by_chars();
    laws::lengths_stay();
    laws::folded_twice_is_folded();
    laws::ascii_is_folded_as_ascii();
    laws::parts_are_folded_separately();
}
