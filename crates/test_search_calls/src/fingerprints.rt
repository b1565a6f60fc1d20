//! `Fingerprints`, `ShortPattern`, and the calls for one byte.
use literal_base::count::Tally;
use literal_fingerprints::{Fingerprints, ShortPattern, count_byte, find_byte};
use literal_search::Span;
use std::alloc::{AllocError, Global};
use std::process::Abort;
use std::test::Fail;

/// Common words.
static WORDS: [&[u8]; 32] = [
    b"which",
    b"there",
    b"about",
    b"would",
    b"other",
    b"these",
    b"first",
    b"people",
    b"should",
    b"through",
    b"between",
    b"before",
    b"world",
    b"because",
    b"while",
    b"system",
    b"number",
    b"against",
    b"little",
    b"school",
    b"night",
    b"family",
    b"country",
    b"question",
    b"young",
    b"money",
    b"business",
    b"example",
    b"kitchen",
    b"forward",
    b"velvet",
    b"Jupiter",
];

/// The fingerprints of some words.
fn fingerprints(
    alloc: Global,
    ignore_case: bool,
    words: &[&[u8]],
) -> Result<Option<Fingerprints>, AllocError> {
    let mut patterns = Vec::new(alloc);
    for word in words {
        let mut pattern = Vec::new(alloc);
        pattern.extend_from_slice(word)?;
        patterns.push(pattern)?;
    }
    Ok(Fingerprints::new(ignore_case, 0, &patterns))
}

#[test]
fn scans_for_words(rt: HostRuntime) -> Result<(), Fail> {
    let words = [b"password".as_slice(), b"secret"];
    let scan = fingerprints(rt.alloc(), true, &words)?.ok_or("there are none")?;
    let haystack = b"My first, my second, my Secret and the others.";
    let whole = Span {
        start: 0,
        end: haystack.len(),
    };
    let tally = &mut Tally::new();
    assert!(rt; scan.next(haystack, whole, tally) == 24);
    let behind = Span {
        start: 25,
        end: haystack.len(),
    };
    assert!(rt; scan.next(haystack, behind, tally) == 46);
    let short = Span { start: 20, end: 35 };
    assert!(rt; scan.next(haystack, short, tally) == 24);
    let open = Span { start: 25, end: 40 };
    assert!(rt; scan.next(haystack, open, tally) == 38);
    let same = Fingerprints::from_bytes(&scan.to_bytes());
    assert!(rt; same.next(haystack, behind, tally) == 46);
    Ok(())
}

#[test]
fn compares_with_short_patterns(rt: HostRuntime) -> Result<(), Fail> {
    let short = ShortPattern::new(b"secret").ok_or("it is not short")?;
    let haystack = b"My first, my second, my secret and the others.";
    let tally = &mut Tally::new();
    assert!(rt; short.is_at(haystack, 24, tally));
    assert!(rt; !short.is_at(haystack, 23, tally));
    assert!(rt; !short.is_at(haystack, 13, tally));
    let same = ShortPattern::from_bytes(&short.to_bytes());
    assert!(rt; same.is_at(haystack, 24, tally));
    assert!(rt; ShortPattern::new(b"").is_none());
    assert!(rt; ShortPattern::new(&haystack[..16]).is_some());
    assert!(rt; ShortPattern::new(&haystack[..17]).is_none());
    Ok(())
}

#[test]
fn finds_and_counts_one_byte(rt: HostRuntime) -> Result<(), Fail> {
    let haystack = b"My first, my second, my Secret and the others.";
    let span = Span { start: 1, end: 45 };
    let tally = &mut Tally::new();
    assert!(rt; find_byte(haystack, span, b'S', tally) == 24);
    assert!(rt; find_byte(haystack, span, b'h', tally) == 36);
    assert!(rt; find_byte(haystack, span, b'M', tally) == 45);
    assert!(rt; find_byte(haystack, span, b'.', tally) == 45);
    assert!(rt; count_byte(haystack, span, b'e', tally) == 5);
    assert!(rt; count_byte(haystack, span, b'.', tally) == 0);
    Ok(())
}

/// Some of the words have fingerprints, in either case.
fn assert_some(rt: &impl Abort, alloc: Global, words: &[&[u8]]) -> Result<(), AllocError> {
    for ignore_case in [false, true] {
        let has_some = fingerprints(alloc, ignore_case, words)?.is_some();
        assert!(rt; has_some, "{} words", words.len());
    }
    Ok(())
}

/// A list has no fingerprints, in either case.
fn assert_none(rt: &impl Abort, alloc: Global, words: &[&[u8]]) -> Result<(), AllocError> {
    for ignore_case in [false, true] {
        let has_none = fingerprints(alloc, ignore_case, words)?.is_none();
        assert!(rt; has_none, "{} words", words.len());
    }
    Ok(())
}

#[test]
fn ordinary_lists_have_fingerprints(rt: HostRuntime) -> Result<(), Fail> {
    let alloc = rt.alloc();
    for count in [1, 3, 16, 32] {
        assert_some(&rt, alloc, &WORDS[..count])?;
    }
    assert_some(&rt, alloc, &[b"e"])?;
    Ok(())
}

#[test]
fn other_lists_have_none(rt: HostRuntime) -> Result<(), Fail> {
    let alloc = rt.alloc();
    assert_none(&rt, alloc, &[])?;
    assert_none(&rt, alloc, &[b""])?;
    assert_none(&rt, alloc, &[b"word", b""])?;
    assert_none(&rt, alloc, &[b"word".as_slice(); 65])?;
    let letters = [
        b"a".as_slice(),
        b"b",
        b"c",
        b"d",
        b"e",
        b"f",
        b"g",
        b"h",
        b"i",
        b"j",
        b"k",
        b"l",
    ];
    assert_none(&rt, alloc, &letters)?;
    Ok(())
}
