//! The tables that a builder keeps: after each pattern they are those of all patterns so far. Rows of data say which
//! prefilter is built.
use literal_prefilters::packed::pattern::Patterns;
use literal_prefilters::prefilter::{Builder, ByteTable, Prefilter};
use literal_prefilters::{MatchKind, Span};
use std::alloc::Global;
use std::process::Abort;
use std::test::Fail;

/// 256 bytes, one more than a rare table has room for.
const LONG: &[u8] = &[b'x'; 256];

/// Whether case is ignored, and the patterns in the order in which they are added.
static LISTS: [(bool, &[&[u8]]); 16] = [
    (false, &[b"Sherlock", b"lockjaw"]),
    (false, &[b"lockjaw", b"Sherlock"]),
    (false, &[b"Sherlock", b"Sherlock"]),
    (true, &[b"Sherlock", b"lockjaw"]),
    (false, &[b"apple", b"maple", b"Snapple"]),
    (false, &[b"foo", b"bar"]),
    (true, &[b"foo"]),
    (false, &[b"ax", b"by", b"cz"]),
    (true, &[b"sherlock"]),
    (false, &[b"a", b"b", b"c", b"d", b"a", b"bd"]),
    (false, &[b"aQ", b"bQ", b"cQ", b"dQ", b"eQZ", b"fK"]),
    (false, &[b"eQ", b"eZ", b"eK", b"eX", b"eeeQ"]),
    (false, &[b"Q", LONG, b"Q", b"Qx"]),
    (true, &[b"Q", LONG, b"Q"]),
    (false, &[b"\xC0e", b"a", b"b", b"Q"]),
    (false, &[b"a", b"b", b"\xC0", b"", b"a"]),
];

/// The prefilter has just these bytes and distances: each byte is put after 254 others that are in no table.
fn goes_by(pre: &Prefilter, table: &ByteTable) -> bool {
    let mut haystack = [0xF5; 255];
    for byte in 0..=255u8 {
        haystack[254] = byte;
        let wanted = match table.distance(byte) {
            Some(distance) => Some(254 - distance as usize),
            None => None,
        };
        let found = pre.find_in(&haystack, Span { start: 0, end: 255 });
        if found.into_option() != wanted {
            return false;
        }
    }
    true
}

/// The table of a prefilter, of those that are made from scratch.
fn picked(patterns: &Patterns, ignore_case: bool) -> Option<ByteTable> {
    let start = ByteTable::start(patterns, ignore_case);
    let rare = ByteTable::rare(patterns, ignore_case);
    match (start, rare) {
        (Some(start), Some(rare)) => {
            let is_start = start.count() < rare.count() || start.rank_sum() <= rare.rank_sum() + 50;
            Some(if is_start { start } else { rare })
        }
        (Some(start), None) => Some(start),
        (None, rare) => rare,
    }
}

/// The prefilter has the table that is made from scratch, if it has a table.
fn assert_table(
    rt: &impl Abort,
    built: &Option<Prefilter>,
    patterns: &Patterns,
    ignore_case: bool,
) {
    if patterns.len() == 1 && !ignore_case {
        return;
    }
    let same = match (built, picked(patterns, ignore_case)) {
        (Some(pre), Some(table)) => goes_by(pre, &table),
        (None, None) => true,
        _ => false,
    };
    assert!(rt; same);
}

/// Adds a pattern to the list too. An empty pattern empties the list for good.
fn follow(patterns: &mut Patterns, bytes: &[u8], is_disabled: bool) -> Result<(), Fail> {
    if bytes.is_empty() || is_disabled || patterns.len() > 9 {
        patterns.reset();
        return Ok(());
    }
    Ok(patterns.add(bytes)?)
}

/// After each pattern the prefilter has the tables of all patterns so far.
fn assert_list(
    rt: &impl Abort,
    alloc: Global,
    ignore_case: bool,
    list: &[&[u8]],
) -> Result<(), Fail> {
    let mut builder = Builder::new(alloc, MatchKind::Standard).ascii_case_insensitive(ignore_case);
    let mut patterns = Patterns::new(alloc);
    let mut is_disabled = false;
    for bytes in list {
        builder.add(bytes)?;
        is_disabled = is_disabled || bytes.is_empty();
        follow(&mut patterns, bytes, is_disabled)?;
        assert_table(rt, &builder.build()?, &patterns, ignore_case);
    }
    Ok(())
}

/// A pattern of 255 bytes has a rare table, and one of 256 bytes none.
fn assert_long_patterns(rt: &impl Abort, alloc: Global) -> Result<(), Fail> {
    let mut long = [b'e'; 256];
    long[0] = 0xC0;
    long[254] = b'Q';
    assert_list(rt, alloc, false, &[&long[..255], b"\xC0Q", &long, b"\xC0Q"])
}

/// Adds a pattern of three bytes to the builder and to the list, and compares.
fn add_to_both(
    rt: &impl Abort,
    builder: &mut Builder,
    patterns: &mut Patterns,
    bytes: &[u8; 3],
) -> Result<(), Fail> {
    if patterns.len() >= 129 {
        return Err("no more patterns are meant".into());
    }
    builder.add(bytes)?;
    patterns.add(bytes)?;
    assert_table(rt, &builder.build()?, patterns, false);
    Ok(())
}

/// The patterns `a00` to `a42`, `b00` to `b42` and `c00` to `c42`, one after another.
fn assert_129_patterns(rt: &impl Abort, alloc: Global) -> Result<(), Fail> {
    let mut builder = Builder::new(alloc, MatchKind::Standard);
    let mut patterns = Patterns::new(alloc);
    for number in 0..129u8 {
        let (letter, rest) = (number / 43, number % 43);
        let bytes = [b'a' + letter, b'0' + rest / 10, b'0' + rest % 10];
        add_to_both(rt, &mut builder, &mut patterns, &bytes)?;
    }
    Ok(())
}

#[test]
fn tables_are_kept_up(rt: HostRuntime) -> Result<(), Fail> {
    for (ignore_case, list) in &LISTS {
        assert_list(&rt, rt.alloc(), *ignore_case, list)?;
    }
    assert_long_patterns(&rt, rt.alloc())?;
    assert_129_patterns(&rt, rt.alloc())
}
