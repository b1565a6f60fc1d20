//! Answers of byte tables.
use crate::bytes::push_byte;
use crate::case::{Case, Query, Text};
use crate::pattern_lists::patterns_of;
use crate::refusal::Refusal;
use crate::told::{NONE, push_word};
use literal_prefilters::count::Tally;
use literal_prefilters::packed::pattern::Patterns;
use literal_prefilters::prefilter::ByteTable;
use std::alloc::{AllocError, Global};

/// The patterns, in match order.
fn patterns_in_order(alloc: Global, query: &Query) -> Result<Patterns, Refusal> {
    let mut patterns = patterns_of(alloc, query.patterns.as_slice())?;
    if let Some(kind) = query.kind.as_packed() {
        patterns.set_match_kind(kind)?;
    }
    Ok(patterns)
}

/// The table of start bytes and the table of rare bytes.
pub fn tables(text: &mut String, alloc: Global, case: &Case<'_>) -> Result<(), Refusal> {
    let query = case.query(alloc)?;
    let patterns = patterns_in_order(alloc, &query)?;
    Ok(push_tables(text, &patterns, query.ignore_case)?)
}

/// Writes both tables.
fn push_tables(
    text: &mut String,
    patterns: &Patterns,
    ignore_case: bool,
) -> Result<(), AllocError> {
    text.push_str("start=")?;
    push_table(text, ByteTable::start(patterns, ignore_case), false)?;
    text.push_str("; rare=")?;
    push_table(text, ByteTable::rare(patterns, ignore_case), true)
}

/// Writes whether there is a table, and if so its bytes, with their distances if these are asked for, their number, and
/// the sum of their ranks.
fn push_table(
    text: &mut String,
    table: Option<ByteTable>,
    with_distances: bool,
) -> Result<(), AllocError> {
    let Some(table) = table else {
        return text.push_str("no");
    };
    push_entries(text, &table, with_distances)?;
    let count = table.count();
    let rank_sum = table.rank_sum();
    write!(text, " {count} {rank_sum}")
}

/// Writes that there is a table, and its bytes. A start table has no distance but 0.
fn push_entries(
    text: &mut String,
    table: &ByteTable,
    with_distances: bool,
) -> Result<(), AllocError> {
    let mut before = "yes ";
    for byte in 0..=255u8 {
        let Some(distance) = table.distance(byte) else {
            continue;
        };
        text.push_str(before)?;
        push_byte(text, byte)?;
        if with_distances || distance > 0 {
            write!(text, ":{distance}")?;
        }
        before = ",";
    }
    Ok(())
}

/// The first offset in a span of a byte of the rare table.
pub fn scan(text: &mut String, alloc: Global, case: &Case<'_>) -> Result<(), Refusal> {
    let query = case.query(alloc)?;
    let patterns = patterns_in_order(alloc, &query)?;
    match ByteTable::rare(&patterns, query.ignore_case) {
        Some(table) => Ok(push_place(text, &case.text(alloc)?, &table)?),
        None => push_word(text, "no-table"),
    }
}

/// Writes the first offset in a span of a byte of a table.
fn push_place(text: &mut String, asked: &Text, table: &ByteTable) -> Result<(), AllocError> {
    match table.scan(asked.haystack.as_slice(), asked.span, &mut Tally::new()) {
        Some(place) => write!(text, "{place}"),
        None => text.push_str(NONE),
    }
}
