//! Arrays that a search fills, and the calls of searches by them that the exports for C don't make.
use crate::made::{first_of, longest_of};
use literal_base::count::Tally;
use literal_search::{
    ArrayTooShort, Match, MatchKind, Overlapping, Prepared, PreparedOverlapping, SoFar, Span,
};
use std::alloc::Global;
use std::test::Fail;

const WORDS: [&[u8]; 2] = [b"password", b"secret"];

const HAYSTACK: &[u8] = b"A SECRET, a Secret";

/// The second of these words in the haystack.
fn second() -> Option<Match> {
    Some(Match::must(1, Span { start: 12, end: 18 }))
}

/// The search for these words with case ignored, in an array that it fills.
fn filled(alloc: Global) -> Result<Vec<u32>, Fail> {
    let search = first_of(alloc, &WORDS)?;
    let mut array = vec![in alloc; 0; search.prepared_len()]?;
    search.into_prepared(&mut array)?;
    Ok(array)
}

#[test]
fn fills_as_many_places_as_it_tells(rt: HostRuntime) -> Result<(), Fail> {
    let search = first_of(rt.alloc(), &WORDS)?;
    let needed = search.prepared_len();
    let mut array = vec![in rt.alloc(); 0; needed]?;
    assert!(rt; search.prepare(&mut array) == Ok(needed));
    // (the first number of the scan for candidates: there is one, and it skips no byte)
    assert!(rt; array[needed - 40] == 1);
    assert!(rt; array.pop().is_some());
    assert!(rt; search.prepare(&mut array) == Err(ArrayTooShort { needed }));
    Ok(())
}

/// The answers of the counting calls of the search by the array, after the first match.
fn counted(array: &[u32]) -> Result<(Option<Match>, SoFar), Fail> {
    let (prepared, tally) = (Prepared::new(array)?, &mut Tally::new());
    let found = prepared.find_in_counted(HAYSTACK, Span { start: 3, end: 18 }, tally)?;
    Ok((found, prepared.find_so_far_counted(HAYSTACK, 3, tally)?))
}

#[test]
fn counts_by_an_array(rt: HostRuntime) -> Result<(), Fail> {
    let array = filled(rt.alloc())?;
    let prepared = Prepared::new(&array)?;
    assert!(rt; prepared.max_pattern_len() == 8);
    assert!(rt; prepared.match_kind() == MatchKind::LeftmostFirst);
    let (found, so_far) = counted(&array)?;
    assert!(rt; found == second() && so_far == SoFar::NoneBefore(11));
    let span = Span { start: 3, end: 18 };
    let candidate = prepared.first_candidate_in_counted(HAYSTACK, span, &mut Tally::new());
    assert!(rt; candidate == 12);
    Ok(())
}

/// The count of a byte in a part of the haystack, by an array of another search.
fn counted_of(alloc: Global, byte: u8) -> Result<Option<usize>, Fail> {
    let search = longest_of(alloc, &[&[byte]])?;
    let mut array = vec![in alloc; 0; search.prepared_len()]?;
    search.prepare(&mut array)?;
    let (prepared, span) = (Prepared::new(&array)?, Span { start: 1, end: 17 });
    Ok(prepared.count_of_byte_in_counted(HAYSTACK, span, &mut Tally::new()))
}

#[test]
fn counts_one_byte_by_an_array(rt: HostRuntime) -> Result<(), Fail> {
    let (array, span) = (filled(rt.alloc())?, Span { start: 1, end: 17 });
    assert!(rt; Prepared::new(&array)?.count_of_byte_in(HAYSTACK, span) == None);
    assert!(rt; counted_of(rt.alloc(), b' ')? == Some(3));
    Ok(())
}

/// The first answers of iterations by the array, in the same part.
fn iterated(array: &[u32]) -> Result<[Option<Match>; 4], Fail> {
    let (prepared, span) = (Prepared::new(array)?, Span { start: 3, end: 18 });
    Ok([
        prepared.find_iter_in(HAYSTACK, span).next_match()?,
        prepared
            .find_iter_in(HAYSTACK, span)
            .next_counted(&mut Tally::new())?,
        prepared.find_iter_in_short(HAYSTACK, span).next_match()?,
        prepared
            .find_iter_in_short(HAYSTACK, span)
            .next_counted(&mut Tally::new())?,
    ])
}

#[test]
fn finds_one_after_another_by_an_array(rt: HostRuntime) -> Result<(), Fail> {
    let array = filled(rt.alloc())?;
    assert!(rt; iterated(&array)? == [second(); 4]);
    Ok(())
}

/// The checksum finds two flipped top bits, which a product alone would let cancel. Zeros after a
/// version are refused by `Prepared::new` already.
#[test]
fn damaged_arrays_are_not_whole(rt: HostRuntime) -> Result<(), Fail> {
    let mut array = filled(rt.alloc())?;
    let version = array.first().copied();
    for number in array.iter_mut().skip(6).step_by(2).take(2) {
        *number ^= 1 << 31;
    }
    assert!(rt; !Prepared::new(&array)?.is_whole());
    array.fill(0);
    if let (Some(first), Some(version)) = (array.first_mut(), version) {
        *first = version;
    }
    assert!(rt; Prepared::new(&array).is_err());
    Ok(())
}

/// The array that an `Overlapping` fills, with as many entries as it takes.
fn filled_by_overlapping(alloc: Global) -> Result<Vec<u32>, Fail> {
    let search = Overlapping::new(alloc, true, WORDS)?;
    let mut array = vec![in alloc; 0; search.prepared_len()]?;
    search.prepare(&mut array)?;
    Ok(array)
}

/// Its first occurrence in the haystack after the first one.
fn found_by_overlapping(array: &[u32]) -> Result<Option<Match>, Fail> {
    let prepared = PreparedOverlapping::new(array)?;
    let mut matches = prepared.find_overlapping_in(HAYSTACK, Span { start: 3, end: 18 });
    Ok(matches.next_counted(&mut Tally::new())?)
}

/// Its earliest end in the same part, by both calls.
fn earliest_ends(array: &[u32]) -> Result<[Option<usize>; 2], Fail> {
    let (span, tally) = (Span { start: 3, end: 18 }, &mut Tally::new());
    let prepared = PreparedOverlapping::new(array)?;
    Ok([
        prepared.earliest_end(HAYSTACK, span)?,
        prepared.earliest_end_counted(HAYSTACK, span, tally)?,
    ])
}

#[test]
fn counts_by_an_array_for_all(rt: HostRuntime) -> Result<(), Fail> {
    let array = filled_by_overlapping(rt.alloc())?;
    assert!(rt; found_by_overlapping(&array)? == second());
    assert!(rt; earliest_ends(&array)? == [Some(18); 2]);
    Ok(())
}
