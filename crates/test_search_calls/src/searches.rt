//! `Search` and `Overlapping`.
ghost use Rattle.std.specs.Prelude.{◌≡◌};
ghost use Rattle.literal_base.specs.declared.packed.MatchKind.TheVariants.{LeftmostLongest};

use crate::made::{first_of, longest_of};
use literal_base::count::Tally;
use literal_search::{
    BuildError, Match, MatchKind, Overlapping, PatternID, PreparedOverlapping, Search, Span,
};
use std::alloc::{AllocError, Global};
use std::fmt::Debug;
use std::process::Abort;
use std::test::Fail;

/// The debug output of a value is this.
fn assert_prints_as<T: Debug>(
    rt: &impl Abort,
    alloc: Global,
    it: &T,
    wanted: &str,
) -> Result<(), AllocError> {
    let printed = format!(in alloc; "{it:?}")?;
    assert!(rt; printed.as_str() == wanted);
    Ok(())
}

#[test]
fn example_of_a_search(rt: HostRuntime) -> Result<(), Fail> {
    let alloc = rt.alloc();
    let words = [b"password".as_slice(), b"secret"];
    let search = Search::new(alloc, MatchKind::LeftmostFirst, true, words)?;
    let found = search.find(b"My Secret.").ok_or("nothing is found")?;
    assert!(rt; found.pattern().as_usize() == 1 && found.range() == (3..9));
    Ok(())
}

/// The second of two words twice, each time in another case.
const HAYSTACK: &[u8] = b"A SECRET, a Secret";

/// The first matches in the haystack, by the calls that count.
fn counted(search: &Search) -> [Option<Match>; 3] {
    let (whole, tally) = (Span { start: 0, end: 18 }, &mut Tally::new());
    [
        search.find_in_counted(HAYSTACK, whole, tally),
        search.find_iter_in(HAYSTACK, whole).next_counted(tally),
        search.starts_in(HAYSTACK, whole).next_counted(tally),
    ]
}

/// The match at an offset, by both calls.
fn at_place(search: &Search, at: usize) -> [Option<Match>; 2] {
    if at > HAYSTACK.len() {
        return [None; 2];
    }
    let tally = &mut Tally::new();
    [
        search.match_at(HAYSTACK, at),
        search.match_at_counted(HAYSTACK, at, tally),
    ]
}

#[test]
fn counts_what_it_looks_up(rt: HostRuntime) -> Result<(), Fail> {
    let search = first_of(rt.alloc(), &[b"password", b"secret"])?;
    let first = Some(Match::must(1, Span { start: 2, end: 8 }));
    assert!(rt; counted(&search) == [first; 3]);
    assert!(rt; at_place(&search, 2) == [first; 2] && at_place(&search, 3) == [None; 2]);
    Ok(())
}

/// The end of the match that begins at the second byte of a text and ends before an offset.
fn end_before(search: &Search, end: usize) -> Option<usize> {
    let text = b"xfoo12";
    if end < 1 || end > text.len() {
        return None;
    }
    let found = search.match_in(text, Span { start: 1, end })?;
    Some(found.end())
}

#[test]
fn shorter_matches_of_one_place_are_found_in_spans(rt: HostRuntime) -> Result<(), Fail> {
    let search = longest_of(rt.alloc(), &[b"foo", b"foo12", b"fo", b"oo"])?;
    assert!(rt; end_before(&search, 6) == Some(6) && end_before(&search, 5) == Some(4));
    assert!(rt; end_before(&search, 3) == Some(3) && end_before(&search, 2).is_none());
    Ok(())
}

/// The first pattern in the list, from each of four numbers on, that occurs at the second byte of a text.
fn in_list(search: &Search) -> [Option<Match>; 4]
    requires { search.now.query.kind ≡ LeftmostLongest }
{
    let span = Span { start: 1, end: 6 };
    [
        search.next_in_list(b"xfoo12", span, 0),
        search.next_in_list(b"xfoo12", span, 1),
        search.next_in_list(b"xfoo12", span, 2),
        search.next_in_list(b"xfoo12", span, 3),
    ]
}

#[test]
fn patterns_of_one_place_are_found_in_the_order_of_the_list(rt: HostRuntime) -> Result<(), Fail> {
    let search = longest_of(rt.alloc(), &[b"foo", b"foo12", b"fo", b"foo"])?;
    let foo = Some(Match::must(0, Span { start: 1, end: 4 }));
    let foo12 = Some(Match::must(1, Span { start: 1, end: 6 }));
    let fo = Some(Match::must(2, Span { start: 1, end: 3 }));
    assert!(rt; in_list(&search) == [foo, foo12, fo, None]);
    Ok(())
}

#[test]
fn tells_what_it_was_built_of(rt: HostRuntime) -> Result<(), Fail> {
    let search = first_of(rt.alloc(), &[b"Abc", b"b", b"cd"])?;
    assert!(rt; search.min_pattern_len() == 1 && search.max_pattern_len() == 3);
    assert!(rt; search.pattern(PatternID::must(0)) == Some(b"Abc".as_slice()));
    assert!(rt; search.pattern(PatternID::must(2)) == Some(b"cd".as_slice()));
    assert!(rt; search.pattern(PatternID::must(3)).is_none());
    let mut patterns = search.patterns();
    assert!(rt; patterns.next() == Some(b"Abc".as_slice()) && patterns.count() == 2);
    let none = first_of(rt.alloc(), &[])?;
    assert!(rt; none.min_pattern_len() == 0 && none.pattern(PatternID::must(0)).is_none());
    Ok(())
}

/// It has 7 numbers in the header, two for the pattern, 12 in the rows, 256 for classes, and 40 for the scan for
/// candidates.
#[test]
fn tells_how_many_bytes_it_takes(rt: HostRuntime) -> Result<(), Fail> {
    let search = longest_of(rt.alloc(), &[b"ab"])?;
    assert!(rt; search.memory_usage() == 4 * 317 + 2);
    let wanted = "Search { kind: LeftmostLongest, ignore_case: false, patterns: 1 }";
    assert_prints_as(&rt, rt.alloc(), &search, wanted)?;
    Ok(())
}

/// With the first in the list preferred, `abc` never matches, since `ab` comes before it: this saves three states.
#[test]
fn what_never_matches_takes_no_states(rt: HostRuntime) -> Result<(), Fail> {
    let words = [b"ab".as_slice(), b"abc", b"x"];
    let search = first_of(rt.alloc(), &words)?;
    assert!(rt; search.memory_usage() == 4 * (7 + 2 * 3 + 4 * 6 + 256 + 40) + 6);
    assert!(rt;
        search
            .find(b"abc")
            .is_some_and(|found| found.pattern().as_usize() == 0)
    );
    assert!(rt;
        search
            .find(b"bcx")
            .is_some_and(|found| found.pattern().as_usize() == 2)
    );
    let search = longest_of(rt.alloc(), &words)?;
    assert!(rt; search.memory_usage() == 4 * (7 + 2 * 3 + 7 * 6 + 256 + 40) + 6);
    assert!(rt;
        search
            .find(b"abc")
            .is_some_and(|found| found.pattern().as_usize() == 1)
    );
    Ok(())
}

/// It has 7 numbers in the header, one for the pattern, 12 in the rows, 256 for classes, two for the start and the end
/// of its list, one in this list, and 40 for the scan for candidates.
#[test]
fn overlapping_tells_how_many_bytes_it_takes(rt: HostRuntime) -> Result<(), Fail> {
    let search = Overlapping::new(rt.alloc(), false, [b"ab".as_slice()])?;
    assert!(rt; search.memory_usage() == 4 * 319 + 2);
    let wanted = "Overlapping { ignore_case: false, patterns: 1 }";
    assert_prints_as(&rt, rt.alloc(), &search, wanted)?;
    Ok(())
}

/// The first occurrence in a part of the haystack, by the iteration that counts.
fn counted_of_all(all: &Overlapping) -> Option<Match> {
    let mut overlapping = all.find_overlapping_in(HAYSTACK, Span { start: 3, end: 18 });
    overlapping.next_counted(&mut Tally::new())
}

/// The earliest end in a part of the haystack, by both calls.
fn earliest_ends(all: &Overlapping) -> [Option<usize>; 2] {
    let (span, tally) = (Span { start: 3, end: 18 }, &mut Tally::new());
    [
        all.earliest_end(HAYSTACK, span),
        all.earliest_end_counted(HAYSTACK, span, tally),
    ]
}

#[test]
fn overlapping_counts_what_it_looks_up(rt: HostRuntime) -> Result<(), Fail> {
    let words = [b"password".as_slice(), b"secret"];
    let all = Overlapping::new(rt.alloc(), true, words)?;
    let second = Some(Match::must(1, Span { start: 12, end: 18 }));
    assert!(rt; counted_of_all(&all) == second);
    assert!(rt; earliest_ends(&all) == [Some(18); 2]);
    Ok(())
}

/// A text with so many bytes between two copies of "abcab".
fn spread_text(alloc: Global, gap: usize) -> Result<Vec<u8>, AllocError> {
    let mut text = Vec::new(alloc);
    for _ in 0..200 {
        text.extend_from_slice(b"abcab")?;
        text.resize(text.len().saturating_add(gap), b'-')?;
    }
    Ok(text)
}

/// How often the words occur in such a text after its first byte: by the iteration, and by each call that counts.
fn counts_of(alloc: Global, words: &[&[u8]], gap: usize) -> Result<[u128; 5], Fail> {
    let text = spread_text(alloc, gap)?;
    let search = Overlapping::new(alloc, false, words.iter().copied())?;
    let mut array = vec![in alloc; 0; search.prepared_len()]?;
    search.prepare(&mut array)?;
    let lent = PreparedOverlapping::new(&array)?;
    let end = text.len();
    let (span, tally) = (
        Span {
            start: end.min(1),
            end,
        },
        &mut Tally::new(),
    );
    let mut listed: u128 = 0;
    for _ in search.find_overlapping_in(&text, span) {
        listed = listed.saturating_add(1);
    }
    Ok([
        listed,
        search.count_overlapping_in(&text, span),
        search.count_overlapping_counted(&text, span, tally),
        lent.count_overlapping_in(&text, span)?,
        lent.count_overlapping_counted(&text, span, tally)?,
    ])
}

/// Where occurrences are frequent, four walks count them; with a scan for candidates, and without.
#[test]
fn counts_every_occurrence(rt: HostRuntime) -> Result<(), Fail> {
    for gap in [0, 30, 300] {
        let counts = counts_of(rt.alloc(), &[b"cab", b"ab", b"abcab"], gap)?;
        assert!(rt; counts == [counts[0]; 5] && counts[0] > 700);
        let counts = counts_of(rt.alloc(), &[b"a", b"b", b"c", b"ab"], gap)?;
        assert!(rt; counts == [counts[0]; 5] && counts[0] > 1300);
    }
    Ok(())
}

#[test]
fn example_of_counting_every_occurrence(rt: HostRuntime) -> Result<(), Fail> {
    let alloc = rt.alloc();
    let search = Overlapping::new(alloc, false, [b"append".as_slice(), b"app", b"end"])?;
    assert!(rt; search.count_overlapping_in(b"append", Span { start: 0, end: 6 }) == 3);
    Ok(())
}

#[test]
fn overlapping_tells_what_it_was_built_of(rt: HostRuntime) -> Result<(), Fail> {
    let all = Overlapping::new(rt.alloc(), true, [b"Abc".as_slice(), b"b"])?;
    assert!(rt; all.max_pattern_len() == 3 && all.ignores_case());
    assert!(rt; all.pattern(PatternID::must(0)) == Some(b"Abc".as_slice()));
    assert!(rt; all.pattern(PatternID::must(2)).is_none());
    assert!(rt; all.patterns().next() == Some(b"Abc".as_slice()) && all.patterns().count() == 2);
    assert!(rt; all.is_match(b"aBc") && !all.is_match(b"ac"));
    Ok(())
}

#[test]
fn too_large_a_table_is_refused(rt: HostRuntime) -> Result<(), Fail> {
    let mut long = Vec::new(rt.alloc());
    for place in 0..1usize << 23 {
        long.push((place % 256) as u8)?;
    }
    let words = [long.as_slice()];
    let refused = Search::new(rt.alloc(), MatchKind::LeftmostFirst, false, words);
    assert!(rt; refused.err() == Some(BuildError::TooManyStates));
    Ok(())
}

#[test]
fn example_of_overlapping(rt: HostRuntime) -> Result<(), Fail> {
    let alloc = rt.alloc();
    let search = Overlapping::new(alloc, false, [b"append".as_slice(), b"app", b"end"])?;
    let mut matches = search.find_overlapping_iter(b"append");
    let first = matches.next().ok_or("nothing is found")?;
    assert!(rt; first.pattern().as_usize() == 1 && first.range() == (0..3));
    Ok(())
}
