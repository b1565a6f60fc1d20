//! Patterns and haystacks chosen to mislead a search, with each distance that a table may have.
//! `literal_prefilters::laws` has their counts.
ghost use Rattle.std.specs.Prelude.{◌≤◌};

use crate::asserted::assert_same;
use crate::made::{Place, confirming_search, covered, place, prefilter, proposed};
use literal_prefilters::Span;
use literal_prefilters::count::Tally;
use literal_prefilters::packed::MatchKind::LeftmostFirst;
use literal_prefilters::prefilter::Prefilter;
use literal_promise::covered::confirm_covered;
use std::alloc::Global;
use std::process::Abort;
use std::test::Fail;

/// The prefilter of some patterns, for the match kind that prefers the first in the list.
fn prefilter_of(alloc: Global, patterns: &[&[u8]]) -> Result<Prefilter, Fail> {
    let kind = literal_prefilters::MatchKind::LeftmostFirst;
    prefilter(alloc, kind, false, patterns)
}

/// The answer of confirming by a prefilter of any kind in a haystack, with case kept.
fn confirmed(alloc: Global, patterns: &[&[u8]], haystack: &[u8]) -> Result<Option<Place>, Fail> {
    let (start, end, tally) = (0, haystack.len(), &mut Tally::new());
    let covered = covered(alloc, LeftmostFirst, false, patterns)?;
    let found = confirm_covered(&covered, false, haystack, Span { start, end }, tally);
    Ok(found.map(place))
}

/// Both confirming searches find this in a haystack, with case kept.
pub fn assert_confirms(
    rt: &impl Abort,
    alloc: Global,
    patterns: &[&[u8]],
    haystack: &[u8],
    wanted: Option<Place>,
    case: &str,
) -> Result<(), Fail> {
    let (start, end) = (0, haystack.len());
    let search = confirming_search(alloc, LeftmostFirst, false, patterns)?;
    let found = search.find_in(haystack, Span { start, end });
    assert_same(rt, found.map(place), wanted, case);
    let found = confirmed(alloc, patterns, haystack)?;
    assert_same(rt, found, wanted, format_args!("{case}, by confirm"));
    Ok(())
}

/// Ten `z`, then a pattern that ends with `Q` at this distance from its first byte.
fn ends_with_q(distance: usize) -> [u8; 265]
    requires { distance ≤ 254 }
{
    let mut bytes = [b'e'; 265];
    bytes[..10].fill(b'z');
    bytes[10] = 0xC0;
    bytes[10 + distance] = b'Q';
    bytes
}

/// The prefilter goes back from `Q` to the first byte of the pattern.
fn assert_goes_back(rt: &impl Abort, alloc: Global, distance: usize, case: &str) -> Result<(), Fail>
    requires { distance ≤ 254 }
{
    let (bytes, start, end) = (ends_with_q(distance), 0, 11 + distance);
    let haystack = &bytes[..end];
    let patterns = [&haystack[10..], b"\xC0Q".as_slice()];
    let candidate = prefilter_of(alloc, &patterns)?.find_in(haystack, Span { start, end });
    assert_same(rt, proposed(candidate), Ok(Some(10)), case);
    let found = Some((0, 10, end));
    assert_confirms(rt, alloc, &patterns, haystack, found, case)
}

#[test]
fn goes_back_by_each_distance(rt: HostRuntime) -> Result<(), Fail> {
    for distance in 1..255 {
        let case = format!(in rt.alloc(); "a distance of {distance}")?;
        assert_goes_back(&rt, rt.alloc(), distance, case.as_str())?;
    }
    Ok(())
}
