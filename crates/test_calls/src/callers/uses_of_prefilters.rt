//! Callers of prefilters, each run once.
ghost use Rattle.std.specs.Prelude.{◌≤◌};

use literal_prefilters::count::Tally;
use literal_prefilters::prefilter::Builder;
use literal_prefilters::{MatchKind, Span};
use std::process::Abort;
use std::test::Fail;
use test_contracts::uses_of_prefilters::{candidate_of, search_from};

/// The offset from which the rest of a haystack of two words is searched, by a builder's prefilter.
fn assert_begins(
    rt: &impl Abort,
    builder: &Builder,
    start: usize,
    wanted: Option<usize>,
) -> Result<(), Fail>
    requires { start ≤ 12 }
{
    let (haystack, span) = (b"I am lockjaw", Span { start, end: 12 });
    let pre = builder.build()?.ok_or("there is no prefilter")?;
    assert!(rt; search_from(&pre, haystack, span, &mut Tally::new()) == wanted);
    let candidate = candidate_of(builder, haystack, span)?;
    assert!(rt; candidate.is_some_and(|it| it.into_option() == wanted));
    Ok(())
}

#[test]
fn searches_from_the_first_candidate(rt: HostRuntime) -> Result<(), Fail> {
    let mut builder = Builder::new(rt.alloc(), MatchKind::LeftmostLongest);
    builder.add(b"Sherlock")?;
    builder.add(b"lockjaw")?;
    assert_begins(&rt, &builder, 0, Some(1))?;
    assert_begins(&rt, &builder, 3, Some(3))?;
    assert_begins(&rt, &builder, 9, None)
}
