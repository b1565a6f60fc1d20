//! How often `confirm` asks its prefilter.
ghost use Rattle.literal_base.specs.Occurs.{IsValidSpan};
ghost use Rattle.literal_promise.specs.Together.{IsCovered};

use crate::asserted::{assert_holds, assert_same};
use crate::made::covered;
use literal_prefilters::Span;
use literal_prefilters::count::Tally;
use literal_prefilters::packed::MatchKind;
use literal_prefilters::prefilter::{Candidate, Prefilter, PrefilterI, confirm};
use literal_promise::covered::Covered;
use std::cell::Cell;
use std::test::Fail;

/// A prefilter that counts its calls.
#[derive(Drop)]
struct AskCounter {
    prefilter: Prefilter,
    times: Cell<u32>,
}

impl PrefilterI for AskCounter {
    ghost use Rattle.literal_prefilters.specs.PrefilterValue.{CoveredBy, IsCountedAnswer, prefilter_reach};

    ghost covers = { λ asked. CoveredBy asked.prefilter };

    ghost reach = { λ asked. prefilter_reach asked.prefilter };

    ghost answers = { λ asked. IsCountedAnswer asked.prefilter };

    fn find_in(&self, haystack: &[u8], span: Span, tally: &mut Tally) -> Candidate {
        self.times.set(self.times.get().saturating_add(1));
        self.prefilter.find_in_counted(haystack, span, tally)
    }
}

/// How often confirming in a span asks the prefilter.
fn times_asked(covered: Covered, ignore_case: bool, haystack: &[u8], span: Span) -> u32
    requires covered { IsCovered ignore_case covered.patterns covered.prefilter }
    requires valid { IsValidSpan haystack.now span }
{
    let Covered {
        patterns,
        prefilter,
    } = covered;
    let asked = AskCounter {
        prefilter,
        times: Cell::new(0),
    };
    let _found = confirm(
        &asked,
        &patterns,
        ignore_case,
        haystack,
        span,
        &mut Tally::new(),
    );
    asked.times.get()
}

/// The description of a case, and how often the prefilter is asked in a haystack up to an end.
struct AskedRow {
    shows: &'static str,
    patterns: &'static [&'static [u8]],
    haystack: &'static [u8],
    end: usize,
    times: u32,
}

static ASKED: [AskedRow; 3] = [
    AskedRow {
        shows: "a start table",
        patterns: &[b"foo", b"bar"],
        haystack: b"xxbafoo",
        end: 7,
        times: 2,
    },
    AskedRow {
        shows: "a rare table",
        patterns: &[b"Sherlock", b"lockjaw"],
        haystack: b"Shlockjaw",
        end: 9,
        times: 3,
    },
    AskedRow {
        shows: "a rare table and no match",
        patterns: &[b"Sherlock", b"lockjaw"],
        haystack: b"Shlockjaw",
        end: 8,
        times: 7,
    },
];

#[test]
fn asks_from_place_to_place(rt: HostRuntime) -> Result<(), Fail> {
    for row in &ASKED {
        let covered = covered(rt.alloc(), MatchKind::LeftmostFirst, false, row.patterns)?;
        assert_holds(&rt, row.end <= row.haystack.len(), row.shows);
        let span = Span {
            start: 0,
            end: row.end,
        };
        let times = times_asked(covered, false, row.haystack, span);
        assert_same(&rt, times, row.times, row.shows);
    }
    Ok(())
}
