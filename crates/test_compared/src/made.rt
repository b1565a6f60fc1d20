//! Helpers of several test modules, and their form of matches.
ghost use Rattle.std.specs.Prelude.{IfOk};
ghost use Rattle.literal_promise.specs.Together.{IsCovered};

use literal_prefilters::Match;
use literal_prefilters::packed::{Builder, Config, MatchKind, Searcher};
use literal_prefilters::prefilter::{self, Candidate, ConfirmingSearch, Prefilter};
use literal_promise::SearchRequest;
use literal_promise::covered::{Covered, covered_patterns};
use std::alloc::{AllocError, Global};
use std::test::Fail;

/// The number of a pattern, and the offsets of its first byte and after its last byte.
pub type Place = (usize, usize, usize);

pub fn place(found: Match) -> Place {
    (found.pattern().as_usize(), found.start(), found.end())
}

/// The answer of a prefilter: a match, or an offset at which one may begin.
#[derive(Clone, Copy, Debug, PartialEq, Drop)]
pub enum Answer {
    Nothing,
    Start(usize),
    Found(Place),
}

pub fn answer_of(candidate: Candidate) -> Answer {
    match candidate {
        Candidate::None => Answer::Nothing,
        Candidate::Match(found) => Answer::Found(place(found)),
        Candidate::PossibleStartOfMatch(start) => Answer::Start(start),
    }
}

/// Adds patterns one after another.
fn add_all(builder: &mut Builder, patterns: &[&[u8]]) -> Result<(), AllocError> {
    for pattern in patterns {
        builder.add(pattern)?;
    }
    Ok(())
}

pub fn searcher(alloc: Global, kind: MatchKind, patterns: &[&[u8]]) -> Result<Searcher, Fail> {
    let mut builder = Config::new().match_kind(kind).builder(alloc);
    add_all(&mut builder, patterns)?;
    Ok(builder.build()?.ok_or("nothing is built")?)
}

/// A prefilter builder with some patterns.
fn prefilter_builder(
    alloc: Global,
    kind: literal_prefilters::MatchKind,
    ignore_case: bool,
    patterns: &[&[u8]],
) -> Result<prefilter::Builder, AllocError> {
    let mut builder = prefilter::Builder::new(alloc, kind).ascii_case_insensitive(ignore_case);
    for bytes in patterns {
        builder.add(bytes)?;
    }
    Ok(builder)
}

/// The prefilter of some patterns. There has to be one.
pub fn prefilter(
    alloc: Global,
    kind: literal_prefilters::MatchKind,
    ignore_case: bool,
    patterns: &[&[u8]],
) -> Result<Prefilter, Fail> {
    let builder = prefilter_builder(alloc, kind, ignore_case, patterns)?;
    Ok(builder.build()?.ok_or("there is no prefilter")?)
}

/// A confirming search. There has to be one.
pub fn confirming_search(
    alloc: Global,
    kind: MatchKind,
    ignore_case: bool,
    patterns: &[&[u8]],
) -> Result<ConfirmingSearch, Fail> {
    let built = ConfirmingSearch::build(alloc, kind, ignore_case, patterns.iter().copied())?;
    Ok(built.ok_or("there is no prefilter")?)
}

/// Patterns and a prefilter that covers them. There has to be one.
pub fn covered(
    alloc: Global,
    kind: MatchKind,
    ignore_case: bool,
    patterns: &[&[u8]],
) -> Result<Covered, Fail>
    ensures { IfOk result (λ covered. IsCovered ignore_case covered.patterns covered.prefilter) }
{
    let built_for = match kind {
        MatchKind::LeftmostFirst => literal_prefilters::MatchKind::LeftmostFirst,
        MatchKind::LeftmostLongest => literal_prefilters::MatchKind::LeftmostLongest,
    };
    let asked = SearchRequest {
        kind,
        pattern_limit: patterns.len(),
        built_for,
        ignore_case,
        patterns,
    };
    let covered = covered_patterns(alloc, &asked)?;
    Ok(covered.ok_or("there is no prefilter")?)
}

/// The offset that a prefilter by a table proposes.
pub fn proposed(candidate: Candidate) -> Result<Option<usize>, &'static str> {
    match candidate {
        Candidate::None => Ok(None),
        Candidate::PossibleStartOfMatch(start) => Ok(Some(start)),
        Candidate::Match(_) => Err("a table of bytes confirms no match"),
    }
}

/// Spans of a haystack of five bytes.
pub const SPANS: [(usize, usize); 5] = [(0, 5), (1, 5), (0, 4), (2, 4), (3, 3)];

/// A haystack of five bytes, with the digits of a number below 3125.
pub fn bytes_of(number: usize) -> [u8; 5] {
    let digits = b"abcKQ";
    [
        digits[number % 5],
        digits[number / 5 % 5],
        digits[number / 25 % 5],
        digits[number / 125 % 5],
        digits[number / 625 % 5],
    ]
}
