//! Skips many lines without a match at once: those before the first match in the buffered bytes.
ghost use Rattle.std.specs.Prelude.{◌≡◌, ◌⊎◌, ◌≢◌, ◌+◌, ◌-◌, ◌<◌, ◌≤◌, ◌==◌, ◌^◌, None, ℕ, MatchOption, ⊤, true};
ghost use Rattle.std.specs.Prelude.{drop, length, slice_index, take};
ghost use Rattle.std.specs.List.{count_by};
ghost use Rattle.litscan.specs.Inside.Passed.{EndsLine, IsAhead, LiesInLine};
ghost use Rattle.litscan.specs.Lines.{lines_of};

use crate::options::Options;
use literal_search::{Match, Search};
use std::simd::prelude::*;

/// The number of lanes of a vector.
const LANES: usize = 16;

/// The ends of lines are counted in parts of this many bytes, so that each count fits into a byte: whole vectors of 16
/// or 32 bytes.
const PART: usize = 224;

/// Words longer than this are long.
const SHORT: usize = 32;

/// After this many lines in a row, with the last one, without another match, a scan for long words looks at all
/// buffered lines.
const LONG: usize = 3;

/// The same with `-x` and several words: a look at the lengths of lines takes less time than one for frequent words.
const LONG_WHOLE: usize = 16;

/// Skipped lines without a match, and possibly the next line.
#[derive(Clone, Copy)]
pub struct Passed {
    /// The number of skipped lines.
    pub lines: usize,
    /// Their length in bytes, with their ends.
    pub bytes: usize,
    /// The length of the next line, without its end, if it has a match and is buffered as a whole.
    pub next: Option<usize>,
}

impl Passed {
    /// No line is skipped.
    pub fn none() -> Passed
        ensures { result ≡ record { lines = 0; bytes = 0; next = None } }
    {
        Passed {
            lines: 0,
            bytes: 0,
            next: None,
        }
    }
}

/// How many lines lie between those with a match, the last time and now. Where words are long, a look at many lines for
/// a match in the next one costs much more than a look at that line.
#[derive(Clone, Copy)]
pub struct Gap {
    now: usize,
    before: usize,
    /// From how many lines on it is long.
    long: usize,
}

impl Gap {
    /// The gap at the start of a text. It is long, so the scan begins by looking far.
    pub fn new(options: Options, search: &Search) -> Gap {
        let long = if options.whole && search.patterns_len() > 1 {
            LONG_WHOLE
        } else if search.max_pattern_len() > SHORT {
            LONG
        } else {
            0
        };
        Gap {
            now: long,
            before: 0,
            long,
        }
    }

    /// The gap after so many lines more, of which the last one has a match or not.
    pub fn with(self, lines: usize, found: bool) -> Gap {
        let now = self.now.saturating_add(lines);
        if found {
            return Gap {
                now: 0,
                before: now,
                ..self
            };
        }
        Gap { now, ..self }
    }

    /// Whether looking at all buffered lines is likely to be faster than looking at the next one.
    pub fn is_long(self) -> bool {
        self.now.max(self.before) >= self.long
    }
}

/// The lines before the first match in buffered bytes, and the line of that match if it is there as a whole. It looks
/// at all the bytes (`far`), or only at the first line, or with `-x` at the lengths of lines.
pub fn look_ahead(options: Options, search: &Search, far: bool, bytes: &[u8]) -> Passed
    ensures { IsAhead options.line_end search.now options bytes.now result }
{
    if far {
        return look_over(options, search, bytes);
    }
    if options.whole {
        return look_for_len(options, search, bytes);
    }
    let end = bytes.len().min(first_end(options.line_end, bytes, 0) + 1);
    look_over(options, search, &bytes[..end])
}

/// With `-x`: the lines before the first one that is as long as a word may be, and that line.
fn look_for_len(options: Options, search: &Search, bytes: &[u8]) -> Passed
    requires { options.whole ≡ true }
    ensures { IsAhead options.line_end search.now options bytes.now result }
{
    let most = search.max_pattern_len();
    let (mut lines, mut at) = (0, 0);
    while at < bytes.len() {
        let end = first_end(options.line_end, bytes, at);
        if end == bytes.len() {
            break;
        }
        // (with `--crlf` a carriage return may follow the word)
        if (end - at).saturating_sub(1) <= most {
            return Passed {
                lines,
                bytes: at,
                next: Some(end - at),
            };
        }
        lines += 1;
        at = end + 1;
    }
    Passed {
        lines,
        bytes: at,
        next: None,
    }
}

/// The same at all the bytes.
fn look_over(options: Options, search: &Search, bytes: &[u8]) -> Passed
    ensures { IsAhead options.line_end search.now options bytes.now result }
{
    let line_end = options.line_end;
    let Some(found) = search.find(bytes) else {
        let end = end_of_lines(line_end, bytes, bytes.len());
        return Passed {
            lines: count_ends(line_end, &bytes[..end]),
            bytes: end,
            next: None,
        };
    };
    let start = end_of_lines(line_end, bytes, found.start());
    Passed {
        lines: count_ends(line_end, &bytes[..start]),
        bytes: start,
        next: length_from(line_end, bytes, start, found),
    }
}

/// The length of the line of a match, which begins at `start`. None if the line's end is missing, or comes before the
/// match's end.
fn length_from(line_end: u8, bytes: &[u8], start: usize, found: Match) -> Option<usize>
    requires before { start ≤ found.start }
    requires inside { found.end ≤ length bytes.now }
    requires line { (k : ℕ) → start ≤ k → k < found.start → slice_index bytes.now k ≢ line_end }
    ensures { MatchOption result ⊤ (LiesInLine line_end bytes.now start found) }
{
    let end = first_end(line_end, bytes, found.start());
    if end < found.end() || end == bytes.len() {
        return None;
    }
    Some(end - start)
}

/// The index of the first end of a line at or after `from`, or else the length of the bytes.
pub fn first_end(line_end: u8, bytes: &[u8], from: usize) -> usize
    requires { from ≤ length bytes.now }
    ensures inside { (from ≤ result) × (result ≤ length bytes.now) }
    ensures none { (k : ℕ) → from ≤ k → k < result → slice_index bytes.now k ≢ line_end }
    ensures feed { result < length bytes.now → slice_index bytes.now result ≡ line_end }
{
    let mut at = from;
    while bytes.len() - at >= LANES {
        let passed = before_end(line_end, bytes, at);
        if passed < LANES {
            return at + passed;
        }
        at += LANES;
    }
    first_of_few(line_end, bytes, at)
}

/// The same, byte by byte.
fn first_of_few(line_end: u8, bytes: &[u8], from: usize) -> usize
    requires { from ≤ length bytes.now }
    ensures inside { (from ≤ result) × (result ≤ length bytes.now) }
    ensures none { (k : ℕ) → from ≤ k → k < result → slice_index bytes.now k ≢ line_end }
    ensures feed { result < length bytes.now → slice_index bytes.now result ≡ line_end }
{
    for at in from..bytes.len() {
        if bytes[at] == line_end {
            return at;
        }
    }
    bytes.len()
}

/// The index after the last end of a line before `place`, or 0 if there is none.
fn end_of_lines(line_end: u8, bytes: &[u8], place: usize) -> usize
    requires { place ≤ length bytes.now }
    ensures before { result ≤ place }
    ensures feed { (result ≡ 0) ⊎ ((0 < result) × (slice_index bytes.now (result - 1) ≡ line_end)) }
    ensures last { (k : ℕ) → result ≤ k → k < place → slice_index bytes.now k ≢ line_end }
{
    let mut end = place;
    while end >= LANES && before_end(line_end, bytes, end - LANES) == LANES {
        end -= LANES;
    }
    last_of_few(line_end, bytes, end)
}

/// The same, byte by byte.
fn last_of_few(line_end: u8, bytes: &[u8], place: usize) -> usize
    requires { place ≤ length bytes.now }
    ensures before { result ≤ place }
    ensures feed { (result ≡ 0) ⊎ ((0 < result) × (slice_index bytes.now (result - 1) ≡ line_end)) }
    ensures last { (k : ℕ) → result ≤ k → k < place → slice_index bytes.now k ≢ line_end }
{
    for end in (0..place).rev() {
        if bytes[end] == line_end {
            return end + 1;
        }
    }
    0
}

/// The index at which the last `count` lines begin. The bytes are whole lines, at least `count` of them.
pub fn start_of_last(line_end: u8, count: usize, bytes: &[u8]) -> usize
    requires whole { EndsLine line_end bytes.now }
    requires enough { count ≤ length (lines_of line_end bytes.now) }
    ensures inside { result ≤ length bytes.now }
    ensures front { EndsLine line_end (take result bytes.now) }
    ensures last { EndsLine line_end (drop result bytes.now) }
    ensures count { length (lines_of line_end (drop result bytes.now)) ≡ count }
{
    let mut start = bytes.len();
    for _ in 0..count {
        start = end_of_lines(line_end, bytes, start - 1);
    }
    start
}

/// How many of 16 bytes come before the first that ends a line.
#[inline(always)]
fn before_end(line_end: u8, bytes: &[u8], at: usize) -> usize
    requires { at + 16 ≤ length bytes.now }
    ensures few { result ≤ 16 }
    ensures none { (k : ℕ) → k < result → slice_index bytes.now (at + k) ≢ line_end }
    ensures feed { result < 16 → slice_index bytes.now (at + result) ≡ line_end }
{
    let lanes = u8x16::from_slice(&bytes[at..]);
    let ends = lanes.simd_eq(u8x16::splat(line_end)).to_bitmask();
    if ends == 0 {
        LANES
    } else {
        ends.trailing_zeros() as usize
    }
}

/// The number of ends of lines.
fn count_ends(line_end: u8, bytes: &[u8]) -> usize
    ensures { result ≡ count_by (λ byte. byte == line_end) bytes.now }
{
    let (mut count, mut at) = (0, 0);
    while at < bytes.len() {
        let end = bytes.len().min(at + PART);
        count += count_few(line_end, &bytes[at..end]) as usize;
        at = end;
    }
    count
}

/// The same for at most 255 bytes, so that the count fits into a byte. The compiler can then count in byte lanes.
fn count_few(line_end: u8, bytes: &[u8]) -> u8
    requires { length bytes.now ≤ 255 }
    ensures { result ≡ count_by (λ byte. byte == line_end) bytes.now }
{
    let mut count = 0;
    for byte in bytes {
        count += (*byte == line_end) as u8;
    }
    count
}
