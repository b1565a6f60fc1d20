//! Finds the occurrences of words in a line that `-w` and `-x` allow; with neither, all are allowed.
ghost use Rattle.std.specs.Prelude.{◌≡◌, ◌≤◌, ◌<◌, ℕ, false, length, true, IfSome, MatchOption};
ghost use Rattle.literal_base.specs.Leftmost.{IsLeftmostMatch};
ghost use Rattle.literal_base.specs.Occurs.{IsValidSpan, between, rest_from};
ghost use Rattle.literal_base.specs.declared.packed.MatchKind.TheVariants.{LeftmostLongest};
ghost use Rattle.litscan.specs.Asked.{IsFirstAsked, NothingAsked, OccursAsked, is_asked, is_behind_word};
ghost use Rattle.litscan.specs.Asked.{ends_line, is_before_word, is_word_byte, one_asked, stands_alone};
ghost use Rattle.litscan.specs.Inside.Asked.{IsAlong};

use crate::options::Options;
use literal_search::{Match, Search, Span, Starts};

/// Whether a word has an allowed occurrence in a line.
pub fn has_asked(search: &Search, options: Options, line: &[u8]) -> bool
    requires { search.now.query.kind ≡ LeftmostLongest }
    ensures { result ≡ one_asked search.now options line.now }
{
    if options.whole {
        return whole_line(search, options, line, 0).is_some();
    }
    if options.alone {
        return has_alone(search, options, line);
    }
    search.is_match(line)
}

/// With `-w`: whether a word stands alone in a line. Few lines need more than one or two searches, which take less time
/// than the start of an iteration.
fn has_alone(search: &Search, options: Options, line: &[u8]) -> bool
    requires longest { search.now.query.kind ≡ LeftmostLongest }
    requires alone { (options.whole ≡ false) × (options.alone ≡ true) }
    ensures { result ≡ one_asked search.now options line.now }
{
    let (start, end) = (0, line.len());
    let mut rest = Span { start, end };
    while let Some(found) = search.find_in(line, rest) {
        if let Some(_) = longest_asked(search, options, line, found) {
            return true;
        }
        rest.start = first_start(line, found.start() + 1);
    }
    false
}

/// The first allowed match in a line at or after `from`; of those that begin at one offset, the longest. The iteration
/// gives the longest match at each offset, and continues at `from` or before.
pub fn next_asked(
    search: &Search,
    options: Options,
    line: &[u8],
    from: usize,
    starts: &mut Starts<'_, '_>,
) -> Option<Match>
    requires longest { search.now.query.kind ≡ LeftmostLongest }
    requires inside { from ≤ length line.now }
    requires along { IsAlong search.now line.now from starts.old }
    ensures first { MatchOption result (NothingAsked search.now options line.now (rest_from line.now from))
        (IsFirstAsked search.now options line.now (rest_from line.now from)) }
    ensures not_empty { IfSome result (λ found. found.start < found.end) }
    ensures along { IfSome result (λ found. IsAlong search.now line.now found.end starts.new) }
{
    if options.whole {
        return whole_line(search, options, line, from);
    }
    while let Some(found) = starts.next() {
        if found.start() < from {
            continue;
        }
        if let Some(first) = longest_asked(search, options, line, found) {
            return Some(first);
        }
    }
    None
}

/// The longest allowed match at the start of a match that is the longest there.
fn longest_asked(search: &Search, options: Options, line: &[u8], found: Match) -> Option<Match>
    requires longest { search.now.query.kind ≡ LeftmostLongest }
    requires part { options.whole ≡ false }
    requires here { IsLeftmostMatch search.now.query search.now.ignore_case line.now
        (rest_from line.now found.start) found }
    requires not_empty { found.start < found.end }
    ensures first { MatchOption result
        ((i : ℕ) → ¬ OccursAsked search.now options line.now (rest_from line.now found.start) i found.start)
        (λ it. (it.start ≡ found.start)
        × IsFirstAsked search.now options line.now (rest_from line.now found.start) it) }
    ensures not_empty { IfSome result (λ it. it.start < it.end) }
{
    if is_asked(options, line, found.span()) {
        return Some(found);
    }
    asked_at(search, options, line, found.start(), found.end() - 1)
}

/// With `-w`: the longest allowed match that begins at `start` and ends at `end` or before.
fn asked_at(
    search: &Search,
    options: Options,
    line: &[u8],
    start: usize,
    end: usize,
) -> Option<Match>
    requires longest { search.now.query.kind ≡ LeftmostLongest }
    requires alone { (options.whole ≡ false) × (options.alone ≡ true) }
    requires valid { IsValidSpan line.now (between start end) }
    ensures first { MatchOption result
        ((i : ℕ) → ¬ OccursAsked search.now options line.now (between start end) i start)
        (λ found. (found.start ≡ start) × IsFirstAsked search.now options line.now (between start end) found) }
    ensures not_empty { IfSome result (λ found. found.start < found.end) }
{
    if is_behind_word(line, start) {
        return None;
    }
    let mut rest = Span {
        start,
        end: last_end(line, start, end),
    };
    while let Some(found) = search.match_in(line, rest) {
        if is_asked(options, line, found.span()) {
            return Some(found);
        }
        rest.end = last_end(line, start, found.end() - 1);
    }
    None
}

/// The first offset at or after `from` without a word byte right before it, or else the end of the line.
fn first_start(line: &[u8], from: usize) -> usize
    requires { from ≤ length line.now }
    ensures inside { (from ≤ result) × (result ≤ length line.now) }
    ensures passed { (k : ℕ) → from ≤ k → k < result → is_behind_word line.now k ≡ true }
{
    let mut at = from;
    while at < line.len() && is_behind_word(line, at) {
        at += 1;
    }
    at
}

/// The last offset between `start` and `end` without a word byte right after it, or else `start`.
fn last_end(line: &[u8], start: usize, end: usize) -> usize
    requires { IsValidSpan line.now (between start end) }
    ensures inside { (start ≤ result) × (result ≤ end) }
    ensures passed { (k : ℕ) → result < k → k ≤ end → is_before_word line.now k ≡ true }
{
    let mut at = end;
    while start < at && is_before_word(line, at) {
        at -= 1;
    }
    at
}

/// With `-x`: the match that is the whole line, if `from` is 0 and the line is a word.
fn whole_line(search: &Search, options: Options, line: &[u8], from: usize) -> Option<Match>
    requires longest { search.now.query.kind ≡ LeftmostLongest }
    requires whole { options.whole ≡ true }
    requires inside { from ≤ length line.now }
    ensures first { MatchOption result (NothingAsked search.now options line.now (rest_from line.now from))
        (IsFirstAsked search.now options line.now (rest_from line.now from)) }
    ensures not_empty { IfSome result (λ found. found.start < found.end) }
{
    if from > 0 {
        return None;
    }
    let found = search.match_at(line, 0)?;
    if !ends_line(options, line, found.end()) {
        return None;
    }
    Some(found)
}

/// Whether an occurrence with this span is allowed.
fn is_asked(options: Options, line: &[u8], span: Span) -> bool
    requires { IsValidSpan line.now span }
    ensures { result ≡ is_asked options line.now span.start span.end }
{
    if options.whole {
        return span.start == 0 && ends_line(options, line, span.end);
    }
    !options.alone || stands_alone(line, span)
}

/// Whether a line ends at an offset; with `--crlf` also where only a carriage return follows.
fn ends_line(options: Options, line: &[u8], end: usize) -> bool
    requires { end ≤ length line.now }
    ensures { result ≡ ends_line options line.now end }
{
    end == line.len() || (options.crlf && end + 1 == line.len() && line[end] == b'\r')
}

/// Whether no word byte is right before or right after a span of a line.
fn stands_alone(line: &[u8], span: Span) -> bool
    requires { IsValidSpan line.now span }
    ensures { result ≡ stands_alone line.now span.start span.end }
{
    !is_behind_word(line, span.start) && !is_before_word(line, span.end)
}

/// Whether a word byte is right before an offset of a line.
fn is_behind_word(line: &[u8], at: usize) -> bool
    requires { at ≤ length line.now }
    ensures { result ≡ is_behind_word line.now at }
{
    at > 0 && is_word_byte(line[at - 1])
}

/// Whether a word byte is right after an offset of a line.
fn is_before_word(line: &[u8], at: usize) -> bool
    requires { at ≤ length line.now }
    ensures { result ≡ is_before_word line.now at }
{
    at < line.len() && is_word_byte(line[at])
}

/// Whether a byte is a word byte: an ASCII letter, a digit or an underscore.
fn is_word_byte(byte: u8) -> bool
    ensures { result ≡ is_word_byte byte }
{
    byte.is_ascii_alphanumeric() || byte == b'_'
}
