//! Helpers of several test modules.
ghost use Rattle.std.specs.Prelude.{◌<◌, length};

use literal_prefilters::Match;
use std::process::Abort;

/// One of many patterns. They are not in the order of their lengths or buckets, since up to 20 patterns, and patterns
/// in order, are sorted without memory.
pub fn word(number: usize) -> &'static [u8]
    ensures { 0 < length result.now }
{
    match number % 3 {
        0 => b"c",
        1 => b"ab",
        _ => b"bcd",
    }
}

/// 24 of these patterns.
pub fn words() -> [&'static [u8]; 24] {
    let mut words: [&[u8]; 24] = [b"c"; 24];
    for number in 0..24 {
        words[number] = word(number);
    }
    words
}

/// 24 patterns with the rare byte `x`.
pub fn words_with_a_table() -> [&'static [u8]; 24] {
    let mut words: [&[u8]; 24] = [b"ax"; 24];
    for number in 0..24 {
        if number % 2 == 1 {
            words[number] = b"axe";
        }
    }
    words
}

/// 24 patterns with four first bytes and four rare ones, so that they have no table.
pub fn words_without_a_table() -> [&'static [u8]; 24] {
    let mut words: [&[u8]; 24] = [b"ax"; 24];
    for number in 0..24 {
        words[number] = match number % 4 {
            0 => b"ax",
            1 => b"bye",
            2 => b"cz",
            _ => b"dwe",
        };
    }
    words
}

/// The match is the pattern with this number, from one offset to another.
pub fn assert_place(
    rt: &impl Abort,
    found: Option<Match>,
    number: usize,
    (start, end): (usize, usize),
) {
    assert!(rt;
        found.is_some_and(|it| {
            it.pattern().as_usize() == number && it.start() == start && it.end() == end
        })
    );
}
