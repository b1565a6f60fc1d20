//! The automaton for a list of patterns, as rows of numbers: classes of bytes, rows for states, failure links, lists of
//! suffixes, walks, and the array that holds them. Lent numbers may be wrong: if one points outside the rows, a walk
//! answers [`damaged::Damaged`]. Begin to read with `specs/Table.antt`, which says what rows are, and with
//! [`grow::grow`], which makes them.
#![tactic(auto)]

ghost use Rattle.std.specs.Prelude.{◌≡◌, ◌<◌, ◌^◌, length, map, sum_by};
ghost use Rattle.literal_rows.specs.Patterns.{longest_of};

pub mod array;
pub mod classes;
pub mod damaged;
pub mod grow;
pub mod numbers;
pub mod packed;
pub mod prefixes;
pub mod shadowed;
pub mod suffixes;
pub mod texts;
pub mod walk;

/// The length of the longest pattern, or 0 if there is none.
pub fn longest_len(patterns: &[Vec<u8>]) -> usize
    ensures { result ≡ longest_of (map (λ pattern. pattern.items) patterns.now) }
{
    let mut longest: usize = 0;
    for pattern in patterns {
        longest = longest.max(pattern.len());
    }
    longest
}

/// The sum of the lengths of all patterns.
pub fn total_bytes(patterns: &[Vec<u8>]) -> u128
    ensures total { result ≡ sum_by length (map (λ pattern. pattern.items) patterns.now) }
    ensures small { result < 2 ^ 127 }
{
    let mut total: u128 = 0;
    for pattern in patterns {
        total += pattern.len() as u128;
    }
    total
}
