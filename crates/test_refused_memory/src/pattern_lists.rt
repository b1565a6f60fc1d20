//! Calls of `Patterns` and `RabinKarp`.
ghost use Rattle.std.specs.Prelude.{◌<◌, length, IfOk};
ghost use Rattle.literal_packed.specs.PatternsValue.{IsInOrder};
ghost use Rattle.literal_packed.specs.RabinKarpValue.{IsMadeFor};

use crate::made::{assert_place, word};
use literal_prefilters::PatternID;
use literal_prefilters::count::Tally;
use literal_prefilters::packed::MatchKind;
use literal_prefilters::packed::pattern::Patterns;
use literal_prefilters::packed::rabinkarp::RabinKarp;
use std::alloc::{AllocError, Global};
use std::process::Abort;

/// The first 21 words, in the order in which they were added.
const AS_ADDED: [usize; 21] = [
    0, 1, 2, 3, 4, 5, 6, 7, 8, 9, 10, 11, 12, 13, 14, 15, 16, 17, 18, 19, 20,
];

/// The same words, longer ones first.
const LONGEST_FIRST: [usize; 21] = [
    2, 5, 8, 11, 14, 17, 20, 1, 4, 7, 10, 13, 16, 19, 0, 3, 6, 9, 12, 15, 18,
];

/// Whether the pattern with a number is the word with this number.
fn is_word(patterns: &Patterns, number: usize) -> bool {
    if number >= patterns.len() {
        return false;
    }
    let (id, word) = (PatternID::must(number), word(number));
    let mut tally = Tally::new();
    let stands = patterns.matches_at(id, word, 0, false, &mut tally);
    stands && patterns.get(id).len() == word.len()
}

/// The words come in this order, and then no more.
fn assert_order(rt: &impl Abort, patterns: &Patterns, order: &[usize]) {
    let mut items = patterns.iter();
    for number in order {
        assert!(rt; items.next().is_some_and(|(id, _)| id.as_usize() == *number));
        assert!(rt; is_word(patterns, *number));
    }
    assert!(rt; items.next().is_none());
}

/// The answers of all calls of a collection of the first words: its match kind, the order in which they are tried, and
/// their total length. None of these calls allocates.
fn assert_tells(
    rt: &impl Abort,
    patterns: &Patterns,
    kind: MatchKind,
    order: &[usize],
    total: u128,
) {
    assert!(rt; *patterns.match_kind() == kind && patterns.len() == order.len());
    assert!(rt; patterns.is_empty() == order.is_empty());
    assert!(rt; patterns.minimum_len() == if order.is_empty() { usize::MAX } else { 1 });
    assert!(rt; patterns.total_pattern_bytes() == total);
    assert_order(rt, patterns, order);
}

/// A copy of a collection. No request is refused.
fn copied(rt: &impl Abort, patterns: &Patterns) -> Patterns {
    patterns
        .try_clone()
        .expect(rt, "a second request was refused")
}

/// The same for a collection after a refused request, and for a copy.
fn assert_tells_still(
    rt: &impl Abort,
    patterns: &Patterns,
    kind: MatchKind,
    order: &[usize],
    total: u128,
) {
    assert_tells(rt, patterns, kind, order, total);
    assert_tells(rt, &copied(rt, patterns), kind, order, total);
}

/// Whether a word is added.
fn is_added(rt: &impl Abort, patterns: &mut Patterns, number: usize) -> bool {
    assert!(rt; patterns.len() < PatternID::LIMIT);
    patterns.add(word(number)).is_ok()
}

/// Adds the next word.
fn adds(
    rt: &impl Abort,
    patterns: &mut Patterns,
    (before, old): (&[usize], u128),
    (after, new): (&[usize], u128),
) {
    let (kind, number) = (MatchKind::LeftmostFirst, before.len());
    if !is_added(rt, patterns, number) {
        assert_tells_still(rt, patterns, kind, before, old);
        assert!(rt; is_added(rt, patterns, number));
    }
    assert_tells(rt, patterns, kind, after, new);
}

/// The first pattern, and the second.
#[test]
fn add_of_patterns(rt: HostRuntime) {
    let mut patterns = Patterns::new(rt.alloc());
    adds(&rt, &mut patterns, (&[], 0), (&[0], 1));
    adds(&rt, &mut patterns, (&[0], 1), (&[0, 1], 3));
}

/// 21 words, as they were added.
fn of_words(rt: &impl Abort, alloc: Global) -> Result<Patterns, AllocError> {
    let mut patterns = Patterns::new(alloc);
    for number in 0..21 {
        assert!(rt; patterns.len() < PatternID::LIMIT);
        patterns.add(word(number))?;
    }
    Ok(patterns)
}

/// Whether the longest word is now tried first.
fn is_sorted(patterns: &mut Patterns) -> bool {
    patterns.set_match_kind(MatchKind::LeftmostLongest).is_ok()
}

#[test]
fn set_match_kind_of_patterns(rt: HostRuntime) -> Result<(), AllocError> {
    let mut patterns = of_words(&rt, rt.alloc())?;
    if !is_sorted(&mut patterns) {
        assert_tells_still(&rt, &patterns, MatchKind::LeftmostFirst, &AS_ADDED, 42);
        assert!(rt; is_sorted(&mut patterns));
    }
    assert_is_sorted(&rt, &patterns);
    Ok(())
}

/// All calls of the collection, which tries the longest words first.
fn assert_is_sorted(rt: &impl Abort, patterns: &Patterns) {
    assert_tells(rt, patterns, MatchKind::LeftmostLongest, &LONGEST_FIRST, 42);
}

/// 21 words, longer ones first.
fn longest_first(rt: &impl Abort, alloc: Global) -> Result<Patterns, AllocError>
    ensures { IfOk result (λ patterns. (0 < length patterns.patterns) × IsInOrder patterns) }
{
    let mut patterns = of_words(rt, alloc)?;
    patterns.set_match_kind(MatchKind::LeftmostLongest)?;
    assert!(rt; !patterns.is_empty());
    Ok(patterns)
}

#[test]
fn try_clone_of_patterns(rt: HostRuntime) -> Result<(), AllocError> {
    let patterns = longest_first(&rt, rt.alloc())?;
    match patterns.try_clone() {
        Ok(copy) => assert_is_sorted(&rt, &copy),
        Err(_) => {
            assert_is_sorted(&rt, &patterns);
            assert_is_sorted(&rt, &copied(&rt, &patterns));
        }
    }
    Ok(())
}

/// The search that is made for these patterns finds `bcd`.
fn assert_finds(rt: &impl Abort, made: &RabinKarp, patterns: &Patterns)
    requires { IsMadeFor patterns.now made.now }
{
    let found = made.find_at(patterns, b"xxbcd", 1, &mut Tally::new());
    assert_place(rt, found, 2, (2, 5));
}

/// The search that is made for these patterns is copied.
fn clones(rt: &impl Abort, made: &RabinKarp, patterns: &Patterns)
    requires { IsMadeFor patterns.now made.now }
{
    if let Ok(copy) = made.try_clone() {
        assert_finds(rt, &copy, patterns);
        return;
    }
    assert_finds(rt, made, patterns);
    let copy = made.try_clone().expect(rt, "it was refused again");
    assert_finds(rt, &copy, patterns);
}

/// `RabinKarp::new`, and `try_clone` of its result.
#[test]
fn new_and_try_clone_of_rabin_karp(rt: HostRuntime) -> Result<(), AllocError> {
    let patterns = longest_first(&rt, rt.alloc())?;
    if let Ok(made) = RabinKarp::new(&patterns, &mut Tally::new()) {
        clones(&rt, &made, &patterns);
        return Ok(());
    }
    assert_is_sorted(&rt, &patterns);
    let made = RabinKarp::new(&patterns, &mut Tally::new());
    assert_finds(&rt, &made.expect(&rt, "it was refused again"), &patterns);
    Ok(())
}
