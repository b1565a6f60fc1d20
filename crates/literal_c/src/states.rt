//! Exports for loops over the states of a search for every occurrence.
ghost use Rattle.std.specs.Prelude.{◌≡◌, ◌⊎◌, ◌++◌, ◌∷◌, [], ◌-◌, ◌<◌, ◌≤◌, ⊤, length, slice_index};
ghost use Rattle.std.specs.Prelude.{MatchResult, drop, take};
ghost use Rattle.std.specs.List.{All};
ghost use Rattle.literal_base.specs.Occurs.{IsValidSpan, between};
ghost use Rattle.literal_search.specs.Automaton.{IsStateAfter};
ghost use Rattle.literal_search.specs.PreparedOverlapping.{tables_in};
ghost use Rattle.literal_c.specs.States.{ChangesAreBelow, ForState, HasStopped, IsEndingPage, IsStateStatus};

use crate::{LITERAL_BAD_ARGUMENTS, LITERAL_DAMAGED, LITERAL_NONE, LITERAL_OK};
use literal_search::{Damaged, PreparedOverlapping, Span, State};

/// The number of the state after the empty text, in each array.
pub const LITERAL_START_STATE: u32 = 0;

/// The least number of the states in which a pattern ends.
pub const LITERAL_MATCH_STATE: u32 = 2147483648;

/// Tells the state after one more byte of the text after which the state is `state`, by a search that
/// [`literal_prepare_overlapping`](crate::literal_prepare_overlapping) wrote. The text of [`LITERAL_START_STATE`] is
/// empty. A pattern is a suffix of the text if the state is [`LITERAL_MATCH_STATE`] or more. The status is
/// [`LITERAL_DAMAGED`] as for [`literal_find_in`](crate::literal_find_in), and if the array has no row for the state.
/// With another state of no text of this search, `next` has no meaning.
#[unsafe(no_mangle)]
pub extern "C" fn literal_next_state_in(
    prepared: &[u32],
    state: u32,
    byte: u8,
    next: &mut u32,
) -> i32
    ensures status { IsStateStatus prepared.now state ⊤ (λ status. status ≡ LITERAL_OK) result }
    ensures next { ForState prepared.now state (λ search text. result ≡ LITERAL_OK
        → IsStateAfter (tables_in search prepared.now) (text ++ byte ∷ []) next.new) }
    ensures as_before { (result ≡ LITERAL_OK) ⊎ (next.new ≡ next.old) }
{
    let Ok(search) = PreparedOverlapping::new(prepared) else {
        return LITERAL_DAMAGED;
    };
    match search.next_state(State::new(state), byte) {
        Err(Damaged) => LITERAL_DAMAGED,
        Ok(after) => {
            *next = after.as_u32();
            LITERAL_OK
        }
    }
}

/// Appends the bytes of the haystack from `start` up to `end`, which is not included, to the text of a state, up to the
/// first byte with which a pattern ends. [`LITERAL_OK`] says that there is one: `at` is the offset after it.
/// [`LITERAL_NONE`] says that there is none: `at` is `end`. With both `next` is the state after the bytes before `at`.
/// A call looks up each of these bytes once. So a loop goes on from `next` and `at`. The status is
/// [`LITERAL_BAD_ARGUMENTS`] if `start` is above `end`, or `end` above the haystack's length; otherwise it is
/// [`LITERAL_DAMAGED`] as for [`literal_next_state_in`]. Unless the status is one of the first two, lent memory is
/// unchanged. With any array and state, `at` is at most `end`, and with [`LITERAL_OK`] above `start`.
#[unsafe(no_mangle)]
pub extern "C" fn literal_walk_in(
    prepared: &[u32],
    state: u32,
    haystack: &[u8],
    start: usize,
    end: usize,
    next: &mut u32,
    at: &mut usize,
) -> i32
    ensures status { IsStateStatus prepared.now state (IsValidSpan haystack.now (between start end))
        (λ status. (status ≡ LITERAL_OK) ⊎ (status ≡ LITERAL_NONE)) result }
    ensures stopped { ForState prepared.now state (λ search text. (result ≡ LITERAL_OK) ⊎ (result ≡ LITERAL_NONE)
        → HasStopped prepared.now search text haystack.now start end result next.new at.new) }
    ensures inside { result ≡ LITERAL_OK → (start < at.new) × (at.new ≤ end) }
    ensures through { result ≡ LITERAL_NONE → at.new ≡ end }
    ensures as_before { ((result ≡ LITERAL_OK) ⊎ (result ≡ LITERAL_NONE))
        ⊎ ((next.new ≡ next.old) × (at.new ≡ at.old)) }
{
    if start > end || end > haystack.len() {
        return LITERAL_BAD_ARGUMENTS;
    }
    let Ok(search) = PreparedOverlapping::new(prepared) else {
        return LITERAL_DAMAGED;
    };
    match search.walk(State::new(state), haystack, Span { start, end }) {
        Err(Damaged) => LITERAL_DAMAGED,
        Ok(walked) => {
            *next = walked.state.as_u32();
            *at = walked.at;
            if walked.is_match {
                LITERAL_OK
            } else {
                LITERAL_NONE
            }
        }
    }
}

/// Tells which patterns end with the text of a state. `total` is how many they are. Of their numbers, in ascending
/// order, those from the index `from` on are written, as many as there is room for: none if `from` is at least `total`.
/// The rest of `patterns` is unchanged. The status is [`LITERAL_OK`], or [`LITERAL_DAMAGED`] as for
/// [`literal_next_state_in`]; then `total` is unchanged, and some numbers may be written. With any array and state,
/// each number that is written is below the number of patterns, which is the array's fourth number.
#[unsafe(no_mangle)]
pub extern "C" fn literal_patterns_at_in(
    prepared: &[u32],
    state: u32,
    from: usize,
    patterns: &mut [usize],
    total: &mut usize,
) -> i32
    ensures status { IsStateStatus prepared.now state ⊤ (λ status. status ≡ LITERAL_OK) result }
    ensures page { ForState prepared.now state (λ search text. result ≡ LITERAL_OK
        → IsEndingPage search text from patterns.old patterns.new total.new) }
    ensures inside { result ≡ LITERAL_OK
        → All (λ number. number < slice_index prepared.now 3) (take (total.new - from) patterns.new) }
    ensures below { ChangesAreBelow (slice_index prepared.now 3) patterns.old patterns.new }
    ensures len { length patterns.new ≡ length patterns.old }
    ensures as_before { (result ≡ LITERAL_OK) ⊎ (total.new ≡ total.old) }
{
    let Ok(search) = PreparedOverlapping::new(prepared) else {
        return LITERAL_DAMAGED;
    };
    let Ok(all) = search.matches(State::new(state)) else {
        return LITERAL_DAMAGED;
    };
    match write_numbers(&all[from.min(all.len())..], prepared[3], patterns) {
        Err(Damaged) => LITERAL_DAMAGED,
        Ok(()) => {
            *total = all.len();
            LITERAL_OK
        }
    }
}

/// Writes numbers below a limit into the first places, as many as there are places. [`Damaged`] if one is not below it.
fn write_numbers(numbers: &[u32], limit: u32, places: &mut [usize]) -> Result<(), Damaged>
    ensures written { MatchResult result
        (λ _. (take (length numbers.now) places.new ≡ take (length places.old) numbers.now)
        × All (λ number. number < limit) (take (length places.old) numbers.now))
        (λ _. ¬ All (λ number. number < limit) numbers.now) }
    ensures len { length places.new ≡ length places.old }
    ensures below { ChangesAreBelow limit places.old places.new }
    ensures others { drop (length numbers.now) places.new ≡ drop (length numbers.now) places.old }
{
    for at in 0..numbers.len().min(places.len()) {
        if numbers[at] >= limit {
            return Err(Damaged);
        }
        places[at] = numbers[at] as usize;
    }
    Ok(())
}
