//! Patterns that never match, because an earlier one is their prefix and is preferred. A search uses that one instead.
ghost use Rattle.std.specs.Prelude.{◌≡◌, ◌+◌, ◌*◌, ◌-◌, ◌<◌, ◌≤◌, ◌^◌, ℕ, IfErr, IfOk, length, map, reverse};
ghost use Rattle.std.specs.Prelude.{slice_index, sum_by, true};
ghost use Rattle.literal_base.specs.Occurs.{pattern_at};
ghost use Rattle.literal_base.specs.declared.packed.MatchKind.TheVariants.{LeftmostLongest};
ghost use Rattle.literal_rows.specs.Links.{AreLinks};
ghost use Rattle.literal_rows.specs.Table.{Recognises};
ghost use Rattle.literal_rows.specs.Patterns.{CanBeKept, reversed, unshadowed};
ghost use Rattle.literal_rows.specs.States.{HasTooManyStates};
ghost use Rattle.literal_rows.specs.Table.{stride_of};
ghost use Rattle.literal_rows.specs.Inside.Classes.{AreClasses};
ghost use Rattle.literal_rows.specs.Inside.Shadowed.{AreRowsFor, chosen_by, texts_by};

use crate::classes::Classes;
use crate::grow::{GrowError, grow, numbers};
use crate::prefixes::first_prefixes;
use crate::suffixes::Recognised;
use crate::texts::LIMIT;
use crate::total_bytes;
use crate::walk::NOTHING;
use literal_base::packed::MatchKind;
use std::alloc::{AllocError, Global};

/// The rows of the automaton by which a search walks: that of the reversed patterns, without those that never match.
pub fn backward_rows(
    alloc: Global,
    kind: MatchKind,
    classes: &Classes,
    patterns: &[Vec<u8>],
) -> Result<Vec<u32>, GrowError>
    requires classes { AreClasses classes.now.table classes.now.width }
    requires patterns { CanBeKept (map (λ pattern. pattern.items) patterns.now) }
    ensures rows { IfOk result (λ rows. AreRowsFor (reversed (unshadowed kind
        (texts_by classes.now.table patterns.now))) classes.now.width rows.items) }
    ensures few { IfOk result (λ _. ¬ HasTooManyStates (reversed (texts_by classes.now.table patterns.now))
        classes.now.width) }
    ensures too_many { IfErr result (λ error. error ≡ GrowError.TooManyStates
        → HasTooManyStates (reversed (texts_by classes.now.table patterns.now)) classes.now.width) }
{
    match kind {
        MatchKind::LeftmostFirst => first_rows(alloc, classes, patterns),
        MatchKind::LeftmostLongest => all_rows(alloc, classes, patterns),
    }
}

/// The link of each pattern: the longest one that is shorter and a prefix of it. They are followed only where the
/// longest match is preferred, so with the other rule there is none.
pub fn links_for(
    alloc: Global,
    kind: MatchKind,
    classes: &Classes,
    patterns: &[Vec<u8>],
    rows: &[u32],
) -> Result<Vec<u32>, AllocError>
    requires classes { AreClasses classes.now.table classes.now.width }
    requires patterns { CanBeKept (map (λ pattern. pattern.items) patterns.now) }
    requires rows { kind ≡ LeftmostLongest
        → Recognises (reversed (texts_by classes.now.table patterns.now)) classes.now.width rows.now }
    ensures long { IfOk result (λ links. length links.items ≡ length patterns.now) }
    ensures links { IfOk result (λ links. kind ≡ LeftmostLongest
        → AreLinks (reversed (texts_by classes.now.table patterns.now)) links.items (length patterns.now)) }
{
    match kind {
        MatchKind::LeftmostFirst => vec![in alloc; NOTHING; patterns.len()],
        MatchKind::LeftmostLongest => prefix_links(alloc, classes, patterns, rows),
    }
}

/// The longest pattern that is shorter than a pattern and a prefix of it, for each.
fn prefix_links(
    alloc: Global,
    classes: &Classes,
    patterns: &[Vec<u8>],
    rows: &[u32],
) -> Result<Vec<u32>, AllocError>
    requires classes { AreClasses classes.now.table classes.now.width }
    requires patterns { CanBeKept (map (λ pattern. pattern.items) patterns.now) }
    requires rows { Recognises (reversed (texts_by classes.now.table patterns.now)) classes.now.width rows.now }
    ensures { IfOk result (λ links. AreLinks (reversed (texts_by classes.now.table patterns.now)) links.items
        (length patterns.now)) }
{
    let all = numbers(alloc, patterns.len())?;
    let copies = copies_of(alloc, patterns, &all)?;
    let recognised = Recognised {
        classes: &classes.table,
        width: classes.width,
        rows,
        patterns: &copies,
    };
    recognised.shorter(alloc)
}

/// The rows for the reversed patterns, each replaced by the first in the list of its prefixes, which include itself.
fn first_rows(alloc: Global, classes: &Classes, patterns: &[Vec<u8>]) -> Result<Vec<u32>, GrowError>
    requires classes { AreClasses classes.now.table classes.now.width }
    requires patterns { CanBeKept (map (λ pattern. pattern.items) patterns.now) }
    ensures rows { IfOk result (λ rows. AreRowsFor (reversed (unshadowed MatchKind.LeftmostFirst
        (texts_by classes.now.table patterns.now))) classes.now.width rows.items) }
    ensures few { IfOk result (λ _. ¬ HasTooManyStates (reversed (texts_by classes.now.table patterns.now))
        classes.now.width) }
    ensures too_many { IfErr result (λ error. error ≡ GrowError.TooManyStates
        → HasTooManyStates (reversed (texts_by classes.now.table patterns.now)) classes.now.width) }
{
    check_states(alloc, classes, patterns)?;
    let firsts = first_prefixes(alloc, &classes.table, patterns)?;
    chosen_rows(alloc, classes, patterns, &firsts)
}

/// An error if all patterns have too many states, also those that never match. Only where these might be too many, the
/// automaton is built to tell.
fn check_states(alloc: Global, classes: &Classes, patterns: &[Vec<u8>]) -> Result<(), GrowError>
    requires classes { AreClasses classes.now.table classes.now.width }
    requires few { length patterns.now ≤ 2 ^ 31 - 1 }
    ensures few { IfOk result (λ _. ¬ HasTooManyStates (reversed (texts_by classes.now.table patterns.now))
        classes.now.width) }
    ensures too_many { IfErr result (λ error. error ≡ GrowError.TooManyStates
        → HasTooManyStates (reversed (texts_by classes.now.table patterns.now)) classes.now.width) }
{
    if need_few_states(patterns, classes.width) {
        return Ok(());
    }
    let rows = all_rows(alloc, classes, patterns)?;
    drop(rows);
    Ok(())
}

/// Whether the patterns are too short to have too many states.
fn need_few_states(patterns: &[Vec<u8>], width: usize) -> bool
    requires { width ≤ 256 }
    ensures { result ≡ true → (sum_by length (map (λ pattern. pattern.items) patterns.now) + 1) * stride_of width
        ≤ 2 ^ 31 - 1 }
{
    total_bytes(patterns) < (LIMIT / (width + 1)) as u128
}

/// The rows for all reversed patterns.
fn all_rows(alloc: Global, classes: &Classes, patterns: &[Vec<u8>]) -> Result<Vec<u32>, GrowError>
    requires classes { AreClasses classes.now.table classes.now.width }
    requires few { length patterns.now ≤ 2 ^ 31 - 1 }
    ensures rows { IfOk result (λ rows. AreRowsFor (reversed (texts_by classes.now.table patterns.now))
        classes.now.width rows.items) }
    ensures few { IfOk result (λ _. ¬ HasTooManyStates (reversed (texts_by classes.now.table patterns.now))
        classes.now.width) }
    ensures too_many { IfErr result (λ error. error ≡ GrowError.TooManyStates
        → HasTooManyStates (reversed (texts_by classes.now.table patterns.now)) classes.now.width) }
{
    let all = numbers(alloc, patterns.len())?;
    chosen_rows(alloc, classes, patterns, &all)
}

/// The rows for the reversed patterns with these numbers.
fn chosen_rows(
    alloc: Global,
    classes: &Classes,
    patterns: &[Vec<u8>],
    numbers: &[u32],
) -> Result<Vec<u32>, GrowError>
    requires classes { AreClasses classes.now.table classes.now.width }
    requires few { length numbers.now ≤ 2 ^ 31 - 1 }
    requires numbers { (i : ℕ) → i < length numbers.now → slice_index numbers.now i < length patterns.now }
    ensures rows { IfOk result (λ rows. AreRowsFor
        (reversed (chosen_by (texts_by classes.now.table patterns.now) numbers.now)) classes.now.width rows.items) }
    ensures few { IfOk result (λ _. ¬ HasTooManyStates
        (reversed (chosen_by (texts_by classes.now.table patterns.now) numbers.now)) classes.now.width) }
    ensures too_many { IfErr result (λ error. error ≡ GrowError.TooManyStates → HasTooManyStates
        (reversed (chosen_by (texts_by classes.now.table patterns.now) numbers.now)) classes.now.width) }
{
    let copies = copies_of(alloc, patterns, numbers)?;
    grow(alloc, &classes.table, classes.width, &copies)
}

/// Reversed copies of the patterns with these numbers.
fn copies_of(
    alloc: Global,
    patterns: &[Vec<u8>],
    numbers: &[u32],
) -> Result<Vec<Vec<u8>>, AllocError>
    requires { (i : ℕ) → i < length numbers.now → slice_index numbers.now i < length patterns.now }
    ensures { IfOk result (λ all. map (λ pattern. pattern.items) all.items
        ≡ reversed (map (pattern_at (map (λ pattern. pattern.items) patterns.now)) numbers.now)) }
{
    let mut all = Vec::new(alloc);
    for number in numbers {
        all.push(backward_copy(alloc, &patterns[*number as usize])?)?;
    }
    Ok(all)
}

/// A reversed copy of a pattern.
fn backward_copy(alloc: Global, bytes: &[u8]) -> Result<Vec<u8>, AllocError>
    ensures { IfOk result (λ copy. copy.items ≡ reverse bytes.now) }
{
    let mut copy = Vec::new(alloc);
    copy.extend_from_slice(bytes)?;
    copy.reverse();
    Ok(copy)
}
