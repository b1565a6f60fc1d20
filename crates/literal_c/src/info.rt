//! Reads from a prepared array what it was prepared for.
ghost use Rattle.std.specs.Prelude.{◌≡◌, ◌⊎◌, ◌↔◌, MatchResult};
ghost use Rattle.literal_search.specs.Prepared.{ForPrepared, HasAllParts};
ghost use Rattle.literal_search.specs.PreparedOverlapping.{ForOverlapping, HasLists};
ghost use Rattle.literal_c.specs.Inside.Info.{shortest_in};
ghost use Rattle.literal_c.specs.Arguments.{number_of};
ghost use Rattle.literal_c.specs.Info.{IsInfo, IsOfKind, MayBeInfo};

use crate::arguments::number_of;
use crate::{LITERAL_DAMAGED, LITERAL_OK};
use literal_search::{Damaged, Prepared, PreparedOverlapping};

/// The index of the first pattern length in the array of a search.
const LENGTHS_AT: usize = 7;

/// What an array was prepared for.
#[repr(C)]
#[derive(Clone, Copy)]
pub struct LiteralInfo {
    /// The number of patterns.
    pub patterns: usize,
    /// The length of the shortest pattern, or 0 without any.
    pub shortest: usize,
    /// The length of the longest pattern, or 0 without any.
    pub longest: usize,
    /// 1 for a search for every occurrence, 0 for one for leftmost matches.
    pub is_overlapping: u32,
    /// The number of the match kind, or 0 for a search for every occurrence, which has none.
    pub kind: u32,
}

/// Tells what an array was prepared for, by either call that prepares one. The status is
/// [`LITERAL_DAMAGED`](crate::LITERAL_DAMAGED) if the array has the parts of neither search; then `info` is unchanged.
/// Of an array that was changed otherwise, it may tell other lengths.
#[unsafe(no_mangle)]
pub extern "C" fn literal_prepared_info(prepared: &[u32], info: &mut LiteralInfo) -> i32
    ensures ok { (result ≡ LITERAL_OK) ↔ (HasAllParts prepared.now ⊎ HasLists prepared.now) }
    ensures damaged { (result ≡ LITERAL_DAMAGED) ↔ ¬ (HasAllParts prepared.now ⊎ HasLists prepared.now) }
    ensures leftmost { ForPrepared prepared.now
        (λ search. IsInfo search.query.patterns 0 (number_of search.query.kind) info.new) }
    ensures overlapping { ForOverlapping prepared.now (λ search. IsInfo search.patterns 1 0 info.new) }
    ensures any { result ≡ LITERAL_OK → MayBeInfo prepared.now info.new }
    ensures as_before { (result ≡ LITERAL_OK) ⊎ (info.new ≡ info.old) }
{
    let Ok((is_overlapping, kind)) = kind_of_search(prepared) else {
        return LITERAL_DAMAGED;
    };
    let patterns = prepared[3] as usize;
    *info = LiteralInfo {
        patterns,
        shortest: shortest(&prepared[LENGTHS_AT..LENGTHS_AT + patterns]) as usize,
        longest: prepared[5] as usize,
        is_overlapping,
        kind,
    };
    LITERAL_OK
}

/// For the array of a search for every occurrence 1 and 0. For that of one for leftmost matches 0, and the number of
/// its match kind.
fn kind_of_search(prepared: &[u32]) -> Result<(u32, u32), Damaged>
    ensures { MatchResult result (λ told. IsOfKind prepared.now told.0 told.1)
        (λ _. ¬ (HasAllParts prepared.now ⊎ HasLists prepared.now)) }
{
    if let Ok(_) = PreparedOverlapping::new(prepared) {
        return Ok((1, 0));
    }
    let search = Prepared::new(prepared)?;
    Ok((0, number_of(search.match_kind())))
}

/// The smallest of some lengths, or 0 without any.
fn shortest(lengths: &[u32]) -> u32
    ensures { result ≡ shortest_in lengths.now }
{
    let Some((first, others)) = lengths.split_first() else {
        return 0;
    };
    let mut least = *first;
    for len in others {
        least = least.min(*len);
    }
    least
}
