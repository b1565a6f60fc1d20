//! Finds the next offset at which a pattern ends, by one walk. When the walk is back in the start state, the search
//! passes over bytes where no pattern begins.
ghost use Rattle.std.specs.Prelude.{◌≡◌, ◌+◌, ◌-◌, ◌*◌, ◌<◌, ◌≤◌, ◌^◌, IfOk, IfSome, length};
ghost use Rattle.literal_base.specs.Occurs.{IsValidSpan};
ghost use Rattle.literal_occurrences.specs.Inside.NextEnd.{FindsNext, StepsToWalkEnd};

use crate::scan::{can_pass, farther, nearest, pass_over};
use literal_base::Span;
use literal_base::count::Tally;
use literal_rows::array::SCAN_LEN;
use literal_rows::damaged::Damaged;
use literal_rows::walk::{Reached, Table, WalkEnd};

/// The first offset in a span after its start at which a pattern ends, and the row there. The walk begins to read the
/// span in the row at index `from`. If there is a scan for candidates, bytes are passed over by it. A pass reads at
/// most twice as many bytes in vain as the walk before it read.
#[inline(always)]
pub fn next_end(
    table: &Table,
    prints: &[u32],
    haystack: &[u8],
    from: usize,
    span: Span,
    tally: &mut Tally,
) -> Result<Option<WalkEnd>, Damaged>
    requires classes { length table.now.classes.now ≡ 64 }
    requires prints { length prints.now ≡ SCAN_LEN }
    requires valid { IsValidSpan haystack.now span }
    ensures next { FindsNext table.now prints.now haystack.now from span result }
    ensures inside { IfOk result (λ answer. IfSome answer
        (λ stop. (span.start < stop.end) × (stop.end ≤ span.end) × (stop.row < 2 ^ 32))) }
    ensures others { tally.new ≡ record tally.old { scanned = tally.new.scanned } }
    ensures grows { tally.old.scanned ≤ tally.new.scanned }
    ensures most { tally.new.scanned + 3 * span.start ≤ tally.old.scanned + 3 * span.end }
    ensures counted { IfOk result (StepsToWalkEnd span (tally.new.scanned - tally.old.scanned)) }
{
    let end = span.end;
    let (mut from, mut start) = (from, span.start);
    let by_scan = prints[0] > 0;
    let nearest = nearest(table, by_scan);
    let mut near = nearest;
    let passes = can_pass(table, by_scan, end - start);
    // (a walk of this length and a pass that reads twice as much in vain fit into the rest)
    while passes && 3 * near <= end - start {
        let rest = Span { start, end };
        match table.reach(haystack, from, rest, start + near, tally)? {
            Reached::Ends(stop) => return Ok(Some(stop)),
            Reached::Nowhere => return Ok(None),
            Reached::Back(at) => {
                let later = Span { start: at, end };
                start = pass_over(table, prints, haystack, later, nearest, tally)?;
                near = farther(nearest, near, start - at);
                from = 0;
            }
        }
    }
    let rest = Span { start, end };
    match table.reach(haystack, from, rest, usize::MAX, tally)? {
        Reached::Ends(stop) => Ok(Some(stop)),
        Reached::Nowhere => Ok(None),
        Reached::Back(_) => Ok(None), // (there is no such offset)
    }
}
