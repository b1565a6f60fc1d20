//! The offset that a table proposes, found plainly, byte by byte, and prefilters compared with it.
ghost use Rattle.std.specs.Prelude.{◌≡◌};
ghost use Rattle.literal_base.specs.Occurs.{IsValidSpan};
ghost use Rattle.literal_prefilters.specs.Table.{proposed_place};

use literal_prefilters::Span;
use literal_prefilters::prefilter::ByteTable;

/// The first offset of the span whose byte is in the table, minus this byte's distance, but at least the span's start.
pub fn step_plainly(table: &ByteTable, haystack: &[u8], span: Span) -> Option<usize>
    requires { IsValidSpan haystack.now span }
    ensures { result ≡ proposed_place table.now haystack.now span }
{
    for place in span.start..span.end {
        if let Some(distance) = table.distance(haystack[place]) {
            return Some(place.saturating_sub(distance as usize).max(span.start));
        }
    }
    None
}
