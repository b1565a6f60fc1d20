//! Callers of inputs that rely only on contracts.
ghost use Rattle.std.specs.Prelude.{◌≡◌, ◌+◌, ◌≤◌, ◌<◌, ◌↔◌, IfSome, IsSome, IsTrue, slice_range};

use literal_prefilters::Input;

/// The bytes to search; none if the search is over.
pub fn bytes_to_search<'h>(input: &Input<'h>) -> &'h [u8]
    ensures { result.now ≡ slice_range input.now.haystack input.now.start input.now.end }
{
    if input.is_done() {
        return &[];
    }
    input.get_span().of(input.haystack())
}

/// The same input from the next byte on, or `None` if the search is over.
pub fn from_next_byte<'h>(input: &Input<'h>) -> Option<Input<'h>>
    ensures some { IsSome result ↔ (input.now.start ≤ input.now.end) }
    ensures next { IfSome result (λ next. next ≡ record input.now { start = input.now.start + 1 }) }
{
    if input.is_done() {
        return None;
    }
    let mut next = input.clone().ok()?;
    next.set_start(input.start() + 1);
    Some(next)
}

/// Moves the start of the search by one byte, unless the search is over. Returns whether it did.
pub fn step_on(input: &mut Input<'_>) -> bool
    ensures stepped { IsTrue result ↔ (input.old.start ≤ input.old.end) }
    ensures next { input.old.start ≤ input.old.end → input.new ≡ record input.old { start = input.old.start + 1 } }
    ensures done { input.old.end < input.old.start → input.new ≡ input.old }
{
    if input.is_done() {
        return false;
    }
    input.set_start(input.start() + 1);
    true
}
