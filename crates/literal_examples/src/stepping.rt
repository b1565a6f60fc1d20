//! A caller's own loop over the automaton of a search for every occurrence.
ghost use Rattle.literal_base.specs.Occurs.{whole_of};
ghost use Rattle.literal_search.specs.Earliest.{IsEarliestEnd};

use literal_search::Overlapping;

/// The earliest end of an occurrence in a haystack, as a byte offset, as `Overlapping::earliest_end` finds it.
pub fn first_end(search: &Overlapping, haystack: &[u8]) -> Option<usize>
    ensures { IsEarliestEnd search.now.patterns search.now.ignore_case haystack.now (whole_of haystack.now) result }
{
    let _count = search.patterns_len(); // (its contract says that no pattern is empty)
    let automaton = search.automaton();
    let mut state = automaton.start_state();
    for at in 0..haystack.len() {
        state = automaton.next_state(state, haystack[at]);
        if automaton.is_match(state) {
            return Some(at + 1);
        }
    }
    None
}
