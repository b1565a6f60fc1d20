//! The public calls of the searches for any list, and the parts of programs that make such calls, except those in a row
//! of data (`test_worked_cases`) or in a test of refused memory (`test_refused_memory`). Each is run once with ample
//! memory.
#![tactic(auto)]

#[cfg(test)]
mod automaton;
#[cfg(test)]
mod callers;
#[cfg(test)]
mod fingerprints;
#[cfg(test)]
mod folding;
#[cfg(test)]
mod made;
#[cfg(test)]
mod overlapping_streams;
#[cfg(test)]
mod parts;
#[cfg(test)]
mod pieces;
#[cfg(test)]
mod prepared;
#[cfg(test)]
mod replacing;
#[cfg(test)]
mod searches;
#[cfg(test)]
mod states;
#[cfg(test)]
mod streams;
#[cfg(test)]
mod whole_words;
#[cfg(test)]
mod word_streams;
#[cfg(test)]
mod word_text;
