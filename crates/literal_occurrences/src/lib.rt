//! Every occurrence of any number of patterns, by one walk forward through the rows of `literal_rows`: counts, an
//! iteration, and the automaton for loops of callers, by numbers that are owned or lent. Begin to read with
//! [`prepared_overlapping`], which has the tables and the walk from one end of an occurrence to the next.
#![tactic(auto)]

pub mod automaton;
pub mod count;
pub mod ends;
pub mod position;
pub mod prepared_occurrences;
pub mod prepared_overlapping;
pub mod prepared_states;
pub mod scan;
