//! Whole words: occurrences with no word byte right before and none right after them. [`word_search`] looks for them at
//! each offset where the search of `literal_leftmost` finds a pattern, by tables that are owned or lent. The bytes next
//! to an occurrence are those of the haystack or its sides ([`word_text`]).
#![tactic(auto)]

pub mod prepared_words;
pub mod word_search;
pub mod word_text;
