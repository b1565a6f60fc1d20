//! The callers of `test_contracts` and of `literal_promise`, some of `literal_examples`, and that of `search_promise`,
//! each run once.
mod any_list;
mod classes;
mod copies;
mod given;
mod inputs;
mod together;
mod uses;
mod uses_of_ids;
mod uses_of_prefilters;
mod words;
