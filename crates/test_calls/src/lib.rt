//! The examples in the documentation of the main types, the callers of `literal_examples` and `literal_promise`, and
//! those public calls of the bottom layer that neither a row of data (`test_worked_cases`) nor a test of refused memory
//! (`test_refused_memory`) makes. Each is run once with ample memory.
#![tactic(auto)]

#[cfg(test)]
mod asserted;
#[cfg(test)]
mod builders;
#[cfg(test)]
mod callers;
#[cfg(test)]
mod identifiers;
#[cfg(test)]
mod paths;
#[cfg(test)]
mod spans;
#[cfg(test)]
mod types;
