//! Each call that allocates, with ample memory, and with its requests for memory refused. `checks/refusals` runs each
//! test repeatedly, each time with another request refused, until no request is refused in a run.
//!
//! If a request of the call is refused, the call fails, its value answers as before, and the same call succeeds
//! afterwards. If a request is refused while the test prepares the call, the test ends with that error. If none is
//! refused, it passes.
#![tactic(auto)]

#[cfg(test)]
mod builders;
#[cfg(test)]
mod confirming;
#[cfg(test)]
mod counted;
#[cfg(test)]
mod exact;
#[cfg(test)]
mod folding;
#[cfg(test)]
mod made;
#[cfg(test)]
mod pattern_lists;
#[cfg(test)]
mod prefilters;
#[cfg(test)]
mod replacing;
#[cfg(test)]
mod searchers;
#[cfg(test)]
mod searches;
#[cfg(test)]
mod whole_words;
#[cfg(test)]
mod word_text;
