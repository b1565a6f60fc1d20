//! Callers of `literal_examples`, each run once.
mod counts;
mod replacing;
