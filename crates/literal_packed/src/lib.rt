//! Search for a few patterns at once: a builder takes the patterns, and a searcher finds them.
//!
//! ```rust
//! let mut builder = Config::new()
//!     .match_kind(packed::MatchKind::LeftmostLongest)
//!     .builder(alloc);
//! builder.add(b"ab")?.add(b"abc")?;
//! let searcher = builder.build()?.ok_or("no searcher for these patterns")?;
//! let found = searcher.find(b"xabcd").ok_or("nothing is found")?;
//! assert!(rt; found.pattern().as_usize() == 1 && found.range() == (1..4));
//! ```
#![tactic(auto)]

mod api;
pub mod laws;
pub mod pattern;
pub mod rabinkarp;

pub use api::{Builder, Config, FindIter, Searcher};
pub use literal_base::packed::MatchKind;
