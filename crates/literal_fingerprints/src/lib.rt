//! Vector scans that pass over offsets at which no pattern of a list begins, with ASCII case kept or ignored: by the
//! fingerprints of several patterns (`fingerprints`, `buckets`), or by two or three rare bytes of one (`pair`).
//! `candidates` has the scan that suits a list. `short` compares one pattern, and `one_byte` looks for one byte.
//! `lanes`, `wide` and `nibbles` are the vectors below them.
#![tactic(auto)]

mod both_nibbles;
mod buckets;
mod candidates;
mod fingerprints;
mod lanes;
pub mod laws;
mod looked_up;
mod nibbles;
mod one_byte;
mod pair;
mod short;
mod wide;

pub use candidates::CandidateScan;
pub use fingerprints::{BYTES, Fingerprints};
pub use one_byte::{count_byte, find_byte};
pub use pair::{PAIR_BYTES, RareByte, RarePair};
pub use short::{SHORT_BYTES, ShortPattern};
