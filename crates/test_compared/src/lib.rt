//! The searches compared with plain ones on many small cases and on long ones. The plain ones are proved only from the
//! definitions.
#![tactic(auto)]

#[cfg(test)]
mod asking;
#[cfg(test)]
mod asserted;
#[cfg(test)]
mod automaton;
#[cfg(test)]
mod chosen;
#[cfg(test)]
mod compared;
#[cfg(test)]
mod confirming;
#[cfg(test)]
mod exact;
#[cfg(test)]
mod fingerprints;
#[cfg(test)]
mod large;
#[cfg(test)]
mod made;
#[cfg(test)]
mod overlapping;
#[cfg(test)]
mod pairs;
pub mod plain;
#[cfg(test)]
mod running_tables;
#[cfg(test)]
mod stepping;
pub mod steps;
