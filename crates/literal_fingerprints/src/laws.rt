//! Laws of fingerprints. Each law is the contract of a function that does nothing.
ghost use Rattle.literal_ids.specs.Clones.{ClonesExactly};

use crate::Fingerprints;

/// A clone of fingerprints is the same value, and allocates nothing.
pub fn clones_are_equal()
    ensures { ClonesExactly ⟦<Fingerprints as Clone>⟧.is_clone ⟦<Fingerprints as Clone>⟧.is_infallible }
{}
