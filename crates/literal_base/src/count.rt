//! Counts of a search's steps, which only contracts see.
ghost use Rattle.std.specs.Prelude.{◌≡◌, ◌+◌};
ghost use Rattle.std.specs.Borrow.{ftrue};
ghost use Rattle.literal_base.specs.Counts.{Counts, none_yet, plus};

use std::marker::Model;

/// Five counts of steps: bytes hashed, bucket entries read, patterns compared, bytes scanned, and offsets tried.
/// Contracts see them as numbers that never overflow. A byte that a vector loads beside those that are asked for, and
/// whose lane is dropped, is not scanned. At run time a tally takes no memory and a tick no time, so no code can read a
/// tally.
#[derive(Drop)]
pub struct Tally {
    ghost counts: { Counts },
}

const _: () = prove!(size_of::<Tally>() == 0);

impl Model for Tally {
    ghost Value = { Counts };

    ghost view = { λ tally. tally.counts };

    ghost also_owns = { λ _. ftrue };
}

impl Tally {
    /// A tally with all counts at 0.
    pub fn new() -> Tally
        ensures { result ≡ none_yet }
    {
        Tally {}
    }

    /// Counts one more byte added to a rolling sum.
    pub fn tick_hashed(&mut self)
        ensures { self.new ≡ record self.old { hashed = self.old.hashed + 1 } }
    {
        *self = self.plus(1, 0, 0, 0, 0);
    }

    /// Counts one more bucket entry read.
    pub fn tick_entries(&mut self)
        ensures { self.new ≡ record self.old { entries = self.old.entries + 1 } }
    {
        *self = self.plus(0, 1, 0, 0, 0);
    }

    /// Counts one more pattern compared with the haystack.
    pub fn tick_compared(&mut self)
        ensures { self.new ≡ record self.old { compared = self.old.compared + 1 } }
    {
        *self = self.plus(0, 0, 1, 0, 0);
    }

    /// Counts one more byte looked up in a byte table.
    pub fn tick_scanned(&mut self)
        ensures { self.new ≡ record self.old { scanned = self.old.scanned + 1 } }
    {
        *self = self.plus(0, 0, 0, 1, 0);
    }

    /// Counts one more candidate offset at which patterns are compared.
    pub fn tick_tried(&mut self)
        ensures { self.new ≡ record self.old { tried = self.old.tried + 1 } }
    {
        *self = self.plus(0, 0, 0, 0, 1);
    }

    // One proof by hand covers all ticks. The numbers are in the order of the counts.
    fn plus(&self, hashed: u64, entries: u64, compared: u64, scanned: u64, tried: u64) -> Tally
        ensures { result ≡ plus self.now
            (record { hashed = hashed; entries = entries; compared = compared; scanned = scanned; tried = tried }) }
    {
        Self {}
    }
}
