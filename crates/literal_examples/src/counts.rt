//! Callers of counts that rely only on contracts.
ghost use Rattle.std.specs.Prelude.{◌≡◌, ◌+◌, ◌≤◌, List, length, IfOk};
ghost use Rattle.literal_base.specs.Greedy.{IsGreedy};
ghost use Rattle.literal_base.specs.MatchValue.{MatchValue};
ghost use Rattle.literal_search.specs.SearchValue.{ScansListAtMost};

use literal_base::count::Tally;
use literal_search::laws::{iterations_scan_at_most, streams_are_greedy};
use literal_search::{Match, Search};
use std::alloc::Global;
use std::io;

/// A tick of each kind.
pub fn tick_each(tally: &mut Tally)
    ensures { tally.new ≡ record {
      hashed = tally.old.hashed + 1;
      entries = tally.old.entries + 1;
      compared = tally.old.compared + 1;
      scanned = tally.old.scanned + 1;
      tried = tally.old.tried + 1;
    } }
{
    tally.tick_hashed();
    tally.tick_entries();
    tally.tick_compared();
    tally.tick_scanned();
    tally.tick_tried();
}

/// A new tally, ticked.
pub fn ticked() -> Tally
    ensures { result ≡ record { hashed = 1; entries = 1; compared = 1; scanned = 1; tried = 1 } }
{
    let mut tally = Tally::new();
    tick_each(&mut tally);
    tally
}

/// The number of matches in a text. The tally counts the bytes that are looked up.
pub fn count_scanned(search: &Search, text: &[u8], tally: &mut Tally) -> usize
    ensures count { (all : List MatchValue) × IsGreedy search.now.query search.now.ignore_case text.now 0 all
        × (result ≡ length all) }
    ensures least { tally.old.scanned + length text.now ≤ tally.new.scanned }
    ensures bounded { ScansListAtMost search.now.query.patterns (length text.now) tally.old tally.new }
{
    iterations_scan_at_most();
    let mut matches = search.find_iter(text);
    let mut count = 0;
    while let Some(_) = matches.next_counted(tally) {
        count += 1;
    }
    count
}

/// All matches in a text that is read as a stream.
pub fn list_streamed(alloc: Global, search: &Search, text: &[u8]) -> io::Result<Vec<Match>>
    ensures all { IfOk result (λ all. IsGreedy search.now.query search.now.ignore_case text.now 0 all.items) }
{
    streams_are_greedy();
    let mut all = Vec::new(alloc);
    for found in search.find_stream(alloc, text)? {
        all.push(found?)?;
    }
    Ok(all)
}
