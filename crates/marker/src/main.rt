//! Prints a text with brackets around each word that it finds: `marker WORD... < TEXT`.
#![tactic(auto)]

ghost use Rattle.std.specs.Prelude.{◌≡◌, List, IfOk};
ghost use Rattle.literal_base.specs.Greedy.{IsGreedy};
ghost use Rattle.literal_base.specs.MatchValue.{MatchValue};
ghost use Rattle.marker.specs.Marked.{marked};

use literal_search::{MatchKind, Search};
use std::alloc::{AllocError, Global};
use std::env;
use std::io::{self, Read, Write};
use std::process::ExitCode;

/// The text with brackets around each match, of those from the left that do not overlap.
fn mark(alloc: Global, search: &Search, text: &[u8]) -> Result<Vec<u8>, AllocError>
    ensures { IfOk result (λ marks. (all : List MatchValue)
        × IsGreedy search.now.query search.now.ignore_case text.now 0 all
        × (marks.items ≡ marked text.now 0 all)) }
{
    let mut marks = Vec::new(alloc);
    let mut at = 0;
    for found in search.find_iter(text) {
        marks.extend_from_slice(&text[at..found.start()])?;
        marks.push(b'[')?;
        marks.extend_from_slice(found.span().of(text))?;
        marks.push(b']')?;
        at = found.end();
    }
    marks.extend_from_slice(&text[at..])?;
    Ok(marks)
}

fn main(rt: HostRuntime) -> io::Result<ExitCode> {
    let words = env::args(&rt)?.skip(1).collect::<Vec<String>>(rt.alloc())?;
    let patterns = words.iter().map(|word| word.as_bytes());
    let search = match Search::new(rt.alloc(), MatchKind::LeftmostLongest, false, patterns) {
        Ok(search) => search,
        Err(error) => {
            eprintln!(rt; "marker: {error}")?;
            return Ok(ExitCode::from(2));
        }
    };
    let mut text = Vec::new(rt.alloc());
    rt.stdin().read_to_end(&mut text)?;
    rt.stdout().write_all(&mark(rt.alloc(), &search, &text)?)?;
    Ok(ExitCode::SUCCESS)
}
