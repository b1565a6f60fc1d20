//! What is done with one line: whether it is selected, and what of it is printed; and the result of a scan.
ghost use Rattle.literal_base.specs.declared.packed.MatchKind.TheVariants.{LeftmostLongest};
ghost use Rattle.litscan.specs.Asked.{one_asked};
ghost use Rattle.litscan.specs.Fault.{IsWriteFault};
ghost use Rattle.litscan.specs.Inside.Passed.{HasWord};
ghost use Rattle.litscan.specs.Options.{is_silent};
ghost use Rattle.litscan.specs.Printed.{PrintsUnlessSilent, counts};
ghost use Rattle.std.specs.Io.KnownBytes.{Appends};
ghost use Rattle.std.specs.List.{count_by};
ghost use Rattle.std.specs.Prelude.{◌&&◌, ◌+◌, ◌<◌, ◌^◌, ◌||◌, ◌∷◌, ◌≡◌, ◌≢◌, ◌≤◌, IfErr, IfOk, List, MatchOption};
ghost use Rattle.std.specs.Prelude.{MatchResult, None, OnOk, Some, [], length, true, ℕ};

use crate::asked::has_asked;
use crate::device::Device;
use crate::fault::Fault;
use crate::options::Options;
use crate::printing::{print_line, print_matches};
use literal_search::Search;
use std::io::{ErrorKind, Write};

/// The result of a scan of a text.
#[derive(Clone, Copy)]
pub struct Scanned {
    /// The number of lines read that are selected.
    pub count: u64,
    /// The kind of the error, if the text could not be read to its end.
    pub failure: Option<ErrorKind>,
}

impl Scanned {
    /// The scan read all that it has to read, and this many lines are selected.
    pub fn whole(count: u64) -> Scanned
        ensures { result ≡ record { count = count; failure = None } }
    {
        Scanned {
            count,
            failure: None,
        }
    }

    /// This many lines are selected, and the text is too large to read on.
    pub fn too_large(count: u64) -> Scanned
        ensures { result ≡ record { count = count; failure = Some ErrorKind.FileTooLarge } }
    {
        Scanned {
            count,
            failure: Some(ErrorKind::FileTooLarge),
        }
    }
}

/// The result of a scan after this fault: a failed read ends the scan, and any other fault is passed on.
pub fn failed_behind(count: u64, fault: Fault, failure: Option<ErrorKind>) -> Result<Scanned, Fault>
    ensures { MatchResult result
        (λ scanned. (scanned ≡ record { count = count; failure = failure }) × (fault ≡ Fault.ReadFailed))
        (λ error. (error ≡ fault) × (fault ≢ Fault.ReadFailed)) }
{
    match fault {
        Fault::ReadFailed => Ok(Scanned { count, failure }),
        _ => Err(fault),
    }
}

/// The offset after the next line and its end. None if this and so many bytes more reach 2^64.
pub fn end_behind(offset: u64, line: &[u8], more: u64) -> Option<u64>
    ensures { MatchOption result (2 ^ 64 ≤ offset + length line.now + 1 + more)
        (λ end. (end ≡ offset + length line.now + 1) × (end + more < 2 ^ 64)) }
{
    let end = offset.checked_add(line.len() as u64)?.checked_add(1)?;
    end.checked_add(more)?;
    Some(end)
}

/// Prints a selected line, as requested, unless no lines are printed. Returns 1 if the line is selected, and otherwise
/// 0.
pub fn take_line<W: Write>(
    known: bool,
    search: &Search,
    options: Options,
    name: &[u8],
    number: u64,
    offset: u64,
    line: &[u8],
    writer: &mut Device<W>,
) -> Result<u64, Fault>
    requires known { known ≡ true → HasWord search.now line.now }
    requires longest { search.now.query.kind ≡ LeftmostLongest }
    requires inside { offset + length line.now < 2 ^ 64 }
    ensures few { IfOk result (λ count. count ≤ 1) }
    ensures counted { IfOk result (λ count.
        count ≡ count_by (counts search.now options) (line.now ∷ [])) }
    ensures printed { OnOk result ((out : List ℕ)
        × Appends (W.contents writer.old.inner) (W.contents writer.new.inner) out
        × PrintsUnlessSilent (is_silent options) search.now options name.now number offset (line.now ∷ []) out) }
    ensures error { IfErr result (IsWriteFault writer.new.failure) }
{
    if prints_nothing(options) {
        return Ok(u64::from(counts(known, search, options, line)));
    }
    if options.only {
        return print_matches(search, options, name, number, offset, line, writer);
    }
    if !counts(known, search, options, line) {
        return Ok(0);
    }
    print_line(search, options, name, number, offset, line, writer)?;
    Ok(1)
}

/// Whether no line leads to output: lines are not requested, or only the matches of lines without a match.
pub fn prints_nothing(options: Options) -> bool
    ensures { result ≡ (is_silent options || (options.only && options.others)) }
{
    options.is_silent() || options.only && options.others
}

/// Whether a line is selected. With `known`, a word is known to occur in it.
pub fn counts(known: bool, search: &Search, options: Options, line: &[u8]) -> bool
    requires known { known ≡ true → HasWord search.now line.now }
    requires longest { search.now.query.kind ≡ LeftmostLongest }
    ensures { result ≡ counts search.now options line.now }
{
    is_asked(known, search, options, line) != options.others
}

/// Whether a word occurs in a line as `-w` and `-x` require.
fn is_asked(known: bool, search: &Search, options: Options, line: &[u8]) -> bool
    requires known { known ≡ true → HasWord search.now line.now }
    requires longest { search.now.query.kind ≡ LeftmostLongest }
    ensures { result ≡ one_asked search.now options line.now }
{
    if known && !(options.whole || options.alone) {
        return true;
    }
    has_asked(search, options, line)
}
