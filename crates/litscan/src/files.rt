//! Searches files one after another.
ghost use Rattle.std.specs.Prelude.{◌≡◌, ◌⊎◌, ◌||◌, ℕ, List, Option, Some, IfErr, IfOk, IfSome, OnOk, map};
ghost use Rattle.std.specs.Prelude.{false, nat_lt, true};
ghost use Rattle.std.specs.Option.{IsSome, is_some};
ghost use Rattle.std.specs.Io.KnownBytes.{Appends, Keeps};
ghost use Rattle.std.specs.List.{flat_map};
ghost use Rattle.literal_base.specs.declared.packed.MatchKind.TheVariants.{LeftmostLongest};
ghost use Rattle.litscan.specs.Fault.{IsWriteFault};
ghost use Rattle.litscan.specs.Files.{AreSearched, PrintsFile, Searched, status_for};
ghost use Rattle.litscan.specs.Printed.{CannotRead, Reads, ReadsTooMany};
ghost use Rattle.litscan.specs.Options.{skips_zero};
ghost use Rattle.litscan.specs.Scans.{BeginsWithoutZero, HasZero, IsSearched, Scans, is_all};
ghost use Rattle.litscan.specs.declared.fault.Fault.TheVariants.{OutOfMemory};

use crate::device::{Device, ReadsAhead, flush_before_wait};
use crate::fault::Fault;
use crate::input::{
    FileId, buffered, input_may_wait, is_file_of, is_input, is_input_file, open, options_for_file,
    options_for_input, reader_of, tell,
};
use crate::options::Options;
use crate::scan::scan;
use crate::selected::Scanned;
use literal_search::Search;
use std::io::{BufRead, ErrorKind, Write};

/// The result of searching some files.
#[derive(Clone, Copy)]
pub struct Found {
    /// Whether a line is selected in any of them.
    pub any: bool,
    /// Whether any of them could not be opened, or not be read to its end.
    pub failed: bool,
}

impl Found {
    /// The result after the scan of one more file.
    fn with(self, scanned: Scanned) -> Found
        ensures { result ≡ record {
          any = self.any || nat_lt 0 scanned.count;
          failed = self.failed || is_some scanned.failure;
        } }
    {
        Found {
            any: self.any || scanned.count > 0,
            failed: self.failed || scanned.failure.is_some(),
        }
    }

    /// The exit status: 0 if a line is selected, 1 if none is, and 2 if a file could not be read. With `quiet`, a
    /// selected line gives 0 even then.
    pub fn status(self, quiet: bool) -> u8
        ensures { result ≡ status_for quiet self }
    {
        if self.any && (quiet || !self.failed) {
            return 0;
        }
        if self.failed { 2 } else { 1 }
    }
}

/// Searches these files in turn, prints what is requested, and flushes it.
pub fn scan_files<W: Write>(
    rt: &HostRuntime,
    search: &Search,
    options: Options,
    separator: &[u8],
    label: &[u8],
    names: &[Vec<u8>],
    output: Option<FileId>,
    writer: &mut Device<W>,
) -> Result<Found, Fault>
    requires { search.now.query.kind ≡ LeftmostLongest }
    ensures searched { IfOk result (λ found. (all : List Searched)
        × AreSearched search.now options separator.now label.now output (map (λ name. name.items) names.now) found all
        × Appends (W.contents writer.old.inner) (W.contents writer.new.inner) (flat_map (λ one. one.out) all)) }
    ensures flushed { OnOk result (writer.new.flushed ≡ true) }
    ensures error { IfErr result (λ fault. IsWriteFault writer.new.failure fault ⊎ (fault ≡ OutOfMemory)) }
{
    let found = scan_each(rt, search, options, separator, label, names, output, writer)?;
    writer.flush()?;
    Ok(found)
}

/// Searches these files in turn. With `quiet`, it stops after the first file in which a line is selected.
fn scan_each<W: Write>(
    rt: &HostRuntime,
    search: &Search,
    options: Options,
    separator: &[u8],
    label: &[u8],
    names: &[Vec<u8>],
    output: Option<FileId>,
    writer: &mut Device<W>,
) -> Result<Found, Fault>
    requires { search.now.query.kind ≡ LeftmostLongest }
    ensures searched { IfOk result (λ found. (all : List Searched)
        × AreSearched search.now options separator.now label.now output (map (λ name. name.items) names.now) found all
        × Appends (W.contents writer.old.inner) (W.contents writer.new.inner) (flat_map (λ one. one.out) all)) }
    ensures error { IfErr result (λ fault. IsWriteFault writer.new.failure fault ⊎ (fault ≡ OutOfMemory)) }
{
    let mut found = Found {
        any: false,
        failed: false,
    };
    for name in names {
        if options.quiet && found.any {
            return Ok(found);
        }
        let scanned = scan_file(
            rt,
            search,
            options,
            separator,
            label,
            found.any,
            name.as_slice(),
            output,
            writer,
        )?;
        found = found.with(scanned);
    }
    Ok(found)
}

/// Searches this file, or standard input. A file that cannot be opened, or is standard output, is reported.
fn scan_file<W: Write>(
    rt: &HostRuntime,
    search: &Search,
    options: Options,
    separator: &[u8],
    label: &[u8],
    any: bool,
    name: &[u8],
    output: Option<FileId>,
    writer: &mut Device<W>,
) -> Result<Scanned, Fault>
    requires { search.now.query.kind ≡ LeftmostLongest }
    ensures printed { IfOk result (λ scanned. (text : Option (List ℕ)) × (out : List ℕ)
        × PrintsFile search.now options separator.now label.now any output name.now text scanned out
        × Appends (W.contents writer.old.inner) (W.contents writer.new.inner) out) }
    ensures error { IfErr result (λ fault. IsWriteFault writer.new.failure fault ⊎ (fault ≡ OutOfMemory)) }
{
    if is_input(name) {
        if let Some(id) = output {
            if is_input_file(rt, id) {
                return not_read(rt, options, label, ErrorKind::Deadlock, writer);
            }
        }
        let own = options_for_input(rt, options);
        let mut reader = buffered(rt.alloc(), rt.stdin(), input_may_wait(rt))?;
        return scan_input(rt, search, own, separator, any, label, &mut reader, writer);
    }
    match open(rt, name) {
        Ok(file) => {
            if let Some(id) = output {
                if is_file_of(file.metadata(), id) {
                    return not_read(rt, options, name, ErrorKind::Deadlock, writer);
                }
            }
            let own = options_for_file(options, &file);
            let mut reader = reader_of(rt.alloc(), file)?;
            scan_input(rt, search, own, separator, any, name, &mut reader, writer)
        }
        Err(ErrorKind::OutOfMemory) => Err(Fault::OutOfMemory),
        Err(kind) => not_read(rt, options, name, kind, writer),
    }
}

/// Searches a text. With `-I`, a text with a zero byte in the first bytes read is searched as if it were empty.
fn scan_input<R: BufRead + ReadsAhead, W: Write>(
    rt: &HostRuntime,
    search: &Search,
    options: Options,
    separator: &[u8],
    any: bool,
    name: &[u8],
    reader: &mut Device<R>,
    writer: &mut Device<W>,
) -> Result<Scanned, Fault>
    requires { search.now.query.kind ≡ LeftmostLongest }
    ensures printed { IfOk result (λ scanned. (text out : List ℕ)
        × (scans : Scans search.now options separator.now any name.now text scanned out)
        × IsSearched options scanned.failure (is_all options scanned scans.behind) (R.remaining reader.old.inner)
        (R.remaining reader.new.inner) text
        × Appends (W.contents writer.old.inner) (W.contents writer.new.inner) out) }
    ensures error { IfErr result (λ fault. IsWriteFault writer.new.failure fault ⊎ (fault ≡ OutOfMemory)) }
{
    let is_zero = has_zero(options, reader, writer)?;
    if is_zero {
        let nothing: &[u8] = b"";
        let mut nothing = Device::new(nothing);
        return scan_told(
            rt,
            search,
            options,
            separator,
            any,
            name,
            &mut nothing,
            writer,
        );
    }
    scan_told(rt, search, options, separator, any, name, reader, writer)
}

/// Whether a text is searched as if it were empty, since a zero byte is in the first bytes read. If a text begins with
/// one, that is found, unless the read fails. The writer is flushed first if the read may wait.
fn has_zero<R: BufRead + ReadsAhead, W: Write>(
    options: Options,
    reader: &mut Device<R>,
    writer: &mut Device<W>,
) -> Result<bool, Fault>
    ensures zero { IfOk result (λ zero. zero ≡ true
        → (skips_zero options ≡ true) × IfSome (R.remaining reader.old.inner) HasZero) }
    ensures none { IfOk result (λ zero. zero ≡ false → skips_zero options ≡ true
        → IfSome (R.remaining reader.old.inner) BeginsWithoutZero ⊎ IsSome reader.new.failure) }
    ensures unread { Keeps (R.remaining reader.old.inner) (R.remaining reader.new.inner) }
    ensures kept { Keeps (W.contents writer.old.inner) (W.contents writer.new.inner) }
    ensures error { IfErr result (IsWriteFault writer.new.failure) }
{
    if !options.skips_zero() {
        return Ok(false);
    }
    flush_before_wait(options.line_end, reader, writer)?;
    Ok(reader.has_zero_ahead())
}

/// Searches a text. If it cannot be read to its end, that is reported, unless `-s` is given.
fn scan_told<R: BufRead + ReadsAhead, W: Write>(
    rt: &HostRuntime,
    search: &Search,
    options: Options,
    separator: &[u8],
    any: bool,
    name: &[u8],
    reader: &mut Device<R>,
    writer: &mut Device<W>,
) -> Result<Scanned, Fault>
    requires { search.now.query.kind ≡ LeftmostLongest }
    ensures printed { IfOk result (λ scanned. (text out : List ℕ)
        × (scans : Scans search.now options separator.now any name.now text scanned out)
        × Reads scanned.failure (is_all options scanned scans.behind) (R.remaining reader.old.inner)
        (R.remaining reader.new.inner) text
        × Appends (W.contents writer.old.inner) (W.contents writer.new.inner) out) }
    ensures failed { IfOk result (λ scanned. CannotRead reader.new.failure
        (ReadsTooMany (R.remaining reader.old.inner) (R.remaining reader.new.inner)) scanned.failure) }
    ensures error { IfErr result (λ fault. IsWriteFault writer.new.failure fault ⊎ (fault ≡ OutOfMemory)) }
{
    let scanned = scan(
        rt.alloc(),
        search,
        options,
        separator,
        any,
        name,
        reader,
        writer,
    )?;
    if let Some(kind) = scanned.failure {
        tell_behind(rt, options, name, kind, writer)?;
    }
    Ok(scanned)
}

/// The result for a file that is not read. This is reported, unless `-s` is given.
fn not_read<W: Write>(
    rt: &HostRuntime,
    options: Options,
    name: &[u8],
    kind: ErrorKind,
    writer: &mut Device<W>,
) -> Result<Scanned, Fault>
    ensures scanned { IfOk result (λ scanned. scanned ≡ record { count = 0; failure = Some kind }) }
    ensures kept { OnOk result (Keeps (W.contents writer.old.inner) (W.contents writer.new.inner)) }
    ensures error { IfErr result (IsWriteFault writer.new.failure) }
{
    tell_behind(rt, options, name, kind, writer)?;
    Ok(Scanned {
        count: 0,
        failure: Some(kind),
    })
}

/// Reports why a file is not read, or not to its end, unless `-s` is given. Earlier output is flushed first.
fn tell_behind<W: Write>(
    rt: &HostRuntime,
    options: Options,
    name: &[u8],
    kind: ErrorKind,
    writer: &mut Device<W>,
) -> Result<(), Fault>
    ensures kept { Keeps (W.contents writer.old.inner) (W.contents writer.new.inner) }
    ensures error { IfErr result (IsWriteFault writer.new.failure) }
{
    if options.untold {
        return Ok(());
    }
    writer.flush()?;
    tell(rt, name, kind);
    Ok(())
}
