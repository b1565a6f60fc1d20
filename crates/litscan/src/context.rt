//! The scan that prints selected lines with the lines around them. It passes over lines without a word where they are
//! buffered, reads the others line by line, and holds lines until it is known whether a line after them is selected.
ghost use Rattle.std.specs.Prelude.{◌≡◌, ◌<◌, ◌≤◌, ◌+◌, ◌-◌, ◌^◌, ◌++◌, ◌&&◌, ◌⊎◌, ℕ, List, [], length, map};
ghost use Rattle.std.specs.Prelude.{IfErr, IfOk, OnOk, if◌then◌else◌, false, nat_lt, not, take, true};
ghost use Rattle.std.specs.Io.KnownBytes.{Appends, Consumes, Keeps};
ghost use Rattle.literal_base.specs.declared.packed.MatchKind.TheVariants.{LeftmostLongest};
ghost use Rattle.litscan.specs.Context.{Mark, PrintsGroups, has_context, lines_after, near, printed_separator};
ghost use Rattle.litscan.specs.Fault.{IsWriteFault, StopsRead};
ghost use Rattle.litscan.specs.Inside.Groups.{Follows, GoesOn, IsWell, PassesAhead, PassesOver, held_of, next_number};
ghost use Rattle.litscan.specs.Inside.Groups.{next_offset};
ghost use Rattle.litscan.specs.Inside.Passed.{EndsLine};
ghost use Rattle.litscan.specs.Lines.{lines_of, with_end};
ghost use Rattle.std.specs.List.{flat_map};
ghost use Rattle.litscan.specs.Printed.{CannotRead, Reads, ReadsTooMany, StopsScan};
ghost use Rattle.litscan.specs.Scans.{Scans, is_all};
ghost use Rattle.literal_search.specs.SearchValue.{SearchValue};
ghost use Rattle.litscan.specs.declared.fault.Fault.TheVariants.{OutOfMemory};

use crate::color::{COLON, print_colored};
use crate::device::{Device, ReadsAhead, flush_before_wait, flush_line, read_line};
use crate::fault::Fault;
use crate::options::{Options, is_enough};
use crate::passed::{Gap, Passed, first_end, look_ahead, start_of_last};
use crate::printing::{print_found, print_near};
use crate::selected::{Scanned, counts, end_behind, failed_behind};
use literal_search::Search;
use std::alloc::Global;
use std::collections::VecDeque;
use std::io::{BufRead, Write};

/// Reads a text until enough lines are selected and the lines to print after them are read. Prints the selected lines
/// and the lines around them, and returns how many are selected.
pub fn scan_with_context<R: BufRead + ReadsAhead, W: Write>(
    alloc: Global,
    search: &Search,
    options: Options,
    separator: &[u8],
    any: bool,
    name: &[u8],
    reader: &mut Device<R>,
    writer: &mut Device<W>,
) -> Result<Scanned, Fault>
    requires longest { search.now.query.kind ≡ LeftmostLongest }
    requires context { has_context options ≡ true }
    ensures scanned { IfOk result (λ scanned. (text out : List ℕ)
        × (scans : Scans search.now options separator.now any name.now text scanned out)
        × Reads scanned.failure (is_all options scanned scans.behind) (R.remaining reader.old.inner)
        (R.remaining reader.new.inner) text
        × Appends (W.contents writer.old.inner) (W.contents writer.new.inner) out) }
    ensures failed { IfOk result (λ scanned. CannotRead reader.new.failure
        (ReadsTooMany (R.remaining reader.old.inner) (R.remaining reader.new.inner)) scanned.failure) }
    ensures error { IfErr result (StopsScan reader.new.failure writer.new.failure) }
{
    let mut context = Context::new(alloc, any);
    let (mut count, mut offset) = (0, 0);
    let mut gap = Gap::new(options, search);
    loop {
        let enough = is_enough(options.limit(), count);
        if context.is_done(enough) {
            return Ok(Scanned::whole(count));
        }
        let far = gap.is_long();
        let passed = context.pass_ahead(alloc, search, options, far, offset, reader, writer);
        let passed = match passed {
            Ok(passed) => passed,
            Err(fault) => return failed_behind(count, fault, reader.failure()),
        };
        offset += passed.bytes as u64;
        let mut line = Vec::new(alloc);
        let fed = match read_line(options, reader, &mut line, writer) {
            Ok(fed) => fed,
            Err(fault) => return failed_behind(count, fault, reader.failure()),
        };
        // One byte is added, so that the next line number is below 2^64 too.
        let Some(end) = end_behind(offset, line.as_slice(), 1) else {
            return Ok(Scanned::too_large(count));
        };
        if !fed && line.is_empty() {
            return Ok(Scanned::whole(count));
        }
        let to_count = !enough && counts(false, search, options, line.as_slice());
        let taken = context.take(to_count, search, options, separator, name, line, writer);
        if let Err(fault) = taken {
            return Err(reader.stopped_by(fault));
        }
        flush_line(options, writer)?;
        count += u64::from(to_count);
        gap = gap.with(passed.lines, false).with(1, to_count);
        if !fed {
            return Ok(Scanned::whole(count));
        }
        offset = end;
    }
}

/// The last lines read, which may still be printed, and how the next line is printed.
#[derive(Drop)]
pub struct Context {
    /// Lines that are printed only if a line soon after them is selected.
    held: VecDeque<Vec<u8>>,
    /// The line number of the first held line, or else of the next line.
    number: u64,
    /// The offset of that line in the text, in bytes.
    offset: u64,
    /// How many of the next lines are printed because they follow a selected line.
    due: u64,
    /// Whether any line was printed, of this file or an earlier one.
    any: bool,
    /// Whether the line before the first held line, or else before the next line, was not printed.
    apart: bool,
}

impl Context {
    /// The state at the start of a text. `any` says whether a line of an earlier file was printed.
    pub fn new(alloc: Global, any: bool) -> Context
        ensures held { result.held.items ≡ [] }
        ensures number { result.number ≡ 1 }
        ensures offset { result.offset ≡ 0 }
        ensures due { result.due ≡ 0 }
        ensures any { result.any ≡ any }
        ensures apart { result.apart ≡ true }
    {
        Context {
            held: VecDeque::new(alloc),
            number: 1,
            offset: 0,
            due: 0,
            any,
            apart: true,
        }
    }

    /// Whether the next line is printed because it follows a selected line.
    pub fn is_due(&self) -> bool
        ensures { result ≡ nat_lt 0 self.now.due }
    {
        self.due > 0
    }

    /// Whether no line is left to read: enough are selected, and none is due.
    fn is_done(&self, enough: bool) -> bool
        ensures { result ≡ (enough && not (nat_lt 0 self.now.due)) }
    {
        enough && !self.is_due()
    }

    /// Passes over the buffered lines before the first one with a word, unless they are selected or due. They begin at
    /// this offset of the text. `far` says whether it looks at more than the first line.
    fn pass_ahead<R: BufRead + ReadsAhead, W: Write>(
        &mut self,
        alloc: Global,
        search: &Search,
        options: Options,
        far: bool,
        offset: u64,
        reader: &mut Device<R>,
        writer: &mut Device<W>,
    ) -> Result<Passed, Fault>
        requires well { IsWell options self.old }
        requires number { next_number self.old ≤ offset + 1 }
        requires offset { next_offset self.old ≡ offset }
        ensures passed { IfOk result (λ passed. (lines : List (List ℕ))
            × Consumes (R.remaining reader.old.inner) (R.remaining reader.new.inner)
            (flat_map (with_end options.line_end) lines)
            × PassesAhead search.now options offset self.old self.new passed lines) }
        ensures kept { Keeps (W.contents writer.old.inner) (W.contents writer.new.inner) }
        ensures error { IfErr result (StopsRead reader.new.failure writer.new.failure) }
    {
        if options.others || self.is_due() {
            return Ok(Passed::none());
        }
        flush_before_wait(options.line_end, reader, writer)?;
        let passed = match reader.inner.fill_buf() {
            Ok(bytes) => self.pass_buffered(alloc, search, options, far, offset, bytes),
            Err(error) => {
                reader.after_fill(error)?;
                return Ok(Passed::none());
            }
        };
        match passed {
            Ok(passed) => {
                reader.inner.consume(passed.bytes);
                Ok(passed)
            }
            Err(fault) => Err(reader.stopped_by(fault)),
        }
    }

    /// Passes over the lines of buffered bytes before the first one with a word. It passes over none if the offset
    /// after these bytes, and two more, reaches 2^64.
    fn pass_buffered(
        &mut self,
        alloc: Global,
        search: &Search,
        options: Options,
        far: bool,
        offset: u64,
        bytes: &[u8],
    ) -> Result<Passed, Fault>
        requires others { options.others ≡ false }
        requires due { self.old.due ≡ 0 }
        requires well { IsWell options self.old }
        requires number { next_number self.old ≤ offset + 1 }
        requires offset { next_offset self.old ≡ offset }
        ensures passed { IfOk result (λ passed. (lines : List (List ℕ))
            × (take passed.bytes bytes.now ≡ flat_map (with_end options.line_end) lines)
            × PassesAhead search.now options offset self.old self.new passed lines) }
        ensures inside { IfOk result (λ passed. passed.bytes ≤ length bytes.now) }
        ensures error { IfErr result (λ fault. fault ≡ OutOfMemory) }
    {
        let Some(_) = end_behind(offset, bytes, 1) else {
            return Ok(Passed::none());
        };
        let passed = look_ahead(options, search, far, bytes);
        self.pass(alloc, options, offset, passed.lines, &bytes[..passed.bytes])?;
        Ok(passed)
    }

    /// Passes over whole lines that are neither selected nor due. It holds the last ones, and leaves the others out.
    fn pass(
        &mut self,
        alloc: Global,
        options: Options,
        offset: u64,
        lines: usize,
        bytes: &[u8],
    ) -> Result<(), Fault>
        requires due { self.old.due ≡ 0 }
        requires well { IsWell options self.old }
        requires whole { EndsLine options.line_end bytes.now }
        requires lines { lines ≡ length (lines_of options.line_end bytes.now) }
        requires offset { next_offset self.old ≡ offset }
        requires number { next_number self.old + length bytes.now < 2 ^ 64 }
        requires small { offset + length bytes.now < 2 ^ 64 }
        ensures over { OnOk result (PassesOver options self.old self.new (lines_of options.line_end bytes.now)) }
        ensures error { IfErr result (λ fault. fault ≡ OutOfMemory) }
    {
        let before = options.lines_before();
        if lines as u64 <= before {
            return self.hold_each(alloc, options, bytes);
        }
        let kept = before as usize;
        let start = start_of_last(options.line_end, kept, bytes);
        self.leave_out(lines - kept, offset + start as u64);
        self.hold_each(alloc, options, &bytes[start..])
    }

    /// Leaves out the held lines and so many more. The next line begins at this offset of the text.
    fn leave_out(&mut self, lines: usize, offset: u64)
        requires number { next_number self.old + lines < 2 ^ 64 }
        ensures held { self.new.held.items ≡ [] }
        ensures rest { self.new ≡ record self.old
            { held = self.new.held; number = next_number self.old + lines; offset = offset; apart = true } }
    {
        self.number += self.held.len() as u64 + lines as u64;
        self.offset = offset;
        self.held.clear();
        self.apart = true;
    }

    /// Holds each line of bytes that are whole lines, neither selected nor due.
    fn hold_each(&mut self, alloc: Global, options: Options, bytes: &[u8]) -> Result<(), Fault>
        requires due { self.old.due ≡ 0 }
        requires well { IsWell options self.old }
        requires whole { EndsLine options.line_end bytes.now }
        requires number { next_number self.old + length bytes.now < 2 ^ 64 }
        requires offset { next_offset self.old + length bytes.now < 2 ^ 64 }
        ensures over { OnOk result (PassesOver options self.old self.new (lines_of options.line_end bytes.now)) }
        ensures error { IfErr result (λ fault. fault ≡ OutOfMemory) }
    {
        let mut at = 0;
        while at < bytes.len() {
            let end = first_end(options.line_end, bytes, at);
            let line = Vec::from_slice(alloc, &bytes[at..end]).or(Err(Fault::OutOfMemory))?;
            self.hold(options, line)?;
            at = end + 1;
        }
        Ok(())
    }

    /// Handles the next line, selected or not, and prints the lines now known to be printed.
    pub fn take<W: Write>(
        &mut self,
        counts: bool,
        search: &Search,
        options: Options,
        separator: &[u8],
        name: &[u8],
        line: Vec<u8>,
        writer: &mut Device<W>,
    ) -> Result<(), Fault>
        requires longest { search.now.query.kind ≡ LeftmostLongest }
        requires well { IsWell options self.old }
        requires number { next_number self.old + 1 < 2 ^ 64 }
        requires offset { next_offset self.old + length line.items + 1 < 2 ^ 64 }
        ensures printed { OnOk result ((out : List ℕ)
            × Appends (W.contents writer.old.inner) (W.contents writer.new.inner) out
            × GoesOn search.now options separator.now name.now self.old self.new line.items counts out) }
        ensures follows { OnOk result (Follows options self.old self.new line.items) }
        ensures due { OnOk result (self.new.due ≡ (if counts then lines_after options else self.old.due - 1)) }
        ensures error { IfErr result (λ fault. IsWriteFault writer.new.failure fault ⊎ (fault ≡ OutOfMemory)) }
    {
        if counts {
            return self.print_counted(search, options, separator, name, line.as_slice(), writer);
        }
        if self.due > 0 {
            return self.print_due(search, options, name, line.as_slice(), writer);
        }
        self.hold(options, line)
    }

    /// Prints a separator, if one is due, the held lines, and then the next line, which is selected.
    fn print_counted<W: Write>(
        &mut self,
        search: &Search,
        options: Options,
        separator: &[u8],
        name: &[u8],
        line: &[u8],
        writer: &mut Device<W>,
    ) -> Result<(), Fault>
        requires longest { search.now.query.kind ≡ LeftmostLongest }
        requires well { IsWell options self.old }
        requires number { next_number self.old + 1 < 2 ^ 64 }
        requires offset { next_offset self.old + length line.now + 1 < 2 ^ 64 }
        ensures printed { OnOk result ((out : List ℕ)
            × Appends (W.contents writer.old.inner) (W.contents writer.new.inner) out
            × GoesOn search.now options separator.now name.now self.old self.new line.now true out) }
        ensures follows { OnOk result (Follows options self.old self.new line.now) }
        ensures due { OnOk result (self.new.due ≡ lines_after options) }
        ensures error { IfErr result (IsWriteFault writer.new.failure) }
    {
        self.print_separator(options, separator, writer)?;
        self.print_held(search, options, name, writer)?;
        print_found(
            search,
            options,
            name,
            self.number,
            self.offset,
            line,
            writer,
        )?;
        self.advance(line.len());
        self.due = options.lines_after();
        Ok(())
    }

    /// Prints a separator, if lines were left out since the last printed one.
    fn print_separator<W: Write>(
        &mut self,
        options: Options,
        separator: &[u8],
        writer: &mut Device<W>,
    ) -> Result<(), Fault>
        ensures printed { OnOk result (Appends (W.contents writer.old.inner) (W.contents writer.new.inner)
            (if self.old.any && self.old.apart then printed_separator options separator.now else [])) }
        ensures new { OnOk result (self.new ≡ record self.old { any = true; apart = false }) }
        ensures error { IfErr result (IsWriteFault writer.new.failure) }
    {
        if options.separated && self.any && self.apart {
            print_colored(options, COLON, separator, writer)?;
            writer.write_all(b"\n")?;
        }
        self.any = true;
        self.apart = false;
        Ok(())
    }

    /// Prints the held lines.
    fn print_held<W: Write>(
        &mut self,
        search: &Search,
        options: Options,
        name: &[u8],
        writer: &mut Device<W>,
    ) -> Result<(), Fault>
        requires longest { search.now.query.kind ≡ LeftmostLongest }
        requires number { next_number self.old < 2 ^ 64 }
        requires offset { next_offset self.old < 2 ^ 64 }
        ensures printed { OnOk result ((out : List ℕ)
            × Appends (W.contents writer.old.inner) (W.contents writer.new.inner) out
            × ((separator : List ℕ) (lines : List (List ℕ)) (marks : List Mark) (rest : List ℕ)
            → PrintsGroups search.now options separator name.now true false self.new.number self.new.offset lines marks
            rest → PrintsGroups search.now options separator name.now true false self.old.number self.old.offset
            (held_of self.old ++ lines) (map (λ line. near) (held_of self.old) ++ marks) (out ++ rest))) }
        ensures held { OnOk result (self.new.held.items ≡ []) }
        ensures number { OnOk result (self.new.number ≡ next_number self.old) }
        ensures offset { OnOk result (self.new.offset ≡ next_offset self.old) }
        ensures any { self.new.any ≡ self.old.any }
        ensures apart { self.new.apart ≡ self.old.apart }
        ensures error { IfErr result (IsWriteFault writer.new.failure) }
    {
        while let Some(line) = self.held.pop_front() {
            print_near(
                search,
                options,
                name,
                self.number,
                self.offset,
                line.as_slice(),
                writer,
            )?;
            self.advance(line.len());
        }
        Ok(())
    }

    /// Prints the next line, which follows a selected line.
    fn print_due<W: Write>(
        &mut self,
        search: &Search,
        options: Options,
        name: &[u8],
        line: &[u8],
        writer: &mut Device<W>,
    ) -> Result<(), Fault>
        requires longest { search.now.query.kind ≡ LeftmostLongest }
        requires due { 0 < self.old.due }
        requires well { IsWell options self.old }
        requires number { next_number self.old + 1 < 2 ^ 64 }
        requires offset { next_offset self.old + length line.now + 1 < 2 ^ 64 }
        ensures printed { OnOk result ((out : List ℕ)
            × Appends (W.contents writer.old.inner) (W.contents writer.new.inner) out
            × ((separator : List ℕ)
            → GoesOn search.now options separator name.now self.old self.new line.now false out)) }
        ensures follows { OnOk result (Follows options self.old self.new line.now) }
        ensures due { OnOk result (self.new.due ≡ self.old.due - 1) }
        ensures error { IfErr result (IsWriteFault writer.new.failure) }
    {
        print_near(
            search,
            options,
            name,
            self.number,
            self.offset,
            line,
            writer,
        )?;
        self.advance(line.len());
        self.due -= 1;
        Ok(())
    }

    /// Holds the next line, since a line after it may be selected, and drops the first held line if there are too many.
    fn hold(&mut self, options: Options, line: Vec<u8>) -> Result<(), Fault>
        requires due { self.old.due ≡ 0 }
        requires well { IsWell options self.old }
        requires number { next_number self.old + 1 < 2 ^ 64 }
        requires offset { next_offset self.old + length line.items + 1 < 2 ^ 64 }
        ensures goes_on { OnOk result ((search : SearchValue) (separator name : List ℕ)
            → GoesOn search options separator name self.old self.new line.items false []) }
        ensures follows { OnOk result (Follows options self.old self.new line.items) }
        ensures due { self.new.due ≡ 0 }
        ensures error { IfErr result (λ fault. fault ≡ OutOfMemory) }
    {
        self.held.push_back(line).or(Err(Fault::OutOfMemory))?;
        if self.held.len() as u64 <= options.lines_before() {
            return Ok(());
        }
        if let Some(first) = self.held.pop_front() {
            self.advance(first.len());
            self.apart = true;
        }
        Ok(())
    }

    /// Advances line number and offset past a line of this length and its end.
    fn advance(&mut self, len: usize)
        requires number { self.old.number + 1 < 2 ^ 64 }
        requires offset { self.old.offset + len + 1 < 2 ^ 64 }
        ensures { self.new ≡ record self.old { number = self.old.number + 1; offset = self.old.offset + len + 1 } }
    {
        self.number += 1;
        self.offset += len as u64 + 1;
    }
}
