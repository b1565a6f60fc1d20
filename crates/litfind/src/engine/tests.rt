//! Runs over readers and writers in memory that transfer few bytes a call, fail, or refuse.
ghost use Rattle.std.specs.Prelude.{◌≤◌, map, IfOk, string_bytes};
ghost use Rattle.litfind.specs.Lines.{AreLines};

use super::run;
use crate::device::{Checked, Failed, Sink, Source};
use crate::fault::Fault;
use std::alloc::{AllocError, Global};
use std::fmt::Display;
use std::io;
use std::io::{Read, Write};
use std::process::Abort;
use std::test::Fail;

/// A reader of bytes in memory, a few at each call. The call of this number fails.
#[derive(Drop)]
struct SlowReader<'a> {
    rest: &'a [u8],
    step: usize,
    calls: u32,
    failing: u32,
}

impl Read for SlowReader<'_> {
    fn read(&mut self, buf: &mut [u8]) -> io::Result<usize> {
        self.calls = self.calls.saturating_add(1);
        if self.calls == self.failing {
            return Err(io::Error::from(io::ErrorKind::Other));
        }
        let count = self.rest.len().min(self.step).min(buf.len());
        let (front, after) = self.rest.split_at(count);
        buf[..count].copy_from_slice(front);
        self.rest = after;
        Ok(count)
    }
}

/// A writer into memory, a few bytes at each call. The write of one number fails, that of another writes nothing, and
/// the flush of one number fails. No call requests memory.
#[derive(Drop)]
struct SlowWriter {
    held: [u8; 64],
    len: usize,
    step: usize,
    calls: u32,
    failing: u32,
    refusing: u32,
    flushes: u32,
    failing_flush: u32,
    ghost in_range: { len ≤ 64 },
}

impl SlowWriter {
    fn new(step: usize) -> SlowWriter {
        SlowWriter {
            held: [0; 64],
            len: 0,
            step,
            calls: 0,
            failing: 0,
            refusing: 0,
            flushes: 0,
            failing_flush: 0,
        }
    }

    fn held(&self) -> &[u8] {
        &self.held[..self.len]
    }
}

impl Write for SlowWriter {
    fn write(&mut self, buf: &[u8]) -> io::Result<usize> {
        self.calls = self.calls.saturating_add(1);
        if self.calls == self.failing {
            return Err(io::Error::from(io::ErrorKind::Other));
        }
        if self.calls == self.refusing {
            return Ok(0);
        }
        let count = buf.len().min(self.step).min(64 - self.len);
        let end = self.len + count;
        self.held[self.len..end].copy_from_slice(&buf[..count]);
        self.len = end;
        Ok(count)
    }

    fn flush(&mut self) -> io::Result<()> {
        self.flushes = self.flushes.saturating_add(1);
        if self.flushes == self.failing_flush {
            return Err(io::Error::from(io::ErrorKind::Other));
        }
        Ok(())
    }
}

const WORDS: &str = "first apple maple Snapple";

const INPUT: &[u8] = b"Nobody likes maple in their apple flavored Snapple.";

const OUTPUT: &[u8] = b"1 13 18\n0 28 33\n2 43 50\n";

/// The words between single spaces.
fn split(alloc: Global, text: &str) -> Result<Vec<String>, AllocError> {
    let mut words = Vec::new(alloc);
    for word in text.split(' ') {
        words.push(String::from_str(alloc, word)?)?;
    }
    Ok(words)
}

fn one_byte_a_call(rest: &[u8], failing: u32) -> SlowReader<'_> {
    SlowReader {
        rest,
        step: 1,
        calls: 0,
        failing,
    }
}

fn answer(
    alloc: Global,
    words: &str,
    reader: SlowReader<'_>,
    writer: &mut SlowWriter,
) -> Result<Result<bool, Fault>, AllocError> {
    let words = split(alloc, words)?;
    let mut reader = Checked::new(reader);
    let mut writer = Checked::new(writer);
    Ok(run(alloc, words.as_slice(), &mut reader, &mut writer))
}

/// Checks the result of a run, and the bytes in the writer.
fn assert_ends<N: Display + Drop>(
    rt: &impl Abort,
    answer: Result<bool, Fault>,
    want: Result<bool, Fault>,
    writer: &SlowWriter,
    output: &[u8],
    case: N,
) {
    assert_eq!(rt; answer, want, "{case}");
    assert_eq!(rt; writer.held(), output, "{case}");
}

/// Checks the result and the output for some arguments and an input.
fn assert_prints(
    rt: &impl Abort,
    alloc: Global,
    words: &str,
    input: &[u8],
    want: Result<bool, Fault>,
    output: &[u8],
) -> Result<(), AllocError> {
    let mut writer = SlowWriter::new(64);
    let answer = answer(alloc, words, one_byte_a_call(input, 0), &mut writer)?;
    assert_ends(rt, answer, want, &writer, output, words);
    Ok(())
}

#[test]
fn prints_a_line_for_each_match(rt: HostRuntime) -> Result<(), Fail> {
    for (words, input, want, output) in [
        (WORDS, INPUT, Ok(true), OUTPUT),
        (WORDS, b"none here", Ok(false), b""),
        (WORDS, b"", Ok(false), b""),
        (
            "first a abcdefghi hz abcdefgh",
            b"abcdefghz",
            Ok(true),
            b"0 0 1\n2 7 9\n",
        ),
        (
            "longest a abcdefghi hz abcdefgh",
            b"abcdefghz",
            Ok(true),
            b"3 0 8\n",
        ),
        ("first apple  maple", INPUT, Err(Fault::NoSearcher), b""),
        ("first", INPUT, Err(Fault::Usage), b""),
        ("both foo", INPUT, Err(Fault::Usage), b""),
        ("both ", INPUT, Err(Fault::Usage), b""),
    ] {
        assert_prints(&rt, rt.alloc(), words, input, want, output)?;
    }
    Ok(())
}

/// The modes of a confirming search, which print at most one line.
#[test]
fn prints_the_leftmost_match(rt: HostRuntime) -> Result<(), Fail> {
    for (words, input, want, output) in [
        (
            "confirm-first apple maple Snapple",
            INPUT,
            Ok(true),
            b"1 13 18\n".as_slice(),
        ),
        ("confirm-first apple", b"none here", Ok(false), b""),
        ("confirm-longest ab ABC", b"xxabcabc", Ok(true), b"0 2 4\n"),
        ("nocase-longest ab ABC", b"xxabcabc", Ok(true), b"1 2 5\n"),
        ("nocase-first ab ABC", b"xxabcabc", Ok(true), b"0 2 4\n"),
        ("nocase-first @[", b"`{@[", Ok(true), b"0 2 4\n"),
        (
            "nocase-first sherlock",
            b"xxSHERLOCK",
            Ok(true),
            b"0 2 10\n",
        ),
        (
            "nocase-first apple maple snapple",
            INPUT,
            Ok(true),
            b"1 13 18\n",
        ),
        ("confirm-first a b c d", b"zzc", Ok(true), b"2 2 3\n"),
        ("nocase-first a b c d", b"zzc", Err(Fault::NoSearcher), b""),
        ("nocase-first foo ", INPUT, Err(Fault::NoSearcher), b""),
        ("nocase-first", INPUT, Err(Fault::Usage), b""),
    ] {
        let mut writer = SlowWriter::new(64);
        let answer = answer(rt.alloc(), words, one_byte_a_call(input, 0), &mut writer)?;
        assert_eq!(rt; answer, want, "{words}");
        assert_eq!(rt; writer.held(), output, "{words}");
    }
    Ok(())
}

/// The result for some arguments and an input, and the output.
fn answer_to(
    alloc: Global,
    words: &[String],
    input: &[u8],
    writer: &mut SlowWriter,
) -> Result<bool, Fault> {
    run(
        alloc,
        words,
        &mut Checked::new(input),
        &mut Checked::new(writer),
    )
}

/// A mode, and `foo` this many times.
fn of_foos(alloc: Global, mode: &str, count: usize) -> Result<Vec<String>, AllocError> {
    let mut words = Vec::new(alloc);
    words.push(String::from_str(alloc, mode)?)?;
    for _ in 0..count {
        words.push(String::from_str(alloc, "foo")?)?;
    }
    Ok(words)
}

#[test]
fn takes_128_patterns(rt: HostRuntime) -> Result<(), Fail> {
    for (mode, count, want, output) in [
        ("first", 128, Ok(true), b"0 0 3\n".as_slice()),
        ("longest", 128, Ok(true), b"0 0 3\n"),
        ("first", 129, Err(Fault::NoSearcher), b""),
        ("longest", 129, Err(Fault::NoSearcher), b""),
    ] {
        let (words, mut writer) = (of_foos(rt.alloc(), mode, count)?, SlowWriter::new(64));
        let answer = answer_to(rt.alloc(), words.as_slice(), b"foo", &mut writer);
        assert_ends(
            &rt,
            answer,
            want,
            &writer,
            output,
            format_args!("{mode}, {count} words"),
        );
    }
    Ok(())
}

#[test]
fn takes_no_empty_pattern(rt: HostRuntime) -> Result<(), Fail> {
    let mut writer = SlowWriter::new(64);
    let answer = answer_to(rt.alloc(), &[], INPUT, &mut writer);
    assert_ends(&rt, answer, Err(Fault::Usage), &writer, b"", "no word");
    for words in [
        "first  foo bar",
        "first foo  bar",
        "first foo bar ",
        "longest  foo bar",
        "longest foo  bar",
        "longest foo bar ",
    ] {
        assert_prints(&rt, rt.alloc(), words, b"foo", Err(Fault::NoSearcher), b"")?;
    }
    Ok(())
}

/// If the read of this number fails, that is reported, and nothing is written.
fn assert_reports_read(rt: &impl Abort, alloc: Global, failing: u32) -> Result<(), AllocError> {
    let mut writer = SlowWriter::new(64);
    let reader = one_byte_a_call(INPUT, failing);
    let answer = answer(alloc, WORDS, reader, &mut writer)?;
    let (want, case) = (Err(Fault::ReadFailed), format_args!("call {failing}"));
    assert_ends(rt, answer, want, &writer, b"", case);
    Ok(())
}

#[test]
fn reports_each_failed_read(rt: HostRuntime) -> Result<(), Fail> {
    // 51 calls read a byte, and the last one finds the end.
    for failing in 1..53 {
        assert_reports_read(&rt, rt.alloc(), failing)?;
    }
    Ok(())
}

/// A failed write is reported, and this part of the lines was written.
fn assert_reports_write(
    rt: &impl Abort,
    alloc: Global,
    mut writer: SlowWriter,
    front: &[u8],
    case: &str,
) -> Result<(), AllocError> {
    let reader = one_byte_a_call(INPUT, 0);
    let answer = answer(alloc, WORDS, reader, &mut writer)?;
    assert_ends(rt, answer, Err(Fault::WriteFailed), &writer, front, case);
    Ok(())
}

#[test]
fn reports_a_failed_write(rt: HostRuntime) -> Result<(), Fail> {
    for (case, step, failing, refusing, failing_flush, front) in [
        ("the third", 5, 3, 0, 0, b"1 13 18\n0 ".as_slice()),
        ("refused", 5, 0, 2, 0, b"1 13 "),
        ("the first", 5, 1, 0, 0, b""),
        ("the flush", 64, 0, 0, 1, OUTPUT),
    ] {
        let mut writer = SlowWriter::new(step);
        writer.failing = failing;
        writer.refusing = refusing;
        writer.failing_flush = failing_flush;
        assert_reports_write(&rt, rt.alloc(), writer, front, case)?;
    }
    assert_flushes_an_empty_text(&rt, rt.alloc())
}

/// The flush fails also if there is no line.
fn assert_flushes_an_empty_text(rt: &impl Abort, alloc: Global) -> Result<(), Fail> {
    let mut writer = SlowWriter::new(64);
    writer.failing_flush = 1;
    let reader = one_byte_a_call(b"none here", 0);
    let answer = answer(alloc, WORDS, reader, &mut writer)?;
    assert_eq!(rt; answer, Err(Fault::WriteFailed));
    Ok(())
}

/// The state of a checked reader after a call: whether it has failed, and whether it has ended.
fn reader_tells(reader: &Checked<SlowReader<'_>>) -> (bool, bool) {
    (reader.has_failed(), reader.has_ended())
}

#[test]
fn readers_remember_their_end_and_a_failure(rt: HostRuntime) {
    let mut buffer = [0u8; 8];
    let mut reader = Checked::new(one_byte_a_call(b"a", 0));
    assert!(rt; reader.read(&mut buffer) == Ok(1));
    assert!(rt; reader_tells(&reader) == (false, false));
    assert!(rt; reader.read(&mut buffer) == Ok(0));
    assert!(rt; reader_tells(&reader) == (false, true));
    let mut reader = Checked::new(one_byte_a_call(b"a", 1));
    assert!(rt; reader.read(&mut buffer) == Err(Failed));
    assert!(rt; reader_tells(&reader) == (true, false));
}

#[test]
fn writers_remember_a_failure(rt: HostRuntime) {
    let mut writer = Checked::new(SlowWriter::new(5));
    assert!(rt; writer.write(b"abcdefg") == Ok(5));
    assert!(rt; !writer.has_failed());
    assert!(rt; writer.write(b"") == Ok(0));
    assert!(rt; !writer.has_failed());
    assert!(rt; writer.flush() == Ok(()) && writer.flush() == Ok(()));
    assert!(rt; !writer.has_failed());
    let mut writer = writer.into_inner();
    assert!(rt; writer.flushes == 2);
    writer.refusing = 3;
    let mut writer = Checked::new(writer);
    assert!(rt; writer.write(b"abcdefg") == Err(Failed));
    assert!(rt; writer.has_failed());
}

#[test]
fn says_what_is_wrong(rt: HostRuntime) -> Result<(), Fail> {
    for (fault, text) in [
        (Fault::Usage, "litfind: usage: litfind MODE PATTERN..."),
        (Fault::NoSearcher, "litfind: no searcher for these patterns"),
        (Fault::OutOfMemory, "litfind: out of memory"),
        (Fault::ReadFailed, "litfind: read failed"),
        (Fault::WriteFailed, "litfind: write failed"),
    ] {
        let line = format!(in rt.alloc(); "{fault}")?;
        assert_eq!(rt; line.as_str(), text);
    }
    Ok(())
}

/// If a request for memory is refused, nothing is written, and a repeated run succeeds.
fn assert_runs(
    rt: &impl Abort,
    alloc: Global,
    words: &str,
    input: &[u8],
    output: &[u8],
) -> Result<(), AllocError> {
    let words = split(alloc, words)?;
    let mut writer = SlowWriter::new(64);
    let mut answer = answer_to(alloc, words.as_slice(), input, &mut writer);
    if answer == Err(Fault::OutOfMemory) {
        assert_eq!(rt; writer.held(), b"".as_slice());
        answer = answer_to(alloc, words.as_slice(), input, &mut writer);
    }
    assert_ends(rt, answer, Ok(true), &writer, output, "though refused");
    Ok(())
}

/// For all matches, and for the leftmost by a table and by a search.
#[test]
fn refused_runs(rt: HostRuntime) -> Result<(), AllocError> {
    assert_runs(&rt, rt.alloc(), WORDS, INPUT, OUTPUT)?;
    let words = "nocase-first apple maple snapple";
    assert_runs(&rt, rt.alloc(), words, INPUT, b"1 13 18\n")?;
    let words = "confirm-longest a ab b c d";
    assert_runs(&rt, rt.alloc(), words, b"zab", b"1 1 3\n")
}

/// The output for an input, with a reader and a writer in memory, whose bytes contracts know.
fn written(alloc: Global, words: &[String], input: &[u8]) -> Result<Vec<u8>, Fault>
    ensures { IfOk result (λ output. AreLines (map string_bytes words.now) input.now output.items) }
{
    let mut reader = Checked::new(input);
    let mut writer = Checked::new(Vec::new(alloc));
    run(alloc, words, &mut reader, &mut writer)?;
    Ok(writer.into_inner())
}

#[test]
fn writes_to_memory(rt: HostRuntime) -> Result<(), Fail> {
    let words = split(rt.alloc(), WORDS)?;
    let output = written(rt.alloc(), words.as_slice(), INPUT)?;
    assert_eq!(rt; output.as_slice(), OUTPUT);
    Ok(())
}
