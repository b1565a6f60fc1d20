//! The fields of a case.
ghost use Rattle.literal_base.specs.Occurs.{IsValidSpan};

use crate::bytes::bytes_of;
use crate::refusal::Refusal;
use literal_prefilters::{MatchKind, Span, packed};
use std::alloc::Global;
use std::str::FromStr;

/// Patterns, and how to search for them.
#[derive(Drop)]
pub struct Query {
    pub kind: MatchKind,
    pub ignore_case: bool,
    pub patterns: Vec<Vec<u8>>,
}

impl Query {
    /// The kind of match of a search that finds the leftmost one.
    pub fn packed_kind(&self) -> Result<packed::MatchKind, Refusal> {
        self.kind.as_packed().ok_or(Refusal::NoCase)
    }
}

/// A haystack, and a span of it.
#[derive(Drop)]
pub struct Text {
    pub haystack: Vec<u8>,
    pub span: Span,
    ghost valid: { IsValidSpan haystack.items span },
}

/// A line, whose fields are separated by `|`, and the match kind of its answer.
#[derive(Clone, Copy)]
pub struct Case<'l> {
    line: &'l str,
    kind: &'l str,
}

impl<'l> Case<'l> {
    /// The case of a line, with no kind chosen.
    pub fn of(line: &'l str) -> Case<'l> {
        Case { line, kind: "" }
    }

    /// The same for a kind of match.
    pub fn with_kind(&self, kind: &'l str) -> Case<'l> {
        Case {
            line: self.line,
            kind,
        }
    }

    /// The field at an index, from 0 up.
    pub fn field(&self, at: usize) -> Result<&'l str, Refusal> {
        match self.line.split('|').nth(at) {
            Some(field) => Ok(field.trim()),
            None => Err(Refusal::NoCase),
        }
    }

    /// The call.
    pub fn call(&self) -> &'l str {
        self.field(0).unwrap_or("")
    }

    /// The match kinds for which the case is answered, or one that is no kind if it names none.
    pub fn kinds(&self) -> &'static [&'static str] {
        match self.field(1) {
            Ok("standard") => &["standard"],
            Ok("first") => &["first"],
            Ok("longest") => &["longest"],
            Ok("leftmost") => &["first", "longest"],
            Ok("any") => &["standard", "first", "longest"],
            _ => &[""],
        }
    }

    /// The kind of match.
    pub fn kind(&self) -> Result<MatchKind, Refusal> {
        match self.kind {
            "standard" => Ok(MatchKind::Standard),
            "first" => Ok(MatchKind::LeftmostFirst),
            "longest" => Ok(MatchKind::LeftmostLongest),
            _ => Err(Refusal::NoCase),
        }
    }

    /// Whether ASCII case is ignored.
    pub fn ignores_case(&self) -> Result<bool, Refusal> {
        match self.field(2)? {
            "kept" => Ok(false),
            "nocase" => Ok(true),
            _ => Err(Refusal::NoCase),
        }
    }

    /// The patterns, or other lists of bytes in the same field.
    pub fn patterns(&self, alloc: Global) -> Result<Vec<Vec<u8>>, Refusal> {
        let mut patterns = Vec::new(alloc);
        let field = self.field(3)?;
        if field == "." {
            return Ok(patterns);
        }
        for word in field.split(',') {
            patterns.push(bytes_of(alloc, word)?)?;
        }
        Ok(patterns)
    }

    /// The patterns, and how they are searched for.
    pub fn query(&self, alloc: Global) -> Result<Query, Refusal> {
        let kind = self.kind()?;
        let ignore_case = self.ignores_case()?;
        Ok(Query {
            kind,
            ignore_case,
            patterns: self.patterns(alloc)?,
        })
    }

    /// The haystack, and its span, which has to be valid. Without a span it is the whole haystack.
    pub fn text(&self, alloc: Global) -> Result<Text, Refusal> {
        let haystack = self.bytes(alloc, 4)?;
        let (start, end) = match self.field(5) {
            Ok(field) => numbers_of(field)?,
            Err(_) => (0, haystack.len()),
        };
        if start > end || end > haystack.len() {
            return Err(Refusal::Unmet);
        }
        let span = Span { start, end };
        Ok(Text { haystack, span })
    }

    /// The bytes in the field at an index.
    pub fn bytes(&self, alloc: Global, at: usize) -> Result<Vec<u8>, Refusal> {
        bytes_of(alloc, self.field(at)?)
    }

    /// The number in the field at an index.
    pub fn number<N: FromStr + Drop>(&self, at: usize) -> Result<N, Refusal>
    where
        N::Err: Drop,
    {
        number_of(self.field(at)?)
    }
}

/// The numbers on both sides of two dots.
fn numbers_of(field: &str) -> Result<(usize, usize), Refusal> {
    let (start, end) = field.split_once("..").ok_or(Refusal::NoCase)?;
    Ok((number_of(start)?, number_of(end)?))
}

/// The decimal number of a word.
pub fn number_of<N: FromStr + Drop>(word: &str) -> Result<N, Refusal>
where
    N::Err: Drop,
{
    match word.parse() {
        Ok(number) => Ok(number),
        Err(_) => Err(Refusal::NoCase),
    }
}
