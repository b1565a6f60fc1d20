//! Spans of a haystack, matches in it, and search inputs. All offsets are in bytes of the whole haystack.
ghost use Rattle.std.specs.Prelude.{◌≡◌, ◌≤◌, ◌<◌, ◌+◌, ◌-◌, ◌^◌, ◌++◌, ◌↔◌, ◌⊎◌, IsTrue, IsCharBoundary, ⊤, Some};
ghost use Rattle.std.specs.Prelude.{codes, drop, false, length, slice_range, take};
ghost use Rattle.std.specs.Borrow.{Array, Lends, sem, u8};
ghost use Rattle.std.specs.Fmt.{decimal};
ghost use Rattle.std.specs.Ptr.{as_mut_ptr, ptr_add};

use crate::packed::MatchKind as PackedMatchKind;
use literal_ids::PatternID;
use std::alloc::AllocError;
use std::fmt;
use std::marker::Model;
use std::ops::Range;

/// The input of a search: a haystack, the two bounds of the search, whether it is anchored, and whether it may end
/// early. Contracts see these five.
///
/// The end is at most the haystack's length, and the start at most one more than the end. The bounds are a valid span
/// of the haystack, unless the start is one more than the end: then the search is over, as [`Input::is_done`] says.
///
/// No search of these crates takes an `Input`: pass on its haystack and its span. Layers above have to obey `anchored`
/// and `earliest`.
///
/// ```rust
/// let mut input = Input::new(b"abcabc").range(1..4);
/// assert!(rt; input.get_span().of(input.haystack()) == b"bca".as_slice());
/// input.set_start(input.end() + 1);
/// assert!(rt; input.is_done());
/// ```
#[derive(Debug, Drop)]
pub struct Input<'h> {
    haystack: &'h [u8],
    bounds: Span,
    anchored: Anchored,
    earliest: bool,
}

impl<'h> Model for Input<'h> {
    ghost use Rattle.literal_base.specs.InputValue.{InputValue, AreBounds};

    ghost Value = { InputValue };

    ghost view = { λ i. record {
      haystack = i.haystack.now;
      start = i.bounds.start;
      end = i.bounds.end;
      anchored = i.anchored;
      earliest = i.earliest;
    } };

    ghost invariant = { λ i. AreBounds i.haystack.now i.bounds.start i.bounds.end };
}

impl<'h> Input<'h> {
    ghost use Rattle.literal_base.specs.InputValue.{AreBounds};

    /// The input for the whole haystack, neither anchored nor ending early.
    pub fn new(haystack: &'h [u8]) -> Input<'h>
        ensures { result ≡ record {
          haystack = haystack.now;
          start = 0;
          end = length haystack.now;
          anchored = Anchored.No;
          earliest = false;
        } }
    {
        Input {
            haystack,
            bounds: Span {
                start: 0,
                end: haystack.len(),
            },
            anchored: Anchored::No,
            earliest: false,
        }
    }

    /// The input with the bounds of the span. Its end has to be at most the haystack's length, and its start at most
    /// one more than its end.
    pub fn span(mut self, span: Span) -> Input<'h>
        requires { AreBounds self.haystack span.start span.end }
        ensures { result ≡ record self.entry { start = span.start; end = span.end } }
    {
        self.set_span(span);
        self
    }

    /// The input with the bounds of the range. Its end has to be at most the haystack's length, and its start at most
    /// one more than its end.
    pub fn range(mut self, range: Range<usize>) -> Input<'h>
        requires { AreBounds self.haystack range.start range.end }
        ensures { result ≡ record self.entry { start = range.start; end = range.end } }
    {
        self.set_range(range);
        self
    }

    /// The input for the bytes from offset `first` to offset `last`, both included. `last` has to be below the
    /// haystack's length, and `first` at most `last` + 2.
    pub fn range_inclusive(mut self, first: usize, last: usize) -> Input<'h>
        requires { AreBounds self.haystack first (last + 1) }
        ensures { result ≡ record self.entry { start = first; end = last + 1 } }
    {
        self.set_range_inclusive(first, last);
        self
    }

    /// The input, anchored or not.
    pub fn anchored(mut self, mode: Anchored) -> Input<'h>
        ensures { result ≡ record self.entry { anchored = mode } }
    {
        self.set_anchored(mode);
        self
    }

    /// The input, which ends as soon as any match is known if `yes` is true.
    pub fn earliest(mut self, yes: bool) -> Input<'h>
        ensures { result ≡ record self.entry { earliest = yes } }
    {
        self.set_earliest(yes);
        self
    }

    /// Takes both bounds from the span. Its end has to be at most the haystack's length, and its start at most one more
    /// than its end.
    pub fn set_span(&mut self, span: Span)
        requires { AreBounds self.old.haystack span.start span.end }
        ensures { self.new ≡ record self.old { start = span.start; end = span.end } }
    {
        self.bounds = span;
    }

    /// Takes both bounds from the range. Its end has to be at most the haystack's length, and its start at most one
    /// more than its end.
    pub fn set_range(&mut self, range: Range<usize>)
        requires { AreBounds self.old.haystack range.start range.end }
        ensures { self.new ≡ record self.old { start = range.start; end = range.end } }
    {
        self.set_span(Span::from(range));
    }

    /// Sets the bounds to the bytes from offset `first` to offset `last`, both included. `last` has to be below the
    /// haystack's length, and `first` at most `last` + 2.
    pub fn set_range_inclusive(&mut self, first: usize, last: usize)
        requires { AreBounds self.old.haystack first (last + 1) }
        ensures { self.new ≡ record self.old { start = first; end = last + 1 } }
    {
        prove!(last < self.haystack.len());
        self.set_span(Span {
            start: first,
            end: last + 1,
        });
    }

    /// Sets only the start, which has to be at most one more than the end.
    pub fn set_start(&mut self, start: usize)
        requires { start ≤ self.old.end + 1 }
        ensures { self.new ≡ record self.old { start = start } }
    {
        self.bounds.start = start;
    }

    /// Sets only the end, which has to be at most the haystack's length. The start has to be at most one more than it.
    pub fn set_end(&mut self, end: usize)
        requires { AreBounds self.old.haystack self.old.start end }
        ensures { self.new ≡ record self.old { end = end } }
    {
        self.bounds.end = end;
    }

    /// Anchors the search, or not.
    pub fn set_anchored(&mut self, mode: Anchored)
        ensures { self.new ≡ record self.old { anchored = mode } }
    {
        self.anchored = mode;
    }

    /// Sets whether the search ends as soon as any match is known.
    pub fn set_earliest(&mut self, yes: bool)
        ensures { self.new ≡ record self.old { earliest = yes } }
    {
        self.earliest = yes;
    }

    /// The whole haystack, borrowed as it was given.
    pub fn haystack(&self) -> &'h [u8]
        ensures haystack { result.now ≡ self.now.haystack }
        ensures bounds { AreBounds self.now.haystack self.now.start self.now.end }
    {
        self.haystack
    }

    /// The offset from which the search begins.
    pub fn start(&self) -> usize
        ensures start { result ≡ self.now.start }
        ensures bounds { AreBounds self.now.haystack self.now.start self.now.end }
        ensures room { self.now.end + 1 < 2 ^ 64 }
    {
        self.get_span().start
    }

    /// The offset up to which the search goes.
    pub fn end(&self) -> usize
        ensures end { result ≡ self.now.end }
        ensures bounds { AreBounds self.now.haystack self.now.start self.now.end }
        ensures room { self.now.end + 1 < 2 ^ 64 }
    {
        self.get_span().end
    }

    /// Both bounds as a span. It is not a valid span if the search is over.
    pub fn get_span(&self) -> Span
        ensures span { result ≡ record { start = self.now.start; end = self.now.end } }
        ensures bounds { AreBounds self.now.haystack self.now.start self.now.end }
        ensures room { self.now.end + 1 < 2 ^ 64 }
    {
        let bounds = self.bounds;
        prove!(bounds.end <= self.haystack.len());
        bounds
    }

    /// Both bounds as a range.
    pub fn get_range(&self) -> Range<usize>
        ensures range { result ≡ record { start = self.now.start; end = self.now.end } }
        ensures bounds { AreBounds self.now.haystack self.now.start self.now.end }
        ensures room { self.now.end + 1 < 2 ^ 64 }
    {
        self.get_span().range()
    }

    /// The anchored mode: whether the search is anchored.
    pub fn get_anchored(&self) -> Anchored
        ensures { result ≡ self.now.anchored }
    {
        self.anchored
    }

    /// Whether the search ends as soon as any match is known.
    pub fn get_earliest(&self) -> bool
        ensures { result ≡ self.now.earliest }
    {
        self.earliest
    }

    /// Whether the start is after the end, so that the search is over. If it is not, the bounds are a valid span of the
    /// haystack.
    pub fn is_done(&self) -> bool
        ensures done { IsTrue result ↔ (self.now.end < self.now.start) }
        ensures bounds { AreBounds self.now.haystack self.now.start self.now.end }
    {
        self.start() > self.end()
    }
}

/// An equal input. A clone allocates nothing, and always succeeds.
impl Clone for Input<'_> {
    ghost is_clone = { λ input copy. copy ≡ input };

    ghost is_infallible = { λ _. ⊤ };

    fn clone(&self) -> Result<Self, AllocError> {
        Ok(Input {
            haystack: self.haystack,
            bounds: self.bounds,
            anchored: self.anchored,
            earliest: self.earliest,
        })
    }
}

/// A part of a haystack, in bytes: from `start` up to `end`, which is not included. A span may have any numbers. It is
/// a valid span of a haystack if `start` is at most `end`, and `end` at most the haystack's length.
///
/// ```rust
/// let span = Span { start: 5, end: 9 };
/// assert!(rt; span.of(b"I am here") == b"here".as_slice());
/// assert!(rt; span.contains(5) && !span.contains(9));
/// ```
#[derive(Clone, Copy, PartialEq, Eq, Hash)]
pub struct Span {
    /// The offset of the first byte.
    pub start: usize,
    /// The offset after the last byte.
    pub end: usize,
}

impl Span {
    ghost use Rattle.literal_base.specs.Occurs.{IsValidSpan};

    /// The bounds of the span as a range.
    pub fn range(&self) -> Range<usize>
        ensures { result ≡ record { start = self.now.start; end = self.now.end } }
    {
        self.start..self.end
    }

    /// Whether the span has no byte. It has none if `start` is after `end`, too.
    pub fn is_empty(&self) -> bool
        ensures { IsTrue result ↔ (self.now.end ≤ self.now.start) }
    {
        self.start >= self.end
    }

    /// The number of bytes in the span, or 0 if `start` is after `end`.
    pub fn len(&self) -> usize
        ensures { result ≡ self.now.end - self.now.start }
    {
        self.end.saturating_sub(self.start)
    }

    /// Whether the byte at this offset is in the span. The byte at `end` is not.
    pub fn contains(&self, offset: usize) -> bool
        ensures { IsTrue result ↔ ((self.now.start ≤ offset) × (offset < self.now.end)) }
    {
        self.start <= offset && offset < self.end
    }

    /// The span moved by this many bytes. Neither sum may overflow.
    pub fn offset(&self, offset: usize) -> Span
        requires start { self.now.start + offset < 2 ^ 64 }
        requires end { self.now.end + offset < 2 ^ 64 }
        ensures { result ≡ record { start = self.now.start + offset; end = self.now.end + offset } }
    {
        Span {
            start: self.start + offset,
            end: self.end + offset,
        }
    }

    /// Whether the range has the same bounds.
    pub fn eq_range(&self, range: &Range<usize>) -> bool
        ensures { IsTrue result ↔ ((self.now.start ≡ range.now.start) × (self.now.end ≡ range.now.end)) }
    {
        self.start == range.start && self.end == range.end
    }

    /// The bytes of the span, which has to be a valid span of the slice.
    pub fn of<'a>(&self, bytes: &'a [u8]) -> &'a [u8]
        requires { IsValidSpan bytes.now self.now }
        ensures { result.now ≡ slice_range bytes.now self.now.start self.now.end }
    {
        &bytes[self.start..self.end]
    }

    /// The bytes of the span, lent in place for writing: they are in the slice's own memory, `start` bytes after its
    /// beginning. The span has to be valid for the slice. Afterwards the slice has what was written there, and all
    /// other bytes are unchanged. Generated proofs of callers do not use this; a caller that needs it writes `&mut
    /// bytes[span.start..span.end]`.
    pub fn of_mut<'a>(&self, bytes: &'a mut [u8]) -> &'a mut [u8]
        requires { IsValidSpan bytes.old self.now }
        ensures* writes_back { sem 𝓛 (Lends (Array u8 0) (Array u8 0) bytes.entry result
            (λ part. take self.now.start bytes.old ++ (part ++ drop self.now.end bytes.old))) }
        ensures part { result.now ≡ slice_range bytes.old self.now.start self.now.end }
        ensures in_place { as_mut_ptr result ≡ ptr_add u8 self.now.start (as_mut_ptr bytes.entry) }
    {
        &mut bytes[self.start..self.end]
    }

    /// The text of the span, whose offsets are in bytes. The span has to be valid for the text, and both ends have to
    /// be between characters.
    pub fn of_str<'a>(&self, text: &'a str) -> &'a str
        requires valid { IsValidSpan text.now self.now }
        requires start { IsCharBoundary text.now self.now.start }
        requires end { IsCharBoundary text.now self.now.end }
        ensures { result.now ≡ slice_range text.now self.now.start self.now.end }
    {
        &text[self.start..self.end]
    }
}

/// Shown as `3..9`.
impl fmt::Debug for Span {
    ghost debug_output = { λ span. Some (decimal span.start ++ codes ".." ++ decimal span.end) };

    fn fmt<W: fmt::Write>(&self, f: &mut fmt::Formatter<W>) -> fmt::Result {
        let start = self.start;
        let end = self.end;
        write!(f, "{start}..{end}")
    }
}

/// The span with the bounds of a range.
impl From<Range<usize>> for Span {
    ghost from_gives = { λ range span. span ≡ record { start = range.start; end = range.end } };

    fn from(range: Range<usize>) -> Span {
        Span {
            start: range.start,
            end: range.end,
        }
    }
}

/// The range with the bounds of a span.
impl From<Span> for Range<usize> {
    ghost from_gives = { λ span range. range ≡ record { start = span.start; end = span.end } };

    fn from(span: Span) -> Range<usize> {
        span.range()
    }
}

/// Whether a search looks for matches only at its start.
#[derive(Clone, Copy, Debug, PartialEq, Eq)]
pub enum Anchored {
    /// A match may begin anywhere.
    No,
    /// A match has to begin at the start.
    Yes,
}

impl Anchored {
    /// Whether the search looks for matches only at its start.
    pub fn is_anchored(&self) -> bool
        ensures { IsTrue result ↔ (self.now ≡ Anchored.Yes) }
    {
        matches!(*self, Anchored::Yes)
    }
}

/// An occurrence of a pattern: the pattern's identifier, and the span of the occurrence, whose `start` is at most its
/// `end`. Contracts see the identifier and the two offsets.
#[derive(Clone, Copy, Debug, PartialEq, Eq, Hash)]
pub struct Match {
    pattern: PatternID,
    span: Span,
}

impl Model for Match {
    ghost use Rattle.std.specs.Prelude.{◌≤◌};
    ghost use Rattle.literal_base.specs.MatchValue.{MatchValue};

    ghost Value = { MatchValue };

    ghost view = { λ m. record { pattern = m.pattern; start = m.span.start; end = m.span.end } };

    ghost invariant = { λ m. m.span.start ≤ m.span.end };

    ghost inverse = { λ f. record { pattern = f.pattern; span = record { start = f.start; end = f.end } } };
}

impl Match {
    /// An occurrence of the pattern at the span, whose `start` has to be at most its `end`.
    pub fn new(pattern: PatternID, span: Span) -> Match
        requires { span.start ≤ span.end }
        ensures { result ≡ record { pattern = pattern; start = span.start; end = span.end } }
    {
        Match { pattern, span }
    }

    /// The same for the pattern with this number, which has to be at most [`PatternID::MAX`].
    pub fn must(pattern: usize, span: Span) -> Match
        requires pattern { pattern < PatternID.LIMIT }
        requires span { span.start ≤ span.end }
        ensures { result ≡ record { pattern = pattern; start = span.start; end = span.end } }
    {
        Match::new(PatternID::must(pattern), span)
    }

    /// The identifier of the pattern.
    pub fn pattern(&self) -> PatternID
        ensures { result ≡ self.now.pattern }
    {
        self.pattern
    }

    /// The offset of the first byte.
    pub fn start(&self) -> usize
        ensures start { result ≡ self.now.start }
        ensures ordered { self.now.start ≤ self.now.end }
    {
        self.span.start
    }

    /// The offset after the last byte.
    pub fn end(&self) -> usize
        ensures end { result ≡ self.now.end }
        ensures ordered { self.now.start ≤ self.now.end }
    {
        self.span.end
    }

    /// The two offsets as a range.
    pub fn range(&self) -> Range<usize>
        ensures range { result ≡ record { start = self.now.start; end = self.now.end } }
        ensures ordered { self.now.start ≤ self.now.end }
    {
        self.span.range()
    }

    /// The span of the occurrence.
    pub fn span(&self) -> Span
        ensures span { result ≡ record { start = self.now.start; end = self.now.end } }
        ensures ordered { self.now.start ≤ self.now.end }
    {
        self.span
    }

    /// Whether the occurrence has no byte.
    pub fn is_empty(&self) -> bool
        ensures { IsTrue result ↔ (self.now.start ≡ self.now.end) }
    {
        self.span.is_empty()
    }

    /// The number of bytes of the occurrence.
    pub fn len(&self) -> usize
        ensures len { self.now.start + result ≡ self.now.end }
    {
        self.span.len()
    }

    /// The match moved by this many bytes. Neither sum may overflow; it is enough that the one with the end does not.
    pub fn offset(&self, offset: usize) -> Match
        requires { self.now.end + offset < 2 ^ 64 }
        ensures { result ≡ record self.now { start = self.now.start + offset; end = self.now.end + offset } }
    {
        Match {
            pattern: self.pattern,
            span: self.span.offset(offset),
        }
    }
}

/// The occurrences that a search for several patterns answers with.
#[derive(Clone, Copy, Debug, PartialEq, Eq)]
pub enum MatchKind {
    /// Each occurrence as soon as it is seen, whatever else begins at the same offset or before it.
    Standard,
    /// Of the occurrences that begin first, the one of the pattern that was added first.
    LeftmostFirst,
    /// Of the occurrences that begin first, the longest, and of the longest the one of the pattern that was added
    /// first.
    LeftmostLongest,
}

/// [`MatchKind::Standard`].
impl Default for MatchKind {
    ghost use Rattle.literal_base.specs.declared.search.MatchKind.TheVariants.{Standard};

    ghost is_default = { λ kind. kind ≡ Standard };

    fn default() -> MatchKind {
        MatchKind::Standard
    }
}

/// The match kind with the same name as that of the packed search.
impl From<PackedMatchKind> for MatchKind {
    ghost use Rattle.literal_base.specs.Kinds.{root_kind_of};

    ghost from_gives = { λ kind root. root ≡ root_kind_of kind };

    fn from(kind: PackedMatchKind) -> MatchKind {
        match kind {
            PackedMatchKind::LeftmostFirst => MatchKind::LeftmostFirst,
            PackedMatchKind::LeftmostLongest => MatchKind::LeftmostLongest,
        }
    }
}

impl MatchKind {
    ghost use Rattle.literal_base.specs.Kinds.{packed_kind_of};

    /// Whether it is [`MatchKind::Standard`].
    pub fn is_standard(&self) -> bool
        ensures { IsTrue result ↔ (self.now ≡ MatchKind.Standard) }
    {
        matches!(*self, MatchKind::Standard)
    }

    /// Whether it is one of the two leftmost kinds.
    pub fn is_leftmost(&self) -> bool
        ensures { IsTrue result ↔ ((self.now ≡ MatchKind.LeftmostFirst) ⊎ (self.now ≡ MatchKind.LeftmostLongest)) }
    {
        matches!(*self, MatchKind::LeftmostFirst | MatchKind::LeftmostLongest)
    }

    /// Whether it is [`MatchKind::LeftmostFirst`].
    pub fn is_leftmost_first(&self) -> bool
        ensures { IsTrue result ↔ (self.now ≡ MatchKind.LeftmostFirst) }
    {
        matches!(*self, MatchKind::LeftmostFirst)
    }

    /// The match kind of a packed search with the same meaning. A packed search has none for [`MatchKind::Standard`].
    pub fn as_packed(&self) -> Option<PackedMatchKind>
        ensures { result ≡ packed_kind_of self.now }
    {
        match *self {
            MatchKind::Standard => None,
            MatchKind::LeftmostFirst => Some(PackedMatchKind::LeftmostFirst),
            MatchKind::LeftmostLongest => Some(PackedMatchKind::LeftmostLongest),
        }
    }
}

/// For which searches a searcher is made: anchored ones, others, or both.
#[derive(Clone, Copy, Debug, PartialEq, Eq)]
pub enum StartKind {
    /// For anchored searches and others.
    Both,
    /// Only for searches that are not anchored.
    Unanchored,
    /// Only for anchored searches.
    Anchored,
}

/// [`StartKind::Unanchored`].
impl Default for StartKind {
    ghost use Rattle.literal_base.specs.declared.search.StartKind.TheVariants.{Unanchored};

    ghost is_default = { λ kind. kind ≡ Unanchored };

    fn default() -> StartKind {
        StartKind::Unanchored
    }
}
