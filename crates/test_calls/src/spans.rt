//! Spans, matches and search inputs.
use literal_base::search::{Anchored, Input, Match, MatchKind, Span, StartKind};
use literal_ids::PatternID;
use literal_packed as packed;
use std::ops::Range;
use std::process::Abort;

/// Inputs with other bounds than those of their haystack.
fn assert_is_made_with_its_bounds(rt: &impl Abort) {
    assert!(rt; !Input::new(b"").is_done() && Input::new(b"").range(1..0).is_done());
    let input = Input::new(b"foobar").range_inclusive(5, 5);
    assert!(rt; input.get_range() == (5..6));
    let input = input.range(1..3).span(Span { start: 2, end: 6 });
    assert!(rt; input.get_range() == (2..6) && input.haystack() == b"foobar".as_slice());
}

#[test]
fn an_input_takes_its_bounds(rt: HostRuntime) {
    let mut input = Input::new(b"foobar");
    assert!(rt; input.haystack() == b"foobar".as_slice());
    assert!(rt; input.get_range() == (0..6) && !input.is_done());
    input.set_start(7);
    assert!(rt; input.is_done() && (input.start(), input.end()) == (7, 6));
    input.set_span(Span { start: 4, end: 4 });
    input.set_end(3);
    assert!(rt; input.is_done() && input.get_span() == Span { start: 4, end: 3 });
    input.set_range_inclusive(2, 4);
    assert!(rt; input.get_range() == (2..5) && !input.is_done());
    input.set_range_inclusive(7, 5);
    assert!(rt; input.get_range() == (7..6));
    input.set_range(0..0);
    assert!(rt; input.get_range() == (0..0) && !input.is_done());
    assert_is_made_with_its_bounds(&rt);
}

#[test]
fn an_input_takes_its_modes(rt: HostRuntime) {
    let mut input = Input::new(b"foobar");
    assert!(rt; input.get_anchored() == Anchored::No && !input.get_earliest());
    input = input.anchored(Anchored::Yes).earliest(true);
    assert!(rt; input.get_anchored().is_anchored() && input.get_earliest());
    input.set_anchored(Anchored::No);
    input.set_earliest(false);
    assert!(rt; !input.get_anchored().is_anchored() && !input.get_earliest());
}

#[test]
fn spans_cut_and_move(rt: HostRuntime) {
    let span = Span { start: 1, end: 3 };
    assert!(rt; span.of(b"abcde") == b"bc".as_slice() && span.of_str("h\u{e9}") == "\u{e9}");
    let mut bytes = *b"abcde";
    span.of_mut(&mut bytes).fill(b'x');
    assert!(rt; bytes == *b"axxde");
    assert!(rt; span.eq_range(&(1..3)) && !span.eq_range(&(1..9)));
    assert!(rt; Range::from(span) == (1..3) && Span::from(1..3) == span);
    assert!(rt; Span { start: 3, end: 1 }.offset(4) == Span { start: 7, end: 5 });
    assert!(rt; Span { start: 0, end: 1 }.offset(usize::MAX - 1).end == usize::MAX);
}

#[test]
fn matches_tell_their_parts(rt: HostRuntime) {
    let span = Span { start: 3, end: 9 };
    let found = Match::new(PatternID::must(1), span);
    assert!(rt; found == Match::must(1, span) && found != Match::new(PatternID::ZERO, span));
    assert!(rt; found.pattern() == PatternID::must(1) && found.span() == span);
    assert!(rt; (found.start(), found.end(), found.len()) == (3, 9, 6));
    assert!(rt; found.range() == (3..9) && !found.is_empty());
    assert!(rt; Match::must(0, Span { start: 4, end: 4 }).is_empty());
    assert!(rt; found.offset(2) == Match::must(1, Span { start: 5, end: 11 }));
}

#[test]
fn kinds_tell_what_they_are(rt: HostRuntime) {
    let [standard, first] = [MatchKind::Standard, MatchKind::LeftmostFirst];
    let longest = MatchKind::LeftmostLongest;
    assert!(rt; standard.is_standard() && !first.is_standard() && !longest.is_standard());
    assert!(rt; !standard.is_leftmost() && first.is_leftmost() && longest.is_leftmost());
    assert!(rt; !standard.is_leftmost_first() && first.is_leftmost_first());
    assert!(rt; !longest.is_leftmost_first() && standard.as_packed().is_none());
    assert!(rt; first.as_packed() == Some(packed::MatchKind::LeftmostFirst));
    assert!(rt; longest.as_packed() == Some(packed::MatchKind::LeftmostLongest));
    assert!(rt; MatchKind::from(packed::MatchKind::LeftmostFirst) == first);
    assert!(rt; MatchKind::from(packed::MatchKind::LeftmostLongest) == longest);
    assert!(rt; MatchKind::default() == standard && StartKind::default() == StartKind::Unanchored);
    assert!(rt; StartKind::Both != StartKind::Anchored);
    assert!(rt; packed::MatchKind::default() == packed::MatchKind::LeftmostFirst);
}
