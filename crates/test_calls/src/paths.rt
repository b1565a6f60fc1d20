//! Each public path of `literal_prefilters`, named once: every item at the path of its module, and the items of
//! `primitives` and `search` at the root too, where they are the same types.
use literal_prefilters::alphabet::{
    self, ByteClassElementRanges, ByteClassElements, ByteClassIter, ByteClassSet, ByteClasses,
    ByteSet,
};
use literal_prefilters::count::Tally;
use literal_prefilters::int::{I8, I32, I64, U8, U16, U32, U64, Usize};
use literal_prefilters::packed::pattern::{Pattern, PatternIter, Patterns};
use literal_prefilters::packed::rabinkarp::{RabinKarp, Rolling};
use literal_prefilters::packed::{self, Builder, Config, FindIter, Searcher};
use literal_prefilters::prefilter::{
    self, ByteTable, Candidate, Memmem, Packed, Prefilter, RareBytesOne, RareBytesThree,
    RareBytesTwo, StartBytesOne, StartBytesThree, StartBytesTwo,
};
use literal_prefilters::{byte_frequencies, primitives, search};
use std::process::Abort;

/// Two paths of one type.
fn same<T: Drop>(_one: Option<T>, _other: Option<T>) {}

#[test]
fn identifiers_stand_at_the_root(rt: HostRuntime) {
    same(
        None::<literal_prefilters::PatternID>,
        None::<primitives::PatternID>,
    );
    same(
        None::<literal_prefilters::PatternIDError>,
        None::<primitives::PatternIDError>,
    );
    same(
        None::<literal_prefilters::PatternIDIter>,
        None::<primitives::PatternIDIter>,
    );
    same(
        None::<literal_prefilters::StateID>,
        None::<primitives::StateID>,
    );
    same(
        None::<literal_prefilters::StateIDError>,
        None::<primitives::StateIDError>,
    );
    same(
        None::<literal_prefilters::StateIDIter>,
        None::<primitives::StateIDIter>,
    );
    same(
        None::<literal_prefilters::SmallIndex>,
        None::<primitives::SmallIndex>,
    );
    same(
        None::<literal_prefilters::SmallIndexError>,
        None::<primitives::SmallIndexError>,
    );
    same(
        None::<literal_prefilters::SmallIndexIter>,
        None::<primitives::SmallIndexIter>,
    );
    let items = [b'a'];
    let patterns: primitives::WithPatternIDIter<'_, u8> = literal_prefilters::with_pattern_ids(
        &items,
    );
    let again: literal_prefilters::WithPatternIDIter<'_, u8> = primitives::with_pattern_ids(&items);
    assert!(rt; patterns.count() == again.count());
    let states: primitives::WithStateIDIter<'_, u8> = literal_prefilters::with_state_ids(&items);
    let again: literal_prefilters::WithStateIDIter<'_, u8> = primitives::with_state_ids(&items);
    assert!(rt; states.count() == again.count());
}

#[test]
fn search_stands_at_the_root(rt: HostRuntime) {
    same(None::<literal_prefilters::Span>, None::<search::Span>);
    same(None::<literal_prefilters::Match>, None::<search::Match>);
    same(
        None::<literal_prefilters::Input<'_>>,
        None::<search::Input<'_>>,
    );
    same(
        None::<literal_prefilters::Anchored>,
        None::<search::Anchored>,
    );
    same(
        None::<literal_prefilters::MatchKind>,
        None::<search::MatchKind>,
    );
    same(
        None::<literal_prefilters::StartKind>,
        None::<search::StartKind>,
    );
    assert!(rt;
        search::MatchKind::LeftmostLongest.as_packed() == Some(packed::MatchKind::LeftmostLongest)
    );
}

#[test]
fn conversions_and_bytes_stand_in_their_modules(rt: HostRuntime) {
    assert!(rt; U8::as_usize(7u8) == 7 && U16::low_u8(0x1234u16) == 0x34);
    assert!(rt; U32::high_u16(0x12345678u32) == 0x1234 && U64::low_u32(7u64) == 7);
    assert!(rt; I8::to_bits(-1i8) == 255 && I32::to_bits(-1i32) == u32::MAX);
    assert!(rt; I64::to_bits(-1i64) == u64::MAX && Usize::as_u8(7usize) == 7);
    let _sets: (Option<ByteSet>, Option<ByteClassSet>, Option<ByteClasses>) = (None, None, None);
    let _classes: Option<ByteClassIter<'_>> = None;
    let _bytes: (
        Option<ByteClassElements<'_>>,
        Option<ByteClassElementRanges<'_>>,
    ) = (None, None);
    assert!(rt; alphabet::opposite_ascii_case(b'a') == b'A');
    assert!(rt; byte_frequencies::freq_rank(b'a') == byte_frequencies::BYTE_FREQUENCIES[97]);
}

#[test]
fn searches_stand_in_their_modules(_rt: HostRuntime) {
    let _packed: (Option<Builder>, Option<Config>, Option<Searcher>) = (None, None, None);
    let _matches: Option<FindIter<'_, '_>> = None;
    let _patterns: (
        Option<Patterns>,
        Option<PatternIter<'_>>,
        Option<Pattern<'_>>,
    ) = (None, None, None);
    let _by_sums: (Option<RabinKarp>, Option<Rolling>, Option<Tally>) = (None, None, None);
    let _prefilters: (
        Option<prefilter::Builder>,
        Option<Prefilter>,
        Option<Candidate>,
        Option<ByteTable>,
    ) = (None, None, None, None);
    let _starts: (
        Option<StartBytesOne>,
        Option<StartBytesTwo>,
        Option<StartBytesThree>,
    ) = (None, None, None);
    let _rares: (
        Option<RareBytesOne>,
        Option<RareBytesTwo>,
        Option<RareBytesThree>,
    ) = (None, None, None);
    let _exact: (Option<Memmem>, Option<Packed>) = (None, None);
}
