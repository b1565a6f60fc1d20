//! Searches as numbers in an array that a caller lends, without memory of their own. The array is not trusted: if a
//! number leads out of it, the search answers [`Damaged`].
ghost use Rattle.std.specs.Prelude.{◌≡◌, ◌+◌, ◌-◌, ◌*◌, ◌%◌, ◌<◌, ◌≤◌, ◌^◌, ◌↔◌, ◌++◌, ◌⊎◌, [], ◌∷◌, length, map};
ghost use Rattle.std.specs.Prelude.{ℕ, IfOk, IsNone, IsTrue, MatchOption, MatchResult};
ghost use Rattle.std.specs.Prelude.{min, slice_index, slice_range};
ghost use Rattle.std.specs.Int.{from_le_bytes, w32};
ghost use Rattle.std.specs.List.{repeat};
ghost use Rattle.literal_rows.specs.Arrays.{AreShort, HasParts, IsPairScan};
ghost use Rattle.literal_rows.specs.Arrays.{check_of, check_with, joined_with, pair_of, past_skipped, scan_by};
ghost use Rattle.literal_rows.specs.Arrays.{short_of};
ghost use Rattle.literal_rows.specs.Patterns.{longest_of};
ghost use Rattle.literal_rows.specs.Inside.Arrays.{IsHeader, header_table, kind_number, numbers_for};
ghost use Rattle.literal_rows.specs.Inside.Packed.{Puts};
ghost use Rattle.literal_rows.specs.Inside.Arrays.{version_for};
ghost use Rattle.literal_rows.specs.Inside.Packed.{packed, unpacked};
ghost use Rattle.literal_rows.specs.Inside.Rows.{packed_classes};

use crate::classes::{CLASSES_LEN, Classes, PACKED_LEN};
use crate::damaged::Damaged;
use crate::longest_len;
use crate::packed::{pack, unpack};
use crate::walk::{NOTHING, Table};
use literal_base::count::Tally;
use literal_base::packed::MatchKind;
use literal_base::{Match, Span};
use literal_fingerprints::{
    BYTES, CandidateScan, Fingerprints, PAIR_BYTES, RarePair, SHORT_BYTES, ShortPattern,
};
use literal_ids::PatternID;
use std::alloc::{AllocError, Global};
use std::error::Error;
use std::fmt;
use std::marker::Model;

/// The first number of a prepared search for leftmost matches.
pub const PREPARED_VERSION: u32 = 0x4C50_000E;

/// The first number of a prepared search for every occurrence.
pub const OVERLAPPING_VERSION: u32 = 0x4C4F_000B;

/// The index of the number for the match kind: 1 for the longest, and 0 for the first, or for every occurrence. Before
/// it are the version, the checksum, the width, the number of patterns, the number of numbers in the rows, and the
/// length of the longest pattern.
pub const KIND_AT: usize = 6;

/// The index of the first pattern length. After the lengths come the rows, and the class of each byte, and then, in a
/// search for leftmost matches, the link of each pattern.
pub const LENGTHS_AT: usize = KIND_AT + 1;

/// How many numbers describe a scan for candidates, after all others. The first is one more than the number of bytes
/// that the scan skips, or 0 if there is no scan. The others hold the bytes of its fingerprints, its rare pair and its
/// short pattern, four each. A missing part is zeros.
pub const SCAN_LEN: usize = SHORT_AT + SHORT_BYTES / 4;

/// The index among these of the first number of the rare pair.
const PAIR_AT: usize = 1 + BYTES / 4;

/// The index among these of the first number of the short pattern.
pub const SHORT_AT: usize = PAIR_AT + PAIR_BYTES / 4;

/// The prepared search for leftmost matches of no pattern, by the first kind: [`PREPARED_VERSION`], its checksum, one
/// class, no pattern, two numbers in the rows, the longest length 0, and 0 for the kind. Then come the row of the only
/// state, which its one class leads to and where no pattern ends, this class for each byte, and no scan for candidates.
pub const NO_PATTERN: [u32; 305] = [
    0x4C50000E, 0x350E0A86, 1, 0, 2, 0, 0, 0, NOTHING, 0, 0, 0, 0, 0, 0, 0, 0, 0, 0, 0, 0, 0, 0, 0,
    0, 0, 0, 0, 0, 0, 0, 0, 0, 0, 0, 0, 0, 0, 0, 0, 0, 0, 0, 0, 0, 0, 0, 0, 0, 0, 0, 0, 0, 0, 0, 0,
    0, 0, 0, 0, 0, 0, 0, 0, 0, 0, 0, 0, 0, 0, 0, 0, 0, 0, 0, 0, 0, 0, 0, 0, 0, 0, 0, 0, 0, 0, 0, 0,
    0, 0, 0, 0, 0, 0, 0, 0, 0, 0, 0, 0, 0, 0, 0, 0, 0, 0, 0, 0, 0, 0, 0, 0, 0, 0, 0, 0, 0, 0, 0, 0,
    0, 0, 0, 0, 0, 0, 0, 0, 0, 0, 0, 0, 0, 0, 0, 0, 0, 0, 0, 0, 0, 0, 0, 0, 0, 0, 0, 0, 0, 0, 0, 0,
    0, 0, 0, 0, 0, 0, 0, 0, 0, 0, 0, 0, 0, 0, 0, 0, 0, 0, 0, 0, 0, 0, 0, 0, 0, 0, 0, 0, 0, 0, 0, 0,
    0, 0, 0, 0, 0, 0, 0, 0, 0, 0, 0, 0, 0, 0, 0, 0, 0, 0, 0, 0, 0, 0, 0, 0, 0, 0, 0, 0, 0, 0, 0, 0,
    0, 0, 0, 0, 0, 0, 0, 0, 0, 0, 0, 0, 0, 0, 0, 0, 0, 0, 0, 0, 0, 0, 0, 0, 0, 0, 0, 0, 0, 0, 0, 0,
    0, 0, 0, 0, 0, 0, 0, 0, 0, 0, 0, 0, 0, 0, 0, 0, 0, 0, 0, 0, 0, 0, 0, 0, 0, 0, 0, 0, 0, 0, 0, 0,
    0, 0, 0, 0, 0, 0, 0, 0, 0, 0, 0, 0, 0, 0, 0, 0, 0, 0, 0, 0, 0, 0, 0, 0, 0,
];

/// The same by the longest kind: other numbers are the kind and the checksum.
pub const NO_PATTERN_LONGEST: [u32; 305] = [
    0x4C50000E, 0xEBB8C9FB, 1, 0, 2, 0, 1, 0, NOTHING, 0, 0, 0, 0, 0, 0, 0, 0, 0, 0, 0, 0, 0, 0, 0,
    0, 0, 0, 0, 0, 0, 0, 0, 0, 0, 0, 0, 0, 0, 0, 0, 0, 0, 0, 0, 0, 0, 0, 0, 0, 0, 0, 0, 0, 0, 0, 0,
    0, 0, 0, 0, 0, 0, 0, 0, 0, 0, 0, 0, 0, 0, 0, 0, 0, 0, 0, 0, 0, 0, 0, 0, 0, 0, 0, 0, 0, 0, 0, 0,
    0, 0, 0, 0, 0, 0, 0, 0, 0, 0, 0, 0, 0, 0, 0, 0, 0, 0, 0, 0, 0, 0, 0, 0, 0, 0, 0, 0, 0, 0, 0, 0,
    0, 0, 0, 0, 0, 0, 0, 0, 0, 0, 0, 0, 0, 0, 0, 0, 0, 0, 0, 0, 0, 0, 0, 0, 0, 0, 0, 0, 0, 0, 0, 0,
    0, 0, 0, 0, 0, 0, 0, 0, 0, 0, 0, 0, 0, 0, 0, 0, 0, 0, 0, 0, 0, 0, 0, 0, 0, 0, 0, 0, 0, 0, 0, 0,
    0, 0, 0, 0, 0, 0, 0, 0, 0, 0, 0, 0, 0, 0, 0, 0, 0, 0, 0, 0, 0, 0, 0, 0, 0, 0, 0, 0, 0, 0, 0, 0,
    0, 0, 0, 0, 0, 0, 0, 0, 0, 0, 0, 0, 0, 0, 0, 0, 0, 0, 0, 0, 0, 0, 0, 0, 0, 0, 0, 0, 0, 0, 0, 0,
    0, 0, 0, 0, 0, 0, 0, 0, 0, 0, 0, 0, 0, 0, 0, 0, 0, 0, 0, 0, 0, 0, 0, 0, 0, 0, 0, 0, 0, 0, 0, 0,
    0, 0, 0, 0, 0, 0, 0, 0, 0, 0, 0, 0, 0, 0, 0, 0, 0, 0, 0, 0, 0, 0, 0, 0, 0,
];

/// The prepared search for every occurrence of no pattern: [`OVERLAPPING_VERSION`], its checksum, and the numbers of
/// [`NO_PATTERN`], with one more for the end of the empty list of lists.
pub const NO_LISTED: [u32; 306] = [
    0x4C4F000B, 0x9A40C3C2, 1, 0, 2, 0, 0, 0, NOTHING, 0, 0, 0, 0, 0, 0, 0, 0, 0, 0, 0, 0, 0, 0, 0,
    0, 0, 0, 0, 0, 0, 0, 0, 0, 0, 0, 0, 0, 0, 0, 0, 0, 0, 0, 0, 0, 0, 0, 0, 0, 0, 0, 0, 0, 0, 0, 0,
    0, 0, 0, 0, 0, 0, 0, 0, 0, 0, 0, 0, 0, 0, 0, 0, 0, 0, 0, 0, 0, 0, 0, 0, 0, 0, 0, 0, 0, 0, 0, 0,
    0, 0, 0, 0, 0, 0, 0, 0, 0, 0, 0, 0, 0, 0, 0, 0, 0, 0, 0, 0, 0, 0, 0, 0, 0, 0, 0, 0, 0, 0, 0, 0,
    0, 0, 0, 0, 0, 0, 0, 0, 0, 0, 0, 0, 0, 0, 0, 0, 0, 0, 0, 0, 0, 0, 0, 0, 0, 0, 0, 0, 0, 0, 0, 0,
    0, 0, 0, 0, 0, 0, 0, 0, 0, 0, 0, 0, 0, 0, 0, 0, 0, 0, 0, 0, 0, 0, 0, 0, 0, 0, 0, 0, 0, 0, 0, 0,
    0, 0, 0, 0, 0, 0, 0, 0, 0, 0, 0, 0, 0, 0, 0, 0, 0, 0, 0, 0, 0, 0, 0, 0, 0, 0, 0, 0, 0, 0, 0, 0,
    0, 0, 0, 0, 0, 0, 0, 0, 0, 0, 0, 0, 0, 0, 0, 0, 0, 0, 0, 0, 0, 0, 0, 0, 0, 0, 0, 0, 0, 0, 0, 0,
    0, 0, 0, 0, 0, 0, 0, 0, 0, 0, 0, 0, 0, 0, 0, 0, 0, 0, 0, 0, 0, 0, 0, 0, 0, 0, 0, 0, 0, 0, 0, 0,
    0, 0, 0, 0, 0, 0, 0, 0, 0, 0, 0, 0, 0, 0, 0, 0, 0, 0, 0, 0, 0, 0, 0, 0, 0, 0,
];

/// The start of the first of the four checksums; the others start at 0. It is not zero, so that zeros do not have the
/// checksum zero.
const CHECK_START: u32 = 2_166_136_261;

/// The factor of each sum of a checksum. It is odd, so that different sums stay different.
const CHECK_FACTOR: u32 = 16_777_619;

/// An array is too short for a search, and is unchanged.
#[derive(Clone, Copy, Debug, PartialEq, Eq, Drop)]
pub struct ArrayTooShort {
    /// The number of entries that the search takes.
    pub needed: usize,
}

/// A short message.
impl fmt::Display for ArrayTooShort {
    ghost use Rattle.std.specs.Prelude.{Some};
    ghost use Rattle.literal_rows.specs.ErrorText.{array_too_short_text};

    ghost output = { λ error. Some (array_too_short_text error) };

    fn fmt<W: fmt::Write>(&self, f: &mut fmt::Formatter<W>) -> fmt::Result {
        write!(f, "the array needs {} places", self.needed)
    }
}

impl Error for ArrayTooShort {}

/// The first number of a search by this match kind, or of one for every occurrence, which has none.
fn version_for(kind: Option<MatchKind>) -> u32
    ensures { result ≡ version_for kind }
{
    match kind {
        None => OVERLAPPING_VERSION,
        Some(_) => PREPARED_VERSION,
    }
}

/// The number for the match kind.
fn kind_number(kind: Option<MatchKind>) -> u32
    ensures { result ≡ kind_number kind }
{
    match kind {
        Some(MatchKind::LeftmostLongest) => 1,
        _ => 0,
    }
}

/// The parts of an array that begins as a prepared search does.
#[derive(Clone, Copy)]
pub struct Header<'p> {
    pub numbers: &'p [u32],
    pub classes: &'p [u32],
    pub width: usize,
    pub lengths: &'p [u32],
    /// The rows, with the classes after them.
    pub rows: &'p [u32],
    pub longest: usize,
}

impl<'p> Header<'p> {
    /// The table that a walk reads.
    #[inline(always)]
    pub fn table(&self) -> Table<'p>
        ensures { result ≡ header_table self.now }
    {
        Table {
            classes: self.classes,
            width: self.width,
            rows: self.rows,
            longest: self.longest,
        }
    }
}

/// The parts of an array, or [`Damaged`] if its first numbers are not those of a search of this version, or if it is
/// shorter than they say.
pub fn split<'p>(numbers: &'p [u32], version: u32) -> Result<Header<'p>, Damaged>
    ensures { MatchResult result
        (λ header. (header.numbers.now ≡ numbers.now) × HasParts version numbers.now × IsHeader version header)
        (λ _. ¬ HasParts version numbers.now) }
{
    if numbers.len() < LENGTHS_AT || numbers[0] != version {
        return Err(Damaged);
    }
    let (patterns, rows_len) = (numbers[3] as usize, numbers[4] as usize);
    let rows_at = LENGTHS_AT + patterns;
    let rows_end = rows_at + rows_len;
    let end = rows_end + CLASSES_LEN;
    if patterns > PatternID::LIMIT || numbers.len() < end {
        return Err(Damaged);
    }
    Ok(Header {
        numbers,
        classes: &numbers[rows_end..rows_end + PACKED_LEN],
        width: numbers[2] as usize,
        lengths: &numbers[LENGTHS_AT..rows_at],
        rows: &numbers[rows_at..end],
        longest: numbers[5] as usize,
    })
}

/// Whether the second number is the checksum of the numbers after it, up to an index.
pub fn is_checked(numbers: &[u32], end: usize) -> bool
    requires some { 2 ≤ end }
    requires inside { end ≤ length numbers.now }
    ensures { IsTrue result ↔ (slice_index numbers.now 1 ≡ check_of (slice_range numbers.now 2 end)) }
{
    numbers[1] == check_over(&numbers[2..end])
}

/// The numbers of a scan for candidates, if there is one.
pub fn scan_numbers(scan: Option<&CandidateScan>) -> [u32; SCAN_LEN]
    ensures { MatchOption scan.entry (result ≡ repeat SCAN_LEN (0 ∷ []))
        (λ s. (0 < past_skipped result) × (scan_by result ≡ s.now)) }
{
    let mut numbers = [0; SCAN_LEN];
    let Some(scan) = scan else {
        return numbers;
    };
    numbers[0] = scan.skipped as u32 + 1;
    numbers[SHORT_AT..].copy_from_slice(&short_numbers(&scan.short));
    numbers[PAIR_AT..SHORT_AT].copy_from_slice(&pair_numbers(&scan.pair));
    pack(&scan.fingerprints.to_bytes(), &mut numbers[1..PAIR_AT]);
    numbers
}

/// The numbers of a rare pair, or zeros if there is none.
fn pair_numbers(pair: &Option<RarePair>) -> [u32; PAIR_BYTES / 4]
    ensures { pair_of (unpacked result) ≡ pair.now }
{
    let mut numbers = [0; PAIR_BYTES / 4];
    if let Some(pair) = pair {
        pack(&pair.to_bytes(), &mut numbers);
    }
    numbers
}

/// The numbers of a short pattern, or zeros if there is none.
fn short_numbers(short: &Option<ShortPattern>) -> [u32; SHORT_BYTES / 4]
    ensures { short_of (unpacked result) ≡ short.now }
{
    let mut numbers = [0; SHORT_BYTES / 4];
    if let Some(short) = short {
        pack(&short.to_bytes(), &mut numbers);
    }
    numbers
}

/// The scan for candidates that these numbers describe, if there is one.
#[inline(always)]
pub fn scan_in(prints: &[u32]) -> Option<CandidateScan>
    requires { length prints.now ≡ SCAN_LEN }
    ensures { MatchOption result (past_skipped prints.now ≡ 0)
        (λ s. (0 < past_skipped prints.now) × (s ≡ scan_by prints.now)) }
{
    if prints[0] == 0 {
        return None;
    }
    Some(scan_by(prints))
}

/// The scan for candidates that these numbers describe.
#[inline(always)]
fn scan_by(prints: &[u32]) -> CandidateScan
    requires { length prints.now ≡ SCAN_LEN }
    ensures { result ≡ scan_by prints.now }
{
    let mut bytes = [0; BYTES];
    unpack(&prints[1..PAIR_AT], &mut bytes);
    CandidateScan {
        fingerprints: Fingerprints::from_bytes(&bytes),
        pair: pair_by(&prints[PAIR_AT..SHORT_AT]),
        skipped: skipped_by(prints),
        short: short_by(&prints[SHORT_AT..SCAN_LEN]),
    }
}

/// The scan for candidates that these numbers describe, if it goes by a rare pair. Only what such a scan uses is read:
/// the pair, and how many bytes are skipped.
#[inline(always)]
pub fn pair_scan_in(prints: &[u32]) -> Option<CandidateScan>
    requires { length prints.now ≡ SCAN_LEN }
    ensures { MatchOption result ((past_skipped prints.now ≡ 0) ⊎ IsNone (scan_by prints.now).pair)
        (IsPairScan prints.now) }
{
    if prints[0] == 0 {
        return None;
    }
    let Some(pair) = pair_by(&prints[PAIR_AT..SHORT_AT]) else {
        return None;
    };
    Some(CandidateScan {
        fingerprints: Fingerprints::from_bytes(&[0; BYTES]),
        pair: Some(pair),
        skipped: skipped_by(prints),
        short: None,
    })
}

/// How many bytes the scan that these numbers describe skips.
#[inline(always)]
fn skipped_by(prints: &[u32]) -> u8
    requires { length prints.now ≡ SCAN_LEN }
    ensures { result ≡ (past_skipped prints.now - 1) % 256 }
{
    (prints[0].saturating_sub(1) % 256) as u8
}

/// The rare pair that these numbers describe, if there is one.
#[inline(always)]
fn pair_by(numbers: &[u32]) -> Option<RarePair>
    requires { length numbers.now ≡ 2 }
    ensures { result ≡ pair_of (unpacked numbers.now) }
{
    let mut bytes = [0; PAIR_BYTES];
    unpack(numbers, &mut bytes);
    if bytes[0] == 0 {
        return None;
    }
    Some(RarePair::from_bytes(&bytes))
}

/// The short pattern that these numbers describe, if there is one.
#[inline(always)]
pub fn short_by(numbers: &[u32]) -> Option<ShortPattern>
    requires { length numbers.now ≡ 5 }
    ensures { result ≡ short_of (unpacked numbers.now) }
{
    let mut bytes = [0; SHORT_BYTES];
    unpack(numbers, &mut bytes);
    if bytes[0] == 0 {
        return None;
    }
    Some(ShortPattern::from_bytes(&bytes))
}

/// Puts the other numbers of a search around its rows, in the list of the rows, so that the rows are in memory once.
/// After the rows and classes there may be lists; `starts` says where each begins. The numbers of the scan for
/// candidates come last.
pub fn assemble(
    alloc: Global,
    kind: Option<MatchKind>,
    classes: &Classes,
    patterns: &[Vec<u8>],
    rows: Vec<u32>,
    starts: &[usize],
    ends: &[u32],
    prints: &[u32; SCAN_LEN],
) -> Result<Vec<u32>, AllocError>
    requires width { classes.now.width < 2 ^ 32 }
    requires patterns { length patterns.now < 2 ^ 32 }
    requires rows { length rows.items < 2 ^ 32 }
    requires starts { length starts.now ≤ 2 ^ 32 }
    requires ends { length ends.now < 2 ^ 32 }
    requires inside { (i : ℕ) → slice_index starts.now i ≤ length ends.now }
    requires short { AreShort (map (λ pattern. pattern.items) patterns.now) }
    ensures { IfOk result (λ numbers. numbers.items ≡ numbers_for (version_for kind) (kind_number kind)
        classes.now.table classes.now.width (map (λ pattern. pattern.items) patterns.now) rows.items starts.now
        (ends.now ++ prints.now)) }
{
    let (width, rows_len) = (classes.width as u32, rows.len() as u32);
    let header = header_for(alloc, kind, width, rows_len, patterns)?;
    let mut numbers = rows;
    numbers.reserve_exact(header.len() + CLASSES_LEN + starts.len() + ends.len() + SCAN_LEN)?;
    let none = numbers.splice(0..0, header)?;
    drop(none);
    push_classes(&mut numbers, &classes.table)?;
    push_starts(&mut numbers, starts)?;
    numbers.extend_from_slice(ends)?;
    numbers.extend_from_slice(prints)?;
    numbers.shrink_to_fit();
    numbers[1] = check_over(&numbers[2..]);
    Ok(numbers)
}

/// The numbers before the rows, with 0 for the checksum.
fn header_for(
    alloc: Global,
    kind: Option<MatchKind>,
    width: u32,
    rows_len: u32,
    patterns: &[Vec<u8>],
) -> Result<Vec<u32>, AllocError>
    requires patterns { length patterns.now < 2 ^ 32 }
    requires short { AreShort (map (λ pattern. pattern.items) patterns.now) }
    ensures { IfOk result (λ header. header.items ≡ version_for kind ∷ 0 ∷ width ∷ length patterns.now
        ∷ rows_len ∷ longest_of (map (λ pattern. pattern.items) patterns.now) ∷ kind_number kind
        ∷ map (λ pattern. length pattern.items) patterns.now) }
{
    let (count, longest) = (patterns.len() as u32, longest_len(patterns) as u32);
    let (version, kind) = (version_for(kind), kind_number(kind));
    let mut header = Vec::from_slice(alloc, &[version, 0, width, count, rows_len, longest, kind])?;
    for pattern in patterns {
        header.push(pattern.len() as u32)?;
    }
    Ok(header)
}

/// Appends the class of each byte.
fn push_classes(numbers: &mut Vec<u32>, classes: &[u8; 256]) -> Result<(), AllocError>
    ensures { IfOk result (λ _. numbers.new.items ≡ numbers.old.items ++ packed_classes classes.now) }
{
    let mut packed = [0; CLASSES_LEN];
    pack(classes, &mut packed[..PACKED_LEN]);
    numbers.extend_from_slice(&packed)?;
    Ok(())
}

/// Appends the indices at which lists begin.
fn push_starts(numbers: &mut Vec<u32>, starts: &[usize]) -> Result<(), AllocError>
    requires { (i : ℕ) → slice_index starts.now i < 2 ^ 32 }
    ensures { IfOk result (λ _. numbers.new.items ≡ numbers.old.items ++ starts.now) }
{
    for start in starts {
        numbers.push(*start as u32)?;
    }
    Ok(())
}

/// The checksum of numbers. Each of four checksums takes every fourth number, so no multiplication waits for the
/// previous one.
fn check_over(numbers: &[u32]) -> u32
    ensures { result ≡ check_of numbers.now }
{
    let (mut first, mut second, mut third, mut fourth) = (CHECK_START, 0, 0, 0);
    for number in numbers {
        let next = check_with(first, *number);
        (first, second, third, fourth) = (second, third, fourth, next);
    }
    joined_with(
        joined_with(joined_with(joined_with(0, first), second), third),
        fourth,
    )
}

/// A checksum after one more number.
#[inline(always)]
fn check_with(check: u32, number: u32) -> u32
    ensures { result ≡ check_with check number }
{
    let sum = check.wrapping_add(number);
    // A product carries only upward, so the upper half goes into the lower one first.
    (sum ^ (sum >> 16)).wrapping_mul(CHECK_FACTOR)
}

/// Joins two checksums. The sum is mixed twice: mixed once, some pairs of flipped top bits would cancel.
fn joined_with(check: u32, other: u32) -> u32
    ensures { result ≡ joined_with check other }
{
    check_with(check_with(check, other), 0)
}
