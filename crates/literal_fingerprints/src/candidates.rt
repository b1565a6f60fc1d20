//! The scan that suits a list of patterns.
ghost use Rattle.std.specs.Prelude.{◌≡◌, ◌∷◌, [], ℕ, List, ◌+◌, ◌-◌, ◌*◌, ◌<◌, ◌≤◌, IfSome, IsSome, false, length, map};
ghost use Rattle.literal_base.specs.Occurs.{IsValidSpan};
ghost use Rattle.literal_fingerprints.specs.CandidateScans.{IsScanFor, MayStop, NoneBeginsBefore, ahead_of};
ghost use Rattle.literal_fingerprints.specs.CandidateScans.{without_first};
ghost use Rattle.literal_fingerprints.specs.RarePairs.{AreOf};
ghost use Rattle.literal_fingerprints.specs.ShortPatterns.{IsOnly};

use crate::buckets::bytes_before_fingerprints;
use crate::fingerprints::{BYTES, Fingerprints};
use crate::pair::{RarePair, bytes_before_pair};
use crate::short::ShortPattern;
use literal_base::Span;
use literal_base::count::Tally;

/// Finds candidates: offsets of a haystack at which a pattern of a list may begin.
#[derive(Clone, Copy)]
pub struct CandidateScan {
    /// The fingerprints of the patterns. If there is a pair, they are not used.
    pub fingerprints: Fingerprints,
    /// Two or three bytes of the only pattern.
    pub pair: Option<RarePair>,
    /// The number of first bytes of each pattern that the scan skips.
    pub skipped: u8,
    /// The only pattern, if it has at most 16 bytes and case is kept.
    pub short: Option<ShortPattern>,
}

impl CandidateScan {
    /// Returns the scan for some patterns: by a pair for one, and by fingerprints for several. There is none if there
    /// is no pattern, if one is empty, or if several have no fingerprints.
    pub fn new(ignore_case: bool, patterns: &[Vec<u8>]) -> Option<CandidateScan>
        ensures stops { IfSome result
            (λ scan. IsScanFor scan ignore_case (map (λ pattern. pattern.items) patterns.now)) }
        ensures some { IfSome result (λ _. (0 < length patterns.now) × (length patterns.now ≤ 64)) }
        ensures one { (pattern : List ℕ) → map (λ pattern. pattern.items) patterns.now ≡ pattern ∷ []
            → 0 < length pattern → IsSome result }
        ensures short { (pattern : List ℕ) → map (λ pattern. pattern.items) patterns.now ≡ pattern ∷ []
            → 0 < length pattern → length pattern ≤ 16 → ignore_case ≡ false
            → IfSome result (λ scan. IsSome scan.short) }
    {
        if let Some((skipped, pair)) = pair_for(ignore_case, patterns) {
            return Some(CandidateScan {
                fingerprints: Fingerprints::from_bytes(&[0; BYTES]),
                pair: Some(pair),
                skipped,
                short: short_for(ignore_case, patterns),
            });
        }
        let skipped = bytes_before_fingerprints(patterns);
        let fingerprints = Fingerprints::new(ignore_case, skipped as usize, patterns)?;
        Some(CandidateScan {
            fingerprints,
            pair: None,
            skipped,
            short: None,
        })
    }

    /// Returns an offset of the span, or its end, before which no pattern begins that lies whole in the span. The span
    /// has to be valid.
    #[inline(always)]
    pub fn next(&self, haystack: &[u8], span: Span, tally: &mut Tally) -> usize
        requires { IsValidSpan haystack.now span }
        ensures inside { (span.start ≤ result) × (result ≤ span.end) }
        ensures passed { NoneBeginsBefore self.now haystack.now span result }
        ensures stops { MayStop self.now haystack.now span result }
        ensures others { tally.new ≡ record tally.old { scanned = tally.new.scanned } }
        ensures once { tally.new.scanned ≤ tally.old.scanned + (span.end - span.start) }
        ensures read { tally.old.scanned + result ≤ tally.new.scanned + span.start }
        ensures counted { tally.new.scanned + span.start ≤ tally.old.scanned + result + ahead_of self.now }
        ensures thrice { tally.new.scanned + 3 * span.start ≤ tally.old.scanned + 3 * result + 16 }
    {
        let skipped = (self.skipped as usize).min(span.end - span.start);
        let rest = Span {
            start: span.start + skipped,
            end: span.end,
        };
        // The pair is copied: with a reference to it, the compiler keeps the fingerprints in memory too.
        let at = match self.pair {
            None => self.fingerprints.next(haystack, rest, tally),
            Some(pair) => pair.next(haystack, rest, tally),
        };
        at - skipped
    }

    /// Returns the most bytes that a scan reads after the offset at which it stops.
    pub fn ahead(&self) -> usize
        ensures { result ≡ ahead_of self.now }
    {
        match self.pair {
            None => 35,
            Some(_) => 37,
        }
    }
}

/// The only pattern, if it has at most 16 bytes and case is kept.
fn short_for(ignore_case: bool, patterns: &[Vec<u8>]) -> Option<ShortPattern>
    ensures only { IfSome result (λ short. IsOnly short ignore_case (map (λ pattern. pattern.items) patterns.now)) }
    ensures some { (pattern : List ℕ) → map (λ pattern. pattern.items) patterns.now ≡ pattern ∷ []
        → 0 < length pattern → length pattern ≤ 16 → ignore_case ≡ false → IsSome result }
{
    if ignore_case || patterns.len() != 1 {
        return None;
    }
    ShortPattern::new(&patterns[0])
}

/// The number of first bytes of the only pattern that are skipped, and the pair of the others.
fn pair_for(ignore_case: bool, patterns: &[Vec<u8>]) -> Option<(u8, RarePair)>
    ensures stops { IfSome result (λ found. AreOf found.1 ignore_case
        (without_first found.0 (map (λ pattern. pattern.items) patterns.now))) }
    ensures one { IfSome result (λ _. length patterns.now ≡ 1) }
    ensures some { (pattern : List ℕ) → map (λ pattern. pattern.items) patterns.now ≡ pattern ∷ []
        → 0 < length pattern → IsSome result }
{
    if patterns.len() != 1 {
        return None;
    }
    let pattern = patterns[0].as_slice();
    let skipped = bytes_before_pair(pattern);
    let pair = RarePair::new(ignore_case, &pattern[skipped as usize..])?;
    Some((skipped, pair))
}
