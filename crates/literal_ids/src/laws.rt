//! Laws of conversions and identifiers. The contract of each function is the law. The functions do nothing, except for
//! those on the ends, which return constants that a contract can't name.
ghost use Rattle.std.specs.Prelude.{◌≡◌, ◌<◌, ◌^◌, ◌-◌, ℕ, ℤ, ◌≤ℤ◌, ◌<ℤ◌, pos, neg_ℤ};
ghost use Rattle.literal_ids.specs.Bits.{bits_of, number_of};
ghost use Rattle.literal_ids.specs.Clones.{ClonesExactly};
ghost use Rattle.literal_ids.specs.Identifier.{IsComparedByNumber};
ghost use Rattle.literal_ids.specs.Iteration.{GivesEachThenNone};

use crate::primitives::{
    PatternID, PatternIDError, PatternIDIter, SmallIndex, SmallIndexError, SmallIndexIter, StateID,
    StateIDError, StateIDIter, WithPatternIDIter, WithStateIDIter,
};
use std::hash::Hash;

/// `number_of` the bits of a number is the number itself, for every number of bits.
pub fn bits_give_their_number_back()
    ensures { (k : ℕ) (n : ℤ) → 0 < k → neg_ℤ (pos (2 ^ (k - 1))) ≤ℤ n → n <ℤ pos (2 ^ (k - 1))
        → number_of k (bits_of k n) ≡ n }
{}

/// The bits of `number_of` some bits are these bits, for every number of bits.
pub fn a_number_gives_its_bits_back()
    ensures { (k m : ℕ) → 0 < k → m < 2 ^ k → bits_of k (number_of k (pos m)) ≡ pos m }
{}

/// The least and the greatest small index, their number, and the size of one in bytes.
pub fn ends_of_small_indices() -> (SmallIndex, SmallIndex)
    ensures ends { result ≡ (0, 2147483646) }
    ensures limit { SmallIndex.LIMIT ≡ 2147483647 }
    ensures size { SmallIndex.SIZE ≡ 4 }
{
    (SmallIndex::ZERO, SmallIndex::MAX)
}

/// The least and the greatest identifier of a pattern, their number, and the size of one in bytes.
pub fn ends_of_pattern_ids() -> (PatternID, PatternID)
    ensures ends { result ≡ (0, 2147483646) }
    ensures limit { PatternID.LIMIT ≡ 2147483647 }
    ensures size { PatternID.SIZE ≡ 4 }
{
    (PatternID::ZERO, PatternID::MAX)
}

/// The least and the greatest identifier of a state, their number, and the size of one in bytes.
pub fn ends_of_state_ids() -> (StateID, StateID)
    ensures ends { result ≡ (0, 2147483646) }
    ensures limit { StateID.LIMIT ≡ 2147483647 }
    ensures size { StateID.SIZE ≡ 4 }
{
    (StateID::ZERO, StateID::MAX)
}

/// Small indices and identifiers are equal and ordered as their numbers are, and equal ones hash alike.
pub fn identifiers_are_compared_by_number()
    ensures small_index { IsComparedByNumber ⟦<SmallIndex as PartialEq>⟧.eq ⟦<SmallIndex as PartialOrd>⟧.partial_cmp
        ⟦<SmallIndex as Ord>⟧.cmp ⟦<SmallIndex as Hash>⟧.hash_input }
    ensures pattern_id { IsComparedByNumber ⟦<PatternID as PartialEq>⟧.eq ⟦<PatternID as PartialOrd>⟧.partial_cmp
        ⟦<PatternID as Ord>⟧.cmp ⟦<PatternID as Hash>⟧.hash_input }
    ensures state_id { IsComparedByNumber ⟦<StateID as PartialEq>⟧.eq ⟦<StateID as PartialOrd>⟧.partial_cmp
        ⟦<StateID as Ord>⟧.cmp ⟦<StateID as Hash>⟧.hash_input }
{}

/// Every iteration gives each element that is left in turn, and then always `None`.
pub fn iterations_end<T: 'static>()
    ensures small_index { GivesEachThenNone (λ index. index) ⟦<SmallIndexIter as Iterator>⟧.next_gives }
    ensures pattern_id { GivesEachThenNone (λ id. id) ⟦<PatternIDIter as Iterator>⟧.next_gives }
    ensures state_id { GivesEachThenNone (λ id. id) ⟦<StateIDIter as Iterator>⟧.next_gives }
    ensures with_pattern_ids { GivesEachThenNone (λ pair. (pair.0, pair.1.now))
        ⟦<WithPatternIDIter<'static, T> as Iterator>⟧.next_gives }
    ensures with_state_ids { GivesEachThenNone (λ pair. (pair.0, pair.1.now))
        ⟦<WithStateIDIter<'static, T> as Iterator>⟧.next_gives }
{}

/// A clone of an identifier, a small index or an error is the same value, and allocates nothing.
pub fn clones_are_equal()
    ensures small_index { ClonesExactly ⟦<SmallIndex as Clone>⟧.is_clone ⟦<SmallIndex as Clone>⟧.is_infallible }
    ensures pattern_id { ClonesExactly ⟦<PatternID as Clone>⟧.is_clone ⟦<PatternID as Clone>⟧.is_infallible }
    ensures state_id { ClonesExactly ⟦<StateID as Clone>⟧.is_clone ⟦<StateID as Clone>⟧.is_infallible }
    ensures small_index_error { ClonesExactly ⟦<SmallIndexError as Clone>⟧.is_clone
        ⟦<SmallIndexError as Clone>⟧.is_infallible }
    ensures pattern_id_error { ClonesExactly ⟦<PatternIDError as Clone>⟧.is_clone
        ⟦<PatternIDError as Clone>⟧.is_infallible }
    ensures state_id_error { ClonesExactly ⟦<StateIDError as Clone>⟧.is_clone ⟦<StateIDError as Clone>⟧.is_infallible }
{}
