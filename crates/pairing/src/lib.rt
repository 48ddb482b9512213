//! The greedy pairing of a sheet. Each function stands for one theorem, which its contract names.
#![tactic(auto)]

ghost use Rattle.pairing.specs.Examples.{KnownPairings};
ghost use Rattle.pairing.specs.Theorems.{PairsAreEntries, UsesNoneTwice, LeavesOnlyBeaten, IsTheOnlyOne, TiesByNumber, EitherKeyServes, RowsInOrder, TwoForOne, HalfTheCents};

use ranking::Ranking;

/// Small sheets with known pairings.
pub fn known_pairings()
    ensures { KnownPairings }
{}

/// The pairs of a sheet are its entries, each with its mirror.
pub fn pairs_are_entries<K: Ranking>()
    ensures { PairsAreEntries K }
{}

/// The greedy pairing uses no parcel twice.
pub fn uses_none_twice<K: Ranking>()
    ensures { UsesNoneTwice K.Ranking.atleast }
{}

/// A pair that it leaves out touches one of its pairs that stands above.
pub fn leaves_only_beaten<K: Ranking>()
    ensures { LeavesOnlyBeaten K.Ranking.atleast }
{}

/// No other list of pairs is like that, order apart.
pub fn is_the_only_one<K: Ranking>()
    ensures { IsTheOnlyOne K.Ranking.atleast }
{}

/// Of two pairs that share a parcel and have keys that rank alike, the one with the larger other parcel stands above.
pub fn ties_by_number<K: Ranking>()
    ensures { TiesByNumber K.Ranking.atleast }
{}

/// Either key of a pair serves.
pub fn either_key_serves<K: Ranking>()
    ensures { EitherKeyServes K.Ranking.atleast }
{}

/// Within a row, pairs stand as their entries do.
pub fn rows_in_order<K: Ranking>()
    ensures { RowsInOrder K.Ranking.atleast }
{}

/// Each pair of any other pairing shares a parcel with a greedy pair whose key is at least as high, and no greedy pair
/// is named for more than two.
pub fn two_for_one<K: Ranking>()
    ensures { TwoForOne K.Ranking.atleast }
{}

/// In cents the greedy pairing comes to at least half of any other.
pub fn half_the_cents()
    ensures { HalfTheCents }
{}
