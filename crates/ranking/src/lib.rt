//! Rankings: which of two keys is at least as high, and how a key is read from text.
#![tactic(auto)]

ghost use Rattle.std.specs.Prelude.{◌≡◌, ℕ, Bool, ◌⊎◌};
ghost use Rattle.ranking.specs.Law.{Lawful};
ghost use Rattle.ranking.specs.Kinds.{cents_atleast, staged_atleast, cents_key, staged_key};
ghost use Rattle.std.proofs.Common.{rules};

use std::cmp::Reverse;

/// A kind of key. Two keys rank alike where each is at least as high as the other.
///
/// It stands beside `Ord`, since keys that rank alike need not be equal.
pub trait Ranking: Copy {
    ghost atleast: { Self → Self → Bool };

    // how many text fields a key has
    ghost fields: { ℕ };

    // the key of one or two fields; a key of one field disregards the second
    ghost made: { ℕ → ℕ → Self };

    /// Whether this key is at least as high as the other.
    fn at_least(self, other: Self) -> bool
        ensures { result ≡ atleast self other };

    /// How many text fields a key has: 1 or 2. A function, so that a kind made of two others adds theirs.
    fn field_count() -> usize
        ensures { result ≡ fields };

    /// The key with these fields; a key of one field disregards the second.
    fn from_fields(first: u32, second: u32) -> Self
        ensures { result ≡ made first second };

    ghost lawful: { Lawful atleast };

    ghost short: { (fields ≡ 1) ⊎ (fields ≡ 2) };
}

/// Cents: more is higher.
#[repr(C)]
#[derive(Clone, Copy, PartialEq, Eq, Debug)]
pub struct Cents(pub u32);

impl Ranking for Cents {
    ghost atleast = { cents_atleast };

    ghost fields = { 1 };

    ghost made = { cents_key };

    ghost lawful = { Prim.search rules };

    ghost short = { Prim.search rules };

    fn at_least(self, other: Cents) -> bool {
        self.0 >= other.0
    }

    fn field_count() -> usize {
        1
    }

    fn from_fields(first: u32, _second: u32) -> Cents {
        Cents(first)
    }
}

/// A micron band and cents: the smaller band, which is finer wool, is higher; within a band more cents are.
#[derive(Clone, Copy, PartialEq, Eq, Debug)]
pub struct Staged {
    pub band: u32,
    pub cents: u32,
}

impl Ranking for Staged {
    ghost atleast = { staged_atleast };

    ghost fields = { 2 };

    ghost made = { staged_key };

    ghost lawful = { Prim.search rules };

    ghost short = { Prim.search rules };

    fn at_least(self, other: Staged) -> bool {
        (self.band, Reverse(self.cents)) <= (other.band, Reverse(other.cents))
    }

    fn field_count() -> usize {
        2
    }

    fn from_fields(first: u32, second: u32) -> Staged {
        Staged {
            band: first,
            cents: second,
        }
    }
}
