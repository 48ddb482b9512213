//! The sheets of four parcels with keys 0 to 2, and their tables. The program `all_fours` makes them in a way of its own, so that
//! one mistake does not show in both.
ghost use Rattle.std.specs.Prelude.{◌≡◌, min};
ghost use Rattle.all_orders.specs.Pairs.{partner, touching};

use ranking::Cents;
use std::alloc::{AllocError, Global};

/// How many parcels each sheet has.
pub const PARCELS: u32 = 4;
/// How many sheets there are: each of the six pairs is absent, or has 0, 1 or 2 cents.
pub const SHEETS: u32 = 4_096;
/// The most entries of a sheet: two for each of the six pairs.
pub const MOST_ENTRIES: usize = 12;

static JOINS: [(u32, u32); 6] = [(0, 1), (0, 2), (0, 3), (1, 2), (1, 3), (2, 3)];

/// Two parcels that may be joined, and what their lot would fetch. Pairs are ordered by that key, then by the parcel of
/// the higher number, then by the other.
#[derive(Clone, Copy, PartialEq, Eq, PartialOrd, Ord)]
pub struct Pair {
    pub cents: u32,
    pub high: u32,
    pub low: u32,
}

impl Pair {
    /// The parcel that `u` is joined with, if the pair has `u`.
    pub fn other(self, u: u32) -> Option<u32>
        ensures { result ≡ partner self u }
    {
        if u == self.low {
            Some(self.high)
        } else if u == self.high {
            Some(self.low)
        } else {
            None
        }
    }

    /// Whether the two have a parcel in common.
    pub fn touches(self, with: Pair) -> bool
        ensures { result ≡ touching self «with» }
    {
        self.low == with.low
            || self.low == with.high
            || self.high == with.low
            || self.high == with.high
    }
}

/// The pairs of the sheet of this number: its digits to the base 4 are their cents, or 3 where a pair is absent.
pub fn pairs_of(heap: Global, number: u32) -> Result<Vec<Pair>, AllocError> {
    let mut pairs = Vec::new(heap);
    let mut digits = number;
    for (low, high) in JOINS {
        let cents = digits % 4;
        digits /= 4;
        if cents < 3 {
            pairs.push(Pair { cents, high, low })?;
        }
    }
    Ok(pairs)
}

/// A count in 32 bits; one that needs more is given as the most that they hold.
pub fn capped(count: usize) -> u32
    ensures { result ≡ min count u32.MAX }
{
    u32::try_from(count).unwrap_or(u32::MAX)
}

/// The rows of a sheet: three of the tables that the library takes, each as it takes it.
#[derive(Drop)]
pub struct Rows {
    pub starts: Vec<u32>,
    pub others: Vec<u32>,
    pub keys: Vec<Cents>,
}

impl Rows {
    // Adds the row of parcel `u`. The pairs stand so that its entries rise.
    fn add_row(&mut self, pairs: &[Pair], u: u32) -> Result<(), AllocError> {
        for pair in pairs {
            if let Some(v) = pair.other(u) {
                self.others.push(v)?;
                self.keys.push(Cents(pair.cents))?;
            }
        }
        let end = capped(self.others.len());
        self.starts.push(end)?;
        Ok(())
    }
}

/// The rows of the sheet with these pairs.
pub fn rows_of(heap: Global, pairs: &[Pair]) -> Result<Rows, AllocError> {
    let mut rows = Rows {
        starts: vec![in heap; 0]?,
        others: Vec::new(heap),
        keys: Vec::new(heap),
    };
    for u in 0..PARCELS {
        rows.add_row(pairs, u)?;
    }
    Ok(rows)
}
