ghost use Rattle.std.specs.Prelude.{◌≡◌, ◌+◌, ◌<◌, ◌≤◌, true, length, IfSome};
ghost use Rattle.sheet.specs.Graph.{row_start, row_end, within_limits, sized, fitted, place_between};
ghost use Rattle.sheet.specs.View.{graph};

use std::ops::Range;

/// The most parcels of a sheet.
pub const MOST_PARCELS: usize = 1024;
/// The most entries of a sheet.
pub const MOST_ENTRIES: usize = 16384;
/// The most stores of a sheet; there is at least one.
pub const MOST_STORES: u32 = 64;

/// Whether the limits allow a sheet of so many parcels, entries and stores.
pub fn sizes_within(parcels: usize, entries: usize, stores: u32) -> bool
    ensures { result ≡ within_limits parcels entries stores }
{
    parcels <= MOST_PARCELS && entries <= MOST_ENTRIES && (1..=MOST_STORES).contains(&stores)
}

/// The tables of a sheet, lent for reading, and its number of stores: one beside the other, as callers and C programs
/// keep them.
#[derive(Clone, Copy)]
pub struct Tables<'a, K> {
    /// Where each parcel's row begins in `others`, and after the last where it ends.
    pub starts: &'a [u32],
    /// The parcel that each entry names, row after row.
    pub others: &'a [u32],
    /// The key of each entry.
    pub keys: &'a [K],
    /// The store of each parcel.
    pub stores: &'a [u32],
    /// The edition of each parcel's bands.
    pub editions: &'a [u16],
    /// How many stores there are.
    pub store_count: u32,
}

impl<'a, K: Copy> Tables<'a, K> {
    // Whether the sizes are within the limits.
    pub(crate) fn sizes_right(&self) -> bool
        ensures { result ≡ sized (graph self.now) }
    {
        sizes_within(self.stores.len(), self.others.len(), self.store_count)
    }

    // Whether every table has its length.
    pub(crate) fn lengths_right(&self) -> bool
        requires { sized (graph self.now) ≡ true }
        ensures { result ≡ fitted (graph self.now) }
    {
        let parcels = self.stores.len();
        self.starts.len() == parcels + 1
            && self.keys.len() == self.others.len()
            && self.editions.len() == parcels
    }

    // The places of row `u` among the entries.
    pub(crate) fn row(&self, u: usize) -> Range<usize>
        requires { u + 1 < length self.now.starts.now }
        ensures start { result.start ≡ row_start (graph self.now) u }
        ensures end { result.end ≡ row_end (graph self.now) u }
    {
        self.starts[u] as usize..self.starts[u + 1] as usize
    }
}

// The first place of `row` at which `v` stands.
pub(crate) fn find(others: &[u32], row: Range<usize>, v: usize) -> Option<usize>
    requires { (row.start ≤ row.end) × (row.end ≤ length others.now) }
    ensures { result ≡ place_between others.now row.start row.end v }
{
    find_number(others, row, u32::try_from(v).ok()?)
}

// The same of a number of the table's type: to compare so is faster than as `usize`.
pub(crate) fn find_number(others: &[u32], row: Range<usize>, v: u32) -> Option<usize>
    requires { (row.start ≤ row.end) × (row.end ≤ length others.now) }
    ensures first { result ≡ place_between others.now row.start row.end v }
    ensures before { IfSome result (λ p. p < row.end) }
{
    // by steps, since rows are not known to rise while they are checked
    let start = row.start;
    others[row]
        .iter()
        .position(|other| *other == v)
        .map(|i| start + i)
}
