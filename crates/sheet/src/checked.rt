ghost use Rattle.std.specs.Prelude.{◌≡◌, ℕ, ◌<◌, true};
ghost use Rattle.sheet.specs.Graph.{InRow, parcels, sized, fitted, bare_right, parcel_right, rises, mirrored, one_edition, no_parcels, row, place_at};
ghost use Rattle.sheet.specs.View.{graph};

use crate::tables::Tables;
use std::ops::Range;

/// A checked sheet: all that does not speak of the ranking is its invariant. That the two keys of a pair rank alike is
/// what `check` promises of it.
///
/// There is the empty sheet, and there is what `check` makes; no other way leads to one.
// It has no `Model`: contracts speak of the very slices that it holds, which a view as lists would hide.
#[derive(Drop)]
pub struct Sheet<'a, K> {
    pub(crate) tables: Tables<'a, K>,
    ghost sizes: { sized (graph tables) ≡ true },
    ghost lengths: { fitted (graph tables) ≡ true },
    ghost bare: { bare_right (graph tables) ≡ true },
    ghost parcel: { (u : ℕ) → u < parcels (graph tables) → parcel_right (graph tables) u ≡ true },
    ghost rising: { (u p : ℕ) → InRow (graph tables) u p → rises (graph tables) u p ≡ true },
    ghost mirror: { (u p : ℕ) → InRow (graph tables) u p → mirrored (graph tables) u p ≡ true },
    ghost edition: { (u p : ℕ) → InRow (graph tables) u p → one_edition (graph tables) u p ≡ true },
}

impl<'a, K: Copy> Sheet<'a, K> {
    /// The sheet with no parcels, no entries and one store.
    pub fn empty() -> Sheet<'a, K>
        ensures { graph result.tables ≡ no_parcels }
    {
        let tables = Tables {
            starts: &[0],
            others: &[],
            keys: &[],
            stores: &[],
            editions: &[],
            store_count: 1,
        };
        Sheet { tables }
    }

    /// The tables that were checked.
    pub fn tables(&self) -> Tables<'a, K>
        ensures { result ≡ self.now.tables }
    {
        self.tables
    }

    /// The places of row `u` among the entries; none if there is no such parcel.
    pub fn row(&self, u: usize) -> Range<usize>
        ensures { result ≡ row (graph self.now.tables) u }
    {
        let t = self.tables;
        if u < t.stores.len() { t.row(u) } else { 0..0 }
    }

    /// The place among the entries of the entry at place `choice` of row `u`, counted from the row's beginning; none where
    /// the row has no such entry, or the sheet no such parcel.
    pub fn place(&self, u: usize, choice: u32) -> Option<usize>
        ensures { result ≡ place_at (graph self.now.tables) u choice }
    {
        let row = self.row(u);
        let place = row.start + choice as usize;
        (place < row.end).then_some(place)
    }
}
