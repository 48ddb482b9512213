//! A sheet's text is read into tables that the caller lends. docs/TEXT.md has the form of the text.
#![tactic(auto)]

ghost use Rattle.std.specs.Prelude.{◌≡◌, Some, None, Decides};
ghost use Rattle.reading.specs.Examples.{Examples};
ghost use Rattle.sheet.specs.View.{graph};
ghost use Rattle.reading.specs.Outcome.{lent, SameSlices, Within, Room, first_places, Read};

use checking::Body;
use faults::{Fault, Refusal};
use ranking::Ranking;
use rows::first_line;
use sheet::{Tables, sizes_within};
use text::Lines;

mod checking;
mod filling;
mod rows;

/// How many parcels, entries and stores a sheet has.
#[derive(Clone, Copy, Debug, PartialEq, Eq)]
pub struct Sizes {
    pub parcels: u32,
    pub entries: u32,
    pub stores: u32,
}

impl Sizes {
    fn is_within(self) -> bool
        ensures { Decides result (Within self) }
    {
        sizes_within(self.parcels as usize, self.entries as usize, self.stores)
    }
}

/// The tables of a sheet, lent to be filled, one beside the other as callers and C programs keep them. They may be longer
/// than the sheet needs.
#[derive(Drop)]
pub struct TablesMut<'a, K> {
    pub starts: &'a mut [u32],
    pub others: &'a mut [u32],
    pub keys: &'a mut [K],
    pub stores: &'a mut [u32],
    pub editions: &'a mut [u16],
}

impl<K> TablesMut<'_, K> {
    fn has_room(&self, sizes: Sizes) -> bool
        ensures { Decides result (Room sizes (lent self.now)) }
    {
        let parcels = sizes.parcels as usize;
        let entries = sizes.entries as usize;
        parcels < self.starts.len()
            && entries <= self.others.len()
            && entries <= self.keys.len()
            && parcels <= self.stores.len()
            && parcels <= self.editions.len()
    }

    /// The first places of the tables, which a sheet of these sizes takes; none where a table is too short for it.
    pub fn cut(&self, sizes: Sizes) -> Option<Tables<'_, K>>
        ensures { elim result [ Some t ↦ Room sizes (lent self.now) × (graph t ≡ first_places sizes (lent self.now)) | None ↦ Room sizes (lent self.now) → ⊥ ] }
    {
        if !self.has_room(sizes) {
            return None;
        }
        let parcels = sizes.parcels as usize;
        let entries = sizes.entries as usize;
        Some(Tables {
            starts: &self.starts[..parcels + 1],
            others: &self.others[..entries],
            keys: &self.keys[..entries],
            stores: &self.stores[..parcels],
            editions: &self.editions[..parcels],
            store_count: sizes.stores,
        })
    }
}

/// Reads a sheet's text into the tables, in two passes: they are written only when all is right, and only in the places needed.
///
/// Refuses, in this order: a first line that has not the form (`Line` at 1), sizes outside the limits (`Size` at 0), a table that is
/// too short for them (`Room` at 0), and the first other line that is wrong, missing or too many (`Line` at its number).
pub fn read<K: Ranking>(text: &[u8], tables: &mut TablesMut<'_, K>) -> Result<Sizes, Fault>
    ensures reads { Read K.Ranking.made K.Ranking.fields text.now (lent tables.old) result (lent tables.new) }
    ensures slices { SameSlices tables.old tables.new }
{
    let mut lines = Lines::new(text);
    let sizes = first_line(&mut lines).ok_or((Refusal::Line, 1))?;
    if !sizes.is_within() {
        return Err((Refusal::Size, 0));
    }
    if !tables.has_room(sizes) {
        return Err((Refusal::Room, 0));
    }
    let mut body = Body { lines, sizes };
    body.check::<K>()?;
    tables.fill_parcels(&mut body);
    tables.fill_entries(&mut body);
    Ok(sizes)
}

/// A small listing, worked out.
pub fn worked_out()
    ensures { Examples }
{}
