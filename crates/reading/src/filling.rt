ghost use Rattle.std.specs.Prelude.{◌≡◌, ℕ, ◌<◌, ◌≤◌, List, length, slice_index};
ghost use Rattle.text.specs.Parts.{left};
ghost use Rattle.reading.specs.declared.rows.Parcel.{Parcel};
ghost use Rattle.reading.specs.Listing.{Entry};
ghost use Rattle.reading.specs.Outcome.{lent, SameSlices, Room, with_parcels, with_entries};
ghost use Rattle.reading.specs.Passing.{Parcels, Entries};

use super::TablesMut;
use super::checking::Body;
use super::rows::{entry_line, parcel_line};
use ranking::Ranking;

// Writes the value into the places from `from` up to, not including, `to`.
fn fill_starts(starts: &mut [u32], from: u32, to: u32, value: u32)
    requires in_turn { from ≤ to }
    requires room { to ≤ length starts.old }
    ensures before { (k : ℕ) → k < from → slice_index starts.new k ≡ slice_index starts.old k }
    ensures within { (k : ℕ) → from ≤ k → k < to → slice_index starts.new k ≡ value }
    ensures after { (k : ℕ) → to ≤ k → slice_index starts.new k ≡ slice_index starts.old k }
{
    starts[from as usize..to as usize].fill(value);
}

impl<K: Ranking> TablesMut<'_, K> {
    // Writes the parcels' stores and editions; their lines were passed before.
    pub(super) fn fill_parcels(&mut self, body: &mut Body<'_>)
        requires room { Room body.old.sizes (lent self.old) }
        requires passed { (ps : List Parcel) × (rest : List ℕ) × (length ps ≡ body.old.sizes.parcels) × Parcels ps (left body.old.lines) rest }
        ensures parcels { (ps : List Parcel) × (length ps ≡ body.old.sizes.parcels) × Parcels ps (left body.old.lines) (left body.new.lines) × (lent self.new ≡ with_parcels ps (lent self.old)) }
        ensures sizes { body.new.sizes ≡ body.old.sizes }
        ensures slices { SameSlices self.old self.new }
    {
        // `i` is the number that a parcel's line names, and its place in two tables
        for i in 0..body.sizes.parcels {
            let Some(parcel) = parcel_line(&mut body.lines, i) else {
                unreachable!();
            };
            self.stores[i as usize] = parcel.store;
            self.editions[i as usize] = parcel.edition;
        }
    }

    // Writes the starts of all rows, and the entries' other parcels and keys; their lines were passed before.
    pub(super) fn fill_entries(&mut self, body: &mut Body<'_>)
        requires room { Room body.old.sizes (lent self.old) }
        requires passed { (xs : List Entry) × (rest : List ℕ) × (length xs ≡ body.old.sizes.entries) × Entries K.Ranking.fields body.old.sizes.parcels xs (left body.old.lines) rest }
        ensures entries { (xs : List Entry) × (length xs ≡ body.old.sizes.entries) × Entries K.Ranking.fields body.old.sizes.parcels xs (left body.old.lines) (left body.new.lines) × (lent self.new ≡ with_entries K.Ranking.made body.old.sizes.parcels xs (lent self.old)) }
        ensures slices { SameSlices self.old self.new }
    {
        let sizes = body.sizes;
        let mut low = 0;
        // the rows below this one have their start
        let mut started = 0;
        // `j` is where a row may start, and an entry's place in two tables
        for j in 0..sizes.entries {
            let Some(entry) = entry_line::<K>(&mut body.lines, sizes.parcels, low) else {
                unreachable!();
            };
            low = entry.row;
            fill_starts(self.starts, started, low + 1, j);
            started = low + 1;
            self.others[j as usize] = entry.other;
            self.keys[j as usize] = entry.key;
        }
        fill_starts(self.starts, started, sizes.parcels + 1, sizes.entries);
    }
}
