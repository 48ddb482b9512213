ghost use Rattle.std.specs.Prelude.{◌≡◌, ℕ, ◌+◌, ◌<◌, List, [], ◌∷◌, length, Ok, Err};
ghost use Rattle.text.specs.Parts.{left};
ghost use Rattle.reading.specs.declared.rows.Parcel.{Parcel};
ghost use Rattle.text.specs.Rows.{Begins};
ghost use Rattle.reading.specs.Listing.{Entry, sizes_row, WrongAfter};
ghost use Rattle.reading.specs.Outcome.{Within};
ghost use Rattle.reading.specs.Passing.{Parcels, NoParcel, Entries, NoEntry, AllPassed};

use super::Sizes;
use super::rows::{entry_line, parcel_line};
use faults::{Fault, Refusal};
use ranking::Ranking;
use text::Lines;

// What is left of a text after its first line, and the sizes which that line has and which are within the limits.
#[derive(Clone, Copy)]
pub(crate) struct Body<'a> {
    pub(crate) lines: Lines<'a>,
    pub(crate) sizes: Sizes,
    ghost within: { Within sizes },
}

impl Body<'_> {
    // Passes the lines of all parcels; refuses at the first that is wrong or missing.
    fn check_parcels(&mut self) -> Result<(), Fault>
        ensures lines { elim result [ Ok _ ↦ ((ps : List Parcel) × (length ps ≡ self.old.sizes.parcels) × Parcels ps (left self.old.lines) (left self.new.lines)) | Err f ↦ ((k : ℕ) × (k < self.old.sizes.parcels) × (f ≡ (Refusal.Line, k + 2)) × NoParcel k (left self.old.lines)) ] }
        ensures sizes { self.new.sizes ≡ self.old.sizes }
    {
        for i in 0..self.sizes.parcels {
            parcel_line(&mut self.lines, i).ok_or((Refusal::Line, i + 2))?;
        }
        Ok(())
    }

    // Passes the lines of all entries; refuses at the first that is wrong or missing.
    fn check_entries<K: Ranking>(&mut self) -> Result<(), Fault>
        ensures lines { elim result [ Ok _ ↦ ((xs : List Entry) × (length xs ≡ self.old.sizes.entries) × Entries K.Ranking.fields self.old.sizes.parcels xs (left self.old.lines) (left self.new.lines)) | Err f ↦ ((k : ℕ) × (k < self.old.sizes.entries) × (f ≡ (Refusal.Line, self.old.sizes.parcels + k + 2)) × NoEntry K.Ranking.fields self.old.sizes.parcels k (left self.old.lines)) ] }
        ensures sizes { self.new.sizes ≡ self.old.sizes }
    {
        let sizes = self.sizes;
        let mut low = 0;
        for j in 0..sizes.entries {
            let entry = entry_line::<K>(&mut self.lines, sizes.parcels, low).ok_or((
                Refusal::Line,
                sizes.parcels + j + 2,
            ))?;
            low = entry.row;
        }
        Ok(())
    }

    // Whether all lines are right, and nothing follows them; refuses at the first that is not.
    pub(super) fn check<K: Ranking>(mut self) -> Result<(), Fault>
        ensures { elim result [ Ok _ ↦ AllPassed K.Ranking.fields self.entry.sizes (left self.entry.lines) | Err f ↦ ((k : ℕ) × (f ≡ (Refusal.Line, k + 1)) × ((bs : List ℕ) → Begins (sizes_row self.entry.sizes ∷ []) bs (left self.entry.lines) → WrongAfter K.Ranking.fields self.entry.sizes k bs)) ] }
    {
        self.check_parcels()?;
        self.check_entries::<K>()?;
        if !self.lines.is_at_end() {
            return Err((Refusal::Line, self.sizes.parcels + self.sizes.entries + 2));
        }
        Ok(())
    }
}
