ghost use Rattle.std.specs.Prelude.{◌≡◌, ℕ, ◌≤◌, ◌⊎◌, List, [], ◌∷◌, length, Some, None};
ghost use Rattle.text.specs.Parts.{left};
ghost use Rattle.text.specs.Rows.{Begins};
ghost use Rattle.reading.specs.declared.Sizes.{Sizes};
ghost use Rattle.reading.specs.declared.rows.Parcel.{Parcel};
ghost use Rattle.reading.specs.Entries.{EntryNumbers, ReadEntry};
ghost use Rattle.reading.specs.Listing.{Entry, sizes_row, parcel_row, entry_row, FitParcel, FitEntry};

use super::Sizes;
use ranking::Ranking;
use text::{Lines, numbers};

// A parcel as a line lists it.
#[derive(Clone, Copy)]
pub(crate) struct Parcel {
    pub(crate) store: u32,
    pub(crate) edition: u16,
}

// An entry as a line lists it: the parcel in whose row it stands, the other parcel, and the key.
#[derive(Clone, Copy)]
pub(crate) struct EntryLine<K> {
    pub(crate) row: u32,
    pub(crate) other: u32,
    pub(crate) key: K,
}

// The numbers of the next line, of which there are to be just `N`.
fn next_numbers<const N: usize>(lines: &mut Lines<'_>) -> Option<[u32; N]>
    ensures { elim result [ Some vs ↦ Begins (vs ∷ []) (left lines.old) (left lines.new) × (length vs ≡ N) | None ↦ ((vs rest : List ℕ) → length vs ≡ N → Begins (vs ∷ []) (left lines.old) rest → ⊥) ] }
{
    numbers(lines.next()?)
}

// The sizes in the next line; none where it has not the form.
pub(super) fn first_line(lines: &mut Lines<'_>) -> Option<Sizes>
    ensures { elim result [ Some z ↦ Begins (sizes_row z ∷ []) (left lines.old) (left lines.new) | None ↦ ((z : Sizes) (rest : List ℕ) → Begins (sizes_row z ∷ []) (left lines.old) rest → ⊥) ] }
{
    let [parcels, entries, stores] = next_numbers::<3>(lines)?;
    Some(Sizes {
        parcels,
        entries,
        stores,
    })
}

// The parcel in the next line, which is to have this number; none where the line has not the form.
pub(super) fn parcel_line(lines: &mut Lines<'_>, number: u32) -> Option<Parcel>
    ensures { elim result [ Some p ↦ FitParcel p × Begins (parcel_row number p ∷ []) (left lines.old) (left lines.new) | None ↦ ((p : Parcel) (rest : List ℕ) → FitParcel p → Begins (parcel_row number p ∷ []) (left lines.old) rest → ⊥) ] }
{
    let [named, store, edition] = next_numbers::<3>(lines)?;
    if named != number {
        return None;
    }
    let edition = u16::try_from(edition).ok()?;
    Some(Parcel { store, edition })
}

// The four numbers of an entry in the next line; of a key with one field the last is 0.
fn entry_numbers(lines: &mut Lines<'_>, count: usize) -> Option<[u32; 4]>
    requires { (count ≡ 1) ⊎ (count ≡ 2) }
    ensures { elim result [ Some vs ↦ EntryNumbers count (left lines.old) (left lines.new) vs | None ↦ ((x : Entry) (rest : List ℕ) → length x.fields ≡ count → Begins (entry_row x ∷ []) (left lines.old) rest → ⊥) ] }
{
    if count == 1 {
        let [row, other, first] = next_numbers::<3>(lines)?;
        Some([row, other, first, 0])
    } else {
        next_numbers(lines)
    }
}

// The entry in the next line, in the row of one of the parcels and not below the row `low`; none where the line has not the form.
pub(super) fn entry_line<K: Ranking>(
    lines: &mut Lines<'_>,
    parcels: u32,
    low: u32,
) -> Option<EntryLine<K>>
    ensures { elim result [ Some line ↦ ReadEntry K.Ranking.made K.Ranking.fields parcels low (left lines.old) (left lines.new) line | None ↦ ((x : Entry) (rest : List ℕ) → FitEntry K.Ranking.fields parcels x → low ≤ x.row → Begins (entry_row x ∷ []) (left lines.old) rest → ⊥) ] }
{
    let [row, other, first, second] = entry_numbers(lines, K::field_count())?;
    if row >= parcels || row < low {
        return None;
    }
    Some(EntryLine {
        row,
        other,
        key: K::from_fields(first, second),
    })
}
