ghost use Rattle.std.specs.Prelude.{◌≡◌, ◌<◌, true, length, MatchResult};
ghost use Rattle.sheet.specs.Graph.{InRow, parcels, sized, fitted, bare_right, parcel_right, rises};
ghost use Rattle.sheet.specs.Check.{Passed, RefusedWith, ParcelsRight, WrongParcel, WrongEntry, OneFault};
ghost use Rattle.sheet.specs.View.{graph};
ghost use Rattle.ranking.specs.Law.{alike, lifted};
ghost use Rattle.std.specs.List.{slice_get};

use crate::checked::Sheet;
use crate::tables::{Tables, find_number};
use faults::{Fault, Refusal};
use ranking::Ranking;

// Tables whose sizes are within the limits, and each of which has its length.
#[derive(Drop)]
pub(crate) struct Fitted<'a, K> {
    tables: Tables<'a, K>,
    ghost sizes: { sized (graph tables) ≡ true },
    ghost lengths: { fitted (graph tables) ≡ true },
}

// Fitted tables whose rows and stores are right.
#[derive(Drop)]
pub(crate) struct Rows<'a, K> {
    fitted: Fitted<'a, K>,
    ghost right: { ParcelsRight (graph fitted.tables) (parcels (graph fitted.tables)) },
}

impl<'a, K: Ranking> Fitted<'a, K> {
    // The tables, if their sizes and lengths are right.
    pub(crate) fn new(tables: Tables<'a, K>) -> Result<Self, Fault>
        ensures { MatchResult result (λ it. it.tables ≡ tables.entry) (RefusedWith K.Ranking.atleast (graph tables.entry)) }
    {
        if !tables.sizes_right() {
            return Err((Refusal::Size, 0));
        }
        if !tables.lengths_right() {
            return Err((Refusal::Room, 0));
        }
        Ok(Fitted { tables })
    }

    // Whether the rows of a sheet that has no parcels are right.
    fn bare_right(&self) -> bool
        ensures { result ≡ bare_right (graph self.now.tables) }
    {
        let t = self.tables;
        !t.stores.is_empty() || (t.starts[0] == 0 && t.others.is_empty())
    }

    // Whether the row and the store of parcel `u` are right.
    fn parcel_right(&self, u: usize) -> bool
        requires { u < parcels (graph self.now.tables) }
        ensures { result ≡ parcel_right (graph self.now.tables) u }
    {
        let t = self.tables;
        let row = t.row(u);
        (u != 0 || row.start == 0)
            && row.start <= row.end
            && row.end <= t.others.len()
            && (u + 1 != t.stores.len() || row.end == t.others.len())
            && t.stores[u] < t.store_count
    }

    // The first parcel whose row or store is wrong; without parcels, 0 if there are entries or the one start is not 0.
    fn wrong_parcel(&self) -> Option<usize>
        ensures { WrongParcel (graph self.now.tables) result }
    {
        if !self.bare_right() {
            return Some(0);
        }
        (0..self.tables.stores.len()).find(|u| !self.parcel_right(*u))
    }

    // The rows, if each parcel's row and store are right.
    pub(crate) fn rows(self) -> Result<Rows<'a, K>, Fault>
        ensures { MatchResult result (λ it. it.fitted ≡ self.entry) (RefusedWith K.Ranking.atleast (graph self.entry.tables)) }
    {
        match self.wrong_parcel() {
            Some(u) => Err((Refusal::Parcel, u as u32)),
            None => Ok(Rows { fitted: self }),
        }
    }
}

// Whether the keys at `p` and `q` rank alike.
#[tactic(auto, using(std::proofs::lemmas::Option::slice_get_read))]
fn keys_alike<K: Ranking>(keys: &[K], p: usize, q: usize) -> bool
    requires { (p < length keys.now) × (q < length keys.now) }
    ensures { result ≡ alike (lifted K.Ranking.atleast) (slice_get keys.now p) (slice_get keys.now q) }
{
    let a = keys[p];
    let b = keys[q];
    a.at_least(b) && b.at_least(a)
}

impl<'a, K: Ranking> Rows<'a, K> {
    // Whether the entry at place `p` of row `u` names a parcel, not its own, above the one before it.
    fn entry_rises(&self, u: usize, p: usize) -> bool
        requires { InRow (graph self.now.fitted.tables) u p }
        ensures { result ≡ rises (graph self.now.fitted.tables) u p }
    {
        let t = self.fitted.tables;
        let other = t.others[p] as usize;
        other < t.stores.len()
            && other != u
            && (p <= t.row(u).start || (t.others[p - 1] as usize) < other)
    }

    // The lowest fault of the entry at place `p` of row `u`.
    fn entry_fault(&self, u: usize, p: usize) -> Option<Refusal>
        requires { InRow (graph self.now.fitted.tables) u p }
        ensures { OneFault K.Ranking.atleast (graph self.now.fitted.tables) u p result }
    {
        if !self.entry_rises(u, p) {
            return Some(Refusal::Entry);
        }
        let t = self.fitted.tables;
        let v = t.others[p] as usize;
        let Some(q) = find_number(t.others, t.row(v), u as u32) else {
            return Some(Refusal::Mirror);
        };
        if !keys_alike(t.keys, p, q) {
            Some(Refusal::Alike)
        } else if t.editions[u] != t.editions[v] {
            Some(Refusal::Edition)
        } else {
            None
        }
    }

    // The first wrong entry in row order: its lowest fault, and its place.
    fn wrong_entry(&self) -> Option<Fault>
        ensures { WrongEntry K.Ranking.atleast (graph self.now.fitted.tables) result }
    {
        let t = self.fitted.tables;
        let mut found = None;
        // two loops over rows and entries, left by their label with the place in hand (docs/DECISIONS.md says why)
        'rows: for u in 0..t.stores.len() {
            for p in t.row(u) {
                if let Some(refusal) = self.entry_fault(u, p) {
                    found = Some((refusal, p as u32));
                    break 'rows;
                }
            }
        }
        found
    }

    // The sheet, if each entry is right.
    pub(crate) fn checked(self) -> Result<Sheet<'a, K>, Fault>
        ensures { MatchResult result (λ s. Passed K.Ranking.atleast (graph self.entry.fitted.tables) × (s.tables ≡ self.entry.fitted.tables)) (RefusedWith K.Ranking.atleast (graph self.entry.fitted.tables)) }
    {
        match self.wrong_entry() {
            Some(fault) => Err(fault),
            None => Ok(Sheet {
                tables: self.fitted.tables,
            }),
        }
    }
}
