ghost use Rattle.std.specs.Prelude.{◌≡◌, ℕ, ◌+◌, ◌<◌, ◌≤◌, ◌&&◌, length, set, ◌==◌, ◌≢◌};
ghost use Rattle.sheet.specs.Graph.{InRow, parcels};
ghost use Rattle.sheet.specs.Held.{held};
ghost use Rattle.choosing.specs.Top.{Choice};
ghost use Rattle.records.specs.Records.{state, choice as choice_of, chosen_place, chosen};
ghost use Rattle.outright.specs.Pointing.{unpaired_at, free, Kept};
ghost use Rattle.outright.specs.Settling.{AllSettled, NoneWaitsAt, AllRenewed};
ghost use Rattle.outright.specs.Working.{WorkReady, WorkSettles, WorkOnward};

use choosing::{Candidates, top_entry};
use ranking::Ranking;
use records::{Record, State};
use sheet::Sheet;

// Entries that are free: the parcel that they name is not yet paired. The table of the named parcels is read from the
// sheet once, and not for each entry.
#[derive(Clone, Copy)]
struct Free<'a, 'b> {
    others: &'a [u32],
    records: &'b [Record],
}

impl Candidates for Free<'_, '_> {
    ghost stands = { λ s. unpaired_at s.others.now s.records.now };

    fn stands_at(&self, place: usize) -> bool {
        self.others
            .get(place)
            .is_some_and(|other| !is_paired(self.records, *other as usize))
    }
}

// Whether parcel `u` is paired.
fn is_paired(records: &[Record], u: usize) -> bool
    ensures { result ≡ (state records.now u == 2) }
{
    records
        .get(u)
        .is_some_and(|record| record.is(State::Paired))
}

// The lent memory that a pairing works in: the records, and a worklist that begins with the paired parcels, a slice and a
// count since it is lent. That they are the listed ones is false between the writes of one pair, and so the methods say
// it and no ghost field does; and which slices are lent is no fact about one value.
#[derive(Drop)]
pub(crate) struct Work<'a> {
    pub(crate) records: &'a mut [Record],
    pub(crate) worklist: &'a mut [u32],
    pub(crate) listed: usize,
}

impl Work<'_> {
    // Puts a parcel on the worklist.
    fn list(&mut self, parcel: u32)
        requires { self.old.listed < length self.old.worklist.now }
        ensures records { self.new.records ≡ self.old.records }
        ensures work { self.new.worklist.now ≡ set self.old.worklist.now self.old.listed parcel }
        ensures count { self.new.listed ≡ self.old.listed + 1 }
    {
        self.worklist[self.listed] = parcel;
        self.listed += 1;
    }

    // The top free entry of parcel `v`, if its row has a free one.
    fn top_free<K: Ranking>(&self, sheet: &Sheet<K>, v: usize) -> Option<usize>
        ensures { Choice K.Ranking.atleast (held sheet.now) (free (held sheet.now) self.now.records.now) v result }
    {
        let free = Free {
            others: sheet.tables().others,
            records: self.records,
        };
        top_entry(sheet, v, &free)
    }

    // Whether parcel `w` waits at parcel `v`.
    fn waits_at<K: Copy>(&self, sheet: &Sheet<K>, w: usize, v: usize) -> bool
        requires its { w < length self.now.records.now }
        requires place { state self.now.records.now w ≡ 1 → InRow (held sheet.now) w (chosen_place (held sheet.now) self.now.records.now w) }
        ensures { result ≡ (state self.now.records.now w == 1 && chosen (held sheet.now) self.now.records.now w == v) }
    {
        let record = self.records[w];
        if !record.is(State::Waits) {
            return false;
        }
        let tables = sheet.tables();
        let place = tables.starts[w] as usize + record.choice as usize;
        tables.others[place] as usize == v
    }

    // Pairs parcel `v`, at this choice, with parcel `w`, at the choice that it waits with, and lists both.
    fn pair(&mut self, v: u32, choice: u32, w: u32)
        requires mine { v < length self.old.records.now }
        requires its { w < length self.old.records.now }
        requires apart { w ≢ v }
        requires room { self.old.listed + 2 ≤ length self.old.worklist.now }
        ensures same_reference { self.new.records.ghost_name ≡ self.old.records.ghost_name }
        ensures paired { self.new.records.now ≡ set (set self.old.records.now v (record { state = 2; choice = choice })) w (record { state = 2; choice = choice_of self.old.records.now w }) }
        ensures work { self.new.worklist.now ≡ set (set self.old.worklist.now self.old.listed v) (self.old.listed + 1) w }
        ensures count { self.new.listed ≡ self.old.listed + 2 }
    {
        self.records[v as usize] = Record::new(State::Paired, choice);
        self.records[w as usize].state = u8::from(State::Paired);
        self.list(v);
        self.list(w);
    }

    // Parcel `v` looks through its row: it points at its top free entry, and is paired there if that parcel waits at
    // `v`; with no free entry it is lone.
    // It is inlined: as a call it would keep the struct in memory, and pairing would take longer where rows are short.
    #[inline(always)]
    fn settle<K: Ranking>(&mut self, sheet: &Sheet<K>, v: u32)
        requires ready { WorkReady K.Ranking.atleast (held sheet.now) self.old }
        requires parcel { v < parcels (held sheet.now) }
        requires unpaired { state self.old.records.now v ≢ 2 }
        ensures same_reference { self.new.records.ghost_name ≡ self.old.records.ghost_name }
        ensures settles { WorkSettles K.Ranking.atleast (held sheet.now) v self.old self.new }
    {
        let tables = sheet.tables();
        let Some(p) = self.top_free(sheet, v as usize) else {
            self.records[v as usize] = Record::LONE;
            return;
        };
        let choice = (p - tables.starts[v as usize] as usize) as u32;
        let w = tables.others[p];
        if self.waits_at(sheet, w as usize, v as usize) {
            self.pair(v, choice, w);
        } else {
            self.records[v as usize] = Record::new(State::Waits, choice);
        }
    }

    // Every parcel looks through its row, the lowest first.
    pub(crate) fn settle_all<K: Ranking>(&mut self, sheet: &Sheet<K>)
        requires idle { (u : ℕ) → state self.old.records.now u ≡ 0 }
        requires long { length self.old.records.now ≡ parcels (held sheet.now) }
        requires room { parcels (held sheet.now) ≤ length self.old.worklist.now }
        requires none_listed { self.old.listed ≡ 0 }
        ensures same_reference { self.new.records.ghost_name ≡ self.old.records.ghost_name }
        ensures ready { WorkReady K.Ranking.atleast (held sheet.now) self.new }
        ensures settled { AllSettled (held sheet.now) self.new.records.now }
    {
        for v in 0..sheet.tables().stores.len() as u32 {
            self.settle(sheet, v);
        }
    }

    // The parcels that wait at the paired parcel `u` look through their rows again.
    fn renew_at<K: Ranking>(&mut self, sheet: &Sheet<K>, u: u32)
        requires ready { WorkReady K.Ranking.atleast (held sheet.now) self.old }
        requires parcel { u < parcels (held sheet.now) }
        requires paired { state self.old.records.now u ≡ 2 }
        ensures same_reference { self.new.records.ghost_name ≡ self.old.records.ghost_name }
        ensures ready { WorkReady K.Ranking.atleast (held sheet.now) self.new }
        ensures onward { WorkOnward (held sheet.now) self.old self.new }
        ensures none_waits { NoneWaitsAt (held sheet.now) self.new.records.now u }
    {
        let tables = sheet.tables();
        let row = &tables.others[sheet.row(u as usize)];
        for v in row {
            if self.waits_at(sheet, *v as usize, u as usize) {
                self.settle(sheet, *v);
            }
        }
    }

    // Goes through the worklist until no parcel waits at one that is paired. The list grows on the way, so that no
    // iterator can hold it.
    pub(crate) fn renew_all<K: Ranking>(&mut self, sheet: &Sheet<K>)
        requires ready { WorkReady K.Ranking.atleast (held sheet.now) self.old }
        requires settled { AllSettled (held sheet.now) self.old.records.now }
        ensures same_reference { self.new.records.ghost_name ≡ self.old.records.ghost_name }
        ensures kept { Kept K.Ranking.atleast (held sheet.now) self.new.records.now }
        ensures settled { AllSettled (held sheet.now) self.new.records.now }
        ensures renewed { AllRenewed (held sheet.now) self.new.records.now }
    {
        let mut next = 0;
        while next < self.listed {
            let u = self.worklist[next];
            self.renew_at(sheet, u);
            next += 1;
        }
    }
}
