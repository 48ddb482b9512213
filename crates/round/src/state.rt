ghost use Rattle.std.specs.Prelude.{◌≡◌, ◌<◌, length};
ghost use Rattle.sheet.specs.Graph.{parcels, entries};
ghost use Rattle.records.specs.Records.{strays_at};
ghost use Rattle.sheet.specs.Held.{held};
ghost use Rattle.round.specs.Parts.{tables_fit, Counted, Planned};

use crate::choose::{Plan, plan_choice};
use crate::starting::fits_sheet;
use ranking::Ranking;
use records::{Ledger, Record};
use sheet::Sheet;

/// An open round: the sizes of the sheet that it was opened on, and its two counts. Closing takes it.
#[derive(Drop)]
pub struct Round {
    pub(crate) parcels: u32,
    pub(crate) entries: u32,
    pub(crate) stores: u32,
    pub(crate) turns: u32,
    pub(crate) sent: u32,
}

impl Round {
    // Counts an accepted turn that sent so many notes.
    pub(crate) fn count_turn(&mut self, sent: u32)
        ensures { Counted self.old self.new sent }
    {
        self.turns = self.turns.saturating_add(1);
        self.sent = self.sent.saturating_add(sent);
    }
}

// Round, sheet and board are passed side by side: a board that held the sheet would make each call promise that the sheet stays,
// and a round is its caller's until closing takes it.

/// What the turns of a round write to: the records of the sheet's parcels, the marks of its entries, and the line.
// That a call still lends the same slices when it returns, it says in a clause: without that its caller would know nothing of them.
#[derive(Drop)]
pub struct Board<'a, L> {
    pub records: &'a mut [Record],
    pub marks: &'a mut [u8],
    pub line: &'a mut L,
}

impl<L> Board<'_, L> {
    /// Whether the tables have the sheet's lengths, and the round its sizes.
    pub fn fits<K: Copy>(&self, round: &Round, sheet: &Sheet<K>) -> bool
        ensures { result ≡ tables_fit (held sheet.now) round.now self.now.records.now self.now.marks.now }
    {
        fits_sheet(round, sheet, self.records, self.marks)
    }

    // What parcel `u` does if it chooses now.
    pub(crate) fn plan<K: Ranking>(&self, sheet: &Sheet<K>, u: usize) -> Plan
        requires parcel { u < parcels (held sheet.now) }
        requires long { length self.now.marks.now ≡ entries (held sheet.now) }
        ensures { Planned K.Ranking.atleast (held sheet.now) u self.now.marks.now result }
    {
        plan_choice(sheet, self.marks, u)
    }

    // Whether the record of parcel `u` is out of range, as a ledger says it.
    pub(crate) fn strays<K: Copy>(&self, sheet: &Sheet<K>, u: usize) -> Option<bool>
        ensures { result ≡ strays_at (held sheet.now) self.now.records.now u }
    {
        let records = &*self.records;
        Ledger { sheet, records }.strays(u)
    }
}
