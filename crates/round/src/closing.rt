ghost use Rattle.std.specs.Prelude.{◌≡◌, List, [], Ok, Err, Decides};
ghost use Rattle.faults.specs.Numbers.{number};
ghost use Rattle.records.specs.Right.{Right};
ghost use Rattle.sheet.specs.Check.{Alike};
ghost use Rattle.sheet.specs.Held.{held};
ghost use Rattle.protocol.specs.History.{Opened, Call, After};
ghost use Rattle.protocol.specs.Law.{Law};
ghost use Rattle.round.specs.Closing.{OpenRefused, Openable, CloseRefused, Closable, Counts, Closed, FirstUndecided};
ghost use Rattle.round.specs.Seen.{world, seen, SameBoard};

use crate::starting::fits_sheet;
use crate::state::{Board, Round};
use faults::{Fault, Refusal};
use line::Line;
use ranking::Ranking;
use records::{Ledger, Record, State, Tally, Totals, clear_records};
use sheet::Sheet;

// Whether no note waits.
fn is_empty<L: Line>(line: &L) -> bool
    ensures { Decides result (L.Line.waiting line.now ≡ []) }
{
    line.free() == line.size()
}

// Refuses what `open` refuses, and else answers the round that it opens.
fn try_open<K: Copy, L: Line>(
    sheet: &Sheet<K>,
    records: &[Record],
    marks: &[u8],
    line: &L,
) -> Result<Round, Fault>
    ensures { elim result [ Ok x ↦ Openable (held sheet.now) (world L.Line.waiting L.Line.capacity L.Line.chosen x records.now marks.now line.now) | Err f ↦ OpenRefused (held sheet.now) records.now marks.now (L.Line.waiting line.now) (L.Line.capacity line.now) (number f.0) f.1 ] }
{
    let tables = sheet.tables();
    let parcels = tables.stores.len();
    let entries = tables.others.len();
    if !is_empty(line) || (line.size() as usize) < entries {
        return Err((Refusal::LineUnfit, 0));
    }
    if records.len() != parcels || marks.len() != entries {
        return Err((Refusal::WrongLength, 0));
    }
    Ok(Round {
        parcels: parcels as u32,
        entries: entries as u32,
        stores: tables.store_count,
        turns: 0,
        sent: 0,
    })
}

// `open` and `close` take the tables and the line one by one: a board lends all three to be written, and `open` only reads the
// line, and `close` all three. A board's own `open` and `close` are for those who hold one.

/// Opens a round on a checked sheet: every parcel is idle, every mark clear, and both counts are 0.
///
/// Refuses, and then alters nothing, a line that is not empty or that holds fewer notes than the sheet has entries (11),
/// and records or marks that have not the sheet's lengths (12), both at 0.
pub fn open<K: Ranking, L: Line>(
    sheet: &Sheet<K>,
    records: &mut [Record],
    marks: &mut [u8],
    line: &L,
) -> Result<Round, Fault>
    ensures { elim result [ Ok x ↦ Opened (held sheet.now) (world L.Line.waiting L.Line.capacity L.Line.chosen x records.new marks.new line.now) | Err f ↦ OpenRefused (held sheet.now) records.old marks.old (L.Line.waiting line.now) (L.Line.capacity line.now) (number f.0) f.1 × (records.new ≡ records.old) × (marks.new ≡ marks.old) ] }
{
    let round = try_open(sheet, records, marks, line)?;
    clear_records(records);
    marks.fill(0);
    Ok(round)
}

// The lowest parcel that is idle or waits.
fn first_undecided<K: Copy>(ledger: Ledger<'_, '_, '_, K>) -> Option<usize>
    requires { Right (held ledger.sheet.now) ledger.records.now }
    ensures { FirstUndecided (held ledger.entry.sheet.now) ledger.entry.records.now result }
{
    let mut records = ledger.records.iter();
    records.position(|record| record.is(State::Idle) || record.is(State::Waits))
}

// What the records of a round come to, if it can be closed.
fn try_close<K: Copy, L: Line>(
    round: &Round,
    ledger: Ledger<'_, '_, '_, K>,
    marks: &[u8],
    line: &L,
) -> Result<Tally, Fault>
    ensures { elim result [ Ok x ↦ Closable (held ledger.entry.sheet.now) (world L.Line.waiting L.Line.capacity L.Line.chosen round.now ledger.entry.records.now marks.now line.now) × Counts (held ledger.entry.sheet.now) ledger.entry.records.now x | Err f ↦ CloseRefused (held ledger.entry.sheet.now) (world L.Line.waiting L.Line.capacity L.Line.chosen round.now ledger.entry.records.now marks.now line.now) (number f.0) f.1 ] }
{
    if !fits_sheet(round, ledger.sheet, ledger.records, marks) {
        return Err((Refusal::WrongLength, 0));
    }
    ledger.try_records()?;
    if let Some(u) = first_undecided(ledger) {
        return Err((Refusal::Unsettled, u as u32));
    }
    if !is_empty(line) {
        return Err((Refusal::Unsettled, round.parcels));
    }
    Ok(ledger.count())
}

/// Closes a settled round: answers the pairs made, the lone parcels, the notes sent and the accepted turns.
///
/// Refuses, and hands the round back: tables or a sheet of other sizes than the round's (12, at 0), the lowest parcel
/// whose record is out of range (16), and a round that is not settled (18, at the lowest parcel that is idle or waits,
/// or at the number of parcels where only notes wait).
///
/// Its contract holds the law of rounds: whatever list of calls led here since the round was opened, on a sheet whose
/// two sides rank alike, the law holds.
pub fn close<K: Ranking, L: Line>(
    round: Round,
    sheet: &Sheet<K>,
    records: &[Record],
    marks: &[u8],
    line: &L,
) -> Result<Totals, (Round, Fault)>
    ensures answer { elim result [ Ok x ↦ Closed (held sheet.now) (world L.Line.waiting L.Line.capacity L.Line.chosen round records.now marks.now line.now) x | Err f ↦ (f.0 ≡ round) × CloseRefused (held sheet.now) (world L.Line.waiting L.Line.capacity L.Line.chosen round records.now marks.now line.now) (number f.1.0) f.1.1 × (Closable (held sheet.now) (world L.Line.waiting L.Line.capacity L.Line.chosen round records.now marks.now line.now) → ⊥) ] }
    ensures law { (calls : List Call) → Alike K.Ranking.atleast (held sheet.now) → After K.Ranking.atleast (held sheet.now) calls (world L.Line.waiting L.Line.capacity L.Line.chosen round records.now marks.now line.now) → Law K.Ranking.atleast (held sheet.now) (world L.Line.waiting L.Line.capacity L.Line.chosen round records.now marks.now line.now) }
{
    let ledger = Ledger { sheet, records };
    match try_close(&round, ledger, marks, line) {
        Ok(tally) => Ok(Totals {
            tally,
            sent: round.sent,
            turns: round.turns,
        }),
        Err(fault) => Err((round, fault)),
    }
}

impl<L: Line> Board<'_, L> {
    /// Opens a round on a checked sheet, as the function `open` does, on what the board lends. The line stays as it is.
    ///
    /// Refuses, and then alters nothing, a line that is not empty or that holds fewer notes than the sheet has entries (11),
    /// and records or marks that have not the sheet's lengths (12), both at 0.
    pub fn open<K: Ranking>(&mut self, sheet: &Sheet<K>) -> Result<Round, Fault>
        ensures opens { elim result [ Ok x ↦ Opened (held sheet.now) (seen L.Line.waiting L.Line.capacity L.Line.chosen x self.new) | Err f ↦ OpenRefused (held sheet.now) self.old.records.now self.old.marks.now (L.Line.waiting self.old.line.now) (L.Line.capacity self.old.line.now) (number f.0) f.1 × (self.new ≡ self.old) ] }
        ensures line { self.new.line.now ≡ self.old.line.now }
        ensures board { SameBoard self.old self.new }
    {
        open(sheet, self.records, self.marks, self.line)
    }

    /// Closes a settled round, as the function `close` does, on what the board lends.
    ///
    /// Refuses, and hands the round back: tables or a sheet of other sizes than the round's (12, at 0), the lowest parcel
    /// whose record is out of range (16), and a round that is not settled (18, at the lowest parcel that is idle or waits,
    /// or at the number of parcels where only notes wait).
    pub fn close<K: Ranking>(
        &self,
        round: Round,
        sheet: &Sheet<K>,
    ) -> Result<Totals, (Round, Fault)>
        ensures answer { elim result [ Ok x ↦ Closed (held sheet.now) (seen L.Line.waiting L.Line.capacity L.Line.chosen round self.now) x | Err f ↦ (f.0 ≡ round) × CloseRefused (held sheet.now) (seen L.Line.waiting L.Line.capacity L.Line.chosen round self.now) (number f.1.0) f.1.1 × (Closable (held sheet.now) (seen L.Line.waiting L.Line.capacity L.Line.chosen round self.now) → ⊥) ] }
        ensures law { (calls : List Call) → Alike K.Ranking.atleast (held sheet.now) → After K.Ranking.atleast (held sheet.now) calls (seen L.Line.waiting L.Line.capacity L.Line.chosen round self.now) → Law K.Ranking.atleast (held sheet.now) (seen L.Line.waiting L.Line.capacity L.Line.chosen round self.now) }
    {
        close(round, sheet, self.records, self.marks, self.line)
    }
}
