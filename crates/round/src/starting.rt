ghost use Rattle.std.specs.Prelude.{◌≡◌, Ok, Err};
ghost use Rattle.faults.specs.Numbers.{number};
ghost use Rattle.sheet.specs.Held.{held};
ghost use Rattle.protocol.specs.Turns.{Start};
ghost use Rattle.round.specs.Parts.{tables_fit, Unstartable};
ghost use Rattle.round.specs.Seen.{seen, SameBoard};

use crate::choose::carry_out;
use crate::state::{Board, Round};
use faults::{Fault, Refusal};
use line::Line;
use ranking::Ranking;
use records::{Record, State};
use sheet::Sheet;

/// Whether the tables have the sheet's lengths, and the round its sizes.
pub fn fits_sheet<K: Copy>(
    round: &Round,
    sheet: &Sheet<K>,
    records: &[Record],
    marks: &[u8],
) -> bool
    ensures { result ≡ tables_fit (held sheet.now) round.now records.now marks.now }
{
    let tables = sheet.tables();
    records.len() == tables.stores.len()
        && marks.len() == tables.others.len()
        && round.parcels as usize == tables.stores.len()
        && round.entries as usize == tables.others.len()
        && round.stores == tables.store_count
}

// Refuses a parcel, which has this record, that has started (13) or whose record is out of range (16).
fn try_idle(was: Record, parcel: u32) -> Result<(), Fault>
    ensures { elim result [ Ok _ ↦ was.state ≡ 0 | Err f ↦ Unstartable was.state (number f.0) × (f.1 ≡ parcel) ] }
{
    match State::try_from(was.state) {
        Ok(State::Idle) => Ok(()),
        Ok(State::Waits | State::Paired | State::Lone) => Err((Refusal::Started, parcel)),
        Err(_) => Err((Refusal::Astray, parcel)),
    }
}

/// Starts a parcel: it chooses.
///
/// Refuses, and then alters nothing: a parcel that the sheet does not have (9, at its number), tables or a sheet of
/// other sizes than the round's (12, at 0), a parcel that has started (13) or whose record is out of range (16), and a
/// turn that would send more notes than the line has free places for (17), each at the parcel.
pub fn start<K: Ranking, L: Line>(
    round: &mut Round,
    sheet: &Sheet<K>,
    board: &mut Board<'_, L>,
    parcel: u32,
) -> Result<(), Fault>
    ensures turn { Start K.Ranking.atleast (held sheet.now) parcel result (seen L.Line.waiting L.Line.capacity L.Line.chosen round.old board.old) (seen L.Line.waiting L.Line.capacity L.Line.chosen round.new board.new) }
    ensures board { SameBoard board.old board.new }
{
    let u = parcel as usize;
    if u >= sheet.tables().stores.len() {
        return Err((Refusal::NoParcel, parcel));
    }
    if !board.fits(round, sheet) {
        return Err((Refusal::WrongLength, 0));
    }
    try_idle(board.records[u], parcel)?;
    let plan = board.plan(sheet, u);
    let count = plan.sending();
    if count > board.line.free() {
        return Err((Refusal::NoRoom, parcel));
    }
    board.records[u] = carry_out(sheet, board.marks, board.line, u, plan);
    round.count_turn(count);
    Ok(())
}
