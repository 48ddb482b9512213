//! Runs of a round: turn after turn until nothing is left to do, and a call that settles a round.
#![tactic(auto)]

ghost use Rattle.std.specs.Prelude.{◌≡◌, ◌≤◌, length};
ghost use Rattle.sheet.specs.Graph.{parcels};
ghost use Rattle.sheet.specs.Held.{held};
ghost use Rattle.protocol.specs.Runs.{NoIdleBelow, Ran};
ghost use Rattle.round.specs.Seen.{seen, SameBoard};
ghost use Rattle.sheet.specs.Check.{Alike};
ghost use Rattle.round.specs.Closing.{OpenRefused};
ghost use Rattle.rounds.specs.Settling.{Ready, Settling, SettlesOrUnopened, DoesNotRefuse};
ghost use Rattle.rounds.specs.Next.{Idle, Store, NextTurn, Turned};

use faults::{Fault, Refusal};
use line::Line;
use protocol::Ending;
use ranking::Ranking;
use records::{Ledger, Record, State, Totals};
use round::{Board, Round, fetch, start};
use sheet::Sheet;

/// A turn of a run.
#[derive(Clone, Copy, Debug, PartialEq, Eq)]
pub enum Turn {
    /// A start of this parcel.
    StartOf(u32),
    /// A fetch for this store.
    FetchFor(u32),
}

// The lowest idle parcel; none below `from` is idle.
fn lowest_idle<K: Copy>(ledger: Ledger<'_, '_, '_, K>, from: u32) -> Option<u32>
    requires long { length ledger.records.now ≡ parcels (held ledger.sheet.now) }
    requires busy { NoIdleBelow ledger.records.now from }
    ensures { Idle (held ledger.entry.sheet.now) ledger.entry.records.now result }
{
    (from..ledger.parcel_count()).find(|u| ledger.records[*u as usize].is(State::Idle))
}

// The lowest store of the sheet that a note waits for.
fn lowest_store<K: Copy, L: Line>(sheet: &Sheet<K>, line: &L) -> Option<u32>
    ensures { Store (held sheet.now) (L.Line.chosen line.now) result }
{
    (0..sheet.tables().store_count).find(|s| line.next(*s).is_some())
}

// The turn that comes next: a start of the lowest idle parcel, else a fetch for the lowest store with a note. No parcel
// below `from` is idle.
fn next_turn<K: Copy, L: Line>(sheet: &Sheet<K>, board: &Board<'_, L>, from: u32) -> Option<Turn>
    requires long { length board.now.records.now ≡ parcels (held sheet.now) }
    requires busy { NoIdleBelow board.now.records.now from }
    ensures { NextTurn (held sheet.now) board.now.records.now (L.Line.chosen board.now.line.now) result }
{
    let records = &*board.records;
    match lowest_idle(Ledger { sheet, records }, from) {
        Some(u) => Some(Turn::StartOf(u)),
        None => lowest_store(sheet, board.line).map(Turn::FetchFor),
    }
}

// Makes a turn.
fn make_turn<K: Ranking, L: Line>(
    round: &mut Round,
    sheet: &Sheet<K>,
    board: &mut Board<'_, L>,
    turn: Turn,
) -> Result<(), Fault>
    ensures turn { Turned K.Ranking.atleast (held sheet.now) turn result (seen L.Line.waiting L.Line.capacity L.Line.chosen round.old board.old) (seen L.Line.waiting L.Line.capacity L.Line.chosen round.new board.new) }
    ensures board { SameBoard board.old board.new }
{
    match turn {
        Turn::StartOf(u) => start(round, sheet, board, u),
        Turn::FetchFor(s) => fetch(round, sheet, board, s),
    }
}

/// Makes at most `budget` accepted turns, and answers how many it made and how it ended.
///
/// Each turn is a start of the lowest idle parcel or, with none idle, a fetch for the lowest store of the sheet that a
/// note waits for. It ends still where there is no such turn, spent where the budget is made, and refused where tables
/// or a sheet have other sizes than the round's (12, at 0) or the next turn is refused; that turn then alters nothing,
/// and those before it stand.
pub fn run<K: Ranking, L: Line>(
    round: &mut Round,
    sheet: &Sheet<K>,
    board: &mut Board<'_, L>,
    budget: u32,
) -> (u32, Ending)
    ensures turns { Ran K.Ranking.atleast (held sheet.now) budget (seen L.Line.waiting L.Line.capacity L.Line.chosen round.old board.old) result.0 result.1 (seen L.Line.waiting L.Line.capacity L.Line.chosen round.new board.new) }
    ensures bound { result.0 ≤ budget }
    ensures board { SameBoard board.old board.new }
{
    if !board.fits(round, sheet) {
        return (0, Ending::from((Refusal::WrongLength, 0)));
    }
    // no parcel below is idle, and no turn makes one idle
    let mut from = 0;
    for made in 0..budget {
        let Some(turn) = next_turn(sheet, board, from) else {
            return (made, Ending::Still);
        };
        if let Err(fault) = make_turn(round, sheet, board, turn) {
            return (made, Ending::from(fault));
        }
        from = match turn {
            Turn::StartOf(u) => u,
            Turn::FetchFor(_) => sheet.tables().stores.len() as u32,
        };
    }
    match next_turn(sheet, board, from) {
        Some(_) => (budget, Ending::Spent),
        None => (budget, Ending::Still),
    }
}

/// Settles a round on a board: opens it, runs it until it is still, and closes it.
///
/// Refuses what `open` refuses, and then alters nothing. On a sheet whose two sides rank alike it refuses nothing else:
/// the round ends settled, and the records hold the greedy pairing entire.
pub fn settle<K: Ranking, L: Line>(
    sheet: &Sheet<K>,
    board: &mut Board<'_, L>,
) -> Result<Totals, Fault>
    ensures did { Settling K.Ranking.atleast (held sheet.now) (λ x. seen L.Line.waiting L.Line.capacity L.Line.chosen x board.new) (λ k p. OpenRefused (held sheet.now) board.old.records.now board.old.marks.now (L.Line.waiting board.old.line.now) (L.Line.capacity board.old.line.now) k p × (board.new ≡ board.old)) result }
    ensures settles { Alike K.Ranking.atleast (held sheet.now) → SettlesOrUnopened K.Ranking.atleast (held sheet.now) (λ x. seen L.Line.waiting L.Line.capacity L.Line.chosen x board.new) (λ k p. OpenRefused (held sheet.now) board.old.records.now board.old.marks.now (L.Line.waiting board.old.line.now) (L.Line.capacity board.old.line.now) k p × (board.new ≡ board.old)) result }
    ensures ready { Alike K.Ranking.atleast (held sheet.now) → Ready (held sheet.now) board.old.records.now board.old.marks.now (L.Line.waiting board.old.line.now) (L.Line.capacity board.old.line.now) → DoesNotRefuse result }
    ensures board { SameBoard board.old board.new }
{
    let mut round = board.open(sheet)?;
    let _ = run(&mut round, sheet, board, u32::MAX);
    board.close(round, sheet).map_err(|(_, fault)| fault)
}
