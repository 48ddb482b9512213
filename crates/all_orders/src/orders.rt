//! Orders of calls by which a round is taken from its opening to its close.
use crate::small::{MOST_ENTRIES, PARCELS};
use faults::{Fault, Refusal};
use line::Line;
use ranking::Cents;
use records::{Record, State, Totals};
use round::{Board, Round, fetch, start};
use rounds::{Turn, run};
use sheet::Sheet;

// No round of these sheets takes more turns: one for each parcel, and one for each note.
const MOST_TURNS: u32 = PARCELS + MOST_ENTRIES as u32;

/// An order of calls: an enum, since each order is taken over any kind of line, which a function in a table could not be.
#[derive(Clone, Copy)]
pub enum CallOrder {
    /// A run until the round is still.
    InOneRun,
    /// All starts, from the highest parcel down; then fetches, each for the highest store that a note waits for.
    StartsFirst,
    /// A fetch whenever a note waits, and else a start of the highest idle parcel.
    FetchesFirst,
    /// Runs of one turn. Before each, a close and the starts of all started parcels are tried, and refused.
    WithRefusals,
}

/// How a round went.
#[derive(Clone, Copy)]
pub struct Course {
    /// What the close answered.
    pub totals: Totals,
    /// The closes that were refused, as they had to be.
    pub closes: u32,
    /// The starts that were refused, as they had to be.
    pub starts: u32,
}

// The highest of so many stores that a note waits for.
fn highest_store<L: Line>(stores: u32, line: &L) -> Option<u32> {
    (0..stores).rev().find(|s| line.next(*s).is_some())
}

// The highest idle parcel.
fn highest_idle(records: &[Record]) -> Option<u32> {
    (0..PARCELS).rev().find(|u| {
        let record = records.get(*u as usize);
        record.is_some_and(|record| record.is(State::Idle))
    })
}

// Makes turn after turn until there is none left, or one is refused. Picks between a start of the highest idle parcel and
// a fetch for the highest store that a note waits for.
fn take_turns<L: Line, P: Fn(Option<Turn>, Option<Turn>) -> Option<Turn>>(
    pick: P,
    round: &mut Round,
    sheet: &Sheet<Cents>,
    board: &mut Board<'_, L>,
) -> Result<(), Fault>
    requires { P.IsAlwaysCallable pick }
{
    let stores = sheet.tables().store_count;
    for _ in 0..MOST_TURNS {
        let to_start = highest_idle(board.records).map(Turn::StartOf);
        let to_fetch = highest_store(stores, board.line).map(Turn::FetchFor);
        match pick(to_start, to_fetch) {
            Some(Turn::StartOf(u)) => start(round, sheet, board, u)?,
            Some(Turn::FetchFor(s)) => fetch(round, sheet, board, s)?,
            None => break,
        }
    }
    Ok(())
}

fn is_started(records: &[Record], u: u32) -> bool {
    let record = records.get(u as usize);
    record.is_some_and(|record| !record.is(State::Idle))
}

// Starts every started parcel again, and answers how many there were. Each start is to be refused as such.
fn start_again<L: Line>(
    round: &mut Round,
    sheet: &Sheet<Cents>,
    board: &mut Board<'_, L>,
) -> Option<u32> {
    let mut refused: u32 = 0;
    for u in 0..PARCELS {
        if is_started(board.records, u) {
            if start(round, sheet, board, u) != Err((Refusal::Started, u)) {
                return None;
            }
            refused = refused.saturating_add(1);
        }
    }
    Some(refused)
}

// Runs of one turn, with refused calls between them, until a close is accepted.
fn with_refusals<L: Line>(
    mut round: Round,
    sheet: &Sheet<Cents>,
    board: &mut Board<'_, L>,
) -> Option<Course> {
    let mut closes: u32 = 0;
    let mut starts: u32 = 0;
    for _ in 0..=MOST_TURNS {
        round = match board.close(round, sheet) {
            Ok(totals) => {
                return Some(Course {
                    totals,
                    closes,
                    starts,
                });
            }
            Err((open, (Refusal::Unsettled, _))) => open,
            Err(_) => return None,
        };
        closes = closes.saturating_add(1);
        starts = starts.saturating_add(start_again(&mut round, sheet, board)?);
        let _ = run(&mut round, sheet, board, 1);
    }
    None
}

/// Takes an open round to its close in this order. No answer where a call is refused that has to be accepted, or the
/// other way round: no caller asks which, since all such rounds are counted alike.
pub fn play<L: Line>(
    order: CallOrder,
    mut round: Round,
    sheet: &Sheet<Cents>,
    board: &mut Board<'_, L>,
) -> Option<Course> {
    match order {
        CallOrder::InOneRun => {
            let _ = run(&mut round, sheet, board, u32::MAX);
        }
        CallOrder::StartsFirst => {
            let pick = |to_start: Option<Turn>, to_fetch| to_start.or(to_fetch);
            take_turns(pick, &mut round, sheet, board).ok()?;
        }
        CallOrder::FetchesFirst => {
            let pick = |to_start, to_fetch: Option<Turn>| to_fetch.or(to_start);
            take_turns(pick, &mut round, sheet, board).ok()?;
        }
        CallOrder::WithRefusals => return with_refusals(round, sheet, board),
    }
    let totals = board.close(round, sheet).ok()?;
    Some(Course {
        totals,
        closes: 0,
        starts: 0,
    })
}
