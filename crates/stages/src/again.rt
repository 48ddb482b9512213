//! The functions that C calls take tables one by one, as C lends them.
ghost use Rattle.std.specs.Prelude.{min, [], length};
ghost use Rattle.ranking.specs.Kinds.{cents_atleast};
ghost use Rattle.sheet.specs.Check.{Alike};
ghost use Rattle.sheet.specs.Held.{held};
ghost use Rattle.sheet.specs.View.{graph};
ghost use Rattle.round.specs.Seen.{SameBoard};
ghost use Rattle.stages.specs.Answers.{verdict_of, outcome_of, Answers, listed, Paired, CheckedPaired, Settled, CheckedSettled};

use crate::answers::{Outcome, Verdict};
use chains::Slot;
use faults::Fault;
use line::Line;
use lines::{Pigeonholes, Queue};
use outright::pair_outright;
use ranking::Cents;
use records::{Record, Totals};
use round::Board;
use rounds::settle;
use sheet::{Sheet, Tables, check};

// Pairs the sheet outright, so many times one after the other.
fn pair_again(
    sheet: &Sheet<Cents>,
    records: &mut [Record],
    worklist: &mut [u32],
    repeat: u32,
) -> Result<(), Fault>
    ensures { Paired (held sheet.now) repeat records.old worklist.old result records.new worklist.new }
{
    for _ in 0..repeat {
        pair_outright(sheet, records, worklist)?;
    }
    Ok(())
}

// Checks the tables and pairs their sheet.
fn check_and_pair(
    tables: Tables<Cents>,
    records: &mut [Record],
    worklist: &mut [u32],
    repeat: u32,
) -> Result<(), Fault>
    ensures { CheckedPaired (graph tables.entry) repeat records.old worklist.old result records.new worklist.new }
{
    let mut sheet = Sheet::empty();
    check(&mut sheet, tables)?;
    pair_again(&sheet, records, worklist, repeat)
}

/// Checks the tables, and then pairs their sheet outright, so many times one after the other.
#[unsafe(no_mangle)]
pub extern "C" fn stages_pair_outright<'a>(
    starts: &'a [u32],
    others: &'a [u32],
    keys: &'a [Cents],
    stores: &'a [u32],
    editions: &'a [u16],
    store_count: u32,
    records: &mut [Record],
    worklist: &mut [u32],
    repeat: u32,
) -> Verdict
    ensures { Answers verdict_of (λ x. CheckedPaired (listed starts.now others.now keys.now stores.now editions.now store_count) repeat records.old worklist.old x records.new worklist.new) result }
{
    let tables = Tables {
        starts,
        others,
        keys,
        stores,
        editions,
        store_count,
    };
    Verdict::from(check_and_pair(tables, records, worklist, repeat))
}

// Settles so many rounds over the line, one after the other.
fn settle_again<L: Line>(
    sheet: &Sheet<Cents>,
    board: &mut Board<'_, L>,
    repeat: u32,
) -> Result<Totals, Fault>
    requires { Alike cents_atleast (held sheet.now) }
    ensures settled { Settled (held sheet.now) repeat (L.Line.waiting board.old.line.now) (L.Line.capacity board.old.line.now) board.old.records.now board.old.marks.now result board.new.records.now board.new.marks.now }
    ensures board { SameBoard board.old board.new }
{
    let mut totals = Totals::default();
    for _ in 0..repeat {
        totals = settle(sheet, board)?;
    }
    Ok(totals)
}

// Checks the tables and settles rounds of their sheet.
fn check_and_settle<L: Line>(
    tables: Tables<Cents>,
    board: &mut Board<'_, L>,
    repeat: u32,
) -> Result<Totals, Fault>
    ensures settled { CheckedSettled (graph tables.entry) repeat (L.Line.waiting board.old.line.now) (L.Line.capacity board.old.line.now) board.old.records.now board.old.marks.now result board.new.records.now board.new.marks.now }
    ensures board { SameBoard board.old board.new }
{
    let mut sheet = Sheet::empty();
    check(&mut sheet, tables)?;
    settle_again(&sheet, board, repeat)
}

// The same, on a board made of what C lends one by one.
fn settle_over<L: Line>(
    tables: Tables<Cents>,
    records: &mut [Record],
    marks: &mut [u8],
    line: &mut L,
    repeat: u32,
) -> Outcome
    ensures { Answers outcome_of (λ x. CheckedSettled (graph tables.entry) repeat (L.Line.waiting line.old) (L.Line.capacity line.old) records.old marks.old x records.new marks.new) result }
{
    let mut board = Board {
        records,
        marks,
        line,
    };
    Outcome::from(check_and_settle(tables, &mut board, repeat))
}

// One function for each kind of line, since C has no type parameters.

/// Checks the tables, and then settles rounds of their sheet over one queue, so many one after the other. The queue has
/// the named capacity, or 16,384 or the buffer's length if either is less.
#[unsafe(no_mangle)]
pub extern "C" fn stages_settle_queue<'a>(
    starts: &'a [u32],
    others: &'a [u32],
    keys: &'a [Cents],
    stores: &'a [u32],
    editions: &'a [u16],
    store_count: u32,
    records: &mut [Record],
    marks: &mut [u8],
    slots: &mut [Slot],
    capacity: u32,
    repeat: u32,
) -> Outcome
    ensures { Answers outcome_of (λ x. CheckedSettled (listed starts.now others.now keys.now stores.now editions.now store_count) repeat [] (min capacity (min 16384 (length slots.old))) records.old marks.old x records.new marks.new) result }
{
    let tables = Tables {
        starts,
        others,
        keys,
        stores,
        editions,
        store_count,
    };
    let mut queue = Queue::new(slots, capacity);
    settle_over(tables, records, marks, &mut queue, repeat)
}

/// Checks the tables, and then settles rounds of their sheet over the same pigeonholes, so many one after the other. The
/// pigeonholes have the named capacity, or 16,384 or the buffer's length if either is less.
#[unsafe(no_mangle)]
pub extern "C" fn stages_settle_pigeonholes<'a>(
    starts: &'a [u32],
    others: &'a [u32],
    keys: &'a [Cents],
    stores: &'a [u32],
    editions: &'a [u16],
    store_count: u32,
    records: &mut [Record],
    marks: &mut [u8],
    slots: &mut [Slot],
    capacity: u32,
    repeat: u32,
) -> Outcome
    ensures { Answers outcome_of (λ x. CheckedSettled (listed starts.now others.now keys.now stores.now editions.now store_count) repeat [] (min capacity (min 16384 (length slots.old))) records.old marks.old x records.new marks.new) result }
{
    let tables = Tables {
        starts,
        others,
        keys,
        stores,
        editions,
        store_count,
    };
    let mut holes = Pigeonholes::new(slots, capacity);
    settle_over(tables, records, marks, &mut holes, repeat)
}
