//! Pairs every sheet of four parcels with keys 0 to 2 in three ways, in rounds over both kinds of line and outright, and
//! says what came of it and on how many sheets the three were apart. It makes the sheets and runs the rounds in a way of its
//! own, and not in that of `all_orders`, so that one mistake does not show in both.
#![tactic(auto)]

use faults::Fault;
use line::Line;
use lines::{BLANK, NewestFirst, OldestFirst, Order, StoreLine};
use outright::pair_outright;
use ranking::Cents;
use records::{Ledger, Record, Totals};
use results::worth;
use round::Board;
use rounds::settle;
use sheet::{Sheet, Tables, check};
use std::alloc::{AllocError, Global};
use std::num::Saturating;
use std::ops::AddAssign;

const SHEETS: u32 = 4_096;

const MOST_ENTRIES: usize = 12;

// The pairs of a sheet; a sheet's number has a digit for each, in this order.
static JOINS: [(u32, u32); 6] = [(0, 1), (0, 2), (0, 3), (1, 2), (1, 3), (2, 3)];

static STORES: [u32; 4] = [0, 1, 2, 3];

static EDITIONS: [u16; 4] = [1, 1, 1, 1];

// The tables of one sheet that differ from sheet to sheet, each as the library takes it.
#[derive(Drop)]
struct Rows {
    starts: Vec<u32>,
    others: Vec<u32>,
    keys: Vec<Cents>,
}

// What came of a sheet, or of all.
#[derive(Clone, Copy, Default)]
struct Outcome {
    pairs: Saturating<u32>,
    lone: Saturating<u32>,
    cents: Saturating<u64>,
    apart: Saturating<u32>,
}

impl AddAssign for Outcome {
    fn add_assign(&mut self, one: Outcome) {
        self.pairs += one.pairs;
        self.lone += one.lone;
        self.cents += one.cents;
        self.apart += one.apart;
    }
}

// The key of a pair in the sheet of this number, whose six digits to the base 4 are the pairs' keys, or 3 for none.
fn key_of(number: u32, u: u32, v: u32) -> Option<u32> {
    let place = JOINS.iter().position(|join| *join == (u.min(v), u.max(v)))?;
    let digit = (number >> (2 * place)) % 4;
    (digit < 3).then_some(digit)
}

// The rows of the sheet of this number.
fn make_rows(heap: Global, number: u32) -> Result<Rows, AllocError> {
    let mut rows = Rows {
        starts: vec![in heap; 0]?,
        others: Vec::new(heap),
        keys: Vec::new(heap),
    };
    for u in 0..4 {
        for v in 0..4 {
            if let Some(cents) = key_of(number, u, v) {
                rows.others.push(v)?;
                rows.keys.push(Cents(cents))?;
            }
        }
        rows.starts.push(rows.others.len() as u32)?;
    }
    Ok(rows)
}

// The records and the totals of a round over this line.
fn settle_over<L: Line>(
    sheet: &Sheet<Cents>,
    line: &mut L,
) -> Result<([Record; 4], Totals), Fault> {
    let mut records = [Record::IDLE; 4];
    let mut bits = [0; MOST_ENTRIES];
    let marks = &mut bits[..MOST_ENTRIES.min(sheet.tables().others.len())];
    let mut board = Board {
        records: &mut records,
        marks,
        line,
    };
    let totals = settle(sheet, &mut board)?;
    Ok((records, totals))
}

// The same over a line that hands out its notes in this order.
fn settle_in<O: Order>(sheet: &Sheet<Cents>) -> Result<([Record; 4], Totals), Fault> {
    let mut slots = [BLANK; MOST_ENTRIES];
    let mut line: StoreLine<O> = StoreLine::new(&mut slots, MOST_ENTRIES as u32);
    settle_over(sheet, &mut line)
}

// Pairs a sheet in the three ways.
fn pair(sheet: &Sheet<Cents>) -> Result<Outcome, Fault> {
    let (by_queue, totals) = settle_in::<OldestFirst>(sheet)?;
    let (by_holes, _) = settle_in::<NewestFirst>(sheet)?;
    let mut outright = [Record::IDLE; 4];
    pair_outright(sheet, &mut outright, &mut [0; 4])?;
    Ok(Outcome {
        pairs: Saturating(totals.tally.pairs),
        lone: Saturating(totals.tally.lone),
        cents: Saturating(worth(Ledger {
            sheet,
            records: &by_queue,
        })?),
        apart: Saturating(u32::from(by_queue != by_holes || by_queue != outright)),
    })
}

// Checks and pairs the sheet of this number. A refusal is counted and the next sheet tried, while no memory ends the program.
fn try_sheet(heap: Global, number: u32) -> Result<Result<Outcome, Fault>, AllocError> {
    let rows = make_rows(heap, number)?;
    let tables = Tables {
        starts: rows.starts.as_slice(),
        others: rows.others.as_slice(),
        keys: rows.keys.as_slice(),
        stores: &STORES,
        editions: &EDITIONS,
        store_count: 4,
    };
    let mut sheet = Sheet::empty();
    let checked = check(&mut sheet, tables);
    Ok(checked.and_then(|()| pair(&sheet)))
}

fn main(rt: HostRuntime) -> anyhow::Result<()> {
    let mut refused: u32 = 0;
    let mut all = Outcome::default();
    for number in 0..SHEETS {
        match try_sheet(rt.alloc(), number)? {
            Ok(one) => all += one,
            Err(_) => refused = refused.saturating_add(1),
        }
    }
    let Outcome {
        pairs: Saturating(pairs),
        lone: Saturating(lone),
        cents: Saturating(cents),
        apart: Saturating(apart),
    } = all;
    println!(rt; "{SHEETS} sheets: {pairs} pairs, {lone} lone parcels, {cents} cents")?;
    println!(rt; "{refused} refused, {apart} apart")?;
    Ok(())
}
