//! One sheet through every layout of stores, kind of line and order of calls, held against the definition.
use crate::counts::{Counts, Expected, Settled};
use crate::definition::{cents_of, greedy, most_cents, records_of};
use crate::orders::{CallOrder, play};
use crate::small::{MOST_ENTRIES, PARCELS, Rows, capped, pairs_of, rows_of};
use line::Line;
use lines::{BLANK, NewestFirst, OldestFirst, Order, StoreLine};
use outright::pair_outright;
use ranking::Cents;
use records::{Ledger, Record};
use results::worth;
use round::Board;
use sheet::{Sheet, Tables, check};
use std::alloc::{AllocError, Global};

/// Which store each parcel lies in.
pub struct Layout {
    stores: [u32; 4],
    count: u32,
}

/// The layouts: all in one store, each in its own, two and two, and by turns in the first and the last of three.
pub static LAYOUTS: [Layout; 4] = [
    Layout {
        stores: [0, 0, 0, 0],
        count: 1,
    },
    Layout {
        stores: [0, 1, 2, 3],
        count: 4,
    },
    Layout {
        stores: [0, 0, 1, 1],
        count: 2,
    },
    Layout {
        stores: [2, 0, 2, 0],
        count: 3,
    },
];

/// The orders of calls.
pub static ORDERS: [CallOrder; 4] = [
    CallOrder::InOneRun,
    CallOrder::StartsFirst,
    CallOrder::FetchesFirst,
    CallOrder::WithRefusals,
];

static EDITIONS: [u16; 4] = [1, 1, 1, 1];

// What the recorded pairs are worth, if the records are right.
fn worth_of(sheet: &Sheet<Cents>, records: &[Record]) -> Option<u64> {
    worth(Ledger { sheet, records }).ok()
}

// A round over this line, in this order of calls. No answer where a call is not answered as it has to be.
fn try_round<L: Line>(sheet: &Sheet<Cents>, order: CallOrder, line: &mut L) -> Option<Settled> {
    let mut records = [Record::IDLE; 4];
    let mut bits = [0; MOST_ENTRIES];
    let marks = &mut bits[..MOST_ENTRIES.min(sheet.tables().others.len())];
    let mut board = Board {
        records: &mut records,
        marks,
        line,
    };
    let round = board.open(sheet).ok()?;
    let course = play(order, round, sheet, &mut board)?;
    Some(Settled {
        records,
        cents: worth_of(sheet, &records)?,
        course,
    })
}

// What is expected of a sheet, and where it is counted what came of it.
#[derive(Drop)]
struct Trial<'a> {
    expected: &'a Expected,
    counts: &'a mut Counts,
}

impl Trial<'_> {
    // A round over this line, in this order of calls.
    fn try_line<L: Line>(&mut self, sheet: &Sheet<Cents>, order: CallOrder, line: &mut L) {
        match try_round(sheet, order, line) {
            Some(settled) => self.counts.add_round(self.expected, &settled),
            None => self.counts.add_refused(),
        }
    }

    // A round over a line that hands out its notes in this order, in this order of calls.
    fn try_kind<O: Order>(&mut self, sheet: &Sheet<Cents>, order: CallOrder) {
        let mut slots = [BLANK; MOST_ENTRIES];
        let mut line: StoreLine<O> = StoreLine::new(&mut slots, MOST_ENTRIES as u32);
        self.try_line(sheet, order, &mut line);
    }

    // Rounds over both kinds of line, in this order of calls.
    fn try_order(&mut self, sheet: &Sheet<Cents>, order: CallOrder) {
        self.try_kind::<OldestFirst>(sheet, order);
        self.try_kind::<NewestFirst>(sheet, order);
    }

    // The sheet outright, and in rounds in every order of calls.
    fn try_pairing(&mut self, sheet: &Sheet<Cents>) {
        let mut records = [Record::IDLE; 4];
        match pair_outright(sheet, &mut records, &mut [0; 4]) {
            Ok(()) => self.counts.add_outright(self.expected, &records),
            Err(_) => self.counts.add_refused(),
        }
        for order in ORDERS {
            self.try_order(sheet, order);
        }
    }

    // The sheet of these rows in this layout of stores.
    fn try_layout<'a>(&mut self, rows: &'a Rows, layout: &'a Layout) {
        let tables = Tables {
            starts: rows.starts.as_slice(),
            others: rows.others.as_slice(),
            keys: rows.keys.as_slice(),
            stores: &layout.stores,
            editions: &EDITIONS,
            store_count: layout.count,
        };
        let mut sheet = Sheet::empty();
        match check(&mut sheet, tables) {
            Ok(()) => self.try_pairing(&sheet),
            Err(_) => self.counts.add_refused(),
        }
    }
}

/// Pairs the sheet of this number in every way, and counts what came of it.
pub fn try_sheet(heap: Global, counts: &mut Counts, number: u32) -> Result<(), AllocError> {
    let pairs = pairs_of(heap, number)?;
    let taken = greedy(heap, pairs.as_slice())?;
    let rows = rows_of(heap, pairs.as_slice())?;
    let paired = capped(taken.len());
    let expected = Expected {
        records: records_of(pairs.as_slice(), taken.as_slice()),
        entries: capped(rows.others.len()),
        pairs: paired,
        lone: PARCELS.saturating_sub(paired.saturating_mul(2)),
        cents: cents_of(taken.as_slice()),
        most: most_cents(pairs.as_slice()),
    };
    counts.add_sheet(&expected);
    let mut trial = Trial {
        expected: &expected,
        counts,
    };
    for layout in &LAYOUTS {
        trial.try_layout(&rows, layout);
    }
    Ok(())
}
