//! What the definition says of a sheet, what a round came to, and the count of where the two part.
ghost use Rattle.std.specs.Prelude.{◌≡◌, ◌*◌, ◌≤◌, T};
ghost use Rattle.all_orders.specs.Counted.{CountsRight};

use crate::orders::Course;
use crate::small::PARCELS;
use records::Record;
use std::num::Saturating;

/// What the definition says of a sheet.
#[derive(Clone, Copy)]
pub struct Expected {
    pub records: [Record; 4],
    pub entries: u32,
    pub pairs: u32,
    pub lone: u32,
    pub cents: u64,
    /// The most that any pairing fetches.
    pub most: u64,
}

/// What a round came to.
#[derive(Clone, Copy)]
pub struct Settled {
    pub records: [Record; 4],
    pub cents: u64,
    pub course: Course,
}

/// What was counted.
#[derive(Clone, Copy, Default)]
pub struct Counts {
    pub sheets: Saturating<u32>,
    pub pairs: Saturating<u32>,
    pub lone: Saturating<u32>,
    pub cents: Saturating<u64>,
    pub outright: Saturating<u32>,
    pub rounds: Saturating<u32>,
    /// Of a round; none before the first.
    pub fewest: Option<u32>,
    pub most: u32,
    /// Closes and starts that were refused, as they had to be.
    pub closes: Saturating<u32>,
    pub starts: Saturating<u32>,
    /// Sheets, outright pairings and rounds that were not accepted to the end.
    pub refused: Saturating<u32>,
    /// Pairings whose records are not the definition's.
    pub apart: Saturating<u32>,
    /// Rounds whose counts or cents are not the definition's, or that break the rule of turns and notes.
    pub miscounted: Saturating<u32>,
    /// Rounds that fetch less than half of some pairing.
    pub outdone: Saturating<u32>,
}

// Whether the counts and the cents are right: each pair and lone parcel once, a turn for each parcel and each note, and
// no more notes than entries.
fn counts_right(expected: &Expected, settled: &Settled) -> bool
    ensures { T result → CountsRight expected.now settled.now }
{
    let totals = settled.course.totals;
    totals.tally.pairs == expected.pairs
        && totals.tally.lone == expected.lone
        && settled.cents == expected.cents
        && u64::from(totals.turns) == u64::from(totals.sent) + u64::from(PARCELS)
        && totals.sent <= expected.entries
}

// Whether the round fetches at least half of what any pairing does.
fn fetches_half(expected: &Expected, settled: &Settled) -> bool
    ensures { T result → expected.now.most ≤ 2 * settled.now.cents }
{
    settled.cents >= expected.most.saturating_sub(settled.cents)
}

impl Counts {
    /// Counts a sheet.
    pub fn add_sheet(&mut self, expected: &Expected) {
        self.sheets += 1;
        self.pairs += expected.pairs;
        self.lone += expected.lone;
        self.cents += expected.cents;
    }

    /// Counts what was refused.
    pub fn add_refused(&mut self) {
        self.refused += 1;
    }

    /// Counts an outright pairing.
    pub fn add_outright(&mut self, expected: &Expected, records: &[Record; 4]) {
        self.outright += 1;
        self.apart += u32::from(*records != expected.records);
    }

    /// Counts a round.
    pub fn add_round(&mut self, expected: &Expected, settled: &Settled)
        ensures right { self.new.miscounted.0 ≡ 0 → CountsRight expected.now settled.now }
        ensures half { self.new.outdone.0 ≡ 0 → expected.now.most ≤ 2 * settled.now.cents }
    {
        let course = settled.course;
        self.rounds += 1;
        let sent = course.totals.sent;
        self.fewest = Some(self.fewest.map_or(sent, |fewest| fewest.min(sent)));
        self.most = self.most.max(sent);
        self.closes += course.closes;
        self.starts += course.starts;
        self.apart += u32::from(settled.records != expected.records);
        self.miscounted += u32::from(!counts_right(expected, settled));
        self.outdone += u32::from(!fetches_half(expected, settled));
    }
}
