ghost use Rattle.std.specs.Prelude.{◌≡◌, ◌<◌, length, count_by, Ok, Err, ◌==◌};
ghost use Rattle.std.specs.List.{range_with_len};
ghost use Rattle.faults.specs.Numbers.{number};
ghost use Rattle.sheet.specs.Graph.{parcels};
ghost use Rattle.sheet.specs.Held.{held};
ghost use Rattle.records.specs.Records.{state, astray, strays_at};
ghost use Rattle.records.specs.Right.{Right, Refused, Lowest};
ghost use Rattle.records.specs.Listed.{Listed, pairs_up, partner_above, lower_pairs, lone_count};

use crate::record::{Record, State};
use faults::{Fault, Refusal};
use sheet::Sheet;

/// A sheet and the records of its parcels, lent for reading. There need not be a record for each parcel: the public calls try
/// that, or do without.
// A lifetime for each reference: with one for all, a body that lends the sheet to a round and then to a ledger gets no proof.
#[derive(Clone, Copy)]
pub struct Ledger<'s, 't, 'r, K> {
    pub sheet: &'s Sheet<'t, K>,
    pub records: &'r [Record],
}

/// How many pairs and lone parcels records say there are.
#[derive(Clone, Copy, Debug, Default, PartialEq, Eq)]
pub struct Tally {
    /// The pairs, each counted at its lower parcel.
    pub pairs: u32,
    /// The parcels in the state `Lone`.
    pub lone: u32,
}

/// What the close of a round answers: how many pairs and lone parcels its records hold, and how many notes and turns it took.
#[derive(Clone, Copy, Debug, Default, PartialEq, Eq)]
pub struct Totals {
    /// The pairs and the lone parcels.
    pub tally: Tally,
    /// The notes that were sent.
    pub sent: u32,
    /// The turns that were accepted.
    pub turns: u32,
}

impl<K: Copy> Ledger<'_, '_, '_, K> {
    /// How many parcels the sheet has; at most 1,024.
    pub fn parcel_count(self) -> u32
        ensures { result ≡ parcels (held self.entry.sheet.now) }
    {
        self.sheet.tables().stores.len() as u32
    }

    // Whether the record of parcel `u` is out of range.
    fn is_astray(self, u: usize) -> bool
        requires parcel { u < parcels (held self.sheet.now) }
        requires long { length self.records.now ≡ parcels (held self.sheet.now) }
        ensures { result ≡ astray (held self.entry.sheet.now) self.entry.records.now u }
    {
        let record = self.records[u];
        match State::try_from(record.state) {
            Ok(State::Idle | State::Lone) => false,
            Ok(State::Waits | State::Paired) => self.sheet.place(u, record.choice).is_none(),
            Err(_) => true,
        }
    }

    /// Whether the record of parcel `u` is out of range; no answer where there is no such parcel, or not one record
    /// for each parcel.
    pub fn strays(self, u: usize) -> Option<bool>
        ensures { result ≡ strays_at (held self.entry.sheet.now) self.entry.records.now u }
    {
        let count = self.sheet.tables().stores.len();
        if self.records.len() != count || u >= count {
            return None;
        }
        Some(self.is_astray(u))
    }

    // The lowest parcel whose record is out of range.
    fn first_astray(self) -> Option<usize>
        requires long { length self.records.now ≡ parcels (held self.sheet.now) }
        ensures { Lowest (held self.entry.sheet.now) self.entry.records.now result }
    {
        (0..self.records.len()).find(|u| self.is_astray(*u))
    }

    /// Tries the records of the sheet, the lowest parcel's first.
    ///
    /// Refuses records that are not one for each parcel (12, at 0), and else the lowest parcel whose record is out of
    /// range (16, at that parcel): a state above 3, or a state 1 or 2 with a choice outside the parcel's row.
    pub fn try_records(self) -> Result<(), Fault>
        ensures { elim result [ Ok _ ↦ Right (held self.entry.sheet.now) self.entry.records.now | Err f ↦ Refused (held self.entry.sheet.now) self.entry.records.now (number f.0) f.1 ] }
    {
        if self.records.len() != self.sheet.tables().stores.len() {
            return Err((Refusal::WrongLength, 0));
        }
        match self.first_astray() {
            Some(u) => Err((Refusal::Astray, u as u32)),
            None => Ok(()),
        }
    }

    /// The higher-numbered parcel with which parcel `u` records a pair, if it records one.
    pub fn partner_above(self, u: u32) -> Option<u32>
        ensures { result ≡ partner_above (held self.entry.sheet.now) self.entry.records.now u }
    {
        let record = self.records.get(u as usize)?;
        if !record.is(State::Paired) {
            return None;
        }
        let place = self.sheet.place(u as usize, record.choice)?;
        let other = self.sheet.tables().others[place];
        (u < other).then_some(other)
    }

    // Whether parcel `u` records a pair with a higher-numbered one.
    fn pairs_up(self, u: u32) -> bool
        ensures { result ≡ pairs_up (held self.entry.sheet.now) self.entry.records.now u }
    {
        self.partner_above(u).is_some()
    }

    // How many pairs are recorded. This count and the next take no test as a parameter: what they count would then be said of
    // its answers, and not of the records.
    fn count_pairs(self) -> u32
        ensures { result ≡ count_by (pairs_up (held self.entry.sheet.now) self.entry.records.now) (range_with_len 0 (parcels (held self.entry.sheet.now))) }
    {
        let pairs = (0..self.parcel_count()).filter(|u| self.pairs_up(*u));
        pairs.count() as u32
    }

    // Whether parcel `u` is recorded lone.
    fn is_lone(self, u: u32) -> bool
        ensures { result ≡ (state self.entry.records.now u == 3) }
    {
        let record = self.records.get(u as usize);
        record.is_some_and(|record| record.is(State::Lone))
    }

    // How many parcels are recorded lone.
    fn count_lone(self) -> u32
        ensures { result ≡ lone_count (held self.entry.sheet.now) self.entry.records.now }
    {
        let lone = (0..self.parcel_count()).filter(|u| self.is_lone(*u));
        lone.count() as u32
    }

    /// Counts the recorded pairs, each at its lower parcel, and the parcels that are recorded lone.
    ///
    /// A parcel without a record, or with one out of range, counts for nothing: `try_records` finds those.
    pub fn count(self) -> Tally
        ensures pairs { result.pairs ≡ length (lower_pairs (held self.entry.sheet.now) self.entry.records.now) }
        ensures lone { result.lone ≡ lone_count (held self.entry.sheet.now) self.entry.records.now }
        ensures listed { Listed (held self.entry.sheet.now) self.entry.records.now (lower_pairs (held self.entry.sheet.now) self.entry.records.now) }
    {
        Tally {
            pairs: self.count_pairs(),
            lone: self.count_lone(),
        }
    }
}
