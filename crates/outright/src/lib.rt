//! Outright pairing: the greedy pairing of a sheet, found without sorting. Each parcel points at its top free entry;
//! two parcels that point at each other are paired, and only those that pointed at one of them look again.
#![tactic(auto)]

ghost use Rattle.std.specs.Prelude.{◌≡◌, Ok, Err};
ghost use Rattle.faults.specs.Numbers.{number};
ghost use Rattle.sheet.specs.Held.{held};
ghost use Rattle.outright.specs.Outright.{Refused, Done};

mod work;

use crate::work::Work;
use faults::{Fault, Refusal};
use ranking::Ranking;
use records::{Record, clear_records};
use sheet::Sheet;

/// Writes the greedy pairing of the sheet into the records: a paired parcel has the state `Paired` and the choice of its
/// partner's entry, a parcel left over the state `Lone` and choice 0. What the records held before does not matter.
///
/// Refuses a worklist of fewer numbers than there are parcels (3, at 0), and then records that are not one for each
/// parcel (12, at 0); the tables then stay as they were. After success the worklist holds any numbers.
pub fn pair_outright<K: Ranking>(
    sheet: &Sheet<K>,
    records: &mut [Record],
    worklist: &mut [u32],
) -> Result<(), Fault>
    ensures { elim result [ Ok _ ↦ Done K.Ranking.atleast (held sheet.now) records.old worklist.old records.new | Err f ↦ Refused (held sheet.now) records.old worklist.old (number f.0) f.1 × (records.new ≡ records.old) × (worklist.new ≡ worklist.old) ] }
{
    let parcels = sheet.tables().stores.len();
    if worklist.len() < parcels {
        return Err((Refusal::Room, 0));
    }
    if records.len() != parcels {
        return Err((Refusal::WrongLength, 0));
    }
    clear_records(records);
    let mut work = Work {
        records,
        worklist,
        listed: 0,
    };
    work.settle_all(sheet);
    work.renew_all(sheet);
    Ok(())
}

#[cfg(test)]
mod tests {
    use super::*;
    use faults::numbered;
    use ranking::{Cents, Staged};
    use records::State;
    use sheet::Tables;
    use std::process::Abort;
    use std::test::Fail;

    fn at(choice: u32) -> Record {
        Record::new(State::Paired, choice)
    }

    // Checks the tables, pairs the sheet, and compares the records.
    fn pairs<K: Ranking>(
        rt: &impl Abort,
        tables: Tables<K>,
        wanted: &[Record],
    ) -> Result<(), Fail> {
        let mut sheet = Sheet::empty();
        sheet::check(&mut sheet, tables)?;
        let mut records = [Record {
            state: 7,
            choice: 7,
        }; 4];
        let mut worklist = [0; 4];
        let count = wanted.len();
        assert!(rt; count <= 4);
        pair_outright(&sheet, &mut records[..count], &mut worklist)?;
        assert!(rt; &records[..count] == wanted);
        Ok(())
    }

    #[test]
    fn middle_of_a_path(rt: HostRuntime) -> Result<(), Fail> {
        let tables = Tables {
            starts: &[0, 1, 3, 5, 6],
            others: &[1, 0, 2, 1, 3, 2],
            keys: &[Cents(5), Cents(5), Cents(9), Cents(9), Cents(7), Cents(7)],
            stores: &[0, 0, 1, 1],
            editions: &[21, 21, 21, 21],
            store_count: 2,
        };
        pairs(&rt, tables, &[Record::LONE, at(1), at(0), Record::LONE])
    }

    #[test]
    fn larger_numbers_of_a_ring(rt: HostRuntime) -> Result<(), Fail> {
        let tables = Tables {
            starts: &[0, 2, 4, 6, 8],
            others: &[1, 3, 0, 2, 1, 3, 0, 2],
            keys: &[Cents(7); 8],
            stores: &[0, 0, 0, 0],
            editions: &[21, 21, 21, 21],
            store_count: 1,
        };
        pairs(&rt, tables, &[at(0), at(0), at(1), at(1)])
    }

    #[test]
    fn finer_band(rt: HostRuntime) -> Result<(), Fail> {
        let coarse = Staged {
            band: 3,
            cents: 900,
        };
        let fine = Staged { band: 2, cents: 10 };
        let tables = Tables {
            starts: &[0, 1, 3, 4],
            others: &[1, 0, 2, 1],
            keys: &[coarse, coarse, fine, fine],
            stores: &[0, 0, 0],
            editions: &[21, 21, 21],
            store_count: 1,
        };
        pairs(&rt, tables, &[Record::LONE, at(1), at(0)])
    }

    #[test]
    fn refusals(rt: HostRuntime) -> Result<(), Fail> {
        let sheet: Sheet<Cents> = Sheet::empty();
        let mut records = [Record::LONE; 1];
        let refused = pair_outright(&sheet, &mut records, &mut []);
        assert!(rt; refused.map_err(numbered) == Err((12, 0)));
        assert!(rt; records[0] == Record::LONE);
        pair_outright(&sheet, &mut [], &mut [])?;
        Ok(())
    }
}
