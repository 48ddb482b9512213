//! Records, their worth and the result text on small sheets.
#![tactic(auto)]

#[cfg(test)]
mod tests {
    use faults::{Fault, numbered};
    use ranking::Cents;
    use records::{Ledger, Record, State, Tally, Totals};
    use results::{result_text, worth};
    use sheet::{Sheet, Tables, check as check_sheet};
    use std::test::Fail;

    static STARTS: [u32; 5] = [0, 1, 3, 5, 6];

    static OTHERS: [u32; 6] = [1, 0, 2, 1, 3, 2];

    static KEYS: [Cents; 6] = [Cents(5), Cents(5), Cents(9), Cents(9), Cents(7), Cents(7)];

    static STORES: [u32; 4] = [0, 0, 1, 1];

    static EDITIONS: [u16; 4] = [21, 21, 21, 21];

    // The middle two are paired, the others lone.
    const MIDDLE: [Record; 4] = [
        Record::LONE,
        Record {
            state: State::Paired as u8,
            choice: 1,
        },
        Record {
            state: State::Paired as u8,
            choice: 0,
        },
        Record::LONE,
    ];

    const TOTALS: Totals = Totals {
        tally: Tally { pairs: 1, lone: 2 },
        sent: 6,
        turns: 10,
    };

    // Four parcels in a row: 0 - 1 for 5 cents, 1 - 2 for 9, and 2 - 3 for 7. The tests of `outright` and of rounds have it too: a
    // crate for this one sheet would be no plainer.
    fn row_of_four(sheet: &mut Sheet<'static, Cents>) -> Result<(), Fault> {
        let tables = Tables {
            starts: &STARTS,
            others: &OTHERS,
            keys: &KEYS,
            stores: &STORES,
            editions: &EDITIONS,
            store_count: 2,
        };
        check_sheet(sheet, tables)
    }

    fn worth_of(sheet: &Sheet<Cents>, records: &[Record]) -> Result<u64, (u32, u32)> {
        worth(Ledger { sheet, records }).map_err(numbered)
    }

    fn printed(
        sheet: &Sheet<Cents>,
        records: &[Record],
        totals: Totals,
        buffer: &mut [u8],
    ) -> Result<usize, (u32, u32)> {
        result_text(Ledger { sheet, records }, totals, buffer).map_err(numbered)
    }

    fn tried(sheet: &Sheet<Cents>, records: &[Record]) -> Result<(), (u32, u32)> {
        Ledger { sheet, records }.try_records().map_err(numbered)
    }

    #[test]
    fn counts_and_sums(rt: HostRuntime) -> Result<(), Fail> {
        let mut sheet = Sheet::empty();
        row_of_four(&mut sheet)?;
        let ledger = Ledger {
            sheet: &sheet,
            records: &MIDDLE,
        };
        assert!(rt; ledger.count() == Tally { pairs: 1, lone: 2 });
        assert_eq!(rt; ledger.partner_above(1), Some(2));
        assert_eq!(rt; ledger.partner_above(2), None);
        assert_eq!(rt; ledger.partner_above(4), None);
        assert_eq!(rt; worth_of(&sheet, &MIDDLE), Ok(9));
        Ok(())
    }

    #[test]
    fn prints_into_the_room_there_is(rt: HostRuntime) -> Result<(), Fail> {
        let mut sheet = Sheet::empty();
        row_of_four(&mut sheet)?;
        let mut exact = [b'.'; 13];
        assert_eq!(rt; printed(&sheet, &MIDDLE, TOTALS, &mut exact), Ok(13));
        assert_eq!(rt; exact, *b"1,2,6,10\n1,2\n");
        let mut longer = [b'.'; 15];
        assert_eq!(rt; printed(&sheet, &MIDDLE, TOTALS, &mut longer), Ok(13));
        assert_eq!(rt; longer, *b"1,2,6,10\n1,2\n..");
        let mut short = [b'.'; 12];
        assert_eq!(rt; printed(&sheet, &MIDDLE, TOTALS, &mut short), Err((3, 0)));
        assert_eq!(rt; short, [b'.'; 12]);
        Ok(())
    }

    #[test]
    fn prints_the_largest_numbers(rt: HostRuntime) {
        let sheet: Sheet<Cents> = Sheet::empty();
        let most = u32::MAX;
        let totals = Totals {
            tally: Tally {
                pairs: most,
                lone: 0,
            },
            sent: most,
            turns: 9,
        };
        let mut text = [b'.'; 26];
        assert_eq!(rt; printed(&sheet, &[], totals, &mut text), Ok(26));
        assert_eq!(rt; text, *b"4294967295,0,4294967295,9\n");
        assert_eq!(rt; worth_of(&sheet, &[]), Ok(0));
    }

    #[test]
    fn refuses_records(rt: HostRuntime) -> Result<(), Fail> {
        let mut sheet = Sheet::empty();
        row_of_four(&mut sheet)?;
        let mut none = [];
        assert_eq!(rt;
            tried(&sheet, &[Record::LONE, Record::LONE, Record::LONE]),
            Err((12, 0))
        );
        assert_eq!(rt; worth_of(&sheet, &[]), Err((12, 0)));
        assert_eq!(rt; printed(&sheet, &[], TOTALS, &mut none), Err((12, 0)));
        let unknown = Record {
            state: 4,
            choice: 0,
        };
        let past_row = Record {
            state: State::Paired as u8,
            choice: 2,
        };
        assert_eq!(rt;
            tried(&sheet, &[Record::LONE, past_row, unknown, Record::LONE]),
            Err((16, 1))
        );
        assert_eq!(rt;
            worth_of(&sheet, &[Record::LONE, Record::LONE, unknown, Record::LONE]),
            Err((16, 2))
        );
        assert_eq!(rt;
            printed(
                &sheet,
                &[Record::LONE, Record::LONE, Record::LONE, unknown],
                TOTALS,
                &mut none
            ),
            Err((16, 3))
        );
        Ok(())
    }
}
