//! Rounds on a small sheet: turns in other orders, both kinds of line, and what is refused.
#![tactic(auto)]

#[cfg(test)]
mod tests {
    use faults::{Fault, numbered};
    use line::{Kind, Line, Note};
    use lines::{BLANK, Pigeonholes, Queue};
    use outright::pair_outright;
    use protocol::Ending;
    use ranking::Cents;
    use records::{Record, State, Tally, Totals};
    use round::{Board, close, fetch, open, start};
    use rounds::{run, settle};
    use sheet::{Sheet, Tables, check as check_sheet};
    use std::test::Fail;

    static STARTS: [u32; 5] = [0, 1, 3, 5, 6];

    static OTHERS: [u32; 6] = [1, 0, 2, 1, 3, 2];

    static KEYS: [Cents; 6] = [Cents(5), Cents(5), Cents(9), Cents(9), Cents(7), Cents(7)];

    static STORES: [u32; 4] = [0, 0, 1, 1];

    static EDITIONS: [u16; 4] = [21, 21, 21, 21];

    const ODD: Record = Record {
        state: 9,
        choice: 9,
    };

    // Four parcels in a row: 0 - 1 for 5 cents, 1 - 2 for 9, and 2 - 3 for 7. The tests of `outright` and `results` have it too: a
    // crate for this one sheet would be no plainer.
    fn row_of_four(sheet: &mut Sheet<'static, Cents>) -> Result<(), Fault> {
        let tables = Tables {
            starts: &STARTS,
            others: &OTHERS,
            keys: &KEYS,
            stores: &STORES,
            editions: &EDITIONS,
            store_count: 2,
        };
        check_sheet(sheet, tables)
    }

    // Parcels 1 and 2 start, and store 1 fetches: 2 is paired, 1 waits, and two of three notes wait.
    #[test]
    fn three_turns(rt: HostRuntime) -> Result<(), Fail> {
        let mut sheet = Sheet::empty();
        row_of_four(&mut sheet)?;
        let mut records = [ODD; 4];
        let mut marks = [255; 6];
        let mut slots = [BLANK; 6];
        let mut line = Queue::new(&mut slots, 6);
        let mut round = open(&sheet, &mut records, &mut marks, &line)?;
        let mut board = Board {
            records: &mut records,
            marks: &mut marks,
            line: &mut line,
        };
        start(&mut round, &sheet, &mut board, 1)?;
        start(&mut round, &sheet, &mut board, 2)?;
        fetch(&mut round, &sheet, &mut board, 1)?;
        let again = start(&mut round, &sheet, &mut board, 1);
        assert_eq!(rt; again.map_err(numbered), Err((13, 1)));
        let missing = start(&mut round, &sheet, &mut board, 4);
        assert_eq!(rt; missing.map_err(numbered), Err((9, 4)));
        let far = fetch(&mut round, &sheet, &mut board, 2);
        assert_eq!(rt; far.map_err(numbered), Err((10, 2)));
        assert!(rt; records[1].is(State::Waits));
        assert!(rt; records[2].is(State::Paired));
        assert_eq!(rt; line.free(), 4);
        let closed = close(round, &sheet, &records, &marks, &line);
        assert_eq!(rt; closed.map_err(|(_, fault)| numbered(fault)), Err((18, 0)));
        Ok(())
    }

    // What open refuses: a line with too little room, and one that is not empty.
    #[test]
    fn not_opened(rt: HostRuntime) -> Result<(), Fail> {
        let mut sheet = Sheet::empty();
        row_of_four(&mut sheet)?;
        let mut records = [ODD; 4];
        let mut marks = [0; 6];
        let mut slots = [BLANK; 6];
        let mut line = Queue::new(&mut slots, 5);
        let mut board = Board {
            records: &mut records,
            marks: &mut marks,
            line: &mut line,
        };
        let settled = settle(&sheet, &mut board);
        assert_eq!(rt; settled.map_err(numbered), Err((11, 0)));
        assert_eq!(rt; records, [ODD; 4]);
        let mut more = [BLANK; 6];
        let mut full = Pigeonholes::new(&mut more, 6);
        full.put(Note {
            sender: 0,
            addressee: 1,
            store: 0,
            kind: u8::from(Kind::Bid),
        })?;
        let opened = open(&sheet, &mut records, &mut marks, &full);
        assert_eq!(rt; opened.err().map(numbered), Some((11, 0)));
        Ok(())
    }

    // Both kinds of line and outright pairing come to the same records.
    #[test]
    fn three_ways(rt: HostRuntime) -> Result<(), Fail> {
        let mut sheet = Sheet::empty();
        row_of_four(&mut sheet)?;
        let mut by_queue = [ODD; 4];
        let mut marks = [0; 6];
        let mut slots = [BLANK; 6];
        let mut queue = Queue::new(&mut slots, 6);
        let mut board = Board {
            records: &mut by_queue,
            marks: &mut marks,
            line: &mut queue,
        };
        let totals = settle(&sheet, &mut board)?;
        let expected = Totals {
            tally: Tally { pairs: 1, lone: 2 },
            sent: 6,
            turns: 10,
        };
        assert_eq!(rt; totals, expected);
        let mut by_holes = [ODD; 4];
        let mut more = [BLANK; 6];
        let mut holes = Pigeonholes::new(&mut more, 6);
        let mut board = Board {
            records: &mut by_holes,
            marks: &mut marks,
            line: &mut holes,
        };
        let _ = settle(&sheet, &mut board)?;
        let mut outright = [ODD; 4];
        let mut worklist = [0; 4];
        pair_outright(&sheet, &mut outright, &mut worklist)?;
        assert_eq!(rt; by_queue, by_holes);
        assert_eq!(rt; by_queue, outright);
        Ok(())
    }

    // A run makes no more turns than it may, and is refused where the tables have other lengths.
    #[test]
    fn runs(rt: HostRuntime) -> Result<(), Fail> {
        let mut sheet = Sheet::empty();
        row_of_four(&mut sheet)?;
        let mut records = [ODD; 4];
        let mut marks = [0; 6];
        let mut slots = [BLANK; 6];
        let mut line = Queue::new(&mut slots, 6);
        let mut round = open(&sheet, &mut records, &mut marks, &line)?;
        let mut board = Board {
            records: &mut records,
            marks: &mut marks,
            line: &mut line,
        };
        assert_eq!(rt; run(&mut round, &sheet, &mut board, 9), (9, Ending::Spent));
        let mut short = [0; 5];
        let mut other = Board {
            records: &mut records,
            marks: &mut short,
            line: &mut line,
        };
        assert_eq!(rt;
            run(&mut round, &sheet, &mut other, 9),
            (0, Ending::Refused(12, 0))
        );
        let mut board = Board {
            records: &mut records,
            marks: &mut marks,
            line: &mut line,
        };
        assert_eq!(rt; run(&mut round, &sheet, &mut board, 9), (1, Ending::Still));
        assert!(rt; close(round, &sheet, &records, &marks, &line).is_ok());
        Ok(())
    }

    // The empty sheet is settled at once.
    #[test]
    fn nothing_to_pair(rt: HostRuntime) -> Result<(), Fail> {
        let sheet: Sheet<Cents> = Sheet::empty();
        let mut line = Queue::new(&mut [], 0);
        let mut board = Board {
            records: &mut [],
            marks: &mut [],
            line: &mut line,
        };
        assert_eq!(rt; settle(&sheet, &mut board)?, Totals::default());
        Ok(())
    }
}
