//! Texts that are read or refused, with the number and the place of each refusal.
#![tactic(auto)]

#[cfg(test)]
mod tests {
    use faults::numbered;
    use ranking::{Cents, Ranking, Staged};
    use reading::{Sizes, TablesMut, read};
    use sheet::Tables;
    use std::process::Abort;
    use std::test::Fail;
    use text::{Fields, Lines, Part};

    // Four parcels in a row.
    const ROW: &str =
        "4,6,2\n0,0,21\n1,0,21\n2,1,21\n3,1,22\n0,1,5\n1,0,5\n1,2,9\n2,1,9\n2,3,7\n3,2,7\n";

    // The number and the place of what refuses a text; none where it is read into the tables.
    fn refused<K: Ranking>(text: &str, mut tables: TablesMut<'_, K>) -> Option<(u32, u32)> {
        read(text.as_bytes(), &mut tables).err().map(numbered)
    }

    // The same with room for four parcels and six entries, and for so many keys.
    fn refusal_by<K: Ranking>(text: &str, keys: &mut [K]) -> Option<(u32, u32)> {
        let tables = TablesMut {
            starts: &mut [0; 5],
            others: &mut [0; 6],
            keys,
            stores: &mut [0; 4],
            editions: &mut [0; 4],
        };
        refused(text, tables)
    }

    fn refusal(text: &str) -> Option<(u32, u32)> {
        refusal_by(text, &mut [Cents(0); 6])
    }

    fn staged_refusal(text: &str) -> Option<(u32, u32)> {
        refusal_by(text, &mut [Staged { band: 0, cents: 0 }; 6])
    }

    // The same of the row of parcels, with so much room in each table.
    fn refusal_with_room(
        starts: usize,
        others: usize,
        keys: usize,
        stores: usize,
        editions: usize,
    ) -> Option<(u32, u32)> {
        let tables = TablesMut {
            starts: &mut [0; 8][..starts.min(8)],
            others: &mut [0; 8][..others.min(8)],
            keys: &mut [Cents(0); 8][..keys.min(8)],
            stores: &mut [0; 8][..stores.min(8)],
            editions: &mut [0; 8][..editions.min(8)],
        };
        refused(ROW, tables)
    }

    #[test]
    fn first_lines_that_are_wrong(rt: HostRuntime) {
        for text in [
            "",
            "\n",
            "0,0,1",
            "0,0\n",
            "0,0,1,1\n",
            "0,0,1,\n",
            ",0,1\n",
            "0,,1\n",
            "00,0,1\n",
            "0,01,1\n",
            " 0,0,1\n",
            "0,0,1 \n",
            "0,0,1\r\n",
            "+0,0,1\n",
            "-0,0,1\n",
            "0;0;1\n",
            "a,0,1\n",
            "4294967296,0,1\n",
            "0,0,99999999999999999999\n",
        ] {
            assert_eq!(rt; refusal(text), Some((1, 1)), "{}", text);
        }
    }

    #[test]
    fn sizes_outside_the_limits(rt: HostRuntime) {
        for text in [
            "1025,0,1\n",
            "0,16385,1\n",
            "0,0,0\n",
            "0,0,65\n",
            "4294967295,4294967295,4294967295\n",
            "1025,0,1\nno line",
            "1025,16385,65\n",
        ] {
            assert_eq!(rt; refusal(text), Some((2, 0)), "{}", text);
        }
    }

    #[test]
    fn sizes_at_the_limits(rt: HostRuntime) {
        for text in [
            "1024,0,1\n",
            "0,16384,1\n",
            "1024,16384,64\n",
            "5,0,1\n",
            "0,7,1\nno line",
        ] {
            assert_eq!(rt; refusal(text), Some((3, 0)), "{}", text);
        }
        assert_eq!(rt; refusal("0,0,1\n"), None);
        assert_eq!(rt; refusal("0,0,64\n"), None);
    }

    #[test]
    fn tables_that_are_too_short(rt: HostRuntime) {
        assert_eq!(rt; refusal_with_room(5, 6, 6, 4, 4), None);
        assert_eq!(rt; refusal_with_room(8, 8, 8, 8, 8), None);
        assert_eq!(rt; refusal_with_room(4, 6, 6, 4, 4), Some((3, 0)));
        assert_eq!(rt; refusal_with_room(5, 5, 6, 4, 4), Some((3, 0)));
        assert_eq!(rt; refusal_with_room(5, 6, 5, 4, 4), Some((3, 0)));
        assert_eq!(rt; refusal_with_room(5, 6, 6, 3, 4), Some((3, 0)));
        assert_eq!(rt; refusal_with_room(5, 6, 6, 4, 3), Some((3, 0)));
        assert_eq!(rt; refusal_with_room(0, 0, 0, 0, 0), Some((3, 0)));
    }

    #[test]
    fn parcel_lines(rt: HostRuntime) {
        for (text, place) in [
            ("2,0,1\n", 2),
            ("2,0,1\n0,0,21\n", 3),
            ("2,0,1\n0,0,21", 2),
            ("2,0,1\n0,0,21\n1,0,21", 3),
            ("2,0,1\n1,0,21\n0,0,21\n", 2),
            ("2,0,1\n0,0,21\n0,0,21\n", 3),
            ("2,0,1\n0,0\n1,0,21\n", 2),
            ("2,0,1\n0,0,21,5\n1,0,21\n", 2),
            ("2,0,1\n0,0,65536\n1,0,21\n", 2),
            ("2,0,1\n0,0,021\n1,0,21\n", 2),
            ("2,0,1\n0,4294967296,21\n1,0,21\n", 2),
            ("2,0,1\n0,0,21\r\n1,0,21\n", 2),
            ("2,0,1\n0,,21\n1,0,21\n", 2),
            ("2,0,1\n\n0,0,21\n1,0,21\n", 2),
            ("2,0,1\n0,0,21\n1,0,21\n2,0,21\n", 4),
            ("2,0,1\n0,0,21\n1,0,21\n\n", 4),
            ("2,0,1\n0,0,21\n1,0,21\nx", 4),
        ] {
            assert_eq!(rt; refusal(text), Some((1, place)), "{}", text);
        }
        assert_eq!(rt; refusal("1,0,1\n0,4294967295,65535\n"), None);
    }

    #[test]
    fn entry_lines(rt: HostRuntime) {
        for (text, place) in [
            ("2,1,1\n0,0,21\n1,0,21\n", 4),
            ("2,1,1\n0,0,21\n1,0,21\n0,1,5", 4),
            ("2,1,1\n0,0,21\n1,0,21\n2,1,5\n", 4),
            ("2,2,1\n0,0,21\n1,0,21\n1,0,5\n0,1,5\n", 5),
            ("2,2,1\n0,0,21\n1,0,21\n0,1,5\n", 5),
            ("2,1,1\n0,0,21\n1,0,21\n0,1\n", 4),
            ("2,1,1\n0,0,21\n1,0,21\n0,1,5,6\n", 4),
            ("2,1,1\n0,0,21\n1,0,21\n0,1,4294967296\n", 4),
            ("2,1,1\n0,0,21\n1,0,21\n0,01,5\n", 4),
            ("2,1,1\n0,0,21\n1,0,21\n0,1,5\r\n", 4),
            ("2,1,1\n0,0,21\n1,0,21\n0,1,5\n1,0,5\n", 5),
            ("0,1,1\n0,0,5\n", 2),
        ] {
            assert_eq!(rt; refusal(text), Some((1, place)), "{}", text);
        }
    }

    // A store that is not there, a parcel that is not there, a parcel's own number and entries out of order are not the reader's business.
    #[test]
    fn what_the_reader_leaves_alone(rt: HostRuntime) {
        assert_eq!(rt; refusal(ROW), None);
        assert_eq!(rt;
            refusal("2,1,1\n0,9,21\n1,0,21\n0,4294967295,4294967295\n"),
            None
        );
        assert_eq!(rt;
            refusal("2,3,1\n0,0,21\n1,0,21\n1,1,0\n1,0,0\n1,0,0\n"),
            None
        );
    }

    #[test]
    fn keys_of_two_fields(rt: HostRuntime) {
        assert_eq!(rt; staged_refusal("2,1,1\n0,0,21\n1,0,21\n0,1,3,900\n"), None);
        assert_eq!(rt;
            staged_refusal("2,1,1\n0,0,21\n1,0,21\n0,1,3\n"),
            Some((1, 4))
        );
        assert_eq!(rt;
            staged_refusal("2,1,1\n0,0,21\n1,0,21\n0,1,3,900,1\n"),
            Some((1, 4))
        );
        assert_eq!(rt;
            staged_refusal("2,1,1\n0,0,21\n1,0,21\n0,1,3,\n"),
            Some((1, 4))
        );
    }

    // Holds the lent tables against these, each whole.
    fn hold<K: Ranking + PartialEq>(rt: &impl Abort, lent: &TablesMut<'_, K>, wanted: Tables<K>) {
        assert!(rt; *lent.starts == *wanted.starts);
        assert!(rt; *lent.others == *wanted.others);
        assert!(rt; *lent.keys == *wanted.keys);
        assert!(rt; *lent.stores == *wanted.stores);
        assert!(rt; *lent.editions == *wanted.editions);
    }

    // The values stand in the places needed, and the other places are as they were.
    #[test]
    fn tables_of_cents(rt: HostRuntime) {
        let mut tables = TablesMut {
            starts: &mut [9; 6],
            others: &mut [9; 7],
            keys: &mut [Cents(9); 7],
            stores: &mut [9; 5],
            editions: &mut [9; 5],
        };
        let sizes = Sizes {
            parcels: 4,
            entries: 6,
            stores: 2,
        };
        assert_eq!(rt; read(ROW.as_bytes(), &mut tables), Ok(sizes));
        let wanted = Tables {
            starts: &[0, 1, 3, 5, 6, 9],
            others: &[1, 0, 2, 1, 3, 2, 9],
            keys: &[5, 5, 9, 9, 7, 7, 9].map(Cents),
            stores: &[0, 0, 1, 1, 9],
            editions: &[21, 21, 21, 22, 9],
            store_count: 2,
        };
        hold(&rt, &tables, wanted);
    }

    // Rows with no entry start where the next one does.
    #[test]
    fn tables_of_staged_keys(rt: HostRuntime) {
        let mut tables = TablesMut {
            starts: &mut [9; 5],
            others: &mut [9; 2],
            keys: &mut [Staged { band: 9, cents: 9 }; 2],
            stores: &mut [9; 4],
            editions: &mut [9; 4],
        };
        let text = "4,2,3\n0,2,1\n1,0,65535\n2,1,0\n3,0,7\n1,3,2,900\n1,2,0,4294967295\n";
        let answer = read(text.as_bytes(), &mut tables);
        assert_eq!(rt; answer.err(), None);
        let fine = Staged {
            band: 2,
            cents: 900,
        };
        let finest = Staged {
            band: 0,
            cents: 4294967295,
        };
        let wanted = Tables {
            starts: &[0, 0, 2, 2, 2],
            others: &[3, 2],
            keys: &[fine, finest],
            stores: &[2, 0, 1, 0],
            editions: &[1, 65535, 0, 7],
            store_count: 3,
        };
        hold(&rt, &tables, wanted);
    }

    // The last line is wrong, and no table is touched.
    #[test]
    fn refused_tables_stay(rt: HostRuntime) {
        let mut tables = TablesMut {
            starts: &mut [9; 3],
            others: &mut [9; 2],
            keys: &mut [Cents(9); 2],
            stores: &mut [9; 2],
            editions: &mut [9; 2],
        };
        let text = "2,2,1\n0,0,21\n1,0,21\n0,1,5\n1,0,x\n";
        let answer = read(text.as_bytes(), &mut tables);
        assert_eq!(rt; answer.err().map(numbered), Some((1, 5)));
        let wanted = Tables {
            starts: &[9; 3],
            others: &[9; 2],
            keys: &[Cents(9); 2],
            stores: &[9; 2],
            editions: &[9; 2],
            store_count: 1,
        };
        hold(&rt, &tables, wanted);
    }

    // A part of a text, by its bytes, its place and its line.
    fn part(bytes: &[u8], place: usize, line: usize) -> Part<'_> {
        Part { bytes, place, line }
    }

    #[test]
    fn parts_of_a_text(rt: HostRuntime) -> Result<(), Fail> {
        let mut lines = Lines::new(b"4,,60\n7\n8");
        let line = lines.next().ok_or("no line")?;
        assert_eq!(rt; line, part(b"4,,60", 0, 1));
        let mut fields = Fields::new(line);
        assert_eq!(rt; fields.next(), Some(part(b"4", 0, 1)));
        assert_eq!(rt; fields.next(), Some(part(b"", 2, 1)));
        assert_eq!(rt; fields.next(), Some(part(b"60", 3, 1)));
        assert_eq!(rt; fields.next(), None);
        assert_eq!(rt; lines.next(), Some(part(b"7", 6, 2)));
        assert_eq!(rt; lines.next(), None);
        assert!(rt; !lines.is_at_end());
        Ok(())
    }
}
