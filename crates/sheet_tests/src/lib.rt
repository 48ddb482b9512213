//! Sheets that pass and sheets that are refused, with the number and the place of each refusal, from the text through
//! the check, and from tables.
#![tactic(auto)]

#[cfg(test)]
mod tests {
    use faults::numbered;
    use ranking::Cents;
    use reading::{Sizes, TablesMut, read};
    use sheet::{Sheet, Tables};

    // What the check answers of these tables; none where they pass.
    fn refusal(tables: Tables<Cents>) -> Option<(u32, u32)> {
        sheet::check(&mut Sheet::empty(), tables)
            .err()
            .map(numbered)
    }

    // The same of the first places of these tables. They are long enough: no refusal is (0, 0).
    fn refusal_of_first(tables: &TablesMut<Cents>, sizes: Sizes) -> Option<(u32, u32)> {
        tables.cut(sizes).map_or(Some((0, 0)), refusal)
    }

    // The same of a text, with room for four parcels and six entries.
    fn text_refusal(text: &str) -> Option<(u32, u32)> {
        let mut tables = TablesMut {
            starts: &mut [0; 5],
            others: &mut [0; 6],
            keys: &mut [Cents(0); 6],
            stores: &mut [0; 4],
            editions: &mut [0; 4],
        };
        match read(text.as_bytes(), &mut tables) {
            Ok(sizes) => refusal_of_first(&tables, sizes),
            Err(fault) => Some(numbered(fault)),
        }
    }

    // The same of so many parcels in store 0 and so many stores, with no entries.
    fn bare_refusal(parcels: u32, stores: u32) -> Option<(u32, u32)> {
        let tables = TablesMut {
            starts: &mut [0; 1026],
            others: &mut [],
            keys: &mut [],
            stores: &mut [0; 1025],
            editions: &mut [21; 1025],
        };
        let sizes = Sizes {
            parcels,
            entries: 0,
            stores,
        };
        refusal_of_first(&tables, sizes)
    }

    // The same of one pair of parcels, with these tables in the place of the right ones.
    fn pair_refusal<'a>(
        starts: &'a [u32],
        others: &'a [u32],
        stores: &'a [u32],
    ) -> Option<(u32, u32)> {
        refusal(Tables {
            starts,
            others,
            keys: [Cents(5); 16_385].get(..others.len()).unwrap_or(&[]),
            stores,
            editions: [21; 4].get(..stores.len()).unwrap_or(&[]),
            store_count: 2,
        })
    }

    #[test]
    fn texts(rt: HostRuntime) {
        for (text, wanted) in [
            (
                "4,6,2\n0,0,21\n1,0,21\n2,1,21\n3,1,21\n0,1,5\n1,0,5\n1,2,9\n2,1,9\n2,3,7\n3,2,7\n",
                None,
            ),
            ("0,0,1\n", None),
            ("2,2,1\n0,0,21\n1,0,21\n0,1,0\n1,0,0\n", None),
            (
                "4,6,2\n0,0,21\n1,0,21\n2,1,21\n3,1,21\n0,1,5\n1,0,5\n1,2,9\n2,1\n2,3,7\n3,2,7\n",
                Some((1, 9)),
            ),
            (
                "4,6,65\n0,0,21\n1,0,21\n2,1,21\n3,1,21\n0,1,5\n1,0,5\n1,2,9\n2,1,9\n2,3,7\n3,2,7\n",
                Some((2, 0)),
            ),
            ("5,6,2\n", Some((3, 0))),
            ("4,7,2\n", Some((3, 0))),
            (
                "4,6,2\n0,0,21\n1,0,21\n2,2,21\n3,1,21\n0,1,5\n1,0,5\n1,2,9\n2,1,8\n2,3,7\n3,2,7\n",
                Some((4, 2)),
            ),
            (
                "4,6,2\n0,0,21\n1,0,21\n2,1,21\n3,1,21\n0,1,5\n1,0,5\n1,4,9\n2,1,9\n2,3,7\n3,2,7\n",
                Some((5, 2)),
            ),
            (
                "4,6,2\n0,0,21\n1,0,21\n2,1,21\n3,1,21\n0,1,5\n1,0,5\n1,1,9\n2,1,9\n2,3,7\n3,2,7\n",
                Some((5, 2)),
            ),
            (
                "4,6,2\n0,0,21\n1,0,21\n2,1,21\n3,1,21\n0,1,5\n1,0,5\n1,2,9\n2,1,9\n2,1,9\n3,2,7\n",
                Some((5, 4)),
            ),
            (
                "4,5,2\n0,0,21\n1,0,21\n2,1,21\n3,1,21\n0,1,5\n1,0,5\n1,2,9\n2,3,7\n3,2,7\n",
                Some((6, 2)),
            ),
            (
                "4,6,2\n0,0,21\n1,0,21\n2,1,21\n3,1,21\n0,1,5\n1,0,5\n1,2,9\n2,1,8\n2,3,7\n3,2,7\n",
                Some((7, 2)),
            ),
            (
                "4,6,2\n0,0,21\n1,0,21\n2,1,21\n3,1,22\n0,1,5\n1,0,5\n1,2,9\n2,1,9\n2,3,7\n3,2,7\n",
                Some((8, 4)),
            ),
            (
                "4,6,2\n0,0,21\n1,0,21\n2,1,21\n3,1,22\n0,1,5\n1,0,5\n1,2,9\n2,1,9\n2,3,7\n3,2,6\n",
                Some((7, 4)),
            ),
        ] {
            assert_eq!(rt; text_refusal(text), wanted, "{}", text);
        }
    }

    #[test]
    fn sizes(rt: HostRuntime) {
        for (parcels, stores, wanted) in [
            (0, 1, None),
            (1024, 1, None),
            (1024, 64, None),
            (1025, 1, Some((2, 0))),
            (0, 0, Some((2, 0))),
            (0, 65, Some((2, 0))),
            (1024, 65, Some((2, 0))),
        ] {
            assert_eq!(rt; bare_refusal(parcels, stores), wanted);
        }
        assert_eq!(rt;
            pair_refusal(&[0, 1, 16_385], &[0; 16_385], &[0, 0]),
            Some((2, 0))
        );
        assert_eq!(rt;
            pair_refusal(&[0, 1, 16_384], &[1; 16_384], &[0, 0]),
            Some((6, 0))
        );
    }

    #[test]
    fn rows(rt: HostRuntime) {
        assert_eq!(rt; pair_refusal(&[0, 1, 2], &[1, 0], &[0, 1]), None);
        assert_eq!(rt; pair_refusal(&[0, 1, 2], &[1, 0], &[2, 0]), Some((4, 0)));
        assert_eq!(rt; pair_refusal(&[0, 1, 2], &[1, 0], &[0, 2]), Some((4, 1)));
        assert_eq!(rt; pair_refusal(&[0, 1], &[1, 0], &[0, 1]), Some((3, 0)));
        assert_eq!(rt; pair_refusal(&[0, 1, 2, 2], &[1, 0], &[0, 1]), Some((3, 0)));
        assert_eq!(rt; pair_refusal(&[1, 1, 2], &[1, 0], &[0, 1]), Some((4, 0)));
        assert_eq!(rt; pair_refusal(&[0, 3, 2], &[1, 0], &[0, 1]), Some((4, 0)));
        assert_eq!(rt; pair_refusal(&[0, 2, 1], &[1, 0], &[0, 1]), Some((4, 1)));
        assert_eq!(rt; pair_refusal(&[0, 1, 1], &[1, 0], &[0, 1]), Some((4, 1)));
        assert_eq!(rt; pair_refusal(&[0], &[0], &[]), Some((4, 0)));
        assert_eq!(rt; pair_refusal(&[1], &[], &[]), Some((4, 0)));
    }
}
