//! The functions that C calls take tables one by one, as C lends them.
ghost use Rattle.ranking.specs.Kinds.{cents_key};
ghost use Rattle.reading.specs.Outcome.{tables as lent, Read};
ghost use Rattle.stages.specs.Answers.{verdict_of, reading_of, Answers, listed, Checked};

use crate::answers::{Reading, Verdict};
use ranking::Cents;
use reading::{TablesMut, read};
use sheet::{Sheet, Tables, check};

/// Reads a sheet's text into the tables.
#[unsafe(no_mangle)]
pub extern "C" fn stages_read(
    text: &[u8],
    starts: &mut [u32],
    others: &mut [u32],
    keys: &mut [Cents],
    stores: &mut [u32],
    editions: &mut [u16],
) -> Reading
    ensures { Answers reading_of (λ x. Read cents_key 1 text.now (lent starts.old others.old keys.old stores.old editions.old) x (lent starts.new others.new keys.new stores.new editions.new)) result }
{
    let mut tables = TablesMut {
        starts,
        others,
        keys,
        stores,
        editions,
    };
    Reading::from(read(text, &mut tables))
}

/// Checks the tables of a sheet.
#[unsafe(no_mangle)]
pub extern "C" fn stages_check<'a>(
    starts: &'a [u32],
    others: &'a [u32],
    keys: &'a [Cents],
    stores: &'a [u32],
    editions: &'a [u16],
    store_count: u32,
) -> Verdict
    ensures { Answers verdict_of (Checked (listed starts.now others.now keys.now stores.now editions.now store_count)) result }
{
    let tables = Tables {
        starts,
        others,
        keys,
        stores,
        editions,
        store_count,
    };
    Verdict::from(check(&mut Sheet::empty(), tables))
}
