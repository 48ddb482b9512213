//! From the text of a cents sheet to its pairing, in memory that the caller lends.
#![tactic(auto)]

ghost use Rattle.std.specs.Prelude.{◌≡◌, ◌≤◌, [], length, Ok, Err, Decides};
ghost use Rattle.ranking.specs.Kinds.{cents_atleast};
ghost use Rattle.reading.specs.Outcome.{lent, SameSlices};
ghost use Rattle.sheet.specs.Graph.{parcels, entries};
ghost use Rattle.sheet.specs.Check.{Alike};
ghost use Rattle.sheet.specs.Held.{held};
ghost use Rattle.sheet_text.specs.Checking.{Checking};
ghost use Rattle.sheet_text.specs.Pairing.{Enough, Settled, Pairing, SettlesAndPrints};
ghost use Rattle.sheet_text.specs.Lent.{lent_memory, SameMemory};

// what the macros name
use chains::Slot;
use faults::{Fault, Refusal};
use line::MAX_NOTES;
pub use lines::BLANK;
use lines::Queue;
pub use ranking::Cents;
pub use reading::TablesMut;
use reading::{Sizes, read};
pub use records::Record;
use records::{Ledger, Totals};
use results::result_text;
use round::Board;
use rounds::settle;
use sheet::{Sheet, check};

/// The memory in which the text of a sheet is paired, lent to be written: the sheet's tables, and the records, marks and
/// slots of its round. Each may be longer than needed.
#[derive(Drop)]
pub struct MemoryMut<'a> {
    pub tables: TablesMut<'a, Cents>,
    pub records: &'a mut [Record],
    pub marks: &'a mut [u8],
    pub slots: &'a mut [Slot],
}

impl MemoryMut<'_> {
    // Whether there is a record for each parcel, and a mark and a slot for each entry.
    fn is_enough(&self, sizes: Sizes) -> bool
        ensures { Decides result (Enough sizes (lent_memory self.now [])) }
    {
        let entries = sizes.entries as usize;
        sizes.parcels as usize <= self.records.len()
            && entries <= self.marks.len()
            && entries <= self.slots.len()
    }
}

/// Tables for a sheet of so many parcels and entries, on the caller's stack. It is a macro, since the length
/// of an array cannot be computed from a parameter.
#[macro_export]
macro_rules! tables_for {
    ($parcels:expr, $entries:expr) => {
        $crate::TablesMut {
            starts: &mut [0; $parcels + 1],
            others: &mut [0; $entries],
            keys: &mut [$crate::Cents(0); $entries],
            stores: &mut [0; $parcels],
            editions: &mut [0; $parcels],
        }
    };
}

/// Memory for a sheet of so many parcels and entries, on the caller's stack.
#[macro_export]
macro_rules! memory_for {
    ($parcels:expr, $entries:expr) => {
        $crate::MemoryMut {
            tables: $crate::tables_for!($parcels, $entries),
            records: &mut [$crate::Record::IDLE; $parcels],
            marks: &mut [0; $entries],
            slots: &mut [$crate::BLANK; $entries],
        }
    };
}

/// Reads the text of a cents sheet into the tables, which may be longer than needed, and checks it. Answers its sizes.
///
/// Refuses what reading refuses (1 to 3), and then alters no table; else what the check refuses (4 to 8), and then the
/// tables hold what was read.
pub fn check_text(text: &[u8], tables: &mut TablesMut<'_, Cents>) -> Result<Sizes, Fault>
    ensures checks { Checking text.now (lent tables.old) result (lent tables.new) }
    ensures slices { SameSlices tables.old tables.new }
{
    let sizes = read(text, tables)?;
    let mut sheet = Sheet::empty();
    let Some(first) = tables.cut(sizes) else {
        unreachable!();
    };
    check(&mut sheet, first)?;
    Ok(sizes)
}

// Settles a round of the sheet over a queue.
fn settle_over_queue(
    sheet: &Sheet<Cents>,
    records: &mut [Record],
    marks: &mut [u8],
    slots: &mut [Slot],
) -> Result<Totals, Fault>
    requires alike { Alike cents_atleast (held sheet.now) }
    requires records_long { length records.old ≡ parcels (held sheet.now) }
    requires marks_long { length marks.old ≡ entries (held sheet.now) }
    requires slots_enough { entries (held sheet.now) ≤ length slots.old }
    ensures { elim result [ Ok x ↦ Settled (held sheet.now) records.new marks.new x | Err _ ↦ ⊥ ] }
{
    let line = &mut Queue::new(slots, MAX_NOTES);
    let mut board = Board {
        records,
        marks,
        line,
    };
    settle(sheet, &mut board)
}

// Settles a round of the sheet, and writes the result text to the front of `out`.
fn settle_sheet(
    sheet: &Sheet<Cents>,
    records: &mut [Record],
    marks: &mut [u8],
    slots: &mut [Slot],
    out: &mut [u8],
) -> Result<usize, Fault>
    requires alike { Alike cents_atleast (held sheet.now) }
    requires records_long { length records.old ≡ parcels (held sheet.now) }
    requires marks_long { length marks.old ≡ entries (held sheet.now) }
    requires slots_enough { entries (held sheet.now) ≤ length slots.old }
    ensures { SettlesAndPrints (held sheet.now) records.new marks.new out.old result out.new }
{
    let totals = settle_over_queue(sheet, records, marks, slots)?;
    result_text(Ledger { sheet, records }, totals, out)
}

/// Pairs the text of a cents sheet: reads and checks it, settles a round of it over a queue, and writes the result text
/// to the front of `out`. Answers how many bytes that has. The lent tables, records, marks and slots may be longer than
/// needed; the first records and marks are then those of the round, and the slots hold any notes.
///
/// Refuses, and then leaves `out` as it was: what reading refuses (1 to 3), what the check refuses (4 to 8), fewer
/// records than parcels or fewer marks or slots than entries (3, at 0), and an `out` that is shorter than the result
/// text (3, at 0).
pub fn pair_text(text: &[u8], memory: &mut MemoryMut<'_>, out: &mut [u8]) -> Result<usize, Fault>
    ensures pairs { Pairing text.now (lent_memory memory.old out.old) result (lent_memory memory.new out.new) }
    ensures slices { SameMemory memory.old memory.new }
{
    let sizes = read(text, &mut memory.tables)?;
    // read and checked as in `check_text`, which has no sheet to hand out: a sheet borrows the tables, a part of this memory
    let enough = memory.is_enough(sizes);
    let mut sheet = Sheet::empty();
    let Some(first) = memory.tables.cut(sizes) else {
        unreachable!();
    };
    check(&mut sheet, first)?;
    if !enough {
        return Err((Refusal::Room, 0));
    }
    let records = &mut memory.records[..sizes.parcels as usize];
    let marks = &mut memory.marks[..sizes.entries as usize];
    settle_sheet(&sheet, records, marks, memory.slots, out)
}
