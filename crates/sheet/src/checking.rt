ghost use Rattle.std.specs.Prelude.{◌≡◌, Ok, Err};
ghost use Rattle.sheet.specs.Graph.{entry_between};
ghost use Rattle.sheet.specs.Check.{Passed, Refused};
ghost use Rattle.sheet.specs.View.{graph};
ghost use Rattle.faults.specs.Numbers.{number};

use crate::checked::Sheet;
use crate::fitted::Fitted;
use crate::tables::{Tables, find};
use faults::Fault;
use ranking::Ranking;

/// Checks the tables, and puts the checked sheet that they make in the place of `sheet`: whoever holds a sheet holds a checked one
/// at all times, before a refusal and after it.
///
/// Refuses, and then leaves `sheet` as it was, with the number and the place of what is wrong: a size (2, at 0), a
/// table's length (3, at 0), the first parcel whose row or store is wrong (4), or else the first wrong entry in row
/// order with its lowest fault (5 to 8).
pub fn check<'a, K: Ranking>(sheet: &mut Sheet<'a, K>, tables: Tables<'a, K>) -> Result<(), Fault>
    ensures { elim result [ Ok _ ↦ Passed K.Ranking.atleast (graph tables.entry) × (sheet.new.tables ≡ tables.entry) | Err f ↦ Refused K.Ranking.atleast (graph tables.entry) (number f.0) f.1 × (Passed K.Ranking.atleast (graph tables.entry) → ⊥) × (sheet.new ≡ sheet.old) ] }
{
    *sheet = Fitted::new(tables)?.rows()?.checked()?;
    Ok(())
}

/// The place of the first entry of row `u` that names `v`, if there is one.
// apart from its callers: within a fetch each step of the search would take two instructions more
#[inline(never)]
pub fn find_entry<K: Copy>(sheet: &Sheet<K>, u: usize, v: usize) -> Option<usize>
    ensures { result ≡ entry_between (graph sheet.now.tables) u v }
{
    // by steps, though a checked row rises: by `binary_search` a round takes up to 1.4 times as long as in plain Rust that searches so
    find(sheet.tables.others, sheet.row(u), v)
}
