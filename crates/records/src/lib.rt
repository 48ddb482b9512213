//! Records: what each parcel has come to in a pairing, and what is counted of them.
#![tactic(auto)]

ghost use Rattle.records.specs.Example.{RowOfFour};

mod ledger;
mod record;

pub use ledger::{Ledger, Tally, Totals};
pub use record::{Record, State, UnknownState, clear_records};

/// The example of four parcels in a row.
pub fn row_of_four()
    ensures { RowOfFour }
{}
