//! A sheet: its tables, lent by the caller, and the check that makes a checked sheet of them.
#![tactic(auto)]

mod checked;
mod checking;
mod fitted;
mod tables;

pub use checked::Sheet;
pub use checking::{check, find_entry};
pub use tables::{MOST_ENTRIES, MOST_PARCELS, MOST_STORES, Tables, sizes_within};
