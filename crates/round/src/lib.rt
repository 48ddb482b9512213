//! A round between stores: open, start, fetch and close.
#![tactic(auto)]

mod choose;
mod closing;
mod fetching;
mod starting;
mod state;

pub use choose::{BIDDEN, STRUCK};
pub use closing::{close, open};
pub use fetching::fetch;
pub use starting::{fits_sheet, start};
pub use state::{Board, Round};
