//! The stages of a pairing one at a time, for programs that are not written in Rattle. Every slice crosses as a pointer
//! and then a length. A stage that needs a checked sheet checks the tables once, and then runs as often as is asked.
#![tactic(auto)]

mod again;
mod answers;
mod once;

pub use again::{stages_pair_outright, stages_settle_pigeonholes, stages_settle_queue};
pub use answers::{Outcome, Reading, Verdict};
pub use once::{stages_check, stages_read};
