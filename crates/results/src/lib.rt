//! What is said of records once a pairing is done: what the pairs are worth, and the result text.
#![tactic(auto)]

ghost use Rattle.results.specs.Example.{RowOfFour};
ghost use Rattle.results.specs.Numbers.{ReadsBack};

mod printing;
mod worth_of;
mod writer;

pub use printing::result_text;
pub use worth_of::worth;

/// The example of four parcels in a row.
pub fn row_of_four()
    ensures { RowOfFour }
{}

/// Every number is printed as digits that read back as it, with no zero in front.
pub fn numbers_read_back()
    ensures { ReadsBack }
{}
