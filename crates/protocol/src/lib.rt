//! The protocol of rounds. What its calls mean, and the law that holds after every list of them, are in specs/; the code has
//! how a run ends.
#![tactic(auto)]

ghost use Rattle.std.specs.Prelude.{◌≡◌};
ghost use Rattle.faults.specs.Numbers.{number};
ghost use Rattle.protocol.specs.declared.Ending.TheVariants.{Refused};

use faults::{Fault, numbered};

/// How a run ended. Its refused case holds the two plain numbers that a user is told.
#[derive(Clone, Copy, Debug, PartialEq, Eq)]
pub enum Ending {
    /// No parcel is idle, and no note waits for the sheet's stores.
    Still,
    /// All the turns that were allowed were made.
    Spent,
    /// The tables or the sheet have other sizes than the round's, or the next turn was refused: this number at this place.
    Refused(u32, u32),
}

impl From<Fault> for Ending {
    ghost from_gives = { λ fault ending. ending ≡ Refused (number fault.0) fault.1 };

    /// The end of a run that this fault refuses.
    fn from(fault: Fault) -> Ending {
        let (number, place) = numbered(fault);
        Ending::Refused(number, place)
    }
}
