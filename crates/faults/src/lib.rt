//! The refusals, each with its number. docs/FAULTS.md says when each is given, and with which place.
#![tactic(auto)]

ghost use Rattle.std.specs.Prelude.{◌≡◌, Some, decimal};
ghost use Rattle.faults.specs.Numbers.{number};

use std::fmt;

/// What is wrong with an input, or with the state that a call finds. As a number it is the one that a user is told.
#[derive(Clone, Copy, Debug, PartialEq, Eq)]
pub enum Refusal {
    /// A line of a text that has not the form, is missing, or is one too many; the place is its number, from 1.
    Line = 1,
    /// A size outside the limits.
    Size = 2,
    /// A table or a buffer that is too short, or a table of a sheet that has not its length.
    Room = 3,
    /// A parcel whose row or store is wrong.
    Parcel = 4,
    /// An entry that is not below the number of parcels, names its own parcel, or does not rise.
    Entry = 5,
    /// An entry with no mirror.
    Mirror = 6,
    /// An entry and its mirror whose keys do not rank alike.
    Alike = 7,
    /// An entry between parcels of two editions.
    Edition = 8,
    /// A parcel that the sheet does not have.
    NoParcel = 9,
    /// A store that there is not.
    NoStore = 10,
    /// A line that is not empty, or is too small for the entries, when a round is opened.
    LineUnfit = 11,
    /// Records that are not one for each parcel, or a table or a sheet of another size than the round's.
    WrongLength = 12,
    /// A start of a parcel that has started; the place is the parcel.
    Started = 13,
    /// No note waits for the store, which is the place.
    NothingWaits = 14,
    /// A note that its store cannot receive; the place is the store.
    StrayNote = 15,
    /// A record out of range: no such state, or a choice outside the parcel's row; the place is the parcel.
    Astray = 16,
    /// More notes than the line has free places for; the place is the parcel that sends them.
    NoRoom = 17,
    /// A round that is not settled; the place is the lowest parcel that is idle or waits, or else the number of parcels.
    Unsettled = 18,
}

/// What refuses a call: the refusal, and the place at which it was found.
pub type Fault = (Refusal, u32);

impl From<Refusal> for u32 {
    ghost from_gives = { λ refusal n. n ≡ number refusal };

    fn from(refusal: Refusal) -> u32 {
        refusal as u32
    }
}

/// A fault as the two numbers that a user is told. A function, since a pair can have no `From` of ours.
pub fn numbered(fault: Fault) -> (u32, u32)
    ensures number { result.0 ≡ number fault.0 }
    ensures place { result.1 ≡ fault.1 }
{
    let (refusal, place) = fault;
    (u32::from(refusal), place)
}

impl fmt::Display for Refusal {
    ghost output = { λ refusal. Some (decimal (number refusal)) };

    /// Prints the number.
    fn fmt<W: fmt::Write>(&self, f: &mut fmt::Formatter<W>) -> fmt::Result {
        write!(f, "{}", u32::from(*self))
    }
}
