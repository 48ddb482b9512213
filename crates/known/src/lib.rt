//! Small sheets of which everything is known: what the definitions of this repository say of them, as one proof.
#![tactic(auto)]

ghost use Rattle.known.specs.Known.{KnownSheets};

/// The known sheets, as one list of facts about the meanings: pairings, refusals, and the first turns of a round.
pub fn known_sheets()
    ensures { KnownSheets }
{}
