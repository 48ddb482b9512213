//! Which of a store's notes is handed out first.
ghost use Rattle.chains.specs.declared.End.{End};
ghost use Rattle.chains.specs.declared.End.TheVariants.{Front, Back};

use chains::End;

/// An order in which a store's notes are handed out: from the front of its chain, which each new note joins at one end.
pub trait Order {
    ghost JOINS: { End };

    /// The end of the chain that a new note joins.
    const JOINS: End;
}

/// A store is handed its oldest note first.
#[derive(Drop)]
pub struct OldestFirst;

impl Order for OldestFirst {
    ghost JOINS = { Back };

    const JOINS: End = End::Back;
}

/// A store is handed its newest note first.
#[derive(Drop)]
pub struct NewestFirst;

impl Order for NewestFirst {
    ghost JOINS = { Front };

    const JOINS: End = End::Front;
}
