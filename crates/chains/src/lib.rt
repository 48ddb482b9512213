//! Chains of notes, one for each store, in one pool of slots: the tables, what they mean, and the theory of the moves
//! between chains. The calls that move notes stand in the crate `lines`.
#![tactic(auto)]

ghost use Rattle.std.specs.Prelude.{◌≡◌, length};

use line::{LAST_STORE, Note};

/// The chain of the free slots: one past the last store.
pub const FREE: u32 = LAST_STORE + 1;
/// How many chains there are: one for each store, and that of the free slots.
pub const CHAINS: usize = FREE as usize + 1;

/// A slot holds one note. On a chain, it names the slot behind it by its number: the slots are lent, since no library
/// crate uses a heap.
#[repr(C)]
#[derive(Clone, Copy)]
pub struct Slot {
    pub note: Note,
    pub link: u32,
}

/// The end of a chain at which a note joins it.
#[derive(Clone, Copy)]
pub enum End {
    Front,
    Back,
}

/// The chains of the stores 0 to 63, and of the free slots, which is chain 64. The store of the note in a slot is the
/// number of the chain that the slot stands on.
#[derive(Drop)]
pub struct Pool<'a> {
    /// The slots, as many as the capacity says.
    pub slots: &'a mut [Slot],
    // The tables hold numbers, and no `Option`s, as links do, whose layout is C's: a slot's number goes from a link to a table, or back,
    // as it is. They are two and not one of pairs, since most moves, and the theory, need the first slots alone.
    /// The first slot of each chain; a number from the capacity up is no slot.
    pub heads: [u32; CHAINS],
    /// The last slot of each chain that has one.
    pub tails: [u32; CHAINS],
    /// How many slots are free.
    pub room: u32,
    // the types say so, but a proof knows an array's length only where the code reads the array
    pub ghost tabled: { (length heads ≡ 65) × (length tails ≡ 65) },
}
