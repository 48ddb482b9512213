//! The steps on the chains of a pool: a slot leaves a chain at its front, or joins one at either end. They are functions and
//! no methods, since `Pool` stands in `chains`, beside its theory. Each says of the counts that it leaves them alone, which no
//! fact about one pool can say.
ghost use Rattle.std.specs.Prelude.{◌≡◌, ◌<◌, if◌then◌else◌, nat_lt, slice_index, slice_set};
ghost use Rattle.chains.specs.Tables.{Moved};
ghost use Rattle.chains.specs.Stores.{KeptIn, MovableIn, SameSizes, capacity_of, held_in};
ghost use Rattle.chains.specs.Walk.{slot_at, slot, linked_to};

use crate::END;
use chains::{End, Pool, Slot};
use line::Note;

// Takes the first slot off a chain that has one.
fn pop(pool: &mut Pool, from: u32) -> u32
    requires { (from < 65) × (slice_index pool.old.heads from < capacity_of pool.old) }
    ensures place { result ≡ slice_index pool.old.heads from }
    ensures slots { pool.new.slots.now ≡ pool.old.slots.now }
    ensures heads { pool.new.heads ≡ slice_set pool.old.heads from (slot_at pool.old.slots.now result).link }
    ensures tails { pool.new.tails ≡ pool.old.tails }
    ensures sizes { SameSizes pool.old pool.new }
{
    let place = pool.heads[from as usize];
    pool.heads[from as usize] = pool.slots[place as usize].link;
    place
}

// Puts a slot with the note in front of the chain of the note's store.
pub(crate) fn push_front(pool: &mut Pool, place: u32, note: Note)
    requires { (note.store < 65) × (place < capacity_of pool.old) }
    ensures slots { pool.new.slots.now ≡ slice_set pool.old.slots.now place (slot note (slice_index pool.old.heads note.store)) }
    ensures heads { pool.new.heads ≡ slice_set pool.old.heads note.store place }
    ensures tails { pool.new.tails ≡ (if nat_lt (slice_index pool.old.heads note.store) (capacity_of pool.old) then pool.old.tails else slice_set pool.old.tails note.store place) }
    ensures sizes { SameSizes pool.old pool.new }
{
    let to = note.store as usize;
    let head = pool.heads[to];
    pool.slots[place as usize] = Slot { note, link: head };
    pool.heads[to] = place;
    if head as usize >= pool.slots.len() {
        pool.tails[to] = place;
    }
}

// Puts a slot with the note behind the chain of the note's store.
fn push_back(pool: &mut Pool, place: u32, note: Note)
    requires within { (note.store < 65) × (place < capacity_of pool.old) }
    requires last_within { slice_index pool.old.heads note.store < capacity_of pool.old → slice_index pool.old.tails note.store < capacity_of pool.old }
    ensures slots { pool.new.slots.now ≡ (if nat_lt (slice_index pool.old.heads note.store) (capacity_of pool.old) then linked_to (slice_set pool.old.slots.now place (slot note 4294967295)) (slice_index pool.old.tails note.store) place else slice_set pool.old.slots.now place (slot note 4294967295)) }
    ensures heads { pool.new.heads ≡ (if nat_lt (slice_index pool.old.heads note.store) (capacity_of pool.old) then pool.old.heads else slice_set pool.old.heads note.store place) }
    ensures tails { pool.new.tails ≡ slice_set pool.old.tails note.store place }
    ensures sizes { SameSizes pool.old pool.new }
{
    let to = note.store as usize;
    pool.slots[place as usize] = Slot { note, link: END };
    if (pool.heads[to] as usize) < pool.slots.len() {
        let last = pool.tails[to];
        pool.slots[last as usize].link = place;
    } else {
        pool.heads[to] = place;
    }
    pool.tails[to] = place;
}

// Moves the first slot of one chain to an end of the note's chain, with the note.
pub(crate) fn carry(pool: &mut Pool, from: u32, note: Note, end: End)
    requires { MovableIn pool.old from note }
    ensures kept { KeptIn pool.new }
    ensures moved { Moved end from note (held_in pool.old) (held_in pool.new) }
    ensures sizes { SameSizes pool.old pool.new }
{
    let place = pop(pool, from);
    // an end is data that the laws of chains speak of, and not a step that a caller hands in
    match end {
        End::Front => push_front(pool, place, note),
        End::Back => push_back(pool, place, note),
    }
}
