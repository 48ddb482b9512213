//! A line that keeps the notes of each store in a chain of their own.
ghost use Rattle.std.specs.Prelude.{◌≡◌, min, [], length};
ghost use Rattle.line.specs.Calls.{put_answer, Put, Taken};
ghost use Rattle.chains.specs.Stores.{Sound, by_store, all_notes, capacity_of, front, PutAt, TakenFirst};
ghost use Rattle.chains.proofs.Waiting.{pool_lawful};

use crate::order::Order;
use crate::{END, NO_NOTE, links};
use chains::{CHAINS, End, FREE, Pool, Slot};
use faults::{Fault, Refusal};
use line::{LAST_STORE, Line, MAX_NOTES, Note};
use std::marker::PhantomData;

/// A line over a lent buffer, of which each note takes one slot. A store is handed its notes in the order `O`.
#[derive(Drop)]
pub struct StoreLine<'a, O> {
    pool: Pool<'a>,
    order: PhantomData<O>,
    ghost sound: { Sound pool },
}

impl<'a, O> StoreLine<'a, O> {
    /// An empty line. Its capacity is the one named, or 16,384 or the buffer's length if either is less.
    pub fn new(buffer: &'a mut [Slot], capacity: u32) -> StoreLine<'a, O>
        ensures size { capacity_of result.pool ≡ min capacity (min 16384 (length buffer.old)) }
        ensures empty { all_notes result.pool ≡ [] }
    {
        let places = buffer.len().min(MAX_NOTES as usize).min(capacity as usize);
        let slots = &mut buffer[..places];
        let mut pool = Pool {
            slots,
            heads: [END; CHAINS],
            tails: [END; CHAINS],
            room: places as u32,
        };
        for place in 0..pool.room {
            links::push_front(&mut pool, place, NO_NOTE);
        }
        StoreLine {
            pool,
            order: PhantomData,
        }
    }
}

impl<O: Order> Line for StoreLine<'_, O> {
    ghost waiting = { λ l. all_notes l.pool };

    ghost capacity = { λ l. capacity_of l.pool };

    ghost chosen = { λ l s. front (by_store l.pool s) };

    ghost lawful = { λ l. pool_lawful l.pool l.sound };

    fn free(&self) -> u32 {
        self.pool.room
    }

    fn size(&self) -> u32 {
        self.pool.slots.len() as u32
    }

    /// The note joins its store's notes at the end that the order names.
    fn put(&mut self, note: Note) -> Result<(), Fault>
        ensures answer { result ≡ put_answer note (all_notes self.old.pool) (capacity_of self.old.pool) }
        ensures notes { Put result note (λ l. all_notes l.pool) self.old self.new }
        ensures size { capacity_of self.new.pool ≡ capacity_of self.old.pool }
        ensures order { PutAt O.JOINS result note self.old.pool self.new.pool }
    {
        if note.store > LAST_STORE {
            return Err((Refusal::NoStore, note.store));
        }
        if self.free() == 0 {
            return Err((Refusal::NoRoom, note.sender));
        }
        let pool = &mut self.pool;
        links::carry(pool, FREE, note, O::JOINS);
        pool.room -= 1;
        Ok(())
    }

    fn next(&self, store: u32) -> Option<Note> {
        if store > LAST_STORE {
            return None;
        }
        let head = self.pool.heads[store as usize];
        self.pool.slots.get(head as usize).map(|slot| slot.note)
    }

    /// The note was the first of its store's notes.
    fn take(&mut self, store: u32) -> Option<Note>
        ensures answer { result ≡ front (by_store self.old.pool store) }
        ensures notes { Taken result (λ l. all_notes l.pool) self.old self.new }
        ensures size { capacity_of self.new.pool ≡ capacity_of self.old.pool }
        ensures order { TakenFirst result store self.old.pool self.new.pool }
    {
        let note = self.next(store)?;
        let pool = &mut self.pool;
        links::carry(pool, store, NO_NOTE, End::Front);
        pool.room += 1;
        Some(note)
    }
}
