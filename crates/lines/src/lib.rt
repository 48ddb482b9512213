//! Lines made of chains of notes, one for each store, in one pool of slots that is lent: a note that is put takes a free
//! slot, and a note that is taken frees its slot. Each call but `new` looks at a few slots, however many notes wait.
#![tactic(auto)]

ghost use Rattle.std.specs.Prelude.{◌≡◌, length};
ghost use Rattle.lines.specs.Asked.{ask_answer};

use chains::{FREE, Slot};
use faults::{Fault, Refusal};
use line::{MAX_NOTES, Note};

mod links;
mod order;
mod store_line;
#[cfg(test)]
mod tests;

pub use order::{NewestFirst, OldestFirst, Order};
pub use store_line::StoreLine;

/// The line that hands a store its oldest note.
pub type Queue<'a> = StoreLine<'a, OldestFirst>;

/// The line that hands a store its newest note.
pub type Pigeonholes<'a> = StoreLine<'a, NewestFirst>;

/// Where a chain ends: no slot has this number. A link is no `Option`, since a slot has the layout that C gives it.
const END: u32 = u32::MAX;

/// What a free slot holds.
const NO_NOTE: Note = Note {
    sender: 0,
    addressee: 0,
    store: FREE,
    kind: 0,
};

/// A slot that holds no note, to fill a buffer with.
pub const BLANK: Slot = Slot {
    note: NO_NOTE,
    link: END,
};

/// Whether a line of this capacity can be made in the buffer. Refuses with `Size` if the capacity is above 16,384, and
/// else with `Room` if the buffer is shorter than the capacity; the place is 0.
pub fn ask(buffer: &[Slot], capacity: u32) -> Result<(), Fault>
    ensures { result ≡ ask_answer (length buffer.now) capacity }
{
    if capacity > MAX_NOTES {
        return Err((Refusal::Size, 0));
    }
    if buffer.len() < capacity as usize {
        return Err((Refusal::Room, 0));
    }
    Ok(())
}
