//! Lines, which carry notes between stores. What a line means is the collection of the notes that wait on it and a
//! capacity that never changes; docs/LINES.md has the rules in full.
#![tactic(auto)]

ghost use Rattle.std.specs.Prelude.{◌≡◌, ℕ, ◌-◌, List, length, Option};
ghost use Rattle.line.specs.declared.Note.{Note};
ghost use Rattle.line.specs.Law.{Lawful};
ghost use Rattle.line.specs.Calls.{put_answer, Put, Taken};
ghost use Rattle.line.specs.Kinds.{code, Decodes};

use faults::Fault;

/// The largest capacity of a line. A line knows no sheet; this suffices for the largest one.
pub const MAX_NOTES: u32 = 16_384;
/// The highest number of a store, for a line as for a sheet.
pub const LAST_STORE: u32 = 63;

/// What a note says.
#[derive(Clone, Copy, Debug, PartialEq, Eq)]
pub enum Kind {
    /// A bid: the sender wants to be paired with the addressee.
    Bid = 1,
    /// A drop: the sender can no longer be paired with the addressee.
    Drop = 2,
}

/// A number that is no kind of note.
#[derive(Clone, Copy, Debug, PartialEq, Eq)]
pub struct UnknownKind(pub u8);

impl From<Kind> for u8 {
    ghost from_gives = { λ kind n. n ≡ code kind };

    fn from(kind: Kind) -> u8 {
        kind as u8
    }
}

impl TryFrom<u8> for Kind {
    type Error = UnknownKind;

    ghost try_from_gives = { Decodes };

    fn try_from(number: u8) -> Result<Kind, UnknownKind> {
        match number {
            1 => Ok(Kind::Bid),
            2 => Ok(Kind::Drop),
            _ => Err(UnknownKind(number)),
        }
    }
}

/// A note from a parcel to another.
#[repr(C)]
#[derive(Clone, Copy)]
pub struct Note {
    pub sender: u32,
    pub addressee: u32,
    /// The addressee's store.
    pub store: u32,
    /// The number of its `Kind`. Whoever puts a note fills it, and a line carries any number.
    pub kind: u8,
}

/// A kind of line. Which of a store's notes is handed out first is the kind's own rule.
pub trait Line {
    // what a line means, by three members: the clauses of its own calls speak of one or two, and only rounds of all three

    // the notes that wait, each as often as it was put; the order of the list says nothing
    ghost waiting: { Self → List Note };

    // how many notes may wait at once
    ghost capacity: { Self → ℕ };

    // the note that a store would be handed
    ghost chosen: { Self → ℕ → Option Note };

    // the law that each kind of line proves
    ghost lawful: { (l : Self) → Lawful (waiting l) (capacity l) (chosen l) };

    /// How many more notes the line takes.
    fn free(&self) -> u32
        ensures { result ≡ capacity self.now - length (waiting self.now) };

    /// The capacity.
    fn size(&self) -> u32
        ensures { result ≡ capacity self.now };

    /// Adds the note once. Refuses with `NoStore` at the note's store if that is above 63, and else with `NoRoom` at
    /// its sender if no place is free; the line then stays as it was.
    fn put(&mut self, note: Note) -> Result<(), Fault>
        ensures answer { result ≡ put_answer note (waiting self.old) (capacity self.old) }
        ensures notes { Put result note waiting self.old self.new }
        ensures size { capacity self.new ≡ capacity self.old };

    /// The note that `take` would hand the store, or none if none waits for it.
    fn next(&self, store: u32) -> Option<Note>
        ensures { result ≡ chosen self.now store };

    /// Removes one copy of the note that `next` answers, and answers it; with none, the line stays as it was.
    fn take(&mut self, store: u32) -> Option<Note>
        ensures answer { result ≡ chosen self.old store }
        ensures notes { Taken result waiting self.old self.new }
        ensures size { capacity self.new ≡ capacity self.old };
}
