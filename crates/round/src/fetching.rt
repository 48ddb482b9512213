ghost use Rattle.std.specs.Prelude.{◌≡◌, ◌+◌, false, ◌&&◌, ◌∷◌, length, Some, ◌==◌};
ghost use Rattle.std.specs.List.Sorted.{IsPermutation};
ghost use Rattle.sheet.specs.Graph.{InRow, entries, row_start};
ghost use Rattle.sheet.specs.Held.{held};
ghost use Rattle.line.specs.Kinds.{code};
ghost use Rattle.protocol.specs.Steps.{entry_of};
ghost use Rattle.protocol.specs.Turns.{Fetch, stray};
ghost use Rattle.round.specs.Parts.{ComesTo, Received};
ghost use Rattle.round.specs.Seen.{seen, SameBoard};

use crate::choose::{
    BIDDEN, STRUCK, carry_out, count_open_others, let_go, plan_choice, with_choice,
};
use crate::state::{Board, Round};
use faults::{Fault, Refusal};
use line::{Kind, Line, Note};
use ranking::Ranking;
use records::{Record, State};
use sheet::{Sheet, find_entry};

// What a note says, and the addressee's entry for its sender, if the note can come to this store.
fn entry_for<K: Ranking>(sheet: &Sheet<K>, store: u32, note: Note) -> Option<(Kind, usize)>
    ensures { ComesTo K.Ranking.atleast (held sheet.now) store note result }
{
    let stores = sheet.tables().stores;
    let a = note.addressee as usize;
    if a >= stores.len() || stores[a] != store {
        return None;
    }
    let kind = Kind::try_from(note.kind).ok()?;
    let at = find_entry(sheet, a, note.sender as usize)?;
    Some((kind, at))
}

// Takes the note that the line hands its store.
fn take_sure<L: Line>(line: &mut L, note: Note)
    requires { L.Line.chosen line.old note.store ≡ Some note }
    ensures notes { IsPermutation (note ∷ L.Line.waiting line.new) (L.Line.waiting line.old) }
    ensures size { L.Line.capacity line.new ≡ L.Line.capacity line.old }
{
    let _ = line.take(note.store);
}

// A note of a sheet's round as its addressee receives it, with the addressee's entry for the sender and the record that it has.
#[derive(Drop)]
struct Arrival<'a, K> {
    sheet: &'a Sheet<'a, K>,
    note: Note,
    at: usize,
    was: Record,
    ghost within: { InRow (held sheet.now) note.addressee at },
    ghost entry: { at ≡ entry_of (held sheet.now) note },
}

impl<K: Ranking> Arrival<'_, K> {
    // Whether the addressee waits with that entry as its choice.
    fn awaits(&self) -> bool
        ensures { result ≡ (self.now.was.state == 1 && row_start (held self.now.sheet.now) self.now.note.addressee + self.now.was.choice == self.now.at) }
    {
        let a = self.note.addressee as usize;
        self.was.is(State::Waits) && self.sheet.place(a, self.was.choice) == Some(self.at)
    }

    // The addressee receives a bid: its entry for the sender is marked, and if it waits with that choice, it pairs there.
    // No answer, and nothing altered, where there is no room for what that sends.
    fn receive_bid<L: Line>(&self, marks: &mut [u8], line: &mut L) -> Option<(Record, u32)>
        requires kind { self.now.note.kind ≡ 1 }
        requires long { length marks.old ≡ entries (held self.now.sheet.now) }
        requires handed { L.Line.chosen line.old self.now.note.store ≡ Some self.now.note }
        ensures { Received K.Ranking.atleast (held self.now.sheet.now) L.Line.waiting L.Line.capacity self.now.note self.now.was result marks.old marks.new line.old line.new }
    {
        let sheet = self.sheet;
        let note = self.note;
        let at = self.at;
        if !self.awaits() {
            take_sure(line, note);
            marks[at] |= BIDDEN;
            return Some((self.was, 0));
        }
        let a = note.addressee as usize;
        let count = count_open_others(sheet, marks, a, at);
        if count > line.free() + 1 {
            return None;
        }
        take_sure(line, note);
        marks[at] |= BIDDEN;
        let_go(sheet, marks, line, a, at);
        Some((with_choice(sheet, State::Paired, a, at), count))
    }

    // The addressee receives a drop: its entry for the sender is struck, and if it waits with that choice, it chooses.
    // No answer, and nothing altered, where there is no room for what that sends.
    fn receive_drop<L: Line>(&self, marks: &mut [u8], line: &mut L) -> Option<(Record, u32)>
        requires kind { self.now.note.kind ≡ 2 }
        requires long { length marks.old ≡ entries (held self.now.sheet.now) }
        requires handed { L.Line.chosen line.old self.now.note.store ≡ Some self.now.note }
        ensures { Received K.Ranking.atleast (held self.now.sheet.now) L.Line.waiting L.Line.capacity self.now.note self.now.was result marks.old marks.new line.old line.new }
    {
        let sheet = self.sheet;
        let note = self.note;
        let at = self.at;
        let old = marks[at];
        marks[at] = old | STRUCK;
        if !self.awaits() {
            take_sure(line, note);
            return Some((self.was, 0));
        }
        let a = note.addressee as usize;
        let plan = plan_choice(sheet, marks, a);
        let count = plan.sending();
        if count > line.free() + 1 {
            marks[at] = old;
            return None;
        }
        take_sure(line, note);
        Some((carry_out(sheet, marks, line, a, plan), count))
    }

    // The addressee receives the note, which is of this kind.
    fn receive<L: Line>(&self, marks: &mut [u8], line: &mut L, kind: Kind) -> Option<(Record, u32)>
        requires kind { code kind ≡ self.now.note.kind }
        requires long { length marks.old ≡ entries (held self.now.sheet.now) }
        requires handed { L.Line.chosen line.old self.now.note.store ≡ Some self.now.note }
        ensures { Received K.Ranking.atleast (held self.now.sheet.now) L.Line.waiting L.Line.capacity self.now.note self.now.was result marks.old marks.new line.old line.new }
    {
        match kind {
            Kind::Bid => self.receive_bid(marks, line),
            Kind::Drop => self.receive_drop(marks, line),
        }
    }
}

/// Fetches the next note for a store: its addressee receives it.
///
/// Refuses, and then alters nothing, the note that was next included: a store that the sheet does not have (10, at the
/// store), tables or a sheet of other sizes than the round's (12, at 0), a store that nothing waits for (14) or whose
/// next note cannot come to it (15), each at the store, an addressee whose record is out of range (16), and a turn that
/// would send more notes than are free once the note is taken (17), each at the addressee.
pub fn fetch<K: Ranking, L: Line>(
    round: &mut Round,
    sheet: &Sheet<K>,
    board: &mut Board<'_, L>,
    store: u32,
) -> Result<(), Fault>
    ensures turn { Fetch K.Ranking.atleast (held sheet.now) store result (seen L.Line.waiting L.Line.capacity L.Line.chosen round.old board.old) (seen L.Line.waiting L.Line.capacity L.Line.chosen round.new board.new) }
    ensures board { SameBoard board.old board.new }
{
    if store >= sheet.tables().store_count {
        return Err((Refusal::NoStore, store));
    }
    if !board.fits(round, sheet) {
        return Err((Refusal::WrongLength, 0));
    }
    let note = board
        .line
        .next(store)
        .ok_or((Refusal::NothingWaits, store))?;
    let (kind, at) = entry_for(sheet, store, note).ok_or((Refusal::StrayNote, store))?;
    let a = note.addressee as usize;
    let strays = board.strays(sheet, a).unwrap_or(true);
    if strays {
        return Err((Refusal::Astray, note.addressee));
    }
    let was = board.records[a];
    let arrival = Arrival {
        sheet,
        note,
        at,
        was,
    };
    let received = arrival.receive(board.marks, board.line, kind);
    let (now_is, sent) = received.ok_or((Refusal::NoRoom, note.addressee))?;
    board.records[a] = now_is;
    round.count_turn(sent);
    Ok(())
}
