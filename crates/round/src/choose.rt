ghost use Rattle.std.specs.Prelude.{◌≡◌, ◌+◌, ◌<◌, ◌≤◌, true, not, ◌&&◌, ◌∷◌, length, ◌==◌};
ghost use Rattle.std.specs.List.Sorted.{IsPermutation};
ghost use Rattle.sheet.specs.Graph.{InRow, parcels, entries};
ghost use Rattle.sheet.specs.Held.{held};
ghost use Rattle.line.specs.Kinds as kinds;
ghost use Rattle.records.specs.States as states;
ghost use Rattle.protocol.specs.Marks.{open', open_others, note_along};
ghost use Rattle.protocol.specs.Steps.{with_choice};
ghost use Rattle.round.specs.Parts.{Planned, sends, DroppedOne, LetGo, Chose};

use choosing::{Candidates, top_entry};
use line::{Kind, Line, Note};
use ranking::Ranking;
use records::{Record, State};
use sheet::Sheet;

// Masks and no enum: a mark is a byte that the caller lends, and its other bits are kept.

/// The bit of a mark that says that the entry is struck.
pub const STRUCK: u8 = 1;
/// The bit of a mark that says that a bid came from there.
pub const BIDDEN: u8 = 2;

// The open entries, as candidates for a choice.
#[derive(Drop)]
struct OpenEntries<'a>(&'a [u8]);

impl Candidates for OpenEntries<'_> {
    ghost stands = { λ s. open' s.0.now };

    fn stands_at(&self, place: usize) -> bool {
        self.0.get(place).is_none_or(|mark| mark & STRUCK == 0)
    }
}

// What a parcel does when it chooses.
#[derive(Drop)]
pub(crate) enum Plan {
    // It has no open entry.
    Alone,
    // It bids for this entry, and waits.
    Waits(usize),
    // It bids for this entry and pairs there, and so sends this many notes.
    Pairs(usize, u32),
}

// The steps of a turn take the sheet, the marks and the line one by one, and so do those that only read: a struct of the three
// would make each step say that it still lends the same sheet and slices, and a board also that the records stay. What a step
// asks of a row or of the marks it asks itself, since that is a fact about the sheet and the marks together. Each step here
// that sends notes promises in `size` that the line keeps its capacity, which is a fact of two lines and so no ghost field's.

// A note along the entry at place `p` of row `u`.
fn note_along<K: Copy>(sheet: &Sheet<K>, kind: Kind, u: usize, p: usize) -> Note
    requires { InRow (held sheet.now) u p }
    ensures { result ≡ note_along (held sheet.now) (kinds.code kind) u p }
{
    let tables = sheet.tables();
    let addressee = tables.others[p];
    Note {
        sender: u as u32,
        addressee,
        store: tables.stores[addressee as usize],
        kind: u8::from(kind),
    }
}

// Sends a note along the entry at place `p` of row `u`, for which there is room.
fn send<K: Copy, L: Line>(sheet: &Sheet<K>, line: &mut L, kind: Kind, u: usize, p: usize)
    requires within { InRow (held sheet.now) u p }
    requires room { length (L.Line.waiting line.old) < L.Line.capacity line.old }
    ensures notes { IsPermutation (note_along (held sheet.now) (kinds.code kind) u p ∷ L.Line.waiting line.old) (L.Line.waiting line.new) }
    ensures size { L.Line.capacity line.new ≡ L.Line.capacity line.old }
{
    let _ = line.put(note_along(sheet, kind, u, p));
}

// Whether the entry at place `q` is open, and not the one at `keep`.
fn other_open(marks: &[u8], q: usize, keep: usize) -> bool
    requires { q < length marks.now }
    ensures { result ≡ (open' marks.now q && not (q == keep)) }
{
    marks[q] & STRUCK == 0 && q != keep
}

// How many entries of row `u` are open, but for the one at `keep`.
pub(crate) fn count_open_others<K: Copy>(
    sheet: &Sheet<K>,
    marks: &[u8],
    u: usize,
    keep: usize,
) -> u32
    requires parcel { u < parcels (held sheet.now) }
    requires long { length marks.now ≡ entries (held sheet.now) }
    ensures { result ≡ length (open_others (held sheet.now) marks.now u keep) }
{
    let others = sheet.row(u).filter(|q| other_open(marks, *q, keep));
    others.count() as u32
}

// Sends a drop along the entry at place `q` and strikes it, if it is open and not the one at `keep`.
fn drop_other<K: Copy, L: Line>(
    sheet: &Sheet<K>,
    marks: &mut [u8],
    line: &mut L,
    u: usize,
    keep: usize,
    q: usize,
)
    requires within { InRow (held sheet.now) u q }
    requires long { length marks.old ≡ entries (held sheet.now) }
    requires room { (open' marks.old q && not (q == keep)) ≡ true → length (L.Line.waiting line.old) < L.Line.capacity line.old }
    ensures done { DroppedOne (held sheet.now) u q (open' marks.old q && not (q == keep)) marks.old marks.new (L.Line.waiting line.old) (L.Line.waiting line.new) }
    ensures size { L.Line.capacity line.new ≡ L.Line.capacity line.old }
{
    if other_open(marks, q, keep) {
        send(sheet, line, Kind::Drop, u, q);
        marks[q] |= STRUCK;
    }
}

// Lets go of all but the entry at `keep`: in row order, every other open entry is sent a drop and struck.
pub(crate) fn let_go<K: Copy, L: Line>(
    sheet: &Sheet<K>,
    marks: &mut [u8],
    line: &mut L,
    u: usize,
    keep: usize,
)
    requires parcel { u < parcels (held sheet.now) }
    requires long { length marks.old ≡ entries (held sheet.now) }
    requires room { length (open_others (held sheet.now) marks.old u keep) + length (L.Line.waiting line.old) ≤ L.Line.capacity line.old }
    ensures done { LetGo (held sheet.now) u keep marks.old marks.new (L.Line.waiting line.old) (L.Line.waiting line.new) }
    ensures size { L.Line.capacity line.new ≡ L.Line.capacity line.old }
{
    for q in sheet.row(u) {
        drop_other(sheet, marks, line, u, keep, q);
    }
}

// What parcel `u` does if it chooses now.
pub(crate) fn plan_choice<K: Ranking>(sheet: &Sheet<K>, marks: &[u8], u: usize) -> Plan
    requires parcel { u < parcels (held sheet.now) }
    requires long { length marks.now ≡ entries (held sheet.now) }
    ensures { Planned K.Ranking.atleast (held sheet.now) u marks.now result }
{
    let Some(p) = top_entry(sheet, u, &OpenEntries(marks)) else {
        return Plan::Alone;
    };
    if marks[p] & BIDDEN == 0 {
        return Plan::Waits(p);
    }
    Plan::Pairs(p, count_open_others(sheet, marks, u, p) + 1)
}

impl Plan {
    // How many notes the plan sends.
    pub(crate) fn sending(&self) -> u32
        ensures { result ≡ sends self.now }
    {
        match self {
            Plan::Alone => 0,
            Plan::Waits(_) => 1,
            Plan::Pairs(_, count) => *count,
        }
    }
}

// The record of a parcel of this state that chose the entry at place `p` of its row.
pub(crate) fn with_choice<K: Copy>(sheet: &Sheet<K>, state: State, u: usize, p: usize) -> Record
    requires { InRow (held sheet.now) u p }
    ensures { result ≡ with_choice (held sheet.now) (states.code state) u p }
{
    Record::new(state, (p - sheet.row(u).start) as u32)
}

// Carries out a plan for which there is room: what it sends goes on the line. Answers the parcel's record.
pub(crate) fn carry_out<K: Ranking, L: Line>(
    sheet: &Sheet<K>,
    marks: &mut [u8],
    line: &mut L,
    u: usize,
    plan: Plan,
) -> Record
    requires parcel { u < parcels (held sheet.now) }
    requires long { length marks.old ≡ entries (held sheet.now) }
    requires planned { Planned K.Ranking.atleast (held sheet.now) u marks.old plan }
    requires room { sends plan + length (L.Line.waiting line.old) ≤ L.Line.capacity line.old }
    ensures done { Chose K.Ranking.atleast (held sheet.now) u marks.old result marks.new (L.Line.waiting line.old) (L.Line.waiting line.new) (sends plan) }
    ensures size { L.Line.capacity line.new ≡ L.Line.capacity line.old }
{
    match plan {
        Plan::Alone => Record::LONE,
        Plan::Waits(p) => {
            send(sheet, line, Kind::Bid, u, p);
            with_choice(sheet, State::Waits, u, p)
        }
        Plan::Pairs(p, _) => {
            send(sheet, line, Kind::Bid, u, p);
            let_go(sheet, marks, line, u, p);
            with_choice(sheet, State::Paired, u, p)
        }
    }
}
