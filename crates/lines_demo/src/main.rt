//! Drives a queue and pigeonholes through one script of puts and takes, and prints where their answers part.
#![tactic(auto)]

ghost use Rattle.std.specs.Prelude.{◌≡◌};
ghost use Rattle.lines_demo.specs.Played.{played};

use faults::Fault;
use line::{Kind, LAST_STORE, Line, Note};
use lines::{BLANK, Pigeonholes, Queue};
use std::{fmt, io};

/// How many steps the script has.
const STEPS: u32 = 2_000;
/// How many of them are printed one by one.
const SHOWN: u32 = 48;
/// How many notes either line holds.
const PLACES: usize = 6;

/// One step of the script.
#[derive(Clone, Copy)]
enum Step {
    Put(Note),
    Take(u32),
}

/// What a line answers to a step.
#[derive(Clone, Copy, PartialEq, Eq, Debug)]
enum Answer {
    /// Whether the note was kept.
    Kept(Result<(), Fault>),
    /// The sender of the note that was handed out, or none.
    Handed(Option<u32>),
}

impl fmt::Display for Step {
    fn fmt<W: fmt::Write>(&self, f: &mut fmt::Formatter<W>) -> fmt::Result {
        match self {
            Step::Put(Note { sender, store, .. }) => write!(f, "put {sender} for store {store}"),
            Step::Take(store) => write!(f, "take for store {store}"),
        }
    }
}

impl fmt::Display for Answer {
    fn fmt<W: fmt::Write>(&self, f: &mut fmt::Formatter<W>) -> fmt::Result {
        match self {
            Answer::Kept(Ok(())) => write!(f, "kept"),
            Answer::Kept(Err((refusal, place))) => write!(f, "refused {refusal} at {place}"),
            Answer::Handed(Some(sender)) => write!(f, "{sender}"),
            Answer::Handed(None) => write!(f, "none"),
        }
    }
}

/// The step at a place of the script, by dice. A note's sender is the step's number; now and then its store is one that
/// there is not.
fn step_at(place: u32, dice: u32) -> Step {
    let store = if dice % 37 == 0 {
        LAST_STORE + 1
    } else {
        dice / 64 % 4
    };
    if dice / 4096 % 9 < 5 {
        Step::Put(Note {
            sender: place,
            addressee: dice % 64,
            store,
            kind: u8::from(if dice % 2 == 0 { Kind::Bid } else { Kind::Drop }),
        })
    } else {
        Step::Take(store)
    }
}

/// Plays one step on a line, whatever its kind.
fn play<L: Line>(line: &mut L, step: Step) -> Answer
    ensures { result ≡ played step (L.Line.waiting line.old) (L.Line.capacity line.old) (L.Line.chosen line.old) }
{
    match step {
        Step::Put(note) => Answer::Kept(line.put(note)),
        Step::Take(store) => Answer::Handed(line.take(store).map(|note| note.sender)),
    }
}

fn main(rt: HostRuntime) -> io::Result<()> {
    let mut slots = [BLANK; PLACES];
    let mut holes = [BLANK; PLACES];
    let mut queue = Queue::new(&mut slots, PLACES as u32);
    let mut pigeonholes = Pigeonholes::new(&mut holes, PLACES as u32);
    let mut dice: u32 = 20_100;
    let mut parted: u32 = 0;
    for place in 0..STEPS {
        dice = dice.wrapping_mul(1_664_525).wrapping_add(1_013_904_223);
        let step = step_at(place, dice / 16);
        let oldest = play(&mut queue, step);
        let newest = play(&mut pigeonholes, step);
        let alike = oldest == newest;
        if !alike {
            parted += 1;
        }
        if place < SHOWN {
            let mark = if alike { "both" } else { "apart" };
            println!(rt; "{step}: {oldest}, {newest} ({mark})")?;
        }
    }
    let alike = STEPS - parted;
    let left = queue.free();
    let room = pigeonholes.free();
    println!(rt; "{alike} of {STEPS} answers alike, {parted} apart")?;
    println!(rt; "free at the end: {left} and {room}")
}

#[cfg(test)]
mod tests {
    use super::*;
    use faults::numbered;
    use lines::ask;
    use std::process::Abort;

    fn note(sender: u32, store: u32) -> Note {
        Note {
            sender,
            addressee: 9,
            store,
            kind: u8::from(Kind::Bid),
        }
    }

    // Puts three notes for store 5, with one for another store between them, and holds the senders of what store 5 is then
    // handed against these.
    fn hands<L: Line>(rt: &impl Abort, line: &mut L, senders: [u32; 3]) {
        for (sender, store) in [(1, 5), (2, 5), (7, 6), (3, 5)] {
            let _ = line.put(note(sender, store));
        }
        for sender in senders {
            assert_eq!(rt; play(line, Step::Take(5)), Answer::Handed(Some(sender)));
        }
        assert_eq!(rt; play(line, Step::Take(5)), Answer::Handed(None));
        assert_eq!(rt; line.free(), 3);
    }

    #[test]
    fn queue_hands_the_oldest(rt: HostRuntime) {
        hands(&rt, &mut Queue::new(&mut [BLANK; 4], 4), [1, 2, 3]);
    }

    #[test]
    fn pigeonholes_hand_the_newest(rt: HostRuntime) {
        hands(&rt, &mut Pigeonholes::new(&mut [BLANK; 4], 4), [3, 2, 1]);
    }

    #[test]
    fn refusals(rt: HostRuntime) {
        let mut slots = [BLANK; 3];
        assert_eq!(rt; ask(&slots, 16_385).map_err(numbered), Err((2, 0)));
        assert_eq!(rt; ask(&slots, 4).map_err(numbered), Err((3, 0)));
        assert_eq!(rt; ask(&slots, 3).map_err(numbered), Ok(()));
        let mut queue = Queue::new(&mut slots, 1);
        assert_eq!(rt; queue.put(note(8, 64)).map_err(numbered), Err((10, 64)));
        assert_eq!(rt; queue.put(note(8, 63)).map_err(numbered), Ok(()));
        assert_eq!(rt; queue.put(note(9, 0)).map_err(numbered), Err((17, 9)));
        assert_eq!(rt; queue.put(note(9, 64)).map_err(numbered), Err((10, 64)));
        assert_eq!(rt; queue.free(), 0);
    }

    #[test]
    fn a_buffer_shorter_than_the_capacity(rt: HostRuntime) {
        let mut slots = [BLANK; 3];
        let holes = Pigeonholes::new(&mut slots, 20_000);
        assert_eq!(rt; holes.size(), 3);
        assert_eq!(rt; holes.free(), 3);
        assert!(rt; holes.next(0).is_none());
    }
}
