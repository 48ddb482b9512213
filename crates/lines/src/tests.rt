//! The two kinds of line beside each other.
ghost use Rattle.chains.specs.declared.End.TheVariants.{Front, Back};
ghost use Rattle.chains.specs.Stores.{PutAt};

use crate::{BLANK, Pigeonholes, Queue};
use faults::Fault;
use line::{Kind, Line, Note};

// the order of each kind, proved with its end by name

fn put_in_queue(queue: &mut Queue, note: Note) -> Result<(), Fault>
    ensures { PutAt Back result note queue.old.pool queue.new.pool }
{
    queue.put(note)
}

fn put_in_pigeonholes(holes: &mut Pigeonholes, note: Note) -> Result<(), Fault>
    ensures { PutAt Front result note holes.old.pool holes.new.pool }
{
    holes.put(note)
}

fn bid(sender: u32) -> Note {
    Note {
        sender,
        addressee: 9,
        store: 5,
        kind: u8::from(Kind::Bid),
    }
}

#[test]
fn each_kind_keeps_its_order(rt: HostRuntime) {
    let mut slots = [BLANK; 2];
    let mut queue = Queue::new(&mut slots, 2);
    let mut slots = [BLANK; 2];
    let mut holes = Pigeonholes::new(&mut slots, 2);
    for sender in 1..3 {
        assert!(rt; put_in_queue(&mut queue, bid(sender)).is_ok());
        assert!(rt; put_in_pigeonholes(&mut holes, bid(sender)).is_ok());
    }
    assert_eq!(rt; queue.take(5).map(|note| note.sender), Some(1));
    assert_eq!(rt; holes.take(5).map(|note| note.sender), Some(2));
}
