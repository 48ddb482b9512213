//! Reads a cents sheet from standard input, settles a round of it over a queue, and prints the result text, or why the
//! sheet is refused.
#![tactic(auto)]

ghost use Rattle.std.specs.Prelude.{◌≡◌, ◌<◌, ◌≤◌, min, length, take, Err};
ghost use Rattle.sheet_text.specs.Within.{PairingWithin};

use faults::{Fault, Refusal};
use sheet_text::{memory_for, pair_text};
use std::io;
use std::io::{Read, Write};

const MOST_BYTES: usize = 65_536;

const MOST_PARCELS: usize = 64;

const MOST_ENTRIES: usize = 512;

// The longest result text of 64 parcels is far shorter.
const MOST_RESULT: usize = 1_024;

// Fills the buffer with input, as far as that goes, and answers how many bytes there were.
fn fill<R: Read>(input: &mut R, buffer: &mut [u8]) -> io::Result<usize> {
    let mut filled = 0;
    // by hand, since `read_exact` refuses an input shorter than the buffer; and by `read_to_end` into a `Vec` the program,
    // which takes no memory as it runs, could fail for want of it
    while filled < buffer.len() {
        let count = input.read(&mut buffer[filled..])?;
        if count == 0 {
            break;
        }
        filled += count;
    }
    Ok(filled)
}

// The first `count` places of a table, or all where there are fewer.
fn front<T>(table: &[T], count: usize) -> &[T]
    ensures { result.now ≡ take (min (length table.now) count) table.now }
{
    &table[..table.len().min(count)]
}

// Pairs the text, in memory for the most parcels and entries, unless it is too long.
fn pair(text: &[u8], out: &mut [u8]) -> Result<usize, Fault>
    ensures long { 65536 < length text.now → (result ≡ Err (Refusal.Room, 0)) × (out.new ≡ out.old) }
    ensures paired { length text.now ≤ 65536 → PairingWithin 64 512 text.now out.old result out.new }
{
    if text.len() > MOST_BYTES {
        return Err((Refusal::Room, 0));
    }
    let mut memory = memory_for!(MOST_PARCELS, MOST_ENTRIES);
    pair_text(text, &mut memory, out)
}

fn main(rt: HostRuntime) -> io::Result<()> {
    let mut input = [0; MOST_BYTES + 1];
    let mut out = [0; MOST_RESULT];
    let filled = fill(&mut rt.stdin(), &mut input)?;
    match pair(front(&input, filled), &mut out) {
        Ok(count) => rt.stdout().write_all(front(&out, count)),
        Err((refusal, place)) => println!(rt; "refused,{refusal},{place}"),
    }
}
