ghost use Rattle.std.specs.Prelude.{◌≡◌, ◌*◌, ◌≤◌, if◌then◌else◌, length, Ok, Err};
ghost use Rattle.std.specs.List.{flat_map};
ghost use Rattle.faults.specs.Numbers.{number};
ghost use Rattle.sheet.specs.Held.{held};
ghost use Rattle.records.specs.Listed.{lower_pairs, pairs_up, own_pair};
ghost use Rattle.results.specs.Text.{pair_line, Printed, TextRefused};
ghost use Rattle.results.specs.Writing.{RoomFor, Wrote};

use crate::writer::{Writer, line_length};
use faults::{Fault, Refusal};
use records::{Ledger, Totals};

// What parcel `u` adds to the length: the line of the pair that it records with a higher-numbered one, or nothing.
fn pair_length<K: Copy>(ledger: Ledger<'_, '_, '_, K>, u: u32) -> usize
    ensures value { result ≡ (if pairs_up (held ledger.entry.sheet.now) ledger.entry.records.now u then length (pair_line (own_pair (held ledger.entry.sheet.now) ledger.entry.records.now u)) else 0) }
    ensures bound { result ≤ 44 }
{
    ledger.partner_above(u).map_or(0, |v| line_length(&[u, v]))
}

// How long the lines of the recorded pairs are.
fn pairs_length<K: Copy>(ledger: Ledger<'_, '_, '_, K>) -> usize
    ensures value { result ≡ length (flat_map pair_line (lower_pairs (held ledger.entry.sheet.now) ledger.entry.records.now)) }
    ensures bound { result ≤ 44 * 1024 }
{
    (0..ledger.parcel_count())
        .map(|u| pair_length(ledger, u))
        .sum()
}

// Writes the lines of the recorded pairs.
fn write_pairs<K: Copy>(ledger: Ledger<'_, '_, '_, K>, text: &mut Writer<'_>)
    requires { RoomFor text.old (flat_map pair_line (lower_pairs (held ledger.sheet.now) ledger.records.now)) }
    ensures { Wrote text.old text.new (flat_map pair_line (lower_pairs (held ledger.entry.sheet.now) ledger.entry.records.now)) }
{
    for u in 0..ledger.parcel_count() {
        if let Some(v) = ledger.partner_above(u) {
            text.line(&[u, v]);
        }
    }
}

/// Writes the result text to the front of `buffer`, and answers how many bytes it has; the bytes past it stay.
///
/// The first line has the four totals, and then each recorded pair has a line with its lower and its higher parcel,
/// rising by the lower one. Numbers are decimal, parted by commas, and each line ends with byte 10.
///
/// Refuses records that are not one for each parcel (12, at 0), else the lowest parcel whose record is out of range
/// (16, at that parcel), else a buffer that is shorter than the text (3, at 0). A refusal leaves the buffer as it was.
pub fn result_text<K: Copy>(
    ledger: Ledger<'_, '_, '_, K>,
    totals: Totals,
    buffer: &mut [u8],
) -> Result<usize, Fault>
    ensures { elim result [ Ok count ↦ Printed (held ledger.entry.sheet.now) ledger.entry.records.now totals buffer.old buffer.new count | Err f ↦ TextRefused (held ledger.entry.sheet.now) ledger.entry.records.now totals (length buffer.old) (number f.0) f.1 × (buffer.new ≡ buffer.old) ] }
{
    ledger.try_records()?;
    // The text is measured first, since a refusal leaves the buffer as it was.
    let numbers = [
        totals.tally.pairs,
        totals.tally.lone,
        totals.sent,
        totals.turns,
    ];
    if buffer.len() < line_length(&numbers) + pairs_length(ledger) {
        return Err((Refusal::Room, 0));
    }
    let mut text = Writer { buffer, count: 0 };
    text.line(&numbers);
    write_pairs(ledger, &mut text);
    Ok(text.count)
}
