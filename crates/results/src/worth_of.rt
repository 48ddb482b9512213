ghost use Rattle.std.specs.Prelude.{◌≡◌, if◌then◌else◌, Ok, Err};
ghost use Rattle.faults.specs.Numbers.{number};
ghost use Rattle.sheet.specs.Held.{held};
ghost use Rattle.records.specs.Right.{Refused};
ghost use Rattle.records.specs.Listed.{pairs_up, own_pair};
ghost use Rattle.results.specs.Worth.{Worth, chosen_cents};

use faults::Fault;
use ranking::Cents;
use records::Ledger;

// What parcel `u` adds to the sum: the cents of the pair that it records with a higher-numbered one, or nothing.
fn cents_of(ledger: Ledger<'_, '_, '_, Cents>, u: u32) -> u32
    ensures { result ≡ (if pairs_up (held ledger.entry.sheet.now) ledger.entry.records.now u then chosen_cents (held ledger.entry.sheet.now) ledger.entry.records.now (own_pair (held ledger.entry.sheet.now) ledger.entry.records.now u) else 0) }
{
    if ledger.partner_above(u).is_none() {
        return 0;
    }
    let at = u as usize;
    match ledger.sheet.place(at, ledger.records[at].choice) {
        Some(place) => ledger.sheet.tables().keys[place].0,
        None => 0,
    }
}

/// What the recorded pairs are worth: the cents of each once, at the entry that its lower parcel chose.
///
/// Refuses records that are not one for each parcel (12, at 0), and else the lowest parcel whose record is out of
/// range (16, at that parcel).
pub fn worth(ledger: Ledger<'_, '_, '_, Cents>) -> Result<u64, Fault>
    ensures { elim result [ Ok sum ↦ Worth (held ledger.entry.sheet.now) ledger.entry.records.now sum | Err f ↦ Refused (held ledger.entry.sheet.now) ledger.entry.records.now (number f.0) f.1 ] }
{
    ledger.try_records()?;
    let shares = (0..ledger.parcel_count()).map(|u| u64::from(cents_of(ledger, u)));
    Ok(shares.sum())
}
