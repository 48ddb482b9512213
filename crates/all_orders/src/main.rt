//! Pairs every sheet of four parcels with keys 0 to 2: outright, in rounds over both kinds of line, with the parcels laid
//! out in the stores in several ways and the calls made in several orders. Holds each pairing against the definition, and
//! prints what was counted.
#![tactic(auto)]

mod counts;
mod definition;
mod orders;
mod small;
mod trial;

use counts::Counts;
use small::SHEETS;
use std::io;
use trial::{LAYOUTS, ORDERS, try_sheet};

// What was counted, by name.
fn facts(counts: &Counts) -> [(&'static str, u64); 16] {
    [
        ("sheets", u64::from(counts.sheets.0)),
        ("layouts of stores", LAYOUTS.len() as u64),
        ("orders of calls", ORDERS.len() as u64),
        ("outright pairings", u64::from(counts.outright.0)),
        ("rounds", u64::from(counts.rounds.0)),
        ("pairs", u64::from(counts.pairs.0)),
        ("lone parcels", u64::from(counts.lone.0)),
        ("cents", counts.cents.0),
        (
            "fewest notes of a round",
            u64::from(counts.fewest.unwrap_or(0)),
        ),
        ("most notes of a round", u64::from(counts.most)),
        ("closes refused before the end", u64::from(counts.closes.0)),
        (
            "starts refused of started parcels",
            u64::from(counts.starts.0),
        ),
        ("refused", u64::from(counts.refused.0)),
        ("apart", u64::from(counts.apart.0)),
        ("miscounted", u64::from(counts.miscounted.0)),
        ("worth less than half", u64::from(counts.outdone.0)),
    ]
}

fn print_facts(rt: &impl Print, counts: &Counts) -> io::Result<()> {
    for (name, count) in facts(counts) {
        println!(rt; "{name}: {count}")?;
    }
    Ok(())
}

fn main(rt: HostRuntime) -> anyhow::Result<()> {
    let mut counts = Counts::default();
    for number in 0..SHEETS {
        try_sheet(rt.alloc(), &mut counts, number)?;
    }
    print_facts(&rt, &counts)?;
    Ok(())
}
