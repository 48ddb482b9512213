//! The greedy pairing as it is defined, and the most that any pairing fetches; neither looks at the library's pairing.
ghost use Rattle.all_orders.specs.Tops.{Highest};

use crate::small::{Pair, capped};
use records::{Record, State};
use std::alloc::{AllocError, Global};
use std::array;

// The pair that stands above all others.
fn highest(pairs: &[Pair]) -> Option<Pair>
    ensures { Highest pairs.now result }
{
    pairs.iter().copied().max()
}

/// The greedy pairing: the pair that stands above all others, and then the same of the pairs that do not touch it.
pub fn greedy(heap: Global, pairs: &[Pair]) -> Result<Vec<Pair>, AllocError> {
    let mut taken = Vec::new(heap);
    let mut left = pairs.to_vec(heap)?;
    while let Some(top) = highest(left.as_slice()) {
        taken.push(top)?;
        left.retain(|pair| !pair.touches(top));
    }
    Ok(taken)
}

/// What the pairs fetch together.
pub fn cents_of(pairs: &[Pair]) -> u64 {
    pairs.iter().fold(0u64, |sum, pair| {
        sum.saturating_add(u64::from(pair.cents))
    })
}

// The most that a pairing with this pair fetches: alone, or with one that does not touch it.
fn most_with(pairs: &[Pair], first: Pair) -> u64 {
    let beside = pairs.iter().filter(|pair| !pair.touches(first));
    let second = beside.map(|pair| pair.cents).max().unwrap_or(0);
    u64::from(first.cents) + u64::from(second)
}

/// The most that any pairing of four parcels fetches: none, one pair, or two that do not touch.
pub fn most_cents(pairs: &[Pair]) -> u64 {
    let with_each = pairs.iter().map(|pair| most_with(pairs, *pair));
    with_each.max().unwrap_or(0)
}

// The parcel that `u` is paired with.
fn partner_of(taken: &[Pair], u: u32) -> Option<u32> {
    taken.iter().find_map(|pair| pair.other(u))
}

// The place of `v` in the row of `u`: how many of the parcels that `u` may be joined with are below `v`.
fn place_of(pairs: &[Pair], u: u32, v: u32) -> u32 {
    let others = pairs.iter().filter_map(|pair| pair.other(u));
    capped(others.filter(|w| *w < v).count())
}

// The record of parcel `u`, paired with just these pairs.
fn record_of(pairs: &[Pair], taken: &[Pair], u: u32) -> Record {
    match partner_of(taken, u) {
        Some(v) => Record::new(State::Paired, place_of(pairs, u, v)),
        None => Record::LONE,
    }
}

/// The records that say just these pairs of a sheet.
pub fn records_of(pairs: &[Pair], taken: &[Pair]) -> [Record; 4] {
    array::from_fn(|u| record_of(pairs, taken, u as u32))
}
