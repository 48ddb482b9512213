//! What C calls: the check and the pairing of a cents sheet's text, within the full limits, in memory on the stack.
//! include/wool.h declares it.
#![tactic(auto)]

ghost use Rattle.std.specs.Prelude.{◌≡◌, ℕ, length, Result, ◌≢◌};
ghost use Rattle.faults.specs.declared.Refusal.{Refusal};
ghost use Rattle.sheet_text.specs.Within.{CheckingWithin, PairingWithin};
ghost use Rattle.door.specs.Answers.{Answers, Decides, Short};

use faults::{Fault, numbered};
use reading::Sizes;
use sheet::{MOST_ENTRIES, MOST_PARCELS};
use sheet_text::{check_text, memory_for, pair_text, tables_for};

/// What pairing a text answers.
#[repr(C)]
#[derive(Clone, Copy, Default)]
pub struct Answer {
    /// How many bytes the result text has; 0 where the text is refused.
    pub written: usize,
    /// The number of the refusal; 0 where the text is paired. C has no `Result`.
    pub number: u32,
    /// The place of the refusal; 0 where the text is paired.
    pub place: u32,
}

/// What checking a text answers.
#[repr(C)]
#[derive(Clone, Copy, Default)]
pub struct Verdict {
    /// The sizes of the sheet; 0 where the text is refused.
    pub parcels: u32,
    pub entries: u32,
    pub stores: u32,
    /// The number of the refusal; 0 where the sheet passes. C has no `Result`.
    pub number: u32,
    /// The place of the refusal; 0 where the sheet passes.
    pub place: u32,
}

impl From<Result<usize, Fault>> for Answer {
    ghost from_gives = { λ answer shown. Answers shown answer };

    fn from(answer: Result<usize, Fault>) -> Answer {
        match answer {
            Ok(written) => Answer {
                written,
                ..Answer::default()
            },
            Err(fault) => {
                let (number, place) = numbered(fault);
                Answer {
                    number,
                    place,
                    ..Answer::default()
                }
            }
        }
    }
}

impl From<Result<Sizes, Fault>> for Verdict {
    ghost from_gives = { λ answer shown. Decides shown answer };

    fn from(answer: Result<Sizes, Fault>) -> Verdict {
        match answer {
            Ok(sizes) => Verdict {
                parcels: sizes.parcels,
                entries: sizes.entries,
                stores: sizes.stores,
                ..Verdict::default()
            },
            Err(fault) => {
                let (number, place) = numbered(fault);
                Verdict {
                    number,
                    place,
                    ..Verdict::default()
                }
            }
        }
    }
}

// Reads and checks the text, in tables for the most parcels and entries.
fn check_within(text: &[u8]) -> Result<Sizes, Fault>
    ensures { CheckingWithin 1024 16384 text.now result }
{
    let mut tables = tables_for!(MOST_PARCELS, MOST_ENTRIES);
    check_text(text, &mut tables)
}

// Pairs the text, in memory for the most parcels and entries.
fn pair_within(text: &[u8], out: &mut [u8]) -> Result<usize, Fault>
    ensures { PairingWithin 1024 16384 text.now out.old result out.new }
{
    let mut memory = memory_for!(MOST_PARCELS, MOST_ENTRIES);
    pair_text(text, &mut memory, out)
}

/// Reads and checks the text of a cents sheet, and answers its sizes, or why it is refused.
#[unsafe(no_mangle)]
pub extern "C" fn wool_check(text: &[u8]) -> Verdict
    ensures answer { (q : Result Sizes (Refusal × ℕ)) × Decides result q × CheckingWithin 1024 16384 text.now q }
    ensures roomy { result.number ≢ 3 }
{
    Verdict::from(check_within(text))
}

/// Pairs the text of a cents sheet in a round over a queue, and writes the result text to the front of `out`. Answers how
/// many bytes it has, or why the text is refused; a refusal leaves `out` as it was.
#[unsafe(no_mangle)]
pub extern "C" fn wool_pair(text: &[u8], out: &mut [u8]) -> Answer
    ensures answer { (q : Result ℕ (Refusal × ℕ)) × Answers result q × PairingWithin 1024 16384 text.now out.old q out.new }
    ensures short { result.number ≡ 3 → Short text.now (length out.old) }
{
    Answer::from(pair_within(text, out))
}
