//! The answers as C takes them: it has no `Result`, and so a number, which is not 0 where a call is refused. The crate
//! `door` answers by structs of its own, which other programs use.
ghost use Rattle.std.specs.Prelude.{◌≡◌};
ghost use Rattle.stages.specs.Answers.{verdict_of, reading_of, outcome_of};

use faults::{Fault, numbered};
use reading::Sizes;
use records::Totals;

/// What a stage answers: the number and the place of its refusal, or 0 and 0.
#[repr(C)]
#[derive(Clone, Copy, Default)]
pub struct Verdict {
    pub number: u32,
    pub place: u32,
}

/// What reading answers: its refusal, or 0 and 0 and the sizes that were read.
#[repr(C)]
#[derive(Clone, Copy, Default)]
pub struct Reading {
    pub number: u32,
    pub place: u32,
    pub parcels: u32,
    pub entries: u32,
    pub stores: u32,
}

/// What a round answers: its refusal, or 0 and 0 and its four counts.
#[repr(C)]
#[derive(Clone, Copy, Default)]
pub struct Outcome {
    pub number: u32,
    pub place: u32,
    pub pairs: u32,
    pub lone: u32,
    pub sent: u32,
    pub turns: u32,
}

impl From<Result<(), Fault>> for Verdict {
    ghost from_gives = { λ answer shown. shown ≡ verdict_of answer };

    fn from(answer: Result<(), Fault>) -> Verdict {
        match answer {
            Ok(()) => Verdict::default(),
            Err(fault) => {
                let (number, place) = numbered(fault);
                Verdict { number, place }
            }
        }
    }
}

impl From<Result<Sizes, Fault>> for Reading {
    ghost from_gives = { λ answer shown. shown ≡ reading_of answer };

    fn from(answer: Result<Sizes, Fault>) -> Reading {
        match answer {
            Ok(sizes) => Reading {
                parcels: sizes.parcels,
                entries: sizes.entries,
                stores: sizes.stores,
                ..Reading::default()
            },
            Err(fault) => {
                let (number, place) = numbered(fault);
                Reading {
                    number,
                    place,
                    ..Reading::default()
                }
            }
        }
    }
}

impl From<Result<Totals, Fault>> for Outcome {
    ghost from_gives = { λ answer shown. shown ≡ outcome_of answer };

    fn from(answer: Result<Totals, Fault>) -> Outcome {
        match answer {
            Ok(totals) => Outcome {
                pairs: totals.tally.pairs,
                lone: totals.tally.lone,
                sent: totals.sent,
                turns: totals.turns,
                ..Outcome::default()
            },
            Err(fault) => {
                let (number, place) = numbered(fault);
                Outcome {
                    number,
                    place,
                    ..Outcome::default()
                }
            }
        }
    }
}
