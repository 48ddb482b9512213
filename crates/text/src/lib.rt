//! A text is read by lines, a line by fields, and a field as a number. What is handed out is a part of the text.
#![tactic(auto)]

ghost use Rattle.std.specs.Prelude.{◌≤◌, length};

mod decimal;
mod reader;

pub use decimal::{number, worked_out};
pub use reader::numbers;

/// A part of a text: its bytes, the place in the text at which they begin, from 0, and the number of its line, from 1.
#[derive(Clone, Copy, Debug, PartialEq, Eq)]
pub struct Part<'a> {
    pub bytes: &'a [u8],
    pub place: usize,
    pub line: usize,
}

/// Hands out the lines of a text one by one.
#[derive(Clone, Copy)]
pub struct Lines<'a> {
    text: &'a [u8],
    // where the next line begins
    pos: usize,
    // how many lines were handed out
    number: usize,
    ghost within: { pos ≤ length text.now },
    ghost counted: { number ≤ pos },
}

/// Hands out the fields of a line one by one.
#[derive(Clone, Copy)]
pub struct Fields<'a> {
    // what follows the last comma that was passed; none past the last field
    rest: Option<Part<'a>>,
}
