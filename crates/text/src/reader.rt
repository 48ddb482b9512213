ghost use Rattle.std.specs.Prelude.{◌≡◌, ℕ, ◌<◌, List, [], length, take, Some, None, Decides, slice_index};
ghost use Rattle.std.specs.Iterator.{at_most};
ghost use Rattle.text.specs.Parts.{Free, left, LineTaken, NextField, unread};
ghost use Rattle.text.specs.Rows.{Values, OnlyValues};

use super::{Fields, Lines, Part, number};

// Where the first such byte stands.
fn find(bytes: &[u8], byte: u8) -> Option<usize>
    ensures { elim result [ Some i ↦ (i < length bytes.now) × (slice_index bytes.now i ≡ byte) × Free byte (take i bytes.now) | None ↦ Free byte bytes.now ] }
{
    bytes.iter().position(|b| *b == byte)
}

impl<'a> Lines<'a> {
    /// The lines of the text, from its first.
    pub fn new(text: &'a [u8]) -> Lines<'a>
        ensures all { left result ≡ text.now }
        ensures place { result.pos ≡ 0 }
        ensures number { result.number ≡ 0 }
    {
        Lines {
            text,
            pos: 0,
            number: 0,
        }
    }

    /// Whether every byte of the text belongs to a line that was handed out.
    pub fn is_at_end(&self) -> bool
        ensures { Decides result (left self.now ≡ []) }
    {
        self.pos == self.text.len()
    }
}

impl<'a> Iterator for Lines<'a> {
    type Item = Part<'a>;

    ghost next_gives = { LineTaken };

    ghost remaining = { λ lines. at_most (length (left lines)) };

    /// The next line, without the byte 10 that ends it; none where no byte 10 is left.
    fn next(&mut self) -> Option<Part<'a>> {
        let rest = &self.text[self.pos..];
        let end = find(rest, b'\n')?;
        let line = Part {
            bytes: &rest[..end],
            place: self.pos,
            line: self.number + 1,
        };
        self.pos += end + 1;
        self.number += 1;
        Some(line)
    }
}

impl<'a> Fields<'a> {
    /// The fields of the line, from its first.
    pub fn new(line: Part<'a>) -> Fields<'a>
        ensures { result.rest ≡ Some line.entry }
    {
        Fields { rest: Some(line) }
    }
}

impl<'a> Iterator for Fields<'a> {
    type Item = Part<'a>;

    ghost next_gives = { λ was field is. NextField was.rest field is.rest };

    ghost remaining = { λ fields. at_most (unread fields.rest) };

    /// The next field; none past the last one. An empty line has one field, which is empty.
    fn next(&mut self) -> Option<Part<'a>> {
        let part = self.rest?;
        match find(part.bytes, b',') {
            Some(end) => {
                self.rest = Some(Part {
                    bytes: &part.bytes[end + 1..],
                    place: part.place.saturating_add(end + 1),
                    ..part
                });
                Some(Part {
                    bytes: &part.bytes[..end],
                    ..part
                })
            }
            None => {
                self.rest = None;
                Some(part)
            }
        }
    }
}

/// The numbers of a line that has just `N` fields, each a number; none where it has not.
pub fn numbers<const N: usize>(line: Part<'_>) -> Option<[u32; N]>
    ensures { elim result [ Some vs ↦ (length vs ≡ N) × OnlyValues vs line.entry.bytes.now | None ↦ ((vs : List ℕ) → length vs ≡ N → Values vs line.entry.bytes.now → ⊥) ] }
{
    let mut fields = Fields::new(line);
    let mut values = [0; N];
    for value in &mut values {
        let field = fields.next()?;
        *value = number(field.bytes)?;
    }
    fields.next().is_none().then_some(values)
}
