ghost use Rattle.std.specs.Prelude.{◌≡◌, ℕ, ◌<◌, Some, None};
ghost use Rattle.std.specs.List.{AllByRecursion};
ghost use Rattle.text.specs.Examples.{Examples};
ghost use Rattle.text.specs.Numbers.{Digit, value, Numeral};

// The number that the bytes write, where they are digits alone and 32 bits hold it.
fn value_of(bytes: &[u8]) -> Option<u32>
    ensures { elim result [ Some v ↦ AllByRecursion Digit bytes.now × (v ≡ value bytes.now) | None ↦ AllByRecursion Digit bytes.now → 4294967295 < value bytes.now ] }
{
    let mut value: u32 = 0;
    // a loop: by `parse` reading took 1.35 times as long as plain Rust (docs/DESIGN-PASS.md), and `try_fold` is no plainer, with
    // the test and two `?` in a closure
    for b in bytes {
        if !b.is_ascii_digit() {
            return None;
        }
        value = value.checked_mul(10)?.checked_add(u32::from(*b - b'0'))?;
    }
    Some(value)
}

/// The value of a number: decimal digits with no zero in front, except 0 itself, at most 4,294,967,295. None where the bytes are no such number.
pub fn number(bytes: &[u8]) -> Option<u32>
    ensures { elim result [ Some v ↦ Numeral bytes.now v | None ↦ ((v : ℕ) → Numeral bytes.now v → ⊥) ] }
{
    match bytes {
        [] | [b'0', _, ..] => None,
        _ => value_of(bytes),
    }
}

/// Numbers and a line, worked out.
pub fn worked_out()
    ensures { Examples }
{}
