ghost use Rattle.std.specs.Prelude.{◌≡◌, ◌≤◌, length, decimal, ◌∷◌, []};
ghost use Rattle.results.specs.Text.{field, line};
ghost use Rattle.results.specs.Writing.{RoomFor, Wrote};

use itoa::Buffer;

const COMMA: u8 = b',';

const LINE_END: u8 = b'\n';

// A buffer lent for writing, and how many bytes at its front are written. `write!` could fail, as far as its contract
// says; these methods always write.
#[derive(Drop)]
pub(crate) struct Writer<'a> {
    pub(crate) buffer: &'a mut [u8],
    pub(crate) count: usize,
}

impl Writer<'_> {
    // Writes a byte. It is apart from the loop over it, of which the compiler makes a call of `memcpy` otherwise: a program in C
    // would have to bring one (docs/DOOR.md).
    #[inline(never)]
    fn byte(&mut self, byte: u8)
        requires { RoomFor self.old (byte ∷ []) }
        ensures { Wrote self.old self.new (byte ∷ []) }
    {
        self.buffer[self.count] = byte;
        self.count += 1;
    }

    // Writes these bytes.
    fn push(&mut self, bytes: &[u8])
        requires { RoomFor self.old bytes.now }
        ensures { Wrote self.old self.new bytes.now }
    {
        for byte in bytes {
            self.byte(*byte);
        }
    }

    // Writes a number and the byte that ends its field.
    fn field(&mut self, n: u32, ending: u8)
        requires { RoomFor self.old (field n ending) }
        ensures { Wrote self.old self.new (field n ending) }
    {
        self.push(Buffer::new().format(n).as_bytes());
        self.byte(ending);
    }

    // Writes the line of these numbers.
    pub(crate) fn line(&mut self, numbers: &[u32])
        requires { RoomFor self.old (line numbers.now) }
        ensures { Wrote self.old self.new (line numbers.now) }
    {
        let Some((last, others)) = numbers.split_last() else {
            return;
        };
        for n in others {
            self.field(*n, COMMA);
        }
        self.field(*last, LINE_END);
    }
}

// How many decimal digits `n` has.
fn digit_count(n: u32) -> usize
    ensures value { result ≡ length (decimal n) }
    ensures bound { result ≤ 10 }
{
    Buffer::new().format(n).len()
}

// How long the line of these numbers is. A trait over counting and writing would need a law of its own, for two uses.
pub(crate) fn line_length(numbers: &[u32]) -> usize
    requires { length numbers.now ≤ 4 }
    ensures value { result ≡ length (line numbers.now) }
    ensures bound { result ≤ 44 }
{
    numbers.iter().map(|n| digit_count(*n) + 1).sum()
}
