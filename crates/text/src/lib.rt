// Text in a lent buffer: ASCII and decimal numbers, byte behind byte, as many as the buffer holds. A writer keeps the buffer and the
// place of the next byte together.
// Believe: specs/Text (decimal, words, lines) and specs/Written (what the buffer holds then).
// Main laws: puts_both and puts_first (proofs/Laws/Writing), length_decimal (proofs/Laws/Decimals).
// Called by wirelist's lines and by whatever writes an OpenQASM text or a listing read from one.
#![tactic(auto)]

ghost use Rattle.std.specs.Prelude.{◌≡◌, [], ◌∷◌};
ghost use Rattle.text.specs.Text.{decimal, spaced};
ghost use Rattle.text.specs.Writer.{Writes};

const SPACE: u8 = 32;

const ZERO: usize = 48;

// What is written goes into a lent buffer, from a place on; what the buffer does not hold is lost. Each contract says that the buffer is
// still the one that was lent (`Writes`, SameText), which what holds a `&mut` has to say.
#[derive(Drop)]
pub struct Writer<'a> {
    // The buffer.
    pub text: &'a mut [u8],
    // The place of the next byte.
    pub at: usize,
}

impl<'a> Writer<'a> {
    // A writer from the start of a buffer.
    pub fn new(text: &'a mut [u8]) -> Writer<'a>
        ensures same_buffer { result.text.ghost_name ≡ text.entry.ghost_name }
        ensures contents { result.text.now ≡ text.old }
        ensures start { result.at ≡ 0 }
    {
        Writer { text, at: 0 }
    }

    // One byte.
    pub fn put_byte(&mut self, byte: u8)
        ensures { Writes self.old (byte ∷ []) self.new }
    {
        let text = &mut *self.text;
        if self.at < text.len() {
            text[self.at] = byte;
            self.at += 1;
        }
    }

    // The bytes of a slice, of which the last ones are lost.
    fn put_some(&mut self, bytes: &[u8])
        ensures { Writes self.old bytes.now self.new }
    {
        for byte in bytes {
            self.put_byte(*byte);
        }
    }

    // The bytes of a slice. Whether there is room for all of them is asked once. A loop, and inlined: most words are short constants, and
    // `copy_from_slice` calls memmove for each, which callers in C would have to link.
    #[inline(always)]
    pub fn put_bytes(&mut self, bytes: &[u8])
        ensures { Writes self.old bytes.now self.new }
    {
        let text = &mut *self.text;
        if text.len() < self.at || text.len() - self.at < bytes.len() {
            self.put_some(bytes);
            return;
        }
        let at = self.at;
        for i in 0..bytes.len() {
            text[at + i] = bytes[i];
        }
        self.at = at + bytes.len();
    }

    // A number in decimal, digit by digit and by no `write!`: what std's fmt leaves in a buffer that is too short is not known.
    fn put_digits(&mut self, n: usize)
        ensures { Writes self.old (decimal n) self.new }
    {
        if n < 10 {
            self.put_byte((ZERO + n) as u8);
            return;
        }
        self.put_digits(n / 10);
        self.put_byte((ZERO + n % 10) as u8);
    }

    // A number in decimal. Short numbers, as most are, need no recursion.
    pub fn put_decimal(&mut self, n: usize)
        ensures { Writes self.old (decimal n) self.new }
    {
        if 100 <= n {
            self.put_digits(n);
            return;
        }
        if n < 10 {
            self.put_byte((ZERO + n) as u8);
            return;
        }
        self.put_byte((ZERO + n / 10) as u8);
        self.put_byte((ZERO + n % 10) as u8);
    }

    // A space and a number.
    pub fn put_number(&mut self, n: usize)
        ensures { Writes self.old (spaced (decimal n ∷ [])) self.new }
    {
        self.put_byte(SPACE);
        self.put_decimal(n);
    }
}
