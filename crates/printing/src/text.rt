// A text that is being written: words, numbers and lines, each behind what is there already.
ghost use Rattle.std.specs.Prelude.{◌≡◌, [], ◌∷◌, ◌++◌, ◌+◌, ◌*◌, ◌≤◌, ◌<◌, length, take};
ghost use Rattle.format.specs.Format.{gives};
ghost use Rattle.semantics.specs.Verdict.{invalid};
ghost use Rattle.semantics.specs.Printing.{digit as digit_of, decimal, hexadecimal, behind_space, spaced, end_line, printed_for, most_lines};
ghost use Rattle.lists.specs.Lists.{write};
ghost use Rattle.printing.specs.Lines.{Room, Appended};

use crate::LINES;

// The digit of a number below 16.
fn digit(d: u8) -> u8
    requires { d < 16 }
    ensures { result ≡ digit_of d }
{
    if d < 10 {
        return b'0' + d;
    }
    b'a' + (d - 10)
}

// Writes a number in decimal from a place on, and gives the place behind it. (No method of `Text`: there each digit would wait until
// the one before it has stored the length.)
fn put_decimal(bytes: &mut [u8; LINES], at: usize, n: u64) -> usize
    requires { at + length (decimal n) ≤ most_lines }
    ensures { (result ≡ at + length (decimal n)) × (bytes.new ≡ write bytes.old at (decimal n)) }
{
    if n < 10 {
        bytes[at] = digit(n as u8);
        return at + 1;
    }
    let last = put_decimal(bytes, at, n / 10);
    bytes[last] = digit((n % 10) as u8);
    last + 1
}

// The first `length` bytes are the text. (No heap: the memory is lent. `Appended` says besides that it stays the lent one.)
#[derive(Drop)]
pub struct Text<'a> {
    pub bytes: &'a mut [u8; LINES],
    pub length: usize,
}

impl Text<'_> {
    // Writes a byte.
    pub(crate) fn push(&mut self, byte: u8)
        requires { Room self.old (byte ∷ []) }
        ensures { Appended self.old self.new (byte ∷ []) }
    {
        self.bytes[self.length] = byte;
        self.length += 1;
    }

    // Writes a word.
    fn word(&mut self, word: &[u8])
        requires { Room self.old word.now }
        ensures { Appended self.old self.new word.now }
    {
        for byte in word {
            self.push(*byte);
        }
    }

    // Writes a number in decimal.
    fn decimal(&mut self, n: u64)
        requires { Room self.old (decimal n) }
        ensures { Appended self.old self.new (decimal n) }
    {
        self.length = put_decimal(self.bytes, self.length, n);
    }

    // Writes a number in decimal behind a space.
    fn behind_space(&mut self, n: u64)
        requires { Room self.old (behind_space n) }
        ensures { Appended self.old self.new (behind_space n) }
    {
        self.push(b' ');
        self.decimal(n);
    }

    // Writes numbers in decimal with single spaces.
    pub(crate) fn numbers(&mut self, numbers: &[u64])
        requires { Room self.old (spaced numbers.now) }
        ensures { Appended self.old self.new (spaced numbers.now) }
    {
        let [first, rest @ ..] = numbers else {
            return;
        };
        self.decimal(*first);
        for n in rest {
            self.behind_space(*n);
        }
    }

    // Writes a byte in hexadecimal.
    fn hexadecimal(&mut self, byte: u8)
        requires { Room self.old (hexadecimal (byte ∷ [])) }
        ensures { Appended self.old self.new (hexadecimal (byte ∷ [])) }
    {
        self.push(digit(byte / 16));
        self.push(digit(byte % 16));
    }

    // Writes the bytes of a trace in hexadecimal.
    fn trace(&mut self, trace: &[u8])
        requires { Room self.old (hexadecimal trace.now) }
        ensures { Appended self.old self.new (hexadecimal trace.now) }
    {
        let [first, rest @ ..] = trace else {
            return;
        };
        self.hexadecimal(*first);
        for byte in rest {
            self.push(b' ');
            self.hexadecimal(*byte);
        }
    }

    // Writes a line of a word and a number.
    pub(crate) fn line(&mut self, word: &[u8], n: u32)
        requires { Room self.old (word.now ++ behind_space n ++ end_line) }
        ensures { Appended self.old self.new (word.now ++ behind_space n ++ end_line) }
    {
        self.word(word);
        self.behind_space(n as u64);
        self.push(b'\n');
    }

    // Writes the lines of a verdict "invalid" with its trace.
    pub(crate) fn invalid(&mut self, c: u32, l: usize, trace: &[u8])
        requires { (1 + 2 * l ≤ length trace.now) × Room self.old (printed_for (gives (invalid c l)) (take (1 + 2 * l) trace.now)) }
        ensures { Appended self.old self.new (printed_for (gives (invalid c l)) (take (1 + 2 * l) trace.now)) }
    {
        self.word(b"invalid");
        self.behind_space(c as u64);
        self.behind_space(l as u64);
        self.push(b'\n');
        self.trace(&trace[..1 + 2 * l]);
        self.push(b'\n');
    }
}
