// A stream of sheets, each behind a 16-bit length: what is begun of the next one.
ghost use Rattle.std.specs.Prelude.{◌≡◌, ℕ, ◌+◌, ◌*◌, ◌<◌, ◌≤◌, ◌⊎◌, List, [], length};
ghost use Rattle.release.specs.Framing.{size_of, begun_of, opened};
ghost use Rattle.release.specs.Filling.{gathered, FilledTo, FilledUp};

use progression::lesser;
use reader::BYTES;

// The bytes of a length.
const LENGTH: usize = 2;

// What is begun: so many bytes of a length and its sheet, and the first of them; zeros behind. The bytes of a sheet that is
// too long are counted and not kept. (A length beside an array, since the memory is fixed and C lends both.)
#[derive(Clone, Copy)]
pub struct Begun {
    pub held: usize,
    pub bytes: [u8; Begun::BYTES],
}

// What is begun with more of a piece, and what is left of the piece.
#[derive(Clone, Copy)]
pub(crate) struct Filled<'a> {
    pub(crate) begun: Begun,
    pub(crate) rest: &'a [u8],
}

impl Begun {
    // The bytes that are kept.
    pub const BYTES: usize = LENGTH + BYTES;

    // Nothing is begun.
    pub(crate) fn nothing() -> Begun
        ensures { result ≡ gathered [] }
    {
        Begun {
            held: 0,
            bytes: [0u8; Begun::BYTES],
        }
    }

    // The bytes of the length and its sheet together. (While the length isn't whole they are more than those held.)
    pub(crate) fn size(self) -> usize
        ensures { (result ≡ size_of self.bytes) × (2 ≤ result) × (result < 65538) }
    {
        let bytes = self.bytes;
        LENGTH + (256 * bytes[0] as usize + bytes[1] as usize)
    }

    // The same as bytes leave it: no more than the length says, and zeros behind.
    pub(crate) fn settled(self) -> Begun
        ensures { result ≡ gathered (opened self) }
    {
        let size = self.size();
        let held = lesser(self.held, size);
        let kept = lesser(held, Begun::BYTES);
        let from = self.bytes;
        let mut bytes = [0u8; Begun::BYTES];
        // (Byte by byte, since the code of `copy_from_slice` is shut.)
        for i in 0..kept {
            bytes[i] = from[i];
        }
        Begun { held, bytes }
    }

    // The same as it is kept: of a sheet that is too long its length alone.
    pub(crate) fn stored(self) -> Begun
        ensures { (bytes : List ℕ) → self ≡ gathered bytes → result ≡ begun_of bytes }
    {
        if self.size() <= Begun::BYTES {
            return self;
        }
        let from = self.bytes;
        let mut bytes = [0u8; Begun::BYTES];
        bytes[0] = from[0];
        bytes[1] = from[1];
        Begun {
            held: self.held,
            bytes,
        }
    }

    // With more of a piece, until so many bytes are held or the piece ends.
    fn fill_to<'a>(self, piece: &'a [u8], goal: usize) -> Filled<'a>
        requires { goal < 65538 }
        ensures { (begun : List ℕ) → self ≡ gathered begun → FilledTo begun piece.now goal result.begun result.rest.now }
    {
        let held = self.held;
        if goal <= held {
            return Filled {
                begun: self,
                rest: piece,
            };
        }
        let more = lesser(goal - held, piece.len());
        let kept = lesser(held + more, Begun::BYTES);
        let mut bytes = self.bytes;
        // (Byte by byte, as in `settled`.)
        for i in held..kept {
            bytes[i] = piece[i - held];
        }
        let begun = Begun {
            held: held + more,
            bytes,
        };
        Filled {
            begun,
            rest: &piece[more..],
        }
    }

    // With more of a piece, until the sheet is whole or the piece ends.
    pub(crate) fn fill<'a>(self, piece: &'a [u8]) -> Filled<'a>
        ensures { (begun : List ℕ) → self ≡ gathered begun → length begun ≤ size_of begun → FilledUp begun piece.now result.begun result.rest.now }
    {
        let first = self.fill_to(piece, LENGTH);
        let begun = first.begun;
        let size = begun.size();
        begun.fill_to(first.rest, size)
    }
}
