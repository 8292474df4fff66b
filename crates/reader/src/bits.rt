// The packed sheet's bytes, and its fields.
ghost use Rattle.std.specs.Prelude.{◌≡◌, ℕ, List, ◌+◌, ◌-◌, ◌*◌, ◌/◌, ◌%◌, ◌^◌, ◌≤◌, ◌<◌, length};
ghost use Rattle.format.specs.Bits.{bit_at, bits_at};
ghost use Rattle.format.specs.Format.{most_bytes, field};
ghost use Rattle.reader.specs.Answers.{answer_of, found, packed};

use crate::limits::BYTES;
use crate::refusal::{Parsed, Refusal};
use std::marker::Model;

// Bytes that are few enough for a sheet. A clause sees them as their list.
#[derive(Drop)]
pub struct Packed<'a> {
    bytes: &'a [u8],
}

impl<'a> Model for Packed<'a> {
    ghost Value = { List ℕ };

    ghost view = { λ packed. packed.bytes.now };

    ghost invariant = { λ packed. length packed.bytes.now ≤ most_bytes };
}

impl<'a> Packed<'a> {
    pub fn new(bytes: &'a [u8]) -> Result<Packed<'a>, Refusal>
        ensures { answer_of result ≡ packed bytes.now }
    {
        if BYTES < bytes.len() {
            return Err(Refusal::Length);
        }
        Ok(Packed { bytes })
    }

    // The bytes, which are few enough.
    pub(crate) fn bytes(&self) -> &'a [u8]
        ensures value { result.now ≡ self.now }
        ensures few { length self.now ≤ most_bytes }
    {
        self.bytes
    }

    // The position behind the last bit.
    pub(crate) fn end(&self) -> usize
        ensures { result ≡ 8 * length self.now }
    {
        let bytes = self.bytes;
        8 * bytes.len()
    }

    // The 16 bits from byte i on, where those past the last byte are 0.
    fn window(&self, i: usize) -> usize
        requires { i < length self.now }
        ensures { (q : ℕ) → q < 16 → result / 2 ^ (15 - q) % 2 ≡ bit_at self.now (8 * i + q) }
    {
        let bytes = self.bytes;
        let high = bytes[i] as usize * 256;
        if i + 1 < bytes.len() {
            return high + bytes[i + 1] as usize;
        }
        high
    }

    // The number whose k bits stand at a position: they are among the 16 bits of two bytes.
    pub(crate) fn bits(&self, at: usize, k: usize) -> usize
        requires { (1 ≤ k) × (k ≤ 8) × (at + k ≤ 8 * length self.now) }
        ensures { result ≡ bits_at self.now at k }
    {
        ((self.window(at / 8) << (at % 8)) % 65536) >> (16 - k)
    }

    // A field of k bits.
    pub(crate) fn field(&self, at: usize, k: usize) -> Parsed<usize>
        requires { (1 ≤ k) × (k ≤ 8) }
        ensures { found result ≡ field k self.now at }
    {
        let end = self.end();
        if end < k {
            return Err(Refusal::Cut);
        }
        if end - k < at {
            return Err(Refusal::Cut);
        }
        Ok((self.bits(at, k), at + k))
    }
}
