// The state of a stream that is fed in pieces.
ghost use Rattle.std.specs.Prelude.{◌≡◌, ℕ, List, [], ◌++◌, length, drop, nat_le};
ghost use Rattle.format.specs.Format.{reading};
ghost use Rattle.semantics.specs.Figures.{apart, most_lengths, answer_to, figures as figures_of_stream};
ghost use Rattle.routine.specs.Tables.{TablesAfter};
ghost use Rattle.verifier.specs.Answers.{answer_of, cleared};
ghost use Rattle.release.specs.Counting.{meant_by};
ghost use Rattle.release.specs.Framing.{size_of};
ghost use Rattle.release.specs.Filling.{gathered};
ghost use Rattle.release.specs.Feeding.{state_of, fed, is_done, ended, read_by, cleared_all, TablesAfterAll};

use crate::figures::Figures;
use crate::framing::Begun;
use reader::Refusal;
use routine::{HEAD_CELLS, NODE_CELLS, SET_WORDS, TRACE};
use verifier::{MEMO_WORDS, Verdict, VerifyError, verify_in};

// The most lengths that are read, and the budget of each sheet.
const LENGTHS: u64 = 65535;

const BUDGET: u32 = 1000000;

// The figures of the whole sheets so far, how many these are, and what is begun behind them.
#[derive(Clone, Copy)]
pub struct Release {
    pub figures: Figures,
    pub lengths: u64,
    pub begun: Begun,
}

// The verifier's answer to a whole sheet, in lent tables. One that is too long is refused without its bytes.
fn answer_in(
    begun: Begun,
    heads: &mut [u16; HEAD_CELLS],
    nodes: &mut [u16; NODE_CELLS],
    sets: &mut [u64; SET_WORDS],
    memo: &mut [u64; MEMO_WORDS],
) -> Result<Verdict, VerifyError>
    ensures { (bytes : List ℕ) → begun ≡ gathered bytes → length bytes ≡ size_of bytes → (answer_of result ≡ answer_to (reading (drop 2 bytes))) × (memo.new ≡ cleared (reading (drop 2 bytes)) memo.old) × TablesAfter (reading (drop 2 bytes)) heads.old nodes.old sets.old heads.new nodes.new sets.new }
{
    let size = begun.size();
    if Begun::BYTES < size {
        return Err(VerifyError::Refused(Refusal::Length));
    }
    let bytes = begun.bytes;
    let mut trace = [0u8; TRACE];
    verify_in(
        &bytes[2..size],
        BUDGET,
        &mut trace,
        heads,
        nodes,
        sets,
        memo,
    )
}

impl Release {
    // The state of no bytes.
    pub fn start() -> Release
        ensures { result ≡ state_of [] }
    {
        let figures = Figures {
            valid: 0,
            invalid: 0,
            stopped: 0,
            refused: 0,
            sum: 0,
            greatest: 0,
        };
        let begun = Begun::nothing();
        Release {
            figures,
            lengths: 0,
            begun,
        }
    }

    // With a piece of the stream more, in lent tables and a lent memo, whatever they hold. These are then as the last
    // accepted sheet of the piece leaves them.
    pub fn feed(
        self,
        piece: &[u8],
        heads: &mut [u16; HEAD_CELLS],
        nodes: &mut [u16; NODE_CELLS],
        sets: &mut [u64; SET_WORDS],
        memo: &mut [u64; MEMO_WORDS],
    ) -> Release
        ensures { (result ≡ fed self piece.now) × ((stream : List ℕ) → self ≡ state_of stream → result ≡ state_of (stream ++ piece.now)) × (memo.new ≡ cleared_all (read_by self piece.now) memo.old) × TablesAfterAll (read_by self piece.now) heads.old nodes.old sets.old heads.new nodes.new sets.new }
    {
        let mut figures = self.figures;
        let mut lengths = self.lengths;
        let mut begun = self.begun.settled();
        let mut rest = piece;
        // (No range: `lengths` is asked for behind the loop too, and may be past LENGTHS from the first.)
        while lengths < LENGTHS {
            let filled = begun.fill(rest);
            begun = filled.begun;
            rest = filled.rest;
            if begun.held < begun.size() {
                let stored = begun.stored();
                return Release {
                    figures,
                    lengths,
                    begun: stored,
                };
            }
            let answer = answer_in(begun, heads, nodes, sets, memo);
            figures = figures.with_answer(answer);
            lengths = lengths + 1;
            begun = Begun::nothing();
        }
        let none = Begun::nothing();
        Release {
            figures,
            lengths,
            begun: none,
        }
    }

    // Whether nothing more is looked at.
    pub fn is_done(self) -> bool
        ensures { (result ≡ is_done self) × ((stream : List ℕ) → self ≡ state_of stream → result ≡ nat_le most_lengths (length (apart most_lengths stream).sheets)) }
    {
        LENGTHS <= self.lengths
    }

    // The figures where the stream ends: what is begun is cut then, and refused.
    pub fn end(self) -> Figures
        ensures { (result ≡ ended self) × ((stream : List ℕ) → self ≡ state_of stream → meant_by result ≡ figures_of_stream stream) }
    {
        let figures = self.figures;
        let begun = self.begun;
        if 0 < begun.held {
            return figures.with_refused();
        }
        figures
    }
}
