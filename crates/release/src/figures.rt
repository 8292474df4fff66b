// Six figures, and an answer counted into them.
ghost use Rattle.std.specs.Prelude.{◌≡◌};
ghost use Rattle.semantics.specs.Figures.{figure_numbers};
ghost use Rattle.verifier.specs.Answers.{answer_of};
ghost use Rattle.release.specs.Counting.{meant_by, counted_one, with_cut};

use verifier::{Verdict, VerifyError};

// How many were valid, invalid, stopped and refused, the sum of their counts, and the greatest length among the invalid.
#[derive(Clone, Copy)]
pub struct Figures {
    pub valid: u64,
    pub invalid: u64,
    pub stopped: u64,
    pub refused: u64,
    pub sum: u64,
    pub greatest: u64,
}

impl Figures {
    // How many figures there are.
    pub const NUMBERS: usize = 6;

    // The figures in the order in which they are printed.
    pub fn numbers(self) -> [u64; Figures::NUMBERS]
        ensures { result ≡ figure_numbers (meant_by self) }
    {
        [
            self.valid,
            self.invalid,
            self.stopped,
            self.refused,
            self.sum,
            self.greatest,
        ]
    }

    // With one refused more.
    pub(crate) fn with_refused(self) -> Figures
        ensures { result ≡ with_cut 1 self }
    {
        let mut after = self;
        after.refused = self.refused.wrapping_add(1);
        after
    }

    // With one answer more. (Figures that no stream has may be at their limit, from which they start anew.)
    pub(crate) fn with_answer(self, answer: Result<Verdict, VerifyError>) -> Figures
        ensures { result ≡ counted_one self (answer_of answer) }
    {
        let mut after = self;
        match answer {
            Ok(Verdict::Valid(c)) => {
                after.valid = self.valid.wrapping_add(1);
                after.sum = self.sum.wrapping_add(c as u64);
                after
            }
            Ok(Verdict::Invalid(c, l)) => {
                after.invalid = self.invalid.wrapping_add(1);
                after.sum = self.sum.wrapping_add(c as u64);
                if after.greatest < l as u64 {
                    after.greatest = l as u64;
                }
                after
            }
            Ok(Verdict::Stopped(b)) => {
                after.stopped = self.stopped.wrapping_add(1);
                after.sum = self.sum.wrapping_add(b as u64);
                after
            }
            Err(error) => self.with_refused(),
        }
    }
}
