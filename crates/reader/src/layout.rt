// The header of a sheet, as a value.
ghost use Rattle.std.specs.Prelude.{◌≡◌};
ghost use Rattle.format.specs.Format.{gives, on_accepted};
ghost use Rattle.reader.specs.Answers.{answer_of, edition_of, edition_taken};

use crate::refusal::Refusal;
use states::States;

// The editions that are read; the second has a constraint (document 02).
#[derive(Clone, Copy)]
pub enum Edition {
    First = 1,
    Second = 2,
}

impl TryFrom<usize> for Edition {
    type Error = Refusal;

    ghost try_from_gives = { λ number result. on_accepted (λ edition. gives (edition_of edition)) (answer_of result) ≡ edition_taken number };

    fn try_from(number: usize) -> Result<Edition, Refusal> {
        match number {
            1 => Ok(Edition::First),
            2 => Ok(Edition::Second),
            _ => Err(Refusal::Edition),
        }
    }
}

// The edition, the number of facts, the number of actions, the states, and the position behind the header.
#[derive(Clone, Copy)]
pub struct Header {
    pub edition: Edition,
    pub facts: usize,
    pub actions: usize,
    pub space: States,
    pub at: usize,
}
