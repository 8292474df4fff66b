// Why a sheet is refused, and what a reader answers.
ghost use Rattle.std.specs.Prelude.{◌≡◌};
ghost use Rattle.reader.specs.Answers.{number_of};

// By the numbers of document 01 and, the last, of document 02.
#[derive(Clone, Copy)]
pub enum Refusal {
    Length = 1,
    Cut = 2,
    Edition = 3,
    Facts = 4,
    Replies = 5,
    FactNumber = 6,
    NewFact = 7,
    Depth = 8,
    ActionNumber = 9,
    Loop = 10,
    Nodes = 11,
    Padding = 12,
    NoStart = 13,
    NoNext = 14,
    NoReply = 15,
    NoState = 16,
}

impl From<Refusal> for u8 {
    ghost from_gives = { λ refusal number. number ≡ number_of refusal };

    fn from(refusal: Refusal) -> u8 {
        refusal as u8
    }
}

// What was read, and the position after it; or why it was refused.
pub type Parsed<T> = Result<(T, usize), Refusal>;
