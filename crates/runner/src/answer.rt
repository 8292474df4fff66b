// What "Next" and "Report" answer.
ghost use Rattle.std.specs.Prelude.{◌≡◌};
ghost use Rattle.runner.specs.Answers.{rejection_number};

// Why "Next" or a report is refused, with document 01's number.
#[derive(Clone, Copy)]
pub enum Rejection {
    // The record isn't one that loading and accepted reports make.
    BadRecord = 31,
    // The routine is at its end.
    AtEnd = 32,
    // The action has no such reply.
    NoSuchReply = 33,
    // The reply is true in no state still possible.
    NotPossible = 34,
}

// The action to do; or that the routine is at its end, and whether the goal holds.
#[derive(Clone, Copy)]
pub enum Told {
    Act(usize),
    End(bool),
}

impl From<Rejection> for u8 {
    ghost from_gives = { λ rejection n. n ≡ rejection_number rejection };

    fn from(rejection: Rejection) -> u8 {
        rejection as u8
    }
}
