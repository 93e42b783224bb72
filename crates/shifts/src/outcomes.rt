// What a shift or a pass hands back.
ghost use Rattle.std.specs.Prelude.{◌≡◌};
ghost use Rattle.shifts.specs.Ties.Outcomes.{told};

use answers::{Answer, Refusal};

// "Beside a refusal and its place, everything returned is zero": so the constant stands beside the answer and not inside it, as `leaves` and the laws of the
// two calls say.
#[derive(Clone, Copy, Debug, PartialEq, Eq)]
pub struct Outcome {
    pub answer: Answer,
    // the constant after it, 0 beside a refusal
    pub constant: u64,
}

impl From<Result<u64, Refusal>> for Outcome {
    ghost from_gives = { λ outcome r. r ≡ told outcome };

    fn from(outcome: Result<u64, Refusal>) -> Outcome {
        match outcome {
            Ok(constant) => Outcome {
                answer: Ok(()),
                constant,
            },
            Err(refusal) => Outcome {
                answer: Err(refusal),
                constant: 0,
            },
        }
    }
}
