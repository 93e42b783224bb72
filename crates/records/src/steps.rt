// The steps of a record, and the five words of each.
ghost use Rattle.std.specs.Prelude.{◌≡◌, slice_index};
ghost use Rattle.records.specs.Steps.{words_of, step_of};

use crate::layout::STEP_WORDS;
use shifts::moves::Move;

// "Kinds: 1 branch (variable, not yet fixed), 2 project, 3 extend, 4 raise (variable, amount), 5 close."
const BRANCH: u64 = 1;

const PROJECT: u64 = 2;

const EXTEND: u64 = 3;

const RAISE: u64 = 4;

const CLOSE: u64 = 5;

#[derive(Clone, Copy, Debug, PartialEq, Eq)]
pub enum Step {
    // a variable that is not yet fixed
    Branch(usize),
    Shift(Move),
    Close,
}

impl Step {
    // The step that five words spell: kind, function, variable, value, amount; "unused words are 0".
    #[tactic(auto, unfolding(crate::specs::Steps::step_of))]
    pub fn spelt(words: [u64; STEP_WORDS]) -> Option<Step>
        ensures { result ≡ step_of (slice_index words 0) (slice_index words 1) (slice_index words 2) (slice_index words 3) (slice_index words 4) }
    {
        match words {
            [BRANCH, 0, variable, 0, 0] => Some(Step::Branch(variable as usize)),
            [PROJECT, function, variable, value, amount] => Some(Step::Shift(Move::Project {
                function: function as usize,
                variable: variable as usize,
                value: value as usize,
                amount,
            })),
            [EXTEND, function, variable, value, amount] => Some(Step::Shift(Move::Extend {
                function: function as usize,
                variable: variable as usize,
                value: value as usize,
                amount,
            })),
            [RAISE, 0, variable, 0, amount] => Some(Step::Shift(Move::Raise {
                variable: variable as usize,
                amount,
            })),
            [CLOSE, 0, 0, 0, 0] => Some(Step::Close),
            _ => None,
        }
    }

    // The words that spell it.
    pub fn words(self) -> [u64; STEP_WORDS]
        ensures { result ≡ words_of self }
    {
        match self {
            Step::Branch(variable) => [BRANCH, 0, variable as u64, 0, 0],
            Step::Shift(
                Move::Project {
                    function,
                    variable,
                    value,
                    amount,
                },
            ) => [
                PROJECT,
                function as u64,
                variable as u64,
                value as u64,
                amount,
            ],
            Step::Shift(
                Move::Extend {
                    function,
                    variable,
                    value,
                    amount,
                },
            ) => [
                EXTEND,
                function as u64,
                variable as u64,
                value as u64,
                amount,
            ],
            Step::Shift(Move::Raise { variable, amount }) => {
                [RAISE, 0, variable as u64, 0, amount]
            }
            Step::Close => [CLOSE, 0, 0, 0, 0],
        }
    }
}
