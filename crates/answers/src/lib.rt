// The one answer of every call: success, or one of the paper's thirteen refusals with its place.
#![tactic(auto)]

ghost use Rattle.std.specs.Prelude.{◌≡◌};
ghost use Rattle.answers.specs.Answers.{number_of, place_of, refusal_number, refusal_place};

#[derive(Clone, Copy, Debug, PartialEq, Eq)]
pub enum Refusal {
    // 1: text over 65,536 bytes
    LongText,
    // 2: token missing or not of its kind
    BadToken(usize),
    // 3: number outside its range, or E over its limit
    OutOfRange(usize),
    // 4: variable unknown or twice in a scope, value not below its size, header's greatest size wrong
    Unfitting(usize),
    // 5: tuple listed twice in one function
    ListedTwice(usize),
    // 6: text after the last function
    TextAfter(usize),
    // 7: a lent table shorter than E
    ShortTable,
    // 8: lent numbers are not a network
    NotNetwork,
    // 9: plan of another length, or a value out of range
    BadPlan(usize),
    // 10: illegal node or shift
    Illegal,
    // 11: more nodes needed than the budget
    OverBudget,
    // 12: whole record longer than the lent buffer
    LongRecord,
    // 13: record breaks a rule
    BrokenRule(usize),
}

pub type Answer = Result<(), Refusal>;

impl Refusal {
    // The paper's number of it.
    pub fn number(self) -> u64
        ensures { result ≡ refusal_number self }
    {
        match self {
            Refusal::LongText => 1,
            Refusal::BadToken(_) => 2,
            Refusal::OutOfRange(_) => 3,
            Refusal::Unfitting(_) => 4,
            Refusal::ListedTwice(_) => 5,
            Refusal::TextAfter(_) => 6,
            Refusal::ShortTable => 7,
            Refusal::NotNetwork => 8,
            Refusal::BadPlan(_) => 9,
            Refusal::Illegal => 10,
            Refusal::OverBudget => 11,
            Refusal::LongRecord => 12,
            Refusal::BrokenRule(_) => 13,
        }
    }

    // The place that comes back beside that number.
    pub fn place(self) -> usize
        ensures { result ≡ refusal_place self }
    {
        match self {
            Refusal::BadToken(at)
            | Refusal::OutOfRange(at)
            | Refusal::Unfitting(at)
            | Refusal::ListedTwice(at)
            | Refusal::TextAfter(at)
            | Refusal::BadPlan(at)
            | Refusal::BrokenRule(at) => at,
            Refusal::LongText
            | Refusal::ShortTable
            | Refusal::NotNetwork
            | Refusal::Illegal
            | Refusal::OverBudget
            | Refusal::LongRecord => 0,
        }
    }
}

// The paper's number of an answer, 0 where nothing is refused.
pub fn number(answer: Answer) -> u64
    ensures { result ≡ number_of answer }
{
    match answer {
        Ok(()) => 0,
        Err(refusal) => refusal.number(),
    }
}

// The place that comes back beside that number.
pub fn place(answer: Answer) -> usize
    ensures { result ≡ place_of answer }
{
    match answer {
        Ok(()) => 0,
        Err(refusal) => refusal.place(),
    }
}
