// What the search hands back.
use answers::Answer;
use costs::plans::Plan;

// "Beside a refusal and its place, everything returned is zero": so what was found stands beside the answer and not inside it, as `refused_search` and the laws
// of the call say.
#[derive(Clone, Copy, Debug, PartialEq, Eq)]
pub struct Searched {
    pub answer: Answer,
    // the cheapest price, or k for "none"
    pub cost: u64,
    // the first of the cheapest plans; of count 0 for "none"
    pub plan: Plan,
    pub nodes: u64,
}
