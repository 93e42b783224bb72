// How far a search has come, and what each kind of node makes of it.
ghost use Rattle.std.specs.Prelude.{◌≡◌, true, false, List, [], ◌∷◌, ◌++◌, map, ℕ, ◌+◌, ◌-◌, ◌≤◌, ◌<◌, length, get_or};
ghost use Rattle.costs.specs.Limits.{vars_most};
ghost use Rattle.shifts.specs.declared.moves.Move.{Move};
ghost use Rattle.records.specs.declared.steps.Step.TheVariants.{Branch, Shift, Close};
ghost use Rattle.engines.specs.Engines.{State, closed_at, found_at, opened_at};
ghost use Rattle.costs.specs.Range.{list_to};
ghost use Rattle.recorder.specs.Ties.Splicing.{Adds};
ghost use Rattle.engines.specs.Ties.Progressing.{nodes_most, choices, Meets, ended_progress, beginning};

use costs::limits::VARS;
use recorder::{Spot, note_branch, note_close};
use records::layout::HEADER_BYTES;
use shifts::moves::Move;

// How far the search has come. The best plan's values and the record's steps stand in lent buffers, since there is no heap: so `found` is a flag, and an `Option`
// would hold no plan; and `over` beside the counts, which are told at the end too.
#[derive(Clone, Copy, Debug, PartialEq, Eq)]
pub struct Progress {
    pub best: u64,
    pub nodes: u64,
    pub found: bool,
    pub over: bool,
    pub spot: Spot,
}

// "Best starts at k"
pub fn begin(top: u64, room: usize) -> Progress
    ensures { result ≡ beginning top room }
{
    Progress {
        best: top,
        nodes: 0,
        found: false,
        over: false,
        spot: if room < HEADER_BYTES {
            None
        } else {
            Some(HEADER_BYTES)
        },
    }
}

pub fn ended(from: Progress) -> Progress
    ensures { result ≡ ended_progress from }
{
    Progress { over: true, ..from }
}

// One more node that closes: its shifts and the close are noted, where a record is asked for.
pub fn closed(out: &mut [u8], shifts: &[Move], from: Progress, asked: bool) -> Progress
    requires { from.nodes + 1 ≤ nodes_most }
    ensures { (vars : ℕ) (values : List ℕ) (s : State) (xs : List Move) → (asked ≡ true → shifts.now ≡ xs) → Meets asked vars from values out.old s → Meets asked vars result values out.new (closed_at (map Shift xs ++ (Close ∷ [])) s) }
{
    Progress {
        nodes: from.nodes + 1,
        spot: close_noted(out, shifts, from.spot, asked),
        ..from
    }
}

fn close_noted(out: &mut [u8], shifts: &[Move], spot: Spot, asked: bool) -> Spot
    ensures { asked ≡ true → Adds out.old spot out.new result (map Shift shifts.now ++ (Close ∷ [])) }
{
    if asked {
        note_close(out, spot, shifts)
    } else {
        spot
    }
}

// One more node that is branched.
pub fn opened(out: &mut [u8], from: Progress, i: usize, asked: bool) -> Progress
    requires { from.nodes + 1 ≤ nodes_most }
    ensures { (vars : ℕ) (values : List ℕ) (s : State) → Meets asked vars from values out.old s → Meets asked vars result values out.new (opened_at [] i s) }
{
    Progress {
        nodes: from.nodes + 1,
        spot: branch_noted(out, from.spot, i, asked),
        ..from
    }
}

fn branch_noted(out: &mut [u8], spot: Spot, i: usize, asked: bool) -> Spot
    ensures { asked ≡ true → Adds out.old spot out.new result (Branch i ∷ []) }
{
    if asked {
        note_branch(out, spot, i)
    } else {
        spot
    }
}

// One more node that becomes the best: its choices are taken over. The lent buffers stand side by side: a struct of `&mut` parts would be lent on at each call.
pub fn found(
    plan: &mut [u8; VARS],
    out: &mut [u8],
    shifts: &[Move],
    node: &[u8; VARS],
    from: Progress,
    vars: usize,
    cost: u64,
    asked: bool,
) -> Progress
    requires { (from.nodes + 1 ≤ nodes_most) × (vars ≤ vars_most) × (length plan.old ≡ vars_most) }
    ensures { (length plan.new ≡ vars_most) × ((s : State) (xs : List Move) → (asked ≡ true → shifts.now ≡ xs) → Meets asked vars from plan.old out.old s → Meets asked vars result plan.new out.new (found_at (list_to vars (choices node.now)) cost (map Shift xs ++ (Close ∷ [])) s)) }
{
    take_choices(plan, node, vars);
    Progress {
        best: cost,
        nodes: from.nodes + 1,
        found: true,
        spot: close_noted(out, shifts, from.spot, asked),
        ..from
    }
}

fn take_choices(plan: &mut [u8; VARS], node: &[u8; VARS], vars: usize)
    requires { (vars ≤ vars_most) × (length plan.old ≡ vars_most) }
    ensures { (length plan.new ≡ vars_most) × ((v : ℕ) → v < vars → get_or plan.new v 0 ≡ choices node.now v) }
{
    for v in 0..vars {
        plan[v] = node[v].saturating_sub(1);
    }
}
