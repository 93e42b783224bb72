// What a search tells at its end.
ghost use Rattle.std.specs.Prelude.{◌≡◌, true, false, ◌≤◌, ◌<◌};
ghost use Rattle.costs.specs.Limits.{vars_most};
ghost use Rattle.costs.specs.Net.{IsPlan, costs_of};
ghost use Rattle.costs.specs.Networks.{stands};
ghost use Rattle.costs.specs.Cheapest.{value_in};
ghost use Rattle.costs.specs.Range.{list_to};
ghost use Rattle.recorder.specs.Ties.Splicing.{Behind, values_of};
ghost use Rattle.engines.specs.Ties.Progressing.{cost_told, Told};
ghost use Rattle.engines.specs.Results.{planned, refused_search, finished_search};

use crate::progress::Progress;
use crate::results::Searched;
use crate::tasks::Task;
use answers::{Answer, Refusal};
use costs::limits::VARS;
use costs::plans::Plan;
use prices::prices::price_of;
use recorder::{clear_from, value_count, write_record};

// What is handed back after a search, with the record where one is asked for: refusals 11 and 12, in that order.
pub fn tell(out: &mut [u8], plan: &[u8; VARS], task: Task, done: Progress) -> Searched
    requires behind { task.asked ≡ true → Behind out.old done.spot }
    requires plan { done.over ≡ false → done.best < task.judged.now.network.now.top → IsPlan (stands task.judged.now.network.now) (value_in plan.now) }
    ensures { Told task.entry.judged.now.network.now task.entry.held.now task.entry.asked done plan.now out.old result out.new }
{
    if done.over {
        clear_from(out, 0);
        return refused(Err(Refusal::OverBudget));
    }
    let net = task.judged.network;
    let found = done.best < net.top;
    let cost = cost_of(plan, task, found);
    if !task.asked {
        clear_from(out, 0);
    } else if !write_record(out, plan, done.spot, net.vars, found, cost) {
        return refused(Err(Refusal::LongRecord));
    }
    finished(plan, net.vars, found, cost, done.nodes)
}

// "The desk and the search use the same price answer": the cost that is told is that of the plan which was found; of none it is the bound.
fn cost_of(plan: &[u8; VARS], task: Task, found: bool) -> u64
    requires plan { found ≡ true → IsPlan (stands task.judged.now.network.now) (value_in plan.now) }
    ensures { result ≡ cost_told (stands task.entry.judged.now.network.now) (costs_of task.entry.judged.now.network.now.constant task.entry.held.now) found plan.now }
{
    if found {
        price_of(task.judged, plan, task.held).price
    } else {
        task.judged.network.top
    }
}

// "Beside a refusal and its place, everything returned is zero."
pub fn refused(answer: Answer) -> Searched
    ensures { result ≡ refused_search answer }
{
    Searched {
        answer,
        cost: 0,
        plan: Plan {
            choice: [0; VARS],
            len: 0,
        },
        nodes: 0,
    }
}

fn finished(plan: &[u8; VARS], vars: usize, found: bool, cost: u64, nodes: u64) -> Searched
    requires { vars ≤ vars_most }
    ensures { result ≡ finished_search (values_of vars found plan.now) cost nodes }
{
    let count = value_count(vars, found);
    Searched {
        answer: Ok(()),
        cost,
        plan: plan_of(plan, count),
        nodes,
    }
}

// "Places past a count are 0 in a returned plan"
fn plan_of(plan: &[u8; VARS], count: usize) -> Plan
    requires { count ≤ vars_most }
    ensures { result ≡ planned (list_to count (value_in plan.now)) }
{
    let mut choice = [0; VARS];
    choice[..count].copy_from_slice(&plan[..count]);
    Plan { choice, len: count }
}
