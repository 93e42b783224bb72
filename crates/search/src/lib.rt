// The search and its record. This file is the room's door.
#![tactic(auto)]

ghost use Rattle.std.specs.Prelude.{◌≡◌, ℕ, ◌≤◌, length, replicate, get_or};
ghost use Rattle.costs.specs.Networks.{stands};
ghost use Rattle.engines.specs.Results.{SearchLeft, ended_left};
ghost use Rattle.search.specs.Doors.{search_leaves};
ghost use Rattle.costs.specs.Limits.{vars_most};
ghost use Rattle.visiting.specs.Ties.Visiting.{Visits, searched_in};

use bounds::noting::NOTES;
use costs::limits::VARS;
use costs::networks::Network;
use engines::progress::{Progress, begin};
use engines::results::Searched;
use engines::tasks::Task;
use engines::telling::{refused, tell};
use judging::judge;
use recorder::clear_from;
use shifts::moves::Move;
use tables::clear;
use visiting::visit;

// The cheapest plan below the bound, or that there is none; where a record is asked for, it is written into `out`. Refusals 8, 7, 11 and 12, in that order.
pub fn search(
    net: Network,
    held: &[u64],
    work: &mut [u64],
    out: &mut [u8],
    asked: bool,
    budget: u64,
) -> Searched
    ensures { (record { result = result; out = out.new } ≡ search_leaves net held.now (length work.old) (length out.old) asked budget) × ((j : ℕ) → get_or work.new j 0 ≡ 0) }
{
    match judge(&net, held, held.len().min(work.len())) {
        Ok(judged) => search_judged(
            work,
            out,
            Task {
                judged: &judged,
                firsts: &judged.firsts(),
                held,
                asked,
                budget,
            },
        ),
        Err(why) => {
            clear(work);
            clear_from(out, 0);
            refused(Err(why.into()))
        }
    }
}

// The same in a judged network: 11 and 12 are left.
fn search_judged(work: &mut [u64], out: &mut [u8], task: Task) -> Searched
    requires { (1 ≤ task.judged.now.network.now.top) × (task.judged.now.entries ≤ length work.old) }
    ensures { (record { result = result; out = out.new } ≡ ended_left (stands task.entry.judged.now.network.now) task.entry.asked (length out.old) (searched_in task.entry.judged.now.network.now task.entry.held.now task.entry.budget)) × ((j : ℕ) → get_or work.new j 0 ≡ 0) }
{
    let mut plan = [0; VARS];
    let start = begin(task.judged.network.top, out.len());
    let done = visit_root(work, out, &mut plan, task, start);
    clear(work);
    tell(out, &plan, task, done)
}

// The whole tree: the node that fixes no variable, and all below it. Notes are lent where a record is asked for alone, so a search without one lays none out.
fn visit_root(
    work: &mut [u64],
    out: &mut [u8],
    plan: &mut [u8; VARS],
    task: Task,
    start: Progress,
) -> Progress
    requires { (task.judged.now.entries ≤ length work.old) × (length plan.old ≡ vars_most) }
    ensures { (length plan.new ≡ vars_most) × Visits task.entry.judged.now.network.now task.entry.held.now task.entry.asked task.entry.budget (replicate vars_most 0) 0 start plan.old out.old result plan.new out.new }
{
    let mut node = [0; VARS];
    if task.asked {
        // Of this case all bytes are zero, and such a list is laid out quickest.
        let mut notes = [Move::Project {
            function: 0,
            variable: 0,
            value: 0,
            amount: 0,
        }; NOTES];
        return visit(work, &mut notes, out, &mut node, plan, task, 0, start);
    }
    visit(work, &mut [], out, &mut node, plan, task, 0, start)
}
