// The search over the tree of nodes: a recursion over the depth with a loop over the values.
#![tactic(auto)]

ghost use Rattle.std.specs.Prelude.{◌≡◌, true, ◌+◌, ◌<◌, length, set};
ghost use Rattle.costs.specs.Limits.{vars_most, size_most};
ghost use Rattle.engines.specs.Ties.Progressing.{nodes_most};
ghost use Rattle.visiting.specs.Ties.Visiting.{Enters, Looks, Visits};

use bounds::bound_at;
use costs::limits::VARS;
use engines::progress::{Progress, closed, ended, found, opened};
use engines::tasks::Task;
use shifts::moves::Move;
use shifts::sites::Site;

// The node that fixes the first `depth` variables, and all below it. The lent buffers stand side by side: a struct of `&mut` parts would be lent on at each call of the
// recursion.
pub fn visit(
    work: &mut [u64],
    notes: &mut [Move],
    out: &mut [u8],
    node: &mut [u8; VARS],
    plan: &mut [u8; VARS],
    task: Task,
    depth: usize,
    from: Progress,
) -> Progress
    requires { Enters task.judged.now task.asked node.old depth (length work.old) (length notes.old) (length plan.old) }
    ensures { (node.new ≡ node.old) × (length plan.new ≡ vars_most) × Visits task.entry.judged.now.network.now task.entry.held.now task.entry.asked task.entry.budget node.old depth from plan.old out.old result plan.new out.new }
{
    if from.over {
        return from;
    }
    if task.budget <= from.nodes {
        return ended(from);
    }
    let seen = look(work, notes, out, plan, task, node, depth, from);
    let mut next = seen.progress;
    if !seen.branched {
        return next;
    }
    let size = task.judged.network.size(depth);
    for a in 0..size {
        fix(node, depth, a);
        next = visit(work, notes, out, node, plan, task, depth + 1, next);
    }
    release(node, depth);
    next
}

// How far a look at a node leads, and whether the node is branched: both stand in either case, so a `Result` would say no more.
#[derive(Clone, Copy)]
struct Seen {
    progress: Progress,
    branched: bool,
}

// "passed. If the constant is at least best, it closes. Else, if every variable is fixed, its plan and constant become the best, and it closes. Else the lowest
// unfixed variable is branched"
// The buffers as in `visit`.
fn look(
    work: &mut [u64],
    notes: &mut [Move],
    out: &mut [u8],
    plan: &mut [u8; VARS],
    task: Task,
    node: &[u8; VARS],
    depth: usize,
    from: Progress,
) -> Seen
    requires enters { Enters task.judged.now task.asked node.now depth (length work.old) (length notes.old) (length plan.old) }
    requires nodes_lt_nodes_most { from.nodes < nodes_most }
    ensures { (length plan.new ≡ vars_most) × Looks task.entry.judged.now.network.now task.entry.held.now task.entry.asked node.now depth from plan.old out.old result plan.new out.new }
{
    let site = Site {
        judged: task.judged,
        firsts: task.firsts,
        node,
    };
    let bound = bound_at(work, notes, task.held, site, task.asked);
    if from.best <= bound.constant {
        return Seen {
            progress: closed(out, &notes[..bound.count], from, task.asked),
            branched: false,
        };
    }
    if depth == task.judged.network.vars {
        let progress = found(
            plan,
            out,
            &notes[..bound.count],
            node,
            from,
            task.judged.network.vars,
            bound.constant,
            task.asked,
        );
        return Seen {
            progress,
            branched: false,
        };
    }
    Seen {
        progress: opened(out, from, depth, task.asked),
        branched: true,
    }
}

// Variable v is fixed to a.
fn fix(node: &mut [u8; VARS], v: usize, a: usize)
    requires { (v < vars_most) × (a < size_most) }
    ensures { node.new ≡ set node.old v (a + 1) }
{
    node[v] = (a + 1) as u8;
}

fn release(node: &mut [u8; VARS], v: usize)
    requires { v < vars_most }
    ensures { node.new ≡ set node.old v 0 }
{
    node[v] = 0;
}
