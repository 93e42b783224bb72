// THE PASS at a node.
ghost use Rattle.std.specs.Prelude.{ℕ, ◌+◌, ◌≤◌, ◌<◌, ◌≡◌, true, length, get_or};
ghost use Rattle.costs.specs.Cost.{plus};
ghost use Rattle.costs.specs.Net.{costs_of, entries};
ghost use Rattle.costs.specs.Networks.{in_row, scope_in};
ghost use Rattle.boxes.specs.Loops.{each_to};
ghost use Rattle.boxes.specs.Ties.Boxes.{cells};
ghost use Rattle.shifts.specs.Nodes.{least, fixing};
ghost use Rattle.shifts.specs.Ties.Sites.{net_at, lives};
ghost use Rattle.passes.specs.Passing.{at_value, at_scope, projections, at_variable, pass};
ghost use Rattle.passes.specs.Ties.Turns.{Carries, Turns};

use boxes::{Change, change_block, change_one, change_row, least_block, least_row};
use costs::capped::plus_of;
use shifts::sites::Site;

// The pass over costs that stand in the table: what is handed back is the constant after it.
pub fn pass_over(table: &mut [u64], site: Site) -> u64
    requires { entries (net_at site) ≤ length table.old }
    ensures { costs_of result table.new ≡ (pass (net_at site.entry) (lives site.entry) (costs_of site.entry.judged.now.network.now.constant table.old)).costs }
{
    project_all(table, site);
    raise_all(table, site)
}

// "For each function by number"
fn project_all(table: &mut [u64], site: Site)
    requires { entries (net_at site) ≤ length table.old }
    ensures { Turns (projections (net_at site.entry) (lives site.entry)) table.old table.new }
{
    for f in 0..site.judged.network.functions {
        project_scope(table, site, f);
    }
}

// "each variable of its scope in order"
fn project_scope(table: &mut [u64], site: Site, f: usize)
    requires roomy { entries (net_at site) ≤ length table.old }
    requires known { f < site.judged.now.network.now.functions }
    ensures { Turns (at_scope (net_at site.entry) (lives site.entry) f (scope_in (in_row site.entry.judged.now.network.now.scopes f))) table.old table.new }
{
    for i in site.judged.network.scope(f) {
        project_values(table, site, f, usize::from(*i));
    }
}

// "each live value ascending"
fn project_values(table: &mut [u64], site: Site, f: usize, i: usize)
    requires roomy { entries (net_at site) ≤ length table.old }
    requires known { (f < site.judged.now.network.now.functions) × (i < site.judged.now.network.now.vars) }
    ensures { Turns (each_to (at_value (net_at site.entry) (lives site.entry) f i) (get_or site.entry.judged.now.network.now.sizes i 0)) table.old table.new }
{
    let x = site.span(i);
    for a in x.from..x.to {
        project_least(table, site, f, i, a);
    }
}

// "project the least cost of the live tuples with that value, if above 0": the amount is handed back.
pub fn project_least(table: &mut [u64], site: Site, f: usize, i: usize, a: usize) -> u64
    requires roomy { entries (net_at site) ≤ length table.old }
    requires known { (f < site.judged.now.network.now.functions) × (i < site.judged.now.network.now.vars) × (a < get_or site.judged.now.network.now.sizes i 0) × (lives site i a ≡ true) }
    ensures value { result ≡ least (net_at site.entry) (fixing (lives site.entry) i a) (cells table.old) (site.entry.judged.now.network.now.vars + f) }
    ensures turns { Turns (at_value (net_at site.entry) (lives site.entry) f i a) table.old table.new }
{
    let top = site.judged.network.top;
    let block = site.block(f, i, a);
    let amount = least_block(table, top, block);
    if amount > 0 {
        let at = site.firsts[i] + a;
        change_block(table, Change::gives(top, amount), block);
        change_one(table, Change::takes(top, amount), at);
    }
    amount
}

// "Then for each variable ascending": the constant after it is handed back.
fn raise_all(table: &mut [u64], site: Site) -> u64
    requires { entries (net_at site) ≤ length table.old }
    ensures { Carries (each_to (at_variable (net_at site.entry) (lives site.entry)) site.entry.judged.now.network.now.vars) site.entry.judged.now.network.now.constant table.old result table.new }
{
    let net = site.judged.network;
    let mut sum = net.constant;
    for i in 0..net.vars {
        sum = plus_of(net.top, sum, raise_least(table, site, i));
    }
    sum
}

// "raise its least live unary cost, if above 0": the amount is handed back, for the constant to take.
pub fn raise_least(table: &mut [u64], site: Site, i: usize) -> u64
    requires roomy { entries (net_at site) ≤ length table.old }
    requires known { i < site.judged.now.network.now.vars }
    ensures value { result ≡ least (net_at site.entry) (lives site.entry) (cells table.old) i }
    ensures carries { (constant : ℕ) → constant ≤ site.entry.judged.now.network.now.top → Carries (at_variable (net_at site.entry) (lives site.entry) i) constant table.old (plus site.entry.judged.now.network.now.top constant result) table.new }
{
    let top = site.judged.network.top;
    let x = site.span(i);
    let at = site.firsts[i];
    let amount = least_row(table, top, at, x);
    if amount > 0 {
        change_row(table, Change::gives(top, amount), at, x);
    }
    amount
}
