// The judge of a network beside a table: refusals 8 and 7. Every call that is lent a network asks it first.
#![tactic(auto)]

pub mod judged;
pub mod starts;

ghost use Rattle.std.specs.Prelude.{◌≡◌, [], ◌∷◌, ℕ, ◌*◌, ◌≤◌, ◌<◌, Err, leb, get_or, IfOk};
ghost use Rattle.std.specs.List.{list_all};
ghost use Rattle.costs.specs.Limits.{vars_most, size_most, functions_most};
ghost use Rattle.costs.specs.Range.{sum_to};
ghost use Rattle.costs.specs.Networks.{in_row, Scoped};
ghost use Rattle.judging.specs.Judging.{ranges_good, sizes_good, variables_good, row_good, scopes_good, costs_good, judged, refusal_of};
ghost use Rattle.judging.specs.Ties.Stretches.{stretched};
ghost use Rattle.judging.specs.Outlined.{outlined};

use crate::judged::Judged;
use answers::Refusal;
use costs::limits::{COST, ENTRIES, FUNCTIONS, SIZE, VARS};
use costs::networks::{Network, row_at};

// Why numbers beside a table do not fit: 8, or 7.
#[derive(Clone, Copy, Debug, PartialEq, Eq)]
pub enum Unfit {
    NoNetwork,
    TooShort,
}

pub fn refusal(why: Unfit) -> Refusal
    ensures { Err result ≡ refusal_of why }
{
    match why {
        Unfit::NoNetwork => Refusal::NotNetwork,
        Unfit::TooShort => Refusal::ShortTable,
    }
}

impl From<Unfit> for Refusal {
    ghost from_gives = { λ why r. Err r ≡ refusal_of why };

    fn from(why: Unfit) -> Refusal {
        refusal(why)
    }
}

// `room` is the length of the shortest table that is lent.
pub fn judge<'a>(net: &'a Network, table: &[u64], room: usize) -> Result<Judged<'a>, Unfit>
    ensures value { outlined result ≡ judged net.now table.now room }
    ensures network { IfOk result (λ passed. passed.network.now ≡ net.now) }
{
    if !ranges_good(net) || !sizes_good(net) || !scopes_good(net) {
        return Err(Unfit::NoNetwork);
    }
    let Some(many) = stretches(net) else {
        return Err(Unfit::NoNetwork);
    };
    if ENTRIES < many || !costs_good(table, net.top, many) {
        return Err(Unfit::NoNetwork);
    }
    if room < many {
        return Err(Unfit::TooShort);
    }
    Ok(Judged {
        network: net,
        entries: many,
    })
}

fn ranges_good(net: &Network) -> bool
    ensures { result ≡ ranges_good net.now.top net.now.constant net.now.vars net.now.functions }
{
    1 <= net.top
        && net.top <= COST
        && net.constant <= net.top
        && net.vars <= VARS
        && net.functions <= FUNCTIONS
}

fn sizes_good(net: &Network) -> bool
    requires { net.now.vars ≤ vars_most }
    ensures { result ≡ sizes_good net.now.vars net.now.sizes }
{
    for v in 0..net.vars {
        let size = net.size(v);
        if size < 1 || SIZE < size {
            return false;
        }
    }
    true
}

fn scopes_good(net: &Network) -> bool
    requires { net.now.functions ≤ functions_most }
    ensures { result ≡ scopes_good net.now.vars net.now.functions net.now.scopes }
{
    for f in 0..net.functions {
        if !row_good(net, f) {
            return false;
        }
    }
    true
}

fn row_good(net: &Network, f: usize) -> bool
    requires { f < functions_most }
    ensures { result ≡ row_good net.now.vars (in_row net.now.scopes f) }
{
    let arity = row_at(&net.scopes, f, 0);
    let x = row_at(&net.scopes, f, 1);
    let y = row_at(&net.scopes, f, 2);
    let z = row_at(&net.scopes, f, 3);
    match arity {
        2 => two_good(net.vars, x, y),
        3 => three_good(net.vars, x, y, z),
        _ => false,
    }
}

fn two_good(vars: usize, x: usize, y: usize) -> bool
    ensures { result ≡ variables_good vars (x ∷ y ∷ []) }
{
    x < vars && y < vars && x != y
}

fn three_good(vars: usize, x: usize, y: usize, z: usize) -> bool
    ensures { result ≡ variables_good vars (x ∷ y ∷ z ∷ []) }
{
    two_good(vars, x, y) && two_good(vars, x, z) && y != z
}

// Each function's stretch begins where the one before it ends: then the end of the last is how many entries there are. `Scoped` is asked for, since nothing has passed yet.
fn stretches(net: &Network) -> Option<usize>
    requires { Scoped net.now.vars net.now.functions net.now.sizes net.now.scopes }
    ensures { result ≡ stretched net.now.vars net.now.functions net.now.sizes net.now.scopes net.now.starts }
{
    let mut at = unary_entries(net);
    for f in 0..net.functions {
        if net.start(f) != at {
            return None;
        }
        at += net.tuples(f);
    }
    Some(at)
}

// The entries of the unary stretches. `unary_starts` is no twin: it promises where each begins, and not how many there are in all.
fn unary_entries(net: &Network) -> usize
    requires few { net.now.vars ≤ vars_most }
    requires small { (v : ℕ) → v < net.now.vars → get_or net.now.sizes v 0 ≤ size_most }
    ensures { (result ≡ sum_to net.now.vars (λ v. get_or net.now.sizes v 0)) × (result ≤ net.now.vars * size_most) }
{
    let mut sum = 0;
    for v in 0..net.vars {
        sum += net.size(v);
    }
    sum
}

// A table shorter than E has so many costs to judge as are there.
fn costs_good(table: &[u64], top: u64, many: usize) -> bool
    ensures { result ≡ costs_good top many table.now }
{
    at_most(top, &table[..many.min(table.len())])
}

// No cost is above the bound.
fn at_most(top: u64, costs: &[u64]) -> bool
    ensures { result ≡ list_all (λ cost. leb cost top) costs.now }
{
    costs.iter().all(|cost| *cost <= top)
}
