// The price of a plan, and where it broke. This file is the room's door.
#![tactic(auto)]

pub mod breaks;
pub mod prices;
mod sums;

ghost use Rattle.std.specs.Prelude.{◌≡◌, ◌≤◌};
ghost use Rattle.costs.specs.Limits.{vars_most};
ghost use Rattle.prices.specs.Prices.{priced};
ghost use Rattle.prices.specs.Ties.Answers.{bad_value, answered};

use crate::prices::{Priced, price_of, refused};
use answers::Refusal;
use costs::limits::VARS;
use costs::networks::Network;
use costs::plans::Plan;
use judging::judge;

// The price of a plan and where it broke: refusals 8, 7 and 9, in that order.
pub fn price(net: Network, table: &[u64], plan: Plan) -> Priced
    ensures { result ≡ priced net table.now plan }
{
    match priced(&net, table, &plan) {
        Ok(done) => done,
        Err(why) => refused(Err(why)),
    }
}

fn priced(net: &Network, table: &[u64], plan: &Plan) -> Result<Priced, Refusal>
    ensures { answered result ≡ priced net.now table.now plan.now }
{
    let judged = judge(net, table, table.len())?;
    if plan.len != net.vars {
        return Err(Refusal::BadPlan(0));
    }
    if let Some(v) = first_bad(net, &plan.choice) {
        return Err(Refusal::BadPlan(v));
    }
    Ok(price_of(&judged, &plan.choice, table))
}

// The first variable whose value is not below its size.
fn first_bad(net: &Network, choice: &[u8; VARS]) -> Option<usize>
    requires { net.now.vars ≤ vars_most }
    ensures { result ≡ bad_value net.now.vars net.now.sizes choice.now }
{
    for v in 0..net.vars {
        if net.size(v) <= usize::from(choice[v]) {
            return Some(v);
        }
    }
    None
}
