// The price of a plan.
ghost use Rattle.std.specs.Prelude.{◌≡◌, ◌≤◌, ◌+◌, ◌<◌, ℕ, length, get_or};
ghost use Rattle.costs.specs.Net.{IsPlan, entry, costs_of};
ghost use Rattle.costs.specs.Cheapest.{value_in};
ghost use Rattle.costs.specs.Networks.{stands, Scoped, in_row, scope_in};
ghost use Rattle.prices.specs.Prices.{refused_price, plan_price};
ghost use Rattle.prices.specs.Ties.Sums.{sum_in};

use crate::breaks::Break;
use crate::sums::{Sum, added, begun};
use answers::Answer;
use costs::limits::VARS;
use costs::networks::Network;
use judging::judged::Judged;

// The price answer. It is no Result: a refused one has zeros too, as `refused_nowhere` of proofs/PriceCalls.antt says of it.
#[derive(Clone, Copy, Debug, PartialEq, Eq)]
pub struct Priced {
    pub answer: Answer,
    pub price: u64,
    pub broke: Break,
}

pub fn refused(answer: Answer) -> Priced
    ensures { result ≡ refused_price answer }
{
    Priced {
        answer,
        price: 0,
        broke: Break::Nowhere,
    }
}

// The price answer of a plan whose values are in range: the one price in the code, which the desk and every search ask too.
pub fn price_of(judged: &Judged, choice: &[u8; VARS], table: &[u64]) -> Priced
    requires whole { judged.now.entries ≤ length table.now }
    requires plan { IsPlan (stands judged.now.network.now) (value_in choice.now) }
    ensures { result ≡ plan_price (stands judged.now.network.now) (costs_of judged.now.network.now.constant table.now) (value_in choice.now) }
{
    let constant = begun(judged.network.top, judged.network.constant);
    let unary = with_unary(judged, choice, table, constant);
    let whole = with_functions(judged, choice, table, unary);
    Priced {
        answer: Ok(()),
        price: whole.price,
        broke: whole.broke,
    }
}

// ⊕ the unary costs by variable.
fn with_unary(judged: &Judged, choice: &[u8; VARS], table: &[u64], before: Sum) -> Sum
    requires whole { judged.now.entries ≤ length table.now }
    requires plan { IsPlan (stands judged.now.network.now) (value_in choice.now) }
    requires before { before ≡ sum_in judged.now.network.now table.now choice.now 0 }
    ensures { result ≡ sum_in judged.now.network.now table.now choice.now judged.now.network.now.vars }
{
    let net = judged.network;
    let mut sum = before;
    let mut start = 0;
    for v in 0..net.vars {
        let value = usize::from(choice[v]);
        sum = added(net.top, sum, table[start + value], Break::Unary(v));
        start += net.size(v);
    }
    sum
}

// ⊕ the function costs by number.
fn with_functions(judged: &Judged, choice: &[u8; VARS], table: &[u64], before: Sum) -> Sum
    requires whole { judged.now.entries ≤ length table.now }
    requires plan { IsPlan (stands judged.now.network.now) (value_in choice.now) }
    requires before { before ≡ sum_in judged.now.network.now table.now choice.now judged.now.network.now.vars }
    ensures { result ≡ sum_in judged.now.network.now table.now choice.now (judged.now.network.now.vars + judged.now.network.now.functions) }
{
    let net = judged.network;
    let mut sum = before;
    for f in 0..net.functions {
        let at = net.start(f) + entry_of(net, choice, f);
        sum = added(net.top, sum, table[at], Break::Function(f));
    }
    sum
}

// The entry of a plan's tuple in function f. It asks for `Scoped` alone, as it looks at no start and no table.
fn entry_of(net: &Network, choice: &[u8; VARS], f: usize) -> usize
    requires scoped { Scoped net.now.vars net.now.functions net.now.sizes net.now.scopes × (f < net.now.functions) }
    requires values { (v : ℕ) → v < net.now.vars → get_or choice.now v 0 < get_or net.now.sizes v 0 }
    ensures { result ≡ entry (λ v. get_or net.now.sizes v 0) (value_in choice.now) (scope_in (in_row net.now.scopes f)) }
{
    let mut entry = 0;
    for &v in net.scope(f) {
        let v = usize::from(v);
        let size = net.size(v);
        let value = usize::from(choice[v]);
        entry = entry * size + value;
    }
    entry
}
