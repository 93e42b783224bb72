// Running sums of a plan's costs.
ghost use Rattle.std.specs.Prelude.{◌≡◌};
ghost use Rattle.prices.specs.Ties.Sums.{named_at, begun_with, added_to};

use crate::breaks::Break;
use costs::capped::plus_of;

// What the costs so far come to, and where they broke.
#[derive(Clone, Copy, Debug, PartialEq, Eq)]
pub struct Sum {
    pub price: u64,
    pub broke: Break,
}

pub fn begun(top: u64, constant: u64) -> Sum
    ensures { result ≡ begun_with top constant }
{
    let price = plus_of(top, 0, constant);
    Sum {
        price,
        broke: named(top, price, Break::Constant),
    }
}

// ⊕ the cost of one more part. A sum that has reached the bound broke before it.
pub fn added(top: u64, sum: Sum, cost: u64, part: Break) -> Sum
    ensures { result ≡ added_to top sum cost part }
{
    let before = sum.price;
    let price = plus_of(top, before, cost);
    let broke = if top <= before {
        sum.broke
    } else {
        named(top, price, part)
    };
    Sum { price, broke }
}

// The part, where the sum with its cost reaches the bound.
fn named(top: u64, price: u64, part: Break) -> Break
    ensures { result ≡ named_at top price part }
{
    if top <= price { part } else { Break::Nowhere }
}
