// Capped costs: ⊕ and ⊖.
ghost use Rattle.std.specs.Prelude.{◌≡◌};
ghost use Rattle.costs.specs.Cost.{plus, minus};

// a ⊕ b
pub fn plus_of(top: u64, a: u64, b: u64) -> u64
    ensures { result ≡ plus top a b }
{
    top.min(a.saturating_add(b))
}

// cost ⊖ amount
#[tactic(auto, unfolding(crate::specs::Cost::minus))]
pub fn minus_of(top: u64, cost: u64, amount: u64) -> u64
    ensures { result ≡ minus top cost amount }
{
    if top <= cost {
        top
    } else {
        cost.saturating_sub(amount)
    }
}
