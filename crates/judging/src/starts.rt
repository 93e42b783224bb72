// Where the unary stretches begin.
ghost use Rattle.std.specs.Prelude.{ℕ, ◌≤◌, ◌<◌, ◌≡◌, get_or};
ghost use Rattle.costs.specs.Limits.{vars_most, size_most};
ghost use Rattle.costs.specs.Range.{sum_to};
ghost use Rattle.judging.specs.Ties.Starts.{Starts};

use crate::judged::Judged;
use costs::limits::VARS;

// Where each variable's unary stretch begins.
pub fn unary_starts(sizes: &[u8; VARS], vars: usize) -> [usize; VARS]
    requires few { vars ≤ vars_most }
    requires small { (v : ℕ) → v < vars → get_or sizes.now v 0 ≤ size_most }
    ensures { (v : ℕ) → v < vars → get_or result v 0 ≡ sum_to v (λ w. get_or sizes.now w 0) }
{
    let mut firsts = [0; VARS];
    let mut at = 0;
    for v in 0..vars {
        firsts[v] = at;
        at += usize::from(sizes[v]);
    }
    firsts
}

impl<'a> Judged<'a> {
    // The same of a judged network. What works on costs is lent them; what prices or shows them needs none.
    pub fn firsts(&self) -> [usize; VARS]
        ensures { Starts self.now.network.now result }
    {
        unary_starts(&self.network.sizes, self.network.vars)
    }
}
