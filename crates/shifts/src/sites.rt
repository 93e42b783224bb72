// A node of a judged network: what of a table is live there, as spans and blocks.
ghost use Rattle.std.specs.Prelude.{ℕ, ◌+◌, ◌≤◌, ◌<◌, ◌≡◌, true, false, IfOk, IfErr, get_or};
ghost use Rattle.answers.specs.declared.Refusal.TheVariants.{Illegal};
ghost use Rattle.costs.specs.Limits.{vars_most, size_most};
ghost use Rattle.costs.specs.Networks.{stands};
ghost use Rattle.judging.specs.Ties.Starts.{Starts};
ghost use Rattle.shifts.specs.Nodes.{live_in, fixing, node_good};
ghost use Rattle.shifts.specs.Ties.Parts.{live_span, child_span, Holds};

use crate::nodes::node_good;
use answers::Refusal;
use boxes::{Block, Span};
use costs::limits::VARS;
use judging::judged::Judged;

// It holds lent parts, and nobody compares two.
#[derive(Clone, Copy)]
pub struct Site<'a> {
    pub judged: &'a Judged<'a>,
    // where each variable's unary stretch begins
    pub firsts: &'a [usize; VARS],
    // 0 where a variable is free, v + 1 where it is fixed to v
    pub node: &'a [u8; VARS],
    pub ghost first: { Starts judged.now.network.now firsts.now },
    pub ghost legal: { (v : ℕ) → v < judged.now.network.now.vars → get_or node.now v 0 ≤ get_or judged.now.network.now.sizes v 0 },
}

impl<'a> Site<'a> {
    // The site of a node, where it is legal.
    pub fn new(
        judged: &'a Judged<'a>,
        firsts: &'a [usize; VARS],
        node: &'a [u8; VARS],
    ) -> Result<Site<'a>, Refusal>
        requires { Starts judged.now.network.now firsts.now }
        ensures ok { IfOk result (λ site. (site.judged.now ≡ judged.now) × (site.node.now ≡ node.now) × (node_good judged.now.network.now.vars judged.now.network.now.sizes node.now ≡ true)) }
        ensures lent { IfOk result (λ site. site.firsts.now ≡ firsts.now) }
        ensures err { IfErr result (λ refusal. (refusal ≡ Illegal) × (node_good judged.now.network.now.vars judged.now.network.now.sizes node.now ≡ false)) }
    {
        if !node_good(judged.network, node) {
            return Err(Refusal::Illegal);
        }
        Ok(Site {
            judged,
            firsts,
            node,
        })
    }

    // The live values of variable v.
    pub fn span(self, v: usize) -> Span
        requires { v < vars_most }
        ensures { result ≡ live_span self.entry.judged.now.network.now.sizes self.entry.node.now v }
    {
        live_span(&self.judged.network.sizes, self.node, v)
    }

    // The same at the node below this one that fixes i to a.
    fn child_span(self, i: usize, a: usize, v: usize) -> Span
        requires { (v < vars_most) × (a < size_most) }
        ensures { result ≡ child_span self.entry.judged.now.network.now.sizes self.entry.node.now i a v }
    {
        if v == i {
            return Span {
                size: self.judged.network.size(v),
                from: a,
                to: a + 1,
            };
        }
        self.span(v)
    }

    // The tuples of function f that are live with value a at variable i.
    pub fn block(self, f: usize, i: usize, a: usize) -> Block
        requires { (f < self.judged.now.network.now.functions) × (i < self.judged.now.network.now.vars) × (a < get_or self.judged.now.network.now.sizes i 0) }
        ensures { Holds (stands self.entry.judged.now.network.now) (fixing (live_in self.entry.judged.now.network.now.sizes self.entry.node.now) i a) (self.entry.judged.now.network.now.vars + f) result }
    {
        let net = self.judged.network;
        let at = net.start(f);
        let scope = net.scope(f);
        let first = self.child_span(i, a, usize::from(scope[0]));
        let second = self.child_span(i, a, usize::from(scope[1]));
        if scope.len() == 2 {
            return Block {
                at,
                outer: MISSING,
                middle: first,
                inner: second,
            };
        }
        let third = self.child_span(i, a, usize::from(scope[2]));
        Block {
            at,
            outer: first,
            middle: second,
            inner: third,
        }
    }
}

// A dimension that a function of two variables lacks.
const MISSING: Span = Span {
    size: 1,
    from: 0,
    to: 1,
};

// The live values of variable v.
pub fn live_span(sizes: &[u8; VARS], node: &[u8; VARS], v: usize) -> Span
    requires { v < vars_most }
    ensures { result ≡ live_span sizes.now node.now v }
{
    let size = usize::from(sizes[v]);
    let to = usize::from(node[v]);
    if to == 0 {
        return Span {
            size,
            from: 0,
            to: size,
        };
    }
    Span {
        size,
        from: to - 1,
        to,
    }
}
