// The network's numbers, and the small readers that the rooms above share.
ghost use Rattle.std.specs.Prelude.{◌≡◌, ◌<◌, ◌≤◌, get_or};
ghost use Rattle.costs.specs.Limits.{vars_most, row_places, functions_most, arity_most};
ghost use Rattle.costs.specs.Net.{tuples};
ghost use Rattle.costs.specs.Networks.{in_row, scope_in, Scoped};

use crate::limits::{FUNCTIONS, ROW, ROWS, VARS};

// A network by value, beside a table of costs that the caller lends. Places past a count are ignored in what is given.
#[derive(Clone, Copy, Debug, PartialEq, Eq)]
pub struct Network {
    // the bound k
    pub top: u64,
    // the summed costs of arity 0
    pub constant: u64,
    // N
    pub vars: usize,
    // a domain size for each variable
    pub sizes: [u8; VARS],
    // how many functions are numbered
    pub functions: usize,
    // a row of four for each: its arity, then its variables
    pub scopes: [u8; ROWS],
    // where each function's stretch of the table begins
    pub starts: [usize; FUNCTIONS],
}

impl Network {
    // How many values variable v has.
    pub fn size(&self, v: usize) -> usize
        requires { v < vars_most }
        ensures { result ≡ get_or self.now.sizes v 0 }
    {
        usize::from(self.sizes[v])
    }

    // Where function f's stretch begins.
    pub fn start(&self, f: usize) -> usize
        requires { f < functions_most }
        ensures { result ≡ get_or self.now.starts f 0 }
    {
        self.starts[f]
    }

    // How many variables function f has.
    pub fn arity(&self, f: usize) -> usize
        requires { f < functions_most }
        ensures { result ≡ in_row self.now.scopes f 0 }
    {
        usize::from(self.scopes[f * ROW])
    }

    // Function f's variables.
    pub fn scope(&self, f: usize) -> &[u8]
        requires { (f < functions_most) × (in_row self.now.scopes f 0 ≤ arity_most) }
        ensures { result.now ≡ scope_in (in_row self.now.scopes f) }
    {
        let first = f * ROW + 1;
        &self.scopes[first..first + self.arity(f)]
    }

    // How many tuples function f has. `Scoped` is asked for and not in a type: the judge asks this before a network has passed.
    pub fn tuples(&self, f: usize) -> usize
        requires { Scoped self.now.vars self.now.functions self.now.sizes self.now.scopes × (f < self.now.functions) }
        ensures { result ≡ tuples (λ v. get_or self.now.sizes v 0) (scope_in (in_row self.now.scopes f)) }
    {
        let mut many = 1;
        for &v in self.scope(f) {
            many *= self.size(usize::from(v));
        }
        many
    }
}

// Place j of function f's row.
pub fn row_at(scopes: &[u8; ROWS], f: usize, j: usize) -> usize
    requires { (f < functions_most) × (j < row_places) }
    ensures { result ≡ in_row scopes.now f j }
{
    usize::from(scopes[f * ROW + j])
}
