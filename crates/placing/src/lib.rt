// Where a function's costs belong in the draft of a network: in the constant, in a variable's unary stretch, or in a stretch of their own. It
// knows no text, so whatever reads functions can place them by it.
#![tactic(auto)]

ghost use Rattle.std.specs.Prelude.{◌≡◌, [], ◌∷◌, ℕ, ◌+◌, ◌*◌, ◌≤◌, ◌<◌, length, get_or, take, drop};
ghost use Rattle.costs.specs.Limits.{vars_most, size_most, functions_most, arity_most, entries_most};
ghost use Rattle.stretches.specs.Ties.Small.{Ranged};
ghost use Rattle.placing.specs.Drafts.{sums, unary_start, row_set, put};

use costs::capped::plus_of;
use costs::limits::{ENTRIES, ROW, ROWS, VARS};
use costs::networks::Network;

// The sheet that a network is drafted on: what functions have given it so far. It is moved and lent, never copied or compared: the table is 32 KB.
#[derive(Drop)]
pub struct Sheet {
    pub network: Network,
    // E so far
    pub entries: usize,
    // the costs of these entries, and room for more
    pub table: [u64; ENTRIES],
    pub ghost ranged: { Ranged network.vars network.sizes },
    pub ghost unary: { unary_start network.sizes network.vars ≤ entries },
    pub ghost few: { entries ≤ entries_most },
    // what its type says; a caller of `&mut` methods knows it by this alone
    pub ghost long: { length table ≡ entries_most },
}

impl Sheet {
    ghost use Rattle.placing.specs.Ties.Sheets.{drafted, numbered};

    // Arity 0: into the constant.
    pub fn put_constant(&mut self, cost: u64)
        ensures placed { drafted self.new ≡ put (drafted self.old) [] (cost ∷ []) }
        ensures table_stays { self.new.table ≡ self.old.table }
    {
        self.network.constant = plus_of(self.network.top, self.network.constant, cost);
    }

    // Arity 1: into the variable's unary stretch, which alone is lent on.
    pub fn put_unary(&mut self, x: usize, cells: &[u64])
        requires { (x < self.old.network.vars) × (get_or self.old.network.sizes x 0 ≤ length cells.now) }
        ensures { drafted self.new ≡ put (drafted self.old) (x ∷ []) cells.now }
    {
        let start = unary_start(&self.network.sizes, x);
        let end = start + self.network.size(x);
        add_costs(&mut self.table[start..end], cells, self.network.top);
    }

    // Arity 2 and 3: a row, and a start where the entries so far end. The caller has filled the stretch of so many entries from there on.
    pub fn put_function(&mut self, scope: &[u8], many: usize)
        requires { (self.old.network.functions < functions_most) × (length scope.now ≤ arity_most) × (self.old.entries + many ≤ entries_most) }
        ensures placed { drafted self.new ≡ numbered (drafted self.old) scope.now (take many (drop self.old.entries self.old.table)) }
        ensures table_stays { self.new.table ≡ self.old.table }
    {
        let f = self.network.functions;
        put_row(&mut self.network.scopes, f, scope);
        self.network.starts[f] = self.entries;
        self.network.functions = f + 1;
        self.entries += many;
    }
}

// Where a variable's unary stretch begins.
fn unary_start(sizes: &[u8; VARS], x: usize) -> usize
    requires { (x ≤ vars_most) × ((v : ℕ) → get_or sizes.now v 0 ≤ size_most) }
    ensures { (result ≡ unary_start sizes.now x) × (result ≤ x * size_most) }
{
    let mut start: usize = 0;
    for v in 0..x {
        start += usize::from(sizes[v]);
    }
    start
}

// Costs ⊕-added to a stretch, one by one; by index, since a proof knows nothing of what is written through `iter_mut`.
fn add_costs(stretch: &mut [u64], cells: &[u64], top: u64)
    requires { length stretch.old ≤ length cells.now }
    ensures { stretch.new ≡ sums top stretch.old cells.now }
{
    for i in 0..stretch.len() {
        stretch[i] = plus_of(top, stretch[i], cells[i]);
    }
}

// A function's row: its arity, then its variables.
fn put_row(scopes: &mut [u8; ROWS], f: usize, scope: &[u8])
    requires { (f < functions_most) × (length scope.now ≤ arity_most) }
    ensures { scopes.new ≡ row_set scopes.old f scope.now }
{
    let at = f * ROW;
    scopes[at] = scope.len() as u8;
    scopes[at + 1] = variable_in(scope, 0);
    scopes[at + 2] = variable_in(scope, 1);
    scopes[at + 3] = variable_in(scope, 2);
}

// A scope's variable, 0 past its arity.
fn variable_in(scope: &[u8], j: usize) -> u8
    ensures { result ≡ get_or scope.now j 0 }
{
    scope.get(j).copied().unwrap_or(0)
}
