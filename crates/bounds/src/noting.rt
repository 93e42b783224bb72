// The pass at a node with its shifts noted in a lent list, for the record.
ghost use Rattle.std.specs.Prelude.{◌≡◌, true, [], ◌∷◌, ◌++◌, ◌+◌, ◌*◌, ◌≤◌, ◌<◌, length, get_or, take};
ghost use Rattle.costs.specs.Limits.{size_most};
ghost use Rattle.costs.specs.Net.{costs_of, entries};
ghost use Rattle.costs.specs.Networks.{in_row, scope_in};
ghost use Rattle.boxes.specs.Loops.{each_to};
ghost use Rattle.passes.specs.Passing.{at_value, at_scope, projections, at_variable, pass};
ghost use Rattle.shifts.specs.Ties.Sites.{net_at, lives};
ghost use Rattle.bounds.specs.Ties.Noting.{scope_notes, notes_most, raised, Leads, LeadsOn};

use costs::capped::plus_of;
use costs::limits::{ARITY, FUNCTIONS, SIZE, VARS};
use passes::passing::{project_least, raise_least};
use shifts::moves::Move;
use shifts::sites::Site;

// The most shifts that a pass makes.
pub const NOTES: usize = FUNCTIONS * ARITY * SIZE + VARS;

// One shift more.
fn note(notes: &mut [Move], count: usize, one: Move)
    requires { count + 1 ≤ length notes.old }
    ensures { take (count + 1) notes.new ≡ take count notes.old ++ (one ∷ []) }
{
    notes[count] = one;
}

// The constant after a pass, and how many shifts it made: the list is lent, since there is no heap.
#[derive(Clone, Copy, Debug, PartialEq, Eq)]
pub struct Noted {
    pub constant: u64,
    pub count: usize,
}

// "THE PASS" over costs that stand in the table, its shifts noted from the front on. `pass_over` is no twin: it asks for no room and promises the costs alone, so one
// function for both would be lent a list where no record is asked for.
pub fn pass_noting(table: &mut [u64], notes: &mut [Move], site: Site) -> Noted
    requires roomy { entries (net_at site) ≤ length table.old }
    requires notes_room { notes_most ≤ length notes.old }
    ensures { (result.count ≤ notes_most) × (costs_of result.constant table.new ≡ (pass (net_at site.entry) (lives site.entry) (costs_of site.entry.judged.now.network.now.constant table.old)).costs) × (take result.count notes.new ≡ (pass (net_at site.entry) (lives site.entry) (costs_of site.entry.judged.now.network.now.constant table.old)).shifts) }
{
    let count = note_projections(table, notes, site);
    note_raises(table, notes, site, count)
}

// "For each function by number"
fn note_projections(table: &mut [u64], notes: &mut [Move], site: Site) -> usize
    requires roomy { entries (net_at site) ≤ length table.old }
    requires notes_room { notes_most ≤ length notes.old }
    ensures { (result ≤ site.entry.judged.now.network.now.functions * scope_notes) × Leads (projections (net_at site.entry) (lives site.entry)) table.old notes.old 0 table.new notes.new result }
{
    let mut count = 0;
    for f in 0..site.judged.network.functions {
        count = note_scope(table, notes, site, f, count);
    }
    count
}

// "each variable of its scope in order"
fn note_scope(table: &mut [u64], notes: &mut [Move], site: Site, f: usize, before: usize) -> usize
    requires roomy { entries (net_at site) ≤ length table.old }
    requires known { (f < site.judged.now.network.now.functions) × (before + scope_notes ≤ length notes.old) }
    ensures { (result ≤ before + scope_notes) × Leads (at_scope (net_at site.entry) (lives site.entry) f (scope_in (in_row site.entry.judged.now.network.now.scopes f))) table.old notes.old before table.new notes.new result }
{
    let mut count = before;
    for i in site.judged.network.scope(f) {
        count = note_values(table, notes, site, f, usize::from(*i), count);
    }
    count
}

// "each live value ascending"
fn note_values(
    table: &mut [u64],
    notes: &mut [Move],
    site: Site,
    f: usize,
    i: usize,
    before: usize,
) -> usize
    requires roomy { entries (net_at site) ≤ length table.old }
    requires known { (f < site.judged.now.network.now.functions) × (i < site.judged.now.network.now.vars) × (before + size_most ≤ length notes.old) }
    ensures { (result ≤ before + size_most) × Leads (each_to (at_value (net_at site.entry) (lives site.entry) f i) (get_or site.entry.judged.now.network.now.sizes i 0)) table.old notes.old before table.new notes.new result }
{
    let x = site.span(i);
    let mut count = before;
    for a in x.from..x.to {
        count = note_value(table, notes, site, f, i, a, count);
    }
    count
}

// "project the least cost of the live tuples with that value, if above 0". The two lent lists, the site, a tuple's function, variable and value, and the count: nothing of it travels
// together elsewhere.
fn note_value(
    table: &mut [u64],
    notes: &mut [Move],
    site: Site,
    f: usize,
    i: usize,
    a: usize,
    before: usize,
) -> usize
    requires roomy { entries (net_at site) ≤ length table.old }
    requires known { (f < site.judged.now.network.now.functions) × (i < site.judged.now.network.now.vars) × (a < get_or site.judged.now.network.now.sizes i 0) × (lives site i a ≡ true) }
    requires notes_room { before + 1 ≤ length notes.old }
    ensures { (result ≤ before + 1) × Leads (at_value (net_at site.entry) (lives site.entry) f i a) table.old notes.old before table.new notes.new result }
{
    let amount = project_least(table, site, f, i, a);
    if amount == 0 {
        return before;
    }
    let one = Move::Project {
        function: f,
        variable: i,
        value: a,
        amount,
    };
    note(notes, before, one);
    before + 1
}

// "Then for each variable ascending"
fn note_raises(table: &mut [u64], notes: &mut [Move], site: Site, before: usize) -> Noted
    requires roomy { entries (net_at site) ≤ length table.old }
    requires notes_room { (before ≤ site.judged.now.network.now.functions * scope_notes) × (notes_most ≤ length notes.old) }
    ensures { (result.count ≤ notes_most) × LeadsOn (each_to (at_variable (net_at site.entry) (lives site.entry)) site.entry.judged.now.network.now.vars) site.entry.judged.now.network.now.constant table.old notes.old before result.constant table.new notes.new result.count }
{
    let net = site.judged.network;
    let mut constant = net.constant;
    let mut count = before;
    for i in 0..net.vars {
        let amount = raise_least(table, site, i);
        count = note_raise(notes, count, i, amount);
        constant = plus_of(net.top, constant, amount);
    }
    Noted { constant, count }
}

// "raise its least live unary cost, if above 0"
fn note_raise(notes: &mut [Move], before: usize, i: usize, amount: u64) -> usize
    requires { before + 1 ≤ length notes.old }
    ensures { (result ≤ before + 1) × (take result notes.new ≡ take before notes.old ++ raised i amount) }
{
    if amount == 0 {
        return before;
    }
    let one = Move::Raise {
        variable: i,
        amount,
    };
    note(notes, before, one);
    before + 1
}
