// The shifts of cost: when each is legal, and what it moves.
ghost use Rattle.std.specs.Prelude.{◌≤◌, ◌<◌, ◌≡◌, ◌&&◌, ltb, length};
ghost use Rattle.costs.specs.Limits.{vars_most, functions_most, arity_most};
ghost use Rattle.costs.specs.Net.{entries};
ghost use Rattle.costs.specs.Networks.{in_row, scope_in};
ghost use Rattle.costs.specs.Tests.{between, among};
ghost use Rattle.shifts.specs.declared.moves.Move.TheVariants.{Project, Extend, Raise};
ghost use Rattle.shifts.specs.Moves.{joins};
ghost use Rattle.shifts.specs.Doors.{leaves, tried};
ghost use Rattle.shifts.specs.Ties.Outcomes.{told};
ghost use Rattle.shifts.specs.Ties.Sites.{net_at, lives};

use answers::Refusal;
use boxes::{Change, change_block, change_one, change_row, least_block, least_row};
use costs::capped::plus_of;
use costs::networks::Network;
use shifts::moves::Move;
use shifts::sites::Site;

// The shift is made where it is legal, and the constant after it handed back; where it is not, nothing moves.
pub fn try_shift(table: &mut [u64], site: Site, constant: u64, one: Move) -> Result<u64, Refusal>
    requires { entries (net_at site) ≤ length table.old }
    ensures { leaves (told result) table.new ≡ tried (net_at site.entry) (lives site.entry) one constant table.old }
{
    match one {
        Move::Project {
            function,
            variable,
            value,
            amount,
        } => project(table, site, constant, function, variable, value, amount),
        Move::Extend {
            function,
            variable,
            value,
            amount,
        } => extend(table, site, constant, function, variable, value, amount),
        Move::Raise { variable, amount } => raise(table, site, constant, variable, amount),
    }
}

// What a shift names goes as the case of `Move` names it.
fn project(
    table: &mut [u64],
    site: Site,
    constant: u64,
    f: usize,
    i: usize,
    a: usize,
    amount: u64,
) -> Result<u64, Refusal>
    requires { entries (net_at site) ≤ length table.old }
    ensures { leaves (told result) table.new ≡ tried (net_at site.entry) (lives site.entry) (Project f i a amount) constant table.old }
{
    if !may_exchange(site, f, i, a, amount) {
        return Err(Refusal::Illegal);
    }
    let top = site.judged.network.top;
    let block = site.block(f, i, a);
    if least_block(table, top, block) < amount {
        return Err(Refusal::Illegal);
    }
    let at = site.firsts[i] + a;
    change_block(table, Change::gives(top, amount), block);
    change_one(table, Change::takes(top, amount), at);
    Ok(constant)
}

// As `project`.
fn extend(
    table: &mut [u64],
    site: Site,
    constant: u64,
    f: usize,
    i: usize,
    a: usize,
    amount: u64,
) -> Result<u64, Refusal>
    requires { entries (net_at site) ≤ length table.old }
    ensures { leaves (told result) table.new ≡ tried (net_at site.entry) (lives site.entry) (Extend f i a amount) constant table.old }
{
    if !may_exchange(site, f, i, a, amount) {
        return Err(Refusal::Illegal);
    }
    let top = site.judged.network.top;
    let at = site.firsts[i] + a;
    if table[at] < amount {
        return Err(Refusal::Illegal);
    }
    let block = site.block(f, i, a);
    change_one(table, Change::gives(top, amount), at);
    change_block(table, Change::takes(top, amount), block);
    Ok(constant)
}

fn raise(
    table: &mut [u64],
    site: Site,
    constant: u64,
    i: usize,
    amount: u64,
) -> Result<u64, Refusal>
    requires { entries (net_at site) ≤ length table.old }
    ensures { leaves (told result) table.new ≡ tried (net_at site.entry) (lives site.entry) (Raise i amount) constant table.old }
{
    let net = site.judged.network;
    if !is_amount(net.top, amount) || net.vars <= i {
        return Err(Refusal::Illegal);
    }
    let x = site.span(i);
    let at = site.firsts[i];
    if least_row(table, net.top, at, x) < amount {
        return Err(Refusal::Illegal);
    }
    change_row(table, Change::gives(net.top, amount), at, x);
    Ok(plus_of(net.top, constant, amount))
}

// An amount, function f, variable i in its scope, and a live value of it.
fn may_exchange(site: Site, f: usize, i: usize, a: usize, amount: u64) -> bool
    ensures { result ≡ (between 1 site.entry.judged.now.network.now.top amount && joins (net_at site.entry) (lives site.entry) f i a) }
{
    let net = site.judged.network;
    if !is_amount(net.top, amount) || net.functions <= f || net.vars <= i {
        return false;
    }
    if !in_scope(net, f, i) || net.size(i) <= a {
        return false;
    }
    is_live(site, i, a)
}

// "Amounts are 1 to k"
fn is_amount(top: u64, amount: u64) -> bool
    ensures { result ≡ between 1 top amount }
{
    1 <= amount && amount <= top
}

fn in_scope(net: &Network, f: usize, i: usize) -> bool
    requires { (f < functions_most) × (in_row net.now.scopes f 0 ≤ arity_most) }
    ensures { result ≡ among i (scope_in (in_row net.now.scopes f)) }
{
    net.scope(f).iter().any(|v| usize::from(*v) == i)
}

fn is_live(site: Site, i: usize, a: usize) -> bool
    requires { i < vars_most }
    ensures { result ≡ lives site.entry i a }
{
    let x = site.span(i);
    x.from <= a && a < x.to
}
