// A function's scope, read, and the sizes of its variables.
#![tactic(auto)]

ghost use Rattle.std.specs.Prelude.{◌≡◌, [], ◌*◌, ◌≤◌, length, take};
ghost use Rattle.costs.specs.Limits.{size_most, arity_most, entries_most};
ghost use Rattle.costs.specs.Tests.{among};
ghost use Rattle.tokens.specs.Tokens.{text_of};
ghost use Rattle.tokens.specs.Ties.Outcomes.{num_is, pos_is};
ghost use Rattle.scopes.specs.Scopes.{scope_sizes, variable, scope};
ghost use Rattle.stretches.specs.Sizes.{product};
ghost use Rattle.stretches.specs.Ties.Small.{Ranged};

use answers::Refusal;
use costs::limits::ENTRIES;
use stretches::byte_in;
use tokens::numbers::{Seen, any_number};

// What a scope is read against: how many variables there are, their sizes, and the entries of the functions before.
// It holds a lent part, and nobody compares two.
#[derive(Clone, Copy)]
struct Domains<'a> {
    sizes: &'a [u8],
    vars: usize,
    entries: usize,
}

// The scope's variables, into as many places. The arity stands beside the places, since the promise speaks of the first so many of a longer slice.
pub fn read_scope(
    variables: &mut [u8],
    text: &[u8],
    at: usize,
    sizes: &[u8],
    vars: usize,
    entries: usize,
    arity: usize,
) -> Result<usize, Refusal>
    requires ranged { Ranged vars sizes.now }
    requires arity_le_arity_most { (arity ≤ arity_most) × (arity ≤ length variables.old) × (entries ≤ entries_most) }
    ensures { pos_is result (take arity variables.new) ≡ scope vars sizes.now entries arity [] (text_of text.now) at }
{
    let domains = Domains {
        sizes,
        vars,
        entries,
    };
    let mut many: usize = 1;
    let mut next = at;
    for j in 0..arity {
        let x = read_variable(text, next, domains, &variables[..j], many, arity - 1 - j)?;
        many *= byte_in(sizes, x.value as usize) as usize;
        variables[j] = x.value as u8;
        next = x.next;
    }
    Ok(next)
}

// One variable after others that have so many tuples, with so many after it.
#[tactic(auto, unfolding(crate::specs::Scopes::variable, tokens::specs::Steps::and_then, tokens::specs::Steps::demand))]
fn read_variable(
    text: &[u8],
    at: usize,
    domains: Domains,
    others: &[u8],
    many: usize,
    left: usize,
) -> Result<Seen, Refusal>
    requires ranged { Ranged domains.vars domains.sizes.now }
    requires tuples { (many ≤ size_most * size_most) × (many ≡ product (scope_sizes domains.sizes.now others.now)) × (domains.entries ≤ entries_most) }
    ensures { let d = domains.entry in num_is result ≡ variable d.vars d.sizes.now d.entries left others.now (text_of text.now) at }
{
    let x = any_number(text, at)?;
    if (domains.vars as u64) <= x.value || is_among(x.value, others) {
        return Err(Refusal::Unfitting(x.place));
    }
    let first = others.is_empty();
    if 0 < left || first {
        return Ok(x);
    }
    let size = byte_in(domains.sizes, x.value as usize) as usize;
    if ENTRIES < domains.entries + many * size {
        return Err(Refusal::OutOfRange(x.place));
    }
    Ok(x)
}

// Whether x is one of some variables.
fn is_among(x: u64, variables: &[u8]) -> bool
    ensures { result ≡ among x variables.now }
{
    variables.iter().any(|v| u64::from(*v) == x)
}

// The sizes of a scope's variables, into the first so many places of a longer slice.
pub fn fill_sizes(dims: &mut [u64], variables: &[u8], sizes: &[u8], arity: usize)
    requires { (arity ≤ length dims.old) × (arity ≤ length variables.now) }
    ensures { take arity dims.new ≡ scope_sizes sizes.now (take arity variables.now) }
{
    for j in 0..arity {
        dims[j] = byte_in(sizes, variables[j] as usize);
    }
}
