// The domain sizes.
ghost use Rattle.std.specs.Prelude.{◌≡◌, ◌≤◌};
ghost use Rattle.costs.specs.Limits.{vars_most, entries_most};
ghost use Rattle.tokens.specs.Tokens.{text_of};
ghost use Rattle.tokens.specs.Ties.Outcomes.{num_is};
ghost use Rattle.headings.specs.Domains.{size, domains};
ghost use Rattle.headings.specs.Ties.Outcomes.{domains_is};

use answers::Refusal;
use costs::limits::{ENTRIES, SIZE, VARS};
use tokens::numbers::{Seen, number_in};

// How many entries the unary stretches have, and the position after the sizes.
#[derive(Clone, Copy, Debug, PartialEq, Eq)]
pub struct Unary {
    pub entries: usize,
    pub next: usize,
}

pub fn read_domains(
    sizes: &mut [u8; VARS],
    text: &[u8],
    at: usize,
    vars: usize,
    greatest: u64,
) -> Result<Unary, Refusal>
    requires { vars ≤ vars_most }
    ensures { domains_is result sizes.new ≡ domains greatest vars 0 0 0 sizes.old (text_of text.now) at }
{
    let mut largest: u64 = 0;
    let mut entries: u64 = 0;
    let mut next = at;
    for v in 0..vars {
        let d = read_size(text, next, greatest, vars - 1 - v, largest, entries)?;
        sizes[v] = d.value as u8;
        largest = largest.max(d.value);
        entries += d.value;
        next = d.next;
    }
    Ok(Unary {
        entries: entries as usize,
        next,
    })
}

// One size, with so many after it.
#[tactic(auto, unfolding(crate::specs::Domains::size, tokens::specs::Steps::and_then, tokens::specs::Steps::demand))]
fn read_size(
    text: &[u8],
    at: usize,
    greatest: u64,
    left: usize,
    largest: u64,
    entries: u64,
) -> Result<Seen, Refusal>
    requires { entries ≤ entries_most }
    ensures { num_is result ≡ size greatest left largest entries (text_of text.now) at }
{
    let d = number_in(text, at, 1, SIZE as u64)?;
    if 0 < left {
        return Ok(d);
    }
    if (ENTRIES as u64) < entries + d.value {
        return Err(Refusal::OutOfRange(d.place));
    }
    if largest.max(d.value) != greatest {
        return Err(Refusal::Unfitting(d.place));
    }
    Ok(d)
}
