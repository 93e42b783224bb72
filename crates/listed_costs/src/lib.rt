// Listed costs of one function: a default, and tuples with their costs.
#![tactic(auto)]

ghost use Rattle.std.specs.Prelude.{◌≡◌, map, ◌+◌, ◌*◌, ◌≤◌, length, get_or, set};
ghost use Rattle.costs.specs.Limits.{entries_most};
ghost use Rattle.tokens.specs.Tokens.{text_of};
ghost use Rattle.tokens.specs.Ties.Outcomes.{num_is, pos_is};
ghost use Rattle.stretches.specs.Sizes.{product};
ghost use Rattle.listed_costs.specs.Listed.{value, tuple, listing, settled, listed};
ghost use Rattle.listed_costs.specs.Ties.Outcomes.{tuple_is};

use answers::Refusal;
use stretches::dims::Dims;
use tokens::numbers::{Seen, any_number, number_in};

// An entry that no tuple has listed yet: no cost is so large, and the lent entries have no room for an `Option`.
const UNLISTED: u64 = u64::MAX;

// The default and at most so many tuples, into one function's entries.
#[tactic(auto, unfolding(crate::specs::Listed::listed, tokens::specs::Steps::and_then))]
pub fn read_listed(
    cells: &mut [u64],
    text: &[u8],
    at: usize,
    ds: Dims,
    top: u64,
    most: u64,
) -> Result<usize, Refusal>
    requires { length cells.old ≡ product ds.sizes.now }
    ensures { pos_is result cells.new ≡ listed top ds.entry.sizes.now most (text_of text.now) at }
{
    let default = any_number(text, at)?;
    let many = number_in(text, default.next, 0, most)?;
    cells.fill(UNLISTED);
    let next = read_tuples(cells, text, many.next, ds, top, many.value)?;
    settle(cells, top.min(default.value));
    Ok(next)
}

// Entries that no tuple listed take the default.
fn settle(cells: &mut [u64], default: u64)
    ensures { cells.new ≡ map (settled default) cells.old }
{
    for cell in cells.iter_mut() {
        if *cell == UNLISTED {
            *cell = default;
        }
    }
}

// So many tuples, each with its cost.
fn read_tuples(
    cells: &mut [u64],
    text: &[u8],
    at: usize,
    ds: Dims,
    top: u64,
    many: u64,
) -> Result<usize, Refusal>
    ensures { pos_is result cells.new ≡ listing top ds.entry.sizes.now many cells.old (text_of text.now) at }
{
    let mut next = at;
    for _ in 0..many {
        let (entry, after_values) = read_tuple(cells, text, next, ds)?;
        let cost = any_number(text, after_values)?;
        put_cell(cells, entry, top.min(cost.value));
        next = cost.next;
    }
    Ok(next)
}

// The values of one tuple: its entry, and the position after them.
fn read_tuple(cells: &[u64], text: &[u8], at: usize, ds: Dims) -> Result<(u64, usize), Refusal>
    ensures { tuple_is result ≡ tuple cells.now ds.entry.sizes.now 0 (text_of text.now) at }
{
    let mut entry: u64 = 0;
    let mut next = at;
    for (j, &d) in ds.sizes.iter().enumerate() {
        let a = read_value(cells, text, next, d, ds.sizes.len() - 1 - j, entry)?;
        entry = entry * d + a.value;
        next = a.next;
    }
    Ok((entry, next))
}

// One value below d, with so many after it, in the tuple whose earlier values lead to `before`.
#[tactic(auto, unfolding(crate::specs::Listed::value, tokens::specs::Steps::and_then, tokens::specs::Steps::demand))]
fn read_value(
    cells: &[u64],
    text: &[u8],
    at: usize,
    d: u64,
    left: usize,
    before: u64,
) -> Result<Seen, Refusal>
    requires { before * d + d ≤ entries_most }
    ensures { num_is result ≡ value cells.now d left before (text_of text.now) at }
{
    let a = any_number(text, at)?;
    if d <= a.value {
        return Err(Refusal::Unfitting(a.place));
    }
    if left == 0 && cell_at(cells, before * d + a.value) != UNLISTED {
        return Err(Refusal::ListedTwice(a.place));
    }
    Ok(a)
}

// What an entry holds; 0 past the end.
fn cell_at(cells: &[u64], index: u64) -> u64
    ensures { result ≡ get_or cells.now index 0 }
{
    cells.get(index as usize).copied().unwrap_or(0)
}

// Stores a cost in an entry; nothing past the end. By an index: of what is written through `get_mut` a proof knows no entry.
fn put_cell(cells: &mut [u64], index: u64, cost: u64)
    ensures { cells.new ≡ set cells.old index cost }
{
    let i = index as usize;
    if i < cells.len() {
        cells[i] = cost;
    }
}
