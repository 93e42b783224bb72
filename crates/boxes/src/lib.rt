// Boxes of a table: a span of values for each of up to three dimensions, the last changing fastest. One code for every arity. It knows no node and no shift.
#![tactic(auto)]

ghost use Rattle.std.specs.Prelude.{true, false, ◌+◌, ◌*◌, ◌≤◌, ◌<◌, ◌≡◌, [], ◌∷◌, length};
ghost use Rattle.boxes.specs.Ties.Boxes.{InSize, Sits, spanned, sides, cells, box_on, box_least, changes};

use costs::capped::{minus_of, plus_of};

// Of `size` values those from `from` on, below `to`.
#[derive(Clone, Copy, Debug, PartialEq, Eq)]
pub struct Span {
    pub size: usize,
    pub from: usize,
    pub to: usize,
}

// A span for each of three dimensions, the last changing fastest, from a place on. A missing dimension, in front, has one value.
#[derive(Clone, Copy, Debug, PartialEq, Eq)]
pub struct Block {
    pub at: usize,
    pub outer: Span,
    pub middle: Span,
    pub inner: Span,
}

// What is done to each cost of a box: it takes the amount, or gives it. A `bool` and no enum, since `changed` and the laws of shifts speak of one; and no closure, whose
// meaning each contract would have to say beside it.
#[derive(Clone, Copy, Debug, PartialEq, Eq)]
pub struct Change {
    pub takes: bool,
    // the bound k
    pub top: u64,
    pub amount: u64,
}

impl Change {
    pub fn takes(top: u64, amount: u64) -> Change
        ensures { result ≡ record { takes = true; top = top; amount = amount } }
    {
        Change {
            takes: true,
            top,
            amount,
        }
    }

    pub fn gives(top: u64, amount: u64) -> Change
        ensures { result ≡ record { takes = false; top = top; amount = amount } }
    {
        Change {
            takes: false,
            top,
            amount,
        }
    }

    // The cost changed.
    pub fn of(self, cost: u64) -> u64
        ensures { result ≡ changes self cost }
    {
        if self.takes {
            plus_of(self.top, cost, self.amount)
        } else {
            minus_of(self.top, cost, self.amount)
        }
    }
}

// A loop for each dimension. One that goes down a list of spans would be no plainer, and would call itself in the search's inner loop.
pub fn change_one(table: &mut [u64], change: Change, at: usize)
    requires { at < length table.old }
    ensures { cells table.new ≡ box_on [] at (changes change) (cells table.old) }
{
    table[at] = change.of(table[at]);
}

#[tactic(auto, using(crate::proofs::BoxLaws::loops))]
pub fn change_row(table: &mut [u64], change: Change, at: usize, x: Span)
    requires { InSize x × (at + x.size ≤ length table.old) }
    ensures { cells table.new ≡ box_on (spanned x ∷ []) at (changes change) (cells table.old) }
{
    for v in x.from..x.to {
        change_one(table, change, at + v);
    }
}

#[tactic(auto, using(crate::proofs::BoxLaws::loops))]
fn change_plane(table: &mut [u64], change: Change, at: usize, x: Span, y: Span)
    requires { InSize x × InSize y × (at + x.size * y.size ≤ length table.old) }
    ensures { cells table.new ≡ box_on (spanned x ∷ spanned y ∷ []) at (changes change) (cells table.old) }
{
    for v in x.from..x.to {
        change_row(table, change, at + v * y.size, y);
    }
}

#[tactic(auto, using(crate::proofs::BoxLaws::loops))]
pub fn change_block(table: &mut [u64], change: Change, block: Block)
    requires { Sits block (length table.old) }
    ensures { cells table.new ≡ box_on (sides block) block.at (changes change) (cells table.old) }
{
    let stride = block.middle.size * block.inner.size;
    for v in block.outer.from..block.outer.to {
        let at = block.at + v * stride;
        change_plane(table, change, at, block.middle, block.inner);
    }
}

#[tactic(auto, using(crate::proofs::BoxLaws::loops))]
pub fn least_row(table: &[u64], top: u64, at: usize, x: Span) -> u64
    requires { InSize x × (at + x.size ≤ length table.now) }
    ensures { result ≡ box_least (spanned x ∷ []) at top (cells table.now) }
{
    let mut least = top;
    for v in x.from..x.to {
        least = least.min(table[at + v]);
    }
    least
}

#[tactic(auto, using(crate::proofs::BoxLaws::loops))]
fn least_plane(table: &[u64], top: u64, at: usize, x: Span, y: Span) -> u64
    requires { InSize x × InSize y × (at + x.size * y.size ≤ length table.now) }
    ensures { result ≡ box_least (spanned x ∷ spanned y ∷ []) at top (cells table.now) }
{
    let mut least = top;
    for v in x.from..x.to {
        least = least.min(least_row(table, top, at + v * y.size, y));
    }
    least
}

#[tactic(auto, using(crate::proofs::BoxLaws::loops))]
pub fn least_block(table: &[u64], top: u64, block: Block) -> u64
    requires { Sits block (length table.now) }
    ensures { result ≡ box_least (sides block) block.at top (cells table.now) }
{
    let stride = block.middle.size * block.inner.size;
    let mut least = top;
    for v in block.outer.from..block.outer.to {
        let at = block.at + v * stride;
        least = least.min(least_plane(table, top, at, block.middle, block.inner));
    }
    least
}
