// The shown part of a lent table: "Asked for the held or the worked costs of a function, the desk shows that stretch of the lent table itself". This file is the
// room's door.
#![tactic(auto)]

mod stretches;

ghost use Rattle.std.specs.Prelude.{◌≡◌};
ghost use Rattle.showing.specs.Showing.{shown_part, table_of};

use crate::stretches::may_show;
use costs::networks::Network;

// The held costs, or those that are worked on.
#[derive(Clone, Copy, Debug, PartialEq, Eq)]
pub enum Which {
    Held,
    Worked,
}

impl Which {
    // The table that is meant.
    fn table<'a>(self, held: &'a [u64], worked: &'a [u64]) -> &'a [u64]
        ensures { result.now ≡ table_of self held.now worked.now }
    {
        match self {
            Which::Held => held,
            Which::Worked => worked,
        }
    }
}

// The held or the worked costs of function f: that stretch of the lent table itself, or an empty part.
pub fn shown<'a>(
    net: Network,
    held: &'a [u64],
    worked: &'a [u64],
    which: Which,
    f: usize,
) -> &'a [u64]
    ensures { result.now ≡ shown_part net held.now worked.now which f }
{
    if !may_show(&net, held, worked, f) {
        return &[];
    }
    let start = net.start(f);
    let end = start + net.tuples(f);
    &which.table(held, worked)[start..end]
}
