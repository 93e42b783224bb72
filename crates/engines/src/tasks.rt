// What a search is to do.
ghost use Rattle.std.specs.Prelude.{◌≤◌, length};
ghost use Rattle.judging.specs.Ties.Starts.{Starts};

use costs::limits::VARS;
use judging::judged::Judged;

// A judged network with its held costs; whether a record is asked for, and the budget. It holds lent parts, and nobody compares two.
#[derive(Clone, Copy)]
pub struct Task<'a> {
    pub judged: &'a Judged<'a>,
    // where each variable's unary stretch begins
    pub firsts: &'a [usize; VARS],
    pub held: &'a [u64],
    pub asked: bool,
    pub budget: u64,
    pub ghost first: { Starts judged.now.network.now firsts.now },
    pub ghost whole: { judged.now.entries ≤ length held.now },
}
