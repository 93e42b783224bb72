// What a record claims.
ghost use Rattle.std.specs.Prelude.{◌≤◌, length};
ghost use Rattle.judging.specs.Ties.Starts.{Starts};

use costs::limits::VARS;
use judging::judged::Judged;

// No plan of the network costs less than this at the held costs.
// It holds lent parts, and nobody compares two.
#[derive(Clone, Copy)]
pub struct Claimed<'a> {
    pub judged: &'a Judged<'a>,
    // where each variable's unary stretch begins
    pub firsts: &'a [usize; VARS],
    pub held: &'a [u64],
    pub cost: u64,
    pub ghost first: { Starts judged.now.network.now firsts.now },
    pub ghost whole: { judged.now.entries ≤ length held.now },
}
