// The bounding pass. This file is the room's door.
#![tactic(auto)]

pub mod passing;

ghost use Rattle.std.specs.Prelude.{◌≡◌, length, IfOk, IfErr, Err};
ghost use Rattle.shifts.specs.Doors.{leaves};
ghost use Rattle.shifts.specs.Ties.Outcomes.{told};
ghost use Rattle.passes.specs.Doors.{zeros, pass_leaves};

use crate::passing::pass_over;
use answers::Refusal;
use costs::networks::Network;
use judging::judge;
use shifts::nodes::Node;
use shifts::outcomes::Outcome;
use shifts::sites::Site;
use tables::{clear, copy_in};

// The pass at a node, from the held costs into the working table: refusals 8, 7 and 10, in that order.
pub fn pass(net: Network, held: &[u64], work: &mut [u64], node: Node) -> Outcome
    ensures { leaves result work.new ≡ pass_leaves net held.now work.old node }
{
    let outcome = pass_in(&net, held, work, &node);
    if outcome.is_err() {
        clear(work);
    }
    Outcome::from(outcome)
}

// The constant after it. What a refusal leaves in the working table is for the caller to clear.
fn pass_in(net: &Network, held: &[u64], work: &mut [u64], node: &Node) -> Result<u64, Refusal>
    ensures same_length { length work.new ≡ length work.old }
    ensures ok { IfOk result (λ constant. leaves (told result) work.new ≡ pass_leaves net.now held.now work.old node.now) }
    ensures err { IfErr result (λ refusal. record { answer = Err refusal; costs = zeros } ≡ pass_leaves net.now held.now work.old node.now) }
{
    let judged = judge(net, held, held.len().min(work.len()))?;
    let firsts = judged.firsts();
    let site = Site::new(&judged, &firsts, &node.fixed)?;
    copy_in(work, held, judged.entries);
    Ok(pass_over(work, site))
}
