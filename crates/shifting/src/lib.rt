// Makes a shift where it is legal. This file is the room's door.
#![tactic(auto)]

pub mod moves;

ghost use Rattle.std.specs.Prelude.{◌≡◌};
ghost use Rattle.shifts.specs.Doors.{leaves, shift_leaves};
ghost use Rattle.shifts.specs.Ties.Outcomes.{told};

use crate::moves::try_shift;
use answers::Refusal;
use costs::networks::Network;
use judging::judge;
use shifts::moves::Move;
use shifts::nodes::Node;
use shifts::outcomes::Outcome;
use shifts::sites::Site;

// One shift at a node: refusals 8, 7 and 10, in that order.
pub fn shift(net: Network, table: &mut [u64], node: Node, one: Move) -> Outcome
    ensures { leaves result table.new ≡ shift_leaves net table.old node one }
{
    Outcome::from(shift_in(&net, table, &node, one))
}

// The constant after it.
fn shift_in(net: &Network, table: &mut [u64], node: &Node, one: Move) -> Result<u64, Refusal>
    ensures { leaves (told result) table.new ≡ shift_leaves net.now table.old node.now one }
{
    let judged = judge(net, table, table.len())?;
    let firsts = judged.firsts();
    let site = Site::new(&judged, &firsts, &node.fixed)?;
    try_shift(table, site, net.constant, one)
}
