// Nodes: which values of each variable are live.
ghost use Rattle.std.specs.Prelude.{◌≤◌, ◌≡◌};
ghost use Rattle.costs.specs.Limits.{vars_most};
ghost use Rattle.shifts.specs.Nodes.{node_good};

use costs::limits::VARS;
use costs::networks::Network;

// "A node fixes some variables": 0 where a variable is free, v + 1 where it is fixed to v. Places past N are ignored.
#[derive(Clone, Copy, Debug, PartialEq, Eq)]
pub struct Node {
    pub fixed: [u8; VARS],
}

// Each fixed value is below its variable's size.
pub fn node_good(net: &Network, node: &[u8; VARS]) -> bool
    requires { net.now.vars ≤ vars_most }
    ensures { result ≡ node_good net.now.vars net.now.sizes node.now }
{
    for v in 0..net.vars {
        if net.sizes[v] < node[v] {
            return false;
        }
    }
    true
}
