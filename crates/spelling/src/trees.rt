// Where the check stands in a record's tree: the node, and the branches above it as a stack.
ghost use Rattle.std.specs.Prelude.{◌≡◌, false, ℕ, ◌<◌, ◌≤◌, get_or};
ghost use Rattle.costs.specs.Limits.{vars_most, size_most};
ghost use Rattle.costs.specs.Networks.{sizes_of};
ghost use Rattle.records.specs.Trees.{children};
ghost use Rattle.spelling.specs.Ties.Standing.{Upright, LeadsTo, said, node_at, pending_at, root_place};

use costs::limits::VARS;
use costs::networks::Network;

// There is no heap: the branches stand in a fixed room, and `depth` says how many they are.
#[derive(Clone, Copy, Debug, PartialEq, Eq)]
pub struct Place {
    // the node: 0 where a variable is free, v + 1 where it is fixed to v
    pub fixed: [u8; VARS],
    // the variables branched above, the first branched first
    pub order: [u8; VARS],
    // how many there are
    pub depth: usize,
    // the tree is closed, and there is no node. The place is no Option in its stead: a step that is taken would hand back an Option of an Option
    pub over: bool,
    // the node has had a shift
    pub begun: bool,
    // its constant
    pub constant: u64,
}

impl Place {
    // The root of a tree.
    pub fn root(constant: u64) -> Place
        ensures { result ≡ root_place constant }
    {
        Place {
            fixed: [0; VARS],
            order: [0; VARS],
            depth: 0,
            over: false,
            begun: false,
            constant,
        }
    }

    // A free variable is branched: the next node is that of its first value.
    pub fn branched(self, net: &Network, i: usize) -> Place
        requires upright { Upright net.now.vars (sizes_of net.now.sizes) self }
        requires variable { (i < net.now.vars) × (net.now.vars ≤ vars_most) × (said self i ≡ 0) × (0 < get_or net.now.sizes i 0) }
        ensures { LeadsTo net.now.vars (sizes_of net.now.sizes) (children (node_at (sizes_of net.now.sizes) self) i (get_or net.now.sizes i 0) (pending_at (sizes_of net.now.sizes) self)) false self.constant result }
    {
        let mut next = Place {
            depth: self.depth + 1,
            over: false,
            begun: false,
            ..self
        };
        next.fixed[i] = 1;
        // `u8` has no `From<usize>`
        next.order[self.depth] = i as u8;
        next
    }

    // The node is closed: back to the last branch with a value left, and on to that value's node, which starts from the held costs.
    pub fn turned_back(self, net: &Network) -> Place
        requires upright { Upright net.now.vars (sizes_of net.now.sizes) self }
        requires few { net.now.vars ≤ vars_most }
        requires small { (v : ℕ) → v < net.now.vars → get_or net.now.sizes v 0 ≤ size_most }
        ensures { LeadsTo net.now.vars (sizes_of net.now.sizes) (pending_at (sizes_of net.now.sizes) self) false net.now.constant result }
    {
        let mut fixed = self.fixed;
        for level in (0..self.depth).rev() {
            let i = usize::from(self.order[level]);
            if usize::from(fixed[i]) < net.size(i) {
                fixed[i] += 1;
                return Place {
                    fixed,
                    depth: level + 1,
                    over: false,
                    begun: false,
                    constant: net.constant,
                    ..self
                };
            }
            fixed[i] = 0;
        }
        Place {
            fixed,
            depth: 0,
            over: true,
            begun: false,
            constant: net.constant,
            ..self
        }
    }
}
