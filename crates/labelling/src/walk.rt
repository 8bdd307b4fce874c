// The next node of a subtree from the number of its nodes that are labelled: a walk down from the subtree's own node.
ghost use Rattle.std.specs.Prelude.{◌≡◌, ◌+◌, ◌-◌, ◌*◌, ◌^◌, ◌<◌, ◌≤◌, ltb};
ghost use Rattle.base.specs.Limits.{max_depth};
ghost use Rattle.base.specs.Choice.{pick};
ghost use Rattle.tree.specs.Nodes.{node};
ghost use Rattle.tree.specs.Walk.{nodes_in};
ghost use Rattle.labelling.specs.Step.{next_node};

// A node of a tree.
#[derive(Clone, Copy, Debug, PartialEq, Eq)]
pub struct Node {
    pub level: u64,
    pub position: u64,
}

// The child that the walk goes to, when `left` nodes are to be passed and each child's subtree has `half`.
fn child(position: u64, left: u64, half: u64) -> u64
    requires { position < 2 ^ max_depth }
    ensures { result ≡ pick (ltb left half) (2 * position) (2 * position + 1) }
{
    if left < half {
        2 * position
    } else {
        2 * position + 1
    }
}

// The nodes to be passed in that child's subtree.
fn remaining(left: u64, half: u64) -> u64
    ensures { result ≡ pick (ltb left half) left (left - half) }
{
    if left < half { left } else { left - half }
}

impl Node {
    // The node that is labelled when `made` nodes of this one's subtree of this height are. Its callers know that one is left.
    pub fn next_below(self, height: u64, made: u64) -> Node
        requires { (self.level + height ≤ max_depth) × (self.position < 2 ^ self.level) × (made < nodes_in height) }
        ensures { node result.level result.position ≡ next_node height (node self.level self.position) made }
    {
        let mut level = self.level;
        let mut position = self.position;
        let mut left = made;
        let mut half = (1u64 << height) - 1;
        // Not a `for`: how far down the walk goes comes from what is left to pass.
        while left < 2 * half {
            position = child(position, left, half);
            left = remaining(left, half);
            level += 1;
            half /= 2;
        }
        Node { level, position }
    }
}
