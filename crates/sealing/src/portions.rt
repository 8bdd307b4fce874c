// How many labels a seal takes.
ghost use Rattle.std.specs.Prelude.{◌≡◌, ◌+◌, ◌^◌, ◌≤◌, ◌<◌};
ghost use Rattle.base.specs.Limits.{max_depth, max_challenges};
ghost use Rattle.tree.specs.Walk.{nodes_in};
ghost use Rattle.writing_theory.specs.Filed.{labels_anew};

// The labels of the tree, and those made anew for the openings.
pub fn all_labels(depth: u64, memory: u64, challenges: u64) -> u64
    requires { (depth ≤ max_depth) × (memory ≤ depth) × (challenges ≤ max_challenges) }
    ensures { (result ≡ nodes_in depth + labels_anew depth memory challenges) × (result < 2 ^ 50) }
{
    run::nodes(depth) + challenges * opening::nodes_anew(depth, memory)
}
