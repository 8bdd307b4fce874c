// The finished openings behind a checkpoint.
ghost use Rattle.std.specs.Prelude.{◌≡◌, ◌≤◌};
ghost use Rattle.base.specs.Limits.{max_depth, max_challenges};
ghost use Rattle.checkpoint.specs.Openings.{is_right, openings_taken};

use base::{MAX_CHALLENGES, MAX_DEPTH, beyond};
use file_head::challenge_leaf;
use labelling::Tree;
use opening_check::right;

// Whether opening i is there whole, and is right by the edition's order.
fn is_right(tree: &Tree, root: [u8; 32], bytes: &[u8], i: u64) -> bool
    requires { (1 ≤ tree.now.depth) × (tree.now.depth ≤ max_depth) × (1 ≤ i) × (i ≤ max_challenges) }
    ensures { result ≡ is_right tree.now.edition tree.now.statement root tree.now.depth bytes.now i }
{
    let size = (32 * (tree.depth + 1)) as usize;
    let start = (i as usize - 1) * size;
    let end = start + size;
    if bytes.len() < end {
        return false;
    }
    let leaf = challenge_leaf(tree.edition, tree.depth, tree.statement, root, i);
    right(tree, leaf, root, &bytes[start..end]).is_ok()
}

// How many of the openings are taken: those that are right, up to the first that is not, t at most. None where depth or t is out of range.
#[tactic(auto, unfolding(crate::specs::Openings::openings_taken))]
pub fn right_openings(tree: &Tree, root: [u8; 32], count: u64, bytes: &[u8]) -> u64
    ensures { result ≡ openings_taken tree.now.edition tree.now.statement root tree.now.depth count bytes.now }
{
    if beyond(MAX_DEPTH, tree.depth) || beyond(MAX_CHALLENGES, count) {
        return 0;
    }
    for done in 0..count {
        if !is_right(tree, root, bytes, done + 1) {
            return done;
        }
    }
    count
}
