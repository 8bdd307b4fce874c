// Document 01, 'The leaves opened are those of its challenges 1 to t.'
ghost use Rattle.std.specs.Prelude.{◌≡◌, ◌-◌, ◌≤◌, length, take, drop};
ghost use Rattle.base.specs.Limits.{max_depth, max_challenges, IsEdition};
ghost use Rattle.base.specs.Bytes.{zeros};
ghost use Rattle.file_head.specs.Head.{numbers, head_of, length_from};
ghost use Rattle.draw.specs.Drawing.{leaves_from, leaves_of};

use base::{MAX_LEAVES, label_at};
use file_head::{Head, challenge_leaf};

// The leaves of challenges 1 to count, in the first of 200 places. The others are zero.
pub fn challenge_leaves(
    edition: u64,
    depth: u64,
    statement: [u8; 32],
    root: [u8; 32],
    count: u64,
) -> [u64; MAX_LEAVES]
    requires { IsEdition edition × (1 ≤ depth) × (depth ≤ max_depth) × (count ≤ max_challenges) }
    ensures result_value { take count result ≡ leaves_from edition depth statement root 1 count }
    ensures result_value_2 { drop count result ≡ zeros (max_challenges - count) }
{
    let mut leaves = [0u64; MAX_LEAVES];
    for i in 0..count {
        leaves[i as usize] = challenge_leaf(edition, depth, statement, root, i + 1);
    }
    leaves
}

// The leaves that a file's challenges pick, 1 to the count of its head, in the front of lent room: there is no heap.
pub fn opened_leaves<'a>(
    file: &[u8],
    head: &Head,
    statement: [u8; 32],
    room: &'a mut [u64],
) -> &'a [u64]
    requires its_head { head_of file.now ≡ numbers head.now.edition head.now.depth head.now.count head.now.end }
    requires whole { length file.now ≡ length_from head.now.depth head.now.count head.now.end }
    requires fits { head.now.count ≤ length room.old }
    ensures { result.now ≡ leaves_of file.now statement head.now.depth head.now.count }
{
    let root = label_at(file, head.end + 32);
    for i in 0..head.count {
        room[i as usize] = challenge_leaf(head.edition, head.depth, statement, root, i + 1);
    }
    &room[..head.count as usize]
}
