// One opening checked, and what the check of a file and the comparison share with it.
#![tactic(auto)]

mod way; // way.rt: the leaf's label, and the way to the root

pub use way::{check_opening, label_above, right};
