// What of an opening the store holds: labels put in their places, and the left siblings' labels on levels 1 to m.
#![tactic(auto)]

mod above; // above.rt: the left siblings' labels above level m
mod places; // places.rt: labels put in their places

pub use above::{Front, labels_above};
pub use places::{copy_held, put_label};
