// W-201: runs of both editions written out as bytes and taken up again. The stored output is an independent model's.
#![tactic(auto)]

mod paused; // paused.rt: runs paused after every label
mod taken_up; // taken_up.rt: bytes read, which are a record or not
mod written; // written.rt: records written and read back, and the edges of each refusal

use paused::paused;
use taken_up::{editions, taken_up};
use written::{no_edition, written};

// What cannot be written is passed over.
fn main(rt: HostRuntime) {
    let to = rt.stdout();
    let _ = written(to, 1);
    let _ = written(to, 2);
    let _ = no_edition(to);
    let _ = paused(to, 1);
    let _ = paused(to, 2);
    let _ = taken_up(to, rt.alloc(), 1);
    let _ = taken_up(to, rt.alloc(), 2);
    let _ = editions(to, rt.alloc());
}
