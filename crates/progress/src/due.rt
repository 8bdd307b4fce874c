// When a checkpoint is due, and that one is written.
ghost use Rattle.std.specs.Prelude.{◌≡◌};

use crate::Progress;
use descriptors::milliseconds;
use std::rt::Clock;

// The time since a moment.
fn since<R: Clock>(rt: &R, then: u64) -> u64 {
    milliseconds(rt).saturating_sub(then)
}

impl<'a> Progress<'a> {
    // While labels are made: when the interval has passed since the last one.
    pub fn is_due<R: Clock>(&self, rt: &R) -> bool {
        self.every <= since(rt, self.kept)
    }

    // When the last label is made: at once, if this run has worked for five seconds, or for the interval if that is shorter.
    pub fn is_due_after_labels<R: Clock>(&self, rt: &R) -> bool {
        self.is_due(rt) || 5000 <= since(rt, self.start)
    }

    // While openings are made and no checkpoint of the finished run is there: five seconds after the last try, or the interval.
    pub fn is_due_at_end<R: Clock>(&self, rt: &R) -> bool {
        self.is_due(rt) || 5000 <= since(rt, self.kept)
    }

    // Whether the disk is to have an opening that goes behind the checkpoint at once: once a second at most.
    pub fn is_sync_due<R: Clock>(&self, rt: &R) -> bool {
        1000 <= since(rt, self.kept)
    }

    // A checkpoint was tried; `ended` says that it is there, and is of the finished run.
    pub fn saved<R: Clock>(&mut self, rt: &R, ended: bool)
        ensures { self.new.ended ≡ ended }
    {
        self.kept = milliseconds(rt);
        self.ended = ended;
    }

    // An opening was put behind it. Where that failed the checkpoint is to be written anew.
    pub fn appended<R: Clock>(&mut self, rt: &R, good: bool, synced: bool)
        ensures { self.new.ended ≡ good }
    {
        self.ended = good;
        if synced {
            self.kept = milliseconds(rt);
        }
    }
}
