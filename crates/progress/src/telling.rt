// What is told, and when.
ghost use Rattle.std.specs.Prelude.{◌≡◌, false};
ghost use Rattle.lines.specs.Line.{IsInRoom};

use crate::{Labels, Progress};
use descriptors::{Stream, is_terminal, milliseconds};
use lines::{Line, say};
use std::rt::Clock;

impl<'a> Progress<'a> {
    // A seal begins or goes on; seconds between checkpoints. One that goes on renews its checkpoint with the first labels.
    pub fn begin<R: Clock>(
        rt: &R,
        err: Stream<'a>,
        labels: Labels,
        seconds: u64,
        resumed: bool,
    ) -> Progress<'a>
        ensures { result.ended ≡ false }
    {
        let now = milliseconds(rt);
        let progress = Progress {
            err,
            terminal: is_terminal(err),
            labels,
            first: labels.made,
            start: now,
            shown: now,
            kept: if resumed { 0 } else { now },
            every: 1000 * seconds.min(3600),
            told: false,
            ended: false,
        };
        progress.say_share(&lines::progress(labels.made, labels.all, 0, 0));
        progress
    }

    // Counts labels, and tells what it is time to tell.
    pub fn tick<R: Clock>(&mut self, rt: &R, labels: u64)
        ensures { self.new.ended ≡ self.old.ended }
    {
        let now = milliseconds(rt);
        self.labels.made = self.labels.made.saturating_add(labels);
        self.tell_forecast(now);
        self.tell_share(now);
    }

    // The last line.
    pub fn finish(&self) {
        self.say_line(&lines::progress(self.labels.made, self.labels.all, 0, 0));
    }

    // Back to the line's start, and all behind it erased.
    fn anew(&self) -> Line
        ensures { IsInRoom result }
    {
        if self.terminal {
            Line::new().add(b"\r\x1b[K")
        } else {
            Line::new()
        }
    }

    // A line of its own.
    fn say_line(&self, text: &Line) {
        say(self.err, &self.anew().add_line(text).add(b"\n"));
    }

    // The line that is written over, on a terminal.
    fn say_share(&self, text: &Line) {
        if self.terminal {
            say(self.err, &self.anew().add_line(text));
        } else {
            self.say_line(text);
        }
    }

    // The labels that this process made.
    fn own(&self) -> u64 {
        self.labels.made.saturating_sub(self.first)
    }

    // Labels a second, of those that this process made.
    fn rate_at(&self, now: u64) -> u64 {
        pace::rate(self.own(), now.saturating_sub(self.start))
    }

    fn seconds_left(&self, labels: u64, rate: u64) -> u64 {
        pace::seconds_left(labels, rate, self.own(), self.labels.depth)
    }

    // Once a second of labels is measured: how long all that this process has to make takes at that rate.
    fn tell_forecast(&mut self, now: u64)
        ensures { self.new.ended ≡ self.old.ended }
    {
        if self.told || now.saturating_sub(self.start) < 1000 {
            return;
        }
        let rate = self.rate_at(now);
        let seconds = self.seconds_left(self.labels.all.saturating_sub(self.first), rate);
        let told = lines::forecast(self.labels.depth, seconds, rate);
        say(self.err, &self.anew().add_line(&told));
        self.told = true;
    }

    // How far it is, the labels a second and the time left, a second after the last such line on a terminal, elsewhere a minute.
    fn tell_share(&mut self, now: u64)
        ensures { self.new.ended ≡ self.old.ended }
    {
        let step = if self.terminal { 1000 } else { 60000 };
        if now.saturating_sub(self.shown) < step {
            return;
        }
        let labels = self.labels;
        let rate = self.rate_at(now);
        let seconds = self.seconds_left(labels.all.saturating_sub(labels.made), rate);
        self.say_share(&lines::progress(labels.made, labels.all, rate, seconds));
        self.shown = now;
    }
}
