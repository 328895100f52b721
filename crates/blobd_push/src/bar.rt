//! A bar: one line of a terminal, drawn again and again, that says how far a push has come.
ghost use Rattle.std.specs.Prelude.{◌≡◌, codes, false, None};

use blobd_shared::ByteCount;
use std::fmt;
use std::io::Eprint;
use std::rt::Clock;
use std::time::{Duration, Instant};

/// How long a line stands at least, in milliseconds.
const STANDS_MILLIS: u64 = 100;

/// How far something has come, in so many milliseconds.
#[derive(Clone, Copy)]
struct Progress {
    word: &'static str,
    done: u64,
    size: u64,
    millis: u64,
}

impl Progress {
    /// How many bytes are done in a second.
    fn speed(&self) -> u64 {
        self.done
            .saturating_mul(1_000)
            .checked_div(self.millis)
            .unwrap_or(0)
    }
}

impl fmt::Display for Progress {
    fn fmt<W: fmt::Write>(&self, f: &mut fmt::Formatter<W>) -> fmt::Result {
        let word = self.word;
        let done = ByteCount(self.done);
        let size = ByteCount(self.size);
        let speed = self.speed();
        match self.size.saturating_sub(self.done).checked_div(speed) {
            Some(left) => {
                let speed = ByteCount(speed);
                write!(f, "{word}  {done} of {size}  {speed}/s  {left} s left")
            }
            None => write!(f, "{word}  {done} of {size}"),
        }
    }
}

/// A time in whole milliseconds.
pub(crate) fn millis_of(passed: Duration) -> u64 {
    u64::try_from(passed.as_millis()).unwrap_or(u64::MAX)
}

/// The bar of a file that is hashed and sent, on standard error. What a write to it answers is nothing to a push.
#[derive(Drop)]
pub(crate) struct Bar<'r, R> {
    rt: &'r R,
    /// Whether standard error is a terminal. Else nothing is ever written to it.
    seen: bool,
    /// How many bytes there are.
    size: u64,
    /// What is done with them.
    word: &'static str,
    /// Since when; none if the clock can't be read.
    begun: Option<Instant>,
    /// Until when the line stands, in milliseconds from then.
    stands: u64,
}

impl<'r, R: Clock + Eprint> Bar<'r, R> {
    /// The bar of so many bytes. Nothing is drawn before something is begun.
    pub(crate) fn new(rt: &'r R, size: u64, seen: bool) -> Bar<'r, R>
        ensures { (result.seen ≡ seen) × (result.size ≡ size) × (result.begun ≡ None) }
    {
        Bar {
            rt,
            seen,
            size,
            word: "",
            begun: None,
            stands: 0,
        }
    }

    /// Begins what this word says: none of the bytes are done.
    pub(crate) fn begin(&mut self, word: &'static str)
        ensures unseen { self.old.seen ≡ false → self.new ≡ self.old }
        ensures same { (self.new.seen ≡ self.old.seen) × (self.new.size ≡ self.old.size) }
    {
        if self.seen {
            self.word = word;
            self.begun = Instant::now(self.rt).ok();
            self.stands = 0;
        }
    }

    /// So many bytes are done. The line is drawn again, but not if it was drawn a moment ago.
    pub(crate) fn reached(&mut self, done: u64)
        ensures unseen { self.old.seen ≡ false → self.new ≡ self.old }
        ensures same { (self.new.seen ≡ self.old.seen) × (self.new.size ≡ self.old.size) }
    {
        if !self.seen {
            return;
        }
        let Some(begun) = self.begun else {
            return;
        };
        let Ok(passed) = begun.elapsed(self.rt) else {
            return;
        };
        let millis = millis_of(passed);
        if millis < self.stands {
            return;
        }
        self.stands = millis.saturating_add(STANDS_MILLIS);
        let progress = Progress {
            word: self.word,
            done,
            size: self.size,
            millis,
        };
        let _ = eprint!(self.rt; "\r{progress}\x1b[K");
    }

    /// What another line begins with, in the place of the bar.
    pub(crate) fn line_begin(&self) -> &'static str
        ensures { self.now.seen ≡ false → result.now ≡ codes "" }
    {
        if self.seen { "\r\x1b[K" } else { "" }
    }

    /// Clears the line, so that another may stand there. Nothing is drawn before something else is begun.
    pub(crate) fn clear(&mut self)
        ensures { self.new.begun ≡ None }
    {
        self.begun = None;
        if self.seen {
            let _ = eprint!(self.rt; "\r\x1b[K");
        }
    }
}
