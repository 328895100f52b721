//! What is lent to whatever keeps the changes of a server.
use crate::texts::KeepText;
use std::io::Eprint;
use std::rt::Clock;
use std::thread;
use std::time::{Duration, Instant, SystemTime, UNIX_EPOCH};
use upload_keeping::{KeepFault, KeepingHost};

/// For how many microseconds it waits for more that may be kept by the same batch. The system makes it some 60.
const PAUSE: u64 = 10;

/// How many microseconds a batch must take for that to be worth it.
const WORTH_PAUSING: u64 = 200;

/// The clock of the system, and standard error, on which it is told why something could not be kept in this directory.
#[derive(Drop)]
pub struct Teller<'a, R> {
    rt: &'a R,
    path: &'a str,
    /// When the last batch began to be kept, unless the clock couldn't be read.
    began: Option<Instant>,
    /// How long the last batch took.
    took: Duration,
}

impl<'a, R> Teller<'a, R> {
    /// One for a directory, before its first batch.
    pub fn new(rt: &'a R, path: &'a str) -> Teller<'a, R> {
        Teller {
            rt,
            path,
            began: None,
            took: Duration::ZERO,
        }
    }
}

/// The time of day, in seconds since 1970, or 0 if it can't be read.
pub fn seconds_now<R: Clock>(rt: &R) -> u64 {
    match SystemTime::now(rt) {
        Ok(now) => match now.duration_since(UNIX_EPOCH) {
            Ok(since) => since.as_secs(),
            Err(_) => 0,
        },
        Err(_) => 0,
    }
}

impl<'a, R: Clock + Eprint> KeepingHost for Teller<'a, R> {
    // Nothing is promised of standard error.
    ghost hears = { λ old fault new. Unit {0} };

    fn time(&mut self) -> u64 {
        self.began = Instant::now(self.rt).ok();
        seconds_now(self.rt)
    }

    fn kept(&mut self) {
        self.took = match (self.began, Instant::now(self.rt)) {
            (Some(began), Ok(now)) => now.duration_since(began),
            _ => Duration::ZERO,
        };
    }

    fn pause(&mut self) -> bool {
        let is_worth_it = self.took >= Duration::from_micros(WORTH_PAUSING);
        if is_worth_it {
            thread::sleep(self.rt, Duration::from_micros(PAUSE));
        }
        is_worth_it
    }

    fn failed(&mut self, fault: &KeepFault) {
        let rt = self.rt;
        let _ = eprintln!(rt;
            "blobd: can't keep a change in {}: {}",
            self.path,
            KeepText(fault)
        );
    }
}
