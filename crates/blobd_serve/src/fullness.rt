//! When it is told on standard error that requests are refused for want of room: at most once a minute, by all workers.
use std::alloc::{AllocError, Global};
use std::rt::Clock;
use std::sync::Arc;
use std::sync::atomic::{AtomicU64, Ordering};
use std::time::Instant;

/// How long it is at least from one line to the next, in seconds.
const PAUSE_SECONDS: u64 = 60;

/// When it may be told again. No contract speaks of it: it is for people who look on.
#[derive(Drop)]
pub(crate) struct Fullness {
    /// Since when seconds are counted. Without a clock it is told once.
    start: Option<Instant>,
    /// From which of them on it may be told.
    due: Arc<AtomicU64, Global>,
}

impl Fullness {
    /// It wasn't told yet. An error is out of memory.
    pub(crate) fn new<R: Clock>(rt: &R, alloc: Global) -> Result<Fullness, AllocError> {
        Ok(Fullness {
            start: Instant::now(rt).ok(),
            due: Arc::new(alloc, AtomicU64::new(0))?,
        })
    }

    /// The same for another worker.
    pub(crate) fn share(&self) -> Result<Fullness, AllocError> {
        Ok(Fullness {
            start: self.start,
            due: Arc::try_clone(&self.due)?,
        })
    }

    /// Whether it is to be told now. Of workers that ask at once one tells it.
    pub(crate) fn tells<R: Clock>(&self, rt: &R) -> bool {
        let second = match self.start {
            Some(start) => start.elapsed(rt).map_or(0, |passed| passed.as_secs()),
            None => 0,
        };
        let due = self.due.load(Ordering::SeqCst);
        let next = second.saturating_add(PAUSE_SECONDS);
        due <= second
            && self
                .due
                .compare_exchange(due, next, Ordering::SeqCst, Ordering::SeqCst)
                .is_ok()
    }
}
