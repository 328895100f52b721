//! How far a start has come, on a terminal.
use blobd_shared::Reading;
use bodies::Counter;
use std::alloc::{AllocError, Global};
use std::io::Eprint;
use std::rt::Clock;
use std::sync::Arc;
use std::sync::atomic::{AtomicBool, Ordering};
use std::thread::{self, JoinHandle, Threads};
use std::time::{Duration, Instant};

/// Who looks on at a start.
#[derive(Clone, Copy)]
pub struct Watch<'a, R> {
    pub rt: &'a R,
    /// Whether standard error is a terminal. Else nothing of a start's progress is written to it.
    pub seen: bool,
}

/// How long the thread waits from one look to the next, in milliseconds.
const PAUSE_MILLIS: u64 = 20;

/// A thread that tells how far a start has come, at most once a second, and not in the first one.
#[derive(Drop)]
pub(crate) struct Progress {
    thread: Option<JoinHandle<()>>,
    is_over: Option<Arc<AtomicBool, Global>>,
}

/// What such a thread reads.
#[derive(Drop)]
struct Ticker {
    total: u64,
    counter: Counter,
    is_over: Arc<AtomicBool, Global>,
}

impl Ticker {
    /// Tells of the bytes that come until it is over. Then nothing stands on its line.
    fn tell<R: Clock + Eprint>(&self, rt: &R) {
        let Ok(begun) = Instant::now(rt) else {
            return;
        };
        let mut seconds = 0;
        for _ in 0..u64::MAX {
            if self.is_over.load(Ordering::SeqCst) {
                break;
            }
            thread::sleep(rt, Duration::from_millis(PAUSE_MILLIS));
            let Ok(passed) = begun.elapsed(rt) else {
                break;
            };
            if passed.as_secs() > seconds {
                seconds = passed.as_secs();
                let reading = Reading {
                    done: self.counter.count(),
                    total: self.total,
                    millis: u64::try_from(passed.as_millis()).unwrap_or(u64::MAX),
                };
                let _ = eprint!(rt; "\r{reading}\x1b[K");
            }
        }
        if seconds > 0 {
            let _ = eprint!(rt; "\r\x1b[K");
        }
    }
}

impl Progress {
    /// Begins to tell, if somebody looks on, how many of so many bytes are read, as this counter says. Without a thread
    /// or memory nothing is told.
    pub(crate) fn begin<R>(
        watch: Watch<'_, R>,
        alloc: Global,
        total: u64,
        counter: &Counter,
    ) -> Progress
    where
        R: Threads + Clock + Eprint + Copy + Send + 'static,
    {
        let none = Progress {
            thread: None,
            is_over: None,
        };
        if !watch.seen {
            return none;
        }
        match Progress::start(watch.rt, alloc, total, counter) {
            Ok(progress) => progress,
            Err(_) => none,
        }
    }

    fn start<R>(
        rt: &R,
        alloc: Global,
        total: u64,
        counter: &Counter,
    ) -> Result<Progress, AllocError>
    where
        R: Threads + Clock + Eprint + Copy + Send + 'static,
    {
        let is_over = Arc::new(alloc, AtomicBool::new(false))?;
        let ticker = Ticker {
            total,
            counter: counter.share()?,
            is_over: Arc::try_clone(&is_over)?,
        };
        let theirs = *rt;
        let thread = thread::spawn(rt, move || ticker.tell(&theirs)).ok();
        Ok(Progress {
            thread,
            is_over: Some(is_over),
        })
    }

    /// Ends it, and its line is empty.
    pub(crate) fn end<R: Threads>(self, rt: &R) {
        let Progress { thread, is_over } = self;
        if let Some(is_over) = is_over {
            is_over.store(true, Ordering::SeqCst);
        }
        if let Some(thread) = thread {
            thread.join(rt);
        }
    }
}
