//! A thread that does what no worker waits for, and the channel to it.
use crossbeam_channel::{Receiver, Sender, bounded};
use std::alloc::Global;
use std::io::Eprint;
use std::rt::Clock;
use std::sync::Wait;
use std::thread;
use std::thread::Threads;
use std::time::Duration;

/// What is done by such a thread.
pub(crate) trait Job: Send {
    /// How many jobs wait for the thread at most.
    const MOST_WAITING: usize;

    /// How long the end of a server waits for the last jobs to be done, in seconds.
    const PATIENCE_SECONDS: u64;

    /// Does the jobs as they come, until no more can come and each is done.
    fn run_all<R: Wait + Clock + Eprint>(rt: &R, alloc: Global, jobs: &Receiver<Self>);
}

/// A thread that does jobs as they come, and the channel to it.
#[derive(Drop)]
pub(crate) struct Background<J> {
    pub(crate) jobs: Sender<J>,
    /// Nothing ever comes here. It ends when the thread does.
    end: Receiver<()>,
}

impl<J: Job + Drop + 'static> Background<J> {
    /// Starts the thread. `None` comes if there is no memory for its jobs, or no thread can be made.
    pub(crate) fn start<R>(rt: &R, alloc: Global) -> Option<Background<J>>
    where
        R: Threads + Wait + Clock + Eprint + Copy + Send + 'static,
    {
        let (jobs, to_do) = bounded::<J, Global>(alloc, J::MOST_WAITING).ok()?;
        let (until_end, end) = bounded::<(), Global>(alloc, 1).ok()?;
        let theirs = *rt;
        // It is never joined: a job that takes long would hold up the end of the program.
        let _thread = thread::spawn(rt, move || {
            J::run_all(&theirs, alloc, &to_do);
            drop(until_end);
        })
        .ok()?;
        Some(Background { jobs, end })
    }

    /// Waits until the jobs are done, once there is no other sender any more; but not for ever. Without such a thread
    /// there is nothing to wait for.
    pub(crate) fn finish<R: Wait + Clock>(background: Option<Background<J>>, rt: &R) {
        let Some(Background { jobs, end }) = background else {
            return;
        };
        drop(jobs);
        let _ = end.recv_timeout(rt, Duration::from_secs(J::PATIENCE_SECONDS));
    }
}
