//! The lines of a log, which a thread of their own writes to standard error: no request waits for who reads them.
ghost use Rattle.std.specs.Prelude.{◌≡◌, ◌⊎◌, ◌+◌, ◌-◌, ◌^◌, min, IfOk};

use crate::background::{Background, Job};
use blobd_shared::Quantity;
use crossbeam_channel::{Receiver, Sender};
use std::alloc::{AllocError, Global};
use std::io::Eprint;
use std::rt::Clock;
use std::sync::Wait;

/// A log: the thread that writes it.
pub(crate) type Log = Background<Line>;

/// A line, and how many were lost right before it.
#[derive(Drop)]
pub(crate) struct Line {
    lost: u64,
    text: String,
}

impl Job for Line {
    const MOST_WAITING: usize = 1_024;

    const PATIENCE_SECONDS: u64 = 2;

    fn run_all<R: Wait + Clock + Eprint>(rt: &R, _alloc: Global, lines: &Receiver<Line>) {
        for _ in rt.forever() {
            let Ok(Line { lost, text }) = lines.recv(rt) else {
                break;
            };
            // What a write answers is nothing to the requests.
            if lost > 0 {
                let _ = eprintln!(rt; "blobd: {} lost", Quantity(lost, "line"));
            }
            let _ = eprintln!(rt; "{text}");
        }
    }
}

/// Where the lines of one worker go.
#[derive(Drop)]
pub(crate) struct LogLines {
    lines: Sender<Line>,
    /// How many were lost since the last one that wasn't.
    lost: u64,
}

impl LogLines {
    /// A place for the lines of a worker, of which none is lost yet. An error is out of memory.
    pub(crate) fn new(log: &Log) -> Result<LogLines, AllocError>
        ensures { IfOk result (λ lines. lines.lost ≡ 0) }
    {
        Ok(LogLines {
            lines: log.jobs.clone()?,
            lost: 0,
        })
    }

    /// Hands a line on to the thread that writes. If too many wait there, it is lost and counted.
    pub(crate) fn send<R: Wait>(&mut self, rt: &R, text: String)
        ensures { (self.new.lost ≡ 0) ⊎ (self.new.lost ≡ min (self.old.lost + 1) (2 ^ 64 - 1)) }
    {
        let line = Line {
            lost: self.lost,
            text,
        };
        match self.lines.try_send(rt, line) {
            Ok(()) => self.lost = 0,
            Err(_) => self.lose(),
        }
    }

    /// Counts a line for which there was no room or no memory. The count stays at 2^64 - 1 once there.
    pub(crate) fn lose(&mut self)
        ensures { self.new.lost ≡ min (self.old.lost + 1) (2 ^ 64 - 1) }
    {
        self.lost = self.lost.saturating_add(1);
    }
}
