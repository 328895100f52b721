//! Lines of the log that say what the service holds: at most one a minute, and none while nothing changes.
use crate::log_lines::{Log, LogLines};
use crate::time_of_day::time_now;
use blobd_shared::{ByteCount, WholeHolding};
use std::alloc::{AllocError, Global};
use std::cell::Cell;
use std::rt::Clock;
use std::sync::Wait;
use std::time::Instant;
use upload_service::{Counts, Service};

/// How long it is at least from one line to the next, in seconds.
const PAUSE_SECONDS: u64 = 60;

/// What was told last, and where lines go.
#[derive(Drop)]
struct Last {
    lines: LogLines,
    at: Instant,
    counts: Counts,
}

/// What tells how much the service holds, between two requests.
#[derive(Drop)]
pub(crate) struct Holdings<'a, R> {
    rt: &'a R,
    alloc: Global,
    // No contract speaks of a cell. Which lines come of it is tested.
    last: Cell<Option<Last>>,
}

fn are_same(one: Counts, two: Counts) -> bool {
    one.blobs == two.blobs
        && one.stored == two.stored
        && one.uploads == two.uploads
        && one.received == two.received
}

/// How many bytes more the service may hold now, bodies that arrive among them; `None` if it has no limit.
fn room_left(service: &Service) -> Option<u64> {
    match service.room() {
        Ok(Some(room)) => Some(room.left()),
        Ok(None) | Err(_) => None,
    }
}

impl<'a, R: Clock + Wait> Holdings<'a, R> {
    /// Of this service as it is now, of which nothing is told yet. None if there is no log, no clock, or no memory.
    pub(crate) fn of(
        rt: &'a R,
        alloc: Global,
        log: &Option<Log>,
        service: &Service,
    ) -> Option<Holdings<'a, R>> {
        let Some(log) = log else {
            return None;
        };
        let at = Instant::now(rt).ok()?;
        let last = Last {
            lines: LogLines::new(log).ok()?,
            at,
            counts: service.counts(),
        };
        Some(Holdings {
            rt,
            alloc,
            last: Cell::new(Some(last)),
        })
    }

    /// Tells what the service holds, if a minute has passed since it last looked, and something has changed.
    pub(crate) fn look(&self, service: &Service) {
        let Some(last) = self.last.replace(None) else {
            return;
        };
        self.last.set(Some(self.looked(last, service)));
    }

    fn looked(&self, last: Last, service: &Service) -> Last {
        let Ok(passed) = last.at.elapsed(self.rt) else {
            return last;
        };
        if passed.as_secs() < PAUSE_SECONDS {
            return last;
        }
        let Ok(at) = Instant::now(self.rt) else {
            return last;
        };
        let counts = service.counts();
        let Last {
            mut lines,
            counts: before,
            ..
        } = last;
        if !are_same(before, counts) {
            match self.line(counts, room_left(service)) {
                Ok(text) => lines.send(self.rt, text),
                Err(_) => lines.lose(),
            }
        }
        Last { lines, at, counts }
    }

    /// The line that says so now, with the room that is left if there is a limit. An error is out of memory.
    fn line(&self, counts: Counts, left: Option<u64>) -> Result<String, AllocError> {
        let time = time_now(self.rt, self.alloc)?;
        let holding = WholeHolding(counts);
        match left {
            Some(left) => format!(in self.alloc;
                "{time} holds {holding}, {} left",
                ByteCount(left)
            ),
            None => format!(in self.alloc; "{time} holds {holding}"),
        }
    }
}
