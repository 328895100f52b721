//! A log of requests: a line for each reply, on standard error; and a line if one is refused for want of room, also
//! without a log.
ghost use Rattle.std.specs.Prelude.{◌≡◌, IfOk, string_bytes};
ghost use Rattle.blobd_serve.specs.LogLine.{line_text};

use crate::fullness::Fullness;
use crate::log_lines::LogLines;
use crate::shown::shown_request;
use crate::time_of_day::time_now;
use blobd_shared::millis_since;
use std::alloc::{AllocError, Global};
use std::io::Eprint;
use std::rt::Clock;
use std::sync::Wait;
use std::time::Instant;
use upload_wire::{Observer, RequestLine};

/// What is shown of a head that can't be read, and of one for which there is no memory.
const NO_HEAD: &str = "-";

/// What is told of a reply that refuses a request for want of room, by its status; nothing of another one.
fn want_of_room(status: u16) -> Option<&'static str> {
    match status {
        429 => Some(
            "blobd: uploads are refused (429) for want of room: its table of open ones is full, or its last number was issued; one goes as it is closed or cancelled, or after an hour without a chunk",
        ),
        503 => Some(
            "blobd: requests are refused (503) for want of room: in memory (BLOBD_MEMORY), or on the disk of its data directory, if it has one",
        ),
        _ => None,
    }
}

/// The log of one worker. No request waits for its line to be written.
#[derive(Drop)]
pub(crate) struct RequestLog<'a, R> {
    rt: &'a R,
    alloc: Global,
    /// Where lines go, if any are wanted.
    lines: Option<LogLines>,
    /// When it may be told that there is no room.
    fullness: Fullness,
    /// The method and the target of the head that came last; none if it can't be read, or there was no memory for
    /// them.
    head: Option<String>,
    /// Since when; none if the clock couldn't be read.
    heard: Option<Instant>,
}

impl<'a, R: Clock + Eprint + Wait> RequestLog<'a, R> {
    /// A log of requests to come, if there is a place for its lines.
    pub(crate) fn new(
        rt: &'a R,
        alloc: Global,
        lines: Option<LogLines>,
        fullness: Fullness,
    ) -> RequestLog<'a, R>
        ensures { result.lines ≡ lines }
    {
        RequestLog {
            rt,
            alloc,
            lines,
            fullness,
            head: None,
            heard: None,
        }
    }

    /// Tells that there is no room. If there is a log, it is a line of that: no worker waits for who reads it.
    fn tell_full(&mut self, text: &str) {
        let rt = self.rt;
        let Some(lines) = &mut self.lines else {
            // Nothing is promised of standard error.
            let _ = eprintln!(rt; "{text}");
            return;
        };
        match format!(in self.alloc; "{text}") {
            Ok(text) => lines.send(rt, text),
            Err(_) => lines.lose(),
        }
    }
}

impl<'a, R: Clock + Eprint + Wait> Observer for RequestLog<'a, R> {
    ghost use Rattle.std.specs.Prelude.{⊤};

    // Which lines it hands on is tested.
    ghost told = { λ old event new. ⊤ };

    fn hears(&mut self, line: Option<RequestLine<'_>>) {
        if self.lines.is_some() {
            self.head = head_of(self.alloc, line);
            self.heard = Instant::now(self.rt).ok();
        }
    }

    fn replied(&mut self, status: u16, size: u64) {
        if let Some(text) = want_of_room(status)
            && self.fullness.tells(self.rt)
        {
            self.tell_full(text);
        }
        if let Some(lines) = &mut self.lines {
            let millis = millis_since(self.rt, self.heard);
            let head = self.head.as_deref().unwrap_or(NO_HEAD);
            match line_now(self.rt, self.alloc, head, status, size, millis) {
                Ok(text) => lines.send(self.rt, text),
                Err(_) => lines.lose(),
            }
        }
    }
}

/// The method and the target of a request, as a log shows them. None: its head can't be read, or there is no memory for
/// them.
fn head_of(alloc: Global, line: Option<RequestLine<'_>>) -> Option<String> {
    let line = line?;
    String::from_utf8(shown_request(alloc, line.method, line.target).ok()?).ok()
}

/// The line of a head that is shown so, whose reply is written now. An error is out of memory.
fn line_now<R: Clock>(
    rt: &R,
    alloc: Global,
    head: &str,
    status: u16,
    size: u64,
    millis: u64,
) -> Result<String, AllocError> {
    let time = time_now(rt, alloc)?;
    line_text(alloc, &time, head, status, size, millis)
}

/// The line of a head that is shown so, and of its reply's status and size. An error is out of memory.
fn line_text(
    alloc: Global,
    time: &str,
    head: &str,
    status: u16,
    size: u64,
    millis: u64,
) -> Result<String, AllocError>
    ensures { IfOk result
        (λ text. string_bytes text ≡ line_text time.now head.now status size millis) }
{
    format!(in alloc; "{time} {head} {status} {size} {millis}ms")
}
