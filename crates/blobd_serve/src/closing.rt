//! Connections that are closed by a thread of their own, all at once: no worker waits for a peer that stays, and no
//! peer for another.
ghost use Rattle.std.specs.Prelude.{◌≡◌, IfOk, is_some};

use crate::background::{Background, Job};
use crossbeam_channel::{Receiver, RecvTimeoutError, Sender};
use std::alloc::{AllocError, Global};
use std::collections::VecDeque;
use std::io::{Eprint, ErrorKind, Read};
use std::net::{Shutdown, TcpStream};
use std::rt::Clock;
use std::sync::Wait;
use std::thread;
use std::time::{Duration, Instant};

/// How long a close waits for a peer that sends nothing, in milliseconds.
const SILENCE_MILLIS: u128 = 500;

/// How long it reads on from a peer that goes on sending, in milliseconds.
const LINGER_MILLIS: u128 = 5_000;

/// How long the thread waits between two looks at its connections, in milliseconds.
const PAUSE_MILLIS: u64 = 20;

/// The same while some peer sends: it is to have sent all of a large body within the time that it has.
const SHORT_PAUSE_MILLIS: u64 = 1;

/// How many connections are closed at once. The oldest is closed outright if another comes.
const MOST_LINGERING: usize = 256;

/// How many reads of a connection are made at one look, and how many bytes each takes at most.
const READS: usize = 32;

const ROOM: usize = 16_384;

/// How many connections are taken between two looks at most.
const MOST_TAKEN: usize = 1_024;

/// The thread that closes connections.
pub(crate) type Closer = Background<TcpStream>;

/// A connection whose writing half is shut.
#[derive(Drop)]
struct Lingering {
    stream: TcpStream,
    /// Since when.
    shut: Instant,
    /// When its peer sent last, or since when it is shut.
    heard: Instant,
    /// Whether something had come at the last look.
    sends: bool,
}

impl Lingering {
    /// Reads and drops what came, as far as nobody waits for it. Says whether the peer stays, and still has time.
    fn stays(&mut self, now: Instant) -> bool {
        let mut room = [0u8; ROOM];
        self.sends = false;
        for _ in 0..READS {
            match self.stream.read(&mut room) {
                Ok(0) => return false,
                Ok(_) => {
                    self.heard = now;
                    self.sends = true;
                }
                Err(error) => match error.kind() {
                    ErrorKind::WouldBlock | ErrorKind::Interrupted => break,
                    _ => return false,
                },
            }
        }
        now.duration_since(self.heard).as_millis() < SILENCE_MILLIS
            && now.duration_since(self.shut).as_millis() < LINGER_MILLIS
    }
}

/// The connections that linger, the oldest first.
#[derive(Drop)]
struct Lingerers(VecDeque<Lingering>);

impl Lingerers {
    /// Takes another. Without memory for it, or if no time can be told, it is closed outright.
    fn take<R: Clock>(&mut self, rt: &R, stream: TcpStream) {
        let Ok(now) = Instant::now(rt) else {
            return;
        };
        if stream.set_nonblocking(true).is_err() {
            return;
        }
        let mut one = Lingering {
            stream,
            shut: now,
            heard: now,
            sends: false,
        };
        // Most peers have closed already, since they saw the end.
        if !one.stays(now) {
            return;
        }
        if self.0.len() >= MOST_LINGERING {
            drop(self.0.pop_front());
        }
        let _ = self.0.push_back(one);
    }

    /// Closes those whose peers have gone or have had their time. If no time can be told, that is each of them.
    fn look<R: Clock>(&mut self, rt: &R) {
        match Instant::now(rt) {
            Ok(now) => self.0.retain_mut(|one| one.stays(now)),
            Err(_) => self.0.clear(),
        }
    }

    /// How long it is until the next look.
    fn pause(&self) -> Duration {
        let one_sends = self.0.iter().any(|one| one.sends);
        Duration::from_millis(if one_sends {
            SHORT_PAUSE_MILLIS
        } else {
            PAUSE_MILLIS
        })
    }

    /// Takes what comes until the next look. Says whether more can come.
    fn listen<R: Wait + Clock>(&mut self, rt: &R, streams: &Receiver<TcpStream>) -> bool {
        if self.0.is_empty() {
            // There is nothing to look at.
            let Ok(stream) = streams.recv(rt) else {
                return false;
            };
            self.take(rt, stream);
        }
        let Ok(begun) = Instant::now(rt) else {
            return true;
        };
        let pause = self.pause();
        for _ in 0..MOST_TAKEN {
            let left = pause.saturating_sub(begun.elapsed(rt).unwrap_or(pause));
            match streams.recv_timeout(rt, left) {
                Ok(stream) => self.take(rt, stream),
                Err(RecvTimeoutError::Timeout) => return true,
                Err(RecvTimeoutError::Disconnected) => return false,
            }
        }
        true
    }
}

impl Job for TcpStream {
    const MOST_WAITING: usize = 1_024;

    // Longer than one lingers.
    const PATIENCE_SECONDS: u64 = 6;

    fn run_all<R: Wait + Clock + Eprint>(rt: &R, alloc: Global, streams: &Receiver<TcpStream>) {
        let mut open = Lingerers(VecDeque::new(alloc));
        let mut more = true;
        for _ in rt.forever() {
            if more {
                more = open.listen(rt, streams);
            } else if open.0.is_empty() {
                break;
            } else {
                thread::sleep(rt, open.pause());
            }
            open.look(rt);
        }
    }
}

/// Where the connections of one worker go once they are served; nowhere if there is no thread for them.
#[derive(Drop)]
pub(crate) struct Closing(Option<Sender<TcpStream>>);

impl Closing {
    /// A place for the connections of a worker. An error is out of memory.
    pub(crate) fn new(closer: &Option<Closer>) -> Result<Closing, AllocError>
        ensures { IfOk result (λ closing. is_some closing.0 ≡ is_some closer.now) }
    {
        match closer {
            Some(closer) => Ok(Closing(Some(closer.jobs.clone()?))),
            None => Ok(Closing(None)),
        }
    }

    /// Closes a connection that is served. Its peer reads the end at once, and the rest is left to the thread. If the
    /// peer still sends, as after a refused head, a close at once would reset the connection, and the peer's system
    /// would drop the reply that it hasn't read. So what comes is read and dropped until the peer closes, is silent for
    /// half a second, or has sent for five seconds, or until 256 others came after it. If there is no thread, or too
    /// many wait for it, it is closed outright.
    pub(crate) fn close<R: Wait>(&self, rt: &R, stream: TcpStream) {
        // An error means that the peer has gone.
        let is_there = stream.shutdown(Shutdown::Write).is_ok();
        if let (true, Some(streams)) = (is_there, &self.0) {
            let _ = streams.try_send(rt, stream);
        }
    }
}
