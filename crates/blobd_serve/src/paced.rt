//! How slow a client may be, and the two halves of a connection that is served. A client that is too slow is cut, and
//! a signal cuts none.
ghost use Rattle.std.specs.Prelude.{◌≡◌, ◌≢◌, ◌≤◌, ◌-◌, IfErr, IfOk, IsErr, length, true, false};
ghost use Rattle.std.specs.IoError.{error_kind};
ghost use Rattle.blobd_shared.specs.Connections.{ReadGives, WriteTakes};
ghost use Rattle.blobd_serve.specs.Pace.{pace_after, window_of};

use crate::accepts::Timed;
use blobd_shared::{Inlet, Outlet};
use http_wire::Excerpt;
use std::alloc::{AllocError, Global};
use std::io;
use std::io::ErrorKind;
use std::rt::Clock;
use std::sync::Arc;
use std::sync::atomic::{AtomicBool, Ordering};
use std::time::{Duration, Instant};

/// What is asked of a client: so many bytes in each window of time in which it is waited for.
#[derive(Clone, Copy, Debug, PartialEq, Eq)]
pub struct Demand {
    /// How long a window is, in microseconds.
    pub window: u64,
    /// The least that moves in it, in bytes. With 0 no client is too slow.
    pub least: u64,
}

/// How far a client has come in the window that is under way. Time in which nobody waits for it doesn't count.
#[derive(Clone, Copy, Debug, PartialEq, Eq)]
pub(crate) struct Pace {
    /// How long it was waited for, in microseconds.
    waited: u64,
    /// How many bytes moved.
    moved: u64,
    /// Whether a byte has moved that a window begins with. Until then the first one is waited for.
    has_begun: bool,
}

impl Pace {
    /// A request is waited for: a window begins with its first bytes.
    pub(crate) fn awaited() -> Pace
        ensures { result ≡ window_of false }
    {
        Pace {
            waited: 0,
            moved: 0,
            has_begun: false,
        }
    }

    /// A window begins now.
    pub(crate) fn begun() -> Pace
        ensures { result ≡ window_of true }
    {
        Pace {
            waited: 0,
            moved: 0,
            has_begun: true,
        }
    }

    /// The microseconds that are left of the window, or of the wait for the first byte.
    pub(crate) fn left(self, demand: Demand) -> u64
        ensures { result ≡ demand.window - self.waited }
    {
        demand.window.saturating_sub(self.waited)
    }

    /// The pace after a read or a write for which the client was waited for so many microseconds, and which moved so
    /// many bytes. `None`: the client is too slow.
    pub(crate) fn after(self, demand: Demand, waited: u64, moved: u64) -> Option<Pace>
        ensures { result ≡ pace_after demand self waited moved }
    {
        if !self.has_begun && moved > 0 {
            return Some(Pace {
                moved,
                ..Pace::begun()
            });
        }
        let next = Pace {
            waited: self.waited.saturating_add(waited),
            moved: self.moved.saturating_add(moved),
            has_begun: self.has_begun,
        };
        if next.waited < demand.window {
            Some(next)
        } else if next.moved < demand.least {
            None
        } else {
            Some(Pace {
                waited: 0,
                moved: 0,
                has_begun: self.has_begun,
            })
        }
    }
}

/// How many microseconds a second has.
const SECOND: u64 = 1_000_000;

/// For how many seconds a call waits at most, so that it is soon seen that the server has ended. It also helps a slow
/// client: the system doesn't end a write before much of its buffer is free, and the next write takes the little room
/// that there is.
const LONGEST_CALL: u64 = 1;

/// Whether a connection was written to since it was read from: what is read next belongs to another request. Its two
/// halves share it, and all connections of a worker have the same, so that none of them takes memory.
#[derive(Drop)]
pub(crate) struct Turn(Arc<AtomicBool, Global>);

impl Turn {
    pub(crate) fn new(alloc: Global) -> Result<Turn, AllocError> {
        Ok(Turn(Arc::new(alloc, AtomicBool::new(false))?))
    }

    /// The same for another half. An error comes if too many share it.
    pub(crate) fn share(&self) -> Result<Turn, AllocError> {
        Ok(Turn(Arc::try_clone(&self.0)?))
    }

    /// A connection begins with a request.
    pub(crate) fn begin(&self) {
        self.0.store(false, Ordering::SeqCst);
    }

    /// Something is read now. Says whether it belongs to another request than what was read before.
    fn read(&self) -> bool {
        self.0.swap(false, Ordering::SeqCst)
    }

    /// Something is written now. Says whether a reply begins.
    fn write(&self) -> bool {
        !self.0.swap(true, Ordering::SeqCst)
    }
}

/// What is too slow for a client, and how far it has come.
#[derive(Drop)]
struct Watch<'a, R> {
    rt: &'a R,
    demand: Demand,
    /// None once the client was too slow.
    pace: Option<Pace>,
    /// For how many seconds the system lets a call wait; 0 before the first.
    allowed: u64,
}

impl<'a, R: Clock> Watch<'a, R> {
    /// How long the next call may wait, if that isn't what the system was told last: whole seconds, so that it is told
    /// rarely.
    fn limit(&mut self, pace: Pace) -> Option<Duration> {
        let seconds = pace
            .left(self.demand)
            .div_ceil(SECOND)
            .clamp(1, LONGEST_CALL);
        if seconds == self.allowed {
            return None;
        }
        self.allowed = seconds;
        Some(Duration::from_secs(seconds))
    }

    /// Tells the system how long a read may wait, if it doesn't know.
    fn allow_read<S: Timed>(&mut self, stream: &S, pace: Pace) -> io::Result<()> {
        match self.limit(pace) {
            Some(limit) => stream.limit_reads(limit),
            None => Ok(()),
        }
    }

    /// Tells the system how long a write may wait, if it doesn't know.
    fn allow_write<S: Timed>(&mut self, stream: &S, pace: Pace) -> io::Result<()> {
        match self.limit(pace) {
            Some(limit) => stream.limit_writes(limit),
            None => Ok(()),
        }
    }

    fn now(&self) -> Option<Instant> {
        Instant::now(self.rt).ok()
    }

    /// For how many microseconds a call that began then waited for the client; 0 if no time can be told. The system
    /// ends a call that waits for longer than it may. So one that lasted a second longer didn't wait for the client:
    /// the program was stopped meanwhile.
    fn waited_since(&self, begun: Option<Instant>) -> u64 {
        let Some(begun) = begun else {
            return 0;
        };
        match begun.elapsed(self.rt) {
            Ok(passed) if passed.as_secs() > self.allowed => 0,
            Ok(passed) => u64::try_from(passed.as_micros()).unwrap_or(u64::MAX),
            Err(_) => 0,
        }
    }

    /// Counts a call that began then, at this pace, and which moved so many bytes.
    fn moved(&mut self, pace: Pace, begun: Option<Instant>, count: usize) {
        let waited = self.waited_since(begun);
        self.pace = pace.after(
            self.demand,
            waited,
            u64::try_from(count).unwrap_or(u64::MAX),
        );
    }

    /// Counts a call that waited for as long as it was allowed, and moved nothing.
    fn waited_out(&mut self, pace: Pace) {
        self.pace = pace.after(self.demand, self.allowed.saturating_mul(SECOND), 0);
    }

    /// Counts a call that began then and came to this. Says whether it is made again: a signal interrupted it, or it
    /// waited for as long as it was allowed.
    fn goes_on(&mut self, pace: Pace, begun: Option<Instant>, came_to: &io::Result<usize>) -> bool
        ensures again { result ≡ true → IsErr came_to.now }
        ensures ended { result ≡ false
            → IfErr came_to.now (λ error. error_kind error ≢ ErrorKind.Interrupted) }
    {
        match came_to {
            Ok(count) => {
                self.moved(pace, begun, *count);
                false
            }
            Err(error) => match error.kind() {
                ErrorKind::Interrupted => true,
                ErrorKind::WouldBlock => {
                    self.waited_out(pace);
                    true
                }
                _ => false,
            },
        }
    }
}

/// What a half answers once its client was too slow, or the server has ended.
fn cut_off() -> io::Error
    ensures { error_kind result ≢ ErrorKind.Interrupted }
{
    io::Error::from(ErrorKind::TimedOut)
}

/// One half of a connection, which is only read from or only written to. With the first bytes of a request, and with
/// the first write of a reply, a window of time begins; before a request there is one to wait for its first bytes. What
/// moves over it is what its stream moves.
#[derive(Drop)]
pub(crate) struct Half<'a, S, R> {
    stream: S,
    turn: Turn,
    watch: Watch<'a, R>,
}

impl<'a, S, R> Half<'a, S, R> {
    /// The half over this end of a connection, of which nothing was read or written yet.
    pub(crate) fn new(rt: &'a R, stream: S, turn: Turn, demand: Demand) -> Half<'a, S, R>
        ensures { (result.stream ≡ stream) × (result.watch.demand ≡ demand) }
    {
        Half {
            stream,
            turn,
            watch: Watch {
                rt,
                demand,
                pace: Some(Pace::awaited()),
                allowed: 0,
            },
        }
    }

    /// The stream, with what moved over it.
    pub(crate) fn into_stream(self) -> S
        ensures { result ≡ self.entry.stream }
    {
        let Half { stream, .. } = self;
        stream
    }
}

/// Reads, and again for as long as the client may take its time. What it gives is what the stream gave. An error: the
/// client is too slow, the server has ended, or the system's.
fn read_in_time<S: Inlet + Timed, R: Clock>(
    stream: &mut S,
    watch: &mut Watch<'_, R>,
    buf: &mut [u8],
) -> io::Result<usize>
    ensures bound { IfOk result (λ n. n ≤ length buf.new) }
    ensures told { ReadGives (S.given stream.old) (S.given stream.new) result buf.new }
    ensures resumed { IfErr result (λ error. error_kind error ≢ ErrorKind.Interrupted) }
{
    for _ in 0..u64::MAX {
        let Some(pace) = watch.pace else {
            break;
        };
        if stream.has_ended() || watch.allow_read(stream, pace).is_err() {
            break;
        }
        let begun = watch.now();
        let read = stream.read(buf);
        if !watch.goes_on(pace, begun, &read) {
            return read;
        }
    }
    Err(cut_off())
}

/// Writes, and again for as long as the client may take its time. What it takes is what the stream took. An error: the
/// client is too slow, the server has ended, or the system's.
fn write_in_time<S: Outlet + Timed, R: Clock>(
    stream: &mut S,
    watch: &mut Watch<'_, R>,
    buf: &[u8],
) -> io::Result<usize>
    ensures bound { IfOk result (λ n. n ≤ length buf.now) }
    ensures told { WriteTakes (S.taken stream.old) (S.taken stream.new) result buf.now }
    ensures resumed { IfErr result (λ error. error_kind error ≢ ErrorKind.Interrupted) }
{
    for _ in 0..u64::MAX {
        let Some(pace) = watch.pace else {
            break;
        };
        if stream.has_ended() || watch.allow_write(stream, pace).is_err() {
            break;
        }
        let begun = watch.now();
        let wrote = stream.write(buf);
        if !watch.goes_on(pace, begun, &wrote) {
            return wrote;
        }
    }
    Err(cut_off())
}

/// The same of an excerpt of a file.
fn write_excerpt_in_time<S: Outlet + Timed, R: Clock>(
    stream: &mut S,
    watch: &mut Watch<'_, R>,
    excerpt: &Excerpt<'_>,
) -> io::Result<usize>
    ensures bound { IfOk result (λ n. n ≤ length excerpt.now.told) }
    ensures told { WriteTakes (S.taken stream.old) (S.taken stream.new) result excerpt.now.told }
    ensures resumed { IfErr result (λ error. error_kind error ≢ ErrorKind.Interrupted) }
{
    for _ in 0..u64::MAX {
        let Some(pace) = watch.pace else {
            break;
        };
        if stream.has_ended() || watch.allow_write(stream, pace).is_err() {
            break;
        }
        let begun = watch.now();
        let wrote = stream.write_excerpt(excerpt);
        if !watch.goes_on(pace, begun, &wrote) {
            return wrote;
        }
    }
    Err(cut_off())
}

impl<'a, S: Inlet + Timed, R: Clock> Inlet for Half<'a, S, R> {
    ghost given = { λ h. S.given h.stream };

    fn read(&mut self, buf: &mut [u8]) -> io::Result<usize> {
        if self.turn.read() {
            self.watch.pace = Some(Pace::awaited());
        }
        read_in_time(&mut self.stream, &mut self.watch, buf)
    }
}

impl<'a, S: Outlet + Timed, R: Clock> Outlet for Half<'a, S, R> {
    ghost taken = { λ h. S.taken h.stream };

    fn write(&mut self, buf: &[u8]) -> io::Result<usize> {
        if self.turn.write() {
            self.watch.pace = Some(Pace::begun());
        }
        write_in_time(&mut self.stream, &mut self.watch, buf)
    }

    fn write_excerpt(&mut self, excerpt: &Excerpt<'_>) -> io::Result<usize> {
        if self.turn.write() {
            self.watch.pace = Some(Pace::begun());
        }
        write_excerpt_in_time(&mut self.stream, &mut self.watch, excerpt)
    }

    fn flush(&mut self) -> io::Result<()> {
        self.stream.flush()
    }
}
