//! The connections of `blobd push`: sockets to one address. No contract can say what a socket gives and takes: that
//! what is noted here is what the system's calls moved is to be read in this file, and in no other of this crate.
ghost use Rattle.std.specs.Prelude.{◌≡◌, ◌≤◌, ◌^◌, [], length, IfOk, false, true, IsErr};
ghost use Rattle.std.specs.Duration.{as_nanos};
ghost use Rattle.blobd_push.specs.Pushed.{IsPushed};

use crate::bar::millis_of;
use crate::dials::Dials;
use crate::pauses::{DIALED_MILLIS, dial_pause};
use crate::push::{Job, push_over};
use blobd_shared::{ConnHistory, FAULT, Inlet, Outlet, print_line};
use http_wire::Transcript;
use std::alloc::AllocGlobal;
use std::io::{Eprint, ErrorKind, Read, Write};
use std::net::{Net, Shutdown, SocketAddr, TcpStream};
use std::rt::Clock;
use std::time::{Duration, Instant};
use std::{io, thread};

/// How long a push waits for a connection, in seconds.
const CONNECT_SECONDS: u64 = 10;

/// How long a server may be silent, and how long it may take no byte, in seconds.
const SILENCE_SECONDS: u64 = 30;

/// After how much of such a wait it is told, in seconds, and then again and again to who looks on.
const TOLD_SECONDS: u64 = 5;

/// How often a write that waits looks for a reply that has come already, in seconds.
const LOOK_SECONDS: u64 = 1;

/// What Linux calls the error of a write to a peer that takes no more.
const EPIPE: i32 = 32;

/// How a push waits for its server. What is told of a wait stands on standard error.
#[derive(Clone, Copy)]
struct Waits {
    addr: SocketAddr,
    /// Whether standard error is a terminal.
    seen: bool,
}

impl Waits {
    /// Tells what is waited for, once that has taken so many of the most seconds. Who looks on sees it count down, in
    /// the place of a bar, and others are told at the first time.
    fn tell<R: Eprint>(&self, rt: &R, what: &str, is_first: bool, waited: u64, most: u64) {
        let (addr, left) = (self.addr, most.saturating_sub(waited));
        // Nothing is promised of standard error.
        let _ = if self.seen {
            eprint!(rt; "\rblobd: waits for {addr}, {what}: {left} s left\x1b[K")
        } else if is_first {
            eprintln!(rt; "blobd: waits for {addr}, {what}: {left} s left")
        } else {
            Ok(())
        };
    }
}

/// Whether a call ended because it waited for as long as it may.
fn is_over<T>(ended: &io::Result<T>) -> bool {
    let waited = |error: &io::Error| matches!(
        error.kind(),
        ErrorKind::WouldBlock | ErrorKind::TimedOut
    );
    ended.as_ref().is_err_and(waited)
}

/// Reads, and again while the peer says nothing, for half a minute at most. Each read waits for a part of that.
fn read_in_time<R: Eprint>(
    rt: &R,
    waits: Waits,
    stream: &mut TcpStream,
    buf: &mut [u8],
) -> io::Result<usize>
    ensures { IfOk result (λ n. n ≤ length buf.new) }
{
    for part in 1..SILENCE_SECONDS / TOLD_SECONDS {
        let moved = stream.read(buf);
        if !is_over(&moved) {
            return moved;
        }
        let waited = part.saturating_mul(TOLD_SECONDS);
        waits.tell(rt, "which says nothing", part == 1, waited, SILENCE_SECONDS);
    }
    stream.read(buf)
}

/// One end of a socket, which is only read from or only written to, and what was read or written so far.
#[derive(Drop)]
pub(crate) struct Socket<'r, R> {
    rt: &'r R,
    stream: TcpStream,
    waits: Waits,
    /// For how many seconds the peer has taken nothing; 0 if the last write didn't wait.
    untaken: u64,
    /// For contracts alone.
    moved: Transcript,
}

impl<'r, R> Socket<'r, R> {
    /// The end of a stream over which nothing has moved so far.
    fn new(rt: &'r R, stream: TcpStream, waits: Waits) -> Socket<'r, R>
        ensures { result.moved ≡ record { bytes = []; ended = false } }
    {
        Socket {
            rt,
            stream,
            waits,
            untaken: 0,
            moved: Transcript::none(),
        }
    }

    /// Whether something has come that isn't read yet, or the end.
    fn has_come(&self) -> bool {
        if self.stream.set_nonblocking(true).is_err() {
            return false;
        }
        let mut room = [0u8; 1];
        let looked = self.stream.peek(&mut room);
        let _ = self.stream.set_nonblocking(false);
        !is_would_block(&looked)
    }
}

impl<'r, R: Eprint> Socket<'r, R> {
    /// Notes what came of a write of so many bytes. Says whether it is made again: it waited, and moved nothing.
    fn waited(&mut self, wrote: &io::Result<usize>, asked: usize) -> bool
        ensures moved { self.new.moved ≡ self.old.moved }
        ensures again { result ≡ true → IsErr wrote.now }
    {
        match wrote {
            Ok(count) => {
                // A write that waits for longer than it may gives what it has moved.
                self.untaken = if *count < asked { LOOK_SECONDS } else { 0 };
                false
            }
            Err(_) if is_would_block(wrote) => {
                self.untaken = self.untaken.saturating_add(LOOK_SECONDS);
                if self.untaken % TOLD_SECONDS == 0 {
                    let is_first = self.untaken == TOLD_SECONDS;
                    let what = "which takes no more of a request";
                    self.waits
                        .tell(self.rt, what, is_first, self.untaken, SILENCE_SECONDS);
                }
                let goes_on = self.untaken < SILENCE_SECONDS;
                if !goes_on {
                    // No reply is waited for either: a read gives what has come, and then the end.
                    let _ = self.stream.shutdown(Shutdown::Read);
                }
                goes_on
            }
            Err(_) => false,
        }
    }

    /// Writes, and again while the peer takes nothing, for half a minute at most. A server may reply before it has
    /// taken all, and read no more: what is left is never taken then. So each second that it waits a write looks
    /// whether something has come, and fails if so, as one to a peer that has closed: the reply is read after it.
    /// After half a minute nothing more is waited for.
    fn write_in_time(&mut self, buf: &[u8]) -> io::Result<usize>
        ensures bound { IfOk result (λ n. n ≤ length buf.now) }
        ensures moved { self.new.moved ≡ self.old.moved }
    {
        for _ in 0..u64::MAX {
            if self.untaken > 0 && self.has_come() {
                return Err(io::Error::from_raw_os_error(EPIPE));
            }
            let wrote = self.stream.write(buf);
            if !self.waited(&wrote, buf.len()) {
                return wrote;
            }
        }
        Err(io::Error::from(ErrorKind::TimedOut))
    }
}

/// Whether a call ended because it would have waited for longer than it may.
fn is_would_block(ended: &io::Result<usize>) -> bool {
    ended
        .as_ref()
        .is_err_and(|error| error.kind() == ErrorKind::WouldBlock)
}

impl<'r, R: Eprint> Inlet for Socket<'r, R> {
    ghost given = { λ s. s.moved };

    fn read(&mut self, buf: &mut [u8]) -> io::Result<usize> {
        let count = read_in_time(self.rt, self.waits, &mut self.stream, buf)?;
        self.moved = self.moved.and(&buf[..count]);
        Ok(count)
    }
}

impl<'r, R: Eprint> Outlet for Socket<'r, R> {
    ghost taken = { λ s. s.moved.bytes };

    fn write(&mut self, buf: &[u8]) -> io::Result<usize> {
        let count = self.write_in_time(buf)?;
        self.moved = self.moved.and(&buf[..count]);
        Ok(count)
    }

    fn flush(&mut self) -> io::Result<()> {
        self.stream.flush()
    }
}

/// Ends the reads of a connection that move no byte for as long as `silence`, and its writes after each look: they
/// fail. It isn't zero.
fn end_silence(stream: &TcpStream, silence: Duration) -> io::Result<()>
    ensures { as_nanos silence ≡ 0 → IsErr result }
{
    stream.set_read_timeout(Some(silence))?;
    stream.set_write_timeout(Some(Duration::from_secs(LOOK_SECONDS)))
}

/// A new connection. An error is the system's, or says that none was made in time.
fn reach<R>(rt: &R, waits: Waits) -> io::Result<TcpStream>
where
    R: Net<Stream = TcpStream> + Eprint,
{
    let stream = TcpStream::connect_timeout(rt, &waits.addr, Duration::from_secs(TOLD_SECONDS));
    if is_over(&stream) {
        let what = "which takes no connection";
        waits.tell(rt, what, true, TOLD_SECONDS, CONNECT_SECONDS);
        let rest = CONNECT_SECONDS.saturating_sub(TOLD_SECONDS);
        return TcpStream::connect_timeout(rt, &waits.addr, Duration::from_secs(rest));
    }
    stream
}

/// Whether a connection wasn't made because nobody listens.
fn is_refused<T>(made: &io::Result<T>) -> bool {
    made.as_ref()
        .is_err_and(|error| error.kind() == ErrorKind::ConnectionRefused)
}

/// A new connection, for which it dials again while nobody listens, for up to a minute.
fn reach_in_time<R>(rt: &R, waits: Waits) -> io::Result<TcpStream>
where
    R: Net<Stream = TcpStream> + Clock + Eprint,
{
    let Ok(begun) = Instant::now(rt) else {
        return reach(rt, waits);
    };
    let mut untold = true;
    for _ in 0..u64::MAX {
        let stream = reach(rt, waits);
        if !is_refused(&stream) {
            return stream;
        }
        let passed = begun.elapsed(rt).map_or(u64::MAX, millis_of);
        let Some(pause) = dial_pause(passed) else {
            return stream;
        };
        let seconds = passed / 1_000;
        if seconds >= TOLD_SECONDS {
            let most = DIALED_MILLIS / 1_000;
            waits.tell(rt, "where nobody listens", untold, seconds, most);
            untold = false;
        }
        thread::sleep(rt, Duration::from_millis(pause));
    }
    reach(rt, waits)
}

/// The two ends of a new connection. An error is the system's, or says that no connection was made in time.
fn connect<'r, R>(
    rt: &'r R,
    waits: Waits,
    patient: bool,
) -> io::Result<(Socket<'r, R>, Socket<'r, R>)>
where
    R: Net<Stream = TcpStream> + Clock + Eprint,
    ensures { IfOk result (λ ends. (ends.0.moved ≡ record { bytes = []; ended = false })
        × (ends.1.moved ≡ record { bytes = []; ended = false })) }
{
    let stream = if patient {
        reach_in_time(rt, waits)?
    } else {
        reach(rt, waits)?
    };
    end_silence(&stream, Duration::from_secs(TOLD_SECONDS))?;
    // A peer that has gone already can make this fail; the reads and writes will tell.
    let _ = stream.set_nodelay(true);
    let source = Socket::new(rt, stream.try_clone()?, waits);
    Ok((source, Socket::new(rt, stream, waits)))
}

/// Connections to an address.
#[derive(Drop)]
pub(crate) struct Sockets<'r, R: Eprint> {
    rt: &'r R,
    waits: Waits,
    /// Whether a dial goes on while nobody listens: not after one that did so in vain.
    patient: bool,
    /// For contracts alone.
    history: ConnHistory<Socket<'r, R>, Socket<'r, R>>,
}

impl<'r, R: Eprint> Sockets<'r, R> {
    /// No connection was made so far.
    pub(crate) fn new(rt: &'r R, addr: SocketAddr, seen: bool) -> Sockets<'r, R>
        ensures { result.history ≡ [] }
    {
        Sockets {
            rt,
            waits: Waits { addr, seen },
            patient: true,
            history: ConnHistory::none(),
        }
    }
}

impl<'r, R: Net<Stream = TcpStream> + Clock + Eprint> Dials for Sockets<'r, R> {
    type In = Socket<'r, R>;

    type Out = Socket<'r, R>;

    ghost history = { λ s. s.history };

    fn dial(&mut self) -> io::Result<(Socket<'r, R>, Socket<'r, R>)> {
        let made = connect(self.rt, self.waits, self.patient);
        self.patient = !is_refused(&made);
        let ends = made?;
        self.history.note_made();
        Ok(ends)
    }

    /// Closes the connection.
    fn take_back(&mut self, source: Socket<'r, R>, sink: Socket<'r, R>) {
        self.history.note_back(&source, &sink);
    }
}

/// Pushes a file's bytes under a repository's name to the server at `addr`, in chunks of at most `chunk` bytes, unless
/// the repository has the blob already. Prints one line, and gives the exit status:
///
/// - `pushed` or `already` and the digest, 0: what each is worth is said at [`push`]. `already` comes
///   only if the reply to a HEAD tells the file's length and no other digest; before the push nothing is sent then;
/// - `refused: name` if `name` isn't one, and nothing is sent; `refused:` and the status and the error code of the
///   reply that ended the push; `refused: bad server` after a reply that no such service gives; `refused: out of
///   tries` after too many asks that weren't heard; 1;
/// - `fault: memory`, 3; and 3 if the line can't be printed.
///
/// If nobody listens at `addr`, one ask goes on dialing for up to a minute, so that a server may be started again
/// meanwhile. If that was in vain, it is one ask that wasn't heard, and those after it dial once each.
///
/// Standard error says more of what was refused, and that the server is waited for and for how long still, once it was
/// silent, or wasn't there, for five seconds. If it is a terminal, and so `seen`, a bar stands there meanwhile.
pub fn run_push<R, W>(
    rt: &R,
    addr: SocketAddr,
    name: &[u8],
    file: &[u8],
    chunk: u64,
    seen: bool,
    out: &mut W,
) -> u8
where
    R: Net<Stream = TcpStream> + AllocGlobal + Clock + Eprint + 'static,
    W: Write,
    requires size { length file.now ≤ 2 ^ 40 }
    requires chunk { (1 ≤ chunk) × (chunk ≤ 2 ^ 31) }
    ensures { IsPushed addr name.now file.now chunk (W.contents out.old)
        (W.contents out.new) result }
{
    let Ok(host) = format!(in rt.alloc(); "{addr}") else {
        return print_line(out, "fault: memory", FAULT);
    };
    let sockets = Sockets::new(rt, addr, seen);
    let job = Job {
        name,
        file,
        chunk,
        seen,
    };
    let (status, _) = push_over(rt, sockets, host.as_str(), job, out);
    status
}
