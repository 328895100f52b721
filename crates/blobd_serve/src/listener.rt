//! The connections of `blobd serve`: sockets that a listener accepts. No contract can say what a socket gives and
//! takes: that what is noted here is what the system's calls moved is to be read in this file, and in no other of this
//! crate but `closing`, where each goes after its last reply.
ghost use Rattle.std.specs.Prelude.{◌≡◌, ◌<◌, ◌≤◌, [], All, IfOk, false, vec_len};
ghost use Rattle.upload_intake.specs.Pools.Working.{lending, means};
ghost use Rattle.upload_keeper.specs.Safety.{Leads};
ghost use Rattle.blobd_serve.specs.Serving.{IsServed, ServesAnew, ServesOn};

use crate::accept::{Accepted, Reader, Terms, Writer};
use crate::accepts::{Accepts, Timed};
use crate::background::Background;
use crate::closing::{Closer, Closing};
use crate::kept::serve_kept_over;
use crate::request_log::RequestLog;
use crate::serve::serve_over;
use crate::shutting::{Ended, Shutter, Shutting};
use crate::workers::{SinceStart, SystemSecrets};
use blobd_shared::{ConnHistory, FAULT, Inlet, Outlet, print_line};
use http_wire::{ByteSink, ByteSource, Excerpt, Transcript};
use std::alloc::{AllocError, Global};
use std::io;
use std::io::{Eprint, ErrorKind, Read, Write};
use std::net::{SocketAddr, TcpListener, TcpStream};
use std::random::RandomSource;
use std::rt::Clock;
use std::sync::{Arc, Wait};
use std::thread::Threads;
use std::time::Duration;
use upload_intake::{Conns, Gate, Keeping, KeptService, Moments, NoGate, Secrets};
use upload_wire::Observer;

/// The stream of a connection, of which each end has a share, so that it has one descriptor.
type Shared = Arc<Option<TcpStream>, Global>;

/// One end of a socket, which is only read from or only written to, and what was read or written so far.
#[derive(Drop)]
pub(crate) struct Socket {
    shared: Shared,
    /// Whether its server has ended.
    ended: Ended,
    /// For contracts alone.
    moved: Transcript,
}

impl Socket {
    /// The end of a stream over which nothing has moved so far.
    fn new(shared: Shared, ended: Ended) -> Socket
        ensures { result.moved ≡ record { bytes = []; ended = false } }
    {
        Socket {
            shared,
            ended,
            moved: Transcript::none(),
        }
    }

    /// The stream, which is there until the connection is given back.
    fn stream(&self) -> io::Result<&TcpStream> {
        match self.shared.as_ref() {
            Some(stream) => Ok(stream),
            None => Err(io::Error::from(ErrorKind::NotConnected)),
        }
    }
}

impl Inlet for Socket {
    ghost given = { λ s. s.moved };

    fn read(&mut self, buf: &mut [u8]) -> io::Result<usize> {
        let mut stream = self.stream()?;
        let count = stream.read(buf)?;
        self.moved = self.moved.and(&buf[..count]);
        Ok(count)
    }
}

impl Outlet for Socket {
    ghost taken = { λ s. s.moved.bytes };

    fn write(&mut self, buf: &[u8]) -> io::Result<usize> {
        let mut stream = self.stream()?;
        let count = stream.write(buf)?;
        self.moved = self.moved.and(&buf[..count]);
        Ok(count)
    }

    // What came of the file is written, and what the file was given is told: this is the one place where the one is taken
    // for the other.
    fn write_excerpt(&mut self, excerpt: &Excerpt<'_>) -> io::Result<usize> {
        if excerpt.as_slice().is_empty() {
            return Err(ErrorKind::UnexpectedEof.into());
        }
        let mut stream = self.stream()?;
        let count = stream.write(excerpt.as_slice())?;
        self.moved = self.moved.and_excerpt(excerpt, count);
        Ok(count)
    }

    fn flush(&mut self) -> io::Result<()> {
        // A socket has nothing to flush.
        Ok(())
    }
}

impl Timed for Socket {
    fn limit_reads(&self, longest: Duration) -> io::Result<()> {
        self.stream()?.set_read_timeout(Some(longest))
    }

    fn limit_writes(&self, longest: Duration) -> io::Result<()> {
        self.stream()?.set_write_timeout(Some(longest))
    }

    fn has_ended(&self) -> bool {
        self.ended.has_ended()
    }
}

/// A listener, as one worker has it.
#[derive(Drop)]
pub(crate) struct Door<'a, R> {
    rt: &'a R,
    alloc: Global,
    listener: &'a TcpListener,
    /// Room for the next connection, if none is served: it is made once, so that no connection takes memory.
    spare: Option<Shared>,
    /// Where a connection is closed once it is given back.
    closing: Closing,
    /// Whether the server has ended.
    ended: Ended,
    /// For contracts alone.
    history: ConnHistory<Socket, Socket>,
}

impl<'a, R> Door<'a, R> {
    /// Nothing was accepted so far. An error is out of memory.
    fn new(
        rt: &'a R,
        alloc: Global,
        listener: &'a TcpListener,
        closer: &Option<Closer>,
        ended: &Ended,
    ) -> Result<Door<'a, R>, AllocError>
        ensures { IfOk result (λ door. door.history ≡ []) }
    {
        Ok(Door {
            rt,
            alloc,
            listener,
            spare: Some(Arc::new(alloc, None)?),
            closing: Closing::new(closer)?,
            ended: ended.share()?,
            history: ConnHistory::none(),
        })
    }

    /// Room for a connection, which has this stream.
    fn shared(&mut self, stream: TcpStream) -> Result<Shared, AllocError>
        ensures { self.new.history ≡ self.old.history }
    {
        // There is some, unless the connection before wasn't given back.
        let mut shared = match self.spare.take() {
            Some(spare) => spare,
            None => Arc::new(self.alloc, None)?,
        };
        if let Some(room) = Arc::get_mut(&mut shared) {
            *room = Some(stream);
        }
        Ok(shared)
    }
}

impl<'a, R: Wait + Sync> Accepts for Door<'a, R> {
    type In = Socket;

    type Out = Socket;

    ghost history = { λ d. d.history };

    // It was served.
    ghost may_come_back = { λ _ ends. IsServed ends.0.moved ends.1.moved.bytes };

    fn accept(&mut self) -> io::Result<(Socket, Socket)> {
        let (read, write) = (self.ended.share()?, self.ended.share()?);
        let (stream, _) = self.listener.accept()?;
        // What is written leaves as it is written: a head and a small body are one write. A peer that has gone already
        // can make this fail; the reads and writes will tell.
        let _ = stream.set_nodelay(true);
        let shared = self.shared(stream)?;
        let source = Socket::new(Arc::try_clone(&shared)?, read);
        let sink = Socket::new(shared, write);
        self.history.note_made();
        Ok((source, sink))
    }

    fn has_ended(&self) -> bool {
        self.ended.has_ended()
    }

    /// Closes the connection.
    fn take_back(&mut self, source: Socket, sink: Socket) {
        self.history.note_back(&source, &sink);
        drop(sink);
        let Socket { mut shared, .. } = source;
        if let Some(room) = Arc::get_mut(&mut shared)
            && let Some(stream) = room.take()
        {
            self.closing.close(self.rt, stream);
        }
        self.spare = Some(shared);
    }
}

/// So many doors of a listener. An error is out of memory.
fn doors<'a, R>(
    rt: &'a R,
    alloc: Global,
    listener: &'a TcpListener,
    count: usize,
    closer: &Option<Closer>,
    ended: &Ended,
) -> Result<Vec<Door<'a, R>>, AllocError>
    ensures number { IfOk result (λ doors. vec_len doors ≡ count) }
    ensures new { IfOk result (λ doors. All (λ door. door.history ≡ []) doors.items) }
{
    let mut doors = Vec::new(alloc);
    for number in 0..count {
        doors.push(Door::new(rt, alloc, listener, closer, ended)?)?;
    }
    Ok(doors)
}

/// A listener that is there to be served.
#[derive(Drop)]
struct Opened<'a, R> {
    addr: SocketAddr,
    /// What all doors see of whether the server has ended.
    ended: Ended,
    closer: Option<Closer>,
    doors: Vec<Door<'a, R>>,
}

/// So many doors of a listener, and its address. An error is what is to be printed.
fn open_doors<'a, R>(
    rt: &'a R,
    listener: &'a TcpListener,
    count: usize,
) -> Result<Opened<'a, R>, &'static str>
where
    R: Threads + Wait + Sync + AllocGlobal + Clock + Eprint + Copy + Send + 'static,
    ensures number { IfOk result (λ opened. vec_len opened.doors ≡ count) }
    ensures new { IfOk result (λ opened. All (λ door. door.history ≡ []) opened.doors.items) }
{
    let Ok(addr) = listener.local_addr() else {
        return Err("fault: listen");
    };
    let Ok(ended) = Ended::new(rt.alloc()) else {
        return Err("fault: workers");
    };
    let closer = Closer::start(rt, rt.alloc());
    let Ok(doors) = doors(rt, rt.alloc(), listener, count, &closer, &ended) else {
        return Err("fault: workers");
    };
    Ok(Opened {
        addr,
        ended,
        closer,
        doors,
    })
}

/// Serves a listener: so many workers take connections on these terms. Prints `listening` and the local address, and
/// `served` after the last connection; gives the exit status.
///
/// The lines of a log that still wait are written before the last line is printed, for which it waits two seconds at
/// most; and before it returns, the last connections are closed, for which it waits six.
///
/// A fault is printed in place of the line that would come next, and has status 3: `fault: listen` if the local
/// address can't be told, `fault: log` if a log is wanted and its thread can't be made or its lines find no memory,
/// `fault: random` if a generator of secrets can't be made, `fault: workers` if the workers couldn't be started
/// (once those that were started have ended, which each does after the first request that comes to it), and
/// `fault: accept` if a worker couldn't take a connection, once the others have ended too; that one is told on
/// standard error at once. A line that can't be printed ends the program with status 3.
pub fn run_serve<'a, R, W>(rt: &'a R, listener: &'a TcpListener, terms: Terms, out: &mut W) -> u8
where
    R: Threads + Wait + Sync + AllocGlobal + Clock + RandomSource + Eprint + Copy + Send + 'static,
    W: Write,
    requires { 0 < terms.workers }
    ensures { ServesAnew
        (means
        (lending ⟦<Accepted<'a, Door<'a, R>, R> as Conns>⟧.gives
        ⟦<Accepted<'a, Door<'a, R>, R> as Conns>⟧.takes_back
        ⟦<Reader<'a, Door<'a, R>, R> as ByteSource>⟧.state
        ⟦<Writer<'a, Door<'a, R>, R> as ByteSink>⟧.state)
        ⟦<SystemSecrets as Secrets>⟧.draws ⟦<NoGate as Gate>⟧.watches
        ⟦<RequestLog<'a, R> as Observer>⟧.told)
        ⟦<SinceStart<'a, R> as Moments>⟧.tells
        terms.workers terms.count (W.contents out.old) (W.contents out.new) result }
{
    let Opened {
        addr,
        closer,
        doors,
        ..
    } = match open_doors(rt, listener, terms.workers) {
        Ok(opened) => opened,
        Err(fault) => return print_line(out, fault, FAULT),
    };
    let (status, doors) = serve_over(rt, addr, doors, terms, out);
    // The thread that closes ends once nobody can hand it another connection.
    drop(doors);
    Background::finish(closer, rt);
    status
}

/// Serves a listener as [`run_serve`] does, from this service on. Each request that changes it is kept before its
/// answer is written. If that fails, nobody hears that answer or a later one, the listener is shut, each connection is
/// ended, and `fault: data` is printed in place of `served` once the workers have ended, which takes a second or so;
/// then the last connections are closed, as there. `fault: listen` is also printed if the listener can't be shared with
/// what shuts it.
pub fn run_serve_kept<'a, R, K, W>(
    rt: &'a R,
    listener: &'a TcpListener,
    terms: Terms,
    kept: KeptService<K>,
    out: &mut W,
) -> u8
where
    R: Threads + Wait + Sync + AllocGlobal + Clock + RandomSource + Eprint + Copy + Send + 'static,
    K: Keeping + Drop,
    W: Write,
    requires workers { 0 < terms.workers }
    requires leads { Leads (K.start kept.keeping) (K.kept kept.keeping) kept.since kept.service }
    requires waiting { K.waiting kept.keeping ≡ [] }
    requires begun { kept.since ≤ K.last kept.keeping }
    ensures { ServesOn
        (means
        (lending ⟦<Accepted<'a, Door<'a, R>, R> as Conns>⟧.gives
        ⟦<Accepted<'a, Door<'a, R>, R> as Conns>⟧.takes_back
        ⟦<Reader<'a, Door<'a, R>, R> as ByteSource>⟧.state
        ⟦<Writer<'a, Door<'a, R>, R> as ByteSink>⟧.state)
        ⟦<SystemSecrets as Secrets>⟧.draws ⟦<NoGate as Gate>⟧.watches
        ⟦<RequestLog<'a, R> as Observer>⟧.told)
        ⟦<SinceStart<'a, R> as Moments>⟧.tells
        kept.since kept.service (K.kept kept.keeping) terms.workers terms.count
        (W.contents out.old) (W.contents out.new) result }
{
    let Opened {
        addr,
        ended,
        closer,
        doors,
    } = match open_doors(rt, listener, terms.workers) {
        Ok(opened) => opened,
        Err(fault) => return print_line(out, fault, FAULT),
    };
    let Ok(shutter) = Shutter::new(listener, ended) else {
        return print_line(out, "fault: listen", FAULT);
    };
    let KeptService {
        service,
        keeping,
        since,
    } = kept;
    let kept = KeptService {
        service,
        keeping: Shutting { keeping, shutter },
        since,
    };
    let (status, back) = serve_kept_over(rt, addr, doors, terms, kept, out);
    // The thread that closes ends once nobody can hand it another connection.
    if let Some((doors, _keeping)) = back {
        drop(doors);
    }
    Background::finish(closer, rt);
    status
}
