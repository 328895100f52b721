//! `blobd serve`: what is listened at, and what stands behind it.
ghost use Rattle.std.specs.Prelude.{◌≡◌, ◌≤◌, []};
ghost use Rattle.upload_keeper.specs.Safety.{Leads};

use blobd_data::{
    AnyBodies, CompactingFault, Damaged, DataFault, Teller, Watch, compact_if_worth, hint_on,
    open_data, tell_losses, tell_missing,
};
use blobd_serve::{Terms, limits, run_serve, run_serve_kept};
use blobd_shared::{ByteCount, FAULT, Holding, millis_since, print_line};
use journal_file::Wary;
use std::alloc::{AllocError, Global};
use std::io::{Eprint, ErrorKind, Write};
use std::net::{Net, SocketAddr, TcpListener, TcpStream};
use std::random::RandomSource;
use std::rt::Clock;
use std::sync::Wait;
use std::thread::Threads;
use std::time::Instant;
use std::{fmt, io};
use upload_bytes::Room;
use upload_keeper::{Keeping, KeptService};
use upload_service::Counts;

/// To whom a server tells of itself.
#[derive(Clone, Copy)]
pub struct Audience {
    /// Whether somebody looks on.
    pub seen: bool,
    /// Whether the environment says how much the server may hold.
    pub limited: bool,
}

/// Below so many bytes hardly a blob has room.
const SMALL_MEMORY: u64 = 65_536;

/// How much a server may hold, as it is told: `64.0 MiB (BLOBD_MEMORY)`.
#[derive(Clone, Copy)]
struct Most {
    bytes: u64,
    limited: bool,
}

impl fmt::Display for Most {
    fn fmt<W: fmt::Write>(&self, f: &mut fmt::Formatter<W>) -> fmt::Result {
        let bytes = ByteCount(self.bytes);
        if self.limited {
            write!(f, "{bytes} (BLOBD_MEMORY)")
        } else {
            write!(
                f,
                "{bytes} (three quarters of what it may use, since BLOBD_MEMORY isn't set)"
            )
        }
    }
}

/// How much a server may hold, as the reason why it can't open a directory: `BLOBD_MEMORY is 24.0 GiB`.
#[derive(Clone, Copy)]
struct Limit(Most);

impl fmt::Display for Limit {
    fn fmt<W: fmt::Write>(&self, f: &mut fmt::Formatter<W>) -> fmt::Result {
        let Most { bytes, limited } = self.0;
        if limited {
            write!(f, "BLOBD_MEMORY is {}", ByteCount(bytes))
        } else {
            write!(f, "a server may hold {}", self.0)
        }
    }
}

/// Tells everybody if the environment says so little that hardly a blob has room.
fn print_small<R: Eprint>(rt: &R, memory: Option<u64>, limited: bool) {
    match memory {
        Some(bytes) if limited && bytes < SMALL_MEMORY => {
            let _ = eprintln!(rt;
                "blobd: BLOBD_MEMORY is {}, in which hardly a blob has room: it may be 512M or 8G",
                ByteCount(bytes)
            );
        }
        _ => {}
    }
}

/// Says how much a server may hold, to somebody who looks on; and to everybody if there is no limit.
fn print_memory<R: Eprint>(rt: &R, memory: Option<u64>, audience: Audience) {
    let _ = match memory {
        Some(bytes) if audience.seen => {
            let limited = audience.limited;
            eprintln!(rt; "blobd: it holds at most {}", Most { bytes, limited })
        }
        Some(_) => Ok(()),
        None => eprintln!(rt;
            "blobd: it has no limit, since BLOBD_MEMORY isn't set and none can be read here"
        ),
    };
}

/// Says what a server has, and how much of it may be in memory.
fn print_holding<R: Eprint>(rt: &R, counts: Counts, memory: Option<u64>, limited: bool) {
    let holding = Holding(counts);
    let _ = match memory {
        Some(bytes) => {
            let most = Most { bytes, limited };
            eprintln!(rt; "blobd: {holding}; in memory it holds at most {most}")
        }
        None => eprintln!(rt; "blobd: {holding}"),
    };
}

/// Says why a data directory can't be used, and what to do.
fn print_no_data<R: Eprint>(
    rt: &R,
    path: &str,
    fault: &DataFault,
    memory: Option<u64>,
    limited: bool,
) {
    let _ = match memory {
        Some(bytes) if fault.lacks_room() => {
            let limit = Limit(Most { bytes, limited });
            eprintln!(rt;
                "blobd: can't use {path}: {limit}, and a start takes more: `blobd compact {path}` may help, or set BLOBD_MEMORY to more; {fault}"
            )
        }
        _ => eprintln!(rt; "blobd: can't use {path}: {fault}{}", hint_on(fault)),
    };
}

/// Tells somebody who looks on how a server is stopped.
fn print_stop<R: Eprint>(rt: &R, kept: Option<&str>, seen: bool) {
    if !seen {
        return;
    }
    let _ = match kept {
        None => eprintln!(rt; "blobd: Ctrl-C stops it, and its blobs go with it"),
        Some(path) => eprintln!(rt; "blobd: Ctrl-C stops it, and its blobs stay in {path}"),
    };
}

/// Says why nothing listens there.
fn print_no_listener<R: Eprint>(rt: &R, addr: SocketAddr, error: &io::Error) {
    let _ = eprintln!(rt; "blobd: can't listen at {addr}: {error}");
    if error.kind() == ErrorKind::AddrInUse {
        let port = addr.port();
        let _ = eprintln!(rt;
            "blobd: another program has port {port} (ss -ltnp shows which; 5000 is also docker-registry's)"
        );
    }
}

/// Has the journal of the data directory at `path` written anew if much of it is dead, and says so, with the time that
/// it took. If that can't be done a start goes on, and says why, unless it comes to the same itself.
fn make_room<R: Threads + Eprint + Clock>(
    rt: &R,
    host: &HostRuntime,
    path: &str,
    memory: Option<u64>,
) {
    let begun = Instant::now(rt).ok();
    let made = compact_if_worth::<R, Wary, Wary, Wary, Wary, AnyBodies>(
        rt,
        host,
        path,
        limits(),
        memory,
        Wary,
        Wary,
        Wary,
    );
    let _ = match made {
        Ok(None) | Err(CompactingFault::Data(_)) => Ok(()),
        Ok(Some(room)) => {
            let millis = millis_since(rt, begun);
            let (whole, tenth) = (millis / 1_000, millis % 1_000 / 100);
            eprintln!(rt; "blobd: {path} was compacted in {whole}.{tenth} s: {room}")
        }
        Err(fault) => eprintln!(rt; "blobd: {path} wasn't compacted: {fault}"),
    };
}

/// Room for so many bytes, if there is a limit.
fn room_of(alloc: Global, memory: Option<u64>) -> Result<Option<Room>, AllocError> {
    match memory {
        Some(bytes) => Ok(Some(Room::of(alloc, bytes)?)),
        None => Ok(None),
    }
}

/// What listens at an address. An error is the exit status, once it was printed why.
fn bind<R, W>(rt: &R, addr: SocketAddr, out: &mut W) -> Result<TcpListener, u8>
where
    R: Eprint + Net<Listener = TcpListener, Stream = TcpStream>,
    W: Write,
{
    match TcpListener::bind(rt, addr) {
        Ok(listener) => Ok(listener),
        Err(error) => {
            print_no_listener(rt, addr, &error);
            Err(print_line(out, "fault: listen", FAULT))
        }
    }
}

/// Serves what comes to an address, by a new service; gives the exit status.
pub fn listen<R>(rt: &R, addr: SocketAddr, terms: Terms, audience: Audience) -> u8
where
    R: Threads + Wait + Sync + Copy + Send + 'static,
    R: AllocGlobal + Clock + RandomSource + Print + Eprint,
    R: Net<Listener = TcpListener, Stream = TcpStream>,
    requires { 1 ≤ terms.workers }
{
    let mut out = io::writer(rt);
    match bind(rt, addr, &mut out) {
        Ok(listener) => {
            print_memory(rt, terms.memory, audience);
            print_small(rt, terms.memory, audience.limited);
            print_stop(rt, None, audience.seen);
            run_serve(rt, &listener, terms, &mut out)
        }
        Err(status) => status,
    }
}

/// Serves what comes to an address, by the service that is kept in the data directory at `path`; gives the exit status.
/// The directory is locked and read first, and standard error says what of it is lost.
///
/// `fault: data` is printed if it can't be, or is damaged and to be refused then, and standard error says why.
pub fn listen_keeping<'a, R>(
    rt: &'a R,
    host: &HostRuntime,
    addr: SocketAddr,
    terms: Terms,
    path: &'a str,
    damaged: Damaged,
    audience: Audience,
) -> u8
where
    R: Threads + Wait + Sync + Copy + Send + 'static,
    R: AllocGlobal + Clock + RandomSource + Print + Eprint,
    R: Net<Listener = TcpListener, Stream = TcpStream>,
    requires { 1 ≤ terms.workers }
{
    let mut out = io::writer(rt);
    let Ok(room) = room_of(host.alloc(), terms.memory) else {
        return print_line(&mut out, "fault: memory", FAULT);
    };
    print_small(rt, terms.memory, audience.limited);
    make_room(rt, host, path, terms.memory);
    let opened = open_data::<R, Wary, Wary, AnyBodies, _>(
        Watch {
            rt,
            seen: audience.seen,
        },
        host,
        path,
        limits(),
        room,
        Wary,
        Teller::new(rt, path),
        damaged,
    );
    let data = match opened {
        Ok(data) => data,
        Err(fault) => {
            print_no_data(rt, path, &fault, terms.memory, audience.limited);
            return print_line(&mut out, "fault: data", FAULT);
        }
    };
    tell_losses(rt, host, path, &data.losses);
    tell_missing(rt, path, data.missing);
    listen_over(rt, addr, terms, data.kept, path, audience, &mut out)
}

/// Serves what comes to an address, by a service that is kept in the data directory at `path`; gives the exit status.
fn listen_over<R, K, W>(
    rt: &R,
    addr: SocketAddr,
    terms: Terms,
    kept: KeptService<K>,
    path: &str,
    audience: Audience,
    out: &mut W,
) -> u8
where
    R: Threads + Wait + Sync + Copy + Send + 'static,
    R: AllocGlobal + Clock + RandomSource + Eprint,
    R: Net<Listener = TcpListener, Stream = TcpStream>,
    K: Keeping + Drop,
    W: Write,
    requires workers { 1 ≤ terms.workers }
    requires leads { Leads (K.start kept.keeping) (K.kept kept.keeping) kept.since kept.service }
    requires waiting { K.waiting kept.keeping ≡ [] }
    requires begun { kept.since ≤ K.last kept.keeping }
{
    print_holding(rt, kept.service.counts(), terms.memory, audience.limited);
    match bind(rt, addr, out) {
        Ok(listener) => {
            let unseen = Audience {
                seen: false,
                limited: audience.limited,
            };
            print_memory(rt, terms.memory, unseen);
            print_stop(rt, Some(path), audience.seen);
            run_serve_kept(rt, &listener, terms, kept, out)
        }
        Err(status) => status,
    }
}
