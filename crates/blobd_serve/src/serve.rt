//! `blobd serve`: the workers of a server round a new service, each over a door of its own.
ghost use Rattle.std.specs.Prelude.{◌≡◌, ◌⊎◌, ◌<◌, ◌≤◌, true, [], All, IfOk, map, option_map, codes};
ghost use Rattle.std.specs.Prelude.{vec_capacity, vec_len};
ghost use Rattle.std.specs.Io.KnownBytes.{Appends};
ghost use Rattle.blobd_shared.specs.Status.{line};
ghost use Rattle.upload_intake.specs.Pools.Working.{lending, means};
ghost use Rattle.upload_service.specs.Machine.{empty_state};
ghost use Rattle.blobd_serve.specs.Limits.{program_limits};
ghost use Rattle.blobd_serve.specs.Doors.{doors_of, lefts_of};
ghost use Rattle.blobd_serve.specs.Serving.{EndsServing, IsServedOver, DoorsTakeBack};

use crate::accept::{Accepted, Reader, Terms, Writer};
use crate::accepts::Accepts;
use crate::background::Background;
use crate::holdings::Holdings;
use crate::log_lines::Log;
use crate::request_log::RequestLog;
use crate::service_limits::limits;
use crate::workers::{DoorWorker, Ready, SinceStart, SystemSecrets, take_doors, took_all};
use blobd_shared::{DONE, FAULT, print_line};
use http_wire::{ByteSink, ByteSource};
use std::alloc::{AllocError, Global};
use std::io::{Eprint, Write};
use std::net::SocketAddr;
use std::random::RandomSource;
use std::rt::Clock;
use std::sync::Wait;
use std::thread::Threads;
use upload_bytes::Room;
use upload_intake::{Conns, Gate, Moments, NoGate, Secrets, ServeFault, serve_workers};
use upload_service::Service;
use upload_wire::Observer;

/// A new service, which holds at most so many bytes if there is a limit.
fn new_service(alloc: Global, memory: Option<u64>) -> Result<Service, AllocError>
    ensures { IfOk result (λ service. service ≡ empty_state program_limits 0) }
{
    match memory {
        Some(bytes) => Ok(Service::within(alloc, limits(), Room::of(alloc, bytes)?)),
        None => Ok(Service::new(alloc, limits())),
    }
}

/// What the workers of a new service left: whether each took all of its connections, and their doors, which go where
/// there is room for them.
fn serve_all<'a, L, R>(
    rt: &'a R,
    alloc: Global,
    workers: Vec<DoorWorker<'a, L, R>>,
    room: Vec<L>,
    terms: Terms,
    log: &Option<Log>,
) -> Result<(bool, Vec<L>), ServeFault>
where
    L: Accepts + Send + Drop,
    L::In: Send,
    L::Out: Send,
    R: Threads + Wait + Sync + Clock + Eprint,
    requires some { 0 < vec_len workers }
    requires left { All (λ left. left ≡ terms.count) (lefts_of workers.items) }
    requires none { room.items ≡ [] }
    requires room { vec_len workers ≤ vec_capacity room }
    requires come_back { DoorsTakeBack L.In.given L.Out.taken L.may_come_back }
    ensures served { IfOk result (λ ended. IsServedOver
        (means
        (lending ⟦<Accepted<'a, L, R> as Conns>⟧.gives ⟦<Accepted<'a, L, R> as Conns>⟧.takes_back
        ⟦<Reader<'a, L, R> as ByteSource>⟧.state ⟦<Writer<'a, L, R> as ByteSink>⟧.state)
        ⟦<SystemSecrets as Secrets>⟧.draws ⟦<NoGate as Gate>⟧.watches
        ⟦<RequestLog<'a, R> as Observer>⟧.told)
        ⟦<SinceStart<'a, R> as Moments>⟧.tells
        (λ n. n ≤ terms.count) (map L.history (doors_of workers.entry.items))
        (map L.history ended.1.items)) }
    ensures took { IfOk result (λ ended. ended.0 ≡ true → IsServedOver
        (means
        (lending ⟦<Accepted<'a, L, R> as Conns>⟧.gives ⟦<Accepted<'a, L, R> as Conns>⟧.takes_back
        ⟦<Reader<'a, L, R> as ByteSource>⟧.state ⟦<Writer<'a, L, R> as ByteSink>⟧.state)
        ⟦<SystemSecrets as Secrets>⟧.draws ⟦<NoGate as Gate>⟧.watches
        ⟦<RequestLog<'a, R> as Observer>⟧.told)
        ⟦<SinceStart<'a, R> as Moments>⟧.tells
        (λ n. n ≡ terms.count) (map L.history (doors_of workers.entry.items))
        (map L.history ended.1.items)) }
{
    let Ok(service) = new_service(alloc, terms.memory) else {
        return Err(ServeFault::NoMemory);
    };
    let moments = SinceStart::behind(rt, 0, Holdings::of(rt, alloc, log, &service));
    let pool = serve_workers(rt, alloc, service, workers, moments)?;
    let took = took_all(&pool.ends, terms.count);
    Ok((took, take_doors(pool.workers, room)))
}

/// Prints how the workers ended, if they were started, and gives the exit status: whether each took all of its
/// connections.
pub(crate) fn print_end<W: Write>(out: &mut W, took: bool) -> u8
    ensures { ((took ≡ true) × (result ≡ 0) × Appends (W.contents out.old) (W.contents out.new)
        (line (codes "served"))) ⊎ (result ≡ 3) }
{
    if took {
        print_line(out, "served", DONE)
    } else {
        print_line(out, "fault: accept", FAULT)
    }
}

/// Serves connections that come to these doors: each has a worker of its own, and a new service is behind them all.
/// Prints `listening` and the address, and `served` after the last connection; gives the exit status, and hands the
/// doors back, unless they are lost after a fault. See [`run_serve`](crate::run_serve). What was served was read and
/// written over the connections that were accepted there, `terms.count` at each door if `served` is printed.
pub fn serve_over<'a, L, R, W>(
    rt: &'a R,
    addr: SocketAddr,
    doors: Vec<L>,
    terms: Terms,
    out: &mut W,
) -> (u8, Option<Vec<L>>)
where
    L: Accepts + Send + Drop,
    L::In: Send,
    L::Out: Send,
    R: Threads + Wait + Sync + AllocGlobal + Clock + RandomSource + Eprint + Copy + Send + 'static,
    W: Write,
    requires some { 0 < vec_len doors }
    requires free { All L.is_free doors.items }
    requires come_back { DoorsTakeBack L.In.given L.Out.taken L.may_come_back }
    ensures { EndsServing
        (means
        (lending ⟦<Accepted<'a, L, R> as Conns>⟧.gives ⟦<Accepted<'a, L, R> as Conns>⟧.takes_back
        ⟦<Reader<'a, L, R> as ByteSource>⟧.state ⟦<Writer<'a, L, R> as ByteSink>⟧.state)
        ⟦<SystemSecrets as Secrets>⟧.draws ⟦<NoGate as Gate>⟧.watches
        ⟦<RequestLog<'a, R> as Observer>⟧.told)
        ⟦<SinceStart<'a, R> as Moments>⟧.tells
        terms.count (map L.history doors.items) addr
        (option_map (λ back. map L.history back.items) result.1)
        (W.contents out.old) (W.contents out.new) result.0 }
{
    let Ready { workers, room, log } = match Ready::get(rt, addr, doors, terms, out) {
        Ok(ready) => ready,
        Err(status) => return (status, None),
    };
    let ended = serve_all(rt, rt.alloc(), workers, room, terms, &log);
    Background::finish(log, rt);
    match ended {
        Ok((took, doors)) => (print_end(out, took), Some(doors)),
        Err(_) => (print_line(out, "fault: workers", FAULT), None),
    }
}
