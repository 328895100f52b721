//! The workers of a server, each over a door of its own, and the clock and the secrets that they are served with.
ghost use Rattle.std.specs.Prelude.{◌≡◌, ◌<◌, ◌≤◌, ◌++◌, true, [], All, None, IfOk, IfErr, OnOk, codes};
ghost use Rattle.std.specs.Prelude.{vec_capacity, vec_len};
ghost use Rattle.std.specs.Io.KnownBytes.{Appends};
ghost use Rattle.std.specs.Net.Text.{socket_text};
ghost use Rattle.blobd_shared.specs.Status.{line};
ghost use Rattle.blobd_serve.specs.Doors.{doors_of, lefts_of};

use crate::accept::{Accepted, Terms};
use crate::accepts::Accepts;
use crate::fullness::Fullness;
use crate::holdings::Holdings;
use crate::log_lines::{Log, LogLines};
use crate::request_log::RequestLog;
use blobd_shared::{DONE, FAULT, print_line};
use rand::rngs::StdRng;
use std::alloc::{AllocError, Global};
use std::io;
use std::io::{Eprint, Write};
use std::net::SocketAddr;
use std::random::RandomSource;
use std::rt::Clock;
use std::sync::Wait;
use std::thread::Threads;
use std::time::Instant;
use upload_intake::{DrawnSecrets, Moments, NoGate, Worker, WorkerEnd};
use upload_service::Service;

/// Secrets of the system's random numbers.
pub(crate) type SystemSecrets = DrawnSecrets<StdRng>;

/// Whole seconds since a start, and those that had passed before it. A clock that can't be read tells the latter, which
/// the keeper takes as no time passed. Between two requests a log may be told what the service holds.
#[derive(Drop)]
pub(crate) struct SinceStart<'a, R> {
    rt: &'a R,
    start: Option<Instant>,
    before: u64,
    holdings: Option<Holdings<'a, R>>,
}

impl<'a, R: Clock> SinceStart<'a, R> {
    /// The clock begins now, with so many seconds passed already.
    pub(crate) fn behind(
        rt: &'a R,
        before: u64,
        holdings: Option<Holdings<'a, R>>,
    ) -> SinceStart<'a, R>
        ensures { result.before ≡ before }
    {
        SinceStart {
            rt,
            start: Instant::now(rt).ok(),
            before,
            holdings,
        }
    }
}

impl<'a, R: Clock + Wait> Moments for SinceStart<'a, R> {
    // The clock is as it was, and one that can't be read tells what had passed before. Nothing is said of what the
    // system's clock tells.
    ghost tells = { λ old told new. (new ≡ old) × (old.before ≤ told)
        × (old.start ≡ None → told ≡ old.before) };

    fn now(&mut self) -> u64 {
        let Some(start) = self.start else {
            return self.before;
        };
        match start.elapsed(self.rt) {
            Ok(passed) => self.before.saturating_add(passed.as_secs()),
            Err(_) => self.before,
        }
    }

    fn rests(&self, service: &Service) {
        if let Some(holdings) = &self.holdings {
            holdings.look(service);
        }
    }
}

fn system_secrets<R: RandomSource>(rt: &R) -> io::Result<SystemSecrets> {
    Ok(DrawnSecrets::new(rand::make_rng(rt)?))
}

/// Why there are no workers.
#[derive(Clone, Copy, Debug, Drop, PartialEq, Eq)]
enum Lack {
    /// A generator of secrets can't be made.
    Secrets,
    /// The log's thread can't be made, or there is no memory for its lines.
    Log,
    /// There is no memory for them.
    Memory,
}

impl Lack {
    /// What is printed of it.
    fn line(self) -> &'static str {
        match self {
            Lack::Secrets => "fault: random",
            Lack::Log => "fault: log",
            Lack::Memory => "fault: workers",
        }
    }
}

impl From<AllocError> for Lack {
    fn from(_: AllocError) -> Lack {
        Lack::Memory
    }
}

/// A log, if one is wanted.
fn start_log<R>(rt: &R, alloc: Global, logged: bool) -> Result<Option<Log>, Lack>
where
    R: Threads + Wait + Clock + Eprint + Copy + Send + 'static,
{
    if !logged {
        return Ok(None);
    }
    match Log::start(rt, alloc) {
        Some(log) => Ok(Some(log)),
        None => Err(Lack::Log),
    }
}

/// A place for the lines of a worker, if there is a log.
fn lines_of(log: &Option<Log>) -> Result<Option<LogLines>, Lack> {
    match log {
        Some(log) => match LogLines::new(log) {
            Ok(lines) => Ok(Some(lines)),
            Err(_) => Err(Lack::Log),
        },
        None => Ok(None),
    }
}

/// A worker of a server.
pub(crate) type DoorWorker<'a, L, R> = Worker<
    Accepted<'a, L, R>,
    SystemSecrets,
    NoGate,
    RequestLog<'a, R>,
>;

/// A worker over this door, with secrets of its own. It takes connections once it is served.
fn make_worker<'a, L, R>(
    rt: &'a R,
    door: L,
    terms: Terms,
    log: &Option<Log>,
    fullness: Fullness,
) -> Result<DoorWorker<'a, L, R>, Lack>
where
    L: Accepts + Drop,
    R: AllocGlobal + Clock + RandomSource + Eprint + Wait,
    requires { L.is_free door }
    ensures { IfOk result (λ worker. (worker.conns.door ≡ door)
        × (worker.conns.left ≡ terms.count) × (worker.conns.demand ≡ terms.demand)) }
{
    let Ok(secrets) = system_secrets(rt) else {
        return Err(Lack::Secrets);
    };
    let lines = lines_of(log)?;
    let conns = Accepted::new(rt, rt.alloc(), door, terms, lines)?;
    let lines = lines_of(log)?;
    Ok(Worker {
        conns,
        secrets,
        gate: NoGate,
        observer: RequestLog::new(rt, rt.alloc(), lines, fullness),
    })
}

/// A worker over each of these doors, in their order.
fn make_workers<'a, L, R>(
    rt: &'a R,
    doors: Vec<L>,
    terms: Terms,
    log: &Option<Log>,
) -> Result<Vec<DoorWorker<'a, L, R>>, Lack>
where
    L: Accepts + Drop,
    R: AllocGlobal + Clock + RandomSource + Eprint + Wait,
    requires { All L.is_free doors.items }
    ensures doors { IfOk result (λ workers. doors_of workers.items ≡ doors.items) }
    ensures left { IfOk result (λ workers. All (λ left. left ≡ terms.count)
        (lefts_of workers.items)) }
{
    let mut workers = Vec::new(rt.alloc());
    let fullness = Fullness::new(rt, rt.alloc())?;
    for door in doors {
        let worker = make_worker(rt, door, terms, log, fullness.share()?)?;
        let Ok(()) = workers.push(worker) else {
            return Err(Lack::Memory);
        };
    }
    Ok(workers)
}

/// The doors of these workers go where there is room for them, and the workers are let go.
pub(crate) fn take_doors<'a, L, R>(workers: Vec<DoorWorker<'a, L, R>>, room: Vec<L>) -> Vec<L>
where
    L: Accepts + Drop,
    R: Clock + Eprint + Wait,
    requires none { room.items ≡ [] }
    requires room { vec_len workers ≤ vec_capacity room }
    ensures { result.items ≡ doors_of workers.entry.items }
{
    let mut doors = room;
    for worker in workers {
        doors.push_reserved(worker.conns.into_door());
    }
    doors
}

/// Whether each worker took all of its connections.
pub(crate) fn took_all(ends: &Vec<WorkerEnd>, count: u64) -> bool
    ensures { result ≡ true → All (λ end. end.conns ≡ count) ends.now.items }
{
    for at in 0..ends.len() {
        if ends[at].conns != count {
            return false;
        }
    }
    true
}

/// A server that is ready: its address was told.
#[derive(Drop)]
pub(crate) struct Ready<'a, L: Accepts, R> {
    /// A worker over each door, in their order.
    pub(crate) workers: Vec<DoorWorker<'a, L, R>>,
    /// Room for the doors, once the workers have ended.
    pub(crate) room: Vec<L>,
    /// Where requests are told, if they are.
    pub(crate) log: Option<Log>,
}

impl<'a, L, R> Ready<'a, L, R>
where
    L: Accepts + Drop,
    R: AllocGlobal + Threads + Clock + RandomSource + Eprint + Wait + Copy + Send + 'static,
{
    /// A worker over each of these doors, and the log if the terms want one. Nothing is printed.
    fn make(rt: &'a R, doors: Vec<L>, terms: Terms) -> Result<Ready<'a, L, R>, Lack>
        requires some { 0 < vec_len doors }
        requires free { All L.is_free doors.items }
        ensures some { IfOk result (λ ready. 0 < vec_len ready.workers) }
        ensures doors { IfOk result (λ ready. doors_of ready.workers.items ≡ doors.items) }
        ensures left { IfOk result (λ ready. All (λ left. left ≡ terms.count)
            (lefts_of ready.workers.items)) }
        ensures none { IfOk result (λ ready. ready.room.items ≡ []) }
        ensures room { IfOk result (λ ready. vec_len ready.workers ≤ vec_capacity ready.room) }
    {
        let room = Vec::with_capacity(rt.alloc(), doors.len())?;
        let log = start_log(rt, rt.alloc(), terms.logged)?;
        let workers = make_workers(rt, doors, terms, &log)?;
        Ok(Ready { workers, room, log })
    }

    /// The same, and the line with the address is printed. An error is the exit status.
    pub(crate) fn get<W: Write>(
        rt: &'a R,
        addr: SocketAddr,
        doors: Vec<L>,
        terms: Terms,
        out: &mut W,
    ) -> Result<Ready<'a, L, R>, u8>
        requires some { 0 < vec_len doors }
        requires free { All L.is_free doors.items }
        ensures some { IfOk result (λ ready. 0 < vec_len ready.workers) }
        ensures doors { IfOk result (λ ready. doors_of ready.workers.items ≡ doors.items) }
        ensures left { IfOk result (λ ready. All (λ left. left ≡ terms.count)
            (lefts_of ready.workers.items)) }
        ensures none { IfOk result (λ ready. ready.room.items ≡ []) }
        ensures room { IfOk result (λ ready. vec_len ready.workers ≤ vec_capacity ready.room) }
        ensures told { OnOk result (Appends (W.contents out.old) (W.contents out.new)
            (line (codes "listening " ++ socket_text addr))) }
        ensures fault { IfErr result (λ status. status ≡ 3) }
    {
        let ready = match Ready::make(rt, doors, terms) {
            Ok(ready) => ready,
            Err(lack) => return Err(print_line(out, lack.line(), FAULT)),
        };
        if print_line(out, format_args!("listening {addr}"), DONE) != DONE {
            return Err(FAULT);
        }
        Ok(ready)
    }
}
