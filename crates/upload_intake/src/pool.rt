//! Workers, which serve connections at once, and the keeper beside them.
ghost use Rattle.std.specs.Prelude.{◌≡◌, ◌<◌, ◌≤◌, [], true, All, IfOk, length, vec_len, vec_capacity};
ghost use Rattle.std.specs.Thread.{IsSend, IsSync};
ghost use Rattle.upload_service.specs.Machine.{IsLawful, AreLawful};
ghost use Rattle.upload_keeper.specs.Seats.{IsFresh};
ghost use Rattle.upload_keeper.specs.Served.{AreOfOneCall};
ghost use Rattle.upload_intake.specs.Pools.Working.{ServedComeBack, lending, means};
ghost use Rattle.upload_intake.specs.Pools.KeptPool.{IsKeptPool};
ghost use Rattle.upload_keeper.specs.Safety.{Leads, LeadsTo, now_of};
ghost use Rattle.upload_intake.specs.declared.pool.KeptFault.TheVariants as kept_faults;
ghost use Rattle.upload_intake.specs.Pools.Stations.{seats_of, workers_of, limits_of, promised, EachWorks, Works};

use crate::lent::{Conns, Gate, Secrets};
use crate::work::{Leaving, Station, Work, Worker, WorkerEnd, serve_station};
use core::thread::Stack;
use std::alloc::{AllocError, Global};
use std::snapshot::Snapshot;
use std::sync::Wait;
use std::thread::{PromisedHandle, Threads};
use std::{fmt, thread};
use upload_bytes::Room;
use upload_keeper::{
    Keeper, Keeping, KeptService, Moments, Seat, SeatEnd, Settled, lines_of, settle_all,
};
use upload_service::{Limits, Service};
use upload_wire::{ConnectionServer, Observer};

/// What is left of a pool of workers `W`.
#[derive(Drop)]
pub struct Pool<M, W> {
    /// The service as the last request left it.
    pub service: Service,
    /// The workers, each with what it was lent as its last connection left that, in the order in which they were handed
    /// in.
    pub workers: Vec<W>,
    /// What each of them did.
    pub ends: Vec<WorkerEnd>,
    /// The clock as the last request left it.
    pub moments: M,
}

/// Why a pool was not served. The service is dropped. The discriminant is its number.
#[derive(Clone, Copy, Debug, Drop, PartialEq, Eq)]
pub enum ServeFault {
    /// The workers' buffers or the lines found no memory. No worker was started.
    NoMemory = 1,
    /// A worker could not be started. Those that were started have ended.
    NoThread = 2,
}

impl fmt::Display for ServeFault {
    ghost use Rattle.std.specs.Prelude.{Some};
    ghost use Rattle.upload_intake.specs.FaultTexts.{serve_fault_text};

    ghost output = { λ fault. Some (serve_fault_text fault) };

    fn fmt<W: fmt::Write>(&self, f: &mut fmt::Formatter<W>) -> fmt::Result {
        match self {
            ServeFault::NoMemory => f.write_str("no memory for the workers"),
            ServeFault::NoThread => f.write_str("a worker could not be started"),
        }
    }
}

impl std::error::Error for ServeFault {}

/// Why a pool was not served, or not to its end. The service and what kept its changes are dropped.
#[derive(Clone, Copy, Debug, Drop, PartialEq, Eq)]
pub enum KeptFault {
    /// Not at all.
    Serve(ServeFault),
    /// What changed could not be kept. Nobody heard an answer of that round or of a later one, and the workers have
    /// ended.
    NotKept,
}

impl fmt::Display for KeptFault {
    ghost use Rattle.std.specs.Prelude.{Some};
    ghost use Rattle.upload_intake.specs.FaultTexts.{kept_fault_text};

    ghost output = { λ fault. Some (kept_fault_text fault) };

    fn fmt<W: fmt::Write>(&self, f: &mut fmt::Formatter<W>) -> fmt::Result {
        match self {
            KeptFault::Serve(fault) => fault.fmt(f),
            KeptFault::NotKept => f.write_str("a change could not be kept"),
        }
    }
}

impl std::error::Error for KeptFault {}

/// The stack of a worker's thread, in bytes.
const STACK: usize = 524_288;

/// A worker's thread, which promises what it leaves.
type Started<C, S, G, O> = PromisedHandle<Leaving<C, S, G, O>, Work<C, S, G, O>>;

/// What the workers left, in the order of their seats.
#[derive(Drop)]
struct Ends<C, S, G, O> {
    seats: Vec<SeatEnd>,
    workers: Vec<Worker<C, S, G, O>>,
    ends: Vec<WorkerEnd>,
}

impl<C: Drop, S: Drop, G: Drop, O: Drop> Ends<C, S, G, O> {
    // Room for so many, and nothing yet.
    fn with_capacity(alloc: Global, count: usize) -> Result<Ends<C, S, G, O>, AllocError>
        ensures seats { IfOk result
            (λ ends. (ends.seats.items ≡ []) × (count ≤ vec_capacity ends.seats)) }
        ensures workers { IfOk result
            (λ ends. (ends.workers.items ≡ []) × (count ≤ vec_capacity ends.workers)) }
        ensures ends { IfOk result
            (λ ends. (ends.ends.items ≡ []) × (count ≤ vec_capacity ends.ends)) }
    {
        let seats = Vec::with_capacity(alloc, count)?;
        let workers = Vec::with_capacity(alloc, count)?;
        let ends = Vec::with_capacity(alloc, count)?;
        Ok(Ends {
            seats,
            workers,
            ends,
        })
    }
}

/// A server of connections whose bodies are granted of this room, if there is one.
fn server_of(
    alloc: Global,
    limits: Limits,
    room: Option<&Room>,
) -> Result<ConnectionServer, AllocError>
    requires { AreLawful limits }
    ensures { IfOk result (λ server. server.max_body ≡ limits.max_body) }
{
    match room {
        Some(room) => ConnectionServer::within(alloc, limits, room.share()?),
        None => ConnectionServer::new(alloc, limits),
    }
}

/// The workers at their seats, each with a server for all its connections.
fn stations<C, S, G, O>(
    alloc: Global,
    limits: Limits,
    room: Option<&Room>,
    seats: Vec<Seat>,
    workers: Vec<Worker<C, S, G, O>>,
) -> Result<Vec<Station<C, S, G, O>>, AllocError>
where
    C: Drop,
    S: Drop,
    G: Drop,
    O: Drop,
    requires limits { AreLawful limits }
    requires len { length seats.items ≡ length workers.items }
    ensures seats { IfOk result (λ stations. seats_of stations.items ≡ seats.items) }
    ensures workers { IfOk result (λ stations. workers_of stations.items ≡ workers.items) }
    ensures servers { IfOk result
        (λ stations. All (λ n. n ≡ limits.max_body) (limits_of stations.items)) }
{
    let mut stations = Vec::new(alloc);
    let mut seats = seats.into_iter();
    for worker in workers {
        let Some(seat) = seats.next() else {
            unreachable!()
        };
        let server = server_of(alloc, limits, room)?;
        stations.push(Station {
            seat,
            worker,
            server,
        })?;
    }
    Ok(stations)
}

/// A keeper that has the service and begins at this moment, and the workers at its seats, of which none has asked
/// anything.
fn seated<C, S, G, O>(
    alloc: Global,
    service: Service,
    since: u64,
    workers: Vec<Worker<C, S, G, O>>,
) -> Result<(Keeper, Vec<Station<C, S, G, O>>), AllocError>
where
    C: Drop,
    S: Drop,
    G: Drop,
    O: Drop,
    requires { 0 < vec_len workers }
    ensures of_one_call { IfOk result (λ r. AreOfOneCall r.0 (seats_of r.1.items)) }
    ensures seats { IfOk result (λ r. All IsFresh (seats_of r.1.items)) }
    ensures servers { IfOk result
        (λ r. All (λ n. n ≡ r.0.start.limits.max_body) (limits_of r.1.items)) }
    ensures workers { IfOk result (λ r. workers_of r.1.items ≡ workers.items) }
    ensures start { IfOk result (λ r. r.0.start ≡ service) }
    ensures since { IfOk result (λ r. r.0.since ≡ since) }
    ensures service { IfOk result (λ r. r.0.service ≡ service) }
    ensures log { IfOk result (λ r. r.0.log ≡ []) }
{
    let limits = service.limits();
    let room = service.room()?;
    let count = workers.len();
    let (keeper, seats) = lines_of(alloc, service, since, count, count)?;
    let stations = stations(alloc, limits, room.as_ref(), seats, workers)?;
    Ok((keeper, stations))
}

/// Joins each worker, in order. What they left goes where there is room for it.
fn join_all<R, C, S, G, O>(
    rt: &R,
    started: Vec<Started<C, S, G, O>>,
    room: Ends<C, S, G, O>,
) -> Ends<C, S, G, O>
where
    R: Threads,
    C: Conns + Drop,
    S: Secrets + Drop,
    G: Gate + Drop,
    O: Observer + Drop,
    requires seats { (room.seats.items ≡ []) × (vec_len started ≤ vec_capacity room.seats) }
    requires workers { (room.workers.items ≡ []) × (vec_len started ≤ vec_capacity room.workers) }
    requires ends { (room.ends.items ≡ []) × (vec_len started ≤ vec_capacity room.ends) }
    ensures seats { vec_len result.seats ≡ vec_len started }
    ensures workers { vec_len result.workers ≡ vec_len started }
    ensures ends { vec_len result.ends ≡ vec_len started }
    ensures each { EachWorks
        (means (lending C.gives C.takes_back C.In.state C.Out.state) S.draws G.watches O.told)
        (promised started.items)
        (record {
          seats = result.seats.items;
          workers = result.workers.items;
          ends = result.ends.items;
        }) }
{
    let mut ends = room;
    for worker in started {
        let Leaving { seat, worker, end } = worker.join(rt);
        ends.seats.push_reserved(seat);
        ends.workers.push_reserved(worker);
        ends.ends.push_reserved(end);
    }
    ends
}

/// As `serve_workers`, and what changed the service is kept before its answer is heard, and the moment of each answer
/// is promised: also of a pool that never ends. What kept it is handed back with all that it kept before, and then
/// each exchange that changed something, in the order in which they were served. No exchange is at a moment before the
/// given one.
///
/// `Serve` comes as the faults of `serve_workers` do. `NotKept` comes only if `keep` failed, once all workers have
/// ended. They may wait for a connection: the first that asks something ends `DeskGone`, and its worker takes no more.
pub fn serve_kept<R, M, K, C, S, G, O>(
    rt: &R,
    alloc: Global,
    kept: KeptService<K>,
    workers: Vec<Worker<C, S, G, O>>,
    moments: M,
) -> Result<(Pool<M, Worker<C, S, G, O>>, K), KeptFault>
where
    R: Threads + Wait + Sync,
    M: Moments + Drop,
    K: Keeping + Drop,
    C: Conns + Send + Drop,
    S: Secrets + Send + Drop,
    G: Gate + Send + Drop,
    O: Observer + Send + Drop,
    requires workers { 0 < vec_len workers }
    requires leads { Leads (K.start kept.keeping) (K.kept kept.keeping) kept.since kept.service }
    requires waiting { K.waiting kept.keeping ≡ [] }
    requires begun { kept.since ≤ K.last kept.keeping }
    requires come_back { ServedComeBack
        (means (lending C.gives C.takes_back C.In.state C.Out.state) S.draws G.watches O.told)
        C.may_come_back }
    ensures served { IfOk result (λ r. IsKeptPool
        (means (lending C.gives C.takes_back C.In.state C.Out.state) S.draws G.watches O.told)
        M.tells kept.since
        (record { service = kept.service; moments = moments; workers = workers.items })
        (record {
          service = r.0.service;
          moments = r.0.moments;
          workers = r.0.workers.items;
          ends = r.0.ends.items;
        }) (K.kept kept.keeping) (K.kept r.1)) }
    ensures lawful { IfOk result (λ r. IsLawful r.0.service) }
    ensures not_kept { (result ≡ Err kept_faults.NotKept) → (k : K) × (K.failed k ≡ true) }
{
    let KeptService {
        service,
        keeping,
        since,
    } = kept;
    let Ok((keeper, stations)) = seated(alloc, service, since, workers) else {
        return Err(KeptFault::Serve(ServeFault::NoMemory));
    };
    thread::scope(
        thread::scope_env(),
        rt,
        |scope| -> Result<(Pool<M, Worker<C, S, G, O>>, K), KeptFault>
            requires of_one_call { AreOfOneCall keeper (seats_of stations.items) }
            requires seats { All IsFresh (seats_of stations.items) }
            requires servers { All (λ n. n ≡ keeper.start.limits.max_body)
                (limits_of stations.items) }
            requires fresh { keeper.log ≡ [] }
            requires leads { LeadsTo (K.start keeping) (K.kept keeping) keeper }
            requires waiting { K.waiting keeping ≡ [] }
            requires begun { now_of keeper ≤ K.last keeping }
            requires come_back { ServedComeBack
                (means (lending C.gives C.takes_back C.In.state C.Out.state) S.draws
                G.watches O.told) C.may_come_back }
            requires cross { IsSend C.row × IsSend S.row × IsSend G.row × IsSend O.row
                × IsSend C.In.row × IsSend C.Out.row × IsSync R.row }
            ensures served { IfOk result (λ r. IsKeptPool
                (means (lending C.gives C.takes_back C.In.state C.Out.state) S.draws
                G.watches O.told) M.tells keeper.since
                (record {
                  service = keeper.start;
                  moments = moments;
                  workers = workers_of stations.items;
                })
                (record {
                  service = r.0.service;
                  moments = r.0.moments;
                  workers = r.0.workers.items;
                  ends = r.0.ends.items;
                }) (K.kept keeping) (K.kept r.1)) }
            ensures lawful { IfOk result (λ r. IsLawful r.0.service) }
            ensures not_kept { (result ≡ Err kept_faults.NotKept) → (k : K) × (K.failed k ≡ true) }
        {
            let Ok(room) = Ends::with_capacity(alloc, stations.len()) else {
                return Err(KeptFault::Serve(ServeFault::NoMemory));
            };
            let Ok(mut started) = Vec::with_capacity(alloc, stations.len()) else {
                return Err(KeptFault::Serve(ServeFault::NoMemory));
            };
            for station in stations {
                let work = Work {
                    station: Snapshot::of(&station),
                };
                let stack = Stack::new().stack_size(STACK);
                let run = move || -> Leaving<C, S, G, O>
                    requires come_back { ServedComeBack
                        (means (lending C.gives C.takes_back C.In.state C.Out.state) S.draws
                        G.watches O.told) C.may_come_back }
                    ensures { Works
                        (means (lending C.gives C.takes_back C.In.state C.Out.state) S.draws
                        G.watches O.told) station result }
                { serve_station(rt, station) };
                let Ok(worker) = stack.spawn_scoped_with(scope, work, run) else {
                    drop(keeper);
                    drop(join_all(rt, started, room));
                    return Err(KeptFault::Serve(ServeFault::NoThread));
                };
                started.push_reserved(worker);
            }
            let mut clock = moments;
            let mut store = keeping;
            let Ok(served) = keeper.run_kept(rt, &mut clock, &mut store) else {
                drop(join_all(rt, started, room));
                return Err(KeptFault::NotKept);
            };
            let ends = join_all(rt, started, room);
            let Settled { service, .. } = settle_all(served, ends.seats);
            let pool = Pool {
                service,
                workers: ends.workers,
                ends: ends.ends,
                moments: clock,
            };
            Ok((pool, store))
        },
    )
}
