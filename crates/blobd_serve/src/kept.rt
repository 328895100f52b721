//! `blobd serve` with a data directory: the same workers round a service whose changes are kept.
ghost use Rattle.std.specs.Prelude.{◌≡◌, ◌<◌, ◌≤◌, true, [], All, IfOk, map, option_map};
ghost use Rattle.std.specs.Prelude.{vec_capacity, vec_len};
ghost use Rattle.upload_intake.specs.Pools.Working.{lending, means};
ghost use Rattle.upload_keeper.specs.Safety.{Leads};
ghost use Rattle.blobd_serve.specs.Doors.{doors_of, lefts_of};
ghost use Rattle.blobd_serve.specs.Serving.{EndsKeeping, IsKeptOver, DoorsTakeBack};

use crate::accept::{Accepted, Reader, Terms, Writer};
use crate::accepts::Accepts;
use crate::background::Background;
use crate::holdings::Holdings;
use crate::log_lines::Log;
use crate::request_log::RequestLog;
use crate::serve::print_end;
use crate::workers::{DoorWorker, Ready, SinceStart, SystemSecrets, take_doors, took_all};
use blobd_shared::{FAULT, print_line};
use http_wire::{ByteSink, ByteSource};
use std::alloc::Global;
use std::io::{Eprint, Write};
use std::net::SocketAddr;
use std::random::RandomSource;
use std::rt::Clock;
use std::sync::Wait;
use std::thread::Threads;
use upload_intake::{
    Conns, Gate, Keeping, KeptFault, KeptService, Moments, NoGate, Secrets, serve_kept,
};
use upload_wire::Observer;

/// What the workers of this service left: whether each took all of its connections, their doors, which go where there
/// is room for them, and what kept the changes.
fn serve_all_kept<'a, L, R, K>(
    rt: &'a R,
    alloc: Global,
    kept: KeptService<K>,
    workers: Vec<DoorWorker<'a, L, R>>,
    room: Vec<L>,
    count: u64,
    log: &Option<Log>,
) -> Result<(bool, Vec<L>, K), KeptFault>
where
    L: Accepts + Send + Drop,
    L::In: Send,
    L::Out: Send,
    R: Threads + Wait + Sync + Clock + Eprint,
    K: Keeping + Drop,
    requires some { 0 < vec_len workers }
    requires left { All (λ left. left ≡ count) (lefts_of workers.items) }
    requires none { room.items ≡ [] }
    requires room { vec_len workers ≤ vec_capacity room }
    requires leads { Leads (K.start kept.keeping) (K.kept kept.keeping) kept.since kept.service }
    requires waiting { K.waiting kept.keeping ≡ [] }
    requires begun { kept.since ≤ K.last kept.keeping }
    requires come_back { DoorsTakeBack L.In.given L.Out.taken L.may_come_back }
    ensures served { IfOk result (λ ended. IsKeptOver
        (means
        (lending ⟦<Accepted<'a, L, R> as Conns>⟧.gives ⟦<Accepted<'a, L, R> as Conns>⟧.takes_back
        ⟦<Reader<'a, L, R> as ByteSource>⟧.state ⟦<Writer<'a, L, R> as ByteSink>⟧.state)
        ⟦<SystemSecrets as Secrets>⟧.draws ⟦<NoGate as Gate>⟧.watches
        ⟦<RequestLog<'a, R> as Observer>⟧.told)
        ⟦<SinceStart<'a, R> as Moments>⟧.tells
        kept.since kept.service (λ n. n ≤ count)
        (record {
          doors = map L.history (doors_of workers.entry.items);
          exchanges = K.kept kept.keeping;
        })
        (record { doors = map L.history ended.1.items; exchanges = K.kept ended.2 })) }
    ensures took { IfOk result (λ ended. ended.0 ≡ true → IsKeptOver
        (means
        (lending ⟦<Accepted<'a, L, R> as Conns>⟧.gives ⟦<Accepted<'a, L, R> as Conns>⟧.takes_back
        ⟦<Reader<'a, L, R> as ByteSource>⟧.state ⟦<Writer<'a, L, R> as ByteSink>⟧.state)
        ⟦<SystemSecrets as Secrets>⟧.draws ⟦<NoGate as Gate>⟧.watches
        ⟦<RequestLog<'a, R> as Observer>⟧.told)
        ⟦<SinceStart<'a, R> as Moments>⟧.tells
        kept.since kept.service (λ n. n ≡ count)
        (record {
          doors = map L.history (doors_of workers.entry.items);
          exchanges = K.kept kept.keeping;
        })
        (record { doors = map L.history ended.1.items; exchanges = K.kept ended.2 })) }
{
    let holdings = Holdings::of(rt, alloc, log, &kept.service);
    let moments = SinceStart::behind(rt, kept.since, holdings);
    let (pool, keeping) = serve_kept(rt, alloc, kept, workers, moments)?;
    let took = took_all(&pool.ends, count);
    Ok((took, take_doors(pool.workers, room), keeping))
}

/// Serves connections as [`serve_over`](crate::serve_over) does, from this service on, each change of which is kept
/// before anybody hears of it. Hands the doors back, and what kept the changes, unless they are lost after a fault.
/// See [`run_serve_kept`](crate::run_serve_kept). What was served was read and written over the connections that were
/// accepted there, `terms.count` at each door if `served` is printed; and of that just what changed something was kept.
pub fn serve_kept_over<'a, L, R, K, W>(
    rt: &'a R,
    addr: SocketAddr,
    doors: Vec<L>,
    terms: Terms,
    kept: KeptService<K>,
    out: &mut W,
) -> (u8, Option<(Vec<L>, K)>)
where
    L: Accepts + Send + Drop,
    L::In: Send,
    L::Out: Send,
    R: Threads + Wait + Sync + AllocGlobal + Clock + RandomSource + Eprint + Copy + Send + 'static,
    K: Keeping + Drop,
    W: Write,
    requires doors { 0 < vec_len doors }
    requires leads { Leads (K.start kept.keeping) (K.kept kept.keeping) kept.since kept.service }
    requires waiting { K.waiting kept.keeping ≡ [] }
    requires begun { kept.since ≤ K.last kept.keeping }
    requires free { All L.is_free doors.items }
    requires come_back { DoorsTakeBack L.In.given L.Out.taken L.may_come_back }
    ensures { EndsKeeping
        (means
        (lending ⟦<Accepted<'a, L, R> as Conns>⟧.gives ⟦<Accepted<'a, L, R> as Conns>⟧.takes_back
        ⟦<Reader<'a, L, R> as ByteSource>⟧.state ⟦<Writer<'a, L, R> as ByteSink>⟧.state)
        ⟦<SystemSecrets as Secrets>⟧.draws ⟦<NoGate as Gate>⟧.watches
        ⟦<RequestLog<'a, R> as Observer>⟧.told)
        ⟦<SinceStart<'a, R> as Moments>⟧.tells
        kept.since kept.service terms.count
        (record { doors = map L.history doors.items; exchanges = K.kept kept.keeping }) addr
        (option_map (λ back. record {
          doors = map L.history back.0.items;
          exchanges = K.kept back.1;
        }) result.1)
        (W.contents out.old) (W.contents out.new) result.0 }
{
    let Ready { workers, room, log } = match Ready::get(rt, addr, doors, terms, out) {
        Ok(ready) => ready,
        Err(status) => return (status, None),
    };
    let ended = serve_all_kept(rt, rt.alloc(), kept, workers, room, terms.count, &log);
    Background::finish(log, rt);
    match ended {
        Ok((took, doors, keeping)) => (print_end(out, took), Some((doors, keeping))),
        Err(KeptFault::Serve(_)) => (print_line(out, "fault: workers", FAULT), None),
        Err(KeptFault::NotKept) => (print_line(out, "fault: data", FAULT), None),
    }
}
