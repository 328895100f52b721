//! A worker, which serves connections one after the other over its seat.
ghost use Rattle.std.specs.Prelude.{◌≡◌, ◌+◌, min, if◌then◌else◌};
ghost use Rattle.upload_keeper.specs.Seats.{IsSameSeat};
ghost use Rattle.upload_keeper.specs.Settled.{count_limit};
ghost use Rattle.upload_intake.specs.Pools.Stations.{Works};
ghost use Rattle.upload_intake.specs.Pools.Working.{IsWorked, ServedComeBack, is_clean, is_gone, lending, means};

use crate::desk::{GatedDesk, SeatDesk};
use crate::lent::{Conns, Gate, Secrets};
use std::snapshot::Snapshot;
use std::sync::Wait;
use std::thread::{Promise, Threads};
use upload_bytes::{Spool, Spooling};
use upload_keeper::{Seat, SeatEnd};
use upload_wire::{ConnEnd, ConnectionServer, Observer};

/// What a worker serves, with which secrets, and who is told of it.
#[derive(Drop)]
pub struct Worker<C, S, G, O> {
    /// What it serves.
    pub conns: C,
    /// Of the sessions that its requests open.
    pub secrets: S,
    /// Who is told of each request that is asked, and of its answer.
    pub gate: G,
    /// Who is told of each head that is read, and of each reply.
    pub observer: O,
}

/// What a worker did. A count stays at 2^64 - 1 once there.
#[derive(Clone, Copy, Debug, PartialEq, Eq)]
pub struct WorkerEnd {
    /// The connections that it took.
    pub conns: u64,
    /// Those of them that ended `Clean` or `AfterClose`.
    pub clean: u64,
}

impl WorkerEnd {
    // Counts a connection that ended so.
    fn count(&mut self, end: ConnEnd)
        ensures conns { self.new.conns ≡ min (self.old.conns + 1) count_limit }
        ensures clean { self.new.clean
            ≡ min (self.old.clean + (if is_clean end then 1 else 0)) count_limit }
    {
        self.conns = self.conns.saturating_add(1);
        self.clean = self.clean.saturating_add(u64::from(is_clean(end)));
    }
}

fn is_clean(end: ConnEnd) -> bool
    ensures { result ≡ is_clean end }
{
    matches!(end, ConnEnd::Clean | ConnEnd::AfterClose)
}

fn is_gone(end: ConnEnd) -> bool
    ensures { result ≡ is_gone end }
{
    matches!(end, ConnEnd::DeskGone)
}

/// A worker at its seat, and the server of all its connections.
#[derive(Drop)]
pub(crate) struct Station<C, S, G, O> {
    pub(crate) seat: Seat,
    pub(crate) worker: Worker<C, S, G, O>,
    pub(crate) server: ConnectionServer,
}

/// What a worker leaves.
#[derive(Drop)]
pub(crate) struct Leaving<C, S, G, O> {
    /// Its seat, which asks no more.
    pub(crate) seat: SeatEnd,
    /// What it was lent.
    pub(crate) worker: Worker<C, S, G, O>,
    pub(crate) end: WorkerEnd,
}

/// What the thread of a worker promises of its station: the end comes of this seat, and over it these connections were
/// served, with these secrets and by this server, and this gate and this observer were told of it. All that the worker
/// was lent is handed back as it became by that.
#[derive(Drop)]
pub(crate) struct Work<C, S, G, O> {
    pub(crate) station: Snapshot<Station<C, S, G, O>>,
}

impl<C: Conns, S: Secrets, G: Gate, O: Observer> Promise<Leaving<C, S, G, O>> for Work<C, S, G, O> {
    ghost kept_by = { λ promise leaving.
        Works (means (lending C.gives C.takes_back C.In.state C.Out.state) S.draws G.watches O.told)
        promise.station.value leaving };
}

/// Serves a worker's connections one after the other, none after one that ended `DeskGone`, and finishes its seat. One
/// server serves them all, so that none is turned away for lack of one. A large body is hashed in threads, beside
/// its reading, and written into a file of the spool, if there is one.
fn serve_seat<R, C, S, G, O>(
    rt: &R,
    spool: Option<&Spool>,
    seat: Seat,
    worker: Worker<C, S, G, O>,
    mut server: ConnectionServer,
) -> Leaving<C, S, G, O>
where
    R: Threads + Wait,
    C: Conns + Drop,
    S: Secrets + Drop,
    G: Gate + Drop,
    O: Observer + Drop,
    requires come_back { ServedComeBack
        (means (lending C.gives C.takes_back C.In.state C.Out.state) S.draws G.watches O.told)
        C.may_come_back }
    ensures seat { IsSameSeat seat result.seat }
    ensures worked { IsWorked
        (means (lending C.gives C.takes_back C.In.state C.Out.state) S.draws G.watches O.told)
        server.max_body worker seat result.worker result.seat result.end }
{
    let Worker {
        mut conns,
        secrets,
        gate,
        mut observer,
    } = worker;
    let mut desk = GatedDesk {
        desk: SeatDesk::new(rt, seat, secrets),
        gate,
        turn: 0,
    };
    let place = Spooling::new(rt, spool);
    let mut end = WorkerEnd { conns: 0, clean: 0 };
    for _ in rt.forever() {
        let Some((mut source, mut sink)) = conns.next_conn() else {
            break;
        };
        let ended = server.serve(&place, &mut source, &mut sink, &mut desk, &mut observer);
        conns.take_back(source, sink);
        end.count(ended);
        // A desk that is gone stays gone: the next client would get no reply.
        if is_gone(ended) {
            break;
        }
    }
    let GatedDesk { desk, gate, .. } = desk;
    let (seat, secrets) = desk.into_parts();
    Leaving {
        seat: seat.finish(rt),
        worker: Worker {
            conns,
            secrets,
            gate,
            observer,
        },
        end,
    }
}

/// The worker of a station serves its connections, and keeps the promise of its thread.
pub(crate) fn serve_station<R, C, S, G, O>(
    rt: &R,
    station: Station<C, S, G, O>,
) -> Leaving<C, S, G, O>
where
    R: Threads + Wait,
    C: Conns + Drop,
    S: Secrets + Drop,
    G: Gate + Drop,
    O: Observer + Drop,
    requires come_back { ServedComeBack
        (means (lending C.gives C.takes_back C.In.state C.Out.state) S.draws G.watches O.told)
        C.may_come_back }
    ensures { Works
        (means (lending C.gives C.takes_back C.In.state C.Out.state) S.draws G.watches O.told)
        station result }
{
    let Station {
        mut seat,
        worker,
        server,
    } = station;
    let spool = seat.spool(rt);
    serve_seat(rt, spool.as_ref(), seat, worker, server)
}
