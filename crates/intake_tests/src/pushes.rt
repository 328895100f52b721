//! A pool, and two pushes to it over a network that loses replies: the premises of the laws are met, all at once.
ghost use Rattle.std.specs.Prelude.{◌≡◌, ◌<◌, [], IfOk, IfSome, vec_len};
ghost use Rattle.std.specs.Thread.{IsSync};

use crate::expect::{holds, same};
use crate::network::{Arrival, Halves, Leg, Outflow, Seen, Source, end_of, moved};
use crate::seats::{LIMITS, Still};
use crossbeam_channel::{Receiver, Sender, unbounded};
use end_to_end::{
    dialed_pushes_have_connections, files_are_handed_back, looks_are_served, pushes_are_served,
    pushes_to_one_worker_are_served,
};
use http_wire::ToWrite;
use std::alloc::{AllocError, Global};
use std::process::Abort;
use std::sync::Wait;
use std::sync::atomic::{AtomicU64, Ordering};
use std::test::Fail;
use std::thread::{Threads, join};
use std::{mem, vec};
use upload_client::{Heard, LentChunk, Transport, WireTransport};
use upload_intake::{
    Conns, Gate, Worker, ZeroSecrets, conversations_fill_the_seat, serve_workers,
    transcripts_tell_connections,
};
use upload_names::{BlobDigest, NameFault, RepoName, UploadRef};
use upload_push::{Outcome, push};
use upload_service::{Answer, Ask, Service};
use upload_wire::NoObserver;

/// What a push is told: its name, where its connections go, how many bytes of replies get back over each, and above
/// which number theirs are.
#[derive(Drop)]
struct Plan {
    name: &'static [u8],
    listener: Sender<Arrival>,
    courses: Vec<usize>,
    number: u64,
}

type Wire<'n, R> = WireTransport<Source<'n, R>, ToWrite<Outflow<'n, R>>>;

/// The asks of one push, over one connection after the other.
#[derive(Drop)]
struct Dialer<'n, R: Wait + AllocGlobal> {
    rt: &'n R,
    events: &'n AtomicU64,
    listener: Sender<Arrival>,
    /// How many bytes of replies get back over its connections. It makes no more of these.
    courses: vec::IntoIter<usize>,
    wire: Option<Wire<'n, R>>,
    /// The number of the connection that was made last, and what was asked over it.
    number: u64,
    seen: Vec<Seen>,
    /// The connections that are done with.
    legs: Vec<Leg>,
}

fn count(events: &AtomicU64) -> u64 {
    events.fetch_add(1, Ordering::SeqCst)
}

fn reference_of(ask: &Ask) -> Option<UploadRef> {
    match ask {
        Ask::Chunk { at, .. } | Ask::Status { at, .. } | Ask::Close { at, .. } => Some(*at),
        _ => None,
    }
}

impl<'n, R: Wait + AllocGlobal> Dialer<'n, R> {
    fn new(rt: &'n R, events: &'n AtomicU64, plan: Plan) -> Dialer<'n, R> {
        let Plan {
            listener,
            courses,
            number,
            ..
        } = plan;
        Dialer {
            rt,
            events,
            listener,
            courses: courses.into_iter(),
            wire: None,
            number,
            seen: Vec::new(rt.alloc()),
            legs: Vec::new(rt.alloc()),
        }
    }

    fn dial(&mut self) -> Option<Wire<'n, R>> {
        let course = self.courses.next()?;
        let (to_worker, requests) = unbounded::<Vec<u8>, Global>(self.rt.alloc()).ok()?;
        let (replies, from_worker) = unbounded::<Vec<u8>, Global>(self.rt.alloc()).ok()?;
        self.number = self.number.saturating_add(1);
        let arrival = (self.number, (requests, replies));
        self.listener.send(self.rt, arrival).ok()?;
        let (source, sink) = end_of(self.rt, (from_worker, to_worker), course);
        WireTransport::new(self.rt.alloc(), source, sink, b"h").ok()
    }

    /// The connection that was kept, or a new one.
    fn connected(&mut self) -> Option<Wire<'n, R>> {
        match self.wire.take() {
            Some(wire) => Some(wire),
            None => self.dial(),
        }
    }

    /// Leaves a connection. What isn't kept of it is missed later.
    fn leave(&mut self, wire: Wire<'n, R>) {
        let none = Vec::new(self.rt.alloc());
        let leg = Leg {
            number: self.number,
            moved: moved(wire.into_halves()),
            seen: mem::replace(&mut self.seen, none),
        };
        let _ = self.legs.push(leg);
    }

    /// Notes what was asked over a connection and whether it was heard, and keeps the connection if it may be used.
    fn note(&mut self, at: Option<UploadRef>, from: u64, is_heard: bool, wire: Wire<'n, R>) {
        let upto = if is_heard { count(self.events) } else { 0 };
        let _ = self.seen.push(Seen { at, from, upto });
        if wire.stays_open() {
            self.wire = Some(wire);
        } else {
            self.leave(wire);
        }
    }

    /// Leaves the connection that was kept.
    fn finish(&mut self) {
        if let Some(wire) = self.wire.take() {
            self.leave(wire);
        }
    }
}

impl<'n, R: Wait + AllocGlobal> Transport for Dialer<'n, R> {
    ghost asked = { λ old ask heard new. Unit {0} };

    fn ask(&mut self, ask: Ask) -> Option<Heard> {
        let at = reference_of(&ask);
        let mut wire = self.connected()?;
        let from = count(self.events);
        let heard = wire.ask(ask);
        self.note(at, from, heard.is_some(), wire);
        heard
    }

    fn ask_chunk(&mut self, chunk: &LentChunk<'_>) -> Result<Option<Heard>, AllocError> {
        let Some(mut wire) = self.connected() else {
            return Ok(None);
        };
        let from = count(self.events);
        let Ok(heard) = wire.ask_chunk(chunk) else {
            return Ok(None);
        };
        self.note(Some(chunk.at), from, heard.is_some(), wire);
        Ok(heard)
    }
}

/// The one connection that a worker takes.
#[derive(Drop)]
struct Incoming<'n, R> {
    rt: &'n R,
    arrivals: Receiver<Arrival>,
    number: Option<u64>,
    moved: (Vec<u8>, Vec<u8>),
}

impl<'n, R: Wait + Sync + AllocGlobal> Conns for Incoming<'n, R> {
    type In = Source<'n, R>;

    type Out = ToWrite<Outflow<'n, R>>;

    // One that nobody has read or written yet.
    ghost gives = { λ old given new. IfSome given (λ conn.
        (conn.0.given.bytes ≡ []) × (conn.0.reads ≡ 0) × (conn.1.taken.bytes ≡ [])
        × (conn.1.writes ≡ 0)) };

    ghost takes_back = { λ old conn new. Unit {0} };

    fn next_conn(&mut self) -> Option<Halves<'n, R>> {
        if self.number.is_some() {
            return None;
        }
        let (number, lines) = self.arrivals.recv(self.rt).ok()?;
        self.number = Some(number);
        Some(end_of(self.rt, lines, usize::MAX))
    }

    fn take_back(&mut self, source: Source<'n, R>, sink: ToWrite<Outflow<'n, R>>) {
        self.moved = moved((source, sink));
    }
}

/// Notes each request of a worker.
#[derive(Drop)]
struct Noting<'n> {
    events: &'n AtomicU64,
    seen: Vec<Seen>,
}

impl<'n> Gate for Noting<'n> {
    ghost watches = { λ old turn notice new. Unit {0} };

    fn before_ask(&mut self, _turn: u64, ask: &Ask) {
        let (at, from) = (reference_of(ask), count(self.events));
        // one that isn't noted is missed later
        let _ = self.seen.push(Seen { at, from, upto: 0 });
    }

    fn after_answer(&mut self, _turn: u64, _answer: &Answer) {
        let upto = count(self.events);
        if let Some(seen) = self.seen.last_mut() {
            seen.upto = upto;
        }
    }
}

type PoolWorker<'n, R> = Worker<Incoming<'n, R>, ZeroSecrets, Noting<'n>, NoObserver>;

/// The laws, of a pool of such workers.
fn laws_speak_of<C: Conns, G: Gate>() {
    pushes_are_served::<Still, C, ZeroSecrets, G, NoObserver>();
    pushes_to_one_worker_are_served::<Still, C, ZeroSecrets, G, NoObserver>();
    looks_are_served::<Still, C, ZeroSecrets, G, NoObserver>();
    files_are_handed_back::<Still, C, ZeroSecrets, G, NoObserver>();
    dialed_pushes_have_connections::<C, ZeroSecrets, G, NoObserver>();
    transcripts_tell_connections::<C, ZeroSecrets, G, NoObserver>();
    conversations_fill_the_seat::<ZeroSecrets>();
}

/// One for each connection that may come.
fn workers<'n, R: Wait + AllocGlobal>(
    rt: &'n R,
    arrivals: &Receiver<Arrival>,
    events: &'n AtomicU64,
) -> Result<Vec<PoolWorker<'n, R>>, AllocError>
    ensures { IfOk result (λ workers. vec_len workers ≡ 3) }
{
    let alloc = rt.alloc();
    let mut workers = Vec::new(alloc);
    for _ in 0..3u64 {
        let conns = Incoming {
            rt,
            arrivals: arrivals.clone()?,
            number: None,
            moved: (Vec::new(alloc), Vec::new(alloc)),
        };
        let seen = Vec::new(alloc);
        workers.push(Worker {
            conns,
            secrets: ZeroSecrets,
            gate: Noting { events, seen },
            observer: NoObserver,
        })?;
    }
    Ok(workers)
}

/// What the pool left: its service, and each connection that came.
type Hall = (Service, Vec<Leg>);

fn served<'n, R: Threads + Wait + Sync + AllocGlobal>(
    rt: &'n R,
    workers: Vec<PoolWorker<'n, R>>,
) -> Option<Hall>
    requires { 0 < vec_len workers }
{
    let service = Service::new(rt.alloc(), LIMITS);
    let pool = serve_workers(rt, rt.alloc(), service, workers, Still).ok()?;
    let mut legs = Vec::new(rt.alloc());
    for worker in pool.workers {
        let Worker { conns, gate, .. } = worker;
        let Incoming { number, moved, .. } = conns;
        let Noting { seen, .. } = gate;
        if let Some(number) = number {
            legs.push(Leg {
                number,
                moved,
                seen,
            })
            .ok()?;
        }
    }
    Some((pool.service, legs))
}

/// What both push, in chunks of two bytes.
const FILE: &[u8] = b"abcde";

/// How a push ended, if well, and its connections.
type Done = (Option<Outcome>, Vec<Leg>);

fn pushed<R: Wait + AllocGlobal>(rt: &R, events: &AtomicU64, plan: Plan) -> Option<Done> {
    let alloc = rt.alloc();
    let name = RepoName::read(alloc, plan.name).ok()?;
    let mut dialer = Dialer::new(rt, events, plan);
    let end = push(alloc, &mut dialer, FILE, &name, 2, 5).ok();
    dialer.finish();
    let Dialer { legs, .. } = dialer;
    Some((end, legs))
}

/// Serves both pushes at once.
fn pushed_at_once<'n, R>(
    rt: &'n R,
    events: &'n AtomicU64,
    workers: Vec<PoolWorker<'n, R>>,
    left: Plan,
    right: Plan,
) -> ((Option<Done>, Option<Done>), Option<Hall>)
where
    R: Threads + Wait + Sync + AllocGlobal,
    requires { 0 < vec_len workers }
{
    join(
        rt,
        move || -> (Option<Done>, Option<Done>)
            requires { IsSync R.row }
        {
            join(
                rt,
                move || -> Option<Done>
                    requires { IsSync R.row }
                { pushed(rt, events, left) },
                move || -> Option<Done>
                    requires { IsSync R.row }
                { pushed(rt, events, right) },
            )
        },
        move || -> Option<Hall>
            requires { IsSync R.row × (0 < vec_len workers) }
        { served(rt, workers) },
    )
}

/// Runs a pool and two pushes to it: what they came to, and what the pool left. Over the left one's first connection so
/// many bytes of replies get back; over the others all.
fn run<R>(rt: &R, back: usize) -> Result<(Done, Done, Hall), Fail>
where
    R: Threads + Wait + Sync + AllocGlobal,
{
    let alloc = rt.alloc();
    let events = AtomicU64::new(1);
    let (listener, arrivals) = unbounded::<Arrival, Global>(alloc)?;
    let workers = workers(rt, &arrivals, &events)?;
    let left = Plan {
        name: b"lib/a",
        listener: listener.clone()?,
        courses: Vec::from_slice(alloc, &[back, usize::MAX])?,
        number: 10,
    };
    let right = Plan {
        name: b"lib/b",
        listener,
        courses: Vec::from_slice(alloc, &[usize::MAX])?,
        number: 20,
    };
    let ((left, right), hall) = pushed_at_once(rt, &events, workers, left, right);
    Ok((
        left.ok_or("no memory for the left push")?,
        right.ok_or("no memory for the right push")?,
        hall.ok_or("the pool wasn't served")?,
    ))
}

/// How many bytes of replies get back over the left push's first connection, of which the opening's has 116 and each
/// chunk's 128; how much it asks over each of its connections, and how it ends.
type Row = (usize, &'static [usize], Outcome);

static ROWS: [Row; 3] = [
    (usize::MAX, &[5], Outcome::Pushed),
    // the reply to the first chunk is lost, or that to the close
    (116, &[2, 4], Outcome::Pushed),
    (116 + 3 * 128, &[5, 2], Outcome::Already),
];

/// Whether a push's connections are workers', and nobody else's requests carry its references.
fn is_account(legs: &[Leg], hall: &[Leg]) -> bool {
    for worker in hall {
        let is_right = match legs.iter().find(|leg| leg.number == worker.number) {
            Some(leg) => leg.is_of(worker),
            None => !legs.iter().any(|leg| worker.shares_with(leg)),
        };
        if !is_right {
            return false;
        }
    }
    legs.iter().all(|leg| hall.iter().any(|worker| worker.number == leg.number))
}

/// The premises hold of a push, and its file is there.
fn look<R>(rt: &R, done: &Done, hall: &Hall, name: &[u8], at: usize) -> Result<(), NameFault>
where
    R: Abort + AllocGlobal,
{
    holds(rt, is_account(&done.1, &hall.1), &at);
    let name = RepoName::read(rt.alloc(), name)?;
    holds(rt, hall.0.holds(&name, &BlobDigest::of_sha256(FILE)), &at);
    Ok(())
}

#[test]
fn pushes_whose_replies_are_lost_are_served(rt: HostRuntime) -> Result<(), Fail> {
    laws_speak_of::<Incoming<'static, HostRuntime>, Noting<'static>>();
    for (at, (back, asked, end)) in ROWS.iter().enumerate() {
        let (left, right, hall) = run(&rt, *back)?;
        let ends = (left.0, right.0);
        same(&rt, ends, (Some(*end), Some(Outcome::Pushed)), &at);
        let counts = left.1.iter().map(|leg| leg.seen.len());
        holds(&rt, counts.eq(asked.iter().copied()), &at);
        look(&rt, &left, &hall, b"lib/a", at)?;
        look(&rt, &right, &hall, b"lib/b", at)?;
    }
    Ok(())
}
