//! The keeper alone has the service, and serves the seats' requests in the order in which it took them.
ghost use Rattle.std.specs.Prelude.{◌≡◌, ◌<◌, ◌^◌, true, false, [], ◌∷◌, ◌++◌, length, max, Some, IsSome};
ghost use Rattle.upload_service.specs.Machine.{Turn};
ghost use Rattle.upload_service.specs.Requests.{ask_in, chunk_ask};
ghost use Rattle.upload_keeper.specs.Kept.{AreDone};
ghost use Rattle.upload_keeper.specs.Safety.{Asked, asked, answered_so, changes, changed};
ghost use Rattle.upload_keeper.specs.Typed.{AreTyped};

use crate::ends::TakeEnd;
use crate::heard::Heard;
use crate::keeping::{Keeping, NotKept};
use crate::line::Item;
use crate::log::Entry;
use crate::message::Message;
use crate::moments::Moments;
use crate::reply::ReplyLine;
use http_wire::History;
use std::marker::Model;
use std::snapshot::Snapshot;
use std::sync::Wait;
use std::thread;
use std::thread::Threads;
use upload_bytes::InThreads;
use upload_names::{Algorithm, UploadRef};
use upload_service::{Answer, Ask, GoneChunk, Request, Service, headline_holds};

/// How many messages of each seat a round has at most: it may wish something before it asks.
const MOST_OF_A_SEAT: usize = 4;

/// How often a keeper lingers at most for the next message of a round.
const MOST_PAUSES: u32 = 4;

/// What a keeper has, while it runs and when it has ended.
#[derive(Drop)]
pub(crate) struct Books {
    pub(crate) service: Service,
    /// The moment that it began at.
    pub(crate) since: u64,
    pub(crate) now: u64,
    pub(crate) count: u64,
    pub(crate) jobs: TakeEnd<Message>,
    pub(crate) lines: Vec<ReplyLine>,
    pub(crate) start: Snapshot<Service>,
    pub(crate) log: History<Entry>,
}

/// The owner of the service. Contracts see its service, the one that it was given, and the jobs that it took.
#[derive(Drop)]
pub struct Keeper {
    pub(crate) books: Books,
}

impl Model for Keeper {
    ghost use Rattle.std.specs.Coded.{codes};
    ghost use Rattle.upload_service.specs.Codes.{state_code};
    ghost use Rattle.upload_keeper.specs.Served.{KeeperState, keeper_with};
    ghost use Rattle.upload_keeper.specs.Kept.{AreKept};

    ghost Value = { KeeperState };

    ghost coded = { Prim.hlevel (codes, state_code) };

    ghost view = { λ k. keeper_with k.books };

    ghost invariant = { λ k. AreKept k.books };
}

/// What a keeper leaves when all seats have finished. Contracts see the same of it.
#[derive(Drop)]
pub struct Served {
    pub(crate) books: Books,
}

impl Model for Served {
    ghost use Rattle.std.specs.Coded.{codes};
    ghost use Rattle.upload_service.specs.Codes.{state_code};
    ghost use Rattle.upload_keeper.specs.Served.{KeeperState, keeper_with};
    ghost use Rattle.upload_keeper.specs.Kept.{AreKept, AreDone};

    ghost Value = { KeeperState };

    ghost coded = { Prim.hlevel (codes, state_code) };

    ghost view = { λ s. keeper_with s.books };

    ghost invariant = { λ s. AreKept s.books × AreDone s.books.lines.items };
}

impl ReplyLine {
    ghost use Rattle.std.specs.Prelude.{◌≡◌, true, false, IfSome};
    ghost use Rattle.crossbeam_channel.specs.Claims.{view as known};
    ghost use Rattle.upload_keeper.specs.Safety.{MayBeHeard};
    ghost use Rattle.upload_keeper.specs.Line.{is_sender};
    ghost use Rattle.upload_keeper.specs.Kept.{Holds, Sends, outlet_of};

    // Holds an answer back until what it tells is kept. A seat that asks again before it heard hears nothing more.
    #[tactic(auto, using(crate::proofs::KeeperMoves::holding))]
    fn hold(&mut self, answer: Answer)
        ensures line { self.new.replies.sender ≡ self.old.replies.sender }
        ensures done { self.new.is_done ≡ self.old.is_done }
        ensures held { Holds answer (outlet_of self.old) (outlet_of self.new) }
    {
        self.is_expected = false;
        if self.is_crowded {
            return;
        }
        if self.held.is_some() {
            self.is_crowded = true;
            return;
        }
        self.held = Some(answer);
    }

    // Sends what was held back, if the line is open, and tells which session took a chunk. A reply that is handed back
    // closes the line.
    #[tactic(auto, using(crate::proofs::KeeperMoves::sending))]
    fn reply_held<R: Wait, K: Keeping>(&mut self, rt: &R, keeping: &K) -> Option<UploadRef>
        requires sends { is_sender 0 (known self.old.replies.pass).sending ≡ true }
        requires kept { self.old.replies.is_open ≡ true → self.old.is_crowded ≡ false
            → IfSome self.old.held
            (λ answer. MayBeHeard (K.start keeping.now) (K.kept keeping.now)
            (K.upto keeping.now) answer) }
        ensures line { self.new.replies.sender ≡ self.old.replies.sender }
        ensures done { self.new.is_done ≡ self.old.is_done }
        ensures sent { Sends (outlet_of self.old) (outlet_of self.new) }
    {
        if self.is_crowded {
            return None;
        }
        self.is_expected = self.held.is_some();
        let Some(answer) = self.held.take() else {
            return None;
        };
        let taken = session_that_took(&answer);
        if self.replies.is_open() {
            // Each reply line has one sender.
            let reply = Item {
                seat: 0,
                what: Heard::of(answer, keeping),
            };
            let _ = self.replies.send(rt, reply);
        }
        taken
    }
}

impl Keeper {
    ghost use Rattle.std.specs.Prelude.{◌≡◌, [], ◌++◌, map, true, All, vec_len, IfOk, OnOk, OnErr};
    ghost use Rattle.crossbeam_channel.specs.Claims.{view as known};
    ghost use Rattle.crossbeam_channel.specs.Ends.{receives_on};
    ghost use Rattle.upload_service.specs.Machine.{IsLawful};
    ghost use Rattle.upload_keeper.specs.Passes.{line_of, taker_view};
    ghost use Rattle.upload_keeper.specs.Replies.{replies_on, BeginsReplies};
    ghost use Rattle.upload_keeper.specs.Served.{IsSameKeeper, LogIsServed};
    ghost use Rattle.upload_keeper.specs.Told.{Grows};
    ghost use Rattle.upload_keeper.specs.Safety.{Follows, KeptSince};

    // Before its first step, at this moment.
    pub(crate) fn new(
        service: Service,
        since: u64,
        jobs: TakeEnd<Message>,
        lines: Vec<ReplyLine>,
    ) -> Keeper
        requires jobs { known jobs.pass ≡ taker_view (vec_len lines) [] }
        requires lines { All BeginsReplies lines.items }
        ensures { result ≡ record {
          jobs = line_of (receives_on jobs.receiver);
          replies = map replies_on lines.items;
          start = service;
          since = since;
          service = service;
          log = [];
        } }
    {
        // Each service is lawful, and this call says so.
        let _ = service.limits();
        let start = Snapshot::of(&service);
        let books = Books {
            service,
            since,
            now: since,
            count: 0,
            jobs,
            lines,
            start,
            log: History::none(),
        };
        Keeper { books }
    }

    // Takes a message and does what it asks, but for its answer, which is held back. If none waits already and this
    // isn't to wait, or all seats are gone, there is none.
    fn turn<R, M, K>(&mut self, rt: &R, moments: &mut M, keeping: &mut K, waits: bool) -> bool
    where
        R: Threads + Wait,
        M: Moments,
        K: Keeping,
        requires follows { Follows (K.start keeping.old)
            (K.kept keeping.old ++ K.waiting keeping.old) (K.last keeping.old) self.old }
        ensures same { IsSameKeeper self.old self.new }
        ensures grows { Grows M.tells self.old moments.old self.new moments.new }
        ensures start { K.start keeping.new ≡ K.start keeping.old }
        ensures kept { K.kept keeping.new ≡ K.kept keeping.old }
        ensures follows { Follows (K.start keeping.new)
            (K.kept keeping.new ++ K.waiting keeping.new) (K.last keeping.new) self.new }
        ensures since { KeptSince self.old (K.kept keeping.old ++ K.waiting keeping.old)
            self.new (K.kept keeping.new ++ K.waiting keeping.new) }
    {
        let Some(item) = self.books.jobs.take_if(rt, waits) else {
            // Nothing came although this waited: some seat went without its finish.
            yield_if(waits);
            return false;
        };
        let Item { seat, what } = item;
        match what {
            Message::Job(request, secret) => {
                self.books.now = self.books.now.max(moments.now());
                let asked = Snapshot::of(&request);
                let service = &mut self.books.service;
                let answer = serve(rt, service, keeping, request, secret, self.books.now);
                are_typed(&secret, self.books.now, &answer);
                let entry = Entry {
                    seat,
                    request: asked,
                    secret,
                    now: self.books.now,
                    answer: Snapshot::of(&answer),
                };
                self.books.log = self.books.log.and(&entry);
                self.books.count = self.books.count.saturating_add(1);
                self.books.lines[seat].hold(answer);
                true
            }
            Message::Wish(wish) => {
                let told = wish.grant(rt, &mut self.books.service, keeping);
                // A seat that doesn't hear it is gone.
                let _ = self.books.lines[seat].ends.send(rt, told);
                true
            }
            Message::Finish => {
                self.books.lines[seat].is_done = true;
                true
            }
        }
    }

    // Takes a message that waits already. If none does, but a seat that was answered in the last round may ask soon, it
    // lingers a few times.
    fn turn_soon<R, M, K>(&mut self, rt: &R, moments: &mut M, keeping: &mut K) -> bool
    where
        R: Threads + Wait,
        M: Moments,
        K: Keeping,
        requires follows { Follows (K.start keeping.old)
            (K.kept keeping.old ++ K.waiting keeping.old) (K.last keeping.old) self.old }
        ensures same { IsSameKeeper self.old self.new }
        ensures grows { Grows M.tells self.old moments.old self.new moments.new }
        ensures start { K.start keeping.new ≡ K.start keeping.old }
        ensures kept { K.kept keeping.new ≡ K.kept keeping.old }
        ensures follows { Follows (K.start keeping.new)
            (K.kept keeping.new ++ K.waiting keeping.new) (K.last keeping.new) self.new }
        ensures since { KeptSince self.old (K.kept keeping.old ++ K.waiting keeping.old)
            self.new (K.kept keeping.new ++ K.waiting keeping.new) }
    {
        for _ in 0..MOST_PAUSES {
            if self.turn(rt, moments, keeping, false) {
                return true;
            }
            if !linger(&self.books.lines, keeping) {
                return false;
            }
        }
        false
    }

    // Takes a message, for which it waits, and those that wait already or come soon: so many at most.
    fn turns<R, M, K>(&mut self, rt: &R, moments: &mut M, keeping: &mut K, most: usize)
    where
        R: Threads + Wait,
        M: Moments,
        K: Keeping,
        requires follows { Follows (K.start keeping.old)
            (K.kept keeping.old ++ K.waiting keeping.old) (K.last keeping.old) self.old }
        ensures same { IsSameKeeper self.old self.new }
        ensures grows { Grows M.tells self.old moments.old self.new moments.new }
        ensures start { K.start keeping.new ≡ K.start keeping.old }
        ensures kept { K.kept keeping.new ≡ K.kept keeping.old }
        ensures follows { Follows (K.start keeping.new)
            (K.kept keeping.new ++ K.waiting keeping.new) (K.last keeping.new) self.new }
        ensures since { KeptSince self.old (K.kept keeping.old ++ K.waiting keeping.old)
            self.new (K.kept keeping.new ++ K.waiting keeping.new) }
    {
        if !self.turn(rt, moments, keeping, true) {
            return;
        }
        for _ in 1..most {
            if !self.turn_soon(rt, moments, keeping) {
                return;
            }
        }
    }

    // Has the chunk that a session took hashed in a thread, while its client sends the next one and others are served.
    fn catch_up<R: Threads>(&mut self, rt: &R, at: &UploadRef)
        ensures { self.new ≡ self.old }
    {
        let place = InThreads(rt);
        let _ = self.books.service.catch_up(&place, at, Algorithm::Sha256);
    }

    // Sends a seat what was held back for it, now that it is kept, and tells which session took a chunk.
    fn reply_to<R: Wait, K: Keeping>(
        &mut self,
        rt: &R,
        seat: usize,
        keeping: &K,
    ) -> Option<UploadRef>
        requires { Follows (K.start keeping.now) (K.kept keeping.now) (K.upto keeping.now) self.old }
        ensures { self.new ≡ self.old }
    {
        // The law over all runs, of which what is kept is one. The call does nothing.
        headline_holds();
        if seat >= self.books.lines.len() {
            return None;
        }
        self.books.lines[seat].reply_held(rt, keeping)
    }

    // The same for each seat.
    fn reply_all<R: Threads + Wait, K: Keeping>(&mut self, rt: &R, keeping: &K)
        requires { Follows (K.start keeping.now) (K.kept keeping.now) (K.upto keeping.now) self.old }
        ensures { self.new ≡ self.old }
    {
        for seat in 0..self.books.lines.len() {
            if let Some(at) = self.reply_to(rt, seat, keeping) {
                self.catch_up(rt, &at);
            }
        }
    }

    // Takes a message and those that wait already or come soon, at most four of each seat. What they changed is kept at
    // once, and their moments are promised, and then each is answered.
    fn round<R, M, K>(&mut self, rt: &R, moments: &mut M, keeping: &mut K) -> Result<(), NotKept>
    where
        R: Threads + Wait,
        M: Moments,
        K: Keeping,
        requires follows { Follows (K.start keeping.old) (K.kept keeping.old) (K.last keeping.old)
            self.old }
        requires waiting { K.waiting keeping.old ≡ [] }
        ensures same { IsSameKeeper self.old self.new }
        ensures grows { Grows M.tells self.old moments.old self.new moments.new }
        ensures waiting { OnOk result (K.waiting keeping.new ≡ []) }
        ensures follows { OnOk result
            (Follows (K.start keeping.new) (K.kept keeping.new) (K.last keeping.new) self.new) }
        ensures since { OnOk result
            (KeptSince self.old (K.kept keeping.old) self.new (K.kept keeping.new)) }
        ensures failed { OnErr result (K.failed keeping.new ≡ true) }
    {
        // The law over all runs, of which what is kept is one. The call does nothing.
        headline_holds();
        let most = self.books.lines.len().saturating_mul(MOST_OF_A_SEAT);
        self.turns(rt, moments, keeping, most);
        keeping.keep()?;
        self.reply_all(rt, keeping);
        moments.rests(&self.books.service);
        Ok(())
    }

    /// As `run`, and what a request changed is kept before its answer is heard: of a keeper that never ends too. With
    /// several requests at once, those that changed something are kept together, and then all are answered. Nothing is
    /// answered at a moment that isn't promised.
    ///
    /// `NotKept` comes only if `keep` failed. Then no seat hears anything more.
    pub fn run_kept<R, M, K>(
        self,
        rt: &R,
        moments: &mut M,
        keeping: &mut K,
    ) -> Result<Served, NotKept>
    where
        R: Threads + Wait,
        M: Moments,
        K: Keeping,
        requires follows { Follows (K.start keeping.old) (K.kept keeping.old) (K.last keeping.old) self }
        requires waiting { K.waiting keeping.old ≡ [] }
        ensures same { IfOk result (λ served. IsSameKeeper self served) }
        ensures grows { IfOk result
            (λ served. Grows M.tells self moments.old served moments.new) }
        ensures served { IfOk result (λ served. LogIsServed served) }
        ensures lawful { IfOk result (λ served. IsLawful served.service) }
        ensures follows { IfOk result
            (λ served. Follows (K.start keeping.new) (K.kept keeping.new) (K.last keeping.new)
            served) }
        ensures waiting { OnOk result (K.waiting keeping.new ≡ []) }
        ensures since { IfOk result
            (λ served. KeptSince self (K.kept keeping.old) served (K.kept keeping.new)) }
        ensures failed { OnErr result (K.failed keeping.new ≡ true) }
    {
        // The law over all runs, of which this one will be one. The call does nothing.
        headline_holds();
        let mut keeper = self;
        for _ in rt.forever() {
            if are_done(&keeper.books.lines) {
                let Keeper { books } = keeper;
                return Ok(Served { books });
            }
            keeper.round(rt, moments, keeping)?;
        }
        unreachable!()
    }
}

// Lets other threads run.
fn yield_if(is_idle: bool) {
    if is_idle {
        thread::yield_now();
    }
}

// Does nothing: its clause is what the types say.
fn are_typed(secret: &[u8], now: u64, answer: &Answer)
    requires { length secret.now ≡ 12 }
    ensures { AreTyped secret.now now answer.now }
{
    if let Answer::Blob { size, .. } = answer {
        is_u64(*size);
    }
}

// Does nothing: its clause is what the type says.
fn is_u64(number: u64)
    ensures { number < 2 ^ 64 }
{}

// Serves a request, which is kept if it changed something. If little room is left, or it found none, idle uploads give
// way to others.
fn serve<R: Threads, K: Keeping>(
    rt: &R,
    service: &mut Service,
    keeping: &mut K,
    request: Request,
    secret: [u8; 12],
    now: u64,
) -> Answer
    ensures turn { Turn service.old (ask_in request) secret now result service.new }
    ensures start { K.start keeping.new ≡ K.start keeping.old }
    ensures kept { K.kept keeping.new ≡ K.kept keeping.old }
    ensures waiting { K.waiting keeping.new ≡ K.waiting keeping.old
        ++ changed (answered_so (asked (ask_in request) secret now) result ∷ []) }
    ensures last { K.last keeping.new ≡ max (K.last keeping.old) now }
{
    let answer = serve_as_it_came(rt, service, keeping, request, secret, now);
    if matches!(answer, Answer::NoMemory) || service.is_scarce() {
        service.give_way(&InThreads(rt), now);
    }
    answer
}

// Serves a request with its bytes or without, which is kept if it changed something.
fn serve_as_it_came<R: Threads, K: Keeping>(
    rt: &R,
    service: &mut Service,
    keeping: &mut K,
    request: Request,
    secret: [u8; 12],
    now: u64,
) -> Answer
    ensures turn { Turn service.old (ask_in request) secret now result service.new }
    ensures start { K.start keeping.new ≡ K.start keeping.old }
    ensures kept { K.kept keeping.new ≡ K.kept keeping.old }
    ensures waiting { K.waiting keeping.new ≡ K.waiting keeping.old
        ++ changed (answered_so (asked (ask_in request) secret now) result ∷ []) }
    ensures last { K.last keeping.new ≡ max (K.last keeping.old) now }
{
    match request {
        Request::Held(ask) => serve_held(rt, service, keeping, ask, secret, now),
        Request::Gone(chunk) => turn_away(service, keeping, chunk, secret, now),
    }
}

// Serves an ask, which is kept if it changed something.
fn serve_held<R: Threads, K: Keeping>(
    rt: &R,
    service: &mut Service,
    keeping: &mut K,
    ask: Ask,
    secret: [u8; 12],
    now: u64,
) -> Answer
    ensures turn { Turn service.old ask secret now result service.new }
    ensures start { K.start keeping.new ≡ K.start keeping.old }
    ensures kept { K.kept keeping.new ≡ K.kept keeping.old }
    ensures waiting { K.waiting keeping.new ≡ K.waiting keeping.old
        ++ changed (answered_so (asked ask secret now) result ∷ []) }
    ensures last { K.last keeping.new ≡ max (K.last keeping.old) now }
{
    let has_room = keeping.note(service, &ask, secret, now);
    let answer = step(rt, service, has_room, ask, secret, now);
    add_change(keeping, &answer);
    answer
}

// Answers a chunk whose bytes were let go. It changes nothing, so of it only the moment is noted, as of what asks for
// the base.
fn turn_away<K: Keeping>(
    service: &Service,
    keeping: &mut K,
    chunk: GoneChunk,
    secret: [u8; 12],
    now: u64,
) -> Answer
    ensures turn { Turn service.now (chunk_ask chunk) secret now result service.now }
    ensures start { K.start keeping.new ≡ K.start keeping.old }
    ensures kept { K.kept keeping.new ≡ K.kept keeping.old }
    ensures waiting { K.waiting keeping.new ≡ K.waiting keeping.old
        ++ changed (answered_so (asked (chunk_ask chunk) secret now) result ∷ []) }
    ensures last { K.last keeping.new ≡ max (K.last keeping.old) now }
{
    let _ = keeping.note(service, &Ask::Base, secret, now);
    keeping.let_go();
    service.turn_away(chunk, now)
}

// Serves a request. Without room for what would be kept of it, it changes nothing.
fn step<R: Threads>(
    rt: &R,
    service: &mut Service,
    has_room: bool,
    ask: Ask,
    secret: [u8; 12],
    now: u64,
) -> Answer
    ensures turn { Turn service.old ask secret now result service.new }
    ensures same { has_room ≡ false → service.new ≡ service.old }
    ensures unchanged { has_room ≡ false → changes result ≡ false }
{
    if has_room {
        return service.step_joining(rt, ask, secret, now);
    }
    let answer = service.step_unchanged_joining(rt, ask, secret, now);
    if changes(&answer) {
        // By its contract it may tell of a change that leaves all as it is. That can't be kept either.
        return Answer::NoMemory;
    }
    answer
}

// Adds the exchange of the request that was noted last if it changed something.
fn add_change<K: Keeping>(keeping: &mut K, answer: &Answer)
    requires { changes answer.now ≡ true → IsSome (K.noted keeping.old) }
    ensures start { K.start keeping.new ≡ K.start keeping.old }
    ensures kept { K.kept keeping.new ≡ K.kept keeping.old }
    ensures waiting { (request : Asked)
        → (changes answer.now ≡ true → K.noted keeping.old ≡ Some request)
        → K.waiting keeping.new ≡ K.waiting keeping.old
        ++ changed (answered_so request answer.now ∷ []) }
    ensures last { K.last keeping.new ≡ K.last keeping.old }
{
    if changes(answer) {
        keeping.add(answer);
    } else {
        keeping.let_go();
    }
}

// Whether an answer tells that the service changed.
fn changes(answer: &Answer) -> bool
    ensures { result ≡ changes answer.now }
{
    matches!(
        answer,
        Answer::Begun { .. } | Answer::Taken { .. } | Answer::Stored { .. }
    )
}

// Waits a moment if a seat that was answered in the last round hasn't asked since. Says whether it waited.
fn linger<K: Keeping>(lines: &Vec<ReplyLine>, keeping: &mut K) -> bool
    ensures start { K.start keeping.new ≡ K.start keeping.old }
    ensures kept { K.kept keeping.new ≡ K.kept keeping.old }
    ensures waiting { K.waiting keeping.new ≡ K.waiting keeping.old }
    ensures last { K.last keeping.new ≡ K.last keeping.old }
{
    expects_more(lines) && keeping.linger()
}

// Whether a seat that was answered in the last round hasn't asked since.
fn expects_more(lines: &Vec<ReplyLine>) -> bool {
    for seat in 0..lines.len() {
        if lines[seat].is_expected {
            return true;
        }
    }
    false
}

// Whether the finish of each seat was taken.
fn are_done(lines: &Vec<ReplyLine>) -> bool
    ensures { result ≡ true → AreDone lines.now.items }
{
    for seat in 0..lines.len() {
        if !lines[seat].is_done {
            return false;
        }
    }
    true
}

// The session whose chunk was taken, if the answer says so.
fn session_that_took(answer: &Answer) -> Option<UploadRef> {
    match answer {
        Answer::Taken { at, .. } => Some(*at),
        _ => None,
    }
}
