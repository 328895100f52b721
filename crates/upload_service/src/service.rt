//! The service: its tables, the step that serves one request, and runs of it.
ghost use Rattle.std.specs.Prelude.{◌≡◌, ◌↔◌, IsTrue, List, ℕ, length, max, Some, IfSome, IfOk, OnErr};
ghost use Rattle.upload_service.specs.Machine.{State, IsLawful, AreLawful, Turn, empty_state, holds as holds_of};
ghost use Rattle.upload_service.specs.Requests.{chunk_ask, turns_away};
ghost use Rattle.upload_names.specs.Digest.{content_digest};
ghost use Rattle.std.specs.FinMap as map;
ghost use Rattle.std.specs.Option.{option_map};
ghost use Rattle.upload_service.specs.Run.{Run, NeverFall, exchanges};
ghost use Rattle.upload_service.specs.Headline.{Headline};

use crate::answer::Answer;
use crate::ask::{Ask, Extent, GoneChunk};
use crate::budget::Budget;
use crate::counts::Counts;
use crate::limits::Limits;
use crate::sessions::Sessions;
use crate::stock::Stock;
use crate::turn::{Tables, restore_chunk, restore_single, turn, turn_away};
use std::alloc::{AllocError, Global};
use std::marker::Model;
use std::thread::Threads;
use upload_bytes::{Blob, Front, HashPlace, InPlace, InThreads, Received, Room, ThreadEnd};
use upload_names::{Algorithm, BlobDigest, RepoName, UploadRef};

/// The upload service: the open sessions, the stored blobs, and which repository has which blob. It and its
/// limits are lawful wherever it is held.
#[derive(Drop)]
pub struct Service {
    tables: Tables,
}

impl Model for Service {
    ghost use Rattle.upload_service.specs.Machine.{State};
    ghost use Rattle.upload_service.specs.Codes.{state_code};

    ghost Value = { State };

    ghost coded = { state_code };

    ghost use Rattle.upload_service.specs.Kept.Tables.{state_of, IsService};

    ghost view = { λ a. state_of a.tables };

    ghost invariant = { λ a. IsService a.tables };
}

impl Service {
    /// A new service, which keeps these limits. It takes no memory.
    pub fn new(alloc: Global, limits: Limits) -> Service
        requires { AreLawful limits }
        ensures { result ≡ empty_state limits 0 }
    {
        Service::after(alloc, limits, 0)
    }

    /// A new service with the numbers up to `issued` used up. It takes no memory.
    pub fn after(alloc: Global, limits: Limits, issued: u32) -> Service
        requires { AreLawful limits }
        ensures { result ≡ empty_state limits issued }
    {
        Service::granted(alloc, limits, issued, None)
    }

    /// A new service that holds no more than this room grants it, shared with others: the bytes of bodies that aren't
    /// granted already, and what its tables take. What finds no room there is answered NoMemory, as want of memory is.
    /// It takes no memory.
    pub fn within(alloc: Global, limits: Limits, room: Room) -> Service
        requires { AreLawful limits }
        ensures { result ≡ empty_state limits 0 }
    {
        Service::granted(alloc, limits, 0, Some(room))
    }

    fn granted(alloc: Global, limits: Limits, issued: u32, room: Option<Room>) -> Service
        requires { AreLawful limits }
        ensures { result ≡ empty_state limits issued }
    {
        let budget = Budget::of(room);
        let entries = budget.none();
        Service {
            tables: Tables {
                alloc,
                limits,
                issued,
                sessions: Sessions::new(alloc),
                stock: Stock::new(alloc),
                budget,
                entries,
            },
        }
    }

    /// The room that it is granted of, for who reads the bodies of its requests to be granted of too; `None` if it has
    /// no limit. It takes no memory. An `Err` comes only if there are more owners of the room than can be counted.
    pub fn room(&self) -> Result<Option<Room>, AllocError> {
        self.tables.budget.room()
    }

    /// The limits that it keeps.
    pub fn limits(&self) -> Limits
        ensures limits { result ≡ self.now.limits }
        ensures lawful_limits { AreLawful result }
        ensures lawful { IsLawful self.now }
    {
        self.tables.limits
    }

    /// Serves one request, at this moment in seconds: one turn of the machine. The secret is used only if the answer
    /// is Begun. The answer is NoMemory only if memory was refused, at a change or as the bytes of a blob are handed
    /// out, and nothing has changed then. A refusal, a status, `/v2/` and a HEAD of a blob are never answered so.
    ///
    /// A chunk is not hashed here, so that its answer isn't kept waiting (`catch_up`); a close hashes what is left. If
    /// a thread has the session's hash, it hashes all again: who has threads calls `step_joining`.
    pub fn step(&mut self, ask: Ask, secret: [u8; 12], now: u64) -> Answer
        ensures turn { Turn self.old ask secret now result self.new }
        ensures lawful { IsLawful self.new }
    {
        self.step_at(&InPlace, ask, secret, now)
    }

    /// As `step`, for a caller with threads. Many bytes that nobody owns any more go in a thread of their own: those of
    /// a refused body, of a blob whose place another one takes, and of idle uploads that leave. A close that isn't
    /// refused before waits for the thread that hashes for its session by the algorithm of its digest, and so does
    /// everybody else whom the caller serves. So the caller waits for it before, while others are served (`catch_up`).
    pub fn step_joining<R: Threads>(
        &mut self,
        rt: &R,
        ask: Ask,
        secret: [u8; 12],
        now: u64,
    ) -> Answer
        ensures turn { Turn self.old ask secret now result self.new }
        ensures lawful { IsLawful self.new }
    {
        let place = InThreads(rt);
        self.take_back(&place);
        let shares = self.tables.keep_leaving(&ask, now);
        let answer = self.step_at(&place, ask, secret, now);
        place.let_go(shares);
        answer
    }

    /// Serves one request as `step` does, and changes nothing: what would be a change is answered NoMemory. So is
    /// served who could change something while there is no room for what a change is kept in.
    pub fn step_unchanged(&mut self, ask: Ask, secret: [u8; 12], now: u64) -> Answer
        ensures turn { Turn self.old ask secret now result self.new }
        ensures same { self.new ≡ self.old }
    {
        self.step_shut(&InPlace, ask, secret, now)
    }

    /// As `step_unchanged`, for a caller with threads: it waits as `step_joining` does, and many bytes of the body go in
    /// a thread.
    pub fn step_unchanged_joining<R: Threads>(
        &mut self,
        rt: &R,
        ask: Ask,
        secret: [u8; 12],
        now: u64,
    ) -> Answer
        ensures turn { Turn self.old ask secret now result self.new }
        ensures same { self.new ≡ self.old }
    {
        let place = InThreads(rt);
        self.take_back(&place);
        let shares = self.tables.keep_body(&ask);
        let answer = self.step_shut(&place, ask, secret, now);
        place.let_go(shares);
        answer
    }

    /// Answers a chunk whose bytes were let go as they came: by the refusal that `step` would answer it by, or
    /// NoMemory if `step` would take it. Nothing changes, and it takes no memory.
    pub fn turn_away(&self, chunk: GoneChunk, now: u64) -> Answer
        ensures turn { (secret : List ℕ) → Turn self.now (chunk_ask chunk) secret now result self.now }
        ensures away { IsTrue (turns_away result) }
    {
        turn_away(&self.tables, chunk, now)
    }

    /// Serves the request of a blob that a repository had before a start, as `step` does one that brings its bytes. The
    /// blob is in files alone, and has this digest, so nothing is hashed.
    pub fn restore_blob(&mut self, name: RepoName, digest: BlobDigest, blob: Blob) -> Answer
        requires { content_digest digest.algorithm blob ≡ digest }
        ensures turn { (secret : List ℕ) (now : ℕ) → Turn self.old
            (Ask.Single name (Some digest) blob) secret now result self.new }
        ensures lawful { IsLawful self.new }
    {
        restore_single(&mut self.tables, name, digest, blob)
    }

    /// Serves the chunk that an upload had received before a start, at this moment in seconds, as `step` does one that
    /// brings its bytes. These are in files alone, and hashed. An upload that has received something since takes no more
    /// so: it is out of memory.
    pub fn restore_upload(
        &mut self,
        name: RepoName,
        at: UploadRef,
        received: Received,
        now: u64,
    ) -> Answer
        ensures turn { (secret : List ℕ) → Turn self.old
            (Ask.Chunk name at Extent.Absent received) secret now result self.new }
        ensures lawful { IsLawful self.new }
    {
        restore_chunk(&mut self.tables, name, at, received, now)
    }

    /// Serves one request and changes nothing. A close hashes what is left at a place.
    fn step_shut<P: HashPlace>(&mut self, place: &P, ask: Ask, secret: [u8; 12], now: u64) -> Answer
        ensures turn { Turn self.old ask secret now result self.new }
        ensures same { self.new ≡ self.old }
    {
        self.tables.budget.shut(true);
        let answer = turn(&mut self.tables, place, ask, secret, now);
        self.tables.budget.shut(false);
        answer
    }

    /// Serves one request. A close hashes what is left at a place.
    fn step_at<P: HashPlace>(&mut self, place: &P, ask: Ask, secret: [u8; 12], now: u64) -> Answer
        ensures turn { Turn self.old ask secret now result self.new }
        ensures lawful { IsLawful self.new }
    {
        turn(&mut self.tables, place, ask, secret, now)
    }

    /// Has the hash of an open session by an algorithm take in what the session received since it last did, so that a
    /// close by it has little left to hash. Between two requests this is the time to do it: of the SHA-256 behind each
    /// chunk, of the SHA-512 before a close, and behind each chunk too once bytes of the session left memory. Nothing that is seen changes. A reference of no open session is no work.
    ///
    /// `InPlace` hashes here, and takes no memory. `InThreads` has a thread of the session's own do it if there is
    /// enough to hash, so that the caller serves other requests meanwhile; from then on the caller calls
    /// `step_joining` in place of `step`. A session has one such thread at a time for each algorithm. A thread that has
    /// ended is joined by the next `catch_up` or `step_joining`, of whichever session, and keeps no stack from then on.
    /// While that is at work nothing is done: what is left to do then is for the next one. The thread is given shares
    /// of the session's bytes and no copy. If there is no memory for it, or none can be made, all is taken in here.
    ///
    /// Gives the end of the thread that is at work, so that who is to close the session can wait for it. Behind it
    /// there may be more to take in, if chunks came meanwhile or the thread was at work already, so the caller then
    /// asks again. `None` says that there is nothing to wait for.
    pub fn catch_up<P: HashPlace>(
        &mut self,
        place: &P,
        at: &UploadRef,
        algorithm: Algorithm,
    ) -> Option<ThreadEnd>
        ensures { self.new ≡ self.old }
    {
        self.take_back(place);
        let _ = self.evict(place, at);
        let Tables {
            sessions,
            alloc,
            ..
        } = &mut self.tables;
        if sessions.has_evicted(at) {
            // More of its bytes are to leave memory, which both hashes have to hold then.
            let _ = sessions.catch_up(place, *alloc, at, Algorithm::Sha512);
        }
        sessions.catch_up(place, *alloc, at, algorithm)
    }

    /// If less than half of the room is left, has the bytes of a session leave memory that files have: both hashes take
    /// in at a place what they lack. If threads do that, the bytes leave with the first `catch_up` of this session behind
    /// their end. Gives the end of one of these threads, if one is at work. Nothing that is seen changes, and the session
    /// goes on as before.
    pub fn evict<P: HashPlace>(&mut self, place: &P, at: &UploadRef) -> Option<ThreadEnd>
        ensures { self.new ≡ self.old }
    {
        if !self.tables.budget.is_half_used() {
            return None;
        }
        self.tables.sessions.evict(place, self.tables.alloc, at)
    }

    /// Has an open session keep up with who sends to it, before it takes a large chunk. Its bytes leave memory, if they
    /// are to (`evict`), and its SHA-256 goes on (`catch_up`). Gives the end of a thread that is to be waited for: until
    /// then the bytes stay in memory, or more than 128 MiB, or an eighth of the room, wait for the hash. So a close
    /// has no more than that to hash beside what one thread does. The caller then asks again. Nothing that is seen
    /// changes, and a chunk that doesn't wait is taken too.
    pub fn keep_up<P: HashPlace>(&mut self, place: &P, at: &UploadRef) -> Option<ThreadEnd>
        ensures { self.new ≡ self.old }
    {
        self.take_back(place);
        if let Some(end) = self.evict(place, at) {
            return Some(end);
        }
        let tables = &mut self.tables;
        let end = tables
            .sessions
            .catch_up(place, tables.alloc, at, Algorithm::Sha256);
        if tables.sessions.lacks(at, Algorithm::Sha256) > tables.budget.most_lacking() {
            end
        } else {
            None
        }
    }

    /// What an open session received, with its hash by an algorithm, for who hashes the body of a close behind it
    /// before asking for the close (`Body::hashed_behind`). Then the step of that close only compares what the session
    /// received with this, unless a chunk came meanwhile. None if there is no such session, a thread is at work for it
    /// (`catch_up` gives its end), or no memory is left. Nothing that is seen changes.
    pub fn front<P: HashPlace>(
        &mut self,
        place: &P,
        at: &UploadRef,
        algorithm: Algorithm,
    ) -> Option<Front>
        ensures front { IfSome result (λ front.
            option_map (λ session. session.received) (map.get self.old.sessions at.now) ≡ Some front) }
        ensures same { self.new ≡ self.old }
    {
        if self.catch_up(place, at, algorithm).is_some() {
            return None;
        }
        self.tables
            .sessions
            .front(place, self.tables.alloc, at, algorithm)
    }

    /// Whether less than an eighth is left of the room that it is granted of, if there is a limit.
    pub fn is_scarce(&self) -> bool {
        self.tables.budget.is_scarce()
    }

    /// Has the bytes of some sessions go that are idle at this moment, in seconds, so that there is room for others:
    /// for who sees that little is left (`is_scarce`), or that a request found none. Their hashes take in at a place
    /// what they lack. If threads do that, the bytes go at the first `catch_up` or `step_joining` behind their end.
    /// Nothing that is seen changes: such a session is idle at each later moment too. If a moment should fall all the
    /// same, it tells its offset and refuses as ever, and what would change it is out of memory.
    pub fn give_way<P: HashPlace>(&mut self, place: &P, now: u64)
        ensures { self.new ≡ self.old }
    {
        self.take_back(place);
        let max_idle = self.tables.limits.max_idle;
        self.tables
            .sessions
            .give_way(place, self.tables.alloc, max_idle, now);
    }

    /// Joins the threads that have ended hashing.
    fn take_back<P: HashPlace>(&mut self, place: &P)
        ensures { self.new ≡ self.old }
    {
        self.tables.sessions.take_back(place, self.tables.alloc);
    }

    /// Has the numbers up to this one count as used up, so that no session gets one of them. Nothing else changes, and
    /// it takes no memory.
    pub fn use_up(&mut self, numbers: u32)
        ensures used_up { self.new ≡ record self.old { issued = max self.old.issued numbers } }
        ensures lawful { IsLawful self.new }
    {
        self.tables.issued = self.tables.issued.max(numbers);
    }

    /// The last number that a session was given or that counts as used up, or 0. The next session gets the one behind.
    pub fn issued(&self) -> u32
        ensures { result ≡ self.now.issued }
    {
        self.tables.issued
    }

    /// How many bytes a session has received, or None if no such session is open. One that is idle counts
    /// as open until it leaves the table. It takes no memory.
    pub fn next_of(&self, at: &UploadRef) -> Option<u64>
        ensures { result
            ≡ option_map (λ session. length session.received) (map.get self.now.sessions at.now) }
    {
        match self.tables.sessions.find(at) {
            Some(session) => Some(session.received.len()),
            None => None,
        }
    }

    /// Whether a repository has a blob. It takes no memory.
    pub fn holds(&self, name: &RepoName, digest: &BlobDigest) -> bool
        ensures { result ≡ holds_of self.now name.now digest.now }
    {
        self.tables.stock.contains(name, digest)
    }

    /// How much it holds. It looks at each blob and upload, and takes no memory.
    pub fn counts(&self) -> Counts
        ensures blobs { result.blobs ≡ map.len self.now.blobs }
        ensures uploads { result.uploads ≡ map.len self.now.sessions }
    {
        Counts {
            blobs: self.tables.stock.len() as u64,
            stored: self.tables.stock.total(),
            uploads: self.tables.sessions.len() as u64,
            received: self.tables.sessions.total(),
        }
    }

    /// Serves requests in order, each with a secret and at a moment in seconds: one answer for each. The
    /// answers and the service after them are a run of the machine, and if the moments don't fall the
    /// headline holds of it. The list of answers is reserved first: an `Err` changes nothing.
    pub fn run_all(
        &mut self,
        alloc: Global,
        jobs: Vec<(Ask, [u8; 12], u64)>,
    ) -> Result<Vec<Answer>, AllocError>
        ensures count { IfOk result (λ answers. length answers.items ≡ length jobs.items) }
        ensures run { IfOk result
            (λ answers. Run self.old (exchanges jobs.items answers.items) self.new) }
        ensures headline { IfOk result (λ answers. NeverFall (exchanges jobs.items answers.items)
            → Headline self.old (exchanges jobs.items answers.items) self.new) }
        ensures err { OnErr result (self.new ≡ self.old) }
    {
        // Opens the service: that it is lawful is what the headline starts from.
        let _ = &self.tables;
        self.run_each(alloc, jobs)
    }

    fn run_each(
        &mut self,
        alloc: Global,
        jobs: Vec<(Ask, [u8; 12], u64)>,
    ) -> Result<Vec<Answer>, AllocError>
        ensures count { IfOk result (λ answers. length answers.items ≡ length jobs.items) }
        ensures run { IfOk result
            (λ answers. Run self.old (exchanges jobs.items answers.items) self.new) }
        ensures err { OnErr result (self.new ≡ self.old) }
    {
        let mut answers = Vec::with_capacity(alloc, jobs.len())?;
        for (ask, secret, now) in jobs {
            let answer = self.step(ask, secret, now);
            match answers.push(answer) {
                Ok(()) => {}
                Err(_) => unreachable!(),
            }
        }
        Ok(answers)
    }
}

impl Service {
    ghost use Rattle.std.specs.Prelude.{IfNone, None};
    ghost use Rattle.upload_service.specs.Machine.{all_awake};
    ghost use Rattle.upload_service.specs.Forgotten.{forgotten};

    /// The blob of a digest, whichever repository has it. It takes no memory.
    pub fn blob(&self, digest: &BlobDigest) -> Option<&Blob>
        ensures found { IfSome result (λ blob. map.get self.now.blobs digest.now ≡ Some blob.now) }
        ensures none { IfNone result (map.get self.now.blobs digest.now ≡ None) }
    {
        self.tables.stock.get(digest)
    }

    /// Has the sessions leave that are idle at this moment, in seconds, as an opening does in a full table. No request
    /// at this moment or later finds one of them. It takes no memory.
    pub fn leave_idle(&mut self, now: u64)
        ensures left { self.new ≡ record self.old { sessions = all_awake self.old now } }
        ensures lawful { IsLawful self.new }
    {
        let max_idle = self.tables.limits.max_idle;
        self.tables.sessions.leave_idle(max_idle, now);
    }

    /// Has a repository have a blob no more. The blob goes with the last repository that had it, and nothing else
    /// changes. A pair that isn't there changes nothing. It takes no memory. The room has the bytes of a blob that goes
    /// back once nobody reads them; what the pair was granted stays with the service.
    pub fn forget(&mut self, name: &RepoName, digest: &BlobDigest)
        ensures forgets { self.new ≡ forgotten self.old name.now digest.now }
        ensures lawful { IsLawful self.new }
    {
        self.tables.stock.forget(name, digest);
    }

    /// Whether both are in the same state: they have the same limits, the same numbers are used up, and they have the
    /// same sessions, blobs and pairs. An `Err` says that there is no memory to compare them, of which it takes little.
    pub fn is_same(&self, other: &Service) -> Result<bool, AllocError>
        ensures { IfOk result (λ same. IsTrue same → self.now ≡ other.now) }
    {
        let alloc = self.tables.alloc;
        if self.tables.limits != other.tables.limits || self.tables.issued != other.tables.issued {
            return Ok(false);
        }
        if !self.tables.sessions.is_same(alloc, &other.tables.sessions)? {
            return Ok(false);
        }
        let same = self.tables.stock.is_same(&other.tables.stock)?;
        Ok(same)
    }
}
