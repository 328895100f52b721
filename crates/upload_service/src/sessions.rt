//! The open sessions, by their references.
ghost use Rattle.std.specs.Prelude.{◌≡◌, ◌↔◌, ◌+◌, ◌<◌, ◌≤◌, ◌^◌, ◌++◌, [], ℕ, length, filter, nat_le, Some, None};
ghost use Rattle.std.specs.Prelude.{map as list_map};
ghost use Rattle.std.specs.Prelude.{IsTrue, IsSome, IfSome, IfNone, IfOk, OnOk, OnErr};
ghost use Rattle.std.specs.FinMap as map;
ghost use Rattle.std.specs.Option.{option_map};
ghost use Rattle.upload_names.specs.Digest.{HasDigest};
ghost use Rattle.upload_service.specs.Machine.{Session, is_idle, awake_of, swept_of};
ghost use Rattle.upload_service.specs.Kept.Entries.{session_of, seen_entry, is_kept};

use crate::limits::Limits;
use std::alloc::{AllocError, Global};
use std::collections::{BTreeMap, VecDeque};
use std::marker::Model;
use upload_bytes::{Body, Front, Grant, HashPlace, Received, Shares, ThreadEnd, Upload};
use upload_names::{Algorithm, BlobDigest, RepoName, UploadRef};

/// A session that was opened and not yet closed.
#[derive(Drop)]
pub struct OpenSession {
    pub name: RepoName,
    pub received: Upload,
    /// The moment, in seconds, of its opening or of the last chunk that it took.
    pub seen: u64,
    /// It covers what the table takes for the session.
    pub grant: Grant,
}

impl OpenSession {
    /// A session that is opened at this moment, with no bytes. It takes no memory.
    pub fn new(alloc: Global, name: RepoName, now: u64, grant: Grant) -> OpenSession
        ensures { session_of result ≡ record { name = name; received = []; seen = now } }
    {
        OpenSession {
            name,
            received: Upload::new(alloc),
            seen: now,
            grant,
        }
    }

    /// Whether it took nothing for more than `max_idle` seconds.
    pub fn is_idle(&self, max_idle: u64, now: u64) -> bool
        ensures { result ≡ is_idle max_idle now (session_of self.now) }
    {
        now > self.seen && now - self.seen > max_idle
    }
}

/// A thread that was started to hash for a session by an algorithm, and its end.
#[derive(Drop)]
struct Started {
    at: UploadRef,
    algorithm: Algorithm,
    end: ThreadEnd,
}

/// How many idle sessions give way at once.
const GIVE_WAY_AT_ONCE: usize = 8;

/// How many threads hash at most for sessions that give way: each may have two.
const MOST_THREADS: usize = 64;

/// The open sessions, seen as a map from their references.
#[derive(Drop)]
pub struct Sessions {
    open: BTreeMap<UploadRef, OpenSession>,
    /// The threads that hash, and those that have ended since `take_back`. One that isn't noted for want of memory is
    /// joined when its session is hashed again.
    started: VecDeque<Started>,
}

impl Model for Sessions {
    ghost use Rattle.std.specs.FinMap as map;
    ghost use Rattle.std.specs.Ordering.{nat_cmp};
    ghost use Rattle.std.specs.Cmp.Lexicographic.{slice_cmp};
    ghost use Rattle.upload_service.specs.Machine.{Table, Session};
    ghost use Rattle.upload_service.specs.Codes.{bytes_code, session_code};

    ghost Value = { Table Session };

    ghost coded = { map.code bytes_code session_code };

    ghost use Rattle.upload_service.specs.Kept.Entries.{kept_as, session_of};

    ghost view = { λ a. kept_as (slice_cmp nat_cmp) session_of a.open.entries };
}

impl Sessions {
    /// No sessions. It takes no memory.
    pub fn new(alloc: Global) -> Sessions
        ensures { result ≡ map.empty }
    {
        Sessions {
            open: BTreeMap::new(alloc),
            started: VecDeque::new(alloc),
        }
    }

    /// The session of a reference, idle or not.
    pub fn find(&self, at: &UploadRef) -> Option<&OpenSession>
        ensures found { IfSome result
            (λ session. map.get self.now at.now ≡ Some (session_of session.now)) }
        ensures none { IfNone result (map.get self.now at.now ≡ None) }
    {
        self.open.get(at)
    }

    /// How many sessions are open, those that are idle too.
    pub fn len(&self) -> usize
        ensures { result ≡ map.len self.now }
    {
        self.open.len()
    }

    /// How many bytes they have received together, or the greatest number there is if they have more.
    pub fn total(&self) -> u64 {
        let mut total: u64 = 0;
        for entry in self.open.iter() {
            total = total.saturating_add(entry.1.received.len());
        }
        total
    }

    /// Whether as many sessions as may be open are open and not idle. Where the table has room it looks at none.
    pub fn is_full(&self, limits: Limits, now: u64) -> bool
        ensures { result
            ≡ nat_le limits.max_open (map.len (awake_of limits.max_idle now self.now)) }
    {
        if self.open.len() < limits.max_open as usize {
            return false;
        }
        count_awake(&self.open, limits.max_idle, now) >= limits.max_open as usize
    }

    /// Has shares kept of what leaves if one more session is opened: of the idle ones, if the table is full and one of
    /// them is idle.
    pub fn keep_leaving_in(&self, limits: Limits, now: u64, shares: &mut Shares) {
        if self.open.len() < limits.max_open as usize || self.is_full(limits, now) {
            return;
        }
        for entry in self.open.iter() {
            if entry.1.is_idle(limits.max_idle, now) {
                entry.1.received.keep_in(shares);
            }
        }
    }

    /// Adds a session. Where the table is full those that are idle as it is opened leave, once there is room.
    pub fn begin(
        &mut self,
        limits: Limits,
        at: UploadRef,
        session: OpenSession,
    ) -> Result<(), AllocError>
        ensures ok { OnOk result (self.new
            ≡ map.insert (swept_of limits session.seen self.old) at (session_of session)) }
        ensures err { OnErr result (self.new ≡ self.old) }
    {
        let full = self.open.len() >= limits.max_open as usize;
        let now = session.seen;
        let Ok(_) = self.open.insert(at, session) else {
            return Err(AllocError);
        };
        if full {
            sweep(&mut self.open, limits.max_idle, now);
        }
        Ok(())
    }

    /// Has an open session take a body in.
    pub fn append(&mut self, at: &UploadRef, body: Body, now: u64) -> Result<(), AllocError>
        requires open { IsSome (map.get self.old at.now) }
        requires fits { (session : Session) → map.get self.old at.now ≡ Some session
            → length session.received + length body < 2 ^ 64 }
        ensures ok { OnOk result ((session : Session) → map.get self.old at.now ≡ Some session →
            self.new ≡ map.insert self.old at.now (record {
              name = session.name;
              received = session.received ++ body;
              seen = now;
            })) }
        ensures err { OnErr result (self.new ≡ self.old) }
    {
        let Some(session) = self.open.get_mut(at) else {
            unreachable!();
        };
        let Ok(()) = session.received.append(body) else {
            return Err(AllocError);
        };
        session.seen = now;
        Ok(())
    }

    /// Has an open session that has received nothing take bytes in that are in files. An `Err` says that it has received
    /// something.
    pub fn restore(
        &mut self,
        at: &UploadRef,
        received: Received,
        now: u64,
    ) -> Result<(), AllocError>
        requires { IsSome (map.get self.old at.now) }
        ensures ok { OnOk result ((session : Session) → map.get self.old at.now ≡ Some session →
            (session.received ≡ []) × (self.new ≡ map.insert self.old at.now (record {
              name = session.name;
              received = received;
              seen = now;
            }))) }
        ensures err { OnErr result (self.new ≡ self.old) }
    {
        let Some(session) = self.open.get_mut(at) else {
            unreachable!();
        };
        let Ok(()) = session.received.restore(received) else {
            return Err(AllocError);
        };
        session.seen = now;
        Ok(())
    }

    /// Has the hash of an open session by an algorithm catch up with what it received, at a place, if there is such a
    /// session. Gives the end of the thread that is at that, if one is. Nothing that is seen changes.
    pub fn catch_up<P: HashPlace>(
        &mut self,
        place: &P,
        alloc: Global,
        at: &UploadRef,
        algorithm: Algorithm,
    ) -> Option<ThreadEnd>
        ensures { self.new ≡ self.old }
    {
        let end = self.hash_more(place, alloc, at, algorithm)?;
        if !self.is_noted(at, algorithm) {
            if let Ok(end) = end.share() {
                self.note(*at, algorithm, end);
            }
        }
        Some(end)
    }

    /// Whether a thread that hashes for a session by an algorithm is noted.
    fn is_noted(&self, at: &UploadRef, algorithm: Algorithm) -> bool {
        self.started.iter().any(|started| started.algorithm == algorithm && started.at == *at)
    }

    /// The same as `catch_up`, but that a thread which starts isn't noted.
    fn hash_more<P: HashPlace>(
        &mut self,
        place: &P,
        alloc: Global,
        at: &UploadRef,
        algorithm: Algorithm,
    ) -> Option<ThreadEnd>
        ensures { self.new ≡ self.old }
    {
        let Some(session) = self.open.get_mut(at) else {
            return None;
        };
        session.received.catch_up(place, alloc, algorithm)
    }

    /// Notes a thread that hashes for a session by an algorithm, by its end.
    fn note(&mut self, at: UploadRef, algorithm: Algorithm, end: ThreadEnd)
        ensures { self.new ≡ self.old }
    {
        let _ = self.started.push_back(Started { at, algorithm, end });
    }

    /// Joins the threads that have ended hashing, if that can be done at this place, so that they keep no stack. The
    /// bytes go that are to give way. Nobody waits, and nothing that is seen changes.
    pub fn take_back<P: HashPlace>(&mut self, place: &P, alloc: Global)
        ensures { self.new ≡ self.old }
    {
        for _ in 0..self.started.len() {
            let Some(Started { at, algorithm, end }) = self.started.pop_front() else {
                return;
            };
            if !end.is_over() {
                self.note(at, algorithm, end);
            } else if let Some(end) = self.take_back_one(place, alloc, &at, algorithm) {
                self.note(at, algorithm, end);
            }
        }
    }

    /// Has the hash of a session by an algorithm back from its thread, if that has ended, else gives its end.
    fn take_back_one<P: HashPlace>(
        &mut self,
        place: &P,
        alloc: Global,
        at: &UploadRef,
        algorithm: Algorithm,
    ) -> Option<ThreadEnd>
        ensures { self.new ≡ self.old }
    {
        let Some(session) = self.open.get_mut(at) else {
            return None;
        };
        session.received.take_back(place, alloc, algorithm)
    }

    /// Has the bytes of a session leave memory that files have (`Upload::evict`): both hashes take in at a place what
    /// they lack. If threads do that, the bytes leave with the next call behind their end. Gives the end of one of these
    /// threads, if one is at work. Nothing that is seen changes.
    pub fn evict<P: HashPlace>(
        &mut self,
        place: &P,
        alloc: Global,
        at: &UploadRef,
    ) -> Option<ThreadEnd>
        ensures { self.new ≡ self.old }
    {
        if !self.may_evict(at) {
            return None;
        }
        let sha256 = self.catch_up(place, alloc, at, Algorithm::Sha256);
        let sha512 = self.catch_up(place, alloc, at, Algorithm::Sha512);
        self.evict_one(place, alloc, at);
        match sha512 {
            Some(end) => Some(end),
            None => sha256,
        }
    }

    /// How many bytes the hash of an open session by an algorithm lacks, and no thread is at work to take in
    /// (`Upload::lacks`).
    pub fn lacks(&self, at: &UploadRef, algorithm: Algorithm) -> u64 {
        match self.open.get(at) {
            Some(session) => session.received.lacks(algorithm),
            None => 0,
        }
    }

    /// Whether a session has bytes in memory that files have too.
    fn may_evict(&self, at: &UploadRef) -> bool {
        self.open
            .get(at)
            .is_some_and(|session| session.received.may_evict())
    }

    /// Whether bytes of a session left memory.
    pub fn has_evicted(&self, at: &UploadRef) -> bool {
        self.open
            .get(at)
            .is_some_and(|session| session.received.has_evicted())
    }

    /// The same as `evict`, once the hashes hold the bytes.
    fn evict_one<P: HashPlace>(&mut self, place: &P, alloc: Global, at: &UploadRef)
        ensures { self.new ≡ self.old }
    {
        let Some(session) = self.open.get_mut(at) else {
            return;
        };
        session.received.evict(place, alloc);
    }

    /// Has the bytes of idle sessions go, of some at once, so that there is room for others (`Upload::give_way`).
    /// Nothing that is seen changes.
    pub fn give_way<P: HashPlace>(&mut self, place: &P, alloc: Global, max_idle: u64, now: u64)
        ensures { self.new ≡ self.old }
    {
        let threads = self
            .started
            .iter()
            .filter(|started| self.gives_way(&started.at))
            .count();
        let most = MOST_THREADS.saturating_sub(threads) / 2;
        for _ in 0..most.min(GIVE_WAY_AT_ONCE) {
            let Some(at) = self.idle_that_stays(max_idle, now) else {
                return;
            };
            self.give_way_one(place, alloc, &at);
            // These note the threads that are at work, so that they are joined.
            let _ = self.catch_up(place, alloc, &at, Algorithm::Sha256);
            let _ = self.catch_up(place, alloc, &at, Algorithm::Sha512);
        }
    }

    /// Whether a session is open whose bytes are to go.
    fn gives_way(&self, at: &UploadRef) -> bool {
        self.open
            .get(at)
            .is_some_and(|session| !session.received.stays())
    }

    /// An idle session whose bytes aren't to go yet.
    fn idle_that_stays(&self, max_idle: u64, now: u64) -> Option<UploadRef> {
        let mut sessions = self.open.iter();
        let entry = sessions.find(|entry| entry.1.is_idle(max_idle, now)
            && entry.1.received.stays())?;
        Some(*entry.0)
    }

    /// Has the bytes of a session go.
    fn give_way_one<P: HashPlace>(&mut self, place: &P, alloc: Global, at: &UploadRef)
        ensures { self.new ≡ self.old }
    {
        let Some(session) = self.open.get_mut(at) else {
            return;
        };
        session.received.give_way(place, alloc);
    }

    /// What an open session received, with its hash by an algorithm, if there is such a session and memory for it. A
    /// thread that hashes for that is waited for, if the place has threads. Nothing that is seen changes.
    pub fn front<P: HashPlace>(
        &mut self,
        place: &P,
        alloc: Global,
        at: &UploadRef,
        algorithm: Algorithm,
    ) -> Option<Front>
        ensures front { IfSome result (λ front.
            option_map (λ session. session.received) (map.get self.old at.now) ≡ Some front) }
        ensures same { self.new ≡ self.old }
    {
        let Some(session) = self.open.get_mut(at) else {
            return None;
        };
        session.received.front(place, alloc, algorithm)
    }

    /// Whether what an open session received and a last body have a digest, by the algorithm of that digest.
    /// Nothing that is seen changes.
    pub fn has_digest<P: HashPlace>(
        &mut self,
        place: &P,
        at: &UploadRef,
        digest: &BlobDigest,
        body: &Body,
    ) -> bool
        requires { IsSome (map.get self.old at.now) }
        ensures is { (session : Session) → map.get self.old at.now ≡ Some session
            → (IsTrue result ↔ HasDigest (session.received ++ body.now) digest.now) }
        ensures same { self.new ≡ self.old }
    {
        let Some(session) = self.open.get_mut(at) else {
            unreachable!();
        };
        session.received.has_digest(place, digest, body)
    }

    /// Moves out what an open session received, so that it has received nothing. None says that its bytes were let go,
    /// and changes nothing.
    pub fn take(&mut self, alloc: Global, at: &UploadRef) -> Option<Received>
        requires { IsSome (map.get self.old at.now) }
        ensures taken { IfSome result (λ received. (session : Session)
            → map.get self.old at.now ≡ Some session → (received ≡ session.received)
            × (self.new ≡ map.insert self.old at.now (record session { received = [] }))) }
        ensures none { IfNone result (self.new ≡ self.old) }
    {
        let Some(session) = self.open.get_mut(at) else {
            unreachable!();
        };
        session.received.take(alloc)
    }

    /// Has an open session have received these bytes.
    pub fn put_back(&mut self, at: &UploadRef, received: Received)
        requires { IsSome (map.get self.old at.now) }
        ensures { (session : Session) → map.get self.old at.now ≡ Some session
            → self.new ≡ map.insert self.old at.now (record session { received = received }) }
    {
        let Some(session) = self.open.get_mut(at) else {
            unreachable!();
        };
        session.received = Upload::of(received);
    }

    /// Has a session leave, if it is open.
    pub fn close(&mut self, at: &UploadRef)
        ensures { self.new ≡ map.remove self.old at.now }
    {
        let _ = self.open.remove(at);
    }

    /// Has the idle sessions leave, whether or not the table is full. It takes no memory.
    pub fn leave_idle(&mut self, max_idle: u64, now: u64)
        ensures awake { self.new ≡ awake_of max_idle now self.old }
        ensures fewer { map.len self.new ≤ map.len self.old }
    {
        let _ = self.open.len();
        sweep(&mut self.open, max_idle, now);
    }

    /// Whether both have the same sessions. An `Err` says that there is no memory to compare them.
    pub fn is_same(&self, alloc: Global, other: &Sessions) -> Result<bool, AllocError>
        ensures { IfOk result (λ same. IsTrue same → self.now ≡ other.now) }
    {
        let same = are_same(alloc, &self.open, &other.open)?;
        Ok(same)
    }
}

/// Whether both have the same sessions under the same references.
fn are_same(
    alloc: Global,
    sessions: &BTreeMap<UploadRef, OpenSession>,
    others: &BTreeMap<UploadRef, OpenSession>,
) -> Result<bool, AllocError>
    ensures { IfOk result (λ same. IsTrue same
        → list_map seen_entry sessions.now.entries ≡ list_map seen_entry others.now.entries) }
{
    let mut left = others.iter();
    for (at, session) in sessions.iter() {
        let Some((other_at, other)) = left.next() else {
            return Ok(false);
        };
        if !at.same(other_at) || !is_same(alloc, session, other)? {
            return Ok(false);
        }
    }
    Ok(left.next().is_none())
}

/// Whether these are the same name, bytes and moment.
fn is_same(alloc: Global, session: &OpenSession, other: &OpenSession) -> Result<bool, AllocError>
    ensures { IfOk result (λ same. IsTrue same → session_of session.now ≡ session_of other.now) }
{
    if session.seen != other.seen || !session.name.same(&other.name) {
        return Ok(false);
    }
    let mine = session.received.share(alloc)?;
    let theirs = other.received.share(alloc)?;
    Ok(mine.is_same(&theirs))
}

/// How many sessions aren't idle.
fn count_awake(entries: &BTreeMap<UploadRef, OpenSession>, max_idle: u64, now: u64) -> usize
    ensures { result ≡ length (filter (is_kept max_idle now) entries.now.entries) }
{
    entries
        .iter()
        .filter(|entry| !entry.1.is_idle(max_idle, now))
        .count()
}

/// Has the idle sessions leave the table.
fn sweep(entries: &mut BTreeMap<UploadRef, OpenSession>, max_idle: u64, now: u64)
    ensures { entries.new.entries ≡ filter (is_kept max_idle now) entries.old.entries }
{
    entries.retain(|_, session| !session.is_idle(max_idle, now));
}
