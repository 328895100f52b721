//! The books of a keeping: its store, what waits in a batch, and what it kept.
ghost use Rattle.std.specs.Prelude.{◌≡◌, ◌≤◌, ◌∷◌, ◌++◌, [], max, IsTrue, IfSome, None, true, false};
ghost use Rattle.upload_keeper.specs.Safety.{asked, answered_so};
ghost use Rattle.upload_service.specs.Machine.{empty_state};
ghost use Rattle.upload_store.specs.Runs.{IsReplayOf, start_of};
ghost use Rattle.upload_store.specs.Store.{shelf_of, is_open, kept_of, limits_of, IsClean};

use crate::entry::{Drafted, draft_of, most_of, put_entry, unwritten};
use crate::fault::KeepFault;
use crate::note::{Note, may_change};
use crate::noted::Noted;
use crate::round::{Moments, keep_round, kept_is_on_the_disk};
use bodies::{BodyFault, Shelf};
use http_wire::History;
use journal::Batch;
use sqlite_disk::Disk;
use std::alloc::Global;
use std::snapshot::Snapshot;
use upload_journal::Replay;
use upload_service::{Answer, Ask, Service};
use upload_store::{Store, StoreFault};

/// What clauses see of an exchange.
#[derive(Drop)]
pub(crate) struct Recorded {
    pub(crate) note: Snapshot<Note>,
    pub(crate) answer: Snapshot<Answer>,
}

/// What a keeping has. What it kept, and what waits, only clauses see: what stands for it is on the disk and in the
/// batch.
#[derive(Drop)]
pub(crate) struct Books<D: Disk, S: Shelf> {
    pub(crate) alloc: Global,
    pub(crate) store: Store<D, S>,
    pub(crate) batch: Batch,
    /// The last moment that was noted, in seconds.
    pub(crate) last: u64,
    /// The moments up to this one are promised.
    pub(crate) upto: u64,
    /// Whether something waits.
    pub(crate) waits: bool,
    /// Whether no record of the store was lost as it was opened.
    pub(crate) is_whole: bool,
    /// Why something was not kept. Nothing is kept any more then.
    pub(crate) fault: Option<KeepFault>,
    // The store as it was opened, and what was recovered from it.
    pub(crate) opened: Snapshot<Store<D, S>>,
    pub(crate) start: Snapshot<Replay>,
    // Round by round.
    pub(crate) kept: History<History<Recorded>>,
    pub(crate) waiting: History<Recorded>,
}

/// So much room is left in the journal beside what changes: for promises of moments, each of which takes 8 KiB and
/// lasts a minute, so that a full disk still lets a server answer what changes nothing.
const FOR_PROMISES: usize = 4_194_304;

/// The journal's room grows by so much at a time.
const STEP: usize = 262_144;

impl<D: Disk, S: Shelf> Books<D, S> {
    ghost use Rattle.upload_keeping.specs.Books.{AreKept, IsReadyFor, start_in, kept_in, waiting_in, opened_in};
    ghost use Rattle.upload_keeping.specs.Books.{is_whole_in};
    ghost use Rattle.upload_keeping.specs.Ready.{IsReady};

    /// Of a store that was opened, with what was recovered from it, and whether that is all that it had.
    pub(crate) fn of(
        alloc: Global,
        store: Store<D, S>,
        replay: &Replay,
        is_whole: bool,
    ) -> Books<D, S>
        requires open { IsTrue (is_open store) }
        requires ran { IsTrue is_whole → IsClean store → IsReplayOf (kept_of store) (S.Shelf.held (shelf_of store))
            (start_of (empty_state (limits_of store) 0)) replay.now }
        ensures kept { AreKept result }
        ensures start { start_in result ≡ replay.now.state }
        ensures none { (kept_in result ≡ []) × (waiting_in result ≡ []) }
        ensures store { (result.store ≡ store) × (opened_in result ≡ store) }
        ensures last { result.last ≡ max replay.now.last replay.now.upto }
        ensures whole { is_whole_in result ≡ is_whole }
    {
        let moment = replay.moment();
        Books {
            alloc,
            opened: Snapshot::of(&store),
            start: Snapshot::of(replay),
            store,
            batch: Batch::new(alloc),
            last: moment,
            upto: moment,
            waits: false,
            is_whole,
            fault: None,
            kept: History::none(),
            waiting: History::none(),
        }
    }

    /// Notes a moment.
    pub(crate) fn see(&mut self, moment: u64)
        ensures kept { AreKept self.old → AreKept self.new }
        ensures start { start_in self.new ≡ start_in self.old }
        ensures same { (kept_in self.new ≡ kept_in self.old) × (waiting_in self.new ≡ waiting_in self.old) }
        ensures last { self.new.last ≡ max self.old.last moment }
        ensures upto { self.new.upto ≡ self.old.upto }
    {
        self.last = self.last.max(moment);
    }

    /// Makes room in the journal for an entry of so many bytes behind what waits. Says whether there is.
    fn make_room(&mut self, bytes: usize) -> bool
        ensures kept { AreKept self.old → AreKept self.new }
        ensures start { start_in self.new ≡ start_in self.old }
        ensures same { (kept_in self.new ≡ kept_in self.old) × (waiting_in self.new ≡ waiting_in self.old) }
        ensures last { self.new.last ≡ self.old.last }
        ensures upto { self.new.upto ≡ self.old.upto }
        ensures fine { result ≡ true → self.new.fault ≡ None }
    {
        if self.fault.is_some() {
            return false;
        }
        let wanted = self.batch.size().saturating_add(bytes);
        let wanted = wanted.saturating_add(FOR_PROMISES);
        if wanted <= self.store.room() {
            return true;
        }
        match self.store.reserve(wanted.saturating_add(STEP)) {
            Ok(()) => true,
            Err(fault) => {
                let fault = KeepFault::Store(fault);
                if fault.is_want_of_room() && self.store.is_open() {
                    return false;
                }
                self.fault = Some(fault);
                false
            }
        }
    }

    /// Notes a fault, unless it is a want of room.
    fn refuse(&mut self, fault: KeepFault)
        ensures kept { AreKept self.old → AreKept self.new }
        ensures start { start_in self.new ≡ start_in self.old }
        ensures same { (kept_in self.new ≡ kept_in self.old) × (waiting_in self.new ≡ waiting_in self.old) }
        ensures last { self.new.last ≡ self.old.last }
        ensures upto { self.new.upto ≡ self.old.upto }
    {
        if self.fault.is_some() {
            return;
        }
        if fault.is_want_of_room() {
            return;
        }
        // Each crash leaves what is kept, and this call says so.
        kept_is_on_the_disk(&self.store);
        self.fault = Some(fault);
    }

    /// Whether the body of a request is written, or can be yet. If it could not be as it came, why is noted, unless
    /// that is a want of room.
    fn may_be_written(&mut self, ask: &Ask) -> bool
        ensures kept { AreKept self.old → AreKept self.new }
        ensures start { start_in self.new ≡ start_in self.old }
        ensures same { (kept_in self.new ≡ kept_in self.old) × (waiting_in self.new ≡ waiting_in self.old) }
        ensures last { self.new.last ≡ self.old.last }
        ensures upto { self.new.upto ≡ self.old.upto }
    {
        let Some(error) = unwritten(ask) else {
            return true;
        };
        self.refuse(KeepFault::Store(StoreFault::Body(BodyFault::Io(error))));
        false
    }

    /// The entry of a request up to its answer. None if there is no room for it.
    fn draft(&mut self, ask: &Ask, secret: &[u8; 12], moment: u64) -> Option<Drafted<D, S>>
        ensures kept { AreKept self.old → AreKept self.new }
        ensures start { start_in self.new ≡ start_in self.old }
        ensures same { (kept_in self.new ≡ kept_in self.old) × (waiting_in self.new ≡ waiting_in self.old) }
        ensures last { self.new.last ≡ self.old.last }
        ensures upto { self.new.upto ≡ self.old.upto }
        ensures ready { AreKept self.old → IfSome result
            (IsReadyFor self.new (asked ask.now secret.now moment)) }
    {
        if !self.make_room(most_of(ask)) {
            return None;
        }
        if !self.may_be_written(ask) {
            return None;
        }
        if self.fault.is_some() {
            return None;
        }
        let drafted = draft_of(self.alloc, &mut self.store, ask, secret, moment);
        // Each crash leaves what is kept, and this call says so.
        kept_is_on_the_disk(&self.store);
        match drafted {
            Ok(drafted) => Some(drafted),
            Err(fault) => {
                if fault.is_want_of_room() {
                    return None;
                }
                self.fault = Some(fault);
                None
            }
        }
    }

    /// Makes ready what is to be kept of a request that this service is about to be asked, as far as it is known before
    /// its answer. None if there is no room for it, or if it changes nothing.
    pub(crate) fn ready(
        &mut self,
        service: &Service,
        ask: &Ask,
        secret: [u8; 12],
        moment: u64,
    ) -> Option<Noted<D, S>>
        ensures kept { AreKept self.old → AreKept self.new }
        ensures start { start_in self.new ≡ start_in self.old }
        ensures same { (kept_in self.new ≡ kept_in self.old) × (waiting_in self.new ≡ waiting_in self.old) }
        ensures last { self.new.last ≡ self.old.last }
        ensures upto { self.new.upto ≡ self.old.upto }
        ensures noted { IfSome result (λ it. it.note ≡ asked ask.now secret moment) }
        ensures ready { AreKept self.old → IfSome result (IsReady self.new) }
    {
        if !may_change(service, ask) {
            return None;
        }
        let drafted = self.draft(ask, &secret, moment)?;
        Some(Noted {
            note: Note::of(ask, secret, moment),
            drafted,
        })
    }

    /// Adds a request that changed something, with its answer.
    pub(crate) fn add(&mut self, noted: Noted<D, S>, answer: &Answer)
        ensures kept { AreKept self.old → IsReady self.old noted → AreKept self.new }
        ensures start { start_in self.new ≡ start_in self.old }
        ensures same { kept_in self.new ≡ kept_in self.old }
        ensures waiting { waiting_in self.new
            ≡ waiting_in self.old ++ answered_so noted.note answer.now ∷ [] }
        ensures last { self.new.last ≡ self.old.last }
        ensures upto { self.new.upto ≡ self.old.upto }
    {
        let Noted { note, drafted } = noted;
        let recorded = Recorded {
            note: Snapshot::of(&note),
            answer: Snapshot::of(answer),
        };
        self.waiting = self.waiting.and(&recorded);
        self.waits = true;
        if self.fault.is_some() {
            return;
        }
        let put = put_entry(&self.store, &mut self.batch, drafted.draft, answer);
        // Each crash leaves what is kept, and this call says so.
        kept_is_on_the_disk(&self.store);
        self.fault = put.err();
    }

    /// Lets go of what was made ready for a request that changed nothing: the file of its body is removed, if it can
    /// be.
    pub(crate) fn let_go(&mut self, noted: Noted<D, S>)
        ensures kept { AreKept self.old → IsReady self.old noted → AreKept self.new }
        ensures start { start_in self.new ≡ start_in self.old }
        ensures same { (kept_in self.new ≡ kept_in self.old) × (waiting_in self.new ≡ waiting_in self.old) }
        ensures last { self.new.last ≡ self.old.last }
        ensures upto { self.new.upto ≡ self.old.upto }
    {
        let Noted { drafted, .. } = noted;
        let Some(file) = drafted.file else {
            return;
        };
        if self.fault.is_some() {
            return;
        }
        let _ = self.store.remove_body(file.number);
    }

    /// Whether there is something to keep, or to promise.
    pub(crate) fn is_due(&self) -> bool
        ensures { result ≡ false → (self.now.last ≤ self.now.upto) × (self.now.waits ≡ false) }
    {
        self.waits || self.upto < self.last || self.fault.is_some()
    }

    /// Keeps what waits, if that is nothing.
    pub(crate) fn keep_nothing(&mut self)
        requires { self.old.waits ≡ false }
        ensures kept { AreKept self.old → AreKept self.new }
        ensures start { start_in self.new ≡ start_in self.old }
        ensures both { (kept_in self.new ≡ kept_in self.old ++ waiting_in self.old)
            × (waiting_in self.new ≡ []) }
        ensures last { self.new.last ≡ self.old.last }
        ensures upto { self.new.upto ≡ self.old.upto }
    {
        self.kept = self.kept.and(&self.waiting);
        self.waiting = History::none();
    }

    /// Puts all that waits on the disk, with the time of day in seconds since 1970, and a promise if one is due.
    pub(crate) fn keep(&mut self, time: u64)
        ensures kept { AreKept self.old → AreKept self.new }
        ensures start { start_in self.new ≡ start_in self.old }
        ensures both { self.new.fault ≡ None
            → (kept_in self.new ≡ kept_in self.old ++ waiting_in self.old) × (waiting_in self.new ≡ []) }
        ensures last { self.new.last ≡ self.old.last }
        ensures upto { self.old.upto ≤ self.new.upto }
        ensures promised { self.new.fault ≡ None → self.old.last ≤ self.new.upto }
    {
        if self.fault.is_some() {
            return;
        }
        let moments = Moments {
            last: self.last,
            upto: self.upto,
        };
        match keep_round(&mut self.store, &mut self.batch, moments, time) {
            Ok(next) => {
                self.upto = next;
                self.waits = false;
                self.kept = self.kept.and(&self.waiting);
                self.waiting = History::none();
            }
            Err(fault) => self.fault = Some(fault),
        }
    }
}
