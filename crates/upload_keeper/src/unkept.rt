//! A keeper that keeps nothing, and what it keeps that in. This module and that of a pool alone may name `NoKeeping`:
//! nobody else can vouch by it.
ghost use Rattle.std.specs.Prelude.{◌≡◌, []};
ghost use Rattle.upload_service.specs.Machine.{IsLawful};
ghost use Rattle.upload_keeper.specs.Safety.{Leads, Follows};

use crate::keeper::{Keeper, Served};
use crate::keeping::{Keeping, NotKept};
use crate::log::Entry;
use crate::moments::Moments;
use http_wire::History;
use std::snapshot::Snapshot;
use std::sync::Wait;
use std::thread::Threads;
use upload_bytes::Spool;
use upload_service::{Answer, Ask, Service};

/// What clauses see of a request.
#[derive(Drop)]
pub(crate) struct Noted {
    pub(crate) ask: Snapshot<Ask>,
    pub(crate) secret: [u8; 12],
    pub(crate) now: u64,
}

/// What clauses see of an exchange.
#[derive(Drop)]
pub(crate) struct Recorded {
    pub(crate) note: Noted,
    pub(crate) answer: Snapshot<Answer>,
}

/// Keeps nothing: what it would keep, only clauses see. It takes no memory.
#[derive(Drop)]
pub struct NoKeeping {
    start: Snapshot<Snapshot<Service>>,
    // What a log had before, and then round by round.
    before: Snapshot<History<Entry>>,
    kept: History<History<Recorded>>,
    waiting: History<Recorded>,
    noted: Option<Noted>,
}

impl NoKeeping {
    ghost use Rattle.upload_keeper.specs.Keepings.{start_of, kept_by, waiting_at, last_of};

    /// From this service on.
    pub fn from(service: &Service) -> NoKeeping
        ensures leads { Leads (start_of result) (kept_by result) 0 service.now }
        ensures waiting { waiting_at result ≡ [] }
    {
        // Each service is lawful, and this call says so.
        let _ = service.limits();
        NoKeeping {
            start: Snapshot::of(&Snapshot::of(service)),
            before: Snapshot::of(&History::none()),
            kept: History::none(),
            waiting: History::none(),
            noted: None,
        }
    }

    // After what a keeper did so far.
    fn behind(keeper: &Keeper) -> NoKeeping
        ensures follows { Follows (start_of result) (kept_by result) (last_of result) keeper.now }
        ensures waiting { waiting_at result ≡ [] }
    {
        // Each moment is below 2^64.
        let _now = keeper.books.now;
        NoKeeping {
            start: Snapshot::of(&keeper.books.start),
            before: Snapshot::of(&keeper.books.log),
            kept: History::none(),
            waiting: History::none(),
            noted: None,
        }
    }
}

impl Keeping for NoKeeping {
    ghost use Rattle.std.specs.Prelude.{false};
    ghost use Rattle.upload_keeper.specs.Keepings.{noted_by, start_of, kept_by, waiting_at, last_of};

    ghost start = { start_of };

    ghost kept = { kept_by };

    ghost waiting = { waiting_at };

    // Nothing is gone on from, so all moments are promised.
    ghost last = { last_of };

    ghost upto = { last_of };

    ghost failed = { λ keeping. false };

    ghost noted = { noted_by };

    // No body is kept.
    fn spool(&self) -> Option<Spool> {
        None
    }

    // There is always room for nothing.
    fn note(&mut self, _service: &Service, ask: &Ask, secret: [u8; 12], now: u64) -> bool {
        self.noted = Some(Noted {
            ask: Snapshot::of(ask),
            secret,
            now,
        });
        true
    }

    fn add(&mut self, answer: &Answer) {
        let Some(note) = self.noted.take() else {
            unreachable!()
        };
        let recorded = Recorded {
            note,
            answer: Snapshot::of(answer),
        };
        self.waiting = self.waiting.and(&recorded);
    }

    fn let_go(&mut self) {}

    // Nothing is kept the faster for it.
    fn linger(&mut self) -> bool {
        false
    }

    fn keep(&mut self) -> Result<(), NotKept> {
        self.kept = self.kept.and(&self.waiting);
        self.waiting = History::none();
        Ok(())
    }
}

impl Keeper {
    ghost use Rattle.upload_keeper.specs.Served.{IsSameKeeper, LogIsServed};
    ghost use Rattle.upload_keeper.specs.Told.{Grows};

    /// Serves requests until all seats have finished, each at the greater of the moment told and the moment before.
    /// A seat that is dropped unfinished leaves it without an end.
    pub fn run<R: Threads + Wait, M: Moments>(self, rt: &R, moments: &mut M) -> Served
        ensures same { IsSameKeeper self result }
        ensures grows { Grows M.tells self moments.old result moments.new }
        ensures served { LogIsServed result }
        ensures lawful { IsLawful result.service }
    {
        let mut keeping = NoKeeping::behind(&self);
        match self.run_kept(rt, moments, &mut keeping) {
            Ok(served) => served,
            Err(NotKept) => unreachable!(),
        }
    }
}
