//! A store as what a pool keeps its changes in.
ghost use Rattle.std.specs.Prelude.{IfSome};
ghost use Rattle.upload_keeping.specs.Books.{AreKept};
ghost use Rattle.upload_keeping.specs.Ready.{IsReady};

use crate::books::Books;
use crate::fault::KeepFault;
use crate::host::KeepingHost;
use crate::noted::Noted;
use bodies::Shelf;
use sqlite_disk::Disk;
use upload_bytes::Spool;
use upload_keeper::{Keeping, NotKept};
use upload_service::{Answer, Ask, Service};
use upload_store::Store;

/// A store as what a pool keeps its changes in. Each is an entry, which is on the disk before its answer is heard, with
/// a large body in a file of its own, and the moments are promised a minute ahead.
///
/// Before a request that may change something is served, there is room for it on the disk, and its large body is there.
/// If there is no room, on the disk or in memory, `note` says so, and the next request may find some. What can't be
/// kept for another reason is told to its host, and nothing is kept from then on.
#[derive(Drop)]
pub struct StoreKeeping<D: Disk, S: Shelf, H> {
    pub(crate) books: Books<D, S>,
    pub(crate) host: H,
    noted: Option<Noted<D, S>>,
    ghost kept: { ∥ AreKept books ∥₁ },
    ghost ready: { ∥ IfSome noted (IsReady books) ∥₁ },
}

impl<D: Disk, S: Shelf, H> StoreKeeping<D, S, H> {
    ghost use Rattle.std.specs.Prelude.{◌≡◌};

    /// With these books, of which nothing is noted yet.
    pub(crate) fn of(books: Books<D, S>, host: H) -> StoreKeeping<D, S, H>
        requires { AreKept books }
        ensures { result.books ≡ books }
    {
        StoreKeeping {
            books,
            host,
            noted: None,
        }
    }
}

impl<D: Disk, S: Shelf, H: Drop> StoreKeeping<D, S, H> {
    ghost use Rattle.std.specs.Prelude.{◌≡◌, is_some};
    ghost use Rattle.upload_keeping.specs.Kept.{has_failed, is_whole_of, store_of};

    /// Why something was not kept, if so. Nothing is kept any more then.
    pub fn fault(&self) -> Option<&KeepFault>
        ensures { is_some result ≡ has_failed self.now }
    {
        self.books.fault.as_ref()
    }

    /// Whether no record of the store was lost as it was opened.
    pub fn is_whole(&self) -> bool
        ensures { result ≡ is_whole_of self.now }
    {
        self.books.is_whole
    }

    /// The store, with what is kept.
    pub fn into_store(self) -> Store<D, S>
        ensures { result ≡ store_of self }
    {
        self.books.store
    }
}

impl<D: Disk, S: Shelf, H: KeepingHost> Keeping for StoreKeeping<D, S, H> {
    ghost use Rattle.std.specs.Prelude.{◌≡◌, ◌≤◌, [], ◌++◌, true, OnOk, OnErr};
    ghost use Rattle.upload_keeper.specs.Safety.{IsSafe};
    ghost use Rattle.upload_keeping.specs.declared.fault.KeepFault.{KeepFault};
    ghost use Rattle.upload_keeping.specs.Kept.{start_of, kept_of, waiting_of, last_of, upto_of, has_failed, noted_of};

    ghost start = { start_of };

    ghost kept = { kept_of };

    ghost waiting = { waiting_of };

    ghost last = { last_of };

    ghost upto = { upto_of };

    ghost failed = { has_failed };

    ghost noted = { noted_of };

    fn spool(&self) -> Option<Spool> {
        self.books.store.spool()
    }

    /// There is no room either for a request that changes nothing, so that nothing is made ready for it.
    fn note(&mut self, service: &Service, ask: &Ask, secret: [u8; 12], now: u64) -> bool {
        self.noted = None;
        self.books.see(now);
        self.noted = self.books.ready(service, ask, secret, now);
        self.noted.is_some()
    }

    fn add(&mut self, answer: &Answer) {
        let Some(noted) = self.noted.take() else {
            unreachable!()
        };
        self.books.add(noted, answer);
    }

    /// The file of its body is removed. If that fails, the next start removes it.
    fn let_go(&mut self) {
        if let Some(noted) = self.noted.take() {
            self.books.let_go(noted);
        }
    }

    fn linger(&mut self) -> bool {
        self.books.is_due() && self.host.pause()
    }

    /// The host is told what was not kept. So it is by each call from then on, which fails too.
    fn keep(&mut self) -> Result<(), NotKept>
        requires { IsSafe (start_of self.old) (kept_of self.old ++ waiting_of self.old) }
        ensures start { start_of self.new ≡ start_of self.old }
        ensures kept { OnOk result (kept_of self.new ≡ kept_of self.old ++ waiting_of self.old) }
        ensures waiting { OnOk result (waiting_of self.new ≡ []) }
        ensures last { last_of self.new ≡ last_of self.old }
        ensures upto { upto_of self.old ≤ upto_of self.new }
        ensures promised { OnOk result (last_of self.old ≤ upto_of self.new) }
        ensures failed { OnErr result (has_failed self.new ≡ true) }
        ensures told { OnErr result ((before : H) × (fault : KeepFault)
            × H.hears before fault self.new.host) }
    {
        self.noted = None;
        if !self.books.is_due() {
            self.books.keep_nothing();
            return Ok(());
        }
        let time = self.host.time();
        self.books.keep(time);
        match &self.books.fault {
            None => {
                self.host.kept();
                Ok(())
            }
            Some(fault) => {
                self.host.failed(fault);
                Err(NotKept)
            }
        }
    }
}
