//! A crash at some call, as a shelf: it passes so many calls on, and fails each one after.
ghost use Rattle.std.specs.Prelude.{◌≡◌, ◌≤◌, ◌&&◌, ◌↔◌, ◌-◌, not, false, ℕ, IsErr};
ghost use Rattle.sqlite_disk.specs.Disk.{CountsFault};

use crate::fault::BodyFault;
use crate::shelf::Shelf;
use std::alloc::Global;
use std::io;
use upload_bytes::{Spool, SyncedFile};

/// A shelf whose calls fail from some call on, for tests. Its files go on.
#[derive(Drop)]
pub struct FuseShelf<S: Shelf> {
    inner: S,
    calls_left: u64,
    refused: u64,
    sync_refused: bool,
}

impl<S: Shelf> FuseShelf<S> {
    ghost use Rattle.bodies.specs.FuseShelf.{inner_of, calls_left};

    /// A shelf that passes so many calls on.
    pub fn new(inner: S, calls: u64) -> FuseShelf<S>
        ensures inner { inner_of result ≡ inner }
        ensures calls { calls_left result ≡ calls }
    {
        FuseShelf {
            inner,
            calls_left: calls,
            refused: 0,
            sync_refused: false,
        }
    }

    /// Gives the shelf back that it passes calls on to.
    pub fn into_inner(self) -> S
        ensures { result ≡ inner_of self }
    {
        self.inner
    }
}

/// Counts a call, and fails it if there were as many.
fn spend(calls_left: &mut u64, refused: &mut u64) -> io::Result<()>
    ensures faults { CountsFault result refused.old refused.new }
    ensures blown { IsErr result ↔ (calls_left.old ≡ 0) }
    ensures spent { calls_left.new ≡ calls_left.old - 1 }
{
    if *calls_left == 0 {
        *refused = refused.saturating_add(1);
        return Err(io::Error::other("the fuse is blown"));
    }
    *calls_left -= 1;
    Ok(())
}

impl<S: Shelf> Shelf for FuseShelf<S> {
    ghost use Rattle.std.specs.Prelude.{◌+◌};

    type File = S::File;

    ghost held = { λ f. S.Shelf.held f.inner };

    ghost may_leave = { λ f. S.Shelf.may_leave f.inner };

    ghost is_usable = { λ f. S.Shelf.is_usable f.inner && not f.sync_refused };

    ghost IsClean = { λ f. S.Shelf.IsClean f.inner };

    ghost faults = { λ f. S.Shelf.faults f.inner + f.refused };

    fn may_be_used(&self) -> bool {
        self.inner.may_be_used() && !self.sync_refused
    }

    fn make(&mut self, number: u64) -> Result<S::File, BodyFault> {
        if let Err(error) = spend(&mut self.calls_left, &mut self.refused) {
            return Err(BodyFault::Io(error));
        }
        self.inner.make(number)
    }

    fn close(&mut self, number: u64, file: S::File) -> io::Result<()> {
        spend(&mut self.calls_left, &mut self.refused)?;
        self.inner.close(number, file)
    }

    fn sync(&mut self, number: u64) -> io::Result<()> {
        if let Err(error) = spend(&mut self.calls_left, &mut self.refused) {
            self.sync_refused = true;
            return Err(error);
        }
        self.inner.sync(number)
    }

    fn spool(&self) -> Option<Spool> {
        self.inner.spool()
    }

    fn name(&mut self, number: u64, file: &SyncedFile) -> Result<(), BodyFault> {
        if let Err(error) = spend(&mut self.calls_left, &mut self.refused) {
            return Err(BodyFault::Io(error));
        }
        self.inner.name(number, file)
    }

    fn read_at(&mut self, number: u64, at: usize, buf: &mut [u8]) -> Result<usize, BodyFault> {
        if let Err(error) = spend(&mut self.calls_left, &mut self.refused) {
            return Err(BodyFault::Io(error));
        }
        self.inner.read_at(number, at, buf)
    }

    fn remove(&mut self, number: u64) -> Result<(), BodyFault> {
        if let Err(error) = spend(&mut self.calls_left, &mut self.refused) {
            return Err(BodyFault::Io(error));
        }
        self.inner.remove(number)
    }

    fn numbers(&mut self, alloc: Global) -> Result<Vec<u64>, BodyFault> {
        if let Err(error) = spend(&mut self.calls_left, &mut self.refused) {
            return Err(BodyFault::Io(error));
        }
        self.inner.numbers(alloc)
    }
}
