//! The records of a journal, run through a service again, after records that can't be.
ghost use Rattle.std.specs.Prelude.{◌≡◌, ◌↔◌, IfOk, OnOk, IsTrue};
ghost use Rattle.std.specs.Result.{result_ok};
ghost use Rattle.upload_journal.specs.Entries.{entry_of, legible_of};
ghost use Rattle.upload_journal.specs.declared.replay.ReplayFault.TheVariants as Fault;
ghost use Rattle.upload_store.specs.Found.{numbers_of};
ghost use Rattle.upload_store.specs.Rescuing.{Rescues, Since, LacksMemory};
ghost use Rattle.upload_store.specs.Salvage.{before, highest, of_read, past, ready, lose_at};

use crate::fault::{Loss, RefusedRecord};
use crate::losses::Losses;
use crate::numbers::{before, highest, past_files};
use crate::rerun::Rerun;
use bodies::Shelf;
use journal::Machine;
use std::alloc::{AllocError, Global};
use std::io::{self, ErrorKind};
use upload_journal::{Entry, ReadError, ReplayFault, read_damaged, read_entry};
use upload_service::Limits;

/// A service that the records of a journal are run through, over those that are lost.
#[derive(Drop)]
pub struct Rescue<S: Shelf> {
    pub rerun: Rerun<S>,
    pub losses: Losses,
}

/// What a record is legible as, also if its checksum is wrong. At `Err` there is no memory.
fn legible_in(alloc: Global, bytes: &[u8]) -> Result<Option<Entry>, AllocError>
    ensures { IfOk result (λ entry. entry ≡ result_ok (legible_of bytes.now)) }
{
    match read_damaged(alloc, bytes) {
        Ok(entry) => Ok(Some(entry)),
        Err(ReadError::Fault(_)) => Ok(None),
        Err(ReadError::NoMemory) => Err(AllocError),
    }
}

/// The highest number of a session that a record names, and the first one above those of its files; or 0, if it is no
/// entry. At `Err` there is no memory.
fn numbers_in(alloc: Global, bytes: &[u8]) -> Result<(u32, u64), AllocError>
    ensures { IfOk result (λ numbers. (numbers.0 ≡ of_read highest (entry_of bytes.now))
        × (numbers.1 ≡ past (numbers_of bytes.now))) }
{
    match read_entry(alloc, bytes) {
        Ok(entry) => Ok((highest(&entry), past_files(&entry))),
        Err(ReadError::Fault(_)) => Ok((0, 0)),
        Err(ReadError::NoMemory) => Err(AllocError),
    }
}

/// The number before that of the session that a record begins, or 0. At `Err` there is no memory.
fn number_before(alloc: Global, bytes: &[u8]) -> Result<u32, AllocError>
    ensures { IfOk result (λ n. n ≡ of_read before (entry_of bytes.now)) }
{
    match read_entry(alloc, bytes) {
        Ok(entry) => Ok(before(&entry)),
        Err(ReadError::Fault(_)) => Ok(0),
        Err(ReadError::NoMemory) => Err(AllocError),
    }
}

/// Whether there was no memory.
fn is_want_of_memory(fault: &ReplayFault) -> bool
    ensures { IsTrue result ↔ (fault.now ≡ Fault.NoMemory) }
{
    matches!(fault, ReplayFault::NoMemory)
}

impl<S: Shelf> Rescue<S> {
    ghost use Rattle.upload_store.specs.Rescued.{files_at, shelf_at, stand_of};

    /// Over these files, without a loss.
    pub fn new(alloc: Global, rerun: Rerun<S>) -> Rescue<S>
        ensures { shelf_at result ≡ rerun.files.shelf }
    {
        Rescue {
            rerun,
            losses: Losses::none(alloc),
        }
    }

    /// Has a session that a record begins get the number that it had, if lost records may have had those before it. At
    /// `Err` there is no memory.
    fn make_ready(&mut self, bytes: &[u8]) -> Result<(), AllocError>
        ensures ready { OnOk result (stand_of self.new ≡ record (stand_of self.old) {
          point = ready (stand_of self.old) (entry_of bytes.now);
        }) }
        ensures files { files_at self.new ≡ files_at self.old }
    {
        if self.losses.count == 0 {
            return Ok(());
        }
        let number = number_before(self.rerun.alloc, bytes)?;
        let issued = u64::from(self.rerun.replay.issued());
        if u64::from(number) <= self.losses.count.saturating_add(issued) {
            self.rerun.replay.use_up(number);
        }
        Ok(())
    }

    /// Notes that a record is lost: of one that has changed, what it may have been, but no number. At `Err` there is no
    /// memory.
    fn lose(&mut self, time: u64, fault: ReplayFault, bytes: &[u8]) -> Result<(), AllocError>
        ensures lost { OnOk result
            (stand_of self.new ≡ lose_at (stand_of self.old) time bytes.now fault) }
        ensures files { files_at self.new ≡ files_at self.old }
    {
        let entry = legible_in(self.rerun.alloc, bytes)?;
        let (named, past) = numbers_in(self.rerun.alloc, bytes)?;
        let place = self.rerun.count;
        let loss = Loss {
            time,
            place,
            fault,
            entry,
        };
        self.losses.add(loss, named, past)?;
        self.rerun.count = place.saturating_add(1);
        Ok(())
    }

    /// Refuses a record for want of memory, which is no loss.
    fn give_up(&mut self, time: u64) -> io::Error
        ensures refused { LacksMemory self.new.rerun.refused }
        ensures files { files_at self.new ≡ files_at self.old }
    {
        self.rerun.refused = Some(RefusedRecord {
            time,
            place: self.rerun.count,
            fault: ReplayFault::NoMemory,
        });
        ErrorKind::OutOfMemory.into()
    }
}

impl<S: Shelf> Machine for Rescue<S> {
    ghost steps = { λ old time text new. Rescues S.Shelf.held S.Shelf.may_leave S.Shelf.IsClean
        S.Shelf.faults old.rerun.files.shelf
        (record {
          point = old.rerun.replay;
          place = old.rerun.count;
          lost = old.losses.count;
          listed = old.losses.listed.items;
          named = old.losses.named;
          past = old.losses.past;
        }) time text
        new.rerun.files.shelf
        (record {
          point = new.rerun.replay;
          place = new.rerun.count;
          lost = new.losses.count;
          listed = new.losses.listed.items;
          named = new.losses.named;
          past = new.losses.past;
        }) };

    ghost has_refused = { λ rescue. LacksMemory rescue.rerun.refused };

    ghost keeps = { λ first rescue. Since S.Shelf.held S.Shelf.may_leave S.Shelf.IsClean
        S.Shelf.faults first.rerun.files.shelf rescue.rerun.files.shelf };

    fn apply(&mut self, time: u64, bytes: &[u8]) -> io::Result<()> {
        if self.make_ready(bytes).is_err() {
            return Err(self.give_up(time));
        }
        match self
            .rerun
            .replay
            .apply(self.rerun.alloc, &mut self.rerun.files, bytes)
        {
            Ok(()) => {
                self.rerun.count = self.rerun.count.saturating_add(1);
                Ok(())
            }
            Err(fault) => {
                if is_want_of_memory(&fault) || self.lose(time, fault, bytes).is_err() {
                    return Err(self.give_up(time));
                }
                Ok(())
            }
        }
    }
}
