//! The records of a journal, run through a service again.
ghost use Rattle.std.specs.Prelude.{◌≡◌, IsSome};
ghost use Rattle.upload_service.specs.Machine.{AreLawful, empty_state};
ghost use Rattle.upload_store.specs.Rescuing.{Since};
ghost use Rattle.upload_store.specs.Rerun.{Steps};
ghost use Rattle.upload_store.specs.Runs.{start_of};

use crate::fault::RefusedRecord;
use crate::files::Files;
use bodies::Shelf;
use journal::Machine;
use std::alloc::Global;
use std::io::{self, ErrorKind};
use upload_bytes::Room;
use upload_journal::Replay;
use upload_service::{Limits, Service};

/// A service that the records of a journal are run through, with the files that have their bodies.
#[derive(Drop)]
pub struct Rerun<S: Shelf> {
    pub alloc: Global,
    pub files: Files<S>,
    pub replay: Replay,
    /// How many records were run.
    pub count: u64,
    /// The record that was refused.
    pub refused: Option<RefusedRecord>,
}

/// A replay of no entries, by a new service, which holds no more than this room grants if there is one.
pub fn new_replay(alloc: Global, limits: Limits, room: Option<&Room>) -> Replay
    requires { AreLawful limits }
    ensures { result ≡ start_of (empty_state limits 0) }
{
    // A room has few owners, which can be counted.
    let shared = room.and_then(|room| room.share().ok());
    Replay::new(match shared {
        Some(room) => Service::within(alloc, limits, room),
        None => Service::new(alloc, limits),
    })
}

impl<S: Shelf> Rerun<S> {
    ghost use Rattle.upload_store.specs.Rerunning.{shelf_in};

    /// By a new service.
    pub fn new(alloc: Global, shelf: S, limits: Limits) -> Rerun<S>
        requires { AreLawful limits }
        ensures { shelf_in result ≡ shelf }
    {
        Rerun {
            alloc,
            files: Files { shelf },
            replay: new_replay(alloc, limits, None),
            count: 0,
            refused: None,
        }
    }
}

impl<S: Shelf> Machine for Rerun<S> {
    ghost steps = { λ old time text new. Steps S.Shelf.held S.Shelf.may_leave S.Shelf.IsClean
        old.files.shelf old.replay text new.files.shelf new.replay };

    ghost has_refused = { λ rerun. IsSome rerun.refused };

    ghost keeps = { λ first rerun. Since S.Shelf.held S.Shelf.may_leave S.Shelf.IsClean
        S.Shelf.faults first.files.shelf rerun.files.shelf };

    fn apply(&mut self, time: u64, bytes: &[u8]) -> io::Result<()> {
        match self.replay.apply(self.alloc, &mut self.files, bytes) {
            Ok(()) => {
                self.count = self.count.saturating_add(1);
                Ok(())
            }
            Err(fault) => {
                let place = self.count;
                self.refused = Some(RefusedRecord { time, place, fault });
                Err(ErrorKind::InvalidData.into())
            }
        }
    }
}
