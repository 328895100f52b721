//! Bodies for a replay, from the files of a shelf.
ghost use Rattle.std.specs.Prelude.{◌≡◌};
ghost use Rattle.upload_store.specs.Reading.{StandsIn};
ghost use Rattle.upload_store.specs.Rescuing.{Since, RefusedSince, fault_told};

use bodies::Shelf;
use upload_bytes::{Body, BodyBuilder, Front, InPlace};
use upload_journal::{Bodies, BodyFault};
use upload_names::UploadRef;

/// So many bytes of a file are read at once.
const PIECE: usize = 65536;

/// The files of a shelf, from which bodies are read.
#[derive(Drop)]
pub struct Files<S: Shelf> {
    pub shelf: S,
}

/// Why a piece of a file was not read.
fn fault_of(fault: bodies::BodyFault) -> BodyFault
    ensures { result ≡ fault_told fault }
{
    match fault {
        bodies::BodyFault::Missing => BodyFault::NotThere,
        _ => BodyFault::NotRead,
    }
}

/// Notes that what came last of a body is all of a file, if a blob may be kept in that.
fn note_file<S: Shelf>(shelf: &S, number: u64, body: &mut BodyBuilder)
    ensures { body.new ≡ body.old }
{
    if let Some(spool) = shelf.spool() {
        body.note_file(&spool, number);
    }
}

impl<S: Shelf> Bodies for Files<S> {
    ghost stands = { λ files. StandsIn S.Shelf.held S.Shelf.IsClean files.shelf };

    ghost keeps = { λ first files. Since S.Shelf.held S.Shelf.may_leave S.Shelf.IsClean
        S.Shelf.faults first.shelf files.shelf };

    ghost refused = { λ first files. RefusedSince S.Shelf.held S.Shelf.may_leave S.Shelf.IsClean
        S.Shelf.faults first.shelf files.shelf };

    fn read(&mut self, number: u64, body: &mut BodyBuilder) -> Result<(), BodyFault> {
        let mut piece = [0; PIECE];
        let begun = body.len();
        for _ in 0..u64::MAX {
            let at = body.len() - begun;
            let n = match self.shelf.read_at(number, at, &mut piece) {
                Ok(n) => n,
                Err(fault) => return Err(fault_of(fault)),
            };
            if n == 0 {
                note_file(&self.shelf, number, body);
                return Ok(());
            }
            if body.extend(&InPlace, &piece[..n]).is_err() {
                return Err(BodyFault::NoMemory);
            }
        }
        // As many bytes have no place in memory.
        Err(BodyFault::NoMemory)
    }

    fn ready(&mut self, number: u64) -> Option<Body> {
        self.shelf.ready(number)
    }

    fn joined(&mut self, first: u64) -> Option<Body> {
        self.shelf.joined(first)
    }

    fn front(&mut self, at: &UploadRef) -> Option<Front> {
        self.shelf.front(at)
    }
}
