//! The entry of a request, up to its answer and then whole.
ghost use Rattle.std.specs.Prelude.{◌≡◌, ◌++◌, ◌∷◌, [], List, ℕ, OnOk, IfOk, IfSome, option_map, Ok, Some, None, length};
ghost use Rattle.journal.specs.Batch.{batch_records};
ghost use Rattle.upload_keeper.specs.Safety.{Asked, asked, answered_so};
ghost use Rattle.upload_journal.specs.Entries.{asked_text};
ghost use Rattle.upload_journal.specs.Short.{kept_of as kept_ask, Fits};
ghost use Rattle.upload_service.specs.Run.{Exchange};
ghost use Rattle.upload_store.specs.Safe.{IsSafe};
ghost use Rattle.upload_store.specs.Store.{journal_of, shelf_of, next_of, IsClean};
ghost use Rattle.upload_keeping.specs.Exchanges.{IsDrafted, body_in};
ghost use Rattle.upload_keeping.specs.Keeping.{Aside, Goes, Holds};

use crate::fault::KeepFault;
use crate::sound::{answer_is_sound, ask_is_sound, file_is_sound, given_is_sound};
use bodies::Shelf;
use journal::Batch;
use sqlite_disk::Disk;
use std::alloc::{AllocError, Global};
use std::io;
use std::snapshot::Snapshot;
use upload_bytes::Body;
use upload_journal::{BodyFile, Draft, MOST_HERE};
use upload_service::{Answer, Ask};
use upload_store::{Store, StoreFault};

/// The entry of a request up to its answer, with its body on the disk if it is too long for it.
#[derive(Drop)]
pub(crate) struct Drafted<D: Disk, S: Shelf> {
    pub(crate) draft: Draft,
    /// The file of the body.
    pub(crate) file: Option<BodyFile>,
    /// The store before that was written.
    pub(crate) before: Snapshot<Store<D, S>>,
}

/// The body of a request that may have one.
pub(crate) fn body_of(ask: &Ask) -> Option<&Body>
    ensures { option_map (λ body. body.now) result ≡ body_in ask.now }
{
    match ask {
        Ask::Single { body, .. } => Some(body),
        Ask::Chunk { body, .. } => Some(body),
        Ask::Close { body, .. } => Some(body),
        _ => None,
    }
}

/// Why the body of a request could not be written as it came, if so.
pub(crate) fn unwritten(ask: &Ask) -> Option<io::Error> {
    match body_of(ask)?.file()? {
        Ok(_) => None,
        Err(error) => Some(match error.raw_os_error() {
            Some(code) => io::Error::from_raw_os_error(code),
            None => error.kind().into(),
        }),
    }
}

/// What an entry has beside a body are fewer bytes: two names at most, a reference, a digest and an answer.
const MOST_BESIDE: usize = 2_048;

/// The journal grows by so many bytes.
const SECTOR: usize = 4_096;

/// An entry of this request has fewer bytes. It is a number of whole sectors, so that of two short requests none finds
/// room where the other doesn't.
pub(crate) fn most_of(ask: &Ask) -> usize {
    let here = match body_of(ask) {
        Some(body) => body.len().min(MOST_HERE),
        None => 0,
    };
    let sectors = here.saturating_add(MOST_BESIDE) / SECTOR;
    sectors.saturating_add(1).saturating_mul(SECTOR)
}

/// A draft, if there was memory for it, and the request can change something.
fn made(draft: Result<Option<Draft>, AllocError>) -> Result<Draft, KeepFault>
    ensures { IfOk result (λ made. draft ≡ Ok (Some made)) }
{
    match draft {
        Ok(Some(draft)) => Ok(draft),
        Ok(None) => Err(KeepFault::NoChange),
        Err(_) => Err(KeepFault::NoMemory),
    }
}

/// The text of a request up to its answer, with its body in it.
fn draft_here<D: Disk, S: Shelf>(
    alloc: Global,
    store: &Store<D, S>,
    ask: &Ask,
    secret: &[u8; 12],
    moment: u64,
) -> Result<Draft, KeepFault>
    requires { Fits ask.now [] }
    ensures { IfOk result
        (IsDrafted (IsSafe S.Shelf.held S.Shelf.may_leave (shelf_of store.now))
        (asked ask.now secret.now moment)) }
{
    ask_is_sound(ask);
    given_is_sound(secret, moment);
    made(Draft::of(alloc, ask, &[], secret, moment))
}

/// The text of a request up to its answer, with its body in a file.
fn draft_in<D: Disk, S: Shelf>(
    alloc: Global,
    store: &Store<D, S>,
    ask: &Ask,
    body: &Body,
    file: BodyFile,
    secret: &[u8; 12],
    moment: u64,
) -> Result<Draft, KeepFault>
    requires is { Some body.now ≡ body_in ask.now }
    requires len { file.len ≡ length body.now }
    requires safe { IsSafe S.Shelf.held S.Shelf.may_leave (shelf_of store.now) file.number body.now }
    ensures { IfOk result
        (IsDrafted (IsSafe S.Shelf.held S.Shelf.may_leave (shelf_of store.now))
        (asked ask.now secret.now moment)) }
{
    file_is_sound(file);
    if !Draft::fits(ask, &[file]) {
        return Err(KeepFault::NoChange);
    }
    ask_is_sound(ask);
    given_is_sound(secret, moment);
    made(Draft::of(alloc, ask, &[file], secret, moment))
}

/// The entry of a request up to its answer. A body of more than 64 KiB is put on the disk, in a file of its own. At an
/// error there is no such file.
///
/// `NoChange` comes for a request that no entry stands for.
pub(crate) fn draft_of<D: Disk, S: Shelf>(
    alloc: Global,
    store: &mut Store<D, S>,
    ask: &Ask,
    secret: &[u8; 12],
    moment: u64,
) -> Result<Drafted<D, S>, KeepFault>
    ensures drafted { IfOk result
        (λ made. IsDrafted (IsSafe S.Shelf.held S.Shelf.may_leave (shelf_of store.new))
        (asked ask.now secret.now moment) made.draft) }
    ensures before { IfOk result (λ made. made.before.value ≡ store.old) }
    ensures aside { IfOk result (λ made. IfSome made.file
        (λ file. Aside store.old store.new file.number)) }
    ensures journal { journal_of store.new ≡ journal_of store.old }
    ensures goes { Goes store.old store.new }
{
    let before = Snapshot::of(store);
    if Draft::fits(ask, &[]) {
        return match draft_here(alloc, store, ask, secret, moment) {
            Ok(draft) => Ok(Drafted {
                draft,
                file: None,
                before,
            }),
            Err(fault) => Err(fault),
        };
    }
    let Some(body) = body_of(ask) else {
        return Err(KeepFault::NoChange);
    };
    let file = match store.put_body(body) {
        Ok(file) => file,
        Err(fault) => return Err(KeepFault::Store(fault)),
    };
    match draft_in(alloc, store, ask, body, file, secret, moment) {
        Ok(draft) => Ok(Drafted {
            draft,
            file: Some(file),
            before,
        }),
        Err(fault) => {
            // What stays is removed by the next start.
            let _ = store.remove_body(file.number);
            Err(fault)
        }
    }
}

/// Puts the entry of a request that changed something into a batch, with its answer. `NoChange` comes for an answer
/// that no entry stands for, since nothing changed. After an error the batch may have the entry or not.
pub(crate) fn put_entry<D: Disk, S: Shelf>(
    store: &Store<D, S>,
    batch: &mut Batch,
    draft: Draft,
    answer: &Answer,
) -> Result<(), KeepFault>
    // Whatever a batch holds, it holds with this exchange behind it.
    ensures { OnOk result ((request : Asked) (xs : List Exchange)
        → IsDrafted (IsSafe S.Shelf.held S.Shelf.may_leave (shelf_of store.now)) request draft
        → Holds (IsSafe S.Shelf.held S.Shelf.may_leave (shelf_of store.now)) [] 0 xs 0
        (batch_records batch.old)
        → Holds (IsSafe S.Shelf.held S.Shelf.may_leave (shelf_of store.now)) [] 0
        (xs ++ answered_so request answer.now ∷ []) 0 (batch_records batch.new)) }
{
    answer_is_sound(answer);
    let Some(text) = draft.finish(answer) else {
        return Err(KeepFault::NoChange);
    };
    if batch.add(&text).is_err() {
        return Err(KeepFault::NoMemory);
    }
    Ok(())
}
