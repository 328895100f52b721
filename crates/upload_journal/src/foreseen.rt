//! Whether a request can come to an answer, before it is served.
ghost use Rattle.std.specs.Prelude.{◌≡◌, ◌↔◌, IsTrue, Some};
ghost use Rattle.upload_journal.specs.Foreseen.{change_of, next_told};
ghost use Rattle.upload_journal.specs.declared.entries.KeptAnswer.TheVariants as KeptAnswer;

use crate::entries::KeptAnswer;
use upload_names::{BlobDigest, UploadRef};
use upload_service::{Ask, Service};

/// Whether a request that changes something is answered so, in short. Nothing is hashed, and it takes no memory.
pub fn may_come(service: &Service, ask: &Ask, secret: &[u8; 12], told: &KeptAnswer) -> bool
    ensures { IsTrue result ↔ (change_of service.now ask.now secret.now ≡ Some told.now) }
{
    match told {
        KeptAnswer::Begun(at) => may_begin(service, ask, secret, at),
        KeptAnswer::Taken(next) => may_take(service, ask, secret, *next),
        KeptAnswer::Stored(digest) => may_store(service, ask, secret, digest),
    }
}

/// Whether the next session gets this reference.
fn is_next(service: &Service, secret: &[u8; 12], at: &UploadRef) -> bool
    ensures { IsTrue result ↔ (next_told service.now.issued secret.now ≡ Some (KeptAnswer.Begun at.now)) }
{
    match service.issued().checked_add(1) {
        Some(number) => UploadRef::make(number, *secret).same(at),
        None => false,
    }
}

/// Whether a request may begin the session of this reference.
fn may_begin(service: &Service, ask: &Ask, secret: &[u8; 12], at: &UploadRef) -> bool
    ensures { IsTrue result
        ↔ (change_of service.now ask.now secret.now ≡ Some (KeptAnswer.Begun at.now)) }
{
    match ask {
        Ask::Opening { .. } => is_next(service, secret, at),
        Ask::Mount { digest, source, .. } => {
            !service.holds(source, digest) && is_next(service, secret, at)
        }
        _ => false,
    }
}

/// Whether a request may bring its session to this many bytes.
fn may_take(service: &Service, ask: &Ask, secret: &[u8; 12], next: u64) -> bool
    ensures { IsTrue result ↔ (change_of service.now ask.now secret.now ≡ Some (KeptAnswer.Taken next)) }
{
    match ask {
        Ask::Chunk { at, body, .. } => match service.next_of(at) {
            Some(received) => next.checked_sub(received) == Some(body.len() as u64),
            None => false,
        },
        _ => false,
    }
}

/// Whether a request may leave the blob of this digest.
fn may_store(service: &Service, ask: &Ask, secret: &[u8; 12], digest: &BlobDigest) -> bool
    ensures { IsTrue result
        ↔ (change_of service.now ask.now secret.now ≡ Some (KeptAnswer.Stored digest.now)) }
{
    match ask {
        Ask::Single {
            digest: Some(mine),
            ..
        } => mine.same(digest),
        Ask::Close {
            digest: Some(mine),
            ..
        } => mine.same(digest),
        Ask::Mount {
            digest: mine,
            source,
            ..
        } => service.holds(source, mine) && mine.same(digest),
        _ => false,
    }
}
