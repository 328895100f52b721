//! A push over any transport: a pusher's asks, with the bytes of the file.
ghost use Rattle.std.specs.Prelude.{◌≡◌, ◌≤◌, ◌^◌, IfOk, OnErr, length};
ghost use Rattle.upload_names.specs.declared.digest.Algorithm.{Algorithm};
ghost use Rattle.upload_push.specs.Steps.{IsAskWithin};
ghost use Rattle.upload_push.specs.Slices.{IsPush, push_of, push_under, request_of};

use crate::pusher::{Outcome, PushAsk, PushStep, Pusher, Why};
use std::alloc::{AllocError, Global};
use std::fmt;
use upload_bytes::Body;
use upload_client::{Heard, LentChunk, Transport};
use upload_names::{Algorithm, BlobDigest, RepoName};
use upload_service::{Ask, Extent};

/// Why a push has no outcome.
#[derive(Drop)]
pub enum PushFault {
    /// The push was given up, for this reason; what it had sent stays where it is.
    GaveUp(Why),
    /// A growth was refused; what was asked before it stays done.
    NoMemory,
}

impl fmt::Display for PushFault {
    ghost use Rattle.std.specs.Prelude.{Some};
    ghost use Rattle.upload_push.specs.FaultTexts.{push_fault_text};

    ghost output = { λ fault. Some (push_fault_text fault) };

    fn fmt<W: fmt::Write>(&self, f: &mut fmt::Formatter<W>) -> fmt::Result {
        match self {
            PushFault::GaveUp(_) => f.write_str("the push was given up"),
            PushFault::NoMemory => f.write_str("no memory for a push"),
        }
    }
}

/// Pushes a file under its sha256 digest: `push_with` of that algorithm, with its errors.
pub fn push<T: Transport>(
    alloc: Global,
    transport: &mut T,
    file: &[u8],
    name: &RepoName,
    chunk: u64,
    tries: u32,
) -> Result<Outcome, PushFault>
    requires size { length file.now ≤ 2 ^ 40 }
    requires chunk { (1 ≤ chunk) × (chunk ≤ 2 ^ 31) }
    requires tries { tries ≤ 1000 }
    ensures { IsPush T.asked (push_of Algorithm.Sha256 name.now file.now chunk tries) transport.old
        transport.new result }
{
    push_with(
        alloc,
        transport,
        file,
        name,
        chunk,
        tries,
        Algorithm::Sha256,
    )
}

/// Pushes a file under its digest by an algorithm: `push_under` that digest, with its errors.
pub fn push_with<T: Transport>(
    alloc: Global,
    transport: &mut T,
    file: &[u8],
    name: &RepoName,
    chunk: u64,
    tries: u32,
    algorithm: Algorithm,
) -> Result<Outcome, PushFault>
    requires size { length file.now ≤ 2 ^ 40 }
    requires chunk { (1 ≤ chunk) × (chunk ≤ 2 ^ 31) }
    requires tries { tries ≤ 1000 }
    ensures { IsPush T.asked (push_of algorithm name.now file.now chunk tries) transport.old
        transport.new result }
{
    let digest = BlobDigest::of(algorithm, file);
    push_under(alloc, transport, file, name, chunk, tries, digest)
}

/// Pushes a file of at most 2^40 bytes under a name and a digest, which should be the file's, in chunks of at most
/// `chunk` bytes (1 to 2^31), and answers how that ended. The transport is asked what one run of the pusher asks, and
/// nothing else. `GaveUp` comes with the reason of that run's end, `NoMemory` only if a growth was refused.
pub fn push_under<T: Transport>(
    alloc: Global,
    transport: &mut T,
    file: &[u8],
    name: &RepoName,
    chunk: u64,
    tries: u32,
    digest: BlobDigest,
) -> Result<Outcome, PushFault>
    requires size { length file.now ≤ 2 ^ 40 }
    requires chunk { (1 ≤ chunk) × (chunk ≤ 2 ^ 31) }
    requires tries { tries ≤ 1000 }
    ensures { IsPush T.asked (push_under digest name.now file.now chunk tries) transport.old
        transport.new result }
{
    let Ok(own) = name.copy(alloc) else {
        return Err(PushFault::NoMemory);
    };
    let mut pusher = Pusher::new(own, digest, file.len() as u64, chunk, tries);
    'asks: loop {
        let ask = match pusher.next() {
            PushStep::Ask(ask) => ask,
            PushStep::Done(outcome) => return Ok(outcome),
            PushStep::GaveUp(why) => {
                let Ok(why) = why.copy(alloc) else {
                    return Err(PushFault::NoMemory);
                };
                return Err(PushFault::GaveUp(why));
            }
        };
        let Ok(heard) = ask_once(alloc, transport, file, name, digest, ask) else {
            return Err(PushFault::NoMemory);
        };
        pusher.heard(heard);
    }
}

/// Asks what a pusher asks, with the name, the digest and the bytes of the file, which are lent. An error is out of
/// memory for a copy of the name, or of the bytes if the transport wants one; nothing was asked then.
fn ask_once<T: Transport>(
    alloc: Global,
    transport: &mut T,
    file: &[u8],
    name: &RepoName,
    digest: BlobDigest,
    ask: PushAsk,
) -> Result<Option<Heard>, AllocError>
    requires { IsAskWithin (length file.now) ask }
    ensures asked { IfOk result (λ heard.
        T.asked transport.old (request_of name.now digest file.now ask) heard transport.new) }
    ensures unasked { OnErr result (transport.new ≡ transport.old) }
{
    match ask {
        PushAsk::Opening => {
            let name = name.copy(alloc)?;
            Ok(transport.ask(Ask::Opening { name }))
        }
        PushAsk::Chunk { at, range } => {
            let part = &file[range.first as usize..range.last as usize + 1];
            transport.ask_chunk(&LentChunk {
                name,
                at,
                range: Extent::Given(range),
                body: part,
            })
        }
        PushAsk::Status { at } => {
            let name = name.copy(alloc)?;
            Ok(transport.ask(Ask::Status { name, at }))
        }
        PushAsk::Close { at } => {
            let name = name.copy(alloc)?;
            Ok(transport.ask(Ask::Close {
                name,
                at,
                range: Extent::Absent,
                digest: Some(digest),
                body: Body::of(alloc, Vec::new(alloc)),
            }))
        }
        PushAsk::Head => {
            let name = name.copy(alloc)?;
            Ok(transport.ask(Ask::Has {
                name,
                digest,
                head: true,
            }))
        }
    }
}
