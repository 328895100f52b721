//! A look before a push: whether the repository has the blob already.
ghost use Rattle.std.specs.Prelude.{◌≡◌, IfOk, OnErr, Option, true};
ghost use Rattle.upload_service.specs.declared.ask.Ask.{Ask};
ghost use Rattle.upload_client.specs.declared.heard.Heard.{Heard};
ghost use Rattle.upload_push.specs.Looking.{is_found};

use std::alloc::{AllocError, Global};
use upload_client::{Heard, Transport};
use upload_names::{BlobDigest, RepoName};
use upload_service::Ask;

/// Whether a look for a blob was answered 200.
fn is_found(first: &Option<Heard>) -> bool
    ensures { result ≡ is_found first.now }
{
    match first {
        Some(reply) => reply.status == 200,
        None => false,
    }
}

/// Asks once, by a HEAD, whether the repository has a blob. `true` comes only with a 200; if anything else was heard,
/// or nothing, it isn't known to be there. An error means that there was no memory for a copy of the name; nothing was
/// asked.
pub fn has_blob<T: Transport>(
    alloc: Global,
    transport: &mut T,
    name: &RepoName,
    digest: BlobDigest,
) -> Result<bool, AllocError>
    ensures asked { IfOk result (λ found. (first : Option Heard)
        × T.asked transport.old (Ask.Has name.now digest true) first transport.new
        × (found ≡ is_found first)) }
    ensures unasked { OnErr result (transport.new ≡ transport.old) }
{
    let name = name.copy(alloc)?;
    let head = true;
    let first = transport.ask(Ask::Has { name, digest, head });
    Ok(is_found(&first))
}
