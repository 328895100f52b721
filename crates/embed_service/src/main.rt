//! A service in one's own process: a blob is stored and read back. The program prints the digest of what came back.
#![tactic(auto)]

ghost use Rattle.std.specs.Prelude.{◌≡◌, length, IfOk, OnErr};
ghost use Rattle.upload_service.specs.Run.{exchanges};
ghost use Rattle.upload_service.specs.Headline.{Headline};
ghost use Rattle.embed_service.specs.AtOnce.{at_once};

use std::alloc::{AllocError, Global};
use std::io::{self, ErrorKind};
use upload_bytes::Body;
use upload_names::{BlobDigest, RepoName};
use upload_service::{Answer, Ask, Limits, Service};

/// 1 MiB a blob and a body, 16 open uploads, an hour without a chunk.
const LIMITS: Limits = Limits {
    max_blob: 1 << 20,
    max_body: 1 << 20,
    max_open: 16,
    max_idle: 3_600,
};

/// Serves requests in order, all at the moment 0: the headline holds of them and their answers. An `Err` changes
/// nothing.
fn serve(service: &mut Service, alloc: Global, asks: Vec<Ask>) -> Result<Vec<Answer>, AllocError>
    ensures count { IfOk result (λ answers. length answers.items ≡ length asks.items) }
    ensures headline { IfOk result (λ answers.
        Headline service.old (exchanges (at_once asks.items) answers.items) service.new) }
    ensures err { OnErr result (service.new ≡ service.old) }
{
    // The secret goes into the references of uploads. A server draws it at random.
    let jobs = asks.into_iter().map(|ask| (ask, [0; 12], 0));
    service.run_all(alloc, jobs.collect(alloc)?)
}

fn main(rt: HostRuntime) -> io::Result<()> {
    let (alloc, text) = (rt.alloc(), b"hello, world\n");
    let repository = RepoName::read(alloc, b"lib/a").map_err(|_| ErrorKind::OutOfMemory)?;
    let digest = BlobDigest::of_sha256(text);
    let (name, head) = (repository.copy(alloc)?, false);
    let get = Ask::Has { name, digest, head };
    let (name, digest, body) = (
        repository,
        Some(digest),
        Body::of(alloc, text.to_vec(alloc)?),
    );
    let post = Ask::Single { name, digest, body };
    let mut service = Service::new(alloc, LIMITS);
    let answers = serve(&mut service, alloc, vec![in alloc; post, get]?)?;
    for answer in &answers {
        if let Answer::Blob {
            bytes: Some(blob),
            ..
        } = answer
        {
            let mut bytes = Vec::new(alloc);
            for stretch in blob.stretches() {
                if let Ok(stretch) = stretch.as_slice() {
                    bytes.extend_from_slice(stretch)?;
                }
            }
            println!(rt; "{}", BlobDigest::of_sha256(bytes.as_slice()))?;
        }
    }
    Ok(())
}
