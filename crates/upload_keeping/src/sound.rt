//! What is known of each name, digest, reference and range, as functions that do nothing.
ghost use Rattle.std.specs.Prelude.{◌≡◌, ◌<◌, ◌^◌, length, IsTrue, IfSome};
ghost use Rattle.upload_names.specs.NamePass.{is_name};
ghost use Rattle.upload_names.specs.Digest.{IsDigest};
ghost use Rattle.upload_journal.specs.Fields.{IsFile, IsReference, IsTold};
ghost use Rattle.upload_journal.specs.Short.{told_of};
ghost use Rattle.upload_keeping.specs.Exchanges.{IsExtent, IsSound};

use upload_journal::BodyFile;
use upload_names::{BlobDigest, RepoName, UploadRef, digests_are_decided, names_are_decided};
use upload_service::{Answer, Ask, Extent};

fn name_is_sound(name: &RepoName)
    ensures { IsTrue (is_name name.now) }
{
    names_are_decided();
    let _ = name.as_str();
}

fn digest_is_sound(digest: &BlobDigest)
    ensures { IsDigest digest.now }
{
    digests_are_decided();
    let _ = digest.text();
}

fn some_digest_is_sound(digest: Option<BlobDigest>)
    ensures { IfSome digest IsDigest }
{
    if let Some(digest) = digest {
        digest_is_sound(&digest);
    }
}

fn reference_is_sound(at: &UploadRef)
    ensures { IsReference at.now }
{
    let _ = at.text();
}

fn extent_is_sound(range: Extent)
    ensures { IsExtent range }
{
    if let Extent::Given(range) = range {
        let _ = range.first;
        let _ = range.last;
    }
}

/// Each request is sound.
pub(crate) fn ask_is_sound(ask: &Ask)
    ensures { IsSound ask.now }
{
    match ask {
        Ask::Opening { name } => name_is_sound(name),
        Ask::Single { name, digest, .. } => {
            name_is_sound(name);
            some_digest_is_sound(*digest);
        }
        Ask::Mount {
            name,
            digest,
            source,
        } => {
            name_is_sound(name);
            digest_is_sound(digest);
            name_is_sound(source);
        }
        Ask::Chunk {
            name,
            at,
            range,
            ..
        } => {
            name_is_sound(name);
            reference_is_sound(at);
            extent_is_sound(*range);
        }
        Ask::Close {
            name,
            at,
            range,
            digest,
            ..
        } => {
            name_is_sound(name);
            reference_is_sound(at);
            extent_is_sound(*range);
            some_digest_is_sound(*digest);
        }
        _ => {}
    }
}

/// So is what an answer tells.
pub(crate) fn answer_is_sound(answer: &Answer)
    ensures { IfSome (told_of answer.now) IsTold }
{
    match answer {
        Answer::Begun { at, .. } => reference_is_sound(at),
        Answer::Taken { next, .. } => {
            let _next = *next;
        }
        Answer::Stored { digest, .. } => digest_is_sound(digest),
        _ => {}
    }
}

/// So are the secret and the moment that come with a request.
pub(crate) fn given_is_sound(secret: &[u8; 12], moment: u64)
    ensures { (length secret.now ≡ 12) × (moment < 2 ^ 64) }
{
    let _secret = *secret;
}

/// And a file.
pub(crate) fn file_is_sound(file: BodyFile)
    ensures { IsFile file }
{}
