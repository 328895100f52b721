//! Asks, written as requests.
ghost use Rattle.std.specs.Prelude.{◌≡◌, ◌==◌, ◌++◌, [], List, ℕ, length, IsTrue, IfSome, IfNone, OnOk, Some, codes};
ghost use Rattle.std.specs.Prelude.{flat_map};
ghost use Rattle.http_wire.specs.Writing.{Wrote};
ghost use Rattle.http_wire.specs.Inner.Gathering.{Puts};
ghost use Rattle.upload_client.specs.AskText.{CanBeWritten, IsAbsentOrGiven, ask_of_chunk, ask_text, ask_body_fields};
ghost use Rattle.upload_client.specs.AskText.{bare_message};
ghost use Rattle.upload_client.specs.AskText.{digest_or_nothing, digest_query, host_text, is_host, look_method};
ghost use Rattle.upload_client.specs.AskText.{message_of, query_text, content_range_fields, request_line, section_text};
ghost use Rattle.http_wire.specs.HeadText.{print_field};
ghost use Rattle.upload_names.specs.Reference.{reference_text};
ghost use Rattle.upload_texts.specs.Paths.{upload_path};

use crate::transport::LentChunk;
use http_wire::{ByteSink, Gather, WriteFault};
use upload_bytes::Body;
use upload_names::{BlobDigest, RepoName, UploadRef};
use upload_service::{Ask, Extent};
use upload_texts::put_parts;

/// Writes an ask as a request to the host, and flushes it. The head leaves in one write if it has at most 1,024 bytes,
/// with the body if that fits too, and a larger body from its own memory. `WriteFault` comes only if a write or the
/// flush failed; what was written then is a prefix of the request. It takes no memory.
///
/// The ask isn't `Refused`, its range isn't `Bad`, and the host has at least one byte, all of them
/// visible ASCII.
pub fn write_ask<W: ByteSink>(writer: &mut W, ask: &Ask, host: &[u8]) -> Result<(), WriteFault>
    requires writable { CanBeWritten ask.now }
    requires host { IsTrue (is_host host.now) }
    ensures wrote { Wrote (W.state writer.old) (W.state writer.new)
        (ask_text ask.now host.now) result }
    ensures flushed { OnOk result (IsTrue ((W.state writer.new).flushed)) }
{
    let mut head = Gather::new();
    put_request_line(&mut head, writer, ask);
    put_host(&mut head, writer, host);
    put_section(&mut head, writer, ask);
    put_body(&mut head, writer, ask);
    head.finish(writer, b"")
}

/// Writes the ask of a chunk as `write_ask` does, from the bytes that are lent.
pub(crate) fn write_chunk<W: ByteSink>(
    writer: &mut W,
    chunk: &LentChunk<'_>,
    host: &[u8],
) -> Result<(), WriteFault>
    requires writable { CanBeWritten (ask_of_chunk chunk.now) }
    requires host { IsTrue (is_host host.now) }
    ensures wrote { Wrote (W.state writer.old)
        (W.state writer.new) (ask_text (ask_of_chunk chunk.now) host.now) result }
    ensures flushed { OnOk result (IsTrue ((W.state writer.new).flushed)) }
{
    let mut head = Gather::new();
    let upload = Upload {
        name: chunk.name,
        at: chunk.at,
    };
    put_upload(&mut head, writer, b"PATCH", upload);
    put_host(&mut head, writer, host);
    put_upload_section(&mut head, writer, &chunk.range, chunk.body.len());
    head.finish(writer, chunk.body)
}

/// The body of an ask, if it has one.
fn body_of(ask: &Ask) -> Option<&Body>
    ensures some { IfSome result (λ body. body.now ≡ (message_of ask.now).body) }
    ensures none { IfNone result ((message_of ask.now).body ≡ []) }
{
    match ask {
        Ask::Single { body, .. } => Some(body),
        Ask::Chunk { body, .. } => Some(body),
        Ask::Close { body, .. } => Some(body),
        _ => None,
    }
}

/// Whether no bytes follow the head.
pub(crate) fn is_bodiless(ask: &Ask) -> bool
    ensures { result ≡ (length (message_of ask.now).body == 0) }
{
    match body_of(ask) {
        Some(body) => body.len() == 0,
        None => true,
    }
}

/// Puts the bytes that follow the head.
fn put_body<W: ByteSink>(head: &mut Gather, writer: &mut W, ask: &Ask)
    ensures { Puts (W.state writer.old) head.old (W.state writer.new) head.new
        (message_of ask.now).body }
{
    if let Some(body) = body_of(ask) {
        let pieces = body.pieces();
        put_parts(head, writer, pieces.parts.as_slice());
        head.put(writer, pieces.last.as_slice());
    }
}

/// A target in a repository: `/v2/`, its name, and these two behind it.
#[derive(Clone, Copy)]
struct Target<'a> {
    name: &'a RepoName,
    kind: &'a [u8],
    behind: &'a [u8],
}

/// Puts the method and the target.
fn put_request_line<W: ByteSink>(head: &mut Gather, writer: &mut W, ask: &Ask)
    requires { CanBeWritten ask.now }
    ensures { Puts (W.state writer.old) head.old (W.state writer.new) head.new
        (request_line (message_of ask.now)) }
{
    match ask {
        Ask::Base => head.put(writer, b"GET /v2/"),
        Ask::Has {
            name,
            digest,
            head: look,
        } => {
            let text = digest.text();
            let blob = Target {
                name,
                kind: b"/blobs/",
                behind: text.as_bytes(),
            };
            put_target(head, writer, look_method(*look), blob)
        }
        Ask::Opening { name } => {
            let uploads = Target {
                name,
                kind: b"/blobs/uploads/",
                behind: b"",
            };
            put_target(head, writer, b"POST", uploads)
        }
        Ask::Single { name, digest, .. } => put_single(head, writer, name, digest),
        Ask::Mount {
            name,
            digest,
            source,
        } => {
            let uploads = Target {
                name,
                kind: b"/blobs/uploads/",
                behind: b"?mount=",
            };
            put_target(head, writer, b"POST", uploads);
            put_mounted(head, writer, digest, source)
        }
        Ask::Chunk { name, at, .. } => {
            put_upload(head, writer, b"PATCH", Upload { name, at: *at })
        }
        Ask::Status { name, at } => put_upload(head, writer, b"GET", Upload { name, at: *at }),
        Ask::Close {
            name,
            at,
            digest,
            ..
        } => {
            put_upload(head, writer, b"PUT", Upload { name, at: *at });
            put_query(head, writer, digest)
        }
        Ask::Refused(_) => unreachable!(),
    }
}

/// The method that looks for a blob.
fn look_method(head: bool) -> &'static [u8]
    ensures { result.now ≡ look_method head }
{
    if head { b"HEAD" } else { b"GET" }
}

/// Puts a method and a target.
fn put_target<W: ByteSink>(head: &mut Gather, writer: &mut W, method: &[u8], target: Target<'_>)
    ensures { Puts (W.state writer.old) head.old (W.state writer.new) head.new
        (method.now ++ (codes " /v2/"
        ++ (target.entry.name.now ++ (target.entry.kind.now ++ target.entry.behind.now)))) }
{
    head.put(writer, method);
    head.put(writer, b" /v2/");
    head.put(writer, target.name.as_str().as_bytes());
    head.put(writer, target.kind);
    head.put(writer, target.behind);
}

/// An upload of a repository.
#[derive(Clone, Copy)]
struct Upload<'a> {
    name: &'a RepoName,
    at: UploadRef,
}

/// Puts a method and the path of an upload.
fn put_upload<W: ByteSink>(head: &mut Gather, writer: &mut W, method: &[u8], upload: Upload<'_>)
    ensures { Puts (W.state writer.old) head.old (W.state writer.new) head.new (request_line
        (bare_message method.now
        (upload_path upload.entry.name.now (reference_text upload.entry.at)))) }
{
    let Upload { name, at } = upload;
    let text = at.text();
    let target = Target {
        name,
        kind: b"/blobs/uploads/",
        behind: &text,
    };
    put_target(head, writer, method, target)
}

/// Puts the line of a single POST.
fn put_single<W: ByteSink>(
    head: &mut Gather,
    writer: &mut W,
    name: &RepoName,
    digest: &Option<BlobDigest>,
)
    ensures { Puts (W.state writer.old) head.old
        (W.state writer.new) head.new
        (codes "POST" ++ (codes " /v2/" ++ (name.now
        ++ (codes "/blobs/uploads/" ++ (codes "?digest=" ++ digest_or_nothing digest.now))))) }
{
    let uploads = Target {
        name,
        kind: b"/blobs/uploads/",
        behind: b"?digest=",
    };
    put_target(head, writer, b"POST", uploads);
    if let Some(digest) = digest {
        head.put(writer, digest.text().as_bytes());
    }
}

/// Puts the digest and the source of a mount.
fn put_mounted<W: ByteSink>(
    head: &mut Gather,
    writer: &mut W,
    digest: &BlobDigest,
    source: &RepoName,
)
    ensures { Puts (W.state writer.old) head.old
        (W.state writer.new) head.new
        (digest_or_nothing (Some digest.now) ++ (codes "&from=" ++ source.now)) }
{
    head.put(writer, digest.text().as_bytes());
    head.put(writer, b"&from=");
    head.put(writer, source.as_str().as_bytes());
}

/// Puts the query of a close, if it has a digest.
fn put_query<W: ByteSink>(head: &mut Gather, writer: &mut W, digest: &Option<BlobDigest>)
    ensures { Puts (W.state writer.old) head.old
        (W.state writer.new) head.new (query_text (digest_query digest.now)) }
{
    match digest {
        Some(digest) => {
            head.put(writer, b"?digest=");
            head.put(writer, digest.text().as_bytes())
        }
        None => {}
    }
}

/// Puts the version and the host.
fn put_host<W: ByteSink>(head: &mut Gather, writer: &mut W, host: &[u8])
    ensures { Puts (W.state writer.old) head.old (W.state writer.new) head.new
        (host_text host.now) }
{
    head.put(writer, b" HTTP/1.1\r\nHost: ");
    head.put(writer, host);
    head.put(writer, b"\r\n");
}

/// Puts the fields behind the host, and the empty line.
fn put_section<W: ByteSink>(head: &mut Gather, writer: &mut W, ask: &Ask)
    requires { CanBeWritten ask.now }
    ensures { Puts (W.state writer.old) head.old
        (W.state writer.new) head.new (section_text (message_of ask.now).fields) }
{
    match ask {
        Ask::Base | Ask::Has { .. } | Ask::Status { .. } => head.put(writer, b"\r\n"),
        Ask::Opening { .. } | Ask::Mount { .. } => {
            head.put(writer, b"Content-Length: 0\r\n\r\n")
        }
        Ask::Single { body, .. } => put_body_fields(head, writer, body.len()),
        Ask::Chunk { range, body, .. } => { put_upload_section(head, writer, range, body.len()) }
        Ask::Close { range, body, .. } => { put_upload_section(head, writer, range, body.len()) }
        Ask::Refused(_) => unreachable!(),
    }
}

/// Puts the fields of a range and of a body of so many bytes, and the empty line.
fn put_upload_section<W: ByteSink>(head: &mut Gather, writer: &mut W, range: &Extent, len: usize)
    requires { IsAbsentOrGiven range.now }
    ensures { (body : List ℕ) → len ≡ length body → Puts (W.state writer.old) head.old
        (W.state writer.new) head.new
        (section_text (content_range_fields range.now ++ ask_body_fields body)) }
{
    put_range_field(head, writer, range);
    put_body_fields(head, writer, len)
}

/// Puts the field of a range, if one is given.
fn put_range_field<W: ByteSink>(head: &mut Gather, writer: &mut W, range: &Extent)
    requires { IsAbsentOrGiven range.now }
    ensures { Puts (W.state writer.old) head.old
        (W.state writer.new) head.new (flat_map print_field (content_range_fields range.now)) }
{
    match range {
        Extent::Given(range) => {
            head.put(writer, b"Content-Range: ");
            head.put_number(writer, range.first);
            head.put(writer, b"-");
            head.put_number(writer, range.last);
            head.put(writer, b"\r\n")
        }
        Extent::Absent => {}
        Extent::Bad => unreachable!(),
    }
}

/// Puts the fields of a body of so many bytes, and the empty line.
fn put_body_fields<W: ByteSink>(head: &mut Gather, writer: &mut W, len: usize)
    ensures { (body : List ℕ) → len ≡ length body
        → Puts (W.state writer.old) head.old (W.state writer.new) head.new
        (section_text (ask_body_fields body)) }
{
    head.put(
        writer,
        b"Content-Type: application/octet-stream\r\nContent-Length: ",
    );
    head.put_number(writer, len as u64);
    head.put(writer, b"\r\n\r\n");
}
