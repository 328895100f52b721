//! Replies (RFC 9112, section 4; OCI Distribution Specification 1.1, sections "Push" and "Error Codes").
ghost use Rattle.std.specs.Prelude.{◌≡◌, IsTrue, OnOk, codes, flat_map};
ghost use Rattle.http_wire.specs.Writing.{Wrote};
ghost use Rattle.http_wire.specs.Inner.Gathering.{Puts};
ghost use Rattle.http_wire.specs.HeadText.{status_number, print_field};
ghost use Rattle.upload_wire.specs.ReplySize.{body_size};
ghost use Rattle.upload_wire.specs.ReplyText.{reply, reply_of, allow_fields, blob_location, error_fields, range_fields};
ghost use Rattle.upload_wire.specs.ReplyText.{reply_head, upload_fields, upload_location, methods};

use crate::request::Style;
use http_wire::{ByteSink, Gather, Status, WriteFault};
use upload_names::{BlobDigest, RepoName, UploadRef};
use upload_service::{Answer, Form, Refusal};
use upload_texts::{ErrorCode, put_stretches, refusal_code, refusal_status};

/// The methods that a form of path takes.
fn methods(form: Form) -> &'static str
    ensures { result.now ≡ methods form }
{
    match form {
        Form::Base | Form::Blob => "GET, HEAD",
        Form::Uploads => "POST",
        Form::Upload => "GET, HEAD, PATCH, PUT",
    }
}

/// Adds the place of an upload.
fn put_upload_location<W: ByteSink>(
    head: &mut Gather,
    writer: &mut W,
    name: &RepoName,
    at: UploadRef,
)
    ensures { Puts (W.state writer.old) head.old
        (W.state writer.new) head.new
        (print_field (codes "Location", upload_location name.now at)) }
{
    head.put(writer, b"Location: /v2/");
    head.put(writer, name.as_str().as_bytes());
    head.put(writer, b"/blobs/uploads/");
    head.put(writer, &at.text());
    head.put(writer, b"\r\n");
}

/// Adds the place of a blob.
fn put_blob_location<W: ByteSink>(
    head: &mut Gather,
    writer: &mut W,
    name: &RepoName,
    digest: BlobDigest,
)
    ensures { Puts (W.state writer.old) head.old
        (W.state writer.new) head.new
        (print_field (codes "Location", blob_location name.now digest)) }
{
    head.put(writer, b"Location: /v2/");
    head.put(writer, name.as_str().as_bytes());
    head.put(writer, b"/blobs/");
    head.put(writer, digest.text().as_bytes());
    head.put(writer, b"\r\n");
}

/// Adds how many bytes an upload has, if it has some.
fn put_range<W: ByteSink>(head: &mut Gather, writer: &mut W, next: u64)
    ensures { Puts (W.state writer.old) head.old
        (W.state writer.new) head.new (flat_map print_field (range_fields next)) }
{
    if next == 0 {
        return;
    }
    head.put(writer, b"Range: 0-");
    head.put_number(writer, next - 1);
    head.put(writer, b"\r\n");
}

/// How far an upload has come: where it is, and how many bytes it has.
#[derive(Clone, Copy)]
struct Progress<'a> {
    name: &'a RepoName,
    at: UploadRef,
    next: u64,
}

/// Adds the place of an upload and how many bytes it has.
fn put_upload<W: ByteSink>(head: &mut Gather, writer: &mut W, progress: Progress<'_>)
    ensures { Puts (W.state writer.old) head.old
        (W.state writer.new) head.new (flat_map print_field
        (upload_fields progress.entry.name.now progress.entry.at progress.entry.next)) }
{
    put_upload_location(head, writer, progress.name, progress.at);
    put_range(head, writer, progress.next);
}

/// Adds the kind and the length of the body that names an error.
fn put_error<W: ByteSink>(head: &mut Gather, writer: &mut W, code: ErrorCode)
    ensures { Puts (W.state writer.old) head.old
        (W.state writer.new) head.new (flat_map print_field (error_fields code)) }
{
    head.put_field(writer, b"Content-Type", b"application/json");
    head.put_length(writer, code.body().len() as u64);
}

/// Adds the methods of the form, if a method was refused.
fn put_allow<W: ByteSink>(head: &mut Gather, writer: &mut W, refusal: Refusal)
    ensures { Puts (W.state writer.old) head.old
        (W.state writer.new) head.new (flat_map print_field (allow_fields refusal)) }
{
    if let Refusal::Method(form) = refusal {
        head.put_field(writer, b"Allow", methods(form).as_bytes());
    }
}

/// The status of a reply.
fn status_of(answer: &Answer) -> Status
    ensures { result ≡ (reply_of answer.now).status }
{
    match answer {
        Answer::Base | Answer::Blob { .. } => Status::Ok,
        Answer::Stored { .. } => Status::Created,
        Answer::Begun { .. } | Answer::Taken { .. } => Status::Accepted,
        Answer::Standing { .. } => Status::NoContent,
        Answer::Misplaced { .. } => Status::RangeNotSatisfiable,
        Answer::Refused(refusal) => refusal_status(*refusal),
        Answer::NoMemory => Status::ServiceUnavailable,
    }
}

/// Adds the fields of a reply, but for the one that closes the connection.
fn put_fields<W: ByteSink>(head: &mut Gather, writer: &mut W, answer: &Answer)
    ensures { Puts (W.state writer.old) head.old
        (W.state writer.new) head.new (flat_map print_field (reply_of answer.now).fields) }
{
    match answer {
        Answer::Base | Answer::NoMemory => head.put_length(writer, 0),
        Answer::Blob { digest, size, .. } => {
            head.put_field(writer, b"Docker-Content-Digest", digest.text().as_bytes());
            head.put_field(writer, b"Content-Type", b"application/octet-stream");
            head.put_length(writer, *size);
        }
        Answer::Begun { name, at } => {
            put_upload_location(head, writer, name, *at);
            head.put_length(writer, 0);
        }
        Answer::Stored { name, digest } => {
            put_blob_location(head, writer, name, *digest);
            head.put_length(writer, 0);
        }
        Answer::Taken { name, at, next } => {
            let progress = Progress {
                name,
                at: *at,
                next: *next,
            };
            put_upload(head, writer, progress);
            head.put_length(writer, 0);
        }
        Answer::Standing { name, at, next } => {
            let progress = Progress {
                name,
                at: *at,
                next: *next,
            };
            put_upload(head, writer, progress);
        }
        Answer::Misplaced { name, at, next } => {
            let progress = Progress {
                name,
                at: *at,
                next: *next,
            };
            put_upload(head, writer, progress);
            put_error(head, writer, ErrorCode::BlobUploadInvalid);
        }
        Answer::Refused(refusal) => {
            put_allow(head, writer, *refusal);
            put_error(head, writer, refusal_code(*refusal));
        }
    }
}

/// Puts the reply to an answer, up to its body.
fn put_reply_head<W: ByteSink>(head: &mut Gather, writer: &mut W, answer: &Answer, keep: bool)
    ensures { Puts (W.state writer.old) head.old (W.state writer.new) head.new
        (reply_head answer.now keep) }
{
    head.put(writer, status_of(answer).line().as_bytes());
    put_fields(head, writer, answer);
    head.put_end(writer, keep);
}

/// Writes the reply to an answer, and flushes it: its head in one write, with its body if that is short,
/// and a longer body out of its own memory. It takes no memory. `Ok` comes only if all of it was written and
/// handed on, and no call of the writer failed; else a prefix of it was written.
pub fn write_reply<W: ByteSink>(
    writer: &mut W,
    answer: &Answer,
    style: Style,
) -> Result<(), WriteFault>
    ensures wrote { Wrote (W.state writer.old) (W.state writer.new)
        (reply answer.now style) result }
    ensures flushed { OnOk result (IsTrue ((W.state writer.new).flushed)) }
{
    let mut head = Gather::new();
    put_reply_head(&mut head, writer, answer, style.keep);
    if style.head {
        return head.finish(writer, b"");
    }
    put_body(&mut head, writer, answer);
    head.finish(writer, b"")
}

/// Puts the body of a reply behind its head. What fits leaves in the same write.
fn put_body<W: ByteSink>(head: &mut Gather, writer: &mut W, answer: &Answer)
    ensures { Puts (W.state writer.old) head.old (W.state writer.new) head.new
        (reply_of answer.now).body }
{
    match answer {
        Answer::Blob {
            bytes: Some(bytes),
            ..
        } => put_stretches(head, writer, bytes.stretches()),
        Answer::Misplaced { .. } => {
            head.put(writer, ErrorCode::BlobUploadInvalid.body().as_bytes())
        }
        Answer::Refused(refusal) => { head.put(writer, refusal_code(*refusal).body().as_bytes()) }
        _ => {}
    }
}

/// The status of the reply to an answer.
pub fn reply_status(answer: &Answer) -> u16
    ensures { result ≡ status_number (reply_of answer.now).status }
{
    status_of(answer).number()
}

/// How many bytes of body the reply to an answer has, if it isn't one to a HEAD.
pub fn body_size(answer: &Answer) -> u64
    ensures { result ≡ body_size answer.now }
{
    match answer {
        Answer::Blob {
            size,
            bytes: Some(_),
            ..
        } => *size,
        Answer::Misplaced { .. } => ErrorCode::BlobUploadInvalid.body().len() as u64,
        Answer::Refused(refusal) => refusal_code(*refusal).body().len() as u64,
        _ => 0,
    }
}
