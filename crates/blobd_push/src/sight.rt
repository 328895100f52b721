//! A HEAD of a blob, in whose reply the blob is looked for by its length and its digest.
ghost use Rattle.std.specs.Prelude.{◌≡◌, ◌++◌, ◌⊎◌, ℕ, List, [], IsTrue, option_map};
ghost use Rattle.http_wire.specs.Inner.HeadReading.{fields_of};
ghost use Rattle.http_wire.specs.Inner.HeadSpans.{response_spans};
ghost use Rattle.upload_client.specs.AskText.{CanBeWritten, ask_text, is_host};
ghost use Rattle.blobd_push.specs.Sights.{SeesIn, is_blob, is_no_other, is_text, shows_blob};

use http_wire::{
    ByteSink, ByteSource, HeadRead, Input, ParsedResponse, ReadBuffer, Responses, first_among,
    read_head,
};
use upload_client::write_ask;
use upload_service::Ask;

/// What the reply to a HEAD of a blob shows.
#[derive(Clone, Copy, Debug, PartialEq, Eq)]
pub(crate) enum Sight {
    /// The blob: the status is 200, the Content-Length is its length, and no other digest is told.
    Blob,
    /// Something else.
    Other,
    /// No reply came.
    Nothing,
}

impl Sight {
    /// Whether it is the blob.
    pub(crate) fn is_blob(self) -> bool
        ensures { result ≡ is_blob self }
    {
        match self {
            Sight::Blob => true,
            Sight::Other | Sight::Nothing => false,
        }
    }
}

/// The texts by which a blob is known.
#[derive(Clone, Copy)]
pub(crate) struct Marks<'a> {
    /// Its length in bytes.
    pub(crate) size: &'a [u8],
    pub(crate) digest: &'a [u8],
}

/// Whether there is a value, and it is this text.
fn is_text(text: &[u8], value: Option<&[u8]>) -> bool
    ensures { result ≡ is_text text.now (option_map (λ v. v.now) value.entry) }
{
    match value {
        Some(value) => value == text,
        None => false,
    }
}

/// Whether there is no value that is another text.
fn is_no_other(text: &[u8], value: Option<&[u8]>) -> bool
    ensures { result ≡ is_no_other text.now (option_map (λ v. v.now) value.entry) }
{
    match value {
        Some(value) => value == text,
        None => true,
    }
}

/// Whether a head shows the blob.
fn shows_blob(head: &[u8], parsed: &ParsedResponse, marks: Marks<'_>) -> bool
    requires { response_spans.IsHeadOf head.now parsed.now }
    ensures { result ≡ shows_blob marks.entry.size.now marks.entry.digest.now parsed.now.spans.code
        (fields_of response_spans head.now parsed.now) }
{
    let headers = &parsed.headers[..parsed.spans.headers];
    let size = first_among(head, headers, b"content-length");
    let digest = first_among(head, headers, b"docker-content-digest");
    parsed.spans.code == 200 && is_text(marks.size, size) && is_no_other(marks.digest, digest)
}

/// Writes a HEAD of a blob over a connection over which nothing was read, and looks for the blob in the reply.
pub(crate) fn look_over<S: ByteSource, W: ByteSink>(
    buffer: &mut ReadBuffer,
    source: &mut S,
    sink: &mut W,
    host: &[u8],
    ask: &Ask,
    marks: Marks<'_>,
) -> Sight
    requires writable { CanBeWritten ask.now }
    requires host { IsTrue (is_host host.now) }
    requires empty { buffer.old ≡ [] }
    ensures asked { (result ≡ Sight.Nothing)
        ⊎ ((W.state sink.new).taken ≡ (W.state sink.old).taken ++ ask_text ask.now host.now) }
    ensures seen { (text : List ℕ)
        × ((S.state source.new).given ≡ (S.state source.old).given ++ text)
        × SeesIn marks.entry.size.now marks.entry.digest.now result text }
{
    if write_ask(sink, ask, host).is_err() {
        return Sight::Nothing;
    }
    let mut input = Input::new(source, buffer);
    match read_head::<Responses, S>(&mut input) {
        Ok(HeadRead::Head(parsed)) => {
            let head = &input.unread()[..parsed.spans.len];
            if shows_blob(head, &parsed, marks) {
                Sight::Blob
            } else {
                Sight::Other
            }
        }
        Ok(HeadRead::Refused | HeadRead::TooLong) => Sight::Other,
        Ok(HeadRead::Over) | Err(_) => Sight::Nothing,
    }
}
