//! What a client hears in a reply.
ghost use Rattle.std.specs.Prelude.{◌≡◌, ◌++◌, IfOk, codes};
ghost use Rattle.std.specs.Option.{option_copied};
ghost use Rattle.upload_client.specs.Heard.{reply_heard, of_upload, bare, after_front, place_in};

use http_wire::{BodyFault, FramingFault, InputFault};
use std::alloc::{AllocError, Global};
use std::fmt;
use upload_names::{Bytes, RepoName, UploadRef};
use upload_service::Answer;
use upload_texts::{ErrorCode, refusal_code, refusal_status};

/// What a reply says to a client.
#[derive(Drop)]
pub struct Heard {
    /// The status, from 200 to 999.
    pub status: u16,
    /// The path of the Location, if there is one.
    pub place: Option<Bytes>,
    /// The last position of a Range that begins at 0, if there is one.
    pub upto: Option<u64>,
    /// The first error code of the body, if there is one.
    pub code: Option<Bytes>,
}

/// Why no reply could be read. The discriminant is its number.
#[derive(Clone, Copy, Debug, Drop, PartialEq, Eq)]
pub enum HeardFault {
    /// The input ended before the end of a reply.
    Truncated = 1,
    /// A read failed.
    Read = 2,
    /// There was no memory to read the reply.
    NoMemory = 3,
    /// The head, its framing, its Location or its Range is of no form that is read.
    Unreadable = 4,
    /// The head has over 16,384 bytes, or the body over 65,536.
    TooLarge = 5,
    /// There was a fault before, and nothing was read.
    Ended = 6,
}

impl fmt::Display for HeardFault {
    ghost use Rattle.std.specs.Prelude.{Some};
    ghost use Rattle.upload_client.specs.FaultTexts.{heard_fault_text};

    ghost output = { λ fault. Some (heard_fault_text fault) };

    fn fmt<W: fmt::Write>(&self, f: &mut fmt::Formatter<W>) -> fmt::Result {
        match self {
            HeardFault::Truncated => f.write_str("the input ended inside a reply"),
            HeardFault::Read => f.write_str("a read failed"),
            HeardFault::NoMemory => f.write_str("no memory for a reply"),
            HeardFault::Unreadable => f.write_str("a reply of no form that is read"),
            HeardFault::TooLarge => f.write_str("a reply whose head or body is too large"),
            HeardFault::Ended => f.write_str("the reading had ended"),
        }
    }
}

impl std::error::Error for HeardFault {}

impl From<InputFault> for HeardFault {
    ghost use Rattle.std.specs.Prelude.{◌≡◌};
    ghost use Rattle.upload_client.specs.Inner.AnswerReading.{heard_of_input};

    ghost from_gives = { λ fault heard. heard ≡ heard_of_input fault };

    fn from(fault: InputFault) -> HeardFault {
        match fault {
            InputFault::Truncated => HeardFault::Truncated,
            InputFault::Read => HeardFault::Read,
        }
    }
}

impl From<BodyFault> for HeardFault {
    ghost use Rattle.std.specs.Prelude.{◌≡◌};
    ghost use Rattle.upload_client.specs.Inner.AnswerReading.{heard_of_body};

    ghost from_gives = { λ fault heard. heard ≡ heard_of_body fault };

    fn from(fault: BodyFault) -> HeardFault {
        match fault {
            BodyFault::Truncated => HeardFault::Truncated,
            BodyFault::Read => HeardFault::Read,
            BodyFault::NoMemory => HeardFault::NoMemory,
        }
    }
}

/// Why nothing is heard in a reply that came whole.
#[derive(Clone, Copy, Debug, Drop, PartialEq, Eq)]
pub enum SaidFault {
    /// Its Location or its Range is of no form that is read.
    Unreadable,
    /// There was no memory for its texts.
    NoMemory,
}

impl From<FramingFault> for HeardFault {
    ghost use Rattle.std.specs.Prelude.{◌≡◌};
    ghost use Rattle.upload_client.specs.Inner.AnswerReading.{heard_of_framing};

    ghost from_gives = { λ fault heard. heard ≡ heard_of_framing fault };

    fn from(fault: FramingFault) -> HeardFault {
        match fault {
            FramingFault::Unreadable => HeardFault::Unreadable,
            FramingFault::TooLarge => HeardFault::TooLarge,
        }
    }
}

impl From<SaidFault> for HeardFault {
    ghost use Rattle.std.specs.Prelude.{◌≡◌};
    ghost use Rattle.upload_client.specs.Inner.AnswerReading.{heard_of_said};

    ghost from_gives = { λ fault heard. heard ≡ heard_of_said fault };

    fn from(fault: SaidFault) -> HeardFault {
        match fault {
            SaidFault::Unreadable => HeardFault::Unreadable,
            SaidFault::NoMemory => HeardFault::NoMemory,
        }
    }
}

/// What is heard in the reply to an answer, or out of memory for its texts.
pub fn heard_of(alloc: Global, answer: &Answer) -> Result<Heard, AllocError>
    ensures { IfOk result (λ heard. heard ≡ reply_heard answer.now) }
{
    match answer {
        Answer::Base => Ok(bare(200)),
        Answer::Blob { .. } => Ok(bare(200)),
        Answer::NoMemory => Ok(bare(503)),
        Answer::Begun { name, at } => Ok(of_upload(alloc, 202, name, at, 0)?),
        Answer::Taken { name, at, next } => Ok(of_upload(alloc, 202, name, at, *next)?),
        Answer::Standing { name, at, next } => Ok(of_upload(alloc, 204, name, at, *next)?),
        Answer::Misplaced { name, at, next } => {
            let heard = of_upload(alloc, 416, name, at, *next)?;
            let code = Vec::from_slice(alloc, ErrorCode::BlobUploadInvalid.text())?;
            Ok(Heard {
                code: Some(Bytes::of(code)),
                ..heard
            })
        }
        Answer::Stored { name, digest } => {
            let place = path_of(alloc, name, b"/blobs/", digest.text().as_bytes())?;
            Ok(Heard {
                place: Some(place),
                ..bare(201)
            })
        }
        Answer::Refused(refusal) => {
            let code = Vec::from_slice(alloc, refusal_code(*refusal).text())?;
            Ok(Heard {
                code: Some(Bytes::of(code)),
                ..bare(refusal_status(*refusal).number())
            })
        }
    }
}

/// The status alone.
fn bare(status: u16) -> Heard
    ensures { result ≡ bare status }
{
    Heard {
        status,
        place: None,
        upto: None,
        code: None,
    }
}

/// The status and the place of an upload, and how far it is.
fn of_upload(
    alloc: Global,
    status: u16,
    name: &RepoName,
    at: &UploadRef,
    next: u64,
) -> Result<Heard, AllocError>
    ensures { IfOk result (λ heard. heard ≡ of_upload status name.now at.now next) }
{
    let place = path_of(alloc, name, b"/blobs/uploads/", &at.text())?;
    Ok(Heard {
        status,
        place: Some(place),
        upto: next.checked_sub(1),
        code: None,
    })
}

/// A path of the repository.
fn path_of(alloc: Global, name: &RepoName, kind: &[u8], tail: &[u8]) -> Result<Bytes, AllocError>
    ensures { IfOk result (λ path. path ≡ codes "/v2/" ++ (name.now ++ (kind.now ++ tail.now))) }
{
    let mut path = Vec::from_slice(alloc, b"/v2/")?;
    path.extend_from_slice(name.as_str().as_bytes())?;
    path.extend_from_slice(kind)?;
    path.extend_from_slice(tail)?;
    Ok(Bytes::of(path))
}

/// The reference in a path of the form `/v2/<name>/blobs/uploads/<reference>`, if the name is this
/// one and the reference is readable; else `None`. It takes no memory.
pub fn read_place(path: &[u8], name: &RepoName) -> Option<UploadRef>
    ensures { result ≡ place_in path.now name.now }
{
    let named = behind(b"/v2/", path)?;
    let kind = behind(name.as_str().as_bytes(), named)?;
    let reference = behind(b"/blobs/uploads/", kind)?;
    UploadRef::read(reference)
}

/// What stands behind a prefix of a text.
fn behind<'t>(front: &[u8], text: &'t [u8]) -> Option<&'t [u8]>
    ensures { option_copied result ≡ after_front front.now text.now }
{
    text.strip_prefix(front)
}
