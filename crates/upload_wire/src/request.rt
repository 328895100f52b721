//! A request: what its head describes, and its body behind it, which is put into its parts as it is read.
ghost use Rattle.std.specs.Prelude.{◌≡◌, ◌+◌, ◌*◌, ◌^◌, ◌≤◌, [], Err, IfOk, codes};
ghost use Rattle.http_wire.specs.Body.{most_of};
ghost use Rattle.http_wire.specs.Inputs.{ReadsAtMost, input_of};
ghost use Rattle.http_wire.specs.Fields.{values_of};
ghost use Rattle.upload_wire.specs.Target.{extent_of};
ghost use Rattle.http_wire.specs.Inner.HeadReading.{fields_of};
ghost use Rattle.http_wire.specs.Inner.HeadSpans.{request_spans};
ghost use Rattle.upload_wire.specs.Inner.RequestReading.{Describes, FindsRequest};
ghost use Rattle.upload_wire.specs.Inner.Coming.{came_in, held_in};

use crate::asks::{HeadAsk, ask_of};
use crate::coming::Coming;
use http_wire::{
    Bad, BodyBuffer, BodyEnd, ByteSource, Framing, Input, Occurrence, ParsedRequest, WireFault,
    field_named, framing_of, keeps_connection, read_body,
};
use std::alloc::{AllocError, Global};
use upload_bytes::{BodyBuilder, HashPlace, Room};
use upload_names::{Algorithm, ByteRange, UploadRef};
use upload_service::{Ask, Extent, Request};

/// Which bodies are hashed as they come, and where, and the room that their bytes are granted of, if there is a limit.
#[derive(Drop)]
pub struct Hashing<'a, P: HashPlace> {
    pub place: &'a P,
    /// An upload that is known to have bytes: the hash of a further body alone is of no use to it.
    pub filled: Option<UploadRef>,
    pub room: &'a Option<Room>,
}

/// The body of a request, as far as it came, where it is hashed, and whether it may be let go.
#[derive(Drop)]
pub struct Incoming<'a, P: HashPlace> {
    pub body: Coming,
    pub place: &'a P,
    pub may_go: bool,
}

impl<'a, P: HashPlace> BodyBuffer for Incoming<'a, P> {
    ghost use Rattle.upload_wire.specs.Inner.Coming.{bytes_in};

    ghost bytes = { λ i. bytes_in i.body };

    fn extend(&mut self, piece: &[u8]) -> Result<(), AllocError> {
        self.body.extend(self.place, self.may_go, piece)
    }

    fn len(&self) -> usize {
        self.body.len()
    }
}

/// How a request wants its reply.
#[derive(Clone, Copy, Debug, PartialEq, Eq)]
pub struct Style {
    /// The method is HEAD: the reply has no body.
    pub head: bool,
    /// The connection goes on after the reply.
    pub keep: bool,
}

/// What comes next in the input.
#[derive(Drop)]
pub enum Next {
    /// A request, read whole.
    Request { ask: Ask, style: Style },
    /// The input ended behind the last request.
    Over,
    /// What came is no request, and is answered so: a bad head, length or chunks by 400, a long head by 431, a body
    /// that is too large by 413, a bad coding by 411. Nothing more is read.
    Bad(Bad),
}

/// What comes next in the input, if the bytes of a chunk may have been let go.
#[derive(Drop)]
pub enum Came {
    Request { request: Request, style: Style },
    Over,
    Bad(Bad),
}

/// The same if nothing of it was let go, or else out of memory.
pub fn held(came: Result<Came, WireFault>) -> Result<Next, WireFault>
    ensures { result ≡ held_in came }
{
    match came {
        Ok(Came::Request { request, style }) => match request {
            Request::Held(ask) => Ok(Next::Request { ask, style }),
            Request::Gone(_) => Err(WireFault::NoMemory),
        },
        Ok(Came::Over) => Ok(Next::Over),
        Ok(Came::Bad(bad)) => Ok(Next::Bad(bad)),
        Err(fault) => Err(fault),
    }
}

/// What a head describes: what it asks, how it wants its reply, and how its body is written.
#[derive(Drop)]
pub(crate) struct Described {
    ask: HeadAsk,
    style: Style,
    framing: Framing,
}

/// The range that a head gives.
fn range_of(head: &[u8], parsed: &ParsedRequest) -> Extent
    requires { request_spans.IsHeadOf head.now parsed.now }
    ensures { result ≡ extent_of
        (values_of (codes "content-range") (fields_of request_spans head.now parsed.now)) }
{
    match field_named(head, parsed, b"content-range") {
        Occurrence::Absent => Extent::Absent,
        Occurrence::Once(value) => match ByteRange::read(value) {
            Some(range) => Extent::Given(range),
            None => Extent::Bad,
        },
        Occurrence::Repeated => Extent::Bad,
    }
}

/// What a head describes, or what is bad in how it frames its body. The error is out of memory.
pub(crate) fn describe(
    alloc: Global,
    head: &[u8],
    parsed: &ParsedRequest,
    max_body: u64,
) -> Result<Result<Described, Bad>, WireFault>
    requires limit { max_body ≤ 2 ^ 31 }
    requires head { request_spans.IsHeadOf head.now parsed.now }
    ensures found { Describes max_body head.now parsed.now result }
    ensures kept { IfOk result
        (λ head. IfOk head (λ described. most_of described.framing ≤ max_body)) }
{
    let framing = match framing_of(head, parsed, max_body) {
        Ok(framing) => framing,
        Err(bad) => return Ok(Err(bad)),
    };
    let method = parsed.spans.method.of(head);
    let target = parsed.spans.path.of(head);
    let Ok(ask) = ask_of(alloc, method, target, range_of(head, parsed)) else {
        return Err(WireFault::NoMemory);
    };
    let style = Style {
        head: method == b"HEAD".as_slice(),
        keep: keeps_connection(head, parsed),
    };
    Ok(Ok(Described {
        ask,
        style,
        framing,
    }))
}

/// What a body is read into, granted of a room if there is one.
fn builder_in(alloc: Global, hashed: Option<Algorithm>, room: &Option<Room>) -> BodyBuilder
    ensures { result ≡ [] }
{
    let Some(room) = room else {
        return BodyBuilder::new(alloc, hashed);
    };
    match room.share() {
        Ok(room) => BodyBuilder::within(alloc, hashed, room),
        // A room has few owners, which can be counted.
        Err(_) => BodyBuilder::new(alloc, hashed),
    }
}

/// Reads the request whose head describes this, and was taken. Its body is hashed as it comes if the hashing says so. A
/// chunk that has no room is let go.
pub(crate) fn read_request<S: ByteSource, P: HashPlace>(
    alloc: Global,
    hashing: &Hashing<'_, P>,
    input: &mut Input<'_, S>,
    described: Described,
) -> Result<Came, WireFault>
    requires { most_of described.framing ≤ 2 ^ 31 }
    ensures found { FindsRequest described (input_of S.state input.old)
        (input_of S.state input.new) (came_in result) }
    ensures costs { ReadsAtMost S.state (12 + 13 * most_of described.framing)
        (result ≡ Err WireFault.Read) input.old input.new }
{
    let Described {
        ask,
        style,
        framing,
    } = described;
    let hashed = ask.hash_wanted(framing, hashing.filled);
    let mut incoming = Incoming {
        body: Coming::Held(builder_in(alloc, hashed, hashing.room)),
        place: hashing.place,
        may_go: hashing.room.is_some() && ask.may_lack_body(),
    };
    match read_body(input, &mut incoming, framing)? {
        BodyEnd::Whole => {
            let Incoming { body, place, .. } = incoming;
            match ask.with_what_came(body, place) {
                Some(request) => Ok(Came::Request { request, style }),
                None => Err(WireFault::NoMemory),
            }
        }
        BodyEnd::Refused(bad) => Ok(Came::Bad(bad)),
    }
}
