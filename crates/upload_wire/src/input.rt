//! Requests, one after another.
ghost use Rattle.std.specs.Prelude.{◌≡◌, ◌+◌, ◌*◌, ◌^◌, ◌≤◌, [], Ok, Err, IfOk};
ghost use Rattle.http_wire.specs.Fronts.{max_head};
ghost use Rattle.http_wire.specs.States.{input_state};
ghost use Rattle.http_wire.specs.Reading.{Costs, Gave};
ghost use Rattle.http_wire.specs.Inputs.{ReadsAtMost, input_of};
ghost use Rattle.http_wire.specs.Inner.HeadReading.{FindsHead, IsHeadAtFront};
ghost use Rattle.http_wire.specs.Inner.HeadSpans.{request_spans};
ghost use Rattle.upload_service.specs.Machine.{AreLawful};
ghost use Rattle.upload_wire.specs.Phases.{most_reads};
ghost use Rattle.upload_wire.specs.RequestText.{ReadsNext};
ghost use Rattle.upload_wire.specs.Inner.Coming.{came_in};
ghost use Rattle.upload_wire.specs.Told.{HasLine};

use crate::observer::RequestLine;
use crate::request::{Came, Hashing, Next, describe, held, read_request};
use http_wire::{
    Bad, ByteSource, HeadRead, Input, InputFault, ParsedRequest, ReadBuffer, Requests, WireFault,
    read_head,
};
use std::alloc::{AllocError, Global};
use std::marker::Model;
use upload_bytes::{HashPlace, InPlace, Room};
use upload_names::UploadRef;
use upload_service::{Answer, Limits};

/// The requests of one connection after the other, through one buffer.
#[derive(Drop)]
pub(crate) struct RequestInput {
    alloc: Global,
    max_body: u64,
    buffer: ReadBuffer,
    /// The upload that was last answered to have bytes.
    filled: Option<UploadRef>,
    /// What the bytes of bodies are granted of, if there is a limit.
    room: Option<Room>,
}

impl Model for RequestInput {
    ghost use Rattle.std.specs.Prelude.{◌≤◌, ◌^◌};
    ghost use Rattle.upload_wire.specs.Inner.RequestInputState.{RequestInputState};

    ghost Value = { RequestInputState };

    ghost view = { λ i. record { max_body = i.max_body; held = i.buffer } };

    ghost invariant = { λ i. i.max_body ≤ 2 ^ 31 };
}

impl RequestInput {
    /// An input of requests with bodies of at most `limits.max_body` bytes, which are granted of a room if one is
    /// given. It makes its one buffer of 64 KiB, or answers that there is no memory for it.
    pub fn new(
        alloc: Global,
        limits: Limits,
        room: Option<Room>,
    ) -> Result<RequestInput, AllocError>
        requires { AreLawful limits }
        ensures { IfOk result (λ input. input ≡ record { max_body = limits.max_body; held = [] }) }
    {
        let buffer = ReadBuffer::new(alloc)?;
        Ok(RequestInput {
            alloc,
            max_body: limits.max_body,
            buffer,
            filled: None,
            room,
        })
    }

    /// Begins with another connection: what the buffer holds of the last one is forgotten.
    pub fn begin(&mut self)
        ensures { self.new ≡ record { max_body = self.old.max_body; held = [] } }
    {
        self.buffer.clear();
        self.filled = None;
    }

    /// Notes the answer to a request: a further body for an upload that has bytes isn't hashed as it comes.
    pub fn note(&mut self, answer: &Answer)
        ensures { self.new ≡ self.old }
    {
        self.filled = filled_by(answer).or(self.filled);
    }

    /// Reads what comes next, behind what the buffer holds of it. Nothing is hashed in a thread.
    pub fn next<S: ByteSource>(&mut self, source: &mut S) -> Result<Next, WireFault>
        ensures found { ReadsNext self.old.max_body (input_state self.old.held (S.state source.old))
            (input_state self.new.held (S.state source.new)) result }
        ensures costs { Costs (most_reads self.old.max_body) (result ≡ Err WireFault.Read)
            (S.state source.old) (S.state source.new) }
        ensures limit { self.new.max_body ≡ self.old.max_body }
    {
        held(self.next_came(source))
    }

    /// The same, if the bytes of a chunk may be let go.
    fn next_came<S: ByteSource>(&mut self, source: &mut S) -> Result<Came, WireFault>
        ensures found { ReadsNext self.old.max_body (input_state self.old.held (S.state source.old))
            (input_state self.new.held (S.state source.new)) (came_in result) }
        ensures costs { Costs (most_reads self.old.max_body) (result ≡ Err WireFault.Read)
            (S.state source.old) (S.state source.new) }
        ensures limit { self.new.max_body ≡ self.old.max_body }
    {
        match self.next_head(source)? {
            HeadRead::Head(parsed) => self.next_body(&InPlace, source, &parsed),
            HeadRead::Over => Ok(Came::Over),
            HeadRead::Refused => Ok(Came::Bad(Bad::Head)),
            HeadRead::TooLong => Ok(Came::Bad(Bad::LongHead)),
        }
    }

    /// Reads the head of what comes next, behind what the buffer holds of it. It isn't taken.
    pub fn next_head<S: ByteSource>(
        &mut self,
        source: &mut S,
    ) -> Result<HeadRead<ParsedRequest>, InputFault>
        ensures gave { Gave (input_state self.old.held (S.state source.old)) (S.state source.new)
            self.new.held }
        ensures found { FindsHead request_spans (input_state self.new.held (S.state source.new))
            result }
        ensures costs { Costs max_head (result ≡ Err InputFault.Read)
            (S.state source.old) (S.state source.new) }
        ensures limit { self.new.max_body ≡ self.old.max_body }
    {
        let mut input = Input::new(source, &mut self.buffer);
        read_head::<Requests, S>(&mut input)
    }

    /// The method and the target of the head that was read, and isn't taken.
    pub fn line(&self, parsed: &ParsedRequest) -> RequestLine<'_>
        requires { IsHeadAtFront request_spans self.now.held parsed.now }
        ensures { HasLine self.now.held result.method.now result.target.now }
    {
        let head = &self.buffer.as_slice()[..parsed.spans.len];
        RequestLine {
            method: parsed.spans.method.of(head),
            target: parsed.spans.path.of(head),
        }
    }

    /// Takes the head that was read, and reads the body behind it.
    pub fn next_body<S: ByteSource, P: HashPlace>(
        &mut self,
        place: &P,
        source: &mut S,
        parsed: &ParsedRequest,
    ) -> Result<Came, WireFault>
        requires { IsHeadAtFront request_spans self.old.held parsed.now }
        ensures found { ReadsNext self.old.max_body (input_state self.old.held (S.state source.old))
            (input_state self.new.held (S.state source.new)) (came_in result) }
        ensures came { ¬ (result ≡ Ok Came.Over) }
        ensures costs { Costs (12 + 13 * self.old.max_body) (result ≡ Err WireFault.Read)
            (S.state source.old) (S.state source.new) }
        ensures limit { self.new.max_body ≡ self.old.max_body }
    {
        let mut input = Input::new(source, &mut self.buffer);
        let hashing = Hashing {
            place,
            filled: self.filled,
            room: &self.room,
        };
        read_behind(self.alloc, &hashing, &mut input, parsed, self.max_body)
    }
}

/// Reads the request whose head was read and isn't taken, with a body of at most `max_body` bytes.
fn read_behind<S: ByteSource, P: HashPlace>(
    alloc: Global,
    hashing: &Hashing<'_, P>,
    input: &mut Input<'_, S>,
    parsed: &ParsedRequest,
    max_body: u64,
) -> Result<Came, WireFault>
    requires limit { max_body ≤ 2 ^ 31 }
    requires head { IsHeadAtFront request_spans input.old.buffer.now parsed.now }
    ensures found { ReadsNext max_body (input_of S.state input.old) (input_of S.state input.new)
        (came_in result) }
    ensures came { ¬ (result ≡ Ok Came.Over) }
    ensures costs { ReadsAtMost S.state (12 + 13 * max_body) (result ≡ Err WireFault.Read)
        input.old input.new }
{
    let head = &input.unread()[..parsed.spans.len];
    match describe(alloc, head, parsed, max_body)? {
        Ok(described) => {
            input.take(parsed.spans.len);
            read_request(alloc, hashing, input, described)
        }
        Err(bad) => Ok(Came::Bad(bad)),
    }
}

/// The upload that an answer says to have bytes: a hash of a further body alone would be of no use to it.
fn filled_by(answer: &Answer) -> Option<UploadRef> {
    match answer {
        Answer::Taken { at, next, .. }
        | Answer::Standing { at, next, .. }
        | Answer::Misplaced { at, next, .. }
            if *next > 0 => Some(*at),
        _ => None,
    }
}
