//! A reader of requests.
ghost use Rattle.std.specs.Prelude.{◌≡◌, [], Ok, Err, IfOk};
ghost use Rattle.upload_service.specs.Machine.{AreLawful};
ghost use Rattle.http_wire.specs.States.{input_state};
ghost use Rattle.http_wire.specs.Reading.{Costs};
ghost use Rattle.upload_wire.specs.RequestText.{ReadsNext};
ghost use Rattle.upload_wire.specs.Phases.{phase_after, most_reads};

use crate::input::RequestInput;
use crate::request::Next;
use http_wire::{ByteSource, WireFault};
use std::alloc::{AllocError, Global};
use std::marker::Model;
use upload_service::Limits;

/// What a reader does when it is asked again.
#[derive(Clone, Copy, Debug, PartialEq, Eq)]
pub enum Phase {
    /// It reads on.
    Ready,
    /// It answers that the input is over.
    Over,
    /// It answers that an earlier call ended the reading.
    Ended,
}

/// Requests, read from a source one after another.
#[derive(Drop)]
pub struct RequestReader<S: ByteSource> {
    input: RequestInput,
    source: S,
    phase: Phase,
}

impl<S: ByteSource> Model for RequestReader<S> {
    ghost use Rattle.http_wire.specs.States.{input_state};
    ghost use Rattle.upload_wire.specs.ReaderState.{ReaderState};

    ghost Value = { ReaderState };

    ghost view = { λ r. record {
      input = input_state r.input.held (S.state r.source);
      max_body = r.input.max_body;
      phase = r.phase;
    } };
}

impl<S: ByteSource + Drop> RequestReader<S> {
    /// A reader of the source's requests, with bodies of at most `limits.max_body` bytes. It makes its one
    /// buffer of 64 KiB, or answers that there is no memory for it.
    pub fn new(alloc: Global, source: S, limits: Limits) -> Result<RequestReader<S>, AllocError>
        requires { AreLawful limits }
        ensures { IfOk result (λ reader. reader ≡ record {
          input = input_state [] (S.state source);
          max_body = limits.max_body;
          phase = Phase.Ready;
        }) }
    {
        let input = RequestInput::new(alloc, limits, None)?;
        Ok(RequestReader {
            input,
            source,
            phase: Phase::Ready,
        })
    }
}

impl<S: ByteSource> RequestReader<S> {
    /// What comes next in the input: a request, read whole; the end of the input, which is answered again
    /// when asked again; or what is bad in it. After that or a fault it answers `Ended` and reads nothing.
    /// `Read` comes only if a read failed in this call, before a request had come whole. `Truncated` comes
    /// if the input ended inside a request, `NoMemory` if a growth was refused.
    pub fn next_request(&mut self) -> Result<Next, WireFault>
        ensures ready { self.old.phase ≡ Phase.Ready
            → ReadsNext self.old.max_body self.old.input self.new.input result }
        ensures over { self.old.phase ≡ Phase.Over
            → (result ≡ Ok Next.Over) × (self.new ≡ self.old) }
        ensures ended { self.old.phase ≡ Phase.Ended
            → (result ≡ Err WireFault.Ended) × (self.new ≡ self.old) }
        ensures phase { self.new.phase ≡ phase_after result }
        ensures limit { self.new.max_body ≡ self.old.max_body }
        ensures costs { Costs (most_reads self.old.max_body) (result ≡ Err WireFault.Read)
            self.old.input.source self.new.input.source }
    {
        match self.phase {
            Phase::Over => return Ok(Next::Over),
            Phase::Ended => return Err(WireFault::Ended),
            Phase::Ready => {}
        }
        let next = self.input.next(&mut self.source);
        self.phase = match &next {
            Ok(Next::Request { ask: _, style: _ }) => Phase::Ready,
            Ok(Next::Over) => Phase::Over,
            _ => Phase::Ended,
        };
        next
    }
}
