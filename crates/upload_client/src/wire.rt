//! A transport over a reader and a writer of bytes.
ghost use Rattle.std.specs.Prelude.{◌≡◌, IfErr, IfOk, IsOk, OnErr, IsTrue, [], false, true};
ghost use Rattle.upload_service.specs.declared.ask.Ask.{Ask as AskModel};
ghost use Rattle.http_wire.specs.States.{input_state};
ghost use Rattle.upload_client.specs.AskText.{CanBeWritten, ask_of_chunk, is_host, wants_head};
ghost use Rattle.upload_client.specs.TransportText.{AsksOverWire, HearsBehind, awaited, is_refusal, refusal_in};
ghost use Rattle.upload_client.specs.TransportText.{stays_open};

use crate::answer::AnswerReader;
use crate::ask::{is_bodiless, write_ask, write_chunk};
use crate::heard::{Heard, HeardFault};
use crate::transport::{LentChunk, Transport};
use http_wire::{ByteSink, ByteSource, ReadBuffer, WriteFault};
use std::alloc::{AllocError, Global};
use std::marker::Model;
use upload_names::Bytes;
use upload_service::Ask;

/// Asks as requests over a writer, and hears the replies of a reader. After a fault of either, after a reply that
/// doesn't keep the connection, and if a byte was read before the next request was written, it writes nothing and
/// hears nothing.
///
/// A server may refuse a request before it was sent whole, and close. So if a write failed of a request with a body,
/// one reply is read all the same, and heard if it is a refusal: 4xx, but neither 408 nor 416.
#[derive(Drop)]
pub struct WireTransport<S: ByteSource, W: ByteSink> {
    reader: AnswerReader<S>,
    writer: W,
    host: Bytes,
    broken: bool,
}

impl<S: ByteSource, W: ByteSink> Model for WireTransport<S, W> {
    ghost use Rattle.std.specs.Prelude.{IsTrue};
    ghost use Rattle.upload_client.specs.AskText.{is_host};
    ghost use Rattle.upload_client.specs.TransportText.{ReaderGoesOn, WireState};

    ghost Value = { WireState };

    ghost view = { λ t. record {
      reader = t.reader;
      writer = W.state t.writer;
      host = t.host;
      broken = t.broken;
    } };

    ghost invariant = { λ t. IsTrue (is_host t.host) × ReaderGoesOn t.broken t.reader };
}

impl<S: ByteSource, W: ByteSink> WireTransport<S, W> {
    /// A transport to a host, which has at least one byte, all of them visible ASCII.
    pub fn new(
        alloc: Global,
        source: S,
        writer: W,
        host: &[u8],
    ) -> Result<WireTransport<S, W>, AllocError>
    where
        S: Drop,
        W: Drop,
        requires { IsTrue (is_host host.now) }
        ensures { IfOk result (λ transport. transport ≡ record {
          reader = record {
            input = input_state [] (S.state source);
            ended = false;
            keep = true;
          };
          writer = W.state writer;
          host = host.now;
          broken = false;
        }) }
    {
        WireTransport::over(alloc, source, writer, host).map_err(|_| AllocError)
    }

    /// The same, but for want of memory both halves are given back as they are.
    pub fn over(
        alloc: Global,
        source: S,
        writer: W,
        host: &[u8],
    ) -> Result<WireTransport<S, W>, (S, W)>
    where
        S: Drop,
        W: Drop,
        requires { IsTrue (is_host host.now) }
        ensures made { IfOk result (λ transport. transport ≡ record {
          reader = record {
            input = input_state [] (S.state source);
            ended = false;
            keep = true;
          };
          writer = W.state writer;
          host = host.now;
          broken = false;
        }) }
        ensures given_back { IfErr result (λ halves. (S.state halves.0 ≡ S.state source)
            × (W.state halves.1 ≡ W.state writer)) }
    {
        let Ok(buffer) = ReadBuffer::new(alloc) else {
            return Err((source, writer));
        };
        let Ok(host) = Vec::from_slice(alloc, host) else {
            return Err((source, writer));
        };
        Ok(WireTransport {
            reader: AnswerReader::over(alloc, source, buffer),
            writer,
            host: Bytes::of(host),
            broken: false,
        })
    }

    /// Both halves, as the asks left them.
    pub fn into_halves(self) -> (S, W)
        ensures { (S.state result.0 ≡ self.reader.input.source) × (W.state result.1 ≡ self.writer) }
    {
        let WireTransport { reader, writer, .. } = self;
        (reader.into_source(), writer)
    }

    /// Whether more can be asked: no fault broke the transport, the reply that was heard last keeps the connection, and
    /// no byte was read behind it. Behind one that doesn't keep it the server closes it, and a client sends nothing
    /// more (RFC 9112, section 9.6); bytes that came before the next request are no reply to it, and a client closes
    /// the connection (section 9.2).
    pub fn stays_open(&self) -> bool
        ensures { result ≡ stays_open self.now }
    {
        !self.broken && self.reader.keeps_connection() && self.reader.holds_none()
    }
}

/// Whether an ask is a HEAD.
fn wants_head(ask: &Ask) -> bool
    ensures { result ≡ wants_head ask.now }
{
    match ask {
        Ask::Has { head, .. } => *head,
        _ => false,
    }
}

/// Whether a status refuses a request as it is, whatever the rest of it: 4xx, but neither 408 nor 416.
fn is_refusal(status: u16) -> bool
    ensures { result ≡ is_refusal status }
{
    400 <= status && status < 500 && status != 408 && status != 416
}

/// What is heard of the reply to a request that wasn't written whole.
fn refusal_in(reply: Result<Heard, HeardFault>) -> Option<Heard>
    ensures { result ≡ refusal_in reply }
{
    match reply {
        Ok(heard) if is_refusal(heard.status) => Some(heard),
        _ => None,
    }
}

impl<S: ByteSource, W: ByteSink> WireTransport<S, W> {
    /// Hears the reply to a request that was written so far.
    fn hear(&mut self, written: Result<(), WriteFault>, has_body: bool, head: bool) -> Option<Heard>
        requires { self.old.reader.ended ≡ false }
        ensures hears { HearsBehind (awaited written has_body) head self.old result self.new }
        ensures writer { self.new.writer ≡ self.old.writer }
        ensures host { self.new.host ≡ self.old.host }
    {
        if written.is_ok() {
            let reply = self.reader.next_answer(head);
            self.broken = reply.is_err();
            return reply.ok();
        }
        self.broken = true;
        if has_body {
            refusal_in(self.reader.next_answer(head))
        } else {
            None
        }
    }
}

impl<S: ByteSource, W: ByteSink> Transport for WireTransport<S, W> {
    ghost asked = { AsksOverWire };

    /// Writes the request, reads its reply, and says what was heard of it.
    fn ask(&mut self, ask: Ask) -> Option<Heard> {
        if !self.stays_open() {
            self.broken = true;
            return None;
        }
        let written = write_ask(&mut self.writer, &ask, self.host.as_slice());
        self.hear(written, !is_bodiless(&ask), wants_head(&ask))
    }

    /// The same of a chunk, which is written from the bytes that are lent, so no memory is wanted for a copy.
    fn ask_chunk(&mut self, chunk: &LentChunk<'_>) -> Result<Option<Heard>, AllocError>
        requires { CanBeWritten (ask_of_chunk chunk.now) }
        ensures asked { IfOk result
            (λ heard. AsksOverWire self.old (ask_of_chunk chunk.now) heard self.new) }
        ensures unasked { OnErr result (self.new ≡ self.old) }
        ensures answered { IsOk result }
    {
        if !self.stays_open() {
            self.broken = true;
            return Ok(None);
        }
        let written = write_chunk(&mut self.writer, chunk, self.host.as_slice());
        Ok(self.hear(written, !chunk.body.is_empty(), false))
    }
}
