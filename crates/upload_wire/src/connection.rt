//! A connection, served: requests are read, asked of a desk and replied to, in turn.
ghost use Rattle.std.specs.Prelude.{◌≡◌, ◌+◌, ◌<◌, None, Err, IfOk, IfSome};
ghost use Rattle.http_wire.specs.HeadText.{bad_status, status_number};
ghost use Rattle.http_wire.specs.States.{input_state};
ghost use Rattle.http_wire.specs.Reading.{Costs};
ghost use Rattle.upload_service.specs.Machine.{AreLawful};
ghost use Rattle.upload_wire.specs.Conversation.{IsConversation, connection, last_style};
ghost use Rattle.upload_wire.specs.Events.{Replied};
ghost use Rattle.upload_wire.specs.Phases.{most_reads};
ghost use Rattle.upload_wire.specs.Told.{IsTold, event_of, rules, sides};
ghost use Rattle.upload_wire.specs.Inner.ConversationSteps.{IsRepliedTo, RefusedWith};
ghost use Rattle.upload_wire.specs.Inner.ConversationSteps.{progress_of, styled};
ghost use Rattle.upload_wire.specs.Inner.Coming.{came_in};
ghost use Rattle.upload_wire.specs.Inner.ToldSteps.{ReadsTold, GoesOnTold, StopsTold, listening, observed};

use crate::desk::{Desk, ask_desk};
use crate::input::RequestInput;
use crate::observer::{NoObserver, Observer};
use crate::reply::{body_size, reply_status, write_reply};
use crate::request::{Came, Style};
use http_wire::{Bad, ByteSink, ByteSource, HeadRead, WireFault, bad_status, write_bad};
use std::alloc::{AllocError, Global};
use std::fmt;
use std::marker::Model;
use upload_bytes::{HashPlace, InPlace, Room};
use upload_service::{Answer, Limits};

/// The most requests that are answered on one connection.
const MAX_REQUESTS: usize = 10_000;

/// How a connection was disturbed.
#[derive(Clone, Copy, Debug, Drop, PartialEq, Eq)]
pub enum ConnFault {
    /// No further request could be read. Nothing was replied to what was read of it.
    Wire(WireFault),
    /// A write or a flush of a reply failed. The writer holds the replies before it, and a prefix of it.
    Write,
}

impl fmt::Display for ConnFault {
    ghost use Rattle.std.specs.Prelude.{Some};
    ghost use Rattle.upload_wire.specs.FaultTexts.{conn_fault_text};

    ghost output = { λ fault. Some (conn_fault_text fault) };

    fn fmt<W: fmt::Write>(&self, f: &mut fmt::Formatter<W>) -> fmt::Result {
        match self {
            ConnFault::Wire(fault) => write!(f, "no further request: {fault}"),
            ConnFault::Write => f.write_str("a reply could not be written"),
        }
    }
}

impl std::error::Error for ConnFault {}

/// How a connection ended.
#[derive(Clone, Copy, Debug, PartialEq, Eq)]
pub enum ConnEnd {
    /// The input ended behind the last request.
    Clean,
    /// A request wanted the connection to close, and was answered.
    AfterClose,
    /// What came was no request, and its reply was written.
    AfterBad,
    /// The 10,000th request was answered, and the reply closes the connection.
    TooMany,
    /// The desk was gone. The request that was asked of it got no reply.
    DeskGone,
    /// The connection was disturbed.
    Fault(ConnFault),
}

/// Reads requests, asks the desk and replies, in turn, until one of the ends of `ConnEnd`. It answers at most
/// 10,000 requests, and the last reply that may be closes the connection. After a failed write nothing more is
/// written or asked. Want of memory for the buffer or for a request is `Fault(Wire(NoMemory))`.
pub fn serve_connection<S: ByteSource, W: ByteSink, D: Desk>(
    alloc: Global,
    reader: &mut S,
    writer: &mut W,
    desk: &mut D,
    limits: Limits,
) -> ConnEnd
    requires { AreLawful limits }
    ensures { IsConversation D.moves limits.max_body
        (connection (S.state reader.old) desk.old (W.state writer.old))
        (connection (S.state reader.new) desk.new (W.state writer.new)) result }
{
    let Ok(mut server) = ConnectionServer::new(alloc, limits) else {
        return ConnEnd::Fault(ConnFault::Wire(WireFault::NoMemory));
    };
    server.serve(&InPlace, reader, writer, desk, &mut NoObserver)
}

/// Serves one connection after the other through one buffer, so that only a request may want memory.
#[derive(Drop)]
pub struct ConnectionServer {
    input: RequestInput,
    /// How many requests of the connection were answered.
    answered: usize,
}

impl Model for ConnectionServer {
    ghost use Rattle.std.specs.Prelude.{◌<◌};
    ghost use Rattle.upload_wire.specs.ServerState.{ServerState};

    ghost Value = { ServerState };

    ghost view = { λ s.
        record { max_body = s.input.max_body; held = s.input.held; answered = s.answered } };

    ghost invariant = { λ s. s.answered < 10000 };
}

impl ConnectionServer {
    /// A server of connections, whose requests have bodies of at most `limits.max_body` bytes. It makes its one buffer
    /// of 64 KiB, or answers that there is no memory for it.
    pub fn new(alloc: Global, limits: Limits) -> Result<ConnectionServer, AllocError>
        requires { AreLawful limits }
        ensures { IfOk result (λ server. server.max_body ≡ limits.max_body) }
    {
        ConnectionServer::granted(alloc, limits, None)
    }

    /// The same, but the bytes of bodies are granted of this room as they come. A body that it has no room for ends its
    /// connection as want of memory does.
    pub fn within(alloc: Global, limits: Limits, room: Room) -> Result<ConnectionServer, AllocError>
        requires { AreLawful limits }
        ensures { IfOk result (λ server. server.max_body ≡ limits.max_body) }
    {
        ConnectionServer::granted(alloc, limits, Some(room))
    }

    fn granted(
        alloc: Global,
        limits: Limits,
        room: Option<Room>,
    ) -> Result<ConnectionServer, AllocError>
        requires { AreLawful limits }
        ensures { IfOk result (λ server. server.max_body ≡ limits.max_body) }
    {
        let input = RequestInput::new(alloc, limits, room)?;
        Ok(ConnectionServer { input, answered: 0 })
    }

    /// Serves a connection, as `serve_connection` does, and tells the observer of it. What the buffer holds of another
    /// is forgotten first. A large body is hashed at the place as it comes.
    pub fn serve<P: HashPlace, S: ByteSource, W: ByteSink, D: Desk, O: Observer>(
        &mut self,
        place: &P,
        reader: &mut S,
        writer: &mut W,
        desk: &mut D,
        observer: &mut O,
    ) -> ConnEnd
        ensures told { IsTold (rules D.moves O.told self.old.max_body)
            (sides (S.state reader.old) desk.old observer.old (W.state writer.old))
            (sides (S.state reader.new) desk.new observer.new (W.state writer.new)) result }
        ensures limit { self.new.max_body ≡ self.old.max_body }
    {
        self.input.begin();
        self.answered = 0;
        loop {
            if let Some(end) = self.serve_next(place, reader, writer, desk, observer) {
                return end;
            }
        }
    }

    /// Serves what comes next. `None`: the connection goes on.
    fn serve_next<P: HashPlace, S: ByteSource, W: ByteSink, D: Desk, O: Observer>(
        &mut self,
        place: &P,
        reader: &mut S,
        writer: &mut W,
        desk: &mut D,
        observer: &mut O,
    ) -> Option<ConnEnd>
        ensures goes_on { result ≡ None → GoesOnTold (rules D.moves O.told self.old.max_body)
            (observed (progress_of self.old (S.state reader.old) desk.old (W.state writer.old))
            observer.old)
            (observed (progress_of self.new (S.state reader.new) desk.new (W.state writer.new))
            observer.new) }
        ensures stops { IfSome result (StopsTold (rules D.moves O.told self.old.max_body)
            (observed (progress_of self.old (S.state reader.old) desk.old (W.state writer.old))
            observer.old)
            (observed (progress_of self.new (S.state reader.new) desk.new (W.state writer.new))
            observer.new)) }
        ensures limit { self.new.max_body ≡ self.old.max_body }
    {
        match self.read_next(place, reader, observer) {
            Ok(Came::Request { request, style }) => match ask_desk(desk, request) {
                Ok(Some(answer)) => {
                    let end = self.reply(writer, &answer, style);
                    tell_reply(observer, &answer, style);
                    end
                }
                Ok(None) => Some(ConnEnd::DeskGone),
                Err(_) => Some(ConnEnd::Fault(ConnFault::Wire(WireFault::NoMemory))),
            },
            Ok(Came::Over) => Some(ConnEnd::Clean),
            Ok(Came::Bad(why)) => {
                let end = refuse(writer, why);
                observer.replied(bad_status(why).number(), 0);
                Some(end)
            }
            Err(fault) => Some(ConnEnd::Fault(ConnFault::Wire(fault))),
        }
    }

    /// Reads what comes next. The observer is told of its head before the body is read.
    fn read_next<P: HashPlace, S: ByteSource, O: Observer>(
        &mut self,
        place: &P,
        reader: &mut S,
        observer: &mut O,
    ) -> Result<Came, WireFault>
        ensures told { ReadsTold O.told self.old.max_body
            (listening (input_state self.old.held (S.state reader.old)) observer.old)
            (listening (input_state self.new.held (S.state reader.new)) observer.new) (came_in result) }
        ensures costs { Costs (most_reads self.old.max_body) (result ≡ Err WireFault.Read)
            (S.state reader.old) (S.state reader.new) }
        ensures answered { self.new.answered ≡ self.old.answered }
        ensures limit { self.new.max_body ≡ self.old.max_body }
    {
        match self.input.next_head(reader)? {
            HeadRead::Head(parsed) => {
                observer.hears(Some(self.input.line(&parsed)));
                self.input.next_body(place, reader, &parsed)
            }
            HeadRead::Over => Ok(Came::Over),
            HeadRead::Refused => {
                observer.hears(None);
                Ok(Came::Bad(Bad::Head))
            }
            HeadRead::TooLong => {
                observer.hears(None);
                Ok(Came::Bad(Bad::LongHead))
            }
        }
    }

    /// Replies to a request behind those that were answered. `None`: the connection goes on.
    fn reply<W: ByteSink>(
        &mut self,
        writer: &mut W,
        answer: &Answer,
        style: Style,
    ) -> Option<ConnEnd>
        ensures replies { IsRepliedTo self.old.answered (styled answer.now style)
            (W.state writer.old) (W.state writer.new) result }
        ensures counted { result ≡ None → self.new.answered ≡ self.old.answered + 1 }
        ensures held { self.new.held ≡ self.old.held }
        ensures limit { self.new.max_body ≡ self.old.max_body }
    {
        self.input.note(answer);
        if write_reply(writer, answer, last_style(style, self.answered)).is_err() {
            return Some(ConnEnd::Fault(ConnFault::Write));
        }
        if !style.keep {
            return Some(ConnEnd::AfterClose);
        }
        if self.answered + 1 == MAX_REQUESTS {
            return Some(ConnEnd::TooMany);
        }
        self.answered += 1;
        None
    }
}

/// Tells an observer of the reply to an answer.
fn tell_reply<O: Observer>(observer: &mut O, answer: &Answer, style: Style)
    ensures { O.told observer.old (event_of answer.now style) observer.new }
{
    let size = if style.head { 0 } else { body_size(answer) };
    observer.replied(reply_status(answer), size);
}

/// Replies to what is no request.
fn refuse<W: ByteSink>(writer: &mut W, why: Bad) -> ConnEnd
    ensures { RefusedWith (W.state writer.old) (W.state writer.new) why result }
{
    match write_bad(writer, why) {
        Ok(()) => ConnEnd::AfterBad,
        Err(_) => ConnEnd::Fault(ConnFault::Write),
    }
}

/// How the reply to a request behind `count` others is written: the last that may be closes the connection.
fn last_style(style: Style, count: usize) -> Style
    requires { count < MAX_REQUESTS }
    ensures { result ≡ last_style count style }
{
    Style {
        head: style.head,
        keep: style.keep && count + 1 != MAX_REQUESTS,
    }
}
