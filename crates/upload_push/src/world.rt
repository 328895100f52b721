//! A service behind a network that loses requests and replies, beside other clients: the world in which the promise of
//! a push is stated.
ghost use Rattle.std.specs.Prelude.{◌≡◌};
ghost use Rattle.std.specs.Prelude.{Option, length};
ghost use Rattle.upload_service.specs.declared.ask.Ask.{Ask};
ghost use Rattle.upload_client.specs.declared.heard.Heard.{Heard};
ghost use Rattle.upload_service.specs.declared.answer.Answer.{Answer};
ghost use Rattle.upload_service.specs.Machine.{Turn};
ghost use Rattle.upload_push.specs.World.{World, Asked, Meets, Reaches, IsSecret, IsLawfulWorld};

use std::alloc::{AllocError, Global};
use std::marker::Model;
use std::vec::IntoIter;
use upload_client::{Heard, LentChunk, Transport, heard_of};
use upload_service::{Ask, Service};

/// What becomes of a request, or what happens in front of it.
#[derive(Drop)]
pub enum Event {
    /// The request is served and its reply is heard.
    Delivered,
    /// The request is served and its reply is lost.
    ReplyLost,
    /// The request is lost.
    NotDelivered,
    /// Another client's request is served first.
    Other(Ask),
    /// So many seconds pass first; the moment stops at 2^64 - 1.
    Passes(u64),
}

/// What becomes of one request.
#[derive(Clone, Copy, Debug, PartialEq, Eq)]
enum Fate {
    Delivered,
    ReplyLost,
    NotDelivered,
}

/// A service behind a network that loses requests and replies, as a list of events says, beside other clients. Each
/// request takes the events in front of it, and then one that says what becomes of it; when the events are used up, it
/// is delivered.
#[derive(Drop)]
pub struct LossyWorld {
    alloc: Global,
    service: Service,
    secret: [u8; 12],
    now: u64,
    events: IntoIter<Event, Global>,
}

impl Model for LossyWorld {
    ghost use Rattle.std.specs.Vec.Iter.{into_iter_items};
    ghost use Rattle.upload_push.specs.World.{World};
    ghost use Rattle.upload_push.specs.Codes.{world_code};

    ghost Value = { World };

    ghost coded = { world_code };

    ghost view = { λ w. record {
      service = w.service;
      secret = w.secret;
      now = w.now;
      events = into_iter_items w.events;
    } };
}

/// Serves a request whose answer nobody hears.
fn serve(service: &mut Service, ask: Ask, secret: [u8; 12], now: u64)
    ensures { (answer : Answer) × Turn service.old ask secret now answer service.new }
{
    let _ = service.step(ask, secret, now);
}

/// Serves a request, and hears its reply if there is memory for it.
fn reply(
    alloc: Global,
    service: &mut Service,
    ask: Ask,
    secret: [u8; 12],
    now: u64,
) -> Option<Heard>
    ensures { (answer : Answer) × Turn service.old ask secret now answer service.new
        × Reaches answer result }
{
    let answer = service.step(ask, secret, now);
    heard_of(alloc, &answer).ok()
}

/// Does nothing: its clause is what the type says.
fn is_secret(secret: &[u8])
    requires { length secret.now ≡ 12 }
    ensures { IsSecret secret.now }
{}

impl LossyWorld {
    /// A world of this service, whose turns have this secret and come at this moment in seconds until time passes. It
    /// takes no memory; the allocator is for the replies to come.
    pub fn new(
        alloc: Global,
        service: Service,
        secret: [u8; 12],
        now: u64,
        events: Vec<Event>,
    ) -> LossyWorld
        ensures value { result
            ≡ record { service = service; secret = secret; now = now; events = events.items } }
        ensures lawful { IsLawfulWorld result }
    {
        // for their clauses: a service that is held is lawful, and the secret's bytes are bytes
        let _ = service.limits();
        is_secret(&secret);
        LossyWorld {
            alloc,
            service,
            secret,
            now,
            events: events.into_iter(),
        }
    }

    /// The service as it stands; events that are left are dropped.
    pub fn into_service(self) -> Service
        ensures { result ≡ self.service }
    {
        self.service
    }

    /// Takes what stands in front of the next request, and then what becomes of that.
    fn next_fate(&mut self) -> Fate
        ensures { (ask : Ask) (heard : Option Heard) (new : World)
            → Meets result self.new ask heard new → Asked self.old ask heard new }
    {
        while let Some(event) = self.events.next() {
            match event {
                Event::Delivered => return Fate::Delivered,
                Event::ReplyLost => return Fate::ReplyLost,
                Event::NotDelivered => return Fate::NotDelivered,
                Event::Other(other) => serve(&mut self.service, other, self.secret, self.now),
                Event::Passes(seconds) => self.now = self.now.saturating_add(seconds),
            }
        }
        Fate::Delivered
    }
}

impl Transport for LossyWorld {
    ghost asked = { λ w ask heard new. Asked w ask heard new };

    /// None if the request or its reply was lost, or if memory was out for the reply.
    fn ask(&mut self, ask: Ask) -> Option<Heard> {
        match self.next_fate() {
            Fate::NotDelivered => None,
            Fate::ReplyLost => {
                serve(&mut self.service, ask, self.secret, self.now);
                None
            }
            Fate::Delivered => reply(self.alloc, &mut self.service, ask, self.secret, self.now),
        }
    }

    /// A service keeps what it takes: the chunk is copied first.
    fn ask_chunk(&mut self, chunk: &LentChunk<'_>) -> Result<Option<Heard>, AllocError> {
        let ask = chunk.to_ask(self.alloc)?;
        Ok(self.ask(ask))
    }
}
