//! What answers the requests of a connection.
ghost use Rattle.std.specs.Prelude.{◌≡◌, Option, Some, IsSome, IfOk, IfErr};
ghost use Rattle.upload_service.specs.declared.ask.Ask.{Ask as AskModel};
ghost use Rattle.upload_service.specs.declared.answer.Answer.{Answer as AnswerModel};
ghost use Rattle.upload_service.specs.Requests.{ask_in, chunk_ask};

use upload_service::{Answer, Ask, GoneChunk, Request, Service};

/// What answers the requests of a connection, one after another.
pub trait Desk {
    // How it moves: from a state, by an ask, with an answer or none if it is gone, to a new state.
    ghost moves: { Self → AskModel → Option AnswerModel → Self → Type 0 };

    /// The answer, or `None` if the desk is gone.
    fn ask(&mut self, ask: Ask) -> Option<Answer>
        ensures { moves self.old ask result self.new };

    /// Answers a chunk whose bytes were let go, since there was no room for them, as `ask` answers one that can't be
    /// taken. An `Err` says that this desk can't: it wasn't asked. So says one that has no such answer of its own.
    fn turn_away(&mut self, chunk: GoneChunk) -> Result<Option<Answer>, NotAsked>
        ensures asked { IfOk result (λ answer. moves self.old (chunk_ask chunk) answer self.new) }
        ensures unasked { IfErr result (λ _. self.new ≡ self.old) }
    {
        let _ = chunk;
        Err(NotAsked)
    }
}

/// A desk wasn't asked.
#[derive(Clone, Copy, Debug, Drop, PartialEq, Eq)]
pub struct NotAsked;

/// A service of one's own, with one secret for the sessions that are opened, at one moment in seconds. It is
/// never gone.
#[derive(Drop)]
pub struct ServiceDesk {
    service: Service,
    secret: [u8; 12],
    now: u64,
}

impl ServiceDesk {
    /// A desk over the service. It takes no memory.
    pub fn new(service: Service, secret: [u8; 12], now: u64) -> ServiceDesk
        ensures { result ≡ record { service = service; secret = secret; now = now } }
    {
        ServiceDesk {
            service,
            secret,
            now,
        }
    }

    /// The service, as the asks have left it.
    pub fn into_service(self) -> Service
        ensures { result ≡ self.service }
    {
        let ServiceDesk {
            service,
            secret: _,
            now: _,
        } = self;
        service
    }
}

impl Desk for ServiceDesk {
    ghost use Rattle.upload_wire.specs.ServiceTurns.{StepsService};

    ghost moves = { StepsService };

    fn ask(&mut self, ask: Ask) -> Option<Answer> {
        Some(self.service.step(ask, self.secret, self.now))
    }

    fn turn_away(&mut self, chunk: GoneChunk) -> Result<Option<Answer>, NotAsked> {
        Ok(Some(self.service.turn_away(chunk, self.now)))
    }
}

/// Asks a desk. An `Err` says that it can't be asked so.
pub(crate) fn ask_desk<D: Desk>(desk: &mut D, request: Request) -> Result<Option<Answer>, NotAsked>
    ensures asked { IfOk result (λ answer. D.moves desk.old (ask_in request) answer desk.new) }
    ensures unasked { IfErr result (λ _. desk.new ≡ desk.old) }
{
    match request {
        Request::Held(ask) => Ok(desk.ask(ask)),
        Request::Gone(chunk) => desk.turn_away(chunk),
    }
}
