//! What a caller lends a pool: connections, secrets, and who is told of each request. The clock is `Moments`.
ghost use Rattle.std.specs.Prelude.{Option, ◌≡◌, ℕ, List, replicate, OnOk, OnErr};
ghost use Rattle.upload_service.specs.Requests.{chunk_ask};
ghost use Rattle.upload_intake.specs.Notices.{Notice};
ghost use Rattle.upload_intake.specs.Notices.Notice.{Asking, Answered};
ghost use Rattle.upload_intake.specs.Secrets.{secret_of};

use http_wire::{ByteSink, ByteSource};
use rand::Rng;
use upload_service::{Answer, Ask, GoneChunk};
use upload_wire::NotAsked;

/// The connections of one worker, one after the other.
pub trait Conns {
    /// What the requests are read from.
    type In: ByteSource + Send + Drop;
    /// What the replies are written to.
    type Out: ByteSink + Send + Drop;

    // Holds of the state before, the connection that is given, or none if no more come, and the state after.
    ghost gives: { Self → Option (Self.In × Self.Out) → Self → Type 0 };

    // Holds of the state before, the connection that is given back, and the state after.
    ghost takes_back: { Self → Self.In × Self.Out → Self → Type 0 };

    // What has to be known of a connection that is given back, of the state before and of both ends: a server that
    // never returns has to know it each time.
    ghost may_come_back: { Self → Self.In × Self.Out → Type 0 } = { λ _ _. Unit {0} };

    /// The next connection, or None if no more come.
    fn next_conn(&mut self) -> Option<(Self::In, Self::Out)>
        ensures { gives self.old result self.new };

    /// Takes a connection back that was served, before the next one is asked for: both ends are as its conversation
    /// left them.
    fn take_back(&mut self, source: Self::In, sink: Self::Out)
        requires { may_come_back self.old (source, sink) }
        ensures { takes_back self.old (source, sink) self.new };
}

/// Stands between a worker and its seat, where a test may hold the worker. It is told of each request that is asked:
/// which of the worker's it is, counted from 1, and what it is answered. The count stays at 2^64 - 1 once there.
pub trait Gate {
    // Holds of the state before, which request it is, what is told of it, and the state after.
    ghost watches: { Self → ℕ → Notice → Self → Type 0 };

    /// This request is about to be asked.
    fn before_ask(&mut self, turn: u64, ask: &Ask)
        ensures { watches self.old turn (Asking ask.now) self.new };

    /// The same of a chunk whose bytes were let go. An `Err` says that it isn't to be asked, and nothing is told then:
    /// so says a gate that has no such call of its own.
    fn before_gone(&mut self, turn: u64, chunk: &GoneChunk) -> Result<(), NotAsked>
        ensures told { OnOk result (watches self.old turn (Asking (chunk_ask chunk.now)) self.new) }
        ensures same { OnErr result (self.new ≡ self.old) }
    {
        let _ = turn;
        let _ = chunk;
        Err(NotAsked)
    }

    /// The request was answered so. Where the keeper is gone this isn't called.
    fn after_answer(&mut self, turn: u64, answer: &Answer)
        ensures { watches self.old turn (Answered answer.now) self.new };
}

/// Holds nobody.
#[derive(Clone, Copy, Debug, Default)]
pub struct NoGate;

impl Gate for NoGate {
    ghost watches = { λ old turn notice new. new ≡ old };

    fn before_ask(&mut self, _turn: u64, _ask: &Ask) {}

    fn before_gone(&mut self, _turn: u64, _chunk: &GoneChunk) -> Result<(), NotAsked> {
        Ok(())
    }

    fn after_answer(&mut self, _turn: u64, _answer: &Answer) {}
}

/// Draws the secret that goes into the reference of a session that a request may open.
pub trait Secrets {
    // Holds of the state before a draw, the secret that is drawn, and the state after.
    ghost draws: { Self → List ℕ → Self → Type 0 };

    /// The next twelve bytes.
    fn draw(&mut self) -> [u8; 12]
        ensures { draws self.old result self.new };
}

/// Twelve zero bytes each time: the references are known to anyone. For one client, and for tests.
#[derive(Clone, Copy, Debug, Default)]
pub struct ZeroSecrets;

impl Secrets for ZeroSecrets {
    ghost draws = { λ old secret new. secret ≡ replicate 12 0 };

    fn draw(&mut self) -> [u8; 12] {
        [0; 12]
    }
}

/// The big-endian bytes of the generator's next 64 bits, and then of its next 32. Two generators of one seed give the
/// same secrets; that nobody can guess them is up to the generator.
#[derive(Drop)]
pub struct DrawnSecrets<G> {
    generator: G,
}

impl<G: Rng> DrawnSecrets<G> {
    ghost use Rattle.upload_intake.specs.Generators.{generator_of};

    /// Secrets of this generator's stream, from where it stands.
    pub fn new(generator: G) -> DrawnSecrets<G>
        ensures { generator_of result ≡ generator }
    {
        DrawnSecrets { generator }
    }
}

impl<G: Rng> Secrets for DrawnSecrets<G> {
    ghost draws = { λ old secret new.
        (secret, G.stream new.generator) ≡ secret_of (G.stream old.generator) };

    fn draw(&mut self) -> [u8; 12] {
        let high = self.generator.next_u64().to_be_bytes();
        let low = self.generator.next_u32().to_be_bytes();
        let mut secret = [0; 12];
        secret[..8].copy_from_slice(&high);
        secret[8..].copy_from_slice(&low);
        secret
    }
}
