//! Where what changed the service is kept, before anybody hears of it.
ghost use Rattle.std.specs.Prelude.{◌≡◌, ◌≤◌, ℕ, max, Bool, true, List, [], ◌∷◌, ◌++◌, OnOk, OnErr};
ghost use Rattle.std.specs.Prelude.{Option, Some, None, IfSome, IsSome, if◌then◌else◌};
ghost use Rattle.upload_service.specs.Machine.{State};
ghost use Rattle.upload_service.specs.Run.{Exchange};
ghost use Rattle.upload_keeper.specs.Safety.{Asked, asked, answered_so, IsSafe};

use upload_bytes::Spool;
use upload_service::{Answer, Ask, Service};

/// What was added could not be kept.
#[derive(Clone, Copy, Debug, Drop, PartialEq, Eq)]
pub struct NotKept;

/// Keeps each request that changed the service, with its answer, before that answer is heard. A keeper adds what it
/// served, and then has all of it kept at once: between two calls of `keep` it adds at most one of each seat, since
/// these wait for their answers.
///
/// It promises moments too. Each request is noted, also one that changes nothing, and it is answered only at a moment
/// that is promised: whoever goes on from what is kept begins at none before it.
pub trait Keeping {
    // The service before all that is kept; what is kept, in order; what was added and is not kept yet; the last moment
    // that was noted, and the moments up to which are promised; and whether a `keep` failed.
    ghost start: { Self → State };

    ghost kept: { Self → List Exchange };

    ghost waiting: { Self → List Exchange };

    ghost last: { Self → ℕ };

    ghost upto: { Self → ℕ };

    ghost failed: { Self → Bool };

    // The request that was noted last, if there is room for what is to be kept of it.
    ghost noted: { Self → Option Asked };

    /// Where bodies are written as they come, before the requests that have them are asked. None if they aren't.
    fn spool(&self) -> Option<Spool>;

    /// Notes a request that this service is about to be asked, with the secret and the moment of it, and makes room for
    /// what is to be kept of it if it changes something. Says whether there is room. If there is none, whoever
    /// asks has the service change nothing (`Service::step_unchanged`), and the next request may find some. So it may
    /// also say of a request that changes nothing anyway.
    fn note(&mut self, service: &Service, ask: &Ask, secret: [u8; 12], now: u64) -> bool
        ensures noted { noted self.new ≡ (if result then Some (asked ask.now secret now) else None) }
        ensures start { start self.new ≡ start self.old }
        ensures kept { kept self.new ≡ kept self.old }
        ensures waiting { waiting self.new ≡ waiting self.old }
        ensures last { last self.new ≡ max (last self.old) now }
        ensures upto { upto self.new ≡ upto self.old };

    /// Adds the request that was noted last, which changed something, with its answer. It is called only if there is
    /// room for it. Nobody hears that answer before `keep`.
    fn add(&mut self, answer: &Answer)
        requires { IsSome (noted self.old) }
        ensures start { start self.new ≡ start self.old }
        ensures kept { kept self.new ≡ kept self.old }
        ensures waiting { IfSome (noted self.old) (λ request. waiting self.new
            ≡ waiting self.old ++ answered_so request answer.now ∷ []) }
        ensures last { last self.new ≡ last self.old }
        ensures upto { upto self.new ≡ upto self.old };

    /// Says that the request that was noted last changed nothing, so that nothing is kept of it.
    fn let_go(&mut self)
        ensures start { start self.new ≡ start self.old }
        ensures kept { kept self.new ≡ kept self.old }
        ensures waiting { waiting self.new ≡ waiting self.old }
        ensures last { last self.new ≡ last self.old }
        ensures upto { upto self.new ≡ upto self.old };

    /// Waits a moment for more that is to be kept, if what waits is worth it: all that is added before the next `keep`
    /// is kept by it at once. Says whether it waited. A keeper calls it while somebody whom it answered last may ask
    /// soon.
    fn linger(&mut self) -> bool
        ensures start { start self.new ≡ start self.old }
        ensures kept { kept self.new ≡ kept self.old }
        ensures waiting { waiting self.new ≡ waiting self.old }
        ensures last { last self.new ≡ last self.old }
        ensures upto { upto self.new ≡ upto self.old };

    /// Keeps all that waits, and promises the moments up to the last that was noted. It does nothing if nothing waits
    /// and that moment is promised. Whoever calls it has a proof, at each call, that what is kept by it is a run from
    /// the start of which the headline holds.
    ///
    /// At `NotKept` some of it may be kept. None of what waits is ever heard, and the keeper calls nothing more.
    fn keep(&mut self) -> Result<(), NotKept>
        requires { IsSafe (start self.old) (kept self.old ++ waiting self.old) }
        ensures start { start self.new ≡ start self.old }
        ensures kept { OnOk result (kept self.new ≡ kept self.old ++ waiting self.old) }
        ensures waiting { OnOk result (waiting self.new ≡ []) }
        ensures last { last self.new ≡ last self.old }
        ensures upto { upto self.old ≤ upto self.new }
        ensures promised { OnOk result (last self.old ≤ upto self.new) }
        ensures failed { OnErr result (failed self.new ≡ true) };
}

/// A service, and where its changes are kept from now on.
#[derive(Drop)]
pub struct KeptService<K> {
    /// The service, to which what is kept leads.
    pub service: Service,
    /// What was kept so far, if the service was there before.
    pub keeping: K,
    /// The moment at which to begin, in seconds from the same start as the moments of what was kept. None of what was
    /// served before was after it, also of what isn't kept: else an upload that was told to be gone could be there
    /// again. The keeping has noted it.
    pub since: u64,
}
