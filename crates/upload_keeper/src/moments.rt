//! The clock that a caller lends a keeper.
ghost use Rattle.std.specs.Prelude.{ℕ};

use upload_service::Service;

/// Where the moments come from at which requests are served. It may look at the service between them.
pub trait Moments {
    // Holds of the state before the clock is asked, the moment that it tells, and the state after.
    ghost tells: { Self → ℕ → Self → Type 0 };

    /// The moment, in seconds from a start of one's own. A keeper never goes back: if this falls, it stays at the
    /// moment before.
    fn now(&mut self) -> u64
        ensures { tells self.old result self.new };

    /// Each time that all requests which the keeper took are answered: the service is so then. Nobody is served before
    /// this returns.
    fn rests(&self, service: &Service) {
        let _ = service;
    }
}
