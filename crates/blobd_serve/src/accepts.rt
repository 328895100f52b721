//! What a worker is lent: connections that come to it, one after the other, and what was read and written over each.
ghost use Rattle.std.specs.Prelude.{◌≡◌, ◌++◌, ◌∷◌, [], false, IfOk, OnErr};
ghost use Rattle.blobd_shared.specs.Connections.ConnEvent.{made, given_back};

use blobd_shared::{Inlet, Outlet};
use std::io;
use std::time::Duration;

/// An end of a connection whose calls can be kept from waiting for ever.
pub trait Timed {
    /// From now on a read fails as one that would block if it waits for longer than this.
    fn limit_reads(&self, longest: Duration) -> io::Result<()>;

    /// The same of a write.
    fn limit_writes(&self, longest: Duration) -> io::Result<()>;

    /// Whether its server has ended, so that nobody is waited for.
    fn has_ended(&self) -> bool;
}

/// The connections of one worker, one after the other. A worker has no other way to get one, and gives each back
/// before it gets the next. `accept` and `take_back` have premises, so that this binds a server that never returns
/// too. Whoever is lent these knows when the premises hold (`serve_over`); nobody else can, since nothing is known of
/// `is_free` and `may_come_back`.
pub trait Accepts {
    ghost use Rattle.std.specs.Prelude.{List};
    ghost use Rattle.blobd_shared.specs.Connections.{ConnEvent};

    /// What the requests are read from.
    type In: Inlet + Timed + Drop;
    /// What the replies are written to.
    type Out: Outlet + Timed + Drop;

    // What happened so far, the oldest first: a connection was accepted, or one was given back, with all that was read
    // and written over it.
    ghost history: { Self → List ConnEvent };

    // A connection may be asked for: each one before was given back.
    ghost is_free: { Self → Type 0 } = { λ _. Unit {0} };

    // What has to be known of a connection that is given back, of the state before and of both ends.
    ghost may_come_back: { Self → Self.In × Self.Out → Type 0 } = { λ _ _. Unit {0} };

    /// The next connection, over which nothing was read or written. It is waited for. An error is the system's, or out
    /// of memory.
    fn accept(&mut self) -> io::Result<(Self::In, Self::Out)>
        requires { is_free self.old }
        ensures new { IfOk result (λ ends. (Self.In.given ends.0
            ≡ record { bytes = []; ended = false }) × (Self.Out.taken ends.1 ≡ [])) }
        ensures told { IfOk result (λ ends. history self.new ≡ history self.old ++ made ∷ []) }
        ensures none { OnErr result (history self.new ≡ history self.old) }
        ensures free { OnErr result (is_free self.new) };

    /// Whether the server has ended, so that no connection comes any more.
    fn has_ended(&self) -> bool;

    /// Takes a connection back that was served: both ends are as its conversation left them.
    fn take_back(&mut self, source: Self::In, sink: Self::Out)
        requires { may_come_back self.old (source, sink) }
        ensures told { history self.new ≡ history self.old
            ++ given_back (Self.In.given source) (Self.Out.taken sink) ∷ [] }
        ensures free { is_free self.new };
}
